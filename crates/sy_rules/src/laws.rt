//! Laws of lists and of what they execute. Each function does nothing; its contract is the law.
ghost use Rattle.std.specs.Prelude.{◌≡◌, ◌+◌, ◌++◌, ◌^◌, ◌<◌, ℕ, Some, true, false, is_some, option_and_then, slice_get, List, length};
ghost use Rattle.sy_wire.specs.declared.class.Class.{Class};
ghost use Rattle.sy_wire.specs.Messages.{Said};
ghost use Rattle.sy_select.specs.Truth.{Valuation, behind};
ghost use Rattle.sy_script.specs.declared.tree.Script.{Script};
ghost use Rattle.sy_rules.specs.check.FaultsThere.{HasNoFault};
ghost use Rattle.sy_rules.specs.PlanValue.{HasParts, IsGiven, IsPlan, Plan};
ghost use Rattle.sy_rules.specs.declared.parameters.objects.ActionParameters.{ActionParameters};
ghost use Rattle.sy_rules.specs.declared.parameters.objects.RulesetParameters.{RulesetParameters};
ghost use Rattle.sy_rules.specs.lists.Lines.{Lines, expand, expanded, is_deeper, list_at, list_of_action};
ghost use Rattle.sy_rules.specs.items.Outline.{items};
ghost use Rattle.sy_rules.specs.items.Expressions.{trees_of};
ghost use Rattle.sy_rules.specs.items.PartItems.{actions_of_parts, calls_of_parts, names_of_calls, params_of, rulesets_in, tests_of_parts};
ghost use Rattle.sy_rules.specs.parts.Plans.{actions_of, rulesets_of};
ghost use Rattle.sy_rules.specs.lists.Texts.{parts};
ghost use Rattle.sy_rules.specs.check.ScriptFaults.{untested};
ghost use Rattle.sy_rules.specs.lists.Laws.{IsChain, IsRising};
ghost use Rattle.sy_rules.specs.lists.Sets.{IsLowest};
ghost use Rattle.sy_rules.specs.lists.Body.{Body, ◌then◌, ◌⧺◌, count, executed, occurrences, tests, walk};
ghost use Rattle.sy_rules.specs.Whole.{IsWhole, body_at, owner_at, queue_at};
ghost use Rattle.sy_rules.specs.lists.Work.{Due, HasClass, May, Must};

use crate::plan::Plan;

/// What every valuation that a class admits executes, each message of the class executes.
pub fn must_is_work()
    ensures { (s : Body) (m : Said) (class : Class) (k : ℕ) → HasClass m class → Must s class k → Due s m k }
{}

/// It is executed under some admitted valuation, since there is one.
pub fn must_is_may()
    ensures { (s : Body) (class : Class) (k : ℕ) → Must s class k → May s class k }
{}

/// What a message executes, some valuation that its class admits executes.
pub fn work_is_may()
    ensures { (s : Body) (m : Said) (class : Class) (k : ℕ) → HasClass m class → Due s m k → May s class k }
{}

/// Each message executes occurrences of its list alone, and so does each valuation.
pub fn work_is_of_the_list()
    ensures work { (s : Body) (m : Said) (k : ℕ) → Due s m k → k < count s }
    ensures may { (s : Body) (class : Class) (k : ℕ) → May s class k → k < count s }
{}

/// What stands after a text is executed after it where no stop was met in that, with the numbers and the values after its own.
pub fn texts_follow()
    ensures { (s t : Body) (n : ℕ) (v : Valuation) → walk (s ⧺ t) n v
        ≡ walk s n v then walk t (n + count s) (behind (tests s) v) }
{}

/// Where calls lie in one another no deeper than that, the expanded text of a list is its own text, each call in it replaced by the
/// expanded text of the called list.
pub fn calls_are_replaced()
    ensures { (lists : List Lines) (depth l : ℕ) → is_deeper lists depth l ≡ false → expanded lists depth l
        ≡ expand (expanded lists depth) (list_at lists l) }
{}

/// Where a text stops, nothing after it is executed: so a stop in a list that is called at once ends the whole list.
pub fn a_stop_ends_all()
    ensures { (s t : Body) (n : ℕ) (v : Valuation) → (walk s n v).goes_on ≡ false → walk (s ⧺ t) n v ≡ walk s n v }
{}

/// The occurrences of two texts are those of the first and then those of the second, and so are their tests.
pub fn texts_join()
    ensures occurrences { (s t : Body) → occurrences (s ⧺ t) ≡ occurrences s ++ occurrences t }
    ensures tests { (s t : Body) → tests (s ⧺ t) ≡ tests s ++ tests t }
{}

/// What a valuation executes comes in rising order, each occurrence once.
pub fn executed_in_order()
    ensures { (s : Body) (v : Valuation) → IsRising (executed s v) }
{}

/// Calls lie in one another more than so deep exactly where there is a chain of one more call.
pub fn calls_too_deep_are_a_chain()
    ensures chain { (lists : List Lines) (depth l : ℕ) → is_deeper lists depth l ≡ true → (callees : List ℕ)
        × (length callees ≡ depth + 1) × IsChain lists l callees }
    ensures deep { (lists : List Lines) (depth l : ℕ) (callees : List ℕ) → length callees ≡ depth + 1
        → IsChain lists l callees
        → is_deeper lists depth l ≡ true }
{}

/// Each number that a plan gives exists, and a plan keeps the limits of a relay.
pub fn plans_are_whole(plan: &Plan)
    ensures { IsWhole plan.now }
{
    plan.is_whole()
}

/// A script has one plan at most.
pub fn one_plan()
    ensures { (script : Script) (p q : Plan) → IsPlan script p → IsPlan script q → p ≡ q }
{}

/// The parts that the objects of a script without faults give are those listed item after item, and no others.
pub fn parts_are_listed()
    ensures listed { (script : Script) (plan : Plan) → HasNoFault script → IsGiven script plan → HasParts script plan }
    ensures given { (script : Script) (plan : Plan) → HasNoFault script → HasParts script plan → IsGiven script plan }
{}

/// The queue of a ruleset's list is the one that the ruleset says it has. Where it says none, its list has none of its own.
pub fn lists_of_rulesets()
    ensures { (script : Script) (plan : Plan) (place : ℕ) (r : RulesetParameters) → IsPlan script plan
        → slice_get (rulesets_of (items script)) place ≡ Some r
        → option_and_then (slice_get plan.queues) (queue_at plan (place + 1)) ≡ r.queue }
{}

/// The list to which an action with a queue posts has that queue, and runs that action alone.
pub fn lists_of_actions()
    ensures queue { (script : Script) (plan : Plan) (number : ℕ) (a : ActionParameters) → IsPlan script plan
        → slice_get (actions_of (items script)) number ≡ Some a → is_some a.queue ≡ true
        → option_and_then (slice_get plan.queues)
        (queue_at plan (list_of_action (untested (items script)) number)) ≡ a.queue }
    ensures run { (script : Script) (plan : Plan) (number : ℕ) (a : ActionParameters) → IsPlan script plan
        → slice_get (actions_of (items script)) number ≡ Some a → is_some a.queue ≡ true
        → body_at plan (list_of_action (untested (items script)) number) ≡ Body.Run number Body.End }
{}

/// The list to which an action with a queue posts is that action's own, and no other list is an action's own: none of a ruleset, whatever it runs.
pub fn own_lists_are_those_of_actions()
    ensures own { (script : Script) (plan : Plan) (number : ℕ) (a : ActionParameters) → IsPlan script plan
        → slice_get (actions_of (items script)) number ≡ Some a → is_some a.queue ≡ true
        → owner_at plan (list_of_action (untested (items script)) number) ≡ Some number }
    ensures others { (script : Script) (plan : Plan) (list number : ℕ) → IsPlan script plan → owner_at plan list ≡ Some number
        → (a : ActionParameters) × (slice_get (actions_of (items script)) number ≡ Some a) × (is_some a.queue ≡ true)
        × (list ≡ list_of_action (untested (items script)) number) }
{}

/// The texts of a file's parts have the tests, actions and calls of its items, in the same order, and there are as many parts of rulesets
/// as rulesets.
pub fn texts_have_the_items()
    ensures tests { (script : Script) → tests_of_parts (parts script.tops) ≡ trees_of (items script) }
    ensures actions { (script : Script) → actions_of_parts (parts script.tops) ≡ params_of (items script) }
    ensures calls { (script : Script) → calls_of_parts (parts script.tops) ≡ names_of_calls (items script) }
    ensures rulesets { (script : Script) → rulesets_in (parts script.tops) ≡ length (rulesets_of (items script)) }
{}

/// A set of 64 bits with an occurrence in it has a lowest one. No set has two, and one set alone is left without it.
pub fn sets_have_a_lowest()
    ensures there { (set : ℕ) → 0 < set → set < 2 ^ 64 → (number : ℕ) × (left : ℕ) × (number < 64)
        × IsLowest set number left }
    ensures one { (set m n left rest : ℕ) → IsLowest set m left → IsLowest set n rest → (m ≡ n) × (left ≡ rest) }
{}
