//! The machine of a whole site: laws of its runs. Steps and runs are definitions (`specs/machine`). Each function
//! does nothing; its contract is the law.
ghost use Rattle.std.specs.Prelude.{◌≡◌, ◌<◌, ◌⊎◌, AllPairs, ◌||◌, ◌↔◌, ℕ, Bool, List, [], ◌∷◌, Some, true, false, length, slice_get};
ghost use Rattle.std.specs.Int.{bit_at};
ghost use Rattle.std.specs.List.{Contains};
ghost use Rattle.sy_wire.specs.Messages.{Said};
ghost use Rattle.sy_chain.specs.Entries.{Entry};
ghost use Rattle.sy_rules.specs.declared.lists.occurrence.Occurrence.TheVariants as occurrence;
ghost use Rattle.sy_rules.specs.Whole.{body_at, queue_for};
ghost use Rattle.sy_rules.specs.lists.Work.{May};
ghost use Rattle.sy_board.specs.relay.Cells.{Cell, at, hand};
ghost use Rattle.sy_board.specs.relay.Guards.{MayGuard};
ghost use Rattle.sy_board.specs.relay.Kinds.{MayLose};
ghost use Rattle.sy_board.specs.relay.Plans.{post_flow, queue_of_input, queue_of_worker};
ghost use Rattle.sy_board.specs.relay.Spares.{Scope};
ghost use Rattle.sy_board.specs.relay.Totals.{GuardState};
ghost use Rattle.sy_wire.specs.declared.class.Class.{Class};
ghost use Rattle.sy_site.specs.Sites.{Site, SiteAction, SiteInput, does_spare, is_protected, is_spare_list, plan_at, spares_at, target};
ghost use Rattle.sy_site.specs.machine.States.{Copy, SiteState, is_flagged_at, is_flagged_on};
ghost use Rattle.sy_site.specs.machine.Steps.{Runs, SiteEvent, SiteStep, TakesFrom, TakesNew};
ghost use Rattle.sy_site.specs.machine.Lengths.{IsWithinMarks, IsWithinSizes};
ghost use Rattle.sy_site.specs.machine.Findings.{IsFinding, IsForward, IsInnerLoop, IsWay, Kind, WayRow};
ghost use Rattle.sy_site.specs.machine.Reach.{Follows, MayDo, PostsOn, Reach, Reaches, list_of, occurrence_at};
ghost use Rattle.sy_site.specs.machine.Soundness.{AreRanks, IsGuarded, IsSound, IsSoundFor};
ghost use Rattle.sy_site.specs.machine.Confinement.{AreConfined, IsFollowed, RanksFall};
ghost use Rattle.sy_site.specs.machine.Lawful.{IsLawful};
ghost use Rattle.sy_site.specs.machine.Safety.{AreSafe, AreWrittenOrHead, IsWritten, LosesFlagged, LosesPlain};
ghost use Rattle.sy_site.specs.machine.Examples.{audit, example_events, example_site, narrow_events, narrow_site};
ghost use Rattle.sy_site.specs.machine.Naming.{AreShaped, NumbersName, TagsName};

/// The length bound: a queue whose feeders all wait at its full-delay mark, which is at least 1, is never longer than
/// that mark. It holds of every site and after every run, whatever comes from outside.
pub fn queues_stay_within_marks()
    ensures { (site : Site) → (events : List SiteEvent) → (state : SiteState)
        → Runs site events state → IsWithinMarks site state }
{}

/// No queue is ever longer than its size.
pub fn queues_stay_within_sizes()
    ensures { (site : Site) → (events : List SiteEvent) → (state : SiteState)
        → Runs site events state → IsWithinSizes site state }
{}

/// A number names its message: each copy is of the message that came from outside under its number, by the same input.
pub fn numbers_name_messages()
    ensures { (site : Site) → (events : List SiteEvent) → (state : SiteState)
        → Runs site events state → NumbersName state }
{}

/// Each tag that a run leaves, at a place, on a link, in a file or among the losses, names a copy, and an entry has its
/// copy's message.
pub fn tags_name_copies()
    ensures { (site : Site) → (events : List SiteEvent) → (state : SiteState) → Runs site events state
        → TagsName state }
{}

/// After every run each relay has the places of its plan.
pub fn relays_keep_their_places()
    ensures { (site : Site) → (events : List SiteEvent) → (state : SiteState)
        → Runs site events state → AreShaped site state }
{}

/// Confinement: where a site is sound for a class, its copies that came in at entries, but for flagged ones, are held at
/// inputs that the class reaches without spare occurrences alone: each in a hand of its input, in the input's queue or
/// by a worker of that queue, following the input's list; or in the queue of a list that a post led it to, which can't
/// lose it, or by a worker of that queue. What is due of each the class may execute there; one on a link is on a link
/// to an input that the class reaches so; and none is lost.
pub fn copies_are_confined()
    ensures { (site : Site) → (class : Class) → IsSoundFor site class → (events : List SiteEvent)
        → (state : SiteState) → Runs site events state → AreConfined site class state }
{}

/// A confined copy in a hand of an input is at that input, which its class reaches, and what is due of it its class may
/// execute there.
pub fn confined_hands()
    ensures { (site : Site) → (class : Class) → (state : SiteState) → AreConfined site class state
        → (relay input number : ℕ) → number < 64 → (entry : Entry)
        → Contains (at (state.relays relay) (hand input number)) entry → (copy : Copy)
        → IsFollowed site state class entry.tag copy → is_flagged_at site relay entry.list copy ≡ false
        → (entry.input ≡ input) × Reach site class Scope.Firm (record { relay = relay; input = input })
        × ((due : ℕ) → bit_at entry.due due ≡ 1
        → May (body_at (plan_at site relay) (list_of site (record { relay = relay; input = input }))) class due) }
{}

/// A confined copy in a queue is in its input's and follows that input's list; or it is in that of the list that it
/// follows, where a post put it that its class may execute in a list that it may follow, that isn't spare, and that can't
/// lose it.
pub fn confined_queues()
    ensures { (site : Site) → (class : Class) → (state : SiteState) → AreConfined site class state
        → (relay queue : ℕ) → (entry : Entry) → Contains (at (state.relays relay) (Cell.Queue queue)) entry
        → (copy : Copy) → IsFollowed site state class entry.tag copy → is_flagged_at site relay entry.list copy ≡ false
        → ((queue_of_input (plan_at site relay) entry.input ≡ queue)
        × (entry.list ≡ list_of site (record { relay = relay; input = entry.input })))
        ⊎ ((queue_for (plan_at site relay) entry.list ≡ queue)
        × ((before : ℕ) × (number : ℕ) × Follows site class Scope.Firm (record { relay = relay; input = entry.input }) before
        × MayDo site class Scope.Firm relay before number (occurrence.Post entry.list))
        × (MayLose (plan_at site relay) class (queue_for (plan_at site relay) entry.list)
        (post_flow (plan_at site relay) (queue_for (plan_at site relay) entry.list)) → ⊥)) }
{}

/// A confined copy at a worker is so of a queue that the worker takes from.
pub fn confined_workers()
    ensures { (site : Site) → (class : Class) → (state : SiteState) → AreConfined site class state
        → (relay worker : ℕ) → (entry : Entry) → Contains (at (state.relays relay) (Cell.Worker worker)) entry
        → (copy : Copy) → IsFollowed site state class entry.tag copy → is_flagged_at site relay entry.list copy ≡ false
        → ((queue_of_input (plan_at site relay) entry.input ≡ queue_of_worker (plan_at site relay) worker)
        × (entry.list ≡ list_of site (record { relay = relay; input = entry.input })))
        ⊎ ((queue_for (plan_at site relay) entry.list ≡ queue_of_worker (plan_at site relay) worker)
        × ((before : ℕ) × (number : ℕ) × Follows site class Scope.Firm (record { relay = relay; input = entry.input }) before
        × MayDo site class Scope.Firm relay before number (occurrence.Post entry.list))
        × (MayLose (plan_at site relay) class (queue_for (plan_at site relay) entry.list)
        (post_flow (plan_at site relay) (queue_for (plan_at site relay) entry.list)) → ⊥)) }
{}

/// A confined copy on the link of a forward is on its way to an input that its class reaches.
pub fn confined_links()
    ensures { (site : Site) → (class : Class) → (state : SiteState) → AreConfined site class state → (link : SiteAction)
        → IsForward (slice_get (plan_at site link.relay).actions link.action) → (tag : ℕ)
        → Contains (state.passed link) tag → (copy : Copy) → IsFollowed site state class tag copy
        → is_flagged_on site link copy ≡ false
        → (to : SiteInput) × (target site link ≡ Some to) × Reach site class Scope.Firm to }
{}

/// Falling ranks: along the trail of each of these copies, flagged ones too, at a place, on a link or in a file, any ranks
/// of the class fall, so that it comes to no relay twice; and each is at an input that the class reaches with spare
/// occurrences, or on its way to one.
pub fn ranks_fall_along_trails()
    ensures { (site : Site) → (class : Class) → IsSoundFor site class → (rank : ℕ → ℕ) → AreRanks site class rank
        → (events : List SiteEvent) → (state : SiteState) → Runs site events state
        → RanksFall site class rank state }
{}

/// Where ranks fall, they do along the trail of a copy at a place, also of a flagged one, and its entry stands for an input
/// that its class reaches with spare occurrences.
pub fn ranks_fall_at_places()
    ensures { (site : Site) → (class : Class) → (rank : ℕ → ℕ) → (state : SiteState) → RanksFall site class rank state
        → (relay : ℕ) → (cell : Cell) → (entry : Entry) → Contains (at (state.relays relay) cell) entry → (copy : Copy)
        → IsFollowed site state class entry.tag copy
        → AllPairs (λ earlier later. rank later < rank earlier) copy.trail
        × Reach site class Scope.Every (record { relay = relay; input = entry.input })
        × Follows site class Scope.Every (record { relay = relay; input = entry.input }) entry.list }
{}

/// Likewise along the trail of a copy on a link or in a file; and what the link leads to, its class reaches so.
pub fn ranks_fall_on_links()
    ensures { (site : Site) → (class : Class) → (rank : ℕ → ℕ) → (state : SiteState) → RanksFall site class rank state
        → (link : SiteAction) → (tag : ℕ) → Contains (state.passed link) tag → (copy : Copy)
        → IsFollowed site state class tag copy
        → AllPairs (λ earlier later. rank later < rank earlier) copy.trail
        × ((to : SiteInput) → target site link ≡ Some to → Reach site class Scope.Every to) }
{}

/// Written or heading there: after every run of a sound site each message of a protected class that came from outside
/// at an entry is, for each archive that is named for its class, written there, or held where it heads there, by a copy
/// that isn't flagged.
pub fn messages_are_written_or_head_there()
    ensures { (site : Site) → IsLawful site → IsSound site → (events : List SiteEvent) → (state : SiteState)
        → Runs site events state → AreWrittenOrHead site state }
{}

/// No loss: after every run of a sound site each message of a protected class that came from outside at an entry is,
/// for each archive that is named for its class, written there, or held where it heads there; no copy of it was lost but
/// at or after a spare action, and none came to a relay twice. Nothing is said of when a message moves, of other
/// classes, or of messages that came in elsewhere; and there may be several copies.
pub fn sound_sites_are_safe()
    ensures { (site : Site) → IsLawful site → IsSound site → (events : List SiteEvent) → (state : SiteState)
        → Runs site events state → AreSafe site state }
{}

/// The inputs that a class reaches without spare occurrences are those that ways from entries lead to; and each set of
/// inputs that has the entries, and what is reached from within it, has all that the class reaches, with spare occurrences
/// or without. Without them it reaches no more than with them.
pub fn reached_inputs()
    ensures by_ways { (site : Site) → (class : Class) → (way : List WayRow) → (input : SiteInput)
        → IsWay site class way input → Reach site class Scope.Firm input }
    ensures have_ways { (site : Site) → (class : Class) → (input : SiteInput) → Reach site class Scope.Firm input
        → (way : List WayRow) × IsWay site class way input }
    ensures least { (site : Site) → (class : Class) → (scope : Scope) → (inside : SiteInput → Bool)
        → ((input : SiteInput) → Contains site.entries input → inside input ≡ true)
        → ((from to : SiteInput) → (number : ℕ) → inside from ≡ true
        → Reaches site class scope from.relay (list_of site from) number to → inside to ≡ true)
        → (input : SiteInput) → Reach site class scope input → inside input ≡ true }
    ensures more { (site : Site) → (class : Class) → (input : SiteInput) → Reach site class Scope.Firm input
        → Reach site class Scope.Every input }
{}

/// The lists that messages of a class may follow from an input on are its own, and those that posts lead to from it. Posts
/// that follow posts lead on.
pub fn posts_lead_on()
    ensures lists { (site : Site) → (class : Class) → (scope : Scope) → (input : SiteInput) → (list : ℕ)
        → Follows site class scope input list
        ↔ ((list ≡ list_of site input) ⊎ PostsOn site class scope input.relay (list_of site input) list) }
    ensures onward { (site : Site) → (class : Class) → (scope : Scope) → (relay from mid to : ℕ)
        → PostsOn site class scope relay from mid → PostsOn site class scope relay mid to
        → PostsOn site class scope relay from to }
    ensures from_its_own { (site : Site) → (class : Class) → (scope : Scope) → (input : SiteInput) → (list to : ℕ)
        → Follows site class scope input list → PostsOn site class scope input.relay list to
        → PostsOn site class scope input.relay (list_of site input) to }
{}

/// Where the numbers of the lists that posts lead to from an input's own list fall along their posts, but for spare ones,
/// no list is met twice.
pub fn numbers_exclude_inner_loops()
    ensures { (site : Site) → (class : Class) → (input : SiteInput) → (inner : ℕ → ℕ)
        → ((list number to : ℕ) → PostsOn site class Scope.Firm input.relay (list_of site input) list
        → MayDo site class Scope.Firm input.relay list number (occurrence.Post to) → inner to < inner list)
        → IsInnerLoop site class input → ⊥ }
{}

/// A flag is set by spare occurrences, and kept: what comes from outside isn't flagged; what an occurrence of a list puts
/// onto a device, or into a queue, is flagged there exactly where it was flagged in that list, or the occurrence is spare;
/// and what is taken from a link is flagged exactly where it was on that link. A copy stays as it is.
pub fn flags_are_set_and_kept()
    ensures comes { (site : Site) → (old new : SiteState) → (input : SiteInput) → (hand : ℕ) → (message : Said)
        → TakesNew site old input hand message new → (taken : Copy)
        → slice_get new.copies (length old.copies) ≡ Some taken → taken.flag ≡ false }
    ensures runs { (site : Site) → (relay list number action : ℕ) → (copy : Copy)
        → occurrence_at site relay list number ≡ Some (occurrence.Run action)
        → is_flagged_on site (record { relay = relay; action = action }) copy
        ≡ is_flagged_at site relay list copy || does_spare site relay (occurrence.Run action) }
    ensures posts { (site : Site) → (relay list number to : ℕ) → (copy : Copy)
        → occurrence_at site relay list number ≡ Some (occurrence.Post to)
        → is_flagged_at site relay to copy
        ≡ is_flagged_at site relay list copy || does_spare site relay (occurrence.Post to) }
    ensures passes { (site : Site) → (old new : SiteState) → (input : SiteInput) → (hand : ℕ) → (link : SiteAction)
        → (place : ℕ) → (step : TakesFrom site old input hand link place new) → (taken : Copy)
        → slice_get new.copies (length old.copies) ≡ Some taken → taken.flag ≡ is_flagged_on site link step.copy }
    ensures stays { (site : Site) → (old new : SiteState) → (event : SiteEvent) → SiteStep site old event new → (tag : ℕ)
        → (copy : Copy) → slice_get old.copies tag ≡ Some copy → slice_get new.copies tag ≡ Some copy }
{}

/// The list of an input is no action's own: so what comes in isn't flagged there, but where it was taken flagged.
pub fn inputs_have_no_own_list()
    ensures { (site : Site) → IsLawful site → (input : SiteInput) → is_spare_list site input.relay (list_of site input) ≡ false }
{}

/// A sound site has no true finding of any kind.
pub fn sound_sites_have_no_finding()
    ensures { (site : Site) → IsSound site → (class : Class) → (way : List WayRow) → (input : SiteInput)
        → (kind : Kind) → IsFinding site class way input kind → ⊥ }
{}

/// The way of a loop begins at an entry. An archive that an entry doesn't lead to is found at the entry itself, without
/// a way.
pub fn findings_begin_at_entries()
    ensures loops { (site : Site) → (class : Class) → (way : List WayRow) → (input : SiteInput)
        → IsFinding site class way input Kind.Loop
        → (first : WayRow) × (later : List WayRow) × (way ≡ first ∷ later) × Contains site.entries first.input }
    ensures unmet { (site : Site) → (class : Class) → (way : List WayRow) → (input : SiteInput)
        → (archive : SiteAction) → IsFinding site class way input (Kind.Unmet archive)
        → (way ≡ []) × Contains site.entries input }
{}

/// The plan of each relay of a sound site meets the condition of a guard of pairs that are guarded there, and of the
/// relay's spare actions.
pub fn sound_sites_have_guards()
    ensures { (site : Site) → IsSound site → (relay : ℕ) → (guard : GuardState) → guard.spares ≡ spares_at site relay
        → ((input : ℕ) → (class : Class) → Contains guard.pairs (input, class) → IsGuarded site relay input class)
        → MayGuard (plan_at site relay) guard }
{}

/// The definitions are not empty: a run of a site of three relays, in which a message of any class comes to the first one,
/// through a queue in which posts wait, and is written by the second; a copy of it, which a spare action forwarded to the third, is lost there.
pub fn a_message_is_written()
    ensures { (class : Class) → (state : SiteState)
        × Runs example_site (example_events class) state × IsWritten example_site state audit 0
        × LosesFlagged example_site state 0 }
{}

/// That site is lawful and sound, and protects messages: so the law of no loss speaks of some site.
pub fn the_example_is_sound()
    ensures lawful { IsLawful example_site }
    ensures sound { IsSound example_site }
    ensures protects { (class : Class) → class.facility ≡ 4 → class.severity ≡ 2
        → is_protected example_site class ≡ true }
{}

/// A run of another site, of a relay with two small queues, with the steps that aren't in that one: the ways in which a
/// message is lost where nothing is discarded, Expire and Post lost among them. Nothing is spare there, and no loss is of
/// a flagged copy.
pub fn each_step_is_made()
    ensures { (class : Class) → (state : SiteState) × Runs narrow_site (narrow_events class) state
        × LosesPlain narrow_site state 0 }
{}
