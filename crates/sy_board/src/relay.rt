//! The nine steps of a whole relay: laws that every step keeps. The steps are definitions (`specs/relay`), which a set of relays is made of too.
//! Each function does nothing; its contract is the law.
ghost use Rattle.std.specs.Prelude.{◌≡◌, ◌≢◌, ◌⊎◌, ℕ, ◌+◌, ◌-◌, ◌<◌, ◌≤◌, ◌∷◌, Bool, List, [], Some, false, true, length};
ghost use Rattle.sy_chain.specs.Entries.{Entry};
ghost use Rattle.sy_actions.specs.Devices.{Delivered, Refused};
ghost use Rattle.sy_rules.specs.PlanValue.{Plan};
ghost use Rattle.sy_rules.specs.Whole.{IsWhole, queue_for};
ghost use Rattle.sy_board.specs.relay.Cells.{Cell, IsShaped, RelayState, at, opening, waiting};
ghost use Rattle.sy_board.specs.relay.Runs.{AreRuns};
ghost use Rattle.sy_wire.specs.Messages.{Said};
ghost use Rattle.sy_wire.specs.declared.class.Class.{Class};
ghost use Rattle.sy_rules.specs.declared.lists.occurrence.Occurrence.TheVariants as occurrence;
ghost use Rattle.sy_board.specs.relay.Steps.{Enters, Event, Expires, Fails, GivesUp, Grabs, IsOfInput, IsPosted, Job, LosesPost, Out, Posts, Settles, Step, is_post_held};
ghost use Rattle.sy_board.specs.relay.Feeders.{OnlyFullDelay};
ghost use Rattle.sy_board.specs.relay.Plans.{parameters_at, queue_of_input, queue_of_worker};
ghost use Rattle.sy_board.specs.relay.Spares.{Follows, MayDo, Scope};
ghost use Rattle.sy_board.specs.relay.Boards.{BoardState, EnterIs, ExpireIs, FailIs, GrabIs, IsHeldBy, Made, PostIs, PostLostIs, SettleIs, TakeIs, is_no_memory};
ghost use Rattle.sy_marks.specs.declared.marks.Hold.TheVariants as Hold;
ghost use Rattle.sy_rules.specs.declared.lists.occurrence.Occurrence.{Occurrence};
ghost use Rattle.sy_board.specs.declared.relay.answers.Taken.{Taken};
ghost use Rattle.sy_board.specs.declared.relay.answers.PostCause.{PostCause};
ghost use Rattle.sy_board.specs.declared.relay.answers.Entry.TheVariants as EnterAnswer;
ghost use Rattle.sy_board.specs.declared.relay.answers.Retry.TheVariants as Retry;
ghost use Rattle.sy_board.specs.declared.relay.answers.Posted.TheVariants as Posted;
ghost use Rattle.sy_board.specs.relay.Patience.{IsPatient};
ghost use Rattle.sy_board.specs.relay.Guards.{IsGuarding, IsPairOf, IsWithinGuard, MayGuard};
ghost use Rattle.sy_board.specs.relay.Totals.{GuardState, Laws, Totals, counted, guarded_losses, nothing_counted, total};
ghost use Rattle.sy_board.specs.relay.Moves.{IsLeftAlone, added, came, over, removed, went, worker_of};

pub mod accounts;
pub mod answers;
pub mod board;
pub mod guard;
pub(crate) mod reading;

/// Before the first message a relay has its places, and the laws of accounts hold.
pub fn it_opens_lawfully()
    ensures places { (plan : Plan) → IsShaped plan (opening plan) }
    ensures laws { (plan : Plan) → Laws plan (opening plan) (nothing_counted plan) }
{}

/// A step neither makes nor drops a place.
pub fn places_stay()
    ensures { (plan : Plan) → (old : RelayState) → (event : Event) → (new : RelayState) → (outs : List Out)
        → IsShaped plan old → Step plan old event new outs → IsShaped plan new }
{}

/// Nothing vanishes and nothing is made: what a relay held before a step, with what came, is what it holds after it, with what went; whatever is
/// summed over the entries.
pub fn nothing_vanishes()
    ensures { (f : Entry → ℕ) → (plan : Plan) → (old : RelayState) → (event : Event) → (new : RelayState) → (outs : List Out)
        → IsWhole plan → IsShaped plan old → (step : Step plan old event new outs)
        → over f old + total f (came plan old event new outs step) ≡ over f new + total f (went plan old event new outs step) }
{}

/// A queue is longer by what a step puts into it, and shorter by what it takes from it.
pub fn lengths_change()
    ensures { (plan : Plan) → (old : RelayState) → (event : Event) → (new : RelayState) → (outs : List Out)
        → IsWhole plan → IsShaped plan old → (step : Step plan old event new outs) → (queue : ℕ)
        → waiting new queue + removed plan old event queue ≡ waiting old queue + added plan old event new outs step queue }
{}

/// A step that isn't one of a worker leaves that worker's entries and failures alone.
pub fn workers_stay_apart()
    ensures { (plan : Plan) → (old : RelayState) → (event : Event) → (new : RelayState) → (outs : List Out)
        → Step plan old event new outs → (worker : ℕ) → worker_of event ≢ Some worker → IsLeftAlone worker old new }
{}

/// Each step keeps the laws of accounts, with what it counts.
pub fn accounts_balance()
    ensures { (plan : Plan) → (guard : GuardState) → (old : RelayState) → (event : Event) → (new : RelayState) → (outs : List Out)
        → (totals : Totals) → IsWhole plan → IsShaped plan old → Laws plan old totals → Step plan old event new outs
        → Laws plan new (counted plan guard old event new outs totals) }
{}

/// No job fails more often than it may be tried again: not before the first message, and no step changes it.
pub fn patience_stays()
    ensures opening { (plan : Plan) → IsPatient plan (opening plan) }
    ensures step { (plan : Plan) → (old : RelayState) → (event : Event) → (new : RelayState) → (outs : List Out)
        → IsPatient plan old → Step plan old event new outs → IsPatient plan new }
{}

/// Where a hand's message may enter it doesn't expire; a job that may be tried again isn't given up; and a post that may be put isn't lost to a
/// full queue.
pub fn steps_exclude()
    ensures hand { (plan : Plan) → (old : RelayState) → (input number : ℕ) → (one other : Entry) → (new after : RelayState)
        → Enters plan old input number one new → Expires plan old input number other after → ⊥ }
    ensures failure { (plan : Plan) → (old : RelayState) → (worker a b : ℕ) → (one other : Entry) → (new after : RelayState)
        → Fails plan old worker a one new → GivesUp plan old worker b other after → ⊥ }
    ensures post { (plan : Plan) → (old : RelayState) → (worker k l : ℕ) → (one other : Entry) → (new after : RelayState)
        → Posts plan old worker k one false new → LosesPost plan old worker l false other after → ⊥ }
    // The full-delay mark holds a message: it neither enters nor expires.
    ensures held_enters { (plan : Plan) → (old : RelayState) → (input number : ℕ) → (node : Entry) → (new : RelayState)
        → IsHeldBy Hold.FullDelay plan old input → Enters plan old input number node new → ⊥ }
    ensures held_expires { (plan : Plan) → (old : RelayState) → (input number : ℕ) → (node : Entry) → (new : RelayState)
        → IsHeldBy Hold.FullDelay plan old input → Expires plan old input number node new → ⊥ }
    // It holds a post: that is neither put nor lost.
    ensures held_posts { (plan : Plan) → (old : RelayState) → (worker list : ℕ) → (node : Entry) → (new : RelayState)
        → is_post_held plan old list ≡ true → Posts plan old worker list node false new → ⊥ }
    ensures held_loses { (plan : Plan) → (old : RelayState) → (worker list : ℕ) → (no_memory : Bool) → (entry : Entry) → (new : RelayState)
        → is_post_held plan old list ≡ true → LosesPost plan old worker list no_memory entry new → ⊥ }
    // A grab takes something.
    ensures grab { (plan : Plan) → (old : RelayState) → (worker : ℕ) → (lost : List Entry) → (new : RelayState)
        → Grabs plan old worker lost new → 0 < waiting old (queue_of_worker plan worker) }
{}

/// A worker has one job at most: one occurrence of one entry, and what is left due without it.
pub fn one_job()
    ensures { (plan : Plan) → (state : RelayState) → (worker : ℕ) → (a b : Occurrence) → (one : Job plan state worker a) → (other : Job plan state worker b)
        → (a ≡ b) × (one.entry ≡ other.entry) × (one.left ≡ other.left) }
{}

/// The entry that an input makes of a message is one, but for its tag; and so is the one that a post makes of an entry.
pub fn one_entry()
    ensures taken { (plan : Plan) → (input : ℕ) → (one other : Entry) → IsOfInput plan input one → IsOfInput plan input other
        → one.message ≡ other.message → one.tag ≡ other.tag → one ≡ other }
    ensures posted { (plan : Plan) → (entry : Entry) → (list : ℕ) → (one other : Entry) → IsPosted plan entry list one
        → IsPosted plan entry list other → one ≡ other }
{}

/// What a board's methods answer as a step is that step.
pub fn answers_are_steps()
    ensures take { (old new : BoardState) → (input number : ℕ) → (node : Entry) → (taken : Taken)
        → TakeIs taken old input number node new → Made old (Event.Take input number node) new }
    ensures enter { (old new : BoardState) → (input number : ℕ)
        → EnterIs EnterAnswer.Entered old input number new → Made old (Event.Enter input number) new }
    ensures expire { (old new : BoardState) → (input number : ℕ) → (node : Entry)
        → ExpireIs node old input number new → Made old (Event.Expire input number) new }
    ensures grab { (old new : BoardState) → (worker count : ℕ) → (lost : List Entry)
        → GrabIs count lost old worker new → (new ≡ old) ⊎ Made old (Event.Grab worker) new }
    ensures settle { (old new : BoardState) → (worker : ℕ) → (receipt : Delivered)
        → SettleIs old worker receipt new → Made old (Event.Done worker) new }
    ensures again { (old new : BoardState) → (worker : ℕ) → (failure : Refused) → (took : Bool)
        → FailIs Retry.Again old worker failure new → Made old (Event.Fail worker took) new }
    ensures gave_up { (old new : BoardState) → (worker : ℕ) → (failure : Refused) → (took : Bool)
        → FailIs Retry.GaveUp old worker failure new → Made old (Event.GiveUp worker took) new }
    ensures posted { (old new : BoardState) → (worker : ℕ) → (node : Entry)
        → PostIs Posted.Done old worker node new → Made old (Event.Post worker) new }
    ensures discarded { (old new : BoardState) → (worker : ℕ) → (node lost : Entry)
        → PostIs (Posted.Discarded lost) old worker node new → Made old (Event.Post worker) new }
    ensures post_lost { (old new : BoardState) → (worker : ℕ) → (why : PostCause)
        → PostLostIs why old worker new → Made old (Event.PostLost worker (is_no_memory why)) new }
{}

/// From one state an event has one outcome, with what it lets out.
pub fn one_outcome()
    ensures { (plan : Plan) → (old : RelayState) → (event : Event) → (one other : RelayState) → (outs others : List Out)
        → Step plan old event one outs → Step plan old event other others → (one ≡ other) × (outs ≡ others) }
{}

/// Where a plan meets the condition of a guard, no step loses anything of its pairs but at or after spare actions, and the queues of the pairs,
/// where all their feeders are full-delay feeders, stay within their full-delay marks: before the first message each queue and each entry is as
/// that asks, and each step keeps it. A guard without pairs asks nothing.
pub fn nothing_guarded_is_lost()
    ensures opening { (plan : Plan) → (guard : GuardState) → IsGuarding plan guard (opening plan) }
    ensures step { (plan : Plan) → (guard : GuardState) → (old : RelayState) → (event : Event) → (new : RelayState) → (outs : List Out)
        → MayGuard plan guard → IsGuarding plan guard old → Step plan old event new outs
        → IsGuarding plan guard new × (guarded_losses plan guard outs ≡ 0) }
    ensures within { (plan : Plan) → (guard : GuardState) → (state : RelayState) → MayGuard plan guard → IsGuarding plan guard state
        → IsWithinGuard plan guard state }
    ensures unasked { (plan : Plan) → (spares : List ℕ) → MayGuard plan (record { pairs = []; spares = spares }) }
{}

/// The queues of a pair are that of its input, and that of each list that a post leads its messages to which isn't spare.
pub fn guarded_queues_stay_within_marks()
    ensures inputs { (plan : Plan) → (guard : GuardState) → (state : RelayState) → IsWithinGuard plan guard state
        → (input : ℕ) → (class : Class) → IsPairOf plan guard.pairs input class → OnlyFullDelay plan (queue_of_input plan input)
        → waiting state (queue_of_input plan input) ≤ (parameters_at plan (queue_of_input plan input)).full_delay_mark }
    ensures posts { (plan : Plan) → (guard : GuardState) → (state : RelayState) → IsWithinGuard plan guard state
        → (input : ℕ) → (class : Class) → IsPairOf plan guard.pairs input class → (list number to : ℕ)
        → Follows plan guard.spares class Scope.Firm input list → MayDo plan guard.spares class Scope.Firm list number (occurrence.Post to)
        → OnlyFullDelay plan (queue_for plan to) → waiting state (queue_for plan to) ≤ (parameters_at plan (queue_for plan to)).full_delay_mark }
{}

/// The messages that a board gives at once are those of the worker's jobs, one after the other: the first is that of its job; and once this is
/// done, the others are what it gives then of one less at most, or there are none.
pub fn runs_are_jobs()
    ensures first { (plan : Plan) → (state : RelayState) → (worker action most : ℕ) → (message : Said) → (others : List Said)
        → worker < length plan.workers → AreRuns plan action most (at state (Cell.Worker worker)) (message ∷ others)
        → (job : Job plan state worker (occurrence.Run action)) × (job.entry.message ≡ message) }
    ensures later { (plan : Plan) → (state : RelayState) → (worker action most : ℕ) → (message : Said) → (others : List Said)
        → worker < length plan.workers → AreRuns plan action most (at state (Cell.Worker worker)) (message ∷ others)
        → IsShaped plan state → (entry : Entry) → (new : RelayState) → Settles plan state worker action entry new
        → (others ≡ []) ⊎ AreRuns plan action (most - 1) (at new (Cell.Worker worker)) others }
{}
