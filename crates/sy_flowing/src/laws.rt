//! What holds of sites that flow. Each function does nothing; its contract is the law.
ghost use Rattle.std.specs.Prelude.{◌≤◌, ℕ, List, length};
ghost use Rattle.sy_wire.specs.declared.class.Class.{Class};
ghost use Rattle.sy_site.specs.Sites.{Site};
ghost use Rattle.sy_site.specs.machine.States.{SiteState};
ghost use Rattle.sy_site.specs.machine.Steps.{Runs, SiteEvent};
ghost use Rattle.sy_site.specs.machine.Soundness.{IsSound};
ghost use Rattle.sy_site.specs.machine.Lawful.{IsLawful};
ghost use Rattle.sy_site.specs.machine.Examples.{example_site};
ghost use Rattle.sy_flowing.specs.Flowing.{IsFlowing, IsJam, IsRound, SiteList, SiteQueue};
ghost use Rattle.sy_flowing.specs.OwnSteps.{AreWritten, CanEmpty, CanFinish, HoldsNothing, IsAtRest, OwnSteps};
ghost use Rattle.sy_flowing.specs.Heights.{AreFitNumbers, HeightRow, LeftRow, height_by, left_by};

/// Sites that flow never jam: after every run of a lawful site that flows, whatever came in and whatever failed, own steps
/// alone lead to a state in which no relay holds anything and no link to a relay has a copy; on the way no link gets
/// longer than its bound, whichever bound of at least 1 that is.
pub fn flowing_sites_can_empty()
    ensures { (site : Site) → IsLawful site → IsFlowing site → (bound : ℕ) → 1 ≤ bound → (events : List SiteEvent)
        → (state : SiteState) → Runs site events state → CanEmpty site bound state }
{}

/// Sites that flow never jam: after every run of a lawful and sound site that flows, whatever came in and whatever failed,
/// own steps alone lead to a state in which each message of a protected class that came from outside at an entry is
/// written to each archive that is named for its class; on the way no link gets longer than its bound, whichever bound of
/// at least 1 that is. So no such message is ever held where it could never move again. Nothing is said of when it moves.
pub fn flowing_sites_can_finish()
    ensures { (site : Site) → IsLawful site → IsSound site → IsFlowing site → (bound : ℕ) → 1 ≤ bound
        → (events : List SiteEvent) → (state : SiteState) → Runs site events state → CanFinish site bound state }
{}

/// In a site that flows own steps end, in whatever order they are made: after every run there is a number that no own steps
/// from there on exceed; and where no more own step is possible, nothing is held, and of a sound site each message of a
/// protected class that came from outside at an entry is written to each archive that is named for its class. So such a
/// message is written as soon as the relays have gone on with what they hold as far as they can, without failures.
pub fn own_steps_end()
    ensures few { (site : Site) → IsLawful site → IsFlowing site → (events : List SiteEvent) → (state : SiteState)
        → Runs site events state → (most : ℕ) × ((bound : ℕ) → 1 ≤ bound → (own : List SiteEvent) → (end : SiteState)
        → OwnSteps site bound state own end → length own ≤ most) }
    ensures empty { (site : Site) → IsLawful site → IsFlowing site → (bound : ℕ) → 1 ≤ bound → (events : List SiteEvent)
        → (state : SiteState) → Runs site events state → IsAtRest site bound state → HoldsNothing site state }
    ensures written { (site : Site) → IsLawful site → IsSound site → IsFlowing site → (bound : ℕ) → 1 ≤ bound
        → (events : List SiteEvent) → (state : SiteState) → Runs site events state → (own : List SiteEvent)
        → (end : SiteState) → OwnSteps site bound state own end → IsAtRest site bound end → AreWritten site end }
{}

/// A site that flows has no circle of waits, and none that one message may go round.
pub fn flowing_sites_have_no_jam()
    ensures jam { (site : Site) → IsFlowing site → (queue : SiteQueue) → IsJam site queue → ⊥ }
    ensures round { (site : Site) → IsFlowing site → (class : Class) → (list : SiteList) → IsRound site class list → ⊥ }
{}

/// A lawful site flows where nothing circles: where no queues wait for each other round a circle, and no message may go
/// round one. So a site flows exactly where there is neither. Classes are finitely many, and of a lawful site so are
/// queues and lists: all that occurrences of its relays name is there.
pub fn sites_flow_where_nothing_circles()
    ensures { (site : Site) → IsLawful site → ((queue : SiteQueue) → IsJam site queue → ⊥)
        → ((class : Class) → (list : SiteList) → IsRound site class list → ⊥) → IsFlowing site }
{}

/// A site flows where rows give each queue a number, and for each class each list one, that fall by each occurrence that
/// messages of the class may execute of any list that is used: so what a checker has to test is each list by itself.
pub fn fit_heights_flow()
    ensures { (site : Site) → IsLawful site → (heights : List HeightRow) → (lefts : List LeftRow)
        → AreFitNumbers site (height_by heights) (left_by lefts) → IsFlowing site }
{}

/// The example's site flows, and is lawful and sound: so the laws of sites that flow speak of some site.
pub fn the_example_flows()
    ensures { IsFlowing example_site }
{}
