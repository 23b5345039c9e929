//! What holds of the steps of any site. The function does nothing; its contract is the law.

ghost use Rattle.std.specs.Prelude.{◌≡◌};
ghost use Rattle.sy_site.specs.Sites.{Site};
ghost use Rattle.sy_site.specs.machine.States.{SiteState};
ghost use Rattle.sy_site.specs.machine.Steps.{SiteEvent, SiteStep};

/// From one state an event has one outcome.
pub fn one_outcome()
    ensures { (site : Site) → (old : SiteState) → (event : SiteEvent) → (one other : SiteState)
        → SiteStep site old event one → SiteStep site old event other → one ≡ other }
{}
