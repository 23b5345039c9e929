//! Events that are no steps: behind a run of a site the one that is named is refused, for one reason alone. Each function
//! does nothing; its contract is the law.
ghost use Rattle.std.specs.Prelude.{take, true, false};
ghost use Rattle.sy_wire.specs.declared.class.Class.{Class};
ghost use Rattle.sy_board.specs.relay.Steps.{Event};
ghost use Rattle.sy_site.specs.machine.Steps.{SiteEvent};
ghost use Rattle.sy_site.specs.machine.Examples.{edge_input, example_message, narrow_events, narrow_site};
ghost use Rattle.sy_site.specs.machine.Refusals.{IsRefusedAfter, busy_events, holding_site, marked_events, marked_site};

/// A message comes to no hand that holds another one, nor to one that isn't there.
pub fn takes_are_refused()
    ensures occupied { (class : Class) → IsRefusedAfter narrow_site (take 1 (narrow_events class))
        (SiteEvent.TakeNew edge_input 0 (example_message class)) }
    ensures no_hand { (class : Class) → IsRefusedAfter narrow_site (take 1 (narrow_events class))
        (SiteEvent.TakeNew edge_input 64 (example_message class)) }
{}

/// What a hand holds doesn't enter a full queue, nor one that has come to its full-delay mark.
pub fn enters_are_refused()
    ensures full { (class : Class) → IsRefusedAfter narrow_site (take 3 (narrow_events class))
        (SiteEvent.Inside 0 (Event.Enter 0 1)) }
    ensures held { (class : Class) → IsRefusedAfter (marked_site 2) (marked_events class)
        (SiteEvent.Inside 0 (Event.Enter 0 1)) }
{}

/// What a hand holds doesn't expire where its queue has room, nor where the full-delay mark holds it.
pub fn expiries_are_refused()
    ensures room { (class : Class) → IsRefusedAfter narrow_site (take 1 (narrow_events class))
        (SiteEvent.Inside 0 (Event.Expire 0 0)) }
    ensures held { (class : Class) → IsRefusedAfter (marked_site 1) (marked_events class)
        (SiteEvent.Inside 0 (Event.Expire 0 1)) }
{}

/// A worker that has a message grabs nothing, and one whose queue is empty doesn't either.
pub fn grabs_are_refused()
    ensures busy { (class : Class) → IsRefusedAfter narrow_site (busy_events class)
        (SiteEvent.Inside 0 (Event.Grab 0)) }
    ensures empty { (class : Class) → IsRefusedAfter narrow_site (take 1 (narrow_events class))
        (SiteEvent.Inside 0 (Event.Grab 0)) }
{}

/// A worker without a job has done nothing, and one whose job is a post hasn't run an action.
pub fn dones_are_refused()
    ensures idle { (class : Class) → IsRefusedAfter narrow_site (take 1 (narrow_events class))
        (SiteEvent.Inside 0 (Event.Done 0)) }
    ensures post { (class : Class) → IsRefusedAfter narrow_site (take 5 (narrow_events class))
        (SiteEvent.Inside 0 (Event.Done 0)) }
{}

/// An action that may be tried once more isn't given up, and one that may not isn't tried again.
pub fn failures_are_refused()
    ensures early { (class : Class) → IsRefusedAfter narrow_site (take 11 (narrow_events class))
        (SiteEvent.Inside 0 (Event.GiveUp 1 false)) }
    ensures late { (class : Class) → IsRefusedAfter narrow_site (take 12 (narrow_events class))
        (SiteEvent.Inside 0 (Event.Fail 1 false)) }
{}

/// A message isn't posted into a full queue, nor into one in which posts wait and that has come to its full-delay mark.
/// Nor is its post lost for want of room where there is room, or where that mark holds it, nor for want of memory where
/// posts wait.
pub fn posts_are_refused()
    ensures full { (class : Class) → IsRefusedAfter narrow_site (take 9 (narrow_events class))
        (SiteEvent.Inside 0 (Event.Post 0)) }
    ensures held { (class : Class) → IsRefusedAfter (holding_site 2) (take 9 (narrow_events class))
        (SiteEvent.Inside 0 (Event.Post 0)) }
    ensures room { (class : Class) → IsRefusedAfter narrow_site (take 5 (narrow_events class))
        (SiteEvent.Inside 0 (Event.PostLost 0 false)) }
    ensures held_full { (class : Class) → IsRefusedAfter (holding_site 1) (take 9 (narrow_events class))
        (SiteEvent.Inside 0 (Event.PostLost 0 false)) }
    ensures memory { (class : Class) → IsRefusedAfter (holding_site 2) (take 5 (narrow_events class))
        (SiteEvent.Inside 0 (Event.PostLost 0 true)) }
{}
