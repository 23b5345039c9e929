//! Which object of which relay a finding is about.

use std::alloc::{AllocError, Global};
use sy_places::relay_file::places::Thing;
use sy_places::ways::followed_lists::circle;
use sy_places::ways::relay_parts::{Spot, action_by, occurrence_meant, owner_of, queue_for};
use sy_rules::{Occurrence, Plan};
use sy_site::Site;
use sy_site::finding::{Finding, Kind, WayRow};

/// The last row of a way.
pub fn last_of(way: &[WayRow]) -> Option<WayRow> {
    match way {
        [.., last] => Some(*last),
        [] => None,
    }
}

/// The relay in whose file the object stands: that of the last forward of a loop, else that of the input.
pub fn relay_meant(finding: &Finding) -> u32 {
    match finding.kind {
        Kind::Loop => match last_of(finding.way.as_slice()) {
            Some(row) => row.input.relay,
            None => finding.input.relay,
        },
        _ => finding.input.relay,
    }
}

/// The object that a finding is about, and the queue that it speaks of.
#[derive(Clone, Copy)]
pub struct Meant {
    pub thing: Thing,
    pub queue: u32,
}

// What is executed: an action, or what a message is posted to, with its queue.
fn executed(spot: Spot<'_>, occurrence: Option<Occurrence>) -> Option<Meant> {
    match occurrence {
        Some(Occurrence::Run(action)) => of_input(spot, Thing::Action(action)),
        Some(Occurrence::Post(list)) => Some(of_list(spot.plan, list)),
        None => None,
    }
}

// What has the queue of a list.
fn of_list(plan: &Plan, list: u32) -> Meant {
    Meant {
        thing: owner_of(plan, list),
        queue: queue_for(plan, list),
    }
}

// An object, with the queue of the finding's input.
fn of_input(spot: Spot<'_>, thing: Thing) -> Option<Meant> {
    Some(Meant {
        thing,
        queue: spot.input.queue,
    })
}

// What has the list where a circle of posts begins and ends.
fn circling(
    alloc: Global,
    site: &Site,
    spot: Spot<'_>,
    finding: &Finding,
) -> Result<Option<Meant>, AllocError> {
    let relay = finding.input.relay;
    match circle(
        alloc,
        site,
        relay,
        spot.plan,
        spot.input.list,
        finding.class,
    )? {
        Some(lists) => match lists.last() {
            Some(list) => Ok(Some(of_list(spot.plan, *list))),
            None => Ok(None),
        },
        None => Ok(None),
    }
}

// The last forward of a way; the input where the way isn't known.
fn forwarding(
    alloc: Global,
    site: &Site,
    spot: Spot<'_>,
    finding: &Finding,
) -> Result<Option<Meant>, AllocError> {
    let at_input = Thing::Input(finding.input.input);
    let Some(row) = last_of(finding.way.as_slice()) else {
        return Ok(of_input(spot, at_input));
    };
    match action_by(alloc, site, finding.class, row, finding.input)? {
        Some(action) => Ok(of_input(spot, Thing::Action(action))),
        None => Ok(of_input(spot, at_input)),
    }
}

// The occurrence that a finding is of; where none is given, the first.
fn occurrence_for(
    alloc: Global,
    site: &Site,
    spot: Spot<'_>,
    finding: &Finding,
    given: Option<Occurrence>,
) -> Result<Option<Occurrence>, AllocError> {
    match given {
        Some(occurrence) => Ok(Some(occurrence)),
        None => occurrence_meant(alloc, site, spot, finding),
    }
}

/// The object, and the queue, of a finding by an occurrence, where one is given.
pub fn find_meant(
    alloc: Global,
    site: &Site,
    spot: Spot<'_>,
    finding: &Finding,
    given: Option<Occurrence>,
) -> Result<Option<Meant>, AllocError> {
    match finding.kind {
        Kind::NotFull | Kind::Unmet(_) => Ok(of_input(spot, Thing::Input(finding.input.input))),
        Kind::MarkOff | Kind::MarkAboveSize | Kind::Discards => {
            Ok(of_input(spot, owner_of(spot.plan, spot.input.list)))
        }
        Kind::InnerQueue | Kind::GivesUp | Kind::NoTarget => {
            let occurrence = occurrence_for(alloc, site, spot, finding, given)?;
            Ok(executed(spot, occurrence))
        }
        Kind::Loop => forwarding(alloc, site, spot, finding),
        Kind::InnerLoop => circling(alloc, site, spot, finding),
    }
}
