//! The first circle of queues that wait for each other, and the first round that a message may go.

ghost use Rattle.std.specs.Prelude.{◌≡◌, IfOk, None};
ghost use Rattle.sy_flowing.specs.Flowing.{IsFlowing};
ghost use Rattle.sy_waits.specs.internal.Fits as spec;
ghost use Rattle.sy_waits.specs.internal.Groups.{AreGroups, GroupHasLeft};

use crate::edges::{Edge, Step, executed, graph_of, sets_of, sets_of_one};
use crate::fits::{all_fit, group_fits};
use crate::graph::search;
use crate::groups::{Group, groups_of};
use crate::places::Of;
use std::alloc::{AllocError, Global};
use sy_site::Site;
use sy_wire::Class;

/// An occurrence of a list that messages of a class may execute.
#[derive(Clone, Copy)]
pub struct Hop {
    pub class: Class,
    pub by: Step,
}

/// A circle: each hop leads from the list or the queue of its list to that of the next one, and the last to the first.
#[derive(Drop)]
pub struct Circle {
    pub hops: Vec<Hop>,
}

/// Where a site may stop for good, or a message may go round without end. Where there is neither, the site flows.
#[derive(Drop)]
pub struct Waits {
    /// the first circle of queues that wait for each other, over all classes
    pub jam: Option<Circle>,
    /// the first circle of lists that messages of one class go round
    pub round: Option<Circle>,
}

// ---- circles of queues

// The lowest class that makes a hop.
fn class_of(site: &Site, groups: &[Group], by: Step) -> Option<Class> {
    for group in groups {
        let set = executed(site, group, by.relay, by.list);
        if by.number < 64 && (set >> by.number) & 1 == 1 {
            return Some(group.class);
        }
    }
    None
}

// A circle with the lowest class that makes each hop.
fn circle_of(
    alloc: Global,
    site: &Site,
    groups: &[Group],
    circle: &[Edge],
) -> Result<Circle, AllocError> {
    let mut hops = Vec::new(alloc);
    for edge in circle {
        if let Some(class) = class_of(site, groups, edge.by) {
            hops.push(Hop { class, by: edge.by })?;
        }
    }
    Ok(Circle { hops })
}

// The first circle of queues, where no numbers of queues fall along all waits.
fn jam_of(
    alloc: Global,
    site: &Site,
    groups: &[Group],
    sets: &[u64],
) -> Result<Option<Circle>, AllocError>
    requires groups { AreGroups site.now groups.now }
    ensures { IfOk result (λ jam. jam ≡ None → spec.HaveHeights site.now) }
{
    let graph = graph_of(alloc, site, Of::Queues, sets)?;
    let found = search(alloc, graph.as_slice())?;
    if all_fit(site, groups, Of::Queues, found.numbers.as_slice()) {
        return Ok(None);
    }
    let circle = circle_of(alloc, site, groups, found.circle.as_slice())?;
    Ok(Some(circle))
}

// ---- rounds

fn circle_of_class(alloc: Global, class: Class, circle: &[Edge]) -> Result<Circle, AllocError> {
    let mut hops = Vec::new(alloc);
    for edge in circle {
        hops.push(Hop { class, by: edge.by })?;
    }
    Ok(Circle { hops })
}

// The first round of a group, where no numbers of lists fall wherever its messages go on.
fn own_round_of(alloc: Global, site: &Site, group: &Group) -> Result<Option<Circle>, AllocError>
    ensures { IfOk result (λ round. round ≡ None → GroupHasLeft site.now group.now) }
{
    let sets = sets_of_one(alloc, site, group)?;
    let graph = graph_of(alloc, site, Of::Lists, sets.as_slice())?;
    let found = search(alloc, graph.as_slice())?;
    if group_fits(site, group, Of::Lists, found.numbers.as_slice()) {
        return Ok(None);
    }
    let circle = circle_of_class(alloc, group.class, found.circle.as_slice())?;
    Ok(Some(circle))
}

// The same, where these numbers fall for most groups.
fn round_in(
    alloc: Global,
    site: &Site,
    group: &Group,
    numbers: &[u32],
) -> Result<Option<Circle>, AllocError>
    ensures { IfOk result (λ round. round ≡ None → GroupHasLeft site.now group.now) }
{
    if group_fits(site, group, Of::Lists, numbers) {
        return Ok(None);
    }
    own_round_of(alloc, site, group)
}

// The first round of any group.
fn round_of(
    alloc: Global,
    site: &Site,
    groups: &[Group],
    sets: &[u64],
) -> Result<Option<Circle>, AllocError>
    requires groups { AreGroups site.now groups.now }
    ensures { IfOk result (λ round. round ≡ None → spec.AllHaveLeft site.now) }
{
    let graph = graph_of(alloc, site, Of::Lists, sets)?;
    let found = search(alloc, graph.as_slice())?;
    for place in 0..groups.len() {
        let round = round_in(alloc, site, &groups[place], found.numbers.as_slice())?;
        if round.is_some() {
            return Ok(round);
        }
    }
    Ok(None)
}

/// Where a site may stop for good, and where a message may go round without end: the first circle of each kind. A site
/// without any flows.
pub fn waits_of(alloc: Global, site: &Site) -> Result<Waits, AllocError>
    ensures { IfOk result (λ waits. waits.jam ≡ None → waits.round ≡ None → IsFlowing site.now) }
{
    let groups = groups_of(alloc, site)?;
    let sets = sets_of(alloc, site, groups.as_slice())?;
    let jam = jam_of(alloc, site, groups.as_slice(), sets.as_slice())?;
    let round = round_of(alloc, site, groups.as_slice(), sets.as_slice())?;
    Ok(Waits { jam, round })
}
