//! What of a relay a finding is about: its input, the input's queue and what feeds it, an occurrence, an action.

use crate::relay_file::places::Thing;
use crate::ways::followed_lists::lists_followed;
use std::alloc::{AllocError, Global};
use sy_board::retry_of;
use sy_rules::{Destination, FlowControl, Input, Occurrence, Plan, QueueParameters};
use sy_site::finding::{Finding, Kind, WayRow};
use sy_site::{Site, SiteInput};
use sy_wire::Class;

/// An input of a relay, with the relay's plan.
#[derive(Clone, Copy)]
pub struct Spot<'a> {
    pub plan: &'a Plan,
    pub input: &'a Input,
}

/// The input of this number.
pub fn spot_at(site: &Site, at: SiteInput) -> Option<Spot<'_>> {
    if at.relay >= site.relays() {
        return None;
    }
    let plan = site.plan(at.relay);
    match plan.inputs().get(at.input as usize) {
        Some(input) => Some(Spot { plan, input }),
        None => None,
    }
}

/// A queue of a plan.
pub fn queue_at(plan: &Plan, queue: u32) -> Option<QueueParameters> {
    match plan.queues().get(queue as usize) {
        Some(queue) => Some(*queue),
        None => None,
    }
}

/// What a list executes.
pub fn occurrences_of(plan: &Plan, list: u32) -> &[Occurrence] {
    if (list as usize) < plan.list_names().len() {
        return plan.occurrences(list);
    }
    &[]
}

/// The name of a list.
pub fn name_of_list(plan: &Plan, list: u32) -> &[u8] {
    if (list as usize) < plan.list_names().len() {
        return plan.list_name(list);
    }
    b""
}

/// The queue of a list, 0 where it has none of its own.
pub fn queue_for(plan: &Plan, list: u32) -> u32 {
    if (list as usize) >= plan.list_names().len() {
        return 0;
    }
    match plan.list_queue(list) {
        Some(queue) => queue,
        None => 0,
    }
}

// ---- what a queue belongs to

/// What has the queue of a list: the ruleset, or the action, that the list is of, or the whole relay. Lists are
/// numbered from the default ruleset's, those of rulesets next, and then those of actions with a queue.
pub fn owner_of(plan: &Plan, list: u32) -> Thing {
    if queue_for(plan, list) == 0 || list == 0 {
        return Thing::MainQueue;
    }
    match plan.own_action(list) {
        Some(action) => Thing::Action(action),
        None => Thing::Ruleset(list - 1),
    }
}

// ---- what feeds a queue without waiting at its full-delay mark

/// An input that isn't a full-delay one, or posts to a list, where they don't wait.
#[derive(Clone, Copy)]
pub enum Feeder {
    Input(u32),
    Post(u32),
}

/// The first input that feeds a queue and doesn't wait at its full-delay mark.
pub fn free_input(plan: &Plan, queue: u32) -> Option<Feeder> {
    let mut number: u32 = 0;
    for input in plan.inputs() {
        if input.queue == queue && !matches!(input.flow, FlowControl::Full) {
            return Some(Feeder::Input(number));
        }
        number = number.saturating_add(1);
    }
    None
}

// The first list to which a list posts and whose queue this is.
fn posted_by(plan: &Plan, list: u32, queue: u32) -> Option<Feeder> {
    for occurrence in occurrences_of(plan, list) {
        match occurrence {
            Occurrence::Post(to) if queue_for(plan, *to) == queue => return Some(Feeder::Post(*to)),
            _ => {}
        }
    }
    None
}

fn free_post(plan: &Plan, queue: u32) -> Option<Feeder> {
    let mut list: u32 = 0;
    for _ in plan.list_names() {
        if let Some(feeder) = posted_by(plan, list, queue) {
            return Some(feeder);
        }
        list = list.saturating_add(1);
    }
    None
}

// Whether posts into a queue wait at its full-delay mark.
fn posts_wait(plan: &Plan, queue: u32) -> bool {
    match queue_at(plan, queue) {
        Some(queue) => queue.waits,
        None => false,
    }
}

/// What feeds a queue and doesn't wait at its full-delay mark.
pub fn free_feeder(plan: &Plan, queue: u32) -> Option<Feeder> {
    match free_input(plan, queue) {
        Some(feeder) => Some(feeder),
        None if posts_wait(plan, queue) => None,
        None => free_post(plan, queue),
    }
}

// ---- what a post may lose

// Whether a queue may discard a message of the class.
fn may_discard(plan: &Plan, number: u32, queue: QueueParameters, class: Class) -> bool {
    class.severity >= queue.discard_severity
        && queue.discard_mark > 0
        && (queue.discard_mark <= queue.full_delay_mark || free_feeder(plan, number).is_some())
}

// Whether a post of a message of the class to a list may be lost on the way.
fn may_lose(plan: &Plan, list: u32, class: Class) -> bool {
    let number = queue_for(plan, list);
    match queue_at(plan, number) {
        Some(queue) => {
            !queue.waits
                || queue.full_delay_mark == 0
                || queue.size < queue.full_delay_mark
                || may_discard(plan, number, queue, class)
        }
        None => false,
    }
}

// ---- occurrences

fn leads_nowhere(site: &Site, relay: u32, plan: &Plan, action: u32) -> bool {
    match plan.actions().get(action as usize) {
        Some(found) => match &found.destination {
            Destination::Archive(_) => false,
            Destination::Forward(_, _) => site.target(relay, action).is_none(),
        },
        None => false,
    }
}

/// Whether an occurrence is spare: it runs a spare action, or posts to that action's own list.
pub fn is_spare(site: &Site, relay: u32, plan: &Plan, occurrence: Occurrence) -> bool {
    match occurrence {
        Occurrence::Run(action) => site.is_spare(relay, action),
        Occurrence::Post(list) => match plan.own_action(list) {
            Some(action) => site.is_spare(relay, action),
            None => false,
        },
    }
}

/// Whether a finding is about an occurrence of a list that messages of its class follow. None is about a spare one.
pub fn is_about(site: &Site, plan: &Plan, finding: &Finding, occurrence: Occurrence) -> bool {
    let relay = finding.input.relay;
    if is_spare(site, relay, plan, occurrence) {
        return false;
    }
    match occurrence {
        Occurrence::Post(list) => {
            matches!(finding.kind, Kind::InnerQueue) && may_lose(plan, list, finding.class)
        }
        Occurrence::Run(action) => match finding.kind {
            Kind::GivesUp => retry_of(plan, action).is_some(),
            Kind::NoTarget => leads_nowhere(site, relay, plan, action),
            _ => false,
        },
    }
}

/// What messages of the class may execute of a list, as bits.
pub fn may_of(plan: &Plan, list: u32, class: Class) -> u64 {
    if (list as usize) >= plan.list_names().len() {
        return 0;
    }
    let (may, _) = plan.flows(list, class);
    may
}

// The first occurrence of a list that a finding is about, of those that messages of its class may execute.
fn meant_in(site: &Site, plan: &Plan, finding: &Finding, list: u32) -> Option<Occurrence> {
    let mut left = may_of(plan, list, finding.class);
    for occurrence in occurrences_of(plan, list) {
        if left % 2 == 1 && is_about(site, plan, finding, *occurrence) {
            return Some(*occurrence);
        }
        left /= 2;
    }
    None
}

/// The first occurrence that a finding is about, of the lists that messages of its class follow from its input on.
pub fn occurrence_meant(
    alloc: Global,
    site: &Site,
    spot: Spot<'_>,
    finding: &Finding,
) -> Result<Option<Occurrence>, AllocError> {
    let relay = finding.input.relay;
    for here in &lists_followed(
        alloc,
        site,
        relay,
        spot.plan,
        spot.input.list,
        finding.class,
    )? {
        if let Some(occurrence) = meant_in(site, spot.plan, finding, here.list) {
            return Ok(Some(occurrence));
        }
    }
    Ok(None)
}

// ---- behind posts

/// The most lists of a relay: the default ruleset's, those of 256 rulesets and those of 256 actions.
const LISTS: usize = 513;

// The first action of a list that leads to an input, of those that messages of the class may run.
fn leading(
    site: &Site,
    relay: u32,
    plan: &Plan,
    list: u32,
    class: Class,
    to: SiteInput,
) -> Option<u32> {
    let mut left = may_of(plan, list, class);
    for occurrence in occurrences_of(plan, list) {
        if let Occurrence::Run(action) = occurrence {
            if left % 2 == 1 && site.target(relay, *action) == Some(to) {
                return Some(*action);
            }
        }
        left /= 2;
    }
    None
}

// Puts the lists that a list posts to behind the others, those left out that are there.
fn append_posted(
    lists: &mut Vec<u32>,
    plan: &Plan,
    list: u32,
    class: Class,
) -> Result<(), AllocError> {
    let mut left = may_of(plan, list, class);
    for occurrence in occurrences_of(plan, list) {
        if let Occurrence::Post(inner) = occurrence {
            if left % 2 == 1 && !lists.contains(inner) {
                lists.push(*inner)?;
            }
        }
        left /= 2;
    }
    Ok(())
}

// The same of this list and of those that messages are posted to from there on, the nearest first.
fn leading_behind(
    alloc: Global,
    site: &Site,
    relay: u32,
    plan: &Plan,
    list: u32,
    class: Class,
    to: SiteInput,
) -> Result<Option<u32>, AllocError> {
    let mut lists = Vec::new(alloc);
    lists.push(list)?;
    for next in 0..LISTS {
        let Some(list) = lists.get(next).copied() else {
            return Ok(None);
        };
        if let Some(action) = leading(site, relay, plan, list, class, to) {
            return Ok(Some(action));
        }
        append_posted(&mut lists, plan, list, class)?;
    }
    Ok(None)
}

/// The action of a part of a way by which messages of the class come to an input: the one that its occurrence runs, or
/// one behind the posts that its occurrence begins.
pub fn action_by(
    alloc: Global,
    site: &Site,
    class: Class,
    row: WayRow,
    to: SiteInput,
) -> Result<Option<u32>, AllocError> {
    let Some(spot) = spot_at(site, row.input) else {
        return Ok(None);
    };
    match occurrences_of(spot.plan, spot.input.list).get(row.number as usize) {
        Some(Occurrence::Run(action)) => Ok(Some(*action)),
        Some(Occurrence::Post(list)) => {
            leading_behind(alloc, site, row.input.relay, spot.plan, *list, class, to)
        }
        None => Ok(None),
    }
}
