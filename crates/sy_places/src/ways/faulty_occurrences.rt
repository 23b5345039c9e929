//! The occurrences that a finding of one of the kinds 5 to 7 is about.

use crate::ways::followed_lists::lists_followed;
use crate::ways::relay_parts::{is_about, may_of, occurrences_of, spot_at};
use std::alloc::{AllocError, Global};
use sy_rules::{Occurrence, Plan};
use sy_site::Site;
use sy_site::finding::Finding;

/// The actions and lists of a plan that were met, by their numbers.
#[derive(Drop)]
struct Met {
    actions: Vec<bool>,
    lists: Vec<bool>,
}

fn none_met(alloc: Global, plan: &Plan) -> Result<Met, AllocError> {
    let mut actions = Vec::new(alloc);
    for _ in plan.actions() {
        actions.push(false)?;
    }
    let mut lists = Vec::new(alloc);
    for _ in plan.list_names() {
        lists.push(false)?;
    }
    Ok(Met { actions, lists })
}

// The mark of what an occurrence runs or posts to.
fn mark_of(met: &mut Met, occurrence: Occurrence) -> Option<&mut bool> {
    match occurrence {
        Occurrence::Run(action) => met.actions.get_mut(action as usize),
        Occurrence::Post(list) => met.lists.get_mut(list as usize),
    }
}

// Whether what an occurrence runs or posts to is met for the first time.
fn is_new(met: &mut Met, occurrence: Occurrence) -> bool {
    match mark_of(met, occurrence) {
        Some(mark) => {
            let is_new = !*mark;
            *mark = true;
            is_new
        }
        None => false,
    }
}

// Puts those of a list that messages of the class may execute behind the others.
fn append_meant(
    found: &mut Vec<Occurrence>,
    met: &mut Met,
    site: &Site,
    plan: &Plan,
    finding: &Finding,
    list: u32,
) -> Result<(), AllocError> {
    let mut left = may_of(plan, list, finding.class);
    for occurrence in occurrences_of(plan, list) {
        if left % 2 == 1 && is_new(met, *occurrence) && is_about(site, plan, finding, *occurrence) {
            found.push(*occurrence)?;
        }
        left /= 2;
    }
    Ok(())
}

/// The occurrences that a finding is about, of the lists that messages of its class follow from its input on: each action,
/// and each list that is posted to, once.
pub fn occurrences_meant(
    alloc: Global,
    site: &Site,
    finding: &Finding,
) -> Result<Vec<Occurrence>, AllocError> {
    let mut found = Vec::new(alloc);
    let Some(spot) = spot_at(site, finding.input) else {
        return Ok(found);
    };
    let (relay, plan) = (finding.input.relay, spot.plan);
    let mut met = none_met(alloc, plan)?;
    for here in &lists_followed(alloc, site, relay, plan, spot.input.list, finding.class)? {
        append_meant(&mut found, &mut met, site, plan, finding, here.list)?;
    }
    Ok(found)
}
