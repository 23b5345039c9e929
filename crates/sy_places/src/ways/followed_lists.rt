//! The lists that messages follow from an input on: its own, and those that posts lead to.

use crate::ways::relay_parts::{is_spare, may_of, occurrences_of};
use std::alloc::{AllocError, Global};
use sy_rules::{Occurrence, Plan};
use sy_site::Site;
use sy_wire::Class;

/// The most lists of a relay: the default ruleset's, those of 256 rulesets and those of 256 actions.
const LISTS: usize = 513;

/// A list, and the place of the list that posts to it; its own place where there is none.
#[derive(Clone, Copy)]
pub struct Followed {
    pub list: u32,
    pub from: usize,
}

// Marks a list as met, and answers whether it is for the first time.
fn is_new(met: &mut [bool], list: u32) -> bool {
    match met.get_mut(list as usize) {
        Some(mark) => {
            let is_new = !*mark;
            *mark = true;
            is_new
        }
        None => false,
    }
}

// Of each list of a plan that it isn't met yet.
fn none_met(alloc: Global, plan: &Plan) -> Result<Vec<bool>, AllocError> {
    let mut met = Vec::new(alloc);
    for _ in plan.list_names() {
        met.push(false)?;
    }
    Ok(met)
}

// Puts the lists that the one at a place posts to behind the others, those left out that are there.
fn append_posted(
    lists: &mut Vec<Followed>,
    met: &mut [bool],
    site: &Site,
    relay: u32,
    plan: &Plan,
    class: Class,
    from: usize,
    list: u32,
) -> Result<(), AllocError> {
    let mut left = may_of(plan, list, class);
    for occurrence in occurrences_of(plan, list) {
        if let Occurrence::Post(inner) = occurrence {
            let asked = left % 2 == 1 && !is_spare(site, relay, plan, *occurrence);
            if asked && is_new(met, *inner) {
                lists.push(Followed { list: *inner, from })?;
            }
        }
        left /= 2;
    }
    Ok(())
}

/// A list, and those that posts lead messages of the class to from there on which may be executed and aren't spare, the
/// nearest first.
pub fn lists_followed(
    alloc: Global,
    site: &Site,
    relay: u32,
    plan: &Plan,
    list: u32,
    class: Class,
) -> Result<Vec<Followed>, AllocError> {
    let mut lists = Vec::new(alloc);
    let mut met = none_met(alloc, plan)?;
    is_new(met.as_mut_slice(), list);
    lists.push(Followed { list, from: 0 })?;
    for next in 0..LISTS {
        let Some(here) = lists.get(next).copied() else {
            return Ok(lists);
        };
        append_posted(
            &mut lists,
            met.as_mut_slice(),
            site,
            relay,
            plan,
            class,
            next,
            here.list,
        )?;
    }
    Ok(lists)
}

// ---- circles

// Whether a list posts to another one.
fn posts_to(site: &Site, relay: u32, plan: &Plan, class: Class, list: u32, to: u32) -> bool {
    let mut left = may_of(plan, list, class);
    for occurrence in occurrences_of(plan, list) {
        if *occurrence == Occurrence::Post(to)
            && left % 2 == 1
            && !is_spare(site, relay, plan, *occurrence)
        {
            return true;
        }
        left /= 2;
    }
    false
}

// The place of the first of these lists that posts to a list.
fn posting(
    site: &Site,
    relay: u32,
    plan: &Plan,
    class: Class,
    lists: &[Followed],
    to: u32,
) -> Option<usize> {
    for place in 0..lists.len() {
        if posts_to(site, relay, plan, class, lists[place].list, to) {
            return Some(place);
        }
    }
    None
}

// The lists on the way to a place, the last one first.
fn way_back(alloc: Global, lists: &[Followed], place: usize) -> Result<Vec<u32>, AllocError> {
    let mut way = Vec::new(alloc);
    let mut at = place;
    for _ in 0..LISTS {
        let Some(here) = lists.get(at).copied() else {
            return Ok(way);
        };
        way.push(here.list)?;
        if at == 0 {
            return Ok(way);
        }
        at = here.from;
    }
    Ok(way)
}

// The lists of a shortest circle of posts from a list back to itself, the last one first and the list itself at the end.
fn circle_at(
    alloc: Global,
    site: &Site,
    relay: u32,
    plan: &Plan,
    list: u32,
    class: Class,
) -> Result<Option<Vec<u32>>, AllocError> {
    let lists = lists_followed(alloc, site, relay, plan, list, class)?;
    match posting(site, relay, plan, class, lists.as_slice(), list) {
        Some(place) => Ok(Some(way_back(alloc, lists.as_slice(), place)?)),
        None => Ok(None),
    }
}

/// The lists of a circle of posts among those that messages of a class follow from a list on: the last one first, and at
/// the end the one where the circle begins and ends.
pub fn circle(
    alloc: Global,
    site: &Site,
    relay: u32,
    plan: &Plan,
    list: u32,
    class: Class,
) -> Result<Option<Vec<u32>>, AllocError> {
    let lists = lists_followed(alloc, site, relay, plan, list, class)?;
    for here in &lists {
        if let Some(found) = circle_at(alloc, site, relay, plan, here.list, class)? {
            return Ok(Some(found));
        }
    }
    Ok(None)
}
