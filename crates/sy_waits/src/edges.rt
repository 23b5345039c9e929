//! The occurrences that messages may execute, and the graph of where they lead.

use crate::followed::{is_marked, places_of};
use crate::graph::Node;
use crate::groups::Group;
use crate::places::{Of, counts, input_place, list_place, lists_of, place_of};
use std::alloc::{AllocError, Global};
use sy_classes::flow_of;
use sy_rules::Occurrence;
use sy_rules::laws::plans_are_whole;
use sy_site::Site;

/// An occurrence of a list, all by number.
#[derive(Clone, Copy)]
pub struct Step {
    pub relay: u32,
    pub list: u32,
    pub number: u32,
}

/// An occurrence, and the place of the queue or of the list that it leads to.
#[derive(Clone, Copy)]
pub struct Edge {
    pub by: Step,
    pub to: usize,
}

/// What messages of a group may execute of a list of a relay, where they may follow it: the set of these occurrences.
pub fn executed(site: &Site, group: &Group, relay: u32, list: u32) -> u64 {
    if relay >= site.relays() || (list as usize) >= lists_of(site, relay) {
        return 0;
    }
    if !is_marked(group.marks.as_slice(), place_of(relay, list)) {
        return 0;
    }
    flow_of(site.plan(relay), list, group.class).may
}

// Adds what messages of a group may execute to the sets of all lists.
fn add_group(site: &Site, group: &Group, sets: &mut Vec<u64>) {
    for relay in 0..site.relays() {
        plans_are_whole(site.plan(relay));
        let many = lists_of(site, relay) as u32;
        for list in 0..many {
            let place = place_of(relay, list);
            if place < sets.len() {
                sets[place] |= executed(site, group, relay, list);
            }
        }
    }
}

/// What messages of a group may execute of each list that they may follow.
pub fn sets_of_one(alloc: Global, site: &Site, group: &Group) -> Result<Vec<u64>, AllocError> {
    let mut sets = vec![in alloc; 0; places_of(site)]?;
    add_group(site, group, &mut sets);
    Ok(sets)
}

/// What messages of some groups may execute of each list that they may follow.
pub fn sets_of(alloc: Global, site: &Site, groups: &[Group]) -> Result<Vec<u64>, AllocError> {
    let mut sets = vec![in alloc; 0; places_of(site)]?;
    for group in groups {
        add_group(site, group, &mut sets);
    }
    Ok(sets)
}

// Where an occurrence leads, where that counts.
fn lead_place(site: &Site, of: Of, relay: u32, is: Occurrence) -> Option<usize> {
    if relay >= site.relays() {
        return None;
    }
    match is {
        Occurrence::Run(action) => input_place(site, of, site.target(relay, action)?),
        Occurrence::Post(list) => {
            if (list as usize) >= lists_of(site, relay) || !counts(site, of, relay, list) {
                return None;
            }
            Some(list_place(site, of, relay, list))
        }
    }
}

// Puts the edges of a list's occurrences into the graph.
fn add_list(
    site: &Site,
    of: Of,
    relay: u32,
    list: u32,
    set: u64,
    graph: &mut Vec<Node>,
) -> Result<(), AllocError> {
    if set == 0 || relay >= site.relays() || (list as usize) >= lists_of(site, relay) {
        return Ok(());
    }
    let from = list_place(site, of, relay, list);
    let mut left = set;
    let mut number: u32 = 0;
    for is in site.plan(relay).occurrences(list) {
        if left & 1 == 1 && from < graph.len() {
            if let Some(to) = lead_place(site, of, relay, *is) {
                let by = Step {
                    relay,
                    list,
                    number,
                };
                graph[from].edges.push(Edge { by, to })?;
            }
        }
        left >>= 1;
        number = number.saturating_add(1);
    }
    Ok(())
}

// Puts those of a relay's lists into it.
fn add_relay(
    site: &Site,
    of: Of,
    relay: u32,
    sets: &[u64],
    graph: &mut Vec<Node>,
) -> Result<(), AllocError> {
    if relay >= site.relays() {
        return Ok(());
    }
    plans_are_whole(site.plan(relay));
    let many = lists_of(site, relay) as u32;
    for list in 0..many {
        if let Some(set) = sets.get(place_of(relay, list)) {
            add_list(site, of, relay, list, *set, graph)?;
        }
    }
    Ok(())
}

/// The graph of queues, or of lists, in which these sets of occurrences lead from one to another.
pub fn graph_of(alloc: Global, site: &Site, of: Of, sets: &[u64]) -> Result<Vec<Node>, AllocError> {
    let many = places_of(site);
    let mut graph = Vec::with_capacity(alloc, many)?;
    for _ in 0..many {
        graph.push(Node {
            edges: Vec::new(alloc),
        })?;
    }
    for relay in 0..site.relays() {
        add_relay(site, of, relay, sets, &mut graph)?;
    }
    Ok(graph)
}
