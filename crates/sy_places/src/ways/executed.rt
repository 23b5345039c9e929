//! What messages may execute of a relay, and which inputs of a site they come to.

use crate::ways::relay_parts::{occurrences_of, spot_at};
use std::alloc::{AllocError, Global};
use sy_rules::{Occurrence, Plan};
use sy_site::{Site, SiteInput};
use sy_wire::Class;

/// How many classes there are.
const CLASSES: u8 = 192;

/// The most inputs of a site: 64 of each of 64 relays.
const INPUTS: usize = 4096;

/// All classes.
pub fn all_classes(alloc: Global) -> Result<Vec<Class>, AllocError> {
    let mut classes = Vec::new(alloc);
    for number in 0..CLASSES {
        classes.push(Class::of_number(number))?;
    }
    Ok(classes)
}

/// Those that are protected, by rising number.
pub fn protected_classes(alloc: Global, site: &Site) -> Result<Vec<Class>, AllocError> {
    let mut classes = Vec::new(alloc);
    for number in 0..CLASSES {
        let class = Class::of_number(number);
        if site.protections().iter().any(|p| p.selector.matches(class)) {
            classes.push(class)?;
        }
    }
    Ok(classes)
}

// How far a list is gone over.
#[derive(Clone, Copy)]
enum Progress {
    Unmet,
    Met,
    Done,
}

/// What messages may execute: of each list whether one comes to it, and of each action whether one executes it.
#[derive(Drop)]
pub struct Executed {
    lists: Vec<Progress>,
    actions: Vec<bool>,
}

impl Executed {
    /// Whether a message may execute the action.
    pub fn has_action(&self, action: u32) -> bool {
        match self.actions.get(action as usize) {
            Some(is_executed) => *is_executed,
            None => false,
        }
    }

    /// Whether a message may come to the list.
    pub fn has_list(&self, list: u32) -> bool {
        match self.lists.get(list as usize) {
            Some(Progress::Unmet) | None => false,
            Some(_) => true,
        }
    }

    // Notes that messages come to a list.
    fn meet(&mut self, list: u32) {
        let list = list as usize;
        if list < self.lists.len() && matches!(self.lists[list], Progress::Unmet) {
            self.lists[list] = Progress::Met;
        }
    }

    fn execute(&mut self, occurrence: Occurrence) {
        match occurrence {
            Occurrence::Run(action) => {
                if (action as usize) < self.actions.len() {
                    self.actions[action as usize] = true;
                }
            }
            Occurrence::Post(list) => self.meet(list),
        }
    }

    // A list that messages come to, and that wasn't gone over.
    fn next(&self) -> Option<u32> {
        let mut list: u32 = 0;
        for progress in self.lists.as_slice() {
            if let Progress::Met = progress {
                return Some(list);
            }
            list = list.saturating_add(1);
        }
        None
    }

    // Notes that a list was gone over.
    fn leave(&mut self, list: u32) {
        if let Some(progress) = self.lists.get_mut(list as usize) {
            *progress = Progress::Done;
        }
    }
}

// What messages of some of these classes may execute of a list, as bits.
fn may_of(plan: &Plan, list: u32, classes: &[Class]) -> u64 {
    if (list as usize) >= plan.list_names().len() {
        return 0;
    }
    let mut all = 0;
    for class in classes {
        let (may, _) = plan.flows(list, *class);
        all |= may;
    }
    all
}

// Notes what messages may execute of a list.
fn execute_list(executed: &mut Executed, plan: &Plan, list: u32, classes: &[Class]) {
    let mut left = may_of(plan, list, classes);
    for occurrence in occurrences_of(plan, list) {
        if left % 2 == 1 {
            executed.execute(*occurrence);
        }
        left /= 2;
    }
}

fn nothing_executed(alloc: Global, plan: &Plan) -> Result<Executed, AllocError> {
    Ok(Executed {
        lists: vec![in alloc; Progress::Unmet; plan.list_names().len()]?,
        actions: vec![in alloc; false; plan.actions().len()]?,
    })
}

/// What messages of these classes may execute that come to one of these lists.
pub fn executed_from(
    alloc: Global,
    plan: &Plan,
    lists: &[u32],
    classes: &[Class],
) -> Result<Executed, AllocError> {
    let mut executed = nothing_executed(alloc, plan)?;
    for list in lists {
        executed.meet(*list);
    }
    for _ in plan.list_names() {
        if let Some(list) = executed.next() {
            execute_list(&mut executed, plan, list, classes);
            executed.leave(list);
        }
    }
    Ok(executed)
}

/// What messages of these classes may execute that come in at any input of a relay.
pub fn executed_of(alloc: Global, plan: &Plan, classes: &[Class]) -> Result<Executed, AllocError> {
    let mut lists = Vec::new(alloc);
    for input in plan.inputs() {
        lists.push(input.list)?;
    }
    executed_from(alloc, plan, lists.as_slice(), classes)
}

// Puts an input behind the others, where it isn't among them.
fn insert_input(found: &mut Vec<SiteInput>, input: SiteInput) -> Result<(), AllocError> {
    if found.contains(&input) {
        return Ok(());
    }
    found.push(input)?;
    Ok(())
}

// Puts the input behind the others that an action leads to, where messages may execute it.
fn insert_target(
    site: &Site,
    relay: u32,
    action: u32,
    executed: &Executed,
    found: &mut Vec<SiteInput>,
) -> Result<(), AllocError> {
    if !executed.has_action(action) {
        return Ok(());
    }
    match site.target(relay, action) {
        Some(input) => insert_input(found, input),
        None => Ok(()),
    }
}

// Puts the inputs behind the others that the forwards lead to which messages at an input may execute.
fn insert_targets(
    alloc: Global,
    site: &Site,
    at: SiteInput,
    classes: &[Class],
    found: &mut Vec<SiteInput>,
) -> Result<(), AllocError> {
    let Some(spot) = spot_at(site, at) else {
        return Ok(());
    };
    let executed = executed_from(alloc, spot.plan, &[spot.input.list], classes)?;
    let mut action: u32 = 0;
    for _ in spot.plan.actions() {
        insert_target(site, at.relay, action, &executed, found)?;
        action = action.saturating_add(1);
    }
    Ok(())
}

/// The inputs of a site that messages of these classes may come to from an entry.
pub fn reached_inputs(
    alloc: Global,
    site: &Site,
    classes: &[Class],
) -> Result<Vec<SiteInput>, AllocError> {
    let mut found = Vec::new(alloc);
    for entry in site.entries() {
        insert_input(&mut found, *entry)?;
    }
    for at in 0..INPUTS {
        if at < found.len() {
            let input = found[at];
            insert_targets(alloc, site, input, classes, &mut found)?;
        }
    }
    Ok(found)
}
