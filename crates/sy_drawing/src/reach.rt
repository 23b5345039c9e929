//! What messages of some classes reach in a site, and may and must execute there.

use std::alloc::{AllocError, Global};
use sy_places::ways::relay_parts::{Spot, occurrences_of, spot_at};
use sy_rules::{Occurrence, Plan};
use sy_site::{Site, SiteInput};
use sy_wire::Class;

/// How many inputs a relay has at most.
pub const INPUTS: u32 = 64;

/// How many lists: the default ruleset's, those of 256 rulesets, and those of 256 actions.
pub const LISTS: u32 = 513;

/// How many actions.
pub const ACTIONS: u32 = 256;

/// Of each input, list and action of each relay the classes whose messages reach it.
#[derive(Drop)]
pub struct Reach {
    inputs: Vec<Vec<Class>>,
    lists: Vec<Vec<Class>>,
    actions: Vec<Vec<Class>>,
    // those that a list executes whatever its tests say
    sure: Vec<Vec<Class>>,
    // lists that a class has come to, whose occurrences it hasn't followed yet
    open: Vec<(u32, u32)>,
}

/// Whether messages of the classes that are drawn execute something.
#[derive(Clone, Copy)]
pub enum How {
    Never,
    May,
    Must,
}

// Rows without classes, so many a relay.
fn rows(alloc: Global, relays: u32, width: u32) -> Result<Vec<Vec<Class>>, AllocError> {
    let mut rows = Vec::new(alloc);
    for _ in 0..relays.saturating_mul(width) {
        rows.push(Vec::new(alloc))?;
    }
    Ok(rows)
}

fn place(relay: u32, width: u32, number: u32) -> usize {
    relay.saturating_mul(width).saturating_add(number) as usize
}

fn row_at(rows: &[Vec<Class>], place: usize) -> &[Class] {
    match rows.get(place) {
        Some(row) => row.as_slice(),
        None => &[],
    }
}

fn is_last(row: &[Class], class: Class) -> bool {
    match row {
        [.., last] => *last == class,
        [] => false,
    }
}

// Puts a class after the others of a row, where it isn't the last of them, and says whether it did.
fn add(rows: &mut Vec<Vec<Class>>, place: usize, class: Class) -> Result<bool, AllocError> {
    let Some(row) = rows.get_mut(place) else {
        return Ok(false);
    };
    if is_last(row.as_slice(), class) {
        return Ok(false);
    }
    row.push(class)?;
    Ok(true)
}

/// What messages of a class may and must execute of a list, as bits.
pub fn flows_of(plan: &Plan, list: u32, class: Class) -> (u64, u64) {
    if (list as usize) >= plan.list_names().len() {
        return (0, 0);
    }
    plan.flows(list, class)
}

impl Reach {
    // Nothing is reached yet.
    fn new(alloc: Global, relays: u32) -> Result<Reach, AllocError> {
        let inputs = rows(alloc, relays, INPUTS)?;
        let lists = rows(alloc, relays, LISTS)?;
        let actions = rows(alloc, relays, ACTIONS)?;
        let sure = rows(alloc, relays, ACTIONS)?;
        Ok(Reach {
            inputs,
            lists,
            actions,
            sure,
            open: Vec::new(alloc),
        })
    }

    /// The classes whose messages come to an input.
    pub fn at_input(&self, input: SiteInput) -> &[Class] {
        row_at(
            self.inputs.as_slice(),
            place(input.relay, INPUTS, input.input),
        )
    }

    /// Those whose messages come to a list.
    pub fn at_list(&self, relay: u32, list: u32) -> &[Class] {
        row_at(self.lists.as_slice(), place(relay, LISTS, list))
    }

    /// Those whose messages may execute an action.
    pub fn at_action(&self, relay: u32, action: u32) -> &[Class] {
        row_at(self.actions.as_slice(), place(relay, ACTIONS, action))
    }

    /// Whether an action is executed.
    pub fn how(&self, relay: u32, action: u32) -> How {
        if self.at_action(relay, action).is_empty() {
            return How::Never;
        }
        match row_at(self.sure.as_slice(), place(relay, ACTIONS, action)) {
            [] => How::May,
            _ => How::Must,
        }
    }

    fn come_to_list(&mut self, relay: u32, list: u32, class: Class) -> Result<(), AllocError> {
        if add(&mut self.lists, place(relay, LISTS, list), class)? {
            self.open.push((relay, list))?;
        }
        Ok(())
    }

    fn come_to_input(
        &mut self,
        site: &Site,
        at: SiteInput,
        class: Class,
    ) -> Result<(), AllocError> {
        let Some(Spot { plan: _, input }) = spot_at(site, at) else {
            return Ok(());
        };
        add(&mut self.inputs, place(at.relay, INPUTS, at.input), class)?;
        self.come_to_list(at.relay, input.list, class)
    }

    fn run(
        &mut self,
        site: &Site,
        relay: u32,
        action: u32,
        is_sure: bool,
        class: Class,
    ) -> Result<(), AllocError> {
        let at = place(relay, ACTIONS, action);
        add(&mut self.actions, at, class)?;
        if is_sure {
            add(&mut self.sure, at, class)?;
        }
        match site.target(relay, action) {
            Some(input) => self.come_to_input(site, input, class),
            None => Ok(()),
        }
    }

    fn execute(
        &mut self,
        site: &Site,
        relay: u32,
        occurrence: Occurrence,
        is_sure: bool,
        class: Class,
    ) -> Result<(), AllocError> {
        match occurrence {
            Occurrence::Run(action) => self.run(site, relay, action, is_sure, class),
            Occurrence::Post(list) => self.come_to_list(relay, list, class),
        }
    }

    // Follows what messages of a class may execute of a list.
    fn follow(
        &mut self,
        site: &Site,
        relay: u32,
        list: u32,
        class: Class,
    ) -> Result<(), AllocError> {
        if relay >= site.relays() {
            return Ok(());
        }
        let plan = site.plan(relay);
        let (mut may, mut must) = flows_of(plan, list, class);
        for occurrence in occurrences_of(plan, list) {
            if may % 2 == 1 {
                self.execute(site, relay, *occurrence, must % 2 == 1, class)?;
            }
            may /= 2;
            must /= 2;
        }
        Ok(())
    }

    // Follows a class from the entries on.
    fn enter(&mut self, site: &Site, class: Class) -> Result<(), AllocError> {
        for entry in site.entries() {
            self.come_to_input(site, *entry, class)?;
        }
        for _ in 0..self.lists.len() {
            let Some((relay, list)) = self.open.pop() else {
                return Ok(());
            };
            self.follow(site, relay, list, class)?;
        }
        Ok(())
    }
}

/// What messages of these classes reach from the entries of a site.
pub fn reach_of(alloc: Global, site: &Site, classes: &[Class]) -> Result<Reach, AllocError> {
    let mut reach = Reach::new(alloc, site.relays())?;
    for class in classes {
        reach.enter(site, *class)?;
    }
    Ok(reach)
}
