//! What a relay guards: the pairs of input and class whose losses are counted apart, but for those at and after spare actions.
ghost use Rattle.std.specs.Prelude.{◌≡◌, ◌+◌, ◌*◌, ◌<◌, ◌↔◌, false, length, replicate, Decides, IfOk, IsTrue};
ghost use Rattle.sy_board.specs.internal.Guarding.{IsTable, marked};
ghost use Rattle.sy_board.specs.relay.Spares.{is_spare_action, is_spare_occurrence, is_spare_own};
ghost use Rattle.sy_board.specs.relay.Totals.{guards};

use std::alloc::{AllocError, Global};
use std::marker::Model;
use sy_rules::{Occurrence, Plan};
use sy_wire::Class;

// Inputs of a relay are below this number; pairs of others guard nothing that a board holds.
const INPUTS: usize = 64;

const CLASSES: usize = 192;

/// The pairs of an input and a class that are protected on a relay, and the relay's spare actions: losses of these pairs are counted apart, but
/// for those of spare occurrences, and of entries of a spare action's own list. A spare occurrence runs a spare action, or posts to its own list.
#[derive(Drop)]
pub struct Guard {
    pairs: Vec<(u32, Class)>,
    // actions by their numbers
    spares: Vec<u32>,
    // of each input below 64 and each class whether it is among the pairs
    table: Vec<bool>,
}

impl Model for Guard {
    ghost use Rattle.sy_board.specs.relay.Totals.{GuardState};
    ghost use Rattle.sy_board.specs.internal.Guarding.{IsTable, guard_inside};

    ghost Value = { GuardState };

    ghost view = { guard_inside };

    ghost invariant = { λ g. IsTable g.pairs.items g.table.items };
}

// Where the table has an input and a class.
fn place(input: u32, class: Class) -> usize
    requires { input < 64 }
    ensures { result ≡ 192 * input + 8 * class.facility + class.severity }
{
    CLASSES * input as usize + class.number() as usize
}

// A table in which nothing is guarded.
fn empty_table(alloc: Global) -> Result<Vec<bool>, AllocError>
    ensures { IfOk result (λ table. table.items ≡ replicate 12288 false) }
{
    let mut table = Vec::with_capacity(alloc, INPUTS * CLASSES)?;
    for _ in 0..INPUTS * CLASSES {
        table.push(false)?;
    }
    Ok(table)
}

// Guards a pair more.
fn mark(table: &mut [bool], input: u32, class: Class)
    requires { length table.old ≡ 12288 }
    ensures { table.new ≡ marked table.old input class }
{
    if (input as usize) < INPUTS {
        table[place(input, class)] = true;
    }
}

fn table_of(alloc: Global, pairs: &[(u32, Class)]) -> Result<Vec<bool>, AllocError>
    ensures { IfOk result (λ table. IsTable pairs.now table.items) }
{
    let mut table = empty_table(alloc)?;
    for &(input, class) in pairs {
        mark(&mut table, input, class);
    }
    Ok(table)
}

// Whether two pairs are one.
fn is_same(one: (u32, Class), other: (u32, Class)) -> bool
    ensures { Decides result (one ≡ other) }
{
    one.0 == other.0 && one.1 == other.1
}

// Whether these are the same pairs, in the same order.
fn same_pairs(one: &[(u32, Class)], other: &[(u32, Class)]) -> bool
    ensures { Decides result (one.now ≡ other.now) }
{
    if one.len() != other.len() {
        return false;
    }
    for place in 0..one.len() {
        if !is_same(one[place], other[place]) {
            return false;
        }
    }
    true
}

impl Guard {
    /// The guard of these pairs, where these actions are spare, given by their numbers. A board with it loses nothing of the pairs but at or after
    /// spare actions, since its plan meets the guard's condition.
    pub fn new(alloc: Global, pairs: &[(u32, Class)], spares: &[u32]) -> Result<Guard, AllocError>
        ensures { IfOk result (λ guard. guard ≡ record { pairs = pairs.now; spares = spares.now }) }
    {
        let table = table_of(alloc, pairs)?;
        let mut kept_pairs = Vec::with_capacity(alloc, pairs.len())?;
        kept_pairs.extend_from_slice(pairs)?;
        let mut kept_spares = Vec::with_capacity(alloc, spares.len())?;
        kept_spares.extend_from_slice(spares)?;
        Ok(Guard {
            pairs: kept_pairs,
            spares: kept_spares,
            table,
        })
    }

    /// The pairs, as they were given.
    pub fn pairs(&self) -> &[(u32, Class)]
        ensures { result.now ≡ self.now.pairs }
    {
        self.pairs.as_slice()
    }

    /// The spare actions by their numbers, as they were given.
    pub fn spares(&self) -> &[u32]
        ensures { result.now ≡ self.now.spares }
    {
        self.spares.as_slice()
    }

    /// Another guard of the same pairs, with the same spare actions.
    pub fn copy(&self, alloc: Global) -> Result<Guard, AllocError>
        ensures { IfOk result (λ copy. copy ≡ self.now) }
    {
        Guard::new(alloc, self.pairs.as_slice(), self.spares.as_slice())
    }

    /// Whether another guard has exactly the same pairs and spare actions, as they were given to both.
    pub fn same(&self, other: &Guard) -> bool
        ensures { IsTrue result ↔ (self.now ≡ other.now) }
    {
        same_pairs(self.pairs.as_slice(), other.pairs.as_slice())
            && self.spares.as_slice() == other.spares.as_slice()
    }

    /// Whether an action is spare.
    pub fn is_spare(&self, action: u32) -> bool
        ensures { result ≡ is_spare_action self.now.spares action }
    {
        self.spares.iter().any(|&spare| spare == action)
    }

    /// Whether a list is a spare action's own.
    pub(crate) fn is_spare_list(&self, plan: &Plan, list: u32) -> bool
        ensures { result ≡ is_spare_own plan.now self.now.spares list }
    {
        match plan.own_action(list) {
            Some(action) => self.is_spare(action),
            None => false,
        }
    }

    /// Whether an occurrence is spare.
    pub(crate) fn is_spare_occurrence(&self, plan: &Plan, occurrence: Occurrence) -> bool
        ensures { result ≡ is_spare_occurrence plan.now self.now.spares occurrence }
    {
        match occurrence {
            Occurrence::Run(action) => self.is_spare(action),
            Occurrence::Post(list) => self.is_spare_list(plan, list),
        }
    }

    /// Whether an input and a class are among the pairs. For inputs of a relay this takes one look.
    pub fn guards(&self, input: u32, class: Class) -> bool
        ensures { result ≡ guards self.now.pairs input class }
    {
        if (input as usize) < INPUTS {
            return self.table[place(input, class)];
        }
        self.pairs
            .iter()
            .any(|pair| pair.0 == input && pair.1 == class)
    }
}
