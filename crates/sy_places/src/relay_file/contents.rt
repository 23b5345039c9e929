//! The objects and statements of a script, one after the other in the order of the text.

use crate::relay_file::statements::{Row, rows_of};
use std::alloc::{AllocError, Global};
use sy_script::tree::{Object, ObjectKind, Param, Ruleset, Script};

/// What stands in a script; inputs, rulesets and actions with their number among those of their kind.
#[derive(Clone, Copy)]
pub enum What<'a> {
    Module,
    Global,
    MainQueue,
    Input(u32),
    Ruleset(u32),
    Action(u32),
    /// The name of the ruleset that is called.
    Call(&'a [u8]),
}

/// An object or a statement, with the place of its first word in the text.
#[derive(Clone, Copy)]
pub struct Item<'a> {
    pub what: What<'a>,
    pub place: usize,
    pub params: &'a [Param],
    /// The ruleset that it stands in.
    pub ruleset: Option<u32>,
    /// The place of the first stop behind which it stands in its block, or in one around that.
    pub stop: Option<usize>,
    /// Whether it is the first one behind that stop.
    pub is_first: bool,
}

// Where a block, or a ruleset, ends, and what holds behind it again.
#[derive(Clone, Copy)]
struct Around {
    end: usize,
    stop: Option<usize>,
    ruleset: Option<u32>,
}

// What was gone over so far.
#[derive(Drop)]
struct Walk<'a> {
    items: Vec<Item<'a>>,
    // the blocks that are open, the innermost last
    around: Vec<Around>,
    inputs: u32,
    rulesets: u32,
    actions: u32,
    ruleset: Option<u32>,
    stop: Option<usize>,
    // the last stop behind which something was found
    last: Option<usize>,
}

fn push_item<'a>(
    walk: &mut Walk<'a>,
    what: What<'a>,
    place: usize,
    params: &'a [Param],
) -> Result<(), AllocError> {
    walk.items.push(Item {
        what,
        place,
        params,
        ruleset: walk.ruleset,
        stop: walk.stop,
        is_first: walk.stop != walk.last,
    })?;
    if walk.stop.is_some() {
        walk.last = walk.stop;
    }
    Ok(())
}

fn push_action<'a>(
    walk: &mut Walk<'a>,
    place: usize,
    params: &'a [Param],
) -> Result<(), AllocError> {
    let number = walk.actions;
    walk.actions = number.saturating_add(1);
    push_item(walk, What::Action(number), place, params)
}

fn set_stop(walk: &mut Walk<'_>, place: usize) {
    if walk.stop.is_none() {
        walk.stop = Some(place);
    }
}

// Enters what ends before a row.
fn enter(walk: &mut Walk<'_>, end: usize) -> Result<(), AllocError> {
    walk.around.push(Around {
        end,
        stop: walk.stop,
        ruleset: walk.ruleset,
    })?;
    Ok(())
}

// Leaves what ends before a row. A stop in a block says nothing of what stands behind the block.
fn leave(walk: &mut Walk<'_>, at: usize) {
    for _ in 0..walk.around.len() {
        match walk.around.last().copied() {
            Some(around) if around.end <= at => {
                walk.stop = around.stop;
                walk.ruleset = around.ruleset;
                walk.around.pop();
            }
            _ => return,
        }
    }
}

// An object of the top stands behind no stop.
fn push_object<'a>(walk: &mut Walk<'a>, object: &'a Object) -> Result<(), AllocError> {
    let what = match object.kind {
        ObjectKind::Module => What::Module,
        ObjectKind::Global => What::Global,
        ObjectKind::MainQueue => What::MainQueue,
        ObjectKind::Input => What::Input(walk.inputs),
    };
    if let What::Input(number) = what {
        walk.inputs = number.saturating_add(1);
    }
    let stop = walk.stop;
    walk.stop = None;
    let pushed = push_item(walk, what, object.span.start, object.params.as_slice());
    walk.stop = stop;
    pushed
}

fn enter_ruleset<'a>(
    walk: &mut Walk<'a>,
    ruleset: &'a Ruleset,
    end: usize,
) -> Result<(), AllocError> {
    enter(walk, end)?;
    let number = walk.rulesets;
    walk.rulesets = number.saturating_add(1);
    walk.stop = None;
    walk.ruleset = Some(number);
    push_item(
        walk,
        What::Ruleset(number),
        ruleset.span.start,
        ruleset.params.as_slice(),
    )
}

// Goes over a row, behind which stands the one of this number.
fn meet<'a>(walk: &mut Walk<'a>, row: Row<'a>, next: usize) -> Result<(), AllocError> {
    match row {
        Row::Object(object) => push_object(walk, object),
        Row::Ruleset(ruleset, count) => enter_ruleset(walk, ruleset, next.saturating_add(count)),
        Row::Action(place, params) => push_action(walk, place, params),
        Row::Call(name) => push_item(walk, What::Call(name.text.as_slice()), name.span.start, &[]),
        Row::Stop(place) => {
            set_stop(walk, place);
            Ok(())
        }
        Row::If(_, done, otherwise) => {
            let middle = next.saturating_add(done);
            enter(walk, middle.saturating_add(otherwise))?;
            enter(walk, middle)
        }
    }
}

/// The objects and statements of a script but for tests and stops. It goes as deep as the script nests.
pub fn items_of<'a>(alloc: Global, script: &'a Script) -> Result<Vec<Item<'a>>, AllocError> {
    let rows = rows_of(alloc, script)?;
    let mut walk = Walk {
        items: Vec::new(alloc),
        around: Vec::new(alloc),
        inputs: 0,
        rulesets: 0,
        actions: 0,
        ruleset: None,
        stop: None,
        last: None,
    };
    let mut at: usize = 0;
    for row in rows.as_slice() {
        leave(&mut walk, at);
        at = at.saturating_add(1);
        meet(&mut walk, *row, at)?;
    }
    let Walk { items, .. } = walk;
    Ok(items)
}
