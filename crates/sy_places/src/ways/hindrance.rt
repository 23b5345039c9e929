//! The statement of a list that keeps messages of a class from an action, or from a queue.

use crate::relay_file::statements::{Row, Statements, place_of_test};
use crate::ways::relay_parts::queue_for;
use std::alloc::{AllocError, Global};
use sy_rules::Plan;
use sy_script::tree::ExprTree;
use sy_select::{Expr, Verdict, eval_class};
use sy_wire::Class;

/// The most statements that are gone over.
const MOST: u32 = 200_000;

/// What is looked for in a list: an action by its place in the text, or a post to a ruleset with a queue of its own, by the
/// ruleset's name.
#[derive(Clone, Copy)]
pub enum Target<'a> {
    Action(usize),
    Ruleset(&'a [u8]),
}

/// What keeps messages from it, by its place in the text.
#[derive(Clone, Copy)]
pub enum Hindrance {
    /// A stop, and whether every message of the class comes to it.
    Stop(usize, bool),
    /// A test that the class alone doesn't decide.
    Test(usize),
    /// A test that is false for the class (or true, where the action stands behind its `else`).
    Never(usize),
}

/// Rows that are gone over, one list, or one block, within others.
#[derive(Clone, Copy)]
struct Frame {
    at: usize,
    end: usize,
    // the test that leads here, where not every message of the class comes here by it
    test: Option<Hindrance>,
    // whether something was met before that test
    is_late: bool,
    // whether every message, or no message, of the class comes here
    is_sure: bool,
    is_dead: bool,
}

#[derive(Drop)]
struct Walk<'a, 's> {
    statements: &'a Statements<'s>,
    plan: &'a Plan,
    class: Class,
    target: Target<'a>,
    frames: Vec<Frame>,
    met: Option<Hindrance>,
    is_dead: bool,
}

// Whether a test is true for messages of a class.
fn verdict_of(alloc: Global, test: &ExprTree, class: Class) -> Verdict {
    match Expr::read(alloc, test) {
        Ok(expr) => eval_class(&expr, class),
        Err(_) => Verdict::Either,
    }
}

// What keeps messages from what is looked for, at which a walk stands.
fn hindrance_at(walk: &Walk<'_, '_>) -> Option<Hindrance> {
    for frame in walk.frames.as_slice() {
        if frame.test.is_some() && !frame.is_late {
            return frame.test;
        }
    }
    walk.met
}

// A frame for a block of a test, by whether the test is true, and the block is the one for that.
fn block(
    walk: &Walk<'_, '_>,
    above: Frame,
    at: usize,
    rows: usize,
    verdict: Verdict,
    place: usize,
    wanted: bool,
) -> Frame {
    let end = at.saturating_add(rows);
    let (test, is_dead) = match verdict {
        Verdict::Either => (Some(Hindrance::Test(place)), false),
        Verdict::Yes if wanted => (None, false),
        Verdict::No if !wanted => (None, false),
        _ => (Some(Hindrance::Never(place)), true),
    };
    Frame {
        at,
        end,
        test,
        is_late: walk.met.is_some(),
        is_sure: above.is_sure && test.is_none(),
        is_dead: above.is_dead || is_dead,
    }
}

// The statements of the ruleset of this name, which has no queue of its own: to one that has, a call is a post.
fn body_of(statements: &Statements<'_>, plan: &Plan, name: &[u8]) -> Option<(usize, usize)> {
    let mut list: u32 = 0;
    for body in statements.bodies.as_slice() {
        if !body.name.is_empty() && body.name == name {
            return match queue_for(plan, list) {
                0 => Some((body.start, body.end)),
                _ => None,
            };
        }
        list = list.saturating_add(1);
    }
    None
}

fn enter(walk: &mut Walk<'_, '_>, frame: Frame) -> Result<(), AllocError> {
    walk.frames.push(frame)?;
    Ok(())
}

// Meets a stop.
fn meet_stop(walk: &mut Walk<'_, '_>, frame: Frame, place: usize) {
    if walk.met.is_none() && !frame.is_dead && !walk.is_dead {
        walk.met = Some(Hindrance::Stop(place, frame.is_sure));
    }
    if frame.is_sure && !frame.is_dead {
        walk.is_dead = true;
    }
}

// Goes into the list that is called.
fn enter_call(walk: &mut Walk<'_, '_>, frame: Frame, name: &[u8]) -> Result<(), AllocError> {
    match body_of(walk.statements, walk.plan, name) {
        Some((at, end)) if walk.frames.len() < 1_000 => enter(
            walk,
            Frame {
                at,
                end,
                test: None,
                is_late: false,
                is_sure: frame.is_sure,
                is_dead: frame.is_dead,
            },
        ),
        _ => Ok(()),
    }
}

// Goes into the blocks of a test, that of its `else` after the other.
fn enter_test(
    alloc: Global,
    walk: &mut Walk<'_, '_>,
    frame: Frame,
    row: (&ExprTree, usize, usize),
) -> Result<(), AllocError> {
    let (tree, done, otherwise) = row;
    let verdict = verdict_of(alloc, tree, walk.class);
    let place = place_of_test(tree);
    let middle = frame.at.saturating_add(done);
    let second = block(walk, frame, middle, otherwise, verdict, place, false);
    let first = block(walk, frame, frame.at, done, verdict, place, true);
    enter(walk, second)?;
    enter(walk, first)
}

// The frame that is gone on with, which is taken off, without the row at which it stands, and that row.
fn next_row<'s>(walk: &mut Walk<'_, 's>) -> Option<(Frame, Option<Row<'s>>)> {
    let mut frame = walk.frames.pop()?;
    if frame.at >= frame.end {
        return Some((frame, None));
    }
    let row = walk.statements.rows.as_slice().get(frame.at).copied();
    frame.at = frame.at.saturating_add(1);
    Some((frame, row))
}

// The frame behind the blocks of a row, or behind a ruleset, whose statements are of another list.
fn behind_blocks(frame: Frame, row: Row<'_>) -> Frame {
    match row {
        Row::If(_, done, otherwise) => Frame {
            at: frame.at.saturating_add(done).saturating_add(otherwise),
            ..frame
        },
        Row::Ruleset(_, count) => Frame {
            at: frame.at.saturating_add(count),
            ..frame
        },
        _ => frame,
    }
}

// Whether a call is the post that is looked for.
fn is_target(walk: &Walk<'_, '_>, called: &[u8]) -> bool {
    match walk.target {
        Target::Ruleset(name) => name == called,
        Target::Action(_) => false,
    }
}

// Makes a step with a row, and answers whether what is looked for is met.
fn step(
    alloc: Global,
    walk: &mut Walk<'_, '_>,
    frame: Frame,
    row: Row<'_>,
) -> Result<bool, AllocError> {
    enter(walk, behind_blocks(frame, row))?;
    match row {
        Row::Object(_) | Row::Ruleset(_, _) => Ok(false),
        Row::Action(place, _) => Ok(matches!(walk.target, Target::Action(at) if at == place)),
        Row::Stop(place) => {
            meet_stop(walk, frame, place);
            Ok(false)
        }
        Row::Call(name) if is_target(walk, name.text.as_slice()) => Ok(true),
        Row::Call(name) => match enter_call(walk, frame, name.text.as_slice()) {
            Ok(()) => Ok(false),
            Err(why) => Err(why),
        },
        Row::If(tree, done, otherwise) => {
            match enter_test(alloc, walk, frame, (tree, done, otherwise)) {
                Ok(()) => Ok(false),
                Err(why) => Err(why),
            }
        }
    }
}

fn walk_on(alloc: Global, walk: &mut Walk<'_, '_>) -> Result<Option<Hindrance>, AllocError> {
    for _ in 0..MOST {
        match next_row(walk) {
            None => return Ok(None),
            Some((_, None)) => {}
            Some((frame, Some(row))) => {
                if step(alloc, walk, frame, row)? {
                    return Ok(hindrance_at(walk));
                }
            }
        }
    }
    Ok(None)
}

/// What keeps messages of a class from an action or a post of the list with this number: of the default ruleset, 0, or of a
/// ruleset.
pub fn find_hindrance(
    alloc: Global,
    statements: &Statements<'_>,
    plan: &Plan,
    list: u32,
    class: Class,
    target: Target<'_>,
) -> Result<Option<Hindrance>, AllocError> {
    let Some(body) = statements.bodies.as_slice().get(list as usize) else {
        return Ok(None);
    };
    let mut frames = Vec::new(alloc);
    frames.push(Frame {
        at: body.start,
        end: body.end,
        test: None,
        is_late: false,
        is_sure: true,
        is_dead: false,
    })?;
    let mut walk = Walk {
        statements,
        plan,
        class,
        target,
        frames,
        met: None,
        is_dead: false,
    };
    walk_on(alloc, &mut walk)
}
