//! What a worker does next.
ghost use Rattle.std.specs.Prelude.{◌≡◌, ◌<◌, Decides, List, length, map};
ghost use Rattle.std.specs.Arc.{arc_value};
ghost use Rattle.sy_board.specs.relay.Boards.{HasRun};
ghost use Rattle.sy_wire.specs.Messages.{Said};
ghost use Rattle.sy_runtime.specs.internal.Finding.{NextIs};

use crate::connection::used::keep_all;
use crate::worker::posting::{PostOutcome, post};
use std::alloc::Global;
use std::sync::Arc;
use sy_board::{Board, Job};
use sy_chain::Node;
use sy_rules::laws::plans_are_whole;
use sy_wire::Message;

/// How many messages are offered at once, at most.
const MOST: usize = 256;

/// What a worker does next.
#[derive(Clone, Copy, Debug, PartialEq, Eq)]
pub(crate) enum Next {
    // it offers messages to the device of this action
    Run(u32),
    // its post is dealt with
    Posted,
    // its post waits for room
    Held,
    // it took entries from its queue
    Grabbed,
    // nothing waits for it
    Idle,
    // its messages can't have another owner now, or its post, which waits, can't have an entry
    NoMemory,
    Ends,
}

pub(crate) fn has_worker(board: &Board, worker: u32) -> bool
    ensures { Decides result (worker < length board.now.plan.workers) }
{
    (worker as usize) < board.plan().workers().len()
}

// The runs that stand next for a worker, whose messages become these.
fn find_runs(board: &mut Board, worker: u32, messages: &mut Vec<Arc<Message>>) -> Next
    requires there { worker < length board.old.plan.workers }
    requires run { HasRun board.old worker }
    ensures { NextIs result (map arc_value messages.new.items) board.old worker board.new }
{
    messages.clear();
    let Ok(()) = messages.reserve(MOST) else {
        return Next::NoMemory;
    };
    match board.runs(worker, MOST, messages) {
        Ok(Some(action)) => Next::Run(action),
        Ok(None) => unreachable!(),
        Err(_) => Next::NoMemory,
    }
}

// The post of a worker.
fn find_post(alloc: Global, board: &mut Board, worker: u32, used: &mut Vec<Node>) -> Next
    requires { worker < length board.old.plan.workers }
    ensures { (messages : List Said) → NextIs result messages board.old worker board.new }
{
    match post(alloc, board, worker, used) {
        PostOutcome::Done => Next::Posted,
        PostOutcome::Held => Next::Held,
        PostOutcome::NoMemory => Next::NoMemory,
        PostOutcome::Refused => Next::Ends,
    }
}

// A batch of the worker's queue.
fn grab(board: &mut Board, worker: u32, used: &mut Vec<Node>) -> Next
    requires { worker < length board.old.plan.workers }
    ensures { (messages : List Said) → NextIs result messages board.old worker board.new }
{
    plans_are_whole(board.plan());
    let (count, lost) = match board.grab(worker) {
        Ok(grabbed) => grabbed,
        Err(_) => return Next::Ends,
    };
    keep_all(used, lost);
    if count == 0 {
        Next::Idle
    } else {
        Next::Grabbed
    }
}

/// What a worker does next. Its post, or a batch of its queue where it has no entries, is dealt with at once; the messages of its runs
/// become these.
pub(crate) fn find(
    alloc: Global,
    board: &mut Board,
    worker: u32,
    messages: &mut Vec<Arc<Message>>,
    used: &mut Vec<Node>,
) -> Next
    ensures { NextIs result (map arc_value messages.new.items) board.old worker board.new }
{
    if !has_worker(board, worker) {
        return Next::Ends;
    }
    match board.job(worker) {
        Some(Job::Run { .. }) => find_runs(board, worker, messages),
        Some(Job::Post { .. }) => find_post(alloc, board, worker, used),
        None => grab(board, worker, used),
    }
}
