//! What is lost at inputs and queues, and who is told.
ghost use Rattle.std.specs.Prelude.{◌<◌, length};

use crate::connection_end::ConnEnd;
use crate::locked::Locked;
use crate::shared::{Gate, Shared};
use std::sync::{MutexGuard, Wait};
use sy_board::{Board, Job};
use sy_rules::Plan;
use sy_rules::laws::plans_are_whole;

/// How many entries were lost at a queue.
#[derive(Clone, Copy)]
pub(crate) struct Lost {
    pub(crate) queue: u32,
    pub(crate) count: u64,
}

// The queue of a list.
fn queue_of(plan: &Plan, list: u32) -> u32
    requires { list < length plan.now.lists }
{
    plan.list_queue(list).unwrap_or(0)
}

// The queue at which a worker loses what it loses next: that of the list that its post is for, or the one that it takes from.
fn queue_for(board: &Board, worker: u32) -> u32
    requires { worker < length board.now.plan.workers }
{
    match board.job(worker) {
        Some(Job::Post { list, .. }) => {
            plans_are_whole(board.plan());
            queue_of(board.plan(), list)
        }
        Some(Job::Run { .. }) => 0,
        None => board.plan().workers()[worker as usize],
    }
}

// How many entries were lost at queues so far.
fn lost_at_queues(board: &Board) -> u64 {
    let accounts = board.accounts();
    accounts.lost_post().wrapping_add(accounts.lost_out())
}

/// What was lost before a worker's next step, with the queue at which that may lose more.
pub(crate) fn lost_before(board: &Board, worker: u32) -> Lost
    requires { worker < length board.now.plan.workers }
{
    Lost {
        queue: queue_for(board, worker),
        count: lost_at_queues(board),
    }
}

/// What was lost since then, where anything was.
pub(crate) fn lost_since(board: &Board, before: Lost) -> Option<Lost> {
    let count = lost_at_queues(board).wrapping_sub(before.count);
    if count == 0 {
        return None;
    }
    Some(Lost {
        queue: before.queue,
        count,
    })
}

impl Locked {
    /// How many messages were lost at inputs so far.
    pub(crate) fn lost_in(&self) -> u64 {
        match &self.tally.board {
            Some(board) => board.accounts().lost_in(),
            None => 0,
        }
    }
}

/// How many messages of an input were taken and lost, and how many frames carried none.
#[derive(Clone, Copy)]
pub(crate) struct Moved {
    took: u64,
    unread: u64,
    lost: u64,
}

impl Moved {
    /// What a connection has counted so far, whose input has lost so many.
    pub(crate) fn of(end: &ConnEnd, lost: u64) -> Moved {
        Moved {
            took: end.took(),
            unread: end.unread(),
            lost,
        }
    }

    /// What came since there was that.
    pub(crate) fn since(self, before: Moved) -> Moved {
        Moved {
            took: self.took.wrapping_sub(before.took),
            unread: self.unread.wrapping_sub(before.unread),
            lost: self.lost.wrapping_sub(before.lost),
        }
    }
}

/// Tells what was taken and lost at an input, where there is anything.
pub(crate) fn report_moved<G: Gate>(gate: &G, input: u32, moved: Moved) {
    if moved.took > 0 || moved.unread > 0 {
        gate.takes(input, moved.took, moved.unread);
    }
    report_lost(gate, input, moved.lost);
}

/// Tells of messages that an input lost, where there are any.
pub(crate) fn report_lost<G: Gate>(gate: &G, input: u32, count: u64) {
    if count > 0 {
        gate.loses(input, count);
    }
}

/// Tells what who has the lock lost at a queue, where it did, and answers whether. The lock is let go for that.
pub(crate) fn report_lost_at_queue<'a, R: Wait, G: Gate>(
    rt: &R,
    shared: &'a Shared,
    gate: &G,
    mut locked: MutexGuard<'a, Locked>,
) -> (MutexGuard<'a, Locked>, bool) {
    match locked.lost.take() {
        None => (locked, false),
        Some(lost) => {
            drop(locked);
            shared.wake_all();
            gate.queue_loses(lost.queue, lost.count);
            (shared.locked.lock(rt), true)
        }
    }
}
