//! A worker's thread.

pub mod finding;
pub mod posting;
pub mod recording;
pub mod working;

use crate::locked::Locked;
use crate::locked::losing::report_lost_at_queue;
use crate::shared::{Gate, Shared};
use crate::waiting::{MEMORY_WAIT, pause, wait_for_room};
use crate::worker::finding::Next;
use crate::worker::recording::After;
use std::alloc::Global;
use std::sync::{Arc, MutexGuard, Wait};
use std::time::Clock;
use sy_actions::{Failure, Receipts};
use sy_wire::Message;

// Messages for the device of an action.
#[derive(Drop)]
struct Run {
    action: u32,
    messages: Vec<Arc<Message>>,
}

// Waits until a worker may find something else to do, or the relay closes.
fn wait_for<'a, R: Wait + Clock, G: Gate>(
    rt: &R,
    alloc: Global,
    shared: &'a Shared,
    gate: &G,
    locked: MutexGuard<'a, Locked>,
    worker: u32,
    next: Next,
) -> MutexGuard<'a, Locked> {
    match next {
        Next::Held => wait_for_room(rt, alloc, shared, gate, locked, worker),
        Next::NoMemory => pause(rt, shared, locked, MEMORY_WAIT),
        Next::Idle | Next::Run(_) | Next::Posted | Next::Grabbed | Next::Ends => {
            shared.idle.notify_all();
            shared.work.wait(rt, locked)
        }
    }
}

// What a worker does next. Where it lost something by that, it is told, and the worker looks anew.
fn find<'a, R: Wait, G: Gate>(
    rt: &R,
    alloc: Global,
    shared: &'a Shared,
    gate: &G,
    mut locked: MutexGuard<'a, Locked>,
    worker: u32,
    messages: &mut Vec<Arc<Message>>,
) -> (MutexGuard<'a, Locked>, Next) {
    let next = locked.find(alloc, worker, messages);
    let (locked, is_reported) = report_lost_at_queue(rt, shared, gate, locked);
    if is_reported {
        (locked, Next::Posted)
    } else {
        (locked, next)
    }
}

// The next messages that a worker offers, however long it waits for them; none once it is to end. Others are woken where it moved entries, as it lets go
// of the lock.
fn next_run<'a, R: Wait + Clock, G: Gate>(
    rt: &R,
    alloc: Global,
    shared: &'a Shared,
    gate: &G,
    mut locked: MutexGuard<'a, Locked>,
    worker: u32,
) -> Option<Run> {
    let mut messages = Vec::new(alloc);
    let mut has_moved = false;
    for _ in rt.forever() {
        let (found, next) = find(rt, alloc, shared, gate, locked, worker, &mut messages);
        locked = found;
        match next {
            Next::Posted | Next::Grabbed => has_moved = true,
            Next::Run(action) => {
                drop(locked);
                shared.wake_if(has_moved);
                return Some(Run { action, messages });
            }
            Next::Ends => {
                drop(locked);
                shared.wake_if(has_moved);
                return None;
            }
            next => {
                shared.wake_if(has_moved);
                has_moved = false;
                locked = wait_for(rt, alloc, shared, gate, locked, worker, next);
            }
        }
    }
    unreachable!()
}

// Offers messages to the device of their action; none where it isn't there any more.
fn deliver<R: Wait>(rt: &R, shared: &Shared, run: Run) -> Option<(Receipts, Option<Failure>)> {
    let Run { action, messages } = run;
    let mut hatch = shared.hatches.get(action as usize)?.lock(rt);
    match hatch.as_mut() {
        Some(hatch) => Some(hatch.deliver_all(messages)),
        None => None,
    }
}

// The same, between the calls of the gate.
fn offer<R: Wait, G: Gate>(
    rt: &R,
    shared: &Shared,
    gate: &G,
    worker: u32,
    run: Run,
) -> Option<(Receipts, Option<Failure>)> {
    gate.before(worker);
    let answer = deliver(rt, shared, run);
    gate.after(worker);
    answer
}

// Records what came of an offer, and looks for the next under the same holding of the lock; none once the worker is to end.
fn record<R: Wait + Clock, G: Gate>(
    rt: &R,
    alloc: Global,
    shared: &Shared,
    gate: &G,
    worker: u32,
    receipts: Receipts,
    failure: Option<Failure>,
) -> Option<Run> {
    let mut locked = shared.locked.lock(rt);
    match locked.record(worker, receipts, failure) {
        After::GoesOn => next_run(rt, alloc, shared, gate, locked, worker),
        After::Pauses(time) => {
            let locked = pause(rt, shared, locked, time);
            next_run(rt, alloc, shared, gate, locked, worker)
        }
        After::Ends => None,
    }
}

/// What a worker's thread does until the relay closes.
pub(crate) fn work<R: Wait + Clock, G: Gate>(
    rt: &R,
    alloc: Global,
    shared: &Shared,
    gate: &G,
    worker: u32,
) {
    let locked = shared.locked.lock(rt);
    let Some(mut run) = next_run(rt, alloc, shared, gate, locked, worker) else {
        return;
    };
    for _ in rt.forever() {
        let Some((receipts, failure)) = offer(rt, shared, gate, worker, run) else {
            return;
        };
        match record(rt, alloc, shared, gate, worker, receipts, failure) {
            Some(next) => run = next,
            None => return,
        }
    }
}
