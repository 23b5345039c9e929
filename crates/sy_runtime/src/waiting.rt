//! How long connections and workers wait, and what they do where they waited long enough.

use crate::connection::taking::Hand;
use crate::connection::used::keep;
use crate::locked::Locked;
use crate::locked::losing::{Moved, report_lost, report_lost_at_queue, report_moved};
use crate::shared::{Gate, Shared};
use std::alloc::Global;
use std::sync::{MutexGuard, Wait};
use std::time::{Clock, Duration};
use sy_marks::Hold;

/// How long the light-delay mark holds a message, in milliseconds.
const LIGHT_DELAY: u64 = 1000;

/// After how long memory is asked for again, in milliseconds.
pub(crate) const MEMORY_WAIT: u64 = 100;

// What is done with a message that waited long enough: the light-delay mark holds it no longer, and at a full queue
// it is lost. The board refuses both where they aren't due any more.
fn time_is_up(locked: &mut Locked, hand: Hand, hold: Hold, is_in_hand: &mut bool) {
    match hold {
        Hold::LightDelay => {
            if locked.tally.enter(hand) {
                *is_in_hand = false;
            }
        }
        Hold::Full => {
            if let Some(node) = locked.tally.expire(hand) {
                *is_in_hand = false;
                keep(&mut locked.used, node);
            }
        }
        Hold::FullDelay | Hold::Clear => {}
    }
}

// How long a message waits at most; none where it waits as long as it takes.
fn patience(locked: &Locked, hand: Hand, hold: Hold) -> Option<Duration> {
    match hold {
        Hold::FullDelay => None,
        Hold::LightDelay | Hold::Clear => Some(Duration::from_millis(LIGHT_DELAY)),
        Hold::Full => {
            let board = locked.tally.board.as_ref()?;
            let input = board.plan().inputs().get(hand.input as usize)?;
            let queue = board.plan().queues().get(input.queue as usize)?;
            Some(Duration::from_millis(u64::from(queue.timeout_enqueue)))
        }
    }
}

// Waits while this holds the hand's message, and does what is to be done where it waited long enough.
fn wait_out<'a, R: Wait + Clock>(
    rt: &R,
    shared: &'a Shared,
    locked: MutexGuard<'a, Locked>,
    hand: Hand,
    hold: Hold,
    is_in_hand: &mut bool,
) -> MutexGuard<'a, Locked> {
    let Some(patience) = patience(&locked, hand, hold) else {
        return shared
            .room
            .wait_while(rt, locked, |it| it.hold(hand) == hold);
    };
    let (mut locked, waited) = shared
        .room
        .wait_timeout_while(rt, locked, patience, |it| it.hold(hand) == hold);
    if waited.timed_out() {
        time_is_up(&mut locked, hand, hold, is_in_hand);
    }
    locked
}

/// Why a connection waits, and what it took and lost right before.
#[derive(Clone, Copy)]
pub(crate) struct Waiting {
    pub(crate) hand: Hand,
    pub(crate) hold: Hold,
    pub(crate) moved: Moved,
}

// The same; it is told that the input is held and then goes on, and what it lost.
fn wait_reported<'a, R: Wait + Clock, G: Gate>(
    rt: &R,
    shared: &'a Shared,
    gate: &G,
    waiting: Waiting,
    is_in_hand: &mut bool,
) -> MutexGuard<'a, Locked> {
    let Waiting { hand, hold, .. } = waiting;
    gate.held(hand.input, hold);
    let locked = shared.locked.lock(rt);
    let locked = wait_out(rt, shared, locked, hand, hold, is_in_hand);
    if locked.is_closing {
        return locked;
    }
    drop(locked);
    gate.goes_on(hand.input);
    report_lost(
        gate,
        hand.input,
        u64::from(hold == Hold::Full && !*is_in_hand),
    );
    shared.locked.lock(rt)
}

/// Waits while the hand's message is held, and does what is to be done where it waited long enough. A full-delay mark and a full queue
/// are told, with the lock let go; a light-delay mark isn't.
pub(crate) fn wait_and_report<'a, R: Wait + Clock, G: Gate>(
    rt: &R,
    shared: &'a Shared,
    gate: &G,
    locked: MutexGuard<'a, Locked>,
    waiting: Waiting,
    is_in_hand: &mut bool,
) -> MutexGuard<'a, Locked> {
    let Waiting { hand, hold, moved } = waiting;
    drop(locked);
    report_moved(gate, hand.input, moved);
    match hold {
        Hold::FullDelay | Hold::Full => wait_reported(rt, shared, gate, waiting, is_in_hand),
        Hold::LightDelay | Hold::Clear => {
            let locked = shared.locked.lock(rt);
            wait_out(rt, shared, locked, hand, hold, is_in_hand)
        }
    }
}

/// Waits until memory may be asked for again; false once the relay closes.
pub(crate) fn wait_for_memory<R: Wait + Clock>(rt: &R, shared: &Shared) -> bool {
    let locked = shared.locked.lock(rt);
    if locked.is_closing {
        return false;
    }
    !pause(rt, shared, locked, MEMORY_WAIT).is_closing
}

/// Waits so many milliseconds, or until the relay closes.
pub(crate) fn pause<'a, R: Wait + Clock>(
    rt: &R,
    shared: &'a Shared,
    locked: MutexGuard<'a, Locked>,
    time: u64,
) -> MutexGuard<'a, Locked> {
    let (locked, _) = shared
        .room
        .wait_timeout_while(rt, locked, Duration::from_millis(time), |it| {
            !it.is_closing
        });
    locked
}

// Waits while the post of a worker is held, and loses it where it waited long enough.
fn wait_for_post<'a, R: Wait + Clock>(
    rt: &R,
    alloc: Global,
    shared: &'a Shared,
    locked: MutexGuard<'a, Locked>,
    worker: u32,
) -> MutexGuard<'a, Locked> {
    let Some(patience) = locked.patience(worker) else {
        return shared
            .room
            .wait_while(rt, locked, |it| it.holds_post(alloc, worker));
    };
    let (mut locked, waited) = shared
        .room
        .wait_timeout_while(rt, locked, patience, |it| it.holds_post(alloc, worker));
    if waited.timed_out() {
        locked.lose_post(worker);
    }
    locked
}

/// Waits while a full queue holds the post of a worker, which is lost where it waited long enough; while the full-delay mark of its queue holds
/// it, as long as it takes.
pub(crate) fn wait_for_room<'a, R: Wait + Clock, G: Gate>(
    rt: &R,
    alloc: Global,
    shared: &'a Shared,
    gate: &G,
    locked: MutexGuard<'a, Locked>,
    worker: u32,
) -> MutexGuard<'a, Locked> {
    let locked = wait_for_post(rt, alloc, shared, locked, worker);
    // (it is dealt with, or memory for it is to be asked for again, or the relay closes)
    shared.wake_all();
    report_lost_at_queue(rt, shared, gate, locked).0
}
