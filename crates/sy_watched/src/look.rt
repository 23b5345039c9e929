//! What is watched of a relay at one moment.

use crate::watch::{NamedQueue, Traffic, Watch};
use crate::watched::{Watched, WatchedAction, WatchedInput, WatchedQueue};
use std::alloc::{AllocError, Global};
use std::time::{Clock, SystemTime};
use sy_board::{Accounts, ActionCounts};
use sy_report::texts::reason::Reason;
use sy_runtime::{Standing, Stopped};

/// What a log knows of an action, an input or a queue.
#[derive(Clone, Copy)]
pub struct Noted {
    /// 1 while an action fails; how many connections of an input are held
    pub on: u64,
    /// how often that began
    pub begun: u64,
    /// the number of the reason
    pub why: u64,
    /// how many messages were taken, and how many frames carried none
    pub taken: u64,
    pub unread: u64,
    /// how many messages were lost
    pub lost: u64,
    /// since when it is so, in seconds since the beginning of 1970
    pub since: u64,
}

/// What a log knows of the actions, the inputs and the queues of a relay, in their order, and of its unread files, if there are any: of one that fails, where one does.
#[derive(Clone, Copy)]
pub struct NotedOfAll<'a> {
    pub actions: &'a [Noted],
    pub inputs: &'a [Noted],
    pub queues: &'a [Noted],
    pub unread: Option<Noted>,
}

/// The time now, in seconds since the beginning of 1970; 0 where the host doesn't tell it.
pub fn now<R: Clock>(rt: &R) -> u64 {
    let Ok(time) = SystemTime::now(rt) else {
        return 0;
    };
    match time.duration_since(SystemTime::UNIX_EPOCH) {
        Ok(since) => since.as_secs(),
        Err(_) => 0,
    }
}

/// The totals of a relay at one moment, and when that was, in seconds since the beginning of 1970.
#[derive(Clone, Copy)]
pub struct Moment<'a> {
    pub at: u64,
    pub is_running: bool,
    pub taken: u64,
    pub lost: u128,
    pub held: u128,
    // how many entries wait in each queue; none does where there is no number
    queues: &'a [usize],
    pub actions: &'a [ActionCounts],
}

/// The totals of a relay that runs.
pub fn running(at: u64, standing: &Standing) -> Moment<'_> {
    Moment {
        at,
        is_running: true,
        taken: standing.taken,
        lost: standing.lost,
        held: standing.held,
        queues: standing.queues.as_slice(),
        actions: standing.actions.as_slice(),
    }
}

/// The totals of a relay that has stopped. Nothing waits in a queue any more.
pub fn stopped(at: u64, stopped: &Stopped) -> Moment<'_> {
    let accounts = &stopped.accounts;
    Moment {
        at,
        is_running: false,
        taken: accounts.taken(),
        lost: accounts.lost(),
        held: stopped.left.len() as u128,
        queues: &[],
        actions: accounts.actions(),
    }
}

// Why an action fails; none where it works.
fn reason_of(alloc: Global, noted: Noted) -> Result<Option<Vec<u8>>, AllocError> {
    if noted.on == 0 {
        return Ok(None);
    }
    let mut reason = Vec::new(alloc);
    Reason::from_code(noted.why).append(alloc, &mut reason)?;
    Ok(Some(reason))
}

fn action_of<'a>(
    alloc: Global,
    name: &'a str,
    noted: Noted,
    counts: ActionCounts,
) -> Result<WatchedAction<'a>, AllocError> {
    Ok(WatchedAction {
        name: name.as_bytes(),
        due: counts.due(),
        done: counts.done,
        given_up: counts.given_up,
        left: counts.left,
        fails: reason_of(alloc, noted)?,
        failures: noted.begun,
        since: noted.since,
    })
}

fn actions_of<'a>(
    alloc: Global,
    watch: &'a Watch,
    noted: &[Noted],
    counts: &[ActionCounts],
) -> Result<Vec<WatchedAction<'a>>, AllocError> {
    let mut actions = Vec::new(alloc);
    let mut number: usize = 0;
    for name in &watch.actions {
        let (Some(noted), Some(counts)) = (noted.get(number), counts.get(number)) else {
            return Ok(actions);
        };
        let action = action_of(alloc, name.as_str(), *noted, *counts)?;
        actions.push(action)?;
        number = number.saturating_add(1);
    }
    Ok(actions)
}

fn input_of(traffic: &Traffic, noted: Noted) -> WatchedInput {
    let came = traffic.came();
    WatchedInput {
        port: traffic.port,
        taken: noted.taken,
        open: came.accepted.saturating_sub(came.ended),
        accepted: came.accepted,
        held: noted.on,
        unread: noted.unread,
        lost: noted.lost,
    }
}

fn inputs_of(
    alloc: Global,
    watch: &Watch,
    noted: &[Noted],
) -> Result<Vec<WatchedInput>, AllocError> {
    let mut inputs = Vec::new(alloc);
    let mut number: usize = 0;
    for traffic in &watch.inputs {
        let Some(noted) = noted.get(number) else {
            return Ok(inputs);
        };
        inputs.push(input_of(traffic, *noted))?;
        number = number.saturating_add(1);
    }
    Ok(inputs)
}

fn queue_of<'a>(queue: &'a NamedQueue, length: u64, noted: Noted) -> WatchedQueue<'a> {
    WatchedQueue {
        name: queue.name.as_str().as_bytes(),
        length,
        size: queue.parameters.size,
        full_delay_mark: queue.parameters.full_delay_mark,
        light_delay_mark: queue.parameters.light_delay_mark,
        discard_mark: queue.parameters.discard_mark,
        lost: noted.lost,
    }
}

// How many entries wait in the queue of this number.
fn length_of(lens: &[usize], number: usize) -> u64 {
    match lens.get(number) {
        Some(length) => *length as u64,
        None => 0,
    }
}

// How many wait in queues, in all.
fn queued(lens: &[usize]) -> u64 {
    let mut queued: u64 = 0;
    for length in lens {
        queued = queued.saturating_add(*length as u64);
    }
    queued
}

fn queues_of<'a>(
    alloc: Global,
    watch: &'a Watch,
    noted: &[Noted],
    lens: &[usize],
) -> Result<Vec<WatchedQueue<'a>>, AllocError> {
    let mut queues = Vec::new(alloc);
    let mut number: usize = 0;
    for queue in &watch.queues {
        let Some(noted) = noted.get(number) else {
            return Ok(queues);
        };
        let length = length_of(lens, number);
        queues.push(queue_of(queue, length, *noted))?;
        number = number.saturating_add(1);
    }
    Ok(queues)
}

/// What is watched of a relay with these totals.
pub fn watched<'a>(
    alloc: Global,
    watch: &'a Watch,
    noted: NotedOfAll<'_>,
    moment: Moment<'_>,
) -> Result<Watched<'a>, AllocError> {
    Ok(Watched {
        relay: watch.relay.as_str().as_bytes(),
        is_running: moment.is_running,
        at: moment.at,
        taken: moment.taken,
        lost: moment.lost,
        held: moment.held,
        queued: queued(moment.queues),
        left_out: watch.left_out(),
        unread_fails: match noted.unread {
            Some(noted) => noted.on,
            None => 0,
        },
        inputs: inputs_of(alloc, watch, noted.inputs)?,
        actions: actions_of(alloc, watch, noted.actions, moment.actions)?,
        queues: queues_of(alloc, watch, noted.queues, moment.queues)?,
    })
}
