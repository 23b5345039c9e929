//! A reader of an input: it gives the input's connections their turns, each as it has something.

use crate::connector::Connector;
use crate::incoming::{Ending, Incoming, Next, Turning};
use crate::pool::{PAUSE, Pool, Task};
use crate::serving::Serving;
use crate::sessions::Sessions;
use std::alloc::{AllocError, Global};
use std::sync::{Arc, Wait};
use std::thread;
use std::thread::Threads;
use std::time::{Clock, Duration};
use sy_outlets::port::Port;
use sy_runtime::{NoHand, Reader};
use sy_wire::Sink;

/// What the readers of an input share.
#[derive(Drop)]
pub struct Shared<C: Drop, E: Drop> {
    pub relay: Arc<C>,
    pub serving: Arc<Serving<E>>,
    pub pool: Arc<Pool>,
    pub sessions: Arc<Sessions>,
    pub at: Port,
}

/// A reader that starts.
#[derive(Drop)]
struct Starting<C: Drop, E: Drop> {
    relay: Arc<C>,
    serving: Arc<Serving<E>>,
    pool: Arc<Pool>,
    sessions: Arc<Sessions>,
    at: Port,
    reader: Reader,
}

// A connection has ended: its place is free before its stream is closed.
fn end<R: Wait, C: Connector, E: Sink + Drop>(
    rt: &R,
    of: &Shared<C, E>,
    number: usize,
    incoming: Incoming,
    ending: Ending,
) {
    let (place, input) = (incoming.place, of.at.input);
    of.serving.watch().connection_ended(input);
    of.serving.end(rt, input, place, ending);
    drop(incoming);
    of.pool.remove(rt, number);
    of.sessions.end();
}

// The turn of a connection.
fn turn<R: Wait + Clock, C: Connector, E: Sink + Drop>(
    rt: &R,
    alloc: Global,
    of: &Shared<C, E>,
    with: &mut Turning,
    number: usize,
    mut incoming: Incoming,
) {
    match incoming.turn(rt, alloc, of, with) {
        Next::Again => of.pool.give_back(rt, number, incoming, true),
        Next::Waits => of.pool.give_back(rt, number, incoming, false),
        Next::NoMemory => {
            of.pool.give_back(rt, number, incoming, true);
            thread::sleep(rt, Duration::from_millis(PAUSE));
        }
        Next::Ended(ending) => end(rt, of, number, incoming, ending),
    }
}

// Gives connections their turns until none is left and none comes.
fn read_all<R: Wait + Clock + Drop, C: Connector, E: Sink + Drop>(
    rt: R,
    alloc: Global,
    starting: Starting<C, E>,
) {
    let Starting {
        relay,
        serving,
        pool,
        sessions,
        at,
        reader,
    } = starting;
    let of = Shared {
        relay,
        serving,
        pool,
        sessions,
        at,
    };
    let mut with = Turning { reader, room: None };
    for _ in rt.forever() {
        match of.pool.next(&rt) {
            Task::Turn(number, incoming) => turn(&rt, alloc, &of, &mut with, number, incoming),
            Task::Wait(patience) => of.pool.wait(&rt, patience),
            Task::End => break,
        }
    }
    of.pool.end_reader(&rt, false);
    of.relay.give_back(&rt, with.reader);
}

// Ends the connections that no reader has, where the relay has closed before one could be started, until none is left and none
// comes.
fn close_orphans<R: Wait + Clock, C: Connector, E: Sink + Drop>(
    rt: &R,
    alloc: Global,
    of: &Shared<C, E>,
) {
    for _ in rt.forever() {
        if let Some((number, mut incoming)) = of.pool.take_any(rt) {
            if let Some(ending) = incoming.close(alloc, of.at.input) {
                end(rt, of, number, incoming, ending);
            }
        } else if of.pool.is_over(rt) {
            return;
        } else {
            thread::sleep(rt, Duration::from_millis(PAUSE));
        }
    }
}

// Why a reader wasn't started.
#[derive(Clone, Copy)]
enum NotStarted {
    Closed,
    NoMemory,
}

impl From<AllocError> for NotStarted {
    fn from(_: AllocError) -> NotStarted {
        NotStarted::NoMemory
    }
}

// Starts a reader.
fn start_reader<
    R: Threads + Wait + Clock + Copy + Send + 'static,
    C: Connector + Send + Sync + 'static,
    E: Sink + Drop + Send + 'static,
>(rt: R, alloc: Global, of: &Shared<C, E>) -> Result<(), NotStarted> {
    let reader = match of.relay.reader(&rt, alloc, of.at.input) {
        Ok(reader) => reader,
        Err(NoHand::Closed) => return Err(NotStarted::Closed),
        Err(NoHand::Hands) => return Err(NotStarted::NoMemory),
    };
    let starting = Starting {
        relay: Arc::try_clone(&of.relay)?,
        serving: Arc::try_clone(&of.serving)?,
        pool: Arc::try_clone(&of.pool)?,
        sessions: Arc::try_clone(&of.sessions)?,
        at: of.at,
        reader,
    };
    match thread::spawn(&rt, move || read_all(rt, alloc, starting)) {
        Ok(_thread) => Ok(()),
        Err(_) => Err(NotStarted::NoMemory),
    }
}

/// Starts the readers of an input, each once it is wanted, until no connection is left and none comes.
pub fn start_readers<
    R: Threads + Wait + Clock + Copy + Send + 'static,
    C: Connector + Send + Sync + 'static,
    E: Sink + Drop + Send + 'static,
>(rt: R, alloc: Global, of: Shared<C, E>) {
    for _ in rt.forever() {
        if !of.pool.wait_until_wanted(&rt) {
            return;
        }
        match start_reader(rt, alloc, &of) {
            Ok(()) => {}
            Err(NotStarted::Closed) => {
                of.pool.end_reader(&rt, false);
                close_orphans(&rt, alloc, &of);
                return;
            }
            Err(NotStarted::NoMemory) => {
                of.pool.end_reader(&rt, true);
                thread::sleep(&rt, Duration::from_millis(PAUSE));
            }
        }
    }
}
