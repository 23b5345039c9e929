//! The connections of an input, which its readers share: who is free takes the next that is ready, or waits for what comes.

use crate::incoming::{Accepted, Incoming};
use crate::table::Table;
use mio::unix::SourceFd;
use mio::{Events, Interest, Poll, Registry, Token, Waker};
use std::alloc::{AllocError, Global};
use std::net::Net;
use std::os::fd::RawFd;
use std::sync::atomic::{AtomicUsize, Ordering};
use std::sync::{Condvar, Mutex, Wait};
use std::thread;
use std::time::{Clock, Duration};

/// How many connections that are ready are told at a time.
const EVENTS: usize = 256;

/// What wakes who waits for what comes; a connection has the number after this that it has in the table.
const WAKE: Token = Token(0);

/// After how many milliseconds memory is asked for again, or the host.
pub(crate) const PAUSE: u64 = 100;

/// How many readers an input has at most: one a hand.
const MOST_READERS: usize = 64;

/// How many connections that are ready one reader goes through by itself, where no turn leaves more to be read: to wake another
/// one costs more than such a turn.
const MANY: usize = 16;

/// What a reader does next.
#[derive(Drop)]
pub(crate) enum Task {
    /// The turn of this connection, at its number.
    Turn(usize, Incoming),
    /// It waits for what comes, but no longer than this.
    Wait(Option<Duration>),
    /// Nothing: no connection is left, and none comes.
    End,
}

// What readers share.
#[derive(Drop)]
struct Inside {
    table: Table,
    // whether no connection comes any more
    is_closed: bool,
    // whether a reader waits for what comes
    has_waiter: bool,
    // how many turns there may be before it is looked again for what came
    turns: usize,
    // whether something is to be tried again after a pause
    has_to_pause: bool,
    // whether the last turn left more to be read
    has_left_more: bool,
    // how many readers there are, and how many of them have nothing to do
    readers: usize,
    idle: usize,
    // whether one more is to be started
    is_wanted: bool,
}

impl Inside {
    // How long to wait for what comes.
    fn patience(&self) -> Option<Duration> {
        if self.has_to_pause {
            Some(Duration::from_millis(PAUSE))
        } else if self.table.ready_len() > 0 {
            Some(Duration::ZERO)
        } else {
            None
        }
    }

    fn is_over(&self) -> bool {
        self.is_closed && self.table.len() == 0
    }

    // Whether a reader that has nothing to do is to share what is ready beside what this one does next.
    fn is_to_share(&self, task: &Task) -> bool {
        let own = match task {
            Task::Wait(_) => 1,
            Task::Turn(..) | Task::End => 0,
        };
        let others = self.table.ready_len().saturating_sub(own);
        self.idle > 0 && (others > MANY || self.has_left_more && others > 0)
    }

    // What a reader does next that has nothing to do; none where it is to wait for that.
    fn next_task(&mut self) -> Option<Task> {
        if self.is_over() {
            return Some(Task::End);
        }
        if !self.has_waiter && (self.turns == 0 || self.table.ready_len() == 0) {
            self.has_waiter = true;
            return Some(Task::Wait(self.patience()));
        }
        let (number, incoming) = self.table.take_ready()?;
        self.turns = self.turns.saturating_sub(1);
        Some(Task::Turn(number, incoming))
    }
}

// What waits for what comes: whoever has it does.
#[derive(Drop)]
struct Waiter {
    poll: Poll,
    events: Events,
}

/// The connections of an input, which its readers share.
#[derive(Drop)]
pub struct Pool {
    inside: Mutex<Inside>,
    // told when a reader that has nothing to do may find something
    change: Condvar,
    // told when a reader more is to be started, or none any more
    want: Condvar,
    waiter: Mutex<Waiter>,
    registry: Registry,
    // ends the wait for what comes
    waker: Waker,
    // how many readers wait within a turn until what is no message can be kept
    waiting: AtomicUsize,
    // how many readers there are to be that don't
    wanted: usize,
}

impl Pool {
    /// No connections and no readers, of which there are to be so many; none where the host has no descriptors for it.
    pub(crate) fn new<R: Net>(rt: &R, alloc: Global, wanted: usize) -> Result<Pool, AllocError> {
        let Ok(poll) = Poll::new(rt) else {
            return Err(AllocError);
        };
        let Ok(registry) = poll.registry().try_clone() else {
            return Err(AllocError);
        };
        let Ok(waker) = Waker::new(&registry, WAKE) else {
            return Err(AllocError);
        };
        let events = Events::with_capacity(alloc, EVENTS)?;
        Ok(Pool {
            inside: Mutex::new(Inside {
                table: Table::new(alloc),
                is_closed: false,
                has_waiter: false,
                turns: 0,
                has_to_pause: false,
                has_left_more: false,
                readers: 0,
                idle: 0,
                is_wanted: true,
            }),
            change: Condvar::new(),
            want: Condvar::new(),
            waiter: Mutex::new(Waiter { poll, events }),
            registry,
            waker,
            waiting: AtomicUsize::new(0),
            wanted,
        })
    }

    // Has the host say when a connection has something; whether it can.
    fn register(&self, number: usize, stream: RawFd) -> bool {
        let token = Token(number.saturating_add(1));
        let mut source = SourceFd(&stream);
        self.registry
            .register(&mut source, token, Interest::READABLE)
            .is_ok()
    }

    /// Makes room for a connection more.
    pub(crate) fn make_room<R: Wait>(&self, rt: &R) -> Result<(), AllocError> {
        self.inside.lock(rt).table.make_room()
    }

    /// A connection more, for which there is room.
    pub(crate) fn insert<R: Wait>(&self, rt: &R, alloc: Global, accepted: Accepted) {
        let incoming = Incoming::new(alloc, accepted);
        let stream = incoming.stream();
        let number = self.inside.lock(rt).table.insert(incoming);
        if !self.register(number, stream) {
            let mut inside = self.inside.lock(rt);
            inside.table.set_unregistered(number);
            inside.has_to_pause = true;
            drop(inside);
            let _ = self.waker.wake();
        }
    }

    /// No connection comes any more.
    pub(crate) fn close<R: Wait>(&self, rt: &R) {
        self.inside.lock(rt).is_closed = true;
        self.wake_all();
    }

    /// Waits until a reader more is to be started, which is counted then; false once no connection is left and none comes.
    pub(crate) fn wait_until_wanted<R: Wait>(&self, rt: &R) -> bool {
        let inside = self.inside.lock(rt);
        let mut inside = self
            .want
            .wait_while(rt, inside, |it| !it.is_wanted && !it.is_over());
        inside.is_wanted = false;
        inside.readers = inside.readers.saturating_add(1);
        !inside.is_over()
    }

    /// A reader that was counted has ended, or couldn't be started: then it is to be tried again.
    pub(crate) fn end_reader<R: Wait>(&self, rt: &R, is_wanted: bool) {
        let mut inside = self.inside.lock(rt);
        inside.readers = inside.readers.saturating_sub(1);
        if is_wanted {
            inside.is_wanted = true;
        }
    }

    /// A reader begins to wait within its turn: another one goes on that has nothing to do, or one more is started.
    pub(crate) fn begin_wait<R: Wait>(&self, rt: &R) {
        let _ = self.waiting.fetch_add(1, Ordering::SeqCst);
        let is_wanted = self.want_reader(&mut self.inside.lock(rt));
        self.change.notify_one();
        if is_wanted {
            self.want.notify_one();
        }
    }

    /// It goes on.
    pub(crate) fn end_wait(&self) {
        let _ = self.waiting.fetch_sub(1, Ordering::SeqCst);
    }

    // Has a reader more started where nobody is left who has nothing to do, and fewer go on than there are to be; whether that is new.
    fn want_reader(&self, inside: &mut Inside) -> bool {
        if inside.idle > 0 || inside.has_waiter || inside.is_wanted {
            return false;
        }
        let waiting = self.waiting.load(Ordering::SeqCst);
        inside.is_wanted = inside.readers < MOST_READERS
            && inside.readers.saturating_sub(waiting) <= self.wanted;
        inside.is_wanted
    }

    /// What a reader does next, once there is something.
    pub(crate) fn next<R: Wait>(&self, rt: &R) -> Task {
        let mut inside = self.inside.lock(rt);
        for _ in rt.forever() {
            if let Some(task) = inside.next_task() {
                let is_shared = inside.is_to_share(&task);
                let is_wanted = self.want_reader(&mut inside);
                drop(inside);
                if is_shared {
                    self.change.notify_one();
                }
                if is_wanted {
                    self.want.notify_one();
                }
                return task;
            }
            inside.idle = inside.idle.saturating_add(1);
            inside = self.change.wait(rt, inside);
            inside.idle = inside.idle.saturating_sub(1);
        }
        Task::End
    }

    /// Waits for what comes, and notes which connections are ready.
    pub(crate) fn wait<R: Wait + Clock>(&self, rt: &R, patience: Option<Duration>) {
        let mut waiter = self.waiter.lock(rt);
        let Waiter { poll, events } = &mut *waiter;
        if poll.poll(events, patience).is_err() {
            thread::sleep(rt, Duration::from_millis(PAUSE));
        }
        let mut inside = self.inside.lock(rt);
        for event in events.iter() {
            if let Some(number) = event.token().0.checked_sub(1) {
                if event.is_read_closed() || event.is_error() {
                    inside.table.set_closed(number);
                }
                inside.table.set_ready(number);
            }
        }
        inside.has_to_pause = false;
        self.register_again(&mut inside);
        inside.has_waiter = false;
        inside.turns = inside.table.ready_len();
    }

    // Tries those again of which the host couldn't say when they have something. Each has its turn meanwhile.
    fn register_again(&self, inside: &mut Inside) {
        for _ in 0..inside.table.unregistered_len() {
            let Some((number, stream)) = inside.table.take_unregistered() else {
                continue;
            };
            if !self.register(number, stream) {
                inside.table.set_unregistered(number);
                inside.table.set_ready(number);
                inside.has_to_pause = true;
            }
        }
    }

    /// A reader gives a connection back; more of it may have come, or not.
    pub(crate) fn give_back<R: Wait>(
        &self,
        rt: &R,
        number: usize,
        incoming: Incoming,
        again: bool,
    ) {
        let mut inside = self.inside.lock(rt);
        inside.has_left_more = again;
        inside.table.give_back(number, incoming, again);
    }

    /// A connection that no reader has, whether it has something or not.
    pub(crate) fn take_any<R: Wait>(&self, rt: &R) -> Option<(usize, Incoming)> {
        let mut inside = self.inside.lock(rt);
        if inside.table.ready_len() == 0 {
            inside.table.set_all_ready();
        }
        inside.table.take_ready()
    }

    /// Whether no connection is left, and none comes.
    pub(crate) fn is_over<R: Wait>(&self, rt: &R) -> bool {
        self.inside.lock(rt).is_over()
    }

    /// A connection has ended.
    pub(crate) fn remove<R: Wait>(&self, rt: &R, number: usize) {
        let mut inside = self.inside.lock(rt);
        inside.table.remove(number);
        let is_over = inside.is_over();
        drop(inside);
        if is_over {
            self.wake_all();
        }
    }

    // Wakes whoever waits for anything.
    fn wake_all(&self) {
        self.change.notify_all();
        self.want.notify_all();
        let _ = self.waker.wake();
    }
}
