//! A connection between two reads of its reader, and its turns.

use crate::arriving::{Arrival, Arriving};
use crate::connector::Connector;
use crate::reading::Shared;
use crate::unread_frames::{Coming, LongFrames, Notes, UnreadFrames};
use std::alloc::{AllocError, Global};
use std::net::{SocketAddr, TcpStream};
use std::os::fd::{AsRawFd, RawFd};
use std::sync::Wait;
use std::time::Clock;
use sy_log::peers::{FirstUnread, PeerEnd};
use sy_outlets::leaving::remaining::{Rest, count_unread};
use sy_runtime::{ConnEnd, Connection, Finish, Reader, RunFault, Turn, Untaken};
use sy_unread::skipping::{Mark, Skipping, Standing};
use sy_wire::{FrameFault, FromRead, Sink};

/// A connection that was accepted.
#[derive(Drop)]
pub struct Accepted {
    pub peer: SocketAddr,
    pub stream: TcpStream,
    /// its place among those that are open
    pub place: usize,
}

/// What the turns of all connections of a reader use.
#[derive(Drop)]
pub(crate) struct Turning {
    pub(crate) reader: Reader,
    // room for a stream whose long frames are kept, where a connection holds none of it
    pub(crate) room: Option<Standing>,
}

impl Turning {
    // Room for a stream, which stands there.
    fn take_room(&mut self, alloc: Global, mark: Mark) -> Result<Standing, AllocError> {
        let mut room = match self.room.take() {
            Some(room) => room,
            None => Standing::new(alloc)?,
        };
        room.set_mark(mark);
        Ok(room)
    }
}

// How its turn left a stream whose long frames are kept: how many of its bytes wait, and whether the next is one of a long frame.
#[derive(Clone, Copy)]
struct Passed {
    held: usize,
    is_within_long: bool,
}

/// How a connection ended: what it counted, what it leaves, and how.
#[derive(Drop)]
pub(crate) struct Ending {
    pub(crate) end: ConnEnd,
    pub(crate) rest: Option<Rest>,
    pub(crate) noted: PeerEnd,
}

/// What is to be done with a connection after a turn.
#[derive(Drop)]
pub(crate) enum Next {
    /// More may have come.
    Again,
    /// Nothing more has come.
    Waits,
    /// There is no memory for a turn.
    NoMemory,
    Ended(Ending),
}

// How a turn left a connection whose frames are kept that carry no message.
#[derive(Drop)]
struct Kept {
    turn: Turn,
    arrival: Arrival,
    standing: Standing,
    is_within_long: bool,
}

// A turn of a connection of which what is no message is dropped, and what its host had of it.
fn drop_unread<R: Wait + Clock, C: Connector, E: Sink + Drop>(
    rt: &R,
    relay: &C,
    coming: &Coming<'_, E>,
    arriving: &Arriving<'_>,
    reader: &mut Reader,
    connection: Connection,
) -> (Turn, Arrival) {
    let mut source = FromRead::new(arriving);
    let mut unread = UnreadFrames { coming };
    let turn = relay.turn(rt, reader, connection, &mut source, &mut unread);
    (turn, arriving.arrival())
}

// A turn of a connection of which what is no message is kept, those frames as well that are too long.
fn keep_all<'x, R: Wait + Clock, C: Connector, E: Sink + Drop>(
    rt: &'x R,
    relay: &'x C,
    coming: &'x Coming<'_, E>,
    arriving: &Arriving<'_>,
    reader: &mut Reader,
    connection: Connection,
    standing: Standing,
) -> Kept {
    let mut source = Skipping::resume(
        standing,
        FromRead::new(arriving),
        LongFrames { rt, relay, coming },
    );
    let mut unread = UnreadFrames { coming };
    let turn = relay.turn(rt, reader, connection, &mut source, &mut unread);
    let is_within_long = source.is_within_long();
    Kept {
        turn,
        arrival: arriving.arrival(),
        standing: source.into_standing(),
        is_within_long,
    }
}

/// A connection between two reads of its reader.
#[derive(Drop)]
pub(crate) struct Incoming {
    // none while its turn goes on
    connection: Option<Connection>,
    stream: TcpStream,
    peer: SocketAddr,
    notes: Notes,
    // where its stream stands, whose long frames are kept, and what waits of that
    mark: Mark,
    standing: Option<Standing>,
    /// its place among those that are open
    pub(crate) place: usize,
    // whether its peer sends no more
    has_closed: bool,
}

impl Incoming {
    /// One that was accepted, of which nothing was read.
    pub(crate) fn new(alloc: Global, accepted: Accepted) -> Incoming {
        let Accepted {
            peer,
            stream,
            place,
        } = accepted;
        Incoming {
            connection: Some(Connection::new(alloc)),
            stream,
            peer,
            notes: Notes::new(),
            mark: Mark::first(),
            standing: None,
            place,
            has_closed: false,
        }
    }

    /// Its stream's descriptor.
    pub(crate) fn stream(&self) -> RawFd {
        self.stream.as_raw_fd()
    }

    /// Its peer sends no more: whatever has come is to be read to the end.
    pub(crate) fn set_closed(&mut self) {
        self.has_closed = true;
    }

    /// Its next turn, and what is to be done then.
    pub(crate) fn turn<R: Wait + Clock, C: Connector, E: Sink + Drop>(
        &mut self,
        rt: &R,
        alloc: Global,
        of: &Shared<C, E>,
        with: &mut Turning,
    ) -> Next {
        let Some(connection) = self.connection.take() else {
            return Next::Waits;
        };
        if of.serving.unread_of(of.at.input).is_some() {
            return self.turn_keeping(rt, alloc, of, with, connection);
        }
        let arriving = Arriving::new(&self.stream);
        let coming = Coming::new(&*of.serving, &*of.pool, of.at, self.peer, self.notes);
        let kept = drop_unread(
            rt,
            &*of.relay,
            &coming,
            &arriving,
            &mut with.reader,
            connection,
        );
        self.notes = coming.notes();
        let passed = Passed {
            held: 0,
            is_within_long: false,
        };
        self.settle(alloc, of.at.input, with, kept.0, kept.1, passed)
    }

    /// How it ends where the relay closed before a reader could be started; none while its turn goes on.
    pub(crate) fn close(&mut self, alloc: Global, input: u32) -> Option<Ending> {
        let (end, untaken) = self.connection.take()?.into_end(alloc);
        let held = match self.standing.take() {
            Some(standing) => standing.held().len(),
            None => 0,
        };
        let passed = Passed {
            held,
            is_within_long: false,
        };
        Some(self.ending(alloc, input, (end, untaken, Ok(Finish::Closed)), passed))
    }

    // The same of one whose frames are kept that carry no message, those that are too long as well.
    fn turn_keeping<R: Wait + Clock, C: Connector, E: Sink + Drop>(
        &mut self,
        rt: &R,
        alloc: Global,
        of: &Shared<C, E>,
        with: &mut Turning,
        connection: Connection,
    ) -> Next {
        let standing = match self.standing.take() {
            Some(standing) => standing,
            None => match with.take_room(alloc, self.mark) {
                Ok(room) => room,
                Err(_) => {
                    self.connection = Some(connection);
                    return Next::NoMemory;
                }
            },
        };
        let arriving = Arriving::new(&self.stream);
        let coming = Coming::new(&*of.serving, &*of.pool, of.at, self.peer, self.notes);
        let Kept {
            turn,
            arrival,
            standing,
            is_within_long,
        } = keep_all(
            rt,
            &*of.relay,
            &coming,
            &arriving,
            &mut with.reader,
            connection,
            standing,
        );
        self.notes = coming.notes();
        let passed = self.put_down(with, standing, is_within_long);
        self.settle(alloc, of.at.input, with, turn, arrival, passed)
    }

    // Keeps where its stream stands.
    fn put_down(&mut self, with: &mut Turning, standing: Standing, is_within_long: bool) -> Passed {
        let held = standing.held().len();
        match standing.mark() {
            Some(mark) => {
                self.mark = mark;
                with.room = Some(standing);
            }
            None => self.standing = Some(standing),
        }
        Passed {
            held,
            is_within_long,
        }
    }

    // What is to be done after a turn.
    fn settle(
        &mut self,
        alloc: Global,
        input: u32,
        with: &mut Turning,
        turn: Turn,
        arrival: Arrival,
        passed: Passed,
    ) -> Next {
        match turn {
            Turn::GoesOn(connection) => {
                let waits = arrival == Arrival::Short && passed.held == 0 && !self.has_closed;
                self.go_on(with, connection, waits)
            }
            Turn::NotRead(connection) => {
                let is_refused = self.notes.unkept().is_some() || self.notes.is_full();
                match arrival {
                    Arrival::Nothing if !is_refused => self.go_on(with, connection, true),
                    Arrival::Full if !is_refused => self.go_on(with, connection, false),
                    _ => {
                        let (end, untaken) = connection.into_end(alloc);
                        let ended = (end, untaken, Err(RunFault::Read));
                        Next::Ended(self.ending(alloc, input, ended, passed))
                    }
                }
            }
            Turn::Over(end, untaken, answer) => {
                Next::Ended(self.ending(alloc, input, (end, untaken, answer), passed))
            }
        }
    }

    // It waits for its next turn, or for more to come.
    fn go_on(&mut self, with: &mut Turning, mut connection: Connection, waits: bool) -> Next {
        if waits {
            with.reader.rest(&mut connection);
        }
        self.connection = Some(connection);
        if waits { Next::Waits } else { Next::Again }
    }

    // How it ended, with those of its frames that were too long. Where frames that carry no message are kept, one of these may be what the relay closed at.
    fn ending(
        &self,
        alloc: Global,
        input: u32,
        ended: (ConnEnd, Untaken, Result<Finish, RunFault>),
        passed: Passed,
    ) -> Ending {
        let (mut end, untaken, mut answer) = ended;
        let notes = &self.notes;
        if end.add_unread(notes.long()).is_err() || notes.is_full() {
            answer = Err(RunFault::TotalsFull);
        }
        if passed.is_within_long && matches!(answer, Ok(Finish::Ended)) {
            answer = Err(RunFault::Frame(FrameFault::Truncated));
        }
        if notes.unkept().is_some() {
            answer = Ok(Finish::Closed);
        }
        let unread = end.unread();
        let first = if unread > 0 { notes.first() } else { None };
        Ending {
            end,
            rest: self.rest_of(alloc, input, untaken, answer, passed.held as u64),
            noted: noted_end(self.peer, unread, first, answer),
        }
    }

    // What it leaves, where the relay ended it.
    fn rest_of(
        &self,
        alloc: Global,
        input: u32,
        untaken: Untaken,
        answer: Result<Finish, RunFault>,
        held: u64,
    ) -> Option<Rest> {
        let unread = match answer {
            Ok(Finish::Closed) => count_unread(alloc, &self.stream).saturating_add(held),
            Err(RunFault::Hands | RunFault::NoMemory | RunFault::TotalsFull) => held,
            Ok(Finish::Ended) | Err(_) => return None,
        };
        Some(Rest {
            input,
            untaken,
            unread,
            unkept: self.notes.unkept(),
        })
    }
}

// How a connection ended that counted so many frames without a message, of which that was the first.
fn noted_end(
    peer: SocketAddr,
    unread: u64,
    first: Option<FirstUnread>,
    answer: Result<Finish, RunFault>,
) -> PeerEnd {
    PeerEnd {
        peer,
        unread,
        first,
        fault: answer.err(),
    }
}
