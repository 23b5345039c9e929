//! What a connection sends that is no message.

use crate::connector::Connector;
use crate::pool::Pool;
use crate::serving::Serving;
use std::cell::Cell;
use std::net::SocketAddr;
use std::sync::Wait;
use std::sync::atomic::{AtomicBool, AtomicU64, Ordering};
use std::time::Clock;
use sy_log::peers::{FirstUnread, NoMessage, Sending};
use sy_outlets::leaving::remaining::Unkept;
use sy_outlets::port::Port;
use sy_outlets::unread_file::{UnreadFile, UnreadFrame};
use sy_runtime::{NotKept, Unread, UnreadSink};
use sy_unread::Unframed;
use sy_unread::skipping::{self, LongSink};
use sy_wire::Sink;

/// What is known of what a connection sent that is no message.
#[derive(Clone, Copy)]
pub struct Notes {
    long: u64,
    is_full: bool,
    unkept: Option<Unkept>,
    first: Option<FirstUnread>,
    is_reported: bool,
}

impl Notes {
    /// It sent nothing yet.
    pub fn new() -> Notes {
        Notes {
            long: 0,
            is_full: false,
            unkept: None,
            first: None,
            is_reported: false,
        }
    }

    /// How many of its frames were too long.
    pub fn long(&self) -> u64 {
        self.long
    }

    /// Whether the relay couldn't count one of these, since its totals are full.
    pub fn is_full(&self) -> bool {
        self.is_full
    }

    /// One of these, or bytes that begin none, where the relay ended before they could be kept.
    pub fn unkept(&self) -> Option<Unkept> {
        self.unkept
    }

    /// The first of its frames that carried no message, where there was one.
    pub fn first(&self) -> Option<FirstUnread> {
        self.first
    }
}

/// A connection, as who keeps what it sends knows it in a turn.
#[derive(Drop)]
pub struct Coming<'a, E: Drop> {
    serving: &'a Serving<E>,
    pool: &'a Pool,
    at: Port,
    peer: SocketAddr,
    // how many of its frames were too long, of which its end counts none
    long: AtomicU64,
    // whether the relay couldn't count one of these
    is_full: AtomicBool,
    // one of them, or bytes that begin none, that couldn't be kept until the relay ended
    unkept: Cell<Option<Unkept>>,
    // the first of its frames that carried no message, which was kept or dropped
    first: Cell<Option<FirstUnread>>,
    // whether it was told that it sends what is no message
    is_reported: AtomicBool,
}

impl<'a, E: Sink + Drop> Coming<'a, E> {
    /// That of this peer to that port, of which that is known.
    pub fn new(
        serving: &'a Serving<E>,
        pool: &'a Pool,
        at: Port,
        peer: SocketAddr,
        notes: Notes,
    ) -> Coming<'a, E> {
        Coming {
            serving,
            pool,
            at,
            peer,
            long: AtomicU64::new(notes.long),
            is_full: AtomicBool::new(notes.is_full),
            unkept: Cell::new(notes.unkept),
            first: Cell::new(notes.first),
            is_reported: AtomicBool::new(notes.is_reported),
        }
    }

    /// What is known of it then.
    pub fn notes(&self) -> Notes {
        Notes {
            long: self.long.load(Ordering::SeqCst),
            is_full: self.is_full.load(Ordering::SeqCst),
            unkept: self.unkept.get(),
            first: self.first.get(),
            is_reported: self.is_reported.load(Ordering::SeqCst),
        }
    }

    /// Whether what is no message is kept.
    pub fn is_kept(&self) -> bool {
        self.serving.unread_of(self.at.input).is_some()
    }

    // How many of its frames were too long.
    fn long(&self) -> u64 {
        self.long.load(Ordering::SeqCst)
    }

    // Keeps it in that file. While that has to wait another reader serves the other connections.
    fn keep_in<R: Wait + Clock>(
        &self,
        rt: &R,
        file: &UnreadFile,
        frame: &UnreadFrame<'_>,
    ) -> Result<(), NotKept> {
        if file.keep_at_once(rt, frame) {
            return Ok(());
        }
        self.pool.begin_wait(rt);
        let kept = file.keep(rt, frame);
        self.pool.end_wait();
        kept
    }

    // Keeps what it sent in its input's unread file, if there is one, and has the first of it told.
    fn keep<R: Wait + Clock>(&self, rt: &R, frame: &UnreadFrame<'_>) -> Result<(), NotKept> {
        if let Some(file) = self.serving.unread_of(self.at.input) {
            self.keep_in(rt, file, frame)?;
        }
        let first = FirstUnread {
            what: frame.what,
            frame: frame.frame,
        };
        if self.first.get().is_none() && !matches!(frame.what, NoMessage::Unframed(_)) {
            self.first.set(Some(first));
        }
        if !self.is_reported.swap(true, Ordering::SeqCst) {
            let sending = Sending {
                peer: self.peer,
                first,
            };
            self.serving
                .log()
                .sends_no_message(rt, self.at.input, sending);
        }
        Ok(())
    }
}

/// Frames of a connection that carry no message: they are kept in the unread file of its input or, where it has none, dropped.
#[derive(Drop)]
pub struct UnreadFrames<'a, E: Drop> {
    pub coming: &'a Coming<'a, E>,
}

impl<E: Sink + Drop> UnreadSink for UnreadFrames<'_, E> {
    fn keep<R: Wait + Clock>(&mut self, rt: &R, why: Unread, text: &[u8]) -> Result<(), NotKept> {
        let coming = self.coming;
        let frame = UnreadFrame {
            port: coming.at.port,
            peer: coming.peer,
            frame: why.frame.saturating_add(coming.long()),
            what: NoMessage::Text(why.fault),
            length: None,
            text,
        };
        coming.keep(rt, &frame)
    }
}

/// What a connection sends that is too long for a frame, or begins none, which the relay keeps in the unread file of its input.
#[derive(Drop)]
pub struct LongFrames<'a, R, C, E: Drop> {
    pub rt: &'a R,
    pub relay: &'a C,
    pub coming: &'a Coming<'a, E>,
}

impl<R: Wait + Clock, C: Connector, E: Sink + Drop> LongFrames<'_, R, C, E> {
    // Keeps the first bytes of one, of which this is wrong.
    fn keep(
        &self,
        frame: u64,
        what: NoMessage,
        length: Option<u64>,
        text: &[u8],
    ) -> Result<(), skipping::NotKept> {
        let coming = self.coming;
        let unread = UnreadFrame {
            port: coming.at.port,
            peer: coming.peer,
            frame,
            what,
            length,
            text,
        };
        match coming.keep(self.rt, &unread) {
            Ok(()) => Ok(()),
            Err(NotKept) => {
                coming.unkept.set(Some(Unkept {
                    peer: coming.peer,
                    first: FirstUnread { what, frame },
                    length,
                }));
                Err(skipping::NotKept)
            }
        }
    }
}

impl<R: Wait + Clock, C: Connector, E: Sink + Drop> LongSink for LongFrames<'_, R, C, E> {
    fn keep_long(&mut self, frame: u64, length: u64, text: &[u8]) -> Result<(), skipping::NotKept> {
        self.keep(frame, NoMessage::Long, Some(length), text)?;
        let coming = self.coming;
        let _ = coming.long.fetch_add(1, Ordering::SeqCst);
        match self.relay.count_unread(self.rt, coming.at.input, 1) {
            Ok(()) => Ok(()),
            Err(_) => {
                coming.is_full.store(true, Ordering::SeqCst);
                Err(skipping::NotKept)
            }
        }
    }

    fn keep_unframed(&mut self, frame: u64, text: &[u8]) -> Result<(), skipping::NotKept> {
        let what = NoMessage::Unframed(Unframed::of(text));
        self.keep(frame, what, None, text)
    }
}
