//! A sender, which counts a message as taken only once its receiver acknowledged it.
ghost use Rattle.std.specs.Prelude.{◌≡◌, ◌+◌, ◌<◌, ◌≤◌, false, length, map, take, true, IfNone, IfOk, IfSome, OnErr, OnOk, OnSome};
ghost use Rattle.std.specs.Arc.{arc_value};
ghost use Rattle.sy_relp.specs.Exchanges.{Breaks, Exchanges};
ghost use Rattle.sy_relp.specs.Closings.{CloseFails, Closes};
ghost use Rattle.sy_relp.specs.Senders.{Opens};

use crate::closing::{close_text, hear_end};
use crate::fault::SendFault;
use crate::frame::RelpFrame;
use crate::hear::hear;
use crate::opening::open_session;
use crate::reader::Reader;
use crate::write::{gather, write_all};
use std::alloc::Global;
use std::marker::Model;
use std::sync::Arc;
use sy_wire::{Message, Sink, Source};

/// The greatest number with which a window may begin.
pub const LAST_START: u32 = 999_998_974;

/// A sender over an opened session.
#[derive(Drop)]
pub struct Sender<R: Drop, W: Drop> {
    alloc: Global,
    reader: R,
    writer: W,
    frames: Reader,
    answer: RelpFrame,
    next: u32,
    // how many messages are out and weren't answered in time, the last ones
    unanswered: u32,
    is_broken: bool,
    room: Vec<u8>,
}

impl<R: Drop, W: Drop> Model for Sender<R, W> {
    ghost use Rattle.std.specs.Prelude.{◌≤◌};
    ghost use Rattle.sy_relp.specs.Exchanges.{Link};

    ghost Value = { Link R W };

    ghost view = { λ s. record { reader = s.reader; writer = s.writer; held = s.frames; next = s.next; unanswered = s.unanswered; is_broken = s.is_broken } };

    ghost invariant = { λ s. (s.unanswered ≤ s.next) × (s.next ≤ 999999998) };
}

impl<R: Source + Drop, W: Sink + Drop> Sender<R, W> {
    /// Opens a session over these streams. At a fault they are let go.
    pub fn open(alloc: Global, reader: R, writer: W) -> Result<Sender<R, W>, SendFault>
        ensures { IfOk result (λ sender. Opens R.remaining W.contents reader writer sender) }
    {
        let mut reader = reader;
        let mut writer = writer;
        let mut frames = Reader::new(alloc);
        let mut answer = RelpFrame {
            txnr: 0,
            command: Vec::new(alloc),
            content: Vec::new(alloc),
        };
        match open_session(&mut reader, &mut writer, &mut frames, &mut answer) {
            Ok(()) => Ok(Sender {
                alloc,
                reader,
                writer,
                frames,
                answer,
                next: 2,
                unanswered: 0,
                is_broken: false,
                room: Vec::new(alloc),
            }),
            Err(fault) => Err(fault),
        }
    }

    /// Opens a session over new streams, and lets the old ones go. At a fault the sender is broken.
    pub fn renew(&mut self, reader: R, writer: W) -> Result<(), SendFault>
        ensures ok { OnOk result (Opens R.remaining W.contents reader writer self.new) }
        ensures err { OnErr result ((self.new.is_broken ≡ true) × (self.new.unanswered ≡ 0)) }
    {
        self.is_broken = true;
        self.unanswered = 0;
        self.reader = reader;
        self.writer = writer;
        self.frames = Reader::new(self.alloc);
        match open_session(
            &mut self.reader,
            &mut self.writer,
            &mut self.frames,
            &mut self.answer,
        ) {
            Ok(()) => {
                self.next = 2;
                self.is_broken = false;
                Ok(())
            }
            Err(fault) => Err(fault),
        }
    }

    /// Whether a session broke or was closed, and none was opened since: every message is answered with a fault then.
    pub fn is_broken(&self) -> bool
        ensures { result ≡ self.now.is_broken }
    {
        self.is_broken
    }

    // Sends some of the messages, the first ones, a window of them at most, and hears their answers.
    fn exchange(&mut self, messages: &[Arc<Message>]) -> (u32, Option<SendFault>)
        requires { 0 < length messages.now }
        ensures some { OnSome result.1 (Breaks R.remaining W.contents self.old (map arc_value messages.now) result.0 self.new) }
        ensures waits { IfSome result.1 (λ fault. fault ≡ SendFault.Unanswered → 0 < self.new.unanswered) }
        ensures none { IfNone result.1 ((0 < result.0) × (result.0 ≤ length messages.now)
            × Exchanges R.remaining W.contents self.old (take result.0 (map arc_value messages.now)) self.new) }
    {
        if self.is_broken {
            return (0, Some(SendFault::Broken));
        }
        if self.next > LAST_START {
            return (0, Some(SendFault::Broken));
        }
        let first = self.next;
        let Ok(sent) = gather(self.alloc, &mut self.room, first, messages) else {
            return (0, Some(SendFault::NoMemory));
        };
        if sent == 0 {
            return (0, Some(SendFault::TooLong));
        }
        self.is_broken = true;
        let Ok(()) = write_all(&mut self.writer, self.room.as_slice()) else {
            return (0, Some(SendFault::WriteFailed));
        };
        let Ok(()) = self.writer.flush() else {
            return (0, Some(SendFault::WriteFailed));
        };
        self.next = first + sent;
        let count = hear(
            &mut self.reader,
            &mut self.frames,
            &mut self.answer,
            first,
            sent,
        );
        if count < sent {
            self.unanswered = sent - count;
            return (count, Some(SendFault::Unanswered));
        }
        self.is_broken = false;
        (sent, None)
    }

    /// Sends messages, and answers how many the receiver acknowledged, and the fault, if there was one.
    pub fn send_all(&mut self, messages: &[Arc<Message>]) -> (usize, Option<SendFault>)
        ensures all { IfNone result.1 (result.0 ≡ length messages.now) }
        ensures none { IfNone result.1 (Exchanges R.remaining W.contents self.old (map arc_value messages.now) self.new) }
        ensures some { OnSome result.1 (Breaks R.remaining W.contents self.old (map arc_value messages.now) result.0 self.new) }
        ensures waits { IfSome result.1 (λ fault. fault ≡ SendFault.Unanswered → 0 < self.new.unanswered) }
    {
        let mut taken = 0;
        while taken < messages.len() {
            let (_, rest) = messages.split_at(taken);
            let (count, fault) = self.exchange(rest);
            taken += count as usize;
            if let Some(fault) = fault {
                return (taken, Some(fault));
            }
        }
        (taken, None)
    }

    /// Ends the session: writes a close, and waits for the answers that are still out and for that to the close. Answers how many of the last
    /// messages were acknowledged, behind those that `send_all` counted, and the fault, if there was one. Nothing is sent after it.
    pub fn close(&mut self) -> (usize, Option<SendFault>)
        ensures none { IfNone result.1 (Closes R.remaining W.contents self.old result.0 self.new) }
        ensures some { IfSome result.1 (λ fault. CloseFails R.remaining W.contents self.old fault result.0 self.new) }
    {
        if self.is_broken && self.unanswered == 0 {
            return (0, Some(SendFault::Broken));
        }
        let (txnr, waiting) = (self.next, self.unanswered);
        let Ok(text) = close_text(self.alloc, txnr) else {
            return (0, Some(SendFault::NoMemory));
        };
        self.is_broken = true;
        self.unanswered = 0;
        let Ok(()) = write_all(&mut self.writer, text.as_bytes()) else {
            return (0, Some(SendFault::WriteFailed));
        };
        let Ok(()) = self.writer.flush() else {
            return (0, Some(SendFault::WriteFailed));
        };
        let (count, is_over) = hear_end(
            &mut self.reader,
            &mut self.frames,
            &mut self.answer,
            txnr,
            waiting,
        );
        if !is_over {
            return (count as usize, Some(SendFault::Unanswered));
        }
        (count as usize, None)
    }
}
