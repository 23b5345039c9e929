//! What a connection counts, and how it ends.
ghost use Rattle.std.specs.Prelude.{◌≡◌, ◌+◌, ◌<◌, ◌^◌, ◌∷◌, [], ℕ, List, None, Option, false, IfErr, OnErr, OnOk};
ghost use Rattle.sy_runtime.specs.Connections.{KeepsMore, Overflows, all_unread, counted_both, nothing_counted};

use crate::fault::RunFault;
use std::marker::Model;
use std::sync::Wait;
use std::time::Clock;
use sy_wire::MsgFault;

/// How a connection ended.
#[derive(Clone, Copy, Debug, PartialEq, Eq)]
pub enum Finish {
    /// Its reader ended, and each frame that came was dealt with.
    Ended,
    /// The relay closed. What was read and not yet taken is dropped.
    Closed,
}

/// A frame that carries no message: which of its connection it is, counted from 1, and why.
#[derive(Clone, Copy, Debug, PartialEq, Eq)]
pub struct Unread {
    pub frame: u64,
    pub fault: MsgFault,
}

/// A frame wasn't kept, since the relay closes.
#[derive(Clone, Copy, Debug, PartialEq, Eq)]
pub struct NotKept;

/// What keeps the frames of one connection that carry no message.
pub trait UnreadSink {
    // the texts of those that it has kept, in their order, where they are known
    ghost kept: { Self → Option (List (List ℕ)) } = { λ _. None };

    /// Keeps a frame of that text, however long that takes; or doesn't, where the relay closes.
    fn keep<R: Wait + Clock>(&mut self, rt: &R, why: Unread, text: &[u8]) -> Result<(), NotKept>
        ensures ok { OnOk result (KeepsMore (kept self.old) (kept self.new) (text.now ∷ [])) }
        ensures err { OnErr result (kept self.new ≡ kept self.old) };
}

/// What a connection counted until it ended.
///
/// The numbers are exact: a connection that can't count one frame more ends before it takes the frame.
#[derive(Drop)]
pub struct ConnEnd {
    frames: u64,
    unread: u64,
    took: u64,
    first_unread: Option<Unread>,
}

impl Model for ConnEnd {
    ghost use Rattle.sy_runtime.specs.Connections.{Counts};

    ghost Value = { Counts };

    ghost view = { λ e. record { frames = e.frames; unread = e.unread; took = e.took } };
}

impl ConnEnd {
    pub(crate) fn new() -> ConnEnd
        ensures { result ≡ nothing_counted }
    {
        ConnEnd {
            frames: 0,
            unread: 0,
            took: 0,
            first_unread: None,
        }
    }

    /// The number of frames whose message was taken or that carry none.
    pub fn frames(&self) -> u64
        ensures { result ≡ self.now.frames }
    {
        self.frames
    }

    /// The number of those frames that carry no message.
    pub fn unread(&self) -> u64
        ensures { result ≡ self.now.unread }
    {
        self.unread
    }

    /// The number of messages that were taken.
    pub fn took(&self) -> u64
        ensures { result ≡ self.now.took }
    {
        self.took
    }

    /// The first of the frames that carry no message, where one was counted. No contract says which it is.
    pub fn first_unread(&self) -> Option<Unread> {
        if self.unread == 0 {
            return None;
        }
        self.first_unread
    }

    /// Adds what another connection counted, so that one stands for both. Where a count would pass 2^64 - 1 nothing has changed, and
    /// the answer is `TotalsFull`.
    pub fn merge(&mut self, other: &ConnEnd) -> Result<(), RunFault>
        ensures ok { OnOk result (self.new ≡ counted_both self.old other.now) }
        ensures err { IfErr result (λ fault. (fault ≡ RunFault.TotalsFull) × Overflows (counted_both self.old other.now)) }
        ensures unchanged { OnErr result (self.new ≡ self.old) }
    {
        let Some(frames) = self.frames.checked_add(other.frames) else {
            return Err(RunFault::TotalsFull);
        };
        let Some(unread) = self.unread.checked_add(other.unread) else {
            return Err(RunFault::TotalsFull);
        };
        let Some(took) = self.took.checked_add(other.took) else {
            return Err(RunFault::TotalsFull);
        };
        let first_unread = self.first_unread;
        *self = ConnEnd {
            frames,
            unread,
            took,
            first_unread,
        };
        Ok(())
    }

    /// Counts so many frames more that carry no message, which the caller kept. Where a count would pass 2^64 - 1 nothing has changed, and the
    /// answer is `TotalsFull`.
    pub fn add_unread(&mut self, count: u64) -> Result<(), RunFault>
        ensures ok { OnOk result (self.new ≡ counted_both self.old (all_unread count)) }
        ensures err { IfErr result (λ fault. (fault ≡ RunFault.TotalsFull) × Overflows (counted_both self.old (all_unread count))) }
        ensures unchanged { OnErr result (self.new ≡ self.old) }
    {
        self.merge(&ConnEnd {
            frames: count,
            unread: count,
            took: 0,
            first_unread: None,
        })
    }

    // Whether a frame more might not be counted.
    pub(crate) fn is_full(&self) -> bool
        ensures { result ≡ false →
            (self.now.frames + 1 < 2 ^ 64) × (self.now.unread + 1 < 2 ^ 64) × (self.now.took + 1 < 2 ^ 64) }
    {
        self.frames == u64::MAX || self.unread == u64::MAX || self.took == u64::MAX
    }

    fn count_frame(&mut self)
        requires { self.old.frames + 1 < 2 ^ 64 }
        ensures { self.new ≡ record self.old { frames = self.old.frames + 1 } }
    {
        self.frames += 1;
    }

    pub(crate) fn count_message(&mut self)
        requires frames { self.old.frames + 1 < 2 ^ 64 }
        requires took { self.old.took + 1 < 2 ^ 64 }
        ensures { self.new ≡ record self.old { frames = self.old.frames + 1; took = self.old.took + 1 } }
    {
        self.count_frame();
        self.took += 1;
    }

    pub(crate) fn count_unread(&mut self, why: Unread)
        requires frames { self.old.frames + 1 < 2 ^ 64 }
        requires unread { self.old.unread + 1 < 2 ^ 64 }
        ensures { self.new ≡ record self.old { frames = self.old.frames + 1; unread = self.old.unread + 1 } }
    {
        self.count_frame();
        self.unread += 1;
        if self.first_unread.is_none() {
            self.first_unread = Some(why);
        }
    }
}
