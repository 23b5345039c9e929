//! What an operator is told of, as threads note it.

use std::sync::atomic::{AtomicBool, AtomicU64, Ordering};

/// What kind of thing it is.
#[derive(Clone, Copy, PartialEq, Eq)]
pub enum Kind {
    Action,
    Input,
    Queue,
    /// A file for frames that carry no message.
    Unread,
}

impl Kind {
    /// Whether it is written to, and so may fail.
    pub fn is_written(self) -> bool {
        matches!(self, Kind::Action | Kind::Unread)
    }
}

/// An action, an input, a queue or an unread file, of which an operator is told. Threads note here what happens, and wait for nothing.
#[derive(Drop)]
pub struct Subject {
    pub kind: Kind,
    pub name: Vec<u8>,
    // 1 while an action or a file fails; how many connections of an input are held
    on: AtomicU64,
    // how often that began
    begun: AtomicU64,
    why: AtomicU64,
    // how many messages of an input were taken, and how many of its frames carried none
    taken: AtomicU64,
    unread: AtomicU64,
    // how many messages were lost
    lost: AtomicU64,
    // whether a change was noted that hasn't been looked at
    is_noted: AtomicBool,
    // the state whose beginning is dated, and its date
    dated: AtomicU64,
    since: AtomicU64,
}

/// What stands there at one moment.
#[derive(Clone, Copy, PartialEq, Eq)]
pub struct Seen {
    pub on: u64,
    pub begun: u64,
    pub lost: u64,
}

impl Subject {
    /// Nothing has happened to it yet.
    pub fn new(kind: Kind, name: Vec<u8>) -> Subject {
        Subject {
            kind,
            name,
            on: AtomicU64::new(0),
            begun: AtomicU64::new(0),
            why: AtomicU64::new(0),
            taken: AtomicU64::new(0),
            unread: AtomicU64::new(0),
            lost: AtomicU64::new(0),
            is_noted: AtomicBool::new(false),
            dated: AtomicU64::new(0),
            since: AtomicU64::new(0),
        }
    }

    /// It begins to fail, or one more connection is held; and why.
    pub fn begin(&self, why: u64) {
        self.why.store(why, Ordering::SeqCst);
        let _ = self.on.fetch_add(1, Ordering::SeqCst);
        let _ = self.begun.fetch_add(1, Ordering::SeqCst);
    }

    /// It works again, or one connection fewer is held.
    pub fn end(&self) {
        let _ = self.on.fetch_sub(1, Ordering::SeqCst);
    }

    /// So many messages were taken, and so many frames carried none.
    pub fn take(&self, messages: u64, unread: u64) {
        let _ = self.taken.fetch_add(messages, Ordering::SeqCst);
        let _ = self.unread.fetch_add(unread, Ordering::SeqCst);
    }

    /// How many messages were taken.
    pub fn taken(&self) -> u64 {
        self.taken.load(Ordering::SeqCst)
    }

    /// How many frames carried no message.
    pub fn unread(&self) -> u64 {
        self.unread.load(Ordering::SeqCst)
    }

    /// So many messages were lost.
    pub fn lose(&self, count: u64) {
        let _ = self.lost.fetch_add(count, Ordering::SeqCst);
    }

    /// Whether who looks has to be woken for a change: it wasn't noted before.
    pub fn note(&self) -> bool {
        !self.is_noted.swap(true, Ordering::SeqCst)
    }

    /// From now on a change wakes who looks.
    pub fn listen(&self) {
        self.is_noted.store(false, Ordering::SeqCst);
    }

    /// What stands there now.
    pub fn seen(&self) -> Seen {
        Seen {
            on: self.on.load(Ordering::SeqCst),
            begun: self.begun.load(Ordering::SeqCst),
            lost: self.lost.load(Ordering::SeqCst),
        }
    }

    /// Why it began last.
    pub fn why(&self) -> u64 {
        self.why.load(Ordering::SeqCst)
    }

    /// Dates its state by this time, where it isn't the one that was dated last.
    pub fn date(&self, now: u64) {
        let seen = self.seen();
        let state = seen.begun.wrapping_mul(2) | u64::from(seen.on > 0);
        let is_first = self.since() == 0;
        if self.dated.swap(state, Ordering::SeqCst) != state || is_first {
            self.since.store(now, Ordering::SeqCst);
        }
    }

    /// Since when it is in its state, as that was dated; 0 where it wasn't.
    pub fn since(&self) -> u64 {
        self.since.load(Ordering::SeqCst)
    }
}
