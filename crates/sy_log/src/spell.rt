//! How long something goes on.

use crate::pauses::STEP;

/// A time in which something goes on, in milliseconds: it is over a second after the last sign of it.
#[derive(Clone, Copy)]
pub struct Spell {
    is_open: bool,
    is_reported: bool,
    since: u64,
    last: u64,
}

impl Spell {
    /// It hasn't begun.
    pub fn new() -> Spell {
        Spell {
            is_open: false,
            is_reported: false,
            since: 0,
            last: 0,
        }
    }

    /// There is a sign of it, or none.
    pub fn see(&mut self, now: u64, is_sign: bool) {
        if !is_sign {
            return;
        }
        if !self.is_open {
            self.is_open = true;
            self.is_reported = false;
            self.since = now;
        }
        self.last = now;
    }

    /// Whether it has begun and that isn't told.
    pub fn begins(&self) -> bool {
        self.is_open && !self.is_reported
    }

    /// Whether it is over at that time, and its beginning was told.
    pub fn is_over(&self, now: u64) -> bool {
        self.is_open && self.is_reported && now >= self.ends_at()
    }

    /// Whether its beginning was told and its end wasn't.
    pub fn is_reported(&self) -> bool {
        self.is_open && self.is_reported
    }

    /// Whether it goes on.
    pub fn is_open(&self) -> bool {
        self.is_open
    }

    /// When it is over, where no other sign comes.
    pub fn ends_at(&self) -> u64 {
        self.last.saturating_add(STEP)
    }

    /// Its beginning is told.
    pub fn report(&mut self) {
        self.is_reported = true;
    }

    /// It is over; how many seconds it took.
    pub fn end(&mut self) -> u64 {
        self.is_open = false;
        self.last.saturating_sub(self.since) / 1000
    }
}
