//! What was told of an action, an input or a queue, and what is to be told next.

use crate::pauses::Pace;
use crate::spell::Spell;
use crate::subject::Seen;

/// How many lines may be left to be told of one as the relay ends: that it fails, that it works, and what it lost.
pub const LAST_LINES: u32 = 3;

/// A line about an action, an input or a queue.
#[derive(Clone, Copy)]
pub enum Line {
    /// It fails, or is held.
    Begins,
    /// It works, or goes on, after so many seconds.
    Ends(u64),
    Loses,
    /// It lost so many messages in so many seconds.
    Lost(u64, u64),
}

/// What was told of one.
#[derive(Clone, Copy)]
pub struct Reported {
    pace: Pace,
    trouble: Spell,
    losses: Spell,
    seen: Seen,
    // what was lost before the spell of losses
    lost_before: u64,
}

impl Reported {
    /// Nothing was told yet.
    pub fn new() -> Reported {
        Reported {
            pace: Pace::new(),
            trouble: Spell::new(),
            losses: Spell::new(),
            seen: Seen {
                on: 0,
                begun: 0,
                lost: 0,
            },
            lost_before: 0,
        }
    }

    /// What is seen at a look.
    pub fn see(&mut self, now: u64, seen: Seen) {
        let before = self.seen;
        let is_trouble = seen.on > 0 || before.on > 0 || seen.begun != before.begun;
        self.trouble.see(now, is_trouble);
        if !self.losses.is_open() {
            self.lost_before = before.lost;
        }
        self.losses.see(now, seen.lost != before.lost);
        self.seen = seen;
    }

    /// What was seen last.
    pub fn seen(&self) -> Seen {
        self.seen
    }

    fn ends(&mut self) -> Line {
        Line::Ends(self.trouble.end())
    }

    fn lost(&mut self) -> Line {
        let seconds = self.losses.end();
        Line::Lost(self.seen.lost.wrapping_sub(self.lost_before), seconds)
    }

    // Whether the trouble is over.
    fn is_over(&self, now: u64) -> bool {
        self.seen.on == 0 && self.trouble.is_over(now)
    }

    /// The line that is due now.
    pub fn line(&mut self, now: u64) -> Option<Line> {
        let is_due = self.trouble.begins()
            || self.is_over(now)
            || self.losses.begins()
            || self.losses.is_over(now);
        if !is_due || !self.pace.take(now) {
            return None;
        }
        if self.trouble.begins() {
            self.trouble.report();
            return Some(Line::Begins);
        }
        if self.losses.begins() {
            self.losses.report();
            return Some(Line::Loses);
        }
        if self.is_over(now) {
            return Some(self.ends());
        }
        Some(self.lost())
    }

    /// Whether a line of another kind may be told now, which it then is.
    pub fn take(&mut self, now: u64) -> bool {
        self.pace.take(now)
    }

    /// When a line may be told.
    pub fn next(&self) -> u64 {
        self.pace.next
    }

    /// A line that is told as the relay ends, before it is due; none once all is told, after `LAST_LINES` at most. What began and
    /// isn't told yet is told also where it is over, and its end then is.
    pub fn last_line(&mut self) -> Option<Line> {
        if self.trouble.begins() {
            self.trouble.report();
            return Some(Line::Begins);
        }
        if self.trouble.is_reported() && self.seen.on == 0 {
            return Some(self.ends());
        }
        if self.losses.is_open() {
            return Some(self.lost());
        }
        None
    }

    /// When to look again, where that is known.
    pub fn wake(&self) -> Option<u64> {
        if self.trouble.begins() || self.losses.begins() {
            return Some(self.pace.next);
        }
        let trouble = self.trouble.is_reported() && self.seen.on == 0;
        let losses = self.losses.is_reported();
        match (trouble, losses) {
            (false, false) => None,
            (true, false) => Some(self.trouble.ends_at().max(self.pace.next)),
            (false, true) => Some(self.losses.ends_at().max(self.pace.next)),
            (true, true) => {
                let first = self.trouble.ends_at().min(self.losses.ends_at());
                Some(first.max(self.pace.next))
            }
        }
    }
}
