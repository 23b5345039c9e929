//! What was told of an archive's file, and what is to be told next.

use crate::rotation::opened::Refusal;
use crate::rotation::rotated::Known;
use sy_log::pauses::Pace;

/// How many milliseconds lie between two looks at an archive's name, at least.
const LOOK: u64 = 1000;

/// How many milliseconds lie between two tries to open it anew for one request.
const RETRY: u64 = 2000;

/// How many milliseconds lie between two lines about what lasts.
const AGAIN: u64 = 60_000;

/// What is wrong with an archive's file.
#[derive(Clone, Copy)]
pub enum Trouble {
    /// It can't be opened anew.
    Refused(Refusal),
    /// Nor is the one that was open, a sync of which failed: it is closed.
    Closed(Refusal),
    /// Its name is gone, or is another file's.
    Nameless,
}

/// A line about an archive's file.
#[derive(Clone, Copy)]
pub enum Notice {
    Is(Trouble),
    /// It was opened anew after a trouble.
    Reopened,
    /// It has its name again.
    Named,
}

/// What was told of an archive's file. All times are in milliseconds.
#[derive(Clone, Copy)]
pub struct Troubles {
    reported: Option<Trouble>,
    // of the requests that were tried and followed as that was told, the last
    tried: u64,
    followed: u64,
    // when it is told again, while it lasts
    again: u64,
    pace: Pace,
    // when its name may be looked at, and when it is tried again to open it
    look: u64,
    retry: u64,
    // the last request that was followed when its name was looked at
    seen: u64,
    // whether the last look, and the one before it too, found that its name isn't the file's
    is_missed: bool,
    is_nameless: bool,
}

// A number for each kind of trouble, and one for each reason.
fn kind_of(trouble: Option<Trouble>) -> (u64, u64) {
    match trouble {
        None => (0, 0),
        Some(Trouble::Nameless) => (1, 0),
        Some(Trouble::Refused(refusal)) => (2, refusal.code()),
        Some(Trouble::Closed(refusal)) => (3, refusal.code()),
    }
}

fn is_due(at: Option<u64>, now: u64) -> bool {
    match at {
        Some(at) => at <= now,
        None => false,
    }
}

/// The earlier of two times, where one is known.
pub fn earlier(one: Option<u64>, other: Option<u64>) -> Option<u64> {
    match (one, other) {
        (Some(one), Some(other)) => Some(one.min(other)),
        (Some(one), None) => Some(one),
        (None, other) => other,
    }
}

impl Troubles {
    /// Nothing was told of a file of which this is known.
    pub fn new(known: &Known) -> Troubles {
        Troubles {
            reported: None,
            tried: known.tried,
            followed: known.followed,
            again: 0,
            pace: Pace::new(),
            look: 0,
            retry: 0,
            seen: known.followed,
            is_missed: false,
            is_nameless: false,
        }
    }

    // What is wrong, as far as was seen.
    fn trouble(&self, known: &Known) -> Option<Trouble> {
        match known.refusal {
            Some(refusal) if known.is_closed => Some(Trouble::Closed(refusal)),
            Some(refusal) => Some(Trouble::Refused(refusal)),
            None if self.is_nameless => Some(Trouble::Nameless),
            None => None,
        }
    }

    // When it is tried again to open it, if it is.
    fn retry_at(&self, known: &Known, asked: u64) -> Option<u64> {
        if known.followed >= asked {
            None
        } else if known.tried >= asked {
            Some(self.retry)
        } else {
            Some(0)
        }
    }

    /// Whether it is tried now to open it anew, for requests up to this one; it then is.
    pub fn take_retry(&mut self, now: u64, known: &Known, asked: u64) -> bool {
        if !is_due(self.retry_at(known, asked), now) {
            return false;
        }
        self.retry = now.saturating_add(RETRY);
        true
    }

    // When its name is looked at, if it is: once lines were written, and again where the name wasn't the file's.
    fn look_at(&self, known: &Known, is_written: bool) -> Option<u64> {
        if known.refusal.is_some() {
            None
        } else if is_written || (self.is_missed && !self.is_nameless) {
            Some(self.look)
        } else if self.is_nameless {
            Some(self.again.max(self.look))
        } else {
            None
        }
    }

    /// Whether its name is looked at now; it then is.
    pub fn take_look(&mut self, now: u64, known: &Known, is_written: bool) -> bool {
        if !is_due(self.look_at(known, is_written), now) {
            return false;
        }
        self.look = now.saturating_add(LOOK);
        true
    }

    /// A look found its name gone or another file's, or not. One look alone says nothing: who renames a file asks for a new one
    /// a moment later.
    pub fn see(&mut self, is_gone: bool) {
        self.is_nameless = is_gone && self.is_missed;
        self.is_missed = is_gone;
    }

    /// Where its file was opened anew, what was seen of its name is over.
    pub fn renew(&mut self, known: &Known) {
        if known.followed != self.seen {
            self.seen = known.followed;
            self.is_missed = false;
            self.is_nameless = false;
        }
    }

    // When there is a line, if there is one.
    fn line_at(&self, known: &Known) -> Option<u64> {
        let trouble = self.trouble(known);
        if kind_of(trouble) != kind_of(self.reported) {
            return Some(self.pace.next);
        }
        if trouble.is_none() {
            return None;
        }
        if known.tried != self.tried {
            return Some(self.pace.next);
        }
        Some(self.again.max(self.pace.next))
    }

    /// The line that is due now. It is told then.
    pub fn take_notice(&mut self, now: u64, known: &Known) -> Option<Notice> {
        if !is_due(self.line_at(known), now) || !self.pace.take(now) {
            return None;
        }
        // (what was closed is opened anew without a request too)
        let is_new = known.followed != self.followed
            || matches!(self.reported, Some(Trouble::Closed(_)));
        self.reported = self.trouble(known);
        self.tried = known.tried;
        self.followed = known.followed;
        self.again = now.saturating_add(AGAIN);
        match self.reported {
            Some(trouble) => Some(Notice::Is(trouble)),
            None if is_new => Some(Notice::Reopened),
            None => Some(Notice::Named),
        }
    }

    /// When there is something to do again, where that is known.
    pub fn wake(&self, known: &Known, is_written: bool) -> Option<u64> {
        earlier(self.line_at(known), self.look_at(known, is_written))
    }

    /// When it is tried again to open it for a request that was answered, where it wasn't.
    pub fn retry_wake(&self, known: &Known, asked: u64) -> Option<u64> {
        if known.followed >= asked {
            None
        } else {
            Some(self.retry)
        }
    }
}
