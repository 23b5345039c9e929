//! With what connections of an input ended that wasn't printed yet.

use crate::peers::{FirstUnread, PeerEnd};
use std::alloc::{AllocError, Global};
use std::collections::VecDeque;
use sy_runtime::RunFault;

/// How many faults there may be.
pub const FAULTS: usize = 10;

/// Frames that carried no message: how many of the first connection, of which this was the first, and how many of others.
#[derive(Clone, Copy)]
pub struct UnreadFrames {
    pub count: u64,
    pub first: FirstUnread,
    /// frames of the others
    pub more: u64,
    pub others: u64,
}

/// A fault that ended a connection, and how many others.
#[derive(Clone, Copy)]
pub struct Faulted {
    pub fault: RunFault,
    pub others: u64,
}

/// How connections ended, since that was printed last: the frames without a message, and each fault, the oldest first.
#[derive(Drop)]
pub struct Unreported {
    unread: Option<UnreadFrames>,
    faults: VecDeque<Faulted>,
}

impl Unreported {
    /// None ended so.
    pub fn new(alloc: Global) -> Result<Unreported, AllocError> {
        Ok(Unreported {
            unread: None,
            faults: VecDeque::with_capacity(alloc, FAULTS)?,
        })
    }

    fn add_unread(&mut self, count: u64, first: FirstUnread) {
        self.unread = match self.unread {
            Some(frames) => Some(UnreadFrames {
                more: frames.more.saturating_add(count),
                others: frames.others.saturating_add(1),
                ..frames
            }),
            None => Some(UnreadFrames {
                count,
                first,
                more: 0,
                others: 0,
            }),
        };
    }

    fn add_fault(&mut self, fault: RunFault) {
        for it in self.faults.iter_mut() {
            if it.fault == fault {
                it.others = it.others.saturating_add(1);
                return;
            }
        }
        // (there is room for one of each)
        let _ = self.faults.push_back(Faulted { fault, others: 0 });
    }

    /// A connection ended so.
    pub fn add(&mut self, end: &PeerEnd) {
        if let Some(first) = end.first {
            self.add_unread(end.unread, first);
        }
        if let Some(fault) = end.fault {
            self.add_fault(fault);
        }
    }

    /// Whether there were frames without a message.
    pub fn has_unread(&self) -> bool {
        self.unread.is_some()
    }

    /// Whether there were faults.
    pub fn has_faults(&self) -> bool {
        !self.faults.is_empty()
    }

    /// The frames without a message, which are printed now.
    pub fn take_unread(&mut self) -> Option<UnreadFrames> {
        self.unread.take()
    }

    /// The oldest fault, which is printed now.
    pub fn take_fault(&mut self) -> Option<Faulted> {
        self.faults.pop_front()
    }
}
