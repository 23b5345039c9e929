//! What the threads of a relay share.

use crate::locked::Locked;
use std::sync::{Condvar, Mutex};
use sy_actions::{Device, Hatch};
use sy_board::Guard;
use sy_marks::Hold;

/// A device that may move to another thread.
pub type BoxedDevice = Box<dyn Device + Send>;

/// What is called, outside of every lock, around each time that a worker offers messages to a device: before it asks for
/// the device, and after it has let go of it; and where messages are held or lost. Workers, inputs and queues are known by their
/// numbers.
pub trait Gate: Drop {
    fn before(&self, worker: u32);

    fn after(&self, worker: u32);

    /// A connection of this input begins to wait: its message is held by the full-delay mark, or by a full queue.
    fn held(&self, _input: u32, _hold: Hold) {}

    /// It waits no more. (Where the relay closes, this isn't called.)
    fn goes_on(&self, _input: u32) {}

    /// So many messages of this input were taken, and so many frames of it carried none.
    fn takes(&self, _input: u32, _messages: u64, _unread: u64) {}

    /// So many messages of this input were lost: discarded, or held by a full queue for too long.
    fn loses(&self, _input: u32, _count: u64) {}

    /// So many entries were lost at this queue: posts to it, or entries that were discarded as they left it.
    fn queue_loses(&self, _queue: u32, _count: u64) {}
}

/// What the threads of a relay share.
#[derive(Drop)]
pub(crate) struct Shared {
    pub(crate) locked: Mutex<Locked>,
    // told when a worker may find something to do
    pub(crate) work: Condvar,
    // told when a queue may have room
    pub(crate) room: Condvar,
    // told when a worker finds nothing more to do
    pub(crate) idle: Condvar,
    // the hatch of each action, in their order; none once the relay has stopped
    pub(crate) hatches: Vec<Mutex<Option<Hatch<BoxedDevice>>>>,
    // a copy of the board's guard, as it was given
    pub(crate) guard: Option<Guard>,
}

impl Shared {
    /// Wakes whoever waits for anything.
    pub(crate) fn wake_all(&self) {
        self.work.notify_all();
        self.room.notify_all();
    }

    /// The same, where this is so.
    pub(crate) fn wake_if(&self, has_moved: bool) {
        if has_moved {
            self.wake_all();
        }
    }
}
