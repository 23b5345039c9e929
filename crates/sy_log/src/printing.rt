//! The queue of what is printed on standard error: who has something to say leaves it here, and waits for no reader.

use crate::waiting_lines::WaitingLines;
use std::alloc::Global;
use std::mem;
use std::sync::{Condvar, CondvarTimeouts, Mutex, Wait};
use std::time::{Clock, Duration};

// What waits, and what the thread that prints does.
#[derive(Drop)]
struct Queue {
    lines: WaitingLines,
    // whether there is a thread that prints
    has_thread: bool,
    // whether it prints lines that it has taken
    is_printing: bool,
    // whether it ends once nothing waits
    is_ending: bool,
    // whether it was waited for in vain
    is_stuck: bool,
}

impl Queue {
    fn is_printed(&self) -> bool {
        self.lines.is_empty() && !self.is_printing
    }
}

/// What waits to be printed.
#[derive(Drop)]
pub struct Printing {
    alloc: Global,
    queue: Mutex<Queue>,
    // told as lines come, and as they were printed
    change: Condvar,
}

impl Printing {
    /// Nothing waits, and no thread prints.
    pub fn new(alloc: Global) -> Printing {
        Printing {
            alloc,
            queue: Mutex::new(Queue {
                lines: WaitingLines::new(alloc),
                has_thread: false,
                is_printing: false,
                is_ending: false,
                is_stuck: false,
            }),
            change: Condvar::new(),
        }
    }

    /// Has whole lines printed, which stay together, all of them or none. What finds no room is counted.
    pub fn push<R: Wait>(&self, rt: &R, text: Vec<u8>) {
        self.queue.lock(rt).lines.push(text);
        self.change.notify_all();
    }

    /// Counts lines for which there is no memory.
    pub fn leave_out<R: Wait>(&self, rt: &R, count: usize) {
        self.queue.lock(rt).lines.leave_out(count);
        self.change.notify_all();
    }

    /// From now on a thread prints.
    pub fn set_thread<R: Wait>(&self, rt: &R) {
        self.queue.lock(rt).has_thread = true;
    }

    /// No thread prints after all.
    pub fn unset_thread<R: Wait>(&self, rt: &R) {
        self.queue.lock(rt).has_thread = false;
    }

    /// Whether a thread prints.
    pub fn has_thread<R: Wait>(&self, rt: &R) -> bool {
        self.queue.lock(rt).has_thread
    }

    /// Takes all that waits.
    pub fn take<R: Wait>(&self, rt: &R) -> WaitingLines {
        mem::replace(
            &mut self.queue.lock(rt).lines,
            WaitingLines::new(self.alloc),
        )
    }

    /// Waits for something to print, and takes all that waits; none once nothing comes any more.
    pub fn next<R: Wait>(&self, rt: &R) -> Option<WaitingLines> {
        let queue = self.queue.lock(rt);
        let mut queue = self
            .change
            .wait_while(rt, queue, |it| it.lines.is_empty() && !it.is_ending);
        if queue.lines.is_empty() {
            return None;
        }
        queue.is_printing = true;
        let lines = mem::replace(&mut queue.lines, WaitingLines::new(self.alloc));
        Some(lines)
    }

    /// What was taken last is printed.
    pub fn set_printed<R: Wait>(&self, rt: &R) {
        self.queue.lock(rt).is_printing = false;
        self.change.notify_all();
    }

    /// Waits until all that came is printed, but no longer than this, and not again where that was in vain: nobody may read
    /// it.
    pub fn wait<R: Wait + Clock>(&self, rt: &R, most: Duration) {
        let queue = self.queue.lock(rt);
        if queue.is_stuck {
            return;
        }
        let (mut queue, _) = self
            .change
            .wait_timeout_while(rt, queue, most, |it| !it.is_printed());
        queue.is_stuck = !queue.is_printed();
    }

    /// Has the thread end once nothing waits.
    pub fn set_ending<R: Wait>(&self, rt: &R) {
        self.queue.lock(rt).is_ending = true;
        self.change.notify_all();
    }
}
