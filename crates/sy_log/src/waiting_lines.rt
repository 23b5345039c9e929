//! Lines that wait to be printed.

use std::alloc::Global;
use std::collections::VecDeque;

/// How many lines may wait.
const MOST_LINES: usize = 4096;

/// Lines that wait to be printed, in their order, and how many more came than there was room for.
#[derive(Drop)]
pub struct WaitingLines {
    // each of one or more whole lines, which stay together
    texts: VecDeque<Vec<u8>>,
    // of how many lines these are
    count: usize,
    // how many came after them
    left_out: u64,
}

/// How many lines end in these bytes.
pub fn count_lines(bytes: &[u8]) -> usize {
    let mut count: usize = 0;
    for byte in bytes {
        if *byte == b'\n' {
            count = count.saturating_add(1);
        }
    }
    count
}

impl WaitingLines {
    /// No line waits.
    pub fn new(alloc: Global) -> WaitingLines {
        WaitingLines {
            texts: VecDeque::new(alloc),
            count: 0,
            left_out: 0,
        }
    }

    /// Whether there is nothing to be printed.
    pub fn is_empty(&self) -> bool {
        self.texts.is_empty() && self.left_out == 0
    }

    /// How many lines came that had no room.
    pub fn left_out(&self) -> u64 {
        self.left_out
    }

    /// Takes the first lines that stay together.
    pub fn pop_front(&mut self) -> Option<Vec<u8>> {
        self.texts.pop_front()
    }

    /// Counts lines for which there is no room.
    pub fn leave_out(&mut self, count: usize) {
        self.left_out = self.left_out.saturating_add(count as u64);
    }

    // Whether there is room for so many lines. Behind one that was left out there is none, so that its place is known. A text
    // of more lines than may wait has room where nothing waits.
    fn has_room(&self, count: usize) -> bool {
        if self.left_out > 0 {
            return false;
        }
        self.texts.is_empty() || self.count.saturating_add(count) <= MOST_LINES
    }

    /// Has whole lines wait, all of them or none: what finds no room is counted.
    pub fn push(&mut self, text: Vec<u8>) {
        let count = count_lines(text.as_slice());
        if !self.has_room(count) {
            self.leave_out(count);
            return;
        }
        match self.texts.push_back(text) {
            Ok(()) => self.count = self.count.saturating_add(count),
            Err(_) => self.leave_out(count),
        }
    }
}
