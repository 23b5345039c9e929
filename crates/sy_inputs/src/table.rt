//! The connections of an input, and which of them are ready for a turn.

use crate::incoming::Incoming;
use std::alloc::{AllocError, Global};
use std::collections::VecDeque;
use std::mem;
use std::os::fd::RawFd;

// A connection at its number, unless a reader has it.
#[derive(Drop)]
struct Row {
    incoming: Option<Incoming>,
    // its stream's descriptor
    stream: RawFd,
    // whether it waits for its turn
    is_ready: bool,
    // whether more came while a reader had it
    has_more: bool,
    // whether its peer sends no more
    has_closed: bool,
}

impl Row {
    fn new(incoming: Incoming) -> Row {
        Row {
            stream: incoming.stream(),
            incoming: Some(incoming),
            is_ready: false,
            has_more: false,
            has_closed: false,
        }
    }

    // It is ready, or will be once its reader gives it back; whether it waits for its turn from now on.
    fn set_ready(&mut self) -> bool {
        if self.incoming.is_none() {
            self.has_more = true;
            return false;
        }
        !mem::replace(&mut self.is_ready, true)
    }

    // Its reader has it from then on.
    fn take(&mut self) -> Option<Incoming> {
        self.is_ready = false;
        let mut incoming = self.incoming.take()?;
        if self.has_closed {
            incoming.set_closed();
        }
        Some(incoming)
    }

    // Its reader gives it back; whether more came meanwhile.
    fn give_back(&mut self, incoming: Incoming) -> bool {
        self.incoming = Some(incoming);
        mem::replace(&mut self.has_more, false)
    }
}

/// The connections of an input by their numbers, which are used again, and which of them are ready for a turn.
#[derive(Drop)]
pub(crate) struct Table {
    rows: Vec<Option<Row>>,
    free: Vec<usize>,
    ready: VecDeque<usize>,
    // those of which the host couldn't say when they have something
    unregistered: VecDeque<usize>,
    len: usize,
}

// Makes room for so many in all.
fn reserve_to(numbers: &mut VecDeque<usize>, all: usize) -> Result<(), AllocError> {
    match numbers.reserve(all.saturating_sub(numbers.len())) {
        Ok(()) => Ok(()),
        Err(_) => Err(AllocError),
    }
}

impl Table {
    /// No connections.
    pub(crate) fn new(alloc: Global) -> Table {
        Table {
            rows: Vec::new(alloc),
            free: Vec::new(alloc),
            ready: VecDeque::new(alloc),
            unregistered: VecDeque::new(alloc),
            len: 0,
        }
    }

    /// How many there are.
    pub(crate) fn len(&self) -> usize {
        self.len
    }

    /// Makes room for one more, and for each to be ready.
    pub(crate) fn make_room(&mut self) -> Result<(), AllocError> {
        let all = self.rows.len().saturating_add(1);
        self.rows.reserve(1)?;
        self.free.reserve(all.saturating_sub(self.free.len()))?;
        reserve_to(&mut self.ready, all)?;
        reserve_to(&mut self.unregistered, all)
    }

    /// A connection more, for which there is room, and its number.
    pub(crate) fn insert(&mut self, incoming: Incoming) -> usize {
        let row = Row::new(incoming);
        self.len = self.len.saturating_add(1);
        if let Some(number) = self.free.pop() {
            if let Some(at) = self.rows.get_mut(number) {
                *at = Some(row);
            }
            return number;
        }
        let _ = self.rows.push(Some(row));
        self.rows.len().saturating_sub(1)
    }

    /// The connection of this number has ended.
    pub(crate) fn remove(&mut self, number: usize) {
        if let Some(at) = self.rows.get_mut(number) {
            *at = None;
            let _ = self.free.push(number);
            self.len = self.len.saturating_sub(1);
        }
    }

    /// The connection of this number is ready for a turn, or will be once its reader gives it back.
    pub(crate) fn set_ready(&mut self, number: usize) {
        let Some(Some(row)) = self.rows.get_mut(number) else {
            return;
        };
        if row.set_ready() {
            let _ = self.ready.push_back(number);
        }
    }

    /// Each connection is ready for a turn.
    pub(crate) fn set_all_ready(&mut self) {
        for number in 0..self.rows.len() {
            self.set_ready(number);
        }
    }

    /// The peer of the connection of this number sends no more: whatever has come is to be read to the end.
    pub(crate) fn set_closed(&mut self, number: usize) {
        if let Some(Some(row)) = self.rows.get_mut(number) {
            row.has_closed = true;
        }
    }

    /// The next that is ready, which its reader has from then on.
    pub(crate) fn take_ready(&mut self) -> Option<(usize, Incoming)> {
        let number = self.ready.pop_front()?;
        let Some(Some(row)) = self.rows.get_mut(number) else {
            return None;
        };
        Some((number, row.take()?))
    }

    /// Its reader gives it back; where more may have come it is ready again.
    pub(crate) fn give_back(&mut self, number: usize, incoming: Incoming, again: bool) {
        let Some(Some(row)) = self.rows.get_mut(number) else {
            return;
        };
        if row.give_back(incoming) || again {
            self.set_ready(number);
        }
    }

    /// How many are ready.
    pub(crate) fn ready_len(&self) -> usize {
        self.ready.len()
    }

    /// The host couldn't say when the connection of this number has something.
    pub(crate) fn set_unregistered(&mut self, number: usize) {
        let _ = self.unregistered.push_back(number);
    }

    /// The next of these and its descriptor, of which that can be tried again.
    pub(crate) fn take_unregistered(&mut self) -> Option<(usize, RawFd)> {
        let number = self.unregistered.pop_front()?;
        match self.rows.get(number) {
            Some(Some(row)) => Some((number, row.stream)),
            _ => None,
        }
    }

    /// How many of these there are.
    pub(crate) fn unregistered_len(&self) -> usize {
        self.unregistered.len()
    }
}
