//! The connections that a relay serves.

use libc::net as c;
use std::alloc::{AllocError, Global};
use std::os::fd::RawFd;
use sy_outlets::leaving::remaining::Rest;
use sy_runtime::ConnEnd;

/// What is shut down of a connection.
#[derive(Clone, Copy)]
pub enum Side {
    Read,
    Write,
}

impl Side {
    // The host's number for it.
    fn number(self) -> i32 {
        match self {
            Side::Read => c::SHUT_RD,
            Side::Write => c::SHUT_WR,
        }
    }
}

/// The connections that a relay serves, and what those that ended counted.
#[derive(Drop)]
pub struct Connections {
    // of each open connection its stream's descriptor, at the place that it got, which it leaves before that is closed
    streams: Vec<Option<RawFd>>,
    // the places that are free
    free: Vec<usize>,
    open: usize,
    ends: Vec<ConnEnd>,
    // what those leave that the relay ended
    rests: Vec<Rest>,
    // how many accept loops there are
    loops: usize,
}

impl Connections {
    /// No connections.
    pub fn new(alloc: Global) -> Connections {
        Connections {
            streams: Vec::new(alloc),
            free: Vec::new(alloc),
            open: 0,
            ends: Vec::new(alloc),
            rests: Vec::new(alloc),
            loops: 0,
        }
    }

    /// Counts an accept loop that begins.
    pub fn begin_loop(&mut self) {
        self.loops = self.loops.saturating_add(1);
    }

    /// Counts an accept loop that has ended.
    pub fn end_loop(&mut self) {
        self.loops = self.loops.saturating_sub(1);
    }

    /// Whether an accept loop goes on.
    pub fn is_accepting(&self) -> bool {
        self.loops > 0
    }

    /// Whether none is open.
    pub fn is_empty(&self) -> bool {
        self.open == 0
    }

    /// Makes room for so many more connections, and for the ends of all that are open then.
    pub fn make_room(&mut self, more: usize) -> Result<(), AllocError> {
        self.streams.reserve(more)?;
        self.free.reserve(self.streams.len().saturating_add(more))?;
        let ends = self.open.saturating_add(more);
        self.rests.reserve(ends)?;
        self.ends.reserve(ends)
    }

    /// A place for a connection, which is open from then on.
    pub fn enter(&mut self, stream: RawFd) -> Result<usize, AllocError> {
        let place = match self.free.pop() {
            Some(place) => place,
            None => {
                self.streams.push(None)?;
                self.streams.len().saturating_sub(1)
            }
        };
        if let Some(at) = self.streams.get_mut(place) {
            *at = Some(stream);
        }
        self.open = self.open.saturating_add(1);
        Ok(place)
    }

    /// Frees the place of a connection that is no longer open.
    pub fn leave(&mut self, place: usize) {
        if let Some(at) = self.streams.get_mut(place) {
            *at = None;
            // (the room that `make_room` made is there)
            let _ = self.free.push(place);
        }
        self.open = self.open.saturating_sub(1);
    }

    /// Keeps what a connection counted: it is added to what is kept, so that this doesn't grow with the connections that came.
    pub fn keep(&mut self, end: ConnEnd) {
        if let Some(last) = self.ends.last_mut() {
            if last.merge(&end).is_ok() {
                return;
            }
        }
        let _ = self.ends.push(end);
    }

    /// Keeps what a connection leaves that the relay ended.
    pub fn keep_rest(&mut self, rest: Rest) {
        // (the room that `make_room` made is there)
        let _ = self.rests.push(rest);
    }

    /// What those leave that the relay ended.
    pub fn take_rests(&mut self, alloc: Global) -> Vec<Rest> {
        std::mem::replace(&mut self.rests, Vec::new(alloc))
    }

    /// Shuts this side down of each connection that is open.
    pub fn shut_down(&self, how: Side) {
        for stream in &self.streams {
            if let Some(stream) = stream {
                let _ = c::shutdown(*stream, how.number());
            }
        }
    }

    /// What the connections counted that ended.
    pub fn take_ends(&mut self, alloc: Global) -> Vec<ConnEnd> {
        std::mem::replace(&mut self.ends, Vec::new(alloc))
    }
}
