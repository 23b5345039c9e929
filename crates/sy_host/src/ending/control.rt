//! What standard input asks of a running relay.

use crate::ending::status::report_totals;
use crate::watching::writing::report_document;
use std::alloc::Global;
use std::sync::Wait;
use std::time::Clock;
use sy_inputs::connector::Connector;
use sy_inputs::serving::Serving;
use sy_outlets::rotation::reopens::Reopens;
use sy_rules::Action;
use sy_wire::{Sink, Source};

/// The line that asks for all archives to be opened anew.
const REOPEN: &[u8] = b"reopen";

/// The line that asks for the totals as they stand.
const STATUS: &[u8] = b"status";

/// The line that asks for all that is watched, as a JSON document.
const STATUS_JSON: &[u8] = b"status json";

/// How many bytes of a line are kept: one more than the longest line has that asks for something.
const KEPT: usize = 12;

/// What a line asks for.
#[derive(Clone, Copy)]
enum Request {
    Reopen,
    Status,
    StatusJson,
}

// The beginning of a line.
#[derive(Drop)]
struct Line {
    bytes: [u8; KEPT],
    len: usize,
}

impl Line {
    fn new() -> Line {
        Line {
            bytes: [0; KEPT],
            len: 0,
        }
    }

    // What the line asks for, where it is whole.
    fn request(&self) -> Option<Request> {
        let line = self.bytes.get(..self.len)?;
        if line == REOPEN {
            Some(Request::Reopen)
        } else if line == STATUS {
            Some(Request::Status)
        } else if line == STATUS_JSON {
            Some(Request::StatusJson)
        } else {
            None
        }
    }

    // Takes the next byte, and answers what the line asks for that it ends.
    fn take(&mut self, byte: u8) -> Option<Request> {
        if byte == b'\n' {
            let request = self.request();
            self.len = 0;
            return request;
        }
        if self.len < KEPT {
            self.bytes[self.len] = byte;
            self.len += 1;
        }
        None
    }
}

/// What is asked of.
#[derive(Drop)]
pub struct Controlled<'a, C: Drop, E: Drop> {
    pub relay: &'a C,
    /// The actions of the relay.
    pub actions: &'a [Action],
    /// What asks for archives to be opened anew.
    pub reopens: &'a Reopens,
    pub serving: &'a Serving<E>,
}

// Does what a line asks for.
fn answer<R: Wait + Clock, C: Connector, E: Sink + Drop>(
    rt: &R,
    alloc: Global,
    of: &Controlled<'_, C, E>,
    request: Request,
) {
    match request {
        Request::Reopen => of.reopens.ask(),
        Request::Status => match of.relay.status(rt, alloc) {
            Some(standing) => report_totals(rt, alloc, of.serving, of.actions, &standing),
            None => of.serving.report_text(rt, "no memory"),
        },
        Request::StatusJson => report_document(rt, alloc, of.serving, of.relay),
    }
}

// Does what each line asks for that ends in these bytes.
fn answer_all<R: Wait + Clock, C: Connector, E: Sink + Drop>(
    rt: &R,
    alloc: Global,
    of: &Controlled<'_, C, E>,
    line: &mut Line,
    bytes: &[u8],
) {
    for byte in bytes {
        if let Some(request) = line.take(*byte) {
            answer(rt, alloc, of, request);
        }
    }
}

/// Reads until there is nothing more, and does what each line asks for; other lines mean nothing.
pub fn read_control<R: Wait + Clock, C: Connector, S: Source, E: Sink + Drop>(
    rt: &R,
    alloc: Global,
    of: &Controlled<'_, C, E>,
    reader: &mut S,
) {
    let mut room = [0u8; 1024];
    let mut line = Line::new();
    for _ in 0..u64::MAX {
        let Ok(count) = reader.read(&mut room) else {
            return;
        };
        if count == 0 {
            return;
        }
        answer_all(rt, alloc, of, &mut line, &room[..count]);
    }
}
