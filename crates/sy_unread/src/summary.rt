//! What is said of the frames that a file keeps.

pub mod counts;
pub mod senders;
pub mod shown;

use crate::heads::{head_3164, head_5424};
use crate::hint::Hint;
use crate::reading::Found;
use counts::{Counted, Counts};
use senders::advice;
use shown::{Lines, append_shown};
use std::alloc::{AllocError, Global};

/// How many peers, and how many names, are listed by themselves.
pub const LISTED: usize = 1000;

/// How many faults are.
pub const FAULTS: usize = 64;

// The first frame with a fault.
#[derive(Drop)]
struct Example {
    input: u16,
    frame: u64,
    at: u64,
    length: u64,
    hint: Hint,
    bytes: Vec<u8>,
}

/// Counts of frames that carry no message, with the first of each fault.
#[derive(Drop)]
pub struct Summary {
    frames: u64,
    faults: Counts,
    peers: Counts,
    names: Counts,
    examples: Vec<Example>,
}

// A peer without its port.
fn address(peer: &[u8]) -> &[u8] {
    let mut end = peer.len();
    for (i, byte) in peer.iter().enumerate() {
        if *byte == b':' {
            end = i;
        }
    }
    if end <= peer.len() {
        &peer[..end]
    } else {
        peer
    }
}

// APP-NAME, or the tag of RFC 3164, as far as it can be read.
fn app_name(bytes: &[u8]) -> &[u8] {
    match head_5424(bytes) {
        Some(head) => head.app_name,
        None => match head_3164(bytes) {
            Some(head) => head.app_name,
            None => b"-",
        },
    }
}

// What bytes with this fault begin like. A head of RFC 5424 tells of line feeds only where no count was read before it.
fn hint_of(fault: &[u8], bytes: &[u8]) -> Hint {
    match Hint::of(bytes) {
        Hint::LineFeeds => {
            if fault.starts_with(b"11 ") {
                Hint::LineFeeds
            } else {
                Hint::Unknown
            }
        }
        hint => hint,
    }
}

impl Summary {
    /// No frame was counted.
    pub fn new(alloc: Global) -> Summary {
        Summary {
            frames: 0,
            faults: Counts::new(alloc, FAULTS),
            peers: Counts::new(alloc, LISTED),
            names: Counts::new(alloc, LISTED),
            examples: Vec::new(alloc),
        }
    }

    /// How many frames were counted.
    pub fn frames(&self) -> u64 {
        self.frames
    }

    // Keeps the first frame of a fault.
    fn keep(&mut self, alloc: Global, found: &Found, bytes: &[u8]) -> Result<(), AllocError> {
        let mut copy = Vec::new(alloc);
        copy.extend_from_slice(bytes)?;
        let example = Example {
            input: found.input,
            frame: found.frame,
            at: found.at,
            length: found.length.unwrap_or(bytes.len() as u64),
            hint: hint_of(found.fault.as_bytes(), bytes),
            bytes: copy,
        };
        match self.examples.push(example) {
            Ok(()) => Ok(()),
            Err(_) => Err(AllocError),
        }
    }

    /// Counts a frame: its record, or the first of two, and its bytes.
    pub fn add(&mut self, alloc: Global, found: &Found, bytes: &[u8]) -> Result<(), AllocError> {
        self.frames = self.frames.saturating_add(1);
        self.peers.count(alloc, address(found.peer.as_bytes()))?;
        self.names.count(alloc, app_name(bytes))?;
        if self.faults.count(alloc, found.fault.as_bytes())? {
            return self.keep(alloc, found, bytes);
        }
        Ok(())
    }

    /// The lines that say it, with what to change at the sender for each fault.
    pub fn lines(&self, alloc: Global) -> Result<Vec<u8>, AllocError> {
        let mut lines = Lines::new(alloc);
        lines.number(self.frames);
        lines.say(" frames that carry no message\n");
        append_counts(&mut lines, "by fault", &self.faults);
        append_counts(&mut lines, "by peer", &self.peers);
        append_counts(&mut lines, "by APP-NAME", &self.names);
        for (i, example) in self.examples.iter().enumerate() {
            match self.faults.rows().get(i) {
                Some(row) => append_example(&mut lines, row, example),
                None => {}
            }
        }
        lines.finish()
    }
}

// Appends the texts with their counts.
fn append_counts(lines: &mut Lines, title: &str, counts: &Counts) {
    lines.say(title);
    lines.say("\n");
    for row in counts.rows() {
        lines.say("  ");
        lines.number(row.count);
        lines.say(" ");
        append_shown(lines, row.text.as_slice());
        lines.say("\n");
    }
    if counts.others() > 0 {
        lines.say("  ");
        lines.number(counts.others());
        lines.say(" of others, which are not listed\n");
    }
}

// Appends the first frame of a fault.
fn append_example(lines: &mut Lines, row: &Counted, example: &Example) {
    lines.say("the first of ");
    append_shown(lines, row.text.as_slice());
    lines.say(": frame ");
    lines.number(example.frame);
    lines.say(" of a connection at ");
    lines.number(u64::from(example.input));
    lines.say(", ");
    lines.number(example.length);
    lines.say(" bytes, the fault at ");
    lines.number(example.at);
    if example.hint != Hint::Unknown {
        lines.say("; it ");
        lines.say(example.hint.words());
    }
    lines.say("\n  ");
    append_shown(lines, example.bytes.as_slice());
    lines.say("\n  at the sender: ");
    lines.say(advice(row.text.as_slice(), example.hint));
    lines.say("\n");
}
