//! The lines about the file of the metrics.

use std::alloc::{AllocError, Global};
use sy_report::texts::parts::{Part, append_parts};
use sy_report::texts::reason::Reason;

/// After how many seconds it is said again that the file can't be written.
const AGAIN: u64 = 60;

/// The host's number of the error that there is no such file.
const NOT_FOUND: u32 = 2;

/// What was said of the file, in seconds since the relay's start.
#[derive(Clone, Copy)]
pub struct Reported {
    // since when it can't be written, and when that is said again
    since: Option<u64>,
    next: u64,
}

/// A line about the file.
#[derive(Clone, Copy)]
pub enum Line {
    /// It can't be written.
    Fails(Reason),
    /// It is written again after so many seconds.
    Works(u64),
}

impl Reported {
    /// Nothing was said.
    pub fn new() -> Reported {
        Reported {
            since: None,
            next: 0,
        }
    }

    /// It can't be written. Answers the line that is due.
    pub fn fails(&mut self, now: u64, reason: Reason) -> Option<Line> {
        if self.since.is_none() {
            self.since = Some(now);
        } else if now < self.next {
            return None;
        }
        self.next = now.saturating_add(AGAIN);
        Some(Line::Fails(reason))
    }

    /// It is written. Answers the line that is due.
    pub fn works(&mut self, now: u64) -> Option<Line> {
        let since = self.since.take()?;
        Some(Line::Works(now.saturating_sub(since)))
    }
}

// Appends why the file can't be written. (In a folder that is there it is made.)
fn append_reason(alloc: Global, text: &mut Vec<u8>, reason: Reason) -> Result<(), AllocError> {
    match reason {
        Reason::Os(NOT_FOUND) => text.extend_from_slice(b"no such folder"),
        _ => reason.append(alloc, text),
    }
}

fn append_line(alloc: Global, text: &mut Vec<u8>, line: Line) -> Result<(), AllocError> {
    match line {
        Line::Fails(reason) => {
            text.extend_from_slice(b" can't be written: ")?;
            append_reason(alloc, text, reason)
        }
        Line::Works(seconds) => {
            let parts = [
                Part::Text(b" is written again after "),
                Part::Number(seconds),
                Part::Text(b" s"),
            ];
            append_parts(text, &parts)
        }
    }
}

/// A line about the file of that name.
pub fn file_line(alloc: Global, name: &str, line: Line) -> Result<Vec<u8>, AllocError> {
    let mut text = Vec::new(alloc);
    let parts = [Part::Text(b"syc: metrics "), Part::Text(name.as_bytes())];
    append_parts(&mut text, &parts)?;
    append_line(alloc, &mut text, line)?;
    text.push(b'\n')?;
    Ok(text)
}
