//! Faults with what is known of them, for those who are told all.

use std::alloc::{AllocError, Global};
use sy_report::outcome::halt::{Halt, report_halt};
use sy_report::texts::note::{Note, append_note};
use sy_report::texts::parts::Part;
use sy_report::texts::words::Words;
use sy_report::writing::kept_text::Gathered;

/// The most places that a file has; those of the next file come behind them.
const PLACES: u64 = 4_294_967_296;

/// A fault, and where it comes among the others.
#[derive(Drop)]
pub struct ReportedFault {
    key: u64,
    pub halt: Halt,
    pub note: Note,
}

impl ReportedFault {
    /// A fault at a place of a file, both by their numbers: the site file is 0, and its places are lines.
    pub fn new(file: u64, place: u64, halt: Halt, note: Note) -> ReportedFault {
        ReportedFault {
            key: file.saturating_mul(PLACES).saturating_add(place),
            halt,
            note,
        }
    }
}

// The line of a fault.
fn line_of(alloc: Global, halt: &Halt) -> Result<Gathered, AllocError> {
    let mut line = Gathered::new(alloc);
    report_halt(&mut line, halt);
    if line.is_whole() {
        return Ok(line);
    }
    Err(AllocError)
}

/// Puts the line of a fault and, where it is to be explained, its note.
pub fn push_reported(
    alloc: Global,
    words: &mut Words,
    fault: &ReportedFault,
    is_explained: bool,
) -> Result<(), AllocError> {
    let line = line_of(alloc, &fault.halt)?;
    words.append(&[Part::Text(line.text())]);
    if is_explained && !fault.note.is_silent() {
        append_note(words, &fault.note);
    }
    Ok(())
}

// The lines of a note, empty where that says nothing.
fn words_of(alloc: Global, note: &Note) -> Result<Vec<u8>, AllocError> {
    let mut words = Words::new(alloc);
    if !note.is_silent() {
        append_note(&mut words, note);
    }
    words.finish()
}

// Whether a fault has this line, and this note where one is given.
fn is_same(
    alloc: Global,
    fault: &ReportedFault,
    line: &[u8],
    note: &[u8],
) -> Result<bool, AllocError> {
    let reported = line_of(alloc, &fault.halt)?;
    let words = words_of(alloc, &fault.note)?;
    Ok(reported.text() == line && (note.is_empty() || words.as_slice() == note))
}

/// The faults without the first one that is the same as another, in the order of files and places. It is known by its
/// line, and by the lines of its note where these are given.
pub fn without(
    alloc: Global,
    found: Vec<ReportedFault>,
    halt: &Halt,
    note: &[u8],
) -> Result<Vec<ReportedFault>, AllocError> {
    let first = line_of(alloc, halt)?;
    let mut others = Vec::new(alloc);
    let mut is_met = false;
    for fault in found {
        if !is_met && is_same(alloc, &fault, first.text(), note)? {
            is_met = true;
        } else {
            others.push(fault)?;
        }
    }
    others.sort_by_key(|fault| fault.key)?;
    Ok(others)
}
