//! The faults and losses of a JSON document, by the lines that are printed of them.

use crate::described::{insert_kind, insert_note, number_of};
use std::alloc::{AllocError, Global};
use sy_fault_notes::fault_note::note_of_fault;
use sy_faults::faults_with_notes::ReportedFault;
use sy_json::objects::{Elements, Members};
use sy_places::site_file::texts::SiteTexts;
use sy_report::outcome::halt::{Halt, report_halt};
use sy_report::texts::note::Note;
use sy_report::writing::kept_text::Gathered;

// A line without the program's name before it and its LF.
fn bare_line(line: &[u8]) -> &[u8] {
    let line = match line {
        [front @ .., b'\n'] => front,
        _ => line,
    };
    match line {
        [b's', b'y', b'c', b':', b' ', rest @ ..] => rest,
        _ => line,
    }
}

// The first words of a line that name its fault: a number and a word, or all of them where there is no number.
fn name_in(line: &[u8]) -> &[u8] {
    let mut words = line.split(|b| *b == b' ');
    let first = match words.next() {
        Some(first) => first,
        None => return line,
    };
    if number_of(first).is_none() {
        return line;
    }
    match words.next() {
        Some(second) => {
            let end = first.len().saturating_add(second.len()).saturating_add(1);
            match line.get(..end) {
                Some(name) => name,
                None => line,
            }
        }
        None => line,
    }
}

// Puts a fault behind the others, with its note.
fn push_noted(
    alloc: Global,
    faults: &mut Elements,
    halt: &Halt,
    note: &Note,
) -> Result<(), AllocError> {
    let mut reported = Gathered::new(alloc);
    report_halt(&mut reported, halt);
    if !reported.is_whole() {
        return Err(AllocError);
    }
    let line = bare_line(reported.text());
    let mut members = Members::new(alloc);
    insert_kind(&mut members, name_in(line));
    members.text("text", line);
    insert_note(alloc, &mut members, note);
    faults.object(members);
    Ok(())
}

// A fault by itself, with nothing of a note where no more is known than its line.
fn noted(alloc: Global, halt: &Halt, note: Option<Note>) -> Result<Elements, AllocError> {
    let note = match note {
        Some(note) => note,
        None => Note::new(alloc),
    };
    let mut faults = Elements::new(alloc);
    match push_noted(alloc, &mut faults, halt, &note) {
        Ok(()) => Ok(faults),
        Err(why) => Err(why),
    }
}

/// The fault by which a command stopped.
pub fn fault_element(
    alloc: Global,
    texts: &SiteTexts<'_>,
    halt: &Halt,
) -> Result<Elements, AllocError> {
    match note_of_fault(alloc, texts, halt) {
        Ok(note) => noted(alloc, halt, note),
        Err(why) => Err(why),
    }
}

/// Faults with others behind them.
pub fn with_others(
    alloc: Global,
    mut faults: Elements,
    others: &[ReportedFault],
) -> Result<Elements, AllocError> {
    for fault in others {
        push_noted(alloc, &mut faults, &fault.halt, &fault.note)?;
    }
    Ok(faults)
}

/// The words of a line, one behind the other.
#[derive(Clone, Copy)]
struct LineWords<'a> {
    line: &'a [u8],
}

impl<'a> LineWords<'a> {
    // The word of this number, counted from 0.
    fn word(&self, number: usize) -> &'a [u8] {
        let mut left = number;
        for word in self.line.split(|b| *b == b' ') {
            if left == 0 {
                return word;
            }
            left -= 1;
        }
        &[]
    }
}

// The loss of a line `loss line L message N at RELAY CLASS CAUSE`, with ` spare` behind it where it is of a spare action.
fn loss_of(alloc: Global, words: LineWords<'_>) -> Members {
    let mut members = Members::new(alloc);
    members.number_if_any("line", number_of(words.word(2)));
    members.number_if_any("message", number_of(words.word(4)));
    members.text("relay", words.word(6));
    members.text("class", words.word(7));
    members.text("cause", words.word(8));
    members.truth("spare", words.word(9) == b"spare".as_slice());
    members
}

/// The losses of a replay, and how many events, messages and losses there were.
#[derive(Drop)]
pub struct Replayed {
    pub losses: Elements,
    pub events: Option<u64>,
    pub messages: Option<u64>,
}

/// What the lines say that a replay prints: one for each loss, and `events E messages M losses K` where it came to its end.
pub fn losses_in(alloc: Global, lines: &[u8]) -> Replayed {
    let mut found = Replayed {
        losses: Elements::new(alloc),
        events: None,
        messages: None,
    };
    for line in lines.split(|b| *b == b'\n') {
        let words = LineWords { line };
        if words.word(0) == b"loss".as_slice() {
            found.losses.object(loss_of(alloc, words));
        }
        if words.word(0) == b"events".as_slice() {
            found.events = number_of(words.word(1));
            found.messages = number_of(words.word(3));
        }
    }
    found
}
