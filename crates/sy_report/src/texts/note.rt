//! Notes: what `--explain` says of a finding or of a fault, behind its first line. A note is the same in a text and in a
//! JSON document.

use crate::texts::parts::Part;
use crate::texts::words::Words;
use std::alloc::{AllocError, Global};

/// A line and a column of a text, in bytes, both counted from 1.
#[derive(Clone, Copy)]
pub struct Point {
    pub line: u64,
    pub column: u64,
}

/// Where something stands: the name of a file, as it was given, and the point there, where there is one.
#[derive(Drop)]
pub struct Place {
    pub file: Words,
    pub point: Option<Point>,
}

/// A further line of a note: its first word or words, as `archive`, and what stands behind them.
#[derive(Drop)]
pub struct Line {
    pub word: &'static str,
    pub text: Words,
}

/// What is said of a finding or of a fault. What files say may have any bytes; put as lines, a note has no control
/// characters but tabs.
#[derive(Drop)]
pub struct Note {
    pub place: Option<Place>,
    /// What stands there.
    pub what: Words,
    pub lines: Vec<Line>,
    /// Why it is refused, or why messages are lost by it, with the values as they are written.
    pub why: Words,
    /// What to write. It is empty where nothing is known that would help.
    pub change: Words,
}

impl Note {
    /// A note that says nothing yet.
    pub fn new(alloc: Global) -> Note {
        Note {
            place: None,
            what: Words::new(alloc),
            lines: Vec::new(alloc),
            why: Words::new(alloc),
            change: Words::new(alloc),
        }
    }

    /// Says where it stands.
    pub fn stands_at(&mut self, alloc: Global, file: &[u8], point: Option<Point>) {
        let mut name = Words::new(alloc);
        name.append(&[Part::Text(file)]);
        self.place = Some(Place { file: name, point });
    }

    /// Puts a further line behind the others.
    pub fn append_line(&mut self, word: &'static str, text: Words) -> Result<(), AllocError> {
        self.lines.push(Line { word, text })?;
        Ok(())
    }

    /// Whether memory ran out, so that something was left out.
    pub fn is_cut(&self) -> bool {
        let is_place_cut = match &self.place {
            Some(place) => place.file.is_cut(),
            None => false,
        };
        is_place_cut
            || self.what.is_cut()
            || self.why.is_cut()
            || self.change.is_cut()
            || self.lines.as_slice().iter().any(|line| line.text.is_cut())
    }

    /// Whether it says neither where something stands nor what it is.
    pub fn is_silent(&self) -> bool {
        self.place.is_none() && self.what.is_empty()
    }

    /// The note, or that memory ran out.
    pub fn finish(self) -> Result<Note, AllocError> {
        if self.is_cut() {
            return Err(AllocError);
        }
        Ok(self)
    }
}

/// Puts a file, and the point there, as `edge.conf:3:44`.
pub fn append_point(words: &mut Words, file: &[u8], point: Option<Point>) {
    words.append_in_line(file);
    if let Some(point) = point {
        words.append(&[
            Part::Text(b":"),
            Part::Number(point.line),
            Part::Text(b":"),
            Part::Number(point.column),
        ]);
    }
}

/// Puts a place.
pub fn append_place(words: &mut Words, place: &Place) {
    append_point(words, place.file.as_slice(), place.point);
}

/// Puts a line of a word, or of some, and a text, where that isn't empty.
pub fn append_line(words: &mut Words, word: &str, text: &[u8]) {
    if text.is_empty() {
        return;
    }
    words.append(&[Part::Text(word.as_bytes()), Part::Text(b": ")]);
    words.append_in_line(text);
    words.say("\n");
}

fn append_where(words: &mut Words, note: &Note) {
    words.say("where: ");
    if let Some(place) = &note.place {
        append_place(words, place);
        if !note.what.is_empty() {
            words.say(": ");
        }
    }
    words.append_in_line(note.what.as_slice());
    words.say("\n");
}

/// Puts a note as lines: where it stands, what else it is about, why, and what would change that.
pub fn append_note(words: &mut Words, note: &Note) {
    append_where(words, note);
    for line in note.lines.as_slice() {
        append_line(words, line.word, line.text.as_slice());
    }
    append_line(words, "why", note.why.as_slice());
    append_line(words, "change", note.change.as_slice());
}
