//! A line of a file that something is said of.

use std::alloc::Global;
use sy_places::site_file::source::word_in;
use sy_report::texts::note::{Note, Point};
use sy_report::texts::parts::Part;
use sy_wire::numbers::number_up_to;

/// A line of a file: the file's name and text, the line's number, and its bytes without LF, in a site file also without CR.
#[derive(Clone, Copy)]
pub struct FileLine<'a> {
    pub file: &'a str,
    pub text: &'a [u8],
    pub number: u64,
    pub line: &'a [u8],
}

/// Says that a word of the line, by its number, stands there.
pub fn stands_at_word(alloc: Global, note: &mut Note, at: FileLine<'_>, number: usize) {
    let (place, word): (usize, &[u8]) = match word_in(at.line, number) {
        Some(found) => found,
        None => (at.line.len(), b"the end of the line"),
    };
    let column = (place as u64).saturating_add(1);
    let point = Point {
        line: at.number,
        column,
    };
    note.stands_at(alloc, at.file.as_bytes(), Some(point));
    note.what.append(&[Part::Text(word)]);
}

/// Whether two words are digits of the same number.
pub fn is_same_number(word: &[u8], other: &[u8]) -> bool {
    match (number_up_to(word, u64::MAX), number_up_to(other, u64::MAX)) {
        (Some(number), Some(wanted)) => number == wanted,
        _ => false,
    }
}
