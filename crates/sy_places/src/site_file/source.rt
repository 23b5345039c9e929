//! Texts of files, and points in them.

use std::alloc::AllocError;
use sy_report::reading::files::{FileFault, Files};
use sy_report::texts::note::Point;

/// The point of a place in a text, which is counted from 0.
pub fn point_at(text: &[u8], place: usize) -> Point {
    let mut point = Point { line: 1, column: 1 };
    for byte in text.iter().take(place) {
        if *byte == b'\n' {
            point.line = point.line.saturating_add(1);
            point.column = 1;
        } else {
            point.column = point.column.saturating_add(1);
        }
    }
    point
}

/// The bytes behind a place of a text, none where it is longer.
pub fn behind(text: &[u8], place: usize) -> &[u8] {
    match text.get(place..) {
        Some(rest) => rest,
        None => &[],
    }
}

/// The bytes of a text from a place up to another.
pub fn between(text: &[u8], start: usize, end: usize) -> &[u8] {
    match text.get(start..end) {
        Some(found) => found,
        None => &[],
    }
}

/// A file's bytes, where it can be read.
pub fn text_of<F: Files>(files: &F, name: &str) -> Result<Option<Vec<u8>>, AllocError> {
    match files.read(name) {
        Ok(bytes) => Ok(Some(bytes)),
        Err(FileFault::Read) => Ok(None),
        Err(FileFault::NoMemory) => Err(AllocError),
    }
}

/// A line of a text by its number, counted from 1, without its LF.
pub fn line_at(text: &[u8], number: u64) -> Option<&[u8]> {
    let mut at: u64 = 1;
    for line in text.split(|b| *b == b'\n') {
        if at == number {
            return Some(line);
        }
        at = at.saturating_add(1);
    }
    None
}

/// The place at which a line of a text begins.
pub fn place_of_line(text: &[u8], number: u64) -> usize {
    let mut left = number.saturating_sub(1);
    let mut place: usize = 0;
    for byte in text {
        if left == 0 {
            return place;
        }
        if *byte == b'\n' {
            left -= 1;
        }
        place = place.saturating_add(1);
    }
    place
}

/// The place at which words first stand in a text.
pub fn find(text: &[u8], words: &[u8]) -> Option<usize> {
    for place in 0..text.len() {
        if behind(text, place).starts_with(words) {
            return Some(place);
        }
    }
    None
}

/// A word of a line, by its number counted from 0, with its place in the line. Words stand between spaces and tabs.
pub fn word_in(line: &[u8], number: usize) -> Option<(usize, &[u8])> {
    let mut place: usize = 0;
    let mut left = number;
    for word in line.split(|b| *b == b' ' || *b == b'\t') {
        if !word.is_empty() {
            if left == 0 {
                return Some((place, word));
            }
            left -= 1;
        }
        place = place.saturating_add(word.len()).saturating_add(1);
    }
    None
}
