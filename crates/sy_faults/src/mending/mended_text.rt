//! A text of which faulty parts are taken away one after the other, so that what stands behind them can be judged. What is left
//! keeps its place.

use std::alloc::{AllocError, Global};
use sy_places::site_file::source::{between, find};

/// The text as it stands now, and what was taken away.
#[derive(Drop)]
pub struct Draft {
    text: Vec<u8>,
    // as it was given
    given: Vec<u8>,
    // the parts that were taken away
    cuts: Vec<(usize, usize)>,
    // how many names were made up
    names: u8,
}

/// The first of the bytes that names are made up of.
const FIRST_MADE: u8 = 0x80;

fn is_blank(byte: u8) -> bool {
    byte == b' ' || byte == b'\t' || byte == b'\r' || byte == b'\n'
}

// Whether a text has a word, between blanks.
fn has_word(text: &[u8], word: &[u8]) -> bool {
    text.split(|b| is_blank(*b)).any(|other| other == word)
}

impl Draft {
    /// A text of which nothing is taken away yet.
    pub fn new(alloc: Global, given: Vec<u8>) -> Result<Draft, AllocError> {
        let text = Vec::from_slice(alloc, given.as_slice())?;
        Ok(Draft {
            text,
            given,
            cuts: Vec::new(alloc),
            names: 0,
        })
    }

    /// The text as it stands now.
    pub fn text(&self) -> &[u8] {
        self.text.as_slice()
    }

    /// The text as it was given.
    pub fn given(&self) -> &[u8] {
        self.given.as_slice()
    }

    /// How many bytes were given.
    pub fn size(&self) -> usize {
        self.given.len()
    }

    /// Whether nothing was taken away.
    pub fn is_whole(&self) -> bool {
        self.cuts.is_empty()
    }

    // Sets a byte, where that ends no line.
    fn set(&mut self, place: usize, byte: u8) {
        if let Some(found) = self.text.get_mut(place) {
            if *found != b'\n' {
                *found = byte;
            }
        }
    }

    /// Writes bytes over what stands at a place.
    pub fn write(&mut self, place: usize, bytes: &[u8]) {
        let mut at = place;
        for byte in bytes {
            self.set(at, *byte);
            at = at.saturating_add(1);
        }
    }

    /// Takes a part away: blanks stand there then.
    pub fn cut(&mut self, start: usize, end: usize) -> Result<(), AllocError> {
        for place in start..end.min(self.text.len()) {
            self.set(place, b' ');
        }
        self.cuts.push((start, end))?;
        Ok(())
    }

    /// Takes a part away for other bytes, and answers whether they have room in its first line.
    pub fn replace(&mut self, start: usize, end: usize, bytes: &[u8]) -> Result<bool, AllocError> {
        let room = between(
            self.text.as_slice(),
            start,
            start.saturating_add(bytes.len()),
        );
        let has_room = bytes.len() <= end.saturating_sub(start)
            && room.len() == bytes.len()
            && !room.contains(&b'\n');
        if has_room {
            self.cut(start, end)?;
            self.write(start, bytes);
        }
        Ok(has_room)
    }

    /// A byte for a name that is made up, another one each time, as long as there are such.
    pub fn made_byte(&mut self) -> u8 {
        self.names = self.names.saturating_add(1).min(0x7f);
        FIRST_MADE | self.names
    }

    /// Whether a name is one that was made up.
    pub fn is_made(&self, name: &[u8]) -> bool {
        match name.first() {
            Some(first) => {
                self.names > 0 && *first >= FIRST_MADE && name.iter().all(|b| b == first)
            }
            None => false,
        }
    }

    /// Puts bytes behind the text.
    pub fn append(&mut self, bytes: &[u8]) -> Result<(), AllocError> {
        self.text.extend_from_slice(bytes)
    }

    /// Whether a place lies in what was taken away.
    pub fn is_cut_at(&self, place: usize) -> bool {
        self.cuts
            .as_slice()
            .iter()
            .any(|(start, end)| *start <= place && place < *end)
    }

    /// Whether these bytes stood in a part that was taken away.
    pub fn held(&self, bytes: &[u8]) -> bool {
        let given = self.given.as_slice();
        for (start, end) in self.cuts.as_slice() {
            let part = between(given, *start, (*end).min(given.len()));
            if find(part, bytes).is_some() {
                return true;
            }
        }
        false
    }

    /// Whether both words stood in one part that was taken away, between blanks.
    pub fn held_words(&self, word: &[u8], other: &[u8]) -> bool {
        let given = self.given.as_slice();
        for (start, end) in self.cuts.as_slice() {
            let part = between(given, *start, (*end).min(given.len()));
            if has_word(part, word) && has_word(part, other) {
                return true;
            }
        }
        false
    }
}
