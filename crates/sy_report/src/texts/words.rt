//! Words for people.

use crate::texts::parts::{Part, append_parts};
use std::alloc::{AllocError, Global};

/// Words that are put one behind the other. Where memory runs out the rest is left out, which the end tells.
#[derive(Drop)]
pub struct Words {
    text: Vec<u8>,
    is_cut: bool,
}

impl Words {
    /// No words.
    pub fn new(alloc: Global) -> Words {
        Words {
            text: Vec::new(alloc),
            is_cut: false,
        }
    }

    /// Puts parts one behind the other.
    pub fn append(&mut self, parts: &[Part<'_>]) {
        match append_parts(&mut self.text, parts) {
            Ok(()) => {}
            Err(_) => self.is_cut = true,
        }
    }

    /// Puts words as they stand.
    pub fn say(&mut self, words: &str) {
        self.append(&[Part::Text(words.as_bytes())]);
    }

    /// Puts words that are of a file, as they are printed: in one line, a line feed as `\x0a`.
    pub fn append_in_line(&mut self, words: &[u8]) {
        self.append(&[Part::Name(words)]);
    }

    /// Those that are there so far.
    pub fn as_slice(&self) -> &[u8] {
        self.text.as_slice()
    }

    /// Whether there are none.
    pub fn is_empty(&self) -> bool {
        self.text.is_empty()
    }

    /// Whether memory ran out, so that some were left out.
    pub fn is_cut(&self) -> bool {
        self.is_cut
    }

    /// All of them, or that memory ran out.
    pub fn finish(self) -> Result<Vec<u8>, AllocError> {
        let Words { text, is_cut } = self;
        if is_cut {
            return Err(AllocError);
        }
        Ok(text)
    }
}
