//! Counts of texts, of which a bounded number is kept.

use std::alloc::{AllocError, Global};

/// A text, and how often it was counted.
#[derive(Drop)]
pub struct Counted {
    pub text: Vec<u8>,
    pub count: u64,
}

/// How often each text was counted: the first of them by themselves, all others together.
#[derive(Drop)]
pub struct Counts {
    most: usize,
    rows: Vec<Counted>,
    others: u64,
}

// A copy of a text.
fn copied(alloc: Global, text: &[u8]) -> Result<Vec<u8>, AllocError> {
    let mut copy = Vec::new(alloc);
    copy.extend_from_slice(text)?;
    Ok(copy)
}

impl Counts {
    /// Nothing was counted; so many texts are kept.
    pub fn new(alloc: Global, most: usize) -> Counts {
        Counts {
            most,
            rows: Vec::new(alloc),
            others: 0,
        }
    }

    /// The texts in the order in which they came first.
    pub fn rows(&self) -> &[Counted] {
        self.rows.as_slice()
    }

    /// How often others than these were counted.
    pub fn others(&self) -> u64 {
        self.others
    }

    // Counts a text that is kept.
    fn count_kept(&mut self, text: &[u8]) -> bool {
        for row in self.rows.as_mut_slice() {
            if row.text.as_slice() == text {
                row.count = row.count.saturating_add(1);
                return true;
            }
        }
        false
    }

    /// Counts a text; whether it is kept, and came the first time.
    pub fn count(&mut self, alloc: Global, text: &[u8]) -> Result<bool, AllocError> {
        if self.count_kept(text) {
            return Ok(false);
        }
        if self.rows.len() >= self.most {
            self.others = self.others.saturating_add(1);
            return Ok(false);
        }
        let row = Counted {
            text: copied(alloc, text)?,
            count: 1,
        };
        match self.rows.push(row) {
            Ok(()) => Ok(true),
            Err(_) => Err(AllocError),
        }
    }
}
