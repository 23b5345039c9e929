//! A code, and what it is named by.

/// What a code is of.
#[derive(Clone, Copy, PartialEq, Eq)]
pub enum Sort {
    /// What is wrong with a text, or with a relay that runs.
    Fault,
    /// What is found in a site.
    Kind,
    /// What is warned of.
    Warning,
}

/// A code: its number and name, or its name alone; what it means; and what to do.
#[derive(Clone, Copy)]
pub struct Code {
    pub sort: Sort,
    pub words: &'static str,
    pub means: &'static str,
    pub change: &'static str,
}

/// A fault.
pub(crate) fn fault(words: &'static str, means: &'static str, change: &'static str) -> Code {
    Code {
        sort: Sort::Fault,
        words,
        means,
        change,
    }
}

impl Code {
    // Its number, empty where it has none, and its name.
    fn parts(&self) -> (&[u8], &[u8]) {
        let words = self.words.as_bytes();
        match words.iter().position(|byte| *byte == b' ') {
            Some(place) => words.split_at(place),
            None => (&[], words),
        }
    }

    /// Whether it has this number, and is no kind, or this name in any case.
    pub fn is_named(&self, word: &[u8]) -> bool {
        let (number, name) = self.parts();
        let name = match name {
            [b' ', rest @ ..] => rest,
            _ => name,
        };
        self.sort == Sort::Fault && !number.is_empty() && number == word
            || name.eq_ignore_ascii_case(word)
    }

    /// Whether it is the kind of this number.
    pub fn is_kind(&self, word: &[u8]) -> bool {
        self.sort == Sort::Kind && self.parts().0 == word
    }
}
