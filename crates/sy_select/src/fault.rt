//! What may be wrong with a selector or an expression.

ghost use Rattle.std.specs.Prelude.{◌≡◌, [], ◌∷◌, Some};
ghost use Rattle.sy_select.specs.Faults as spec;

use std::alloc::Global;
use std::error::Error;
use std::{fmt, str};
use sy_script::Items;
use sy_script::tree::{Span, Word};

/// The faults of a selector or an expression. Their numbers are those of `number`.
#[derive(Clone, Copy, Debug, PartialEq, Eq)]
pub enum FaultCode {
    /// A piece of letters and digits, in the place of a facility, that is no facility's name.
    Facility,
    /// A piece of letters and digits, in the place of a severity, that is no severity's name.
    Severity,
    /// Any other wrong piece of a selector.
    Shape,
    /// A property and an operator, or an operand, that do not go together.
    Operator,
    /// Memory ran out.
    NoMemory,
    /// A property that isn't known.
    Unknown,
}

impl FaultCode {
    // The number of the fault, and the same with its name.
    fn row(self) -> (u8, &'static str)
        ensures number { result.0 ≡ spec.number self }
        ensures words { result.1.now ≡ spec.words self }
    {
        match self {
            FaultCode::Facility => (31, "31 Facility"),
            FaultCode::Severity => (32, "32 Severity"),
            FaultCode::Shape => (33, "33 Shape"),
            FaultCode::Operator => (34, "34 Operator"),
            FaultCode::NoMemory => (35, "35 NoMemory"),
            FaultCode::Unknown => (42, "42 Unknown"),
        }
    }

    /// The number of the fault: 31 for `Facility` to 35 for `NoMemory`, and 42 for `Unknown`.
    pub fn number(self) -> u8
        ensures { result ≡ spec.number self }
    {
        self.row().0
    }

    /// The number and the name of the fault, as `31 Facility`.
    pub fn words(self) -> &'static str
        ensures { result.now ≡ spec.words self }
    {
        self.row().1
    }
}

impl fmt::Display for FaultCode {
    ghost output = { λ code. Some (spec.words code) };

    fn fmt<W: fmt::Write>(&self, f: &mut fmt::Formatter<W>) -> fmt::Result {
        let words = self.words();
        write!(f, "{words}")
    }
}

impl Error for FaultCode {}

/// A fault with its word and its place.
///
/// The word is the name that isn't known, the whole selector of `Shape`, the operator of `Operator`, and nothing of `NoMemory`. The place
/// is, in a script, that of the property of `Unknown`, of the operator of `Operator`, and of the string, with its quotes, of a selector; of
/// a selector that was read by itself it is the whole text, and of `NoMemory` it is empty.
#[derive(Debug, Drop)]
pub struct SelectFault {
    pub code: FaultCode,
    pub word: Items<u8>,
    pub span: Span,
}

impl SelectFault {
    /// The fault where memory runs out.
    pub fn no_memory(alloc: Global) -> SelectFault
        ensures { result ≡ spec.no_memory }
    {
        SelectFault {
            code: FaultCode::NoMemory,
            word: Items::new(alloc),
            span: Span { start: 0, end: 0 },
        }
    }

    /// A fault with a copy of its word, or the one of memory where the copy finds none.
    pub(crate) fn new(alloc: Global, code: FaultCode, word: &[u8], span: Span) -> SelectFault
        ensures { spec.IsRefusal (record { code = code; word = word.now; span = span } ∷ []) result }
    {
        match Items::from_slice(alloc, word) {
            Ok(word) => SelectFault { code, word, span },
            Err(_) => SelectFault::no_memory(alloc),
        }
    }

    /// The fault of a word of a script.
    pub(crate) fn of_word(alloc: Global, code: FaultCode, word: &Word) -> SelectFault
        ensures { spec.IsRefusal (record { code = code; word = word.now.text; span = word.now.span } ∷ []) result }
    {
        SelectFault::new(alloc, code, word.text.as_slice(), word.span)
    }
}

/// The number and the name of a fault, with its word: as `31 Facility: foo`, and `35 NoMemory` where there is no word. A word
/// that is no text is escaped.
#[derive(Clone, Copy)]
pub struct FaultText<'a> {
    pub words: &'static str,
    pub word: &'a [u8],
}

impl fmt::Display for FaultText<'_> {
    ghost output = { λ text. spec.with_word text.words.now text.word.now };

    fn fmt<W: fmt::Write>(&self, f: &mut fmt::Formatter<W>) -> fmt::Result {
        let words = self.words;
        if self.word.is_empty() {
            return write!(f, "{words}");
        }
        match str::from_utf8(self.word) {
            Ok(word) => write!(f, "{words}: {word}"),
            Err(_) => {
                let word = self.word.escape_ascii();
                write!(f, "{words}: {word}")
            }
        }
    }
}

/// As `FaultText` has it.
impl fmt::Display for SelectFault {
    ghost output = { spec.fault_text };

    fn fmt<W: fmt::Write>(&self, f: &mut fmt::Formatter<W>) -> fmt::Result {
        let text = FaultText {
            words: self.code.words(),
            word: self.word.as_slice(),
        };
        write!(f, "{text}")
    }
}

impl Error for SelectFault {}
