//! What may be wrong with a script, and where.

ghost use Rattle.std.specs.Prelude.{◌≡◌, Some};
ghost use Rattle.sy_script.specs.Faults as spec;

use crate::items::Items;
use std::error::Error;
use std::fmt;

/// The faults of a script. Their numbers are those of `number`.
#[derive(Clone, Copy, Debug, PartialEq, Eq)]
pub enum FaultCode {
    /// A byte that begins no token, or that may not stand after the `\` of a string.
    Byte,
    /// A string, comment, parenthesis or brace that isn't ended.
    Unclosed,
    /// A token that may not stand where it stands, or the end of the text in its place.
    Unexpected,
    /// A token that makes the depth 33.
    TooDeep,
    /// A text of more than 1 MiB.
    TooLarge,
    /// A statement of RainerScript that this profile leaves out.
    LeftOut,
    /// Memory ran out.
    NoMemory,
}

impl FaultCode {
    // The number of the fault, and the same with its name.
    fn row(self) -> (u8, &'static str)
        ensures number { result.0 ≡ spec.number self }
        ensures words { result.1.now ≡ spec.words self }
    {
        match self {
            FaultCode::Byte => (21, "21 Byte"),
            FaultCode::Unclosed => (22, "22 Unclosed"),
            FaultCode::Unexpected => (23, "23 Unexpected"),
            FaultCode::TooDeep => (24, "24 TooDeep"),
            FaultCode::TooLarge => (25, "25 TooLarge"),
            FaultCode::LeftOut => (26, "26 LeftOut"),
            FaultCode::NoMemory => (27, "27 NoMemory"),
        }
    }

    /// The number of the fault: 21 for `Byte` to 27 for `NoMemory`.
    pub fn number(self) -> u8
        ensures { result ≡ spec.number self }
    {
        self.row().0
    }

    /// The number and the name of the fault, as `21 Byte`.
    pub fn words(self) -> &'static str
        ensures { result.now ≡ spec.words self }
    {
        self.row().1
    }
}

impl fmt::Display for FaultCode {
    ghost output = { λ code. Some (spec.words code) };

    fn fmt<W: fmt::Write>(&self, f: &mut fmt::Formatter<W>) -> fmt::Result {
        let words = self.words();
        write!(f, "{words}")
    }
}

impl Error for FaultCode {}

/// A fault and its place. Lines count from 1, columns from 1 in bytes; the word is that of `LeftOut`, and else empty.
#[derive(Debug, Drop)]
pub struct ScriptFault {
    pub code: FaultCode,
    pub line: usize,
    pub column: usize,
    pub word: Items<u8>,
}

/// As `23 Unexpected at 4:7`.
impl fmt::Display for ScriptFault {
    ghost output = { λ f. Some (spec.fault_text f) };

    fn fmt<W: fmt::Write>(&self, f: &mut fmt::Formatter<W>) -> fmt::Result {
        let words = self.code.words();
        let line = self.line;
        let column = self.column;
        write!(f, "{words} at {line}:{column}")
    }
}

impl Error for ScriptFault {}
