//! What may be wrong with the text of a certificate, and where.

ghost use Rattle.std.specs.Prelude.{◌≡◌, Some};
ghost use Rattle.sy_cert.specs.Faults as spec;

use std::error::Error;
use std::fmt;

/// The faults of a certificate's text. Their numbers are those of `number`.
#[derive(Clone, Copy, Debug, PartialEq, Eq)]
pub enum FaultCode {
    /// A line that has the shape of no row of the version, or isn't ended by an LF; a first line other than `cert 1`
    /// and `cert 2`.
    Line,
    /// A row of a kind that may not follow the row before.
    Order,
    /// A line of a row's shape with a number that has a leading zero or is out of range.
    Number,
    /// Memory ran out.
    NoMemory,
}

impl FaultCode {
    // The number of the fault, and the same with its name.
    fn row(self) -> (u8, &'static str)
        ensures number { result.0 ≡ spec.number self }
        ensures words { result.1.now ≡ spec.words_of self }
    {
        match self {
            FaultCode::Line => (61, "61 Line"),
            FaultCode::Order => (62, "62 Order"),
            FaultCode::Number => (63, "63 Number"),
            FaultCode::NoMemory => (64, "64 NoMemory"),
        }
    }

    /// The number of the fault: 61 for `Line` to 64 for `NoMemory`.
    pub fn number(self) -> u8
        ensures { result ≡ spec.number self }
    {
        self.row().0
    }

    /// The number and the name of the fault, as `61 Line`.
    pub fn words(self) -> &'static str
        ensures { result.now ≡ spec.words_of self }
    {
        self.row().1
    }
}

/// A fault and its line, counted from 1. That of `NoMemory` is the line that was being read.
#[derive(Clone, Copy, Debug, PartialEq, Eq)]
pub struct TextFault {
    pub code: FaultCode,
    pub line: usize,
}

/// As `63 Number in line 5`.
impl fmt::Display for TextFault {
    ghost output = { λ f. Some (spec.fault_text f) };

    fn fmt<W: fmt::Write>(&self, f: &mut fmt::Formatter<W>) -> fmt::Result {
        let words = self.code.words();
        let line = self.line;
        write!(f, "{words} in line {line}")
    }
}

impl Error for TextFault {}
