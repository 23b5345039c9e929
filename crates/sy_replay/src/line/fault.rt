//! What may be wrong with a line of an events file.

ghost use Rattle.std.specs.Prelude.{◌≡◌, Some};
ghost use Rattle.sy_replay.specs.Lines as spec;

use std::error::Error;
use std::fmt;

/// Why a line gives no event. The numbers are those of `number`.
#[derive(Clone, Copy, Debug, PartialEq, Eq)]
pub enum EventFault {
    /// It stands for no event: it has another shape, or names what the site doesn't have, or its text is no message.
    Line,
    /// Memory ran out, which says nothing of the line.
    NoMemory,
}

impl EventFault {
    // The number of the fault, and the same with its name.
    fn row(self) -> (u8, &'static str)
        ensures number { result.0 ≡ spec.fault_number self }
        ensures words { result.1.now ≡ spec.fault_words self }
    {
        match self {
            EventFault::Line => (51, "51 Line"),
            EventFault::NoMemory => (58, "58 NoMemory"),
        }
    }

    /// The number of the fault, as for a site file: 51 for `Line`, 58 for `NoMemory`.
    pub fn number(self) -> u8
        ensures { result ≡ spec.fault_number self }
    {
        self.row().0
    }

    /// The number and the name of the fault, as `51 Line`.
    pub fn words(self) -> &'static str
        ensures { result.now ≡ spec.fault_words self }
    {
        self.row().1
    }
}

/// As `51 Line`.
impl fmt::Display for EventFault {
    ghost output = { λ f. Some (spec.fault_words f) };

    fn fmt<W: fmt::Write>(&self, f: &mut fmt::Formatter<W>) -> fmt::Result {
        let words = self.words();
        write!(f, "{words}")
    }
}

impl Error for EventFault {}
