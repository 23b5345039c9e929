//! Why a relay or a connection of it failed.
ghost use Rattle.std.specs.Prelude.{◌≡◌, Some};
ghost use Rattle.sy_runtime.specs.Faults.{fault_number, fault_words};

use std::error::Error;
use std::fmt;
use sy_wire::FrameFault;

/// Why a relay, or a connection of it, failed. The numbers are those of `number`.
#[derive(Clone, Copy, Debug, PartialEq, Eq)]
pub enum RunFault {
    /// A read failed.
    Read,
    /// An address couldn't be listened at.
    Bind,
    /// The input isn't there, or no hand of it is free.
    Hands,
    /// There was no memory: as the relay started, or until it closed.
    NoMemory,
    /// The stream goes on with no frame.
    Frame(FrameFault),
    /// A total, or a count of the connection's, would pass 2^64 - 1.
    TotalsFull,
}

impl RunFault {
    // The number of the fault, and the same with its name.
    fn row(self) -> (u8, &'static str)
        ensures number { result.0 ≡ fault_number self }
        ensures words { result.1.now ≡ fault_words self }
    {
        match self {
            RunFault::Read => (71, "71 Read"),
            RunFault::Bind => (72, "72 Bind"),
            RunFault::Hands => (73, "73 Hands"),
            RunFault::NoMemory => (74, "74 NoMemory"),
            RunFault::Frame(_) => (75, "75 Frame"),
            RunFault::TotalsFull => (76, "76 TotalsFull"),
        }
    }

    /// The number of the fault: 71 for `Read` to 76 for `TotalsFull`. A fault of a frame has one of its own besides.
    pub fn number(self) -> u8
        ensures { result ≡ fault_number self }
    {
        self.row().0
    }

    /// The number and the name of the fault, as `71 Read`.
    pub fn words(self) -> &'static str
        ensures { result.now ≡ fault_words self }
    {
        self.row().1
    }
}

impl fmt::Display for RunFault {
    ghost output = { λ fault. Some (fault_words fault) };

    fn fmt<W: fmt::Write>(&self, f: &mut fmt::Formatter<W>) -> fmt::Result {
        let words = self.words();
        write!(f, "{words}")
    }
}

impl Error for RunFault {}
