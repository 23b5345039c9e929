//! Why a board refuses a call.
ghost use Rattle.std.specs.Prelude.{◌≡◌, Some};
ghost use Rattle.sy_board.specs.Faults.{fault_number, fault_words};

use std::error::Error;
use std::fmt;

/// Why a board refuses a call, which then has changed nothing. `TotalsFull` is answered where no other
/// fault is. The numbers are those of `number`.
#[derive(Clone, Copy, Debug, PartialEq, Eq)]
pub enum BoardFault {
    /// The hand holds a message.
    HandTaken,
    /// The hand holds no message.
    HandEmpty,
    /// The worker still has entries.
    SlotBusy,
    /// The worker has no job, or one of the other kind.
    NoJob,
    /// The receipt, or the failure, isn't of the worker's job: it is another device's, or of another message; or the failure is of a message that
    /// was not offered.
    WrongReceipt,
    /// A total would pass its limit.
    TotalsFull,
    /// The hand's message hasn't expired: the full-delay mark holds it, or its queue isn't full. Or a post may not be lost: the full-delay mark
    /// holds it, or its queue isn't full, where that is the cause; or there was no memory, and posts wait there.
    NotExpired,
}

impl BoardFault {
    // The number of the fault, and the same with its name.
    fn row(self) -> (u8, &'static str)
        ensures number { result.0 ≡ fault_number self }
        ensures words { result.1.now ≡ fault_words self }
    {
        match self {
            BoardFault::HandTaken => (81, "81 HandTaken"),
            BoardFault::HandEmpty => (82, "82 HandEmpty"),
            BoardFault::SlotBusy => (83, "83 SlotBusy"),
            BoardFault::NoJob => (84, "84 NoJob"),
            BoardFault::WrongReceipt => (85, "85 WrongReceipt"),
            BoardFault::TotalsFull => (86, "86 TotalsFull"),
            BoardFault::NotExpired => (87, "87 NotExpired"),
        }
    }

    /// The number of the fault: 81 for `HandTaken` to 87 for `NotExpired`.
    pub fn number(self) -> u8
        ensures { result ≡ fault_number self }
    {
        self.row().0
    }

    /// The number and the name of the fault, as `81 HandTaken`.
    pub fn words(self) -> &'static str
        ensures { result.now ≡ fault_words self }
    {
        self.row().1
    }
}

impl fmt::Display for BoardFault {
    ghost output = { λ fault. Some (fault_words fault) };

    fn fmt<W: fmt::Write>(&self, f: &mut fmt::Formatter<W>) -> fmt::Result {
        let words = self.words();
        write!(f, "{words}")
    }
}

impl Error for BoardFault {}
