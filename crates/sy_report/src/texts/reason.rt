//! Why an action fails, as the host says it.

use crate::texts::parts::{Part, append_parts};
use std::alloc::{AllocError, Global};
use std::io::{Error, ErrorKind};

/// Why an action fails.
#[derive(Clone, Copy)]
pub enum Reason {
    /// The host's number of an error.
    Os(u32),
    TimedOut,
    /// The receiver has closed the link.
    Closed,
    NoMemory,
    /// The action's target is no relay.
    NoTarget,
    /// A write failed without a number.
    Write,
    /// The relay ends, and waits for no link.
    Ending,
    /// The name of the receiver's host can't be resolved.
    NoName,
}

/// What stands above the numbers of the host.
const OTHERS: u64 = 1 << 32;

impl Reason {
    /// Why a call of the host failed.
    pub fn of(error: &Error) -> Reason {
        if let Some(code) = error.raw_os_error() {
            return match u32::try_from(code) {
                Ok(code) => Reason::Os(code),
                Err(_) => Reason::Write,
            };
        }
        match error.kind() {
            ErrorKind::TimedOut => Reason::TimedOut,
            ErrorKind::OutOfMemory => Reason::NoMemory,
            _ => Reason::Write,
        }
    }

    /// The reason as a number above 0.
    pub fn code(self) -> u64 {
        match self {
            Reason::Os(code) => u64::from(code),
            Reason::TimedOut => OTHERS + 1,
            Reason::Closed => OTHERS + 2,
            Reason::NoMemory => OTHERS + 3,
            Reason::NoTarget => OTHERS + 4,
            Reason::Ending => OTHERS + 5,
            Reason::Write => OTHERS + 6,
            Reason::NoName => OTHERS + 7,
        }
    }

    /// The reason of that number.
    pub fn from_code(code: u64) -> Reason {
        if code > 0 && code < OTHERS {
            return Reason::Os(code as u32);
        }
        match code & 7 {
            1 => Reason::TimedOut,
            2 => Reason::Closed,
            3 => Reason::NoMemory,
            4 => Reason::NoTarget,
            5 => Reason::Ending,
            7 => Reason::NoName,
            _ => Reason::Write,
        }
    }

    // What is said of reasons that aren't the host's.
    fn words(self) -> &'static str {
        match self {
            Reason::TimedOut => "timed out",
            Reason::Closed => "closed by the receiver",
            Reason::NoMemory => "out of memory",
            Reason::NoTarget => "its target is no relay",
            Reason::Ending => "the relay ends",
            Reason::NoName => "its host's name can't be resolved",
            Reason::Write | Reason::Os(_) => "write failed",
        }
    }

    /// Puts the reason behind a text: of a number of the host its words, or the number where it has none.
    pub fn append(self, alloc: Global, text: &mut Vec<u8>) -> Result<(), AllocError> {
        match self {
            Reason::Os(code) => append_host(alloc, text, code),
            _ => text.extend_from_slice(self.words().as_bytes()),
        }
    }
}

fn append_number(text: &mut Vec<u8>, code: u32) -> Result<(), AllocError> {
    append_parts(
        text,
        &[Part::Text(b"error "), Part::Number(u64::from(code))],
    )
}

// Puts the words of the host's error of that number, or the number where it has none.
fn append_host(alloc: Global, text: &mut Vec<u8>, code: u32) -> Result<(), AllocError> {
    let Ok(number) = i32::try_from(code) else {
        return append_number(text, code);
    };
    match Error::from_raw_os_error(number).kind() {
        ErrorKind::Uncategorized => append_number(text, code),
        kind => {
            let words = kind.to_string(alloc)?;
            text.extend_from_slice(words.as_str().as_bytes())
        }
    }
}
