//! A file of records, read frame by frame.

use crate::joining::{Joining, Kept, Taken};
use std::alloc::Global;
use sy_wire::{FillFault, FrameFault, Framer, Message, Source};

// How many frames and reads of a file at most.
const TURNS: u64 = 1_000_000_000_000;

/// What ends the reading of a file before its end.
#[derive(Clone, Copy, PartialEq, Eq)]
pub enum FileFault {
    /// No frame begins where one should, or the last is cut short.
    Frame(FrameFault),
    /// Memory ran out.
    NoMemory,
    /// A read failed.
    ReadFailed,
}

/// A file of records that is read.
#[derive(Drop)]
pub struct Records {
    alloc: Global,
    framer: Framer,
    joining: Joining,
    others: u64,
}

// The next message of a file, none at its end.
fn next_message<R: Source>(
    framer: &mut Framer,
    source: &mut R,
) -> Result<Option<Vec<u8>>, FileFault> {
    for _ in 0..TURNS {
        match framer.next_frame() {
            Ok(Some(raw)) => return Ok(Some(raw)),
            Ok(None) => {}
            Err(FrameFault::NoMemory) => return Err(FileFault::NoMemory),
            Err(fault) => return Err(FileFault::Frame(fault)),
        }
        match framer.fill(source) {
            Ok(0) => match framer.end() {
                Ok(()) => return Ok(None),
                Err(fault) => return Err(FileFault::Frame(fault)),
            },
            Ok(_) => {}
            Err(FillFault::ReadFailed) => return Err(FileFault::ReadFailed),
            Err(FillFault::NoMemory) => return Err(FileFault::NoMemory),
            Err(FillFault::Failed) => return Err(FileFault::Frame(FrameFault::Failed)),
        }
    }
    Err(FileFault::ReadFailed)
}

impl Records {
    /// Nothing was read.
    pub fn new(alloc: Global) -> Records {
        Records {
            alloc,
            framer: Framer::new(alloc),
            joining: Joining::new(),
            others: 0,
        }
    }

    /// How many frames of the file had no record.
    pub fn others(&self) -> u64 {
        self.others
    }

    /// How many records had a part without the other one.
    pub fn lone(&self) -> u64 {
        self.joining.lone()
    }

    // The frame that a message of the file completes, if there is one.
    fn take(&mut self, raw: Vec<u8>) -> Result<Option<Kept>, FileFault> {
        let message = match Message::read(raw) {
            Ok(message) => message,
            Err(_) => {
                self.others = self.others.saturating_add(1);
                return Ok(None);
            }
        };
        match self.joining.take(self.alloc, message.raw()) {
            Ok(Taken::Frame(kept)) => Ok(Some(kept)),
            Ok(Taken::Other) => {
                self.others = self.others.saturating_add(1);
                Ok(None)
            }
            Ok(_) => Ok(None),
            Err(_) => Err(FileFault::NoMemory),
        }
    }

    /// The next frame that the file keeps, none at its end. Its source is the same at each call.
    pub fn next<R: Source>(&mut self, source: &mut R) -> Result<Option<Kept>, FileFault> {
        for _ in 0..TURNS {
            match next_message(&mut self.framer, source)? {
                Some(raw) => match self.take(raw)? {
                    Some(kept) => return Ok(Some(kept)),
                    None => {}
                },
                None => return Ok(None),
            }
        }
        Err(FileFault::ReadFailed)
    }
}
