//! The two records of one frame, put together.
ghost use Rattle.std.specs.Prelude.{◌≡◌, drop};

use crate::heads::from;
use crate::reading::{Found, Share, are_parts, read_record};
use std::alloc::{AllocError, Global};
use std::mem;

/// A record and the bytes of its frame; where two have them, the first.
#[derive(Drop)]
pub struct Kept {
    pub found: Found,
    pub bytes: Vec<u8>,
}

/// What a message of a file of records is.
#[derive(Drop)]
pub enum Taken {
    /// A frame with all of its bytes that are kept.
    Frame(Kept),
    /// The first of the two parts of one.
    First,
    /// A second part whose first isn't the record before it.
    Lone,
    /// No record.
    Other,
}

/// What puts the parts of frames together.
#[derive(Drop)]
pub struct Joining {
    first: Option<Kept>,
    lone: u64,
}

/// The bytes of a record's frame in the message that is the record.
pub fn frame_bytes<'a>(raw: &'a [u8], found: &Found) -> &'a [u8]
    ensures { result.now ≡ drop found.now.start raw.now }
{
    from(raw, found.start)
}

// Copies the bytes of a record's frame.
fn copied(alloc: Global, raw: &[u8], found: Found) -> Result<Kept, AllocError> {
    let mut bytes = Vec::new(alloc);
    bytes.extend_from_slice(frame_bytes(raw, &found))?;
    Ok(Kept { found, bytes })
}

// The frame of its two parts.
fn joined(first: Kept, second: &Kept) -> Result<Taken, AllocError> {
    let Kept { found, mut bytes } = first;
    bytes.extend_from_slice(second.bytes.as_slice())?;
    Ok(Taken::Frame(Kept { found, bytes }))
}

impl Joining {
    /// No part waits for another.
    pub fn new() -> Joining {
        Joining {
            first: None,
            lone: 0,
        }
    }

    /// How many parts were alone: the other one isn't the record beside them. One that still waits is among them.
    pub fn lone(&self) -> u64 {
        self.lone.saturating_add(u64::from(self.first.is_some()))
    }

    // One part more is alone.
    fn leave(&mut self) {
        self.lone = self.lone.saturating_add(1);
    }

    // The frame whose second part this is.
    fn join(&mut self, before: Option<Kept>, second: &Kept) -> Result<Taken, AllocError> {
        match before {
            Some(first) => {
                if are_parts(&first.found, &second.found) {
                    return joined(first, second);
                }
                self.leave();
            }
            None => {}
        }
        self.leave();
        Ok(Taken::Lone)
    }

    /// Takes the next message of a file of records.
    pub fn take(&mut self, alloc: Global, raw: &[u8]) -> Result<Taken, AllocError> {
        let before = mem::replace(&mut self.first, None);
        let record = match read_record(alloc, raw)? {
            Some(found) => copied(alloc, raw, found)?,
            None => {
                if before.is_some() {
                    self.leave();
                }
                return Ok(Taken::Other);
            }
        };
        if record.found.share == Share::Second {
            return self.join(before, &record);
        }
        if before.is_some() {
            self.leave();
        }
        if record.found.share == Share::Whole {
            return Ok(Taken::Frame(record));
        }
        self.first = Some(record);
        Ok(Taken::First)
    }
}
