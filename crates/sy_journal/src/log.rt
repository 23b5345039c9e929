//! A log of frames in a file of a fixed length. Behind the frames stand zeros, on the disk before a frame is written
//! over them: so a frame is durable with one sync, and a torn one is told by the zeros that it has too many.
ghost use Rattle.std.specs.Prelude.{◌≡◌, ◌<◌, ◌≤◌, ◌+◌, ◌-◌, ◌++◌, [], ◌∷◌, List, ℕ, length, take, drop, map, IfOk, OnOk, IsErrOf};
ghost use Rattle.sy_journal.specs.Storage.{Only, LeavesOnly};
ghost use Rattle.sy_journal.specs.Frames.{IsFrame, Reads, BeginsWithNoFrame, blank};
ghost use Rattle.sy_journal.specs.Log.{IsAtRest, IsBeforeOrAfter, IsAsBefore, IsCleared};
ghost use Rattle.sy_journal.specs.internal.Reading.{BeginsWithNoFrameBehind};

use crate::reading::{blank_bytes, is_blank, read_frames};
use crate::{Storage, StorageError};
use std::alloc::Global;

#[derive(Drop)]
pub struct Log<S: Storage> {
    pub file: S,
    pub end: usize,
    pub size: usize,
}

impl<S: Storage> Log<S> {
    /// Writes a frame behind the others. At `Ok` it is on the disk: from then on each crash leaves a file that has it.
    /// At `Full` nothing has changed. At another `Err`, open the file again.
    pub fn append(&mut self, frame: &[u8]) -> Result<(), StorageError>
        requires at_rest { IsAtRest S.seen S.may_leave self.old }
        requires frame { IsFrame (drop 8 frame.now) frame.now }

        ensures at_rest { OnOk result (IsAtRest S.seen S.may_leave self.new) }
        ensures acknowledged { OnOk result ((xs : List (List ℕ)) → Reads xs (S.seen self.old.file) → Reads (xs ++ drop 8 frame.now ∷ []) (S.seen self.new.file)) }

        // A crash at any moment of the call leaves the contents from before it, with the new one or without.
        ensures any_moment { LeavesOnly S.moment S.left_since self.old.file self.new.file
            (IsBeforeOrAfter (S.seen self.old.file) (drop 8 frame.now)) }

        // It doesn't give up by itself.
        ensures failed { IsErrOf result StorageError.Failed → S.faults self.old.file < S.faults self.new.file }
        ensures full { IsErrOf result StorageError.Full → (self.old.size < self.old.end + length frame.now) × (self.new ≡ self.old) }
    {
        if self.size - self.end < frame.len() {
            return Err(StorageError::Full);
        }
        self.file.write_at(self.end, frame)?;
        self.file.sync()?;
        self.end += frame.len();
        Ok(())
    }
}

/// What a log has.
#[derive(Drop)]
pub struct Found {
    pub contents: Vec<Vec<u8>>,
    pub end: usize,
    pub size: usize,
}

/// Reads the contents of a file that a crash may have left, and clears what stands behind them. It may crash too.
pub fn recover_log<S: Storage>(alloc: Global, file: &mut S) -> Result<Found, StorageError>
    // After a restart, what is read is what is on the disk.
    requires { Only (S.seen file.old) (S.may_leave file.old) }

    ensures contents { IfOk result (λ found. Reads (map (λ v. v.items) found.contents.items) (S.seen file.old)) }
    ensures at_rest { IfOk result (λ found. IsCleared (S.seen file.new) (map (λ v. v.items) found.contents.items) found.end found.size) }
    ensures durable { OnOk result (Only (S.seen file.new) (S.may_leave file.new)) }
    ensures same { OnOk result (IsAsBefore (S.seen file.old) (S.seen file.new)) }

    // A crash at any moment leaves the same contents.
    ensures any_moment { LeavesOnly S.moment S.left_since file.old file.new (IsAsBefore (S.seen file.old)) }

    ensures failed { IsErrOf result StorageError.Failed → S.faults file.old < S.faults file.new }
    ensures full { IsErrOf result StorageError.Full → ⊥ }
{
    let bytes = file.read(alloc)?;
    let (contents, end) = read_frames(alloc, &bytes)?;
    let size = bytes.len();
    if is_blank(&bytes[end..]) {
        return Ok(Found {
            contents,
            end,
            size,
        });
    }
    clear(alloc, file, end, size)?;
    Ok(Found {
        contents,
        end,
        size,
    })
}

// A torn frame is closed by one zero, on the disk before the rest is cleared: no part of the clearing can open it.
fn clear<S: Storage>(
    alloc: Global,
    file: &mut S,
    end: usize,
    size: usize,
) -> Result<(), StorageError>
    requires only { Only (S.seen file.old) (S.may_leave file.old) }
    requires size { (size ≡ length (S.seen file.old)) × (end < size) }
    requires shut { BeginsWithNoFrame (drop end (S.seen file.old)) }

    ensures cleared { OnOk result (S.seen file.new ≡ take end (S.seen file.old) ++ blank (size - end)) }
    ensures durable { OnOk result (Only (S.seen file.new) (S.may_leave file.new)) }
    ensures any_moment { LeavesOnly S.moment S.left_since file.old file.new (BeginsWithNoFrameBehind end (S.seen file.old)) }
    ensures failed { IsErrOf result StorageError.Failed → S.faults file.old < S.faults file.new }
    ensures full { IsErrOf result StorageError.Full → ⊥ }
{
    let zeros = blank_bytes(alloc, size - end)?;
    file.write_at(end, &[0])?;
    file.sync()?;
    file.write_at(end, &zeros)?;
    file.sync()?;
    Ok(())
}
