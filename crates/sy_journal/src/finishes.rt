//! Finishes in a file of a fixed length: a byte for each entry, 0 while it has work left. They are written and not
//! synced: a crash may lose some, and makes none.
ghost use Rattle.std.specs.Prelude.{◌≡◌, ◌<◌, ◌≤◌, ◌+◌, List, ℕ, length, OnOk, IfOk, IsErrOf, IsTrue};
ghost use Rattle.sy_journal.specs.Storage.{LeavesOnly, written_at, Only};
ghost use Rattle.sy_journal.specs.Finishes.{Fades, AreSound, AllSet};

use crate::{Storage, StorageError};
use std::alloc::Global;

/// Finishes so many entries from this one on. At `Err`, open the files again.
pub fn finish<S: Storage>(file: &mut S, first: usize, run: &[u8]) -> Result<(), StorageError>
    requires within { first + length run.now ≤ length (S.seen file.old) }
    requires set { AllSet run.now }
    requires sound { AreSound S.seen S.may_leave file.old }

    ensures finished { OnOk result (S.seen file.new ≡ written_at first run.now (S.seen file.old)) }
    ensures sound { OnOk result (AreSound S.seen S.may_leave file.new) }
    // A crash at any moment leaves none that wasn't set.
    ensures any_moment { LeavesOnly S.moment S.left_since file.old file.new (Fades (written_at first run.now (S.seen file.old))) }
    ensures failed { IsErrOf result StorageError.Failed → S.faults file.old < S.faults file.new }
    ensures full { IsErrOf result StorageError.Full → ⊥ }
{
    file.write_at(first, run)?;
    Ok(())
}

pub fn all_set(finishes: &[u8]) -> bool
    ensures { IsTrue result → AllSet finishes.now }
{
    let mut rest = finishes;
    while let [finish, after @ ..] = rest {
        if *finish == 0 {
            return false;
        }
        rest = after;
    }
    true
}
