//! A file of a fixed length as the journal sees it: what a read returns, and what a crash may leave.
ghost use Rattle.std.specs.Prelude.{◌≡◌, ◌≤◌, ◌+◌, List, ℕ, length, IfOk, OnOk};
ghost use Rattle.sy_journal.specs.declared.storage.StorageError.TheVariants.{Memory};
ghost use Rattle.sy_journal.specs.Storage.{Only, Follows, Torn, written_at, Elapses, HasCause};

use std::alloc::{AllocError, AllocFailed, Global};

#[derive(Clone, Copy, Debug, PartialEq, Eq)]
pub enum StorageError {
    Memory,
    Failed,
    Full,
}

impl From<AllocError> for StorageError {
    ghost from_gives = { λ _ e. e ≡ Memory };

    fn from(_: AllocError) -> Self {
        StorageError::Memory
    }
}

impl<T: Drop> From<AllocFailed<T>> for StorageError {
    ghost from_gives = { λ _ e. e ≡ Memory };

    fn from(_: AllocFailed<T>) -> Self {
        StorageError::Memory
    }
}

pub trait Storage {
    /// The bytes that a read returns.
    ghost seen: { Self → List ℕ };

    /// What a crash at this moment may leave.
    ghost may_leave: { Self → List ℕ → Type 0 };

    /// The moment, as a number that doesn't fall.
    ghost moment: { Self → ℕ };

    /// What a crash at some moment from that one on might have left, during a call or between two.
    ghost left_since: { Self → ℕ → List ℕ → Type 0 };

    /// How often the disk has failed.
    ghost faults: { Self → ℕ };

    /// All the bytes.
    fn read(&mut self, alloc: Global) -> Result<Vec<u8>, StorageError>
        ensures bytes { IfOk result (λ bytes. bytes.items ≡ seen self.old) }
        ensures seen { seen self.new ≡ seen self.old }
        ensures crash { (c : List ℕ) → may_leave self.new c → may_leave self.old c }
        ensures time { Elapses (moment self.old) (moment self.new) (left_since self.old) (left_since self.new) (may_leave self.new) }
        ensures cause { HasCause (faults self.old) (faults self.new) result };

    /// Writes over bytes that are there. Until a sync, a crash may leave each of them as it was or as it was written.
    fn write_at(&mut self, at: usize, bytes: &[u8]) -> Result<(), StorageError>
        requires { at + length bytes.now ≤ length (seen self.old) }
        ensures written { OnOk result (seen self.new ≡ written_at at bytes.now (seen self.old)) }
        ensures crash { Follows (Torn at bytes.now) (may_leave self.old) (may_leave self.new) }
        ensures time { Elapses (moment self.old) (moment self.new) (left_since self.old) (left_since self.new) (may_leave self.new) }
        ensures cause { HasCause (faults self.old) (faults self.new) result };

    /// After it, a crash leaves what a read returns.
    fn sync(&mut self) -> Result<(), StorageError>
        ensures durable { OnOk result (Only (seen self.old) (may_leave self.new)) }
        ensures seen { seen self.new ≡ seen self.old }
        ensures crash { (c : List ℕ) → may_leave self.new c → may_leave self.old c }
        ensures time { Elapses (moment self.old) (moment self.new) (left_since self.old) (left_since self.new) (may_leave self.new) }
        ensures cause { HasCause (faults self.old) (faults self.new) result };

    /// This moment is one of those since an earlier one.
    ghost counts_now: { (file : Self) (t : ℕ) (c : List ℕ) → t ≤ moment file → may_leave file c → left_since file t c };

    /// Since this moment there is no other.
    ghost only_now: { (file : Self) (c : List ℕ) → left_since file (moment file) c → may_leave file c };
}
