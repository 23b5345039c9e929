//! What calls answered, which only clauses read.

ghost use Rattle.std.specs.Prelude.{◌≡◌, List, [], ◌∷◌};
ghost use Rattle.std.specs.Borrow.{ftrue};
ghost use Rattle.sy_calls.specs.Calls.{Call};
ghost use Rattle.sy_calls.specs.internal.Notes.{call_of};

use std::marker::{Model, PhantomData};

/// The calls on a file with what they answered, the last first. Nothing in memory holds them: whoever notes one says by that
/// that he made it.
#[derive(Drop)]
pub struct Record {
    marker: PhantomData<u8>,
    pub ghost calls: { List Call },
}

impl Model for Record {
    ghost also_owns = { λ _. ftrue };
}

impl Record {
    /// Of a file that was opened.
    pub(crate) fn new() -> Record
        ensures { result.calls ≡ [] }
    {
        Record {
            marker: PhantomData,
        }
    }

    /// Notes a call by its number, with the bytes that it took.
    pub(crate) fn note(&mut self, _numbers: &[u64], _bytes: &[u8])
        ensures { self.new.calls ≡ call_of _numbers.now _bytes.now ∷ self.old.calls }
    {}
}

// (no memory holds what it says)
unsafe impl Send for Record {}
