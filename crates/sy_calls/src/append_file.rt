//! A file to whose end lines are written.

ghost use Rattle.std.specs.Prelude.{◌≡◌, ◌≤◌, ◌++◌, [], ◌∷◌, length, take, true, IfOk, OnErr, OnOk};
ghost use Rattle.sy_calls.specs.Calls.{is_synced, synced, taken, took};

use crate::record::Record;
use std::fs::File;
use std::io::{self, Write};

const TOOK: u64 = 0;

const SYNCED: u64 = 1;

/// An open file of the host, with what its calls answered. Each of its functions makes the call that it notes: that is read, and
/// not proved.
#[derive(Drop)]
pub struct AppendFile {
    file: File,
    noted: Record,
}

impl AppendFile {
    /// A file that was opened for appending.
    pub fn new(file: File) -> AppendFile
        ensures { result.noted.calls ≡ [] }
    {
        AppendFile {
            file,
            noted: Record::new(),
        }
    }

    /// Writes bytes, and answers how many the host took.
    pub fn write(&mut self, bytes: &[u8]) -> io::Result<usize>
        ensures within { IfOk result (λ n. n ≤ length bytes.now) }
        ensures bytes { IfOk result (λ n. taken self.new.noted.calls ≡ taken self.old.noted.calls ++ take n bytes.now) }
        ensures took { IfOk result (λ n. self.new.noted.calls ≡ took (take n bytes.now) ∷ self.old.noted.calls) }
        ensures err { OnErr result (self.new.noted.calls ≡ self.old.noted.calls) }
    {
        let answer = self.file.write(bytes);
        if let Ok(count) = answer {
            self.noted.note(&[TOOK], &bytes[..count]);
        }
        answer
    }

    /// Has the disk keep what was written.
    pub fn sync_data(&mut self) -> io::Result<()>
        ensures disk { OnOk result (is_synced self.new.noted.calls ≡ true) }
        ensures ok { OnOk result (self.new.noted.calls ≡ synced ∷ self.old.noted.calls) }
        ensures err { OnErr result (self.new.noted.calls ≡ self.old.noted.calls) }
    {
        let answer = self.file.sync_data();
        if answer.is_ok() {
            self.noted.note(&[SYNCED], &[]);
        }
        answer
    }
}
