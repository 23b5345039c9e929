//! What writes to the file of an archive.
ghost use Rattle.std.specs.Prelude.{◌≡◌, false, true, Some, OnErr, OnOk, [], ◌∷◌};
ghost use Rattle.sy_calls.specs.Calls.{is_synced, synced, taken};
ghost use Rattle.sy_outlets.specs.FileWriters.{is_on_disk};

use std::fs::File;
use sy_calls::AppendFile;
use sy_log::log::ActionLog;
use sy_report::texts::reason::Reason;
use sy_wire::{Sink, WriteFault};

/// What writes to the file of an archive, and notes why a write fails.
#[derive(Drop)]
pub struct FileWriter {
    file: AppendFile,
    log: ActionLog,
    faults: u64,
    is_flushed: bool,
    // whether a flush has what was written on the disk
    is_synced: bool,
}

impl FileWriter {
    /// A writer to this file, whose flush has the disk keep what was written, where that is asked for.
    pub fn new(file: File, log: ActionLog, is_synced: bool) -> FileWriter
        ensures nothing { taken result.file.noted.calls ≡ [] }
        ensures syncs { result.is_synced ≡ is_synced }
    {
        FileWriter {
            file: AppendFile::new(file),
            log,
            faults: 0,
            is_flushed: true,
            is_synced,
        }
    }

    // Has the disk keep what was written, where that is asked for.
    fn sync(&mut self) -> Result<(), Reason>
        ensures bytes { taken self.new.file.noted.calls ≡ taken self.old.file.noted.calls }
        ensures ok { OnOk result (self.old.is_synced ≡ true → is_synced self.new.file.noted.calls ≡ true) }
        ensures err { OnErr result (self.new.file.noted.calls ≡ self.old.file.noted.calls) }
        ensures same { self.new ≡ record self.old { file = self.new.file } }
    {
        if !self.is_synced {
            return Ok(());
        }
        match self.file.sync_data() {
            Ok(()) => Ok(()),
            Err(error) => Err(Reason::of(&error)),
        }
    }
}

impl Sink for FileWriter {
    // what its writes took since it was opened
    ghost contents = { λ s. Some (taken s.file.noted.calls) };

    ghost faults = { λ s. s.faults };

    ghost is_flushed = { λ s. is_on_disk s.is_synced s.is_flushed s.file.noted.calls };

    fn write(&mut self, bytes: &[u8]) -> Result<usize, WriteFault> {
        if bytes.is_empty() {
            return Ok(0);
        }
        self.is_flushed = false;
        match self.file.write(bytes) {
            Ok(count) if count > 0 => return Ok(count),
            Ok(_) => self.log.because(Reason::Write),
            Err(error) => self.log.because(Reason::of(&error)),
        }
        self.faults = self.faults.saturating_add(1);
        Err(WriteFault)
    }

    fn flush(&mut self) -> Result<(), WriteFault> {
        match self.sync() {
            Ok(()) => {
                self.is_flushed = true;
                Ok(())
            }
            Err(reason) => {
                self.log.because(reason);
                self.faults = self.faults.saturating_add(1);
                Err(WriteFault)
            }
        }
    }
}
