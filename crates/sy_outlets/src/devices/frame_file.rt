//! What writes whole frames to a file.

use std::fs::File;
use std::io::Write;
use sy_log::log::ActionLog;
use sy_report::texts::reason::Reason;
use sy_wire::WriteFault;

/// What writes whole frames to a file, and notes why a write fails. A frame of which a part was written is cut off again, so that no other comes to
/// stand after it.
#[derive(Drop)]
pub struct FrameFile {
    file: File,
    log: ActionLog,
    // how long the file was before frames of which only a part was written
    whole: Option<u64>,
}

impl FrameFile {
    /// What writes to the end of this file.
    pub fn new(file: File, log: ActionLog) -> FrameFile {
        FrameFile {
            file,
            log,
            whole: None,
        }
    }

    // Cuts off a part of a frame, where there is one. (Where the file is none that has a length, nothing can be.)
    fn cut(&mut self) -> Result<(), WriteFault> {
        let Some(whole) = self.whole else {
            return Ok(());
        };
        match self.file.set_len(whole) {
            Ok(()) => {
                self.whole = None;
                Ok(())
            }
            Err(error) => {
                self.log.because(Reason::of(&error));
                Err(WriteFault)
            }
        }
    }

    // How long the file is, where it has a length.
    fn length(&self) -> Option<u64> {
        match self.file.metadata() {
            Ok(about) if about.is_file() => Some(about.len()),
            _ => None,
        }
    }

    /// Writes these frames: all of them or, where that fails, nothing.
    pub fn append(&mut self, frames: &[u8]) -> Result<(), WriteFault> {
        self.cut()?;
        let before = self.length();
        match self.file.write_all(frames) {
            Ok(()) => Ok(()),
            Err(error) => {
                self.log.because(Reason::of(&error));
                self.whole = before;
                let _ = self.cut();
                Err(WriteFault)
            }
        }
    }
}
