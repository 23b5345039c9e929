//! The file of the metrics.

use std::alloc::{AllocError, Global};
use std::fs::{self, File};
use std::io::{self, Write};

/// A file whose text is replaced at once: it is written beside it, and renamed. That it is on the disk isn't waited for.
#[derive(Drop)]
pub struct MetricsFile {
    rt: HostRuntime,
    name: String,
    // the name of the text until it is whole
    unfinished: String,
    // after how many seconds it is written again
    every: u32,
}

impl MetricsFile {
    /// The file of that name, which is written again after so many seconds.
    pub fn new(
        rt: HostRuntime,
        alloc: Global,
        name: &str,
        every: u32,
    ) -> Result<MetricsFile, AllocError> {
        let mut unfinished = String::from_str(alloc, name)?;
        unfinished.push_str(".new")?;
        Ok(MetricsFile {
            rt,
            name: String::from_str(alloc, name)?,
            unfinished,
            every,
        })
    }

    /// Its name.
    pub fn name(&self) -> &str {
        self.name.as_str()
    }

    /// After how many seconds it is written again.
    pub fn every(&self) -> u32 {
        self.every
    }

    // Writes a text beside the file, and renames it.
    fn write_and_rename(&self, text: &[u8]) -> io::Result<()> {
        // (what an earlier run left there is removed, and what somebody else puts there isn't followed)
        let mut file = File::create_new(&self.rt, self.unfinished.as_str())?;
        file.write_all(text)?;
        drop(file);
        fs::rename(&self.rt, self.unfinished.as_str(), self.name.as_str())
    }

    /// Has the file hold this text. Where that fails it holds what it held.
    pub fn replace(&self, text: &[u8]) -> io::Result<()> {
        let _ = fs::remove_file(&self.rt, self.unfinished.as_str());
        let written = self.write_and_rename(text);
        if written.is_err() {
            let _ = fs::remove_file(&self.rt, self.unfinished.as_str());
        }
        written
    }
}
