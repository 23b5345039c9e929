//! The folders of a host, for patterns of file names.

use std::alloc::AllocError;
use std::fs;
use std::io::ErrorKind;

/// The folders in which patterns are looked up.
pub trait Folders {
    /// The names that a folder has, in no order; nothing where it can't be read.
    fn names(&self, folder: &str) -> Result<Option<Vec<String>>, AllocError>;
}

/// The folders of the host.
#[derive(Drop)]
pub struct HostFolders<'a> {
    rt: &'a HostRuntime,
}

impl<'a> HostFolders<'a> {
    pub fn new(rt: &'a HostRuntime) -> HostFolders<'a> {
        HostFolders { rt }
    }
}

impl Folders for HostFolders<'_> {
    fn names(&self, folder: &str) -> Result<Option<Vec<String>>, AllocError> {
        let entries = match fs::read_dir(self.rt, folder) {
            Ok(entries) => entries,
            Err(error) if error.kind() == ErrorKind::OutOfMemory => return Err(AllocError),
            Err(_) => return Ok(None),
        };
        let mut names = Vec::new(self.rt.alloc());
        for entry in entries {
            match entry {
                Ok(entry) => names.push(String::from_str(self.rt.alloc(), entry.file_name())?)?,
                Err(error) if error.kind() == ErrorKind::OutOfMemory => return Err(AllocError),
                Err(_) => return Ok(None),
            }
        }
        Ok(Some(names))
    }
}
