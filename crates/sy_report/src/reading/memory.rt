//! Files in memory.
ghost use Rattle.std.specs.Prelude.{◌≡◌, IfErr, IfOk, IfSome, None, Some, map};
ghost use Rattle.std.specs.Option.{option_copied};
ghost use Rattle.sy_site.specs.texts.Describes.{file, file_named};
ghost use Rattle.sy_report.specs.Memory.{bytes_in};

use crate::reading::files::{FileFault, Files};
use std::alloc::Global;
use std::io::Read;
use sy_site::bytes_of;
use sy_wire::{ReadFault, Source};

/// Files that are given by their names with their bytes. Of two of one name the first is the file of that name.
#[derive(Drop)]
pub struct MemoryFiles<'a> {
    alloc: Global,
    files: &'a [(&'a str, &'a [u8])],
}

impl<'a> MemoryFiles<'a> {
    /// These files.
    pub fn new(alloc: Global, files: &'a [(&'a str, &'a [u8])]) -> MemoryFiles<'a>
        ensures { result.files.now ≡ files.now }
    {
        MemoryFiles { alloc, files }
    }
}

fn copy_of(alloc: Global, bytes: &[u8]) -> Result<Vec<u8>, FileFault>
    ensures ok { IfOk result (λ copy. copy.items ≡ bytes.now) }
    ensures err { IfErr result (λ why. why ≡ FileFault.NoMemory) }
{
    match Vec::from_slice(alloc, bytes) {
        Ok(copy) => Ok(copy),
        Err(_) => Err(FileFault::NoMemory),
    }
}

/// What is left to read of a file in memory. No read of it fails.
#[derive(Drop)]
pub struct MemoryFile<'a> {
    left: &'a [u8],
    calls: u64,
}

impl Source for MemoryFile<'_> {
    ghost remaining = { λ f. Some f.left.now };

    ghost faults = { λ _. 0 };

    ghost calls = { λ f. f.calls };

    fn read(&mut self, buffer: &mut [u8]) -> Result<usize, ReadFault> {
        self.calls = self.calls.saturating_add(1);
        let Ok(count) = self.left.read(buffer) else {
            unreachable!()
        };
        Ok(count)
    }
}

impl<'a> Files for MemoryFiles<'a> {
    type Opened = MemoryFile<'a>;

    ghost bytes_of = { bytes_in };

    ghost may_fail = { λ m name. bytes_in m name ≡ None };

    fn read(&self, name: &str) -> Result<Vec<u8>, FileFault>
        ensures bytes { IfOk result (λ v. IfSome (bytes_in self.now name.now) (λ bytes. v.items ≡ bytes)) }
        ensures err { IfErr result (λ why. why ≡ FileFault.Read → bytes_in self.now name.now ≡ None) }
        ensures missing { bytes_in self.now name.now ≡ None → result ≡ Err FileFault.Read }
    {
        match bytes_of(self.files, name) {
            Some(bytes) => copy_of(self.alloc, bytes),
            None => Err(FileFault::Read),
        }
    }

    fn open(&self, name: &str) -> Result<MemoryFile<'a>, FileFault>
        ensures bytes { IfOk result (λ f. IfSome (bytes_in self.now name.now) (λ bytes. Some f.left.now ≡ Some bytes)) }
        ensures err { IfErr result (λ why. why ≡ FileFault.Read → bytes_in self.now name.now ≡ None) }
        ensures missing { bytes_in self.now name.now ≡ None → result ≡ Err FileFault.Read }
    {
        match bytes_of(self.files, name) {
            Some(left) => Ok(MemoryFile { left, calls: 0 }),
            None => Err(FileFault::Read),
        }
    }
}
