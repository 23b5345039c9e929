//! The files for what a relay leaves when it stops.
ghost use Rattle.std.specs.Prelude.{◌≡◌, true, Some, is_some};

use crate::leaving::left::Store;
use itoa::Buffer;
use std::alloc::{AllocError, Global};
use std::fs::{self, File};
use std::io::{BufWriter, ErrorKind};
use sy_wire::{FromWrite, Sink, WriteFault};

/// How many bytes are written at once.
const BUFFER: usize = 65536;

/// How many files one input may have, at most.
const FILES: u32 = 1_000_000;

/// Why nothing can be left there.
#[derive(Clone, Copy, PartialEq, Eq)]
pub enum LeftFault {
    NoMemory,
    /// A symbolic link is where a file would be.
    Link,
    Missing,
    Denied,
    Other,
}

impl LeftFault {
    /// The words for it.
    pub fn words(self) -> &'static str {
        match self {
            LeftFault::NoMemory => "no memory",
            LeftFault::Link => "a symbolic link",
            LeftFault::Missing => "no such folder",
            LeftFault::Denied => "permission denied",
            LeftFault::Other => "can't be written",
        }
    }
}

fn fault_of(kind: ErrorKind) -> LeftFault {
    match kind {
        ErrorKind::NotFound => LeftFault::Missing,
        ErrorKind::PermissionDenied => LeftFault::Denied,
        _ => LeftFault::Other,
    }
}

/// A file under the name that it has until it is whole.
#[derive(Drop)]
pub struct Unfinished<S: Drop> {
    inner: S,
    // which of the files of its input it is
    number: u32,
}

impl<S: Sink + Drop> Sink for Unfinished<S> {
    ghost contents = { λ u. S.contents u.inner };

    ghost faults = { λ u. S.faults u.inner };

    ghost is_flushed = { λ u. S.is_flushed u.inner };

    fn write(&mut self, bytes: &[u8]) -> Result<usize, WriteFault> {
        self.inner.write(bytes)
    }

    fn flush(&mut self) -> Result<(), WriteFault> {
        self.inner.flush()
    }
}

/// Files beside each other: what is left at the input of port P goes to `NAME.P`, or where that is there to `NAME.P.1`, `NAME.P.2` and so on. None
/// is ever overwritten. Until a file is whole its name ends in `.new`.
#[derive(Drop)]
pub struct LeftFiles {
    rt: HostRuntime,
    alloc: Global,
    // none where nothing is to be kept
    name: Option<String>,
}

// The folder of a file.
fn folder_of(name: &str) -> &str {
    match name.rfind('/') {
        Some(0) => "/",
        Some(at) => match name.get(..at) {
            Some(folder) => folder,
            None => ".",
        },
        None => ".",
    }
}

fn push_number(text: &mut String, number: u32) -> Result<(), AllocError> {
    let mut digits = Buffer::new();
    text.push_str(".")?;
    text.push_str(digits.format(number))
}

impl LeftFiles {
    /// Files of that name, or none where there is no name.
    pub fn new(
        rt: HostRuntime,
        alloc: Global,
        name: Option<&str>,
    ) -> Result<LeftFiles, AllocError> {
        let name = match name {
            Some(name) => Some(String::from_str(alloc, name)?),
            None => None,
        };
        Ok(LeftFiles { rt, alloc, name })
    }

    // The name of a file of an input, which is the number-th, once it is whole.
    fn place(&self, port: u16, number: u32) -> Result<String, AllocError> {
        let mut place = match &self.name {
            Some(name) => String::from_str(self.alloc, name.as_str())?,
            None => String::new(self.alloc),
        };
        push_number(&mut place, u32::from(port))?;
        if number > 0 {
            push_number(&mut place, number)?;
        }
        Ok(place)
    }

    // The same, until it is.
    fn unfinished(&self, port: u16, number: u32) -> Result<String, AllocError> {
        let mut place = self.place(port, number)?;
        place.push_str(".new")?;
        Ok(place)
    }

    fn is_link(&self, name: &str) -> bool {
        match fs::symlink_metadata(&self.rt, name) {
            Ok(found) => found.is_symlink(),
            Err(_) => false,
        }
    }

    // Begins the file of that number; none where it is there, or was begun and never finished.
    fn create_at(&self, port: u16, number: u32) -> Result<Option<File>, LeftFault> {
        let (Ok(place), Ok(unfinished)) = (self.place(port, number), self.unfinished(port, number))
        else {
            return Err(LeftFault::NoMemory);
        };
        if fs::symlink_metadata(&self.rt, place.as_str()).is_ok() {
            return Ok(None);
        }
        match File::create_new(&self.rt, unfinished.as_str()) {
            Ok(file) => Ok(Some(file)),
            Err(fault) => match fault.kind() {
                ErrorKind::AlreadyExists => Ok(None),
                kind => Err(fault_of(kind)),
            },
        }
    }

    // Begins the first file of an input that isn't there.
    fn create_first(&self, port: u16) -> Result<(File, u32), LeftFault> {
        for number in 0..FILES {
            if let Some(file) = self.create_at(port, number)? {
                return Ok((file, number));
            }
        }
        Err(LeftFault::Other)
    }

    // Gives a file, which is whole, its name, once it is on the disk. Where something has that name meanwhile, it keeps the one that it has.
    fn finish(&self, port: u16, number: u32) -> Option<()> {
        let (place, unfinished) = (
            self.place(port, number).ok()?,
            self.unfinished(port, number).ok()?,
        );
        File::open(&self.rt, unfinished.as_str())
            .ok()?
            .sync_all()
            .ok()?;
        fs::hard_link(&self.rt, unfinished.as_str(), place.as_str()).ok()?;
        fs::remove_file(&self.rt, unfinished.as_str()).ok()?;
        let folder = File::open(&self.rt, folder_of(place.as_str())).ok()?;
        folder.sync_all().ok()
    }

    /// Tries whether something could be left there: makes a file, and removes it.
    pub fn try_out(&self) -> Result<(), LeftFault> {
        let Some(name) = &self.name else {
            return Ok(());
        };
        let Ok(mut unfinished) = String::from_str(self.alloc, name.as_str()) else {
            return Err(LeftFault::NoMemory);
        };
        let Ok(()) = unfinished.push_str(".new") else {
            return Err(LeftFault::NoMemory);
        };
        if self.is_link(name.as_str()) || self.is_link(unfinished.as_str()) {
            return Err(LeftFault::Link);
        }
        let (file, number) = self.create_first(0)?;
        drop(file);
        self.remove(0, number);
        Ok(())
    }

    fn remove(&self, port: u16, number: u32) {
        if let Ok(unfinished) = self.unfinished(port, number) {
            let _ = fs::remove_file(&self.rt, unfinished.as_str());
        }
    }
}

impl Store for LeftFiles {
    type Opened = Unfinished<FromWrite<BufWriter<File>>>;

    ghost wanted = { λ files. is_some files.name };

    fn is_wanted(&self) -> bool {
        self.name.is_some()
    }

    fn create(&self, port: u16) -> Result<Unfinished<FromWrite<BufWriter<File>>>, WriteFault> {
        let Ok((file, number)) = self.create_first(port) else {
            return Err(WriteFault);
        };
        match BufWriter::with_capacity(self.alloc, BUFFER, file) {
            Ok(writer) => Ok(Unfinished {
                inner: FromWrite::new(writer),
                number,
            }),
            Err(_) => Err(WriteFault),
        }
    }

    fn keep(
        &mut self,
        port: u16,
        written: Unfinished<FromWrite<BufWriter<File>>>,
    ) -> Result<(), WriteFault> {
        let Unfinished { inner, number } = written;
        drop(inner);
        match self.finish(port, number) {
            Some(()) => Ok(()),
            None => Err(WriteFault),
        }
    }

    fn discard(&self, port: u16, written: Unfinished<FromWrite<BufWriter<File>>>) {
        let Unfinished { inner, number } = written;
        drop(inner);
        self.remove(port, number);
    }
}
