//! The files that a command reads.
ghost use Rattle.std.specs.Prelude.{◌≡◌, List, ℕ, Option, None, Some, IfErr, IfOk, IfSome};

use std::env;
use std::fs::{self, File};
use std::io::{self, Error, ErrorKind, Read, Stdin};
use sy_wire::{FromRead, Source};

/// How many bytes of a site's file are read at most: one more than a site file or a script may have.
const MOST_BYTES: u64 = 1_048_577;

/// Why a file's bytes aren't there.
#[derive(Clone, Copy, Drop)]
pub enum FileFault {
    Read,
    NoMemory,
}

/// Why the host doesn't give the bytes of a file.
#[derive(Clone, Copy)]
pub enum Reason {
    Missing,
    Denied,
    Directory,
    /// It is a FIFO, a device or a socket.
    Irregular,
    Other,
}

/// Whether a name stands for standard input, where a certificate or events are read.
pub fn is_standard_input(name: &str) -> bool {
    name == "-"
}

/// The files that a command may name.
pub trait Files {
    /// A file that is read piece by piece.
    type Opened: Source + Drop;

    // the bytes of the file of that name, where they are known
    ghost bytes_of: { Self → List ℕ → Option (List ℕ) } = { λ _ _. None };
    // whether the file of that name may be one that can't be read; nothing is told where it always may
    ghost may_fail: { Self → List ℕ → Type 0 } = { λ _ _. Unit {0} };

    /// Reads the whole file of that name, one of a site.
    fn read(&self, name: &str) -> Result<Vec<u8>, FileFault>
        ensures bytes { IfOk result (λ v. IfSome (bytes_of self.now name.now) (λ bytes. v.items ≡ bytes)) }
        ensures err { IfErr result (λ why. why ≡ FileFault.Read → may_fail self.now name.now) };

    /// Reads the whole of a file that belongs beside a site: a certificate, or events.
    fn read_beside(&self, name: &str) -> Result<Vec<u8>, FileFault>
        ensures bytes { IfOk result (λ v. IfSome (bytes_of self.now name.now) (λ bytes. v.items ≡ bytes)) }
        ensures err { IfErr result (λ why. why ≡ FileFault.Read → may_fail self.now name.now) }
    {
        self.read(name)
    }

    /// Opens such a file, at its beginning.
    fn open(&self, name: &str) -> Result<Self::Opened, FileFault>
        ensures bytes { IfOk result (λ s. IfSome (bytes_of self.now name.now) (λ bytes. Self.Opened.remaining s ≡ Some bytes)) }
        ensures err { IfErr result (λ why. why ≡ FileFault.Read → may_fail self.now name.now) };

    /// Why the file of that name can't be read, which is asked once more; nothing where it can be, or where that isn't
    /// known.
    fn reason(&self, _name: &str) -> Option<Reason> {
        None
    }

    /// The directory in which names that aren't absolute are looked for, where it is known.
    fn folder(&self) -> Option<String> {
        None
    }
}

/// Which files of the host are read.
#[derive(Clone, Copy)]
pub enum Kinds {
    /// Regular files alone.
    Regular,
    /// FIFOs, devices and sockets too.
    Any,
}

/// The files of the host.
#[derive(Drop)]
pub struct HostFiles<'a> {
    rt: &'a HostRuntime,
    kinds: Kinds,
}

/// What is read piece by piece: a file, or standard input.
#[derive(Drop)]
pub enum Input {
    File(File),
    Standard(Stdin),
}

impl Read for Input {
    fn read(&mut self, buffer: &mut [u8]) -> io::Result<usize> {
        match self {
            Input::File(file) => file.read(buffer),
            Input::Standard(input) => input.read(buffer),
        }
    }
}

fn fault_of(error: &Error) -> FileFault {
    match error.kind() {
        ErrorKind::OutOfMemory => FileFault::NoMemory,
        _ => FileFault::Read,
    }
}

fn reason_of(error: &Error) -> Reason {
    match error.kind() {
        ErrorKind::NotFound | ErrorKind::NotADirectory => Reason::Missing,
        ErrorKind::PermissionDenied => Reason::Denied,
        ErrorKind::IsADirectory => Reason::Directory,
        _ => Reason::Other,
    }
}

// Why a file isn't opened.
#[derive(Drop)]
enum Unopened {
    // it isn't of a kind that is opened
    Irregular,
    Host(Error),
}

impl Unopened {
    fn fault(&self) -> FileFault {
        match self {
            Unopened::Irregular => FileFault::Read,
            Unopened::Host(error) => fault_of(error),
        }
    }

    fn reason(&self) -> Reason {
        match self {
            Unopened::Irregular => Reason::Irregular,
            Unopened::Host(error) => reason_of(error),
        }
    }
}

impl<'a> HostFiles<'a> {
    pub fn new(rt: &'a HostRuntime, kinds: Kinds) -> HostFiles<'a> {
        HostFiles { rt, kinds }
    }

    // Whether the file of that name is of a kind that is opened: a directory is, and its read fails. It is asked
    // before, since to open a FIFO waits for one that writes.
    fn is_opened(&self, name: &str) -> io::Result<bool> {
        match self.kinds {
            Kinds::Any => Ok(true),
            Kinds::Regular => {
                let found = fs::metadata(self.rt, name)?;
                Ok(found.is_file() || found.is_dir())
            }
        }
    }

    // Opens the file of that name.
    fn file(&self, name: &str) -> Result<File, Unopened> {
        match self.is_opened(name) {
            Ok(true) => {}
            Ok(false) => return Err(Unopened::Irregular),
            Err(error) => return Err(Unopened::Host(error)),
        }
        match File::open(self.rt, name) {
            Ok(file) => Ok(file),
            Err(error) => Err(Unopened::Host(error)),
        }
    }

    // The same, or standard input.
    fn input(&self, name: &str) -> Result<Input, Unopened> {
        if is_standard_input(name) {
            return Ok(Input::Standard(self.rt.stdin()));
        }
        match self.file(name) {
            Ok(file) => Ok(Input::File(file)),
            Err(why) => Err(why),
        }
    }

    // What there is to read, up to so many bytes.
    fn bytes<R: Read + Drop>(&self, input: R, most: u64) -> Result<Vec<u8>, FileFault> {
        let mut bytes = Vec::new(self.rt.alloc());
        match input.take(most).read_to_end(&mut bytes) {
            Ok(_) => Ok(bytes),
            Err(error) => Err(fault_of(&error)),
        }
    }
}

impl Files for HostFiles<'_> {
    type Opened = FromRead<Input>;

    // Of a file that is too long only so much is read as shows that.
    fn read(&self, name: &str) -> Result<Vec<u8>, FileFault> {
        match self.file(name) {
            Ok(file) => self.bytes(file, MOST_BYTES),
            Err(why) => Err(why.fault()),
        }
    }

    fn read_beside(&self, name: &str) -> Result<Vec<u8>, FileFault> {
        match self.input(name) {
            Ok(input) => self.bytes(input, u64::MAX),
            Err(why) => Err(why.fault()),
        }
    }

    fn open(&self, name: &str) -> Result<FromRead<Input>, FileFault> {
        match self.input(name) {
            Ok(input) => Ok(FromRead::new(input)),
            Err(why) => Err(why.fault()),
        }
    }

    fn reason(&self, name: &str) -> Option<Reason> {
        let mut file = match self.file(name) {
            Ok(file) => file,
            Err(why) => return Some(why.reason()),
        };
        match file.read(&mut [0; 1]) {
            Ok(_) => None,
            Err(error) => Some(reason_of(&error)),
        }
    }

    fn folder(&self) -> Option<String> {
        match env::current_dir(self.rt) {
            Ok(folder) => Some(folder.into_string()),
            Err(_) => None,
        }
    }
}
