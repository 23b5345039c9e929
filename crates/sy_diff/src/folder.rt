//! Files that are looked for in the folder of a site file.
ghost use Rattle.std.specs.Prelude.{◌≡◌, ◌++◌, ℕ, List, Option, IfErr, IfOk, string_bytes};
ghost use Rattle.sy_diff.specs.Folders as spec;

use std::alloc::{AllocError, Global};
use sy_report::reading::files::{FileFault, Files, Reason};

/// A file's name as its folder, which ends in `/` or is empty, and its name there.
#[derive(Clone, Copy)]
pub struct Place<'a> {
    pub folder: &'a str,
    pub name: &'a str,
}

/// The folder and the name of a path.
pub fn place_of(path: &str) -> Place<'_>
    ensures { spec.IsPlace path.now result.folder.now result.name.now }
{
    match path.rfind('/') {
        Some(at) => {
            let (folder, name) = path.split_at(at + 1);
            Place { folder, name }
        }
        None => Place {
            folder: "",
            name: path,
        },
    }
}

// Whether a name begins with `/`.
fn is_absolute(name: &str) -> bool
    ensures { result ≡ spec.is_absolute name.now }
{
    match name.as_bytes() {
        [first, ..] => *first == b'/',
        [] => false,
    }
}

// A name of a file in a folder as it is outside.
fn path_in(alloc: Global, folder: &str, name: &str) -> Result<String, AllocError>
    ensures { IfOk result (λ path. string_bytes path ≡ spec.path folder.now name.now) }
{
    if is_absolute(name) {
        return String::from_str(alloc, name);
    }
    match format!(in alloc; "{folder}{name}") {
        Ok(path) => Ok(path),
        Err(_) => Err(AllocError),
    }
}

/// The files of a folder: names that don't begin with `/` are of files in it.
#[derive(Drop)]
pub struct FilesIn<'a, F: Files> {
    pub alloc: Global,
    pub files: &'a F,
    pub folder: &'a str,
}

impl<F: Files> FilesIn<'_, F> {
    // A name as it is looked for outside the folder.
    fn path(&self, name: &str) -> Result<String, FileFault>
        ensures ok { IfOk result (λ path. string_bytes path ≡ spec.path self.now.folder.now name.now) }
        ensures err { IfErr result (λ why. why ≡ FileFault.NoMemory) }
    {
        let Ok(path) = path_in(self.alloc, self.folder, name) else {
            return Err(FileFault::NoMemory);
        };
        Ok(path)
    }
}

impl<F: Files> Files for FilesIn<'_, F> {
    type Opened = F::Opened;

    ghost bytes_of = { λ it name. F.bytes_of it.files.now (spec.path it.folder.now name) };

    ghost may_fail = { λ it name. F.may_fail it.files.now (spec.path it.folder.now name) };

    fn read(&self, name: &str) -> Result<Vec<u8>, FileFault> {
        let path = self.path(name)?;
        self.files.read(path.as_str())
    }

    fn read_beside(&self, name: &str) -> Result<Vec<u8>, FileFault> {
        let path = self.path(name)?;
        self.files.read_beside(path.as_str())
    }

    fn open(&self, name: &str) -> Result<F::Opened, FileFault> {
        let path = self.path(name)?;
        self.files.open(path.as_str())
    }

    fn reason(&self, name: &str) -> Option<Reason> {
        match self.path(name) {
            Ok(path) => self.files.reason(path.as_str()),
            Err(_) => None,
        }
    }

    fn folder(&self) -> Option<String> {
        if self.folder.is_empty() {
            return self.files.folder();
        }
        match String::from_str(self.alloc, self.folder) {
            Ok(folder) => Some(folder),
            Err(_) => None,
        }
    }
}
