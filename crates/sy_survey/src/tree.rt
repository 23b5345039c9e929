//! The files of a host, by the patterns of their names.
ghost use Rattle.std.specs.Prelude.{IfOk, IfSome};
ghost use Rattle.sy_survey.specs.Together as spec;

use crate::folders::Folders;
use crate::globs::{is_pattern, matches};
use std::alloc::{AllocError, Global};
use std::str;
use sy_report::reading::files::{FileFault, Files};

/// A file of a configuration: its name, and its text.
#[derive(Drop)]
pub(crate) struct Source {
    pub name: String,
    pub text: Vec<u8>,
}

/// The files that may be read, and the folders that they lie in.
#[derive(Drop)]
pub struct Tree<'a, F: Files, D: Folders> {
    pub files: &'a F,
    pub folders: &'a D,
}

// The path below a root of a pattern's file or folder.
fn path_below(alloc: Global, root: &str, name: &[u8]) -> Result<Option<String>, AllocError> {
    let Ok(name) = str::from_utf8(name) else {
        return Ok(None);
    };
    let mut path = String::from_str(alloc, root)?;
    path.push_str(name)?;
    Ok(Some(path))
}

// The names that a pattern matches, in the order of their bytes.
fn matched(alloc: Global, names: Vec<String>, pattern: &[u8]) -> Result<Vec<String>, AllocError> {
    let mut found: Vec<String> = Vec::new(alloc);
    for name in names {
        if matches(alloc, pattern, name.as_bytes())? {
            found.push(name)?;
        }
    }
    found.as_mut_slice().sort(alloc)?;
    Ok(found)
}

// A pattern's folder, with the slash behind it, and what stands behind that.
fn parts_of(pattern: &[u8]) -> (&[u8], &[u8]) {
    let mut behind = 0;
    for at in 0..pattern.len() {
        if pattern[at] == b'/' {
            behind = at + 1;
        }
    }
    (
        pattern.get(..behind).unwrap_or(&[]),
        pattern.get(behind..).unwrap_or(&[]),
    )
}

impl<F: Files, D: Folders> Tree<'_, F, D> {
    // The file of a name; nothing where it can't be read.
    fn file(&self, alloc: Global, path: &str) -> Result<Option<Source>, AllocError>
        ensures { IfOk result (λ found. IfSome found (λ it. spec.IsFile F.bytes_of self.entry.now.files.now it)) }
    {
        match self.files.read(path) {
            Ok(text) => Ok(Some(Source {
                name: String::from_str(alloc, path)?,
                text,
            })),
            Err(FileFault::Read) => Ok(None),
            Err(FileFault::NoMemory) => Err(AllocError),
        }
    }

    // The files of a folder that a pattern matches; nothing where one of them can't be read.
    fn files_in(
        &self,
        alloc: Global,
        folder: &str,
        names: Vec<String>,
        pattern: &[u8],
    ) -> Result<Option<Vec<Source>>, AllocError>
        ensures { IfOk result (λ found. IfSome found (λ it. spec.AreRead F.bytes_of self.entry.now.files.now it.items)) }
    {
        let mut found = Vec::new(alloc);
        for name in matched(alloc, names, pattern)? {
            let mut path = String::from_str(alloc, folder)?;
            if !folder.ends_with('/') {
                path.push('/')?;
            }
            path.push_str(name.as_str())?;
            match self.file(alloc, path.as_str())? {
                Some(source) => found.push(source)?,
                None => return Ok(None),
            }
        }
        Ok(Some(found))
    }

    // The files that a name or a folder without a pattern is of.
    fn files_at(
        &self,
        alloc: Global,
        root: &str,
        name: &[u8],
    ) -> Result<Option<Vec<Source>>, AllocError>
        ensures { IfOk result (λ found. IfSome found (λ it. spec.AreRead F.bytes_of self.entry.now.files.now it.items)) }
    {
        let Some(path) = path_below(alloc, root, name)? else {
            return Ok(None);
        };
        if let Some(names) = self.folders.names(path.as_str())? {
            return self.files_in(alloc, path.as_str(), names, b"*");
        }
        match self.file(alloc, path.as_str())? {
            Some(source) => {
                let mut found = Vec::new(alloc);
                found.push(source)?;
                Ok(Some(found))
            }
            None => Ok(None),
        }
    }

    /// The files below a root that are read in the place of a statement that has this pattern; nothing where they aren't known: a name
    /// that isn't absolute, a pattern in the name of a folder, what isn't there and what can't be read.
    pub(crate) fn included(
        &self,
        alloc: Global,
        root: &str,
        pattern: &[u8],
    ) -> Result<Option<Vec<Source>>, AllocError>
        ensures { IfOk result (λ found. IfSome found (λ it. spec.AreRead F.bytes_of self.entry.now.files.now it.items)) }
    {
        let (folder, last) = parts_of(pattern);
        if !pattern.starts_with(b"/") || is_pattern(folder) {
            return Ok(None);
        }
        if !is_pattern(last) {
            return self.files_at(alloc, root, pattern);
        }
        let Some(path) = path_below(alloc, root, folder)? else {
            return Ok(None);
        };
        match self.folders.names(path.as_str())? {
            Some(names) => self.files_in(alloc, path.as_str(), names, last),
            None => Ok(None),
        }
    }
}
