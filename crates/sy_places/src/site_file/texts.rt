//! The texts of a command's files: those of a site file, of the files of its relays, and of the file beside a site's. They are
//! read once, however much is said of them, and lent from then on. A script is read from its text where it is wanted, since
//! those of all relays would take more memory than the site does.

ghost use Rattle.std.specs.Prelude.{◌≡◌};
ghost use Rattle.sy_host_parameters.specs.HostParameters.{machine_or};

use crate::relay_file::places::{file_name_in, is_relay_line};
use crate::site_file::source::text_of;
use std::alloc::{AllocError, Global};
use sy_host_parameters::machine_text;
use sy_report::reading::files::{FileFault, Files, Reason, is_standard_input};
use sy_script::tree::Script;
use sy_script::{FaultCode, read_script};
use sy_site::without_return;

/// The text of a relay's file as it was read, with its name as the site file writes it, and as its plan is read from it, where
/// that is another: there blanks stand in the place of parameters for the host.
#[derive(Drop)]
pub struct RelayText {
    pub name: String,
    pub text: Vec<u8>,
    pub machine: Option<Vec<u8>>,
}

impl RelayText {
    /// The text that the relay's plan is read from.
    pub fn machine_text(&self) -> &[u8]
        ensures { result.now ≡ machine_or self.now.text.items self.now.machine }
    {
        match &self.machine {
            Some(machine) => machine.as_slice(),
            None => self.text.as_slice(),
        }
    }
}

/// A relay's file: its name as the site file writes it, its bytes, and its plan's script, where it has one.
#[derive(Drop)]
pub struct RelayFile<'a> {
    pub name: &'a str,
    pub text: &'a [u8],
    pub script: Option<Script>,
}

/// Why a file can't be read and, where it isn't there, the directory in which its name was looked for.
#[derive(Drop)]
pub struct Unread {
    pub name: String,
    pub reason: Reason,
    pub folder: Option<String>,
}

/// The file beside a site's, of events or a certificate: its name, and its bytes where they were read.
#[derive(Drop)]
struct Second<'a> {
    name: &'a str,
    text: Option<Vec<u8>>,
}

/// The text of a site file as it was read, and as its machine is read from it: there each tunnel line is a comment.
#[derive(Drop)]
pub struct SiteText {
    pub text: Vec<u8>,
    pub machine: Vec<u8>,
}

/// The texts of a command's files, as far as they were read.
#[derive(Drop)]
pub struct SiteTexts<'a> {
    /// The name of the site file.
    pub name: &'a str,
    text: Option<SiteText>,
    // the relays' files, in the order in which the site file names them first
    files: Vec<RelayText>,
    // the place of each relay's file among these, where it has one
    relays: Vec<Option<usize>>,
    unread: Vec<Unread>,
    second: Option<Second<'a>>,
}

impl<'a> SiteTexts<'a> {
    /// The texts of a site file of this name, and of the files that it names.
    pub fn new(
        alloc: Global,
        name: &'a str,
        text: Option<SiteText>,
        files: Vec<RelayText>,
    ) -> SiteTexts<'a> {
        SiteTexts {
            name,
            text,
            files,
            relays: Vec::new(alloc),
            unread: Vec::new(alloc),
            second: None,
        }
    }

    /// None of the texts of a site file of this name.
    pub fn empty(alloc: Global, name: &'a str) -> SiteTexts<'a> {
        SiteTexts::new(alloc, name, None, Vec::new(alloc))
    }

    /// The text of the site file, as it was read.
    pub fn text(&self) -> Option<&[u8]> {
        match &self.text {
            Some(found) => Some(found.text.as_slice()),
            None => None,
        }
    }

    /// The text of the site file that its machine is read from: the same, with each tunnel line as a comment.
    pub fn machine_text(&self) -> Option<&[u8]> {
        match &self.text {
            Some(found) => Some(found.machine.as_slice()),
            None => None,
        }
    }

    /// The text of the file of this name that the site file names.
    pub fn file(&self, name: &str) -> Option<&RelayText> {
        self.files.iter().find(|file| file.name.as_str() == name)
    }

    /// The text of the file of a relay by its number.
    pub fn relay_text(&self, relay: u32) -> Option<&RelayText> {
        match self.relays.as_slice().get(relay as usize) {
            Some(Some(at)) => self.files.as_slice().get(*at),
            _ => None,
        }
    }

    /// Why the file of this name couldn't be read; nothing where it was, or where that isn't known.
    pub fn why_unread(&self, name: &str) -> Option<&Unread> {
        self.unread.iter().find(|file| file.name.as_str() == name)
    }

    /// The name of the file beside a site's, where the command has one.
    pub fn second_name(&self) -> Option<&'a str> {
        match &self.second {
            Some(second) => Some(second.name),
            None => None,
        }
    }

    /// The bytes of the file beside a site's.
    pub fn second_text(&self) -> Option<&[u8]> {
        match &self.second {
            Some(
                Second {
                    text: Some(text),
                    ..
                },
            ) => Some(text.as_slice()),
            _ => None,
        }
    }

    /// Sets the file beside a site's, with its bytes where they were read.
    pub fn set_second(&mut self, name: &'a str, text: Option<Vec<u8>>) {
        self.second = Some(Second { name, text });
    }
}

// The script that a text is, where it is one.
fn script_of(alloc: Global, text: &[u8]) -> Result<Option<Script>, AllocError> {
    match read_script(alloc, text) {
        Ok(script) => Ok(Some(script)),
        Err(fault) => match fault.code {
            FaultCode::NoMemory => Err(AllocError),
            _ => Ok(None),
        },
    }
}

/// A relay's file by its text, where there is one.
pub fn relay_file<'a>(
    alloc: Global,
    text: Option<&'a RelayText>,
) -> Result<Option<RelayFile<'a>>, AllocError> {
    let Some(found) = text else {
        return Ok(None);
    };
    match script_of(alloc, found.machine_text()) {
        Ok(script) => Ok(Some(RelayFile {
            name: found.name.as_str(),
            text: found.text.as_slice(),
            script,
        })),
        Err(why) => Err(why),
    }
}

// Notes why a file can't be read, where that is known.
fn note_unread<F: Files>(
    alloc: Global,
    files: &F,
    name: &str,
    unread: &mut Vec<Unread>,
) -> Result<(), AllocError> {
    let Some(reason) = files.reason(name) else {
        return Ok(());
    };
    let is_looked_for = matches!(reason, Reason::Missing) && name.as_bytes().first() != Some(&b'/');
    let folder = if is_looked_for { files.folder() } else { None };
    let name = String::from_str(alloc, name)?;
    unread.push(Unread {
        name,
        reason,
        folder,
    })?;
    Ok(())
}

// The place of a file among those that were read, which it mostly is next.
fn place_of(files: &[RelayText], next: usize, name: &str) -> Option<usize> {
    let is_it = |file: &RelayText| file.name.as_str() == name;
    match files.get(next) {
        Some(file) if is_it(file) => Some(next),
        _ => files.iter().position(is_it),
    }
}

// The place of a relay's file among those that were read, where it can be read now if it wasn't.
fn place_or_read<F: Files>(
    alloc: Global,
    files: &F,
    texts: &mut SiteTexts<'_>,
    name: &str,
) -> Result<Option<usize>, AllocError> {
    let next = match texts.relays.as_slice() {
        [.., Some(last)] => last.saturating_add(1),
        _ => texts.relays.len(),
    };
    let found = place_of(texts.files.as_slice(), next, name);
    if found.is_some() || texts.why_unread(name).is_some() {
        return Ok(found);
    }
    match text_of(files, name)? {
        Some(text) => {
            let name = String::from_str(alloc, name)?;
            let machine = machine_text(alloc, text.as_slice())?;
            texts.files.push(RelayText {
                name,
                text,
                machine,
            })?;
            Ok(Some(texts.files.len() - 1))
        }
        None => {
            note_unread(alloc, files, name, &mut texts.unread)?;
            Ok(None)
        }
    }
}

// Reads the files that the relay lines of a site file name, but for those that were read, and notes which is whose.
fn read_relay_lines<F: Files>(
    alloc: Global,
    files: &F,
    texts: &mut SiteTexts<'_>,
    site_text: &[u8],
) -> Result<(), AllocError> {
    for line in site_text.split(|b| *b == b'\n') {
        let line = without_return(line);
        if is_relay_line(line) {
            let place = match file_name_in(line) {
                Some(name) => place_or_read(alloc, files, texts, name)?,
                None => None,
            };
            texts.relays.push(place)?;
        }
    }
    Ok(())
}

// A text without the byte order mark before its first line, after which `--all` goes on.
fn without_mark(text: &[u8]) -> &[u8] {
    match text {
        [0xef, 0xbb, 0xbf, rest @ ..] => rest,
        _ => text,
    }
}

/// Reads what words on a site ask for beyond the site: the files that were not read as an earlier one wasn't, or as the site
/// file is faulty; why a file can't be read; and which file is whose.
pub fn read_rest<F: Files>(
    alloc: Global,
    files: &F,
    texts: &mut SiteTexts<'_>,
) -> Result<(), AllocError> {
    match texts.text.take() {
        Some(found) => {
            let site_text = without_mark(found.text.as_slice());
            let read = read_relay_lines(alloc, files, texts, site_text);
            texts.text = Some(found);
            read
        }
        None => note_unread(alloc, files, texts.name, &mut texts.unread),
    }
}

// The bytes of the file beside a site's, where it can be read.
fn second_of<F: Files>(files: &F, name: &str) -> Result<Option<Vec<u8>>, AllocError> {
    match files.read_beside(name) {
        Ok(bytes) => Ok(Some(bytes)),
        Err(FileFault::Read) => Ok(None),
        Err(FileFault::NoMemory) => Err(AllocError),
    }
}

/// Reads the file beside a site's anew, or notes why it can't be read. Standard input can't be read twice.
pub fn read_second<'a, F: Files>(
    alloc: Global,
    files: &F,
    texts: &mut SiteTexts<'a>,
    name: &'a str,
) -> Result<(), AllocError> {
    if is_standard_input(name) {
        return Ok(());
    }
    let text = second_of(files, name)?;
    if text.is_none() {
        note_unread(alloc, files, name, &mut texts.unread)?;
    }
    texts.set_second(name, text);
    Ok(())
}
