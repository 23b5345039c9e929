//! What `--all` says of a fault, behind its first line: the other faults of the site file and of the files of its relays.

use crate::all_of_file::{Bounds, FileSpot, all_of_file};
use crate::all_of_site::{JudgedFile, SiteHunt, find_lines, find_references, leave_out, word_of};
use crate::all_of_tunnels::find_tunnels;
use crate::faults_with_notes::{ReportedFault, push_reported, without};
use std::alloc::{AllocError, Global};
use sy_fault_notes::fault_notes::fault_words;
use sy_fault_notes::site::files::push_unread_relay;
use sy_places::relay_file::places::file_in;
use sy_places::site_file::texts::{RelayText, SiteTexts, Unread};
use sy_report::outcome::halt::Halt;
use sy_report::texts::note::Note;
use sy_report::texts::parts::Part;
use sy_report::texts::words::Words;
use sy_site::{SiteFault, file_names, without_return};

// The first line of a site file that names a file: its number, and the relay's name.
fn line_naming<'t>(text: &'t [u8], file: &str) -> Option<(usize, &'t [u8])> {
    let mut number: usize = 1;
    for line in text.split(|b| *b == b'\n') {
        let line = without_return(line);
        if matches!(file_in(line), Some((_, name)) if name == file.as_bytes()) {
            return Some((number, word_of(line, 1)));
        }
        number = number.saturating_add(1);
    }
    None
}

// Finds that a relay's file can't be read.
fn find_unread(
    alloc: Global,
    site_name: &str,
    spot: FileSpot<'_>,
    unread: Option<&Unread>,
) -> Result<ReportedFault, AllocError> {
    let mut note = Note::new(alloc);
    if let Some(unread) = unread {
        let site = (site_name, spot.line as u64, spot.relay);
        push_unread_relay(alloc, &mut note, site, unread);
    }
    let note = note.finish()?;
    Ok(ReportedFault::new(spot.number, 0, Halt::ReadFailed, note))
}

// Finds the faults of a relay's file, and answers what others may speak of.
fn find_in_text(
    alloc: Global,
    reported: &mut Vec<ReportedFault>,
    bounds: &mut Bounds,
    spot: FileSpot<'_>,
    read: &RelayText,
) -> Result<Option<Vec<u8>>, AllocError> {
    let text = Vec::from_slice(alloc, read.text.as_slice())?;
    let (found, mended) = all_of_file(alloc, spot, text, bounds)?;
    for fault in found {
        reported.push(fault)?;
    }
    Ok(mended)
}

// The same where it could be read; else that is found.
fn find_in_file(
    alloc: Global,
    hunt: &mut SiteHunt<'_>,
    number: u64,
    name: &str,
    read: Result<&RelayText, Option<&Unread>>,
) -> Result<Option<Vec<u8>>, AllocError> {
    let Some((line, relay)) = line_naming(hunt.draft.text(), name) else {
        return Ok(None);
    };
    let spot = FileSpot {
        number,
        name,
        line,
        relay,
    };
    match read {
        Ok(read) => find_in_text(alloc, &mut hunt.found, &mut hunt.bounds, spot, read),
        Err(why) => {
            let unread = find_unread(alloc, hunt.name, spot, why)?;
            hunt.found.push(unread)?;
            Ok(None)
        }
    }
}

// Finds the faults of a relay's file, and answers how others may speak of it.
fn judge_file<'a>(
    alloc: Global,
    texts: &'a SiteTexts<'_>,
    hunt: &mut SiteHunt<'_>,
    number: u64,
    name: String,
) -> Result<JudgedFile<'a>, AllocError> {
    let read = texts.file(name.as_str());
    let given = match read {
        Some(read) => Ok(read),
        None => Err(texts.why_unread(name.as_str())),
    };
    match find_in_file(alloc, hunt, number, name.as_str(), given) {
        Ok(text) => Ok(JudgedFile { name, read, text }),
        Err(why) => Err(why),
    }
}

// Finds the faults of the relays' files.
fn judge_files<'a>(
    alloc: Global,
    texts: &'a SiteTexts<'_>,
    hunt: &mut SiteHunt<'_>,
    names: Vec<String>,
) -> Result<Vec<JudgedFile<'a>>, AllocError> {
    let mut judged = Vec::new(alloc);
    let mut number: u64 = 1;
    for name in names {
        judged.push(judge_file(alloc, texts, hunt, number, name)?)?;
        number = number.saturating_add(1);
    }
    Ok(judged)
}

// The files as they are judged with the site file: of those that too little is known of nothing, and no line that names
// their relays.
fn given_files<'a>(
    alloc: Global,
    hunt: &mut SiteHunt<'_>,
    judged: &'a [JudgedFile<'_>],
) -> Result<Vec<(&'a str, &'a [u8])>, AllocError> {
    let mut given: Vec<(&'a str, &'a [u8])> = Vec::new(alloc);
    for file in judged {
        match &file.text {
            Some(text) => given.push((file.name.as_str(), text.as_slice()))?,
            None => {
                leave_out(alloc, &mut hunt.draft, file.name.as_bytes())?;
                given.push((file.name.as_str(), &[]))?;
            }
        }
    }
    Ok(given)
}

// Finds the faults of a site file and of its relays' files.
fn find_all(
    alloc: Global,
    texts: &SiteTexts<'_>,
    hunt: &mut SiteHunt<'_>,
) -> Result<(), AllocError> {
    if !find_lines(alloc, hunt)? {
        return Ok(());
    }
    let names = match file_names(alloc, hunt.draft.text()) {
        Ok(names) => names,
        Err(SiteFault::NoMemory) => return Err(AllocError),
        Err(_) => return Ok(()),
    };
    let judged = judge_files(alloc, texts, hunt, names)?;
    let given = given_files(alloc, hunt, judged.as_slice())?;
    find_references(alloc, hunt, judged.as_slice(), given.as_slice())?;
    match texts.text() {
        Some(text) => find_tunnels(alloc, hunt, text, judged.as_slice(), given.as_slice()),
        None => Ok(()),
    }
}

// Whether there may be more to find than why a command stopped.
fn has_others(halt: &Halt) -> bool {
    match halt {
        Halt::Site(SiteFault::NoMemory) => false,
        Halt::Site(_) | Halt::ReadFailed => true,
        _ => false,
    }
}

// The lines by which a fault is known among others of the same line: of a failed read, which names no file.
fn note_to_know(alloc: Global, texts: &SiteTexts<'_>, halt: &Halt) -> Result<Vec<u8>, AllocError> {
    match halt {
        Halt::ReadFailed => fault_words(alloc, texts, halt),
        _ => Ok(Vec::new(alloc)),
    }
}

/// Faults that were found, and whether the search for them was ended by a bound.
#[derive(Drop)]
pub struct OtherFaults {
    pub faults: Vec<ReportedFault>,
    /// whether a file has so many faults that no more of it are reported
    pub is_full: bool,
    /// whether a file was read so often, or so much was, that it is read no more
    pub is_spent: bool,
}

// No faults, all having been looked at.
fn no_others(alloc: Global) -> OtherFaults {
    OtherFaults {
        faults: Vec::new(alloc),
        is_full: false,
        is_spent: false,
    }
}

/// The faults beside the one by which a command stopped, in the order of files and places: the site file's, then those of
/// each relay's file. Each of them is one that the reader has at that place.
pub fn other_faults(
    alloc: Global,
    texts: &SiteTexts<'_>,
    halt: &Halt,
) -> Result<OtherFaults, AllocError> {
    if !has_others(halt) {
        return Ok(no_others(alloc));
    }
    let Some(text) = texts.machine_text() else {
        return Ok(no_others(alloc));
    };
    let mut hunt = SiteHunt::new(alloc, texts.name, Vec::from_slice(alloc, text)?)?;
    find_all(alloc, texts, &mut hunt)?;
    let SiteHunt { found, bounds, .. } = hunt;
    let note = note_to_know(alloc, texts, halt)?;
    match without(alloc, found, halt, note.as_slice()) {
        Ok(faults) => Ok(OtherFaults {
            faults,
            is_full: bounds.is_full,
            is_spent: bounds.is_spent,
        }),
        Err(why) => Err(why),
    }
}

// Says by which bounds a search was ended.
fn push_bounds(words: &mut Words, others: &OtherFaults) {
    if others.is_full {
        words.say("syc: there may be more faults: at most 64 of a file are reported\n");
    }
    if others.is_spent {
        words.say("syc: there may be more faults: files were read again as often as they may be\n");
    }
}

/// The lines behind the first one on standard error: of that fault, where it is to be explained, and of the others; and by
/// which bounds their search was ended.
pub fn all_fault_words(
    alloc: Global,
    texts: &SiteTexts<'_>,
    is_explained: bool,
    halt: &Halt,
) -> Result<Vec<u8>, AllocError> {
    let mut words = Words::new(alloc);
    if is_explained {
        let first = fault_words(alloc, texts, halt)?;
        words.append(&[Part::Text(first.as_slice())]);
    }
    let others = other_faults(alloc, texts, halt)?;
    for fault in others.faults.as_slice() {
        push_reported(alloc, &mut words, fault, is_explained)?;
    }
    push_bounds(&mut words, &others);
    words.finish()
}
