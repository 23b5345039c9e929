//! All faults of the lines of a site file that can be found without guessing.

use crate::all_of_file::{Bounds, MOST_REREAD};
use crate::faults_with_notes::ReportedFault;
use crate::mending::mended_text::Draft;
use std::alloc::{AllocError, Global};
use sy_fault_notes::fault_note::{faulty_line, file_meant, push_site_fault};
use sy_fault_notes::file_line::FileLine;
use sy_fault_notes::site::spare::{first_line, sets_policy};
use sy_places::relay_file::places::file_in;
use sy_places::site_file::source::{line_at, place_of_line, word_in};
use sy_places::site_file::texts::RelayText;
use sy_report::outcome::halt::Halt;
use sy_report::texts::note::Note;
use sy_site::{Site, SiteFault, without_return};

/// The most faults of a site file that are told.
pub const MOST_FAULTS: usize = 64;

/// The most bytes of a site file.
const MOST_BYTES: usize = 1_048_576;

/// The most bytes that are read, over all readings of the files.
const MOST_READ: usize = 67_108_864;

/// A site file of which faulty lines are taken away.
#[derive(Drop)]
pub struct SiteHunt<'a> {
    pub name: &'a str,
    pub draft: Draft,
    pub found: Vec<ReportedFault>,
    pub bounds: Bounds,
    // whether a fault was told that leaves open which policy the site has
    is_policy_open: bool,
}

impl<'a> SiteHunt<'a> {
    /// The site file of a name, with its text.
    pub fn new(alloc: Global, name: &'a str, text: Vec<u8>) -> Result<SiteHunt<'a>, AllocError> {
        Ok(SiteHunt {
            name,
            draft: Draft::new(alloc, text)?,
            found: Vec::new(alloc),
            bounds: Bounds {
                left: MOST_REREAD,
                is_full: false,
                is_spent: false,
            },
            is_policy_open: false,
        })
    }
}

/// A relay's file: as it could be read, and its text so far as others may speak of it, which is without what is faulty.
#[derive(Drop)]
pub struct JudgedFile<'a> {
    pub name: String,
    pub read: Option<&'a RelayText>,
    pub text: Option<Vec<u8>>,
}

/// A word of a line, empty where there is none.
pub fn word_of(line: &[u8], number: usize) -> &[u8] {
    match word_in(line, number) {
        Some((_, word)) => word,
        None => &[],
    }
}

fn line_of(text: &[u8], number: usize) -> &[u8] {
    match line_at(text, number as u64) {
        Some(line) => without_return(line),
        None => &[],
    }
}

// Takes a line away.
fn cut_line(draft: &mut Draft, number: usize) -> Result<(), AllocError> {
    let size = line_of(draft.text(), number).len();
    let start = place_of_line(draft.text(), number as u64);
    draft.cut(start, start.saturating_add(size))
}

// The lines from a number on that one of two words begins.
fn lines_of(
    alloc: Global,
    text: &[u8],
    from: usize,
    words: [&[u8]; 2],
) -> Result<Vec<usize>, AllocError> {
    let mut numbers = Vec::new(alloc);
    let mut number: usize = 1;
    for line in text.split(|b| *b == b'\n') {
        let first = word_of(without_return(line), 0);
        if number >= from && words.contains(&first) {
            numbers.push(number)?;
        }
        number = number.saturating_add(1);
    }
    Ok(numbers)
}

fn cut_lines(draft: &mut Draft, numbers: &[usize]) -> Result<(), AllocError> {
    for number in numbers {
        cut_line(draft, *number)?;
    }
    Ok(())
}

// The file that is spoken of with a fault of a line, as it was read.
fn file_with<'a>(
    judged: &[JudgedFile<'a>],
    at: FileLine<'_>,
    fault: &SiteFault,
) -> Option<&'a RelayText> {
    let name = file_meant(at, fault)?;
    for file in judged {
        if file.name.as_str() == name {
            return file.read;
        }
    }
    None
}

/// The note of a fault of a line of that text. The files are those that it may speak of.
pub fn note_of(
    alloc: Global,
    name: &str,
    text: &[u8],
    judged: &[JudgedFile<'_>],
    fault: &SiteFault,
) -> Result<Note, AllocError> {
    let at = faulty_line(name, text, fault);
    let mut note = Note::new(alloc);
    push_site_fault(alloc, &mut note, at, file_with(judged, at, fault), fault)?;
    note.finish()
}

// Puts a fault of a line behind the others.
fn push_fault(
    alloc: Global,
    hunt: &mut SiteHunt<'_>,
    judged: &[JudgedFile<'_>],
    line: usize,
    fault: SiteFault,
) -> Result<(), AllocError> {
    let note = note_of(alloc, hunt.name, hunt.draft.text(), judged, &fault)?;
    hunt.found.push(ReportedFault::new(0, line as u64, Halt::Site(fault), note))?;
    Ok(())
}

// ---- lines by themselves

// Whether the first line that isn't skipped is this one.
fn is_first(text: &[u8], number: usize) -> bool {
    matches!(first_line(text), Some((first, _)) if first == number as u64)
}

// Whether a text begins with `policy 2`.
fn has_policy(text: &[u8]) -> bool {
    matches!(first_line(text), Some((_, line)) if sets_policy(line))
}

// The most lines that a word begins.
fn most_of(word: &[u8]) -> usize {
    if word == b"relay".as_slice() { 64 } else { 256 }
}

fn is_known(word: &[u8]) -> bool {
    matches!(
        word,
        b"relay" | b"entry" | b"protect" | b"spare" | b"outside"
    )
}

// Takes away what is at the head of a text before its first line, and answers whether that is all that is wrong there.
fn cut_mark(draft: &mut Draft) -> Result<bool, AllocError> {
    let has_mark = draft.text().starts_with(&[0xef, 0xbb, 0xbf]);
    if has_mark {
        draft.cut(0, 3)?;
    }
    Ok(has_mark)
}

// Takes a line away that is none, with all others that are so for the same cause. It answers whether that is told already.
fn cut_faulty(alloc: Global, hunt: &mut SiteHunt<'_>, number: usize) -> Result<bool, AllocError> {
    let text = hunt.draft.text();
    let word = word_of(line_of(text, number), 0);
    let is_policy = word == b"policy".as_slice() || word == b"spare".as_slice();
    if is_policy && (!has_policy(text) || is_first(text, number)) {
        let is_reported = hunt.is_policy_open;
        let lines = lines_of(alloc, text, 1, [b"policy", b"spare"])?;
        hunt.is_policy_open = true;
        cut_lines(&mut hunt.draft, lines.as_slice())?;
        return Ok(is_reported);
    }
    hunt.is_policy_open = hunt.is_policy_open || (is_first(text, number) && !is_known(word));
    let same = lines_of(alloc, text, 1, [word, word])?;
    let earlier = same
        .as_slice()
        .iter()
        .filter(|other| **other < number)
        .count();
    if is_known(word) && earlier >= most_of(word) {
        let lines = lines_of(alloc, text, number, [word, word])?;
        cut_lines(&mut hunt.draft, lines.as_slice())?;
    } else {
        cut_line(&mut hunt.draft, number)?;
    }
    Ok(false)
}

// Tells of a line that is none, and takes it away. It answers whether the reading goes on.
fn meet_line(alloc: Global, hunt: &mut SiteHunt<'_>, number: usize) -> Result<bool, AllocError> {
    let text = hunt.draft.text();
    let is_utf16 = text.starts_with(&[0xff, 0xfe]) || text.starts_with(&[0xfe, 0xff]);
    let ends = text.len() > MOST_BYTES || is_utf16;
    let reported = note_of(alloc, hunt.name, text, &[], &SiteFault::Line(number))?;
    let is_reported = if ends || (number == 1 && cut_mark(&mut hunt.draft)?) {
        false
    } else {
        cut_faulty(alloc, hunt, number)?
    };
    if !is_reported {
        let halt = Halt::Site(SiteFault::Line(number));
        hunt.found
            .push(ReportedFault::new(0, number as u64, halt, reported))?;
    }
    Ok(!ends)
}

// Judges the lines once. It answers whether there may be more to find.
fn judge_lines(alloc: Global, hunt: &mut SiteHunt<'_>) -> Result<bool, AllocError> {
    match Site::read(alloc, hunt.draft.text(), &[]) {
        Err(SiteFault::Line(number)) => meet_line(alloc, hunt, number),
        Err(SiteFault::Duplicate(number)) => {
            push_fault(alloc, hunt, &[], number, SiteFault::Duplicate(number))?;
            cut_line(&mut hunt.draft, number)?;
            Ok(true)
        }
        Err(SiteFault::NoMemory) => Err(AllocError),
        _ => Ok(false),
    }
}

/// Finds the faults of lines by themselves, and answers whether all lines that are left have none.
pub fn find_lines(alloc: Global, hunt: &mut SiteHunt<'_>) -> Result<bool, AllocError> {
    for _ in 0..MOST_FAULTS.saturating_add(2) {
        if !judge_lines(alloc, hunt)? {
            return Ok(hunt.draft.text().len() <= MOST_BYTES);
        }
        if hunt.found.len() >= MOST_FAULTS {
            hunt.bounds.is_full = true;
            return Ok(false);
        }
    }
    hunt.bounds.is_spent = true;
    Ok(false)
}

// ---- what lines name

// The number of the word in a line that names a relay.
fn place_of_relay(line: &[u8]) -> usize {
    if word_of(line, 0) == b"protect".as_slice() {
        2
    } else {
        1
    }
}

// The names of the relays of a file.
fn relays_of<'t>(alloc: Global, text: &'t [u8], file: &[u8]) -> Result<Vec<&'t [u8]>, AllocError> {
    let mut names = Vec::new(alloc);
    for line in text.split(|b| *b == b'\n') {
        let line = without_return(line);
        if matches!(file_in(line), Some((_, name)) if name == file) {
            names.push(word_of(line, 1))?;
        }
    }
    Ok(names)
}

// The numbers of the lines that name one of some relays, but for those that set these up.
fn lines_naming(alloc: Global, text: &[u8], relays: &[&[u8]]) -> Result<Vec<usize>, AllocError> {
    let mut numbers = Vec::new(alloc);
    let mut number: usize = 1;
    for line in text.split(|b| *b == b'\n') {
        let line = without_return(line);
        let is_other = word_of(line, 0) != b"relay".as_slice();
        let name = word_of(line, place_of_relay(line));
        if is_other && relays.iter().any(|relay| *relay == name) {
            numbers.push(number)?;
        }
        number = number.saturating_add(1);
    }
    Ok(numbers)
}

// The numbers of the lines that name relays of a file.
fn lines_of_file(alloc: Global, text: &[u8], file: &[u8]) -> Result<Vec<usize>, AllocError> {
    let relays = relays_of(alloc, text, file)?;
    lines_naming(alloc, text, relays.as_slice())
}

/// Takes away the lines that name relays of a file of which too little is known to judge them.
pub fn leave_out(alloc: Global, draft: &mut Draft, file: &[u8]) -> Result<(), AllocError> {
    let lines = lines_of_file(alloc, draft.text(), file)?;
    cut_lines(draft, lines.as_slice())
}

// Whether what a line names was named by another line that has a fault for that.
fn is_named_before(hunt: &SiteHunt<'_>, line: &[u8], is_relay: bool) -> bool {
    let place = place_of_relay(line);
    let relay = word_of(line, place);
    let part = if is_relay {
        relay
    } else {
        word_of(line, place.saturating_add(1))
    };
    hunt.draft.held_words(relay, part)
}

// Tells of a line that names what isn't there, and takes it away.
fn meet_reference(
    alloc: Global,
    hunt: &mut SiteHunt<'_>,
    judged: &[JudgedFile<'_>],
    number: usize,
    fault: SiteFault,
) -> Result<(), AllocError> {
    let line = line_of(hunt.draft.text(), number);
    let is_relay = matches!(fault, SiteFault::Line(_));
    if !is_named_before(hunt, line, is_relay) {
        push_fault(alloc, hunt, judged, number, fault)?;
    }
    cut_line(&mut hunt.draft, number)
}

// Judges once what the lines name. It answers whether there may be more to find.
fn judge_references(
    alloc: Global,
    hunt: &mut SiteHunt<'_>,
    judged: &[JudgedFile<'_>],
    given: &[(&str, &[u8])],
) -> Result<bool, AllocError> {
    let Err(fault) = Site::read(alloc, hunt.draft.text(), given) else {
        return Ok(false);
    };
    match fault {
        SiteFault::Line(number)
        | SiteFault::NoSuchEntry(number)
        | SiteFault::NoSuchArchive(number)
        | SiteFault::NoSuchAction(number)
        | SiteFault::SpareArchive(number) => {
            meet_reference(alloc, hunt, judged, number, fault)?;
            Ok(true)
        }
        SiteFault::NothingProtected if hunt.draft.is_whole() => {
            push_fault(alloc, hunt, judged, 1, SiteFault::NothingProtected)?;
            Ok(false)
        }
        SiteFault::NoMemory => Err(AllocError),
        _ => Ok(false),
    }
}

// How often files of so many bytes are read at most.
fn most_reads(given: &[(&str, &[u8])]) -> usize {
    let mut size: usize = 1;
    for (_, bytes) in given {
        size = size.saturating_add(bytes.len());
    }
    match MOST_READ.checked_div(size) {
        Some(count) => count.min(MOST_FAULTS),
        None => 0,
    }
}

/// Finds the faults of lines that name what isn't there, in a site whose relays have these files: as they were read, and
/// as they are given to the reader.
pub fn find_references(
    alloc: Global,
    hunt: &mut SiteHunt<'_>,
    judged: &[JudgedFile<'_>],
    given: &[(&str, &[u8])],
) -> Result<(), AllocError> {
    for _ in 0..most_reads(given) {
        if !judge_references(alloc, hunt, judged, given)? {
            return Ok(());
        }
    }
    hunt.bounds.is_spent = true;
    Ok(())
}
