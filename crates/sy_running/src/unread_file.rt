//! The files for frames that carry no message, opened as a relay starts.

use crate::explaining::{print_words, texts_of};
use crate::start_notes::{lines_of, note_at, push_folder};
use std::alloc::AllocError;
use std::str;
use std::sync::Arc;
use sy_log::log::{ActionLog, Log};
use sy_log::unread_names::UnreadNames;
use sy_outlets::devices::opening::Signals;
use sy_outlets::rotation::lines::refusal_text;
use sy_outlets::rotation::opened::Refusal;
use sy_outlets::unread_file::UnreadFile;
use sy_places::relay_file::places::Thing;
use sy_report::outcome::report::report_texts;
use sy_report::outcome::stop;
use sy_report::reading::files::{Files, HostFiles, Kinds};
use sy_report::texts::note::Note;
use sy_report::texts::parts::{Part, append_parts};
use sy_report::texts::reason::Reason;
use sy_site::Site;
use sy_wire::Sink;

/// The unread files that are to be opened, and for whom.
#[derive(Clone, Copy)]
pub struct UnreadWanted<'a, 'b> {
    pub site: &'a Site,
    pub relay: u32,
    /// the relay's name
    pub name: &'a [u8],
    pub files: &'b UnreadNames<'a>,
    /// whether the first of them is given on the command line
    pub is_given: bool,
    /// the name of the site file, where a fault of the start is explained
    pub explained: Option<&'a str>,
}

impl UnreadWanted<'_, '_> {
    // Whether the file of this number is given on the command line.
    fn is_of_command_line(&self, file: usize) -> bool {
        self.is_given && file == 0
    }

    // The first input that names the file of this number.
    fn input_of(&self, file: usize) -> u32 {
        let mut number: u32 = 0;
        for of_input in &self.files.of_inputs {
            if *of_input == Some(file) {
                return number;
            }
            number = number.saturating_add(1);
        }
        number
    }
}

/// What a relay notes to, and what asks for its files to be opened anew.
#[derive(Clone, Copy)]
pub struct Noting<'a> {
    pub log: &'a Arc<Log>,
    pub signals: &'a Signals,
}

fn report<E: Sink>(errors: &mut E, name: &[u8], words: &[u8]) {
    report_texts(errors, &[b"syc: unread file ", name, b": ", words, b"\n"]);
}

// Says how many bytes of a part of a record were cut off.
fn report_cut<E: Sink>(rt: &HostRuntime, errors: &mut E, name: &[u8], cut: u64) {
    let mut words = Vec::new(rt.alloc());
    let parts = [
        Part::Text(b"cut off a part of a record at its end, "),
        Part::Number(cut),
        Part::Text(b" bytes"),
    ];
    match append_parts(&mut words, &parts) {
        Ok(()) => report(errors, name, words.as_slice()),
        Err(_) => report(errors, name, b"cut off a part of a record at its end"),
    }
}

// What is to be changed where a file can't be opened.
fn change_for(why: Refusal) -> &'static str {
    match why {
        Refusal::NoFolder => "make that folder, or another name",
        Refusal::NoFrames => "the name of an unread file, or of one that isn't there,",
        Refusal::NoName => "a name in UTF-8",
        Refusal::Twice => "the same name for it everywhere, or another file",
        Refusal::NotRegular => "the name of a file",
        Refusal::Locked => "the name of another file",
        Refusal::Host(_) => {
            "let the user that starts syc write it (StateDirectory= or ReadWritePaths= of a unit), or another name"
        }
    }
}

// A note of where the file of this number is named, and where a change belongs.
fn note_of(
    rt: &HostRuntime,
    wanted: UnreadWanted<'_, '_>,
    file: usize,
    site_file: &str,
    name: &[u8],
) -> Result<(Note, &'static str), AllocError> {
    let alloc = rt.alloc();
    if wanted.is_of_command_line(file) {
        let mut note = Note::new(alloc);
        note.what.say("the command line: --unread ");
        note.what.append(&[Part::Text(name)]);
        return Ok((note, " on the command line"));
    }
    let texts = texts_of(alloc, &HostFiles::new(rt, Kinds::Regular), site_file)?;
    let input = Thing::Input(wanted.input_of(file));
    let note = note_at(alloc, &texts, wanted.site, wanted.relay, input)?;
    Ok((note, " in that line"))
}

// What is said of the file of this number that can't be opened.
fn refused_words(
    rt: &HostRuntime,
    wanted: UnreadWanted<'_, '_>,
    file: usize,
    site_file: &str,
    why: Refusal,
) -> Result<Vec<u8>, AllocError> {
    let alloc = rt.alloc();
    let name: &[u8] = match wanted.files.names.get(file) {
        Some(name) => name,
        None => b"",
    };
    let (mut note, place) = note_of(rt, wanted, file, site_file, name)?;
    let words = refusal_text(alloc, why)?;
    note.why.append(&[
        Part::Text(name),
        Part::Text(b": "),
        Part::Text(words.as_slice()),
    ]);
    if let Refusal::NoFolder = why {
        if let Some(folder) = HostFiles::new(rt, Kinds::Regular).folder() {
            push_folder(&mut note.why, name, Some(folder.as_str()));
        }
    }
    note.change.say(change_for(why));
    note.change.say(place);
    lines_of(alloc, &note)
}

// Tells why the file of this number can't be opened, explained where that is asked for, and answers the exit status.
fn refuse<E: Sink>(
    rt: &HostRuntime,
    wanted: UnreadWanted<'_, '_>,
    log: &Log,
    file: usize,
    why: Refusal,
    errors: &mut E,
) -> u8 {
    let (Ok(words), false) = (
        refusal_text(rt.alloc(), why),
        matches!(why, Refusal::Host(Reason::NoMemory)),
    ) else {
        return stop::out_of_memory(errors);
    };
    report(errors, log.unread_name(file), words.as_slice());
    if let Some(site_file) = wanted.explained {
        print_words(errors, refused_words(rt, wanted, file, site_file, why));
    }
    4
}

// Opens the file of this number and name, which notes in the log whether it fails, unless it is one of those that are open.
fn open(
    rt: &HostRuntime,
    relay: &[u8],
    noting: Noting<'_>,
    file: usize,
    name: &[u8],
    opened: &[UnreadFile],
) -> Result<(UnreadFile, u64), Refusal> {
    let Ok(name) = str::from_utf8(name) else {
        return Err(Refusal::NoName);
    };
    let alloc = rt.alloc();
    let Ok(noted) = ActionLog::new(alloc, noting.log, noting.log.unread_subject(file)) else {
        return Err(Refusal::Host(Reason::NoMemory));
    };
    let (new, cut) = UnreadFile::open(*rt, alloc, name, relay, noting.signals, noted)?;
    for other in opened {
        if other.is_same(&new) {
            return Err(Refusal::Twice);
        }
    }
    Ok((new, cut))
}

/// The unread files that are wanted, or the exit status.
pub fn unread_files<E: Sink>(
    rt: &HostRuntime,
    wanted: UnreadWanted<'_, '_>,
    noting: Noting<'_>,
    errors: &mut E,
) -> Result<Vec<UnreadFile>, u8> {
    let log = noting.log;
    let mut files = Vec::new(rt.alloc());
    for name in &wanted.files.names {
        let number = files.len();
        match open(rt, wanted.name, noting, number, name, files.as_slice()) {
            Ok((file, cut)) => {
                if cut > 0 {
                    report_cut(rt, errors, log.unread_name(number), cut);
                }
                if files.push(file).is_err() {
                    return Err(stop::out_of_memory(errors));
                }
            }
            Err(why) => return Err(refuse(rt, wanted, log, number, why, errors)),
        }
    }
    Ok(files)
}
