//! Notes of faults: what `--explain` says where a command over a site stops early.

use crate::events::{push_illegal, push_no_event, push_no_row};
use crate::file_line::{FileLine, stands_at_word};
use crate::plan::notes::push_plan_fault;
use crate::script::notes::push_script_fault;
use crate::site::files::push_unread;
use crate::site::lines::{push_duplicate_line, push_faulty_line, site_line};
use crate::site::reference::{
    file_of_word, push_no_action, push_no_archive, push_no_entry, push_nothing_protected,
};
use crate::site::spare::push_spare_archive;
use std::alloc::{AllocError, Global};
use sy_places::relay_file::places::{file_name_in, objects_of, places_of};
use sy_places::site_file::texts::{RelayText, SiteTexts, relay_file};
use sy_report::outcome::halt::Halt;
use sy_report::texts::note::Note;
use sy_rules::PlanFault;
use sy_site::{RelayFault, SiteFault};

// Of the plan of a relay's file.
fn push_fault_of_plan(
    alloc: Global,
    note: &mut Note,
    text: &RelayText,
    fault: &PlanFault,
) -> Result<(), AllocError> {
    let file = relay_file(alloc, Some(text))?;
    let objects = objects_of(alloc, &file)?;
    match places_of(&file, objects.as_slice()) {
        Some(places) => push_plan_fault(alloc, note, places, fault),
        None => Ok(()),
    }
}

// Of a relay's file.
fn push_relay_fault(
    alloc: Global,
    note: &mut Note,
    file: &RelayText,
    why: &RelayFault,
) -> Result<(), AllocError> {
    match why {
        RelayFault::Script(fault) => {
            push_script_fault(alloc, note, file.name.as_str(), file.text.as_slice(), fault);
            Ok(())
        }
        RelayFault::Plan(fault) => push_fault_of_plan(alloc, note, file, fault),
    }
}

// The line of the site file in which a fault is.
fn line_of(fault: &SiteFault) -> u64 {
    match fault {
        SiteFault::Line(line)
        | SiteFault::Duplicate(line)
        | SiteFault::NoFile(line)
        | SiteFault::NoSuchEntry(line)
        | SiteFault::NoSuchArchive(line)
        | SiteFault::NoSuchAction(line)
        | SiteFault::SpareArchive(line)
        | SiteFault::Relay(line, _, _) => *line as u64,
        SiteFault::NothingProtected | SiteFault::NoMemory => 1,
    }
}

/// The line of a site file in which a fault is.
pub fn faulty_line<'a>(site_name: &'a str, text: &'a [u8], fault: &SiteFault) -> FileLine<'a> {
    site_line(site_name, text, line_of(fault))
}

/// The name of the relay's file that is spoken of with a fault of a line.
pub fn file_meant<'a>(at: FileLine<'a>, fault: &SiteFault) -> Option<&'a str> {
    match fault {
        SiteFault::NoSuchEntry(_) | SiteFault::NoSuchAction(_) => file_of_word(at, 1),
        SiteFault::NoSuchArchive(_) => file_of_word(at, 2),
        SiteFault::Relay(_, _, _) => file_name_in(at.line),
        _ => None,
    }
}

/// Puts what is known of a fault of a line of a site file. The file is the one that is spoken of with it.
pub fn push_site_fault(
    alloc: Global,
    note: &mut Note,
    at: FileLine<'_>,
    file: Option<&RelayText>,
    fault: &SiteFault,
) -> Result<(), AllocError> {
    match fault {
        SiteFault::Line(_) => push_faulty_line(alloc, note, at),
        SiteFault::Duplicate(_) => {
            push_duplicate_line(alloc, note, at);
            Ok(())
        }
        SiteFault::NoFile(_) => {
            stands_at_word(alloc, note, at, 2);
            Ok(())
        }
        SiteFault::NoSuchEntry(_) => push_no_entry(alloc, note, at, file),
        SiteFault::NoSuchArchive(_) => push_no_archive(alloc, note, at, file),
        SiteFault::NoSuchAction(_) => push_no_action(alloc, note, at, file),
        SiteFault::SpareArchive(_) => {
            push_spare_archive(alloc, note, at);
            Ok(())
        }
        SiteFault::NothingProtected => {
            push_nothing_protected(alloc, note, at.file, at.text);
            Ok(())
        }
        SiteFault::Relay(_, _, why) => match file {
            Some(file) => push_relay_fault(alloc, note, file, why),
            None => Ok(()),
        },
        SiteFault::NoMemory => Ok(()),
    }
}

fn push_site(
    alloc: Global,
    texts: &SiteTexts<'_>,
    note: &mut Note,
    fault: &SiteFault,
) -> Result<(), AllocError> {
    let Some(text) = texts.text() else {
        return Ok(());
    };
    let at = faulty_line(texts.name, text, fault);
    let file = match file_meant(at, fault) {
        Some(name) => texts.file(name),
        None => None,
    };
    push_site_fault(alloc, note, at, file, fault)
}

// Of a certificate or an events file of that name and text.
fn push_in_other(alloc: Global, note: &mut Note, file: &str, text: &[u8], halt: &Halt) {
    match halt {
        Halt::Certificate(fault) => push_no_row(alloc, note, file, text, *fault),
        Halt::Illegal(number) => push_illegal(
            alloc,
            note,
            file,
            text,
            *number,
            "the event is no step of the site, as it stands after the events before",
        ),
        Halt::TotalsFull(number) => {
            push_illegal(alloc, note, file, text, *number, "a total is full");
        }
        _ => {}
    }
}

// Of the file beside a site's, where there is one that was read.
fn push_other(alloc: Global, texts: &SiteTexts<'_>, note: &mut Note, halt: &Halt) {
    if let (Some(name), Some(text)) = (texts.second_name(), texts.second_text()) {
        push_in_other(alloc, note, name, text, halt);
    }
}

fn push_halt(
    alloc: Global,
    texts: &SiteTexts<'_>,
    note: &mut Note,
    halt: &Halt,
) -> Result<(), AllocError> {
    match halt {
        Halt::Site(fault) => push_site(alloc, texts, note, fault),
        Halt::Line(number) => push_no_event(alloc, texts, note, *number),
        Halt::Certificate(_) | Halt::Illegal(_) | Halt::TotalsFull(_) => {
            push_other(alloc, texts, note, halt);
            Ok(())
        }
        Halt::ReadFailed => {
            push_unread(alloc, note, texts);
            Ok(())
        }
        Halt::NoMemory | Halt::WriteFailed => Ok(()),
    }
}

/// The note of why a command over a site stopped, where something is known beyond its first line.
pub fn note_of_fault(
    alloc: Global,
    texts: &SiteTexts<'_>,
    halt: &Halt,
) -> Result<Option<Note>, AllocError> {
    let mut note = Note::new(alloc);
    push_halt(alloc, texts, &mut note, halt)?;
    if note.is_silent() {
        return Ok(None);
    }
    match note.finish() {
        Ok(note) => Ok(Some(note)),
        Err(why) => Err(why),
    }
}
