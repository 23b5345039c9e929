//! Warnings of the files of archives by their names.

ghost use Rattle.std.specs.Prelude.{◌≡◌};
ghost use Rattle.std.specs.Option.{option_copied};
ghost use Rattle.sy_script.specs.Terms as script;
ghost use Rattle.sy_warnings.specs.ArchiveFiles as spec;

use crate::cautions::note_of;
use crate::warnings::{Caution, Looked, Warnings};
use sy_places::relay_file::contents::Item;
use sy_report::texts::note::Note;
use sy_report::texts::parts::Part;
use sy_rules::{Destination, Plan};
use sy_site::{Site, SiteAction};

/// What is unwise of the name of an archive's file.
#[derive(Clone, Copy)]
pub enum FileFlaw {
    /// It is empty.
    Empty,
    /// It begins or ends with a blank.
    Blank,
    /// It ends in `/`.
    Folder,
    /// It begins with `/dev/`.
    Device,
}

fn is_blank(byte: Option<&u8>) -> bool
    ensures { result ≡ spec.passes script.is_blank (option_copied byte.entry) }
{
    match byte {
        Some(b) => *b == b' ' || *b == b'\t' || *b == b'\r' || *b == b'\n',
        None => false,
    }
}

fn is_solidus(byte: Option<&u8>) -> bool
    ensures { result ≡ spec.passes spec.is_solidus (option_copied byte.entry) }
{
    match byte {
        Some(b) => *b == b'/',
        None => false,
    }
}

// What is unwise of a name by itself.
fn name_flaw(name: &[u8]) -> Option<FileFlaw>
    ensures { result ≡ spec.name_flaw name.now }
{
    if name.is_empty() {
        Some(FileFlaw::Empty)
    } else if is_blank(name.first()) || is_blank(name.last()) {
        Some(FileFlaw::Blank)
    } else if is_solidus(name.last()) {
        Some(FileFlaw::Folder)
    } else if name.starts_with(b"/dev/") {
        Some(FileFlaw::Device)
    } else {
        None
    }
}

// Whether a protect line names an archive.
fn is_named(site: &Site, archive: SiteAction) -> bool
    ensures { result ≡ spec.is_named site.now archive }
{
    site.protections().iter().any(|protection| {
        protection.archive.relay == archive.relay && protection.archive.action == archive.action
    })
}

/// What is unwise of the file of an archive, where `may_be_any` says whether it may be a device.
pub fn file_flaw(
    site: &Site,
    archive: SiteAction,
    may_be_any: bool,
    name: &[u8],
) -> Option<FileFlaw>
    ensures { result ≡ spec.file_flaw site.now archive may_be_any name.now }
{
    match name_flaw(name) {
        Some(FileFlaw::Device) => {
            if may_be_any && !is_named(site, archive) {
                None
            } else {
                Some(FileFlaw::Device)
            }
        }
        found => found,
    }
}

/// The file of an archive.
pub fn file_of_action(plan: &Plan, action: u32) -> Option<&[u8]> {
    match plan.actions().get(action as usize) {
        Some(found) => match &found.destination {
            Destination::Archive(file) => Some(file.as_slice()),
            Destination::Forward(_, _) => None,
        },
        None => None,
    }
}

fn push_empty(note: &mut Note) {
    note.why
        .say("its file has an empty name, so that no relay can open it");
    note.change.say("the name of a file");
}

fn push_blank(note: &mut Note) {
    note.why.say(
        "the name of its file begins or ends with a blank, so that who looks for that file may miss it",
    );
    note.change.say("the name without that blank");
}

fn push_folder(note: &mut Note, file: &[u8]) {
    note.why.append(&[
        Part::Text(b"it writes "),
        Part::Text(file),
        Part::Text(b", which is the name of a folder, so that no relay can open it"),
    ]);
    note.change.say("the name of a file in that folder");
}

fn push_device(note: &mut Note, file: &[u8]) {
    note.why.append(&[
        Part::Text(b"it writes "),
        Part::Text(file),
        Part::Text(b", and what is written in /dev/ isn't kept"),
    ]);
    note.change.say(
        "a file elsewhere; where that is meant and no protect line names the action, fileType=\"any\"",
    );
}

/// Warns of an archive by the name of its file.
pub fn warn_of_archive(warnings: &mut Warnings, looked: Looked<'_>, item: Item<'_>, action: u32) {
    let Some(file) = file_of_action(looked.plan, action) else {
        return;
    };
    let archive = SiteAction {
        relay: looked.relay,
        action,
    };
    let does = looked.host.archive(action as usize);
    let Some(flaw) = file_flaw(looked.site, archive, does.may_be_any, file) else {
        return;
    };
    let mut note = note_of(warnings.alloc, looked, item);
    match flaw {
        FileFlaw::Empty => push_empty(&mut note),
        FileFlaw::Blank => push_blank(&mut note),
        FileFlaw::Folder => push_folder(&mut note, file),
        FileFlaw::Device => push_device(&mut note, file),
    }
    let caution = match flaw {
        FileFlaw::Device => Caution::NotKept,
        _ => Caution::OddFile,
    };
    warnings.push(caution, note);
}
