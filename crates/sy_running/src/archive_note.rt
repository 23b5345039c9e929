//! The note of an archive that can't be opened.

use crate::accounts::{GROUPS, USERS};
use crate::own_files::Owner;
use crate::start_notes::{kind_of, lines_of, note_at, push_folder, push_reason};
use std::alloc::{AllocError, Global};
use std::io::ErrorKind;
use sy_outlets::devices::opening::OpenFault;
use sy_places::relay_file::places::Thing;
use sy_places::site_file::texts::SiteTexts;
use sy_report::texts::note::Note;
use sy_report::texts::parts::Part;
use sy_report::texts::reason::Reason;
use sy_rules::Destination;
use sy_site::Site;

/// An archive that can't be opened: the number of its action, why, the reason where the host gave one, and the folder in which
/// names that aren't absolute are looked for, where that is known.
#[derive(Clone, Copy)]
pub struct Unopened<'a> {
    pub action: usize,
    pub fault: OpenFault,
    /// Whose its file is already.
    pub owner: Option<Owner>,
    pub reason: Option<Reason>,
    pub folder: Option<&'a str>,
}

// The folder in a file's name, with its last slash; none where the name has no slash.
fn folder_in(name: &[u8]) -> &[u8] {
    match name.iter().rposition(|byte| *byte == b'/') {
        Some(at) => {
            let (folder, _) = name.split_at(at.saturating_add(1).min(name.len()));
            folder
        }
        None => &[],
    }
}

// Says that a file's folder isn't there.
fn push_no_folder(note: &mut Note, name: &[u8], folder: Option<&str>) {
    let own = folder_in(name);
    note.why.say(": no such folder");
    if !own.is_empty() {
        note.why.append(&[Part::Text(b" as "), Part::Text(own)]);
    }
    push_folder(&mut note.why, name, folder);
    note.change
        .say("make that folder, or another name in that line");
}

// Says whose an archive's file is already.
fn push_owner(note: &mut Note, site: &Site, relay: u32, owner: Owner) {
    match owner {
        Owner::Site => note.why.say(" is one of the site's own files"),
        Owner::Action(action) => {
            note.why.say(" is the file of action ");
            let name = name_of(site, relay, action).unwrap_or(b"");
            note.why.append(&[Part::Text(name), Part::Text(b" too")]);
        }
    }
    note.change.say("the name of another file");
}

// Says that it is no regular file.
fn push_not_regular(note: &mut Note) {
    note.why.say(" is there, and is no regular file");
    note.change.say("the name of a file, or fileType=\"any\" where a FIFO or a device is meant");
}

// Says that another process writes to it.
fn push_locked(note: &mut Note, name: &[u8], folder: Option<&str>) {
    note.why.say(": another process writes to it");
    push_folder(&mut note.why, name, folder);
    note.change.say("the name of another file, or stop that process, which fuser names");
}

/// Accounts of a kind: what they are, the table that has them, and what to change.
struct Accounts {
    kind: &'static [u8],
    table: &'static str,
    change: &'static str,
}

static OF_USERS: Accounts = Accounts {
    kind: b"user",
    table: USERS,
    change: "a fileOwner that stands there, or the user's number as fileOwnerNum",
};

static OF_GROUPS: Accounts = Accounts {
    kind: b"group",
    table: GROUPS,
    change: "a fileGroup that stands there, or the group's number as fileGroupNum",
};

// Says that the host doesn't have the user or the group that a file is for, or can't tell.
fn push_no_account(
    alloc: Global,
    note: &mut Note,
    reason: Option<Reason>,
    of: &Accounts,
) -> Result<(), AllocError> {
    let (kind, table) = (Part::Text(of.kind), Part::Text(of.table.as_bytes()));
    note.why.append(&[Part::Text(b" is for a "), kind]);
    if reason.is_some() {
        note.why.append(&[Part::Text(b", and "), table, Part::Text(b" can't be read")]);
        push_reason(alloc, &mut note.why, reason)?;
    } else {
        note.why
            .append(&[Part::Text(b" that doesn't stand in "), table]);
    }
    note.change.say(of.change);
    Ok(())
}

// Says why the host doesn't open a file for appending.
fn push_of_host(
    alloc: Global,
    note: &mut Note,
    name: &[u8],
    why: Unopened<'_>,
) -> Result<(), AllocError> {
    match kind_of(why.reason) {
        ErrorKind::NotFound => push_no_folder(note, name, why.folder),
        ErrorKind::NotADirectory => {
            note.why.say(": what stands before a / is no folder");
            note.change.say("the name of a file in a folder");
        }
        ErrorKind::PermissionDenied => {
            note.why.say(": permission denied");
            note.change.say(
                "let the user that starts syc write it, as by chown or setfacl, and enter its folders",
            );
        }
        ErrorKind::IsADirectory => {
            note.why.say(" is a directory");
            note.change.say("the name of a file");
        }
        ErrorKind::ReadOnlyFilesystem => {
            note.why.say(": the file system is read-only");
            note.change.say(
                "a folder that can be written (ReadWritePaths= or StateDirectory= of a unit)",
            );
        }
        _ => {
            note.why.say(" can't be opened");
            push_reason(alloc, &mut note.why, why.reason)?;
            note.change.say("another file, or another disk");
        }
    }
    Ok(())
}

// Says why a file isn't opened for appending.
fn push_unopened(
    alloc: Global,
    note: &mut Note,
    (site, relay): (&Site, u32),
    name: &[u8],
    why: Unopened<'_>,
) -> Result<(), AllocError> {
    note.why.append(&[Part::Text(name)]);
    match (why.owner, why.fault) {
        (Some(owner), _) => push_owner(note, site, relay, owner),
        (None, OpenFault::NotRegular) => push_not_regular(note),
        (None, OpenFault::Locked) => push_locked(note, name, why.folder),
        (None, OpenFault::NoUser) => push_no_account(alloc, note, why.reason, &OF_USERS)?,
        (None, OpenFault::NoGroup) => push_no_account(alloc, note, why.reason, &OF_GROUPS)?,
        (None, OpenFault::Write | OpenFault::NoMemory) => push_of_host(alloc, note, name, why)?,
    }
    Ok(())
}

// The name of the file to which an action writes.
fn file_of(site: &Site, relay: u32, action: usize) -> Option<&[u8]> {
    if relay >= site.relays() {
        return None;
    }
    let action = site.plan(relay).actions().get(action)?;
    match &action.destination {
        Destination::Archive(file) => Some(file.as_slice()),
        Destination::Forward(_, _) => None,
    }
}

// The name of an action.
fn name_of(site: &Site, relay: u32, action: usize) -> Option<&[u8]> {
    if relay >= site.relays() {
        return None;
    }
    let action = site.plan(relay).actions().get(action)?;
    Some(action.name.as_slice())
}

/// What is said of an archive that can't be opened: its action and where that stands, its file's name, why, and what to
/// change.
pub fn archive_words(
    alloc: Global,
    texts: &SiteTexts<'_>,
    site: &Site,
    relay: u32,
    why: Unopened<'_>,
) -> Result<Vec<u8>, AllocError> {
    let number = u32::try_from(why.action).unwrap_or(u32::MAX);
    let mut note = note_at(alloc, texts, site, relay, Thing::Action(number))?;
    match file_of(site, relay, why.action) {
        Some([]) => {
            note.why.say("the name of its file is empty");
            note.change.say("the name of a file");
        }
        Some(name) => push_unopened(alloc, &mut note, (site, relay), name, why)?,
        None => note.why.say("its file can't be opened"),
    }
    lines_of(alloc, &note)
}
