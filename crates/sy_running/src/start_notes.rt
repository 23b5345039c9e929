//! Notes of why a relay that is to run doesn't start: where what it needs is named, why it doesn't get that, and what to
//! change.

use std::alloc::{AllocError, Global};
use std::io::{Error, ErrorKind};
use sy_places::relay_file::places::{Thing, objects_of, places_of};
use sy_places::site_file::texts::{SiteTexts, relay_file};
use sy_report::texts::near::nearest;
use sy_report::texts::note::{Note, Point, append_note};
use sy_report::texts::parts::Part;
use sy_report::texts::reason::Reason;
use sy_report::texts::words::Words;
use sy_site::Site;
use sy_warnings::objects::stands_at;

/// The lines of a note.
pub fn lines_of(alloc: Global, note: &Note) -> Result<Vec<u8>, AllocError> {
    let mut words = Words::new(alloc);
    append_note(&mut words, note);
    words.finish()
}

/// A note of an object of a relay.
pub fn note_at(
    alloc: Global,
    texts: &SiteTexts<'_>,
    site: &Site,
    relay: u32,
    thing: Thing,
) -> Result<Note, AllocError> {
    let mut note = Note::new(alloc);
    let file = relay_file(alloc, texts.relay_text(relay))?;
    let objects = objects_of(alloc, &file)?;
    let places = places_of(&file, objects.as_slice());
    stands_at(alloc, &mut note, site, relay, places, thing);
    Ok(note)
}

/// Where an object of a relay stands: the name of its file, and the point; none where that isn't known.
pub fn point_of(
    alloc: Global,
    texts: &SiteTexts<'_>,
    relay: u32,
    thing: Thing,
) -> Result<Option<(Vec<u8>, Point)>, AllocError> {
    let file = relay_file(alloc, texts.relay_text(relay))?;
    let objects = objects_of(alloc, &file)?;
    let Some(places) = places_of(&file, objects.as_slice()) else {
        return Ok(None);
    };
    let Some(point) = places.point(thing) else {
        return Ok(None);
    };
    let mut name = Vec::new(alloc);
    name.extend_from_slice(places.file.as_bytes())?;
    Ok(Some((name, point)))
}

/// What sort of failure a reason is.
pub fn kind_of(reason: Option<Reason>) -> ErrorKind {
    match reason {
        Some(Reason::Os(code)) => match i32::try_from(code) {
            Ok(number) => Error::from_raw_os_error(number).kind(),
            Err(_) => ErrorKind::Other,
        },
        Some(Reason::NoMemory) => ErrorKind::OutOfMemory,
        _ => ErrorKind::Other,
    }
}

/// Appends a reason, as the host says it.
pub fn push_reason(
    alloc: Global,
    words: &mut Words,
    reason: Option<Reason>,
) -> Result<(), AllocError> {
    if let Some(reason) = reason {
        let mut text = Vec::new(alloc);
        reason.append(alloc, &mut text)?;
        words.append(&[Part::Text(b": "), Part::Text(text.as_slice())]);
    }
    Ok(())
}

/// Appends where a file's name is looked for, where it isn't absolute and that is known.
pub fn push_folder(words: &mut Words, name: &[u8], folder: Option<&str>) {
    if let Some(folder) = folder {
        if name.first() != Some(&b'/') {
            words.append(&[
                Part::Text(b" (looked for in "),
                Part::Text(folder.as_bytes()),
                Part::Text(b", the working directory)"),
            ]);
        }
    }
}

// The names of a site's relays.
fn names_of(alloc: Global, site: &Site) -> Result<Vec<&[u8]>, AllocError> {
    let mut names = Vec::new(alloc);
    for relay in 0..site.relays() {
        names.push(site.name(relay))?;
    }
    Ok(names)
}

fn push_names(words: &mut Words, names: &[&[u8]]) {
    let mut between: &[u8] = b"";
    for name in names {
        words.append(&[Part::Text(between), Part::Text(name)]);
        between = b", ";
    }
}

/// What is said of a name that no relay of a site has: the names that are there, and the nearest.
pub fn no_relay_words(alloc: Global, site: &Site, name: &str) -> Result<Vec<u8>, AllocError> {
    let names = names_of(alloc, site)?;
    let mut note = Note::new(alloc);
    note.what.say("the command line: ");
    note.what.say(name);
    note.why.say("no relay line has the name ");
    note.why.say(name);
    note.why.say("; the names are ");
    push_names(&mut note.why, names.as_slice());
    match nearest(name.as_bytes(), names.as_slice()) {
        Some(near) => note.change.append(&[Part::Text(near)]),
        None => {
            note.change.say("one of ");
            push_names(&mut note.change, names.as_slice());
        }
    }
    lines_of(alloc, &note)
}

/// What a start lacks.
#[derive(Clone, Copy)]
pub enum Lack {
    Memory,
    Thread,
    MemoryOrThread,
}

/// What is said of a start that lacks memory, or a thread. It stands there, since there may be no memory for it.
pub fn lack_text(lack: Lack) -> &'static str {
    match lack {
        Lack::Memory => {
            "where: the start of the relay
why: the host gives the process no more memory
change: a higher limit (ulimit -v, or MemoryMax= of the unit), or a smaller site
"
        }
        Lack::Thread => {
            "where: the start of the relay
why: the host gives the process no more threads, or no memory for the stack of one
change: a higher limit (ulimit -u and -v, or TasksMax= and MemoryMax= of the unit)
"
        }
        Lack::MemoryOrThread => {
            "where: the start of the relay
why: the host gives the process no more memory, or fewer threads than the relay needs
change: higher limits (ulimit -v and -u, or MemoryMax= and TasksMax= of the unit), or fewer queues
"
        }
    }
}
