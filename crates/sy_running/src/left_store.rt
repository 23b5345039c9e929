//! The files for what a relay leaves, tried as it starts.

use crate::explaining::print_words;
use crate::start_notes::{lines_of, push_folder};
use crate::words::RunWords;
use std::alloc::{AllocError, Global};
use sy_outlets::leaving::left_file::{LeftFault, LeftFiles};
use sy_report::outcome::report::report_texts;
use sy_report::outcome::stop;
use sy_report::reading::files::{Files, HostFiles, Kinds};
use sy_report::texts::note::Note;
use sy_wire::Sink;

fn report_left<'a, E: Sink>(errors: &mut E, name: &'a str, words: &'a str) {
    report_texts(
        errors,
        &[
            b"syc: left file ",
            name.as_bytes(),
            b": ",
            words.as_bytes(),
            b"\n",
        ],
    );
}

// Says why nothing can be left there, and what to change.
fn push_reason(note: &mut Note, fault: LeftFault, name: &str, folder: Option<&str>) {
    let (why, change) = match fault {
        LeftFault::Missing => (
            ": no such folder",
            "make that folder, or another name on the command line",
        ),
        LeftFault::Denied => (
            ": permission denied",
            "let the user that starts syc write its folder, as by chown or setfacl, and enter those above",
        ),
        LeftFault::Link => (
            ": a symbolic link has this name, or the name with .new",
            "remove the link, or another name on the command line",
        ),
        LeftFault::Other | LeftFault::NoMemory => (
            ": no file can be made beside it",
            "a folder that can be written (StateDirectory= or ReadWritePaths= of a unit)",
        ),
    };
    note.why.say(name);
    note.why.say(why);
    if fault == LeftFault::Missing {
        push_folder(&mut note.why, name.as_bytes(), folder);
    }
    note.change.say(change);
}

// What is said of a file for what is left that can't be made.
fn left_words(
    alloc: Global,
    name: &str,
    fault: LeftFault,
    folder: Option<&str>,
) -> Result<Vec<u8>, AllocError> {
    let mut note = Note::new(alloc);
    note.what.say("the command line: --left ");
    note.what.say(name);
    push_reason(&mut note, fault, name, folder);
    lines_of(alloc, &note)
}

// Explains the same.
fn explain_left<E: Sink>(rt: &HostRuntime, name: &str, fault: LeftFault, errors: &mut E) {
    let folder = HostFiles::new(rt, Kinds::Regular).folder();
    let folder = match &folder {
        Some(folder) => Some(folder.as_str()),
        None => None,
    };
    print_words(errors, left_words(rt.alloc(), name, fault, folder));
}

// Tells why nothing can be left there, explained where the words ask for that, and answers the exit status.
fn no_store<E: Sink>(
    rt: &HostRuntime,
    words: RunWords<'_>,
    fault: LeftFault,
    errors: &mut E,
) -> u8 {
    if fault == LeftFault::NoMemory {
        return stop::out_of_memory(errors);
    }
    let name = words.left.unwrap_or("");
    report_left(errors, name, fault.words());
    if words.is_explained {
        explain_left(rt, name, fault, errors);
    }
    4
}

/// The files of that name for what is left, if there are to be any, where they can be written; or the exit status.
pub fn store_of<E: Sink>(
    rt: &HostRuntime,
    words: RunWords<'_>,
    errors: &mut E,
) -> Result<LeftFiles, u8> {
    let Ok(store) = LeftFiles::new(*rt, rt.alloc(), words.left) else {
        return Err(stop::out_of_memory(errors));
    };
    match store.try_out() {
        Ok(()) => Ok(store),
        Err(fault) => Err(no_store(rt, words, fault, errors)),
    }
}
