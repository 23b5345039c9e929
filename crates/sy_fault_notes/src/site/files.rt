//! Notes of files that can't be read.

use std::alloc::Global;
use sy_places::relay_file::places::file_name_in;
use sy_places::site_file::source::word_in;
use sy_places::site_file::texts::{SiteTexts, Unread};
use sy_report::reading::files::Reason;
use sy_report::texts::note::{Note, Point};
use sy_report::texts::parts::Part;
use sy_report::texts::words::Words;
use sy_site::without_return;

// Puts where a name was looked for.
fn push_folder(words: &mut Words, unread: &Unread) {
    if let Some(folder) = &unread.folder {
        words.append(&[
            Part::Text(b" (looked for in "),
            Part::Text(folder.as_bytes()),
            Part::Text(b", the working directory)"),
        ]);
    }
}

// Says why a file can't be read.
fn push_reason(note: &mut Note, unread: &Unread, where_it_is: &str) {
    note.why.say(unread.name.as_str());
    match unread.reason {
        Reason::Missing => {
            note.why.say(": no such file");
            push_folder(&mut note.why, unread);
            note.change.say("the name ");
            note.change.say(where_it_is);
            note.change.say(", or the directory that syc is started in");
        }
        Reason::Denied => {
            note.why.say(": permission denied");
            note.change.say("let the user that starts syc read it, as by chmod or setfacl");
        }
        Reason::Directory => {
            note.why.say(" is a directory");
            note.change.say("the name of a file ");
            note.change.say(where_it_is);
        }
        Reason::Irregular => {
            note.why.say(" is no regular file");
            note.change.say("the name of a regular file ");
            note.change.say(where_it_is);
            note.change
                .say(", or --any-file, by which FIFOs and devices are read too");
        }
        Reason::Other => {
            note.why.say(" can't be read");
            note.change.say("another file, or another disk");
        }
    }
}

// Says of a file that the command line names why it can't be read.
fn push_named(note: &mut Note, unread: &Unread) {
    note.what.say("the command line: ");
    note.what.say(unread.name.as_str());
    push_reason(note, unread, "on the command line");
}

/// Says of a file that a line of the site file gives a relay why it can't be read: the site file's name, that line's number
/// and the relay's name are given.
pub fn push_unread_relay(
    alloc: Global,
    note: &mut Note,
    site: (&str, u64, &[u8]),
    unread: &Unread,
) {
    let (file, line, relay) = site;
    let point = Point { line, column: 1 };
    note.stands_at(alloc, file.as_bytes(), Some(point));
    note.what
        .append(&[Part::Text(b"relay "), Part::Text(relay)]);
    push_reason(note, unread, "in that line");
}

// Says of the first relay's file that can't be read why it can't, and answers whether there is one.
fn push_first_unread(alloc: Global, note: &mut Note, texts: &SiteTexts<'_>, text: &[u8]) -> bool {
    let mut number: u64 = 1;
    for line in text.split(|b| *b == b'\n') {
        let line = without_return(line);
        if let (Some(name), Some((_, relay))) = (file_name_in(line), word_in(line, 1)) {
            if let Some(unread) = texts.why_unread(name) {
                push_unread_relay(alloc, note, (texts.name, number, relay), unread);
                return true;
            }
        }
        number = number.saturating_add(1);
    }
    false
}

/// Says of a command that could not read a file which one that is, which line names it, and why it can't be read.
pub fn push_unread(alloc: Global, note: &mut Note, texts: &SiteTexts<'_>) {
    if let Some(unread) = texts.why_unread(texts.name) {
        push_named(note, unread);
        return;
    }
    if let Some(text) = texts.text() {
        if push_first_unread(alloc, note, texts, text) {
            return;
        }
    }
    if let Some(second) = texts.second_name() {
        if let Some(unread) = texts.why_unread(second) {
            push_named(note, unread);
        }
    }
}
