//! Notes of lines of a site file that name an input or an archive that isn't there, and of a site without any.

use crate::file_line::{FileLine, is_same_number, stands_at_word};
use std::alloc::{AllocError, Global};
use sy_places::relay_file::outline::{Object, ObjectWord, value_of};
use sy_places::relay_file::places::{Places, file_in, file_name_in, objects_of, places_of};
use sy_places::site_file::source::word_in;
use sy_places::site_file::texts::{RelayText, relay_file};
use sy_report::texts::near::nearest;
use sy_report::texts::note::Note;
use sy_report::texts::parts::Part;
use sy_report::texts::words::Words;
use sy_site::without_return;

/// The name of the file of the relay with this name.
pub fn file_named<'t>(text: &'t [u8], relay: &[u8]) -> Option<&'t str> {
    for line in text.split(|b| *b == b'\n') {
        let line = without_return(line);
        if let (Some((_, name)), Some(_)) = (word_in(line, 1), file_in(line)) {
            if name == relay {
                return file_name_in(line);
            }
        }
    }
    None
}

/// The name of the file of the relay that a word of the line names.
pub fn file_of_word<'a>(at: FileLine<'a>, number: usize) -> Option<&'a str> {
    let (_, relay) = word_in(at.line, number)?;
    file_named(at.text, relay)
}

fn has_port(objects: &[Object<'_>], wanted: &[u8]) -> bool {
    for object in objects {
        if object.word == ObjectWord::Input {
            if let Some(port) = value_of(object.params, b"port") {
                if is_same_number(port, wanted) {
                    return true;
                }
            }
        }
    }
    false
}

// Puts the ports of inputs.
fn append_ports(words: &mut Words, objects: &[Object<'_>]) {
    for object in objects {
        if object.word == ObjectWord::Input {
            if let Some(port) = value_of(object.params, b"port") {
                words.append(&[Part::Text(b" "), Part::Text(port)]);
            }
        }
    }
}

/// Says that a relay with this file has no input of this port, and which it has, where that is so, and answers whether it
/// is.
pub fn push_no_port(
    alloc: Global,
    note: &mut Note,
    file: Option<&RelayText>,
    relay: &[u8],
    port: &[u8],
) -> Result<bool, AllocError> {
    let file = relay_file(alloc, file)?;
    let objects = objects_of(alloc, &file)?;
    if has_port(objects.as_slice(), port) {
        return Ok(false);
    }
    note.why.append(&[Part::Text(relay), Part::Text(b" has no input of this port")]);
    note.change.append(&[
        Part::Text(b"a port of "),
        Part::Text(relay),
        Part::Text(b":"),
    ]);
    append_ports(&mut note.change, objects.as_slice());
    Ok(true)
}

/// Says of an entry line that its relay has no input of that port, and which ports there are.
pub fn push_no_entry(
    alloc: Global,
    note: &mut Note,
    at: FileLine<'_>,
    file: Option<&RelayText>,
) -> Result<(), AllocError> {
    stands_at_word(alloc, note, at, 2);
    let (Some((_, relay)), Some((_, port))) = (word_in(at.line, 1), word_in(at.line, 2)) else {
        return Ok(());
    };
    match push_no_port(alloc, note, file, relay, port) {
        Ok(_) => Ok(()),
        Err(why) => Err(why),
    }
}

/// What a line names: an action that writes a file, a forward, or any action.
#[derive(Clone, Copy)]
enum Sought {
    Archive,
    Forward,
    Action,
}

fn is_sought(object: Object<'_>, sought: Sought) -> bool {
    if object.word != ObjectWord::Action {
        return false;
    }
    match sought {
        Sought::Archive => value_of(object.params, b"type") == Some(b"omfile"),
        Sought::Forward => value_of(object.params, b"type") == Some(b"omfwd"),
        Sought::Action => true,
    }
}

// Puts the name of an action with its place; `action-N` by its number where it has none.
fn push_found(words: &mut Words, places: Places<'_>, object: Object<'_>, number: u64) {
    match value_of(object.params, b"name") {
        Some(name) => words.append(&[Part::Text(b" "), Part::Text(name)]),
        None => words.append(&[Part::Text(b" action-"), Part::Number(number)]),
    }
    words.say(" (");
    places.push_point(words, object.start);
    words.say(")");
}

// The names of what is sought, of those with a name.
fn names_of<'a>(
    alloc: Global,
    objects: &[Object<'a>],
    sought: Sought,
) -> Result<Vec<&'a [u8]>, AllocError> {
    let mut names = Vec::new(alloc);
    for object in objects {
        if is_sought(*object, sought) {
            if let Some(name) = value_of(object.params, b"name") {
                names.push(name)?;
            }
        }
    }
    Ok(names)
}

// Puts what is sought in a file: the one that is likely meant, or all.
fn append_all_found(
    alloc: Global,
    note: &mut Note,
    places: Places<'_>,
    wanted: &[u8],
    sought: Sought,
) -> Result<(), AllocError> {
    let names = names_of(alloc, places.objects, sought)?;
    let near = nearest(wanted, names.as_slice());
    let mut number: u64 = 0;
    for object in places.objects {
        if object.word == ObjectWord::Action {
            let is_meant = near.is_none() || value_of(object.params, b"name") == near;
            if is_sought(*object, sought) && is_meant {
                push_found(&mut note.change, places, *object, number);
            }
            number = number.saturating_add(1);
        }
    }
    Ok(())
}

// Puts what a relay with this file has of what is sought.
fn push_choice(
    alloc: Global,
    note: &mut Note,
    file: Option<&RelayText>,
    relay: &[u8],
    wanted: &[u8],
    sought: Sought,
) -> Result<(), AllocError> {
    let file = relay_file(alloc, file)?;
    let objects = objects_of(alloc, &file)?;
    note.change.append(&[Part::Text(b" of "), Part::Text(relay), Part::Text(b":")]);
    if !objects
        .as_slice()
        .iter()
        .any(|object| is_sought(*object, sought))
    {
        note.change.say(" it has none");
    }
    match places_of(&file, objects.as_slice()) {
        Some(places) => append_all_found(alloc, note, places, wanted, sought),
        None => Ok(()),
    }
}

/// Says of a protect line that its relay has no archive of that name, and which there are.
pub fn push_no_archive(
    alloc: Global,
    note: &mut Note,
    at: FileLine<'_>,
    file: Option<&RelayText>,
) -> Result<(), AllocError> {
    stands_at_word(alloc, note, at, 3);
    let (Some((_, relay)), Some((_, wanted))) = (word_in(at.line, 2), word_in(at.line, 3)) else {
        return Ok(());
    };
    note.why.append(&[
        Part::Text(relay),
        Part::Text(b" has no omfile action of this name"),
    ]);
    note.change.say("an omfile action");
    push_choice(alloc, note, file, relay, wanted, Sought::Archive)
}

// Says of a tunnel line that its relay has no forward of that name, and which there are.
fn push_no_forward(
    alloc: Global,
    note: &mut Note,
    file: Option<&RelayText>,
    relay: &[u8],
    wanted: &[u8],
) -> Result<(), AllocError> {
    note.why.append(&[
        Part::Text(relay),
        Part::Text(b" has no omfwd action of this name"),
    ]);
    note.change.say("an omfwd action");
    push_choice(alloc, note, file, relay, wanted, Sought::Forward)
}

/// Says of a spare line that its relay has no action of that name, and of a tunnel line that it has no forward of that name, and
/// which there are.
pub fn push_no_action(
    alloc: Global,
    note: &mut Note,
    at: FileLine<'_>,
    file: Option<&RelayText>,
) -> Result<(), AllocError> {
    stands_at_word(alloc, note, at, 2);
    let (Some((_, relay)), Some((_, wanted))) = (word_in(at.line, 1), word_in(at.line, 2)) else {
        return Ok(());
    };
    if matches!(word_in(at.line, 0), Some((_, b"tunnel"))) {
        return push_no_forward(alloc, note, file, relay, wanted);
    }
    note.why.append(&[
        Part::Text(relay),
        Part::Text(b" has no action of this name"),
    ]);
    note.change.say("an action");
    push_choice(alloc, note, file, relay, wanted, Sought::Action)
}

// Whether a line begins with a word.
fn has_line(text: &[u8], word: &[u8]) -> bool {
    text.split(|b| *b == b'\n').any(|line| match word_in(line, 0) {
        Some((_, first)) => first == word,
        None => false,
    })
}

/// Says of a site that protects nothing what it lacks.
pub fn push_nothing_protected(alloc: Global, note: &mut Note, file: &str, text: &[u8]) {
    note.stands_at(alloc, file.as_bytes(), None);
    note.what.say("the site");
    if !has_line(text, b"entry") {
        note.why.say("no line names an entry");
        note.change.say("entry RELAY PORT");
    } else if !has_line(text, b"protect") {
        note.why.say("no line protects a class");
        note.change.say("protect SELECTOR RELAY ACTION");
    } else {
        note.why.say("no selector of a protect line has a class");
        note.change.say("a selector with a class, as auth.*");
    }
}
