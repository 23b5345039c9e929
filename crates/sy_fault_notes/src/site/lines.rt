//! Notes of the faults of a site file's lines.

use crate::encoding::push_encoding;
use crate::file_line::{FileLine, stands_at_word};
use crate::plan::parameter_rows::push_list;
use crate::plan::tests::{push_facility, push_severity, push_shape};
use crate::site::reach::{push_outside_line, push_relay_line};
use crate::site::spare::{push_policy_line, push_spare_line};
use crate::site::tunnel::push_tunnel_line;
use std::alloc::{AllocError, Global};
use sy_places::site_file::source::{line_at, word_in};
use sy_report::texts::near::nearest;
use sy_report::texts::note::{Note, Point};
use sy_report::texts::parts::Part;
use sy_select::{FaultCode, Selector};
use sy_site::without_return;
use sy_wire::numbers::is_numeral;

/// The words that a line begins with.
static FIRST_WORDS: [&[u8]; 7] = [
    b"relay", b"entry", b"protect", b"policy", b"spare", b"outside", b"tunnel",
];

/// The most bytes of a site file.
const MOST: usize = 1_048_576;

/// The line of a number, of a site file.
pub fn site_line<'a>(file: &'a str, text: &'a [u8], number: u64) -> FileLine<'a> {
    let line: &[u8] = match line_at(text, number) {
        Some(line) => without_return(line),
        None => &[],
    };
    FileLine {
        file,
        text,
        number,
        line,
    }
}

/// The names of the relay lines of a site file.
pub fn relay_names(alloc: Global, text: &[u8]) -> Result<Vec<&[u8]>, AllocError> {
    let mut names = Vec::new(alloc);
    for line in text.split(|b| *b == b'\n') {
        let line = without_return(line);
        if let (Some((_, b"relay")), Some((_, name))) = (word_in(line, 0), word_in(line, 1)) {
            names.push(name)?;
        }
    }
    Ok(names)
}

fn is_port(word: &[u8]) -> bool {
    word.len() <= 10 && word.first() != Some(&b'0') && is_numeral(word)
}

/// How many words a line has.
pub fn words_in(line: &[u8]) -> usize {
    let mut count: usize = 0;
    for word in line.split(|b| *b == b' ' || *b == b'\t') {
        if !word.is_empty() {
            count = count.saturating_add(1);
        }
    }
    count
}

// Says that a line begins with no word that a line begins with.
fn push_first_word(alloc: Global, note: &mut Note, at: FileLine<'_>, word: &[u8]) {
    stands_at_word(alloc, note, at, 0);
    note.why.say("a line begins with relay, entry, protect, policy, spare, outside or tunnel");
    match nearest(word, &FIRST_WORDS) {
        Some(near) => note.change.append(&[Part::Text(near)]),
        None => note
            .change
            .say("one of them, or # before what is a comment"),
    }
}

/// Says which words a line has, at the first word that is too many, or where one is lacking.
pub fn push_words(alloc: Global, note: &mut Note, at: FileLine<'_>, number: usize, shape: &str) {
    stands_at_word(alloc, note, at, number);
    note.why.say("the words of such a line are ");
    note.why.say(shape);
    note.change.say(shape);
}

/// Says that no relay line has the name that a line gives, where that is so, and answers whether it is.
pub fn push_unknown_relay(
    alloc: Global,
    note: &mut Note,
    at: FileLine<'_>,
    number: usize,
) -> Result<bool, AllocError> {
    let names = relay_names(alloc, at.text)?;
    let Some((_, name)) = word_in(at.line, number) else {
        return Ok(false);
    };
    if names.as_slice().iter().any(|known| *known == name) {
        return Ok(false);
    }
    stands_at_word(alloc, note, at, number);
    note.why.append(&[Part::Text(b"no relay line has the name "), Part::Text(name)]);
    match nearest(name, names.as_slice()) {
        Some(near) => note.change.append(&[Part::Text(near)]),
        None => {
            note.change.say("one of ");
            push_list(&mut note.change, names.as_slice());
        }
    }
    Ok(true)
}

// Whether the last word of an entry line asks that nothing of a connection is dropped.
fn is_whole(line: &[u8], count: usize) -> bool {
    match word_in(line, 3) {
        Some((_, word)) => count == 4 && word == b"whole".as_slice(),
        None => false,
    }
}

// The words of an entry line, with the last one where that is likely meant.
fn shape_of_entry(line: &[u8]) -> &'static str {
    let last: [&[u8]; 1] = [b"whole"];
    match word_in(line, 3) {
        Some((_, word)) if nearest(word, &last).is_some() => "entry RELAY PORT [whole]",
        _ => "entry RELAY PORT",
    }
}

fn push_entry_line(alloc: Global, note: &mut Note, at: FileLine<'_>) -> Result<(), AllocError> {
    let port: &[u8] = match word_in(at.line, 2) {
        Some((_, port)) => port,
        None => &[],
    };
    let count = words_in(at.line);
    if count != 3 && !is_whole(at.line, count) {
        push_words(alloc, note, at, count.min(3), shape_of_entry(at.line));
        return Ok(());
    }
    if !is_port(port) {
        stands_at_word(alloc, note, at, 2);
        note.why.say("a port is a number without a leading zero");
        note.change.say("the number of a port");
        return Ok(());
    }
    if !push_unknown_relay(alloc, note, at, 1)? {
        stands_at_word(alloc, note, at, 0);
        note.why.say("a site has 256 entry lines at most");
        note.change.say("fewer entry lines");
    }
    Ok(())
}

// Says what is wrong with a selector, where something is, and answers whether it is.
fn push_selector(
    alloc: Global,
    note: &mut Note,
    at: FileLine<'_>,
    word: &[u8],
) -> Result<bool, AllocError> {
    let Err(fault) = Selector::read(alloc, word) else {
        return Ok(false);
    };
    stands_at_word(alloc, note, at, 1);
    let pushed = match fault.code {
        FaultCode::Facility => push_facility(alloc, note, fault.word.as_slice()),
        FaultCode::Severity => push_severity(alloc, note, fault.word.as_slice()),
        _ => {
            push_shape(note, word);
            Ok(())
        }
    };
    match pushed {
        Ok(()) => Ok(true),
        Err(fault) => Err(fault),
    }
}

fn push_protect_line(alloc: Global, note: &mut Note, at: FileLine<'_>) -> Result<(), AllocError> {
    let selector: &[u8] = match word_in(at.line, 1) {
        Some((_, selector)) => selector,
        None => &[],
    };
    let count = words_in(at.line);
    if count != 4 {
        push_words(
            alloc,
            note,
            at,
            count.min(4),
            "protect SELECTOR RELAY ACTION",
        );
        return Ok(());
    }
    if push_selector(alloc, note, at, selector)? {
        return Ok(());
    }
    if !push_unknown_relay(alloc, note, at, 2)? {
        stands_at_word(alloc, note, at, 0);
        note.why.say("a site has 256 protect lines at most");
        note.change.say("fewer protect lines");
    }
    Ok(())
}

// Says that a comment stands behind other words of a line, where one does, and answers whether it does.
fn push_comment(alloc: Global, note: &mut Note, at: FileLine<'_>) -> bool {
    for number in 1..words_in(at.line) {
        if let Some((_, [b'#', ..])) = word_in(at.line, number) {
            stands_at_word(alloc, note, at, number);
            note.why.say("a comment of a site file is a line of its own, which begins with #");
            note.change.say("that comment in the line before");
            return true;
        }
    }
    false
}

// Says of a site file that it is too long.
fn push_too_long(alloc: Global, note: &mut Note, at: FileLine<'_>) {
    note.stands_at(alloc, at.file.as_bytes(), None);
    note.why.append(&[
        Part::Text(at.file.as_bytes()),
        Part::Text(b" has "),
        Part::Number(at.text.len() as u64),
        Part::Text(b" bytes, at most 1048576 are read"),
    ]);
}

// Says what is wrong with a line by its first word.
fn push_by_first_word(alloc: Global, note: &mut Note, at: FileLine<'_>) -> Result<(), AllocError> {
    match word_in(at.line, 0) {
        Some((_, b"entry")) => return push_entry_line(alloc, note, at),
        Some((_, b"protect")) => return push_protect_line(alloc, note, at),
        Some((_, b"spare")) => return push_spare_line(alloc, note, at),
        Some((_, b"tunnel")) => return push_tunnel_line(alloc, note, at),
        Some((_, b"relay")) => push_relay_line(alloc, note, at),
        Some((_, b"policy")) => push_policy_line(alloc, note, at),
        Some((_, b"outside")) => push_outside_line(alloc, note, at),
        Some((_, word)) => push_first_word(alloc, note, at, word),
        None => {}
    }
    Ok(())
}

/// Says of a line that is none of a site file which of its causes it is.
pub fn push_faulty_line(
    alloc: Global,
    note: &mut Note,
    at: FileLine<'_>,
) -> Result<(), AllocError> {
    if at.text.len() > MOST {
        push_too_long(alloc, note, at);
        return Ok(());
    }
    if at.number == 1 {
        note.stands_at(
            alloc,
            at.file.as_bytes(),
            Some(Point { line: 1, column: 1 }),
        );
        if push_encoding(note, at.file.as_bytes(), at.text) {
            return Ok(());
        }
    }
    if push_comment(alloc, note, at) {
        return Ok(());
    }
    push_by_first_word(alloc, note, at)
}

// Whether two lines have the same word of a number.
fn same_word(line: &[u8], other: &[u8], number: usize) -> bool {
    match (word_in(line, number), word_in(other, number)) {
        (Some((_, a)), Some((_, b))) => a == b,
        _ => false,
    }
}

// Whether the first word of a line is this one.
fn begins_with(line: &[u8], word: &[u8]) -> bool {
    matches!(word_in(line, 0), Some((_, first)) if first == word)
}

// Whether two lines may not give one name: relay lines, and a relay line and an outside line.
fn give_names(line: &[u8], other: &[u8]) -> bool {
    let are_relays = begins_with(line, b"relay") && begins_with(other, b"relay");
    let is_before = begins_with(line, b"relay") && begins_with(other, b"outside");
    are_relays || is_before || (begins_with(line, b"outside") && begins_with(other, b"relay"))
}

// Whether a line gives again what an earlier one gave.
fn gives_again(earlier: &[u8], line: &[u8]) -> bool {
    if give_names(earlier, line) {
        return same_word(earlier, line, 1);
    }
    if begins_with(earlier, b"outside") && begins_with(line, b"outside") {
        return same_word(earlier, line, 1) && same_word(earlier, line, 3);
    }
    same_words(earlier, line, identifying_words(line))
}

// The number of the first line that gives what a later one gives again.
fn earlier(at: FileLine<'_>) -> Option<u64> {
    let mut number: u64 = 1;
    for line in at.text.split(|b| *b == b'\n') {
        let line = without_return(line);
        if number >= at.number {
            return None;
        }
        if gives_again(line, at.line) {
            return Some(number);
        }
        number = number.saturating_add(1);
    }
    None
}

// How many words of a line say what it gives: of an entry line its relay and its port.
fn identifying_words(line: &[u8]) -> usize {
    match word_in(line, 0) {
        Some((_, b"entry")) => 3,
        _ => 4,
    }
}

// Whether lines have the same words, so many of them.
fn same_words(line: &[u8], other: &[u8], most: usize) -> bool {
    for number in 0..most {
        match (word_in(line, number), word_in(other, number)) {
            (Some((_, a)), Some((_, b))) if a == b => {}
            (None, None) => return number > 0,
            _ => return false,
        }
    }
    true
}

// Whether the line of a number says the same in all its words.
fn is_said_so(at: FileLine<'_>, number: Option<u64>) -> bool {
    match number {
        Some(number) => match line_at(at.text, number) {
            Some(line) => same_words(without_return(line), at.line, 4),
            None => true,
        },
        None => true,
    }
}

// Whether a line gives a name that the line of a number has, or may be taken to have.
fn gives_name(at: FileLine<'_>, number: Option<u64>) -> bool {
    let Some(number) = number else {
        return begins_with(at.line, b"relay");
    };
    match line_at(at.text, number) {
        Some(line) => give_names(without_return(line), at.line),
        None => false,
    }
}

/// Says of a line that repeats another which one that is.
pub fn push_duplicate_line(alloc: Global, note: &mut Note, at: FileLine<'_>) {
    let found = earlier(at);
    let is_name = gives_name(at, found);
    stands_at_word(alloc, note, at, if is_name { 1 } else { 0 });
    if let Some(number) = found {
        note.why
            .append(&[Part::Text(b"line "), Part::Number(number)]);
    } else {
        note.why.say("an earlier line");
    }
    if is_name {
        note.why.say(" has this name");
        note.change.say("another name");
        return;
    }
    note.why.say(if is_said_so(at, found) {
        " says the same"
    } else if begins_with(at.line, b"outside") {
        " is of this name and port"
    } else {
        " is of this relay and port"
    });
    note.change.say("one of the two");
}
