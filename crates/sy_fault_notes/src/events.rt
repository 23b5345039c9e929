//! Notes of the lines of an events file, and of a certificate.

use crate::encoding::{push_encoding, push_return};
use crate::file_line::{FileLine, stands_at_word};
use crate::site::lines::relay_names;
use crate::site::reference::{file_named, push_no_port};
use std::alloc::{AllocError, Global};
use sy_cert::{FaultCode, TextFault};
use sy_places::site_file::source::{behind, line_at, word_in};
use sy_places::site_file::texts::{RelayText, SiteTexts};
use sy_report::texts::near::nearest;
use sy_report::texts::note::{Note, Point};
use sy_report::texts::parts::Part;
use sy_wire::Message;
use sy_wire::numbers::decimal_up_to;

/// The words that an event begins with.
static EVENTS: [&[u8]; 9] = [
    b"take",
    b"enter",
    b"expire",
    b"grab",
    b"done",
    b"fail",
    b"giveup",
    b"post",
    b"postlost",
];

/// The words that a row of a certificate begins with.
static ROWS: [&[u8]; 6] = [b"class", b"reach", b"branch", b"rank", b"inner", b"path"];

// What RAW is of a `take` line: all behind its fifth word.
fn raw_of(line: &[u8]) -> Option<(usize, &[u8])> {
    let (place, word) = word_in(line, 4)?;
    if word != b"new".as_slice() {
        return None;
    }
    let start = place.saturating_add(4);
    Some((start, behind(line, start)))
}

// Says of a RAW that is no message what is wrong with it, where something is, and answers whether it is.
fn push_raw(alloc: Global, note: &mut Note, at: FileLine<'_>) -> Result<bool, AllocError> {
    let Some((start, raw)) = raw_of(at.line) else {
        return Ok(false);
    };
    let Err((_, fault)) = Message::read(Vec::from_slice(alloc, raw)?) else {
        return Ok(false);
    };
    let column = (start as u64).saturating_add(1);
    let point = Point {
        line: at.number,
        column,
    };
    note.stands_at(alloc, at.file.as_bytes(), Some(point));
    note.what.say("RAW");
    note.why.append(&[
        Part::Text(b"RAW is no message: "),
        Part::Text(fault.code.words().as_bytes()),
        Part::Text(b" at "),
        Part::Number(fault.offset as u64),
    ]);
    note.change
        .say("a message of RFC 5424, as <34>1 - - - - - -");
    Ok(true)
}

// Says that no relay of the site has the name that a line gives, where that is so, and answers whether it is.
fn push_relay(
    alloc: Global,
    note: &mut Note,
    at: FileLine<'_>,
    site_text: &[u8],
) -> Result<bool, AllocError> {
    let names = relay_names(alloc, site_text)?;
    let Some((_, name)) = word_in(at.line, 1) else {
        return Ok(false);
    };
    if names.as_slice().iter().any(|known| *known == name) {
        return Ok(false);
    }
    stands_at_word(alloc, note, at, 1);
    note.why.append(&[Part::Text(b"no relay line has the name "), Part::Text(name)]);
    if let Some(near) = nearest(name, names.as_slice()) {
        note.change.append(&[Part::Text(near)]);
    }
    Ok(true)
}

// The words of an event.
fn shape_of(word: &[u8]) -> &'static str {
    match word {
        b"take" => "take RELAY PORT HAND new RAW, or take RELAY PORT HAND link RELAY ACTION PLACE",
        b"enter" => "enter RELAY PORT HAND",
        b"expire" => "expire RELAY PORT HAND",
        b"grab" => "grab RELAY WORKER",
        b"done" => "done RELAY WORKER",
        b"fail" => "fail RELAY WORKER yes|no",
        b"giveup" => "giveup RELAY WORKER yes|no",
        b"post" => "post RELAY WORKER",
        _ => "postlost RELAY WORKER full|memory",
    }
}

// Says that the relay has no input of the port that a line gives, where that is so, and answers whether it is.
fn push_port(
    alloc: Global,
    note: &mut Note,
    at: FileLine<'_>,
    file: Option<&RelayText>,
) -> Result<bool, AllocError> {
    let (Some((_, relay)), Some((_, port))) = (word_in(at.line, 1), word_in(at.line, 2)) else {
        return Ok(false);
    };
    if !push_no_port(alloc, note, file, relay, port)? {
        return Ok(false);
    }
    stands_at_word(alloc, note, at, 2);
    Ok(true)
}

// Whether an event is one of an input.
fn is_of_input(word: &[u8]) -> bool {
    matches!(word, b"take" | b"enter" | b"expire")
}

// Whether a word is the number of a hand.
fn is_hand(word: &[u8]) -> bool {
    decimal_up_to(word, 63).is_some()
}

// Says that an event of an input has no hand there, where that is so, and answers whether it is.
fn push_hand(alloc: Global, note: &mut Note, at: FileLine<'_>, word: &[u8]) -> bool {
    if let Some((_, hand)) = word_in(at.line, 3)
        && is_hand(hand)
    {
        return false;
    }
    stands_at_word(alloc, note, at, 3);
    note.why.say("a hand is a number from 0 to 63");
    note.change.say(shape_of(word));
    true
}

// Which word is likely wrong: behind a hand what it takes, or the action; else the worker.
fn doubtful(at: FileLine<'_>, word: &[u8]) -> usize {
    if !is_of_input(word) {
        return 2;
    }
    match word_in(at.line, 4) {
        Some((_, taken)) if taken == b"link".as_slice() => 6,
        _ => 4,
    }
}

// Says of a line that begins with an event's word what is wrong with it.
fn push_event(
    alloc: Global,
    note: &mut Note,
    at: FileLine<'_>,
    word: &[u8],
    site_text: &[u8],
    file: Option<&RelayText>,
) -> Result<(), AllocError> {
    if push_relay(alloc, note, at, site_text)? {
        return Ok(());
    }
    if is_of_input(word) && push_port(alloc, note, at, file)? {
        return Ok(());
    }
    if is_of_input(word) && push_hand(alloc, note, at, word) {
        return Ok(());
    }
    if word == b"take".as_slice() && push_raw(alloc, note, at)? {
        return Ok(());
    }
    stands_at_word(alloc, note, at, doubtful(at, word));
    note.why.say("the relay has no such port, hand, worker or action, or the line isn't ");
    note.why.say(shape_of(word));
    note.change.say(shape_of(word));
    Ok(())
}

// Says of a line which of its causes it is.
fn push_line(
    alloc: Global,
    note: &mut Note,
    at: FileLine<'_>,
    site_text: &[u8],
    file: Option<&RelayText>,
) -> Result<(), AllocError> {
    let word: &[u8] = match word_in(at.line, 0) {
        Some((_, word)) => word,
        None => &[],
    };
    if EVENTS.iter().any(|known| *known == word) {
        return push_event(alloc, note, at, word, site_text, file);
    }
    stands_at_word(alloc, note, at, 0);
    note.why.say(
        "a line begins with take, enter, expire, grab, done, fail, giveup, post or postlost",
    );
    if let Some(near) = nearest(word, &EVENTS) {
        note.change.append(&[Part::Text(near)]);
    }
    Ok(())
}

// Whether a line is refused for its end, or its beginning, alone.
fn push_bytes(alloc: Global, note: &mut Note, at: FileLine<'_>, text: &[u8]) -> bool {
    let point = Point {
        line: at.number,
        column: 1,
    };
    note.stands_at(alloc, at.file.as_bytes(), Some(point));
    let file = at.file.as_bytes();
    if at.number == 1 && push_encoding(note, file, text) {
        return true;
    }
    push_return(note, file, at.line)
}

// What is said of a line of a file beside a site's.
fn other_line<'a>(file: &'a str, text: &'a [u8], number: u64) -> FileLine<'a> {
    let line: &[u8] = match line_at(text, number) {
        Some(line) => line,
        None => &[],
    };
    FileLine {
        file,
        text,
        number,
        line,
    }
}

// The name of the file of the relay that an event of an input is at.
fn file_meant<'t>(at: FileLine<'_>, site_text: &'t [u8]) -> Option<&'t str> {
    let (_, word) = word_in(at.line, 0)?;
    let (_, relay) = word_in(at.line, 1)?;
    if is_of_input(word) {
        file_named(site_text, relay)
    } else {
        None
    }
}

/// Says of a line of an events file that is no event which of its causes it is.
pub fn push_no_event(
    alloc: Global,
    texts: &SiteTexts<'_>,
    note: &mut Note,
    number: u64,
) -> Result<(), AllocError> {
    let (Some(file), Some(text)) = (texts.second_name(), texts.second_text()) else {
        return Ok(());
    };
    let Some(site_text) = texts.text() else {
        return Ok(());
    };
    let at = other_line(file, text, number);
    let is_raw = raw_of(at.line).is_some();
    if !is_raw && push_bytes(alloc, note, at, text) {
        return Ok(());
    }
    let relay = match file_meant(at, site_text) {
        Some(name) => texts.file(name),
        None => None,
    };
    push_line(alloc, note, at, site_text, relay)
}

/// Says of an event that isn't made where it stands, in the events file of that name and text.
pub fn push_illegal(
    alloc: Global,
    note: &mut Note,
    file: &str,
    text: &[u8],
    number: u64,
    why: &str,
) {
    let at = other_line(file, text, number);
    stands_at_word(alloc, note, at, 0);
    note.why.say(why);
}

// Says of a line that has no row's shape what the lines of a certificate are.
fn push_no_shape(note: &mut Note, at: FileLine<'_>) {
    if at.number == 1 {
        note.why.say(
            "the first line is cert 1, or cert 2 for a site file with policy 2, with an LF behind it",
        );
        note.change.say("cert 1 or cert 2");
        return;
    }
    note.why.say(
        "the line is no row with an LF behind it: class, reach, branch (in cert 2 alone), rank, inner, path",
    );
    if let Some((_, word)) = word_in(at.line, 0) {
        if let Some(near) = nearest(word, &ROWS) {
            note.change.append(&[Part::Text(near)]);
        }
    }
}

fn push_row(note: &mut Note, at: FileLine<'_>, fault: TextFault) {
    match fault.code {
        FaultCode::Order => {
            note.why.say(
                "a row of this kind may not follow the one before: they come as class, reach, branch, rank, inner, path",
            );
        }
        FaultCode::Number => {
            note.why.say("a number of the line is out of its range, or has a leading zero");
        }
        _ => push_no_shape(note, at),
    }
}

/// Says of a line of a certificate, in the file of that name and text, why it is none.
pub fn push_no_row(alloc: Global, note: &mut Note, file: &str, text: &[u8], fault: TextFault) {
    let at = other_line(file, text, fault.line as u64);
    if push_bytes(alloc, note, at, text) {
        return;
    }
    stands_at_word(alloc, note, at, 0);
    push_row(note, at, fault);
}
