//! Lines of rsyslog's older formats, and statements that are left out: what to write instead.

use crate::plan::left_out::{lost_without, lost_without_module};
use sy_places::site_file::source::{behind, between, find, word_in};
use sy_report::texts::note::Note;
use sy_report::texts::parts::Part;
use sy_site::without_return;

// The line of a text in which a place lies, from its beginning up to its end.
fn line_around(text: &[u8], place: usize) -> (usize, &[u8]) {
    let mut start: usize = 0;
    let mut at: usize = 0;
    for byte in text.iter().take(place) {
        at = at.saturating_add(1);
        if *byte == b'\n' {
            start = at;
        }
    }
    let rest = behind(text, start);
    match find(rest, b"\n") {
        Some(end) => (start, between(rest, 0, end)),
        None => (start, rest),
    }
}

fn is_selector(word: &[u8]) -> bool {
    let is_all = word.iter().all(|b| {
        b.is_ascii_alphanumeric()
            || *b == b'*'
            || *b == b','
            || *b == b';'
            || *b == b'.'
            || *b == b'='
            || *b == b'!'
    });
    is_all && word.contains(&b'.')
}

// Whether a word is what may stand behind a selector: a file, a host, or what a script has too.
fn is_target(word: &[u8]) -> bool {
    word.starts_with(b"action(")
        || matches!(
            word,
            [b'/' | b'-' | b'@' | b'~' | b':' | b'*' | b'|', ..] | b"stop"
        )
}

/// The line round a place, where it looks like a selector with a file, or with a host: `*.* /var/log/all.log`.
pub fn selector_line(text: &[u8], place: usize) -> Option<&[u8]> {
    let (_, line) = line_around(text, place);
    let (_, selector) = word_in(line, 0)?;
    let (_, target) = word_in(line, 1)?;
    if is_selector(selector) && is_target(target) {
        return Some(line);
    }
    None
}

// Puts the page that says more.
fn push_page(note: &mut Note) {
    note.change.say(" (docs/MIGRATING.md)");
}

// Puts the action for what a selector line names behind its selector.
fn push_action(note: &mut Note, target: &[u8]) {
    match target {
        [b'-', b'/', ..] => note.change.append(&[
            Part::Text(b"action(type=\"omfile\" file=\""),
            Part::Text(between(target, 1, target.len())),
            Part::Text(b"\")"),
        ]),
        [b'/', ..] => note.change.append(&[
            Part::Text(b"action(type=\"omfile\" file=\""),
            Part::Text(target),
            Part::Text(b"\")"),
        ]),
        [b'@', ..] => note.change.say(
            "action(type=\"omfwd\" target=\"RELAY\" port=\"PORT\" protocol=\"tcp\" TCP_Framing=\"octet-counted\")",
        ),
        b"~" | b"stop" => note.change.say("stop"),
        _ => note.change.say("action(..)"),
    }
}

/// Says of a selector line what to write instead.
pub fn push_selector_line(note: &mut Note, line: &[u8]) {
    note.why.say("selector lines are left out of this profile");
    let selector = word_in(line, 0);
    let target = word_in(line, 1);
    if let (Some((_, selector)), Some((_, target))) = (selector, target) {
        note.what.append(&[Part::Text(selector)]);
        note.change.append(&[
            Part::Text(b"if prifilt(\""),
            Part::Text(selector),
            Part::Text(b"\") then "),
        ]);
        push_action(note, target);
    }
    push_page(note);
}

/// Says of a line of an older format that begins with & or : what to write instead, and answers whether it is one.
pub fn push_filter_line(note: &mut Note, text: &[u8], place: usize) -> bool {
    let (start, line) = line_around(text, place);
    let (why, change): (&str, &str) = match line.first() {
        Some(b'&') => (
            "lines that begin with & are left out of this profile",
            "both actions behind one test, as if .. then { .. }",
        ),
        Some(b':') => (
            "lines that begin with : are left out of this profile",
            "a test of a property, as if $msg contains \"x\" then ..",
        ),
        _ => return false,
    };
    if start != place {
        return false;
    }
    note.why.say(why);
    note.change.say(change);
    push_page(note);
    true
}

// Puts an object with one parameter.
fn push_with<'a>(note: &mut Note, before: &'a str, value: &'a [u8]) {
    note.change.append(&[
        Part::Text(before.as_bytes()),
        Part::Text(value),
        Part::Text(b"\")"),
    ]);
}

// What to write for a line that begins with $.
fn push_directive(note: &mut Note, word: &[u8], value: &[u8]) {
    if word.eq_ignore_ascii_case(b"$WorkDirectory") {
        push_with(note, "global(workDirectory=\"", value);
    } else if word.eq_ignore_ascii_case(b"$ModLoad") {
        match value {
            b"imtcp" | b"imtcp.so" => push_with(note, "module(load=\"", b"imtcp"),
            _ => note.change.say(match lost_without_module(value) {
                Some(words) => words,
                None => "leave it out: this profile has imtcp, builtin:omfile and builtin:omfwd",
            }),
        }
    } else if word.eq_ignore_ascii_case(b"$InputTCPServerRun") {
        push_with(note, "input(type=\"imtcp\" port=\"", value);
    } else {
        note.change.say(match lost_without(word) {
            Some(words) => words,
            None => "leave it out, or write the parameter that stands for it",
        });
    }
}

/// Says of a statement that is left out what to write instead.
pub fn push_left_out(note: &mut Note, text: &[u8], place: usize, word: &[u8]) {
    let (_, line) = line_around(text, place);
    if word.first() == Some(&b'$') {
        note.why
            .say("lines that begin with $ are left out of this profile");
        let value = match word_in(line, 1) {
            Some((_, value)) => value,
            None => &[],
        };
        push_directive(note, word, without_return(value));
        push_page(note);
        return;
    }
    note.why.append(&[
        Part::Text(word),
        Part::Text(b" is left out of this profile"),
    ]);
    if word.eq_ignore_ascii_case(b"template") {
        note.change.say("leave it out: a message is written as it came, in RFC 5424's form");
    } else {
        note.change
            .say("leave it out, or write if, call and rulesets for it");
    }
    push_page(note);
}
