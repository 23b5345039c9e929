//! Notes of relay lines and outside lines of a site file: names, and where hosts are reached.

use crate::file_line::{FileLine, stands_at_word};
use crate::site::lines::{push_words, words_in};
use std::alloc::Global;
use std::net::IpAddr;
use sy_places::site_file::source::word_in;
use sy_report::texts::note::Note;
use sy_wire::numbers::number_up_to;

/// The words of a relay line.
static RELAY_LINE: &str = "relay NAME FILE [ADDRESS] [listen ADDRESS]";

// A word of a line, empty where there is none.
fn word_of(line: &[u8], number: usize) -> &[u8] {
    match word_in(line, number) {
        Some((_, word)) => word,
        None => &[],
    }
}

fn is_name(word: &[u8]) -> bool {
    !word.is_empty()
        && word.len() <= 64
        && word.iter().all(|b| b.is_ascii_alphanumeric() || *b == b'-' || *b == b'_' || *b == b'.')
}

fn is_host_name(word: &[u8]) -> bool {
    word.len() <= 255
        && word
            .iter()
            .all(|b| b.is_ascii_alphanumeric() || *b == b'-' || *b == b'.')
        && word.iter().any(|b| b.is_ascii_alphabetic())
        && word != b"listen".as_slice()
}

fn is_address(word: &[u8]) -> bool {
    IpAddr::parse_ascii(word).is_ok()
}

fn is_port(word: &[u8]) -> bool {
    word.first() != Some(&b'0') && number_up_to(word, 65_535).is_some()
}

// Says that a word is no name, where it is none, and answers whether it is so.
fn push_name(alloc: Global, note: &mut Note, at: FileLine<'_>, why: &str) -> bool {
    if is_name(word_of(at.line, 1)) {
        return false;
    }
    stands_at_word(alloc, note, at, 1);
    note.why.say(why);
    note.change.say("such a name");
    true
}

// Says that a word is no host, where it is none, and answers whether it is so.
fn push_host(
    alloc: Global,
    note: &mut Note,
    at: FileLine<'_>,
    number: usize,
    change: &str,
) -> bool {
    let word = word_of(at.line, number);
    if is_address(word) || is_host_name(word) {
        return false;
    }
    stands_at_word(alloc, note, at, number);
    note.why.say(
        "an address is an IPv4 address, an IPv6 address without brackets and zone, or the name of a host, which has a letter",
    );
    note.change.say(change);
    true
}

// Says what is wrong with `listen ADDRESS` from a word on, where something is, and answers whether it is.
fn push_listen(alloc: Global, note: &mut Note, at: FileLine<'_>, number: usize) -> bool {
    if word_of(at.line, number) != b"listen".as_slice() {
        push_words(alloc, note, at, number, RELAY_LINE);
        return true;
    }
    let behind = number.saturating_add(1);
    if is_address(word_of(at.line, behind)) {
        return false;
    }
    stands_at_word(alloc, note, at, behind);
    note.why.say(
        "a relay listens at an IPv4 or IPv6 address of its host, or at 0.0.0.0, which is all of them",
    );
    note.change.say("such an address");
    true
}

// Says that a name of a host without a dot doesn't stand alone, where the last word is one, and answers whether it is so.
fn push_alone(alloc: Global, note: &mut Note, at: FileLine<'_>, count: usize) -> bool {
    let word = word_of(at.line, 3);
    if count != 4 || is_address(word) || word.contains(&b'.') {
        return false;
    }
    stands_at_word(alloc, note, at, 3);
    note.why.say("the name of a host has a dot here, or listen and an address stand behind it");
    note.change.say("127.0.0.1, or no address");
    true
}

// Says what is wrong with the words behind a relay's file, where something is, and answers whether it is.
fn push_reach(alloc: Global, note: &mut Note, at: FileLine<'_>, count: usize) -> bool {
    if count == 3 {
        return false;
    }
    if count == 5 || word_of(at.line, 3) == b"listen".as_slice() {
        if push_listen(alloc, note, at, 3) {
            return true;
        }
        if count == 6 {
            push_words(alloc, note, at, 5, RELAY_LINE);
        }
        return count == 6;
    }
    if push_host(alloc, note, at, 3, "127.0.0.1, or no address") {
        return true;
    }
    if count == 6 {
        return push_listen(alloc, note, at, 4);
    }
    push_alone(alloc, note, at, count)
}

/// Says of a relay line that is none what is wrong with it.
pub fn push_relay_line(alloc: Global, note: &mut Note, at: FileLine<'_>) {
    let count = words_in(at.line);
    if count < 3 || count > 6 {
        push_words(alloc, note, at, count.min(6), RELAY_LINE);
        return;
    }
    if push_name(
        alloc,
        note,
        at,
        "a relay's name has 1 to 64 letters, digits, -, _ and .",
    ) {
        return;
    }
    if !push_reach(alloc, note, at, count) {
        stands_at_word(alloc, note, at, 0);
        note.why.say("a site has 64 relays at most, and the name of a file is UTF-8");
        note.change.say("fewer relay lines, or another name");
    }
}

/// Says of an outside line that is none what is wrong with it.
pub fn push_outside_line(alloc: Global, note: &mut Note, at: FileLine<'_>) {
    let count = words_in(at.line);
    if count != 4 {
        push_words(alloc, note, at, count.min(4), "outside NAME ADDRESS PORT");
        return;
    }
    if push_name(
        alloc,
        note,
        at,
        "the name of a receiver has 1 to 64 letters, digits, -, _ and ., as a forward's target has it",
    ) {
        return;
    }
    if push_host(alloc, note, at, 2, "such an address") {
        return;
    }
    if is_port(word_of(at.line, 3)) {
        stands_at_word(alloc, note, at, 0);
        note.why.say("a site has 256 outside lines at most");
        note.change.say("fewer outside lines");
        return;
    }
    stands_at_word(alloc, note, at, 3);
    note.why
        .say("a port is a number of 1 to 65535 without a leading zero");
    note.change.say("the number of a port");
}
