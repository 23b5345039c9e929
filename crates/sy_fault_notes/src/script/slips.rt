//! Slips that are often made in a script, with a remedy of their own.

use crate::script::opened::{Opening, is_word_byte, open_at};
use sy_places::site_file::source::{behind, between};
use sy_report::texts::note::Note;
use sy_report::texts::parts::Part;

// Whether a byte before or behind a word ends it.
fn ends_word(byte: Option<&u8>) -> bool {
    match byte {
        Some(byte) => !is_word_byte(*byte),
        None => true,
    }
}

// Whether a word stands at a place of a text, by itself.
fn stands_at(text: &[u8], place: usize, word: &[u8]) -> bool {
    let end = place.saturating_add(word.len());
    let is_begin = place == 0 || ends_word(text.get(place.saturating_sub(1)));
    is_begin && between(text, place, end).eq_ignore_ascii_case(word) && ends_word(text.get(end))
}

// Whether a word stands behind the last `if` before a place.
fn is_in_test(text: &[u8], place: usize, word: &[u8]) -> bool {
    let mut is_there = false;
    for at in 0..place.min(text.len()) {
        if stands_at(text, at, b"if") {
            is_there = false;
        } else if stands_at(text, at, word) {
            is_there = true;
        }
    }
    is_there
}

fn push(note: &mut Note, why: &str, change: &str) {
    note.why.say(why);
    note.change.say(change);
}

// Of quotes as word processors write them.
fn push_curly_quote(note: &mut Note, rest: &[u8]) -> bool {
    match rest {
        [0xE2, 0x80, 0x98 | 0x99, ..] => {
            push(
                note,
                "a curly quote begins no string",
                "' in its place, and at the string's end",
            );
            true
        }
        [0xE2, 0x80, 0x9C | 0x9D | 0x9E, ..] => {
            push(
                note,
                "a curly quote begins no string",
                "\" in its place, and at the string's end",
            );
            true
        }
        _ => false,
    }
}

// Of signs of other languages.
fn push_other_sign(note: &mut Note, rest: &[u8]) -> bool {
    match rest {
        [b'/', b'/', ..] => push(
            note,
            "no comment begins with //",
            "# before a comment up to the end of its line, or /* and */ around it",
        ),
        [b'&', b'&', ..] => push(note, "no test has &&", "and"),
        [b'|', b'|', ..] => push(note, "no test has ||", "or"),
        _ => return false,
    }
    true
}

// Of `and` and `or` without parentheses.
fn push_mixed(note: &mut Note, text: &[u8], place: usize) -> bool {
    let is_mixed = (stands_at(text, place, b"or") && is_in_test(text, place, b"and"))
        || (stands_at(text, place, b"and") && is_in_test(text, place, b"or"));
    if is_mixed {
        push(
            note,
            "and and or stand beside one another without parentheses, so that nothing says which of them goes first",
            "parentheses around what belongs together, as (A and B) or C",
        );
    }
    is_mixed
}

// The value behind `==` in an object, up to a blank or a parenthesis.
fn value_behind(rest: &[u8]) -> &[u8] {
    let mut end: usize = 0;
    for byte in rest {
        if matches!(*byte, b' ' | b'\t' | b'\r' | b'\n' | b')') {
            break;
        }
        end = end.saturating_add(1);
    }
    between(rest, 0, end)
}

// Of `==` in an object, and of `=` in a test.
fn push_equals(note: &mut Note, text: &[u8], place: usize) -> bool {
    let rest = behind(text, place);
    let open = open_at(text, place);
    match open {
        Some(open) if open.opening == Opening::Parameters => {
            if !rest.starts_with(b"==") {
                return false;
            }
            note.why.say("one = stands between a parameter and its value, and == in a test");
            note.change.append(&[
                Part::Text(open.name(text)),
                Part::Text(b"="),
                Part::Text(value_behind(behind(rest, 2))),
            ]);
            true
        }
        _ => {
            let is_one = rest.starts_with(b"=");
            if is_one {
                push(
                    note,
                    "a test compares by ==, and one = stands in an object",
                    "==",
                );
            }
            is_one
        }
    }
}

/// Says of a slip at a place what it is and what to write, and answers whether it is one.
pub fn push_slip(note: &mut Note, text: &[u8], place: usize) -> bool {
    let rest = behind(text, place);
    push_curly_quote(note, rest)
        || push_other_sign(note, rest)
        || push_mixed(note, text, place)
        || push_equals(note, text, place)
}
