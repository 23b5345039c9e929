//! Notes of the faults of a script: what was expected, and where what is open was opened.

use crate::encoding::push_encoding;
use crate::script::legacy::{push_filter_line, push_left_out, push_selector_line, selector_line};
use crate::script::opened::{Open, Opening, is_word_byte, open_at};
use crate::script::slips::push_slip;
use std::alloc::Global;
use sy_places::site_file::source::{behind, between, find, place_of_line, point_at};
use sy_report::texts::near::nearest;
use sy_report::texts::note::{Note, Point};
use sy_report::texts::parts::Part;
use sy_report::texts::words::Words;
use sy_script::{FaultCode, ScriptFault};

/// The words that an object or a statement begins with, and those that go on with a test.
static STATEMENTS: [&[u8]; 11] = [
    b"module",
    b"global",
    b"main_queue",
    b"input",
    b"ruleset",
    b"action",
    b"call",
    b"stop",
    b"if",
    b"then",
    b"else",
];

/// The most bytes of a script.
const MOST: u64 = 1_048_576;

/// The token at a place of a text, as far as that matters to people: a word, digits, or one byte.
pub fn token_at(text: &[u8], place: usize) -> &[u8] {
    let rest = behind(text, place);
    let mut end: usize = 0;
    for byte in rest {
        if !is_word_byte(*byte) && !(end == 0 && *byte == b'$') {
            break;
        }
        end = end.saturating_add(1);
    }
    between(rest, 0, end.max(1).min(rest.len()))
}

// Puts what stands at a place, or that the text ends there.
fn push_found(words: &mut Words, token: &[u8]) {
    if token.is_empty() || token == b"\n".as_slice() {
        words.say("the end of the text");
    } else {
        words.append(&[Part::Text(token)]);
    }
}

fn opening_word(opening: Opening) -> &'static [u8] {
    match opening {
        Opening::Parameters | Opening::Parenthesis => b"the parenthesis",
        Opening::Brace => b"the brace",
    }
}

fn closing(opening: Opening) -> &'static [u8] {
    match opening {
        Opening::Parameters | Opening::Parenthesis => b")",
        Opening::Brace => b"}",
    }
}

// Says that what is open isn't closed.
fn push_not_closed(note: &mut Note, text: &[u8], open: Open) {
    let point = point_at(text, open.place);
    note.why.append(&[
        Part::Text(opening_word(open.opening)),
        Part::Text(b" opened at "),
        Part::Number(point.line),
        Part::Text(b":"),
        Part::Number(point.column),
        Part::Text(b" isn't closed"),
    ]);
    note.change.append(&[Part::Text(closing(open.opening)), Part::Text(b" before it")]);
}

fn push_expected(note: &mut Note, expected: &str, token: &[u8]) {
    note.why.append(&[
        Part::Text(expected.as_bytes()),
        Part::Text(b" is expected, found "),
    ]);
    push_found(&mut note.why, token);
}

// What is likely meant as a value at a place: the bytes between quotes, or the token, where that is no other name.
fn value_at(text: &[u8], place: usize) -> &[u8] {
    let rest = behind(text, place);
    let token = token_at(text, place);
    match rest.first() {
        Some(quote @ (b'\'' | b'"')) => {
            let inner = behind(rest, 1);
            match find(inner, &[*quote]) {
                Some(end) => between(inner, 0, end),
                None => b"..",
            }
        }
        _ if behind(rest, token.len()).first() == Some(&b'=') => b"..",
        _ => token,
    }
}

// Puts the parameter before a place with the value that is likely meant there.
fn push_value(note: &mut Note, text: &[u8], place: usize, open: Open) {
    note.change.append(&[
        Part::Text(open.name(text)),
        Part::Text(b"=\""),
        Part::Text(value_at(text, place)),
        Part::Text(b"\""),
    ]);
}

// Puts what is missing where = is expected: a quote before, where the string that begins here is what stood between two
// values.
fn push_no_equals(note: &mut Note, text: &[u8], place: usize, open: Open) {
    let value = value_at(text, place);
    if value.iter().any(|byte| *byte == b'=' || *byte == b'\n') {
        note.change.say("\" where a value before it ends");
    } else {
        push_value(note, text, place, open);
    }
}

// What is expected among parameters.
fn push_in_parameters(note: &mut Note, text: &[u8], place: usize, open: Open, token: &[u8]) {
    match (open.before, token.first()) {
        (Some(b'='), _) => {
            push_expected(note, "a value in double quotes", token);
            push_value(note, text, place, open);
        }
        (_, Some(b'}' | b'{')) | (_, None) => push_not_closed(note, text, open),
        (Some(byte), _) if is_word_byte(byte) => {
            push_expected(note, "= with a value in double quotes", token);
            push_no_equals(note, text, place, open);
        }
        (_, Some(byte)) if is_word_byte(*byte) => push_not_closed(note, text, open),
        _ => {
            push_expected(note, "a parameter NAME=\"VALUE\", or )", token);
            note.change.say(") or a parameter there");
        }
    }
}

// What is expected at a token that may not stand where it stands.
fn push_unexpected(note: &mut Note, text: &[u8], place: usize) {
    let token = token_at(text, place);
    match open_at(text, place) {
        Some(open) => match open.opening {
            Opening::Parameters => push_in_parameters(note, text, place, open, token),
            Opening::Parenthesis => {
                push_expected(note, "a test, and, or, or )", token);
                note.change
                    .say("a test, as $msg contains \"x\" or prifilt(\"auth.*\")");
            }
            Opening::Brace => push_no_statement(note, token),
        },
        None => push_no_statement(note, token),
    }
}

// What is expected outside parentheses.
fn push_no_statement(note: &mut Note, token: &[u8]) {
    push_expected(
        note,
        "an object, a statement or what goes on with the one before",
        token,
    );
    match token {
        b"{" => note
            .change
            .say("then before it, as in if .. then { .. }, or without it"),
        b"}" => note.change.say(
            "without it: no brace is open here, or a statement is missing before it",
        ),
        _ => push_statement(note, token),
    }
}

// Puts the word that a statement is likely meant to begin with.
fn push_statement(note: &mut Note, token: &[u8]) {
    match nearest(token, &STATEMENTS) {
        // (the word itself is right)
        Some(near) if near == token => note.change.say(
            "what is missing before it, as { behind ruleset(..) or then behind a test; an object but action stands outside braces",
        ),
        Some(near) => note.change.append(&[Part::Text(near)]),
        None => note.change.say(
            "an object (module, global, main_queue, input, ruleset, action), or call, stop, if .. then ..",
        ),
    }
}

// A byte in hexadecimal digits.
fn push_byte(words: &mut Words, byte: u8) {
    let digits: &[u8] = b"0123456789ABCDEF";
    let high = digits.get((byte >> 4) as usize);
    let low = digits.get((byte & 15) as usize);
    if let (Some(high), Some(low)) = (high, low) {
        words.append(&[Part::Text(b"0x"), Part::Text(&[*high]), Part::Text(&[*low])]);
    }
}

// Of a byte that begins no token.
fn push_byte_fault(note: &mut Note, text: &[u8], place: usize) {
    let Some(byte) = behind(text, place).first() else {
        return;
    };
    let is_escaped = behind(text, place.saturating_sub(1)).first() == Some(&b'\\');
    if is_escaped && place > 0 {
        note.why.say("in a string \\ stands before \", ', \\, $, n, r or t alone");
        note.change.say("\\\\ for a \\ that stands for itself");
        return;
    }
    if push_filter_line(note, text, place) {
        return;
    }
    note.why.say("the byte ");
    push_byte(&mut note.why, *byte);
    note.why.say(" begins nothing that may stand here");
    note.change.say("without it");
}

fn push_unclosed(note: &mut Note, text: &[u8], place: usize) {
    let (what, change): (&str, &str) = match behind(text, place).first() {
        Some(b'(') => ("the parenthesis", ")"),
        Some(b'{') => ("the brace", "}"),
        Some(b'/') => ("the comment", "*/"),
        Some(b'\'') => ("the string", "'"),
        _ => ("the string", "\""),
    };
    note.why.say(what);
    note.why
        .say(" opened here isn't closed up to the end of the text");
    note.change.say(change);
    note.change.say(" where it ends");
}

// Of a text that is too long.
fn push_too_large(note: &mut Note, file: &[u8], text: &[u8]) {
    note.why.append(&[
        Part::Text(file),
        Part::Text(b" has "),
        Part::Number(text.len() as u64),
        Part::Text(b" bytes, at most "),
        Part::Number(MOST),
        Part::Text(b" are read"),
    ]);
    note.change.say("a shorter file");
}

// What is said by the fault's code.
fn push_by_code(note: &mut Note, file: &[u8], text: &[u8], place: usize, fault: &ScriptFault) {
    match fault.code {
        FaultCode::TooLarge => push_too_large(note, file, text),
        FaultCode::LeftOut => push_left_out(note, text, place, fault.word.as_slice()),
        FaultCode::Unclosed => push_unclosed(note, text, place),
        FaultCode::TooDeep => {
            note.why.say("blocks, parentheses and not lie in one another more than 32 deep here");
            note.change
                .say("rulesets that are called, or fewer parentheses");
        }
        FaultCode::Byte => push_byte_fault(note, text, place),
        FaultCode::Unexpected => push_unexpected(note, text, place),
        FaultCode::NoMemory => {}
    }
}

// Puts what stands at the place of a fault: a whole letter, where it isn't of ASCII.
fn push_token(note: &mut Note, text: &[u8], place: usize, code: FaultCode) {
    if matches!(code, FaultCode::TooLarge) {
        return;
    }
    match behind(text, place) {
        [0xE2, second, third, ..] => note.what.append(&[Part::Text(&[0xE2, *second, *third])]),
        _ => push_found(&mut note.what, token_at(text, place)),
    }
}

/// Says of a fault of a script where it stands, why it is one, and what to write.
pub fn push_script_fault(
    alloc: Global,
    note: &mut Note,
    file: &str,
    text: &[u8],
    fault: &ScriptFault,
) {
    let point = Point {
        line: fault.line as u64,
        column: fault.column as u64,
    };
    let start = place_of_line(text, point.line);
    let place = start.saturating_add(fault.column.saturating_sub(1));
    note.stands_at(alloc, file.as_bytes(), Some(point));
    if push_encoding(note, file.as_bytes(), text) {
        return;
    }
    match selector_line(text, place) {
        Some(line) if matches!(fault.code, FaultCode::Byte | FaultCode::Unexpected) => {
            push_selector_line(note, line);
        }
        _ => {
            push_token(note, text, place, fault.code);
            let may_slip = matches!(fault.code, FaultCode::Byte | FaultCode::Unexpected);
            if may_slip && push_slip(note, text, place) {
                return;
            }
            push_by_code(note, file.as_bytes(), text, place, fault);
        }
    }
}
