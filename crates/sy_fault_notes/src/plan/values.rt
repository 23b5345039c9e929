//! Notes of values that a parameter doesn't take.

use crate::plan::left_out::{is_other_module, lost_without_module, lost_without_value};
use crate::plan::notes::param_at;
use crate::plan::parameter_rows::{append_values, push_list, push_parameter, row_of};
use sy_places::relay_file::outline::Object;
use sy_places::relay_file::places::Places;
use sy_report::texts::near::nearest;
use sy_report::texts::note::Note;
use sy_report::texts::parts::Part;
use sy_report::texts::words::Words;
use sy_rules::{PlanFault, Shape};
use sy_script::tree::Param;
use sy_wire::numbers::number_up_to;

/// The sizes that letters stand for in rsyslog.
static SUFFIXES: [(u8, u64, u64); 6] = [
    (b'k', 1_000, 1_024),
    (b'K', 1_000, 1_000),
    (b'm', 1_000_000, 1_048_576),
    (b'M', 1_000_000, 1_000_000),
    (b'g', 1_000_000_000, 1_073_741_824),
    (b'G', 1_000_000_000, 1_000_000_000),
];

fn values_of(object: Object<'_>, name: &[u8]) -> Option<Shape> {
    match row_of(object, name) {
        Some(row) => Some(row.shape),
        None => None,
    }
}

// A value with its quotes.
fn push_value(words: &mut Words, value: &[u8]) {
    words.append(&[Part::Text(b"\""), Part::Text(value), Part::Text(b"\"")]);
}

// The number that digits with a letter behind them write: in thousands, and as rsyslog reads it.
fn sizes_of(value: &[u8]) -> Option<(u64, u64)> {
    let (last, digits) = value.split_last()?;
    if digits.len() > 10 {
        return None;
    }
    let number = number_up_to(digits, u64::MAX)?;
    for (letter, plain, read) in &SUFFIXES {
        if letter == last {
            return Some((number.saturating_mul(*plain), number.saturating_mul(*read)));
        }
    }
    None
}

// Puts a parameter with a number.
fn push_number(words: &mut Words, name: &[u8], number: u64) {
    words.append(&[
        Part::Text(name),
        Part::Text(b"=\""),
        Part::Number(number),
        Part::Text(b"\""),
    ]);
}

fn push_no_number(note: &mut Note, name: &[u8], value: &[u8]) {
    note.why.say(" is no number of 1 to 10 digits");
    match sizes_of(value) {
        Some((plain, read)) => {
            note.why.say("; suffixes aren't read");
            push_number(&mut note.change, name, plain);
            if plain != read {
                note.change.append(&[
                    Part::Text(b" (rsyslog reads "),
                    Part::Text(value),
                    Part::Text(b" as "),
                    Part::Number(read),
                    Part::Text(b")"),
                ]);
            }
        }
        None => note.change.say("a number there"),
    }
}

// What is left of a module that has no words of its own.
const DONE_BEHIND: &str =
    "without it, what needs it isn't done here: a program behind a forward of this relay may do it, as an rsyslogd";

// Of a module that isn't one of this profile's.
fn push_module(note: &mut Note, value: &[u8]) {
    note.why.say(": this profile has imtcp, builtin:omfile and builtin:omfwd");
    match lost_without_module(value) {
        Some(words) => note.change.say(words),
        None => note.change.say(DONE_BEHIND),
    }
}

// Of a parameter one of whose values is to be written in place of one that is none.
fn push_allowed(note: &mut Note, name: &[u8], allowed: &[&[u8]]) {
    match allowed {
        [only] => push_parameter(&mut note.change, name, only),
        _ => {
            note.change.say("one of them, as ");
            if let Some(first) = allowed.first() {
                push_parameter(&mut note.change, name, first);
            }
        }
    }
}

fn push_no_word(note: &mut Note, name: &[u8], value: &[u8], allowed: &[&[u8]]) {
    note.why.say(" is none of its values: ");
    push_list(&mut note.why, allowed);
    if let Some(words) = lost_without_value(name, value) {
        note.change.say(words);
        return;
    }
    match nearest(value, allowed) {
        Some(near) => push_parameter(&mut note.change, name, near),
        None if is_other_module(name, value) => note.change.say(DONE_BEHIND),
        None => push_allowed(note, name, allowed),
    }
}

// Of a parameter whose value is of the wrong shape.
fn push_shape(note: &mut Note, object: Object<'_>, param: &Param) {
    let name = param.name.text.as_slice();
    let value = param.value.bytes.as_slice();
    push_value(&mut note.why, value);
    match values_of(object, name) {
        Some(Shape::OneOf(_)) if name.eq_ignore_ascii_case(b"load") => push_module(note, value),
        Some(Shape::OneOf(allowed)) => push_no_word(note, name, value, allowed),
        Some(Shape::NumberOrMinusOne(_, _)) => {
            note.why
                .say(" is neither -1 nor a number of 1 to 10 digits");
            push_parameter(&mut note.change, name, b"-1");
        }
        Some(_) => push_no_number(note, name, value),
        None => {}
    }
}

/// Says why a value isn't one of its parameter, and what to write.
pub fn push_bad_value(note: &mut Note, places: Places<'_>, fault: &PlanFault) {
    if let Some((object, param)) = param_at(places.objects, fault.span.start) {
        push_shape(note, object, param);
    }
}

// What is too many.
fn push_too_many(note: &mut Note, word: &[u8]) {
    let most: &str = match word {
        b"input" => "a relay has 64 inputs at most",
        b"ruleset" => "a relay has 256 rulesets at most, beside the default one",
        b"action" => "a relay has 256 actions at most",
        _ => "a relay has 256 workers at most, of all its queues together",
    };
    note.why.say(most);
    note.change.say("fewer of them");
}

/// Says of a number out of its range what the range is.
pub fn push_out_of_range(note: &mut Note, places: Places<'_>, fault: &PlanFault) {
    let Some((object, param)) = param_at(places.objects, fault.span.start) else {
        push_too_many(note, fault.word.as_slice());
        return;
    };
    let name = param.name.text.as_slice();
    push_value(&mut note.why, param.value.bytes.as_slice());
    note.why.say(" is out of its range");
    if let Some(values) = values_of(object, name) {
        note.why.say(": ");
        append_values(&mut note.why, values);
        note.change.say("a number in that range");
    }
}
