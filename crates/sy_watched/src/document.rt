//! What is watched of a relay as a JSON document.

use crate::numbers::{ACTION_NUMBERS, INPUT_NUMBERS, QUEUE_NUMBERS, RELAY_NUMBERS};
use crate::text::{append, append_number};
use crate::watched::{Watched, WatchedAction, WatchedInput, WatchedQueue};
use std::alloc::{AllocError, Global};
use std::str;
use sy_report::texts::json::append_character;

// Appends the characters of a text. What a terminal would take for more is written as `\u009b`.
fn append_characters(text: &mut Vec<u8>, value: &str) -> Result<(), AllocError> {
    for character in value.chars() {
        match character {
            '\\' => append(text, "\\\\")?,
            '"' => append(text, "\\\"")?,
            character => append_character(text, character)?,
        }
    }
    Ok(())
}

// Appends a text in quotes, which is UTF-8.
fn append_text(text: &mut Vec<u8>, value: &[u8]) -> Result<(), AllocError> {
    append(text, "\"")?;
    if let Ok(value) = str::from_utf8(value) {
        append_characters(text, value)?;
    }
    append(text, "\"")
}

// Appends the name of a member, behind another.
fn append_key(text: &mut Vec<u8>, key: &str) -> Result<(), AllocError> {
    append(text, ",\"")?;
    append(text, key)?;
    append(text, "\":")
}

// Appends a member that is a number, behind another.
fn append_member(text: &mut Vec<u8>, key: &str, number: u128) -> Result<(), AllocError> {
    append_key(text, key)?;
    append_number(text, number)
}

fn append_input(text: &mut Vec<u8>, input: &WatchedInput) -> Result<(), AllocError> {
    append(text, "{\"port\":")?;
    append_number(text, u128::from(input.port))?;
    for number in &INPUT_NUMBERS {
        append_member(text, number.key(), number.value(input))?;
    }
    append(text, "}")
}

fn append_action(text: &mut Vec<u8>, action: &WatchedAction<'_>) -> Result<(), AllocError> {
    append(text, "{\"name\":")?;
    append_text(text, action.name)?;
    match &action.fails {
        Some(reason) => {
            append(text, ",\"state\":\"fails\",\"reason\":")?;
            append_text(text, reason.as_slice())?;
        }
        None => append(text, ",\"state\":\"works\",\"reason\":null")?,
    }
    for number in &ACTION_NUMBERS {
        append_member(text, number.key(), number.value(action))?;
    }
    append(text, "}")
}

fn append_queue(text: &mut Vec<u8>, queue: &WatchedQueue<'_>) -> Result<(), AllocError> {
    append(text, "{\"name\":")?;
    append_text(text, queue.name)?;
    for number in &QUEUE_NUMBERS {
        match number.value(queue) {
            Some(value) => append_member(text, number.key(), value)?,
            None => {
                append_key(text, number.key())?;
                append(text, "null")?;
            }
        }
    }
    append(text, "}")
}

// Appends what stands between two elements of an array.
fn append_comma(text: &mut Vec<u8>, is_first: bool) -> Result<(), AllocError> {
    if is_first {
        return Ok(());
    }
    append(text, ",")
}

fn append_inputs(text: &mut Vec<u8>, watched: &Watched<'_>) -> Result<(), AllocError> {
    append(text, ",\"inputs\":[")?;
    let mut is_first = true;
    for input in &watched.inputs {
        append_comma(text, is_first)?;
        append_input(text, input)?;
        is_first = false;
    }
    append(text, "]")
}

fn append_actions(text: &mut Vec<u8>, watched: &Watched<'_>) -> Result<(), AllocError> {
    append(text, ",\"actions\":[")?;
    let mut is_first = true;
    for action in &watched.actions {
        append_comma(text, is_first)?;
        append_action(text, action)?;
        is_first = false;
    }
    append(text, "]")
}

fn append_queues(text: &mut Vec<u8>, watched: &Watched<'_>) -> Result<(), AllocError> {
    append(text, ",\"queues\":[")?;
    let mut is_first = true;
    for queue in &watched.queues {
        append_comma(text, is_first)?;
        append_queue(text, queue)?;
        is_first = false;
    }
    append(text, "]")
}

fn append_relay(text: &mut Vec<u8>, watched: &Watched<'_>) -> Result<(), AllocError> {
    append(text, "{\"format\":1,\"command\":\"status\",\"relay\":")?;
    append_text(text, watched.relay)?;
    append_member(text, "at", u128::from(watched.at))?;
    for number in &RELAY_NUMBERS {
        append_member(text, number.key(), number.value(watched))?;
    }
    Ok(())
}

// Appends what a line says behind these words, as a member behind another, where it has them.
fn append_said(text: &mut Vec<u8>, key: &str, line: &str, words: &str) -> Result<(), AllocError> {
    match line.split_once(words) {
        Some((_, said)) => {
            append_key(text, key)?;
            append_text(text, said.as_bytes())
        }
        None => Ok(()),
    }
}

// Appends which files a relay runs, and which program runs it, as lines say it.
fn append_runs(text: &mut Vec<u8>, lines: &[u8]) -> Result<(), AllocError> {
    let Ok(lines) = str::from_utf8(lines) else {
        return Ok(());
    };
    for line in lines.lines() {
        append_said(text, "runs", line, " runs: ")?;
        append_said(text, "program", line, " program: ")?;
    }
    Ok(())
}

/// What is watched of a relay, as a JSON document in one line, with its line feed. The lines are those that say which files it runs, and
/// which program runs it.
pub fn document(alloc: Global, watched: &Watched<'_>, runs: &[u8]) -> Result<Vec<u8>, AllocError> {
    let mut text = Vec::new(alloc);
    append_relay(&mut text, watched)?;
    append_runs(&mut text, runs)?;
    append_inputs(&mut text, watched)?;
    append_actions(&mut text, watched)?;
    append_queues(&mut text, watched)?;
    append(&mut text, "}\n")?;
    Ok(text)
}
