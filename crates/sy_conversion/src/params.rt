//! The parameters that are carried over.

use crate::draft::append_number;
use std::alloc::{AllocError, Global};
use sy_fleet::params::{Param, number_of};
use sy_fleet_text::scan::part;
use sy_fleet_text::words::same_word;

/// Puts a parameter behind a text. A quote in its value has a backslash before it.
pub(crate) fn append_param(out: &mut Vec<u8>, name: &[u8], value: &[u8]) -> Result<(), AllocError> {
    if !out.as_slice().ends_with(b"(") {
        out.push(b' ')?;
    }
    out.extend_from_slice(name)?;
    out.extend_from_slice(b"=\"")?;
    let mut is_escaped = false;
    for byte in value {
        if *byte == b'"' && !is_escaped {
            out.push(b'\\')?;
        }
        is_escaped = *byte == b'\\' && !is_escaped;
        out.push(*byte)?;
    }
    out.extend_from_slice(b"\"")
}

/// Whether a text is the number of a port.
pub(crate) fn is_port(text: &[u8]) -> bool {
    match number_of(text) {
        Some(number) => {
            text.iter().all(|byte| byte.is_ascii_digit()) && 0 < number && number <= 65_535
        }
        None => false,
    }
}

/// The parameters of a queue that a relay has, each a number, in the order of their letters.
const NUMBERS: [&[u8]; 8] = [
    b"queue.dequeueBatchSize",
    b"queue.discardMark",
    b"queue.discardSeverity",
    b"queue.fullDelayMark",
    b"queue.lightDelayMark",
    b"queue.size",
    b"queue.timeoutEnqueue",
    b"queue.workerThreads",
];

// The name of such a parameter as a relay has it.
fn number_name(name: &[u8]) -> Option<&'static [u8]> {
    for known in NUMBERS.as_slice() {
        if same_word(known, name) {
            return Some(known);
        }
    }
    None
}

// Puts the kind of a queue behind a text; answers whether a relay has it.
fn append_kind(out: &mut Vec<u8>, value: &[u8]) -> Result<bool, AllocError> {
    if same_word(b"LinkedList", value) || same_word(b"Disk", value) {
        append_param(out, b"queue.type", b"LinkedList")?;
        return Ok(same_word(b"LinkedList", value));
    }
    if same_word(b"FixedArray", value) {
        append_param(out, b"queue.type", b"FixedArray")?;
        return Ok(true);
    }
    Ok(same_word(b"Direct", value))
}

// Puts a parameter of a queue behind a text; answers whether a relay has it.
fn append_one(
    alloc: Global,
    out: &mut Vec<u8>,
    name: &[u8],
    value: &[u8],
) -> Result<bool, AllocError> {
    if same_word(b"queue.type", name) {
        return append_kind(out, value);
    }
    if let (Some(known), Some(number)) = (number_name(name), number_of(value)) {
        let mut digits = Vec::new(alloc);
        append_number(&mut digits, number)?;
        append_param(out, known, digits.as_slice())?;
        return Ok(true);
    }
    Ok(false)
}

fn is_of_queue(name: &[u8]) -> bool {
    same_word(b"queue.", part(name, 0, 6))
}

// Whether a name is one of these.
fn is_among(names: &[&[u8]], name: &[u8]) -> bool {
    for known in names {
        if same_word(known, name) {
            return true;
        }
    }
    false
}

/// Those of an object that are left out: all of them, and whether something may be lost by it.
#[derive(Drop)]
pub(crate) struct Without<'a> {
    pub names: Vec<&'a [u8]>,
    pub is_loss: bool,
}

/// The parameters that may be left out without a loss: how lines look, whose files they are, and how many connections there are.
const IDLE: [&[u8]; 20] = [
    b"createDirs",
    b"dirCreateMode",
    b"dirGroup",
    b"dirGroupNum",
    b"dirOwner",
    b"dirOwnerNum",
    b"fileCreateMode",
    b"fileGroup",
    b"fileGroupNum",
    b"fileOwner",
    b"fileOwnerNum",
    b"flushOnTXEnd",
    b"keepAlive",
    b"keepAlive.interval",
    b"keepAlive.probes",
    b"keepAlive.time",
    b"maxListeners",
    b"maxSessions",
    b"name",
    b"template",
];

/// Puts the parameters of a queue behind a text, and answers those that are left out, of which some aren't looked at: they are carried
/// over already.
pub(crate) fn append_queue<'a>(
    alloc: Global,
    out: &mut Vec<u8>,
    text: &'a [u8],
    params: &[Param],
    carried: &[&[u8]],
) -> Result<Without<'a>, AllocError> {
    let mut without = Without {
        names: Vec::new(alloc),
        is_loss: false,
    };
    for param in params {
        let name = param.name.of(text);
        let is_kept = if is_of_queue(name) {
            append_one(alloc, out, name, param.value.of(text))?
        } else {
            is_among(carried, name)
        };
        if !is_kept {
            without.names.push(name)?;
            without.is_loss = without.is_loss || !is_among(IDLE.as_slice(), name);
        }
    }
    Ok(without)
}
