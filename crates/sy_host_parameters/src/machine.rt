//! The text that a relay's plan is read from.

ghost use Rattle.std.specs.Prelude.{◌≡◌, ◌++◌, IfNone, IfOk, IfSome, OnOk, map, slice_range};
ghost use Rattle.sy_script.specs.Grammar.{IsScript};
ghost use Rattle.sy_host_parameters.specs.HostParameters as spec;

use crate::given::{Given, all_given};
use std::alloc::{AllocError, Global};
use sy_script::tree::Script;
use sy_script::{FaultCode, read_script};

/// The names of the parameters for the host; `keepAlive`, `fileOwner` and `fileGroup` stand for those that begin so.
static NAMES: [&[u8]; 9] = [
    b"sync",
    b"fileCreateMode",
    b"fileOwner",
    b"fileGroup",
    b"createDirs",
    b"fileType",
    b"escapeControlCharacters",
    b"maxSessions",
    b"keepAlive",
];

// The bytes of a text from one place up to another, or those of them that are there.
fn part(text: &[u8], start: usize, end: usize) -> &[u8]
    ensures { result.now ≡ slice_range text.now start end }
{
    let rest = if start < text.len() {
        &text[start..]
    } else {
        &text[text.len()..]
    };
    let len = end.saturating_sub(start);
    if len < rest.len() { &rest[..len] } else { rest }
}

// Whether a text begins with a name, in any case.
fn begins_with(text: &[u8], name: &[u8]) -> bool
    ensures { result ≡ spec.begins_with text.now name.now }
{
    part(text, 0, name.len()).eq_ignore_ascii_case(name)
}

// Whether a name begins with that letter.
fn may_begin(byte: u8) -> bool
    ensures { result ≡ spec.may_begin byte }
{
    matches!(
        byte,
        b'c' | b'C' | b'e' | b'E' | b'f' | b'F' | b'k' | b'K' | b'm' | b'M' | b's' | b'S'
    )
}

// Whether that is the second letter of a name.
fn may_follow(byte: u8) -> bool
    ensures { result ≡ spec.may_follow byte }
{
    matches!(
        byte,
        b'a' | b'A' | b'e' | b'E' | b'i' | b'I' | b'r' | b'R' | b's' | b'S' | b'y' | b'Y'
    )
}

// Whether a name begins with these letters.
fn may_begin_so(first: u8, second: u8) -> bool
    ensures { result ≡ spec.may_begin_so first second }
{
    may_begin(first) && may_follow(second)
}

// Whether a text begins with one of these names, in any case.
fn begins_with_one(text: &[u8], mut names: &'static [&'static [u8]]) -> bool
    ensures { result ≡ spec.begins_with_one text.now (map (λ name. name.now) names.entry.now) }
{
    while let [name, rest @ ..] = names {
        if begins_with(text, name) {
            return true;
        }
        names = rest;
    }
    false
}

// Whether a text begins with the name of a parameter for the host.
fn gives_here(text: &[u8]) -> bool
    ensures { result ≡ spec.gives_here text.now }
{
    if text.len() < 2 {
        return false;
    }
    if !may_begin_so(text[0], text[1]) {
        return false;
    }
    begins_with_one(text, &NAMES)
}

// Whether such a name stands in a text.
fn may_give(text: &[u8]) -> bool
    ensures { result ≡ spec.may_give text.now }
{
    let mut rest = text;
    while let [_, after @ ..] = rest {
        if gives_here(rest) {
            return true;
        }
        rest = after;
    }
    false
}

// What stands in the place of a byte of a parameter for the host.
fn blank_of(byte: u8) -> u8
    ensures { result ≡ spec.blank_of byte }
{
    if byte == b'\n' { b'\n' } else { b' ' }
}

// Appends blanks for these bytes, which keep their lines.
fn append_blanks(machine: &mut Vec<u8>, bytes: &[u8]) -> Result<(), AllocError>
    ensures { OnOk result (machine.new.items ≡ machine.old.items ++ map spec.blank_of bytes.now) }
{
    let mut rest = bytes;
    while let [byte, after @ ..] = rest {
        machine.push(blank_of(*byte))?;
        rest = after;
    }
    Ok(())
}

// A text with blanks in the place of what is given there.
fn blanked(alloc: Global, text: &[u8], all: &[Given]) -> Result<Vec<u8>, AllocError>
    ensures { IfOk result (λ machine. machine.items ≡ spec.blanked text.now 0 all.now) }
{
    let mut machine = Vec::new(alloc);
    let mut at = 0;
    let mut rest = all;
    while let [given, after @ ..] = rest {
        let (start, end) = (given.span.start, given.span.end);
        machine.extend_from_slice(part(text, at, start))?;
        append_blanks(&mut machine, part(text, start, end))?;
        at = end;
        rest = after;
    }
    machine.extend_from_slice(part(text, at, text.len()))?;
    Ok(machine)
}

/// The script that a text is, where it is one.
pub fn script_of(alloc: Global, text: &[u8]) -> Result<Option<Script>, AllocError>
    ensures some { IfOk result (λ found. IfSome found (IsScript text.now)) }
    ensures none { IfOk result (λ found. IfNone found (spec.IsNoScript text.now)) }
{
    match read_script(alloc, text) {
        Ok(script) => Ok(Some(script)),
        Err(fault) => match fault.code {
            FaultCode::NoMemory => Err(AllocError),
            _ => Ok(None),
        },
    }
}

fn machine_of(alloc: Global, text: &[u8], script: &Script) -> Result<Vec<u8>, AllocError>
    ensures { IfOk result (λ machine. machine.items ≡ spec.machine_of text.now script.now) }
{
    let all = all_given(alloc, script)?;
    blanked(alloc, text, all.as_slice())
}

/// The text that a relay's plan is read from, where it is another than that of its file: it has blanks in the place of each parameter
/// for its host that an object takes, with a value that this takes, the first of each in an object. All else is as it was, and
/// stands where it was.
pub fn machine_text(alloc: Global, text: &[u8]) -> Result<Option<Vec<u8>>, AllocError>
    ensures { IfOk result (λ machine. spec.IsMachineText text.now (spec.machine_or text.now machine)) }
{
    if !may_give(text) {
        return Ok(None);
    }
    match script_of(alloc, text)? {
        Some(script) => Ok(Some(machine_of(alloc, text, &script)?)),
        None => Ok(None),
    }
}
