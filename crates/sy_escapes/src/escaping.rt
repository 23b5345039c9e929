//! The line of a message.

ghost use Rattle.std.specs.Prelude.{◌≡◌, ◌++◌, ◌-◌, ◌≤◌, [], ◌∷◌, length, take, IfOk, OnOk};
ghost use Rattle.sy_escapes.specs.Escapes as spec;
ghost use Rattle.sy_escapes.specs.internal.Plain.{ArePlain, is_plain};

use crate::bytes::{escape, is_control, is_escaped};
use std::alloc::AllocError;

// Whether a byte is written as it is, whatever comes after it.
fn is_plain(byte: u8) -> bool
    ensures { result ≡ is_plain byte }
{
    !is_control(byte) && byte != b'#'
}

// How many of the bytes, from the first on, are written as they are.
fn plain_len(bytes: &[u8]) -> usize
    ensures within { result ≤ length bytes.now }
    ensures plain { ArePlain (take result bytes.now) }
{
    let mut len = 0;
    while len < bytes.len() {
        if !is_plain(bytes[len]) {
            return len;
        }
        len += 1;
    }
    len
}

// Puts what is written for a byte behind a text, where these come after it.
fn append_byte(text: &mut Vec<u8>, byte: u8, later: &[u8]) -> Result<(), AllocError>
    ensures { OnOk result (text.new.items ≡ text.old.items ++ spec.written byte later.now) }
{
    if is_escaped(byte, later) {
        text.extend_from_slice(&escape(byte))
    } else {
        text.push(byte)?;
        Ok(())
    }
}

// Puts the first of the bytes behind a text, and answers what is left.
fn append_first<'b>(text: &mut Vec<u8>, bytes: &'b [u8]) -> Result<&'b [u8], AllocError>
    ensures text { IfOk result (λ left. text.new.items ++ spec.escaped left.now ≡ text.old.items ++ spec.escaped bytes.now) }
    ensures less { IfOk result (λ left. length left.now ≤ length bytes.now - 1) }
{
    match bytes.split_first() {
        Some((byte, later)) => {
            append_byte(text, *byte, later)?;
            Ok(later)
        }
        None => Ok(bytes),
    }
}

// Puts bytes behind a text, with escapes in the place of some.
fn append_escaped(text: &mut Vec<u8>, bytes: &[u8]) -> Result<(), AllocError>
    ensures { OnOk result (text.new.items ≡ text.old.items ++ spec.escaped bytes.now) }
{
    let mut rest = bytes;
    while !rest.is_empty() {
        let (plain, after) = rest.split_at(plain_len(rest));
        text.extend_from_slice(plain)?;
        rest = append_first(text, after)?;
    }
    Ok(())
}

// Bytes without one line feed at their end.
fn trimmed(bytes: &[u8]) -> &[u8]
    ensures { result.now ≡ spec.trimmed bytes.now }
{
    match bytes.split_last() {
        Some((last, front)) if *last == b'\n' => front,
        _ => bytes,
    }
}

/// Writes the line of a message of these bytes, in place of what is there.
pub fn set_line(line: &mut Vec<u8>, raw: &[u8]) -> Result<(), AllocError>
    ensures { OnOk result (line.new.items ≡ spec.line_of_bytes raw.now) }
{
    line.clear();
    append_escaped(line, trimmed(raw))?;
    line.push(b'\n')?;
    Ok(())
}
