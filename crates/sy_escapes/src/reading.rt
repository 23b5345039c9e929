//! The message that a line is of.

ghost use Rattle.std.specs.Prelude.{◌≡◌, ℕ, List, drop, true, IfNone, IfOk, IfSome};
ghost use Rattle.sy_escapes.specs.Escapes as spec;
ghost use Rattle.sy_escapes.specs.Reading.{IsRead};
ghost use Rattle.sy_escapes.specs.internal.Firsts as first;

use crate::bytes::{begins_octal, is_control, is_escaped};
use std::alloc::{AllocError, Global};
use sy_wire::{Message, MsgFault};

/// What a line is.
#[derive(Drop)]
pub enum Line {
    /// That of this message. (One line feed at its end doesn't come back.)
    Message(Message),
    /// That of bytes that are no message.
    NoMessage(MsgFault),
    /// That of no bytes: they would be written otherwise.
    NoLine,
}

// The number that three octal digits write, which come first.
fn code(digits: &[u8]) -> u64
    requires { spec.begins_octal digits.now ≡ true }
    ensures { result ≡ first.code digits.now }
{
    match digits {
        [a, b, c, ..] => {
            let (a, b, c) = (u64::from(*a - 48), u64::from(*b - 48), u64::from(*c - 48));
            (a * 8 + b) * 8 + c
        }
        _ => 0,
    }
}

// The byte that comes first in a text, and what is left; none where no message's text begins so.
fn first_of(text: &[u8]) -> Option<(u8, &[u8])>
    ensures { first.found_by result ≡ first.first_of text.now }
{
    let [byte, later @ ..] = text else {
        return None;
    };
    if *byte == b'#' && begins_octal(later) {
        return by_escape(later);
    }
    if is_control(*byte) {
        None
    } else {
        Some((*byte, later))
    }
}

fn by_escape(digits: &[u8]) -> Option<(u8, &[u8])>
    requires { spec.begins_octal digits.now ≡ true }
    ensures { first.found_by result ≡ first.by_escape (first.code digits.now) (drop 3 digits.now) }
{
    let later = &digits[3..];
    match u8::try_from(code(digits)) {
        Ok(byte) if is_escaped(byte, later) => Some((byte, later)),
        _ => None,
    }
}

/// The bytes of which that is the line, without its line feed; none where it is the line of no message. (One line feed at the end
/// of a message doesn't come back.)
pub fn read_line(alloc: Global, line: &[u8]) -> Result<Option<Vec<u8>>, AllocError>
    ensures some { IfOk result (λ found. IfSome found (λ bytes. spec.escaped bytes.items ≡ line.now)) }
    ensures none { IfOk result (λ found. IfNone found ((bytes : List ℕ) → spec.escaped bytes ≡ line.now → ⊥)) }
{
    let mut bytes = Vec::new(alloc);
    let mut rest = line;
    while !rest.is_empty() {
        let Some((byte, later)) = first_of(rest) else {
            return Ok(None);
        };
        bytes.push(byte)?;
        rest = later;
    }
    Ok(Some(bytes))
}

/// What a line is, without its line feed.
pub fn read_message(alloc: Global, line: &[u8]) -> Result<Line, AllocError>
    ensures { IfOk result (λ found. IsRead line.now found) }
{
    let Some(bytes) = read_line(alloc, line)? else {
        return Ok(Line::NoLine);
    };
    match Message::read(bytes) {
        Ok(message) => Ok(Line::Message(message)),
        Err((_, fault)) => Ok(Line::NoMessage(fault)),
    }
}
