//! Where stretches of bytes end.

ghost use Rattle.std.specs.Prelude.{◌≡◌, ◌+◌, ◌<◌, ◌≤◌, false, length, slice_index, MatchOption};
ghost use Rattle.std.specs.List.{slice_range};
ghost use Rattle.sy_fleet_text.specs.Classes.{is_in};
ghost use Rattle.sy_fleet_text.specs.Stretches as spec;
ghost use Rattle.sy_fleet_text.specs.internal.Places as places;

use crate::classes;
use crate::classes::Class;

/// The byte at a place, or 0 where there is none.
pub fn byte_at(text: &[u8], at: usize) -> u8
    ensures { result ≡ slice_index text.now at }
{
    match text.get(at) {
        Some(byte) => *byte,
        None => 0,
    }
}

/// The bytes from a place up to another, or those of them that are there.
pub fn part(text: &[u8], start: usize, end: usize) -> &[u8]
    ensures { result.now ≡ slice_range text.now start end }
{
    let rest = if start < text.len() {
        &text[start..]
    } else {
        &text[text.len()..]
    };
    let len = end.saturating_sub(start);
    if len < rest.len() { &rest[..len] } else { rest }
}

// Whether a byte of the class is at the place.
fn has(class: Class, text: &[u8], at: usize) -> bool
    ensures { result ≡ places.has class text.now at }
{
    if at < text.len() {
        classes::is_in(class, text[at])
    } else {
        false
    }
}

/// Where the bytes of a class from a place on end.
pub(crate) fn end_of(class: Class, text: &[u8], from: usize) -> usize
    requires { from ≤ length text.now }
    ensures order { from ≤ result }
    ensures within { result ≤ length text.now }
    ensures each { spec.AreEach (is_in class) text.now from result }
    ensures next { places.has class text.now result ≡ false }
{
    let mut end = from;
    while has(class, text, end) {
        end += 1;
    }
    end
}

// Whether a line goes on at a place behind its first byte: by any byte but a line feed, or by one behind a backslash.
fn line_goes_on(text: &[u8], at: usize) -> bool
    requires { 0 < at }
    ensures { result ≡ spec.line_goes_on text.now at }
{
    if has(Class::Line, text, at) {
        return true;
    }
    at < text.len() && text[at - 1] == b'\\'
}

/// Where the line that begins at a place ends. Line feeds behind a backslash belong to it.
pub(crate) fn line_end(text: &[u8], start: usize) -> usize
    requires { start < length text.now }
    ensures order { start < result }
    ensures within { result ≤ length text.now }
    ensures line { spec.IsLine text.now start result }
{
    let mut end = start + 1;
    while line_goes_on(text, end) {
        end += 1;
    }
    end
}

// Whether the end of a comment is at a place.
fn comment_ends(text: &[u8], at: usize) -> bool
    ensures { result ≡ spec.comment_ends text.now at }
{
    byte_at(text, at) == b'*' && byte_at(text, at + 1) == b'/'
}

/// Where the comment whose `/*` is at a place ends.
pub(crate) fn comment_end(text: &[u8], start: usize) -> Option<usize>
    requires { start + 2 ≤ length text.now }
    ensures { MatchOption result (spec.NoEnd text.now (start + 2) (length text.now)) (λ end. spec.EndsComment text.now start end) }
{
    let mut at = start + 2;
    while at < text.len() {
        if comment_ends(text, at) {
            return Some(at + 2);
        }
        at += 1;
    }
    None
}

// Whether a backslash that none escapes is there, which escapes the next byte.
fn escapes(is_escaped: bool, byte: u8) -> bool
    ensures { result ≡ spec.escapes is_escaped byte }
{
    !is_escaped && byte == b'\\'
}

// Whether the quote ends a text: none escapes it.
fn ends_text(is_escaped: bool, byte: u8, quote: u8) -> bool
    ensures { result ≡ spec.ends_text is_escaped byte quote }
{
    !is_escaped && byte == quote
}

/// Where the text ends whose opening quote is at a place.
pub(crate) fn text_end(text: &[u8], start: usize) -> Option<usize>
    requires { start < length text.now }
    ensures { MatchOption result (spec.IsOpenText text.now start) (λ end. spec.IsQuoted text.now start end) }
{
    let quote = text[start];
    let mut is_escaped = false;
    let mut at = start + 1;
    while at < text.len() {
        let byte = text[at];
        if ends_text(is_escaped, byte, quote) {
            return Some(at + 1);
        }
        is_escaped = escapes(is_escaped, byte);
        at += 1;
    }
    None
}
