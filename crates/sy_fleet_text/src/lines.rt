//! The pieces of the older syntax: directives, selectors, filters, blocks, destinations.

ghost use Rattle.std.specs.Prelude.{◌≡◌, ◌<◌, ◌≤◌, length, slice_index, IfSome};
ghost use Rattle.sy_fleet_text.specs.internal.Found as found;

use crate::classes::Class;
use crate::fault::Refusal;
use crate::piece::Kind;
use crate::scan::{byte_at, end_of, text_end};
use crate::tokens::{Found, line, stretch};

/// A directive.
pub(crate) fn directive(text: &[u8], at: usize) -> Result<Found, Refusal>
    requires there { at < length text.now }
    requires dollar { slice_index text.now at ≡ 36 }
    ensures { found.Reads text.now at result }
{
    line(Kind::Directive, text, at)
}

/// The lines behind a program.
pub(crate) fn program(text: &[u8], at: usize) -> Result<Found, Refusal>
    requires there { at < length text.now }
    requires mark { slice_index text.now at ≡ 33 }
    ensures { found.Reads text.now at result }
{
    line(Kind::Program, text, at)
}

/// A destination that a byte of its own shows.
pub(crate) fn destination(text: &[u8], at: usize) -> Result<Found, Refusal>
    requires { at < length text.now }
    ensures { found.Reads text.now at result }
{
    line(Kind::Destination, text, at)
}

/// What begins with `+` or `-`: a host, or a file that isn't synchronized.
pub(crate) fn host(text: &[u8], at: usize) -> Result<Found, Refusal>
    requires { at < length text.now }
    ensures { found.Reads text.now at result }
{
    let next = byte_at(text, at + 1);
    if next == b'/' || next == b'?' || next == b'.' || next == b'|' {
        line(Kind::Destination, text, at)
    } else {
        line(Kind::Host, text, at)
    }
}

// Where the comma behind a filter's part ends, the part beginning at a place.
fn part_end(class: Class, text: &[u8], from: usize) -> Option<usize>
    requires { from ≤ length text.now }
    ensures { IfSome result (λ end. found.IsBehind text.now from end) }
{
    let gap_end = end_of(Class::Blank, text, from);
    let word_end = end_of(class, text, gap_end);
    let end = end_of(Class::Blank, text, word_end);
    if end < text.len() && text[end] == b',' {
        return Some(end + 1);
    }
    None
}

// Where the value of a filter ends, which may be none.
fn value_end(text: &[u8], from: usize) -> Result<usize, Refusal>
    requires { from ≤ length text.now }
    ensures { found.EndsValue text.now from result }
{
    let start = end_of(Class::Blank, text, from);
    if start < text.len() && text[start] == b'"' {
        return match text_end(text, start) {
            Some(end) => Ok(end),
            None => Err(Refusal::Unexpected),
        };
    }
    Ok(from)
}

/// What begins with `:`: a filter, or the destination of a module.
pub(crate) fn colon(text: &[u8], at: usize) -> Result<Found, Refusal>
    requires there { at < length text.now }
    requires colon { slice_index text.now at ≡ 58 }
    ensures { found.Reads text.now at result }
{
    let Some(property_end) = part_end(Class::Variable, text, at + 1) else {
        return line(Kind::Destination, text, at);
    };
    let Some(operation_end) = part_end(Class::Variable, text, property_end) else {
        return line(Kind::Destination, text, at);
    };
    match value_end(text, operation_end) {
        Ok(end) => Ok(Found {
            kind: Kind::Filter,
            end,
        }),
        Err(refusal) => Err(refusal),
    }
}

/// A selector, or users.
pub(crate) fn selector(text: &[u8], at: usize) -> Result<Found, Refusal>
    requires { at < length text.now }
    ensures { found.Reads text.now at result }
{
    let end = end_of(Class::Facility, text, at);
    if byte_at(text, end) == b'.' {
        stretch(Class::Selector, Kind::Selector, text, at)
    } else {
        stretch(Class::Users, Kind::Users, text, at)
    }
}
