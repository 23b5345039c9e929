//! The pieces that stand in more than one kind of place: stretches of bytes, marks, lines, comments, texts, objects.

ghost use Rattle.std.specs.Prelude.{◌≡◌, ◌+◌, ◌<◌, ◌≤◌, ℕ, true, length, slice_index, IfSome};
ghost use Rattle.sy_fleet_text.specs.Classes.{is_in};
ghost use Rattle.sy_fleet_text.specs.Pieces as spec;
ghost use Rattle.sy_fleet_text.specs.internal.Found as found;
ghost use Rattle.sy_fleet_text.specs.Stretches.{AreEach, IsLine, IsQuoted};

use crate::classes::Class;
use crate::fault::Refusal;
use crate::piece::{Kind, Mark};
use crate::scan::{byte_at, comment_end, end_of, line_end, part, text_end};
use crate::words::object_of;

/// A piece by its kind and its end, its beginning being known.
#[derive(Clone, Copy)]
pub(crate) struct Found {
    pub kind: Kind,
    pub end: usize,
}

/// The bytes of a class, as a piece.
pub(crate) fn stretch(class: Class, kind: Kind, text: &[u8], at: usize) -> Result<Found, Refusal>
    requires there { at < length text.now }
    requires kind { (end : ℕ) → AreEach (is_in class) text.now at end → spec.IsPiece kind text.now at end }
    ensures { found.Reads text.now at result }
{
    let end = end_of(class, text, at);
    if end > at {
        Ok(Found { kind, end })
    } else {
        Err(Refusal::Unexpected)
    }
}

/// A piece of one byte.
pub(crate) fn mark(kind: Mark, text: &[u8], at: usize) -> Result<Found, Refusal>
    requires there { at < length text.now }
    requires kind { spec.is_mark kind (slice_index text.now at) ≡ true }
    ensures { found.Reads text.now at result }
{
    Ok(Found {
        kind: Kind::Mark(kind),
        end: at + 1,
    })
}

/// A piece up to the end of its line.
pub(crate) fn line(kind: Kind, text: &[u8], at: usize) -> Result<Found, Refusal>
    requires there { at < length text.now }
    requires kind { (end : ℕ) → IsLine text.now at end → spec.IsPiece kind text.now at end }
    ensures { found.Reads text.now at result }
{
    Ok(Found {
        kind,
        end: line_end(text, at),
    })
}

/// A comment that begins with `#`.
pub(crate) fn line_comment(text: &[u8], at: usize) -> Result<Found, Refusal>
    requires there { at < length text.now }
    requires hash { slice_index text.now at ≡ 35 }
    ensures { found.Reads text.now at result }
{
    stretch(Class::Line, Kind::Comment, text, at)
}

/// A comment that begins with `/*`.
pub(crate) fn block_comment(text: &[u8], at: usize) -> Result<Found, Refusal>
    requires within { at + 2 ≤ length text.now }
    requires solidus { slice_index text.now at ≡ 47 }
    requires star { slice_index text.now (at + 1) ≡ 42 }
    ensures { found.Reads text.now at result }
{
    match comment_end(text, at) {
        Some(end) => Ok(Found {
            kind: Kind::Comment,
            end,
        }),
        None => Err(Refusal::OpenComment),
    }
}

/// A line that goes on.
pub(crate) fn continuation(text: &[u8], at: usize) -> Result<Found, Refusal>
    requires there { at < length text.now }
    requires backslash { slice_index text.now at ≡ 92 }
    ensures { found.Reads text.now at result }
{
    if at + 1 < text.len() && text[at + 1] == b'\n' {
        return Ok(Found {
            kind: Kind::Continuation,
            end: at + 2,
        });
    }
    Err(Refusal::Unexpected)
}

/// A text in quotes.
pub(crate) fn quoted(text: &[u8], at: usize) -> Result<Found, Refusal>
    requires there { at < length text.now }
    ensures { found.Reads text.now at result }
{
    match text_end(text, at) {
        Some(end) => Ok(Found {
            kind: Kind::Quoted,
            end,
        }),
        None => Err(Refusal::OpenText),
    }
}

/// An object's name and the parenthesis behind it, where the word up to a place is one.
pub(crate) fn opening(text: &[u8], at: usize, word_end: usize) -> Option<Found>
    requires order { at < word_end }
    requires within { word_end ≤ length text.now }
    ensures { IfSome result (λ piece. found.IsFound text.now at piece) }
{
    let object = object_of(part(text, at, word_end))?;
    let gap_end = end_of(Class::Blank, text, word_end);
    if gap_end < text.len() && text[gap_end] == b'(' {
        return Some(Found {
            kind: Kind::Opening(object),
            end: gap_end + 1,
        });
    }
    None
}

/// A parameter's name, where one is at the place and an equals sign behind it.
pub(crate) fn name(text: &[u8], at: usize) -> Option<Found>
    requires { at < length text.now }
    ensures { IfSome result (λ piece. found.IsFound text.now at piece) }
{
    let word_end = end_of(Class::Name, text, at);
    if word_end == at {
        return None;
    }
    let gap_end = end_of(Class::Blank, text, word_end);
    if gap_end < text.len() && text[gap_end] == b'=' {
        return Some(Found {
            kind: Kind::Name,
            end: word_end,
        });
    }
    None
}
