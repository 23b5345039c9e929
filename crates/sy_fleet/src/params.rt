//! The parameters of an object, and their values.

use std::alloc::{AllocError, Global};
use sy_fleet_text::scan::part;
use sy_fleet_text::words::same_word;
use sy_fleet_text::{Kind, Piece};

/// A stretch of a text.
#[derive(Clone, Copy)]
pub struct Span {
    pub start: usize,
    pub end: usize,
}

impl Span {
    /// Its bytes.
    pub fn of(self, text: &[u8]) -> &[u8] {
        part(text, self.start, self.end)
    }
}

/// A parameter: its name, and its value without quotes, of an array the first one.
#[derive(Clone, Copy)]
pub struct Param {
    pub name: Span,
    pub value: Span,
}

// The value that a piece is.
fn value_in(piece: Piece) -> Option<Span> {
    match piece.kind {
        Kind::Quoted => Some(Span {
            start: piece.start.saturating_add(1),
            end: piece.end.saturating_sub(1),
        }),
        Kind::Bare => Some(Span {
            start: piece.start,
            end: piece.end,
        }),
        _ => None,
    }
}

/// The parameters that these pieces are.
pub fn params_of(alloc: Global, pieces: &[Piece]) -> Result<Vec<Param>, AllocError> {
    let mut params = Vec::new(alloc);
    let mut name = None;
    for piece in pieces {
        if let Kind::Name = piece.kind {
            name = Some(Span {
                start: piece.start,
                end: piece.end,
            });
        }
        if let (Some(found), Some(value)) = (name, value_in(*piece)) {
            params.push(Param { name: found, value })?;
            name = None;
        }
    }
    Ok(params)
}

/// Where the value of the parameter of a name is, without regard to case; of several that of the last one.
pub fn span_of(text: &[u8], params: &[Param], name: &[u8]) -> Option<Span> {
    let mut found = None;
    for param in params {
        if same_word(name, param.name.of(text)) {
            found = Some(param.value);
        }
    }
    found
}

/// That value.
pub fn value_of<'a>(text: &'a [u8], params: &[Param], name: &[u8]) -> Option<&'a [u8]> {
    span_of(text, params, name).map(|it: Span| it.of(text))
}

/// Whether the value of a parameter is this word.
pub fn is_given(text: &[u8], params: &[Param], name: &[u8], word: &[u8]) -> bool {
    match value_of(text, params, name) {
        Some(value) => same_word(word, value),
        None => false,
    }
}

/// Whether a parameter is given, and neither 0 nor `off`.
pub fn is_on(text: &[u8], params: &[Param], name: &[u8]) -> bool {
    match value_of(text, params, name) {
        Some(value) => !same_word(b"off", value) && value != b"0".as_slice() && !value.is_empty(),
        None => false,
    }
}

// What a number's last letter makes of it, as `k`.
fn scale(letter: u8) -> u64 {
    match letter {
        b'k' => 1024,
        b'K' => 1000,
        b'm' => 1_048_576,
        b'M' => 1_000_000,
        b'g' => 1_073_741_824,
        b'G' => 1_000_000_000,
        _ => 1,
    }
}

/// The number that a text is: digits, and a letter for its size. The greatest where it is greater.
pub fn number_of(text: &[u8]) -> Option<u64> {
    let mut number: u64 = 0;
    for at in 0..text.len() {
        let byte = text[at];
        if !byte.is_ascii_digit() {
            if at == 0 || at + 1 < text.len() {
                return None;
            }
            return Some(number.saturating_mul(scale(byte)));
        }
        let digit = u64::from(byte.saturating_sub(b'0'));
        number = number.saturating_mul(10).saturating_add(digit);
    }
    if text.is_empty() { None } else { Some(number) }
}

/// The last part of a path, without `.so` and `builtin:`: the name of a module.
pub fn module_of(value: &[u8]) -> &[u8] {
    let mut start = 0;
    for at in 0..value.len() {
        if value[at] == b'/' || value[at] == b':' {
            start = at + 1;
        }
    }
    let name = part(value, start, value.len());
    match name.strip_suffix(b".so") {
        Some(name) => name,
        None => name,
    }
}
