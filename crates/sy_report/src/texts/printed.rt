//! Names, words and paths of files, as they are printed: whatever they have in them, a terminal shows them in one line.
ghost use Rattle.std.specs.Prelude.{◌≡◌, ◌≤◌, ◌<◌, ◌++◌, ℕ, List, [], OnOk, IfNone, IfSome, chars, length, suc, take};
ghost use Rattle.std.specs.Char.{digit_char};
ghost use Rattle.std.specs.List.{list_all};
ghost use Rattle.std.specs.Str.{continuation_len};
ghost use Rattle.sy_report.specs.Pieces.{piece_text};
ghost use Rattle.sy_report.specs.Printed.{IsPrintable, escaped, is_character, is_direction_control, is_one_shown, is_plain_byte, is_separator, is_shown, printed, shown_size};

use std::alloc::AllocError;
use std::str;

// Whether a character controls in which direction text is read.
fn is_direction_control(character: char) -> bool
    ensures { result ≡ is_direction_control character }
{
    let code = character as u32;
    code == 0x61c
        || (0x200e <= code && code <= 0x200f)
        || (0x202a <= code && code <= 0x202e)
        || (0x2066 <= code && code <= 0x2069)
}

// Whether a character ends a line or a paragraph.
fn is_separator(character: char) -> bool
    ensures { result ≡ is_separator character }
{
    let code = character as u32;
    0x2028 <= code && code <= 0x2029
}

/// Whether a character stands as it is.
pub fn is_shown(character: char) -> bool
    ensures { result ≡ is_shown character }
{
    !(character.is_control() || is_direction_control(character) || is_separator(character))
}

// Whether a text is one character that stands as it is.
fn is_one_shown(text: &str) -> bool
    ensures { result ≡ is_one_shown (chars text.now) }
{
    let mut characters = text.chars();
    let Some(character) = characters.next() else {
        return false;
    };
    if characters.next().is_some() {
        return false;
    }
    is_shown(character)
}

// Whether the bytes are one character that stands as it is.
fn is_character(bytes: &[u8]) -> bool
    ensures { result ≡ is_character bytes.now }
{
    match str::from_utf8(bytes) {
        Ok(text) => is_one_shown(text),
        Err(_) => false,
    }
}

// How many bytes a character has that begins with this one.
fn size_by(first: u8) -> usize
    ensures { result ≡ suc (continuation_len first) }
{
    if first < 0x80 {
        1
    } else if first < 0xe0 {
        2
    } else if first < 0xf0 {
        3
    } else {
        4
    }
}

// So many bytes from the front, or all.
fn front(bytes: &[u8], size: usize) -> &[u8]
    ensures { result.now ≡ take size bytes.now }
{
    match bytes.get(..size) {
        Some(front) => front,
        None => bytes,
    }
}

// How many bytes the character at the front has that stands as it is; 0 where there is none.
fn shown_size(bytes: &[u8]) -> usize
    ensures is { result ≡ shown_size bytes.now }
    ensures within { result ≤ length bytes.now }
{
    let Some(first) = bytes.first() else {
        return 0;
    };
    let size = size_by(*first);
    if is_character(front(bytes, size)) {
        return size;
    }
    0
}

// A digit to the base 16.
pub(crate) fn digit(value: u8) -> u8
    requires { value < 16 }
    ensures { result ≡ digit_char value }
{
    if value < 10 { 48 + value } else { 87 + value }
}

// What is printed of a byte that doesn't stand as it is.
fn escape(byte: u8) -> [u8; 4]
    ensures { result ≡ escaped byte }
{
    [b'\\', b'x', digit(byte / 16), digit(byte % 16)]
}

/// The front of what is printed: a character that stands as it is, or a byte that is escaped.
#[derive(Clone, Copy)]
pub enum Piece<'a> {
    Character(&'a [u8]),
    Byte([u8; 4]),
}

impl Piece<'_> {
    /// What is printed.
    pub fn as_slice(&self) -> &[u8]
        ensures { result.now ≡ piece_text self.now }
    {
        match self {
            Piece::Character(bytes) => bytes,
            Piece::Byte(bytes) => bytes,
        }
    }
}

/// The first piece of a name, and the bytes behind it.
pub fn first_piece(bytes: &[u8]) -> Option<(Piece<'_>, &[u8])>
    ensures some { IfSome result (λ it. (printed bytes.now ≡ piece_text it.0 ++ printed it.1.now) × (length it.1.now < length bytes.now)) }
    ensures none { IfNone result (printed bytes.now ≡ []) }
{
    let Some(first) = bytes.first() else {
        return None;
    };
    let size = shown_size(bytes);
    if size == 0 {
        let (_, behind) = bytes.split_at(1);
        return Some((Piece::Byte(escape(*first)), behind));
    }
    let (character, behind) = bytes.split_at(size);
    Some((Piece::Character(character), behind))
}

fn is_plain_byte(byte: u8) -> bool
    ensures { result ≡ is_plain_byte byte }
{
    31 < byte && byte < 127
}

/// Whether all bytes are printable ASCII characters, so that the name is printed as it is.
pub fn is_plain(name: &[u8]) -> bool
    ensures { result ≡ list_all is_plain_byte name.now }
{
    name.iter().all(|byte| is_plain_byte(*byte))
}

// Puts bytes behind a text.
fn append_plain(text: &mut Vec<u8>, bytes: &[u8]) -> Result<(), AllocError>
    ensures { OnOk result (text.new.items ≡ text.old.items ++ bytes.now) }
{
    text.extend_from_slice(bytes)
}

/// Puts what is printed of a name behind a text.
pub fn append_printed(text: &mut Vec<u8>, name: &[u8]) -> Result<(), AllocError>
    ensures { OnOk result (text.new.items ≡ text.old.items ++ printed name.now) }
{
    if is_plain(name) {
        return append_plain(text, name);
    }
    let mut rest = name;
    while let Some((piece, behind)) = first_piece(rest) {
        text.extend_from_slice(piece.as_slice())?;
        rest = behind;
    }
    Ok(())
}

/// What is printed of a name is UTF-8, and has no control character, no control of the direction of text, and no
/// separator of lines.
pub fn what_is_printed_is_printable()
    ensures { (name : List ℕ) → IsPrintable (printed name) }
{}

/// Names without these are printed as they are.
pub fn what_is_printable_is_printed_as_it_is()
    ensures { (name : List ℕ) → IsPrintable name → printed name ≡ name }
{}
