//! Characters of the texts in JSON documents.

use crate::texts::printed::{digit, is_shown};
use std::alloc::AllocError;

// The digits of a code below 65,536, to the base 16.
fn digits_of(code: u32) -> [u8; 4] {
    [
        digit((code / 4096 % 16) as u8),
        digit((code / 256 % 16) as u8),
        digit((code / 16 % 16) as u8),
        digit((code % 16) as u8),
    ]
}

/// Puts a character of a text: in UTF-8 or, where it doesn't stand as it is in what is printed, as `\u009b`. (All that
/// don't are below U+10000.)
pub fn append_character(text: &mut Vec<u8>, character: char) -> Result<(), AllocError> {
    if is_shown(character) {
        let mut room = [0; 4];
        return text.extend_from_slice(character.encode_utf8(&mut room).as_bytes());
    }
    text.extend_from_slice(b"\\u")?;
    text.extend_from_slice(&digits_of(character as u32))
}
