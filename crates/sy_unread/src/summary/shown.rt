//! Lines for a terminal.
ghost use Rattle.std.specs.Prelude.{◌≡◌, ◌++◌, OnOk, flat_map};
ghost use Rattle.sy_unread.specs.Shown as spec;

use itoa::Buffer;
use std::alloc::{AllocError, Global};

/// Lines that are put together, and whether memory ran out.
#[derive(Drop)]
pub struct Lines {
    text: Vec<u8>,
    is_cut: bool,
}

// Appends a byte as a terminal may show it.
fn append_byte(text: &mut Vec<u8>, byte: u8) -> Result<(), AllocError>
    ensures { OnOk result (text.new.items ≡ text.old.items ++ spec.shown_byte byte) }
{
    if byte >= 32 && byte <= 126 && byte != b'\\' {
        return text.extend_from_slice(&[byte]);
    }
    let high = digit(byte / 16);
    let low = digit(byte % 16);
    text.extend_from_slice(&[b'\\', b'x', high, low])
}

// A hexadecimal digit.
fn digit(number: u8) -> u8
    ensures { result ≡ spec.hexadecimal number }
{
    if number < 10 {
        return b'0' + number;
    }
    if number < 16 {
        b'a' + (number - 10)
    } else {
        b'?'
    }
}

/// Appends bytes as a terminal may show them: those of %d32-126 but a backslash as they are, others as `\x0a`.
pub fn append_safe(text: &mut Vec<u8>, bytes: &[u8]) -> Result<(), AllocError>
    ensures { OnOk result (text.new.items ≡ text.old.items ++ flat_map spec.shown_byte bytes.now) }
{
    for byte in bytes {
        append_byte(text, *byte)?;
    }
    Ok(())
}

impl Lines {
    /// None.
    pub(crate) fn new(alloc: Global) -> Lines {
        Lines {
            text: Vec::new(alloc),
            is_cut: false,
        }
    }

    /// Appends words.
    pub(crate) fn say(&mut self, words: &str) {
        if self.text.extend_from_slice(words.as_bytes()).is_err() {
            self.is_cut = true;
        }
    }

    /// Appends a number in decimal digits.
    pub(crate) fn number(&mut self, number: u64) {
        let mut digits = Buffer::new();
        let words = digits.format(number);
        if self.text.extend_from_slice(words.as_bytes()).is_err() {
            self.is_cut = true;
        }
    }

    /// All of them, or that memory ran out.
    pub(crate) fn finish(self) -> Result<Vec<u8>, AllocError> {
        let Lines { text, is_cut } = self;
        if is_cut { Err(AllocError) } else { Ok(text) }
    }
}

/// Appends bytes as a terminal may show them.
pub(crate) fn append_shown(lines: &mut Lines, bytes: &[u8]) {
    if append_safe(&mut lines.text, bytes).is_err() {
        lines.is_cut = true;
    }
}
