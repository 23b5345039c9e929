//! Parts of the head of a record.
ghost use Rattle.std.specs.Prelude.{◌≡◌, ◌++◌, OnOk, flat_map};
ghost use Rattle.std.specs.Fmt.{decimal};
ghost use Rattle.std.specs.List.{list_all};
ghost use Rattle.sy_unread.specs.Records.{escaped, escaped_byte, hostname_of, is_hostname, is_print_us_ascii, length_text, value_of};
ghost use Rattle.sy_unread.specs.internal.{part_text};

use itoa::Buffer;
use std::alloc::AllocError;

/// A part of the head of a record.
#[derive(Clone, Copy)]
pub(crate) enum Part<'a> {
    Text(&'a [u8]),
    /// In decimal digits.
    Number(u64),
    /// `-` where it is none.
    Hostname(&'a [u8]),
    /// Escaped, `-` where it is too long.
    Value(&'a [u8]),
    /// The parameter that says it, where there is one.
    Length(Option<u64>),
}

// Appends a number in decimal digits.
pub(crate) fn append_number(text: &mut Vec<u8>, number: u64) -> Result<(), AllocError>
    ensures { OnOk result (text.new.items ≡ text.old.items ++ decimal number) }
{
    let mut digits = Buffer::new();
    text.extend_from_slice(digits.format(number).as_bytes())
}

// Appends a byte of a value.
fn append_byte(text: &mut Vec<u8>, byte: u8) -> Result<(), AllocError>
    ensures { OnOk result (text.new.items ≡ text.old.items ++ escaped_byte byte) }
{
    if byte == b'"' || byte == b'\\' || byte == b']' {
        return text.extend_from_slice(&[b'\\', byte]);
    }
    text.extend_from_slice(&[byte])
}

// Appends the bytes of a value.
pub(crate) fn append_escaped(text: &mut Vec<u8>, value: &[u8]) -> Result<(), AllocError>
    ensures { OnOk result (text.new.items ≡ text.old.items ++ escaped value.now) }
{
    for byte in value {
        append_byte(text, *byte)?;
    }
    Ok(())
}

// Whether all bytes are PRINTUSASCII.
fn is_printable(text: &[u8]) -> bool
    ensures { result ≡ list_all is_print_us_ascii text.now }
{
    text.iter().all(|byte| *byte >= 33 && *byte <= 126)
}

// Whether a text is a HOSTNAME.
fn is_hostname(text: &[u8]) -> bool
    ensures { result ≡ is_hostname text.now }
{
    if text.is_empty() {
        return false;
    }
    if text.len() > 255 {
        return false;
    }
    is_printable(text)
}

// Appends a HOSTNAME, or that there is none.
fn append_hostname(text: &mut Vec<u8>, name: &[u8]) -> Result<(), AllocError>
    ensures { OnOk result (text.new.items ≡ text.old.items ++ hostname_of name.now) }
{
    if is_hostname(name) {
        return text.extend_from_slice(name);
    }
    text.extend_from_slice(b"-")
}

// Appends a value, or that it is too long.
fn append_value(text: &mut Vec<u8>, value: &[u8]) -> Result<(), AllocError>
    ensures { OnOk result (text.new.items ≡ text.old.items ++ value_of value.now) }
{
    if value.len() <= 255 {
        return append_escaped(text, value);
    }
    text.extend_from_slice(b"-")
}

// Appends the parameter that says a length, where there is one.
fn append_length(text: &mut Vec<u8>, length: Option<u64>) -> Result<(), AllocError>
    ensures { OnOk result (text.new.items ≡ text.old.items ++ length_text length) }
{
    let Some(length) = length else {
        return Ok(());
    };
    text.extend_from_slice(b" length=\"")?;
    append_number(text, length)?;
    text.extend_from_slice(b"\"")
}

fn append_part(text: &mut Vec<u8>, part: Part<'_>) -> Result<(), AllocError>
    ensures { OnOk result (text.new.items ≡ text.old.items ++ part_text part.entry) }
{
    match part {
        Part::Text(words) => text.extend_from_slice(words),
        Part::Number(number) => append_number(text, number),
        Part::Hostname(name) => append_hostname(text, name),
        Part::Value(value) => append_value(text, value),
        Part::Length(length) => append_length(text, length),
    }
}

/// Appends parts, one after the other.
pub(crate) fn append_parts(text: &mut Vec<u8>, parts: &[Part<'_>]) -> Result<(), AllocError>
    ensures { OnOk result (text.new.items ≡ text.old.items ++ flat_map part_text parts.now) }
{
    for part in parts {
        append_part(text, *part)?;
    }
    Ok(())
}
