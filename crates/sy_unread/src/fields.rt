//! The fields of a record, as they stand in it.
ghost use Rattle.std.specs.Prelude.{◌≡◌, ◌++◌, ◌∷◌, IfOk, IfSome, OnOk, false, string_bytes};
ghost use Rattle.std.specs.Str.Lossy.{utf8_lossy};
ghost use Rattle.sy_unread.specs.Words.{word_at};
ghost use Rattle.sy_unread.specs.internal.Fields as spec;

use crate::reading::Share;
use std::alloc::{AllocError, Global};
use sy_wire::numbers::number_up_to;

/// The fields of a record; texts are escaped yet.
#[derive(Clone, Copy)]
pub(crate) struct Fields<'a> {
    pub relay: &'a [u8],
    pub input: u16,
    pub peer: &'a [u8],
    pub frame: u64,
    pub fault: &'a [u8],
    pub at: u64,
    pub length: Option<u64>,
    pub share: Share,
}

// The texts of the fields, and the bytes after them.
#[derive(Clone, Copy)]
struct Texts<'a> {
    relay: &'a [u8],
    input: &'a [u8],
    peer: &'a [u8],
    frame: &'a [u8],
    fault: &'a [u8],
    at: &'a [u8],
    rest: &'a [u8],
}

// The bytes before the first space, and those after it.
pub(crate) fn word(bytes: &[u8]) -> Option<(&[u8], &[u8])>
    ensures parts { IfSome result (λ r. bytes.now ≡ r.0.now ++ 32 ∷ r.1.now) }
    ensures first { spec.Gives (λ r. (r.0.now, r.1.now)) result (word_at bytes.now) }
{
    for (i, byte) in bytes.iter().enumerate() {
        if *byte == b' ' {
            return Some((&bytes[..i], &bytes[i + 1..]));
        }
    }
    None
}

// Whether a byte is this one, and no backslash escapes it.
fn is_bare(is_escaped: bool, byte: u8, this: u8) -> bool
    ensures { result ≡ spec.is_bare is_escaped byte this }
{
    !is_escaped && byte == this
}

// A value, escaped, and the bytes after the double quote that ends it.
fn value(bytes: &[u8]) -> Option<(&[u8], &[u8])>
    ensures { spec.Gives (λ r. (r.0.now, r.1.now)) result (spec.value_at false bytes.now) }
{
    let mut is_escaped = false;
    for (i, byte) in bytes.iter().enumerate() {
        if is_bare(is_escaped, *byte, b'"') {
            return Some((&bytes[..i], &bytes[i + 1..]));
        }
        is_escaped = is_bare(is_escaped, *byte, b'\\');
    }
    None
}

// The bytes behind a front.
fn after<'a>(bytes: &'a [u8], front: &[u8]) -> Option<&'a [u8]>
    ensures { spec.Gives (λ r. r.now) result (spec.after front.now bytes.now) }
{
    bytes.strip_prefix(front)
}

// The parameter of a name with what stands before its value, and the bytes after it.
#[tactic(auto, unfolding(crate::specs::internal::Fields::param_at))]
fn param<'a>(bytes: &'a [u8], name: &[u8]) -> Option<(&'a [u8], &'a [u8])>
    ensures { spec.Gives (λ r. (r.0.now, r.1.now)) result (spec.param_at name.now bytes.now) }
{
    value(after(bytes, name)?)
}

// The number in digits.
pub(crate) fn number(digits: &[u8]) -> Option<u64>
    ensures { result ≡ spec.number_at digits.now }
{
    number_up_to(digits, 18_446_744_073_709_551_615)
}

// The same below 65,536.
#[tactic(auto, unfolding(crate::specs::internal::Fields::port_at))]
fn port(digits: &[u8]) -> Option<u16>
    ensures { result ≡ spec.port_at digits.now }
{
    let number = number(digits)?;
    if number < 65_536 {
        Some(number as u16)
    } else {
        None
    }
}

// The length, where one is given, and the bytes after it.
#[tactic(auto, unfolding(crate::specs::internal::Fields::length_at))]
fn length(bytes: &[u8]) -> Option<(Option<u64>, &[u8])>
    ensures { spec.Gives (λ r. (r.0, r.1.now)) result (spec.length_at bytes.now) }
{
    match param(bytes, b" length=\"") {
        Some((digits, rest)) => {
            let length = number(digits)?;
            Some((Some(length), rest))
        }
        None => Some((None, bytes)),
    }
}

// Which part the last parameter says.
#[tactic(auto, unfolding(crate::specs::internal::Fields::share_at))]
fn share(bytes: &[u8]) -> Share
    ensures { result ≡ spec.share_at bytes.now }
{
    if after(bytes, b" part=\"1/2\"] ").is_some() {
        return Share::First;
    }
    if after(bytes, b" part=\"2/2\"] ").is_some() {
        return Share::Second;
    }
    Share::Whole
}

// The texts of the fields.
#[tactic(auto, unfolding(crate::specs::internal::Fields::texts_at))]
fn read_texts(raw: &[u8]) -> Option<Texts<'_>>
    ensures { spec.Gives spec.given_texts result (spec.texts_at raw.now) }
{
    let (relay, rest) = word(after(raw, b"<44>1 - ")?)?;
    let (input, rest) = param(rest, b"syc - - [unread@32473 input=\"")?;
    let (peer, rest) = param(rest, b" peer=\"")?;
    let (frame, rest) = param(rest, b" frame=\"")?;
    let (fault, rest) = param(rest, b" fault=\"")?;
    let (at, rest) = param(rest, b" at=\"")?;
    Some(Texts {
        relay,
        input,
        peer,
        frame,
        fault,
        at,
        rest,
    })
}

/// The fields of a message that is a record.
#[tactic(auto, unfolding(crate::specs::internal::Fields::fields_at))]
pub(crate) fn read_fields(raw: &[u8]) -> Option<Fields<'_>>
    ensures { spec.Gives spec.given_fields result (spec.fields_at raw.now) }
{
    let texts = read_texts(raw)?;
    let (length, rest) = length(texts.rest)?;
    Some(Fields {
        relay: texts.relay,
        input: port(texts.input)?,
        peer: texts.peer,
        frame: number(texts.frame)?,
        fault: texts.fault,
        at: number(texts.at)?,
        length,
        share: share(rest),
    })
}

// Appends a byte that is no escape.
fn append_bare(bytes: &mut Vec<u8>, is_escape: bool, byte: u8) -> Result<(), AllocError>
    ensures { OnOk result (bytes.new.items ≡ bytes.old.items ++ spec.bare_byte is_escape byte) }
{
    if is_escape {
        return Ok(());
    }
    bytes.extend_from_slice(&[byte])
}

/// A value without its escapes. What is no UTF-8 is replaced.
pub(crate) fn unescaped(alloc: Global, value: &[u8]) -> Result<String, AllocError>
    ensures { IfOk result (λ text. string_bytes text ≡ utf8_lossy (spec.unescaped_at false value.now)) }
{
    let mut bytes = Vec::new(alloc);
    let mut is_escaped = false;
    for byte in value {
        is_escaped = is_bare(is_escaped, *byte, b'\\');
        append_bare(&mut bytes, is_escaped, *byte)?;
    }
    String::from_utf8_lossy(alloc, &bytes)
}
