//! The heads of frames that carry no message, as far as they can be read.
ghost use Rattle.std.specs.Prelude.{◌≡◌, ◌≢◌, ◌≤◌, ◌+◌, ◌-◌, ◌&&◌, ◌++◌, ℕ, List, IfNone, IfSome, codes, drop, leb, length, nat_eq, slice_index, take};
ghost use Rattle.sy_wire.specs.Messages.{IsPri};
ghost use Rattle.sy_unread.specs.Hints.{pri_length};
ghost use Rattle.sy_unread.specs.Records.{nil_value};
ghost use Rattle.sy_unread.specs.Repairs as spec;
ghost use Rattle.sy_unread.specs.internal.Fields.{Gives};
ghost use Rattle.sy_unread.specs.internal.{IsReadAs, fields_of};

use crate::fields::{number, word};
use crate::hint::{byte_at, is_digit, pri_length};

/// The fields of a head of RFC 5424, whatever their characters and lengths, or those that one of RFC 3164 has.
#[derive(Clone, Copy)]
pub(crate) struct Head<'a> {
    /// `<PRIVAL>`.
    pub pri: &'a [u8],
    pub timestamp: &'a [u8],
    pub hostname: &'a [u8],
    pub app_name: &'a [u8],
    pub procid: &'a [u8],
    pub msgid: &'a [u8],
    /// How many bytes it has, with the space after it.
    pub end: usize,
}

// What there is of a field that isn't there.
const NOTHING: &[u8] = b"-";

/// The priority at the front, if it is one: its value is below 192.
pub(crate) fn pri(bytes: &[u8]) -> Option<&[u8]>
    ensures parts { IfSome result (λ pri. bytes.now ≡ pri.now ++ drop (length pri.now) bytes.now) }
    ensures value { IfSome result (λ pri. pri.now ≡ take (pri_length bytes.now) bytes.now) }
    ensures none { IfNone result ((text rest : List ℕ) (n : ℕ) → IsPri text n → bytes.now ≢ text ++ rest) }
{
    let length = pri_length(bytes);
    if length < 3 {
        return None;
    }
    if length > bytes.len() {
        return None;
    }
    let Some(value) = number(&bytes[1..length - 1]) else {
        return None;
    };
    if value < 192 {
        Some(&bytes[..length])
    } else {
        None
    }
}

// The bytes from a place on, none after the last.
pub(crate) fn from(bytes: &[u8], at: usize) -> &[u8]
    ensures { result.now ≡ drop at bytes.now }
{
    if at <= bytes.len() { &bytes[at..] } else { &[] }
}

// What is after a version 1 and a space.
fn version(bytes: &[u8]) -> Option<&[u8]>
    ensures some { IfSome result (λ rest. bytes.now ≡ codes "1 " ++ rest.now) }
    ensures none { IfNone result ((rest : List ℕ) → bytes.now ≢ codes "1 " ++ rest) }
{
    bytes.strip_prefix(b"1 ")
}

/// A head whose version is 1: six fields, each with a space after it.
pub(crate) fn head_5424(bytes: &[u8]) -> Option<Head<'_>>
    ensures begins { IfSome result (λ head. spec.BeginsWith (spec.head_text (fields_of head)) bytes.now) }
    ensures read { IfSome result (λ head. (came : spec.HeadFields) (rest : List ℕ) → spec.IsHead5424 bytes.now came rest → IsReadAs bytes.now head came rest) }
    ensures none { IfNone result ((came : spec.HeadFields) (rest : List ℕ) → spec.IsHead5424 bytes.now came rest → ⊥) }
{
    let Some(pri) = pri(bytes) else {
        return None;
    };
    let Some(rest) = version(from(bytes, pri.len())) else {
        return None;
    };
    let Some((timestamp, rest)) = word(rest) else {
        return None;
    };
    let Some((hostname, rest)) = word(rest) else {
        return None;
    };
    let Some((app_name, rest)) = word(rest) else {
        return None;
    };
    let Some((procid, rest)) = word(rest) else {
        return None;
    };
    let Some((msgid, rest)) = word(rest) else {
        return None;
    };
    let end = bytes.len() - rest.len().min(bytes.len());
    Some(Head {
        pri,
        timestamp,
        hostname,
        app_name,
        procid,
        msgid,
        end,
    })
}

// Whether the letters of a month are in their places.
fn are_letters(bytes: &[u8]) -> bool
    ensures { result ≡ (leb 65 (slice_index bytes.now 0) && (leb 97 (slice_index bytes.now 1) && leb 97 (slice_index bytes.now 2))) }
{
    byte_at(bytes, 0) >= b'A' && byte_at(bytes, 1) >= b'a' && byte_at(bytes, 2) >= b'a'
}

// Whether the spaces of a date are in their places.
fn are_spaces(bytes: &[u8]) -> bool
    ensures { result ≡ (nat_eq (slice_index bytes.now 3) 32 && (nat_eq (slice_index bytes.now 6) 32 && nat_eq (slice_index bytes.now 15) 32)) }
{
    byte_at(bytes, 3) == b' ' && byte_at(bytes, 6) == b' ' && byte_at(bytes, 15) == b' '
}

// Whether the colons of a time are in their places.
fn are_colons(bytes: &[u8]) -> bool
    ensures { result ≡ (nat_eq (slice_index bytes.now 9) 58 && nat_eq (slice_index bytes.now 12) 58) }
{
    byte_at(bytes, 9) == b':' && byte_at(bytes, 12) == b':'
}

// Whether the bytes begin with a month, a day and a time, as `Oct  1 22:14:15 `.
fn is_dated(bytes: &[u8]) -> bool
    ensures { result ≡ spec.is_dated bytes.now }
{
    are_letters(bytes) && (are_spaces(bytes) && (are_colons(bytes) && is_digit(byte_at(bytes, 5))))
}

// Whether the bytes begin like a time of RFC 3339.
fn is_stamped(bytes: &[u8]) -> bool
    ensures { result ≡ spec.is_stamped bytes.now }
{
    is_digit(byte_at(bytes, 0)) && byte_at(bytes, 10) == b'T'
}

// A time and the bytes behind its space; of a date that there is no TIMESTAMP.
fn time(bytes: &[u8]) -> Option<(&[u8], &[u8])>
    ensures first { Gives (λ r. (r.0.now, r.1.now)) result (spec.time_at bytes.now) }
    ensures within { IfSome result (λ r. length r.1.now ≤ length bytes.now) }
{
    if is_dated(bytes) {
        return Some((NOTHING, from(bytes, 16)));
    }
    if is_stamped(bytes) {
        return word(bytes);
    }
    None
}

// How many bytes a tag has: up to a colon, a bracket or a space.
fn tag_length(bytes: &[u8]) -> usize {
    for (i, byte) in bytes.iter().enumerate() {
        if *byte == b':' || *byte == b'[' || *byte == b' ' {
            return i;
        }
    }
    bytes.len()
}

// What brackets enclose at the front, and the bytes after them.
fn bracketed(bytes: &[u8]) -> Option<(&[u8], &[u8])>
    ensures { IfSome result (λ r. length r.0.now + length r.1.now ≤ length bytes.now) }
{
    let rest = bytes.strip_prefix(b"[")?;
    for (i, byte) in rest.iter().enumerate() {
        if *byte == b']' {
            return Some((&rest[..i], &rest[i + 1..]));
        }
    }
    None
}

// The tag and the process of a text of RFC 3164, and the bytes after them, their colon and a space.
fn tag(bytes: &[u8]) -> (&[u8], &[u8], &[u8])
    ensures { length result.0.now + length result.1.now + length result.2.now ≤ length bytes.now + 2 }
{
    let (name, rest) = bytes.split_at(tag_length(bytes).min(bytes.len()));
    let (procid, rest) = match bracketed(rest) {
        Some(found) => found,
        None => (NOTHING, rest),
    };
    match rest.strip_prefix(b":") {
        Some(text) => (name, procid, text.strip_prefix(b" ").unwrap_or(text)),
        None => (NOTHING, NOTHING, bytes),
    }
}

/// A head of RFC 3164: a time, a host, and a tag with a colon where there is one (sections 4.1.2 and 4.1.3). A date has
/// no year, and so is no TIMESTAMP; in its place one of RFC 3339 may stand.
pub(crate) fn head_3164(bytes: &[u8]) -> Option<Head<'_>>
    ensures none { IfNone result (spec.IsHead3164 bytes.now → ⊥) }
    ensures pri { IfSome result (λ head. head.pri.now ≡ take (pri_length bytes.now) bytes.now) }
    ensures msgid { IfSome result (λ head. head.msgid.now ≡ nil_value) }
    ensures within { IfSome result (λ head. (length head.pri.now + length head.hostname.now) + (length head.app_name.now + length head.procid.now + (length bytes.now - head.end)) ≤ length bytes.now + 1) }
{
    let Some(pri) = pri(bytes) else {
        return None;
    };
    let Some((timestamp, rest)) = time(from(bytes, pri.len())) else {
        return None;
    };
    let Some((hostname, rest)) = word(rest) else {
        return None;
    };
    let (app_name, procid, text) = tag(rest);
    Some(Head {
        pri,
        timestamp,
        hostname,
        app_name,
        procid,
        msgid: NOTHING,
        end: bytes.len() - text.len().min(bytes.len()),
    })
}
