//! Records that are read again.
ghost use Rattle.std.specs.Prelude.{◌≡◌, ◌≤◌, ◌++◌, ℕ, List, Decides, IfNone, IfOk, IfSome, IsTrue, drop, length};
ghost use Rattle.sy_unread.specs.Reading as spec;
ghost use Rattle.sy_unread.specs.internal.Fields.{IsFoundOf, IsNoRecordOf, given_fields};

use crate::fields::{Fields, read_fields, unescaped};
use crate::record::{About, head};
use std::alloc::{AllocError, Global};

/// Which bytes of a frame a record has.
#[derive(Clone, Copy, PartialEq, Eq)]
pub enum Share {
    /// All that are kept.
    Whole,
    /// The first 32,768.
    First,
    /// Those after them.
    Second,
}

impl Share {
    // The last parameter.
    fn text(self) -> &'static [u8]
        ensures { result.now ≡ spec.share_text self }
    {
        match self {
            Share::Whole => b"",
            Share::First => b" part=\"1/2\"",
            Share::Second => b" part=\"2/2\"",
        }
    }
}

/// What a record says; `About` has the meaning of its fields.
#[derive(Drop)]
pub struct Found {
    pub relay: Vec<u8>,
    pub input: u16,
    pub peer: String,
    pub frame: u64,
    pub fault: String,
    pub at: u64,
    pub length: Option<u64>,
    pub share: Share,
    /// Where the frame's bytes begin in the message that is the record.
    pub start: usize,
}

impl Found {
    /// What is known of the frame.
    pub fn about(&self) -> About<'_>
        ensures { spec.Says self.now result }
    {
        About {
            relay: self.relay.as_slice(),
            input: self.input,
            peer: self.peer.as_str(),
            frame: self.frame,
            fault: self.fault.as_str(),
            at: self.at,
            length: self.length,
        }
    }
}

// What the fields say, unescaped.
fn of_fields(alloc: Global, fields: Fields<'_>) -> Result<Found, AllocError>
    ensures { IfOk result (λ found. IsFoundOf (given_fields fields.entry) found) }
{
    let mut relay = Vec::new(alloc);
    relay.extend_from_slice(fields.relay)?;
    let peer = unescaped(alloc, fields.peer)?;
    let fault = unescaped(alloc, fields.fault)?;
    Ok(Found {
        relay,
        input: fields.input,
        peer,
        frame: fields.frame,
        fault,
        at: fields.at,
        length: fields.length,
        share: fields.share,
        start: 0,
    })
}

// Whether the bytes begin with these.
pub(crate) fn begins_with(bytes: &[u8], front: &[u8]) -> bool
    ensures within { IsTrue result → length front.now ≤ length bytes.now }
    ensures whole { IsTrue result → bytes.now ≡ front.now ++ drop (length front.now) bytes.now }
    ensures only { (rest : List ℕ) → bytes.now ≡ front.now ++ rest → IsTrue result }
{
    bytes.starts_with(front)
}

// The record with the place after its head, where the message begins with that.
fn checked(alloc: Global, raw: &[u8], mut found: Found) -> Result<Option<Found>, AllocError>
    ensures some { IfOk result (λ read. IfSome read (λ read. spec.IsRecord raw.now read)) }
    ensures none { IfOk result (λ read. IfNone read (IsNoRecordOf found raw.now)) }
{
    let front = head(alloc, &found.about(), found.share.text())?;
    if !begins_with(raw, &front) {
        return Ok(None);
    }
    found.start = front.len();
    Ok(Some(found))
}

/// Reads the message of a record, as `append_records` writes it; none where the message is another.
pub fn read_record(alloc: Global, raw: &[u8]) -> Result<Option<Found>, AllocError>
    ensures some { IfOk result (λ found. IfSome found (λ found. spec.IsRecord raw.now found)) }
    ensures none { IfOk result (λ found. IfNone found (spec.IsNoRecord raw.now)) }
{
    match read_fields(raw) {
        Some(fields) => checked(alloc, raw, of_fields(alloc, fields)?),
        None => Ok(None),
    }
}

/// Whether two records have the two parts of one frame.
pub fn are_parts(first: &Found, second: &Found) -> bool
    ensures { Decides result (spec.AreParts first.now second.now) }
{
    if first.share != Share::First || second.share != Share::Second {
        return false;
    }
    if first.relay.as_slice() != second.relay.as_slice() || first.input != second.input {
        return false;
    }
    if first.peer.as_str() != second.peer.as_str() || first.frame != second.frame {
        return false;
    }
    if first.fault.as_str() != second.fault.as_str() || first.at != second.at {
        return false;
    }
    first.length == second.length
}
