//! The records that are kept of a frame.
ghost use Rattle.std.specs.Prelude.{◌≡◌, ◌≤◌, ◌<◌, ◌+◌, ◌^◌, ◌++◌, ℕ, IfOk, OnErr, OnOk, Some, length, take};
ghost use Rattle.sy_wire.specs.Frames.{IsSize, MAX_FRAME, frame, stream};
ghost use Rattle.sy_unread.specs.Records as spec;
ghost use Rattle.sy_unread.specs.internal.{IsInRange};

use crate::parts::{Part, append_parts};
use std::alloc::{AllocError, Global};
use sy_wire::{MAX_FRAME, frame_head};

/// What is known of a frame that carries no message. A peer and a fault above 255 bytes stand in its record as `-`, and
/// so does a relay whose name is no HOSTNAME.
#[derive(Clone, Copy)]
pub struct About<'a> {
    /// The name of the relay.
    pub relay: &'a [u8],
    /// The port that the input listens at.
    pub input: u16,
    /// The other end of the connection, as `127.0.0.1:4711`.
    pub peer: &'a str,
    /// Which frame of the connection it is, from 1.
    pub frame: u64,
    /// The number and the name of its fault, as `5 AppName`.
    pub fault: &'a str,
    /// Where the fault is shown, in bytes from the first.
    pub at: u64,
    /// The length that a frame gave which has more than 65,536 bytes, in bytes.
    pub length: Option<u64>,
}

// Where bytes are cut that have no room in one record.
const HALF: usize = 32_768;

// The number, which has 64 bits.
fn number(n: u64) -> u64
    ensures value { result ≡ n }
    ensures fits { n < 2 ^ 64 }
{
    n
}

// The length, which has 64 bits.
fn length(given: Option<u64>) -> Option<u64>
    ensures value { result ≡ given }
    ensures fits { (n : ℕ) → given ≡ Some n → n < 2 ^ 64 }
{
    match given {
        Some(n) => Some(number(n)),
        None => None,
    }
}

// The numbers have 64 bits.
pub(crate) fn in_range(about: &About<'_>)
    ensures { IsInRange about.now }
{
    number(u64::from(about.input));
    number(about.frame);
    number(about.at);
    length(about.length);
}

// Appends what stands before a frame's bytes.
fn append_head<'a>(text: &mut Vec<u8>, about: &About<'a>, part: &'a [u8]) -> Result<(), AllocError>
    ensures value { OnOk result (text.new.items ≡ text.old.items ++ spec.head about.now part.now) }
    ensures in_range { IsInRange about.now }
{
    let parts = [
        Part::Text(b"<44>1 - "),
        Part::Hostname(about.relay),
        Part::Text(b" syc - - [unread@32473 input=\""),
        Part::Number(number(u64::from(about.input))),
        Part::Text(b"\" peer=\""),
        Part::Value(about.peer.as_bytes()),
        Part::Text(b"\" frame=\""),
        Part::Number(number(about.frame)),
        Part::Text(b"\" fault=\""),
        Part::Value(about.fault.as_bytes()),
        Part::Text(b"\" at=\""),
        Part::Number(number(about.at)),
        Part::Text(b"\""),
        Part::Length(length(about.length)),
        Part::Text(part),
        Part::Text(b"] "),
    ];
    append_parts(text, &parts)
}

// What stands before a frame's bytes.
pub(crate) fn head<'a>(
    alloc: Global,
    about: &About<'a>,
    part: &'a [u8],
) -> Result<Vec<u8>, AllocError>
    requires { length part.now ≤ 16 }
    ensures value { IfOk result (λ text. text.items ≡ spec.head about.now part.now) }
    ensures within { IfOk result (λ text. (0 < length text.items) × (length text.items ≤ 2048)) }
{
    let mut text = Vec::new(alloc);
    append_head(&mut text, about, part)?;
    Ok(text)
}

// Appends the frame of the message that is this head and these bytes.
pub(crate) fn append_frame(
    frames: &mut Vec<u8>,
    head: &[u8],
    bytes: &[u8],
) -> Result<(), AllocError>
    requires { IsSize (length head.now + length bytes.now) }
    ensures { OnOk result (frames.new.items ≡ frames.old.items ++ frame (head.now ++ bytes.now)) }
{
    let (digits, len) = frame_head(head.len() + bytes.len());
    frames.extend_from_slice(&digits[..len])?;
    frames.extend_from_slice(head)?;
    frames.extend_from_slice(bytes)
}

// The frames of all that is kept of a frame.
fn frames_of(alloc: Global, about: &About<'_>, bytes: &[u8]) -> Result<Vec<u8>, AllocError>
    requires { length bytes.now ≤ MAX_FRAME }
    ensures { IfOk result (λ frames. frames.items ≡ stream (spec.records_of about.now bytes.now)) }
{
    let whole = head(alloc, about, b"")?;
    let mut frames = Vec::new(alloc);
    if whole.len() + bytes.len() <= MAX_FRAME {
        append_frame(&mut frames, &whole, bytes)?;
        return Ok(frames);
    }
    let first = head(alloc, about, b" part=\"1/2\"")?;
    let second = head(alloc, about, b" part=\"2/2\"")?;
    let (front, rest) = bytes.split_at(HALF);
    append_frame(&mut frames, &first, front)?;
    append_frame(&mut frames, &second, rest)?;
    Ok(frames)
}

// The first of the bytes, as many as the number says.
fn front(bytes: &[u8], most: usize) -> &[u8]
    ensures value { result.now ≡ take most bytes.now }
    ensures within { length result.now ≤ most }
{
    if bytes.len() <= most {
        return bytes;
    }
    let (front, _) = bytes.split_at(most);
    front
}

/// Appends the records of a frame: one octet-counted frame of a message whose text are its bytes, or two of the first
/// 32,768 and of the rest where that message would have more than 65,536. Of the frame's bytes the first 65,536 are
/// kept. Where memory runs out nothing is appended.
pub fn append_records(
    alloc: Global,
    out: &mut Vec<u8>,
    about: &About<'_>,
    bytes: &[u8],
) -> Result<(), AllocError>
    ensures records { OnOk result (out.new.items ≡ out.old.items ++ stream (spec.records about.now bytes.now)) }
    ensures unchanged { OnErr result (out.new.items ≡ out.old.items) }
{
    let frames = frames_of(alloc, about, front(bytes, MAX_FRAME))?;
    out.extend_from_slice(&frames)
}
