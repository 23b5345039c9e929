//! The parts of a frame at the front of bytes.
ghost use Rattle.std.specs.Prelude.{◌≡◌, List, ℕ, ◌≤◌, ◌++◌, ◌∷◌, length, IfErr, IfNone, IfOk, IfSome};
ghost use Rattle.std.specs.Fmt.{decimal};
ghost use Rattle.sy_relp.specs.Faults.{length_end};
ghost use Rattle.sy_relp.specs.Frames.{IsCommand};
ghost use Rattle.sy_relp.specs.Reading.{FrameAt};
ghost use Rattle.sy_relp.specs.internal.Parts.{CommandHalts, ContentHalts, EndsDigits, FrameHalts, LengthHalts, NumberStops, TxnrHalts, closed};

use crate::fault::FrameFault;
use crate::frame::{MAX_COMMAND, MAX_CONTENT, MAX_TXNR};

// Why no part was read.
#[derive(Clone, Copy)]
pub(crate) enum Halt {
    // more bytes must come first
    Short,
    // it is none, whatever comes
    Bad(FrameFault),
}

// Why no number was read.
#[derive(Clone, Copy)]
enum NumberStop {
    // more bytes must come first
    Short,
    // it is none, whatever comes
    Bad,
    // its digits make too much
    Great,
}

// The decimal number at the front, no greater than that, and what stands behind it: at least one byte.
fn number(bytes: &[u8], max: u32) -> Result<(u32, &[u8]), NumberStop>
    requires { max ≤ 999999999 }
    ensures ok { IfOk result (λ x. (bytes.now ≡ decimal x.0 ++ x.1.now) × (x.0 ≤ max)) }
    ensures ends { IfOk result (λ x. EndsDigits x.1.now) }
    ensures err { IfErr result (λ stop. NumberStops stop max bytes.now) }
{
    let mut value = 0u64;
    let mut i = 0usize;
    while i < bytes.len() {
        let b = bytes[i];
        if !b.is_ascii_digit() {
            if i == 0 {
                return Err(NumberStop::Bad);
            }
            let (_, rest) = bytes.split_at(i);
            return Ok((value as u32, rest));
        }
        if i > 0 && value == 0 {
            return Err(NumberStop::Bad);
        }
        value = value * 10 + u64::from(b - b'0');
        if value > u64::from(max) {
            return Err(NumberStop::Great);
        }
        i += 1;
    }
    Err(NumberStop::Short)
}

// What stands behind that byte at the front.
fn after(bytes: &[u8], b: u8) -> Option<&[u8]>
    ensures some { IfSome result (λ x. bytes.now ≡ b ∷ x.now) }
    ensures none { IfNone result ((rest : List ℕ) → bytes.now ≡ b ∷ rest → ⊥) }
{
    match bytes {
        [first, rest @ ..] => { if *first == b { Some(rest) } else { None } }
        [] => None,
    }
}

// The number of a transaction at the front, and what stands behind the space after it.
fn txnr_at(bytes: &[u8]) -> Result<(u32, &[u8]), Halt>
    ensures ok { IfOk result (λ x. (bytes.now ≡ decimal x.0 ++ 32 ∷ x.1.now) × (x.0 ≤ 999999999)) }
    ensures err { IfErr result (λ halt. TxnrHalts halt bytes.now) }
{
    let (txnr, rest) = match number(bytes, MAX_TXNR) {
        Ok(read) => read,
        Err(NumberStop::Short) => return Err(Halt::Short),
        Err(NumberStop::Bad) => return Err(Halt::Bad(FrameFault::BadNumber)),
        Err(NumberStop::Great) => return Err(Halt::Bad(FrameFault::BadNumber)),
    };
    match after(rest, b' ') {
        Some(behind) => Ok((txnr, behind)),
        None => Err(Halt::Bad(FrameFault::BadNumber)),
    }
}

// The command at the front, and what stands behind the space after it.
fn command_at(bytes: &[u8]) -> Result<(&[u8], &[u8]), Halt>
    ensures ok { IfOk result (λ x. (bytes.now ≡ x.0.now ++ 32 ∷ x.1.now) × IsCommand x.0.now) }
    ensures err { IfErr result (λ halt. CommandHalts halt bytes.now) }
{
    let mut i = 0usize;
    while i < bytes.len() {
        let b = bytes[i];
        if !b.is_ascii_alphabetic() {
            if i == 0 || b != b' ' {
                return Err(Halt::Bad(FrameFault::BadCommand));
            }
            let (word, rest) = bytes.split_at(i);
            return match after(rest, b' ') {
                Some(behind) => Ok((word, behind)),
                None => Err(Halt::Bad(FrameFault::BadCommand)),
            };
        }
        if i >= MAX_COMMAND {
            return Err(Halt::Bad(FrameFault::BadCommand));
        }
        i += 1;
    }
    Err(Halt::Short)
}

// The byte behind a length.
fn end_of_length(len: u32) -> u8
    ensures { result ≡ length_end len }
{
    if len == 0 { b'\n' } else { b' ' }
}

// The length at the front, and what stands behind the byte after it.
fn length_at(bytes: &[u8]) -> Result<(u32, &[u8]), Halt>
    ensures ok { IfOk result (λ x. (bytes.now ≡ decimal x.0 ++ length_end x.0 ∷ x.1.now) × (x.0 ≤ 65536)) }
    ensures err { IfErr result (λ halt. LengthHalts halt bytes.now) }
{
    let (len, rest) = match number(bytes, MAX_CONTENT) {
        Ok(read) => read,
        Err(NumberStop::Short) => return Err(Halt::Short),
        Err(NumberStop::Bad) => return Err(Halt::Bad(FrameFault::BadLength)),
        Err(NumberStop::Great) => return Err(Halt::Bad(FrameFault::TooLong)),
    };
    match after(rest, end_of_length(len)) {
        Some(behind) => Ok((len, behind)),
        None => Err(Halt::Bad(FrameFault::BadLength)),
    }
}

// The content of that length, and what stands behind the frame.
fn content_at(bytes: &[u8], len: usize) -> Result<(&[u8], &[u8]), Halt>
    ensures ok { IfOk result (λ x. (bytes.now ≡ closed x.0.now ++ x.1.now) × (length x.0.now ≡ len)) }
    ensures err { IfErr result (λ halt. ContentHalts halt len bytes.now) }
{
    if bytes.len() < len {
        return Err(Halt::Short);
    }
    let (content, rest) = bytes.split_at(len);
    if len == 0 {
        return Ok((content, rest));
    }
    match rest {
        [first, behind @ ..] => {
            if *first == b'\n' {
                Ok((content, behind))
            } else {
                Err(Halt::Bad(FrameFault::BadTrailer))
            }
        }
        [] => Err(Halt::Short),
    }
}

// A frame by its parts.
#[derive(Clone, Copy)]
pub(crate) struct Parts<'a> {
    pub txnr: u32,
    pub command: &'a [u8],
    pub content: &'a [u8],
    pub behind: &'a [u8],
}

// The frame at the front.
pub(crate) fn frame_at(bytes: &[u8]) -> Result<Parts<'_>, Halt>
    ensures ok { IfOk result (λ p. FrameAt bytes.now (record { txnr = p.txnr; command = p.command.now; content = p.content.now }) p.behind.now) }
    ensures err { IfErr result (λ halt. FrameHalts halt bytes.now) }
{
    let (txnr, rest) = match txnr_at(bytes) {
        Ok(read) => read,
        Err(halt) => return Err(halt),
    };
    let (command, rest) = match command_at(rest) {
        Ok(read) => read,
        Err(halt) => return Err(halt),
    };
    let (len, rest) = match length_at(rest) {
        Ok(read) => read,
        Err(halt) => return Err(halt),
    };
    match content_at(rest, len as usize) {
        Ok((content, behind)) => Ok(Parts {
            txnr,
            command,
            content,
            behind,
        }),
        Err(halt) => Err(halt),
    }
}
