//! Frames in bytes that a crash may have left.
ghost use Rattle.std.specs.Prelude.{◌≡◌, ◌<◌, ◌≤◌, ◌+◌, false, ◌++◌, [], ◌∷◌, List, ℕ, length, map, IfOk, IfSome, IfNone, MatchBool, IsTrue};
ghost use Rattle.sy_journal.specs.Frames.{zero_count, number, IsFrame, BeginsWithNoFrame, blank, AreDigits};
ghost use Rattle.sy_journal.specs.internal.Reading.{IsSplit, BeginsWithFrame};

use std::alloc::{AllocError, Global};

pub const HEADER: usize = 8;

pub fn zeros_in(bytes: &[u8]) -> usize
    ensures { result ≡ zero_count bytes.now }
{
    let mut count = 0;
    let mut rest = bytes;
    while let [byte, after @ ..] = rest {
        if *byte == 0 {
            count += 1;
        }
        rest = after;
    }
    count
}

fn is_open(a: u8, b: u8, c: u8, d: u8, e: u8, f: u8, g: u8, h: u8) -> bool
    ensures { MatchBool result (AreDigits a b c d e f g h) (AreDigits a b c d e f g h → ⊥) }
{
    a.min(b).min(c).min(d).min(e).min(f).min(g).min(h) >= 128
}

pub fn number_of(a: u8, b: u8, c: u8, d: u8) -> usize
    requires { (128 ≤ a) × (128 ≤ b) × (128 ≤ c) × (128 ≤ d) }
    ensures { result ≡ number a b c d }
{
    let low = (a as usize - 128) + 128 * (b as usize - 128);
    low + 16384 * (c as usize - 128) + 2097152 * (d as usize - 128)
}

// The content of the frame at the front, and what stands behind it.
fn first_frame(bytes: &[u8]) -> Option<(&[u8], &[u8])>
    ensures some { IfSome result (λ r. BeginsWithFrame bytes.now r.0.now r.1.now) }
    ensures none { IfNone result (BeginsWithNoFrame bytes.now) }
{
    match bytes {
        [a, b, c, d, e, f, g, h, rest @ ..] => {
            if !is_open(*a, *b, *c, *d, *e, *f, *g, *h) {
                return None;
            }
            let size = number_of(*a, *b, *c, *d);
            if rest.len() < size {
                return None;
            }
            let (content, after) = rest.split_at(size);
            if zeros_in(content) == number_of(*e, *f, *g, *h) {
                Some((content, after))
            } else {
                None
            }
        }
        _ => None,
    }
}

// The contents of all frames up to the first that is torn or missing, and where they end.
pub fn read_frames(alloc: Global, bytes: &[u8]) -> Result<(Vec<Vec<u8>>, usize), AllocError>
    ensures { IfOk result (λ r. IsSplit bytes.now (map (λ v. v.items) r.0.items) r.1) }
{
    let mut contents = Vec::new(alloc);
    let mut rest = bytes;
    while let Some((content, after)) = first_frame(rest) {
        contents.push(content.to_vec(alloc)?)?;
        rest = after;
    }
    Ok((contents, bytes.len() - rest.len()))
}

pub fn is_blank(bytes: &[u8]) -> bool
    ensures blank { IsTrue result → bytes.now ≡ blank (length bytes.now) }
    ensures some { result ≡ false → 0 < length bytes.now }
{
    let mut rest = bytes;
    while let [byte, after @ ..] = rest {
        if *byte != 0 {
            return false;
        }
        rest = after;
    }
    true
}

pub fn blank_bytes(alloc: Global, count: usize) -> Result<Vec<u8>, AllocError>
    ensures { IfOk result (λ bytes. bytes.items ≡ blank count) }
{
    let mut bytes = Vec::with_capacity(alloc, count)?;
    for _ in 0..count {
        bytes.push(0)?;
    }
    Ok(bytes)
}
