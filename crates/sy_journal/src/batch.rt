//! A batch of entries, on its way into one frame; and back.
ghost use Rattle.std.specs.Prelude.{◌≡◌, ◌<◌, ◌≤◌, ◌^◌, ◌++◌, ◌+◌, ◌/◌, ◌%◌, ◌∷◌, [], List, ℕ, length, drop, IfOk, OnOk};
ghost use Rattle.sy_journal.specs.Frames.{IsFrame};
ghost use Rattle.sy_journal.specs.Packing.{digits, packed};

use crate::reading::zeros_in;
use std::alloc::{AllocError, Global};

fn digit(number: usize, place: usize) -> u8
    requires { 0 < place }
    ensures { result ≡ 128 + number / place % 128 }
{
    128 + (number / place % 128) as u8
}

fn digits_of(number: usize) -> [u8; 4]
    ensures { result ≡ digits number }
{
    [
        digit(number, 1),
        digit(number, 128),
        digit(number, 16384),
        digit(number, 2097152),
    ]
}

/// Adds an entry to the content.
pub fn pack(content: &mut Vec<u8>, entry: &[u8]) -> Result<(), AllocError>
    requires { length entry.now < 2 ^ 28 }
    ensures { OnOk result ((es : List (List ℕ)) → content.old.items ≡ packed es → content.new.items ≡ packed (es ++ entry.now ∷ [])) }
{
    content.extend_from_slice(&digits_of(entry.len()))?;
    content.extend_from_slice(entry)?;
    Ok(())
}

/// The frame of a content.
pub fn frame_of(alloc: Global, content: &[u8]) -> Result<Vec<u8>, AllocError>
    requires { length content.now < 2 ^ 28 }
    ensures { IfOk result (λ frame. (drop 8 frame.items ≡ content.now) × IsFrame content.now frame.items) }
{
    let mut frame = Vec::with_capacity(alloc, content.len() + 8)?;
    frame.extend_from_slice(&digits_of(content.len()))?;
    frame.extend_from_slice(&digits_of(zeros_in(content)))?;
    frame.extend_from_slice(content)?;
    Ok(frame)
}
