//! The entries of a content.
ghost use Rattle.std.specs.Prelude.{◌≡◌, List, ℕ, [], map, length, IfOk, IfSome, IfNone};
ghost use Rattle.sy_journal.specs.Packing.{packed, AreShort, Unpacked, IsNotPacked};
ghost use Rattle.sy_journal.specs.internal.Reading.{BeginsWithEntry, BeginsWithNoEntry};

use crate::reading::number_of;
use std::alloc::{AllocError, Global};

// The entry at the front, and what stands behind it.
fn first_entry(bytes: &[u8]) -> Option<(&[u8], &[u8])>
    ensures some { IfSome result (λ r. BeginsWithEntry bytes.now r.0.now r.1.now) }
    ensures none { IfNone result (BeginsWithNoEntry bytes.now) }
{
    match bytes {
        [a, b, c, d, rest @ ..] => {
            if (*a).min(*b).min(*c).min(*d) < 128 {
                return None;
            }
            let size = number_of(*a, *b, *c, *d);
            if rest.len() < size {
                return None;
            }
            Some(rest.split_at(size))
        }
        _ => None,
    }
}

/// The entries of a content, or none where it isn't one.
pub fn unpack(alloc: Global, content: &[u8]) -> Result<Option<Vec<Vec<u8>>>, AllocError>
    ensures some { IfOk result (λ found. IfSome found (λ entries. Unpacked content.now (map (λ v. v.items) entries.items) [])) }
    ensures none { IfOk result (λ found. IfNone found (IsNotPacked content.now)) }
{
    let mut entries = Vec::new(alloc);
    let mut rest = content;
    while !rest.is_empty() {
        let Some((entry, after)) = first_entry(rest) else {
            return Ok(None);
        };
        entries.push(entry.to_vec(alloc)?)?;
        rest = after;
    }
    Ok(Some(entries))
}
