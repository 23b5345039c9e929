//! Patterns of file names, as the C library's `glob` matches them: `*`, `?`, `[..]` and a backslash before what stands for itself.

use std::alloc::{AllocError, Global};
use sy_fleet_text::scan::byte_at;

// What one place of a name may be.
#[derive(Clone, Copy)]
enum Item {
    /// Any bytes, or none.
    Star,
    /// Any byte.
    Any,
    Byte(u8),
    /// The bytes of a set, from one place of the pattern up to another, or all others.
    Set {
        start: usize,
        end: usize,
        is_not: bool,
    },
}

/// Whether a pattern has anything that doesn't stand for itself.
pub(crate) fn is_pattern(text: &[u8]) -> bool {
    text.iter()
        .any(|it| matches!(*it, b'*' | b'?' | b'[' | b'\\'))
}

// The set that begins behind a bracket, and the place behind it; nothing where no bracket ends it. One right at its beginning doesn't.
fn set_at(pattern: &[u8], begin: usize) -> Option<(Item, usize)> {
    let is_not = matches!(byte_at(pattern, begin), b'!' | b'^');
    let start = if is_not {
        begin.saturating_add(1)
    } else {
        begin
    };
    for end in start.saturating_add(1)..pattern.len() {
        if pattern[end] == b']' {
            let set = Item::Set { start, end, is_not };
            return Some((set, end.saturating_add(1)));
        }
    }
    None
}

// The item at a place, and the place behind it.
fn item_at(pattern: &[u8], at: usize) -> (Item, usize) {
    let behind = at.saturating_add(1);
    match byte_at(pattern, at) {
        b'*' => (Item::Star, behind),
        b'?' => (Item::Any, behind),
        b'[' => set_at(pattern, behind).unwrap_or((Item::Byte(b'['), behind)),
        b'\\' if behind < pattern.len() => {
            (
                Item::Byte(byte_at(pattern, behind)),
                behind.saturating_add(1),
            )
        }
        byte => (Item::Byte(byte), behind),
    }
}

fn items_of(alloc: Global, pattern: &[u8]) -> Result<Vec<Item>, AllocError> {
    let mut items = Vec::new(alloc);
    let mut next = 0;
    for at in 0..pattern.len() {
        if at == next {
            let (item, behind) = item_at(pattern, at);
            items.push(item)?;
            next = behind;
        }
    }
    Ok(items)
}

// Whether a set has a byte: by itself, or within a range.
fn has_byte(set: &[u8], byte: u8) -> bool {
    for at in 0..set.len() {
        let is_range = byte_at(set, at.saturating_add(1)) == b'-'
            && at.saturating_add(2) < set.len();
        if is_range && set[at] <= byte && byte <= byte_at(set, at.saturating_add(2)) {
            return true;
        }
        if set[at] == byte {
            return true;
        }
    }
    false
}

fn accepts(pattern: &[u8], item: Item, byte: u8) -> bool {
    match item {
        Item::Star => false,
        Item::Any => true,
        Item::Byte(it) => it == byte,
        Item::Set { start, end, is_not } => {
            has_byte(pattern.get(start..end).unwrap_or(&[]), byte) != is_not
        }
    }
}

// Adds what is reached where stars stand for nothing.
fn pass_stars(items: &[Item], reached: &mut [bool]) {
    for at in 0..items.len() {
        let is_reached = reached.get(at).copied().unwrap_or(false);
        if let (Item::Star, true, Some(next)) = (items[at], is_reached, reached.get_mut(at + 1)) {
            *next = true;
        }
    }
}

// How many items may stand for a name's bytes so far, after one more.
fn step(
    alloc: Global,
    pattern: &[u8],
    items: &[Item],
    reached: &[bool],
    byte: u8,
) -> Result<Vec<bool>, AllocError> {
    let mut next = Vec::new(alloc);
    next.push(false)?;
    for at in 0..items.len() {
        let is_reached = reached.get(at).copied().unwrap_or(false);
        if let (Item::Star, true, Some(last)) = (items[at], is_reached, next.last_mut()) {
            *last = true;
        }
        next.push(is_reached && accepts(pattern, items[at], byte))?;
    }
    pass_stars(items, next.as_mut_slice());
    Ok(next)
}

/// Whether a pattern without a slash matches a name. A dot at a name's beginning is matched by a dot alone.
pub(crate) fn matches(alloc: Global, pattern: &[u8], name: &[u8]) -> Result<bool, AllocError> {
    if byte_at(name, 0) == b'.' && byte_at(pattern, 0) != b'.' {
        return Ok(false);
    }
    let items = items_of(alloc, pattern)?;
    let items = items.as_slice();
    let mut reached = Vec::new(alloc);
    reached.push(true)?;
    for _ in 0..items.len() {
        reached.push(false)?;
    }
    pass_stars(items, reached.as_mut_slice());
    for byte in name {
        reached = step(alloc, pattern, items, reached.as_slice(), *byte)?;
    }
    Ok(reached.last().copied().unwrap_or(false))
}
