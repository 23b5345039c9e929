//! Classes and frames.

use std::alloc::Global;
use sy_wire::{Class, Framer, frame_head};

/// The class of the last priority.
pub fn last_class() -> Class {
    Class::of_number(191)
}

/// What stands before the longest message in its frame.
pub fn longest_head() -> ([u8; 6], usize) {
    frame_head(65536)
}

/// A stream of one frame: its end is told where the framer has answered that there is no other.
pub fn stream_of_a_frame(alloc: Global) -> Option<Vec<u8>> {
    let mut framer = Framer::new(alloc);
    framer.feed(b"17 <34>1 - - - - - -").ok()?;
    let frame = framer.next_frame().ok()?;
    match framer.next_frame() {
        Ok(None) => Framer::end(&mut framer).ok()?,
        _ => return None,
    }
    frame
}
