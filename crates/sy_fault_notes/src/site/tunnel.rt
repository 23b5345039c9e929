//! Notes of tunnel lines of a site file.

use crate::file_line::FileLine;
use crate::site::lines::{push_unknown_relay, push_words, words_in};
use std::alloc::{AllocError, Global};
use sy_report::texts::note::Note;

/// Says of a tunnel line that is none what is wrong with it.
pub fn push_tunnel_line(
    alloc: Global,
    note: &mut Note,
    at: FileLine<'_>,
) -> Result<(), AllocError> {
    let count = words_in(at.line);
    if count != 3 {
        push_words(alloc, note, at, count.min(3), "tunnel RELAY ACTION");
        return Ok(());
    }
    push_unknown_relay(alloc, note, at, 1)?;
    Ok(())
}
