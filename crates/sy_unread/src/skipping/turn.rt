//! What comes of a turn of a read.

// What comes of a turn of a read.
#[derive(Clone, Copy)]
pub(crate) enum Turn {
    // so many bytes are handed on
    Gives(usize),
    // none is yet
    GoesOn,
    Fails,
}
