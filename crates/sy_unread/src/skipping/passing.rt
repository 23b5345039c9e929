//! How far the bytes of a stream are of frames that a framer takes.
ghost use Rattle.std.specs.Prelude.{◌≡◌, ◌≤◌, ◌<◌, length, IfSome, IfNone};
ghost use Rattle.sy_unread.specs.internal.Fronts.{Passes, Starts, begun};

use super::front::{Front, front_of};

// How many bytes are to come of the frame that these are within, or begin; none where they begin none that a framer takes.
pub(crate) fn size_ahead(bytes: &[u8], within: usize) -> Option<usize>
    ensures some { IfSome result (λ size. Starts within bytes.now size) }
    ensures none { IfNone result (within ≡ 0) }
{
    if within > 0 {
        return Some(within);
    }
    match front_of(bytes) {
        Front::Frame(length, from) => Some(from + length),
        _ => None,
    }
}

// What is handed on of bytes.
#[derive(Clone, Copy)]
pub(crate) struct Passed {
    // how many of them
    pub(crate) count: usize,
    // how many bytes of the last frame are then to come
    pub(crate) left: usize,
    // how many frames have begun then
    pub(crate) frames: u64,
}

// How many frames have begun after the next byte, where so many had before it and so many bytes of one were to come.
fn begun(within: usize, frames: u64) -> u64
    ensures { result ≡ begun within frames }
{
    if within == 0 {
        frames.saturating_add(1)
    } else {
        frames
    }
}

// What is handed on of these bytes, before which so many frames had begun.
pub(crate) fn scan(bytes: &[u8], within: usize, before: u64) -> Passed
    ensures bound { result.count ≤ length bytes.now }
    ensures passes { Passes before within bytes.now result.count result.frames result.left }
{
    let mut at = 0;
    let mut left = within;
    let mut frames = before;
    while at < bytes.len() {
        let ahead = &bytes[at..];
        let Some(size) = size_ahead(ahead, left) else {
            return Passed {
                count: at,
                left,
                frames,
            };
        };
        frames = begun(left, frames);
        let some = size.min(ahead.len());
        at += some;
        left = size - some;
    }
    Passed {
        count: at,
        left,
        frames,
    }
}
