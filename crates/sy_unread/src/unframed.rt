//! Why bytes begin no frame.
ghost use Rattle.std.specs.Prelude.{◌≡◌};
ghost use Rattle.sy_unread.specs.Hints.{hint_of};
ghost use Rattle.sy_unread.specs.Skipping.{IsUnframed};
ghost use Rattle.sy_unread.specs.Strays as spec;

use crate::hint::Hint;
use sy_wire::{FrameFault, MAX_FRAME};

/// Why bytes begin no frame, where that is shown, and what they begin like.
#[derive(Clone, Copy)]
pub struct Unframed {
    /// The fault by which a framer refuses them.
    pub fault: FrameFault,
    /// The byte that shows it, in bytes from the first.
    pub at: usize,
    pub hint: Hint,
}

// The fault by which a framer refuses bytes that begin no frame, and the byte that shows it.
fn fault_of(bytes: &[u8]) -> (FrameFault, usize)
    ensures { IsUnframed bytes.now → spec.FailsAt result.0 result.1 bytes.now }
{
    let mut size = 0usize;
    for (i, b) in bytes.iter().enumerate() {
        if b.is_ascii_digit() {
            if i == 0 && *b == b'0' {
                return (FrameFault::BadLength, i);
            }
            size = size * 10 + usize::from(*b - b'0');
            if size > MAX_FRAME {
                return (FrameFault::TooLong, i);
            }
        } else if i > 0 && *b == b' ' {
            // (the head of a frame)
            return (FrameFault::BadLength, i);
        } else {
            return (FrameFault::BadLength, i);
        }
    }
    // (digits alone, of a frame that is to come)
    (FrameFault::BadLength, bytes.len())
}

impl Unframed {
    /// What these bytes are, which begin no frame.
    pub fn of(bytes: &[u8]) -> Unframed
        ensures fault { IsUnframed bytes.now → spec.FailsAt result.fault result.at bytes.now }
        ensures hint { result.hint ≡ hint_of bytes.now }
    {
        let (fault, at) = fault_of(bytes);
        Unframed {
            fault,
            at,
            hint: Hint::of(bytes),
        }
    }
}
