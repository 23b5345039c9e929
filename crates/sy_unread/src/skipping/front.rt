//! What bytes begin with, where frames may be long.
ghost use Rattle.std.specs.Prelude.{ℕ, List};
ghost use Rattle.sy_unread.specs.Skipping.{IsNumbered};
ghost use Rattle.sy_unread.specs.internal.Fronts.{FrontIs, HasHead};

use sy_wire::MAX_FRAME;

// What bytes begin with.
#[derive(Clone, Copy)]
pub(crate) enum Front {
    // the head of a frame of so many bytes that a framer takes, and where its text begins
    Frame(usize, usize),
    // the same of a long frame
    Long(usize, usize),
    // more must come
    Open,
    Unframed,
}

// What a head with that length is, where the text begins there.
fn with_head(size: usize, from: usize) -> Front
    ensures { (bytes : List ℕ) → IsNumbered size → HasHead bytes size from → FrontIs bytes result }
{
    if size <= MAX_FRAME {
        Front::Frame(size, from)
    } else {
        Front::Long(size, from)
    }
}

pub(crate) fn front_of(bytes: &[u8]) -> Front
    ensures { FrontIs bytes.now result }
{
    let mut size = 0usize;
    for (i, b) in bytes.iter().enumerate() {
        if b.is_ascii_digit() {
            if i == 0 && *b == b'0' {
                return Front::Unframed;
            }
            if size >= 100_000_000 {
                return Front::Unframed;
            }
            size = size * 10 + usize::from(*b - b'0');
        } else if i > 0 && *b == b' ' {
            return with_head(size, i + 1);
        } else {
            return Front::Unframed;
        }
    }
    Front::Open
}
