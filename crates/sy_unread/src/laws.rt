//! The law of records: the function does nothing, and its contract is the law.
ghost use Rattle.std.specs.Prelude.{take};
ghost use Rattle.sy_wire.specs.Frames.{MAX_FRAME};
ghost use Rattle.sy_unread.specs.Records.{records};
ghost use Rattle.sy_unread.specs.Texts.{Carry};

use crate::record::{About, in_range};

/// The records of a frame are messages that frames may carry, and their texts are the frame's bytes, of which the first
/// 65,536 are kept.
pub fn records_carry_the_bytes(about: &About<'_>, bytes: &[u8])
    ensures { Carry (records about.now bytes.now) (take MAX_FRAME bytes.now) }
{
    in_range(about);
    let _bytes = bytes;
}
