//! Why a text isn't read, and where.

use std::alloc::AllocError;

/// What is wrong with a text.
#[derive(Clone, Copy, Debug, PartialEq, Eq)]
pub enum Refusal {
    /// More than 1 MiB.
    TooLong,
    /// A text in quotes that isn't ended.
    OpenText,
    /// A comment that isn't ended.
    OpenComment,
    /// An object or an expression that isn't ended.
    OpenStatement,
    /// A block that isn't ended.
    OpenBlock,
    /// A `}` with no block before it that is open.
    NoBlock,
    /// A byte that begins nothing where it stands.
    Unexpected,
    /// Memory ran out.
    NoMemory,
}

/// What is wrong, and its place in bytes from the first.
#[derive(Clone, Copy, Debug, PartialEq, Eq)]
pub struct TextFault {
    pub refusal: Refusal,
    pub at: usize,
}

impl From<AllocError> for TextFault {
    ghost use Rattle.std.specs.Prelude.{◌≡◌};
    ghost use Rattle.sy_fleet_text.specs.Faults.{no_memory};

    ghost from_gives = { λ _ fault. fault ≡ no_memory };

    fn from(_: AllocError) -> TextFault {
        TextFault {
            refusal: Refusal::NoMemory,
            at: 0,
        }
    }
}
