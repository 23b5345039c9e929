//! Why reading stops.

use crate::tree::Span;
use std::alloc::AllocError;

#[derive(Clone, Copy)]
pub enum Halt {
    Memory,
    /// This token may not stand here.
    Unexpected(Span),
    /// This token begins a statement of RainerScript that the profile leaves out.
    LeftOut(Span),
    /// This token makes the depth 33.
    TooDeep(Span),
    /// The tokens are over, with the opening of the innermost parenthesis or brace that is open.
    End(Option<usize>),
}

impl From<AllocError> for Halt {
    ghost use Rattle.std.specs.Prelude.{◌≡◌};
    ghost use Rattle.sy_script.specs.declared.halt.Halt.TheVariants.{Memory};

    ghost from_gives = { λ _ e. e ≡ Memory };

    fn from(_: AllocError) -> Halt {
        Halt::Memory
    }
}
