//! What is wrong with an item of a script, before its place in the text is known.

ghost use Rattle.std.specs.Prelude.{◌≡◌, [], ◌∷◌};
ghost use Rattle.sy_rules.specs.Faults as spec;
ghost use Rattle.sy_rules.specs.internal.Checking as inside;

use crate::fault::{FaultCode, NOWHERE, PlanFault};
use std::alloc::Global;
use sy_script::Items;
use sy_script::tree::Span;

/// A fault of an item. It has a place where that is a part of the item, as the name of a parameter; else the place is the item's.
#[derive(Drop)]
pub struct ItemFault {
    pub code: FaultCode,
    pub word: Items<u8>,
    pub place: Option<Span>,
}

impl ItemFault {
    /// The fault where memory runs out, which has no place in the text.
    pub fn no_memory(alloc: Global) -> ItemFault
        ensures { result ≡ inside.memory_fault }
    {
        ItemFault {
            code: FaultCode::NoMemory,
            word: Items::new(alloc),
            place: Some(NOWHERE),
        }
    }

    /// A fault with a copy of its word, or the one of memory where the copy finds none.
    pub fn new(alloc: Global, code: FaultCode, word: &[u8], place: Option<Span>) -> ItemFault
        ensures { inside.IsFound (record { code = code; word = word.now; place = place } ∷ []) result }
    {
        match Items::from_slice(alloc, word) {
            Ok(word) => ItemFault { code, word, place },
            Err(_) => ItemFault::no_memory(alloc),
        }
    }

    /// The fault in the text, of an item that stands here.
    pub fn in_text(self, item: Span) -> PlanFault
        ensures { result ≡ spec.in_text item self }
    {
        let span = match self.place {
            Some(span) => span,
            None => item,
        };
        PlanFault {
            code: self.code,
            word: self.word,
            span,
        }
    }
}
