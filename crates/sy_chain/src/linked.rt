//! Blocks, each of which points to the next.
ghost use Rattle.std.specs.Prelude.{◌≡◌, ◌<◌, ◌≤◌, [], ◌∷◌, ◌++◌, drop, length, take, IfNone, IfSome, IsTrue, ◌↔◌};

use crate::blocks::{Block, Blocks};
use crate::raw_box::RawBox;
use std::alloc::Global;
use std::marker::{Model, Send};
use std::mem;
use std::ptr::{NonNull, null_mut};

/// Blocks, each of which points to the next, and the last one nowhere: the places of the first, null where there is
/// none, and of the last, and the right to all of them.
///
/// Seen as the list of the blocks' values. Where there is no block, `last` says nothing.
pub struct LinkedBlocks<T> {
    first: *mut Block<T>,
    last: *mut Block<T>,
    blocks: Blocks<T>,
}

impl<T> Model for LinkedBlocks<T> {
    ghost use Rattle.std.specs.Prelude.{List};
    ghost use Rattle.sy_chain.specs.internal.Linked.{AreLinked, elems};

    ghost Value = { List T };

    ghost view = { λ r. elems r.blocks.placed };

    ghost invariant = { λ r. AreLinked r.first r.last r.blocks.placed };
}

unsafe impl<T: Send> Send for LinkedBlocks<T> {}

impl<T> LinkedBlocks<T> {
    pub(crate) fn new() -> LinkedBlocks<T>
        ensures { result ≡ [] }
    {
        LinkedBlocks {
            first: null_mut(),
            last: null_mut(),
            blocks: Blocks::new(),
        }
    }

    /// Ends what has no blocks.
    pub(crate) fn end(self)
        requires { self ≡ [] }
    {
        let LinkedBlocks {
            first: _,
            last: _,
            blocks,
        } = self;
        blocks.end();
    }

    pub(crate) fn is_empty(&self) -> bool
        ensures { IsTrue result ↔ (self.now ≡ []) }
    {
        NonNull::new(self.first).is_none()
    }

    // One block, which leads nowhere.
    fn one(block: RawBox<Block<T>, Global>) -> LinkedBlocks<T>
        ensures { result ≡ block.value.elem ∷ [] }
    {
        let (at, mut blocks) = Blocks::one(block);
        blocks.set_last_next(at, null_mut());
        LinkedBlocks {
            first: at,
            last: at,
            blocks,
        }
    }

    pub(crate) fn push_back(&mut self, block: RawBox<Block<T>, Global>)
        ensures { self.new ≡ self.old ++ block.value.elem ∷ [] }
    {
        self.append(LinkedBlocks::one(block));
    }

    /// Puts the others at the end.
    #[tactic(auto, using(crate::proofs::Leading::some_in, crate::proofs::Leading::joined_in, crate::proofs::Leading::joined_list))]
    pub(crate) fn append(&mut self, mut other: LinkedBlocks<T>)
        ensures { self.new ≡ self.old ++ other }
    {
        if other.is_empty() {
            other.end();
            return;
        }
        if self.is_empty() {
            mem::swap(self, &mut other);
            other.end();
            return;
        }
        let LinkedBlocks {
            first,
            last,
            blocks,
        } = other;
        self.blocks.set_last_next(self.last, first);
        self.last = last;
        self.blocks.append(blocks);
    }

    #[tactic(auto, using(crate::proofs::Leading::some_in, crate::proofs::Leading::leads_first))]
    pub(crate) fn pop_front(&mut self) -> Option<RawBox<Block<T>, Global>>
        ensures some { IfSome result (λ b. self.old ≡ b.value.elem ∷ self.new) }
        ensures none { IfNone result ((self.old ≡ []) × (self.new ≡ [])) }
    {
        if self.is_empty() {
            return None;
        }
        let at = self.first;
        self.first = self.blocks.next(at, 0);
        Some(self.blocks.pop_front(at))
    }

    /// Cuts off the first n blocks.
    pub(crate) fn cut_front(&mut self, n: usize) -> LinkedBlocks<T>
        requires { n ≤ length self.old }
        ensures front { result ≡ take n self.old }
        ensures rest { self.new ≡ drop n self.old }
    {
        if n == 0 {
            return LinkedBlocks::new();
        }
        let first = self.first;
        let end = self.blocks.place(first, n - 1);
        self.first = self.blocks.next(end, n - 1);
        let mut front = self.blocks.cut_front(n);
        front.set_last_next(end, null_mut());
        LinkedBlocks {
            first,
            last: end,
            blocks: front,
        }
    }
}
