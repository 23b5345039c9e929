//! Blocks of memory, each of which has a value and a pointer to another block.
//!
//! Here pointers are followed and memory is written, and nothing is decided: which pointer goes where is up to
//! [`LinkedBlocks`](crate::linked::LinkedBlocks), whose code is safe.
ghost use Rattle.std.specs.Prelude.{◌≡◌, ◌<◌, List, [], ◌∷◌, ◌++◌, drop, length, take};
ghost use denote.RawPtr.{null_ptr};
ghost use Rattle.sy_chain.specs.internal.Linked.{Placed, IsStart, Leads, last_place, next_of, place_of, with_last_next};
ghost use Rattle.sy_chain.specs.internal.Ownership.{blocks_own};

use crate::raw_box::RawBox;
use std::alloc::Global;
use std::marker::{Model, PhantomData, Send};
use std::ptr::null_mut;

/// One block: a value, and the place of the block behind it, or null.
#[derive(Drop)]
pub struct Block<T> {
    pub(crate) next: *mut Block<T>,
    // What frees the block. It has no bytes, and can't be made from nothing, so the block keeps it.
    pub(crate) alloc: Global,
    pub(crate) elem: T,
}

// A block's pointer owns nothing.
unsafe impl<T: Send> Send for Block<T> {}

impl<T> Block<T> {
    pub(crate) fn new(alloc: Global, elem: T) -> Block<T>
        ensures { result.elem ≡ elem }
    {
        Block {
            next: null_mut(),
            alloc,
            elem,
        }
    }
}

/// The right to some blocks, in an order. It has no bytes, and whoever calls it knows where the blocks lie.
///
/// It isn't `Drop`, so that no code can lose a block: `pop_front` hands each out, and `end` takes no more than none.
pub struct Blocks<T> {
    values: PhantomData<T>,
    pub ghost placed: { List (Placed T) },
}

impl<T> Model for Blocks<T> {
    ghost also_owns = { λ b. blocks_own T.row b.placed };
}

unsafe impl<T: Send> Send for Blocks<T> {}

impl<T> Blocks<T> {
    pub(crate) fn new() -> Blocks<T>
        ensures { result.placed ≡ [] }
    {
        Blocks {
            values: PhantomData,
        }
    }

    /// Ends the right to no blocks.
    pub(crate) fn end(self)
        requires { self.placed ≡ [] }
    {
        let Blocks { values: _ } = self;
    }

    /// A block that was a box, and where it lies.
    pub(crate) fn one(block: RawBox<Block<T>, Global>) -> (*mut Block<T>, Blocks<T>)
        ensures placed { result.1.placed ≡ (result.0, block.value) ∷ [] }
        ensures start { IsStart result.0 }
    {
        let RawBox { at, alloc: _ } = block;
        (
            at,
            Blocks {
                values: PhantomData,
            },
        )
    }

    /// Hands out the first block, which lies there.
    pub(crate) fn pop_front(&mut self, at: *mut Block<T>) -> RawBox<Block<T>, Global>
        requires { (0 < length self.old.placed) × (at ≡ place_of self.old.placed 0) }
        ensures { self.old.placed ≡ (at, result.value) ∷ self.new.placed }
    {
        let alloc = unsafe { (*at).alloc };
        RawBox { at, alloc }
    }

    /// Where the i-th block's pointer leads, counted from 0. Only the proof needs i.
    pub(crate) fn next(&mut self, at: *mut Block<T>, i: usize) -> *mut Block<T>
        requires { (i < length self.old.placed) × (at ≡ place_of self.old.placed i) }
        ensures next { result ≡ next_of self.old.placed i }
        ensures same { self.new ≡ self.old }
    {
        unsafe { (*at).next }
    }

    /// Lets the last block's pointer lead elsewhere.
    pub(crate) fn set_last_next(&mut self, last: *mut Block<T>, next: *mut Block<T>)
        requires { (0 < length self.old.placed) × (last ≡ last_place self.old.placed) }
        ensures { self.new.placed ≡ with_last_next next self.old.placed }
    {
        unsafe {
            (*last).next = next;
        }
    }

    /// Parts the right to the first n blocks from the right to the others.
    pub(crate) fn cut_front(&mut self, n: usize) -> Blocks<T>
        ensures front { result.placed ≡ take n self.old.placed }
        ensures rest { self.new.placed ≡ drop n self.old.placed }
    {
        Blocks {
            values: PhantomData,
        }
    }

    pub(crate) fn append(&mut self, other: Blocks<T>)
        ensures { self.new.placed ≡ self.old.placed ++ other.placed }
    {
        let Blocks { values: _ } = other;
    }

    /// Where the i-th block lies, of blocks each of which leads to the next.
    #[tactic(auto, using(crate::proofs::Leading::leads_first, crate::proofs::Leading::leads_next))]
    pub(crate) fn place(&mut self, first: *mut Block<T>, i: usize) -> *mut Block<T>
        requires { (i < length self.old.placed) × Leads first self.old.placed null_ptr }
        ensures place { result ≡ place_of self.old.placed i }
        ensures same { self.new ≡ self.old }
    {
        let mut at = first;
        for k in 0..i {
            at = self.next(at, k);
        }
        at
    }
}
