//! Frames become entries before the lock is taken.
ghost use Rattle.std.specs.Prelude.{◌≡◌, ◌+◌, ℕ, List, false, length, MatchResult, OnOk};
ghost use Rattle.sy_runtime.specs.Connections.{Counts, Kept};
ghost use Rattle.sy_runtime.specs.internal.Held.{Holds};
ghost use Rattle.sy_runtime.specs.internal.Gathering.{GatherIs};

use crate::connection::makings::Makings;
use crate::untaken::Item;
use std::alloc::Global;
use std::collections::VecDeque;
use sy_wire::{FrameFault, Framer};

/// What ended a gathering.
#[derive(Clone, Copy)]
pub(crate) enum Gathered {
    // no whole frame is left in the framer
    Open,
    // the batch has as many as it may
    Full,
    Fault(FrameFault),
    // memory ran out
    NoMemory,
}

// Gathers one frame. Whatever memory it takes it has before the frame leaves the framer.
#[tactic(auto, using(crate::proofs::Steps::gathered_one))]
fn gather_one(
    alloc: Global,
    framer: &mut Framer,
    raw: &mut Vec<u8>,
    makings: &mut Makings,
    batch: &mut VecDeque<Item>,
) -> Result<(), Gathered>
    requires { framer.old.has_failed ≡ false }
    ensures kept { (read : List ℕ) (end : Counts) (reported : Kept) → Holds read end reported batch.old.items framer.old.left →
        MatchResult result (λ _. Holds read end reported batch.new.items framer.new.left)
        (λ g. GatherIs g read end reported batch.new.items framer.new) }
    ensures good { OnOk result (framer.new.has_failed ≡ false) }
    ensures grows { OnOk result (length batch.new.items ≡ length batch.old.items + 1) }
{
    if makings.prepare(alloc).is_err() || batch.reserve(1).is_err() {
        return Err(Gathered::NoMemory);
    }
    match framer.next_into(raw) {
        Ok(true) => {}
        Ok(false) => return Err(Gathered::Open),
        Err(FrameFault::NoMemory) => return Err(Gathered::NoMemory),
        Err(fault) => return Err(Gathered::Fault(fault)),
    }
    batch.push_back_reserved(makings.item_of(alloc, raw));
    Ok(())
}

/// Gathers the whole frames that the framer holds, up to so many.
pub(crate) fn gather(
    alloc: Global,
    framer: &mut Framer,
    raw: &mut Vec<u8>,
    makings: &mut Makings,
    batch: &mut VecDeque<Item>,
    most: usize,
) -> Gathered
    requires { framer.old.has_failed ≡ false }
    ensures kept { (read : List ℕ) (end : Counts) (reported : Kept) → Holds read end reported batch.old.items framer.old.left →
        GatherIs result read end reported batch.new.items framer.new }
{
    for _ in 0..most {
        match gather_one(alloc, framer, raw, makings, batch) {
            Ok(()) => {}
            Err(gathered) => return gathered,
        }
    }
    Gathered::Full
}
