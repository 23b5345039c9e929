//! Frames that carry no message go to what keeps them.
ghost use Rattle.std.specs.Prelude.{◌≡◌, ◌+◌, ◌<◌, ◌^◌, ◌∷◌, ℕ, List, Option, IfOk, IfSome, OnErr, OnOk};
ghost use Rattle.sy_runtime.specs.Connections.{since};
ghost use Rattle.sy_runtime.specs.declared.untaken.Item.{Item as Kept};
ghost use Rattle.sy_runtime.specs.internal.Counted.{RoseAlike};
ghost use Rattle.sy_runtime.specs.internal.Held.{Holds};
ghost use Rattle.sy_runtime.specs.internal.Keeping.{IsUpToMessage, KeepIs};
ghost use Rattle.sy_runtime.specs.internal.Taking.{HasMessage};

use crate::connection::halt::Halt;
use crate::connection::taking::push_front_if_any;
use crate::connection_end::{ConnEnd, NotKept, Unread, UnreadSink};
use crate::locked::tally::Tally;
use crate::shared::{Gate, Shared};
use crate::untaken::Item;
use std::collections::VecDeque;
use std::sync::Wait;
use std::time::Clock;

// Counts a frame that was kept, of its connection and of all. Where the counts of all are full it is its connection's alone, which ends at it.
#[tactic(auto, using(crate::proofs::Counted::unread_alike))]
fn count_kept(tally: &mut Tally, end: &mut ConnEnd, why: Unread) -> Result<(), Halt>
    requires frames { end.old.frames + 1 < 2 ^ 64 }
    requires unread { end.old.unread + 1 < 2 ^ 64 }
    ensures end { end.new ≡ record end.old { frames = end.old.frames + 1; unread = end.old.unread + 1 } }
    ensures counted { OnOk result (RoseAlike tally.old.counts tally.new.counts end.old end.new) }
    ensures full { OnErr result (tally.new.counts ≡ tally.old.counts) }
{
    end.count_unread(why);
    match tally.count_unread(1) {
        Ok(()) => Ok(()),
        Err(_) => Err(Halt::TotalsFull),
    }
}

// Has a frame of an input kept that carries no message, and counts and tells it then. The answer is the item where it has one; or why it wasn't kept,
// and the item; or that it was kept, and the counts of all are full.
#[tactic(auto, using(crate::proofs::Taken::unread_one))]
fn keep_one<R: Wait + Clock, G: Gate, U: UnreadSink>(
    rt: &R,
    shared: &Shared,
    gate: &G,
    sink: &mut U,
    input: u32,
    item: Item,
    end: &mut ConnEnd,
) -> Result<Option<Item>, (Halt, Option<Item>)>
    ensures has { IfOk result (λ left. IfSome left HasMessage) }
    ensures kept { (read left : List ℕ) (before : Option (List (List ℕ))) (later : List Kept) →
        Holds read end.old (since before (U.kept sink.old)) (item ∷ later) left →
        KeepIs result read end.new (since before (U.kept sink.new)) later left }
{
    let Item::Other(text, fault) = item else {
        return Ok(Some(item));
    };
    if end.is_full() {
        return Err((Halt::TotalsFull, Some(Item::Other(text, fault))));
    }
    let frame = end.frames() + 1;
    let why = Unread { frame, fault };
    match sink.keep(rt, why, text.as_slice()) {
        Ok(()) => {
            let counted = count_kept(&mut shared.locked.lock(rt).tally, end, why);
            gate.takes(input, 0, 1);
            match counted {
                Ok(()) => Ok(None),
                Err(halt) => Err((halt, None)),
            }
        }
        Err(NotKept) => Err((Halt::Closed, Some(Item::Other(text, fault)))),
    }
}

/// Has those frames of an input kept that stand first and carry no message, and counts and tells each then.
pub(crate) fn keep_unread<R: Wait + Clock, G: Gate, U: UnreadSink>(
    rt: &R,
    shared: &Shared,
    gate: &G,
    sink: &mut U,
    input: u32,
    batch: &mut VecDeque<Item>,
    end: &mut ConnEnd,
) -> Result<(), Halt>
    ensures ok { OnOk result (IsUpToMessage batch.new.items) }
    ensures kept { (read left : List ℕ) (before : Option (List (List ℕ))) →
        Holds read end.old (since before (U.kept sink.old)) batch.old.items left →
        Holds read end.new (since before (U.kept sink.new)) batch.new.items left }
{
    while let Some(item) = batch.pop_front() {
        match keep_one(rt, shared, gate, sink, input, item, end) {
            Ok(None) => {}
            Ok(Some(item)) => {
                batch.push_front_reserved(item);
                return Ok(());
            }
            Err((halt, item)) => {
                push_front_if_any(batch, item);
                return Err(halt);
            }
        }
    }
    Ok(())
}
