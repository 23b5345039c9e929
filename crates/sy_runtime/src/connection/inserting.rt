//! A batch goes into the board under the lock.
ghost use Rattle.std.specs.Prelude.{◌≡◌, [], ℕ, List, Option, false, OnOk};
ghost use Rattle.sy_runtime.specs.Connections.{since};
ghost use Rattle.sy_runtime.specs.internal.Held.{Holds};

use crate::connection::halt::Halt;
use crate::connection::keeping::keep_unread;
use crate::connection::taking::{Hand, Pause};
use crate::connection_end::{ConnEnd, UnreadSink};
use crate::locked::losing::{Moved, report_moved};
use crate::shared::{Gate, Shared};
use crate::untaken::Item;
use crate::waiting::{Waiting, wait_and_report};
use std::collections::VecDeque;
use std::mem;
use std::sync::Wait;
use std::time::Clock;
use sy_chain::Node;

// Why a connection ends at this pause, which nothing ends that holds its message.
fn halt_at(pause: Pause) -> Halt {
    match pause {
        Pause::TotalsFull => Halt::TotalsFull,
        Pause::Hands => Halt::Hands,
        Pause::NoMemory => Halt::NoMemory,
        Pause::Held(_) => Halt::Closed,
    }
}

/// Puts a batch in, however long it waits, and has those frames kept that carry no message, each before anything behind it is taken. It looks
/// whether the relay closes with an empty batch too.
pub(crate) fn insert_batch<R: Wait + Clock, G: Gate, U: UnreadSink>(
    rt: &R,
    shared: &Shared,
    gate: &G,
    sink: &mut U,
    hand: Hand,
    batch: &mut VecDeque<Item>,
    end: &mut ConnEnd,
    is_in_hand: &mut bool,
    used: &mut Vec<Node>,
) -> Result<(), Halt>
    ensures kept { (read left : List ℕ) (before : Option (List (List ℕ))) →
        Holds read end.old (since before (U.kept sink.old)) batch.old.items left →
        Holds read end.new (since before (U.kept sink.new)) batch.new.items left }
    ensures all { OnOk result (batch.new.items ≡ []) }
    ensures free { OnOk result (is_in_hand.new ≡ false) }
{
    let mut locked = shared.locked.lock(rt);
    for _ in rt.forever() {
        if locked.is_closing {
            return Err(Halt::Closed);
        }
        let before = Moved::of(end, locked.lost_in());
        let Some(insert_batch) = locked.tally.insert_some(hand, batch, end, is_in_hand, used) else {
            return Err(Halt::Closed);
        };
        let moved = Moved::of(end, locked.lost_in()).since(before);
        if let Err(Pause::Held(hold)) = insert_batch {
            shared.work.notify_all();
            let waiting = Waiting { hand, hold, moved };
            locked = wait_and_report(rt, shared, gate, locked, waiting, is_in_hand);
            continue;
        }
        // (so that what one round got isn't given back in the next)
        if locked.used.len() > used.len() {
            mem::swap(&mut locked.used, used);
        }
        drop(locked);
        shared.work.notify_all();
        report_moved(gate, hand.input, moved);
        if let Err(pause) = insert_batch {
            return Err(halt_at(pause));
        }
        keep_unread(rt, shared, gate, sink, hand.input, batch, end)?;
        if batch.is_empty() {
            return Ok(());
        }
        locked = shared.locked.lock(rt);
    }
    unreachable!()
}
