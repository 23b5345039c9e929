//! A message's way over the board, from its frame to its line.
ghost use Rattle.std.specs.Prelude.{◌≡◌, ◌+◌, ◌<◌, ◌≤◌, ◌^◌, ℕ, List, Err, IfErr, IfOk, OnOk};
ghost use Rattle.std.specs.Io.KnownBytes.{Appends};
ghost use Rattle.sy_passing.specs.Pass.{line};
ghost use Rattle.sy_passing.specs.Stops.{Carries, CarryCause, CarryFails, EntryFails, IsIdle, IsReady};
ghost use Rattle.sy_passing.specs.internal.Ways.{IsCarryFault, IsReceiptOf};
ghost use Rattle.sy_passing.specs.Ways.{IsEntry, IsWhole};

use std::alloc::Global;
use std::mem;
use std::sync::Arc;
use sy_actions::{DeviceFault, Failure, Hatch, LineSink, Receipt};
use sy_board::{Board, Entry, Job, Taken};
use sy_chain::{Node, RenewFault};
use sy_report::outcome::stop::Stop;
use sy_wire::{Message, Sink};

// The only input, hand and worker that a pass uses.
const INPUT: u32 = 0;

const HAND: u32 = 0;

const WORKER: u32 = 0;

// The only list, whose one occurrence is due of every message; and the tag, which a pass doesn't look at.
const LIST: u32 = 0;

const DUE: u64 = 1;

const TAG: u64 = 0;

/// Why a message's line was not, or not wholly, written.
#[derive(Clone, Copy)]
pub enum CarryFault {
    /// Memory ran out before the line.
    NoMemory,
    /// A write failed in the line.
    WriteFailed,
}

// An entry of the message of that text, in new memory. It takes the text away.
#[inline(never)]
fn new_entry(alloc: Global, raw: &mut Vec<u8>) -> Result<Node, Stop>
    ensures ok { IfOk result (λ node. Carries node raw.old.items) }
    ensures err { IfErr result (λ e. EntryFails e raw.old.items) }
{
    let text = mem::replace(raw, Vec::new(alloc));
    let message = match Message::read(text) {
        Ok(message) => message,
        Err((_, fault)) => return Err(Stop::Message(fault)),
    };
    let Ok(message) = Arc::new(alloc, message) else {
        return Err(Stop::NoMemory);
    };
    let Ok(node) = Node::new(alloc, message, LIST, INPUT, DUE, TAG) else {
        return Err(Stop::NoMemory);
    };
    Ok(node)
}

/// An entry of the message of that text. It is made in the memory of one that has left the board, if there is one,
/// and then the bytes that were there are in place of the text, so that their memory can be used again.
pub fn entry(alloc: Global, used: Option<Node>, raw: &mut Vec<u8>) -> Result<Node, Stop>
    ensures ok { IfOk result (λ node. Carries node raw.old.items) }
    ensures err { IfErr result (λ e. EntryFails e raw.old.items) }
{
    let Some(mut node) = used else {
        return new_entry(alloc, raw);
    };
    match node.renew(raw, LIST, INPUT, DUE, TAG) {
        Ok(()) => Ok(node),
        Err(RenewFault::Message(fault)) => Err(Stop::Message(fault)),
        Err(RenewFault::Shared) => new_entry(alloc, raw),
    }
}

// Brings an entry through its hand and the queue to the worker.
fn insert_entry(board: &mut Board, node: Node)
    requires idle { IsIdle board.old }
    requires room { board.old.totals.taken + 1 < 2 ^ 64 }
    requires node { IsEntry node }
    ensures ready { IsReady board.new node.message.raw }
    ensures taken { board.new.totals.taken ≡ board.old.totals.taken + 1 }
{
    let Ok(Taken::InHand) = board.take(INPUT, HAND, node) else {
        unreachable!()
    };
    let Ok(Entry::Entered) = board.enter(INPUT, HAND) else {
        unreachable!()
    };
    let Ok(_grabbed) = board.grab(WORKER) else {
        unreachable!()
    };
}

// What a refusal of the line sink stops a pass with.
fn carry_fault(failure: Failure) -> CarryFault
    ensures { IsCarryFault failure.fault result }
{
    let fault = failure.fault();
    let _message = failure.into_message();
    match fault {
        DeviceFault::NoMemory => CarryFault::NoMemory,
        DeviceFault::Write | DeviceFault::Broken | DeviceFault::CountFull => {
            CarryFault::WriteFailed
        }
    }
}

// Offers the worker's message to the line sink.
fn offer<W: Sink + Drop>(
    board: &Board,
    hatch: &mut Hatch<LineSink<W>>,
) -> Result<Receipt, CarryFault>
    requires ready { (raw : List ℕ) × IsReady board.now raw }
    requires whole { IsWhole hatch.old hatch.old.made }
    requires room { hatch.old.made + 1 < 2 ^ 64 }
    ensures receipt { IfOk result (λ receipt. IsReceiptOf board.now receipt) }
    ensures whole { OnOk result (IsWhole hatch.new (hatch.old.made + 1)) }
    ensures ok { (raw : List ℕ) → IsReady board.now raw →
        OnOk result (Appends (W.contents hatch.old.device.writer) (W.contents hatch.new.device.writer) (line raw)) }
    ensures err { (raw : List ℕ) → IsReady board.now raw → IfErr result (λ e. CarryFails e
        (W.contents hatch.old.device.writer) (W.contents hatch.new.device.writer) (line raw)) }
    ensures lent { W.lent hatch.new.device.writer ≡ W.lent hatch.old.device.writer }
    ensures count { W.faults hatch.old.device.writer ≤ W.faults hatch.new.device.writer }
    ensures same { OnOk result (W.faults hatch.new.device.writer ≡ W.faults hatch.old.device.writer) }
    ensures cause { IfErr result (λ e. CarryCause e (W.faults hatch.old.device.writer)
        (W.faults hatch.new.device.writer)) }
{
    let message = match board.job(WORKER) {
        Some(Job::Run { message, .. }) => message,
        Some(Job::Post { .. }) => unreachable!(),
        None => unreachable!(),
    };
    let Ok(message) = Arc::try_clone(message) else {
        return Err(CarryFault::NoMemory);
    };
    match hatch.deliver(message) {
        Ok(receipt) => Ok(receipt),
        Err(failure) => Err(carry_fault(failure)),
    }
}

/// Takes a message over the board to its line, and hands out the entry that carried it.
pub fn carry<W: Sink + Drop>(
    board: &mut Board,
    hatch: &mut Hatch<LineSink<W>>,
    node: Node,
) -> Result<Node, CarryFault>
    requires idle { IsIdle board.old }
    requires room { board.old.totals.taken + 1 < 2 ^ 64 }
    requires node { IsEntry node }
    requires whole { IsWhole hatch.old board.old.totals.taken }
    ensures idle { OnOk result (IsIdle board.new) }
    ensures whole { OnOk result (IsWhole hatch.new board.new.totals.taken) }
    ensures ok { OnOk result (Appends (W.contents hatch.old.device.writer) (W.contents hatch.new.device.writer)
        (line node.message.raw)) }
    ensures taken { OnOk result (board.new.totals.taken ≡ board.old.totals.taken + 1) }
    ensures bound { board.new.totals.taken ≤ board.old.totals.taken + 1 }
    ensures err { IfErr result (λ e. CarryFails e (W.contents hatch.old.device.writer)
        (W.contents hatch.new.device.writer) (line node.message.raw)) }
    ensures held { result ≡ Err CarryFault.WriteFailed → IsReady board.new node.message.raw }
    ensures lent { W.lent hatch.new.device.writer ≡ W.lent hatch.old.device.writer }
    ensures count { W.faults hatch.old.device.writer ≤ W.faults hatch.new.device.writer }
    ensures same { OnOk result (W.faults hatch.new.device.writer ≡ W.faults hatch.old.device.writer) }
    ensures cause { IfErr result (λ e. CarryCause e (W.faults hatch.old.device.writer)
        (W.faults hatch.new.device.writer)) }
{
    insert_entry(board, node);
    let receipt = match offer(board, hatch) {
        Ok(receipt) => receipt,
        Err(fault) => return Err(fault),
    };
    match board.settle_out(WORKER, receipt) {
        Ok(Some(node)) => Ok(node),
        Ok(None) => unreachable!(),
        Err((receipt, _)) => {
            receipt.discard();
            unreachable!()
        }
    }
}
