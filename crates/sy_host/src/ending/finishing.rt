//! How a relay that was served ends: its totals are printed, and what it leaves is kept.
ghost use Rattle.std.specs.Prelude.{◌≡◌, ◌≤◌, ◌<◌, ◌^◌, List, Option, true, IfOk, length, map};
ghost use Rattle.sy_board.specs.relay.Totals.{GuardState};
ghost use Rattle.sy_outlets.specs.Left.{Keeps, KeepsFile};
ghost use Rattle.sy_runtime.specs.Connections.{Counts};
ghost use Rattle.sy_host.specs.Totals.{EndsWithTotals, IsReported, WroteTotals, unread_of};
ghost use Rattle.sy_host.specs.internal.Served.{IsLeft};

use crate::ending::totals::{TotalsFault, numbers_of, write_totals};
use crate::ending::unfinished::report_unfinished;
use std::alloc::Global;
use std::collections::VecDeque;
use std::sync::Wait;
use sy_chain::Chain;
use sy_inputs::serving::Serving;
use sy_outlets::leaving::left::{KeepFault, Store, keep_left};
use sy_outlets::leaving::remaining::sort;
use sy_rules::laws::plans_are_whole;
use sy_rules::{Action, Input, Plan};
use sy_runtime::{Mismatch, Stopped, Untaken};
use sy_wire::Sink;

/// Tells that memory ran out, and answers the exit status for that.
pub(crate) fn out_of_memory<R: Wait, E: Sink + Drop>(rt: &R, serving: &Serving<E>) -> u8
    ensures { result ≡ 3 }
{
    serving.report_text(rt, "no memory");
    3
}

// What a relay leaves.
#[derive(Drop)]
struct Left {
    held: Chain,
    // of each input what its connections had read and not taken
    untaken: VecDeque<VecDeque<Untaken>>,
}

/// How a relay ended, and what the connections of each input had read and not taken.
#[derive(Drop)]
pub(crate) struct Ended {
    pub(crate) answer: Result<Stopped, Mismatch>,
    // what is told of frames that carried no message
    pub(crate) unread: Option<u128>,
    pub(crate) untaken: VecDeque<VecDeque<Untaken>>,
}

// Prints the totals of a relay with these actions that has stopped, and answers the exit status.
fn print_totals<R: Wait, W: Sink, E: Sink + Drop>(
    rt: &R,
    alloc: Global,
    serving: &Serving<E>,
    writer: &mut W,
    actions: &[Action],
    stopped: &Stopped,
    unread: Option<u128>,
) -> u8
    ensures status { result ≤ 4 }
    ensures done { result ≡ 0 → WroteTotals actions.now stopped.now.accounts.totals stopped.now.left unread
        (W.contents writer.old) (W.contents writer.new) }
{
    let numbers = numbers_of(&stopped.accounts, stopped.left.len() as u128, unread);
    match write_totals(alloc, writer, actions, numbers) {
        Ok(()) => 0,
        Err(TotalsFault::NoMemory) => out_of_memory(rt, serving),
        Err(TotalsFault::Write) => {
            serving.report_text(rt, "write failed");
            4
        }
    }
}

// Keeps what a relay with these inputs still held, and what its connections had read and not taken, and answers the exit status, where it was this
// before.
fn keep<R: Wait, T: Store, E: Sink + Drop>(
    rt: &R,
    alloc: Global,
    serving: &Serving<E>,
    store: &mut T,
    inputs: &[Input],
    left: Left,
    status: u8,
) -> u8
    requires status { status ≤ 4 }
    requires inputs { length inputs.now ≤ 64 }
    ensures status { result ≤ 4 }
    ensures done { result ≡ 0 → (status ≡ 0) × (T.wanted store.old ≡ true
        → Keeps (KeepsFile T.begun T.kept) inputs.now left.held (map (λ rests. rests.items) left.untaken.items) store.old store.new) }
{
    if !store.is_wanted() {
        return status;
    }
    match keep_left(alloc, store, inputs, left.held, left.untaken) {
        Ok(()) => status,
        Err(KeepFault::NoMemory) => out_of_memory(rt, serving),
        Err(KeepFault::Write) => {
            serving.report_text(rt, "write failed");
            4
        }
    }
}

/// Prints the totals of a relay of this plan, or why there are none, keeps what it leaves, and answers the exit status.
pub(crate) fn finish<R: Wait, T: Store, W: Sink, E: Sink + Drop>(
    rt: &R,
    alloc: Global,
    serving: &Serving<E>,
    store: &mut T,
    writer: &mut W,
    plan: &Plan,
    ended: Ended,
) -> u8
    ensures status { result ≤ 4 }
    ensures done { result ≡ 0 → (guard : Option GuardState) (ends : List Counts)
        → IfOk ended.answer (λ stopped. IsLeft guard ends stopped.accounts stopped.left)
        → (unread_of ends < 2 ^ 128 → IsReported (unread_of ends) ended.unread)
        → EndsWithTotals plan.now.actions guard (W.contents writer.old) (W.contents writer.new)
        (T.wanted store.old) (KeepsFile T.begun T.kept) plan.now.inputs store.old store.new }
{
    plans_are_whole(plan);
    let Ended {
        answer,
        unread,
        untaken,
    } = ended;
    match answer {
        Ok(stopped) => {
            let status = print_totals(rt, alloc, serving, writer, plan.actions(), &stopped, unread);
            let left = Left {
                held: stopped.left,
                untaken,
            };
            keep(rt, alloc, serving, store, plan.inputs(), left, status)
        }
        Err(Mismatch) => {
            serving.report_text(rt, "totals differ");
            4
        }
    }
}

/// What the connections of these inputs had read and not taken, of each input; what they leave is told. None where memory runs out.
pub(crate) fn sum_up<R: Wait, E: Sink + Drop>(
    rt: &R,
    alloc: Global,
    serving: &Serving<E>,
    inputs: &[Input],
) -> Option<VecDeque<VecDeque<Untaken>>> {
    let rests = serving.take_rests(rt, alloc);
    let sorted = sort(alloc, inputs.len(), rests).ok()?;
    report_unfinished(rt, alloc, serving, inputs, &sorted);
    Some(sorted.untaken)
}
