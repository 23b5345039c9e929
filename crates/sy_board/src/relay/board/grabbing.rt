//! The step of entries from a queue to a worker.
ghost use Rattle.std.specs.Prelude.{◌≡◌, ◌+◌, ◌<◌, ◌≤◌, ◌++◌, [], List, IfErr, IfOk, OnErr, drop, length, map, unwrap_or};
ghost use Rattle.sy_chain.specs.Entries.{Entry};
ghost use Rattle.sy_marks.specs.Marks.{kept_of, lost_of};
ghost use Rattle.sy_board.specs.internal.Counting.{HasRoomFor, became_due};
ghost use Rattle.sy_board.specs.relay.Boards.{GrabFails, GrabIs};
ghost use Rattle.sy_board.specs.relay.Steps.{Cause, Out};
ghost use Rattle.sy_board.specs.relay.Totals.{guarded_losses, no_guard};

use super::{Board, is_guarded};
use crate::fault::BoardFault;
use crate::relay::accounts::Accounts;
use crate::relay::guard::Guard;
use crate::relay::reading::batch_of;
use sy_chain::Chain;
use sy_marks::MarkQueue;
use sy_rules::Plan;

// How many of the first entries of a queue would be lost to a worker, and how many of those are guarded. Each is taken
// out, judged at the length that remains, and put back with the others.
fn losses(queue: &mut MarkQueue, count: usize, plan: &Plan, guard: &Option<Guard>) -> (usize, usize)
    requires there { count ≤ length queue.old.entries }
    requires fits { length queue.old.entries ≤ queue.old.marks.size }
    ensures same { queue.new ≡ queue.old }
    ensures lost { result.0 ≡ length (lost_of queue.old.marks count queue.old.entries) }
    ensures guarded { result.1 ≡ guarded_losses plan.now (unwrap_or guard.now no_guard)
        (map (Out.Lost Cause.Grab) (lost_of queue.old.marks count queue.old.entries)) }
{
    let (mut lost, mut guarded) = (0, 0);
    if !queue.may_lose() {
        return (0, 0);
    }
    let mut front = Chain::new();
    let mut unjudged = count;
    while unjudged > 0 {
        let Some(entry) = queue.pop_front() else {
            unreachable!()
        };
        unjudged -= 1;
        if queue.loses(&entry) {
            lost += 1;
            guarded += usize::from(is_guarded(plan, guard, &entry));
        }
        front.push_back(entry);
    }
    queue.prepend(front);
    (lost, guarded)
}

// Takes so many entries from the front of a queue: those that are kept come to the end of these, and what they have due
// became due. The answer is those that are lost.
#[inline(always)]
fn move_batch(
    count: usize,
    queue: &mut MarkQueue,
    entries: &mut Chain,
    plan: &Plan,
    accounts: &mut Accounts,
) -> Chain
    requires there { count ≤ length queue.old.entries }
    requires fits { HasRoomFor plan.now (kept_of queue.old.marks count queue.old.entries) accounts.old }
    ensures rest { queue.new ≡ record queue.old { entries = drop count queue.old.entries } }
    ensures kept { entries.new ≡ entries.old ++ kept_of queue.old.marks count queue.old.entries }
    ensures lost { result ≡ lost_of queue.old.marks count queue.old.entries }
    ensures accounts { accounts.new ≡ became_due plan.now (kept_of queue.old.marks count queue.old.entries) accounts.old }
{
    let mut lost = Chain::new();
    let mut left = count;
    while left > 0 {
        let Some(node) = queue.pop_front() else {
            unreachable!()
        };
        left -= 1;
        let due = node.due();
        if queue.loses(&node) {
            lost.push_back(node);
        } else if due != 0 {
            accounts.count_entry(plan, node.list(), due);
            entries.push_back(node);
        }
    }
    lost
}

impl Board {
    /// A worker without entries takes a batch from the front of its queue, or all that waits there. The answer is how many entries left
    /// the queue, 0 only where none waits, and those of them that were lost: each is judged at the length that remains without it. Entries
    /// with nothing due are finished, and are dropped.
    #[inline(always)]
    pub fn grab(&mut self, worker: u32) -> Result<(usize, Chain), BoardFault>
        requires { worker < length self.old.plan.workers }
        ensures ok { IfOk result (λ grabbed. GrabIs grabbed.0 grabbed.1 self.old worker self.new) }
        ensures err { IfErr result (λ fault. GrabFails fault self.old worker) }
        ensures unchanged { OnErr result (self.new ≡ self.old) }
    {
        let slot = &mut self.workers[worker as usize];
        if !slot.entries.is_empty() {
            return Err(BoardFault::SlotBusy);
        }
        let (queue, batch) = batch_of(&self.plan, worker);
        let queue = &mut self.queues[queue];
        let count = batch.min(queue.len());
        if count == 0 {
            return Ok((0, Chain::new()));
        }
        let (lost_count, guarded) = losses(queue, count, &self.plan, &self.guard);
        let Ok(()) = self.accounts.count_grab(count, lost_count, guarded) else {
            return Err(BoardFault::TotalsFull);
        };
        let lost = move_batch(
            count,
            queue,
            &mut slot.entries,
            &self.plan,
            &mut self.accounts,
        );
        Ok((count, lost))
    }
}
