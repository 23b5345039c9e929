//! What a worker does under the lock.
ghost use Rattle.std.specs.Prelude.{◌<◌, ℕ, IfNone, IfSome, length};
ghost use Rattle.sy_rules.specs.Whole.{queue_for};
ghost use Rattle.sy_rules.specs.declared.lists.occurrence.Occurrence.TheVariants as occurrence;
ghost use Rattle.sy_board.specs.relay.Plans.{parameters_at};
ghost use Rattle.sy_board.specs.relay.Steps.{Job as IsJob};
ghost use Rattle.sy_runtime.specs.internal.Finding.{WaitsAtMark};

use crate::locked::Locked;
use crate::locked::losing::{Lost, lost_before, lost_since};
use crate::worker::finding::{Next, has_worker};
use crate::worker::posting::patience;
use crate::worker::recording::After;
use std::alloc::Global;
use std::sync::Arc;
use std::time::Duration;
use sy_actions::{Failure, Receipts};
use sy_wire::Message;

impl Locked {
    /// What a worker does next; it ends once the relay closes. The messages of its runs become these.
    pub(crate) fn find(
        &mut self,
        alloc: Global,
        worker: u32,
        messages: &mut Vec<Arc<Message>>,
    ) -> Next {
        if self.is_closing {
            return Next::Ends;
        }
        let before = self.lost_before(worker);
        let next = self.tally.find(alloc, worker, messages, &mut self.used);
        self.note_lost(before);
        next
    }

    // What was lost at queues before a worker's next step.
    fn lost_before(&self, worker: u32) -> Option<Lost> {
        match &self.tally.board {
            Some(board) => {
                if has_worker(board, worker) {
                    Some(lost_before(board, worker))
                } else {
                    None
                }
            }
            None => None,
        }
    }

    // Notes what was lost at a queue since then.
    fn note_lost(&mut self, before: Option<Lost>) {
        let Some(before) = before else {
            return;
        };
        if let Some(board) = &self.tally.board {
            self.lost = lost_since(board, before);
        }
    }

    /// Records what came of a worker's offer, also while the relay closes.
    pub(crate) fn record(
        &mut self,
        worker: u32,
        receipts: Receipts,
        failure: Option<Failure>,
    ) -> After {
        self.tally.record(worker, receipts, failure, &mut self.used)
    }

    /// Tries the post of a worker again, which is held; whether it still is. Nothing is once the relay closes.
    pub(crate) fn holds_post(&mut self, alloc: Global, worker: u32) -> bool {
        if self.is_closing {
            return false;
        }
        let before = self.lost_before(worker);
        let holds = self.tally.holds_post(alloc, worker, &mut self.used);
        self.note_lost(before);
        holds
    }

    /// Loses the post of a worker, unless its queue has room by now or a mark holds the post.
    pub(crate) fn lose_post(&mut self, worker: u32) {
        let before = self.lost_before(worker);
        self.tally.lose_post(worker);
        self.note_lost(before);
    }

    /// How long the post of a worker waits where it is held; none where it waits as long as it takes.
    pub(crate) fn patience(&self, worker: u32) -> Option<Duration>
        ensures none { IfNone result (IfSome self.now.tally.board (λ board. (list : ℕ) → IsJob board.plan board.state worker (occurrence.Post list)
            → WaitsAtMark (parameters_at board.plan (queue_for board.plan list)))) }
        ensures some { IfSome result (λ time. IfSome self.now.tally.board (λ board. (list : ℕ) → worker < length board.plan.workers
            → IsJob board.plan board.state worker (occurrence.Post list)
            → WaitsAtMark (parameters_at board.plan (queue_for board.plan list)) → ⊥)) }
    {
        let time = match &self.tally.board {
            Some(board) => {
                if has_worker(board, worker) {
                    patience(board, worker)?
                } else {
                    0
                }
            }
            None => 0,
        };
        Some(Duration::from_millis(u64::from(time)))
    }
}
