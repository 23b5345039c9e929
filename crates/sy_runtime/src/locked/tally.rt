//! The board of a relay, with what all its connections counted.
ghost use Rattle.std.specs.Prelude.{◌≡◌, ℕ, List, IfErr, IfSome, OnErr, OnOk, false};
ghost use Rattle.std.proofs.Props.{props};
ghost use Rattle.sy_runtime.specs.Connections.{Kept, Overflows, all_unread, counted_both, nothing_counted};
ghost use Rattle.sy_runtime.specs.internal.Counted.{IsCounted, RoseAlike};
ghost use Rattle.sy_runtime.specs.internal.Held.{Holds};
ghost use Rattle.sy_runtime.specs.internal.Taking.{IsUpToUnread};

use crate::connection::taking::{Hand, Pause, enter, has_hand, insert_some};
use crate::connection_end::ConnEnd;
use crate::fault::RunFault;
use crate::untaken::Item;
use crate::worker::finding::{Next, find, has_worker};
use crate::worker::posting::{PostOutcome, post};
use crate::worker::recording::{After, discard, record};
use std::alloc::Global;
use std::collections::VecDeque;
use std::sync::Arc;
use sy_actions::{Failure, Receipts};
use sy_board::{Board, PostCause};
use sy_chain::Node;
use sy_wire::Message;

/// The board of a relay, and what all its connections counted so far. Each message and each frame without one is counted here before the lock is let go
/// under which it was taken, or after it was kept.
#[derive(Drop)]
pub(crate) struct Tally {
    // none once the relay has stopped
    pub(crate) board: Option<Board>,
    pub(crate) counts: ConnEnd,
    ghost counted: { IsCounted board counts } by { Prim.hlevel props },
}

impl Tally {
    /// Of a board before its first message.
    pub(crate) fn new(board: Board) -> Tally
        requires { board.totals.taken ≡ 0 }
        ensures { result.counts ≡ nothing_counted }
    {
        Tally {
            board: Some(board),
            counts: ConnEnd::new(),
        }
    }

    /// Takes a batch as far as it goes (`insert_some`); none once the board isn't here.
    pub(crate) fn insert_some(
        &mut self,
        hand: Hand,
        batch: &mut VecDeque<Item>,
        end: &mut ConnEnd,
        is_in_hand: &mut bool,
        used: &mut Vec<Node>,
    ) -> Option<Result<(), Pause>>
        ensures kept { (read left : List ℕ) (reported : Kept) → Holds read end.old reported batch.old.items left →
            Holds read end.new reported batch.new.items left }
        ensures all { IfSome result (λ inserted. OnOk inserted (IsUpToUnread batch.new.items)) }
        ensures free { IfSome result (λ inserted. OnOk inserted (is_in_hand.new ≡ false)) }
        ensures counted { RoseAlike self.old.counts self.new.counts end.old end.new }
    {
        let board = self.board.as_mut()?;
        Some(insert_some(board, hand, batch, end, &mut self.counts, is_in_hand, used))
    }

    /// Counts so many frames more that carry no message and were kept. Where a count would pass 2^64 - 1 nothing has changed, and the answer is
    /// `TotalsFull`.
    pub(crate) fn count_unread(&mut self, count: u64) -> Result<(), RunFault>
        ensures ok { OnOk result (self.new.counts ≡ counted_both self.old.counts (all_unread count)) }
        ensures err { IfErr result (λ fault. (fault ≡ RunFault.TotalsFull) × Overflows (counted_both self.old.counts (all_unread count))) }
        ensures unchanged { OnErr result (self.new.counts ≡ self.old.counts) }
        ensures board { self.new.board ≡ self.old.board }
    {
        self.counts.add_unread(count)
    }

    /// Takes the board out; none where it was taken before.
    pub(crate) fn take_board(&mut self) -> Option<Board>
        ensures { self.new.counts ≡ self.old.counts }
    {
        self.board.take()
    }

    /// The hand's message goes into the queue, which the light-delay mark held long enough; whether it does.
    pub(crate) fn enter(&mut self, hand: Hand) -> bool
        ensures { self.new.counts ≡ self.old.counts }
    {
        match self.board.as_mut() {
            Some(board) => has_hand(board, hand) && enter(board, hand, true).is_ok(),
            None => false,
        }
    }

    /// The hand's message is lost, for which a full queue had no room; none where the board refuses that.
    pub(crate) fn expire(&mut self, hand: Hand) -> Option<Node>
        ensures { self.new.counts ≡ self.old.counts }
    {
        let board = self.board.as_mut()?;
        if !has_hand(board, hand) {
            return None;
        }
        board.expire(hand.input, hand.number).ok()
    }

    /// What a worker does next.
    pub(crate) fn find(
        &mut self,
        alloc: Global,
        worker: u32,
        messages: &mut Vec<Arc<Message>>,
        used: &mut Vec<Node>,
    ) -> Next
        ensures { self.new.counts ≡ self.old.counts }
    {
        match self.board.as_mut() {
            Some(board) => find(alloc, board, worker, messages, used),
            None => Next::Ends,
        }
    }

    /// Records what came of a worker's offer.
    pub(crate) fn record(
        &mut self,
        worker: u32,
        receipts: Receipts,
        failure: Option<Failure>,
        used: &mut Vec<Node>,
    ) -> After
        ensures { self.new.counts ≡ self.old.counts }
    {
        match self.board.as_mut() {
            Some(board) => record(board, worker, receipts, failure, used),
            None => discard(receipts, failure),
        }
    }

    /// Tries the post of a worker again; whether it is still held.
    pub(crate) fn holds_post(&mut self, alloc: Global, worker: u32, used: &mut Vec<Node>) -> bool
        ensures { self.new.counts ≡ self.old.counts }
    {
        match self.board.as_mut() {
            Some(board) => {
                has_worker(board, worker) && post(alloc, board, worker, used) == PostOutcome::Held
            }
            None => false,
        }
    }

    /// Loses the post of a worker, unless its queue has room by now or a mark holds the post.
    pub(crate) fn lose_post(&mut self, worker: u32)
        ensures { self.new.counts ≡ self.old.counts }
    {
        if let Some(board) = self.board.as_mut() {
            if has_worker(board, worker) {
                let _ = board.post_lost(worker, PostCause::Full);
            }
        }
    }
}
