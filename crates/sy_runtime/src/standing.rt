//! The totals of a relay as they stand.
ghost use Rattle.std.specs.Prelude.{◌≡◌, ◌+◌, IfErr, IfOk, IfSome, map, sum_by};
ghost use Rattle.sy_board.specs.relay.Boards.{counts_of};
ghost use Rattle.sy_runtime.specs.Standing.{Stands, held_by};
ghost use Rattle.sy_runtime.specs.internal.Counted.{ReportsCounts};

use crate::connection_end::ConnEnd;
use crate::fault::RunFault;
use crate::locked::tally::Tally;
use crate::relay::{Common, Relay};
use crate::shared::Gate;
use std::alloc::{AllocError, Global};
use std::sync::Wait;
use sy_board::{Accounts, ActionCounts, Board};

/// The totals of a relay as they stand: frames and messages, losses, what it holds, how many entries wait in each queue, and what it counted of
/// each action. What it holds is each entry in a hand or in a queue, and of those that workers have all that is still to be done.
#[derive(Drop)]
pub struct Standing {
    /// The frames that connections counted so far, and those of them that carried no message.
    pub frames: u64,
    pub unread: u64,
    pub taken: u64,
    pub lost: u128,
    pub held: u128,
    /// of each queue how many of those wait there
    pub queues: Vec<usize>,
    pub actions: Vec<ActionCounts>,
}

// The runs of these actions that are still to be done for entries that workers have; none where they are 2^128 or more.
fn runs_left(actions: &[ActionCounts]) -> Option<u128>
    ensures { IfSome result (λ left. left ≡ sum_by (λ counts. counts.left) actions.now) }
{
    let mut left: u128 = 0;
    for counts in actions {
        left = left.checked_add(u128::from(counts.left))?;
    }
    Some(left)
}

/// What a relay with these totals holds; none where that is 2^128 or more.
#[tactic(auto, using(crate::proofs::Standings::held_is))]
pub(crate) fn held_of(accounts: &Accounts) -> Option<u128>
    ensures { IfSome result (λ held. held ≡ held_by accounts.now) }
{
    let runs = runs_left(accounts.actions())?;
    let others = u128::from(accounts.in_hands())
        + u128::from(accounts.in_queues())
        + u128::from(accounts.posts_left());
    let held = others.checked_add(runs)?;
    Some(held)
}

// A copy of these.
fn copy_of(alloc: Global, actions: &[ActionCounts]) -> Result<Vec<ActionCounts>, AllocError>
    ensures { IfOk result (λ copy. copy.items ≡ actions.now) }
{
    let mut copy = Vec::with_capacity(alloc, actions.len())?;
    copy.extend_from_slice(actions)?;
    Ok(copy)
}

// What a board counts and holds, and connections counted of frames; none where there is no memory for it.
fn standing_of(alloc: Global, board: &Board, counts: &ConnEnd) -> Option<Standing>
    ensures stands { IfSome result (λ s. Stands s.taken s.lost s.held s.queues.items (map counts_of s.actions.items)) }
    ensures reports { IfSome result (λ s. (s.frames ≡ counts.now.frames) × (s.unread ≡ counts.now.unread) × (s.taken ≡ board.now.totals.taken)) }
{
    let accounts = board.accounts();
    let held = held_of(accounts)?;
    let Ok(queues) = board.queue_lens(alloc) else {
        return None;
    };
    let Ok(actions) = copy_of(alloc, accounts.actions()) else {
        return None;
    };
    Some(Standing {
        frames: counts.frames(),
        unread: counts.unread(),
        taken: accounts.taken(),
        lost: accounts.lost(),
        held,
        queues,
        actions,
    })
}

impl Tally {
    // The totals as they stand; none where there is no memory for them, or where the board isn't here.
    fn standing(&self, alloc: Global) -> Option<Standing>
        ensures stands { IfSome result (λ s. Stands s.taken s.lost s.held s.queues.items (map counts_of s.actions.items)) }
        ensures reports { IfSome result (λ s. ReportsCounts s.frames s.unread s.taken self.now.counts) }
        ensures counted { IfSome result (λ s. s.frames ≡ s.taken + s.unread) }
    {
        match &self.board {
            Some(board) => standing_of(alloc, board, &self.counts),
            None => None,
        }
    }
}

impl<G: Gate> Relay<G> {
    /// The totals as they stand, which it looks at once; none where there is no memory for them, or where the relay has stopped. Each frame that connections
    /// counted so far is a message that was taken, or carried none.
    pub fn status<R: Wait>(&self, rt: &R, alloc: Global) -> Option<Standing>
        ensures stands { IfSome result (λ s. Stands s.taken s.lost s.held s.queues.items (map counts_of s.actions.items)) }
        ensures counted { IfSome result (λ s. s.frames ≡ s.taken + s.unread) }
    {
        self.common.shared.locked.lock(rt).tally.standing(alloc)
    }

    /// Counts so many frames of an input that carry no message and were kept, which no connection counts. Where a count would pass 2^64 - 1 nothing
    /// has changed, and the answer is `TotalsFull`.
    pub fn count_unread<R: Wait>(&self, rt: &R, input: u32, count: u64) -> Result<(), RunFault>
        ensures { IfErr result (λ fault. fault ≡ RunFault.TotalsFull) }
    {
        let Common { shared, gate } = &*self.common;
        shared.locked.lock(rt).tally.count_unread(count)?;
        gate.takes(input, 0, count);
        Ok(())
    }
}
