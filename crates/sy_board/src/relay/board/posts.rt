//! The steps of a worker's job that is a post.
ghost use Rattle.std.specs.Prelude.{◌≡◌, ℕ, ◌<◌, ◌∷◌, IfErr, IfNone, IfOk, IfSome, List, OnErr, OnOk, length, unwrap_or};
ghost use Rattle.sy_chain.specs.Entries.{Entry};
ghost use Rattle.sy_rules.specs.declared.lists.occurrence.Occurrence.TheVariants as occurrence;
ghost use Rattle.sy_board.specs.relay.Boards.{IsForPost, PostFails, PostIs, PostLostFails, PostLostIs};
ghost use Rattle.sy_board.specs.internal.Jobs.{IsNext, may_lose};
ghost use Rattle.sy_board.specs.relay.Steps.{Cause};
ghost use Rattle.sy_board.specs.relay.Totals.{is_guarded_loss, no_guard};

use super::inputs::{expires, holds};
use super::jobs::{advance, next_of};
use super::{Board, is_guarded_occurrence};
use crate::fault::BoardFault;
use crate::relay::answers::{PostCause, Posted};
use crate::relay::guard::Guard;
use crate::relay::reading::{post_flow, queue_of_list};
use sy_chain::{Chain, Node};
use sy_marks::{Flow, Hold};
use sy_rules::{Occurrence, Plan};

// The list of the post that is next for a worker with these entries, and the set that is left without it.
fn post_of(plan: &Plan, entries: &Chain) -> Option<(u32, u64)>
    ensures some { IfSome result (λ post. IsNext plan.now entries.now (occurrence.Post post.0) post.1) }
    ensures none { IfNone result ((list left : ℕ) → IsNext plan.now entries.now (occurrence.Post list) left → ⊥) }
{
    match next_of(plan, entries)? {
        (Occurrence::Post(list), left) => Some((list, left)),
        (Occurrence::Run(_), _) => None,
    }
}

// Whether the loss of the first entry's post to this list is counted apart.
fn loses_guarded(plan: &Plan, guard: &Option<Guard>, list: u32, entries: &Chain) -> bool
    ensures { (first : Entry) → (others : List Entry) → entries.now ≡ first ∷ others
        → result ≡ is_guarded_loss plan.now (unwrap_or guard.now no_guard) (Cause.Post list) first }
{
    match entries.front() {
        Some(node) => is_guarded_occurrence(plan, guard, node, Occurrence::Post(list)),
        None => false,
    }
}

// Whether a post with this flow, which this holds in its queue or nothing does, may be lost for that cause.
fn may_be_lost(cause: PostCause, flow: Flow, hold: Hold) -> bool
    ensures { result ≡ may_lose cause flow hold }
{
    match cause {
        PostCause::Full => expires(hold),
        PostCause::NoMemory => flow != Flow::Full,
    }
}

impl Board {
    /// Puts the entry that a worker's post makes to the end of the list's queue. Where it is discarded at that queue's length, the post is
    /// lost; where it isn't and the full-delay mark holds the post, or the queue is full, the entry comes back and the post is still to be done.
    pub fn post(&mut self, worker: u32, node: Node) -> Result<Posted, (Node, BoardFault)>
        requires there { worker < length self.old.plan.workers }
        requires made { IsForPost self.old worker node }
        ensures ok { IfOk result (λ posted. PostIs posted self.old worker node self.new) }
        ensures err { IfErr result (λ e. PostFails e.1 self.old worker node) }
        ensures back { IfErr result (λ e. e.0 ≡ node) }
        ensures unchanged { OnErr result (self.new ≡ self.old) }
    {
        let slot = &mut self.workers[worker as usize];
        let Some((list, left)) = post_of(&self.plan, &slot.entries) else {
            return Err((node, BoardFault::NoJob));
        };
        let number = queue_of_list(&self.plan, list);
        let flow = post_flow(&self.plan, number);
        let queue = &mut self.queues[number];
        if queue.discards(node.message().class().severity) {
            let guarded = loses_guarded(&self.plan, &self.guard, list, &slot.entries);
            let Ok(()) = self.accounts.count_lost_post(guarded) else {
                return Err((node, BoardFault::TotalsFull));
            };
            advance(slot, left);
            return Ok(Posted::Discarded(node));
        }
        if holds(queue.gate(flow)) {
            return Ok(Posted::Held(node));
        }
        if !self.accounts.has_room_for_post() {
            return Err((node, BoardFault::TotalsFull));
        }
        queue.push(node);
        self.accounts.count_post();
        advance(slot, left);
        Ok(Posted::Done)
    }

    /// A worker's post is lost: the list's queue is full and its full-delay mark doesn't hold the post, or there was no memory for an entry, which
    /// is the caller's word and is taken where the queue has room too, but never where posts wait at that mark.
    pub fn post_lost(&mut self, worker: u32, cause: PostCause) -> Result<(), BoardFault>
        requires { worker < length self.old.plan.workers }
        ensures ok { OnOk result (PostLostIs cause self.old worker self.new) }
        ensures err { IfErr result (λ fault. PostLostFails fault cause self.old worker) }
        ensures unchanged { OnErr result (self.new ≡ self.old) }
    {
        let slot = &mut self.workers[worker as usize];
        let Some((list, left)) = post_of(&self.plan, &slot.entries) else {
            return Err(BoardFault::NoJob);
        };
        let number = queue_of_list(&self.plan, list);
        let flow = post_flow(&self.plan, number);
        if !may_be_lost(cause, flow, self.queues[number].gate(flow)) {
            return Err(BoardFault::NotExpired);
        }
        let guarded = loses_guarded(&self.plan, &self.guard, list, &slot.entries);
        let Ok(()) = self.accounts.count_lost_post(guarded) else {
            return Err(BoardFault::TotalsFull);
        };
        advance(slot, left);
        Ok(())
    }
}
