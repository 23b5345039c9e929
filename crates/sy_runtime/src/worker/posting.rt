//! What a worker does whose job is a post.
ghost use Rattle.std.specs.Prelude.{◌≡◌, ◌<◌, ℕ, Decides, IfOk, IfNone, IfSome, length};
ghost use Rattle.std.specs.Arc.{arc_value};
ghost use Rattle.sy_rules.specs.Whole.{queue_for};
ghost use Rattle.sy_rules.specs.declared.lists.occurrence.Occurrence.TheVariants as occurrence;
ghost use Rattle.sy_chain.specs.Entries.{Entry};
ghost use Rattle.sy_board.specs.declared.relay.answers.Posted.TheVariants as posted;
ghost use Rattle.sy_board.specs.relay.Boards.{BoardState, HasNoPost, IsForPost, PostIs};
ghost use Rattle.sy_board.specs.relay.Plans.{parameters_at};
ghost use Rattle.sy_board.specs.relay.Steps.{Job as IsJob};
ghost use Rattle.sy_runtime.specs.internal.Finding.{IsEntryOf, IsHeldAtMark, PatienceIs, PostWas, WaitsAtMark};

use crate::connection::used::keep;
use std::alloc::{AllocError, Global};
use std::sync::Arc;
use sy_board::{Board, BoardFault, Job, PostCause, Posted};
use sy_chain::Node;
use sy_rules::laws::plans_are_whole;
use sy_rules::{Plan, QueueParameters};
use sy_wire::Message;

/// What became of a worker's post.
#[derive(Clone, Copy, Debug, PartialEq, Eq)]
pub(crate) enum PostOutcome {
    // it is dealt with: there is an entry in the queue, or it was lost
    Done,
    // the full-delay mark of its queue holds it, or that queue is full
    Held,
    // there is no memory for its entry, and it isn't lost for that: posts into its queue wait
    NoMemory,
    // the board refuses it
    Refused,
}

// The entry that a post to a list makes of a message.
fn entry_of(
    alloc: Global,
    plan: &Plan,
    list: u32,
    input: u32,
    message: &Arc<Message>,
    tag: u64,
) -> Result<Node, AllocError>
    requires { list < length plan.now.lists }
    ensures { IfOk result (IsEntryOf plan.now list input (arc_value message.now) tag) }
{
    let due = plan.due(list, message);
    let Ok(message) = Arc::try_clone(message) else {
        return Err(AllocError);
    };
    match Node::new(alloc, message, list, input, due, tag) {
        Ok(node) => Ok(node),
        Err(_) => Err(AllocError),
    }
}

// The entry that a worker's post makes; none where its job is no post.
fn posted_node(alloc: Global, board: &Board, worker: u32) -> Result<Option<Node>, AllocError>
    requires { worker < length board.now.plan.workers }
    ensures some { IfOk result (λ entry. IfSome entry (λ node. IsForPost board.now worker node)) }
    ensures none { IfOk result (λ entry. IfNone entry (HasNoPost board.now worker)) }
{
    match board.job(worker) {
        Some(
            Job::Post {
                list,
                input,
                message,
                tag,
            },
        ) => {
            plans_are_whole(board.plan());
            match entry_of(alloc, board.plan(), list, input, message, tag) {
                Ok(node) => Ok(Some(node)),
                Err(AllocError) => Err(AllocError),
            }
        }
        Some(Job::Run { .. }) => Ok(None),
        None => Ok(None),
    }
}

// The post of a worker is lost, since there was no memory for its entry; but not where posts into its queue wait.
fn lose(board: &mut Board, worker: u32) -> PostOutcome
    requires { worker < length board.old.plan.workers }
    ensures { PostWas result board.old worker board.new }
{
    match board.post_lost(worker, PostCause::NoMemory) {
        Ok(()) => PostOutcome::Done,
        Err(BoardFault::NotExpired) => PostOutcome::NoMemory,
        Err(_) => PostOutcome::Refused,
    }
}

/// Does the post of a worker. Where memory for its entry was refused it is lost, or still to be done where posts into its queue wait.
pub(crate) fn post(
    alloc: Global,
    board: &mut Board,
    worker: u32,
    used: &mut Vec<Node>,
) -> PostOutcome
    requires { worker < length board.old.plan.workers }
    ensures { PostWas result board.old worker board.new }
{
    let node = match posted_node(alloc, board, worker) {
        Ok(Some(node)) => node,
        Ok(None) => return PostOutcome::Refused,
        Err(AllocError) => return lose(board, worker),
    };
    match board.post(worker, node) {
        Ok(Posted::Done) => PostOutcome::Done,
        Ok(Posted::Discarded(node)) => {
            keep(used, node);
            PostOutcome::Done
        }
        Ok(Posted::Held(node)) => {
            keep(used, node);
            PostOutcome::Held
        }
        Err((_, _)) => PostOutcome::Refused,
    }
}

// Whether the full-delay mark of a queue holds posts there, rather than that the queue is full.
fn waits_at_mark(queue: &QueueParameters) -> bool
    ensures { Decides result (WaitsAtMark queue.now) }
{
    queue.waits && queue.full_delay_mark > 0 && queue.full_delay_mark <= queue.size
}

// How long a post waits at the queue of a list, in milliseconds; none where its full-delay mark holds it.
fn timeout_of(plan: &Plan, list: u32) -> Option<u32>
    requires { list < length plan.now.lists }
    ensures { PatienceIs result (parameters_at plan.now (queue_for plan.now list)) }
{
    let queue = plan.list_queue(list).unwrap_or(0);
    match plan.queues().get(queue as usize) {
        Some(queue) => {
            if waits_at_mark(queue) {
                None
            } else {
                Some(queue.timeout_enqueue)
            }
        }
        None => Some(0),
    }
}

/// How long the post of a worker may wait where it is held, in milliseconds: `queue.timeoutEnqueue` of its queue. None where the full-delay mark
/// of that queue holds it: such a post waits as long as it takes.
pub(crate) fn patience(board: &Board, worker: u32) -> Option<u32>
    requires { worker < length board.now.plan.workers }
    ensures exact { (list : ℕ) → IsJob board.now.plan board.now.state worker (occurrence.Post list)
        → PatienceIs result (parameters_at board.now.plan (queue_for board.now.plan list)) }
    ensures held { IfNone result ((node back : Entry) → (new : BoardState) → PostIs (posted.Held back) board.now worker node new
        → IsHeldAtMark board.now worker) }
{
    match board.job(worker) {
        Some(Job::Post { list, .. }) => {
            plans_are_whole(board.plan());
            timeout_of(board.plan(), list)
        }
        Some(Job::Run { .. }) => Some(0),
        None => Some(0),
    }
}
