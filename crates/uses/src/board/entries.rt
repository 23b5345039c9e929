//! Entries for a board's calls, made as the calls want them.
ghost use Rattle.std.specs.Prelude.{◌≡◌, ◌<◌, IfSome, length};
ghost use Rattle.std.specs.Arc.{arc_value};
ghost use Rattle.sy_board.specs.relay.Boards.{IsForPost};
ghost use Rattle.sy_board.specs.relay.Plans.{IsDue, input_at};
ghost use Rattle.sy_board.specs.relay.Steps.{IsOfInput};

use crate::values::{entry, message};
use std::alloc::Global;
use std::sync::Arc;
use sy_board::{Board, Job};
use sy_chain::Node;
use sy_rules::Plan;
use sy_wire::Message;

// The list that an input's messages follow.
fn list_of(plan: &Plan, input: u32) -> Option<u32>
    ensures { IfSome result (λ list. list ≡ (input_at plan.now input).list) }
{
    if input as usize >= plan.inputs().len() {
        return None;
    }
    Some(plan.inputs()[input as usize].list)
}

// An entry with these fields.
fn entry_with(
    alloc: Global,
    message: Arc<Message>,
    list: u32,
    input: u32,
    due: u64,
    tag: u64,
) -> Option<Node>
    ensures { IfSome result (λ node. (node.message ≡ arc_value message) × (node.list ≡ list) × (node.input ≡ input) × (node.tag ≡ tag)
        × (node.due ≡ due)) }
{
    Node::new(alloc, message, list, input, due, tag).ok()
}

// The entry of a message that follows this list, with all due that it executes there.
fn entry_at(
    alloc: Global,
    plan: &Plan,
    list: u32,
    input: u32,
    message: Arc<Message>,
    tag: u64,
) -> Option<Node>
    ensures { IfSome result (λ node. (node.message ≡ arc_value message) × (node.list ≡ list) × (node.input ≡ input) × (node.tag ≡ tag)
        × IsDue plan.now list (arc_value message) node.due) }
{
    if list as usize >= plan.list_names().len() {
        return None;
    }
    let due = plan.due(list, &message);
    entry_with(alloc, message, list, input, due, tag)
}

/// The entry that an input makes of a message.
pub(crate) fn arrived(alloc: Global, plan: &Plan, input: u32, tag: u64) -> Option<Node>
    ensures { IfSome result (λ node. IsOfInput plan.now input node) }
{
    let list = list_of(plan, input)?;
    entry_at(alloc, plan, list, input, message(alloc)?, tag)
}

// The same message.
fn again(message: &Arc<Message>) -> Option<Arc<Message>>
    ensures { IfSome result (λ copy. arc_value copy ≡ arc_value message.now) }
{
    Arc::try_clone(message).ok()
}

/// The entry that a worker's post makes, or any other where its job is none.
pub(crate) fn posted(alloc: Global, board: &Board, worker: u32) -> Option<Node>
    ensures { IfSome result (λ node. IsForPost board.now worker node) }
{
    if worker as usize >= board.plan().workers().len() {
        return None;
    }
    match Board::job(board, worker) {
        Some(
            Job::Post {
                list,
                input,
                message,
                tag,
            },
        ) => {
            let Some(message) = again(message) else {
                return None;
            };
            entry_at(alloc, board.plan(), list, input, message, tag)
        }
        Some(Job::Run { .. }) => entry(alloc),
        None => entry(alloc),
    }
}
