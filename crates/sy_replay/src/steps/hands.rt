//! The steps of messages on their way to a worker.
ghost use Rattle.std.specs.Prelude.{◌≡◌, ◌+◌, ◌<◌, ◌≤◌, ◌++◌, List, IfErr, IfOk, OnErr, OnOk, length, map};
ghost use Rattle.std.specs.Arc.{arc_value};
ghost use Rattle.std.specs.Vec.{vec_capacity, vec_len};
ghost use Rattle.sy_board.specs.relay.Plans.{input_at};
ghost use Rattle.sy_board.specs.relay.Steps.{Event, IsHand, IsOfInput};
ghost use Rattle.sy_board.specs.relay.Steps as steps;
ghost use Rattle.sy_site.specs.machine.States as states;
ghost use Rattle.sy_replay.specs.Events.{losses_of};
ghost use Rattle.sy_replay.specs.internal.Events.{IsIllegal};
ghost use Rattle.sy_replay.specs.internal.Parts.{IsNoTake, MakesInside, TakesMessage, lost_by};

use crate::event::{Cause, Illegal, Loss};
use crate::making::{batch_of, has_hand, has_worker, illegal_of};
use std::alloc::{AllocError, Global};
use std::sync::Arc;
use sy_board::{Board, Entry, Taken};
use sy_chain::{Chain, Node};
use sy_rules::Plan;
use sy_rules::laws::plans_are_whole;
use sy_site::SiteInput;
use sy_wire::Message;

// Take: a message comes to a hand. Where it is discarded, it is a loss.
pub(crate) fn take(
    board: &mut Board,
    losses: &mut Vec<Loss>,
    relay: u32,
    input: u32,
    hand: u32,
    node: Node,
) -> Result<(), Illegal>
    requires there { IsHand board.old.plan input hand }
    requires made { IsOfInput board.old.plan input node }
    ensures ok { OnOk result (MakesInside relay board.old (losses_of losses.old.items) (Event.Take input hand node)
        board.new (losses_of losses.new.items)) }
    ensures err { IfErr result (λ why. IsIllegal why board.old (Event.Take input hand node)) }
    ensures unchanged { OnErr result ((board.new ≡ board.old) × (losses.new.items ≡ losses.old.items)) }
{
    let (copy, list) = (node.tag(), node.list());
    let Ok(()) = losses.reserve(1) else {
        return Err(Illegal::NoMemory);
    };
    match board.take(input, hand, node) {
        Ok(Taken::InHand) => Ok(()),
        Ok(Taken::Discarded(_)) => {
            losses.push_reserved(Loss {
                copy,
                relay,
                list,
                cause: Cause::Take,
            });
            Ok(())
        }
        Err((_, fault)) => Err(illegal_of(fault)),
    }
}

// The list of an input.
fn list_of(plan: &Plan, input: u32) -> u32
    requires { input < length plan.now.inputs }
    ensures { result ≡ (input_at plan.now input).list }
{
    plan.inputs()[input as usize].list
}

// The entry that an input makes of a message.
fn entry_of(
    alloc: Global,
    plan: &Plan,
    input: u32,
    message: Arc<Message>,
    tag: u64,
) -> Result<Node, AllocError>
    requires { input < length plan.now.inputs }
    ensures made { IfOk result (λ node. IsOfInput plan.now input node) }
    ensures message { IfOk result (λ node. node.message ≡ arc_value message) }
    ensures tag { IfOk result (λ node. node.tag ≡ tag) }
{
    plans_are_whole(plan);
    let list = list_of(plan, input);
    let due = plan.due(list, &message);
    match Node::new(alloc, message, list, input, due, tag) {
        Ok(node) => Ok(node),
        Err(_) => Err(AllocError),
    }
}

// Take, of a message: its entry comes to a hand, or is lost there.
pub(crate) fn take_message(
    alloc: Global,
    board: &mut Board,
    losses: &mut Vec<Loss>,
    to: SiteInput,
    hand: u32,
    message: Arc<Message>,
    tag: u64,
) -> Result<(), Illegal>
    ensures ok { OnOk result (TakesMessage to.relay board.old (losses_of losses.old.items) to.input hand (arc_value message)
        tag board.new (losses_of losses.new.items)) }
    ensures err { IfErr result (λ why. IsNoTake why board.old to.input hand (arc_value message) tag) }
    ensures unchanged { OnErr result ((board.new ≡ board.old) × (losses.new.items ≡ losses.old.items)) }
{
    if !has_hand(board, to.input, hand) {
        return Err(Illegal::NotAStep);
    }
    let Ok(node) = entry_of(alloc, board.plan(), to.input, message, tag) else {
        return Err(Illegal::NoMemory);
    };
    take(board, losses, to.relay, to.input, hand, node)
}

// Enter: a hand's message goes to the end of its input's queue.
pub(crate) fn enter(board: &mut Board, relay: u32, input: u32, hand: u32) -> Result<(), Illegal>
    ensures ok { OnOk result ((losses : List states.Loss)
        → MakesInside relay board.old losses (Event.Enter input hand) board.new losses) }
    ensures err { IfErr result (λ why. IsIllegal why board.old (Event.Enter input hand)) }
    ensures unchanged { OnErr result (board.new ≡ board.old) }
{
    if !has_hand(board, input, hand) {
        return Err(Illegal::NotAStep);
    }
    match board.enter(input, hand) {
        Ok(Entry::Entered) => Ok(()),
        Ok(Entry::Held(_)) => Err(Illegal::NotAStep),
        Err(fault) => Err(illegal_of(fault)),
    }
}

// Expire: a hand's message is lost.
pub(crate) fn expire(
    board: &mut Board,
    losses: &mut Vec<Loss>,
    relay: u32,
    input: u32,
    hand: u32,
) -> Result<(), Illegal>
    ensures ok { OnOk result (MakesInside relay board.old (losses_of losses.old.items) (Event.Expire input hand)
        board.new (losses_of losses.new.items)) }
    ensures err { IfErr result (λ why. IsIllegal why board.old (Event.Expire input hand)) }
    ensures unchanged { OnErr result ((board.new ≡ board.old) × (losses.new.items ≡ losses.old.items)) }
{
    if !has_hand(board, input, hand) {
        return Err(Illegal::NotAStep);
    }
    let Ok(()) = losses.reserve(1) else {
        return Err(Illegal::NoMemory);
    };
    match board.expire(input, hand) {
        Ok(node) => {
            losses.push_reserved(Loss {
                copy: node.tag(),
                relay,
                list: node.list(),
                cause: Cause::Expire,
            });
            Ok(())
        }
        Err(fault) => Err(illegal_of(fault)),
    }
}

// Puts the entries that a grab lost behind the other losses.
fn note_grabbed(losses: &mut Vec<Loss>, relay: u32, lost: Chain)
    requires { vec_len losses.old + length lost ≤ vec_capacity losses.old }
    ensures { losses_of losses.new.items
        ≡ losses_of losses.old.items ++ lost_by relay (map (steps.Out.Lost steps.Cause.Grab) lost) }
{
    let mut lost = lost;
    while let Some(node) = lost.pop_front() {
        losses.push_reserved(Loss {
            copy: node.tag(),
            relay,
            list: node.list(),
            cause: Cause::Grab,
        });
    }
}

// Grab: a worker without entries takes a batch from its queue.
pub(crate) fn grab(
    board: &mut Board,
    losses: &mut Vec<Loss>,
    relay: u32,
    worker: u32,
) -> Result<(), Illegal>
    ensures ok { OnOk result (MakesInside relay board.old (losses_of losses.old.items) (Event.Grab worker)
        board.new (losses_of losses.new.items)) }
    ensures err { IfErr result (λ why. IsIllegal why board.old (Event.Grab worker)) }
    ensures unchanged { OnErr result ((board.new ≡ board.old) × (losses.new.items ≡ losses.old.items)) }
{
    if !has_worker(board, worker) {
        return Err(Illegal::NotAStep);
    }
    plans_are_whole(board.plan());
    let Ok(()) = losses.reserve(batch_of(board, worker)) else {
        return Err(Illegal::NoMemory);
    };
    match board.grab(worker) {
        Ok((count, lost)) => {
            if count == 0 {
                return Err(Illegal::NotAStep);
            }
            note_grabbed(losses, relay, lost);
            Ok(())
        }
        Err(fault) => Err(illegal_of(fault)),
    }
}
