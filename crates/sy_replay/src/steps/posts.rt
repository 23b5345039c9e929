//! The steps of a worker's job that is a post.
ghost use Rattle.std.specs.Prelude.{◌≡◌, IfErr, IfOk, OnErr, OnOk};
ghost use Rattle.std.specs.Arc.{arc_value};
ghost use Rattle.sy_board.specs.relay.Boards.{IsForPost, is_no_memory};
ghost use Rattle.sy_replay.specs.internal.Jobs.{IsPostJob};
ghost use Rattle.sy_board.specs.relay.Steps.{Event};
ghost use Rattle.sy_replay.specs.Events.{losses_of};
ghost use Rattle.sy_replay.specs.internal.Events.{IsIllegal};
ghost use Rattle.sy_replay.specs.internal.Parts.{MakesInside};

use crate::event::{Cause, Illegal, Loss};
use crate::making::{Post, has_worker, illegal_of, post_of};
use std::alloc::{AllocError, Global};
use sy_board::{Board, PostCause, Posted};
use sy_chain::Node;
use sy_rules::laws::plans_are_whole;

// The entry that a post makes.
fn node_of(alloc: Global, board: &Board, worker: u32, post: Post) -> Result<Node, AllocError>
    requires { IsPostJob board.now worker post.list post.followed post.input (arc_value post.message) post.tag }
    ensures ok { IfOk result (λ node. IsForPost board.now worker node) }
{
    plans_are_whole(board.plan());
    let due = board.plan().due(post.list, &post.message);
    match Node::new(alloc, post.message, post.list, post.input, due, post.tag) {
        Ok(node) => Ok(node),
        Err(_) => Err(AllocError),
    }
}

// Post: an entry of the worker's job comes to the end of the list's queue. Where it is discarded, the post is a loss.
pub(crate) fn post(
    alloc: Global,
    board: &mut Board,
    losses: &mut Vec<Loss>,
    relay: u32,
    worker: u32,
) -> Result<(), Illegal>
    ensures ok { OnOk result (MakesInside relay board.old (losses_of losses.old.items) (Event.Post worker)
        board.new (losses_of losses.new.items)) }
    ensures err { IfErr result (λ why. IsIllegal why board.old (Event.Post worker)) }
    ensures unchanged { OnErr result ((board.new ≡ board.old) × (losses.new.items ≡ losses.old.items)) }
{
    if !has_worker(board, worker) {
        return Err(Illegal::NotAStep);
    }
    let post = match post_of(board, worker) {
        Ok(post) => post,
        Err(why) => return Err(why),
    };
    let (to, list, copy) = (post.list, post.followed, post.tag);
    let Ok(node) = node_of(alloc, board, worker, post) else {
        return Err(Illegal::NoMemory);
    };
    let Ok(()) = losses.reserve(1) else {
        return Err(Illegal::NoMemory);
    };
    match board.post(worker, node) {
        Ok(Posted::Done) => Ok(()),
        Ok(Posted::Discarded(_)) => {
            losses.push_reserved(Loss {
                copy,
                relay,
                list,
                cause: Cause::Post(to),
            });
            Ok(())
        }
        Ok(Posted::Held(_)) => Err(Illegal::NotAStep),
        Err((_, fault)) => Err(illegal_of(fault)),
    }
}

// Post lost: the post of the worker's job is a loss.
pub(crate) fn post_lost(
    board: &mut Board,
    losses: &mut Vec<Loss>,
    relay: u32,
    worker: u32,
    cause: PostCause,
) -> Result<(), Illegal>
    ensures ok { OnOk result (MakesInside relay board.old (losses_of losses.old.items)
        (Event.PostLost worker (is_no_memory cause)) board.new (losses_of losses.new.items)) }
    ensures err { IfErr result (λ why. IsIllegal why board.old (Event.PostLost worker (is_no_memory cause))) }
    ensures unchanged { OnErr result ((board.new ≡ board.old) × (losses.new.items ≡ losses.old.items)) }
{
    if !has_worker(board, worker) {
        return Err(Illegal::NotAStep);
    }
    let post = match post_of(board, worker) {
        Ok(post) => post,
        Err(why) => return Err(why),
    };
    let Ok(()) = losses.reserve(1) else {
        return Err(Illegal::NoMemory);
    };
    match board.post_lost(worker, cause) {
        Ok(()) => {
            losses.push_reserved(Loss {
                copy: post.tag,
                relay,
                list: post.followed,
                cause: Cause::PostLost(post.list),
            });
            Ok(())
        }
        Err(fault) => Err(illegal_of(fault)),
    }
}
