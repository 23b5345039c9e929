//! What a worker takes from its queue, and posts to another.
ghost use Rattle.std.specs.Prelude.{◌<◌, ◌↔◌, IsTrue, length};

use super::entries::posted;
use super::inputs::{board_with_a_message, come};
use super::runs::settle;
use std::alloc::Global;
use sy_board::{Board, PostCause, Posted};

/// Whether there is a worker of this number.
pub(crate) fn is_worker(board: &Board, worker: u32) -> bool
    ensures { IsTrue result ↔ (worker < length board.now.plan.workers) }
{
    (worker as usize) < board.plan().workers().len()
}

/// A worker takes a batch, which is one entry.
pub(crate) fn grab(board: &mut Board, worker: u32) -> Option<()> {
    if !is_worker(board, worker) {
        return None;
    }
    match Board::grab(board, worker) {
        Ok((1, _)) => Some(()),
        _ => None,
    }
}

// The list that its first entry follows, and how often its job has failed.
fn at_work(board: &Board, worker: u32) -> Option<(u32, u32)> {
    if !is_worker(board, worker) {
        return None;
    }
    let list = Board::followed(board, worker)?;
    Some((list, Board::failures(board, worker)))
}

// Its post is done, where the list's queue has room.
fn post(alloc: Global, board: &mut Board, worker: u32) -> Option<Posted> {
    if !is_worker(board, worker) {
        return None;
    }
    let node = posted(alloc, board, worker)?;
    match Board::post(board, worker, node) {
        Ok(posted) => Some(posted),
        Err(_) => None,
    }
}

// It is lost, since that queue is full.
fn lose(board: &mut Board, worker: u32) -> Option<()> {
    if !is_worker(board, worker) {
        return None;
    }
    Board::post_lost(board, worker, PostCause::Full).ok()
}

/// A board whose first worker has posted its message to the queue of the first action, and has the other action to run.
pub fn board_with_a_post(alloc: Global) -> Option<Board> {
    let mut board = board_with_a_message(alloc)?;
    grab(&mut board, 0)?;
    if at_work(&board, 0)? != (0, 0) {
        return None;
    }
    match post(alloc, &mut board, 0)? {
        Posted::Done => Some(board),
        _ => None,
    }
}

/// A board whose first worker had another message to post to that queue, which was full.
pub fn board_with_a_lost_post(alloc: Global) -> Option<Board> {
    let mut board = board_with_a_post(alloc)?;
    settle(&mut board, 0, 1)?;
    come(alloc, &mut board)?;
    grab(&mut board, 0)?;
    match post(alloc, &mut board, 0)? {
        Posted::Held(_) => lose(&mut board, 0)?,
        _ => return None,
    }
    Some(board)
}
