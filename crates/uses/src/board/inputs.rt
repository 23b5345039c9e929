//! What comes to an input.
ghost use Rattle.std.specs.Prelude.{◌↔◌, IsTrue};
ghost use Rattle.sy_board.specs.relay.Steps.{IsHand};

use super::board_without_guard;
use super::entries::arrived;
use std::alloc::Global;
use sy_board::{Board, Entry, Taken};
use sy_marks::Hold;

fn is_hand(board: &Board, hand: u32) -> bool
    ensures { IsTrue result ↔ IsHand board.now.plan 0 hand }
{
    board.plan().inputs().len() > 0 && hand < 64
}

// What holds its messages.
fn hold(board: &Board) -> Option<Hold> {
    if board.plan().inputs().len() == 0 {
        return None;
    }
    Some(Board::gate(board, 0))
}

// A message comes to a hand.
fn take(alloc: Global, board: &mut Board, hand: u32) -> Option<()> {
    if !is_hand(board, hand) {
        return None;
    }
    let node = arrived(alloc, board.plan(), 0, 0)?;
    match Board::take(board, 0, hand, node) {
        Ok(Taken::InHand) => Some(()),
        _ => None,
    }
}

// It enters the queue, or is held.
fn enter(board: &mut Board, hand: u32) -> Option<Entry> {
    if !is_hand(board, hand) {
        return None;
    }
    Board::enter(board, 0, hand).ok()
}

// It is lost, since the queue is full.
fn expire(board: &mut Board, hand: u32) -> Option<()> {
    if !is_hand(board, hand) {
        return None;
    }
    match Board::expire(board, 0, hand) {
        Ok(_) => Some(()),
        Err(_) => None,
    }
}

/// A message comes, and enters the queue, which has room.
pub(crate) fn come(alloc: Global, board: &mut Board) -> Option<()> {
    if hold(board)? != Hold::Clear {
        return None;
    }
    take(alloc, board, 0)?;
    match enter(board, 0)? {
        Entry::Entered => Some(()),
        Entry::Held(_) => None,
    }
}

/// A board to which two messages came: one waits in the main queue, which is full by it, and the other is lost.
pub fn board_with_a_message(alloc: Global) -> Option<Board> {
    let mut board = board_without_guard(alloc)?;
    come(alloc, &mut board)?;
    take(alloc, &mut board, 1)?;
    match enter(&mut board, 1)? {
        Entry::Entered => return None,
        Entry::Held(_) => expire(&mut board, 1)?,
    }
    Some(board)
}
