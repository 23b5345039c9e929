//! What devices answer about a worker's job, which is to run an action.

use super::posts::{board_with_a_lost_post, board_with_a_post, grab, is_worker};
use std::alloc::Global;
use std::sync::Arc;
use sy_actions::{Failure, Hatch, MemoryDevice, Receipt, Receipts};
use sy_board::{Board, Job, Retry};
use sy_chain::Node;
use sy_wire::Message;

// The message of a worker's job.
fn message_of(board: &Board, worker: u32) -> Option<Arc<Message>> {
    if !is_worker(board, worker) {
        return None;
    }
    match Board::job(board, worker) {
        Some(Job::Run { message, .. }) => Arc::try_clone(message).ok(),
        _ => None,
    }
}

// What is made of a message that a device takes.
fn receipt(device: u32, message: Arc<Message>) -> Option<Receipt> {
    match Hatch::new(device, MemoryDevice::new(0, 0)).deliver(message) {
        Ok(receipt) => Some(receipt),
        Err(failure) => {
            let _message = failure.into_message();
            None
        }
    }
}

// And of one that it refuses.
fn failure(device: u32, message: Arc<Message>) -> Option<Failure> {
    match Hatch::new(device, MemoryDevice::new(0, 1)).deliver(message) {
        Ok(receipt) => {
            receipt.discard();
            None
        }
        Err(failure) => Some(failure),
    }
}

/// The device of a worker's job takes the message.
pub(crate) fn settle(board: &mut Board, worker: u32, device: u32) -> Option<()> {
    let message = message_of(board, worker)?;
    if !is_worker(board, worker) {
        return None;
    }
    match Board::settle(board, worker, receipt(device, message)?) {
        Ok(()) => Some(()),
        Err((receipt, _)) => {
            receipt.discard();
            None
        }
    }
}

// And the entry leaves the worker.
fn settle_out(board: &mut Board, worker: u32, device: u32) -> Option<Node> {
    let message = message_of(board, worker)?;
    if !is_worker(board, worker) {
        return None;
    }
    match Board::settle_out(board, worker, receipt(device, message)?) {
        Ok(left) => left,
        Err((receipt, _)) => {
            receipt.discard();
            None
        }
    }
}

// It refuses the message.
fn fail(board: &mut Board, worker: u32, device: u32) -> Option<Retry> {
    let message = message_of(board, worker)?;
    if !is_worker(board, worker) {
        return None;
    }
    match Board::failed(board, worker, failure(device, message)?) {
        Ok(retry) => Some(retry),
        Err((failure, _)) => {
            let _message = failure.into_message();
            None
        }
    }
}

// The messages of the jobs that stand next, which is one.
fn next_runs(alloc: Global, board: &mut Board, worker: u32) -> Option<Vec<Arc<Message>>> {
    if !is_worker(board, worker) {
        return None;
    }
    let mut messages = Vec::with_capacity(alloc, 1).ok()?;
    let _action = Board::runs(board, worker, 1, &mut messages).ok()??;
    Some(messages)
}

// The next of some receipts is spent.
fn settle_next(board: &mut Board, worker: u32, receipts: &mut Receipts) -> Option<()> {
    if !is_worker(board, worker) || receipts.is_empty() {
        return None;
    }
    match Board::settle_next(board, worker, receipts) {
        Ok(_) => Some(()),
        Err(_) => None,
    }
}

// The device takes all these messages.
fn settle_each(
    board: &mut Board,
    worker: u32,
    device: u32,
    messages: Vec<Arc<Message>>,
) -> Option<()> {
    let mut hatch = Hatch::new(device, MemoryDevice::new(0, 0));
    let (mut receipts, failure) = hatch.deliver_all(messages);
    if let Some(failure) = failure {
        let _message = failure.into_message();
    }
    let is_settled = settle_next(board, worker, &mut receipts);
    receipts.discard();
    is_settled
}

/// A board whose first worker has run its action, the second time that it tried.
pub fn board_with_a_run(alloc: Global) -> Option<Board> {
    let mut board = board_with_a_post(alloc)?;
    match fail(&mut board, 0, 1)? {
        Retry::Again => settle(&mut board, 0, 1)?,
        Retry::GaveUp => return None,
    }
    Some(board)
}

/// A board whose first worker has run its action on many messages at once.
pub fn board_with_many_runs(alloc: Global) -> Option<Board> {
    let mut board = board_with_a_lost_post(alloc)?;
    let messages = next_runs(alloc, &mut board, 0)?;
    settle_each(&mut board, 0, 1, messages)?;
    Some(board)
}

/// What leaves the board once the second worker has run the other action too.
pub fn entry_that_leaves(alloc: Global) -> Option<Node> {
    let mut board = board_with_a_run(alloc)?;
    grab(&mut board, 1)?;
    settle_out(&mut board, 1, 0)
}
