//! What a worker records of an offer.
ghost use Rattle.std.specs.Prelude.{◌≡◌, ◌<◌, IfErr, OnOk, Some, length};
ghost use Rattle.sy_runtime.specs.internal.Recording.{AllSettled, FailureIs, RecordIs, SomeSettled, pause_at};

use crate::connection::used::keep;
use crate::worker::finding::has_worker;
use sy_actions::{Failure, Receipts};
use sy_board::{Board, BoardFault, Retry};
use sy_chain::Node;
use sy_rules::Plan;

/// How long a worker waits between two tries, at least, in milliseconds.
const LEAST_PAUSE: u64 = 10;

/// What a worker does after an offer was recorded.
#[derive(Clone, Copy, Debug, PartialEq, Eq)]
pub(crate) enum After {
    GoesOn,
    // it waits so many milliseconds before the next try
    Pauses(u64),
    // the board refuses what it would record
    Ends,
}

// Settles a worker's jobs by receipts, in their order, up to the first that is refused; entries that leave are kept.
fn settle_all(
    board: &mut Board,
    worker: u32,
    receipts: &mut Receipts,
    used: &mut Vec<Node>,
) -> Result<(), BoardFault>
    requires { worker < length board.old.plan.workers }
    ensures ok { OnOk result (AllSettled worker board.old receipts.old board.new) }
    ensures err { IfErr result (λ fault. SomeSettled fault worker board.old receipts.old board.new) }
    ensures plan { board.new.plan ≡ board.old.plan }
{
    while !receipts.is_empty() {
        match board.settle_next(worker, receipts) {
            Ok(Some(node)) => keep(used, node),
            Ok(None) => {}
            Err(fault) => return Err(fault),
        }
    }
    Ok(())
}

// How long to wait after a failure of an action (`action.resumeInterval`), in milliseconds.
fn pause_of(plan: &Plan, action: u32) -> u64
    ensures { result ≡ pause_at plan.now action }
{
    match plan.actions().get(action as usize) {
        Some(action) => {
            if action.resume_interval == 0 {
                LEAST_PAUSE
            } else {
                1000 * u64::from(action.resume_interval)
            }
        }
        None => LEAST_PAUSE,
    }
}

// Records that the action of a worker's job failed.
fn record_failure(board: &mut Board, worker: u32, failure: Failure) -> After
    requires { worker < length board.old.plan.workers }
    ensures { FailureIs result board.old worker (Some failure) board.new }
{
    let pause = pause_of(board.plan(), failure.device());
    match board.failed(worker, failure) {
        Ok(Retry::Again) => After::Pauses(pause),
        Ok(Retry::GaveUp) => After::GoesOn,
        Err((failure, _)) => {
            let _ = failure.into_message();
            After::Ends
        }
    }
}

/// Spends what can't be recorded.
pub(crate) fn discard(receipts: Receipts, failure: Option<Failure>) -> After
    ensures { result ≡ After.Ends }
{
    receipts.discard();
    if let Some(failure) = failure {
        let _ = failure.into_message();
    }
    After::Ends
}

/// Records what came of an offer: what the device took, in order, and then how it failed, where it did.
pub(crate) fn record(
    board: &mut Board,
    worker: u32,
    mut receipts: Receipts,
    failure: Option<Failure>,
    used: &mut Vec<Node>,
) -> After
    ensures { RecordIs result board.old worker receipts failure board.new }
{
    if !has_worker(board, worker) {
        return discard(receipts, failure);
    }
    let Ok(()) = settle_all(board, worker, &mut receipts, used) else {
        return discard(receipts, failure);
    };
    receipts.discard();
    match failure {
        Some(failure) => record_failure(board, worker, failure),
        None => After::GoesOn,
    }
}
