//! What the steps of a relay need of its board, and make for it.
ghost use Rattle.std.specs.Prelude.{◌≡◌, ◌≢◌, ◌<◌, ◌≤◌, ◌↔◌, IfErr, IfOk, IsTrue, length};
ghost use Rattle.std.specs.Arc.{arc_value};
ghost use Rattle.sy_actions.specs.declared.device.DeviceFault.TheVariants.{CountFull};
ghost use Rattle.sy_board.specs.relay.Plans.{parameters_at, queue_of_worker};
ghost use Rattle.sy_board.specs.relay.Steps.{IsHand};
ghost use Rattle.sy_replay.specs.internal.Events as spec;
ghost use Rattle.sy_replay.specs.internal.Jobs.{IsPostJob, IsRunJob, NoPostJob, NoRunJob};

use crate::event::Illegal;
use std::sync::Arc;
use sy_actions::{Failure, Hatch, MemoryDevice, Receipt};
use sy_board::{Board, BoardFault, Job};
use sy_wire::Message;

// A worker's job that runs an action, of an entry that follows a list.
#[derive(Drop)]
pub(crate) struct Run {
    pub(crate) action: u32,
    pub(crate) followed: u32,
    pub(crate) message: Arc<Message>,
    pub(crate) tag: u64,
}

// A worker's job that posts to a list, of an entry that follows another one.
#[derive(Drop)]
pub(crate) struct Post {
    pub(crate) list: u32,
    pub(crate) followed: u32,
    pub(crate) input: u32,
    pub(crate) message: Arc<Message>,
    pub(crate) tag: u64,
}

// Whether this input of the relay has this hand.
pub(crate) fn has_hand(board: &Board, input: u32, hand: u32) -> bool
    ensures { IsTrue result ↔ IsHand board.now.plan input hand }
{
    (input as usize) < board.plan().inputs().len() && hand < 64
}

// Whether the relay has this worker.
pub(crate) fn has_worker(board: &Board, worker: u32) -> bool
    ensures { IsTrue result ↔ worker < length board.now.plan.workers }
{
    (worker as usize) < board.plan().workers().len()
}

// How many entries the worker takes at once, at most.
pub(crate) fn batch_of(board: &Board, worker: u32) -> usize
    requires { worker < length board.now.plan.workers }
    ensures { (parameters_at board.now.plan (queue_of_worker board.now.plan worker)).batch ≤ result }
{
    let plan = board.plan();
    let queue = plan.workers()[worker as usize] as usize;
    match plan.queues().get(queue) {
        Some(parameters) => parameters.batch as usize,
        None => 0,
    }
}

// What a board's refusal means.
pub(crate) fn illegal_of(fault: BoardFault) -> Illegal
    ensures { result ≡ spec.illegal_of fault }
{
    match fault {
        BoardFault::TotalsFull => Illegal::TotalsFull,
        BoardFault::HandTaken
        | BoardFault::HandEmpty
        | BoardFault::SlotBusy
        | BoardFault::NoJob
        | BoardFault::WrongReceipt
        | BoardFault::NotExpired => Illegal::NotAStep,
    }
}

// A worker's job, where it runs an action.
pub(crate) fn run_of(board: &Board, worker: u32) -> Result<Run, Illegal>
    requires { worker < length board.now.plan.workers }
    ensures ok { IfOk result (λ run. IsRunJob board.now worker run.action run.followed
        (arc_value run.message) run.tag) }
    ensures err { IfErr result (λ why. NoRunJob why board.now worker) }
{
    let Some(followed) = board.followed(worker) else {
        return Err(Illegal::NotAStep);
    };
    match board.job(worker) {
        Some(
            Job::Run {
                action,
                message,
                tag,
            },
        ) => match Arc::try_clone(message) {
            Ok(message) => Ok(Run {
                action,
                followed,
                message,
                tag,
            }),
            Err(_) => Err(Illegal::NoMemory),
        },
        Some(Job::Post { .. }) => Err(Illegal::NotAStep),
        None => Err(Illegal::NotAStep),
    }
}

// A worker's job, where it is a post.
pub(crate) fn post_of(board: &Board, worker: u32) -> Result<Post, Illegal>
    requires { worker < length board.now.plan.workers }
    ensures ok { IfOk result (λ post. IsPostJob board.now worker post.list post.followed post.input
        (arc_value post.message) post.tag) }
    ensures err { IfErr result (λ why. NoPostJob why board.now worker) }
{
    let Some(followed) = board.followed(worker) else {
        return Err(Illegal::NotAStep);
    };
    match board.job(worker) {
        Some(
            Job::Post {
                list,
                input,
                message,
                tag,
            },
        ) => match Arc::try_clone(message) {
            Ok(message) => Ok(Post {
                list,
                followed,
                input,
                message,
                tag,
            }),
            Err(_) => Err(Illegal::NoMemory),
        },
        Some(Job::Run { .. }) => Err(Illegal::NotAStep),
        None => Err(Illegal::NotAStep),
    }
}

// The receipt of a device in memory, which takes each message.
pub(crate) fn receipt_of(action: u32, message: Arc<Message>) -> Receipt
    ensures { result ≡ record { device = action; message = arc_value message } }
{
    let mut hatch = Hatch::new(action, MemoryDevice::new(0, 0));
    match hatch.deliver(message) {
        Ok(receipt) => receipt,
        Err(failure) => {
            let _message = failure.into_message();
            unreachable!()
        }
    }
}

// The failure of a device in memory, which takes no message.
pub(crate) fn failure_of(action: u32, message: Arc<Message>) -> Failure
    ensures device { result.device ≡ action }
    ensures message { result.message ≡ arc_value message }
    ensures offered { result.fault ≢ CountFull }
{
    let mut hatch = Hatch::new(action, MemoryDevice::new(0, 1));
    match hatch.deliver(message) {
        Err(failure) => failure,
        Ok(receipt) => {
            receipt.discard();
            unreachable!()
        }
    }
}
