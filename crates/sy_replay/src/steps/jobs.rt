//! The steps of a worker's job that runs an action.
ghost use Rattle.std.specs.Prelude.{◌≡◌, ◌<◌, ◌++◌, ◌∷◌, [], List, Bool, true, length, map};
ghost use Rattle.std.specs.Prelude.{IsFalse, IsTrue, IfErr, IfOk, OnErr, OnOk};
ghost use Rattle.std.specs.Arc.{arc_value};
ghost use Rattle.sy_board.specs.relay.Boards.{BoardState};
ghost use Rattle.sy_board.specs.relay.Cells.{failures_at};
ghost use Rattle.sy_board.specs.relay.Plans.{retry_at};
ghost use Rattle.sy_board.specs.relay.Steps.{Event, MayTry};
ghost use Rattle.sy_site.specs.machine.States as states;
ghost use Rattle.sy_replay.specs.Events.{losses_of};
ghost use Rattle.sy_replay.specs.internal.Events.{IsIllegal};
ghost use Rattle.sy_replay.specs.internal.Jobs.{Answer, Answers, Comes, IsNoAnswer, IsRunJob};
ghost use Rattle.sy_replay.specs.internal.Parts.{Makes, items_of, part};

use crate::event::{Cause, Illegal, Loss};
use crate::making::{Run, failure_of, has_worker, illegal_of, receipt_of, run_of};
use std::collections::VecDeque;
use sy_board::{Board, Retry};
use sy_rules::laws::plans_are_whole;

// Whether a job of this action may be tried again when it fails now.
fn tries_again(board: &Board, worker: u32, action: u32) -> bool
    requires { worker < length board.now.plan.workers }
    ensures yes { IsTrue result → MayTry (retry_at board.now.plan action) (failures_at board.now.state worker) }
    ensures no { IsFalse result → MayTry (retry_at board.now.plan action) (failures_at board.now.state worker) → ⊥ }
{
    let Some(action) = board.plan().actions().get(action as usize) else {
        return true;
    };
    match action.retry {
        Some(retry) => board.failures(worker) < retry,
        None => true,
    }
}

// The device took the message of the worker's job.
fn settle(board: &mut Board, worker: u32, run: Run) -> Result<(), Illegal>
    requires there { worker < length board.old.plan.workers }
    requires job { IsRunJob board.old worker run.action run.followed (arc_value run.message) run.tag }
    ensures ok { OnOk result (Answers Answer.Done board.old worker run.action run.followed run.tag board.new) }
    ensures err { IfErr result (λ why. IsNoAnswer why Answer.Done board.old worker) }
    ensures unchanged { OnErr result (board.new ≡ board.old) }
{
    match board.settle(worker, receipt_of(run.action, run.message)) {
        Ok(()) => Ok(()),
        Err((receipt, fault)) => {
            receipt.discard();
            Err(illegal_of(fault))
        }
    }
}

// It failed, and may be tried again.
fn fail_again(board: &mut Board, worker: u32, run: Run) -> Result<(), Illegal>
    requires there { worker < length board.old.plan.workers }
    requires job { IsRunJob board.old worker run.action run.followed (arc_value run.message) run.tag }
    requires again { MayTry (retry_at board.old.plan run.action) (failures_at board.old.state worker) }
    ensures ok { OnOk result (Answers Answer.Fail board.old worker run.action run.followed run.tag board.new) }
    ensures err { IfErr result (λ why. IsNoAnswer why Answer.Fail board.old worker) }
    ensures unchanged { OnErr result (board.new ≡ board.old) }
{
    match board.failed(worker, failure_of(run.action, run.message)) {
        Ok(Retry::Again) => Ok(()),
        Ok(Retry::GaveUp) => unreachable!(),
        Err((failure, fault)) => {
            let _message = failure.into_message();
            Err(illegal_of(fault))
        }
    }
}

// It failed for the last time.
fn fail_last(board: &mut Board, worker: u32, run: Run) -> Result<(), Illegal>
    requires there { worker < length board.old.plan.workers }
    requires job { IsRunJob board.old worker run.action run.followed (arc_value run.message) run.tag }
    requires last { MayTry (retry_at board.old.plan run.action) (failures_at board.old.state worker) → ⊥ }
    ensures ok { OnOk result (Answers Answer.GiveUp board.old worker run.action run.followed run.tag board.new) }
    ensures err { IfErr result (λ why. IsNoAnswer why Answer.GiveUp board.old worker) }
    ensures unchanged { OnErr result (board.new ≡ board.old) }
{
    match board.failed(worker, failure_of(run.action, run.message)) {
        Ok(Retry::GaveUp) => Ok(()),
        Ok(Retry::Again) => unreachable!(),
        Err((failure, fault)) => {
            let _message = failure.into_message();
            Err(illegal_of(fault))
        }
    }
}

// Done, whose copy comes to the end of what the device took.
fn settle_into(
    board: &mut Board,
    tags: &mut VecDeque<u64>,
    worker: u32,
    run: Run,
) -> Result<(), Illegal>
    requires there { worker < length board.old.plan.workers }
    requires job { IsRunJob board.old worker run.action run.followed (arc_value run.message) run.tag }
    ensures ok { OnOk result (Comes Answer.Done true board.old tags.old.items worker run.action run.followed run.tag
        board.new tags.new.items) }
    ensures err { IfErr result (λ why. IsNoAnswer why Answer.Done board.old worker) }
    ensures unchanged { OnErr result ((board.new ≡ board.old) × (tags.new.items ≡ tags.old.items)) }
{
    let tag = run.tag;
    let Ok(()) = tags.reserve(1) else {
        return Err(Illegal::NoMemory);
    };
    if let Err(why) = settle(board, worker, run) {
        return Err(why);
    }
    tags.push_back_reserved(tag);
    Ok(())
}

// Fail, whose copy comes to the end of what the device took where it took it all the same.
fn fail_into(
    board: &mut Board,
    tags: &mut VecDeque<u64>,
    worker: u32,
    run: Run,
    took: bool,
) -> Result<(), Illegal>
    requires there { worker < length board.old.plan.workers }
    requires job { IsRunJob board.old worker run.action run.followed (arc_value run.message) run.tag }
    requires again { MayTry (retry_at board.old.plan run.action) (failures_at board.old.state worker) }
    ensures ok { OnOk result (Comes Answer.Fail took board.old tags.old.items worker run.action run.followed run.tag
        board.new tags.new.items) }
    ensures err { IfErr result (λ why. IsNoAnswer why Answer.Fail board.old worker) }
    ensures unchanged { OnErr result ((board.new ≡ board.old) × (tags.new.items ≡ tags.old.items)) }
{
    let tag = run.tag;
    let Ok(()) = tags.reserve(1) else {
        return Err(Illegal::NoMemory);
    };
    if let Err(why) = fail_again(board, worker, run) {
        return Err(why);
    }
    if took {
        tags.push_back_reserved(tag);
    }
    Ok(())
}

// Give up, in the same way.
fn give_up_into(
    board: &mut Board,
    tags: &mut VecDeque<u64>,
    worker: u32,
    run: Run,
    took: bool,
) -> Result<(), Illegal>
    requires there { worker < length board.old.plan.workers }
    requires job { IsRunJob board.old worker run.action run.followed (arc_value run.message) run.tag }
    requires last { MayTry (retry_at board.old.plan run.action) (failures_at board.old.state worker) → ⊥ }
    ensures ok { OnOk result (Comes Answer.GiveUp took board.old tags.old.items worker run.action run.followed run.tag
        board.new tags.new.items) }
    ensures err { IfErr result (λ why. IsNoAnswer why Answer.GiveUp board.old worker) }
    ensures unchanged { OnErr result ((board.new ≡ board.old) × (tags.new.items ≡ tags.old.items)) }
{
    let tag = run.tag;
    let Ok(()) = tags.reserve(1) else {
        return Err(Illegal::NoMemory);
    };
    if let Err(why) = fail_last(board, worker, run) {
        return Err(why);
    }
    if took {
        tags.push_back_reserved(tag);
    }
    Ok(())
}

// Done: the device took the message of the worker's job.
pub(crate) fn done(
    board: &mut Board,
    passed: &mut Vec<VecDeque<u64>>,
    relay: u32,
    worker: u32,
) -> Result<(), Illegal>
    requires { length passed.old.items ≡ length board.old.plan.actions }
    ensures ok { OnOk result ((losses : List states.Loss)
        → Makes relay (part board.old (items_of passed.old.items)) losses (Event.Done worker)
        (part board.new (items_of passed.new.items)) losses) }
    ensures err { IfErr result (λ why. IsIllegal why board.old (Event.Done worker)) }
    ensures unchanged { OnErr result ((board.new ≡ board.old)
        × (items_of passed.new.items ≡ items_of passed.old.items)) }
{
    if !has_worker(board, worker) {
        return Err(Illegal::NotAStep);
    }
    let run = match run_of(board, worker) {
        Ok(run) => run,
        Err(why) => return Err(why),
    };
    plans_are_whole(board.plan());
    settle_into(board, &mut passed[run.action as usize], worker, run)
}

// Fail: the device answered with a fault, and the job may be tried again.
pub(crate) fn fail(
    board: &mut Board,
    passed: &mut Vec<VecDeque<u64>>,
    relay: u32,
    worker: u32,
    took: bool,
) -> Result<(), Illegal>
    requires { length passed.old.items ≡ length board.old.plan.actions }
    ensures ok { OnOk result ((losses : List states.Loss)
        → Makes relay (part board.old (items_of passed.old.items)) losses (Event.Fail worker took)
        (part board.new (items_of passed.new.items)) losses) }
    ensures err { IfErr result (λ why. IsIllegal why board.old (Event.Fail worker took)) }
    ensures unchanged { OnErr result ((board.new ≡ board.old)
        × (items_of passed.new.items ≡ items_of passed.old.items)) }
{
    if !has_worker(board, worker) {
        return Err(Illegal::NotAStep);
    }
    let run = match run_of(board, worker) {
        Ok(run) => run,
        Err(why) => return Err(why),
    };
    if !tries_again(board, worker, run.action) {
        return Err(Illegal::NotAStep);
    }
    plans_are_whole(board.plan());
    fail_into(board, &mut passed[run.action as usize], worker, run, took)
}

// Give up: it failed once more than it may be tried again.
pub(crate) fn give_up(
    board: &mut Board,
    passed: &mut Vec<VecDeque<u64>>,
    losses: &mut Vec<Loss>,
    relay: u32,
    worker: u32,
    took: bool,
) -> Result<(), Illegal>
    requires { length passed.old.items ≡ length board.old.plan.actions }
    ensures ok { OnOk result (Makes relay (part board.old (items_of passed.old.items)) (losses_of losses.old.items)
        (Event.GiveUp worker took)
        (part board.new (items_of passed.new.items)) (losses_of losses.new.items)) }
    ensures err { IfErr result (λ why. IsIllegal why board.old (Event.GiveUp worker took)) }
    ensures unchanged { OnErr result ((board.new ≡ board.old) × (items_of passed.new.items ≡ items_of passed.old.items)
        × (losses.new.items ≡ losses.old.items)) }
{
    if !has_worker(board, worker) {
        return Err(Illegal::NotAStep);
    }
    let run = match run_of(board, worker) {
        Ok(run) => run,
        Err(why) => return Err(why),
    };
    if tries_again(board, worker, run.action) {
        return Err(Illegal::NotAStep);
    }
    let Ok(()) = losses.reserve(1) else {
        return Err(Illegal::NoMemory);
    };
    plans_are_whole(board.plan());
    let (action, list, copy) = (run.action, run.followed, run.tag);
    let tags = &mut passed[action as usize];
    if let Err(why) = give_up_into(board, tags, worker, run, took) {
        return Err(why);
    }
    losses.push_reserved(Loss {
        copy,
        relay,
        list,
        cause: Cause::GiveUp(action),
    });
    Ok(())
}
