//! The state of a relay.
ghost use Rattle.std.specs.Prelude.{◌≡◌, ◌+◌, ◌*◌, ◌<◌, ◌≤◌, ◌&&◌, not, [], None, length, map, replicate, Some, IfNone, IfOk, IfSome, unwrap_or};
ghost use Rattle.std.specs.Arc.{arc_value};
ghost use Rattle.sy_marks.specs.Marks.{HoldIs, discards};
ghost use Rattle.sy_board.specs.internal.Kept.{empty_queue};
ghost use Rattle.sy_board.specs.relay.Boards.{account_of, guard_of, opened};
ghost use Rattle.sy_board.specs.relay.Cells.{IsShaped, failures_at, followed_at, waiting};
ghost use Rattle.sy_board.specs.relay.Guards.{IsWithinGuard, MayGuard};
ghost use Rattle.sy_board.specs.relay.Patience.{IsPatient};
ghost use Rattle.sy_board.specs.relay.Spares.{is_spare_occurrence};
ghost use Rattle.sy_board.specs.relay.Plans.{flow_at, marks_at, queue_of_input};
ghost use Rattle.sy_board.specs.relay.Totals.{Laws};
ghost use Rattle.sy_board.specs.relay.Totals as spec;

mod draining;
mod grabbing;
mod inputs;
mod jobs;
mod posts;
mod runs;

use super::accounts::Accounts;
use super::guard::Guard;
use super::reading::{marks_of, way_of};
use std::alloc::{AllocError, Global};
use std::marker::Model;
use std::sync::Arc;
use sy_chain::{Chain, Node};
use sy_marks::{Hold, MarkQueue};
use sy_rules::laws::plans_are_whole;
use sy_rules::{Occurrence, Plan};

/// How many messages an input can have in hand at once.
const HANDS: usize = 64;

// A worker's entries, and how often the present occurrence of the first has failed.
#[derive(Drop)]
struct Worker {
    entries: Chain,
    failures: u32,
}

/// The state of one relay: the hands of its inputs, its queues, the batches of its workers, and the totals.
///
/// Each call is one step of the relay, or changes nothing.
#[derive(Drop)]
pub struct Board {
    plan: Arc<Plan>,
    guard: Option<Guard>,
    hands: Vec<Option<Node>>,
    queues: Vec<MarkQueue>,
    workers: Vec<Worker>,
    accounts: Accounts,
}

impl Model for Board {
    ghost use Rattle.sy_board.specs.relay.Boards.{BoardState};
    ghost use Rattle.std.specs.Coded.{codes};
    ghost use Rattle.sy_rules.specs.internal.PlanCodes.{plan_code};
    ghost use Rattle.sy_board.specs.internal.Kept.{IsKept, board_inside};

    ghost Value = { BoardState };

    ghost coded = { Prim.hlevel (codes, plan_code) };

    ghost view = { board_inside };

    ghost invariant = { IsKept };
}

fn empty_hands(alloc: Global, inputs: usize) -> Result<Vec<Option<Node>>, AllocError>
    requires { inputs ≤ 64 }
    ensures { IfOk result (λ hands. hands.items ≡ replicate (64 * inputs) None) }
{
    let mut hands = Vec::with_capacity(alloc, HANDS * inputs)?;
    for _ in 0..HANDS * inputs {
        hands.push(None)?;
    }
    Ok(hands)
}

fn empty_queues(alloc: Global, plan: &Plan) -> Result<Vec<MarkQueue>, AllocError>
    ensures { IfOk result (λ queues. queues.items ≡ map empty_queue plan.now.queues) }
{
    let mut queues = Vec::with_capacity(alloc, plan.queues().len())?;
    for parameters in plan.queues() {
        queues.push(MarkQueue::new(marks_of(parameters)))?;
    }
    Ok(queues)
}

// How many entries wait in each of these queues.
fn lens_of(alloc: Global, queues: &[MarkQueue]) -> Result<Vec<usize>, AllocError>
    ensures { IfOk result (λ lens. lens.items ≡ map (λ queue. length queue.entries) queues.now) }
{
    let mut lens = Vec::with_capacity(alloc, queues.len())?;
    for queue in queues {
        lens.push(queue.len())?;
    }
    Ok(lens)
}

fn idle_workers(alloc: Global, count: usize) -> Result<Vec<Worker>, AllocError>
    ensures entries { IfOk result (λ workers. map (λ w. w.entries) workers.items ≡ replicate count []) }
    ensures failures { IfOk result (λ workers. map (λ w. w.failures) workers.items ≡ replicate count 0) }
{
    let mut workers = Vec::with_capacity(alloc, count)?;
    for _ in 0..count {
        workers.push(Worker {
            entries: Chain::new(),
            failures: 0,
        })?;
    }
    Ok(workers)
}

// Where an input's hand is.
#[inline(always)]
fn place(input: u32, hand: u32) -> usize
    ensures { result ≡ 64 * input + hand }
{
    HANDS * input as usize + hand as usize
}

// Whether an entry is discarded at the length of a queue.
#[inline(always)]
fn is_discarded(queue: &MarkQueue, node: &Node) -> bool
    ensures { result ≡ discards queue.now.marks node.now.message.class.severity (length queue.now.entries) }
{
    // mostly the mark isn't reached, and the message isn't looked at
    queue.may_lose() && queue.discards(node.message().class().severity)
}

// Whether an entry's loss is counted apart.
#[inline(always)]
fn is_guarded(plan: &Plan, guard: &Option<Guard>, node: &Node) -> bool
    ensures { result ≡ spec.is_guarded plan.now (unwrap_or guard.now spec.no_guard) node.now }
{
    match guard {
        Some(guard) => {
            guard.guards(node.input(), node.message().class())
                && !guard.is_spare_list(plan, node.list())
        }
        None => false,
    }
}

// Whether the loss of an entry's occurrence is counted apart.
fn is_guarded_occurrence(
    plan: &Plan,
    guard: &Option<Guard>,
    node: &Node,
    occurrence: Occurrence,
) -> bool
    ensures { result ≡ (not (is_spare_occurrence plan.now (unwrap_or guard.now spec.no_guard).spares occurrence)
        && spec.is_guarded plan.now (unwrap_or guard.now spec.no_guard) node.now) }
{
    match guard {
        Some(it) => !it.is_spare_occurrence(plan, occurrence) && is_guarded(plan, guard, node),
        None => false,
    }
}

impl Board {
    /// The board of a relay with this plan. It holds no message yet. With a guard the plan meets its condition, so that of the entries whose
    /// input and class the guard has nothing is ever lost but at or after spare actions; such losses would be counted apart.
    pub fn new(alloc: Global, plan: Arc<Plan>, guard: Option<Guard>) -> Result<Board, AllocError>
        requires { IfSome guard (MayGuard (arc_value plan)) }
        ensures { IfOk result (λ board. board ≡ opened (arc_value plan) guard) }
    {
        plans_are_whole(&plan);
        let hands = empty_hands(alloc, plan.inputs().len())?;
        let queues = empty_queues(alloc, &plan)?;
        let workers = idle_workers(alloc, plan.workers().len())?;
        let accounts = Accounts::new(alloc, plan.actions().len())?;
        Ok(Board {
            plan,
            guard,
            hands,
            queues,
            workers,
            accounts,
        })
    }

    /// The plan of the relay.
    pub fn plan(&self) -> &Arc<Plan>
        ensures { arc_value result.now ≡ self.now.plan }
    {
        &self.plan
    }

    /// The guard, where there is one.
    pub fn guard(&self) -> Option<&Guard>
        ensures some { IfSome result (λ guard. self.now.guard ≡ Some guard.now) }
        ensures none { IfNone result (self.now.guard ≡ None) }
    {
        self.guard.as_ref()
    }

    /// The totals. The laws of accounts hold for them and what the board holds, which has the places of its plan; and no job has failed more often
    /// than it may be tried again. Nothing guarded was lost, and the queues of the guarded pairs, where only full-delay feeders feed them, are
    /// within their full-delay marks.
    pub fn accounts(&self) -> &Accounts
        ensures value { result.now ≡ account_of self.now }
        ensures laws { Laws self.now.plan self.now.state self.now.totals }
        ensures shaped { IsShaped self.now.plan self.now.state }
        ensures patient { IsPatient self.now.plan self.now.state }
        ensures unlost { self.now.totals.guarded_lost ≡ 0 }
        ensures within { IsWithinGuard self.now.plan (guard_of self.now) self.now.state }
    {
        &self.accounts
    }

    /// How often the present occurrence of a worker has failed.
    pub fn failures(&self, worker: u32) -> u32
        requires { worker < length self.now.plan.workers }
        ensures { result ≡ failures_at self.now.state worker }
    {
        self.workers[worker as usize].failures
    }

    /// The list that a worker's first entry follows, if it has one.
    pub fn followed(&self, worker: u32) -> Option<u32>
        requires { worker < length self.now.plan.workers }
        ensures { result ≡ followed_at self.now.state worker }
    {
        let first = self.workers[worker as usize].entries.front()?;
        Some(first.list())
    }

    /// How many entries wait in each queue, in their order.
    #[tactic(auto, using(crate::proofs::relay::Lengths::lens_are))]
    pub fn queue_lens(&self, alloc: Global) -> Result<Vec<usize>, AllocError>
        ensures { IfOk result (λ lens. lens.items ≡ map length self.now.state.queues) }
    {
        lens_of(alloc, self.queues.as_slice())
    }

    /// What holds a message of an input now: first the full-delay mark, then a full queue, then the light-delay mark.
    pub fn gate(&self, input: u32) -> Hold
        requires { input < length self.now.plan.inputs }
        ensures { HoldIs result (flow_at self.now.plan input) (marks_at self.now.plan (queue_of_input self.now.plan input))
            (waiting self.now.state (queue_of_input self.now.plan input)) }
    {
        let (flow, queue) = way_of(&self.plan, input);
        self.queues[queue].gate(flow)
    }
}
