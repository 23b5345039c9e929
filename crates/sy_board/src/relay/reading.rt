//! What a board asks of its plan.
ghost use Rattle.std.specs.Prelude.{◌≡◌, ◌<◌, length, slice_get};
ghost use Rattle.sy_rules.specs.Whole.{queue_for};
ghost use Rattle.sy_board.specs.relay.Plans as spec;

use sy_marks::{Flow, Marks};
use sy_rules::{FlowControl, Occurrence, Plan, QueueParameters};

fn flow_of(flow: FlowControl) -> Flow
    ensures { result ≡ spec.flow_of flow }
{
    match flow {
        FlowControl::Full => Flow::Full,
        FlowControl::On => Flow::Light,
        FlowControl::Off => Flow::NoWait,
    }
}

/// How an input's messages wait, and the queue that they are put into.
pub(crate) fn way_of(plan: &Plan, input: u32) -> (Flow, usize)
    requires { input < length plan.now.inputs }
    ensures flow { result.0 ≡ spec.flow_at plan.now input }
    ensures queue { result.1 ≡ spec.queue_of_input plan.now input }
{
    let input = &plan.inputs()[input as usize];
    (flow_of(input.flow), input.queue as usize)
}

/// The size and the marks of a queue.
pub(crate) fn marks_of(queue: &QueueParameters) -> Marks
    ensures { result ≡ spec.marks_of queue.now }
{
    Marks {
        size: queue.size,
        full_delay_mark: queue.full_delay_mark,
        light_delay_mark: queue.light_delay_mark,
        discard_mark: queue.discard_mark,
        discard_severity: queue.discard_severity,
    }
}

/// How posts into a queue wait.
pub(crate) fn post_flow(plan: &Plan, queue: usize) -> Flow
    ensures { result ≡ spec.post_flow plan.now queue }
{
    match plan.queues().get(queue) {
        Some(parameters) if parameters.waits => Flow::Full,
        _ => Flow::NoWait,
    }
}

/// The queue that a worker takes from, and how many entries at once.
pub(crate) fn batch_of(plan: &Plan, worker: u32) -> (usize, usize)
    requires { worker < length plan.now.workers }
    ensures queue { result.0 ≡ spec.queue_of_worker plan.now worker }
    ensures batch { result.1 ≡ (spec.parameters_at plan.now result.0).batch }
{
    let queue = plan.workers()[worker as usize] as usize;
    match plan.queues().get(queue) {
        Some(parameters) => (queue, parameters.batch as usize),
        None => (queue, 0),
    }
}

/// An occurrence of a list.
pub(crate) fn occurrence_of(plan: &Plan, list: u32, number: u32) -> Option<Occurrence>
    ensures { result ≡ slice_get (spec.occurrences_at plan.now list) number }
{
    if list as usize >= plan.list_names().len() {
        return None;
    }
    plan.occurrences(list).get(number as usize).copied()
}

/// How often a failed message of an action is tried again; none where without end.
pub fn retry_of(plan: &Plan, action: u32) -> Option<u32>
    ensures { result ≡ spec.retry_at plan.now action }
{
    plan.actions().get(action as usize)?.retry
}

/// The queue that a message for a list is put into.
pub(crate) fn queue_of_list(plan: &Plan, list: u32) -> usize
    ensures { result ≡ queue_for plan.now list }
{
    if list as usize >= plan.list_names().len() {
        return 0;
    }
    plan.list_queue(list).unwrap_or(0) as usize
}
