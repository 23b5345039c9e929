//! Queues with marks.

use crate::values::entry;
use std::alloc::Global;
use sy_chain::Chain;
use sy_marks::{MarkQueue, Marks};

/// A queue that is filled to its size, at its end and at its front.
pub fn queue_that_is_filled(alloc: Global) -> Option<MarkQueue> {
    let mut queue = MarkQueue::new(Marks {
        size: 3,
        full_delay_mark: 0,
        light_delay_mark: 0,
        discard_mark: 0,
        discard_severity: 8,
    });
    MarkQueue::push(&mut queue, entry(alloc)?);
    let mut place = Some(entry(alloc)?);
    MarkQueue::push_from(&mut queue, &mut place);
    let mut front = Chain::new();
    front.push_back(entry(alloc)?);
    MarkQueue::prepend(&mut queue, front);
    Some(queue)
}
