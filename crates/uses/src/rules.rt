//! What is asked of a plan about its lists.

use crate::values::{message, plan};
use std::alloc::Global;
use sy_classes::{Flows, flow_of};
use sy_rules::Plan;

/// What the one list of a plan is, and what a message executes of it.
pub fn list_of_a_plan(alloc: Global) -> Option<(usize, usize, Option<u32>, u64)> {
    let plan = plan(alloc)?;
    let message = message(alloc)?;
    let name = Plan::list_name(&plan, 0).len();
    let occurrences = Plan::occurrences(&plan, 0).len();
    Some((
        name,
        occurrences,
        Plan::list_queue(&plan, 0),
        Plan::due(&plan, 0, &message),
    ))
}

/// What the messages of a class may and must execute of it.
pub fn flows_of_a_class(alloc: Global) -> Option<((u64, u64), Flows)> {
    let plan = plan(alloc)?;
    let class = message(alloc)?.class();
    Some((Plan::flows(&plan, 0, class), flow_of(&plan, 0, class)))
}
