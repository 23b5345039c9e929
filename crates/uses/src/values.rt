//! Values that several modules begin with.
ghost use Rattle.std.specs.Prelude.{◌≡◌, IfSome};
ghost use Rattle.std.specs.Arc.{arc_value};
ghost use Rattle.sy_rules.specs.PassPlan as pass;

use std::alloc::Global;
use std::sync::Arc;
use sy_chain::Node;
use sy_rules::Plan;
use sy_wire::Message;

/// A message.
pub(crate) fn message(alloc: Global) -> Option<Arc<Message>> {
    let raw = b"<34>1 - - - - - -".to_vec(alloc).ok()?;
    match Message::read(raw) {
        Ok(message) => Arc::new(alloc, message).ok(),
        Err(_) => None,
    }
}

/// An entry of a message.
pub(crate) fn entry(alloc: Global) -> Option<Node> {
    Node::new(alloc, message(alloc)?, 0, 0, 1, 0).ok()
}

/// A plan with one input, one worker, one action and one list.
pub(crate) fn plan(alloc: Global) -> Option<Arc<Plan>>
    ensures { IfSome result (λ plan. arc_value plan ≡ pass.plan) }
{
    match Plan::pass(alloc) {
        Ok(plan) => Arc::new(alloc, plan).ok(),
        Err(_) => None,
    }
}
