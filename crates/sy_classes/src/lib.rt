//! What the messages of a class may and must execute.
#![tactic(auto)]

ghost use Rattle.std.specs.Prelude.{◌<◌, length};
ghost use Rattle.sy_rules.specs.Whole.{body_at};
ghost use Rattle.sy_rules.specs.lists.Sets.{Bits};
ghost use Rattle.sy_rules.specs.lists.Work.{May, Must};

use sy_rules::Plan;
use sy_wire::Class;

/// Two sets of occurrences of a list: bit k stands for occurrence k, counted from 0.
#[derive(Clone, Copy)]
pub struct Flows {
    /// Those that some valuation which the class admits executes.
    pub may: u64,
    /// Those that every such valuation executes.
    pub must: u64,
}

/// May and must of a list for a class. A valuation gives each test occurrence of the list's expanded text a truth value: where the class
/// decides the test it is as the class says, and every other is free by itself. It takes no memory. For a list that an
/// input or a queue has the plan has them ready. A list is the number of one of the plan's.
pub fn flow_of(plan: &Plan, list: u32, class: Class) -> Flows
    requires exists { list < length plan.now.lists }
    ensures may { Bits (May (body_at plan.now list) class) result.may }
    ensures must { Bits (Must (body_at plan.now list) class) result.must }
{
    let (may, must) = plan.flows(list, class);
    Flows { may, must }
}
