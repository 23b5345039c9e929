//! What is kept of a site that was accepted.
ghost use Rattle.std.specs.Prelude.{IfSome};
ghost use Rattle.std.specs.Arc.{arc_value};
ghost use Rattle.sy_board.specs.relay.Guards.{MayGuard};

use crate::site::site_of_a_relay;
use std::alloc::Global;
use std::sync::Arc;
use sy_board::Guard;
use sy_checker::{Accepted, check_site};
use sy_rules::Plan;

/// The plan of its first relay, and the guard there, whose condition the plan meets.
pub fn guarded_plan(alloc: Global) -> Option<(Arc<Plan>, Guard)>
    ensures { IfSome result (λ kept. MayGuard (arc_value kept.0) kept.1) }
{
    let site = site_of_a_relay(alloc)?;
    if site.relays() == 0 {
        return None;
    }
    let Ok(accepted) = check_site(alloc, &site) else {
        return None;
    };
    let Ok(plan) = Arc::try_clone(Accepted::plan(&accepted, 0)) else {
        return None;
    };
    let Ok(guard) = accepted.guard(alloc, 0) else {
        return None;
    };
    Some((plan, guard))
}
