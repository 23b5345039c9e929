//! The inputs and the actions of a relay.
ghost use Rattle.std.specs.Prelude.{◌≡◌, ◌<◌, ◌≤◌, length};
ghost use Rattle.sy_site.specs.Sites.{plan_at};

use sy_rules::laws::plans_are_whole;
use sy_rules::{Action, Input};
use sy_site::Site;

/// The inputs of a relay.
pub fn inputs_of(site: &Site, relay: u32) -> &[Input]
    requires exists { relay < length site.now.relays }
    ensures are { result.now ≡ (plan_at site.now relay).inputs }
    ensures few { length result.now ≤ 64 }
{
    let plan = site.plan(relay);
    plans_are_whole(plan);
    plan.inputs()
}

/// The actions of a relay.
pub fn actions_of(site: &Site, relay: u32) -> &[Action]
    requires exists { relay < length site.now.relays }
    ensures are { result.now ≡ (plan_at site.now relay).actions }
    ensures few { length result.now ≤ 256 }
{
    let plan = site.plan(relay);
    plans_are_whole(plan);
    plan.actions()
}
