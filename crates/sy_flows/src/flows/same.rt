//! Whether classes execute the same of each list of a site.

ghost use Rattle.std.specs.Prelude.{◌≡◌, Decides, true};
ghost use Rattle.sy_flows.specs.Flows as spec;

use crate::flows::{ListFlows, SiteFlows};

fn is_same(one: ListFlows, other: ListFlows) -> bool
    ensures { Decides result (one ≡ other) }
{
    one.every == other.every && (one.firm == other.firm && one.must == other.must)
}

// Whether the flows of each list of a relay are the same.
fn same_lists(one: &[ListFlows], other: &[ListFlows]) -> bool
    ensures { Decides result (one.now ≡ other.now) }
{
    if one.len() != other.len() {
        return false;
    }
    for place in 0..one.len() {
        if !is_same(one[place], other[place]) {
            return false;
        }
    }
    true
}

/// Whether the flows of each list are the same at each relay.
pub fn same_flows(one: &SiteFlows, other: &SiteFlows) -> bool
    ensures { Decides result (spec.AreSame one.now other.now) }
{
    if one.relays.len() != other.relays.len() {
        return false;
    }
    for relay in 0..one.relays.len() {
        let (here, there) = (&one.relays[relay].lists, &other.relays[relay].lists);
        if !same_lists(here.as_slice(), there.as_slice()) {
            return false;
        }
    }
    true
}
