//! Forwards to addresses that are no host's.
ghost use Rattle.std.specs.Prelude.{◌≡◌, ◌<◌, ℕ, Decides, IfNone, IfSome, length};
ghost use Rattle.sy_endpoints.specs.Endpoints as spec;

use crate::hosts::is_no_host;
use crate::outlets::{connection, outlet_of};
use crate::parts::actions_of;
use sy_rules::Destination;
use sy_site::{Site, SiteAction};

/// Whether an action of that destination connects to an address that is no host's.
pub fn no_host_at(site: &Site, destination: &Destination) -> bool
    ensures { Decides result (spec.LeadsToNoHost site.now destination.now) }
{
    match connection(outlet_of(site, destination)) {
        Some(found) => is_no_host(found.0),
        None => false,
    }
}

// The first such action of a relay.
fn no_host_of(site: &Site, relay: u32) -> Option<u32>
    requires { relay < length site.now.relays }
    ensures some { IfSome result (λ action. spec.IsToNoHost site.now relay action) }
    ensures none { IfNone result ((action : ℕ) → spec.IsToNoHost site.now relay action → ⊥) }
{
    let actions = actions_of(site, relay);
    for number in 0..actions.len() {
        if no_host_at(site, &actions[number].destination) {
            return Some(number as u32);
        }
    }
    None
}

/// The first such action of a site.
pub fn first_no_host(site: &Site) -> Option<SiteAction>
    ensures some { IfSome result (λ found. spec.IsToNoHost site.now found.relay found.action) }
    ensures none { IfNone result (spec.LeadToHosts site.now) }
{
    for relay in 0..site.relays() {
        if let Some(action) = no_host_of(site, relay) {
            return Some(SiteAction { relay, action });
        }
    }
    None
}
