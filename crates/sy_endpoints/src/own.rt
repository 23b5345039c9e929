//! Forwards that lead back to their own relay.
ghost use Rattle.std.specs.Prelude.{◌≡◌, ◌<◌, ℕ, Some, Decides, IfNone, IfSome, length};
ghost use Rattle.sy_site.specs.Sites.{relay_named};
ghost use Rattle.sy_site.specs.declared.site.host.Host.{Host as AnyHost};
ghost use Rattle.sy_endpoints.specs.Endpoints as spec;
ghost use Rattle.sy_endpoints.specs.Hosts.{host_of};

use crate::hosts::{Peer, is_home, peer_of};
use crate::outlets::{connection, outlet_of};
use crate::parts::{actions_of, inputs_of};
use crate::shared::input_at;
use sy_rules::Destination;
use sy_site::Site;

/// A forward of a relay that leads to an input of that relay, though the site has it lead elsewhere.
#[derive(Clone, Copy)]
pub struct Homeward {
    pub action: u32,
    pub input: u32,
}

// Whether that target names the relay.
fn is_name_of(site: &Site, relay: u32, target: &[u8]) -> bool
    ensures { Decides result (relay_named site.now.relays target.now ≡ Some relay) }
{
    match site.relay_named(target) {
        Some(named) => named == relay,
        None => false,
    }
}

// Whether a destination names the relay.
fn names(site: &Site, relay: u32, destination: &Destination) -> bool
    ensures { Decides result (spec.Names site.now relay destination.now) }
{
    match destination {
        Destination::Forward(target, _) => is_name_of(site, relay, target.as_slice()),
        Destination::Archive(_) => false,
    }
}

// Whether a relay is reached, or listens, at that host.
fn is_at_home(site: &Site, relay: u32, to: Peer<'_>) -> bool
    requires { relay < length site.now.relays }
    ensures { Decides result (spec.IsAtHome site.now relay (host_of to.entry)) }
{
    is_home(peer_of(site.host(relay)), site.listens_at(relay), to)
}

// The input of the relay that is reached at that port of that host.
fn own_input(site: &Site, relay: u32, to: Peer<'_>, port: u16) -> Option<u32>
    requires { relay < length site.now.relays }
    ensures some { IfSome result (λ input. spec.IsReachedAt site.now relay (host_of to.entry) port input) }
    ensures none { IfNone result ((input : ℕ) → spec.IsReachedAt site.now relay (host_of to.entry) port input → ⊥) }
{
    if !is_at_home(site, relay, to) {
        return None;
    }
    let inputs = inputs_of(site, relay);
    match input_at(inputs, port) {
        Some(input) => Some(input),
        None => None,
    }
}

/// The input of the relay that its action of that destination leads to, though the site has it lead elsewhere.
pub fn own_input_at(site: &Site, relay: u32, destination: &Destination) -> Option<u32>
    requires exists { relay < length site.now.relays }
    ensures some { IfSome result (λ input. spec.LeadsHome site.now relay destination.now input) }
    ensures none { IfNone result ((input : ℕ) → spec.LeadsHome site.now relay destination.now input → ⊥) }
{
    if names(site, relay, destination) {
        return None;
    }
    let Some(found) = connection(outlet_of(site, destination)) else {
        return None;
    };
    match own_input(site, relay, found.0, found.1) {
        Some(input) => Some(input),
        None => None,
    }
}

/// The first such forward of a relay.
pub fn first_homeward(site: &Site, relay: u32) -> Option<Homeward>
    requires exists { relay < length site.now.relays }
    ensures some { IfSome result (λ found. spec.IsHomeward site.now relay found.action found.input) }
    ensures none { IfNone result (spec.LeadAway site.now relay) }
{
    let actions = actions_of(site, relay);
    for number in 0..actions.len() {
        if let Some(input) = own_input_at(site, relay, &actions[number].destination) {
            return Some(Homeward {
                action: number as u32,
                input,
            });
        }
    }
    None
}
