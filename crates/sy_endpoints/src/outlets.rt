//! Where the actions of a relay bring their messages.
ghost use Rattle.std.specs.Prelude.{◌≡◌, ◌<◌, ℕ, IfNone, IfOk, IfSome, length, map};
ghost use Rattle.sy_site.specs.declared.site.host.Host.{Host as AnyHost};
ghost use Rattle.sy_endpoints.specs.Hosts.{host_of};
ghost use Rattle.sy_endpoints.specs.Outlets as spec;
ghost use Rattle.sy_endpoints.specs.internal.Targets.{target_at};

use crate::hosts::{Peer, peer_of};
use std::alloc::{AllocError, Global};
use std::net::IpAddr;
use sy_rules::Destination;
use sy_site::{Host, Site};

/// Where an action brings its messages.
#[derive(Clone, Copy)]
pub enum Outlet<'a> {
    /// To the end of the file of this name.
    File(&'a [u8]),
    /// To whoever listens there: a relay of the site, or another receiver that it names.
    Link { host: &'a Host, port: u16 },
    /// To the address that the target is, or nowhere: it names neither a relay of the site nor a receiver with this port.
    Target { target: &'a [u8], port: u16 },
}

// Where a forward leads that names no relay.
fn receiver<'a>(site: &'a Site, target: &'a [u8], port: u16) -> Outlet<'a>
    ensures { spec.place_of result ≡ spec.receiver site.now target.now port }
{
    match site.outside_named(target, port) {
        Some(host) => Outlet::Link { host, port },
        None => Outlet::Target { target, port },
    }
}

// Where a forward to that target leads.
#[tactic(auto, using(crate::proofs::Named::is_there, crate::proofs::Named::place_there))]
fn forward<'a>(site: &'a Site, target: &'a [u8], port: u16) -> Outlet<'a>
    ensures { spec.place_of result ≡ spec.forward site.now target.now port }
{
    match site.relay_named(target) {
        Some(relay) => {
            let host = site.host(relay);
            Outlet::Link { host, port }
        }
        None => receiver(site, target, port),
    }
}

/// Where an action of that destination brings its messages.
pub fn outlet_of<'a>(site: &'a Site, destination: &'a Destination) -> Outlet<'a>
    ensures { spec.place_of result ≡ spec.place_for site.now destination.now }
{
    match destination {
        Destination::Archive(file) => Outlet::File(file.as_slice()),
        Destination::Forward(target, port) => forward(site, target.as_slice(), *port),
    }
}

/// Where each action of a relay brings its messages, in the order of its actions.
pub fn outlets(alloc: Global, site: &Site, relay: u32) -> Result<Vec<Outlet<'_>>, AllocError>
    requires exists { relay < length site.now.relays }
    ensures { IfOk result (λ found. map spec.place_of found.items ≡ spec.places site.now relay) }
{
    let mut found = Vec::new(alloc);
    for action in site.plan(relay).actions() {
        found.push(outlet_of(site, &action.destination))?;
    }
    Ok(found)
}

// The address that a target is.
fn address_of<'a>(target: &[u8], port: u16) -> Option<(Peer<'a>, u16)>
    ensures some { IfSome result (λ found. spec.ConnectsTo (target_at target.now port) (host_of found.0) found.1) }
    ensures none { IfNone result ((to : AnyHost) (at : ℕ) → spec.ConnectsTo (target_at target.now port) to at → ⊥) }
{
    match IpAddr::parse_ascii(target) {
        Ok(address) => Some((Peer::Address(address), port)),
        Err(_) => None,
    }
}

/// What is connected to for an outlet: a host and a port, or nothing.
pub fn connection<'a>(outlet: Outlet<'a>) -> Option<(Peer<'a>, u16)>
    ensures some { IfSome result (λ found. spec.ConnectsTo (spec.place_of outlet.entry) (host_of found.0) found.1) }
    ensures none { IfNone result ((to : AnyHost) (at : ℕ) → spec.ConnectsTo (spec.place_of outlet.entry) to at → ⊥) }
{
    match outlet {
        Outlet::File(_) => None,
        Outlet::Link { host, port } => Some((peer_of(host), port)),
        Outlet::Target { target, port } => address_of(target, port),
    }
}
