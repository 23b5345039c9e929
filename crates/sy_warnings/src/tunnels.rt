//! Warnings of links that go through a tunnel.

use crate::objects::action_part;
use crate::warnings::{Caution, Warnings};
use std::alloc::AllocError;
use sy_report::texts::note::{Note, Point};
use sy_report::texts::parts::{Part, relay_name};
use sy_site::{Site, SiteFault};
use sy_tunnels::{Tunnel, tunnels_of};

// Of a link that goes through a tunnel.
fn push_tunnel(warnings: &mut Warnings, site: &Site, site_name: &str, tunnel: Tunnel) {
    let (line, relay) = (tunnel.line as u64, tunnel.action.relay);
    if relay >= site.relays() {
        return;
    }
    let mut note = Note::new(warnings.alloc);
    let point = Some(Point { line, column: 1 });
    note.stands_at(warnings.alloc, site_name.as_bytes(), point);
    note.what.append(&[
        Part::Text(b"action "),
        action_part(site.plan(relay), tunnel.action.action),
        Part::Text(b" of relay "),
        Part::Text(relay_name(site, relay)),
    ]);
    note.why.say(
        "a tunnel takes messages before it knows its far end: what it took is done, also where nobody behind it has it",
    );
    note.change.say(
        "stop this relay before the tunnel and the relay behind it, start it after them, and watch what it has done beside what that relay has taken: the difference, once both rest, is lost",
    );
    warnings.push(Caution::BlindTunnel, note);
}

/// Warns of each link that goes through a tunnel.
pub fn warn_of_tunnels(
    warnings: &mut Warnings,
    site: &Site,
    site_name: &str,
    text: &[u8],
) -> Result<(), AllocError> {
    match tunnels_of(warnings.alloc, site, text) {
        Ok(tunnels) => {
            for tunnel in tunnels.as_slice() {
                push_tunnel(warnings, site, site_name, *tunnel);
            }
            Ok(())
        }
        Err(SiteFault::NoMemory) => Err(AllocError),
        Err(_) => Ok(()),
    }
}
