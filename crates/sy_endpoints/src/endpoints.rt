//! Whether endpoints are told apart.
ghost use Rattle.std.specs.Prelude.{◌<◌, IfNone, IfSome, length};
ghost use Rattle.sy_endpoints.specs.Endpoints as spec;

use crate::no_host::first_no_host;
use crate::own::{Homeward, first_homeward};
use crate::shared::{Meeting, first_meeting};
use sy_site::{Site, SiteAction};

/// Why endpoints aren't told apart.
#[derive(Clone, Copy)]
pub enum Clash {
    /// Inputs of two relays can be reached at one endpoint.
    Shared(Meeting),
    /// A forward of the relay leads back to it.
    Own(Homeward),
    /// An action connects to an address that is no host's.
    NoHost(SiteAction),
}

/// Why the endpoints of a site aren't told apart, for one of its relays; nothing where they are.
pub fn first_clash(site: &Site, relay: u32) -> Option<Clash>
    requires exists { relay < length site.now.relays }
    ensures some { IfSome result (spec.IsClash site.now relay) }
    ensures none { IfNone result (spec.AreEndpoints site.now relay) }
{
    if let Some(found) = first_meeting(site) {
        return Some(Clash::Shared(found));
    }
    if let Some(found) = first_homeward(site, relay) {
        return Some(Clash::Own(found));
    }
    match first_no_host(site) {
        Some(found) => Some(Clash::NoHost(found)),
        None => None,
    }
}
