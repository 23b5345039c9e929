//! Which actions may be spare: those on which no archive hangs that a protect line names.

ghost use Rattle.std.specs.Prelude.{◌<◌, length};

use sy_report::texts::parts::action_name;
use sy_site::{Site, SiteAction};

/// The most relays of a site.
const RELAYS: u32 = 64;

// A relay as a set.
fn set_of(relay: u32) -> u64 {
    if relay < RELAYS { 1 << relay } else { 0 }
}

// The relays with archives that protect lines name.
fn archive_relays(site: &Site) -> u64 {
    let mut set = 0;
    for protection in site.protections() {
        set |= set_of(protection.archive.relay);
    }
    set
}

// The relays that the forwards of a relay lead to.
fn targets_of(site: &Site, relay: u32) -> u64
    requires { relay < length site.now.relays }
{
    let mut set = 0;
    let mut action: u32 = 0;
    for _ in site.plan(relay).actions() {
        if let Some(to) = site.target(relay, action) {
            set |= set_of(to.relay);
        }
        action = action.saturating_add(1);
    }
    set
}

// These relays and those that their forwards lead to.
fn with_targets(site: &Site, relays: u64) -> u64 {
    let mut set = relays;
    for relay in 0..site.relays() {
        if relays & set_of(relay) != 0 {
            set |= targets_of(site, relay);
        }
    }
    set
}

// A relay and those that forwards lead to from there on.
fn reached_from(site: &Site, relay: u32) -> u64 {
    let mut reached = set_of(relay);
    for _ in 0..RELAYS {
        let more = with_targets(site, reached);
        if more == reached {
            return reached;
        }
        reached = more;
    }
    reached
}

// Whether a protect line names this archive.
fn is_named(site: &Site, action: SiteAction) -> bool {
    site.protections()
        .iter()
        .any(|protection| protection.archive == action)
}

// Whether its name can stand in a site file.
fn is_word(name: &[u8]) -> bool {
    !name.is_empty() && name.iter().all(|byte| *byte > b' ')
}

/// Whether an action may be spare: no protect line names it, it leads to no relay with an archive that one names, also
/// by way of others, and it has a name that can stand in a site file.
pub fn may_be_spare(site: &Site, action: SiteAction) -> bool {
    if is_named(site, action) || !is_word(action_name(site, action)) {
        return false;
    }
    match site.target(action.relay, action.action) {
        Some(to) => reached_from(site, to.relay) & archive_relays(site) == 0,
        None => true,
    }
}
