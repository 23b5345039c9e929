//! The actions of a site that hold up protected messages.

ghost use Rattle.std.specs.Prelude.{◌≡◌, ◌<◌, ◌+◌, IfOk, OnOk, length};
ghost use Rattle.sy_site.specs.Sites.{plan_at};
ghost use Rattle.sy_warnings.specs.Holders as spec;
ghost use Rattle.sy_warnings.specs.internal.Holders as inside;
ghost use Rattle.sy_warnings.specs.internal.Holding as held;

use crate::bottleneck::bottleneck_in;
use crate::following::SiteList;
use crate::holding::{
    SiteLists, first_needed, needed_beside, needed_lists, queue_of, shared_worker_in, site_lists,
};
use std::alloc::{AllocError, Global};
use sy_rules::laws::plans_are_whole;
use sy_rules::{Occurrence, Plan};
use sy_site::Site;

/// How an action holds up protected messages.
#[derive(Clone, Copy, PartialEq)]
pub enum Holding {
    /// It may wait without end, and shares a worker with what they need.
    SharedWorker,
    /// It is spare, and stands before what they need.
    Bottleneck,
}

/// An action that holds up protected messages, and what it holds up.
#[derive(Clone, Copy)]
pub struct Holder {
    pub relay: u32,
    pub action: u32,
    pub holding: Holding,
    /// The queue whose worker runs both.
    pub queue: u32,
    /// What protected messages need of that worker.
    pub needed: Option<Occurrence>,
}

// The number behind the first run of an action in a list.
fn behind_run(plan: &Plan, list: u32, action: u32) -> u32 {
    let mut number: u32 = 0;
    if (list as usize) < plan.list_names().len() {
        for is in plan.occurrences(list) {
            number = number.saturating_add(1);
            if *is == Occurrence::Run(action) {
                return number;
            }
        }
    }
    number
}

// That an action shares a worker by a list.
fn worker(site: &Site, lists: &SiteLists, relay: u32, action: u32, list: u32) -> Holder
    requires lists { held.AreLists site.now lists.now }
    requires relay { relay < length site.now.relays }
    requires list { list < length (plan_at site.now relay).lists }
    ensures { spec.says result ≡ (relay, action, Holding.SharedWorker) }
{
    Holder {
        relay,
        action,
        holding: Holding::SharedWorker,
        queue: queue_of(site, SiteList { relay, list }),
        needed: needed_beside(site, lists.firm.as_slice(), relay, list),
    }
}

// That an action stands before what is needed in a list.
fn bottleneck(site: &Site, lists: &SiteLists, relay: u32, action: u32, list: u32) -> Holder
    requires lists { held.AreLists site.now lists.now }
    requires relay { relay < length site.now.relays }
    requires list { list < length (plan_at site.now relay).lists }
    ensures { spec.says result ≡ (relay, action, Holding.Bottleneck) }
{
    let at = SiteList { relay, list };
    let from = behind_run(site.plan(relay), list, action);
    Holder {
        relay,
        action,
        holding: Holding::Bottleneck,
        queue: queue_of(site, at),
        needed: first_needed(site, lists.firm.as_slice(), at, from),
    }
}

// Puts that an action shares a worker behind the others, where it does.
fn push_worker(
    site: &Site,
    lists: &SiteLists,
    needed: &[bool],
    relay: u32,
    action: u32,
    found: &mut Vec<Holder>,
) -> Result<(), AllocError>
    requires lists { held.AreLists site.now lists.now }
    requires needed { held.AreNeeded site.now relay needed.now }
    requires relay { relay < length site.now.relays }
    ensures { OnOk result (inside.Adds site.now relay action Holding.SharedWorker found.old.items found.new.items) }
{
    match shared_worker_in(site, lists, needed, relay, action) {
        Some(list) => {
            found.push(worker(site, lists, relay, action, list))?;
            Ok(())
        }
        None => Ok(()),
    }
}

// Puts that an action is a bottleneck behind the others, where it is one.
fn push_bottleneck(
    site: &Site,
    lists: &SiteLists,
    relay: u32,
    action: u32,
    found: &mut Vec<Holder>,
) -> Result<(), AllocError>
    requires lists { held.AreLists site.now lists.now }
    requires relay { relay < length site.now.relays }
    ensures { OnOk result (inside.Adds site.now relay action Holding.Bottleneck found.old.items found.new.items) }
{
    match bottleneck_in(site, lists.firm.as_slice(), relay, action) {
        Some(list) => {
            found.push(bottleneck(site, lists, relay, action, list))?;
            Ok(())
        }
        None => Ok(()),
    }
}

// Puts how an action holds up protected messages behind the others.
fn push_action(
    site: &Site,
    lists: &SiteLists,
    needed: &[bool],
    relay: u32,
    action: u32,
    found: &mut Vec<Holder>,
) -> Result<(), AllocError>
    requires lists { held.AreLists site.now lists.now }
    requires needed { held.AreNeeded site.now relay needed.now }
    requires relay { relay < length site.now.relays }
    ensures { OnOk result (inside.AreHoldersBelow site.now relay action found.old.items
        → inside.AreHoldersBelow site.now relay (action + 1) found.new.items) }
{
    push_worker(site, lists, needed, relay, action, found)?;
    push_bottleneck(site, lists, relay, action, found)?;
    Ok(())
}

// How many actions a relay has.
fn actions_of(site: &Site, relay: u32) -> u32
    requires relay { relay < length site.now.relays }
    ensures { result ≡ length (plan_at site.now relay).actions }
{
    let plan: &Plan = site.plan(relay);
    plans_are_whole(plan);
    plan.actions().len() as u32
}

// Puts the actions of a relay that hold up protected messages behind the others.
fn push_relay(
    alloc: Global,
    site: &Site,
    lists: &SiteLists,
    relay: u32,
    found: &mut Vec<Holder>,
) -> Result<(), AllocError>
    requires lists { held.AreLists site.now lists.now }
    requires relay { relay < length site.now.relays }
    ensures { OnOk result (inside.AreHoldersBelow site.now relay 0 found.old.items
        → inside.AreHoldersBelow site.now (relay + 1) 0 found.new.items) }
{
    site.is_lawful();
    let needed = needed_lists(alloc, site, lists.firm.as_slice(), relay)?;
    for action in 0..actions_of(site, relay) {
        push_action(site, lists, needed.as_slice(), relay, action, found)?;
    }
    Ok(())
}

// Those of all relays.
fn holders_by(alloc: Global, site: &Site, lists: &SiteLists) -> Result<Vec<Holder>, AllocError>
    requires lists { held.AreLists site.now lists.now }
    ensures { IfOk result (λ found. spec.AreHolders site.now found.items) }
{
    site.is_lawful();
    let mut found = Vec::new(alloc);
    for relay in 0..site.relays() {
        push_relay(alloc, site, lists, relay, &mut found)?;
    }
    Ok(found)
}

/// The actions of a site that hold up protected messages: each shared worker and each bottleneck, and no other, relay by relay.
pub fn holders_of(alloc: Global, site: &Site) -> Result<Vec<Holder>, AllocError>
    ensures { IfOk result (λ found. spec.AreHolders site.now found.items) }
{
    let lists = site_lists(alloc, site)?;
    let holders = holders_by(alloc, site, &lists)?;
    Ok(holders)
}
