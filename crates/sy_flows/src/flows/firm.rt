//! Which occurrences of the lists of a site aren't spare.

ghost use Rattle.std.specs.Prelude.{[], ◌≡◌, ◌<◌, ◌≤◌, true, false, ℕ, ◌↔◌, ◌⊎◌, ◌++◌, ◌∷◌, IfOk, OnOk, Some, length, slice_get};
ghost use Rattle.std.specs.Int.{bit_at};
ghost use Rattle.sy_board.specs.relay.Spares as relays;
ghost use Rattle.sy_rules.specs.declared.lists.occurrence.Occurrence.{Occurrence as AnyOccurrence};
ghost use Rattle.sy_site.specs.Sites as sites;
ghost use Rattle.sy_flows.specs.Flows as spec;

use std::alloc::{AllocError, Global};
use sy_rules::laws::plans_are_whole;
use sy_rules::{Occurrence, Plan};
use sy_site::{Site, SiteAction};

/// Of each list of a relay the occurrences that aren't spare, as a set.
#[derive(Drop)]
pub struct RelayFirm {
    pub lists: Vec<u64>,
}

/// The same of each relay of a site.
#[derive(Drop)]
pub struct SiteFirm {
    pub relays: Vec<RelayFirm>,
}

// Puts the number of an action behind the others where it is this relay's.
fn push_action(found: &mut Vec<u32>, relay: u32, action: SiteAction) -> Result<(), AllocError>
    ensures { OnOk result (found.new.items ≡ found.old.items ++ sites.actions_at (action ∷ []) relay) }
{
    if action.relay == relay {
        found.push(action.action)?;
    }
    Ok(())
}

/// The numbers of those of some actions that are a relay's.
pub fn actions_at(alloc: Global, actions: &[SiteAction], relay: u32) -> Result<Vec<u32>, AllocError>
    ensures { IfOk result (λ found. found.items ≡ sites.actions_at actions.now relay) }
{
    let mut found = Vec::new(alloc);
    for action in actions {
        push_action(&mut found, relay, *action)?;
    }
    Ok(found)
}

fn is_spare_action(spares: &[u32], action: u32) -> bool
    ensures { result ≡ relays.is_spare_action spares.now action }
{
    spares.iter().any(|spare| *spare == action)
}

// Whether a list is a spare action's own.
fn is_spare_own(plan: &Plan, spares: &[u32], list: u32) -> bool
    ensures { result ≡ relays.is_spare_own plan.now spares.now list }
{
    match plan.own_action(list) {
        Some(action) => is_spare_action(spares, action),
        None => false,
    }
}

// Whether an occurrence runs a spare action, or posts to its own list.
fn is_spare(plan: &Plan, spares: &[u32], occurrence: Occurrence) -> bool
    ensures { result ≡ relays.is_spare_occurrence plan.now spares.now occurrence }
{
    match occurrence {
        Occurrence::Run(action) => is_spare_action(spares, action),
        Occurrence::Post(list) => is_spare_own(plan, spares, list),
    }
}

// A set with one number more, where that is asked for.
fn with(set: u64, number: usize, asked: bool) -> u64
    requires small { number < 64 }
    ensures { (k : ℕ) → (bit_at result k ≡ 1) ↔ ((bit_at set k ≡ 1) ⊎ ((k ≡ number) × (asked ≡ true))) }
{
    if !asked {
        return set;
    }
    set | (1 << number)
}

// Those of some occurrences that aren't spare.
fn firm_among(plan: &Plan, spares: &[u32], occurrences: &[Occurrence]) -> u64
    requires few { length occurrences.now ≤ 64 }
    ensures { (number : ℕ) (is : AnyOccurrence) → slice_get occurrences.now number ≡ Some is
        → (bit_at result number ≡ 1) ↔ (relays.is_spare_occurrence plan.now spares.now is ≡ false) }
{
    let mut set = 0;
    for number in 0..occurrences.len() {
        let asked = !is_spare(plan, spares, occurrences[number]);
        set = with(set, number, asked);
    }
    set
}

// The occurrences of a list that aren't spare, where these are the relay's spare actions.
fn firm_set(site: &Site, relay: u32, spares: &[u32], list: u32) -> u64
    requires relay { relay < length site.now.relays }
    requires there { list < length (sites.plan_at site.now relay).lists }
    requires spares { spares.now ≡ sites.spares_at site.now relay }
    ensures { spec.IsFirm site.now relay list result }
{
    let plan = site.plan(relay);
    plans_are_whole(plan);
    firm_among(plan, spares, plan.occurrences(list))
}

// Those of each list of a relay with these spare actions.
fn relay_firm(
    alloc: Global,
    site: &Site,
    relay: u32,
    spares: &[u32],
) -> Result<RelayFirm, AllocError>
    requires relay { relay < length site.now.relays }
    requires spares { spares.now ≡ sites.spares_at site.now relay }
    ensures { IfOk result (λ sets. spec.AreRelayFirm site.now relay sets) }
{
    plans_are_whole(site.plan(relay));
    let many = site.plan(relay).list_names().len() as u32;
    let mut lists = Vec::with_capacity(alloc, many as usize)?;
    for list in 0..many {
        lists.push(firm_set(site, relay, spares, list))?;
    }
    Ok(RelayFirm { lists })
}

/// The occurrences of each list of a site that aren't spare.
pub fn firm_of(alloc: Global, site: &Site) -> Result<SiteFirm, AllocError>
    ensures { IfOk result (λ sets. spec.AreFirm site.now sets) }
{
    let mut relays = Vec::with_capacity(alloc, site.relays() as usize)?;
    for relay in 0..site.relays() {
        let spares = actions_at(alloc, site.spares(), relay)?;
        let sets = relay_firm(alloc, site, relay, spares.as_slice())?;
        relays.push(sets)?;
    }
    Ok(SiteFirm { relays })
}
