//! Where what must be executed and isn't spare leads: on to other lists, and to archives that are written.

ghost use Rattle.std.specs.Prelude.{◌≡◌, ◌<◌, IfOk, Some, length, Decides};
ghost use Rattle.sy_site.specs.machine.Lawful.{IsInput};
ghost use Rattle.sy_flows.specs.Hops.{AreFlows};
ghost use Rattle.sy_flows.specs.Leads as spec;
ghost use Rattle.sy_flows.specs.internal.Leads.{Writes};
ghost use Rattle.std.specs.Int.{bit_at};
ghost use Rattle.sy_board.specs.relay.Plans.{occurrences_at};
ghost use Rattle.sy_site.specs.Sites.{plan_at};
ghost use Rattle.sy_site.specs.machine.Reach.{list_of};

use crate::flows::executed::Executed;
use crate::flows::{ClassFlows, set_at};
use crate::lists::{FoundLists, InnerList, lists_from};
use crate::reach::inputs::{has, list_at, next_in};
use std::alloc::{AllocError, Global};
use sy_rules::Occurrence;
use sy_site::{Site, SiteAction, SiteInput};
use sy_wire::Class;

/// The lists that what must be executed and isn't spare leads to, from the list of each entry.
pub fn leads_of(
    alloc: Global,
    site: &Site,
    class: Class,
    flows: &ClassFlows,
) -> Result<Vec<FoundLists>, AllocError>
    requires flows { AreFlows site.now class flows.now }
    ensures { IfOk result (λ leads. spec.AreLeads site.now class leads.items) }
{
    site.is_lawful();
    let mut leads = Vec::new(alloc);
    for entry in site.entries() {
        let found = lists_from(alloc, site, class, flows, list_of(site, *entry))?;
        leads.push(found)?;
    }
    Ok(leads)
}

/// The list of an input.
pub fn list_of(site: &Site, input: SiteInput) -> InnerList
    requires there { IsInput site.now input }
    ensures list { result ≡ spec.list_at site.now input }
    ensures there { spec.IsThere site.now result }
{
    site.is_lawful();
    let relay = input.relay;
    let list = list_at(site, input);
    InnerList { relay, list }
}

// Whether an occurrence of a list, which these are, runs this action of the relay.
fn runs(
    site: &Site,
    at: InnerList,
    occurrences: &[Occurrence],
    number: u32,
    archive: SiteAction,
) -> bool
    requires list { occurrences.now ≡ occurrences_at (plan_at site.now at.relay) at.list }
    ensures { Decides result (Writes site.now at number archive) }
{
    let _ = site;
    match occurrences.get(number as usize) {
        Some(Occurrence::Run(action)) => { at.relay == archive.relay && *action == archive.action }
        Some(Occurrence::Post(_)) | None => false,
    }
}

// Whether an occurrence of a set does.
fn writes(
    site: &Site,
    at: InnerList,
    occurrences: &[Occurrence],
    set: u64,
    number: u32,
    archive: SiteAction,
) -> bool
    requires list { occurrences.now ≡ occurrences_at (plan_at site.now at.relay) at.list }
    requires small { number < 64 }
    ensures { Decides result ((bit_at set number ≡ 1) × Writes site.now at number archive) }
{
    has(set, number) && runs(site, at, occurrences, number, archive)
}

/// Whether an occurrence of the archive must be executed in a list, and isn't spare.
pub fn must_write(
    site: &Site,
    class: Class,
    flows: &ClassFlows,
    archive: SiteAction,
    at: InnerList,
) -> bool
    requires there { spec.IsThere site.now at }
    requires flows { AreFlows site.now class flows.now }
    ensures { Decides result (spec.MustWriteAt site.now class archive at) }
{
    if at.relay != archive.relay {
        return false;
    }
    let must = set_at(site, class, &flows.lists, Executed::Must, at.relay, at.list);
    let occurrences = site.plan(at.relay).occurrences(at.list);
    let mut from = 0;
    while let Some(number) = next_in(must, from) {
        if writes(site, at, occurrences, must, number, archive) {
            return true;
        }
        from = number + 1;
    }
    false
}

// The list of the input that an action leads to.
fn target_list(site: &Site, relay: u32, action: u32) -> Option<InnerList>
    requires relay { relay < length site.now.relays }
    ensures { result ≡ spec.target_list site.now relay action }
{
    match site.target(relay, action) {
        Some(input) => Some(list_of(site, input)),
        None => None,
    }
}

/// The list that an occurrence of a list leads on to; none where that is no post and no forward, or leads nowhere.
pub fn lead_of(site: &Site, at: InnerList, number: u32) -> Option<InnerList>
    requires there { spec.IsThere site.now at }
    ensures { result ≡ spec.lead_of site.now at number }
{
    let relay = at.relay;
    match site.plan(relay).occurrences(at.list).get(number as usize) {
        Some(Occurrence::Run(action)) => target_list(site, relay, *action),
        Some(Occurrence::Post(inner)) => {
            let list = *inner;
            Some(InnerList { relay, list })
        }
        None => None,
    }
}
