//! What a class executes of a site, and what its messages reach by that.
ghost use Rattle.std.specs.Prelude.{IfOk, IfSome};
ghost use Rattle.sy_site.specs.machine.Lawful.{IsInput};
ghost use Rattle.sy_flows.specs.Hops.{AreFlows};

use crate::site::site_of_a_relay;
use crate::values::message;
use std::alloc::{AllocError, Global};
use sy_flows::{
    ClassFlows, Executed, InnerList, class_flows, firm_of, flows_of, has, hops_at, input_at,
    lead_of, leads_of, list_at, list_of, lists_at, must_write, occurrence_at, reached,
    reached_by_every, set_at, walk_for,
};
use sy_rules::Occurrence;
use sy_site::{Site, SiteAction, SiteInput};
use sy_wire::Class;

/// The first entry of a site.
pub(crate) fn first_entry(site: &Site) -> Option<SiteInput>
    ensures { IfSome result (λ entry. IsInput site.now entry) }
{
    site.is_lawful();
    let entries = site.entries();
    if entries.is_empty() {
        return None;
    }
    Some(entries[0])
}

/// What a class executes of a site.
pub(crate) fn flows_for(alloc: Global, site: &Site, class: Class) -> Result<ClassFlows, AllocError>
    ensures { IfOk result (λ flows. AreFlows site.now class flows) }
{
    let firm = firm_of(alloc, site)?;
    let lists = flows_of(alloc, site, class, &firm)?;
    class_flows(alloc, site, class, lists)
}

/// The same, where there was memory.
pub(crate) fn flows_of_a_site(alloc: Global, site: &Site, class: Class) -> Option<ClassFlows>
    ensures { IfSome result (λ flows. AreFlows site.now class flows) }
{
    flows_for(alloc, site, class).ok()
}

/// The list of a site's first entry with its port, and its first occurrence with the list that this leads on to.
pub fn list_of_an_entry(
    alloc: Global,
) -> Option<(u32, u16, Option<Occurrence>, Option<InnerList>)> {
    let site = site_of_a_relay(alloc)?;
    let entry = first_entry(&site)?;
    let at = list_of(&site, entry);
    let is = occurrence_at(&site, at.relay, at.list, 0);
    let to = lead_of(&site, at, 0);
    Some((list_at(&site, entry), input_at(&site, entry).port, is, to))
}

/// Whether messages of a class execute the first occurrence of that list, and must write an archive there; and to how many
/// inputs and lists it leads.
pub fn hops_of_an_entry(alloc: Global) -> Option<(bool, bool, usize, usize)> {
    let site = site_of_a_relay(alloc)?;
    let class = message(alloc)?.class();
    let entry = first_entry(&site)?;
    let flows = flows_of_a_site(alloc, &site, class)?;
    let at = list_of(&site, entry);
    let archive = SiteAction {
        relay: 0,
        action: 0,
    };
    let set = set_at(
        &site,
        class,
        &flows.lists,
        Executed::Every,
        at.relay,
        at.list,
    );
    let writes = must_write(&site, class, &flows, archive, at);
    let hops = hops_at(&site, class, &flows.every, Executed::Every, entry).len();
    let lists = lists_at(&site, class, &flows, entry).len();
    Some((has(set, 0), writes, hops, lists))
}

/// How many inputs messages of a class reach, without spare occurrences and with them, and from how many entries.
pub fn inputs_of_a_class(
    alloc: Global,
    site: &Site,
    class: Class,
) -> Result<(usize, usize, usize), AllocError> {
    let flows = flows_for(alloc, site, class)?;
    let found = reached(alloc, site, class, &flows)?;
    let firm = found.inputs;
    let every = reached_by_every(alloc, site, class, &flows, firm.as_slice())?;
    let leads = leads_of(alloc, site, class, &flows)?;
    Ok((firm.len(), every.len(), leads.len()))
}

/// The place of a class's walk, the first of all.
pub fn walk_of_a_class(alloc: Global, site: &Site, class: Class) -> Result<usize, AllocError> {
    let firm = firm_of(alloc, site)?;
    let mut walks = Vec::new(alloc);
    walk_for(alloc, site, class, &firm, &mut walks)
}
