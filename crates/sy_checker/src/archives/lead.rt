//! Paths that are looked for: from an entry to an archive, by posts and forwards that must be executed and aren't spare.

ghost use Rattle.std.specs.List.{position};
ghost use Rattle.std.specs.Prelude.{◌≡◌, ◌<◌, Contains, IfOk, Some, length, slice_get};
ghost use Rattle.sy_site.specs.machine.Lawful.{IsInput};
ghost use Rattle.sy_flows.specs.declared.lists.InnerList.{InnerList as AnyList};
ghost use Rattle.sy_flows.specs.Hops.{AreFlows};
ghost use Rattle.sy_flows.specs.Members.{same_input};
ghost use Rattle.sy_flows.specs.Leads as spec;
ghost use Rattle.sy_checker.specs.internal.Leads.{IsLead, IsWayBetween, IsWriting};

use std::alloc::{AllocError, Global};
use sy_flows::{ClassFlows, FoundLists, InnerList, list_of, must_write};
use sy_script::Items;
use sy_site::{Site, SiteAction, SiteInput};
use sy_wire::Class;

// The first of lists in which an archive must be written, by its place.
fn first_writing(
    site: &Site,
    class: Class,
    flows: &ClassFlows,
    archive: SiteAction,
    lists: &[InnerList],
) -> Option<usize>
    requires there { (x : AnyList) → Contains lists.now x → spec.IsThere site.now x }
    requires flows { AreFlows site.now class flows.now }
    ensures { IsWriting site.now class archive lists.now result }
{
    for place in 0..lists.len() {
        if must_write(site, class, flows, archive, lists[place]) {
            return Some(place);
        }
    }
    None
}

// The occurrences by which the list at a place was found, from where the search started.
fn way_to(
    alloc: Global,
    site: &Site,
    class: Class,
    start: InnerList,
    found: &FoundLists,
    place: usize,
) -> Result<Items<u8>, AllocError>
    requires found { spec.AreFound site.now class start found.now.lists.items found.now.origins.items }
    requires within { place < length found.now.lists.items }
    ensures { IfOk result (λ way. (end : AnyList) → slice_get found.now.lists.items place ≡ Some end
        → IsWayBetween site.now class start way end) }
{
    let _ = site;
    let _ = class;
    let _ = start;
    let mut back = Vec::new(alloc);
    let mut at = place;
    while let Some(origin) = found.origins[at] {
        back.push(origin.number)?;
        at = origin.place;
    }
    back.reverse();
    Items::from_slice(alloc, back.as_slice())
}

// The path from an entry to the first list in which an archive must be written, of what is found from that entry.
fn lead_among(
    alloc: Global,
    site: &Site,
    class: Class,
    flows: &ClassFlows,
    archive: SiteAction,
    entry: SiteInput,
    found: &FoundLists,
) -> Result<Option<Items<u8>>, AllocError>
    requires there { IsInput site.now entry }
    requires found { spec.AreAllFound site.now class (spec.list_at site.now entry) found.now.lists.items found.now.origins.items }
    requires flows { AreFlows site.now class flows.now }
    ensures { IfOk result (λ path. IsLead site.now class archive entry path) }
{
    match first_writing(site, class, flows, archive, found.lists.as_slice()) {
        Some(place) => {
            let path = way_to(alloc, site, class, list_of(site, entry), found, place)?;
            Ok(Some(path))
        }
        None => Ok(None),
    }
}

fn place_of(inputs: &[SiteInput], input: SiteInput) -> Option<usize>
    ensures { result ≡ position (same_input input) inputs.now }
{
    inputs
        .iter()
        .position(|i| input.relay == i.relay && input.input == i.input)
}

/// A shortest path from an entry to an archive, with the smallest occurrences first.
pub fn lead(
    alloc: Global,
    site: &Site,
    class: Class,
    flows: &ClassFlows,
    leads: &[FoundLists],
    archive: SiteAction,
    entry: SiteInput,
) -> Result<Option<Items<u8>>, AllocError>
    requires entry { Contains site.now.entries entry }
    requires flows { AreFlows site.now class flows.now }
    requires leads { spec.AreLeads site.now class leads.now }
    ensures { IfOk result (λ path. IsLead site.now class archive entry path) }
{
    site.is_lawful();
    match place_of(site.entries(), entry) {
        Some(place) => lead_among(alloc, site, class, flows, archive, entry, &leads[place]),
        None => unreachable!(),
    }
}
