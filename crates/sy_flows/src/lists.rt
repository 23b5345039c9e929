//! The lists of relays that are found from one list on, by following what messages of a class must execute.

ghost use Rattle.std.specs.Prelude.{[], ◌≡◌, ◌<◌, ◌++◌, ◌∷◌, Contains, IfOk, List, OnOk, Some, length, slice_get};
ghost use Rattle.std.specs.List.{list_any};
ghost use Rattle.sy_rules.specs.declared.lists.occurrence.Occurrence.{Occurrence as AnyOccurrence};
ghost use Rattle.sy_site.specs.machine.Reach.{MustDo, occurrence_at};
ghost use Rattle.sy_flows.specs.declared.lists.InnerList.{InnerList as AnyList};
ghost use Rattle.sy_flows.specs.Hops.{AreFlows};
ghost use Rattle.sy_flows.specs.Leads as spec;
ghost use Rattle.sy_flows.specs.internal.Leads.{HasMore};
ghost use Rattle.sy_flows.specs.internal.Marks.{AreListsMarked, list_place};

pub mod leads;

use crate::flows::executed::Executed;
use crate::flows::{ClassFlows, set_at};
use crate::lists::leads::lead_of;
use crate::marks::{is_marked, mark};
use crate::reach::inputs::next_in;
use std::alloc::{AllocError, Global};
use sy_site::Site;
use sy_wire::Class;

/// A list of a relay.
#[derive(Clone, Copy)]
pub struct InnerList {
    pub relay: u32,
    pub list: u32,
}

/// Where a list was found from: the place of an earlier one, and the occurrence that leads from there.
#[derive(Clone, Copy)]
pub struct ListOrigin {
    pub place: usize,
    pub number: u8,
}

/// Lists that were found, and of each where it was found from; none where the search started from it.
#[derive(Drop)]
pub struct FoundLists {
    pub lists: Vec<InnerList>,
    pub origins: Vec<Option<ListOrigin>>,
}

fn is_among(lists: &[InnerList], list: InnerList) -> bool
    ensures { result ≡ list_any (spec.same_list list) lists.now }
{
    lists
        .iter()
        .any(|l| list.relay == l.relay && list.list == l.list)
}

// The place of a list among marks.
fn place_of(list: InnerList) -> usize
    ensures { result ≡ list_place list }
{
    64 * list.list as usize + list.relay as usize
}

// Whether a list was found, of which the marks tell.
fn is_found(found: &FoundLists, marks: &[bool], list: InnerList) -> bool
    requires marked { AreListsMarked found.now.lists.items marks.now }
    ensures { result ≡ list_any (spec.same_list list) found.now.lists.items }
{
    if list.relay >= 64 {
        return is_among(found.lists.as_slice(), list);
    }
    is_marked(marks, place_of(list))
}

// Marks a list more.
fn mark_list(marks: &mut Vec<bool>, list: InnerList) -> Result<(), AllocError>
    ensures { OnOk result ((before : List AnyList) → AreListsMarked before marks.old.items
        → AreListsMarked (before ++ list ∷ []) marks.new.items) }
{
    if list.relay >= 64 {
        return Ok(());
    }
    mark(marks, place_of(list))?;
    Ok(())
}

// The list where a search starts.
fn begin(
    alloc: Global,
    site: &Site,
    class: Class,
    start: InnerList,
) -> Result<FoundLists, AllocError>
    requires there { spec.IsThere site.now start }
    ensures found { IfOk result (λ found. spec.AreFound site.now class start found.lists.items found.origins.items) }
    ensures lists { IfOk result (λ found. found.lists.items ≡ start ∷ []) }
{
    let _ = site;
    let _ = class;
    let mut lists = Vec::new(alloc);
    lists.push(start)?;
    let mut origins = Vec::new(alloc);
    origins.push(None)?;
    Ok(FoundLists { lists, origins })
}

// Puts a list behind the others, with where it was found from, where it isn't one of them.
fn add(
    site: &Site,
    class: Class,
    start: InnerList,
    list: InnerList,
    origin: ListOrigin,
    found: &mut FoundLists,
    marks: &mut Vec<bool>,
) -> Result<(), AllocError>
    requires marked { AreListsMarked found.old.lists.items marks.old.items }
    requires found { spec.AreFound site.now class start found.old.lists.items found.old.origins.items }
    requires there { spec.IsThere site.now list }
    requires origin { spec.IsListOrigin site.now class start found.old.lists.items (length found.old.lists.items) list (Some origin) }
    ensures found { OnOk result (spec.AreFound site.now class start found.new.lists.items found.new.origins.items) }
    ensures marked { OnOk result (AreListsMarked found.new.lists.items marks.new.items) }
    ensures more { OnOk result (HasMore found.old.lists.items found.new.lists.items) }
    ensures has { OnOk result (Contains found.new.lists.items list) }
{
    let _ = site;
    let _ = class;
    let _ = start;
    if is_found(found, marks.as_slice(), list) {
        return Ok(());
    }
    mark_list(marks, list)?;
    found.lists.push(list)?;
    found.origins.push(Some(origin))?;
    Ok(())
}

// Puts the list that an occurrence leads to, which must be executed and isn't spare, of the list at a place.
fn add_lead(
    site: &Site,
    class: Class,
    start: InnerList,
    from: InnerList,
    place: usize,
    number: u32,
    found: &mut FoundLists,
    marks: &mut Vec<bool>,
) -> Result<(), AllocError>
    requires marked { AreListsMarked found.old.lists.items marks.old.items }
    requires found { spec.AreFound site.now class start found.old.lists.items found.old.origins.items }
    requires stands { slice_get found.old.lists.items place ≡ Some from }
    requires there { spec.IsThere site.now from }
    requires small { number < 64 }
    requires does { (is : AnyOccurrence) → occurrence_at site.now from.relay from.list number ≡ Some is
        → MustDo site.now class from.relay from.list number is }
    ensures found { OnOk result (spec.AreFound site.now class start found.new.lists.items found.new.origins.items) }
    ensures marked { OnOk result (AreListsMarked found.new.lists.items marks.new.items) }
    ensures more { OnOk result (HasMore found.old.lists.items found.new.lists.items) }
    ensures led { OnOk result ((to : AnyList) → spec.MustLead site.now class from number to
        → Contains found.new.lists.items to) }
{
    site.is_lawful();
    match lead_of(site, from, number) {
        Some(to) => {
            let number = number as u8;
            let origin = ListOrigin { place, number };
            add(site, class, start, to, origin, found, marks)
        }
        None => Ok(()),
    }
}

// Puts all that is led to from the list at a place, by rising occurrences.
fn add_leads(
    site: &Site,
    class: Class,
    flows: &ClassFlows,
    start: InnerList,
    from: InnerList,
    place: usize,
    found: &mut FoundLists,
    marks: &mut Vec<bool>,
) -> Result<(), AllocError>
    requires marked { AreListsMarked found.old.lists.items marks.old.items }
    requires found { spec.AreFound site.now class start found.old.lists.items found.old.origins.items }
    requires stands { slice_get found.old.lists.items place ≡ Some from }
    requires there { spec.IsThere site.now from }
    requires flows { AreFlows site.now class flows.now }
    ensures found { OnOk result (spec.AreFound site.now class start found.new.lists.items found.new.origins.items) }
    ensures marked { OnOk result (AreListsMarked found.new.lists.items marks.new.items) }
    ensures more { OnOk result (HasMore found.old.lists.items found.new.lists.items) }
    ensures led { OnOk result (spec.IsLed site.now class found.new.lists.items from) }
{
    let must = set_at(
        site,
        class,
        &flows.lists,
        Executed::Must,
        from.relay,
        from.list,
    );
    let mut next = 0;
    while let Some(number) = next_in(must, next) {
        add_lead(site, class, start, from, place, number, found, marks)?;
        next = number + 1;
    }
    Ok(())
}

/// The lists that are found from one on by following what must be executed and isn't spare, in the order in which they
/// are found: what was found earlier is followed earlier, and by rising occurrences.
pub fn lists_from(
    alloc: Global,
    site: &Site,
    class: Class,
    flows: &ClassFlows,
    start: InnerList,
) -> Result<FoundLists, AllocError>
    requires there { spec.IsThere site.now start }
    requires flows { AreFlows site.now class flows.now }
    ensures { IfOk result (λ found. spec.AreAllFound site.now class start found.lists.items found.origins.items) }
{
    site.is_lawful();
    let mut found = begin(alloc, site, class, start)?;
    let mut marks = Vec::new(alloc);
    mark_list(&mut marks, start)?;
    let mut done = 0;
    while done < found.lists.len() {
        let from = found.lists[done];
        add_leads(
            site, class, flows, start, from, done, &mut found, &mut marks,
        )?;
        done += 1;
    }
    Ok(found)
}
