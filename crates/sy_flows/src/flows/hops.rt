//! Where the occurrences of lists lead messages of a class: to the input that a forward leads to, and of a post to all that
//! its list leads to.

ghost use Rattle.std.specs.Prelude.{[], ◌≡◌, ◌<◌, ◌≤◌, ◌==◌, ◌&&◌, ◌++◌, ◌∷◌, true, ℕ, Contains, Decides, IfOk, OnOk, Some, length};
ghost use Rattle.std.specs.List.{list_any};
ghost use Rattle.sy_site.specs.Sites.{plan_at};
ghost use Rattle.sy_site.specs.machine.Lawful.{IsInput};
ghost use Rattle.sy_site.specs.machine.Reach.{list_of, occurrence_at};
ghost use Rattle.sy_rules.specs.declared.lists.occurrence.Occurrence.{Occurrence as AnyOccurrence};
ghost use Rattle.sy_flows.specs.Flows.{AreSiteFlows, Does, is_used};
ghost use Rattle.sy_flows.specs.internal.Hops as spec;
ghost use Rattle.sy_flows.specs.Hops.{AreApart, AreFlows, AreHops, AreListHops, AreLists, AreRelayHops, AreSiteHops, is_input_list};
ghost use Rattle.sy_flows.specs.internal.Marks.{AreListed};
ghost use Rattle.sy_flows.specs.declared.flows.executed.Executed.TheVariants as executed;

use crate::flows::executed::Executed;
use crate::flows::{
    ClassFlows, Hop, ListHops, RelayHops, SiteFlows, SiteHops, is_input_list, set_at,
};
use crate::marks::{is_marked, mark};
use crate::reach::inputs::{list_at, next_in};
use std::alloc::{AllocError, Global};
use sy_rules::Occurrence;
use sy_rules::laws::plans_are_whole;
use sy_site::{Site, SiteInput};
use sy_wire::Class;

// What was found so far, and the lists that posts led to.
#[derive(Drop)]
struct Walked {
    hops: Vec<Hop>,
    lists: Vec<u32>,
    // of each list whether it is one of them
    marks: Vec<bool>,
}

// Whether one of these leads to an input.
fn is_there(hops: &[Hop], to: SiteInput) -> bool
    ensures { result ≡ list_any (λ hop. to.relay == hop.to.relay && to.input == hop.to.input) hops.now }
{
    hops.iter()
        .any(|hop| to.relay == hop.to.relay && to.input == hop.to.input)
}

// Whether a list was gone through.
fn is_walked(found: &Walked, list: u32) -> bool
    requires listed { AreListed found.now.lists.items found.now.marks.items }
    ensures { Decides result (Contains found.now.lists.items list) }
{
    is_marked(found.marks.as_slice(), list as usize)
}

// Puts a list behind those that were gone through, and marks it.
fn push_list(lists: &mut Vec<u32>, marks: &mut Vec<bool>, list: u32) -> Result<(), AllocError>
    requires listed { AreListed lists.old.items marks.old.items }
    ensures items { OnOk result (lists.new.items ≡ lists.old.items ++ list ∷ []) }
    ensures listed { OnOk result (AreListed lists.new.items marks.new.items) }
{
    mark(marks, list as usize)?;
    lists.push(list)?;
    Ok(())
}

// Puts that an occurrence leads to an input behind the others, where none of these leads there.
fn push_hop(hops: &mut Vec<Hop>, number: u32, to: SiteInput) -> Result<(), AllocError>
    ensures { OnOk result (spec.AddsHop number to hops.old.items hops.new.items) }
{
    if is_there(hops.as_slice(), to) {
        return Ok(());
    }
    hops.push(Hop { number, to })?;
    Ok(())
}

// The same of the input that an action leads to.
fn push_target(
    site: &Site,
    relay: u32,
    action: u32,
    number: u32,
    hops: &mut Vec<Hop>,
) -> Result<(), AllocError>
    requires relay { relay < length site.now.relays }
    ensures { OnOk result (spec.AddsTarget site.now relay action number hops.old.items hops.new.items) }
{
    match site.target(relay, action) {
        Some(to) => push_hop(hops, number, to),
        None => Ok(()),
    }
}

fn follows_posts(which: Executed) -> bool
    ensures { result ≡ spec.follows_posts which }
{
    match which {
        Executed::Every | Executed::Firm => true,
        Executed::Must => false,
    }
}

/// An occurrence of a list, by number.
pub fn occurrence_at(site: &Site, relay: u32, list: u32, at: u32) -> Option<Occurrence>
    requires relay { relay < length site.now.relays }
    requires there { list < length (plan_at site.now relay).lists }
    ensures { result ≡ occurrence_at site.now relay list at }
{
    site.plan(relay).occurrences(list).get(at as usize).copied()
}

// Goes through a list that a post leads to, if none before did: what its occurrences lead to, the occurrence of this
// number leads to of the list where the walk began.
#[cycle(walk)]
fn walk(
    site: &Site,
    class: Class,
    flows: &SiteFlows,
    which: Executed,
    relay: u32,
    list: u32,
    number: u32,
    found: &mut Walked,
) -> Result<(), AllocError>
    requires relay { relay < length site.now.relays }
    requires there { list < length (plan_at site.now relay).lists }
    requires used { is_used (plan_at site.now relay) list ≡ true }
    requires flows { AreSiteFlows site.now class flows.now }
    requires apart { AreApart (length (plan_at site.now relay).lists) found.old.lists.items }
    requires listed { AreListed found.old.lists.items found.old.marks.items }
    ensures grows { OnOk result (spec.WalksOn site.now class which relay found.old.hops.items found.old.lists.items
        found.new.hops.items found.new.lists.items) }
    ensures sound { (first : ℕ) → ((at : ℕ) → spec.LeadsAsWell site.now class which relay list at first number)
        → OnOk result (spec.AddsLeads site.now class which relay first number found.old.hops.items found.new.hops.items) }
    ensures posted { OnOk result (spec.AddsLists site.now class which relay list found.old.lists.items
        found.new.lists.items) }
    ensures done { OnOk result (Contains found.new.lists.items list) }
    ensures apart { OnOk result (AreApart (length (plan_at site.now relay).lists) found.new.lists.items) }
    ensures longer { OnOk result (length found.old.lists.items ≤ length found.new.lists.items) }
    ensures listed { OnOk result (AreListed found.new.lists.items found.new.marks.items) }
{
    if is_walked(found, list) {
        return Ok(());
    }
    push_list(&mut found.lists, &mut found.marks, list)?;
    let set = set_at(site, class, flows, which, relay, list);
    let mut next = 0;
    while let Some(at) = next_in(set, next) {
        follow(site, class, flows, which, relay, list, at, number, found)?;
        next = at + 1;
    }
    Ok(())
}

// Follows an occurrence of a list that is executed: what it leads to, the occurrence of this number leads to of the list
// where the walk began.
#[cycle(walk)]
fn follow(
    site: &Site,
    class: Class,
    flows: &SiteFlows,
    which: Executed,
    relay: u32,
    list: u32,
    at: u32,
    number: u32,
    found: &mut Walked,
) -> Result<(), AllocError>
    requires relay { relay < length site.now.relays }
    requires there { list < length (plan_at site.now relay).lists }
    requires does { (is : AnyOccurrence) → occurrence_at site.now relay list at ≡ Some is
        → Does site.now class which relay list at is }
    requires flows { AreSiteFlows site.now class flows.now }
    requires apart { AreApart (length (plan_at site.now relay).lists) found.old.lists.items }
    requires listed { AreListed found.old.lists.items found.old.marks.items }
    ensures grows { OnOk result (spec.WalksOn site.now class which relay found.old.hops.items found.old.lists.items
        found.new.hops.items found.new.lists.items) }
    ensures sound { (first : ℕ) → spec.LeadsAsWell site.now class which relay list at first number
        → OnOk result (spec.AddsLeads site.now class which relay first number found.old.hops.items found.new.hops.items) }
    ensures posted { OnOk result (spec.AddsPosted site.now class which relay list found.old.lists.items
        found.new.lists.items) }
    ensures followed { (is : AnyOccurrence) → occurrence_at site.now relay list at ≡ Some is
        → OnOk result (spec.IsFollowed site.now which relay found.new.hops.items found.new.lists.items is) }
    ensures apart { OnOk result (AreApart (length (plan_at site.now relay).lists) found.new.lists.items) }
    ensures longer { OnOk result (length found.old.lists.items ≤ length found.new.lists.items) }
    ensures listed { OnOk result (AreListed found.new.lists.items found.new.marks.items) }
{
    match occurrence_at(site, relay, list, at) {
        Some(it) => follow_one(
            site, class, flows, which, relay, list, at, it, number, found,
        ),
        None => Ok(()),
    }
}

// The same, where this is the occurrence.
#[cycle(walk)]
fn follow_one(
    site: &Site,
    class: Class,
    flows: &SiteFlows,
    which: Executed,
    relay: u32,
    list: u32,
    at: u32,
    is: Occurrence,
    number: u32,
    found: &mut Walked,
) -> Result<(), AllocError>
    requires relay { relay < length site.now.relays }
    requires stands { occurrence_at site.now relay list at ≡ Some is }
    requires does { Does site.now class which relay list at is }
    requires flows { AreSiteFlows site.now class flows.now }
    requires apart { AreApart (length (plan_at site.now relay).lists) found.old.lists.items }
    requires listed { AreListed found.old.lists.items found.old.marks.items }
    ensures grows { OnOk result (spec.WalksOn site.now class which relay found.old.hops.items found.old.lists.items
        found.new.hops.items found.new.lists.items) }
    ensures sound { (first : ℕ) → spec.LeadsAsWell site.now class which relay list at first number
        → OnOk result (spec.AddsLeads site.now class which relay first number found.old.hops.items found.new.hops.items) }
    ensures posted { OnOk result (spec.AddsPosted site.now class which relay list found.old.lists.items
        found.new.lists.items) }
    ensures followed { OnOk result
        (spec.IsFollowed site.now which relay found.new.hops.items found.new.lists.items is) }
    ensures apart { OnOk result (AreApart (length (plan_at site.now relay).lists) found.new.lists.items) }
    ensures longer { OnOk result (length found.old.lists.items ≤ length found.new.lists.items) }
    ensures listed { OnOk result (AreListed found.new.lists.items found.new.marks.items) }
{
    site.is_lawful();
    let _ = list;
    let _ = at;
    match is {
        Occurrence::Run(action) => push_target(site, relay, action, number, &mut found.hops),
        Occurrence::Post(inner) => {
            if !follows_posts(which) {
                return Ok(());
            }
            walk(site, class, flows, which, relay, inner, number, found)
        }
    }
}

fn nothing_walked(alloc: Global) -> Walked
    ensures hops { result.hops.items ≡ [] }
    ensures lists { result.lists.items ≡ [] }
    ensures listed { AreListed result.lists.items result.marks.items }
{
    Walked {
        hops: Vec::new(alloc),
        lists: Vec::new(alloc),
        marks: Vec::new(alloc),
    }
}

// Where the occurrences of a list lead that are executed.
fn hops_of(
    alloc: Global,
    site: &Site,
    class: Class,
    flows: &SiteFlows,
    which: Executed,
    relay: u32,
    list: u32,
) -> Result<ListHops, AllocError>
    requires relay { relay < length site.now.relays }
    requires there { list < length (plan_at site.now relay).lists }
    requires used { is_used (plan_at site.now relay) list ≡ true }
    requires flows { AreSiteFlows site.now class flows.now }
    ensures { IfOk result (AreListHops site.now class which relay list) }
{
    let mut found = nothing_walked(alloc);
    let set = set_at(site, class, flows, which, relay, list);
    let mut next = 0;
    while let Some(at) = next_in(set, next) {
        follow(site, class, flows, which, relay, list, at, at, &mut found)?;
        next = at + 1;
    }
    Ok(ListHops {
        hops: found.hops,
        lists: found.lists,
    })
}

// The same where an input has the list.
fn input_hops(
    alloc: Global,
    site: &Site,
    class: Class,
    flows: &SiteFlows,
    which: Executed,
    relay: u32,
    list: u32,
) -> Result<ListHops, AllocError>
    requires relay { relay < length site.now.relays }
    requires there { list < length (plan_at site.now relay).lists }
    requires flows { AreSiteFlows site.now class flows.now }
    ensures { IfOk result (λ found. is_input_list (plan_at site.now relay) list ≡ true
        → AreListHops site.now class which relay list found) }
{
    if !is_input_list(site.plan(relay).inputs(), list) {
        let (hops, lists) = (Vec::new(alloc), Vec::new(alloc));
        return Ok(ListHops { hops, lists });
    }
    let found = hops_of(alloc, site, class, flows, which, relay, list)?;
    Ok(found)
}

fn relay_hops(
    alloc: Global,
    site: &Site,
    class: Class,
    flows: &SiteFlows,
    which: Executed,
    relay: u32,
) -> Result<RelayHops, AllocError>
    requires relay { relay < length site.now.relays }
    requires flows { AreSiteFlows site.now class flows.now }
    ensures { IfOk result (λ hops. AreRelayHops site.now class which relay hops) }
{
    plans_are_whole(site.plan(relay));
    let many = site.plan(relay).list_names().len() as u32;
    let mut lists = Vec::with_capacity(alloc, many as usize)?;
    for list in 0..many {
        let found = input_hops(alloc, site, class, flows, which, relay, list)?;
        lists.push(found)?;
    }
    Ok(RelayHops { lists })
}

/// Where the occurrences of each list lead that are executed, of those lists that an input has. Each list is gone
/// through once for it: of a circle of posts nothing is found twice.
pub fn site_hops(
    alloc: Global,
    site: &Site,
    class: Class,
    flows: &SiteFlows,
    which: Executed,
) -> Result<SiteHops, AllocError>
    requires flows { AreSiteFlows site.now class flows.now }
    ensures { IfOk result (λ hops. AreSiteHops site.now class which hops) }
{
    let mut relays = Vec::with_capacity(alloc, site.relays() as usize)?;
    for relay in 0..site.relays() {
        let hops = relay_hops(alloc, site, class, flows, which, relay)?;
        relays.push(hops)?;
    }
    Ok(SiteHops { relays })
}

/// What a class executes of each list, with where that leads.
pub fn class_flows(
    alloc: Global,
    site: &Site,
    class: Class,
    lists: SiteFlows,
) -> Result<ClassFlows, AllocError>
    requires lists { AreSiteFlows site.now class lists }
    ensures lists { IfOk result (λ flows. flows.lists ≡ lists) }
    ensures flows { IfOk result (λ flows. AreFlows site.now class flows) }
{
    let every = site_hops(alloc, site, class, &lists, Executed::Every)?;
    let firm = site_hops(alloc, site, class, &lists, Executed::Firm)?;
    Ok(ClassFlows { lists, every, firm })
}

/// Where the occurrences of an input's list lead that are executed.
pub fn hops_at<'a>(
    site: &Site,
    class: Class,
    hops: &'a SiteHops,
    which: Executed,
    input: SiteInput,
) -> &'a [Hop]
    requires there { IsInput site.now input }
    requires hops { AreSiteHops site.now class which hops.now }
    ensures { AreHops site.now class which input.relay (list_of site.now input) result.now }
{
    let _ = class;
    let _ = which;
    let list = list_at(site, input);
    let relay = &hops.relays[input.relay as usize];
    relay.lists[list as usize].hops.as_slice()
}

/// The lists that posts lead to from an input's list, posts that may be executed and aren't spare: each once, in the order
/// in which they lead there.
pub fn lists_at<'a>(site: &Site, class: Class, flows: &'a ClassFlows, input: SiteInput) -> &'a [u32]
    requires there { IsInput site.now input }
    requires flows { AreFlows site.now class flows.now }
    ensures { AreLists site.now class executed.Firm input.relay (list_of site.now input) result.now }
{
    let _ = class;
    let list = list_at(site, input);
    let relay = &flows.firm.relays[input.relay as usize];
    relay.lists[list as usize].lists.as_slice()
}
