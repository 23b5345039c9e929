//! The lists that messages come to, class by class.

ghost use Rattle.std.specs.Prelude.{◌≡◌, ◌<◌, ◌+◌, ◌*◌, ℕ, Contains, Decides, IfOk, OnOk, length};
ghost use Rattle.sy_site.specs.Sites.{is_protected, plan_at};
ghost use Rattle.sy_site.specs.machine.Lawful.{IsInput};
ghost use Rattle.sy_site.specs.declared.site.SiteInput.{SiteInput as AnyInput};
ghost use Rattle.sy_warnings.specs.declared.following.SiteList.{SiteList as AnyList};
ghost use Rattle.sy_warnings.specs.Following as spec;
ghost use Rattle.sy_warnings.specs.internal.Following as inside;

use crate::following::{Following, SiteList, lead_of, list_at};
use std::alloc::{AllocError, Global};
use sy_rules::Plan;
use sy_rules::laws::plans_are_whole;
use sy_site::{Site, SiteInput};
use sy_wire::Class;

/// The lists that messages of a class come to, marked among all.
#[derive(Drop)]
pub struct ClassLists {
    pub class: Class,
    pub marks: Vec<bool>,
}

// Lists that are found, one after another, and marked among all.
#[derive(Drop)]
struct Found {
    lists: Vec<SiteList>,
    marks: Vec<bool>,
}

/// How many lists may be marked: 513 of each of 64 relays.
const LISTS: usize = 32832;

/// How many classes there are.
const CLASSES: u8 = 192;

// ---- marks

// Where a list is marked.
fn mark_of(at: SiteList) -> usize
    ensures { result ≡ inside.mark_of at }
{
    513 * (at.relay as usize) + (at.list as usize)
}

// Whether a list is marked.
fn is_marked(marks: &[bool], at: SiteList) -> bool
    ensures { Decides result (inside.IsMarked marks.now at) }
{
    match marks.get(mark_of(at)) {
        Some(is) => *is,
        None => false,
    }
}

/// Whether messages of the class come to a list.
pub fn comes(site: &Site, by: Following, lists: &ClassLists, at: SiteList) -> bool
    requires marks { inside.AreMarks site.now lists.now.class by lists.now.marks.items }
    requires there { inside.IsThere site.now at }
    ensures { Decides result (spec.Comes site.now lists.now.class by at) }
{
    let _ = site;
    let _ = by;
    is_marked(lists.marks.as_slice(), at)
}

// ---- the search

fn nothing_found(
    alloc: Global,
    site: &Site,
    class: Class,
    by: Following,
) -> Result<Found, AllocError>
    ensures { IfOk result (λ found. inside.AreFound site.now class by found.lists.items found.marks.items) }
{
    site.is_lawful();
    let _ = class;
    let _ = by;
    Ok(Found {
        lists: Vec::new(alloc),
        marks: vec![in alloc; false; LISTS]?,
    })
}

// Puts a list to which messages of the class come behind the others, where it isn't one of them.
fn add(
    site: &Site,
    class: Class,
    by: Following,
    at: SiteList,
    found: &mut Found,
) -> Result<(), AllocError>
    requires found { inside.AreFound site.now class by found.old.lists.items found.old.marks.items }
    requires there { inside.IsThere site.now at }
    requires comes { spec.Comes site.now class by at }
    ensures found { OnOk result (inside.AreFound site.now class by found.new.lists.items found.new.marks.items) }
    ensures more { OnOk result (inside.HasMore found.old.lists.items found.new.lists.items) }
    ensures has { OnOk result (Contains found.new.lists.items at) }
{
    site.is_lawful();
    let _ = class;
    let _ = by;
    if is_marked(found.marks.as_slice(), at) {
        return Ok(());
    }
    found.lists.push(at)?;
    found.marks[mark_of(at)] = true;
    Ok(())
}

// Puts the list that an occurrence leads on to.
fn add_lead(
    site: &Site,
    class: Class,
    by: Following,
    from: SiteList,
    number: u32,
    found: &mut Found,
) -> Result<(), AllocError>
    requires found { inside.AreFound site.now class by found.old.lists.items found.old.marks.items }
    requires there { inside.IsThere site.now from }
    requires comes { spec.Comes site.now class by from }
    ensures found { OnOk result (inside.AreFound site.now class by found.new.lists.items found.new.marks.items) }
    ensures more { OnOk result (inside.HasMore found.old.lists.items found.new.lists.items) }
    ensures led { OnOk result ((to : AnyList) → spec.Leads site.now class by from number to
        → Contains found.new.lists.items to) }
{
    site.is_lawful();
    match lead_of(site, class, by, from, number) {
        Some(to) => add(site, class, by, to, found),
        None => Ok(()),
    }
}

// Puts the lists that a list leads on to.
fn add_leads(
    site: &Site,
    class: Class,
    by: Following,
    from: SiteList,
    found: &mut Found,
) -> Result<(), AllocError>
    requires found { inside.AreFound site.now class by found.old.lists.items found.old.marks.items }
    requires there { inside.IsThere site.now from }
    requires comes { spec.Comes site.now class by from }
    ensures found { OnOk result (inside.AreFound site.now class by found.new.lists.items found.new.marks.items) }
    ensures more { OnOk result (inside.HasMore found.old.lists.items found.new.lists.items) }
    ensures led { OnOk result (inside.IsLed site.now class by found.new.lists.items from) }
{
    site.is_lawful();
    for number in 0..64 {
        add_lead(site, class, by, from, number, found)?;
    }
    Ok(())
}

// Puts the lists of some inputs where messages start.
fn add_inputs(
    site: &Site,
    class: Class,
    by: Following,
    inputs: &[SiteInput],
    found: &mut Found,
) -> Result<(), AllocError>
    requires found { inside.AreFound site.now class by found.old.lists.items found.old.marks.items }
    requires there { (x : AnyInput) → Contains inputs.now x → IsInput site.now x }
    requires starts { (x : AnyInput) → Contains inputs.now x → spec.IsStart site.now by x }
    ensures found { OnOk result (inside.AreFound site.now class by found.new.lists.items found.new.marks.items) }
    ensures has { OnOk result ((x : AnyInput) → Contains inputs.now x → Contains found.new.lists.items (spec.list_at site.now x)) }
{
    for input in inputs {
        add(site, class, by, list_at(site, *input), found)?;
    }
    Ok(())
}

// Finds the lists that the first so many lead on to, until each was looked at.
fn find_all(
    site: &Site,
    class: Class,
    by: Following,
    starts: &[SiteInput],
    found: &mut Found,
) -> Result<(), AllocError>
    requires found { inside.AreFound site.now class by found.old.lists.items found.old.marks.items }
    requires starts { (x : AnyInput) → spec.IsStart site.now by x
        → Contains found.old.lists.items (spec.list_at site.now x) }
    ensures { OnOk result (inside.AreMarks site.now class by found.new.marks.items) }
{
    site.is_lawful();
    let _ = starts;
    for done in 0..LISTS {
        if done >= found.lists.len() {
            return Ok(());
        }
        let from = found.lists[done];
        add_leads(site, class, by, from, found)?;
    }
    Ok(())
}

// The lists that messages of a class come to, where these are the inputs where they start.
fn lists_of(
    alloc: Global,
    site: &Site,
    class: Class,
    by: Following,
    starts: &[SiteInput],
) -> Result<ClassLists, AllocError>
    requires starts { inside.AreStarts site.now by starts.now }
    ensures class { IfOk result (λ lists. lists.class ≡ class) }
    ensures marks { IfOk result (λ lists. inside.AreMarks site.now class by lists.marks.items) }
{
    let mut found = nothing_found(alloc, site, class, by)?;
    add_inputs(site, class, by, starts, &mut found)?;
    find_all(site, class, by, starts, &mut found)?;
    Ok(ClassLists {
        class,
        marks: found.marks,
    })
}

// ---- where messages start

// How many inputs a relay has.
fn inputs_of(site: &Site, relay: u32) -> u32
    requires relay { relay < length site.now.relays }
    ensures { result ≡ length (plan_at site.now relay).inputs }
{
    let plan: &Plan = site.plan(relay);
    plans_are_whole(plan);
    plan.inputs().len() as u32
}

fn push_inputs(site: &Site, relay: u32, found: &mut Vec<SiteInput>) -> Result<(), AllocError>
    requires relay { relay < length site.now.relays }
    ensures { OnOk result (inside.AreInputsBelow site.now relay found.old.items
        → inside.AreInputsBelow site.now (relay + 1) found.new.items) }
{
    for input in 0..inputs_of(site, relay) {
        found.push(SiteInput { relay, input })?;
    }
    Ok(())
}

// The inputs of all relays.
fn every_input(alloc: Global, site: &Site) -> Result<Vec<SiteInput>, AllocError>
    ensures { IfOk result (λ found. inside.AreStarts site.now Following.Every found.items) }
{
    let mut found = Vec::new(alloc);
    for relay in 0..site.relays() {
        push_inputs(site, relay, &mut found)?;
    }
    Ok(found)
}

fn copy(alloc: Global, inputs: &[SiteInput]) -> Result<Vec<SiteInput>, AllocError>
    ensures { IfOk result (λ copied. copied.items ≡ inputs.now) }
{
    let mut copied = Vec::with_capacity(alloc, inputs.len())?;
    for input in inputs {
        copied.push(*input)?;
    }
    Ok(copied)
}

fn entries(alloc: Global, site: &Site) -> Result<Vec<SiteInput>, AllocError>
    ensures { IfOk result (λ found. inside.AreStarts site.now Following.Firm found.items) }
{
    site.is_lawful();
    let found = copy(alloc, site.entries())?;
    Ok(found)
}

fn starts_of(alloc: Global, site: &Site, by: Following) -> Result<Vec<SiteInput>, AllocError>
    ensures { IfOk result (λ found. inside.AreStarts site.now by found.items) }
{
    match by {
        Following::Firm => entries(alloc, site),
        Following::Every => every_input(alloc, site),
    }
}

// ---- class by class

/// Whether a class is protected.
pub fn is_protected(site: &Site, class: Class) -> bool
    ensures { result ≡ is_protected site.now class }
{
    site.protections().iter().any(|p| p.selector.matches(class))
}

fn is_asked(site: &Site, by: Following, class: Class) -> bool
    ensures { Decides result (spec.IsAsked site.now by class) }
{
    match by {
        Following::Firm => is_protected(site, class),
        Following::Every => true,
    }
}

// Puts the lists of the class of a number behind the others, where it is asked for.
fn push_class(
    alloc: Global,
    site: &Site,
    by: Following,
    starts: &[SiteInput],
    number: u8,
    all: &mut Vec<ClassLists>,
) -> Result<(), AllocError>
    requires small { number < 192 }
    requires starts { inside.AreStarts site.now by starts.now }
    ensures { OnOk result (inside.AreOfAllBelow site.now by number all.old.items
        → inside.AreOfAllBelow site.now by (number + 1) all.new.items) }
{
    let class = Class::of_number(number);
    if is_asked(site, by, class) {
        let lists = lists_of(alloc, site, class, by, starts)?;
        all.push(lists)?;
    }
    Ok(())
}

/// The lists that messages come to, of each class that is asked for.
pub fn all_lists(alloc: Global, site: &Site, by: Following) -> Result<Vec<ClassLists>, AllocError>
    ensures { IfOk result (λ all. inside.AreOfAll site.now by all.items) }
{
    let starts = starts_of(alloc, site, by)?;
    let mut all = Vec::new(alloc);
    for number in 0..CLASSES {
        push_class(alloc, site, by, starts.as_slice(), number, &mut all)?;
    }
    Ok(all)
}
