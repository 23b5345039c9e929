//! The inputs that are found by following occurrences, and those that messages of a class reach.

ghost use Rattle.std.specs.Prelude.{[], ◌≡◌, ◌<◌, ◌↔◌, ◌++◌, ◌∷◌, Contains, IfOk, List, OnOk, Some, length, slice_get};
ghost use Rattle.std.specs.List.{list_any};
ghost use Rattle.sy_wire.specs.declared.class.Class.{Class as AnyClass};
ghost use Rattle.sy_site.specs.Sites.{Site as AnySite};
ghost use Rattle.sy_site.specs.declared.site.SiteInput.{SiteInput as AnyInput};
ghost use Rattle.sy_site.specs.machine.Lawful.{IsInput};
ghost use Rattle.sy_board.specs.relay.Spares.{Scope};
ghost use Rattle.sy_site.specs.machine.Reach.{Reach};
ghost use Rattle.sy_flows.specs.declared.flows.executed.Executed.{Executed as AnyExecuted};
ghost use Rattle.sy_flows.specs.declared.flows.executed.Executed.TheVariants as executed;
ghost use Rattle.sy_flows.specs.Hops.{AreFlows, AreSiteHops};
ghost use Rattle.sy_flows.specs.internal.Found.{Adds};
ghost use Rattle.sy_flows.specs.Members.{same_input};
ghost use Rattle.sy_flows.specs.internal.Marks.{AreMarked, place_of};
ghost use Rattle.sy_flows.specs.Search.{IsOrigin, IsSpread, LeadsOn};
ghost use Rattle.sy_flows.specs.internal.Search.{KeepsRoots};

pub mod inputs;

use crate::flows::executed::Executed;
use crate::flows::hops::hops_at;
use crate::flows::{ClassFlows, SiteHops};
use crate::marks::{is_marked, mark};
use std::alloc::{AllocError, Global};
use sy_site::finding::WayRow;
use sy_site::{Site, SiteInput};
use sy_wire::Class;

/// Where an input was found from: the place of an earlier one, and the row of a way from there.
#[derive(Clone, Copy)]
pub struct Origin {
    pub place: usize,
    pub row: WayRow,
}

/// Inputs that were found, and of each where it was found from; none where the search started from it.
#[derive(Drop)]
pub struct Found {
    pub inputs: Vec<SiteInput>,
    pub origins: Vec<Option<Origin>>,
}

/// Whether an input is one of these.
pub fn is_among(inputs: &[SiteInput], input: SiteInput) -> bool
    ensures { result ≡ list_any (same_input input) inputs.now }
{
    inputs
        .iter()
        .any(|i| input.relay == i.relay && input.input == i.input)
}

// The place of an input among marks.
fn place_of(input: SiteInput) -> usize
    ensures { result ≡ place_of input }
{
    64 * input.relay as usize + input.input as usize
}

// Whether an input was found, of which the marks tell.
fn is_found(found: &Found, marks: &[bool], input: SiteInput) -> bool
    requires marked { AreMarked found.now.inputs.items marks.now }
    ensures { result ≡ list_any (same_input input) found.now.inputs.items }
{
    if input.input >= 64 {
        return is_among(found.inputs.as_slice(), input);
    }
    is_marked(marks, place_of(input))
}

// Marks an input more.
fn mark_input(marks: &mut Vec<bool>, input: SiteInput) -> Result<(), AllocError>
    ensures { OnOk result ((before : List AnyInput) → AreMarked before marks.old.items
        → AreMarked (before ++ input ∷ []) marks.new.items) }
{
    if input.input >= 64 {
        return Ok(());
    }
    mark(marks, place_of(input))?;
    Ok(())
}

// Puts an input behind the others, with where it was found from, where it isn't one of them.
fn add(
    found: &mut Found,
    marks: &mut Vec<bool>,
    input: SiteInput,
    origin: Option<Origin>,
) -> Result<(), AllocError>
    requires marked { AreMarked found.old.inputs.items marks.old.items }
    ensures marked { OnOk result (AreMarked found.new.inputs.items marks.new.items) }
    ensures inputs { OnOk result (Adds (λ x. x ≡ input) found.old.inputs.items found.new.inputs.items) }
    ensures roots { (site : AnySite) (class : AnyClass) (which : AnyExecuted) (start : List AnyInput)
        → IsOrigin site class which start found.old.inputs.items (length found.old.inputs.items) input origin
        → OnOk result (KeepsRoots site class which start found.old.inputs.items found.old.origins.items
        found.new.inputs.items found.new.origins.items) }
{
    if is_found(found, marks.as_slice(), input) {
        return Ok(());
    }
    mark_input(marks, input)?;
    found.inputs.push(input)?;
    found.origins.push(origin)?;
    Ok(())
}

fn add_all(start: &[SiteInput], found: &mut Found, marks: &mut Vec<bool>) -> Result<(), AllocError>
    requires marked { AreMarked found.old.inputs.items marks.old.items }
    ensures marked { OnOk result (AreMarked found.new.inputs.items marks.new.items) }
    ensures inputs { OnOk result (Adds (Contains start.now) found.old.inputs.items found.new.inputs.items) }
    ensures roots { (site : AnySite) (class : AnyClass) (which : AnyExecuted)
        → OnOk result (KeepsRoots site class which start.now found.old.inputs.items found.old.origins.items
        found.new.inputs.items found.new.origins.items) }
{
    for input in start {
        add(found, marks, *input, None)?;
    }
    Ok(())
}

// Puts what the occurrences lead to that are followed from the input at a place.
fn add_targets(
    site: &Site,
    class: Class,
    hops: &SiteHops,
    which: Executed,
    from: SiteInput,
    place: usize,
    found: &mut Found,
    marks: &mut Vec<bool>,
) -> Result<(), AllocError>
    requires there { IsInput site.now from }
    requires hops { AreSiteHops site.now class which hops.now }
    requires marked { AreMarked found.old.inputs.items marks.old.items }
    ensures marked { OnOk result (AreMarked found.new.inputs.items marks.new.items) }
    ensures inputs { OnOk result
        (Adds (LeadsOn site.now class which from) found.old.inputs.items found.new.inputs.items) }
    ensures roots { (start : List AnyInput) → slice_get found.old.inputs.items place ≡ Some from
        → OnOk result (KeepsRoots site.now class which start found.old.inputs.items found.old.origins.items
        found.new.inputs.items found.new.origins.items) }
{
    let own = hops_at(site, class, hops, which, from);
    for hop in own {
        let row = WayRow {
            input: from,
            number: hop.number,
        };
        add(found, marks, hop.to, Some(Origin { place, row }))?;
    }
    Ok(())
}

fn nothing_found(alloc: Global) -> Found
    ensures inputs { result.inputs.items ≡ [] }
    ensures origins { result.origins.items ≡ [] }
{
    Found {
        inputs: Vec::new(alloc),
        origins: Vec::new(alloc),
    }
}

/// The inputs that are found from some by following occurrences, in the order in which they are found: what was found
/// earlier is followed earlier, and by rising occurrences.
pub fn spread(
    alloc: Global,
    site: &Site,
    class: Class,
    hops: &SiteHops,
    which: Executed,
    start: &[SiteInput],
) -> Result<Found, AllocError>
    requires there { (x : AnyInput) → Contains start.now x → IsInput site.now x }
    requires hops { AreSiteHops site.now class which hops.now }
    ensures { IfOk result
        (λ found. IsSpread site.now class which start.now found.inputs.items found.origins.items) }
{
    site.is_lawful();
    let mut found = nothing_found(alloc);
    let mut marks = Vec::new(alloc);
    add_all(start, &mut found, &mut marks)?;
    let mut done = 0;
    while done < found.inputs.len() {
        let from = found.inputs[done];
        add_targets(site, class, hops, which, from, done, &mut found, &mut marks)?;
        done += 1;
    }
    Ok(found)
}

/// The inputs that messages of a class reach without spare occurrences, in the order in which they are found.
pub fn reached(
    alloc: Global,
    site: &Site,
    class: Class,
    flows: &ClassFlows,
) -> Result<Found, AllocError>
    requires flows { AreFlows site.now class flows.now }
    ensures spread { IfOk result (λ found. IsSpread site.now class executed.Firm site.now.entries
        found.inputs.items found.origins.items) }
    ensures reached { IfOk result
        (λ found. (x : AnyInput) → Contains found.inputs.items x ↔ Reach site.now class Scope.Firm x) }
{
    site.is_lawful();
    let found = spread(
        alloc,
        site,
        class,
        &flows.firm,
        Executed::Firm,
        site.entries(),
    )?;
    Ok(found)
}

// The same by spare occurrences too.
fn spread_every(
    alloc: Global,
    site: &Site,
    class: Class,
    flows: &ClassFlows,
) -> Result<Vec<SiteInput>, AllocError>
    requires flows { AreFlows site.now class flows.now }
    ensures { IfOk result (λ found. (x : AnyInput) → Contains found.items x ↔ Reach site.now class Scope.Every x) }
{
    site.is_lawful();
    let found = spread(
        alloc,
        site,
        class,
        &flows.every,
        Executed::Every,
        site.entries(),
    )?;
    Ok(found.inputs)
}

fn copy(alloc: Global, inputs: &[SiteInput]) -> Result<Vec<SiteInput>, AllocError>
    ensures { IfOk result (λ copied. copied.items ≡ inputs.now) }
{
    let mut copied = Vec::with_capacity(alloc, inputs.len())?;
    for input in inputs {
        copied.push(*input)?;
    }
    Ok(copied)
}

/// The inputs that they reach by spare occurrences too, in the order in which they are found. Where nothing is spare they
/// are those that are reached without.
pub fn reached_by_every(
    alloc: Global,
    site: &Site,
    class: Class,
    flows: &ClassFlows,
    firm: &[SiteInput],
) -> Result<Vec<SiteInput>, AllocError>
    requires flows { AreFlows site.now class flows.now }
    requires firm { (x : AnyInput) → Contains firm.now x ↔ Reach site.now class Scope.Firm x }
    ensures { IfOk result (λ found. (x : AnyInput) → Contains found.items x ↔ Reach site.now class Scope.Every x) }
{
    if site.spares().is_empty() {
        return copy(alloc, firm);
    }
    spread_every(alloc, site, class, flows)
}
