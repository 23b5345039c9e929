//! Numbers of the lists of all relays for a class, from each input that it reaches.

ghost use Rattle.std.specs.Prelude.{◌≡◌, ◌↔◌, Contains, IfErr, IfOk, OnOk, length};
ghost use Rattle.sy_site.specs.declared.site.SiteInput.{SiteInput as AnyInput};
ghost use Rattle.sy_site.specs.machine.Lawful.{IsInput};
ghost use Rattle.sy_site.specs.machine.Reach.{Reach};
ghost use Rattle.sy_board.specs.relay.Spares.{Scope};
ghost use Rattle.sy_flows.specs.Flows.{AreEach};
ghost use Rattle.sy_flows.specs.Hops.{AreFlows};
ghost use Rattle.sy_checker.specs.internal.Inner as spec;

use crate::inner::{Halt, RelayNumbers, Unnumbered, number_lists};
use std::alloc::{AllocError, Global};
use sy_flows::ClassFlows;
use sy_site::{Site, SiteInput};
use sy_wire::Class;

// Goes through the lists that are followed from an input, with the numbers of its relay.
fn number_relay(
    alloc: Global,
    site: &Site,
    class: Class,
    flows: &ClassFlows,
    input: SiteInput,
    own: &mut RelayNumbers,
) -> Result<(), Halt>
    requires there { IsInput site.now input }
    requires flows { AreFlows site.now class flows.now }
    requires done { spec.AreDone site.now class input.relay own.old.lists.items }
    ensures done { OnOk result (spec.AreDone site.now class input.relay own.new.lists.items) }
    ensures kept { OnOk result (spec.KeepsDone own.old.lists.items own.new.lists.items) }
    ensures posted { OnOk result (spec.AreAllDone site.now class input own.new.lists.items) }
    ensures halted { IfErr result (spec.IsHalted site.now class input) }
{
    number_lists(alloc, site, class, flows, input, &mut own.lists)
}

// The same with the numbers of all relays.
fn number_input(
    alloc: Global,
    site: &Site,
    class: Class,
    flows: &ClassFlows,
    input: SiteInput,
    numbers: &mut Vec<RelayNumbers>,
) -> Result<(), Halt>
    requires there { IsInput site.now input }
    requires flows { AreFlows site.now class flows.now }
    requires done { spec.AreNumbered site.now class numbers.old.items }
    ensures done { OnOk result (spec.AreNumbered site.now class numbers.new.items) }
    ensures kept { OnOk result (spec.KeepsNumbers numbers.old.items numbers.new.items) }
    ensures posted { OnOk result (spec.HasNumbers site.now class numbers.new.items input) }
    ensures halted { IfErr result (spec.IsHalted site.now class input) }
{
    number_relay(
        alloc,
        site,
        class,
        flows,
        input,
        &mut numbers[input.relay as usize],
    )
}

fn nothing_numbered(alloc: Global, site: &Site) -> Result<Vec<RelayNumbers>, AllocError>
    ensures { IfOk result (λ numbers. AreEach spec.HasNone (length site.now.relays) numbers.items) }
{
    let mut numbers = Vec::with_capacity(alloc, site.relays() as usize)?;
    for relay in 0..site.relays() {
        let _ = relay;
        let lists = Vec::new(alloc);
        numbers.push(RelayNumbers { lists })?;
    }
    Ok(numbers)
}

// Why there are no numbers where the search from the input at a place ended so.
fn ended(halt: Halt, place: usize) -> Unnumbered
    ensures { result ≡ spec.ended_so halt place }
{
    match halt {
        Halt::Loop => Unnumbered::Loop(place),
        Halt::NoMemory => Unnumbered::NoMemory,
    }
}

// Puts the numbers of the lists that posts lead to from each of some inputs.
fn number_inputs(
    alloc: Global,
    site: &Site,
    class: Class,
    flows: &ClassFlows,
    inputs: &[SiteInput],
    numbers: &mut Vec<RelayNumbers>,
) -> Result<(), Unnumbered>
    requires there { (x : AnyInput) → Contains inputs.now x → IsInput site.now x }
    requires flows { AreFlows site.now class flows.now }
    requires done { spec.AreNumbered site.now class numbers.old.items }
    ensures done { OnOk result (spec.AreNumbered site.now class numbers.new.items) }
    ensures all { OnOk result ((x : AnyInput) → Contains inputs.now x
        → spec.HasNumbers site.now class numbers.new.items x) }
    ensures none { IfErr result (spec.HasNoNumbers site.now class inputs.now) }
{
    for place in 0..inputs.len() {
        if let Err(halt) = number_input(alloc, site, class, flows, inputs[place], numbers) {
            return Err(ended(halt, place));
        }
    }
    Ok(())
}

/// The numbers of lists, by relay: of each list that posts lead to from one of these inputs, posts that may be executed
/// and aren't spare, how many of them may follow one another from it, at most. Where from an input on a list is met twice,
/// the first of these inputs where one is.
pub fn numbers_of(
    alloc: Global,
    site: &Site,
    class: Class,
    flows: &ClassFlows,
    inputs: &[SiteInput],
) -> Result<Vec<RelayNumbers>, Unnumbered>
    requires there { (x : AnyInput) → Contains inputs.now x → IsInput site.now x }
    requires reached { (x : AnyInput) → Contains inputs.now x ↔ Reach site.now class Scope.Firm x }
    requires flows { AreFlows site.now class flows.now }
    ensures numbers { IfOk result (λ numbers. spec.AreNumbers site.now class (spec.number_at numbers.items)) }
    ensures most { IfOk result (λ numbers. spec.AreGreatest site.now class (spec.number_at numbers.items)) }
    ensures none { IfErr result (spec.HasNoNumbers site.now class inputs.now) }
{
    let mut numbers = nothing_numbered(alloc, site)?;
    number_inputs(alloc, site, class, flows, inputs, &mut numbers)?;
    Ok(numbers)
}
