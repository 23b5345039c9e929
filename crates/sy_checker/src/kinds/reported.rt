//! What is told of the inputs that a class reaches: each kind at each of them.

ghost use Rattle.std.specs.Prelude.{◌≡◌, Contains, Decides, IfOk, OnOk, true};
ghost use Rattle.sy_site.specs.Sites as sites;
ghost use Rattle.sy_site.specs.declared.site.SiteInput.{SiteInput as AnyInput};
ghost use Rattle.sy_site.specs.machine.Findings.{HoldsAt};
ghost use Rattle.sy_site.specs.machine.Lawful.{IsInput};
ghost use Rattle.sy_board.specs.relay.Spares.{Scope};
ghost use Rattle.sy_site.specs.machine.Reach.{Reach};
ghost use Rattle.sy_site.specs.Finding.{kind_of};
ghost use Rattle.sy_flows.specs.Hops.{AreFlows};
ghost use Rattle.sy_checker.specs.internal.Survey as spec;
ghost use Rattle.sy_site.specs.declared.finding.Kind.TheVariants as kinds;

use crate::inner::meets_again;
use crate::kinds::groups::{Gathered, push_found};
use std::alloc::{AllocError, Global};
use sy_fit::{Risk, is_mark_above_size, is_mark_off, is_not_full, may_discard, may_risk};
use sy_flows::ClassFlows;
use sy_site::finding::Kind;
use sy_site::{Site, SiteInput};
use sy_wire::Class;

// Whether a kind holds at an input, of the kinds 1 to 7 and 10.
fn holds(
    alloc: Global,
    site: &Site,
    class: Class,
    flows: &ClassFlows,
    input: SiteInput,
    kind: Kind,
) -> Result<bool, AllocError>
    requires there { IsInput site.now input }
    requires flows { AreFlows site.now class flows.now }
    ensures { IfOk result (λ holds. Decides holds (HoldsAt site.now class input (kind_of kind))) }
{
    match kind {
        Kind::NotFull => Ok(is_not_full(site, class, input)),
        Kind::MarkOff => Ok(is_mark_off(site, class, input)),
        Kind::MarkAboveSize => Ok(is_mark_above_size(site, class, input)),
        Kind::Discards => Ok(may_discard(site, class, input)),
        Kind::InnerQueue => Ok(may_risk(site, class, flows, input, Risk::Post)),
        Kind::GivesUp => Ok(may_risk(site, class, flows, input, Risk::GivesUp)),
        Kind::NoTarget => Ok(may_risk(site, class, flows, input, Risk::NoTarget)),
        Kind::InnerLoop => meets_again(alloc, site, class, flows, input),
        Kind::Loop | Kind::Unmet(_) => Ok(false),
    }
}

// Puts a kind at a reached input, where it holds there.
fn push_kind(
    alloc: Global,
    site: &Site,
    class: Class,
    flows: &ClassFlows,
    input: SiteInput,
    kind: Kind,
    found: &mut Gathered,
) -> Result<(), AllocError>
    requires protected { sites.is_protected site.now class ≡ true }
    requires flows { AreFlows site.now class flows.now }
    requires there { IsInput site.now input }
    requires reached { Reach site.now class Scope.Firm input }
    ensures { OnOk result (spec.Reports site.now class (spec.IsHeld site.now class input kind)
        found.old.groups.items found.new.groups.items) }
{
    let held = holds(alloc, site, class, flows, input, kind)?;
    if !held {
        return Ok(());
    }
    push_found(alloc, found, class, input, kind)?;
    Ok(())
}

// Puts each of some kinds that holds at a reached input.
fn push_kinds(
    alloc: Global,
    site: &Site,
    class: Class,
    flows: &ClassFlows,
    input: SiteInput,
    kinds: &[Kind],
    found: &mut Gathered,
) -> Result<(), AllocError>
    requires protected { sites.is_protected site.now class ≡ true }
    requires flows { AreFlows site.now class flows.now }
    requires there { IsInput site.now input }
    requires reached { Reach site.now class Scope.Firm input }
    ensures { OnOk result (spec.Reports site.now class
        (λ i j. spec.Among kinds.now (λ kind. spec.IsHeld site.now class input kind i j))
        found.old.groups.items found.new.groups.items) }
{
    for kind in kinds {
        push_kind(alloc, site, class, flows, input, *kind, found)?;
    }
    Ok(())
}

// Puts each of the kinds 1 to 7 that holds at a reached input.
fn push_input(
    alloc: Global,
    site: &Site,
    class: Class,
    flows: &ClassFlows,
    input: SiteInput,
    found: &mut Gathered,
) -> Result<(), AllocError>
    requires protected { sites.is_protected site.now class ≡ true }
    requires flows { AreFlows site.now class flows.now }
    requires there { IsInput site.now input }
    requires reached { Reach site.now class Scope.Firm input }
    ensures { OnOk result (spec.Reports site.now class (spec.AreHeld site.now class input)
        found.old.groups.items found.new.groups.items) }
{
    let kinds = [
        Kind::NotFull,
        Kind::MarkOff,
        Kind::MarkAboveSize,
        Kind::Discards,
        Kind::InnerQueue,
        Kind::GivesUp,
        Kind::NoTarget,
    ];
    push_kinds(alloc, site, class, flows, input, &kinds, found)?;
    Ok(())
}

/// Puts each of the kinds 1 to 7 at each of some reached inputs.
pub fn push_inputs(
    alloc: Global,
    site: &Site,
    class: Class,
    flows: &ClassFlows,
    inputs: &[SiteInput],
    found: &mut Gathered,
) -> Result<(), AllocError>
    requires protected { sites.is_protected site.now class ≡ true }
    requires flows { AreFlows site.now class flows.now }
    requires there { (x : AnyInput) → Contains inputs.now x → IsInput site.now x }
    requires reached { (x : AnyInput) → Contains inputs.now x → Reach site.now class Scope.Firm x }
    ensures { OnOk result (spec.Reports site.now class
        (λ i j. spec.Among inputs.now (λ input. spec.AreHeld site.now class input i j))
        found.old.groups.items found.new.groups.items) }
{
    for input in inputs {
        push_input(alloc, site, class, flows, *input, found)?;
    }
    Ok(())
}

/// Puts each of some reached inputs from which on a list is met twice.
pub fn push_inner_loops(
    alloc: Global,
    site: &Site,
    class: Class,
    flows: &ClassFlows,
    inputs: &[SiteInput],
    found: &mut Gathered,
) -> Result<(), AllocError>
    requires protected { sites.is_protected site.now class ≡ true }
    requires flows { AreFlows site.now class flows.now }
    requires there { (x : AnyInput) → Contains inputs.now x → IsInput site.now x }
    requires reached { (x : AnyInput) → Contains inputs.now x → Reach site.now class Scope.Firm x }
    ensures { OnOk result (spec.Reports site.now class
        (λ i j. spec.Among inputs.now (λ input. spec.IsHeld site.now class input kinds.InnerLoop i j))
        found.old.groups.items found.new.groups.items) }
{
    for input in inputs {
        push_kind(alloc, site, class, flows, *input, Kind::InnerLoop, found)?;
    }
    Ok(())
}
