//! The findings of the kinds 1 to 7, at the inputs that a class reaches without spare occurrences.

ghost use Rattle.std.specs.Prelude.{◌≡◌, Contains, IfErr, IfNone, IfOk, IfSome, OnOk, true};
ghost use Rattle.sy_site.specs.Sites as sites;
ghost use Rattle.sy_site.specs.declared.site.SiteInput.{SiteInput as AnyInput};
ghost use Rattle.sy_site.specs.machine.Lawful.{IsInput};
ghost use Rattle.sy_board.specs.relay.Spares.{Scope};
ghost use Rattle.sy_site.specs.machine.Reach.{Reach};
ghost use Rattle.sy_flows.specs.declared.flows.executed.Executed.TheVariants as executed;
ghost use Rattle.sy_site.specs.Finding.{IsTrueFinding, IsTrueRefusal};
ghost use Rattle.sy_fit.specs.Fit.{IsClean};
ghost use Rattle.sy_flows.specs.Search.{IsSpread};
ghost use Rattle.sy_checker.specs.internal.Answer as spec;
ghost use Rattle.sy_flows.specs.Hops.{AreFlows};

use crate::reach::way::way_to;
use std::alloc::{AllocError, Global};
use sy_fit::{Risk, is_mark_above_size, is_mark_off, is_not_full, may_discard, may_risk};
use sy_flows::{ClassFlows, Found};
use sy_site::finding::{Finding, Kind, Refusal};
use sy_site::{Site, SiteInput};
use sy_wire::Class;

// The lowest of the kinds 5 to 7 that holds at an input.
fn risk_at(site: &Site, class: Class, flows: &ClassFlows, input: SiteInput) -> Option<Kind>
    requires there { IsInput site.now input }
    requires flows { AreFlows site.now class flows.now }
    ensures { spec.IsRiskAt site.now class input result }
{
    if may_risk(site, class, flows, input, Risk::Post) {
        return Some(Kind::InnerQueue);
    }
    if may_risk(site, class, flows, input, Risk::GivesUp) {
        return Some(Kind::GivesUp);
    }
    if may_risk(site, class, flows, input, Risk::NoTarget) {
        return Some(Kind::NoTarget);
    }
    None
}

// The lowest of the kinds 1 to 7.
fn kind_at(site: &Site, class: Class, flows: &ClassFlows, input: SiteInput) -> Option<Kind>
    requires there { IsInput site.now input }
    requires flows { AreFlows site.now class flows.now }
    ensures { spec.IsKindAt site.now class input result }
{
    if is_not_full(site, class, input) {
        return Some(Kind::NotFull);
    }
    if is_mark_off(site, class, input) {
        return Some(Kind::MarkOff);
    }
    if is_mark_above_size(site, class, input) {
        return Some(Kind::MarkAboveSize);
    }
    if may_discard(site, class, input) {
        return Some(Kind::Discards);
    }
    risk_at(site, class, flows, input)
}

// The first of inputs at which one of these kinds holds, by its place, and the lowest there.
fn first_unclean(
    site: &Site,
    class: Class,
    flows: &ClassFlows,
    inputs: &[SiteInput],
) -> Option<(usize, Kind)>
    requires there { (x : AnyInput) → Contains inputs.now x → IsInput site.now x }
    requires flows { AreFlows site.now class flows.now }
    ensures some { IfSome result (λ w. spec.IsUncleanAt site.now class inputs.now w.0 w.1) }
    ensures none { IfNone result ((x : AnyInput) → Contains inputs.now x → IsClean site.now class x) }
{
    for place in 0..inputs.len() {
        match kind_at(site, class, flows, inputs[place]) {
            Some(kind) => return Some((place, kind)),
            None => {}
        }
    }
    None
}

/// The finding of a kind at the place of an input, with the way there.
pub fn finding_at(
    alloc: Global,
    site: &Site,
    class: Class,
    found: &Found,
    place: usize,
    kind: Kind,
) -> Result<Finding, AllocError>
    requires protected { sites.is_protected site.now class ≡ true }
    requires spread { IsSpread site.now class executed.Firm site.now.entries
        found.now.inputs.items found.now.origins.items }
    requires unclean { spec.IsUncleanAt site.now class found.now.inputs.items place kind }
    ensures { IfOk result (λ f. IsTrueFinding site.now f) }
{
    let _ = site;
    let input = found.inputs[place];
    let way = way_to(alloc, found, place)?;
    Ok(Finding {
        class,
        input,
        way,
        kind,
    })
}

/// The finding of the kinds 1 to 7 that is met first: at the first input that is reached at which one holds, the lowest
/// of them. None where each reached input is clean.
pub fn first_finding(
    alloc: Global,
    site: &Site,
    class: Class,
    flows: &ClassFlows,
    found: &Found,
) -> Result<Option<Finding>, AllocError>
    requires protected { sites.is_protected site.now class ≡ true }
    requires flows { AreFlows site.now class flows.now }
    requires spread { IsSpread site.now class executed.Firm site.now.entries
        found.now.inputs.items found.now.origins.items }
    ensures { IfOk result (λ answer. spec.IsSearched site.now class answer) }
{
    match first_unclean(site, class, flows, found.inputs.as_slice()) {
        Some((place, kind)) => {
            let finding = finding_at(alloc, site, class, found, place, kind)?;
            Ok(Some(finding))
        }
        None => Ok(None),
    }
}

/// The same as a refusal: each reached input is clean, or something is found.
pub fn searched(
    alloc: Global,
    site: &Site,
    class: Class,
    flows: &ClassFlows,
    found: &Found,
) -> Result<(), Refusal>
    requires protected { sites.is_protected site.now class ≡ true }
    requires flows { AreFlows site.now class flows.now }
    requires spread { IsSpread site.now class executed.Firm site.now.entries
        found.now.inputs.items found.now.origins.items }
    ensures ok { OnOk result ((x : AnyInput) → Reach site.now class Scope.Firm x → IsClean site.now class x) }
    ensures err { IfErr result (λ why. IsTrueRefusal site.now why) }
{
    match first_finding(alloc, site, class, flows, found)? {
        Some(finding) => Err(Refusal::Finding(finding)),
        None => Ok(()),
    }
}
