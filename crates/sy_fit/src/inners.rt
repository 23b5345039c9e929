//! The lists that posts lead to, in the order of the site.

ghost use Rattle.std.specs.Prelude.{◌<◌, ◌+◌, ◌↔◌, Contains, Decides, IfOk, OnOk, length};
ghost use Rattle.sy_site.specs.Sites.{plan_at};
ghost use Rattle.sy_site.specs.declared.site.SiteInput.{SiteInput as AnyInput};
ghost use Rattle.sy_site.specs.machine.Lawful.{IsInput};
ghost use Rattle.sy_board.specs.relay.Spares.{Scope};
ghost use Rattle.sy_site.specs.machine.Reach.{Reach};
ghost use Rattle.sy_fit.specs.Fit.{ComesBefore, IsInner, ListsAll};
ghost use Rattle.sy_flows.specs.Hops.{AreFlows};
ghost use Rattle.sy_fit.specs.internal.Inners as spec;

use crate::order::own_inputs;
use std::alloc::{AllocError, Global};
use sy_flows::{ClassFlows, InnerList, lists_at};
use sy_rules::laws::plans_are_whole;
use sy_site::{Site, SiteInput};
use sy_wire::Class;

fn has(lists: &[u32], list: u32) -> bool
    ensures { Decides result (Contains lists.now list) }
{
    lists.contains(&list)
}

// Whether posts lead to a list from one of these inputs of its relay.
fn is_posted(site: &Site, class: Class, flows: &ClassFlows, inputs: &[SiteInput], list: u32) -> bool
    requires there { (x : AnyInput) → Contains inputs.now x → IsInput site.now x }
    requires flows { AreFlows site.now class flows.now }
    ensures { Decides result (spec.IsPosted site.now class inputs.now list) }
{
    for input in inputs {
        if has(lists_at(site, class, flows, *input), list) {
            return true;
        }
    }
    false
}

// Puts a list behind the others where posts lead to it. These are the inputs of its relay that are reached.
fn push_inner(
    site: &Site,
    class: Class,
    flows: &ClassFlows,
    own: &[SiteInput],
    relay: u32,
    list: u32,
    inners: &mut Vec<InnerList>,
) -> Result<(), AllocError>
    requires own { spec.AreReachedOf site.now class relay own.now }
    requires flows { AreFlows site.now class flows.now }
    requires inners { spec.AreInners site.now class relay list inners.old.items }
    ensures { OnOk result (spec.AreInners site.now class relay (list + 1) inners.new.items) }
{
    site.is_lawful();
    if is_posted(site, class, flows, own, list) {
        inners.push(InnerList { relay, list })?;
    }
    Ok(())
}

// Puts those of a relay.
fn push_inners(
    site: &Site,
    class: Class,
    flows: &ClassFlows,
    own: &[SiteInput],
    relay: u32,
    inners: &mut Vec<InnerList>,
) -> Result<(), AllocError>
    requires there { relay < length site.now.relays }
    requires own { spec.AreReachedOf site.now class relay own.now }
    requires flows { AreFlows site.now class flows.now }
    requires inners { spec.AreInners site.now class relay 0 inners.old.items }
    ensures { OnOk result (spec.AreInners site.now class relay (length (plan_at site.now relay).lists) inners.new.items) }
{
    plans_are_whole(site.plan(relay));
    let many = site.plan(relay).list_names().len() as u32;
    for list in 0..many {
        push_inner(site, class, flows, own, relay, list, inners)?;
    }
    Ok(())
}

/// The lists that posts lead messages of a class to, which aren't spare, from the inputs that it reaches without spare
/// occurrences: in the order of the site, each once.
pub fn inners_of(
    alloc: Global,
    site: &Site,
    class: Class,
    flows: &ClassFlows,
    firm: &[SiteInput],
) -> Result<Vec<InnerList>, AllocError>
    requires firm { (x : AnyInput) → Contains firm.now x ↔ Reach site.now class Scope.Firm x }
    requires flows { AreFlows site.now class flows.now }
    ensures { IfOk result (λ inners. ListsAll (IsInner site.now class) ComesBefore inners.items) }
{
    site.is_lawful();
    let mut inners = Vec::new(alloc);
    for relay in 0..site.relays() {
        let own = own_inputs(alloc, firm, relay)?;
        push_inners(site, class, flows, own.as_slice(), relay, &mut inners)?;
    }
    Ok(inners)
}
