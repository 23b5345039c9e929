//! What messages of a class execute of each list of a site, worked out once for each class.

ghost use Rattle.std.specs.Prelude.{◌≡◌, ◌<◌, ◌==◌, true, IfOk, length};
ghost use Rattle.std.specs.List.{list_any};
ghost use Rattle.sy_site.specs.Sites.{plan_at};
ghost use Rattle.sy_flows.specs.Flows as spec;

pub mod executed;
pub mod firm;
pub mod hops;
pub mod same;
pub mod walk;

use crate::flows::executed::Executed;
use crate::flows::firm::SiteFirm;
use std::alloc::{AllocError, Global};
use sy_classes::flow_of;
use sy_rules::laws::plans_are_whole;
use sy_rules::{Input, Plan};
use sy_site::{Site, SiteInput};
use sy_wire::Class;

/// Sets of occurrences of a list.
#[derive(Clone, Copy)]
pub struct ListFlows {
    /// those that messages of a class may execute
    pub every: u64,
    /// those of them that aren't spare
    pub firm: u64,
    /// those that they must execute, and that aren't spare
    pub must: u64,
}

/// The sets of each list of a relay.
#[derive(Drop)]
pub struct RelayFlows {
    pub lists: Vec<ListFlows>,
}

/// The same of each relay of a site.
#[derive(Drop)]
pub struct SiteFlows {
    pub relays: Vec<RelayFlows>,
}

/// An occurrence of a list, and an input that it leads messages to.
#[derive(Clone, Copy)]
pub struct Hop {
    pub number: u32,
    pub to: SiteInput,
}

/// Where the occurrences of a list lead.
#[derive(Drop)]
pub struct ListHops {
    /// to which inputs, by rising occurrences; of those that lead to one input the first alone
    pub hops: Vec<Hop>,
    /// to which lists of the relay, by posts: each once, in the order in which posts lead there
    pub lists: Vec<u32>,
}

/// The same of each list of a relay that an input has.
#[derive(Drop)]
pub struct RelayHops {
    pub lists: Vec<ListHops>,
}

/// The same of each relay of a site.
#[derive(Drop)]
pub struct SiteHops {
    pub relays: Vec<RelayHops>,
}

/// What a class executes of each list, and where that leads: by every occurrence, and by those that aren't spare.
#[derive(Drop)]
pub struct ClassFlows {
    pub lists: SiteFlows,
    pub every: SiteHops,
    pub firm: SiteHops,
}

/// Whether an input has a list.
pub fn is_input_list(inputs: &[Input], list: u32) -> bool
    ensures { result ≡ list_any (λ i. i.list == list) inputs.now }
{
    inputs.iter().any(|i| i.list == list)
}

// Whether messages may come to a list: a queue leads to it, or an input has it.
fn is_used(plan: &Plan, list: u32) -> bool
    requires there { list < length plan.now.lists }
    ensures { result ≡ spec.is_used plan.now list }
{
    if plan.list_queue(list).is_some() {
        return true;
    }
    is_input_list(plan.inputs(), list)
}

// What a class executes of a list, of which these occurrences aren't spare.
fn list_flows(site: &Site, class: Class, relay: u32, firm: u64, list: u32) -> ListFlows
    requires relay { relay < length site.now.relays }
    requires there { list < length (plan_at site.now relay).lists }
    requires firm { spec.IsFirm site.now relay list firm }
    ensures { spec.IsFlow site.now class relay list result }
{
    let flow = flow_of(site.plan(relay), list, class);
    ListFlows {
        every: flow.may,
        firm: flow.may & firm,
        must: flow.must & firm,
    }
}

// The same where messages may come to the list.
fn used_flows(site: &Site, class: Class, relay: u32, firm: u64, list: u32) -> ListFlows
    requires relay { relay < length site.now.relays }
    requires there { list < length (plan_at site.now relay).lists }
    requires firm { spec.IsFirm site.now relay list firm }
    ensures { spec.is_used (plan_at site.now relay) list ≡ true → spec.IsFlow site.now class relay list result }
{
    if !is_used(site.plan(relay), list) {
        return ListFlows {
            every: 0,
            firm: 0,
            must: 0,
        };
    }
    list_flows(site, class, relay, firm, list)
}

fn relay_flows(
    alloc: Global,
    site: &Site,
    class: Class,
    relay: u32,
    firm: &[u64],
) -> Result<RelayFlows, AllocError>
    requires relay { relay < length site.now.relays }
    requires firm { spec.AreEach (spec.IsFirm site.now relay) (length (plan_at site.now relay).lists) firm.now }
    ensures { IfOk result (λ flows. spec.AreRelayFlows site.now class relay flows) }
{
    plans_are_whole(site.plan(relay));
    let many = site.plan(relay).list_names().len() as u32;
    let mut lists = Vec::with_capacity(alloc, many as usize)?;
    for list in 0..many {
        let flows = used_flows(site, class, relay, firm[list as usize], list);
        lists.push(flows)?;
    }
    Ok(RelayFlows { lists })
}

/// What messages of a class execute, of whose occurrences these aren't spare.
pub fn flows_of(
    alloc: Global,
    site: &Site,
    class: Class,
    firm: &SiteFirm,
) -> Result<SiteFlows, AllocError>
    requires firm { spec.AreFirm site.now firm.now }
    ensures { IfOk result (λ flows. spec.AreSiteFlows site.now class flows) }
{
    let mut relays = Vec::with_capacity(alloc, site.relays() as usize)?;
    for relay in 0..site.relays() {
        let sets = firm.relays[relay as usize].lists.as_slice();
        let flows = relay_flows(alloc, site, class, relay, sets)?;
        relays.push(flows)?;
    }
    Ok(SiteFlows { relays })
}

/// The set of occurrences that are executed so.
pub fn set_of(flows: ListFlows, which: Executed) -> u64
    ensures { result ≡ spec.set_of flows which }
{
    match which {
        Executed::Every => flows.every,
        Executed::Firm => flows.firm,
        Executed::Must => flows.must,
    }
}

/// What is executed of a list that messages may come to.
pub fn set_at(
    site: &Site,
    class: Class,
    flows: &SiteFlows,
    which: Executed,
    relay: u32,
    list: u32,
) -> u64
    requires relay { relay < length site.now.relays }
    requires there { list < length (plan_at site.now relay).lists }
    requires used { spec.is_used (plan_at site.now relay) list ≡ true }
    requires flows { spec.AreSiteFlows site.now class flows.now }
    ensures { spec.IsSet site.now class which relay list result }
{
    let _ = site;
    let _ = class;
    let relay = &flows.relays[relay as usize];
    set_of(relay.lists[list as usize], which)
}
