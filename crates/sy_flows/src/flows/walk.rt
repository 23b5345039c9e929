//! What a class executes, and what its messages reach by that, which classes share that execute the same of each list.

ghost use Rattle.std.specs.Prelude.{[], ◌≡◌, ◌++◌, ◌∷◌, IfNone, IfOk, IfSome, OnOk, length};
ghost use Rattle.sy_flows.specs.Walks as spec;
ghost use Rattle.sy_flows.specs.internal.Walks.{IsNew, IsSameAt};
ghost use Rattle.sy_flows.specs.Flows.{AreFirm, AreSiteFlows};

use crate::flows::firm::SiteFirm;
use crate::flows::hops::class_flows;
use crate::flows::same::same_flows;
use crate::flows::{ClassFlows, SiteFlows, flows_of};
use crate::lists::FoundLists;
use crate::lists::leads::leads_of;
use crate::reach::{reached, reached_by_every};
use std::alloc::{AllocError, Global};
use sy_site::{Site, SiteInput};
use sy_wire::Class;

/// What a class executes, and what its messages reach by that.
#[derive(Drop)]
pub struct Walk {
    pub flows: ClassFlows,
    /// the inputs that they reach without spare occurrences
    pub firm: Vec<SiteInput>,
    /// those that they reach by spare occurrences too
    pub every: Vec<SiteInput>,
    /// of each entry the lists that what must be executed and isn't spare leads to
    pub leads: Vec<FoundLists>,
}

// The walk of a class with these flows.
fn new_walk(alloc: Global, site: &Site, class: Class, lists: SiteFlows) -> Result<Walk, AllocError>
    requires lists { AreSiteFlows site.now class lists }
    ensures { IfOk result (λ walk. spec.IsWalk site.now class walk) }
{
    let flows = class_flows(alloc, site, class, lists)?;
    let found = reached(alloc, site, class, &flows)?;
    let firm = found.inputs;
    let every = reached_by_every(alloc, site, class, &flows, firm.as_slice())?;
    let leads = leads_of(alloc, site, class, &flows)?;
    Ok(Walk {
        flows,
        firm,
        every,
        leads,
    })
}

// The first of these walks that has these flows, by its place.
fn same_at(walks: &[Walk], flows: &SiteFlows) -> Option<usize>
    ensures some { IfSome result (λ place. IsSameAt walks.now flows.now place) }
    ensures none { IfNone result (IsNew walks.now flows.now) }
{
    for place in 0..walks.len() {
        if same_flows(&walks[place].flows.lists, flows) {
            return Some(place);
        }
    }
    None
}

// Puts a walk behind the others, and answers its place.
fn push_walk(walks: &mut Vec<Walk>, walk: Walk) -> Result<usize, AllocError>
    ensures place { IfOk result (λ place. place ≡ length walks.old.items) }
    ensures walks { OnOk result (walks.new.items ≡ walks.old.items ++ walk ∷ []) }
{
    let place = walks.len();
    walks.push(walk)?;
    Ok(place)
}

// Puts the walk of a class with these flows behind the others.
fn more_walk(
    alloc: Global,
    site: &Site,
    class: Class,
    lists: SiteFlows,
    walks: &mut Vec<Walk>,
) -> Result<usize, AllocError>
    requires lists { AreSiteFlows site.now class lists }
    requires walks { spec.AreWalks site.now walks.old.items }
    ensures walks { OnOk result (spec.AreWalks site.now walks.new.items) }
    ensures at { IfOk result (λ place. spec.IsWalkAt site.now class walks.new.items place) }
{
    let walk = new_walk(alloc, site, class, lists)?;
    let place = push_walk(walks, walk)?;
    Ok(place)
}

/// The place of a class's walk among those of the classes before, behind which it is put where none has the same flows.
pub fn walk_for(
    alloc: Global,
    site: &Site,
    class: Class,
    firm: &SiteFirm,
    walks: &mut Vec<Walk>,
) -> Result<usize, AllocError>
    requires firm { AreFirm site.now firm.now }
    requires walks { spec.AreWalks site.now walks.old.items }
    ensures walks { OnOk result (spec.AreWalks site.now walks.new.items) }
    ensures at { IfOk result (λ place. spec.IsWalkAt site.now class walks.new.items place) }
{
    site.is_lawful();
    let lists = flows_of(alloc, site, class, firm)?;
    match same_at(walks.as_slice(), &lists) {
        Some(place) => Ok(place),
        None => more_walk(alloc, site, class, lists, walks),
    }
}
