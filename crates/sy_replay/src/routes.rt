//! A site with a table of where its actions lead to, so that no name is looked up while it runs.
ghost use Rattle.std.specs.Prelude.{◌≡◌, ◌<◌, IfOk, length};
ghost use Rattle.sy_site.specs.Sites as sites;
ghost use Rattle.sy_site.specs.machine.States as states;
ghost use Rattle.sy_replay.specs.Events.{cause_of};
ghost use Rattle.sy_replay.specs.internal.Routes as spec;

use crate::event::Cause;
use std::alloc::{AllocError, Global};
use std::marker::Model;
use sy_rules::laws::plans_are_whole;
use sy_site::{Site, SiteAction, SiteInput};

/// A site, with where each action of each relay leads to.
#[derive(Drop)]
pub(crate) struct Routes<'a> {
    site: &'a Site,
    targets: Vec<Vec<Option<SiteInput>>>,
}

impl<'a> Model for Routes<'a> {
    ghost use Rattle.std.specs.Prelude.{◌≡◌};
    ghost use Rattle.std.specs.Coded.{codes};
    ghost use Rattle.sy_rules.specs.internal.PlanCodes.{plan_code};
    ghost use Rattle.sy_site.specs.Sites as sites;
    ghost use Rattle.sy_replay.specs.internal.Routes.{rows_of, table_of};

    ghost Value = { sites.Site };

    ghost coded = { Prim.hlevel (codes, plan_code) };

    ghost view = { λ r. r.site.now };

    ghost invariant = { λ r. rows_of r.targets.items ≡ table_of r.site.now };
}

// How many actions a relay has.
fn actions_of(site: &Site, relay: u32) -> u32
    requires { relay < length site.now.relays }
    ensures { result ≡ length (sites.plan_at site.now relay).actions }
{
    let plan = site.plan(relay);
    plans_are_whole(plan);
    plan.actions().len() as u32
}

// Where the actions of a relay lead to.
fn row_of(alloc: Global, site: &Site, relay: u32) -> Result<Vec<Option<SiteInput>>, AllocError>
    requires { relay < length site.now.relays }
    ensures { IfOk result (λ row. row.items ≡ spec.row_of site.now relay) }
{
    let actions = actions_of(site, relay);
    let mut row = Vec::with_capacity(alloc, actions as usize)?;
    for action in 0..actions {
        row.push(site.target(relay, action))?;
    }
    Ok(row)
}

// Where those of all relays lead to.
fn table_of(alloc: Global, site: &Site) -> Result<Vec<Vec<Option<SiteInput>>>, AllocError>
    ensures { IfOk result (λ rows. spec.rows_of rows.items ≡ spec.table_of site.now) }
{
    let mut rows = Vec::with_capacity(alloc, site.relays() as usize)?;
    for relay in 0..site.relays() {
        rows.push(row_of(alloc, site, relay)?)?;
    }
    Ok(rows)
}

// What a table says of an action.
fn entry_in(rows: &[Vec<Option<SiteInput>>], link: SiteAction) -> Option<SiteInput>
    ensures { result ≡ spec.entry_in (spec.rows_of rows.now) link }
{
    match rows.get(link.relay as usize) {
        Some(row) => match row.get(link.action as usize) {
            Some(target) => *target,
            None => None,
        },
        None => None,
    }
}

impl<'a> Routes<'a> {
    /// The site with its table.
    pub(crate) fn of(alloc: Global, site: &'a Site) -> Result<Routes<'a>, AllocError>
        ensures { IfOk result (λ routes. routes ≡ site.now) }
    {
        let targets = table_of(alloc, site)?;
        Ok(Routes { site, targets })
    }

    /// The input that an action leads to.
    pub(crate) fn target(&self, link: SiteAction) -> Option<SiteInput>
        ensures { result ≡ sites.target self.now link }
    {
        entry_in(self.targets.as_slice(), link)
    }

    /// Whether an action is spare.
    pub(crate) fn is_spare(&self, action: SiteAction) -> bool
        ensures { result ≡ sites.is_spare self.now action }
    {
        self.site.is_spare(action.relay, action.action)
    }

    /// Whether a list of a relay is a spare action's own.
    pub(crate) fn is_spare_list(&self, relay: u32, list: u32) -> bool
        ensures { result ≡ sites.is_spare_list self.now relay list }
    {
        if relay >= self.site.relays() {
            return false;
        }
        match self.site.plan(relay).own_action(list) {
            Some(action) => self.site.is_spare(relay, action),
            None => false,
        }
    }

    /// Whether what was lost in a relay by this step is a spare occurrence.
    pub(crate) fn loses_spare(&self, relay: u32, cause: Cause) -> bool
        ensures { result ≡ states.loses_spare self.now relay (cause_of cause) }
    {
        match cause {
            Cause::GiveUp(action) => self.site.is_spare(relay, action),
            Cause::Post(list) | Cause::PostLost(list) => self.is_spare_list(relay, list),
            Cause::Take | Cause::Expire | Cause::Grab => false,
        }
    }
}
