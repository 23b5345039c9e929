//! What is kept of a site that was accepted.

ghost use Rattle.std.specs.Prelude.{[], ◌≡◌, ◌<◌, ◌++◌, ◌∷◌, List, length, map, slice_get, Some, IfOk, OnOk};
ghost use Rattle.std.specs.Arc.{arc_value};
ghost use Rattle.sy_board.specs.relay.Guards.{MayGuard};
ghost use Rattle.sy_rules.specs.PlanValue.{Plan as AnyPlan};
ghost use Rattle.sy_site.specs.machine.Soundness.{IsSound};
ghost use Rattle.sy_site.specs.declared.site.SiteInput.{SiteInput as AnyInput};
ghost use Rattle.sy_wire.specs.declared.class.Class.{Class as AnyClass};
ghost use Rattle.sy_fit.specs.Acceptance as spec;
ghost use Rattle.sy_fit.specs.Fit.{AreProtected};

use std::alloc::{AllocError, Global};
use std::marker::Model;
use std::sync::Arc;
use sy_board::Guard;
use sy_flows::actions_at;
use sy_rules::Plan;
use sy_site::machine::sound_sites_have_guards;
use sy_site::{Site, SiteAction, SiteInput};
use sy_wire::Class;

/// What is kept of a site that was accepted: the plans of its relays, its protected classes, each input with each of them
/// that reaches it without spare occurrences, and its spare actions.
#[derive(Drop)]
pub struct Accepted {
    plans: Vec<Arc<Plan>>,
    classes: Vec<Class>,
    pairs: Vec<(SiteInput, Class)>,
    spares: Vec<SiteAction>,
}

impl Model for Accepted {
    ghost use Rattle.std.specs.Prelude.{map};
    ghost use Rattle.std.specs.Arc.{arc_value};
    ghost use Rattle.std.specs.Coded.{codes};
    ghost use Rattle.sy_rules.specs.internal.PlanCodes.{plan_code};
    ghost use Rattle.sy_fit.specs.Acceptance as spec;
    ghost use Rattle.sy_fit.specs.internal.Acceptance as inside;

    ghost Value = { spec.Acceptance };

    ghost coded = { Prim.hlevel (codes, plan_code) };

    ghost view = { λ a. record { plans = map arc_value a.plans.items; classes = a.classes.items; pairs = a.pairs.items; spares = a.spares.items } };

    ghost invariant = { λ a. inside.AreGuardable (record { plans = map arc_value a.plans.items; classes = a.classes.items; pairs = a.pairs.items; spares = a.spares.items }) };
}

// The plans of a site's relays.
fn plans_of(alloc: Global, site: &Site) -> Result<Vec<Arc<Plan>>, AllocError>
    ensures { IfOk result (λ plans. map arc_value plans.items ≡ spec.plans_of site.now) }
{
    let mut plans = Vec::with_capacity(alloc, site.relays() as usize)?;
    for relay in 0..site.relays() {
        let plan = Arc::try_clone(site.plan(relay))?;
        plans.push(plan)?;
    }
    Ok(plans)
}

/// Puts each of some inputs with a class.
pub fn push_pairs(
    pairs: &mut Vec<(SiteInput, Class)>,
    inputs: &[SiteInput],
    class: Class,
) -> Result<(), AllocError>
    ensures { OnOk result (pairs.new.items ≡ pairs.old.items ++ map (λ input. (input, class)) inputs.now) }
{
    for input in inputs {
        pairs.push((*input, class))?;
    }
    Ok(())
}

// Puts a pair behind those before that are this relay's, where it is one too.
fn push_pair(
    found: &mut Vec<(u32, Class)>,
    relay: u32,
    input: SiteInput,
    class: Class,
) -> Result<(), AllocError>
    ensures { OnOk result ((before : List (AnyInput × AnyClass)) → spec.ArePairsAt before relay found.old.items
        → spec.ArePairsAt (before ++ (input, class) ∷ []) relay found.new.items) }
{
    if input.relay == relay {
        found.push((input.input, class))?;
    }
    Ok(())
}

// Those of a relay.
fn pairs_at(
    alloc: Global,
    pairs: &[(SiteInput, Class)],
    relay: u32,
) -> Result<Vec<(u32, Class)>, AllocError>
    ensures { IfOk result (λ found. spec.ArePairsAt pairs.now relay found.items) }
{
    let mut found = Vec::new(alloc);
    for pair in pairs {
        push_pair(&mut found, relay, pair.0, pair.1)?;
    }
    Ok(found)
}

fn spares_of(alloc: Global, spares: &[SiteAction]) -> Result<Vec<SiteAction>, AllocError>
    ensures { IfOk result (λ copied. copied.items ≡ spares.now) }
{
    let mut copied = Vec::with_capacity(alloc, spares.len())?;
    for spare in spares {
        copied.push(*spare)?;
    }
    Ok(copied)
}

impl Accepted {
    /// What is kept of a sound site with these protected classes, and with each input that one of them reaches without
    /// spare occurrences.
    pub fn new(
        alloc: Global,
        site: &Site,
        classes: Vec<Class>,
        pairs: Vec<(SiteInput, Class)>,
    ) -> Result<Accepted, AllocError>
        requires protected { AreProtected site.now classes.items }
        requires pairs { spec.AreReached site.now classes.items pairs.items }
        requires sound { IsSound site.now }
        ensures { IfOk result (λ accepted. spec.IsOf site.now accepted) }
    {
        sound_sites_have_guards();
        let plans = plans_of(alloc, site)?;
        let spares = spares_of(alloc, site.spares())?;
        Ok(Accepted {
            plans,
            classes,
            pairs,
            spares,
        })
    }

    /// The protected classes, by rising number.
    pub fn classes(&self) -> &[Class]
        ensures { result.now ≡ self.now.classes }
    {
        self.classes.as_slice()
    }

    /// The plan of a relay.
    pub fn plan(&self, relay: u32) -> &Arc<Plan>
        requires exists { relay < length self.now.plans }
        ensures { Some (arc_value result.now) ≡ slice_get self.now.plans relay }
    {
        &self.plans[relay as usize]
    }

    /// The guard of a relay: of each input and each class that are guarded there, and of no other, and of the relay's spare
    /// actions, and no other. The relay's plan meets its condition.
    pub fn guard(&self, alloc: Global, relay: u32) -> Result<Guard, AllocError>
        ensures guard { IfOk result (λ guard. spec.IsGuardAt self.now relay guard) }
        ensures may { IfOk result (λ guard. (plan : AnyPlan) → Some plan ≡ slice_get self.now.plans relay → MayGuard plan guard) }
    {
        let pairs = pairs_at(alloc, self.pairs.as_slice(), relay)?;
        let spares = actions_at(alloc, self.spares.as_slice(), relay)?;
        Guard::new(alloc, pairs.as_slice(), spares.as_slice())
    }
}
