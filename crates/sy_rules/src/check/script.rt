//! What is wrong with a script that is read and is no plan, in the order of the text.

ghost use Rattle.std.specs.Prelude.{◌≡◌, ◌++◌, ◌∷◌, ◌||◌, [], List, ℕ, ◌≤◌, length, map, nat_lt, sum, OnOk, IfOk, IfErr};
ghost use Rattle.std.specs.List.{filter_map, list_any};
ghost use Rattle.std.specs.Option.{option_copied};
ghost use Rattle.sy_script.specs.declared.tree.ObjectKind.TheVariants.{Input};
ghost use Rattle.sy_rules.specs.Limits as limits;
ghost use Rattle.sy_rules.specs.Faults.{IsAnswered, in_text};
ghost use Rattle.sy_rules.specs.internal.Checking.{IsFound, AreClean};
ghost use Rattle.sy_rules.specs.items.ItemFaults.{object_faults};
ghost use Rattle.sy_rules.specs.items.ItemViews.{item, placed, span};
ghost use Rattle.sy_rules.specs.parameters.Objects as objects;
ghost use Rattle.sy_rules.specs.items.Outline as outline;
ghost use Rattle.sy_rules.specs.parameters.Values.{faults};
ghost use Rattle.sy_rules.specs.parts.Plans as plan;
ghost use Rattle.sy_rules.specs.check.ScriptFaults as spec;
ghost use Rattle.sy_rules.specs.internal.Seen.{Adds, HasNames, Knows, Shows, faults_by, workers_in};

use crate::check::among::{
    check_action, check_call, check_input, check_main_queue, check_ruleset, check_test,
};
use crate::check::item::check_item;
use crate::check::names::Names;
use crate::fault::{FaultCode, NOWHERE, PlanFault};
use crate::items::borrowed::{
    given_name, loads_imtcp, main_queue_params, name_of_ruleset, port_of, workers_of,
};
use crate::items::fault::ItemFault;
use crate::items::outline::Item;
use crate::limits::WORKERS;
use crate::parameters::kind::Kind;
use crate::parameters::objects::kind_of_action;
use crate::parameters::settings::queue_parameters;
use crate::parts::action_names::action_name;
use std::alloc::{AllocError, Global};
use sy_script::Items;
use sy_script::tree::{ObjectKind, Param};

/// What all the items of a file say.
#[derive(Drop)]
pub struct Whole<'s> {
    /// whether a `module` object loads it
    pub imtcp: bool,
    /// those of the rulesets
    pub names: Names<'s>,
}

/// What the items before the next one say.
#[derive(Drop)]
pub struct Seen<'s> {
    pub main_queue: bool,
    /// those of the inputs
    pub ports: Vec<u16>,
    /// the names of the rulesets
    pub rulesets: Vec<&'s [u8]>,
    /// the names of the actions, as given or by their numbers
    pub actions: Vec<Items<u8>>,
}

impl<'s> Seen<'s> {
    fn new(alloc: Global) -> Seen<'s>
        ensures { Shows [] result }
    {
        Seen {
            main_queue: false,
            ports: Vec::new(alloc),
            rulesets: Vec::new(alloc),
            actions: Vec::new(alloc),
        }
    }
}

fn is_imtcp(next: &Item<'_>) -> bool
    ensures { result ≡ spec.loads_imtcp (item next.now) }
{
    match *next {
        Item::Object(_, ObjectKind::Module, params) => loads_imtcp(params),
        _ => false,
    }
}

fn has_imtcp(items: &[Item<'_>]) -> bool
    ensures { result ≡ list_any spec.loads_imtcp (map item items.now) }
{
    for next in items {
        if is_imtcp(next) {
            return true;
        }
    }
    false
}

fn insert_name<'s>(names: &mut Names<'s>, next: &Item<'s>) -> Result<(), AllocError>
    ensures { OnOk result ((name : List ℕ) → spec.is_among name names.new
        ≡ (spec.is_among name names.old || spec.is_among name (spec.ruleset_names_of (item next.now ∷ [])))) }
{
    match *next {
        Item::Ruleset(_, params) => names.insert(name_of_ruleset(params)),
        _ => Ok(()),
    }
}

// The names of all rulesets, since inputs and calls may name one that comes later.
fn ruleset_names<'s>(alloc: Global, items: &[Item<'s>]) -> Result<Names<'s>, AllocError>
    ensures { IfOk result (λ names. HasNames (spec.ruleset_names_of (map item items.now)) names) }
{
    let mut names = Names::new(alloc);
    let mut rest = items;
    while let [next, after @ ..] = rest {
        insert_name(&mut names, next)?;
        rest = after;
    }
    Ok(names)
}

fn whole_of<'s>(alloc: Global, items: &[Item<'s>]) -> Result<Whole<'s>, AllocError>
    ensures { IfOk result (λ whole. Knows (map item items.now) whole) }
{
    let imtcp = has_imtcp(items);
    let names = ruleset_names(alloc, items)?;
    Ok(Whole { imtcp, names })
}

fn meet_input(
    alloc: Global,
    whole: &Whole<'_>,
    seen: &mut Seen<'_>,
    params: &[Param],
) -> Result<(), ItemFault>
    requires { faults Kind.Input params.now ≡ [] }
    ensures ok { OnOk result (spec.input_faults whole.now.imtcp whole.now.names seen.old.ports.items
        (objects.input_of params.now) ≡ []) }
    ensures adds { OnOk result (Adds (outline.Item.Object Input params.now) seen.old seen.new) }
    ensures err { IfErr result (λ f. IsFound (spec.input_faults whole.now.imtcp whole.now.names seen.old.ports.items
        (objects.input_of params.now)) f) }
{
    check_input(alloc, whole.imtcp, &whole.names, &seen.ports, params)?;
    match seen.ports.push(port_of(params)) {
        Ok(()) => Ok(()),
        Err(_) => Err(ItemFault::no_memory(alloc)),
    }
}

fn meet_ruleset<'s>(
    alloc: Global,
    seen: &mut Seen<'s>,
    params: &'s [Param],
) -> Result<(), ItemFault>
    ensures ok { OnOk result (spec.ruleset_faults (map (λ n. n.now) seen.old.rulesets.items)
        (objects.ruleset_of params.now).name ≡ []) }
    ensures adds { OnOk result (Adds (outline.Item.Ruleset params.now) seen.old seen.new) }
    ensures err { IfErr result (λ f. IsFound (spec.ruleset_faults (map (λ n. n.now) seen.old.rulesets.items)
        (objects.ruleset_of params.now).name) f) }
{
    let name = name_of_ruleset(params);
    check_ruleset(alloc, &seen.rulesets, name)?;
    match seen.rulesets.push(name) {
        Ok(()) => Ok(()),
        Err(_) => Err(ItemFault::no_memory(alloc)),
    }
}

fn push_action(
    alloc: Global,
    actions: &mut Vec<Items<u8>>,
    name: Items<u8>,
) -> Result<(), ItemFault>
    ensures ok { OnOk result (spec.action_faults actions.old.items name ≡ []) }
    ensures new { OnOk result (actions.new.items ≡ actions.old.items ++ name ∷ []) }
    ensures err { IfErr result (λ f. IsFound (spec.action_faults actions.old.items name) f) }
{
    check_action(alloc, actions, name.as_slice())?;
    match actions.push(name) {
        Ok(()) => Ok(()),
        Err(_) => Err(ItemFault::no_memory(alloc)),
    }
}

fn meet_action(alloc: Global, seen: &mut Seen<'_>, params: &[Param]) -> Result<(), ItemFault>
    ensures ok { OnOk result (spec.action_faults seen.old.actions.items
        (plan.action_name (length seen.old.actions.items)
        (objects.action_of (objects.kind_of_action params.now) params.now).name) ≡ []) }
    ensures adds { OnOk result (Adds (outline.Item.Action params.now) seen.old seen.new) }
    ensures err { IfErr result (λ f. IsFound (spec.action_faults seen.old.actions.items
        (plan.action_name (length seen.old.actions.items)
        (objects.action_of (objects.kind_of_action params.now) params.now).name)) f) }
{
    match action_name(alloc, seen.actions.len(), given_name(params)) {
        Ok(name) => push_action(alloc, &mut seen.actions, name),
        Err(_) => Err(ItemFault::no_memory(alloc)),
    }
}

// Refuses the next item for its faults among the others, or keeps what it says.
fn check_next<'s>(
    alloc: Global,
    whole: &Whole<'_>,
    seen: &mut Seen<'s>,
    next: &Item<'s>,
) -> Result<(), ItemFault>
    requires { object_faults (item next.now) ≡ [] }
    ensures ok { OnOk result (faults_by whole.now seen.old (item next.now) ≡ []) }
    ensures adds { OnOk result (Adds (item next.now) seen.old seen.new) }
    ensures err { IfErr result (λ f. IsFound (faults_by whole.now seen.old (item next.now)) f) }
{
    match *next {
        Item::Object(_, ObjectKind::MainQueue, _) => {
            check_main_queue(alloc, seen.main_queue)?;
            seen.main_queue = true;
            Ok(())
        }
        Item::Object(_, ObjectKind::Input, params) => meet_input(alloc, whole, seen, params),
        Item::Object(_, ObjectKind::Module | ObjectKind::Global, _) => Ok(()),
        Item::Ruleset(_, params) => meet_ruleset(alloc, seen, params),
        Item::Action(_, params) => meet_action(alloc, seen, params),
        Item::Call(_, name) => check_call(alloc, &whole.names, name),
        Item::Test(test) => check_test(alloc, test),
    }
}

// Refuses the next item for its own faults, and then for those among the others.
fn check_both<'s>(
    alloc: Global,
    whole: &Whole<'_>,
    seen: &mut Seen<'s>,
    next: &Item<'s>,
) -> Result<(), ItemFault>
    ensures own { OnOk result (object_faults (item next.now) ≡ []) }
    ensures among { OnOk result (faults_by whole.now seen.old (item next.now) ≡ []) }
    ensures adds { OnOk result (Adds (item next.now) seen.old seen.new) }
    ensures err { IfErr result (λ f. IsFound (object_faults (item next.now) ++ faults_by whole.now seen.old (item next.now)) f) }
{
    check_item(alloc, next)?;
    check_next(alloc, whole, seen, next)
}

// The same, where the fault has its place in the text.
fn check_placed<'s>(
    alloc: Global,
    whole: &Whole<'_>,
    seen: &mut Seen<'s>,
    next: &Item<'s>,
) -> Result<(), PlanFault>
    ensures own { OnOk result (object_faults (item next.now) ≡ []) }
    ensures among { OnOk result (faults_by whole.now seen.old (item next.now) ≡ []) }
    ensures adds { OnOk result (Adds (item next.now) seen.old seen.new) }
    ensures err { IfErr result (λ f. IsAnswered (map (in_text (span next.now))
        (object_faults (item next.now) ++ faults_by whole.now seen.old (item next.now))) f) }
{
    match check_both(alloc, whole, seen, next) {
        Ok(()) => Ok(()),
        Err(fault) => Err(fault.in_text(next.span())),
    }
}

// In the order of the text.
fn check_each(alloc: Global, whole: &Whole<'_>, items: &[Item<'_>]) -> Result<(), PlanFault>
    requires { Knows (map item items.now) whole.now }
    ensures ok { OnOk result (spec.faults_in_text (map item items.now) [] (map placed items.now) ≡ []) }
    ensures err { IfErr result (λ f. IsAnswered (spec.faults_in_text (map item items.now) [] (map placed items.now)) f) }
{
    let mut seen = Seen::new(alloc);
    for next in items {
        check_placed(alloc, whole, &mut seen, next)?;
    }
    Ok(())
}

#[tactic(auto, unfolding(crate::specs::parameters::Objects::ruleset_of, crate::specs::parameters::Objects::action_of))]
fn workers_at(next: &Item<'_>) -> u32
    requires { object_faults (item next.now) ≡ [] }
    ensures value { result ≡ workers_in (plan.own_queue (item next.now)) }
    ensures most { result ≤ 64 }
{
    match *next {
        Item::Ruleset(_, params) => workers_of(Kind::Ruleset, params),
        Item::Action(_, params) => workers_of(kind_of_action(params), params),
        _ => 0,
    }
}

fn has_too_many_workers(items: &[Item<'_>]) -> bool
    requires { AreClean (map item items.now) }
    ensures { result ≡ nat_lt limits.WORKERS (sum (map (λ q. q.workers) (plan.queues_of (map item items.now)))) }
{
    let mut workers = queue_parameters(Kind::MainQueue, main_queue_params(items)).workers;
    let mut rest = items;
    while let [next, after @ ..] = rest {
        if workers > WORKERS {
            return true;
        }
        workers += workers_at(next);
        rest = after;
    }
    workers > WORKERS
}

fn check_workers(alloc: Global, items: &[Item<'_>]) -> Result<(), PlanFault>
    requires { AreClean (map item items.now) }
    ensures ok { OnOk result (spec.too_many_workers (map item items.now) ≡ []) }
    ensures err { IfErr result (λ f. IsAnswered (spec.too_many_workers (map item items.now)) f) }
{
    if has_too_many_workers(items) {
        let word = b"queue.workerThreads";
        return Err(PlanFault::new(alloc, FaultCode::Range, word, NOWHERE));
    }
    Ok(())
}

/// Refuses a script for the first fault of its items in the order of the text, or for too many workers.
pub fn check_script(alloc: Global, items: &[Item<'_>]) -> Result<(), PlanFault>
    ensures ok { OnOk result (spec.faults_in_text (map item items.now) [] (map placed items.now)
        ++ spec.too_many_workers (map item items.now) ≡ []) }
    ensures err { IfErr result (λ f. IsAnswered (spec.faults_in_text (map item items.now) [] (map placed items.now)
        ++ spec.too_many_workers (map item items.now)) f) }
{
    match whole_of(alloc, items) {
        Ok(whole) => {
            check_each(alloc, &whole, items)?;
            check_workers(alloc, items)
        }
        Err(_) => Err(PlanFault::no_memory(alloc)),
    }
}
