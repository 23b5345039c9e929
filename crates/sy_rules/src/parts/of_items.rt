//! Gathers the parts of a plan from the items of a script with which nothing is wrong.
//!
//! Each part takes one pass over the items. What they need in memory is all that they may be refused.

ghost use Rattle.std.specs.Prelude.{◌≡◌, ◌≤◌, ◌<◌, ◌+◌, ◌++◌, ◌∷◌, [], length, map, replicate, slice_get, IfOk, IfErr, OnOk, List};
ghost use Rattle.sy_rules.specs.Faults.{no_memory};
ghost use Rattle.sy_rules.specs.items.ItemFaults.{object_faults};
ghost use Rattle.sy_rules.specs.internal.Checking.{AreClean};
ghost use Rattle.sy_rules.specs.items.ItemViews.{item};
ghost use Rattle.sy_rules.specs.parameters.Objects.{AreInRange};
ghost use Rattle.sy_rules.specs.internal.Objects.{IsQueueInRange};
ghost use Rattle.sy_rules.specs.items.Outline as outline;
ghost use Rattle.sy_rules.specs.parameters.Values.{faults};
ghost use Rattle.sy_rules.specs.parts.Plans as plans;
ghost use Rattle.sy_rules.specs.PlanValue as spec;

use crate::fault::PlanFault;
use crate::items::borrowed::main_queue_params;
use crate::items::outline::Item;
use crate::parameters::kind::Kind;
use crate::parameters::objects::{
    ActionParameters, InputParameters, RulesetParameters, kind_of_action, queue_of, read_action,
    read_input, read_ruleset,
};
use crate::parameters::settings::{QueueParameters, queue_parameters};
use crate::parts::action_names::moved_name;
use crate::parts::{Action, Input};
use std::alloc::Global;
use sy_script::Items;
use sy_script::tree::{ObjectKind, Param};

pub(crate) fn push_part<T: Drop>(
    alloc: Global,
    found: &mut Vec<T>,
    next: T,
) -> Result<(), PlanFault>
    ensures ok { OnOk result (found.new.items ≡ found.old.items ++ next ∷ []) }
    ensures err { IfErr result (λ f. f ≡ no_memory) }
{
    match found.push(next) {
        Ok(()) => Ok(()),
        Err(_) => Err(PlanFault::no_memory(alloc)),
    }
}

// ---- rulesets and actions

#[tactic(auto, unfolding(crate::specs::parameters::Objects::ruleset_of))]
fn ruleset_at(alloc: Global, next: &Item<'_>) -> Result<Option<RulesetParameters>, PlanFault>
    requires { object_faults (item next.now) ≡ [] }
    ensures ok { IfOk result (λ r. r ≡ plans.ruleset_at (item next.now)) }
    ensures err { IfErr result (λ f. f ≡ no_memory) }
{
    match *next {
        Item::Ruleset(_, params) => Ok(Some(read_ruleset(alloc, params)?)),
        _ => Ok(None),
    }
}

/// The rulesets, numbered from 0 in the order of the text.
pub fn rulesets(alloc: Global, items: &[Item<'_>]) -> Result<Vec<RulesetParameters>, PlanFault>
    requires clean { AreClean (map item items.now) }
    ensures ok { IfOk result (λ found. found.items ≡ plans.rulesets_of (map item items.now)) }
    ensures err { IfErr result (λ f. f ≡ no_memory) }
{
    let mut found = Vec::new(alloc);
    let mut rest = items;
    while let [next, after @ ..] = rest {
        if let Some(ruleset) = ruleset_at(alloc, next)? {
            push_part(alloc, &mut found, ruleset)?;
        }
        rest = after;
    }
    Ok(found)
}

#[tactic(auto, unfolding(crate::specs::parameters::Objects::action_of))]
fn action_at(alloc: Global, next: &Item<'_>) -> Result<Option<ActionParameters>, PlanFault>
    requires { object_faults (item next.now) ≡ [] }
    ensures ok { IfOk result (λ a. a ≡ plans.action_at (item next.now)) }
    ensures err { IfErr result (λ f. f ≡ no_memory) }
{
    match *next {
        Item::Action(_, params) => Ok(Some(read_action(alloc, params)?)),
        _ => Ok(None),
    }
}

/// The actions, numbered from 0 in the order of the text.
pub fn actions(alloc: Global, items: &[Item<'_>]) -> Result<Vec<ActionParameters>, PlanFault>
    requires clean { AreClean (map item items.now) }
    ensures ok { IfOk result (λ found. found.items ≡ plans.actions_of (map item items.now)) }
    ensures err { IfErr result (λ f. f ≡ no_memory) }
{
    let mut found = Vec::new(alloc);
    let mut rest = items;
    while let [next, after @ ..] = rest {
        if let Some(action) = action_at(alloc, next)? {
            push_part(alloc, &mut found, action)?;
        }
        rest = after;
    }
    Ok(found)
}

fn push_action_parts(
    alloc: Global,
    found: &mut Vec<Action>,
    actions: Vec<ActionParameters>,
) -> Result<(), PlanFault>
    requires few { length actions.items ≤ 256 }
    ensures ok { OnOk result (found.new.items ≡ found.old.items ++ spec.action_parts 0 actions.items) }
    ensures err { IfErr result (λ f. f ≡ no_memory) }
{
    let mut left = actions.into_iter();
    let mut number = 0;
    while let Some(action) = left.next() {
        let part = action_part(alloc, number, action)?;
        push_part(alloc, found, part)?;
        number += 1;
    }
    Ok(())
}

fn action_part(alloc: Global, number: u32, action: ActionParameters) -> Result<Action, PlanFault>
    ensures ok { IfOk result (λ part. part ≡ spec.action_part number action) }
    ensures err { IfErr result (λ f. f ≡ no_memory) }
{
    let ActionParameters {
        name,
        destination,
        retry,
        resume_interval,
        queue: _,
    } = action;
    let name = moved_name(alloc, number, name)?;
    Ok(Action {
        name,
        destination,
        retry,
        resume_interval,
    })
}

/// The actions as the plan has them. Their texts are moved, and not copied.
pub fn action_parts(alloc: Global, actions: Vec<ActionParameters>) -> Result<Vec<Action>, PlanFault>
    requires few { length actions.items ≤ 256 }
    ensures ok { IfOk result (λ found. found.items ≡ spec.action_parts 0 actions.items) }
    ensures err { IfErr result (λ f. f ≡ no_memory) }
{
    let mut found = Vec::new(alloc);
    push_action_parts(alloc, &mut found, actions)?;
    Ok(found)
}

// ---- queues and their workers

#[tactic(auto, unfolding(crate::specs::parameters::Objects::ruleset_of, crate::specs::parameters::Objects::action_of))]
fn own_queue(next: &Item<'_>) -> Option<QueueParameters>
    requires { object_faults (item next.now) ≡ [] }
    ensures value { result ≡ plans.own_queue (item next.now) }
{
    match *next {
        Item::Ruleset(_, params) => queue_of(Kind::Ruleset, params),
        Item::Action(_, params) => queue_of(kind_of_action(params), params),
        _ => None,
    }
}

/// The queues: the main queue, and those of rulesets and actions in the order of the text.
pub fn queues(alloc: Global, items: &[Item<'_>]) -> Result<Vec<QueueParameters>, PlanFault>
    requires clean { AreClean (map item items.now) }
    ensures ok { IfOk result (λ found. found.items ≡ plans.queues_of (map item items.now)) }
    ensures err { IfErr result (λ f. f ≡ no_memory) }
{
    let mut found = Vec::new(alloc);
    let main = queue_parameters(Kind::MainQueue, main_queue_params(items));
    push_part(alloc, &mut found, main)?;
    let mut rest = items;
    while let [next, after @ ..] = rest {
        if let Some(queue) = own_queue(next) {
            push_part(alloc, &mut found, queue)?;
        }
        rest = after;
    }
    Ok(found)
}

fn push_workers(
    alloc: Global,
    found: &mut Vec<u32>,
    count: u32,
    queue: u32,
) -> Result<(), PlanFault>
    ensures ok { OnOk result (found.new.items ≡ found.old.items ++ replicate count queue) }
    ensures err { IfErr result (λ f. f ≡ no_memory) }
{
    let mut left = count;
    while left > 0 {
        push_part(alloc, found, queue)?;
        left -= 1;
    }
    Ok(())
}

/// The queue of each worker, numbered through the queues.
pub fn workers(alloc: Global, queues: &[QueueParameters]) -> Result<Vec<u32>, PlanFault>
    requires few { length queues.now ≤ 513 }
    ensures ok { IfOk result (λ found. found.items ≡ plans.workers_from 0 queues.now) }
    ensures err { IfErr result (λ f. f ≡ no_memory) }
{
    let mut found = Vec::new(alloc);
    let mut number = 0;
    let mut rest = queues;
    while let [queue, after @ ..] = rest {
        push_workers(alloc, &mut found, queue.workers, number)?;
        number += 1;
        rest = after;
    }
    Ok(found)
}

// ---- inputs

#[tactic(auto, unfolding(crate::specs::parameters::Objects::input_of))]
fn input_at(alloc: Global, next: &Item<'_>) -> Result<Option<InputParameters>, PlanFault>
    requires { object_faults (item next.now) ≡ [] }
    ensures ok { IfOk result (λ i. i ≡ plans.input_at (item next.now)) }
    ensures err { IfErr result (λ f. f ≡ no_memory) }
{
    match *next {
        Item::Object(_, ObjectKind::Input, params) => Ok(Some(read_input(alloc, params)?)),
        _ => Ok(None),
    }
}

#[tactic(auto, using(crate::proofs::lemmas::parts::ListNames::named_from_next, crate::proofs::lemmas::parts::ListNames::named_from_first))]
// The list of the ruleset of this name. There are at most 256 to look at.
fn list_named(rulesets: &[RulesetParameters], name: &[u8]) -> u32
    requires few { length rulesets.now ≤ 256 }
    ensures { result ≡ plans.list_at_place (plans.place_of name.now (map (λ r. r.name) rulesets.now)) }
{
    let mut list = 1;
    let mut rest = rulesets;
    while let [ruleset, after @ ..] = rest {
        if name == ruleset.name.as_slice() {
            return list;
        }
        list += 1;
        rest = after;
    }
    0
}

// An input puts into the queue of its list, or else into the main queue.
fn queue_or_main(queues: &[Option<u32>], list: u32) -> u32
    ensures { result ≡ spec.queue_or_main (slice_get queues.now list) }
{
    match queues.get(list as usize) {
        Some(Some(queue)) => *queue,
        _ => 0,
    }
}

// The list that an input's messages execute.
fn list_of_input(rulesets: &[RulesetParameters], input: &InputParameters) -> u32
    requires few { length rulesets.now ≤ 256 }
    ensures { (all : List outline.Item) → plans.rulesets_of all ≡ rulesets.now
        → result ≡ plans.list_of_input all input.now.ruleset_name }
{
    match &input.ruleset_name {
        Some(name) => list_named(rulesets, name.as_slice()),
        None => 0,
    }
}

fn input_part(
    rulesets: &[RulesetParameters],
    queues: &[Option<u32>],
    input: InputParameters,
) -> Input
    requires few { length rulesets.now ≤ 256 }
    ensures { (all : List outline.Item) → plans.rulesets_of all ≡ rulesets.now → plans.list_queues all ≡ queues.now
        → result ≡ spec.input_part all input }
{
    let list = list_of_input(rulesets, &input);
    Input {
        port: input.port,
        flow: input.flow,
        list,
        queue: queue_or_main(queues, list),
        unread_file: input.unread_file,
    }
}

/// The inputs, from the rulesets and the queues of the lists.
pub fn inputs(
    alloc: Global,
    items: &[Item<'_>],
    rulesets: &[RulesetParameters],
    queues: &[Option<u32>],
) -> Result<Vec<Input>, PlanFault>
    requires clean { AreClean (map item items.now) }
    requires few { length rulesets.now ≤ 256 }
    requires rulesets { plans.rulesets_of (map item items.now) ≡ rulesets.now }
    requires queues { plans.list_queues (map item items.now) ≡ queues.now }
    ensures ok { IfOk result (λ found. found.items ≡ map (spec.input_part (map item items.now))
        (plans.inputs_of (map item items.now))) }
    ensures err { IfErr result (λ f. f ≡ no_memory) }
{
    let mut found = Vec::new(alloc);
    let mut rest = items;
    while let [next, after @ ..] = rest {
        if let Some(input) = input_at(alloc, next)? {
            push_part(alloc, &mut found, input_part(rulesets, queues, input))?;
        }
        rest = after;
    }
    Ok(found)
}
