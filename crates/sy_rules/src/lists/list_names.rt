//! The names of lists.
ghost use Rattle.std.specs.Prelude.{◌≡◌, ◌++◌, ◌∷◌, [], map, IfOk, IfErr, OnOk};
ghost use Rattle.sy_rules.specs.Faults.{no_memory};
ghost use Rattle.sy_rules.specs.parts.Plans as plans;

use crate::check::among::DEFAULT_RULESET;
use crate::fault::PlanFault;
use crate::lists::build::count::next;
use crate::parameters::objects::{ActionParameters, RulesetParameters};
use crate::parts::action_names::name_by_number;
use std::alloc::{AllocError, Global};
use sy_script::Items;

fn push_rulesets(
    alloc: Global,
    names: &mut Vec<Items<u8>>,
    rulesets: &[RulesetParameters],
) -> Result<(), AllocError>
    ensures { OnOk result (names.new.items ≡ names.old.items ++ map (λ r. r.name) rulesets.now) }
{
    for ruleset in rulesets {
        names.push(Items::from_slice(alloc, ruleset.name.as_slice())?)?;
    }
    Ok(())
}

fn name_of(alloc: Global, number: u32, action: &ActionParameters) -> Result<Items<u8>, AllocError>
    ensures { IfOk result (λ name. name ≡ plans.action_name number action.now.name) }
{
    match &action.name {
        Some(name) => Items::from_slice(alloc, name.as_slice()),
        None => name_by_number(alloc, number as usize),
    }
}

fn push_name(
    alloc: Global,
    names: &mut Vec<Items<u8>>,
    number: u32,
    action: &ActionParameters,
) -> Result<(), AllocError>
    ensures { OnOk result (names.new.items ≡ names.old.items ++ plans.action_name number action.now.name ∷ []) }
{
    names.push(name_of(alloc, number, action)?)?;
    Ok(())
}

// Those of the actions that have a queue.
fn push_queued(
    alloc: Global,
    names: &mut Vec<Items<u8>>,
    actions: &[ActionParameters],
) -> Result<(), AllocError>
    ensures { OnOk result (names.new.items ≡ names.old.items ++ plans.queued_names 0 actions.now) }
{
    let mut number = 0u32;
    for action in actions {
        if action.queue.is_some() {
            push_name(alloc, names, number, action)?;
        }
        number = next(number)?;
    }
    Ok(())
}

fn all_names(
    alloc: Global,
    rulesets: &[RulesetParameters],
    actions: &[ActionParameters],
) -> Result<Vec<Items<u8>>, AllocError>
    ensures { IfOk result (λ names. names.items ≡ plans.list_names rulesets.now actions.now) }
{
    let mut names = Vec::new(alloc);
    names.push(Items::from_slice(alloc, DEFAULT_RULESET)?)?;
    push_rulesets(alloc, &mut names, rulesets)?;
    push_queued(alloc, &mut names, actions)?;
    Ok(names)
}

/// The names of all lists, in the order of their numbers: the default ruleset's, those of the rulesets, and those of the actions that have
/// a queue.
pub fn list_names(
    alloc: Global,
    rulesets: &[RulesetParameters],
    actions: &[ActionParameters],
) -> Result<Vec<Items<u8>>, PlanFault>
    ensures ok { IfOk result (λ names. names.items ≡ plans.list_names rulesets.now actions.now) }
    ensures err { IfErr result (λ f. f ≡ no_memory) }
{
    match all_names(alloc, rulesets, actions) {
        Ok(names) => Ok(names),
        Err(_) => Err(PlanFault::no_memory(alloc)),
    }
}
