//! Gathers the queue of each list from the items of a script with which nothing is wrong.

ghost use Rattle.std.specs.Prelude.{◌≡◌, ◌≤◌, ◌++◌, filter_map, is_some, length, map, IfOk, IfErr, OnOk};
ghost use Rattle.sy_rules.specs.Faults.{no_memory};
ghost use Rattle.sy_rules.specs.items.ItemViews.{item};
ghost use Rattle.sy_rules.specs.parts.Plans as plans;

use crate::fault::PlanFault;
use crate::items::outline::Item;
use crate::parameters::kind::Kind;
use crate::parameters::objects::kind_of_action;
use crate::parameters::settings::has_queue;
use crate::parts::of_items::push_part;
use std::alloc::Global;

#[tactic(auto, unfolding(crate::specs::parameters::Objects::ruleset_of, crate::specs::parameters::Objects::action_of))]
fn has_own_queue(next: &Item<'_>) -> bool
    ensures { result ≡ is_some (plans.own_queue (item next.now)) }
{
    match *next {
        Item::Ruleset(_, params) => has_queue(Kind::Ruleset, params),
        Item::Action(_, params) => has_queue(kind_of_action(params), params),
        _ => false,
    }
}

fn is_ruleset(next: &Item<'_>) -> bool
    ensures { result ≡ plans.is_ruleset (item next.now) }
{
    matches!(next, Item::Ruleset(_, _))
}

fn is_queued_action(next: &Item<'_>) -> bool
    ensures { result ≡ plans.is_queued_action (item next.now) }
{
    match next {
        Item::Action(_, _) => has_own_queue(next),
        _ => false,
    }
}

// The queue that an item gives, where queues with smaller numbers than this stand before it.
fn queue_here(number: u32, next: &Item<'_>) -> Option<u32>
    ensures { result ≡ plans.queue_here number (item next.now) }
{
    if has_own_queue(next) {
        Some(number)
    } else {
        None
    }
}

// The number of the next queue after an item.
fn queue_after(number: u32, next: &Item<'_>) -> u32
    requires { number ≤ 513 }
    ensures { result ≡ plans.queue_after number (item next.now) }
{
    if has_own_queue(next) {
        number + 1
    } else {
        number
    }
}

fn push_ruleset_queues(
    alloc: Global,
    found: &mut Vec<Option<u32>>,
    items: &[Item<'_>],
) -> Result<(), PlanFault>
    requires few { length (filter_map plans.own_queue (map item items.now)) ≤ 512 }
    ensures ok { OnOk result (found.new.items ≡ found.old.items ++ plans.ruleset_queues 1 (map item items.now)) }
    ensures err { IfErr result (λ f. f ≡ no_memory) }
{
    let mut number = 1;
    let mut rest = items;
    while let [next, after @ ..] = rest {
        if is_ruleset(next) {
            push_part(alloc, found, queue_here(number, next))?;
        }
        number = queue_after(number, next);
        rest = after;
    }
    Ok(())
}

fn push_action_queues(
    alloc: Global,
    found: &mut Vec<Option<u32>>,
    items: &[Item<'_>],
) -> Result<(), PlanFault>
    requires few { length (filter_map plans.own_queue (map item items.now)) ≤ 512 }
    ensures ok { OnOk result (found.new.items ≡ found.old.items ++ plans.action_queues 1 (map item items.now)) }
    ensures err { IfErr result (λ f. f ≡ no_memory) }
{
    let mut number = 1;
    let mut rest = items;
    while let [next, after @ ..] = rest {
        if is_queued_action(next) {
            push_part(alloc, found, Some(number))?;
        }
        number = queue_after(number, next);
        rest = after;
    }
    Ok(())
}

/// The queue of each list, where it has one of its own.
pub fn list_queues(alloc: Global, items: &[Item<'_>]) -> Result<Vec<Option<u32>>, PlanFault>
    requires few { length (filter_map plans.own_queue (map item items.now)) ≤ 512 }
    ensures ok { IfOk result (λ found. found.items ≡ plans.list_queues (map item items.now)) }
    ensures err { IfErr result (λ f. f ≡ no_memory) }
{
    let mut found = Vec::new(alloc);
    push_part(alloc, &mut found, None)?;
    push_ruleset_queues(alloc, &mut found, items)?;
    push_action_queues(alloc, &mut found, items)?;
    Ok(found)
}
