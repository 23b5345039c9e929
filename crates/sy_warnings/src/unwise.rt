//! What is lawful in a relay's file and unwise, item by item.

pub mod archives;

use crate::cautions::{
    after_stop, mark_above_size, no_effect, no_post, no_queue, outside_input, same_file,
    uncalled_ruleset, unreached_action, unread_in_archive,
};
use crate::holdups::warn_of_holders;
use crate::unwise::archives::{file_of_action, warn_of_archive};
use crate::warnings::{Caution, Looked, Warnings};
use sy_places::relay_file::contents::{Item, What};
use sy_places::ways::relay_parts::{name_of_list, occurrences_of, queue_for};
use sy_rules::{Occurrence, Plan, QueueParameters};
use sy_script::tree::Param;
use sy_site::SiteInput;

// ---- queues

// The list of an action that has a queue.
fn list_of_action(looked: Looked<'_>, action: u32) -> Option<u32> {
    let mut list: u32 = 0;
    for _ in looked.plan.list_names() {
        if looked.plan.own_action(list) == Some(action) {
            return Some(list);
        }
        list = list.saturating_add(1);
    }
    None
}

// The queue of an object's own.
#[derive(Clone, Copy)]
struct OwnQueue {
    queue: QueueParameters,
    // whether protected messages come to it
    is_protected: bool,
    // whether messages are posted to it; no others than posts wait by its workerFlow
    is_posted_to: bool,
}

// The queue of this number.
fn queue_numbered(looked: Looked<'_>, number: u32) -> Option<OwnQueue> {
    match looked.plan.queues().get(number as usize) {
        Some(queue) => Some(OwnQueue {
            queue: *queue,
            is_protected: protected_port(looked, number).is_some(),
            is_posted_to: false,
        }),
        None => None,
    }
}

// Whether messages are posted to a list.
fn is_posted_to(plan: &Plan, list: u32) -> bool {
    let mut from: u32 = 0;
    for _ in plan.list_names() {
        if occurrences_of(plan, from).contains(&Occurrence::Post(list)) {
            return true;
        }
        from = from.saturating_add(1);
    }
    false
}

// The queue of a list by its number, where it has one of its own.
fn queue_at(looked: Looked<'_>, list: u32) -> Option<OwnQueue> {
    let number = queue_for(looked.plan, list);
    if number == 0 {
        return None;
    }
    let own = queue_numbered(looked, number)?;
    Some(OwnQueue {
        is_protected: own.is_protected || looked.kept.has_list(list),
        is_posted_to: is_posted_to(looked.plan, list),
        ..own
    })
}

// The queue that an object has of its own.
fn own_queue(looked: Looked<'_>, what: What<'_>) -> Option<OwnQueue> {
    match what {
        What::MainQueue => queue_numbered(looked, 0),
        What::Ruleset(number) => queue_at(looked, number.saturating_add(1)),
        What::Action(number) => queue_at(looked, list_of_action(looked, number)?),
        _ => None,
    }
}

// ---- parameters

/// The parameters of queues that have no effect.
static IDLE: [&[u8]; 7] = [
    b"queue.highWatermark",
    b"queue.lowWatermark",
    b"queue.workerThreadMinimumMessages",
    b"queue.timeoutShutdown",
    b"queue.timeoutActionCompletion",
    b"queue.timeoutWorkerThreadShutdown",
    b"queue.saveOnShutdown",
];

fn is_idle(name: &[u8]) -> bool {
    IDLE.iter().any(|idle| idle.eq_ignore_ascii_case(name))
}

// Whether a parameter is one of a queue, and not the one that says whether there is one.
fn is_of_queue(name: &[u8]) -> bool {
    match name.get(..6) {
        Some(front) => {
            front.eq_ignore_ascii_case(b"queue.") && !name.eq_ignore_ascii_case(b"queue.type")
        }
        None => false,
    }
}

// The mark that a parameter sets. A full-delay mark that protected messages wait at isn't warned of: where it is above the
// size, that is found.
fn mark_of(own: OwnQueue, name: &[u8]) -> Option<u32> {
    if name.eq_ignore_ascii_case(b"queue.fullDelayMark") && !own.is_protected {
        return Some(own.queue.full_delay_mark);
    }
    if name.eq_ignore_ascii_case(b"queue.lightDelayMark") {
        return Some(own.queue.light_delay_mark);
    }
    if name.eq_ignore_ascii_case(b"queue.discardMark") {
        return Some(own.queue.discard_mark);
    }
    None
}

// Warns of a parameter of an object that may have a queue.
fn warn_of_queue(
    warnings: &mut Warnings,
    looked: Looked<'_>,
    item: Item<'_>,
    param: &Param,
    own: Option<OwnQueue>,
) {
    let name = param.name.text.as_slice();
    if is_idle(name) {
        let note = no_effect(warnings.alloc, looked, item, param);
        warnings.push(Caution::NoEffect, note);
        return;
    }
    let Some(own) = own else {
        if is_of_queue(name) {
            let note = no_queue(warnings.alloc, looked, item, param);
            warnings.push(Caution::NoEffect, note);
        }
        return;
    };
    if name.eq_ignore_ascii_case(b"queue.workerFlow") && !own.is_posted_to {
        let note = no_post(warnings.alloc, looked, item, param);
        warnings.push(Caution::NoEffect, note);
    }
    if let Some(mark) = mark_of(own, name) {
        if mark > own.queue.size {
            let note = mark_above_size(warnings.alloc, looked, item, param, own.queue, mark);
            warnings.push(Caution::MarkAboveSize, note);
        }
    }
}

// Warns of the parameters of an object.
fn warn_of_params(warnings: &mut Warnings, looked: Looked<'_>, item: Item<'_>) {
    let own = own_queue(looked, item.what);
    for param in item.params {
        if warnings.is_full() {
            return;
        }
        let name = param.name.text.as_slice();
        match item.what {
            What::Module | What::Call(_) => {}
            What::Global => {
                let note = no_effect(warnings.alloc, looked, item, param);
                warnings.push(Caution::NoEffect, note);
            }
            What::Input(_) => {
                if name.eq_ignore_ascii_case(b"name") {
                    let note = no_effect(warnings.alloc, looked, item, param);
                    warnings.push(Caution::NoEffect, note);
                }
            }
            _ => warn_of_queue(warnings, looked, item, param, own),
        }
    }
}

// ---- rulesets and inputs

// Whether an input or a call elsewhere names a ruleset.
fn is_named(looked: Looked<'_>, ruleset: u32) -> bool {
    let list = ruleset.saturating_add(1);
    let name = name_of_list(looked.plan, list);
    if looked.plan.inputs().iter().any(|input| input.list == list) {
        return true;
    }
    for item in looked.items {
        if let What::Call(called) = item.what {
            if called == name && item.ruleset != Some(ruleset) {
                return true;
            }
        }
    }
    false
}

fn warn_of_ruleset(warnings: &mut Warnings, looked: Looked<'_>, item: Item<'_>, ruleset: u32) {
    if !is_named(looked, ruleset) {
        let note = uncalled_ruleset(warnings.alloc, looked, item, ruleset);
        warnings.push(Caution::UncalledRuleset, note);
    }
}

// The port of an input that protected messages come to and that has this queue.
fn protected_port(looked: Looked<'_>, queue: u32) -> Option<u16> {
    for at in looked.protected {
        if at.relay == looked.relay {
            match looked.plan.inputs().get(at.input as usize) {
                Some(input) if input.queue == queue => return Some(input.port),
                _ => {}
            }
        }
    }
    None
}

// The archive that writes a file.
fn archive_of_file(plan: &Plan, file: &[u8]) -> Option<u32> {
    let mut number: u32 = 0;
    for _ in plan.actions() {
        if file_of_action(plan, number) == Some(file) {
            return Some(number);
        }
        number = number.saturating_add(1);
    }
    None
}

// Warns of an input whose unread frames go to the file of an archive.
fn warn_of_unread(warnings: &mut Warnings, looked: Looked<'_>, item: Item<'_>, number: u32) {
    let Some(input) = looked.plan.inputs().get(number as usize) else {
        return;
    };
    if let Some(file) = &input.unread_file {
        if let Some(action) = archive_of_file(looked.plan, file.as_slice()) {
            let note = unread_in_archive(warnings.alloc, looked, item, file.as_slice(), action);
            warnings.push(Caution::SameFile, note);
        }
    }
}

// Warns of an input that shares a queue with protected messages, and isn't reached itself.
fn warn_of_outside(warnings: &mut Warnings, looked: Looked<'_>, item: Item<'_>, number: u32) {
    let at = SiteInput {
        relay: looked.relay,
        input: number,
    };
    if looked.reached.contains(&at) {
        return;
    }
    let Some(input) = looked.plan.inputs().get(number as usize) else {
        return;
    };
    if let Some(port) = protected_port(looked, input.queue) {
        let note = outside_input(warnings.alloc, looked, item, input, port);
        warnings.push(Caution::OutsideInput, note);
    }
}

// ---- actions and calls

// Warns of the first action or call behind a stop.
fn warn_behind_stop(warnings: &mut Warnings, looked: Looked<'_>, item: Item<'_>, stop: usize) {
    if item.is_first {
        let note = after_stop(warnings.alloc, looked, item, stop);
        warnings.push(Caution::AfterStop, note);
    }
}

// The file of an archive, and an earlier archive with the same.
fn same_as<'a>(looked: Looked<'a>, action: u32) -> Option<(&'a [u8], u32)> {
    let file = file_of_action(looked.plan, action)?;
    for earlier in 0..action {
        match file_of_action(looked.plan, earlier) {
            Some(other) if other == file => return Some((file, earlier)),
            _ => {}
        }
    }
    None
}

// Whether it is known already why no message comes to what stands in a ruleset: nothing names that.
fn is_left_out(looked: Looked<'_>, ruleset: Option<u32>) -> bool {
    match ruleset {
        Some(ruleset) => !is_named(looked, ruleset),
        None => false,
    }
}

fn warn_of_action(warnings: &mut Warnings, looked: Looked<'_>, item: Item<'_>, action: u32) {
    match item.stop {
        Some(stop) => warn_behind_stop(warnings, looked, item, stop),
        None => {
            if !looked.executed.has_action(action) && !is_left_out(looked, item.ruleset) {
                let note = unreached_action(warnings.alloc, looked, item);
                warnings.push(Caution::UnreachedAction, note);
            }
        }
    }
    if let Some((file, earlier)) = same_as(looked, action) {
        let note = same_file(warnings.alloc, looked, item, file, earlier);
        warnings.push(Caution::SameFile, note);
    }
}

/// Warns of an object or a statement, and of its parameters.
pub fn warn_of_item(warnings: &mut Warnings, looked: Looked<'_>, item: Item<'_>) {
    if warnings.is_full() {
        return;
    }
    match item.what {
        What::Ruleset(number) => warn_of_ruleset(warnings, looked, item, number),
        What::Input(number) => {
            warn_of_outside(warnings, looked, item, number);
            warn_of_unread(warnings, looked, item, number);
        }
        What::Action(number) => {
            warn_of_action(warnings, looked, item, number);
            warn_of_archive(warnings, looked, item, number);
            warn_of_holders(warnings, looked, item, number);
        }
        What::Call(_) => {
            if let Some(stop) = item.stop {
                warn_behind_stop(warnings, looked, item, stop);
            }
        }
        What::Module | What::Global | What::MainQueue => {}
    }
    warn_of_params(warnings, looked, item);
}
