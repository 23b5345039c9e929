//! Warnings of what holds up protected messages.

use crate::cautions::{note_of, push_action};
use crate::holders::{Holder, Holding};
use crate::objects::action_part;
use crate::warnings::{Caution, Looked, Warnings};
use std::alloc::Global;
use sy_places::relay_file::contents::{Item, What};
use sy_places::site_file::source::point_at;
use sy_places::ways::relay_parts::{name_of_list, queue_for};
use sy_report::texts::note::Note;
use sy_report::texts::parts::Part;
use sy_rules::{Occurrence, Plan};

// ---- what is held up

// The list that a queue leads to.
fn list_of_queue(plan: &Plan, queue: u32) -> u32 {
    let mut list: u32 = 0;
    for _ in plan.list_names() {
        if queue_for(plan, list) == queue {
            return list;
        }
        list = list.saturating_add(1);
    }
    0
}

// Puts a queue by what it belongs to.
fn push_queue(note: &mut Note, plan: &Plan, queue: u32) {
    if queue == 0 {
        note.why.say("the main queue");
        return;
    }
    let list = list_of_queue(plan, queue);
    note.why.append(&[
        Part::Text(b"the queue of ruleset "),
        Part::Text(name_of_list(plan, list)),
    ]);
}

// Puts a ruleset by its name and where it stands.
fn push_ruleset(note: &mut Note, looked: Looked<'_>, list: u32) {
    note.why.append(&[
        Part::Text(b"ruleset "),
        Part::Text(name_of_list(looked.plan, list)),
    ]);
    for item in looked.items {
        if let What::Ruleset(number) = item.what {
            if number.saturating_add(1) == list {
                let point = point_at(looked.text, item.place);
                note.why.append(&[
                    Part::Text(b" at "),
                    Part::Text(looked.file.as_bytes()),
                    Part::Text(b":"),
                    Part::Number(point.line),
                    Part::Text(b":"),
                    Part::Number(point.column),
                ]);
                return;
            }
        }
    }
}

// Puts what protected messages need: an action, or the ruleset whose queue they are posted to.
fn push_needed(note: &mut Note, looked: Looked<'_>, needed: Option<Occurrence>) {
    match needed {
        Some(Occurrence::Run(action)) => {
            note.why.say("action ");
            push_action(note, looked, action);
        }
        Some(Occurrence::Post(list)) => match looked.plan.own_action(list) {
            Some(action) => {
                note.why.say("the queue of action ");
                push_action(note, looked, action);
            }
            None => {
                note.why.say("the queue of ");
                push_ruleset(note, looked, list);
            }
        },
        None => note.why.say("what they need"),
    }
}

/// That an action that may wait without end shares a worker with what protected messages need.
fn shared_worker(alloc: Global, looked: Looked<'_>, item: Item<'_>, holder: Holder) -> Note {
    let mut note = note_of(alloc, looked, item);
    note.why.say(
        "it is tried without end, and protected messages don't need it; while it fails, the worker of ",
    );
    push_queue(&mut note, looked.plan, holder.queue);
    note.why.say(" waits for it, and holds up what they need of that worker: ");
    push_needed(&mut note, looked, holder.needed);
    note.change.say(
        "queue.type=\"LinkedList\" queue.timeoutEnqueue=\"0\" there, so that a worker of its own waits; what finds that queue full is lost at once",
    );
    note
}

/// That a spare action stands before what protected messages need.
fn bottleneck(alloc: Global, looked: Looked<'_>, item: Item<'_>, holder: Holder) -> Note {
    let mut note = note_of(alloc, looked, item);
    note.why.say(
        "it is spare and has no queue of its own, so that protected messages wait for it before what they need: ",
    );
    push_needed(&mut note, looked, holder.needed);
    note.change.say(
        "queue.type=\"LinkedList\" queue.timeoutEnqueue=\"0\" there, so that a worker of its own waits; what finds that queue full is lost at once",
    );
    note
}

/// Warns of an action that holds up protected messages.
pub fn warn_of_holders(warnings: &mut Warnings, looked: Looked<'_>, item: Item<'_>, action: u32) {
    for holder in looked.holders {
        if holder.relay == looked.relay && holder.action == action && !warnings.is_full() {
            match holder.holding {
                Holding::SharedWorker => {
                    let note = shared_worker(warnings.alloc, looked, item, *holder);
                    warnings.push(Caution::SharedWorker, note);
                }
                Holding::Bottleneck => {
                    let note = bottleneck(warnings.alloc, looked, item, *holder);
                    warnings.push(Caution::Bottleneck, note);
                }
            }
        }
    }
}
