//! The actions, inputs and queues of a plan, as an operator is told of them.

use crate::subject::{Kind, Subject};
use std::alloc::{AllocError, Global};
use sy_places::ways::relay_parts::name_of_list;
use sy_report::texts::parts::{Part, append_parts};
use sy_report::texts::words::Words;
use sy_rules::Plan;

fn named(alloc: Global, kind: Kind, parts: &[Part<'_>]) -> Result<Subject, AllocError> {
    let mut name = Vec::new(alloc);
    append_parts(&mut name, parts)?;
    Ok(Subject::new(kind, name))
}

// Whether a list has the queue of this number.
fn has_queue(plan: &Plan, list: u32, queue: u32) -> bool {
    if (list as usize) >= plan.list_names().len() {
        return false;
    }
    plan.list_queue(list) == Some(queue)
}

// The name of the list that has the queue of this number.
fn list_name(plan: &Plan, queue: u32) -> &[u8] {
    let mut list: u32 = 0;
    for _ in plan.list_names() {
        if has_queue(plan, list, queue) {
            return name_of_list(plan, list);
        }
        list = list.saturating_add(1);
    }
    b""
}

fn queue_subject(alloc: Global, plan: &Plan, queue: u32) -> Result<Subject, AllocError> {
    if queue == 0 {
        return named(alloc, Kind::Queue, &[Part::Text(b"main queue")]);
    }
    let name = Part::Text(list_name(plan, queue));
    named(alloc, Kind::Queue, &[Part::Text(b"queue of "), name])
}

fn push_queues(alloc: Global, subjects: &mut Vec<Subject>, plan: &Plan) -> Result<(), AllocError> {
    let mut queue: u32 = 0;
    for _ in plan.queues() {
        let subject = queue_subject(alloc, plan, queue)?;
        subjects.push(subject)?;
        queue = queue.saturating_add(1);
    }
    Ok(())
}

// The name of a file as it is printed.
fn name_in_line(alloc: Global, name: &[u8]) -> Result<Vec<u8>, AllocError> {
    let mut words = Words::new(alloc);
    words.append_in_line(name);
    words.finish()
}

/// The names of files as they are printed.
pub fn names_in_lines(alloc: Global, names: &[&[u8]]) -> Result<Vec<Vec<u8>>, AllocError> {
    let mut all = Vec::new(alloc);
    for name in names {
        all.push(name_in_line(alloc, name)?)?;
    }
    Ok(all)
}

/// The actions, then the inputs, then the queues of a plan, and then the unread files of these names. Nothing has happened yet to any.
pub fn subjects_of(
    alloc: Global,
    plan: &Plan,
    unread: &[Vec<u8>],
) -> Result<Vec<Subject>, AllocError> {
    let mut subjects = Vec::new(alloc);
    for action in plan.actions() {
        let name = Part::Text(action.name.as_slice());
        subjects.push(named(alloc, Kind::Action, &[Part::Text(b"action "), name])?)?;
    }
    for input in plan.inputs() {
        let port = Part::Number(u64::from(input.port));
        subjects.push(named(alloc, Kind::Input, &[Part::Text(b"input "), port])?)?;
    }
    push_queues(alloc, &mut subjects, plan)?;
    for name in unread {
        let parts = [Part::Text(b"unread file "), Part::Text(name.as_slice())];
        subjects.push(named(alloc, Kind::Unread, &parts)?)?;
    }
    Ok(subjects)
}
