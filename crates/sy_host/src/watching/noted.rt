//! What the log knows of a relay's actions, inputs and queues, for who watches.

use std::alloc::{AllocError, Global};
use std::time::Clock;
use sy_log::log::Log;
use sy_log::subject::{Kind, Subject};
use sy_rules::Plan;
use sy_watched::file::MetricsFile;
use sy_watched::look::{Noted, NotedOfAll, now};
use sy_watched::watch::Watch;

/// What the log knew at one moment.
#[derive(Drop)]
pub struct NotedLists {
    actions: Vec<Noted>,
    inputs: Vec<Noted>,
    queues: Vec<Noted>,
    unread: Option<Noted>,
}

impl NotedLists {
    /// What is known of all.
    pub fn all(&self) -> NotedOfAll<'_> {
        NotedOfAll {
            actions: self.actions.as_slice(),
            inputs: self.inputs.as_slice(),
            queues: self.queues.as_slice(),
            unread: self.unread,
        }
    }
}

fn noted_of(subject: &Subject) -> Noted {
    let seen = subject.seen();
    Noted {
        on: seen.on,
        begun: seen.begun,
        why: subject.why(),
        taken: subject.taken(),
        unread: subject.unread(),
        lost: seen.lost,
        since: subject.since(),
    }
}

// What is known of unread files, of which one more is this: of one that fails, where one does.
fn worse(before: Option<Noted>, noted: Noted) -> Noted {
    match before {
        Some(before) if before.on > 0 => before,
        _ => noted,
    }
}

/// Notes the time at what of a log has changed since that was last noted.
pub fn date<R: Clock>(rt: &R, log: &Log) {
    log.date(now(rt));
}

/// What a log knows now.
pub fn noted<R: Clock>(rt: &R, alloc: Global, log: &Log) -> Result<NotedLists, AllocError> {
    date(rt, log);
    let mut lists = NotedLists {
        actions: Vec::new(alloc),
        inputs: Vec::new(alloc),
        queues: Vec::new(alloc),
        unread: None,
    };
    for subject in log.subjects() {
        let noted = noted_of(subject);
        match subject.kind {
            Kind::Action => lists.actions.push(noted)?,
            Kind::Input => lists.inputs.push(noted)?,
            Kind::Queue => lists.queues.push(noted)?,
            Kind::Unread => lists.unread = Some(worse(lists.unread, noted)),
        }
    }
    Ok(lists)
}

/// What is watched of a relay of that name and plan, whose queues are named as in its log. Its metrics are written to that file, where there is
/// one.
pub fn watch_of(
    alloc: Global,
    relay: &[u8],
    plan: &Plan,
    log: &Log,
    file: Option<MetricsFile>,
) -> Result<Watch, AllocError> {
    let mut watch = Watch::new(alloc, relay, plan, file)?;
    let mut number: usize = 0;
    for subject in log.subjects() {
        if subject.kind == Kind::Queue {
            if let Some(parameters) = plan.queues().get(number) {
                watch.push_queue(alloc, subject.name.as_slice(), parameters)?;
            }
            number = number.saturating_add(1);
        }
    }
    Ok(watch)
}
