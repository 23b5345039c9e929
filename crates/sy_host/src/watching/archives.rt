//! The thread that watches over archives: it opens them anew, and tells where one can't be, or has lost its name.

use crate::reporting::millis;
use std::alloc::{AllocError, Global};
use std::sync::{Arc, Wait};
use std::thread;
use std::thread::Threads;
use std::time::{Clock, Instant};
use sy_inputs::serving::Serving;
use sy_outlets::rotation::lines::{answer_line, notice_line};
use sy_outlets::rotation::reopens::Reopens;
use sy_outlets::rotation::rotated::{Known, Rotated};
use sy_outlets::rotation::troubles::{Troubles, earlier};
use sy_wire::Sink;

/// For how many milliseconds an answer waits for archives that are written to, and how often it is looked, in milliseconds.
const ANSWER_WAIT: u64 = 1000;

const TURN: u64 = 20;

// An archive that is watched over.
#[derive(Drop)]
struct Watched {
    archive: Arc<Rotated>,
    troubles: Troubles,
}

// What watches over the archives of a relay.
#[derive(Drop)]
struct Watcher<E: Drop> {
    serving: Arc<Serving<E>>,
    reopens: Arc<Reopens>,
    archives: Vec<Watched>,
    // up to which request it was answered, and when the next answer is given at the latest
    answered: u64,
    answer_by: Option<u64>,
}

// How many archives were opened anew for a request, how many wait, and when to look again, where that is known.
#[derive(Clone, Copy)]
struct Seen {
    reopened: u64,
    later: u64,
    wake: Option<u64>,
}

impl Seen {
    // One more archive of which this is known.
    fn add(&mut self, known: &Known, asked: u64) {
        if known.followed >= asked {
            self.reopened = self.reopened.saturating_add(1);
        } else if known.tried < asked {
            self.later = self.later.saturating_add(1);
        }
    }
}

// Tells what is due of an archive.
fn report_due<R: Wait, E: Sink + Drop>(
    rt: &R,
    alloc: Global,
    serving: &Serving<E>,
    watched: &mut Watched,
    known: &Known,
    now: u64,
) {
    let Some(notice) = watched.troubles.take_notice(now, known) else {
        return;
    };
    let archive = &*watched.archive;
    let path = archive.path().as_bytes();
    if let Ok(line) = notice_line(alloc, archive.log().name(), path, notice) {
        serving.report_line(rt, line.as_slice());
    }
}

// Opens an archive anew for requests up to this one, where that is due, and looks at its name; what is known of it then.
fn attend(watched: &mut Watched, asked: u64, now: u64) -> Option<Known> {
    let archive = &*watched.archive;
    let before = archive.known()?;
    if watched.troubles.take_retry(now, &before, asked) {
        archive.reopen(asked);
    }
    let known = archive.known()?;
    watched.troubles.renew(&known);
    if watched
        .troubles
        .take_look(now, &known, archive.is_written())
    {
        watched.troubles.see(archive.look(&known));
    }
    Some(known)
}

// Attends to all archives, and tells what is due of each.
fn attend_to_all<R: Wait, E: Sink + Drop>(
    rt: &R,
    alloc: Global,
    watcher: &mut Watcher<E>,
    asked: u64,
    now: u64,
) -> Seen {
    let mut seen = Seen {
        reopened: 0,
        later: 0,
        wake: None,
    };
    for watched in watcher.archives.iter_mut() {
        if let Some(known) = attend(watched, asked, now) {
            report_due(rt, alloc, &watcher.serving, watched, &known, now);
            seen.add(&known, asked);
            let wake = watched.troubles.wake(&known, watched.archive.is_written());
            let retry = watched.troubles.retry_wake(&known, asked);
            seen.wake = earlier(seen.wake, earlier(wake, retry));
        }
    }
    seen
}

// Answers a request once all archives were tried, or where that lasts; and answers when to look again, where that is known.
fn answer<R: Wait, E: Sink + Drop>(
    rt: &R,
    alloc: Global,
    watcher: &mut Watcher<E>,
    asked: u64,
    now: u64,
    seen: Seen,
) -> Option<u64> {
    if asked == watcher.answered {
        return seen.wake;
    }
    let by = match watcher.answer_by {
        Some(by) => by,
        None => now.saturating_add(ANSWER_WAIT),
    };
    if seen.later > 0 && now < by && !watcher.reopens.is_ending() {
        watcher.answer_by = Some(by);
        return earlier(seen.wake, Some(now.saturating_add(TURN)));
    }
    watcher.answered = asked;
    watcher.answer_by = None;
    if let Ok(line) = answer_line(alloc, seen.reopened, seen.later) {
        watcher.serving.report_line(rt, line.as_slice());
    }
    seen.wake
}

// Watches until the relay ends.
fn watch<R: Wait + Clock + Drop, E: Sink + Drop>(rt: R, alloc: Global, mut watcher: Watcher<E>) {
    let start = Instant::now(&rt).ok();
    for _ in rt.forever() {
        let is_ending = watcher.reopens.is_ending();
        let asked = watcher.reopens.asked();
        let now = millis(&rt, &start);
        let seen = attend_to_all(&rt, alloc, &mut watcher, asked, now);
        let wake = answer(&rt, alloc, &mut watcher, asked, now, seen);
        if is_ending {
            watcher.reopens.set_ended();
            return;
        }
        let most = match wake {
            Some(at) => Some(at.saturating_sub(millis(&rt, &start))),
            None => None,
        };
        if most != Some(0) {
            watcher.reopens.wait(&rt, most);
        }
    }
}

fn watcher_of<R: Wait, E: Sink + Drop>(
    rt: &R,
    alloc: Global,
    serving: &Arc<Serving<E>>,
    reopens: &Arc<Reopens>,
) -> Result<Watcher<E>, AllocError> {
    let mut archives = Vec::new(alloc);
    for archive in reopens.take(rt, alloc) {
        let Some(known) = archive.known() else {
            return Err(AllocError);
        };
        archives.push(Watched {
            troubles: Troubles::new(&known),
            archive,
        })?;
    }
    Ok(Watcher {
        serving: Arc::try_clone(serving)?,
        reopens: Arc::try_clone(reopens)?,
        archives,
        answered: 0,
        answer_by: None,
    })
}

/// Has a thread of its own watch over the archives until the relay ends.
pub fn start_watching<
    R: Threads + Wait + Clock + Copy + Send + 'static,
    E: Sink + Drop + Send + 'static,
>(
    rt: R,
    alloc: Global,
    serving: &Arc<Serving<E>>,
    reopens: &Arc<Reopens>,
) -> Result<(), AllocError> {
    let watcher = watcher_of(&rt, alloc, serving, reopens)?;
    match thread::spawn(&rt, move || watch(rt, alloc, watcher)) {
        Ok(_thread) => Ok(()),
        Err(_) => Err(AllocError),
    }
}
