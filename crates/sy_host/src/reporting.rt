//! The thread that tells an operator what was noted in a relay's log.

pub mod port_lines;
pub mod printing_thread;

use crate::reporting::port_lines::{PortPace, print_due, print_left};
use crate::reporting::printing_thread::wait_for_printing;
use crate::watching::noted::date;
use std::alloc::{AllocError, Global};
use std::sync::{Arc, Wait};
use std::thread;
use std::thread::Threads;
use std::time::{Clock, Instant};
use sy_inputs::serving::Serving;
use sy_log::at_port::end_words;
use sy_log::lines::{peer_line, subject_line};
use sy_log::log::Log;
use sy_log::notices::{LAST_LINES, Line, Reported};
use sy_log::subject::Subject;
use sy_outlets::rotation::troubles::earlier;
use sy_wire::Sink;

// What was told of a subject, and when the lines of its port may be.
#[derive(Clone, Copy)]
struct Paced {
    reported: Reported,
    port: PortPace,
}

// What tells of a relay.
#[derive(Drop)]
struct Reporter<E: Drop> {
    serving: Arc<Serving<E>>,
    // of each of the log's subjects
    reported: Vec<Paced>,
}

fn report_subject<R: Wait, E: Sink + Drop>(
    rt: &R,
    alloc: Global,
    serving: &Serving<E>,
    subject: &Subject,
    line: Line,
) {
    serving.print(rt, subject_line(alloc, subject, line));
}

// Tells of connections that ended, where there are any.
fn report_ended<R: Wait, E: Sink + Drop>(
    rt: &R,
    alloc: Global,
    serving: &Serving<E>,
    subject: &Subject,
    number: usize,
) {
    let Some((end, others)) = serving.log().take_unreported_ends(rt, number) else {
        return;
    };
    let words = match end.fault {
        Some(fault) => end_words(fault),
        None => "ended",
    };
    serving.print(rt, peer_line(alloc, subject, &end, words, others));
}

// Tells what is due of one subject, and answers when to look again, where that is known.
fn look_at<R: Wait, E: Sink + Drop>(
    rt: &R,
    alloc: Global,
    serving: &Serving<E>,
    number: usize,
    paced: &mut Paced,
    now: u64,
) -> Option<u64> {
    let log = serving.log();
    let subject = log.subjects().get(number)?;
    let port = print_due(rt, alloc, serving, number, &mut paced.port, now);
    let reported = &mut paced.reported;
    reported.see(now, subject.seen());
    match reported.line(now) {
        Some(line) => report_subject(rt, alloc, serving, subject, line),
        None => {
            if log.has_unreported_end(rt, number) && reported.take(now) {
                report_ended(rt, alloc, serving, subject, number);
            }
        }
    }
    if log.has_unreported_end(rt, number) {
        return earlier(Some(reported.next()), port);
    }
    let wake = earlier(reported.wake(), port);
    if wake.is_some() {
        return wake;
    }
    subject.listen();
    let is_over = !log.has_unreported_end(rt, number) && !log.has_unreported_sending(rt, number);
    if subject.seen() == reported.seen() && is_over {
        return None;
    }
    // (it changed since it was seen)
    Some(now)
}

// Tells what is due, and answers when to look again, where that is known.
fn look<R: Wait, E: Sink + Drop>(
    rt: &R,
    alloc: Global,
    reporter: &mut Reporter<E>,
    now: u64,
) -> Option<u64> {
    let mut wake = None;
    let mut number: usize = 0;
    for paced in reporter.reported.iter_mut() {
        let next = look_at(rt, alloc, &reporter.serving, number, paced, now);
        wake = earlier(wake, next);
        number = number.wrapping_add(1);
    }
    wake
}

// Tells what is left to be told of one subject as the relay ends.
fn finish_one<R: Wait, E: Sink + Drop>(
    rt: &R,
    alloc: Global,
    serving: &Serving<E>,
    number: usize,
    reported: &mut Reported,
    now: u64,
) {
    let log = serving.log();
    let Some(subject) = log.subjects().get(number) else {
        return;
    };
    reported.see(now, subject.seen());
    for _ in 0..LAST_LINES {
        let Some(line) = reported.last_line() else {
            break;
        };
        report_subject(rt, alloc, serving, subject, line);
    }
    report_ended(rt, alloc, serving, subject, number);
}

// Tells what is left to be told as the relay ends.
fn finish<R: Wait, E: Sink + Drop>(rt: &R, alloc: Global, reporter: &mut Reporter<E>, now: u64) {
    let mut number: usize = 0;
    for paced in reporter.reported.iter_mut() {
        print_left(rt, alloc, &reporter.serving, number);
        finish_one(
            rt,
            alloc,
            &reporter.serving,
            number,
            &mut paced.reported,
            now,
        );
        number = number.wrapping_add(1);
    }
}

/// How many milliseconds have passed since then.
pub fn millis<R: Clock>(rt: &R, start: &Option<Instant>) -> u64 {
    let Some(start) = start else {
        return 0;
    };
    match start.elapsed(rt) {
        Ok(time) => time
            .as_secs()
            .saturating_mul(1000)
            .saturating_add(u64::from(time.subsec_millis())),
        Err(_) => 0,
    }
}

// Tells what happens until the relay ends.
fn report_all<R: Wait + Clock + Drop, E: Sink + Drop>(
    rt: R,
    alloc: Global,
    mut reporter: Reporter<E>,
) {
    let start = Instant::now(&rt).ok();
    for _ in rt.forever() {
        let now = millis(&rt, &start);
        if reporter.serving.log().is_ending() {
            finish(&rt, alloc, &mut reporter, now);
            reporter.serving.log().set_ended();
            return;
        }
        let most = match look(&rt, alloc, &mut reporter, now) {
            Some(at) => Some(at.saturating_sub(millis(&rt, &start))),
            None => None,
        };
        if most != Some(0) {
            date(&rt, reporter.serving.log());
            reporter.serving.log().wait(&rt, most);
        }
    }
}

fn reporter_of<E: Sink + Drop>(
    alloc: Global,
    serving: &Arc<Serving<E>>,
) -> Result<Reporter<E>, AllocError> {
    let mut reported = Vec::new(alloc);
    for _ in serving.log().subjects() {
        reported.push(Paced {
            reported: Reported::new(),
            port: PortPace::new(),
        })?;
    }
    Ok(Reporter {
        serving: Arc::try_clone(serving)?,
        reported,
    })
}

/// Has a thread of its own tell what happens until the relay ends.
pub fn start_reporting<
    R: Threads + Wait + Clock + Copy + Send + 'static,
    E: Sink + Drop + Send + 'static,
>(rt: R, alloc: Global, serving: &Arc<Serving<E>>) -> Result<(), AllocError> {
    let reporter = reporter_of(alloc, serving)?;
    match thread::spawn(&rt, move || report_all(rt, alloc, reporter)) {
        Ok(_thread) => Ok(()),
        Err(_) => Err(AllocError),
    }
}

/// Has what is left told, and waits for that for a while, and until it is printed.
pub fn end_reporting<R: Wait + Clock, E: Sink + Drop>(rt: &R, serving: &Serving<E>) {
    serving.log().finish(rt);
    wait_for_printing(rt, serving);
}
