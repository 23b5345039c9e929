//! When the lines about frames without a message and about faults of an input's connections are printed.

use std::alloc::{AllocError, Global};
use std::sync::{Mutex, Wait};
use sy_inputs::serving::Serving;
use sy_log::at_port::{
    append_at_port, append_at_port_often, append_unread, append_unread_often, end_words,
};
use sy_log::lines::sending_line;
use sy_log::pauses::Pace;
use sy_log::peers::Ended;
use sy_log::unreported::{FAULTS, Faulted, UnreadFrames};
use sy_outlets::rotation::troubles::earlier;
use sy_wire::Sink;

/// When the next line of each kind may be printed about an input.
#[derive(Clone, Copy)]
pub struct PortPace {
    sending: Pace,
    unread: Pace,
    faults: Pace,
}

impl PortPace {
    /// The first ones may be printed at once.
    pub fn new() -> PortPace {
        PortPace {
            sending: Pace::new(),
            unread: Pace::new(),
            faults: Pace::new(),
        }
    }
}

fn unread_line(alloc: Global, port: u16, of: UnreadFrames) -> Result<Vec<u8>, AllocError> {
    let mut text = Vec::new(alloc);
    if of.others == 0 {
        append_unread(&mut text, of.count, port, of.first)?;
    } else {
        append_unread_often(&mut text, of.count, port, of.first, of.more, of.others)?;
    }
    Ok(text)
}

fn fault_line(alloc: Global, port: u16, of: Faulted) -> Result<Vec<u8>, AllocError> {
    let mut text = Vec::new(alloc);
    let words = end_words(of.fault).as_bytes();
    if of.others == 0 {
        append_at_port(&mut text, words, port)?;
    } else {
        append_at_port_often(&mut text, words, port, of.others)?;
    }
    Ok(text)
}

// Prints the line about connections that begin to send what is no message, where there are any.
fn print_sending<R: Wait, E: Sink + Drop>(
    rt: &R,
    alloc: Global,
    serving: &Serving<E>,
    number: usize,
    ended: &Mutex<Ended>,
) {
    let (Some(subject), Some((sending, others))) = (
        serving.log().subjects().get(number),
        ended.lock(rt).take_sending(),
    ) else {
        return;
    };
    let file = serving.log().unread_at(number);
    serving.print(rt, sending_line(alloc, subject, &sending, others, file));
}

// Prints the line about frames without a message, where there are any.
fn print_unread<R: Wait, E: Sink + Drop>(
    rt: &R,
    alloc: Global,
    serving: &Serving<E>,
    ended: &Mutex<Ended>,
) {
    let mut locked = ended.lock(rt);
    let (port, frames) = (locked.port, locked.unreported.take_unread());
    drop(locked);
    if let Some(frames) = frames {
        serving.print(rt, unread_line(alloc, port, frames));
    }
}

// Prints the line about the oldest fault, where there is one.
fn print_fault<R: Wait, E: Sink + Drop>(
    rt: &R,
    alloc: Global,
    serving: &Serving<E>,
    ended: &Mutex<Ended>,
) {
    let mut locked = ended.lock(rt);
    let (port, fault) = (locked.port, locked.unreported.take_fault());
    drop(locked);
    if let Some(fault) = fault {
        serving.print(rt, fault_line(alloc, port, fault));
    }
}

/// Prints the lines that are due of the input that is the subject of this number of the log; answers when to look again,
/// where some are left.
pub fn print_due<R: Wait, E: Sink + Drop>(
    rt: &R,
    alloc: Global,
    serving: &Serving<E>,
    number: usize,
    pace: &mut PortPace,
    now: u64,
) -> Option<u64> {
    let ended = serving.log().ended_at(number)?;
    if ended.lock(rt).has_sending() && pace.sending.take(now) {
        print_sending(rt, alloc, serving, number, ended);
    }
    if ended.lock(rt).unreported.has_unread() && pace.unread.take(now) {
        print_unread(rt, alloc, serving, ended);
    }
    if ended.lock(rt).unreported.has_faults() && pace.faults.take(now) {
        print_fault(rt, alloc, serving, ended);
    }
    let locked = ended.lock(rt);
    let sending = if locked.has_sending() {
        Some(pace.sending.next)
    } else {
        None
    };
    let unread = if locked.unreported.has_unread() {
        Some(pace.unread.next)
    } else {
        None
    };
    let faults = if locked.unreported.has_faults() {
        Some(pace.faults.next)
    } else {
        None
    };
    earlier(sending, earlier(unread, faults))
}

/// Prints all of them that are left, as the relay ends.
pub fn print_left<R: Wait, E: Sink + Drop>(
    rt: &R,
    alloc: Global,
    serving: &Serving<E>,
    number: usize,
) {
    let Some(ended) = serving.log().ended_at(number) else {
        return;
    };
    print_sending(rt, alloc, serving, number, ended);
    print_unread(rt, alloc, serving, ended);
    for _ in 0..FAULTS {
        print_fault(rt, alloc, serving, ended);
    }
}
