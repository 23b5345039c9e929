//! Why messages are lost at a full queue, or by one that discards, and what would change that.

use sy_places::ways::relay_parts::{Spot, free_feeder};
use sy_report::texts::note::Note;
use sy_report::texts::parts::Part;
use sy_report::texts::words::Words;
use sy_rules::{FlowControl, Plan, QueueParameters};

// That a message is lost at a full queue after a while.
fn push_wait(words: &mut Words, queue: QueueParameters) {
    words.append(&[
        Part::Text(b", so that messages may come to a full queue: there one waits "),
        Part::Number(u64::from(queue.timeout_enqueue)),
        Part::Text(b" ms at most, and is then lost"),
    ]);
}

// Whether a queue discards messages of some severity at some length.
fn has_discards(queue: QueueParameters) -> bool {
    queue.discard_severity < 8 && queue.discard_mark > 0
}

// A full-delay mark that is right for a queue: 97 hundredths of its size, but below the mark at which it discards.
fn right_mark(queue: QueueParameters) -> u64 {
    let mark = u64::from(queue.size) * 97 / 100;
    if has_discards(queue) {
        return mark
            .min(u64::from(queue.discard_mark.saturating_sub(1)))
            .max(1);
    }
    mark.max(1)
}

fn push_right_mark(words: &mut Words, queue: QueueParameters) {
    words.append(&[
        Part::Text(b"queue.fullDelayMark=\""),
        Part::Number(right_mark(queue)),
        Part::Text(b"\" there"),
    ]);
}

fn flow_word(flow: FlowControl) -> &'static [u8] {
    match flow {
        FlowControl::On => b"on",
        FlowControl::Off => b"off",
        FlowControl::Full => b"full",
    }
}

/// Of an input that isn't a full-delay one.
pub fn push_not_full(note: &mut Note, spot: Spot<'_>, queue: QueueParameters) {
    note.why.append(&[
        Part::Text(b"its flowControl is "),
        Part::Text(flow_word(spot.input.flow)),
    ]);
    push_wait(&mut note.why, queue);
    note.change.say(
        "flowControl=\"full\" there, which is a rule of Syc's own: rsyslogd's imtcp refuses that value",
    );
}

fn push_why_mark_off(note: &mut Note, queue: QueueParameters) {
    note.why.say("its queue.fullDelayMark is 0, which is off");
    push_wait(&mut note.why, queue);
}

/// Of a queue without a full-delay mark.
pub fn push_mark_off(note: &mut Note, queue: QueueParameters) {
    push_why_mark_off(note, queue);
    push_right_mark(&mut note.change, queue);
}

fn push_why_mark_above_size(note: &mut Note, queue: QueueParameters) {
    note.why.append(&[
        Part::Text(b"its queue.fullDelayMark is "),
        Part::Number(u64::from(queue.full_delay_mark)),
        Part::Text(b" and its queue.size "),
        Part::Number(u64::from(queue.size)),
    ]);
    push_wait(&mut note.why, queue);
}

/// Of a queue that is smaller than its full-delay mark.
pub fn push_mark_above_size(note: &mut Note, queue: QueueParameters) {
    push_why_mark_above_size(note, queue);
    note.change.append(&[
        Part::Text(b"queue.size=\""),
        Part::Number(u64::from(queue.full_delay_mark)),
        Part::Text(b"\" there, or "),
    ]);
    push_right_mark(&mut note.change, queue);
}

// What waits at a queue's full-delay mark.
fn waiting(queue: QueueParameters) -> &'static [u8] {
    if queue.full_delay_mark < queue.discard_mark {
        b" and less urgent ones, and not all that feeds it waits at "
    } else {
        b" and less urgent ones, and what feeds it waits only at "
    }
}

/// Of a queue that discards.
pub fn push_discarding(note: &mut Note, plan: &Plan, number: u32, queue: QueueParameters) {
    note.why.append(&[
        Part::Text(b"with "),
        Part::Number(u64::from(queue.discard_mark)),
        Part::Text(b" messages waiting (queue.discardMark; its queue.size is "),
        Part::Number(u64::from(queue.size)),
        Part::Text(b") it discards those of severity "),
        Part::Number(u64::from(queue.discard_severity)),
        Part::Text(waiting(queue)),
        Part::Number(u64::from(queue.full_delay_mark)),
        Part::Text(b" (queue.fullDelayMark)"),
    ]);
    if free_feeder(plan, number).is_none() && queue.discard_mark > 1 {
        push_right_mark(&mut note.change, queue);
        note.change.say(", or ");
    }
    note.change.say("queue.discardSeverity=\"8\" there, by which it discards nothing");
}

// ---- queues that messages are posted to

/// Whether a queue has a full-delay mark that is no more than its size.
pub fn is_marked(queue: QueueParameters) -> bool {
    queue.full_delay_mark > 0 && queue.full_delay_mark <= queue.size
}

// What else a queue needs in which posts wait: a mark, and that it discards nothing below that. Where an input that doesn't
// wait feeds it, nothing but the severity keeps it from discarding.
fn push_marks_needed(words: &mut Words, queue: QueueParameters, fed_freely: bool) {
    let discards = has_discards(queue);
    if !is_marked(queue) || discards && queue.discard_mark <= queue.full_delay_mark {
        words.append(&[
            Part::Text(b"queue.fullDelayMark=\""),
            Part::Number(right_mark(queue)),
            Part::Text(b"\" "),
        ]);
    }
    if discards && (fed_freely || queue.discard_mark == 1) {
        words.say("queue.discardSeverity=\"8\" ");
    }
}

/// Of a queue in which posts wait, but for a full-delay mark that isn't above the queue's size.
pub fn push_unmarked(note: &mut Note, queue: QueueParameters, fed_freely: bool) {
    if queue.full_delay_mark == 0 {
        push_why_mark_off(note, queue);
    } else {
        push_why_mark_above_size(note, queue);
    }
    push_marks_needed(&mut note.change, queue, fed_freely);
    note.change.say("there");
}

/// Of a queue in which posts don't wait.
pub fn push_post(note: &mut Note, queue: QueueParameters, fed_freely: bool) {
    note.why.say(
        "messages are posted to its queue, and one that is posted while that is full is lost",
    );
    note.change.say("queue.workerFlow=\"full\" ");
    push_marks_needed(&mut note.change, queue, fed_freely);
    note.change.say(
        "there, by which a post waits for room, or without queue.type there, so that it has no queue of its own",
    );
}
