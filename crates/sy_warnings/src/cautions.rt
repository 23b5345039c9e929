//! The notes of warnings.

use crate::objects::{action_part, port_part};
use crate::warnings::Looked;
use std::alloc::Global;
use sy_places::relay_file::contents::{Item, What};
use sy_places::site_file::source::point_at;
use sy_places::ways::relay_parts::name_of_list;
use sy_report::texts::note::{Note, Point};
use sy_report::texts::parts::{Part, relay_name};
use sy_rules::{Input, Plan, QueueParameters};
use sy_script::tree::Param;
use sy_site::Site;

// What stands there, by the word for its kind and its name.
fn parts_of<'a>(looked: Looked<'a>, what: What<'a>) -> [Part<'a>; 2] {
    match what {
        What::Module => [Part::Text(b"module"), Part::Text(b"")],
        What::Global => [Part::Text(b"global"), Part::Text(b"")],
        What::MainQueue => [Part::Text(b"the main queue"), Part::Text(b"")],
        What::Input(number) => [
            Part::Text(b"the input at port "),
            port_part(looked.plan, number),
        ],
        What::Ruleset(number) => [
            Part::Text(b"ruleset "),
            Part::Text(name_of_list(looked.plan, number.saturating_add(1))),
        ],
        What::Action(number) => [Part::Text(b"action "), action_part(looked.plan, number)],
        What::Call(name) => [Part::Text(b"call "), Part::Text(name)],
    }
}

/// A note of an object or a statement.
pub fn note_of(alloc: Global, looked: Looked<'_>, item: Item<'_>) -> Note {
    let mut note = Note::new(alloc);
    let point = point_at(looked.text, item.place);
    note.stands_at(alloc, looked.file.as_bytes(), Some(point));
    note.what.append(&parts_of(looked, item.what));
    note
}

// A note of a parameter.
fn note_of_param(alloc: Global, looked: Looked<'_>, item: Item<'_>, param: &Param) -> Note {
    let mut note = Note::new(alloc);
    let point = point_at(looked.text, param.name.span.start);
    note.stands_at(alloc, looked.file.as_bytes(), Some(point));
    note.what.append(&[Part::Text(param.name.text.as_slice()), Part::Text(b" of ")]);
    note.what.append(&parts_of(looked, item.what));
    note
}

/// That a parameter has no effect.
pub fn no_effect(alloc: Global, looked: Looked<'_>, item: Item<'_>, param: &Param) -> Note {
    let mut note = note_of_param(alloc, looked, item, param);
    note.why.say("it is read, and has no effect here");
    note.change.say("leave it out");
    note
}

/// That a parameter of a queue has no effect, since there is no queue.
pub fn no_queue(alloc: Global, looked: Looked<'_>, item: Item<'_>, param: &Param) -> Note {
    let mut note = note_of_param(alloc, looked, item, param);
    note.why.append(&parts_of(looked, item.what));
    match item.what {
        What::Action(_) => {
            note.why.say(
                " has no queue of its own: its queue.type is Direct, which is the default",
            );
        }
        _ => note
            .why
            .say(" has no queue of its own, since it has no queue.type"),
    }
    note.change.say("leave it out");
    note
}

/// That it has no effect how posts into a queue wait, since there are none.
pub fn no_post(alloc: Global, looked: Looked<'_>, item: Item<'_>, param: &Param) -> Note {
    let mut note = note_of_param(alloc, looked, item, param);
    note.why.say(
        "nothing is posted to this queue; whether an input's messages wait, its flowControl says",
    );
    note.change.say("leave it out");
    note
}

/// That a mark is above the size of its queue.
pub fn mark_above_size(
    alloc: Global,
    looked: Looked<'_>,
    item: Item<'_>,
    param: &Param,
    queue: QueueParameters,
    mark: u32,
) -> Note {
    let mut note = note_of_param(alloc, looked, item, param);
    note.why.append(&[
        Part::Text(b"it is "),
        Part::Number(u64::from(mark)),
        Part::Text(b" and queue.size "),
        Part::Number(u64::from(queue.size)),
        Part::Text(b", so that the queue is full before it comes to this mark"),
    ]);
    note.change.append(&[
        Part::Text(b"at most "),
        Part::Number(u64::from(queue.size)),
        Part::Text(b" there, or queue.size=\""),
        Part::Number(u64::from(mark)),
        Part::Text(b"\""),
    ]);
    note
}

/// That nothing names a ruleset.
pub fn uncalled_ruleset(alloc: Global, looked: Looked<'_>, item: Item<'_>, ruleset: u32) -> Note {
    let mut note = note_of(alloc, looked, item);
    let name = Part::Text(name_of_list(looked.plan, ruleset.saturating_add(1)));
    note.why.say("no input and no call names it, so that no message comes to it");
    note.change.append(&[
        Part::Text(b"ruleset=\""),
        name,
        Part::Text(b"\" at an input, or call "),
        name,
        Part::Text(b", or leave it out"),
    ]);
    note
}

/// That no message comes to an action.
pub fn unreached_action(alloc: Global, looked: Looked<'_>, item: Item<'_>) -> Note {
    let mut note = note_of(alloc, looked, item);
    match item.ruleset {
        None if !looked.executed.has_list(0) => {
            note.why.say(
                "it stands outside every ruleset, and each input has a ruleset, so that no message comes to it",
            );
            note.change.say("put it into a ruleset that an input names, or leave it out");
        }
        _ => {
            note.why.say(
                "no message of any class comes to it, by the tests, calls and stops before it",
            );
            note.change
                .say("change what stands before it, or leave it out");
        }
    }
    note
}

/// That no message of an entry comes to a relay.
pub fn unreached_relay(alloc: Global, site: &Site, relay: u32, site_name: &str, line: u64) -> Note {
    let mut note = Note::new(alloc);
    let name = Part::Text(relay_name(site, relay));
    note.stands_at(alloc, site_name.as_bytes(), Some(Point { line, column: 1 }));
    note.what.append(&[Part::Text(b"relay "), name]);
    note.why.say("it has no entry, and no forward by which messages of an entry come leads to it");
    note.change.append(&[
        Part::Text(b"a line entry "),
        name,
        Part::Text(b" PORT in the site file, or a forward to it, or leave it out"),
    ]);
    note
}

/// That what comes in at an input that is no entry takes room from protected messages.
pub fn outside_input(
    alloc: Global,
    looked: Looked<'_>,
    item: Item<'_>,
    input: &Input,
    port: u16,
) -> Note {
    let mut note = note_of(alloc, looked, item);
    note.why.append(&[
        Part::Text(
            b"it is no entry and no forward of the site leads to it; what comes in there has no promise, and takes room in the queue of the protected messages of port ",
        ),
        Part::Number(u64::from(port)),
    ]);
    note.change.append(&[
        Part::Text(b"a line entry "),
        Part::Text(relay_name(looked.site, looked.relay)),
        Part::Text(b" "),
        Part::Number(u64::from(input.port)),
        Part::Text(b" in the site file, or there a ruleset with a queue of its own"),
    ]);
    note
}

/// That an action or a call stands behind a stop.
pub fn after_stop(alloc: Global, looked: Looked<'_>, item: Item<'_>, stop: usize) -> Note {
    let mut note = note_of(alloc, looked, item);
    let point = point_at(looked.text, stop);
    note.why.append(&[
        Part::Text(b"no message comes to it, since it stands after the stop at "),
        Part::Text(looked.file.as_bytes()),
        Part::Text(b":"),
        Part::Number(point.line),
        Part::Text(b":"),
        Part::Number(point.column),
    ]);
    note.change.say("put it before that stop, or leave it out");
    note
}

// The place of an action, as `:3:1` behind its file's name.
fn point_of_action(looked: Looked<'_>, action: u32) -> Option<Point> {
    for item in looked.items {
        if let What::Action(number) = item.what {
            if number == action {
                return Some(point_at(looked.text, item.place));
            }
        }
    }
    None
}

/// Puts an action by its name and where it stands.
pub fn push_action(note: &mut Note, looked: Looked<'_>, action: u32) {
    note.why.append(&[action_part(looked.plan, action)]);
    if let Some(point) = point_of_action(looked, action) {
        note.why.append(&[
            Part::Text(b" at "),
            Part::Text(looked.file.as_bytes()),
            Part::Text(b":"),
            Part::Number(point.line),
            Part::Text(b":"),
            Part::Number(point.column),
        ]);
    }
}

/// That an input keeps its unread frames in the file of an archive.
pub fn unread_in_archive(
    alloc: Global,
    looked: Looked<'_>,
    item: Item<'_>,
    file: &[u8],
    action: u32,
) -> Note {
    let mut note = note_of(alloc, looked, item);
    note.why.say("it keeps frames without a message in ");
    note.why.append(&[Part::Text(file)]);
    note.why.say(", which is written by action ");
    push_action(&mut note, looked, action);
    note.why
        .say(" too, so that neither lines nor frames can be read there");
    note.change.say("another file");
    note
}

/// That two archives are one file.
pub fn same_file(
    alloc: Global,
    looked: Looked<'_>,
    item: Item<'_>,
    file: &[u8],
    earlier: u32,
) -> Note {
    let mut note = note_of(alloc, looked, item);
    note.why.say("it writes ");
    note.why.append(&[Part::Text(file)]);
    note.why.say(", as does action ");
    push_action(&mut note, looked, earlier);
    note.why
        .say(", so that nothing says which of them wrote a line");
    note.change.say("another file, or one action in a ruleset that both places call");
    note
}
