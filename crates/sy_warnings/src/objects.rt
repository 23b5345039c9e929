//! Objects of relays, by the words for them, and where they stand.

use std::alloc::Global;
use sy_places::relay_file::places::{Places, Thing};
use sy_places::ways::relay_parts::name_of_list;
use sy_report::texts::note::Note;
use sy_report::texts::parts::{Part, relay_name};
use sy_report::texts::words::Words;
use sy_rules::Plan;
use sy_site::Site;

/// The name of an action.
pub fn action_part(plan: &Plan, action: u32) -> Part<'_> {
    match plan.actions().get(action as usize) {
        Some(action) => Part::Text(action.name.as_slice()),
        None => Part::Text(b""),
    }
}

/// The port of an input.
pub fn port_part(plan: &Plan, input: u32) -> Part<'_> {
    match plan.inputs().get(input as usize) {
        Some(input) => Part::Number(u64::from(input.port)),
        None => Part::Text(b""),
    }
}

// An object, by the word for its kind and its name.
fn parts_of(plan: &Plan, thing: Thing) -> [Part<'_>; 2] {
    match thing {
        Thing::MainQueue => [Part::Text(b"the main queue"), Part::Text(b"")],
        Thing::Ruleset(number) => [
            Part::Text(b"ruleset "),
            Part::Text(name_of_list(plan, number.saturating_add(1))),
        ],
        Thing::Input(number) => [Part::Text(b"input at port "), port_part(plan, number)],
        Thing::Action(number) => [Part::Text(b"action "), action_part(plan, number)],
    }
}

/// Puts an object of a relay, as `action up`.
pub fn push_thing(words: &mut Words, site: &Site, relay: u32, thing: Thing) {
    if relay < site.relays() {
        words.append(&parts_of(site.plan(relay), thing));
    }
}

// The end of what is said of an object that stands in no line: a main queue may have none.
fn said_by_defaults(places: Places<'_>, thing: Thing) -> &'static str {
    match places.object(thing) {
        Some(_) => "",
        None => ", by defaults",
    }
}

/// Says that a note is of an object of a relay, and where that stands, or of which relay it is, where that can't be found.
pub fn stands_at(
    alloc: Global,
    note: &mut Note,
    site: &Site,
    relay: u32,
    places: Option<Places<'_>>,
    thing: Thing,
) {
    match places {
        Some(places) => {
            note.stands_at(alloc, places.file.as_bytes(), places.point(thing));
            push_thing(&mut note.what, site, relay, thing);
            note.what.say(said_by_defaults(places, thing));
        }
        None => {
            note.what
                .append(&[Part::Text(relay_name(site, relay)), Part::Text(b": ")]);
            push_thing(&mut note.what, site, relay, thing);
        }
    }
}

/// Puts an object of a relay with its place, as `hub.conf:4:1: action audit`.
pub fn push_with_place(
    words: &mut Words,
    site: &Site,
    relay: u32,
    places: Option<Places<'_>>,
    thing: Thing,
) {
    if let Some(places) = places {
        match places.object(thing) {
            Some(object) => places.push_point(words, object.start),
            None => words.append(&[Part::Text(places.file.as_bytes())]),
        }
        words.say(": ");
    }
    push_thing(words, site, relay, thing);
}
