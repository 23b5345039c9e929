//! Where the way to an archive breaks off, in words: what leads on there, and the path up to there.

use sy_places::relay_file::places::{Places, Thing};
use sy_places::ways::hindrance::Target;
use sy_places::ways::relay_parts::{is_spare, name_of_list, owner_of};
use sy_places::ways::towards_archive::{Approach, Step};
use sy_report::texts::parts::{Part, action_name, input_part};
use sy_report::texts::words::Words;
use sy_rules::{Occurrence, Plan};
use sy_site::{Site, SiteAction};
use sy_warnings::objects::push_thing;

/// What is looked for: where the way breaks off, and the archive with its relay's objects.
#[derive(Clone, Copy)]
pub struct Search<'a> {
    pub site: &'a Site,
    pub approach: &'a Approach,
    pub archive: SiteAction,
    pub archive_places: Option<Places<'a>>,
}

/// Such a search.
pub fn search_of<'a>(
    site: &'a Site,
    approach: &'a Approach,
    archive: SiteAction,
    archive_places: Option<Places<'a>>,
) -> Search<'a> {
    Search {
        site,
        approach,
        archive,
        archive_places,
    }
}

/// What leads on at a step and isn't executed by every message, or is spare: an action, or a ruleset with a queue of its
/// own; the archive where nothing there leads on.
#[derive(Clone, Copy)]
pub struct Wanted<'a> {
    pub relay: u32,
    pub thing: Thing,
    /// The name, where it is a ruleset.
    pub ruleset: Option<&'a [u8]>,
}

// What an occurrence of a list is of: an action, or a ruleset.
fn thing_of(plan: &Plan, occurrence: Occurrence) -> Thing {
    match occurrence {
        Occurrence::Run(action) => Thing::Action(action),
        Occurrence::Post(list) => owner_of(plan, list),
    }
}

fn name_posted_to(plan: &Plan, occurrence: Occurrence) -> Option<&[u8]> {
    match (thing_of(plan, occurrence), occurrence) {
        (Thing::Ruleset(_), Occurrence::Post(list)) => Some(name_of_list(plan, list)),
        _ => None,
    }
}

/// What that is at a step.
pub fn wanted_at<'a>(search: Search<'a>, step: Step) -> Wanted<'a> {
    match search.approach.occurrence {
        Some(occurrence) if step.input.relay < search.site.relays() => {
            let plan = search.site.plan(step.input.relay);
            Wanted {
                relay: step.input.relay,
                thing: thing_of(plan, occurrence),
                ruleset: name_posted_to(plan, occurrence),
            }
        }
        _ => archive_of(search),
    }
}

/// The archive.
pub fn archive_of(search: Search<'_>) -> Wanted<'_> {
    Wanted {
        relay: search.archive.relay,
        thing: Thing::Action(search.archive.action),
        ruleset: None,
    }
}

/// What is looked for in a file.
pub fn target_of<'a>(places: Places<'_>, of: Wanted<'a>) -> Option<Target<'a>> {
    match of.ruleset {
        Some(name) => Some(Target::Ruleset(name)),
        None => match places.object(of.thing) {
            Some(object) => Some(Target::Action(object.start)),
            None => None,
        },
    }
}

/// The spare action that alone leads on at a step.
pub fn spare_at(search: Search<'_>, step: Step) -> Option<SiteAction> {
    let relay = step.input.relay;
    let occurrence = search.approach.occurrence?;
    if relay >= search.site.relays() {
        return None;
    }
    let plan = search.site.plan(relay);
    if !is_spare(search.site, relay, plan, occurrence) {
        return None;
    }
    match thing_of(plan, occurrence) {
        Thing::Action(action) => Some(SiteAction { relay, action }),
        _ => None,
    }
}

fn is_archive(search: Search<'_>, of: Wanted<'_>) -> bool {
    match of.thing {
        Thing::Action(action) => {
            of.relay == search.archive.relay && action == search.archive.action
        }
        _ => false,
    }
}

/// Puts an action or a ruleset; the archive with its file and line, as `action audit (hub.conf:4:3)`.
pub fn push_wanted(words: &mut Words, search: Search<'_>, of: Wanted<'_>) {
    push_thing(words, search.site, of.relay, of.thing);
    if !is_archive(search, of) {
        return;
    }
    if let Some(places) = search.archive_places {
        if let Some(object) = places.object(of.thing) {
            words.say(" (");
            places.push_point(words, object.start);
            words.say(")");
        }
    }
}

/// Puts what is to be moved in a file: an action, or the call of a ruleset.
pub fn push_moved(words: &mut Words, search: Search<'_>, of: Wanted<'_>) {
    words.say("put ");
    match of.ruleset {
        Some(name) => words.append(&[Part::Text(b"call "), Part::Text(name)]),
        None => push_thing(words, search.site, of.relay, of.thing),
    }
}

// Puts what leads to a step. The queue of an action has no name of its own.
fn push_step(words: &mut Words, site: &Site, relay: u32, step: Step) {
    match step.from {
        Some((_, Occurrence::Run(action))) => {
            words.say(" -> ");
            push_name(words, site, relay, action);
            words.append(&[Part::Text(b" -> "), input_part(site, step.input)]);
        }
        Some((_, Occurrence::Post(list))) if relay < site.relays() => {
            let plan = site.plan(relay);
            if plan.own_action(list).is_none() {
                words.append(&[Part::Text(b" -> "), Part::Text(name_of_list(plan, list))]);
            }
        }
        Some(_) => {}
        None => words.append(&[input_part(site, step.input)]),
    }
}

/// Puts the path up to a step: `edge 6514 -> up -> hub 6515`, with the rulesets that it is posted to.
pub fn push_path(words: &mut Words, site: &Site, back: &[Step]) {
    words.say("the message comes ");
    let mut relay = 0;
    for step in back.iter().rev() {
        push_step(words, site, relay, *step);
        relay = step.input.relay;
    }
}

/// Puts the name of an action.
pub fn push_name(words: &mut Words, site: &Site, relay: u32, action: u32) {
    let action = SiteAction { relay, action };
    words.append(&[Part::Text(action_name(site, action))]);
}
