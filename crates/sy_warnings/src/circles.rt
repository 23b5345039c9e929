//! Warnings of queues that wait for each other in a circle, and of rounds that a message may go without end.

use crate::objects::action_part;
use crate::warnings::{Caution, Warnings, kept_of};
use std::alloc::{AllocError, Global};
use sy_places::relay_file::contents::{Item, What, items_of};
use sy_places::site_file::source::point_at;
use sy_places::site_file::texts::{SiteTexts, relay_file};
use sy_places::ways::executed::Executed;
use sy_places::ways::relay_parts::{name_of_list, occurrences_of, queue_for};
use sy_report::texts::note::{Note, append_point};
use sy_report::texts::parts::{Part, relay_name};
use sy_report::texts::words::Words;
use sy_rules::{Occurrence, Plan};
use sy_site::{Site, SiteInput};
use sy_waits::{Circle, Hop, waits_of};

// A relay with the items of its file, and what messages of protected classes may execute there.
#[derive(Clone, Copy)]
struct Seen<'a> {
    site: &'a Site,
    relay: u32,
    plan: &'a Plan,
    file: &'a str,
    text: &'a [u8],
    items: &'a [Item<'a>],
    kept: &'a Executed,
}

// What is said of a circle, hop by hop.
#[derive(Drop)]
struct Told {
    alloc: Global,
    caution: Caution,
    note: Note,
    // the statement of the last hop
    last: Vec<u8>,
    // what to write so that nothing waits for the first hop by which no protected message goes
    lossy: Option<Vec<u8>>,
}

// ---- words

// Puts a list by what it is of.
fn push_list(words: &mut Words, plan: &Plan, list: u32) {
    match plan.own_action(list) {
        Some(action) => words.append(&[Part::Text(b"action "), action_part(plan, action)]),
        None => words.append(&[
            Part::Text(b"ruleset "),
            Part::Text(name_of_list(plan, list)),
        ]),
    }
}

// Puts the queue of a list by what it belongs to.
fn push_queue(words: &mut Words, plan: &Plan, list: u32) {
    if queue_for(plan, list) == 0 {
        words.say("the main queue");
        return;
    }
    words.say("the queue of ");
    push_list(words, plan, list);
}

// Puts what an occurrence is: an action, one with a queue of its own, or a call.
fn push_occurrence(words: &mut Words, plan: &Plan, is: Occurrence) {
    match is {
        Occurrence::Run(action) => {
            words.append(&[Part::Text(b"action "), action_part(plan, action)]);
        }
        Occurrence::Post(list) => match plan.own_action(list) {
            Some(action) => words.append(&[Part::Text(b"action "), action_part(plan, action)]),
            None => words.append(&[Part::Text(b"call "), Part::Text(name_of_list(plan, list))]),
        },
    }
}

// ---- places

// Whether an item is the statement that an occurrence comes from.
fn is_statement(plan: &Plan, item: Item<'_>, is: Occurrence) -> bool {
    match (item.what, is) {
        (What::Action(action), Occurrence::Run(run)) => action == run,
        (What::Action(action), Occurrence::Post(list)) => plan.own_action(list) == Some(action),
        (What::Call(name), Occurrence::Post(list)) => {
            plan.own_action(list).is_none() && name == name_of_list(plan, list)
        }
        _ => false,
    }
}

// The ruleset of a list; none where it is the default one.
fn ruleset_of(list: u32) -> Option<u32> {
    if list == 0 {
        return None;
    }
    Some(list - 1)
}

// The place of the statement that an occurrence of a list comes from: the one in the list's own ruleset, or else in one that is
// called at once.
fn place_of(plan: &Plan, items: &[Item<'_>], list: u32, is: Occurrence) -> Option<usize> {
    let mut found = None;
    for item in items {
        if is_statement(plan, *item, is) {
            if item.ruleset == ruleset_of(list) {
                return Some(item.place);
            }
            if found.is_none() {
                found = Some(item.place);
            }
        }
    }
    found
}

// The place of the object of a list.
fn place_of_list(plan: &Plan, items: &[Item<'_>], list: u32) -> Option<usize> {
    for item in items {
        let is_it = match item.what {
            What::Ruleset(number) => {
                plan.own_action(list).is_none() && ruleset_of(list) == Some(number)
            }
            What::Action(number) => plan.own_action(list) == Some(number),
            _ => false,
        };
        if is_it {
            return Some(item.place);
        }
    }
    None
}

// Puts a place behind words, as ` at hub.conf:9:3`.
fn push_place(words: &mut Words, seen: Seen<'_>, place: Option<usize>) {
    if let Some(place) = place {
        words.say(" at ");
        append_point(
            words,
            seen.file.as_bytes(),
            Some(point_at(seen.text, place)),
        );
    }
}

// Puts words behind others.
fn append_words(words: &mut Words, more: &[u8]) {
    words.append(&[Part::Text(more)]);
}

// ---- hops

// Puts what lets nothing wait for a hop, where no protected message goes by it: what is lost then isn't protected.
fn tell_lossy(
    told: &mut Told,
    seen: Seen<'_>,
    list: u32,
    is: Occurrence,
) -> Result<(), AllocError> {
    let mut words = Words::new(told.alloc);
    match is {
        Occurrence::Post(to) if !seen.kept.has_list(to) => {
            words.say("queue.workerFlow=\"off\" of ");
            push_list(&mut words, seen.plan, to);
            push_place(&mut words, seen, place_of_list(seen.plan, seen.items, to));
        }
        Occurrence::Run(action)
            if !seen.kept.has_action(action) && seen.plan.own_action(list) != Some(action) => {
            words.say("queue.type=\"LinkedList\" of ");
            push_occurrence(&mut words, seen.plan, is);
            push_place(&mut words, seen, place_of(seen.plan, seen.items, list, is));
        }
        _ => return Ok(()),
    }
    told.lossy = Some(words.finish()?);
    Ok(())
}

// Puts from where a hop leads.
fn push_start(words: &mut Words, seen: Seen<'_>, caution: Caution, list: u32) {
    match caution {
        Caution::Jam => push_queue(words, seen.plan, list),
        _ => push_list(words, seen.plan, list),
    }
    words.append(&[
        Part::Text(b" of "),
        Part::Text(relay_name(seen.site, seen.relay)),
    ]);
}

// Says where the first hop stands, and what it is.
fn tell_first(told: &mut Told, seen: Seen<'_>, place: Option<usize>, is: Occurrence) {
    if let Some(place) = place {
        let point = point_at(seen.text, place);
        told.note
            .stands_at(told.alloc, seen.file.as_bytes(), Some(point));
    }
    push_occurrence(&mut told.note.what, seen.plan, is);
    match told.caution {
        Caution::Jam => told.note.why.say(
            "each of these queues may wait for the next one, and the last for the first, so that nothing moves any more: ",
        ),
        _ => told
            .note
            .why
            .say("a message may go round here without end: "),
    }
}

// Puts one hop.
fn tell_hop(told: &mut Told, seen: Seen<'_>, hop: Hop) -> Result<(), AllocError> {
    let list = hop.by.list;
    let found = occurrences_of(seen.plan, list).get(hop.by.number as usize);
    let Some(is) = found.copied() else {
        return Ok(());
    };
    let place = place_of(seen.plan, seen.items, list, is);
    if told.note.why.is_empty() {
        tell_first(told, seen, place, is);
    } else {
        told.note.why.say("; ");
    }
    let mut last = Words::new(told.alloc);
    push_occurrence(&mut last, seen.plan, is);
    push_place(&mut last, seen, place);
    let last = last.finish()?;
    push_start(&mut told.note.why, seen, told.caution, list);
    told.note.why.say(", by ");
    append_words(&mut told.note.why, last.as_slice());
    told.note
        .why
        .append(&[Part::Text(b" for "), Part::Class(hop.class)]);
    told.last = last;
    if told.lossy.is_none() {
        tell_lossy(told, seen, list, is)?;
    }
    Ok(())
}

// Puts one hop, with what its relay's file says.
fn tell_hop_of(
    told: &mut Told,
    texts: &SiteTexts<'_>,
    site: &Site,
    protected: &[SiteInput],
    hop: Hop,
) -> Result<(), AllocError> {
    let relay = hop.by.relay;
    if relay >= site.relays() {
        return Ok(());
    }
    let plan: &Plan = site.plan(relay);
    let kept = kept_of(told.alloc, site, relay, plan, protected)?;
    if let Some(file) = relay_file(told.alloc, texts.relay_text(relay))? {
        if let Some(script) = &file.script {
            let items = items_of(told.alloc, script)?;
            let seen = Seen {
                site,
                relay,
                plan,
                file: file.name,
                text: file.text,
                items: items.as_slice(),
                kept: &kept,
            };
            tell_hop(told, seen, hop)?;
        }
    }
    Ok(())
}

// ---- circles

// Puts what to write.
fn tell_change(change: &mut Words, caution: Caution, last: &[u8], lossy: Option<&[u8]>) {
    match caution {
        Caution::Jam => match lossy {
            Some(lossy) => {
                append_words(change, lossy);
                change.say(
                    ", to which no protected message comes: what finds its queue full is then lost, and nothing waits for it",
                );
            }
            None => {
                change.say("leave one of these out, such as ");
                append_words(change, last);
                change.say(", and do there itself what it leads to");
            }
        },
        _ => {
            change.say("leave one of these out for such messages, as ");
            append_words(change, last);
        }
    }
}

fn warn_of_circle(
    warnings: &mut Warnings,
    texts: &SiteTexts<'_>,
    site: &Site,
    protected: &[SiteInput],
    caution: Caution,
    circle: &Circle,
) -> Result<(), AllocError> {
    let alloc = warnings.alloc;
    let mut told = Told {
        alloc,
        caution,
        note: Note::new(alloc),
        last: Vec::new(alloc),
        lossy: None,
    };
    for hop in circle.hops.as_slice() {
        tell_hop_of(&mut told, texts, site, protected, *hop)?;
    }
    if told.note.why.is_empty() {
        told.note
            .why
            .say("a circle is not excluded, and none was found");
    }
    let Told {
        alloc: _,
        caution,
        mut note,
        last,
        lossy,
    } = told;
    match &lossy {
        Some(lossy) => tell_change(
            &mut note.change,
            caution,
            last.as_slice(),
            Some(lossy.as_slice()),
        ),
        None => tell_change(&mut note.change, caution, last.as_slice(), None),
    }
    warnings.push(caution, note);
    Ok(())
}

/// Warns of the first circle of queues that may wait for each other, and of the first round that a message may go.
pub fn warn_of_circles(
    warnings: &mut Warnings,
    texts: &SiteTexts<'_>,
    site: &Site,
    protected: &[SiteInput],
) -> Result<(), AllocError> {
    let waits = waits_of(warnings.alloc, site)?;
    if let Some(jam) = &waits.jam {
        warn_of_circle(warnings, texts, site, protected, Caution::Jam, jam)?;
    }
    if let Some(round) = &waits.round {
        warn_of_circle(warnings, texts, site, protected, Caution::Round, round)?;
    }
    Ok(())
}
