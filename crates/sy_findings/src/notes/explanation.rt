//! Notes of findings: where what is found stands, why messages are lost by it, and what would change that.

use crate::notes::object_meant::{Meant, find_meant, relay_meant};
use crate::notes::queues::{
    is_marked, push_discarding, push_mark_above_size, push_mark_off, push_not_full, push_post,
    push_unmarked,
};
use crate::notes::remedies::{
    push_gives_up, push_inner_loop, push_loop, push_no_target, push_spare,
};
use crate::notes::unmet::push_unmet;
use crate::verdicts::tally::names_of;
use std::alloc::{AllocError, Global};
use sy_checker::survey;
use sy_places::relay_file::outline::Object;
use sy_places::relay_file::places::{Places, Thing, objects_of, places_of};
use sy_places::site_file::texts::{SiteTexts, relay_file};
use sy_places::ways::followed_lists::circle;
use sy_places::ways::relay_parts::{
    Feeder, Spot, free_feeder, free_input, name_of_list, queue_at, spot_at,
};
use sy_report::texts::note::{Note, append_note};
use sy_report::texts::parts::Part;
use sy_report::texts::words::Words;
use sy_rules::{Occurrence, QueueParameters};
use sy_site::Site;
use sy_site::finding::{Finding, Kind};
use sy_warnings::objects::{push_with_place, stands_at};

/// What a finding is about: its input, an object with its file, and a queue, by its number too.
#[derive(Clone, Copy)]
struct Subject<'a> {
    spot: Spot<'a>,
    thing: Thing,
    number: u32,
    queue: QueueParameters,
    places: Option<Places<'a>>,
}

fn subject_of<'a>(
    alloc: Global,
    site: &'a Site,
    places: Option<Places<'a>>,
    finding: &Finding,
    given: Option<Occurrence>,
) -> Result<Option<Subject<'a>>, AllocError> {
    let Some(spot) = spot_at(site, finding.input) else {
        return Ok(None);
    };
    let Some(
        Meant {
            thing,
            queue: number,
        },
    ) = find_meant(alloc, site, spot, finding, given)?
    else {
        return Ok(None);
    };
    let Some(queue) = queue_at(spot.plan, number) else {
        return Ok(None);
    };
    Ok(Some(Subject {
        spot,
        thing,
        number,
        queue,
        places,
    }))
}

// The object that a finding is about, where it stands in the file.
fn object_meant(subject: Subject<'_>) -> Option<Object<'_>> {
    match subject.places {
        Some(places) => places.object(subject.thing),
        None => None,
    }
}

// What feeds a queue that discards, and doesn't wait before.
fn push_feeder(words: &mut Words, site: &Site, relay: u32, subject: Subject<'_>) {
    match free_feeder(subject.spot.plan, subject.number) {
        Some(Feeder::Input(number)) => {
            let thing = Thing::Input(number);
            push_with_place(words, site, relay, subject.places, thing);
        }
        Some(Feeder::Post(list)) => {
            words.append(&[
                Part::Text(b"what is posted to "),
                Part::Text(name_of_list(subject.spot.plan, list)),
            ]);
        }
        None => {}
    }
}

// Whether what feeds the queue is told: it discards, and its full-delay mark alone would keep it from that.
fn reports_feeder(kind: Kind, queue: QueueParameters) -> bool {
    let discards = match kind {
        Kind::Discards => true,
        Kind::InnerQueue => queue.waits && is_marked(queue),
        _ => false,
    };
    discards && queue.full_delay_mark < queue.discard_mark
}

// Of a queue that discards, what feeds it.
fn push_fed_by(
    alloc: Global,
    note: &mut Note,
    site: &Site,
    relay: u32,
    subject: Subject<'_>,
    kind: Kind,
) -> Result<(), AllocError> {
    if !reports_feeder(kind, subject.queue) {
        return Ok(());
    }
    let mut text = Words::new(alloc);
    push_feeder(&mut text, site, relay, subject);
    note.append_line("fed by", text)
}

// Why a post loses messages.
fn push_inner(note: &mut Note, site: &Site, subject: Subject<'_>, finding: &Finding) {
    let (plan, queue) = (subject.spot.plan, subject.queue);
    let fed_freely = free_input(plan, subject.number).is_some();
    if !queue.waits {
        push_post(note, queue, fed_freely);
    } else if !is_marked(queue) {
        push_unmarked(note, queue, fed_freely);
    } else {
        push_discarding(note, plan, subject.number, queue);
    }
    push_spare(note, site, finding.input.relay, subject.thing);
}

// Why a circle of posts does.
fn push_circle(
    alloc: Global,
    note: &mut Note,
    site: &Site,
    subject: Subject<'_>,
    finding: &Finding,
) -> Result<(), AllocError> {
    let (relay, list, class) = (finding.input.relay, subject.spot.input.list, finding.class);
    if let Some(lists) = circle(alloc, site, relay, subject.spot.plan, list, class)? {
        push_inner_loop(note, subject.spot.plan, lists.as_slice());
    }
    Ok(())
}

// Why messages are lost by an action, or at a queue, and what would change that.
fn push_reason(
    alloc: Global,
    note: &mut Note,
    site: &Site,
    site_text: &[u8],
    subject: Subject<'_>,
    finding: &Finding,
) -> Result<(), AllocError> {
    let (own, plan) = (finding.input.relay, subject.spot.plan);
    match finding.kind {
        Kind::NotFull => push_not_full(note, subject.spot, subject.queue),
        Kind::MarkOff => push_mark_off(note, subject.queue),
        Kind::MarkAboveSize => push_mark_above_size(note, subject.queue),
        Kind::Discards => push_discarding(note, plan, subject.number, subject.queue),
        Kind::InnerQueue => push_inner(note, site, subject, finding),
        Kind::GivesUp => {
            push_gives_up(note, plan, subject.thing, object_meant(subject));
            push_spare(note, site, own, subject.thing);
        }
        Kind::NoTarget => {
            return push_no_target(alloc, note, site, site_text, own, plan, subject.thing);
        }
        Kind::Loop => push_loop(note, site, finding),
        Kind::InnerLoop => return push_circle(alloc, note, site, subject, finding),
        Kind::Unmet(_) => {}
    }
    Ok(())
}

// What is said of a finding of another kind than the ninth.
fn push_finding(
    alloc: Global,
    texts: &SiteTexts<'_>,
    site: &Site,
    note: &mut Note,
    finding: &Finding,
    given: Option<Occurrence>,
) -> Result<(), AllocError> {
    let relay = relay_meant(finding);
    let file = relay_file(alloc, texts.relay_text(relay))?;
    let objects = objects_of(alloc, &file)?;
    let places = places_of(&file, objects.as_slice());
    let text: &[u8] = match texts.text() {
        Some(text) => text,
        None => &[],
    };
    match subject_of(alloc, site, places, finding, given)? {
        Some(subject) => {
            stands_at(alloc, note, site, relay, places, subject.thing);
            push_reason(alloc, note, site, text, subject, finding)?;
            push_fed_by(alloc, note, site, relay, subject, finding.kind)
        }
        None => Ok(()),
    }
}

/// The note of a finding by an occurrence; where none is given, by the first. A loop that is found without a way is one of
/// its input.
pub fn note_of_occurrence(
    alloc: Global,
    texts: &SiteTexts<'_>,
    site: &Site,
    finding: &Finding,
    given: Option<Occurrence>,
) -> Result<Note, AllocError> {
    let mut note = Note::new(alloc);
    match finding.kind {
        Kind::Unmet(archive) => push_unmet(alloc, texts, site, &mut note, finding, archive),
        _ => push_finding(alloc, texts, site, &mut note, finding, given),
    }?;
    note.finish()
}

/// The note of a finding.
pub fn note_of_finding(
    alloc: Global,
    texts: &SiteTexts<'_>,
    site: &Site,
    finding: &Finding,
) -> Result<Note, AllocError> {
    note_of_occurrence(alloc, texts, site, finding, None)
}

// The classes of which the same is found at the same input, where they are several.
fn push_group(
    alloc: Global,
    note: &mut Note,
    site: &Site,
    finding: &Finding,
) -> Result<(), AllocError> {
    let groups = survey(alloc, site)?;
    for group in groups.as_slice() {
        if group.input == finding.input && group.kind == finding.kind && group.classes.len() > 1 {
            let names = names_of(alloc, group.classes.as_slice())?;
            let mut text = Words::new(alloc);
            text.append(&[Part::Text(names.as_slice())]);
            note.append_line("classes", text)?;
        }
    }
    Ok(())
}

/// A finding in words: where the object stands that it is about, of which classes it is found, why messages are lost by
/// it, and what would change that.
pub fn explanation(
    alloc: Global,
    texts: &SiteTexts<'_>,
    site: &Site,
    finding: &Finding,
) -> Result<Vec<u8>, AllocError> {
    let mut note = note_of_finding(alloc, texts, site, finding)?;
    push_group(alloc, &mut note, site, finding)?;
    let note = note.finish()?;
    let mut words = Words::new(alloc);
    append_note(&mut words, &note);
    words.finish()
}
