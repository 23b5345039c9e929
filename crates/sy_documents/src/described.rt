//! The parts of a JSON document: classes, findings, faults, warnings and losses.

use memchr::memchr;
use std::alloc::{AllocError, Global};
use sy_findings::notes::explanation::note_of_finding;
use sy_findings::notes::instances::{finding_of as finding_of_instance, note_of_instance};
use sy_findings::verdicts::instances::Instance;
use sy_json::classes::class_names;
use sy_json::objects::{Elements, Members};
use sy_places::site_file::texts::SiteTexts;
use sy_places::ways::followed_lists::circle;
use sy_places::ways::relay_parts::{name_of_list, spot_at};
use sy_report::texts::note::{Note, Place};
use sy_report::texts::parts::{Part, action_name, append_parts, port_of, relay_name};
use sy_rules::{Occurrence, Plan};
use sy_site::finding::{Finding, Kind, WayRow};
use sy_site::{Site, SiteAction, SiteInput};
use sy_warnings::warnings::Warning;
use sy_wire::Class;
use sy_wire::numbers::number_up_to;

// The two words of a number with a name, as `42 Unknown`; of words without a number nothing, and all of them.
fn cut_number(words: &[u8]) -> (Option<u64>, &[u8]) {
    match memchr(b' ', words) {
        Some(at) => match number_of(&words[..at]) {
            Some(number) => (Some(number), &words[at + 1..]),
            None => (None, words),
        },
        None => (None, words),
    }
}

/// The number that a word of decimal digits is.
pub fn number_of(word: &[u8]) -> Option<u64> {
    number_up_to(word, u64::MAX)
}

/// Puts the number and the name of a kind or a fault.
pub fn insert_kind(members: &mut Members, words: &[u8]) {
    let (number, name) = cut_number(words);
    members.number_if_any("kind", number);
    members.text("name", name);
}

fn insert_place(members: &mut Members, place: &Option<Place>) {
    match place {
        Some(place) => {
            members.text("file", place.file.as_slice());
            match place.point {
                Some(point) => {
                    members.number("line", point.line);
                    members.number("column", point.column);
                }
                None => {
                    members.null("line");
                    members.null("column");
                }
            }
        }
        None => {
            members.null("file");
            members.null("line");
            members.null("column");
        }
    }
}

/// Puts a note: where it stands, what stands there, why, and what to write.
pub fn insert_note(alloc: Global, members: &mut Members, note: &Note) {
    insert_place(members, &note.place);
    members.text("what", note.what.as_slice());
    members.text("why", note.why.as_slice());
    members.text("change", note.change.as_slice());
    let mut further = Elements::new(alloc);
    for line in note.lines.as_slice() {
        let mut found = Members::new(alloc);
        found.text("word", line.word.as_bytes());
        found.text("text", line.text.as_slice());
        further.object(found);
    }
    members.array("further", further);
}

// Puts an input by its relay and port.
fn insert_input(members: &mut Members, site: &Site, input: SiteInput) {
    members.text("relay", relay_name(site, input.relay));
    members.number("port", u64::from(port_of(site, input)));
}

/// An input by its relay and port.
pub fn input_of(alloc: Global, site: &Site, input: SiteInput) -> Members {
    let mut members = Members::new(alloc);
    insert_input(&mut members, site, input);
    members
}

/// An action by its relay and name.
pub fn action_of(alloc: Global, site: &Site, action: SiteAction) -> Members {
    let mut members = Members::new(alloc);
    members.text("relay", relay_name(site, action.relay));
    members.text("action", action_name(site, action));
    members
}

fn insert_archive(alloc: Global, members: &mut Members, site: &Site, kind: Kind) {
    match kind {
        Kind::Unmet(archive) => members.object("archive", action_of(alloc, site, archive)),
        _ => members.null("archive"),
    }
}

// The forwards of a way.
fn way_of(alloc: Global, site: &Site, way: &[WayRow]) -> Elements {
    let mut found = Elements::new(alloc);
    for row in way {
        let mut members = Members::new(alloc);
        insert_input(&mut members, site, row.input);
        members.number("occurrence", u64::from(row.number));
        found.object(members);
    }
    found
}

// The names of the lists of a circle of posts, from the one where it begins on.
fn circle_of(alloc: Global, site: &Site, finding: &Finding) -> Result<Elements, AllocError> {
    let mut names = Elements::new(alloc);
    let Some(spot) = spot_at(site, finding.input) else {
        return Ok(names);
    };
    let (relay, list) = (finding.input.relay, spot.input.list);
    if let Some(lists) = circle(alloc, site, relay, spot.plan, list, finding.class)? {
        for list in lists.iter().rev() {
            names.text(name_of_list(spot.plan, *list));
        }
    }
    Ok(names)
}

fn insert_circle(
    alloc: Global,
    members: &mut Members,
    site: &Site,
    finding: &Finding,
) -> Result<(), AllocError> {
    match finding.kind {
        Kind::InnerLoop => members.array("circle", circle_of(alloc, site, finding)?),
        _ => members.null("circle"),
    }
    Ok(())
}

// A finding of these classes, with its note.
fn finding_of(
    alloc: Global,
    site: &Site,
    finding: &Finding,
    note: &Note,
    classes: &[Class],
) -> Result<Members, AllocError> {
    let names = class_names(alloc, classes)?;
    let mut members = Members::new(alloc);
    insert_kind(&mut members, finding.kind.words().as_bytes());
    members.array("classes", names);
    insert_input(&mut members, site, finding.input);
    insert_archive(alloc, &mut members, site, finding.kind);
    members.array("way", way_of(alloc, site, finding.way.as_slice()));
    insert_circle(alloc, &mut members, site, finding)?;
    insert_note(alloc, &mut members, note);
    Ok(members)
}

/// The first finding of a site, of its one class.
pub fn first_finding(
    alloc: Global,
    texts: &SiteTexts<'_>,
    site: &Site,
    finding: &Finding,
) -> Result<Elements, AllocError> {
    let note = note_of_finding(alloc, texts, site, finding)?;
    let members = finding_of(alloc, site, finding, &note, &[finding.class])?;
    let mut found = Elements::new(alloc);
    found.object(members);
    Ok(found)
}

// A list that is posted to, by its relay and the ruleset; where it is an action's own, that action.
fn posted_to(alloc: Global, site: &Site, relay: u32, plan: &Plan, list: u32) -> Members {
    if let Some(action) = plan.own_action(list) {
        return action_of(alloc, site, SiteAction { relay, action });
    }
    let mut members = Members::new(alloc);
    members.text("relay", relay_name(site, relay));
    members.text("ruleset", name_of_list(plan, list));
    members
}

// Puts what a faulty occurrence runs or posts to.
fn insert_occurrence(alloc: Global, members: &mut Members, site: &Site, instance: &Instance) {
    let relay = instance.input.relay;
    match instance.occurrence {
        Some(Occurrence::Run(action)) => {
            let found = action_of(alloc, site, SiteAction { relay, action });
            members.object("occurrence", found);
        }
        Some(Occurrence::Post(list)) if relay < site.relays() => {
            members.object(
                "occurrence",
                posted_to(alloc, site, relay, site.plan(relay), list),
            );
        }
        _ => members.null("occurrence"),
    }
}

/// An instance as a finding among all of a site, without what is said of it.
pub fn instance_of(alloc: Global, site: &Site, instance: &Instance) -> Result<Members, AllocError> {
    let mut members = Members::new(alloc);
    insert_kind(&mut members, instance.kind.words().as_bytes());
    members.array("classes", class_names(alloc, instance.classes.as_slice())?);
    insert_input(&mut members, site, instance.input);
    insert_archive(alloc, &mut members, site, instance.kind);
    insert_occurrence(alloc, &mut members, site, instance);
    Ok(members)
}

/// All findings of a site, each of all its classes.
pub fn all_findings(
    alloc: Global,
    texts: &SiteTexts<'_>,
    site: &Site,
    instances: &[Instance],
) -> Result<Elements, AllocError> {
    let mut found = Elements::new(alloc);
    for instance in instances {
        if let Some(finding) = finding_of_instance(alloc, instance) {
            let note = note_of_instance(alloc, texts, site, instance)?;
            let classes = instance.classes.as_slice();
            let mut members = finding_of(alloc, site, &finding, &note, classes)?;
            insert_occurrence(alloc, &mut members, site, instance);
            found.object(members);
        }
    }
    Ok(found)
}

/// The spare actions of a site.
pub fn spare_elements(alloc: Global, site: &Site) -> Elements {
    let mut found = Elements::new(alloc);
    for spare in site.spares() {
        found.object(action_of(alloc, site, *spare));
    }
    found
}

/// Warnings.
pub fn warning_elements(alloc: Global, warnings: &[Warning]) -> Elements {
    let mut found = Elements::new(alloc);
    for warning in warnings {
        let mut members = Members::new(alloc);
        members.text("name", warning.caution.name().as_bytes());
        insert_note(alloc, &mut members, &warning.note);
        found.object(members);
    }
    found
}
