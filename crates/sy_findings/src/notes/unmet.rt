//! Why messages don't come to an archive: the statement, or the spare line, that keeps them from it, and the path up to
//! there.

use crate::notes::way_to_archive::{
    Search, Wanted, archive_of, push_moved, push_name, push_path, push_wanted, search_of, spare_at,
    target_of, wanted_at,
};
use std::alloc::{AllocError, Global};
use sy_places::relay_file::places::{Places, Thing, objects_of, places_of, spare_line};
use sy_places::relay_file::statements::statements_of;
use sy_places::site_file::source::{between, find};
use sy_places::site_file::texts::{RelayFile, SiteTexts, relay_file};
use sy_places::ways::hindrance::{Hindrance, Target, find_hindrance};
use sy_places::ways::towards_archive::{Step, approach_to, steps_back};
use sy_report::texts::note::{Note, Point};
use sy_report::texts::parts::{Part, action_name, relay_name};
use sy_report::texts::words::Words;
use sy_site::finding::Finding;
use sy_site::{Site, SiteAction};
use sy_warnings::objects::{push_thing, push_with_place, stands_at};

// The statement that keeps messages off in a list, by the file of its relay.
fn hindrance_in(
    alloc: Global,
    site: &Site,
    file: &Option<RelayFile<'_>>,
    target: Option<Target<'_>>,
    finding: &Finding,
    step: Step,
) -> Result<Option<Hindrance>, AllocError> {
    let Some(
        RelayFile {
            script: Some(script),
            ..
        },
    ) = file
    else {
        return Ok(None);
    };
    let Some(target) = target else {
        return Ok(None);
    };
    if step.input.relay >= site.relays() {
        return Ok(None);
    }
    let plan = site.plan(step.input.relay);
    let statements = statements_of(alloc, script)?;
    find_hindrance(alloc, &statements, plan, step.list, finding.class, target)
}

// The words of a test, from its place up to `then`.
fn words_of_test(text: &[u8], place: usize) -> &[u8] {
    let end = place.saturating_add(60).min(text.len());
    let part = between(text, place, end);
    let line = match find(part, b"\n") {
        Some(end) => between(part, 0, end),
        None => part,
    };
    match find(line, b" then") {
        Some(end) => between(line, 0, end),
        None => line,
    }
}

fn push_stop(note: &mut Note, search: Search<'_>, of: Wanted<'_>, is_sure: bool) {
    if is_sure {
        note.why.say(" and is stopped here, before ");
    } else {
        note.why.say(" and may be stopped here, before ");
    }
    push_wanted(&mut note.why, search, of);
    push_moved(&mut note.change, search, of);
    note.change.say(" before that stop");
    if !is_sure {
        note.change
            .say(", or let the test ask facility and severity alone");
    }
}

fn push_test(note: &mut Note, search: Search<'_>, of: Wanted<'_>, is_decided: bool) {
    if is_decided {
        note.why
            .say(" and this test keeps every message of the class from ");
    } else {
        note.why.say(" and this test, which the class alone doesn't decide, may keep it from ");
    }
    push_wanted(&mut note.why, search, of);
    push_moved(&mut note.change, search, of);
    note.change.say(" outside that test");
    if !is_decided {
        note.change
            .say(", or let it ask facility and severity alone");
    }
}

// Says what nothing there does: execute the archive, or forward to where it is executed.
fn push_nothing(note: &mut Note, search: Search<'_>, of: Wanted<'_>, relay: u32) {
    let archive = search.archive;
    if relay == archive.relay {
        note.why.say(" and no statement there brings it to ");
        push_wanted(&mut note.why, search, of);
        note.change.say("put ");
        push_thing(
            &mut note.change,
            search.site,
            archive.relay,
            Thing::Action(archive.action),
        );
        note.change.say(" where each message of that input comes, as by a call of its ruleset");
        return;
    }
    note.why
        .say(" and no forward there leads to an input that has ");
    push_wanted(&mut note.why, search, of);
    note.change.append(&[
        Part::Text(b"a forward there to a port of "),
        Part::Text(relay_name(search.site, archive.relay)),
    ]);
}

// Says where a statement stands, and what it does.
fn push_hindrance(
    alloc: Global,
    note: &mut Note,
    search: Search<'_>,
    places: Places<'_>,
    of: Wanted<'_>,
    found: Hindrance,
) {
    match found {
        Hindrance::Stop(place, is_sure) => {
            places.stands_at(alloc, note, place);
            note.what.say("stop");
            push_stop(note, search, of, is_sure);
        }
        Hindrance::Test(place) => {
            places.stands_at(alloc, note, place);
            note.what
                .append(&[Part::Text(words_of_test(places.text, place))]);
            push_test(note, search, of, false);
        }
        Hindrance::Never(place) => {
            places.stands_at(alloc, note, place);
            note.what
                .append(&[Part::Text(words_of_test(places.text, place))]);
            push_test(note, search, of, true);
        }
    }
}

// Says that what leads on is spare, by which line of the site file.
fn push_spare_line(
    alloc: Global,
    note: &mut Note,
    search: Search<'_>,
    site_name: &str,
    site_text: &[u8],
    spare: SiteAction,
) {
    let found = spare_line(site_text, search.site, spare);
    if let Some((line, _)) = found {
        note.stands_at(alloc, site_name.as_bytes(), Some(Point { line, column: 1 }));
    }
    note.what.append(&[
        Part::Text(b"spare "),
        Part::Text(relay_name(search.site, spare.relay)),
        Part::Text(b" "),
        Part::Text(action_name(search.site, spare)),
    ]);
    note.why.say(" and goes on by action ");
    push_name(&mut note.why, search.site, spare.relay, spare.action);
    note.why.say(" alone, which is spare, so that it may be lost there, or behind it, before ");
    push_wanted(&mut note.why, search, archive_of(search));
    note.change.say("leave out that line");
}

// Says what keeps messages off at a step.
fn push_hindered(
    alloc: Global,
    texts: &SiteTexts<'_>,
    note: &mut Note,
    search: Search<'_>,
    finding: &Finding,
    step: Step,
) -> Result<(), AllocError> {
    let relay = step.input.relay;
    let file = relay_file(alloc, texts.relay_text(relay))?;
    let objects = objects_of(alloc, &file)?;
    let places = places_of(&file, objects.as_slice());
    let of = wanted_at(search, step);
    let target = match (search.approach.occurrence, places) {
        (Some(_), Some(places)) => target_of(places, of),
        _ => None,
    };
    let found = hindrance_in(alloc, search.site, &file, target, finding, step)?;
    match (found, places) {
        (Some(found), Some(places)) => push_hindrance(alloc, note, search, places, of, found),
        _ => {
            let thing = Thing::Input(step.input.input);
            stands_at(alloc, note, search.site, relay, places, thing);
            push_nothing(note, search, of, relay);
        }
    }
    Ok(())
}

// Says what keeps messages off at a step: that what leads on is spare, or a statement.
fn push_culprit(
    alloc: Global,
    texts: &SiteTexts<'_>,
    note: &mut Note,
    search: Search<'_>,
    finding: &Finding,
    step: Step,
) -> Result<(), AllocError> {
    match (spare_at(search, step), texts.text()) {
        (Some(spare), Some(text)) => {
            push_spare_line(alloc, note, search, texts.name, text, spare);
            Ok(())
        }
        _ => push_hindered(alloc, texts, note, search, finding, step),
    }
}

// Says what keeps messages off, where the way to the archive breaks off.
fn push_search(
    alloc: Global,
    texts: &SiteTexts<'_>,
    note: &mut Note,
    search: Search<'_>,
    finding: &Finding,
) -> Result<(), AllocError> {
    let back = steps_back(alloc, search.approach)?;
    let Some(last) = back.as_slice().first().copied() else {
        return Ok(());
    };
    push_path(&mut note.why, search.site, back.as_slice());
    push_culprit(alloc, texts, note, search, finding, last)
}

/// Says of an archive that an entry doesn't lead to what keeps messages of the class from it.
pub fn push_unmet(
    alloc: Global,
    texts: &SiteTexts<'_>,
    site: &Site,
    note: &mut Note,
    finding: &Finding,
    archive: SiteAction,
) -> Result<(), AllocError> {
    let file = relay_file(alloc, texts.relay_text(archive.relay))?;
    let objects = objects_of(alloc, &file)?;
    let places = places_of(&file, objects.as_slice());
    let approach = approach_to(alloc, site, finding.class, finding.input, archive)?;
    let mut text = Words::new(alloc);
    push_with_place(
        &mut text,
        site,
        archive.relay,
        places,
        Thing::Action(archive.action),
    );
    note.append_line("archive", text)?;
    let search = search_of(site, &approach, archive, places);
    push_search(alloc, texts, note, search, finding)
}
