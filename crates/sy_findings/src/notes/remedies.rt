//! Why messages are lost by an action, or by a loop, and what would change that.

use crate::notes::spares::may_be_spare;
use std::alloc::{AllocError, Global};
use sy_places::relay_file::outline::{Object, value_of};
use sy_places::relay_file::places::{Thing, relay_line};
use sy_places::ways::relay_parts::name_of_list;
use sy_report::texts::near::nearest;
use sy_report::texts::note::Note;
use sy_report::texts::parts::{Part, action_name, relay_name};
use sy_report::texts::words::Words;
use sy_rules::{Action, Destination, Plan};
use sy_site::finding::{Finding, WayRow};
use sy_site::{Site, SiteAction};

fn action_of(plan: &Plan, thing: Thing) -> Option<&Action> {
    match thing {
        Thing::Action(number) => plan.actions().get(number as usize),
        _ => None,
    }
}

fn retries(action: &Action) -> u64 {
    match action.retry {
        Some(retry) => u64::from(retry),
        None => 0,
    }
}

// Whether an object leaves a parameter out.
fn leaves_out(object: Option<Object<'_>>, name: &[u8]) -> bool {
    match object {
        Some(object) => value_of(object.params, name).is_none(),
        None => false,
    }
}

/// What else takes a finding away: that the action is spare, where nothing that is asked for hangs on it.
pub fn push_spare(note: &mut Note, site: &Site, relay: u32, thing: Thing) {
    let Thing::Action(action) = thing else {
        return;
    };
    let action = SiteAction { relay, action };
    if !may_be_spare(site, action) {
        return;
    }
    note.change.append(&[
        Part::Text(b"; or, where what is lost there or behind it needn't be kept: spare "),
        Part::Text(relay_name(site, relay)),
        Part::Text(b" "),
        Part::Text(action_name(site, action)),
        Part::Text(b" in the site file"),
    ]);
    if site.policy() == 1 {
        note.change.say(", with policy 2 as its first line");
    }
}

/// Of an action that is given up.
pub fn push_gives_up(note: &mut Note, plan: &Plan, thing: Thing, object: Option<Object<'_>>) {
    let Some(action) = action_of(plan, thing) else {
        return;
    };
    if leaves_out(object, b"action.resumeRetryCount") {
        note.why.say(
            "it has no action.resumeRetryCount, so the default 0 holds: a message is lost at the first failure",
        );
    } else {
        note.why.append(&[
            Part::Text(b"its action.resumeRetryCount is "),
            Part::Number(retries(action)),
            Part::Text(
                b": a message that couldn't be handed on is given up after so many retries, and lost",
            ),
        ]);
    }
    note.change.say("action.resumeRetryCount=\"-1\" there, by which it is tried without end");
}

// The ports of a relay's inputs.
fn append_ports(words: &mut Words, site: &Site, plan: &Plan, relay: u32) {
    words.append(&[
        Part::Text(b"a port of "),
        Part::Text(relay_name(site, relay)),
        Part::Text(b" there:"),
    ]);
    for input in plan.inputs() {
        words.append(&[Part::Text(b" "), Part::Number(u64::from(input.port))]);
    }
}

// The names of the other relays of a site.
fn other_relays(alloc: Global, site: &Site, own: u32) -> Result<Vec<&[u8]>, AllocError> {
    let mut names = Vec::new(alloc);
    for relay in 0..site.relays() {
        if relay != own {
            names.push(relay_name(site, relay))?;
        }
    }
    Ok(names)
}

// Of some names the one that is likely meant by a target: the nearest, or the only one.
fn likely<'n>(target: &[u8], names: &[&'n [u8]]) -> Option<&'n [u8]> {
    match names {
        [only] => Some(*only),
        _ => nearest(target, names),
    }
}

// Names of which one may be a target: the one that is likely meant, or all.
fn append_names(words: &mut Words, names: &[&[u8]], target: &[u8]) {
    words.say("a target of the site there:");
    match likely(target, names) {
        Some(name) => words.append(&[Part::Text(b" "), Part::Text(name)]),
        None => {
            for name in names {
                words.append(&[Part::Text(b" "), Part::Text(name)]);
            }
        }
    }
}

// The line of the site file that names a relay.
fn push_line(words: &mut Words, site: &Site, site_text: &[u8], name: Option<&[u8]>) {
    let Some(name) = name else {
        return;
    };
    let Some(relay) = site.relay_named(name) else {
        return;
    };
    if let Some((number, _)) = relay_line(site_text, relay) {
        words.append(&[
            Part::Text(b" (line "),
            Part::Number(number),
            Part::Text(b")"),
        ]);
    }
}

// That a relay could be named as the target is written, if that looks like a host's address or name.
fn push_address(
    words: &mut Words,
    site: &Site,
    site_text: &[u8],
    target: &[u8],
    name: Option<&[u8]>,
) {
    if target.contains(&b'.') {
        words.append(&[
            Part::Text(b", or name the relay "),
            Part::Text(target),
            Part::Text(b" in the site file"),
        ]);
        push_line(words, site, site_text, name);
        words.say(": a target is compared with relay names; ADDRESS isn't looked at");
    }
}

// What a forward may lead to in place of a target.
fn append_targets(
    alloc: Global,
    words: &mut Words,
    site: &Site,
    site_text: &[u8],
    own: u32,
    target: &[u8],
) -> Result<(), AllocError> {
    match site.relay_named(target) {
        Some(relay) if relay < site.relays() => {
            append_ports(words, site, site.plan(relay), relay);
            Ok(())
        }
        _ => {
            let names = other_relays(alloc, site, own)?;
            append_names(words, names.as_slice(), target);
            let name = likely(target, names.as_slice());
            push_address(words, site, site_text, target, name);
            Ok(())
        }
    }
}

// Whether a target is a receiver that is no relay.
fn is_outside(site: &Site, target: &[u8], port: u16) -> bool {
    site.relay_named(target).is_none() && site.outside_named(target, port).is_some()
}

// Where a forward leads that leads to no input of the site.
fn push_where(words: &mut Words, site: &Site, target: &[u8], port: u16) {
    if is_outside(site, target, port) {
        words.append(&[
            Part::Text(b"it leads to the outside receiver "),
            Part::Text(target),
            Part::Text(b", which is no relay of the site: only a spare action may lead there"),
        ]);
        return;
    }
    words.append(&[
        Part::Text(b"it forwards to "),
        Part::Input(target, u64::from(port)),
        Part::Text(b", which is no input of the site, so that no archive of the site gets it"),
    ]);
}

/// Of a forward that leads to no input of the site.
pub fn push_no_target(
    alloc: Global,
    note: &mut Note,
    site: &Site,
    site_text: &[u8],
    own: u32,
    plan: &Plan,
    thing: Thing,
) -> Result<(), AllocError> {
    let Some(action) = action_of(plan, thing) else {
        return Ok(());
    };
    match &action.destination {
        Destination::Archive(_) => Ok(()),
        Destination::Forward(target, port) => {
            push_where(&mut note.why, site, target.as_slice(), *port);
            append_targets(
                alloc,
                &mut note.change,
                site,
                site_text,
                own,
                target.as_slice(),
            )?;
            if is_outside(site, target.as_slice(), *port) {
                push_spare(note, site, own, thing);
            }
            Ok(())
        }
    }
}

// The relays of a way.
fn push_way(words: &mut Words, site: &Site, way: &[WayRow]) {
    for row in way {
        words.append(&[
            Part::Text(relay_name(site, row.input.relay)),
            Part::Text(b", "),
        ]);
    }
}

/// Of a loop.
pub fn push_loop(note: &mut Note, site: &Site, finding: &Finding) {
    note.why
        .say("by it a message may come to a relay once more: ");
    push_way(&mut note.why, site, finding.way.as_slice());
    note.why.append(&[
        Part::Text(relay_name(site, finding.input.relay)),
        Part::Text(b"; what goes round fills the queues there"),
    ]);
    note.change.say(
        "that forward, or another one of the loop, left out, or put behind a test that the class doesn't pass",
    );
}

/// Of a circle of posts, given by its lists: the last one first, the one where it begins at the end.
pub fn push_inner_loop(note: &mut Note, plan: &Plan, circle: &[u32]) {
    note.why.say("by posts from queue to queue a message may come there once more: ");
    for list in circle.iter().rev() {
        note.why.append(&[Part::Text(name_of_list(plan, *list)), Part::Text(b", ")]);
    }
    if let Some(list) = circle.last() {
        note.why.append(&[Part::Text(name_of_list(plan, *list))]);
    }
    note.why
        .say("; once these queues are full, each waits for the next");
    note.change.say(
        "one of these posts left out, or put behind a test that the class doesn't pass",
    );
}
