//! What is said of endpoints that aren't told apart.

use crate::objects::{action_part, port_part};
use std::alloc::{AllocError, Global};
use sy_endpoints::hosts::{Peer, peer_of};
use sy_endpoints::outlets::{connection, outlet_of};
use sy_endpoints::shared::Meeting;
use sy_places::relay_file::places::relay_line;
use sy_places::site_file::texts::SiteTexts;
use sy_report::texts::note::{Note, Point, append_point};
use sy_report::texts::parts::{Part, port_of, relay_name};
use sy_report::texts::words::Words;
use sy_rules::{Action, Destination};
use sy_site::Site;

// Puts where something is reached.
fn push_peer(alloc: Global, words: &mut Words, peer: Peer<'_>) -> Result<(), AllocError> {
    match peer {
        Peer::Address(address) => {
            let text = address.to_string(alloc)?;
            words.append(&[Part::Text(text.as_str().as_bytes())]);
        }
        Peer::Name(name) => words.append(&[Part::Text(name)]),
    }
    Ok(())
}

// Puts a port behind that.
fn push_port(words: &mut Words, port: u16) {
    words.append(&[Part::Text(b" port "), Part::Number(u64::from(port))]);
}

// Puts where an action of that destination connects to, as `127.0.0.1 port 6514`.
fn push_connection(
    alloc: Global,
    words: &mut Words,
    site: &Site,
    destination: &Destination,
) -> Result<(), AllocError> {
    if let Some((peer, port)) = connection(outlet_of(site, destination)) {
        push_peer(alloc, words, peer)?;
        push_port(words, port);
    }
    Ok(())
}

/// Puts a relay with the line that names it, as `relay edge (site:1:1)`.
pub fn push_relay_line(words: &mut Words, texts: &SiteTexts<'_>, site: &Site, relay: u32) {
    words.append(&[Part::Text(b"relay "), Part::Text(relay_name(site, relay))]);
    let found = match texts.text() {
        Some(text) => relay_line(text, relay),
        None => None,
    };
    if let Some((line, _)) = found {
        words.say(" (");
        append_point(
            words,
            texts.name.as_bytes(),
            Some(Point { line, column: 1 }),
        );
        words.say(")");
    }
}

/// Says that a note is of the line of a relay.
pub fn stands_at_relay(
    alloc: Global,
    note: &mut Note,
    texts: &SiteTexts<'_>,
    site: &Site,
    relay: u32,
) {
    note.what.append(&[Part::Text(b"relay "), Part::Text(relay_name(site, relay))]);
    if let Some(text) = texts.text() {
        if let Some((line, _)) = relay_line(text, relay) {
            note.stands_at(
                alloc,
                texts.name.as_bytes(),
                Some(Point { line, column: 1 }),
            );
        }
    }
}

/// Of a relay that can be reached where an earlier one can.
pub fn push_meeting(
    alloc: Global,
    note: &mut Note,
    texts: &SiteTexts<'_>,
    site: &Site,
    found: Meeting,
) -> Result<(), AllocError> {
    let (relay, earlier) = (found.input.relay, found.earlier.relay);
    if relay >= site.relays() {
        return Ok(());
    }
    if earlier >= site.relays() {
        return Ok(());
    }
    note.why.say("it is reached at ");
    push_peer(alloc, &mut note.why, peer_of(site.host(relay)))?;
    push_port(&mut note.why, port_of(site, found.input));
    note.why.say(", and ");
    push_relay_line(&mut note.why, texts, site, earlier);
    note.why.say(" at ");
    push_peer(alloc, &mut note.why, peer_of(site.host(earlier)))?;
    push_port(&mut note.why, port_of(site, found.earlier));
    note.why
        .say(": what is sent to one of them may come to the other");
    note.change.say(
        "the address of each relay's host behind its file in the site file, or another port of one of them",
    );
    Ok(())
}

/// Of an action that leads to an input of its own relay, which stands at that point.
pub fn push_homeward(
    alloc: Global,
    note: &mut Note,
    site: &Site,
    relay: u32,
    action: &Action,
    input: u32,
    at: Option<(&[u8], Point)>,
) -> Result<(), AllocError> {
    if relay >= site.relays() {
        return Ok(());
    }
    note.why.say("it connects to ");
    push_connection(alloc, &mut note.why, site, &action.destination)?;
    note.why.append(&[
        Part::Text(b", where relay "),
        Part::Text(relay_name(site, relay)),
        Part::Text(b" itself listens: input at port "),
        port_part(site.plan(relay), input),
    ]);
    if let Some((file, point)) = at {
        note.why.say(" (");
        append_point(&mut note.why, file, Some(point));
        note.why.say(")");
    }
    note.change.say(
        "the address of the receiver's host in its line of the site file, or another port of one of them",
    );
    Ok(())
}

/// Of an action that connects to an address that is no host's.
pub fn push_no_host(
    alloc: Global,
    note: &mut Note,
    texts: &SiteTexts<'_>,
    site: &Site,
    action: &Action,
) -> Result<(), AllocError> {
    note.why.say("it connects to ");
    push_connection(alloc, &mut note.why, site, &action.destination)?;
    if let Destination::Forward(target, _) = &action.destination {
        if let Some(relay) = site.relay_named(target.as_slice()) {
            note.why.say(" of ");
            push_relay_line(&mut note.why, texts, site, relay);
        }
    }
    note.why.say(", and that is the address of no host");
    note.change.say(
        "the address of the receiver's host; where a relay listens is said behind it, as in listen 0.0.0.0",
    );
    Ok(())
}

/// Of a forward behind which nobody is.
pub fn push_nobody(note: &mut Note, site: &Site, target: &[u8], port: u16) {
    note.why.append(&[
        Part::Text(b"it forwards to "),
        Part::Input(target, u64::from(port)),
        Part::Text(
            b", which is no input of the site, no receiver that an outside line names, and no address: no message of it comes to anybody",
        ),
    ]);
    if site.relay_named(target).is_some() {
        note.change.say("the port of an input of that relay");
        return;
    }
    note.change.append(&[
        Part::Text(b"a target of the site there, or a line outside "),
        Part::Text(target),
        Part::Text(b" ADDRESS "),
        Part::Number(u64::from(port)),
        Part::Text(b" in the site file"),
    ]);
}

/// The name of an action, behind the word for it.
pub fn push_action(note: &mut Note, site: &Site, relay: u32, action: u32) {
    if relay < site.relays() {
        note.what.append(&[
            Part::Text(b"action "),
            action_part(site.plan(relay), action),
        ]);
    }
}
