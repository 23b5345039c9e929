//! The note of a port that can't be listened at.

use crate::start_notes::{kind_of, lines_of, note_at, push_reason};
use std::alloc::{AllocError, Global};
use std::io::ErrorKind;
use sy_places::relay_file::places::{Thing, relay_line};
use sy_places::site_file::source::word_in;
use sy_places::site_file::texts::SiteTexts;
use sy_report::texts::note::{Note, Point};
use sy_report::texts::parts::{Part, relay_name};
use sy_report::texts::reason::Reason;
use sy_site::Site;

/// The lowest port that the host gives any user, unless it was set otherwise.
const FREE_PORTS: u16 = 1024;

// The number of the input at a port.
fn input_at(site: &Site, relay: u32, port: u16) -> u32 {
    if relay >= site.relays() {
        return 0;
    }
    let mut number: u32 = 0;
    for input in site.plan(relay).inputs() {
        if input.port == port {
            return number;
        }
        number = number.saturating_add(1);
    }
    0
}

// The address that a relay line has its relay listen at, with its place there, where it gives one.
fn listened_in(line: &[u8]) -> Option<(usize, &[u8])> {
    let (place, first) = word_in(line, 3)?;
    if first == b"listen".as_slice() {
        return word_in(line, 4);
    }
    match word_in(line, 4) {
        Some(_) => word_in(line, 5),
        None => Some((place, first)),
    }
}

// Says that something stands in the line of a relay: its address, where it gives one.
fn stands_at_address(
    alloc: Global,
    note: &mut Note,
    texts: &SiteTexts<'_>,
    site: &Site,
    relay: u32,
) {
    let found = match texts.text() {
        Some(text) => relay_line(text, relay),
        None => None,
    };
    let name = relay_name(site, relay);
    let Some((line, words)) = found else {
        note.what.append(&[Part::Text(b"relay "), Part::Text(name)]);
        return;
    };
    let column = match listened_in(words) {
        Some((place, word)) => {
            note.what.append(&[Part::Text(word)]);
            (place as u64).saturating_add(1)
        }
        None => {
            note.what.append(&[Part::Text(b"relay "), Part::Text(name)]);
            1
        }
    };
    note.stands_at(alloc, texts.name.as_bytes(), Some(Point { line, column }));
}

// Says of a port that may not be listened at why that is.
fn push_denied(note: &mut Note, port: u16) {
    note.why.say(": permission denied");
    if port < FREE_PORTS {
        note.why.say("; ports below 1024 are for the superuser and who has CAP_NET_BIND_SERVICE");
        note.change.say(
            "a port from 1024 on, or AmbientCapabilities=CAP_NET_BIND_SERVICE in the unit",
        );
    } else {
        note.change.say("let the user that starts syc listen there, or another port");
    }
}

// Says why a port can't be listened at.
fn push_refused(
    alloc: Global,
    note: &mut Note,
    address: &str,
    port: u16,
    reason: Reason,
) -> Result<(), AllocError> {
    note.why.append(&[
        Part::Text(b"port "),
        Part::Number(u64::from(port)),
        Part::Text(b" of "),
        Part::Text(address.as_bytes()),
    ]);
    match kind_of(Some(reason)) {
        ErrorKind::AddrInUse => {
            note.why.say(" is in use: another process listens there");
            note.change.say(
                "end that process, which ss -ltnp lists, or another port here and wherever it is named",
            );
        }
        ErrorKind::PermissionDenied => push_denied(note, port),
        _ => {
            note.why.say(" can't be listened at");
            push_reason(alloc, &mut note.why, Some(reason))?;
            note.change.say("another port, or another address");
        }
    }
    Ok(())
}

/// What is said of a port that can't be listened at: its input and where that stands, or the relay's address and where that
/// stands, why, and what to change.
pub fn port_words(
    alloc: Global,
    texts: &SiteTexts<'_>,
    site: &Site,
    relay: u32,
    port: u16,
    reason: Reason,
) -> Result<Vec<u8>, AllocError> {
    if relay >= site.relays() {
        return Ok(Vec::new(alloc));
    }
    let address = match site.listens_at(relay) {
        Some(address) => address.to_string(alloc)?,
        None => String::from_str(alloc, "all addresses")?,
    };
    if kind_of(Some(reason)) == ErrorKind::AddrNotAvailable {
        let mut note = Note::new(alloc);
        stands_at_address(alloc, &mut note, texts, site, relay);
        note.why.say(address.as_str());
        note.why.say(" is no address of this host");
        note.change.say(
            "an address of this host, as ip address lists them, or 0.0.0.0, which is all of them",
        );
        return lines_of(alloc, &note);
    }
    let input = input_at(site, relay, port);
    let mut note = note_at(alloc, texts, site, relay, Thing::Input(input))?;
    push_refused(alloc, &mut note, address.as_str(), port, reason)?;
    lines_of(alloc, &note)
}
