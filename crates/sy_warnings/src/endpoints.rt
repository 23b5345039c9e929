//! Warnings of endpoints: of those that aren't told apart, and of forwards behind which nobody is.

use crate::endpoint_notes::{
    push_action, push_homeward, push_meeting, push_no_host, push_nobody, stands_at_relay,
};
use crate::warnings::{Caution, Looked, Warnings};
use std::alloc::AllocError;
use sy_endpoints::no_host::no_host_at;
use sy_endpoints::outlets::{connection, outlet_of};
use sy_endpoints::own::own_input_at;
use sy_endpoints::shared::meeting_at;
use sy_places::relay_file::contents::{Item, What};
use sy_places::site_file::source::point_at;
use sy_places::site_file::texts::SiteTexts;
use sy_report::texts::note::{Note, Point};
use sy_rules::{Action, Destination};
use sy_site::Site;

/// Warns of a relay that can be reached where an earlier one can.
pub fn warn_of_endpoint(
    warnings: &mut Warnings,
    texts: &SiteTexts<'_>,
    site: &Site,
    relay: u32,
) -> Result<(), AllocError> {
    if relay >= site.relays() {
        return Ok(());
    }
    if let Some(found) = meeting_at(site, relay) {
        let mut note = Note::new(warnings.alloc);
        stands_at_relay(warnings.alloc, &mut note, texts, site, relay);
        push_meeting(warnings.alloc, &mut note, texts, site, found)?;
        warnings.push(Caution::SameEndpoint, note);
    }
    Ok(())
}

// A note of an action.
fn note_of(warnings: &Warnings, looked: Looked<'_>, item: Item<'_>, action: u32) -> Note {
    let mut note = Note::new(warnings.alloc);
    let point = point_at(looked.text, item.place);
    note.stands_at(warnings.alloc, looked.file.as_bytes(), Some(point));
    push_action(&mut note, looked.site, looked.relay, action);
    note
}

// Where an input of the relay stands.
fn point_of_input<'a>(looked: Looked<'a>, input: u32) -> Option<(&'a [u8], Point)> {
    for item in looked.items {
        if let What::Input(number) = item.what {
            if number == input {
                return Some((looked.file.as_bytes(), point_at(looked.text, item.place)));
            }
        }
    }
    None
}

// Warns of a forward behind which nobody is: no input of the site, and nothing that is connected to but a relay without that port.
fn warn_of_nobody(
    warnings: &mut Warnings,
    looked: Looked<'_>,
    item: Item<'_>,
    number: u32,
    action: &Action,
) {
    let Destination::Forward(target, port) = &action.destination else {
        return;
    };
    if looked.site.target(looked.relay, number).is_some() {
        return;
    }
    let is_relay = looked.site.relay_named(target.as_slice()).is_some();
    if is_relay || connection(outlet_of(looked.site, &action.destination)).is_none() {
        let mut note = note_of(warnings, looked, item, number);
        push_nobody(&mut note, looked.site, target.as_slice(), *port);
        warnings.push(Caution::NobodyThere, note);
    }
}

// The input of its own relay that a forward leads to, though the site has it lead elsewhere.
fn own_input(site: &Site, relay: u32, destination: &Destination) -> Option<u32> {
    if relay >= site.relays() {
        return None;
    }
    own_input_at(site, relay, destination)
}

// Warns of an action by where it leads.
fn warn_of_outlet(
    warnings: &mut Warnings,
    texts: &SiteTexts<'_>,
    looked: Looked<'_>,
    item: Item<'_>,
    number: u32,
    action: &Action,
) -> Result<(), AllocError> {
    let alloc = warnings.alloc;
    warn_of_nobody(warnings, looked, item, number, action);
    if let Some(input) = own_input(looked.site, looked.relay, &action.destination) {
        let mut note = note_of(warnings, looked, item, number);
        let at = point_of_input(looked, input);
        push_homeward(
            alloc,
            &mut note,
            looked.site,
            looked.relay,
            action,
            input,
            at,
        )?;
        warnings.push(Caution::OwnEndpoint, note);
    }
    if no_host_at(looked.site, &action.destination) {
        let mut note = note_of(warnings, looked, item, number);
        push_no_host(alloc, &mut note, texts, looked.site, action)?;
        warnings.push(Caution::NoEndpoint, note);
    }
    Ok(())
}

/// Warns of an item, where it is an action, by where it leads.
pub fn warn_of_item_by_outlet(
    warnings: &mut Warnings,
    texts: &SiteTexts<'_>,
    looked: Looked<'_>,
    item: Item<'_>,
) -> Result<(), AllocError> {
    if warnings.is_full() {
        return Ok(());
    }
    if looked.relay >= looked.site.relays() {
        return Ok(());
    }
    match item.what {
        What::Action(number) => match looked.plan.actions().get(number as usize) {
            Some(action) => warn_of_outlet(warnings, texts, looked, item, number, action),
            None => Ok(()),
        },
        _ => Ok(()),
    }
}
