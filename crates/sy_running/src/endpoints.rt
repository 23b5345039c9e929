//! Whether a relay may start, by the endpoints of its site.
ghost use Rattle.std.specs.Prelude.{◌≡◌, ◌<◌, IfErr, IfOk, length};
ghost use Rattle.sy_endpoints.specs.Endpoints.{AreEndpoints, IsClash};
ghost use Rattle.sy_endpoints.specs.declared.endpoints.Clash.{Clash as AnyClash};

use crate::explaining::print_words;
use crate::start_notes::{lines_of, note_at, point_of};
use std::alloc::{AllocError, Global};
use sy_endpoints::endpoints::{Clash, first_clash};
use sy_endpoints::own::Homeward;
use sy_places::relay_file::places::Thing;
use sy_places::site_file::texts::{SiteTexts, read_rest};
use sy_report::outcome::report::report_texts;
use sy_report::reading::files::Files;
use sy_report::texts::note::{Note, append_place};
use sy_report::texts::words::Words;
use sy_rules::Action;
use sy_site::{Site, SiteAction};
use sy_warnings::endpoint_notes::{push_homeward, push_meeting, push_no_host, stands_at_relay};
use sy_wire::Sink;

// What is told where there is no memory to say why.
static NOT_APART: &[u8] = b"syc: the endpoints of the site aren't told apart\n";

// An action of a relay.
fn action_at(site: &Site, at: SiteAction) -> Option<&Action> {
    if at.relay >= site.relays() {
        return None;
    }
    site.plan(at.relay).actions().get(at.action as usize)
}

// What is said of a forward that leads back to its own relay.
fn homeward_note(
    alloc: Global,
    texts: &SiteTexts<'_>,
    site: &Site,
    relay: u32,
    found: Homeward,
) -> Result<Note, AllocError> {
    let mut note = note_at(alloc, texts, site, relay, Thing::Action(found.action))?;
    let point = point_of(alloc, texts, relay, Thing::Input(found.input))?;
    let at = match &point {
        Some((file, point)) => Some((file.as_slice(), *point)),
        None => None,
    };
    let action = action_at(
        site,
        SiteAction {
            relay,
            action: found.action,
        },
    );
    if let Some(action) = action {
        push_homeward(alloc, &mut note, site, relay, action, found.input, at)?;
    }
    Ok(note)
}

// What is said of endpoints that aren't told apart.
fn note_of(
    alloc: Global,
    texts: &SiteTexts<'_>,
    site: &Site,
    relay: u32,
    clash: Clash,
) -> Result<Note, AllocError> {
    match clash {
        Clash::Shared(found) => {
            let mut note = Note::new(alloc);
            stands_at_relay(alloc, &mut note, texts, site, found.input.relay);
            push_meeting(alloc, &mut note, texts, site, found)?;
            Ok(note)
        }
        Clash::Own(found) => homeward_note(alloc, texts, site, relay, found),
        Clash::NoHost(at) => {
            let mut note = note_at(alloc, texts, site, at.relay, Thing::Action(at.action))?;
            if let Some(action) = action_at(site, at) {
                push_no_host(alloc, &mut note, texts, site, action)?;
            }
            Ok(note)
        }
    }
}

// The line of a note, as `syc: site:2:1: relay hub: ..`.
fn line_of(alloc: Global, note: &Note) -> Result<Vec<u8>, AllocError> {
    let mut words = Words::new(alloc);
    words.say("syc: ");
    if let Some(place) = &note.place {
        append_place(&mut words, place);
        words.say(": ");
    }
    words.append_in_line(note.what.as_slice());
    words.say(": ");
    words.append_in_line(note.why.as_slice());
    words.say("\n");
    words.finish()
}

// Tells it, explained where that is asked for.
fn report_note<E: Sink>(
    alloc: Global,
    note: &Note,
    is_explained: bool,
    errors: &mut E,
) -> Result<(), AllocError> {
    let line = line_of(alloc, note)?;
    report_texts(errors, &[line.as_slice()]);
    if is_explained {
        print_words(errors, lines_of(alloc, note));
    }
    Ok(())
}

// Tells why endpoints aren't told apart, with the texts of the site's files; where memory runs out for that, that they aren't.
fn report_clash<F: Files, E: Sink>(
    alloc: Global,
    files: &F,
    texts: &mut SiteTexts<'_>,
    is_explained: bool,
    site: &Site,
    relay: u32,
    clash: Clash,
    errors: &mut E,
) {
    if read_rest(alloc, files, texts).is_err() {
        report_texts(errors, &[NOT_APART]);
        return;
    }
    let is_told = match note_of(alloc, texts, site, relay, clash) {
        Ok(note) => report_note(alloc, &note, is_explained, errors).is_ok(),
        Err(_) => false,
    };
    if !is_told {
        report_texts(errors, &[NOT_APART]);
    }
}

/// Refuses a relay of a site whose endpoints aren't told apart: why that is so is told, explained where that is asked for, and the exit status is answered.
pub fn tell_apart<F: Files, E: Sink>(
    alloc: Global,
    files: &F,
    texts: &mut SiteTexts<'_>,
    is_explained: bool,
    site: &Site,
    relay: u32,
    errors: &mut E,
) -> Result<(), u8>
    requires exists { relay < length site.now.relays }
    ensures ok { IfOk result (λ _. AreEndpoints site.now relay) }
    ensures refused { IfErr result (λ status. (status ≡ 2) × (clash : AnyClash) × IsClash site.now relay clash) }
{
    match first_clash(site, relay) {
        Some(clash) => {
            report_clash(
                alloc,
                files,
                texts,
                is_explained,
                site,
                relay,
                clash,
                errors,
            );
            Err(2)
        }
        None => Ok(()),
    }
}
