//! The lines of an events file.

ghost use Rattle.std.specs.Prelude.{◌≡◌, IfOk, IfErr};
ghost use Rattle.std.specs.Option.{option_copied};
ghost use Rattle.sy_replay.specs.Lines as spec;
ghost use Rattle.sy_replay.specs.internal.Reading.{NoEvent, WantsMemory, words_left};

pub mod fault;
mod inside;
pub mod laws;
mod parts;
mod takes;
mod verb;
mod words;

use crate::event::Event;
use fault::EventFault;
use inside::{done, enter, expire, fail, give_up, grab, post, post_lost};
use std::alloc::Global;
use sy_site::Site;
use sy_wire::words::first_word;
use takes::take;
use verb::{Verb, verb_of};

// The event of what is behind a line's first word.
fn event_behind(
    alloc: Global,
    site: &Site,
    verb: Verb,
    rest: Option<&[u8]>,
) -> Result<Event, EventFault>
    ensures ok { IfOk result (λ e. spec.IsBehind site.now verb (words_left (option_copied rest.entry))
        (spec.site_event e)) }
    ensures err { IfErr result (λ f. NoEvent (spec.IsBehind site.now verb (words_left (option_copied rest.entry)))
        (WantsMemory site.now verb (words_left (option_copied rest.entry))) f) }
{
    match verb {
        Verb::Take => take(alloc, site, rest),
        Verb::Enter => enter(site, rest),
        Verb::Expire => expire(site, rest),
        Verb::Grab => grab(site, rest),
        Verb::Done => done(site, rest),
        Verb::Fail => fail(site, rest),
        Verb::GiveUp => give_up(site, rest),
        Verb::Post => post(site, rest),
        Verb::PostLost => post_lost(site, rest),
    }
}

// The event that a line stands for.
fn event_of(alloc: Global, site: &Site, line: &[u8]) -> Result<Event, EventFault>
    ensures ok { IfOk result (λ e. spec.StandsFor site.now line.now (spec.site_event e)) }
    ensures err { IfErr result (λ f. NoEvent (spec.StandsFor site.now line.now) (spec.BringsRaw site.now line.now) f) }
{
    let (first, rest) = first_word(line);
    match verb_of(first) {
        Some(verb) => match event_behind(alloc, site, verb, rest) {
            Ok(event) => Ok(event),
            Err(fault) => Err(fault),
        },
        None => Err(EventFault::Line),
    }
}

fn is_skipped(line: &[u8]) -> bool
    ensures { result ≡ spec.is_skipped line.now }
{
    match line.first() {
        Some(first) => *first == b'#',
        None => true,
    }
}

/// The event that a line of an events file stands for at a site; none of a line that is skipped. The line comes without
/// its LF.
///
/// A message is all that is behind the space after `new`, a CR included. A line may name an action that is no forward to
/// the input, or a place where no copy stands: its event is then no step.
///
/// It takes time linear in the line, but for the look-up of names among at most 64 relays and of a port among the
/// inputs of one. Only the message of a `take .. new` takes memory, so that memory runs out at no other line.
pub fn read_event(alloc: Global, site: &Site, line: &[u8]) -> Result<Option<Event>, EventFault>
    ensures ok { IfOk result (λ read. spec.IsRead site.now line.now read) }
    ensures err { IfErr result (λ f. spec.IsUnread site.now line.now f) }
{
    if is_skipped(line) {
        return Ok(None);
    }
    match event_of(alloc, site, line) {
        Ok(event) => Ok(Some(event)),
        Err(fault) => Err(fault),
    }
}
