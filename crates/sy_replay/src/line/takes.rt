//! The events of takes.

ghost use Rattle.std.specs.Prelude.{◌≡◌, ◌∷◌, IfOk, IfErr, codes};
ghost use Rattle.std.specs.Arc.{arc_value};
ghost use Rattle.std.specs.Option.{option_copied};
ghost use Rattle.sy_wire.specs.Messages.{IsMessage, Said};
ghost use Rattle.sy_replay.specs.Lines as spec;
ghost use Rattle.sy_replay.specs.internal.Reading.{AreRaw, IsHandRaw, IsNewRaw, NoEvent, words_left};

use super::fault::EventFault;
use super::parts::{HandPart, hand_part, place_part};
use super::words::is_word;
use crate::event::Event;
use std::alloc::Global;
use std::sync::Arc;
use sy_site::Site;
use sy_wire::Message;
use sy_wire::words::next_word;

// The message that bytes are.
fn message_of(alloc: Global, raw: &[u8]) -> Result<Arc<Message>, EventFault>
    ensures message { IfOk result (λ m. IsMessage (arc_value m)) }
    ensures raw { IfOk result (λ m. (arc_value m).raw ≡ raw.now) }
    ensures none { IfErr result (λ f. f ≡ EventFault.Line → (m : Said) → IsMessage m → m.raw ≡ raw.now → ⊥) }
{
    let Ok(text) = Vec::from_slice(alloc, raw) else {
        return Err(EventFault::NoMemory);
    };
    match Message::read(text) {
        Ok(message) => match Arc::new(alloc, message) {
            Ok(message) => Ok(message),
            Err(_) => Err(EventFault::NoMemory),
        },
        Err(_) => Err(EventFault::Line),
    }
}

// The message that all the rest of a line is.
fn message_left(alloc: Global, rest: Option<&[u8]>) -> Result<Arc<Message>, EventFault>
    ensures message { IfOk result (λ m. IsMessage (arc_value m)) }
    ensures words { IfOk result (λ m. words_left (option_copied rest.entry) ≡ spec.words_in (arc_value m).raw) }
    ensures none { IfErr result (λ f. f ≡ EventFault.Line → (m : Said) → IsMessage m
        → words_left (option_copied rest.entry) ≡ spec.words_in m.raw → ⊥) }
    ensures memory { IfErr result (λ f. f ≡ EventFault.NoMemory → AreRaw (words_left (option_copied rest.entry))) }
{
    match rest {
        Some(raw) => match message_of(alloc, raw) {
            Ok(message) => Ok(message),
            Err(fault) => Err(fault),
        },
        None => Err(EventFault::Line),
    }
}

// The take of a message, of what is behind `new`.
fn take_new(alloc: Global, at: HandPart<'_>, rest: Option<&[u8]>) -> Result<Event, EventFault>
    ensures ok { IfOk result (λ e. spec.IsNew at.entry.to at.entry.hand
        (codes "new" ∷ words_left (option_copied rest.entry)) (spec.site_event e)) }
    ensures err { IfErr result (λ f. NoEvent (spec.IsNew at.entry.to at.entry.hand
        (codes "new" ∷ words_left (option_copied rest.entry)))
        (IsNewRaw (codes "new" ∷ words_left (option_copied rest.entry))) f) }
{
    match message_left(alloc, rest) {
        Ok(message) => Ok(Event::TakeNew {
            relay: at.to.relay,
            input: at.to.input,
            hand: at.hand,
            message,
        }),
        Err(fault) => Err(fault),
    }
}

// The take of a copy, of what is behind `link`.
fn take_from(site: &Site, at: HandPart<'_>, rest: Option<&[u8]>) -> Result<Event, EventFault>
    ensures ok { IfOk result (λ e. spec.IsFrom site.now at.entry.to at.entry.hand
        (codes "link" ∷ words_left (option_copied rest.entry)) (spec.site_event e)) }
    ensures err { IfErr result (λ f. NoEvent (spec.IsFrom site.now at.entry.to at.entry.hand
        (codes "link" ∷ words_left (option_copied rest.entry))) ⊥ f) }
{
    match place_part(site, rest) {
        Some((link, place)) => Ok(Event::TakeFrom {
            relay: at.to.relay,
            input: at.to.input,
            hand: at.hand,
            from: link.relay,
            action: link.action,
            place,
        }),
        None => Err(EventFault::Line),
    }
}

// The take to a hand, of what is behind the hand's words.
fn take_to(alloc: Global, site: &Site, at: HandPart<'_>) -> Result<Event, EventFault>
    ensures ok { IfOk result (λ e. spec.TakesTo site.now at.entry.to at.entry.hand
        (words_left (option_copied at.entry.behind)) (spec.site_event e)) }
    ensures err { IfErr result (λ f. NoEvent (spec.TakesTo site.now at.entry.to at.entry.hand
        (words_left (option_copied at.entry.behind)))
        (IsNewRaw (words_left (option_copied at.entry.behind))) f) }
{
    match next_word(at.behind) {
        Some((word, rest)) => {
            if is_word(word, b"new") {
                return take_new(alloc, at, rest);
            }
            if is_word(word, b"link") {
                return take_from(site, at, rest);
            }
            Err(EventFault::Line)
        }
        None => Err(EventFault::Line),
    }
}

/// The event of a line that begins with `take`, of what is behind that word.
pub fn take(alloc: Global, site: &Site, rest: Option<&[u8]>) -> Result<Event, EventFault>
    ensures ok { IfOk result (λ e. spec.IsTake site.now (words_left (option_copied rest.entry)) (spec.site_event e)) }
    ensures err { IfErr result (λ f. NoEvent (spec.IsTake site.now (words_left (option_copied rest.entry)))
        (IsHandRaw site.now (words_left (option_copied rest.entry))) f) }
{
    match hand_part(site, rest) {
        Some(at) => match take_to(alloc, site, at) {
            Ok(event) => Ok(event),
            Err(fault) => Err(fault),
        },
        None => Err(EventFault::Line),
    }
}
