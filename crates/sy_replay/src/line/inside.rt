//! The events inside relays.

ghost use Rattle.std.specs.Prelude.{◌≡◌, ◌∷◌, [], ℕ, Bool, List, IfOk, IfErr, IfSome, IfNone};
ghost use Rattle.std.specs.Option.{option_copied};
ghost use Rattle.sy_board.specs.relay.Boards.{is_no_memory};
ghost use Rattle.sy_site.specs.declared.site.SiteInput.{SiteInput as Entrance};
ghost use Rattle.sy_replay.specs.Lines as spec;
ghost use Rattle.sy_replay.specs.declared.line.verb.Verb.TheVariants as verbs;
ghost use Rattle.sy_replay.specs.internal.Reading.{NoEvent, words_left};

use super::fault::EventFault;
use super::parts::{hand_part, worker_part};
use super::words::is_word;
use crate::event::{Event, RelayEvent};
use sy_board::PostCause;
use sy_site::{Site, SiteInput};
use sy_wire::words::{next_word, only_word};

// A hand with no words behind it.
fn only_hand(site: &Site, rest: Option<&[u8]>) -> Option<(SiteInput, u32)>
    ensures some { IfSome result (λ it. spec.IsHand site.now (words_left (option_copied rest.entry)) it.0 it.1 []) }
    ensures none { IfNone result ((to : Entrance) (hand : ℕ)
        → spec.IsHand site.now (words_left (option_copied rest.entry)) to hand [] → ⊥) }
{
    match hand_part(site, rest) {
        Some(at) => match next_word(at.behind) {
            Some(_) => None,
            None => Some((at.to, at.hand)),
        },
        None => None,
    }
}

// A worker with no words behind it.
fn only_worker(site: &Site, rest: Option<&[u8]>) -> Option<(u32, u32)>
    ensures some { IfSome result (λ it. spec.IsWorker site.now (words_left (option_copied rest.entry)) it.0 it.1 []) }
    ensures none { IfNone result ((relay worker : ℕ)
        → spec.IsWorker site.now (words_left (option_copied rest.entry)) relay worker [] → ⊥) }
{
    match worker_part(site, rest) {
        Some(at) => match next_word(at.behind) {
            Some(_) => None,
            None => Some((at.relay, at.worker)),
        },
        None => None,
    }
}

// A worker with one word behind it.
fn worker_and_word<'t>(site: &Site, rest: Option<&'t [u8]>) -> Option<(u32, u32, &'t [u8])>
    ensures some { IfSome result (λ it. spec.IsWorker site.now (words_left (option_copied rest.entry)) it.0 it.1
        (it.2.now ∷ [])) }
    ensures none { IfNone result ((relay worker : ℕ) (word : List ℕ)
        → spec.IsWorker site.now (words_left (option_copied rest.entry)) relay worker (word ∷ []) → ⊥) }
{
    match worker_part(site, rest) {
        Some(at) => match only_word(at.behind) {
            Some(word) => Some((at.relay, at.worker, word)),
            None => None,
        },
        None => None,
    }
}

// What `yes` and `no` say.
fn answer(word: &[u8]) -> Option<bool>
    ensures some { IfSome result (λ took. word.now ≡ spec.yes_or_no took) }
    ensures none { IfNone result ((took : Bool) → word.now ≡ spec.yes_or_no took → ⊥) }
{
    if is_word(word, b"yes") {
        return Some(true);
    }
    if is_word(word, b"no") {
        return Some(false);
    }
    None
}

// What `full` and `memory` say.
fn cause(word: &[u8]) -> Option<PostCause>
    ensures some { IfSome result (λ why. word.now ≡ spec.cause_word (is_no_memory why)) }
    ensures none { IfNone result ((memory : Bool) → word.now ≡ spec.cause_word memory → ⊥) }
{
    if is_word(word, b"full") {
        return Some(PostCause::Full);
    }
    if is_word(word, b"memory") {
        return Some(PostCause::NoMemory);
    }
    None
}

// A worker, and whether its device took the message.
fn answered(site: &Site, rest: Option<&[u8]>) -> Option<(u32, u32, bool)>
    ensures some { IfSome result (λ it. spec.IsWorker site.now (words_left (option_copied rest.entry)) it.0 it.1
        (spec.yes_or_no it.2 ∷ [])) }
    ensures none { IfNone result ((relay worker : ℕ) (took : Bool)
        → spec.IsWorker site.now (words_left (option_copied rest.entry)) relay worker (spec.yes_or_no took ∷ []) → ⊥) }
{
    match worker_and_word(site, rest) {
        Some((relay, worker, word)) => match answer(word) {
            Some(took) => Some((relay, worker, took)),
            None => None,
        },
        None => None,
    }
}

// A worker, and why its post is lost.
fn lost(site: &Site, rest: Option<&[u8]>) -> Option<(u32, u32, PostCause)>
    ensures some { IfSome result (λ it. spec.IsWorker site.now (words_left (option_copied rest.entry)) it.0 it.1
        (spec.cause_word (is_no_memory it.2) ∷ [])) }
    ensures none { IfNone result ((relay worker : ℕ) (memory : Bool)
        → spec.IsWorker site.now (words_left (option_copied rest.entry)) relay worker (spec.cause_word memory ∷ [])
        → ⊥) }
{
    match worker_and_word(site, rest) {
        Some((relay, worker, word)) => match cause(word) {
            Some(cause) => Some((relay, worker, cause)),
            None => None,
        },
        None => None,
    }
}

/// The event of a line that begins with `enter`, of what is behind that word.
pub fn enter(site: &Site, rest: Option<&[u8]>) -> Result<Event, EventFault>
    ensures ok { IfOk result (λ e. spec.IsBehind site.now verbs.Enter (words_left (option_copied rest.entry))
        (spec.site_event e)) }
    ensures err { IfErr result (λ f. NoEvent (spec.IsBehind site.now verbs.Enter
        (words_left (option_copied rest.entry))) ⊥ f) }
{
    match only_hand(site, rest) {
        Some((to, hand)) => Ok(Event::Inside {
            relay: to.relay,
            event: RelayEvent::Enter {
                input: to.input,
                hand,
            },
        }),
        None => Err(EventFault::Line),
    }
}

/// The event of a line that begins with `expire`, of what is behind that word.
pub fn expire(site: &Site, rest: Option<&[u8]>) -> Result<Event, EventFault>
    ensures ok { IfOk result (λ e. spec.IsBehind site.now verbs.Expire (words_left (option_copied rest.entry))
        (spec.site_event e)) }
    ensures err { IfErr result (λ f. NoEvent (spec.IsBehind site.now verbs.Expire
        (words_left (option_copied rest.entry))) ⊥ f) }
{
    match only_hand(site, rest) {
        Some((to, hand)) => Ok(Event::Inside {
            relay: to.relay,
            event: RelayEvent::Expire {
                input: to.input,
                hand,
            },
        }),
        None => Err(EventFault::Line),
    }
}

/// The event of a line that begins with `grab`, of what is behind that word.
pub fn grab(site: &Site, rest: Option<&[u8]>) -> Result<Event, EventFault>
    ensures ok { IfOk result (λ e. spec.IsBehind site.now verbs.Grab (words_left (option_copied rest.entry))
        (spec.site_event e)) }
    ensures err { IfErr result (λ f. NoEvent (spec.IsBehind site.now verbs.Grab
        (words_left (option_copied rest.entry))) ⊥ f) }
{
    match only_worker(site, rest) {
        Some((relay, worker)) => Ok(Event::Inside {
            relay,
            event: RelayEvent::Grab { worker },
        }),
        None => Err(EventFault::Line),
    }
}

/// The event of a line that begins with `done`, of what is behind that word.
pub fn done(site: &Site, rest: Option<&[u8]>) -> Result<Event, EventFault>
    ensures ok { IfOk result (λ e. spec.IsBehind site.now verbs.Done (words_left (option_copied rest.entry))
        (spec.site_event e)) }
    ensures err { IfErr result (λ f. NoEvent (spec.IsBehind site.now verbs.Done
        (words_left (option_copied rest.entry))) ⊥ f) }
{
    match only_worker(site, rest) {
        Some((relay, worker)) => Ok(Event::Inside {
            relay,
            event: RelayEvent::Done { worker },
        }),
        None => Err(EventFault::Line),
    }
}

/// The event of a line that begins with `fail`, of what is behind that word.
pub fn fail(site: &Site, rest: Option<&[u8]>) -> Result<Event, EventFault>
    ensures ok { IfOk result (λ e. spec.IsBehind site.now verbs.Fail (words_left (option_copied rest.entry))
        (spec.site_event e)) }
    ensures err { IfErr result (λ f. NoEvent (spec.IsBehind site.now verbs.Fail
        (words_left (option_copied rest.entry))) ⊥ f) }
{
    match answered(site, rest) {
        Some((relay, worker, took)) => Ok(Event::Inside {
            relay,
            event: RelayEvent::Fail { worker, took },
        }),
        None => Err(EventFault::Line),
    }
}

/// The event of a line that begins with `giveup`, of what is behind that word.
pub fn give_up(site: &Site, rest: Option<&[u8]>) -> Result<Event, EventFault>
    ensures ok { IfOk result (λ e. spec.IsBehind site.now verbs.GiveUp (words_left (option_copied rest.entry))
        (spec.site_event e)) }
    ensures err { IfErr result (λ f. NoEvent (spec.IsBehind site.now verbs.GiveUp
        (words_left (option_copied rest.entry))) ⊥ f) }
{
    match answered(site, rest) {
        Some((relay, worker, took)) => Ok(Event::Inside {
            relay,
            event: RelayEvent::GiveUp { worker, took },
        }),
        None => Err(EventFault::Line),
    }
}

/// The event of a line that begins with `post`, of what is behind that word.
pub fn post(site: &Site, rest: Option<&[u8]>) -> Result<Event, EventFault>
    ensures ok { IfOk result (λ e. spec.IsBehind site.now verbs.Post (words_left (option_copied rest.entry))
        (spec.site_event e)) }
    ensures err { IfErr result (λ f. NoEvent (spec.IsBehind site.now verbs.Post
        (words_left (option_copied rest.entry))) ⊥ f) }
{
    match only_worker(site, rest) {
        Some((relay, worker)) => Ok(Event::Inside {
            relay,
            event: RelayEvent::Post { worker },
        }),
        None => Err(EventFault::Line),
    }
}

/// The event of a line that begins with `postlost`, of what is behind that word.
pub fn post_lost(site: &Site, rest: Option<&[u8]>) -> Result<Event, EventFault>
    ensures ok { IfOk result (λ e. spec.IsBehind site.now verbs.PostLost (words_left (option_copied rest.entry))
        (spec.site_event e)) }
    ensures err { IfErr result (λ f. NoEvent (spec.IsBehind site.now verbs.PostLost
        (words_left (option_copied rest.entry))) ⊥ f) }
{
    match lost(site, rest) {
        Some((relay, worker, cause)) => Ok(Event::Inside {
            relay,
            event: RelayEvent::PostLost { worker, cause },
        }),
        None => Err(EventFault::Line),
    }
}
