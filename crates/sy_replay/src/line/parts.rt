//! What the words of a line name: hands of inputs, workers, and places on links.

ghost use Rattle.std.specs.Prelude.{◌≡◌, ◌<◌, ◌≤◌, ◌==◌, ℕ, List, [], ◌∷◌, Some, length, IfSome, IfNone};
ghost use Rattle.std.specs.List.{position};
ghost use Rattle.std.specs.Option.{option_copied};
ghost use Rattle.sy_site.specs.declared.site.SiteAction.{SiteAction as Link};
ghost use Rattle.sy_site.specs.declared.site.SiteInput.{SiteInput as Entrance};
ghost use Rattle.sy_site.specs.Sites as sites;
ghost use Rattle.sy_replay.specs.Lines as spec;
ghost use Rattle.sy_replay.specs.internal.Reading.{words_left};

use super::words::number;
use sy_rules::Input;
use sy_rules::laws::plans_are_whole;
use sy_site::{Site, SiteAction, SiteInput};
use sy_wire::words::{next_word, only_word};

/// How many hands an input has.
const HANDS: usize = 64;

/// A hand of an input, and what is behind its words.
#[derive(Clone, Copy)]
pub struct HandPart<'t> {
    pub to: SiteInput,
    pub hand: u32,
    pub behind: Option<&'t [u8]>,
}

/// A worker of a relay, and what is behind its words.
#[derive(Clone, Copy)]
pub struct WorkerPart<'t> {
    pub relay: u32,
    pub worker: u32,
    pub behind: Option<&'t [u8]>,
}

// The number below another one that a word writes.
fn number_below(word: &[u8], end: usize) -> Option<u32>
    requires small { end ≤ 65536 }
    ensures some { IfSome result (λ n. (spec.number_of word.now ≡ Some n)) }
    ensures below { IfSome result (λ n. n < end) }
    ensures none { IfNone result ((n : ℕ) → spec.number_of word.now ≡ Some n → n < end → ⊥) }
{
    match number(word) {
        Some(number) if number < end as u64 => Some(number as u32),
        _ => None,
    }
}

// The relay of a name.
fn relay_named(site: &Site, name: &[u8]) -> Option<u32>
    ensures relay { result ≡ sites.relay_named site.now.relays name.now }
    ensures within { IfSome result (λ r. r < length site.now.relays) }
{
    site.relay_named(name)
}

// The place of the first input of a port.
fn place_of_input(inputs: &[Input], port: u64) -> Option<usize>
    ensures place { result ≡ position (λ i. i.port == port) inputs.now }
    ensures within { IfSome result (λ n. n < length inputs.now) }
{
    inputs.iter().position(|i| u64::from(i.port) == port)
}

// The input of a relay at a port.
fn input_at(site: &Site, relay: u32, port: u64) -> Option<SiteInput>
    requires { relay < length site.now.relays }
    ensures { result ≡ sites.input_at_port site.now relay port }
{
    let plan = site.plan(relay);
    plans_are_whole(plan);
    match place_of_input(plan.inputs(), port) {
        Some(input) => Some(SiteInput {
            relay,
            input: input as u32,
        }),
        None => None,
    }
}

// The input of a relay, by its name, at a port.
fn input_named(site: &Site, relay: &[u8], port: u64) -> Option<SiteInput>
    ensures { result ≡ spec.input_named site.now relay.now port }
{
    match relay_named(site, relay) {
        Some(relay) => input_at(site, relay, port),
        None => None,
    }
}

// How many workers a relay has.
fn workers_of(site: &Site, relay: u32) -> usize
    requires { relay < length site.now.relays }
    ensures value { result ≡ length (sites.plan_at site.now relay).workers }
    ensures small { result ≤ 65536 }
{
    let plan = site.plan(relay);
    plans_are_whole(plan);
    plan.workers().len()
}

// How many actions a relay has.
fn actions_of(site: &Site, relay: u32) -> usize
    requires { relay < length site.now.relays }
    ensures value { result ≡ length (sites.plan_at site.now relay).actions }
    ensures small { result ≤ 65536 }
{
    let plan = site.plan(relay);
    plans_are_whole(plan);
    plan.actions().len()
}

// The input that a relay's name and a port give.
fn input_of(site: &Site, relay: &[u8], port: &[u8]) -> Option<SiteInput>
    ensures some { IfSome result (λ to. (port_number : ℕ) × (spec.number_of port.now ≡ Some port_number)
        × (spec.input_named site.now relay.now port_number ≡ Some to)) }
    ensures none { IfNone result ((to : Entrance) (port_number : ℕ) → spec.number_of port.now ≡ Some port_number
        → spec.input_named site.now relay.now port_number ≡ Some to → ⊥) }
{
    match number(port) {
        Some(port) => input_named(site, relay, port),
        None => None,
    }
}

/// A hand of an input, of its words and others behind them.
pub fn hand_part<'t>(site: &Site, rest: Option<&'t [u8]>) -> Option<HandPart<'t>>
    ensures some { IfSome result (λ it. spec.IsHand site.now (words_left (option_copied rest.entry)) it.to it.hand
        (words_left (option_copied it.behind))) }
    ensures none { IfNone result ((to : Entrance) (hand : ℕ) (behind : List (List ℕ))
        → spec.IsHand site.now (words_left (option_copied rest.entry)) to hand behind → ⊥) }
{
    let (relay, rest) = next_word(rest)?;
    let (port, rest) = next_word(rest)?;
    let (hand, behind) = next_word(rest)?;
    let to = input_of(site, relay, port)?;
    let hand = number_below(hand, HANDS)?;
    Some(HandPart { to, hand, behind })
}

/// A worker, of its words and others behind them.
pub fn worker_part<'t>(site: &Site, rest: Option<&'t [u8]>) -> Option<WorkerPart<'t>>
    ensures some { IfSome result (λ it. spec.IsWorker site.now (words_left (option_copied rest.entry)) it.relay
        it.worker (words_left (option_copied it.behind))) }
    ensures none { IfNone result ((relay worker : ℕ) (behind : List (List ℕ))
        → spec.IsWorker site.now (words_left (option_copied rest.entry)) relay worker behind → ⊥) }
{
    let (name, rest) = next_word(rest)?;
    let (word, behind) = next_word(rest)?;
    let relay = relay_named(site, name)?;
    let worker = number_below(word, workers_of(site, relay))?;
    Some(WorkerPart {
        relay,
        worker,
        behind,
    })
}

// An action, of its relay's name and its number.
fn action_of(site: &Site, name: &[u8], word: &[u8]) -> Option<SiteAction>
    ensures some { IfSome result (λ a. (sites.relay_named site.now.relays name.now ≡ Some a.relay)
        × (spec.number_of word.now ≡ Some a.action) × (a.action < length (sites.plan_at site.now a.relay).actions)) }
    ensures none { IfNone result ((a : Link) → sites.relay_named site.now.relays name.now ≡ Some a.relay
        → spec.number_of word.now ≡ Some a.action → a.action < length (sites.plan_at site.now a.relay).actions → ⊥) }
{
    let relay = relay_named(site, name)?;
    let action = number_below(word, actions_of(site, relay))?;
    Some(SiteAction { relay, action })
}

/// A place of a link, of the words that are left.
pub fn place_part(site: &Site, rest: Option<&[u8]>) -> Option<(SiteAction, u64)>
    ensures some { IfSome result (λ it. spec.IsPlace site.now (words_left (option_copied rest.entry)) it.0 it.1) }
    ensures none { IfNone result ((link : Link) (place : ℕ)
        → spec.IsPlace site.now (words_left (option_copied rest.entry)) link place → ⊥) }
{
    let (name, rest) = next_word(rest)?;
    let (action, rest) = next_word(rest)?;
    let place = only_word(rest)?;
    let link = action_of(site, name, action)?;
    let place = number(place)?;
    Some((link, place))
}
