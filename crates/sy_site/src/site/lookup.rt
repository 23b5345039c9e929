//! Relays by name, and inputs, archives and actions of a relay.

ghost use Rattle.std.specs.Prelude.{◌≡◌, ◌<◌, ◌≤◌, ◌&&◌, ◌==◌, length, map, IfOk, IfErr, IfSome, Some};
ghost use Rattle.std.specs.List.{position};
ghost use Rattle.std.specs.Str.{bytes_eq};
ghost use Rattle.sy_site.specs.internal.Lines.{entry_line_of};
ghost use Rattle.sy_site.specs.internal.Relays.{IsMissing};
ghost use Rattle.sy_site.specs.internal.SiteInside.{relay_of, site_with};
ghost use Rattle.sy_site.specs.Sites as spec;
ghost use Rattle.sy_site.specs.texts.Describes as texts;
ghost use Rattle.sy_site.specs.texts.Files.{RELAYS};

use super::relay::Relay;
use super::{SiteAction, SiteInput};
use crate::texts::shapes::EntryLine;
use sy_rules::laws::plans_are_whole;
use sy_rules::{Action, Destination, Input};

/// What isn't there: a relay of a name, or what is asked of its plan.
#[derive(Clone, Copy)]
pub enum Missing {
    Relay,
    Part,
}

// The place of the first relay of a name.
fn place_of_relay(relays: &[Relay], name: &[u8]) -> Option<usize>
    ensures place { result ≡ position (λ r. bytes_eq r.name name.now) relays.now }
    ensures within { IfSome result (λ n. n < length relays.now) }
{
    relays.iter().position(|r| r.name.as_slice() == name)
}

// The place of the first input of a port.
fn place_of_input(inputs: &[Input], port: u64) -> Option<usize>
    ensures place { result ≡ position (λ i. i.port == port) inputs.now }
    ensures within { IfSome result (λ n. n < length inputs.now) }
{
    inputs.iter().position(|i| u64::from(i.port) == port)
}

fn is_archive(action: &Action, name: &[u8]) -> bool
    ensures { result ≡ (texts.is_archive action.now.destination && bytes_eq action.now.name name.now) }
{
    match &action.destination {
        Destination::Archive(_) => action.name.as_slice() == name,
        Destination::Forward(_, _) => false,
    }
}

// The place of the first action of a name that writes a file.
fn place_of_archive(actions: &[Action], name: &[u8]) -> Option<usize>
    ensures place { result ≡ position (λ a. texts.is_archive a.destination && bytes_eq a.name name.now) actions.now }
    ensures within { IfSome result (λ n. n < length actions.now) }
{
    actions.iter().position(|a| is_archive(a, name))
}

// The place of the first action of a name.
fn place_of_action(actions: &[Action], name: &[u8]) -> Option<usize>
    ensures place { result ≡ position (λ a. bytes_eq a.name name.now) actions.now }
    ensures within { IfSome result (λ n. n < length actions.now) }
{
    actions.iter().position(|a| a.name.as_slice() == name)
}

/// The relay of a name.
pub fn relay_named(relays: &[Relay], name: &[u8]) -> Option<u32>
    requires few { length relays.now ≤ RELAYS }
    ensures { result ≡ spec.relay_named (map relay_of relays.now) name.now }
{
    match place_of_relay(relays, name) {
        Some(relay) => Some(relay as u32),
        None => None,
    }
}

/// The input of a relay that has a port.
pub fn input_at_port(relays: &[Relay], relay: u32, port: u64) -> Option<SiteInput>
    ensures { result ≡ spec.input_at_port (site_with relays.now) relay port }
{
    let plan = &relays.get(relay as usize)?.plan;
    plans_are_whole(plan);
    match place_of_input(plan.inputs(), port) {
        Some(input) => Some(SiteInput {
            relay,
            input: input as u32,
        }),
        None => None,
    }
}

/// The action of a relay that has a name and writes a file.
pub fn archive_at(relays: &[Relay], relay: u32, name: &[u8]) -> Option<SiteAction>
    ensures { result ≡ texts.archive_at (site_with relays.now) name.now relay }
{
    let plan = &relays.get(relay as usize)?.plan;
    plans_are_whole(plan);
    match place_of_archive(plan.actions(), name) {
        Some(action) => Some(SiteAction {
            relay,
            action: action as u32,
        }),
        None => None,
    }
}

/// The action of a relay that has a name.
pub fn action_at(relays: &[Relay], relay: u32, name: &[u8]) -> Option<SiteAction>
    ensures { result ≡ texts.action_at (site_with relays.now) name.now relay }
{
    let plan = &relays.get(relay as usize)?.plan;
    plans_are_whole(plan);
    match place_of_action(plan.actions(), name) {
        Some(action) => Some(SiteAction {
            relay,
            action: action as u32,
        }),
        None => None,
    }
}

/// The input of an entry line.
pub fn entry(relays: &[Relay], line: &EntryLine<'_>) -> Result<SiteInput, Missing>
    requires few { length relays.now ≤ RELAYS }
    ensures entry { IfOk result (λ e. texts.IsEntry (site_with relays.now) (entry_line_of line.now) e) }
    ensures missing { IfErr result (λ missing. IsMissing (site_with relays.now) line.now.relay.now
        (λ plan. position (λ i. i.port == line.now.port) plan.inputs) missing) }
{
    match relay_named(relays, line.relay) {
        Some(relay) => match input_at_port(relays, relay, line.port) {
            Some(input) => Ok(input),
            None => Err(Missing::Part),
        },
        None => Err(Missing::Relay),
    }
}

/// The archive of a protect line, of a relay and an action by their names.
pub fn archive(relays: &[Relay], relay: &[u8], action: &[u8]) -> Result<SiteAction, Missing>
    requires few { length relays.now ≤ RELAYS }
    ensures archive { IfOk result (λ a. texts.archive_named (site_with relays.now) relay.now action.now ≡ Some a) }
    ensures missing { IfErr result (λ missing. IsMissing (site_with relays.now) relay.now
        (λ plan. position (λ a. texts.is_archive a.destination && bytes_eq a.name action.now) plan.actions) missing) }
{
    match relay_named(relays, relay) {
        Some(relay) => match archive_at(relays, relay, action) {
            Some(archive) => Ok(archive),
            None => Err(Missing::Part),
        },
        None => Err(Missing::Relay),
    }
}

/// The action of a spare line, of a relay and an action by their names.
pub fn action(relays: &[Relay], relay: &[u8], action: &[u8]) -> Result<SiteAction, Missing>
    requires few { length relays.now ≤ RELAYS }
    ensures action { IfOk result (λ a. texts.action_named (site_with relays.now) relay.now action.now ≡ Some a) }
    ensures missing { IfErr result (λ missing. IsMissing (site_with relays.now) relay.now
        (λ plan. position (λ a. bytes_eq a.name action.now) plan.actions) missing) }
{
    match relay_named(relays, relay) {
        Some(relay) => match action_at(relays, relay, action) {
            Some(action) => Ok(action),
            None => Err(Missing::Part),
        },
        None => Err(Missing::Relay),
    }
}
