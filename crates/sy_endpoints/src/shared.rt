//! Inputs of two relays that can be reached at one endpoint.
ghost use Rattle.std.specs.Prelude.{◌≡◌, ◌<◌, ◌≤◌, ℕ, Decides, IfNone, IfSome, length};
ghost use Rattle.sy_endpoints.specs.Endpoints as spec;

use crate::hosts::{may_be_one, peer_of};
use crate::parts::inputs_of;
use sy_rules::Input;
use sy_site::{Site, SiteInput};

/// An input of a relay, and one of an earlier relay, that can be reached at one endpoint.
#[derive(Clone, Copy)]
pub struct Meeting {
    pub input: SiteInput,
    pub earlier: SiteInput,
}

/// The first input of these at a port.
pub fn input_at(inputs: &[Input], port: u16) -> Option<u32>
    requires { length inputs.now ≤ 64 }
    ensures some { IfSome result (λ number. spec.IsAtPort inputs.now number port) }
    ensures none { IfNone result ((number : ℕ) → spec.IsAtPort inputs.now number port → ⊥) }
{
    for number in 0..inputs.len() {
        if inputs[number].port == port {
            return Some(number as u32);
        }
    }
    None
}

// The first of these inputs whose port one of the others has, and that one.
fn shared_port(inputs: &[Input], others: &[Input]) -> Option<(u32, u32)>
    requires few { length inputs.now ≤ 64 }
    requires others { length others.now ≤ 64 }
    ensures some { IfSome result (λ found. spec.ShareAPort inputs.now others.now found.0 found.1) }
    ensures none { IfNone result ((one other : ℕ) → spec.ShareAPort inputs.now others.now one other → ⊥) }
{
    for number in 0..inputs.len() {
        if let Some(other) = input_at(others, inputs[number].port) {
            return Some((number as u32, other));
        }
    }
    None
}

// Whether two relays may be reached at one host.
fn may_meet(site: &Site, relay: u32, earlier: u32) -> bool
    requires relay { relay < length site.now.relays }
    requires earlier { earlier < length site.now.relays }
    ensures { Decides result (spec.MayMeet site.now relay earlier) }
{
    may_be_one(peer_of(site.host(relay)), peer_of(site.host(earlier)))
}

// Inputs of two relays by which they can be reached at one endpoint.
fn meeting_with(site: &Site, relay: u32, earlier: u32) -> Option<(u32, u32)>
    requires relay { relay < length site.now.relays }
    requires earlier { earlier < length site.now.relays }
    ensures some { IfSome result (λ found. spec.MeetBy site.now relay earlier found.0 found.1) }
    ensures none { IfNone result ((one other : ℕ) → spec.MeetBy site.now relay earlier one other → ⊥) }
{
    if !may_meet(site, relay, earlier) {
        return None;
    }
    let inputs = inputs_of(site, relay);
    let others = inputs_of(site, earlier);
    match shared_port(inputs, others) {
        Some(found) => Some(found),
        None => None,
    }
}

/// An input of a relay that can be reached where one of an earlier relay can, and that one.
pub fn meeting_at(site: &Site, relay: u32) -> Option<Meeting>
    requires exists { relay < length site.now.relays }
    ensures some { IfSome result (λ found. (found.input.relay ≡ relay) × spec.Meet site.now found.input found.earlier) }
    ensures none { IfNone result (spec.MeetsNone site.now relay) }
{
    for earlier in 0..relay {
        if let Some((input, other)) = meeting_with(site, relay, earlier) {
            return Some(Meeting {
                input: SiteInput { relay, input },
                earlier: SiteInput {
                    relay: earlier,
                    input: other,
                },
            });
        }
    }
    None
}

/// The first relay with such an input.
pub fn first_meeting(site: &Site) -> Option<Meeting>
    ensures some { IfSome result (λ found. spec.Meet site.now found.input found.earlier) }
    ensures none { IfNone result (spec.AreApart site.now) }
{
    for relay in 0..site.relays() {
        if let Some(found) = meeting_at(site, relay) {
            return Some(found);
        }
    }
    None
}
