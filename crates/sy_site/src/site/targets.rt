//! What the actions of a site's relays lead to, looked up once, as the site is read.

ghost use Rattle.std.specs.Prelude.{◌≡◌, ◌≤◌, IfOk, Some, length, map};
ghost use Rattle.std.specs.Arc.{arc_value};
ghost use Rattle.sy_site.specs.internal.SiteInside.{inputs_of, looked_up, relay_of, site_with, targets_in};
ghost use Rattle.sy_site.specs.Sites as spec;
ghost use Rattle.sy_site.specs.texts.Files.{RELAYS};

use super::SiteInput;
use super::lookup::{input_at_port, relay_named};
use super::relay::Relay;
use std::alloc::{AllocError, Global};
use sy_rules::{Action, Destination};

/// What the actions of a relay lead to, by their numbers.
#[derive(Drop)]
pub struct Targets {
    pub inputs: Vec<Option<SiteInput>>,
}

// What an action leads to.
fn target_of(relays: &[Relay], action: &Action) -> Option<SiteInput>
    requires few { length relays.now ≤ RELAYS }
    ensures { result ≡ spec.target_of (site_with relays.now) (Some action.now) }
{
    match &action.destination {
        Destination::Archive(_) => None,
        Destination::Forward(name, port) => {
            let relay = relay_named(relays, name.as_slice())?;
            input_at_port(relays, relay, u64::from(*port))
        }
    }
}

// What these actions lead to.
fn targets_at(alloc: Global, relays: &[Relay], actions: &[Action]) -> Result<Targets, AllocError>
    requires few { length relays.now ≤ RELAYS }
    ensures { IfOk result (λ targets. targets.inputs.items
        ≡ map (λ action. spec.target_of (site_with relays.now) (Some action)) actions.now) }
{
    let mut inputs = Vec::with_capacity(alloc, actions.len())?;
    for action in actions {
        let target = target_of(relays, action);
        inputs.push(target)?;
    }
    Ok(Targets { inputs })
}

/// What the actions of each relay lead to.
pub fn targets_of(alloc: Global, relays: &[Relay]) -> Result<Vec<Targets>, AllocError>
    requires few { length relays.now ≤ RELAYS }
    ensures { IfOk result (λ targets. map inputs_of targets.items
        ≡ map (λ relay. targets_in (site_with relays.now) (relay_of relay)) relays.now) }
{
    let mut targets = Vec::with_capacity(alloc, relays.len())?;
    for relay in relays {
        let of_relay = targets_at(alloc, relays, relay.plan.actions())?;
        targets.push(of_relay)?;
    }
    Ok(targets)
}

/// What an action of a relay leads to.
pub fn target_in(targets: &[Targets], relay: u32, action: u32) -> Option<SiteInput>
    ensures { result ≡ looked_up targets.now relay action }
{
    match targets.get(relay as usize) {
        Some(targets) => match targets.inputs.get(action as usize) {
            Some(target) => *target,
            None => None,
        },
        None => None,
    }
}
