//! The places of a text that the parts of its plan come from.

use crate::rows::What;
use sy_findings::verdicts::instances::Instance;
use sy_fleet::params::{Span, number_of};
use sy_fleet::{Action, Fleet, Input, Named};
use sy_report::texts::parts::action_name;
use sy_rules::Occurrence;
use sy_site::finding::Kind;
use sy_site::{Site, SiteAction};

/// What a name of the plan is of, as `a` and its number.
#[derive(Clone, Copy)]
pub(crate) enum Thing {
    Action(usize),
    Ruleset(usize),
    None,
}

/// The thing of a name.
pub(crate) fn thing_of(name: &[u8]) -> Thing {
    if let Some(digits) = name.strip_prefix(b"a") {
        return match number_of(digits) {
            Some(number) => Thing::Action(number as usize),
            None => Thing::None,
        };
    }
    if let Some(digits) = name.strip_prefix(b"r") {
        return match number_of(digits) {
            Some(number) => Thing::Ruleset(number as usize),
            None => Thing::None,
        };
    }
    Thing::None
}

// What an occurrence runs, or posts to.
fn thing_at(site: &Site, instance: &Instance) -> Thing {
    match instance.occurrence {
        Some(Occurrence::Run(action)) => {
            let relay = instance.input.relay;
            thing_of(action_name(site, SiteAction { relay, action }))
        }
        Some(Occurrence::Post(list)) => {
            if instance.input.relay >= site.relays() {
                return Thing::None;
            }
            match site
                .plan(instance.input.relay)
                .list_names()
                .get(list as usize)
            {
                Some(name) => thing_of(name.as_slice()),
                None => Thing::None,
            }
        }
        None => Thing::None,
    }
}

fn input_at(fleet: &Fleet, number: u32) -> Option<Input> {
    fleet.inputs.get(number as usize).copied()
}

fn action_at(fleet: &Fleet, thing: Thing) -> Option<Action> {
    match thing {
        Thing::Action(number) => fleet.actions.get(number).copied(),
        _ => None,
    }
}

fn ruleset_at(fleet: &Fleet, thing: Thing) -> Option<Named> {
    match thing {
        Thing::Ruleset(number) if number > 0 => fleet.rulesets.get(number - 1).copied(),
        _ => None,
    }
}

/// A place of a text, and what stands there.
#[derive(Clone, Copy)]
pub(crate) struct Spot {
    pub what: What,
    pub at: usize,
    pub subject: Span,
}

// A finding about a queue that messages are put into by a worker.
fn queue_spot(fleet: &Fleet, thing: Thing, input: Input) -> Spot {
    if let Some(action) = action_at(fleet, thing) {
        return Spot {
            what: What::ActionQueue,
            at: action.at,
            subject: action.module,
        };
    }
    match ruleset_at(fleet, thing) {
        Some(named) => Spot {
            what: What::RulesetQueue,
            at: named.at,
            subject: named.name,
        },
        None => Spot {
            what: What::RulesetQueue,
            at: input.at,
            subject: input.module,
        },
    }
}

// A finding about an action.
fn action_spot(fleet: &Fleet, thing: Thing, input: Input) -> Spot {
    match action_at(fleet, thing) {
        Some(action) => Spot {
            what: What::GivesUp(action.output, action.loss),
            at: action.at,
            subject: action.module,
        },
        None => queue_spot(fleet, thing, input),
    }
}

/// Where a finding of the plan is in the text; nothing for those that are looked at otherwise.
pub(crate) fn spot_of(fleet: &Fleet, site: &Site, instance: &Instance) -> Option<Spot> {
    let input = input_at(fleet, instance.input.input)?;
    let of_input = |what| Spot {
        what,
        at: input.at,
        subject: input.module,
    };
    match instance.kind {
        Kind::NotFull => Some(of_input(What::NotFull(input.flow))),
        Kind::MarkOff | Kind::MarkAboveSize | Kind::Discards => Some(Spot {
            what: What::Discards,
            at: fleet.main_queue.unwrap_or(input.at),
            subject: input.module,
        }),
        Kind::InnerQueue => Some(queue_spot(fleet, thing_at(site, instance), input)),
        Kind::GivesUp | Kind::NoTarget => Some(action_spot(fleet, thing_at(site, instance), input)),
        Kind::Loop | Kind::InnerLoop => Some(of_input(What::Circle)),
        Kind::Unmet(_) => None,
    }
}
