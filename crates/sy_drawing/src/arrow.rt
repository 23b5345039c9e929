//! The arrows of a drawing.

use crate::node::{Drawing, Node, Thing, is_marked, push_id};
use crate::reach::{ACTIONS, How, INPUTS, LISTS, flows_of};
use crate::relay::is_drawn;
use crate::text::{RED, append_class_names, style_of};
use std::alloc::AllocError;
use sy_places::ways::relay_parts::{occurrences_of, queue_for};
use sy_report::texts::words::Words;
use sy_rules::{Destination, Occurrence, Plan};
use sy_site::{SiteAction, SiteInput};
use sy_wire::Class;

fn push_arrow(words: &mut Words, drawing: Drawing<'_>, from: Node, to: Node, how: How) {
    words.say("    ");
    push_id(words, from);
    words.say(" -> ");
    push_id(words, to);
    words.say(" [");
    words.say(style_of(how, drawing.is_one));
}

fn how_for(classes: &[Class]) -> How {
    match classes {
        [] => How::Never,
        _ => How::Must,
    }
}

// ---- to queues and lists

fn append_from_inputs(words: &mut Words, drawing: Drawing<'_>, relay: u32, plan: &Plan) {
    for number in 0..INPUTS {
        if let Some(input) = plan.inputs().get(number as usize) {
            let classes = drawing.reach.at_input(SiteInput {
                relay,
                input: number,
            });
            let from = Node {
                relay,
                thing: Thing::Input(number),
            };
            let to = Node {
                relay,
                thing: Thing::Queue(input.queue),
            };
            push_arrow(words, drawing, from, to, how_for(classes));
            words.say("];\n");
        }
    }
}

// Whether some messages of a list's queue go to another list: those in the main queue, each to the list of its input.
fn is_parted(drawing: Drawing<'_>, relay: u32, plan: &Plan, list: u32) -> bool {
    queue_for(plan, list) == 0
        && (0..LISTS).any(|l| {
            l != list && queue_for(plan, l) == 0 && !drawing.reach.at_list(relay, l).is_empty()
        })
}

fn how_to_list(drawing: Drawing<'_>, relay: u32, plan: &Plan, list: u32) -> How {
    match how_for(drawing.reach.at_list(relay, list)) {
        How::Must if is_parted(drawing, relay, plan, list) => How::May,
        how => how,
    }
}

fn append_from_queues(words: &mut Words, drawing: Drawing<'_>, relay: u32, plan: &Plan) {
    for list in 0..LISTS {
        if is_drawn(plan, list) {
            let from = Node {
                relay,
                thing: Thing::Queue(queue_for(plan, list)),
            };
            let to = Node {
                relay,
                thing: Thing::List(list),
            };
            let how = how_to_list(drawing, relay, plan, list);
            push_arrow(words, drawing, from, to, how);
            words.say("];\n");
        }
    }
}

// ---- from lists

// The occurrences of the same, as bits.
fn bits_of(occurrences: &[Occurrence], wanted: Occurrence) -> u64 {
    let mut bits: u64 = 0;
    let mut bit: u64 = 1;
    for occurrence in occurrences {
        if *occurrence == wanted {
            bits |= bit;
        }
        bit = bit.wrapping_mul(2);
    }
    bits
}

// Whether messages of these classes execute some of these occurrences of a list.
fn how_of(plan: &Plan, list: u32, classes: &[Class], bits: u64) -> How {
    let mut how = How::Never;
    for class in classes {
        let (may, must) = flows_of(plan, list, *class);
        if must & bits != 0 {
            return How::Must;
        }
        if may & bits != 0 {
            how = How::May;
        }
    }
    how
}

fn push_from_list(words: &mut Words, drawing: Drawing<'_>, relay: u32, plan: &Plan, list: u32) {
    let occurrences = occurrences_of(plan, list);
    let classes = drawing.reach.at_list(relay, list);
    let mut met: u64 = 0;
    let mut bit: u64 = 1;
    for occurrence in occurrences {
        if met & bit == 0 {
            let bits = bits_of(occurrences, *occurrence);
            met |= bits;
            let from = Node {
                relay,
                thing: Thing::List(list),
            };
            let thing = match occurrence {
                Occurrence::Run(action) => Thing::Action(*action),
                Occurrence::Post(to) => Thing::Queue(queue_for(plan, *to)),
            };
            let how = how_of(plan, list, classes, bits);
            push_arrow(words, drawing, from, Node { relay, thing }, how);
            words.say(if is_marked(drawing, from) && is_marked(drawing, Node { relay, thing }) {
                RED
            } else {
                ""
            });
            words.say("];\n");
        }
        bit = bit.wrapping_mul(2);
    }
}

fn append_from_lists(words: &mut Words, drawing: Drawing<'_>, relay: u32, plan: &Plan) {
    for list in 0..LISTS {
        if is_drawn(plan, list) {
            push_from_list(words, drawing, relay, plan, list);
        }
    }
}

/// Puts the arrows from inputs to queues, from queues to lists, and from lists to actions and queues.
pub fn push_inside(words: &mut Words, drawing: Drawing<'_>, relay: u32, plan: &Plan) {
    append_from_inputs(words, drawing, relay, plan);
    append_from_queues(words, drawing, relay, plan);
    append_from_lists(words, drawing, relay, plan);
}

// ---- from actions

// Where an action leads.
fn led_to(drawing: Drawing<'_>, action: SiteAction, destination: &Destination) -> Node {
    let relay = action.relay;
    match destination {
        Destination::Archive(_) => Node {
            relay,
            thing: Thing::File(action.action),
        },
        Destination::Forward(_, _) => match drawing.site.target(relay, action.action) {
            Some(input) => Node {
                relay: input.relay,
                thing: Thing::Input(input.input),
            },
            None => Node {
                relay,
                thing: Thing::Nowhere(action.action),
            },
        },
    }
}

// The names of classes, where they are not all that are drawn.
fn push_label(
    words: &mut Words,
    drawing: Drawing<'_>,
    classes: &[Class],
) -> Result<(), AllocError> {
    if classes.is_empty() || classes.len() == drawing.classes {
        return Ok(());
    }
    // (with a blank, so that the arrow doesn't touch it)
    words.say(", label=\" ");
    append_class_names(drawing.alloc, words, classes)?;
    words.say("\"");
    Ok(())
}

fn push_from_action(
    words: &mut Words,
    drawing: Drawing<'_>,
    action: SiteAction,
    destination: &Destination,
) -> Result<(), AllocError> {
    let from = Node {
        relay: action.relay,
        thing: Thing::Action(action.action),
    };
    let to = led_to(drawing, action, destination);
    let how = drawing.reach.how(action.relay, action.action);
    push_arrow(words, drawing, from, to, how);
    let classes = drawing.reach.at_action(action.relay, action.action);
    push_label(words, drawing, classes)?;
    if is_marked(drawing, from) {
        words.say(RED);
    }
    words.say("];\n");
    Ok(())
}

/// Puts the arrows from a relay's actions to files and inputs.
pub fn push_outside(
    words: &mut Words,
    drawing: Drawing<'_>,
    relay: u32,
    plan: &Plan,
) -> Result<(), AllocError> {
    for number in 0..ACTIONS {
        if let Some(action) = plan.actions().get(number as usize) {
            let from = SiteAction {
                relay,
                action: number,
            };
            push_from_action(words, drawing, from, &action.destination)?;
        }
    }
    Ok(())
}
