//! The overview of a site: a box for each relay, and an arrow for each pair of relays.

use crate::node::{Drawing, Mark, Node, Thing, is_entry, is_marked};
use crate::reach::How;
use crate::text as style;
use crate::text::{push_name, style_of};
use sy_report::texts::parts::{Part, relay_name};
use sy_report::texts::words::Words;
use sy_rules::{Destination, Plan};
use sy_site::{SiteAction, SiteInput};

/// How many relays a site may have that is drawn in full without being asked for.
pub const MOST_IN_FULL: u32 = 12;

/// How many ports or archives of a relay are named.
const MOST_NAMED: usize = 4;

// ---- relays

// Puts the name of a relay's box.
fn push_box_id(words: &mut Words, relay: u32) {
    words.append(&[Part::Text(b"r"), Part::Number(u64::from(relay))]);
}

// Whether something is found at a relay.
fn is_relay_marked(drawing: Drawing<'_>, relay: u32) -> bool {
    drawing.marks.iter().any(|m| m.node.relay == relay)
}

// Whether messages come to a relay.
fn is_relay_reached(drawing: Drawing<'_>, relay: u32, plan: &Plan) -> bool {
    let mut at = SiteInput { relay, input: 0 };
    for _ in plan.inputs() {
        if !drawing.reach.at_input(at).is_empty() {
            return true;
        }
        at.input = at.input.saturating_add(1);
    }
    false
}

// Which of a relay's ports are meant: those of entries, or the others.
#[derive(Clone, Copy)]
struct Ports {
    relay: u32,
    are_entries: bool,
}

// The ports that are meant, separated by spaces, as numbers where they are to be put, and how many they are.
fn walk_ports(
    words: &mut Words,
    drawing: Drawing<'_>,
    plan: &Plan,
    wanted: Ports,
    is_put: bool,
) -> usize {
    let mut count: usize = 0;
    let mut at = SiteInput {
        relay: wanted.relay,
        input: 0,
    };
    for input in plan.inputs() {
        if is_entry(drawing.site, at) == wanted.are_entries {
            count = count.saturating_add(1);
            if is_put {
                words.append(&[Part::Text(b" "), Part::Number(u64::from(input.port))]);
            }
        }
        at.input = at.input.saturating_add(1);
    }
    count
}

// Puts a line for ports: their numbers, or how many they are.
fn append_ports(words: &mut Words, drawing: Drawing<'_>, plan: &Plan, wanted: Ports) {
    let count = walk_ports(words, drawing, plan, wanted, false);
    if count == 0 {
        return;
    }
    let (one, many) = if wanted.are_entries {
        ("entry", " entries")
    } else {
        ("port", " ports")
    };
    words.say("\\n");
    if count > MOST_NAMED {
        words.append(&[Part::Number(count as u64), Part::Text(many.as_bytes())]);
        return;
    }
    words.say(one);
    walk_ports(words, drawing, plan, wanted, true);
}

// Whether a protect line names an action.
fn is_archive(drawing: Drawing<'_>, action: SiteAction) -> bool {
    drawing
        .site
        .protections()
        .iter()
        .any(|p| p.archive == action)
}

// The archives of protect lines, each in a line where they are to be put, and how many they are.
fn walk_archives(
    words: &mut Words,
    drawing: Drawing<'_>,
    relay: u32,
    plan: &Plan,
    is_put: bool,
) -> usize {
    let mut count: usize = 0;
    let mut at = SiteAction { relay, action: 0 };
    for action in plan.actions() {
        if is_archive(drawing, at) {
            count = count.saturating_add(1);
            if is_put {
                words.say("\\narchive ");
                push_name(words, action.name.as_slice());
            }
        }
        at.action = at.action.saturating_add(1);
    }
    count
}

// Puts a line for each archive of protect lines, or one that says how many they are.
fn append_archives(words: &mut Words, drawing: Drawing<'_>, relay: u32, plan: &Plan) {
    let count = walk_archives(words, drawing, relay, plan, false);
    if count > MOST_NAMED {
        words.append(&[
            Part::Text(b"\\n"),
            Part::Number(count as u64),
            Part::Text(b" archives"),
        ]);
        return;
    }
    walk_archives(words, drawing, relay, plan, true);
}

// Whether no mark before this place says the same of a relay.
fn is_said_first(marks: &[Mark], place: usize, mark: &Mark) -> bool {
    !marks.iter().take(place).any(|other| {
        other.node.relay == mark.node.relay && other.kind.words() == mark.kind.words()
    })
}

// The kinds of what is found at a relay, each in a line, once.
fn append_kinds(words: &mut Words, drawing: Drawing<'_>, relay: u32) {
    for (place, mark) in drawing.marks.iter().enumerate() {
        if mark.node.relay == relay && is_said_first(drawing.marks, place, mark) {
            words.say("\\n");
            words.say(mark.kind.words());
        }
    }
}

// Puts what stands after a relay's label, by what is found at it, and whether messages come to it.
fn end_box(words: &mut Words, drawing: Drawing<'_>, relay: u32, plan: &Plan) {
    if is_relay_marked(drawing, relay) {
        append_kinds(words, drawing, relay);
        words.say(style::RED_NODE);
    } else if is_relay_reached(drawing, relay, plan) {
        words.say("\"");
    } else {
        words.say(style::GREY);
    }
    words.say("];\n");
}

/// Puts the box of a relay: its name, its ports, the archives that protect lines name, and what is found at it.
pub fn push_box(words: &mut Words, drawing: Drawing<'_>, relay: u32, plan: &Plan) {
    words.say("    ");
    push_box_id(words, relay);
    words.say(" [label=\"");
    push_name(words, relay_name(drawing.site, relay));
    for are_entries in [true, false] {
        append_ports(words, drawing, plan, Ports { relay, are_entries });
    }
    append_archives(words, drawing, relay, plan);
    end_box(words, drawing, relay, plan);
}

// ---- arrows

/// What the forwards from one relay to another are together.
#[derive(Clone, Copy)]
struct Link {
    // as that of them which is executed most surely
    how: How,
    // whether a finding is about one of them
    is_marked: bool,
}

// What is executed more surely of the two.
fn surer(one: How, other: How) -> How {
    match (one, other) {
        (How::Must, _) | (_, How::Must) => How::Must,
        (How::May, _) | (_, How::May) => How::May,
        _ => How::Never,
    }
}

// A forward beside those before it.
fn with_forward(before: Option<Link>, drawing: Drawing<'_>, forward: SiteAction) -> Link {
    let relay = forward.relay;
    let node = Node {
        relay,
        thing: Thing::Action(forward.action),
    };
    let how = drawing.reach.how(relay, forward.action);
    let is_marked = is_marked(drawing, node);
    match before {
        Some(link) => Link {
            how: surer(link.how, how),
            is_marked: link.is_marked || is_marked,
        },
        None => Link { how, is_marked },
    }
}

// What the forwards of a relay are together that lead to an input of that relay, or, for none, to no input of the site.
fn link_of(drawing: Drawing<'_>, relay: u32, plan: &Plan, to: Option<u32>) -> Option<Link> {
    let mut found = None;
    let mut at = SiteAction { relay, action: 0 };
    for action in plan.actions() {
        let is_forward = matches!(action.destination, Destination::Forward(_, _));
        let target = drawing.site.target(relay, at.action);
        if is_forward && target.map(|input| input.relay) == to {
            found = Some(with_forward(found, drawing, at));
        }
        at.action = at.action.saturating_add(1);
    }
    found
}

// Puts the rest of an arrow's line.
fn end_link(words: &mut Words, drawing: Drawing<'_>, link: Link) {
    words.say(" [");
    words.say(style_of(link.how, drawing.is_one));
    if link.is_marked {
        words.say(style::RED);
    }
    words.say("];\n");
}

// Where a relay's forwards lead that lead to no input of the site, each in a line.
fn append_receivers(words: &mut Words, drawing: Drawing<'_>, relay: u32, plan: &Plan) {
    let mut action: u32 = 0;
    for it in plan.actions() {
        if let Destination::Forward(target, port) = &it.destination
            && drawing.site.target(relay, action).is_none()
        {
            push_name(words, target.as_slice());
            words.append(&[
                Part::Text(b" "),
                Part::Number(u64::from(*port)),
                Part::Text(b"\\n"),
            ]);
        }
        action = action.saturating_add(1);
    }
}

// Puts what a relay forwards to that is no input of the site, and the arrow there.
fn push_way_out(words: &mut Words, drawing: Drawing<'_>, relay: u32, plan: &Plan) {
    let Some(link) = link_of(drawing, relay, plan, None) else {
        return;
    };
    words.say("    ");
    push_box_id(words, relay);
    words.say(style::WAY_OUT);
    append_receivers(words, drawing, relay, plan);
    words.say("no input of the site\"];\n    ");
    push_box_id(words, relay);
    words.say(" -> ");
    push_box_id(words, relay);
    words.say("out");
    end_link(words, drawing, link);
}

/// Puts the arrows from a relay: one to each relay that it forwards to, and one to all that isn't of the site.
pub fn push_links(words: &mut Words, drawing: Drawing<'_>, relay: u32, plan: &Plan) {
    for to in 0..drawing.site.relays() {
        if let Some(link) = link_of(drawing, relay, plan, Some(to)) {
            words.say("    ");
            push_box_id(words, relay);
            words.say(" -> ");
            push_box_id(words, to);
            end_link(words, drawing, link);
        }
    }
    push_way_out(words, drawing, relay, plan);
}
