//! The nodes of a relay in a drawing.

use crate::arrow::push_inside;
use crate::node::{Drawing, Node, Thing, begin_node, end_node, is_entry, is_marked, push_id};
use crate::reach::{ACTIONS, INPUTS, LISTS};
use crate::text as style;
use crate::text::{append_class_names, push_name};
use std::alloc::{AllocError, Global};
use sy_places::ways::relay_parts::{name_of_list, queue_for};
use sy_report::texts::parts::{Part, relay_name};
use sy_report::texts::words::Words;
use sy_rules::{Action, Destination, FlowControl, Input, Plan, QueueParameters};
use sy_site::{Site, SiteAction, SiteInput};
use sy_wire::Class;

/// How many classes there are.
const CLASSES: u8 = 192;

// ---- inputs

fn flow_text(flow: FlowControl) -> &'static str {
    match flow {
        FlowControl::On => "flow on",
        FlowControl::Off => "flow off",
        FlowControl::Full => "flow full",
    }
}

fn push_input(words: &mut Words, drawing: Drawing<'_>, at: SiteInput, input: &Input) {
    let node = Node {
        relay: at.relay,
        thing: Thing::Input(at.input),
    };
    let is_entry = is_entry(drawing.site, at);
    begin_node(words, node);
    words.say(if is_entry { "entry " } else { "port " });
    words.append(&[Part::Number(u64::from(input.port)), Part::Text(b"\\n")]);
    words.say(flow_text(input.flow));
    end_node(words, drawing, node, !drawing.reach.at_input(at).is_empty());
    if is_entry && !is_marked(drawing, node) {
        words.say("    ");
        push_id(words, node);
        words.say(style::ENTRY);
    }
}

fn append_inputs(words: &mut Words, drawing: Drawing<'_>, relay: u32, plan: &Plan) {
    words.say(style::INPUTS);
    for number in 0..INPUTS {
        if let Some(input) = plan.inputs().get(number as usize) {
            let at = SiteInput {
                relay,
                input: number,
            };
            push_input(words, drawing, at, input);
        }
    }
}

// ---- queues and lists

fn push_queue(
    words: &mut Words,
    drawing: Drawing<'_>,
    node: Node,
    queue: &QueueParameters,
    is_reached: bool,
) {
    begin_node(words, node);
    match node.thing {
        Thing::Queue(0) => words.say("main queue of "),
        _ => words.say("queue of "),
    }
    words.append(&[
        Part::Number(u64::from(queue.size)),
        Part::Text(b"\\nfull-delay mark "),
        Part::Number(u64::from(queue.full_delay_mark)),
    ]);
    if queue.waits {
        words.say("\\nposts wait there");
    }
    end_node(words, drawing, node, is_reached);
}

/// Whether some input of a relay has this list.
pub fn is_given(plan: &Plan, list: u32) -> bool {
    plan.inputs().iter().any(|i| i.list == list)
}

// Whether messages come to a list of the main queue.
fn is_main_reached(drawing: Drawing<'_>, relay: u32, plan: &Plan) -> bool {
    (0..LISTS).any(|l| queue_for(plan, l) == 0 && !drawing.reach.at_list(relay, l).is_empty())
}

fn push_main_queue(words: &mut Words, drawing: Drawing<'_>, relay: u32, plan: &Plan) {
    let is_fed = plan.inputs().iter().any(|i| i.queue == 0);
    if let Some(queue) = plan.queues().get(0)
        && is_fed
    {
        let node = Node {
            relay,
            thing: Thing::Queue(0),
        };
        push_queue(
            words,
            drawing,
            node,
            queue,
            is_main_reached(drawing, relay, plan),
        );
    }
}

fn push_own_queue(words: &mut Words, drawing: Drawing<'_>, relay: u32, plan: &Plan, list: u32) {
    let number = queue_for(plan, list);
    if number == 0 {
        return;
    }
    if let Some(queue) = plan.queues().get(number as usize) {
        let node = Node {
            relay,
            thing: Thing::Queue(number),
        };
        let is_reached = !drawing.reach.at_list(relay, list).is_empty();
        push_queue(words, drawing, node, queue, is_reached);
    }
}

fn append_queues(words: &mut Words, drawing: Drawing<'_>, relay: u32, plan: &Plan) {
    words.say(style::QUEUES);
    push_main_queue(words, drawing, relay, plan);
    for list in 0..LISTS {
        push_own_queue(words, drawing, relay, plan, list);
    }
}

/// Whether a list is drawn: messages come to it from a queue.
pub fn is_drawn(plan: &Plan, list: u32) -> bool {
    is_given(plan, list) || queue_for(plan, list) != 0
}

fn push_list(words: &mut Words, drawing: Drawing<'_>, relay: u32, plan: &Plan, list: u32) {
    let node = Node {
        relay,
        thing: Thing::List(list),
    };
    begin_node(words, node);
    match list {
        0 => words.say("default ruleset"),
        _ => push_name(words, name_of_list(plan, list)),
    }
    let is_reached = !drawing.reach.at_list(relay, list).is_empty();
    end_node(words, drawing, node, is_reached);
}

fn append_lists(words: &mut Words, drawing: Drawing<'_>, relay: u32, plan: &Plan) {
    words.say(style::LISTS);
    for list in 0..LISTS {
        if is_drawn(plan, list) {
            push_list(words, drawing, relay, plan, list);
        }
    }
}

// ---- actions, and where they lead

fn push_action(
    words: &mut Words,
    drawing: Drawing<'_>,
    node: Node,
    action: &Action,
    is_run: bool,
    is_spare: bool,
) {
    begin_node(words, node);
    push_name(words, action.name.as_slice());
    match action.retry {
        Some(0) => words.say("\\ntried once"),
        Some(count) => words.append(&[
            Part::Text(b"\\ngiven up after "),
            Part::Number(u64::from(count)),
            Part::Text(if count == 1 { b" retry" } else { b" retries" }),
        ]),
        None => words.say("\\ntried without end"),
    }
    if is_spare {
        words.say("\\nspare");
    }
    end_node(words, drawing, node, is_run);
    if is_spare {
        words.say("    ");
        push_id(words, node);
        words.say(style::SPARE);
    }
}

fn append_actions(words: &mut Words, drawing: Drawing<'_>, relay: u32, plan: &Plan) {
    words.say(style::ACTIONS);
    for number in 0..ACTIONS {
        if let Some(action) = plan.actions().get(number as usize) {
            let node = Node {
                relay,
                thing: Thing::Action(number),
            };
            let is_run = !drawing.reach.at_action(relay, number).is_empty();
            let is_spare = drawing.site.is_spare(relay, number);
            push_action(words, drawing, node, action, is_run, is_spare);
        }
    }
}

// Whether a protect line of a class names an archive.
fn is_kept(site: &Site, archive: SiteAction, class: Class) -> bool {
    site.protections()
        .iter()
        .any(|p| p.archive == archive && p.selector.matches(class))
}

// The classes for which protect lines name an archive.
fn classes_kept(alloc: Global, site: &Site, archive: SiteAction) -> Result<Vec<Class>, AllocError> {
    let mut classes = Vec::new(alloc);
    for number in 0..CLASSES {
        let class = Class::of_number(number);
        if is_kept(site, archive, class) {
            classes.push(class)?;
        }
    }
    Ok(classes)
}

fn push_kept(words: &mut Words, alloc: Global, kept: &[Class]) -> Result<(), AllocError> {
    if kept.is_empty() {
        return Ok(());
    }
    words.say("\\narchive of ");
    append_class_names(alloc, words, kept)
}

fn push_file(
    words: &mut Words,
    drawing: Drawing<'_>,
    archive: SiteAction,
    name: &[u8],
) -> Result<(), AllocError> {
    let node = Node {
        relay: archive.relay,
        thing: Thing::File(archive.action),
    };
    let kept = classes_kept(drawing.alloc, drawing.site, archive)?;
    begin_node(words, node);
    push_name(words, name);
    push_kept(words, drawing.alloc, kept.as_slice())?;
    let classes = drawing.reach.at_action(archive.relay, archive.action);
    end_node(words, drawing, node, !classes.is_empty());
    if !kept.is_empty() && !is_marked(drawing, node) {
        words.say("    ");
        push_id(words, node);
        words.say(style::ARCHIVE);
    }
    Ok(())
}

fn file_of(plan: &Plan, action: u32) -> Option<&[u8]> {
    match &plan.actions().get(action as usize)?.destination {
        Destination::Archive(name) => Some(name.as_slice()),
        Destination::Forward(_, _) => None,
    }
}

fn append_files(
    words: &mut Words,
    drawing: Drawing<'_>,
    relay: u32,
    plan: &Plan,
) -> Result<(), AllocError> {
    words.say(style::FILES);
    for action in 0..ACTIONS {
        if let Some(name) = file_of(plan, action) {
            push_file(words, drawing, SiteAction { relay, action }, name)?;
        }
    }
    Ok(())
}

fn push_nowhere(
    words: &mut Words,
    drawing: Drawing<'_>,
    forward: SiteAction,
    destination: &Destination,
) {
    let Destination::Forward(target, port) = destination else {
        return;
    };
    if drawing.site.target(forward.relay, forward.action).is_some() {
        return;
    }
    let node = Node {
        relay: forward.relay,
        thing: Thing::Nowhere(forward.action),
    };
    begin_node(words, node);
    push_name(words, target.as_slice());
    words.append(&[
        Part::Text(b" "),
        Part::Number(u64::from(*port)),
        Part::Text(b"\\nno input of the site"),
    ]);
    let classes = drawing.reach.at_action(forward.relay, forward.action);
    end_node(words, drawing, node, !classes.is_empty());
}

fn append_all_nowhere(words: &mut Words, drawing: Drawing<'_>, relay: u32, plan: &Plan) {
    words.say(style::NOWHERE);
    for number in 0..ACTIONS {
        if let Some(action) = plan.actions().get(number as usize) {
            let forward = SiteAction {
                relay,
                action: number,
            };
            push_nowhere(words, drawing, forward, &action.destination);
        }
    }
}

/// Puts the box of a relay, with its nodes and the arrows between them.
pub fn push_relay(
    words: &mut Words,
    drawing: Drawing<'_>,
    relay: u32,
    plan: &Plan,
) -> Result<(), AllocError> {
    words.append(&[
        Part::Text(b"  subgraph cluster_"),
        Part::Number(u64::from(relay)),
        Part::Text(b" {\n    graph [label=\""),
        Part::Name(relay_name(drawing.site, relay)),
    ]);
    words.say(style::BOX);
    append_inputs(words, drawing, relay, plan);
    append_queues(words, drawing, relay, plan);
    append_lists(words, drawing, relay, plan);
    append_actions(words, drawing, relay, plan);
    append_files(words, drawing, relay, plan)?;
    append_all_nowhere(words, drawing, relay, plan);
    push_inside(words, drawing, relay, plan);
    words.say("  }\n");
    Ok(())
}
