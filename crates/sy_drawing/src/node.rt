//! The nodes of a drawing.

use crate::reach::Reach;
use crate::text::{GREY, RED_NODE};
use std::alloc::{AllocError, Global};
use sy_checker::survey;
use sy_findings::notes::instances::finding_of;
use sy_findings::notes::object_meant::last_of;
use sy_findings::verdicts::instances::{Instance, instances_of};
use sy_places::ways::followed_lists::circle;
use sy_places::ways::relay_parts::{Spot, action_by, queue_for, spot_at};
use sy_report::texts::parts::Part;
use sy_report::texts::words::Words;
use sy_rules::Occurrence;
use sy_site::finding::{Finding, Kind};
use sy_site::{Site, SiteInput};

/// What a node stands for, by its number in its relay.
#[derive(Clone, Copy, PartialEq, Eq)]
pub enum Thing {
    Input(u32),
    Queue(u32),
    List(u32),
    Action(u32),
    /// The file of an action.
    File(u32),
    /// Where an action forwards to, which is no input of the site.
    Nowhere(u32),
}

/// A node.
#[derive(Clone, Copy, PartialEq, Eq)]
pub struct Node {
    pub relay: u32,
    pub thing: Thing,
}

/// A node that a finding is about, and the kind of that.
#[derive(Clone, Copy, PartialEq, Eq)]
pub struct Mark {
    pub node: Node,
    pub kind: Kind,
}

/// What is drawn.
#[derive(Clone, Copy)]
pub struct Drawing<'a> {
    pub alloc: Global,
    pub site: &'a Site,
    pub reach: &'a Reach,
    /// How many classes it is of.
    pub classes: usize,
    /// Whether it is of one class that was asked for.
    pub is_one: bool,
    /// What is found, by the nodes that it is about.
    pub marks: &'a [Mark],
}

/// Puts the name of a node.
pub fn push_id(words: &mut Words, node: Node) {
    let (letter, number) = match node.thing {
        Thing::Input(number) => ("i", number),
        Thing::Queue(number) => ("q", number),
        Thing::List(number) => ("l", number),
        Thing::Action(number) => ("a", number),
        Thing::File(number) => ("f", number),
        Thing::Nowhere(number) => ("n", number),
    };
    words.append(&[
        Part::Text(b"r"),
        Part::Number(u64::from(node.relay)),
        Part::Text(letter.as_bytes()),
        Part::Number(u64::from(number)),
    ]);
}

/// Puts what stands before a node's label.
pub fn begin_node(words: &mut Words, node: Node) {
    words.say("    ");
    push_id(words, node);
    words.say(" [label=\"");
}

/// Whether a finding is about a node.
pub fn is_marked(drawing: Drawing<'_>, node: Node) -> bool {
    drawing.marks.iter().any(|m| m.node == node)
}

// Puts the kinds of what is found at a node, each in a line.
fn push_kinds(words: &mut Words, drawing: Drawing<'_>, node: Node) {
    for mark in drawing.marks {
        if mark.node == node {
            words.say("\\n");
            words.say(mark.kind.words());
        }
    }
}

/// Puts what stands after a node's label: red where a finding is about it, grey where no message comes.
pub fn end_node(words: &mut Words, drawing: Drawing<'_>, node: Node, is_reached: bool) {
    if is_marked(drawing, node) {
        push_kinds(words, drawing, node);
        words.say(RED_NODE);
    } else if is_reached {
        words.say("\"");
    } else {
        words.say(GREY);
    }
    words.say("];\n");
}

// ---- what findings are about

// Marks a node with a kind, once.
fn push_mark(
    marks: &mut Vec<Mark>,
    relay: u32,
    thing: Thing,
    kind: Kind,
) -> Result<(), AllocError> {
    let mark = Mark {
        node: Node { relay, thing },
        kind,
    };
    if marks.contains(&mark) {
        return Ok(());
    }
    marks.push(mark)?;
    Ok(())
}

// The queue that is posted to, or the action.
fn thing_executed(spot: Spot<'_>, occurrence: Occurrence) -> Thing {
    match occurrence {
        Occurrence::Run(action) => Thing::Action(action),
        Occurrence::Post(list) => Thing::Queue(queue_for(spot.plan, list)),
    }
}

// The one node that a kind is about at an input, where it isn't a circle: what a faulty occurrence executes, where there is
// one.
fn thing_at(spot: Spot<'_>, input: u32, kind: Kind, occurrence: Option<Occurrence>) -> Thing {
    match (kind, occurrence) {
        (Kind::MarkOff | Kind::MarkAboveSize | Kind::Discards, _) => Thing::Queue(spot.input.queue),
        (Kind::InnerQueue | Kind::GivesUp | Kind::NoTarget, Some(occurrence)) => {
            thing_executed(spot, occurrence)
        }
        _ => Thing::Input(input),
    }
}

// Of a loop the last forward.
fn push_forward(
    marks: &mut Vec<Mark>,
    alloc: Global,
    site: &Site,
    finding: &Finding,
) -> Result<(), AllocError> {
    let Some(row) = last_of(finding.way.as_slice()) else {
        return Ok(());
    };
    match action_by(alloc, site, finding.class, row, finding.input)? {
        Some(action) => push_mark(marks, row.input.relay, Thing::Action(action), finding.kind),
        None => Ok(()),
    }
}

// Of a circle of posts its lists and their queues.
fn append_circle(
    marks: &mut Vec<Mark>,
    alloc: Global,
    site: &Site,
    spot: Spot<'_>,
    finding: &Finding,
) -> Result<(), AllocError> {
    let relay = finding.input.relay;
    let (list, class) = (spot.input.list, finding.class);
    let Some(lists) = circle(alloc, site, relay, spot.plan, list, class)? else {
        return Ok(());
    };
    for list in lists.as_slice() {
        push_mark(marks, relay, Thing::List(*list), finding.kind)?;
        let queue = Thing::Queue(queue_for(spot.plan, *list));
        push_mark(marks, relay, queue, finding.kind)?;
    }
    Ok(())
}

// What is found at an input, by an occurrence where it is of one.
fn push_at_input(
    marks: &mut Vec<Mark>,
    spot: Spot<'_>,
    finding: &Finding,
    occurrence: Option<Occurrence>,
) -> Result<(), AllocError> {
    let (relay, kind) = (finding.input.relay, finding.kind);
    let thing = thing_at(spot, finding.input.input, kind, occurrence);
    push_mark(marks, relay, thing, kind)?;
    match kind {
        Kind::Unmet(archive) => push_mark(marks, archive.relay, Thing::File(archive.action), kind),
        _ => Ok(()),
    }
}

fn push_instance(
    marks: &mut Vec<Mark>,
    alloc: Global,
    site: &Site,
    instance: &Instance,
) -> Result<(), AllocError> {
    let Some(finding) = finding_of(alloc, instance) else {
        return Ok(());
    };
    let Some(spot) = spot_at(site, finding.input) else {
        return Ok(());
    };
    match finding.kind {
        Kind::InnerLoop => append_circle(marks, alloc, site, spot, &finding),
        _ => push_at_input(marks, spot, &finding, instance.occurrence),
    }
}

// Whether an instance is a loop that what was found first tells with its way.
fn is_told(instance: &Instance, first: &Finding) -> bool {
    matches!(instance.kind, Kind::Loop)
        && matches!(first.kind, Kind::Loop)
        && instance.input == first.input
}

/// The nodes that all that is found in a site is about. Of the loop that is found first that is its last forward, of another
/// its input.
pub fn marks_of(
    alloc: Global,
    site: &Site,
    found: &Option<Finding>,
) -> Result<Vec<Mark>, AllocError> {
    let mut marks = Vec::new(alloc);
    let Some(first) = found else {
        return Ok(marks);
    };
    if matches!(first.kind, Kind::Loop) {
        push_forward(&mut marks, alloc, site, first)?;
    }
    let groups = survey(alloc, site)?;
    let instances = instances_of(alloc, site, groups.as_slice())?;
    for instance in instances.as_slice() {
        if !is_told(instance, first) {
            push_instance(&mut marks, alloc, site, instance)?;
        }
    }
    Ok(marks)
}

/// Whether an input is an entry.
pub fn is_entry(site: &Site, input: SiteInput) -> bool {
    site.entries().iter().any(|e| *e == input)
}
