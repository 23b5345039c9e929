//! Names in a drawing, and its lines of style.

use crate::reach::How;
use std::alloc::{AllocError, Global};
use sy_findings::verdicts::tally::append_classes;
use sy_report::texts::parts::Part;
use sy_report::texts::printed::first_piece;
use sy_report::texts::words::Words;
use sy_wire::Class;

/// The most bytes of names of classes at an arrow.
const LONGEST: usize = 40;

// Puts a byte of what is printed of a name. A label gives a meaning to quotes, backslashes, and what begins an entity.
fn push_byte(words: &mut Words, byte: u8) {
    match byte {
        b'"' => words.say("\\\""),
        b'\\' => words.say("\\\\"),
        b'&' => words.say("&amp;"),
        _ => words.append(&[Part::Text(&[byte])]),
    }
}

/// Puts a name into a label: as it is printed, and escaped.
pub fn push_name(words: &mut Words, name: &[u8]) {
    let mut rest = name;
    while let Some((piece, behind)) = first_piece(rest) {
        for byte in piece.as_slice() {
            push_byte(words, *byte);
        }
        rest = behind;
    }
}

/// Puts the names of classes into a label, or how many they are where these would be too long.
pub fn append_class_names(
    alloc: Global,
    words: &mut Words,
    classes: &[Class],
) -> Result<(), AllocError> {
    let mut names = Words::new(alloc);
    append_classes(alloc, &mut names, classes)?;
    let names = names.finish()?;
    if names.len() > LONGEST {
        words.append(&[Part::Number(classes.len() as u64), Part::Text(b" classes")]);
    } else {
        words.append(&[Part::Text(names.as_slice())]);
    }
    Ok(())
}

/// How an arrow is drawn.
pub fn style_of(how: How, is_one: bool) -> &'static str {
    match how {
        How::Never => "style=dotted, color=\"#80868b\"",
        How::May if is_one => "style=dashed",
        How::May | How::Must => "style=solid",
    }
}

/// What the text of a drawing begins with.
pub const HEAD: &str = "digraph site {
  graph [ranksep=0.3, nodesep=0.25, fontname=\"Helvetica\", fontsize=16, labelloc=t];
  node [height=0.3, margin=\"0.12,0.06\", fontname=\"Helvetica\", fontsize=12];
  edge [arrowsize=0.7, fontname=\"Helvetica\", fontsize=10];
";

/// Around all relays, so that what the lines mean stands below them.
pub const AROUND: &str = "  subgraph cluster_site {
    graph [label=\"";

/// What the lines mean, of all protected classes and of one class.
pub const LEGEND: &str =
    "solid: messages of protected classes may go there; dotted: none of them does";

pub const LEGEND_OF_ONE: &str =
    "solid: each message that comes so far goes there; dashed: some may; dotted: none does";

/// What the colours mean; in an overview, what a box is.
pub const MARKS: &str =
    "\\nblue: an entry; green: an archive of a protect line; dashed box: a spare action";

pub const BOXES: &str =
    "\\na box: a relay, with its ports and the archives of protect lines there; red: something is found there; syc graph --full draws what is in it";

/// What ends what is said below a drawing.
pub const BELOW: &str = "\",
    labelloc=b, fontsize=12, fontcolor=black, penwidth=0];
";

/// The rest of the line of an arrow and of a node that a finding is about, and of a node that no message reaches.
pub const RED: &str = ", color=\"#d93025\", fontcolor=\"#d93025\", penwidth=2";

pub const RED_NODE: &str =
    "\", color=\"#d93025\", fontcolor=\"#b3261e\", penwidth=2, fillcolor=\"#fce8e6\"";

pub const GREY: &str = "\", color=\"#bdc1c6\", fontcolor=\"#80868b\"";

/// The style of the boxes of an overview, and of what isn't of the site there.
pub const BOXED: &str =
    "    node [shape=box, margin=\"0.12,0.06\", style=\"rounded,filled\", fillcolor=\"#f8f9fa\"];\n";

pub const WAY_OUT: &str = "out [shape=plaintext, style=\"\", label=\"";

/// The styles of a relay's box and of its nodes.
pub const BOX: &str =
    "\", labelloc=t, labeljust=l, fontsize=18, penwidth=1, style=\"rounded,filled\", color=\"#dadce0\", fillcolor=\"#f8f9fa\"];\n";

pub const INPUTS: &str =
    "    node [shape=invhouse, margin=\"0,0.02\", style=filled, fillcolor=\"#e8f0fe\"];\n";

pub const QUEUES: &str =
    "    node [shape=box, margin=\"0.12,0.06\", style=filled, fillcolor=\"#fef7e0\"];\n";

pub const LISTS: &str = "    node [style=\"rounded,filled\", fillcolor=white];\n";

pub const ACTIONS: &str = "    node [style=filled, fillcolor=white];\n";

pub const FILES: &str = "    node [shape=cylinder, fillcolor=\"#e6f4ea\"];\n";

pub const NOWHERE: &str = "    node [shape=plaintext, style=\"\"];\n";

/// What marks a spare action.
pub const SPARE: &str = " [style=\"filled,dashed\"];\n";

/// What marks an entry, and an archive of a protect line.
pub const ENTRY: &str = " [fillcolor=\"#8ab4f8\"];\n";

pub const ARCHIVE: &str = " [fillcolor=\"#a8dab5\"];\n";
