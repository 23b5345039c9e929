//! What is told of a change as a JSON document.

use crate::comparison::{Change, Comparison};
use crate::differences::{Difference, OfArchive, Sign, Thing, differences_of, findings_of};
use crate::telling::word_of;
use std::alloc::{AllocError, Global};
use sy_documents::described::{action_of, input_of, instance_of};
use sy_findings::verdicts::instances::Instance;
use sy_fit::protected_classes;
use sy_json::classes::class_names;
use sy_json::objects::{Elements, Members};
use sy_site::Site;

/// The version of the document's shape.
const FORMAT: u64 = 1;

fn archive_of(alloc: Global, site: &Site, row: &OfArchive) -> Result<Members, AllocError> {
    let mut members = action_of(alloc, site, row.archive);
    members.array("classes", class_names(alloc, row.classes.as_slice())?);
    Ok(members)
}

// What a thing is, and its members.
fn thing_of(
    alloc: Global,
    site: &Site,
    thing: &Thing,
) -> Result<(&'static [u8], Members), AllocError> {
    match thing {
        Thing::Archive(row) => Ok((b"archive", archive_of(alloc, site, row)?)),
        Thing::Entry(input) => Ok((b"entry", input_of(alloc, site, *input))),
        Thing::WholeEntry(input) => Ok((b"whole of entry", input_of(alloc, site, *input))),
        Thing::Spare(action) => Ok((b"spare", action_of(alloc, site, *action))),
        Thing::Finding(instance) => Ok((b"finding", instance_of(alloc, site, instance)?)),
    }
}

fn element_of(alloc: Global, difference: &Difference<'_>) -> Result<Members, AllocError> {
    let (what, mut members) = thing_of(alloc, difference.site, &difference.thing)?;
    members.text("word", word_of(difference.sign));
    members.text("what", what);
    let is_worse = difference.sign == Sign::Lost || difference.sign == Sign::Found;
    members.truth("worse", is_worse);
    Ok(members)
}

// What a check says of the new site.
fn verdict_of(alloc: Global, site: &Site, found: &[Instance]) -> Result<Members, AllocError> {
    let protected = protected_classes(alloc, site)?;
    let mut members = Members::new(alloc);
    members.text(
        "verdict",
        if found.is_empty() {
            b"accepted"
        } else {
            b"refused"
        },
    );
    members.number("protected", protected.len() as u64);
    members.number("findings", found.len() as u64);
    Ok(members)
}

/// The document of a change.
pub fn documented(
    alloc: Global,
    change: Change<'_>,
    comparison: &Comparison,
) -> Result<Vec<u8>, AllocError> {
    let is_worse = !comparison.is_empty();
    let after = findings_of(alloc, change.new)?;
    let mut differences = Elements::new(alloc);
    for difference in &differences_of(alloc, change, comparison, after.as_slice())? {
        differences.object(element_of(alloc, difference)?);
    }
    let mut document = Members::new(alloc);
    document.number("format", FORMAT);
    document.text("command", b"diff");
    document.number("status", u64::from(is_worse));
    document.text("verdict", if is_worse { b"worse" } else { b"no worse" });
    document.object("after", verdict_of(alloc, change.new, after.as_slice())?);
    document.array("differences", differences);
    document.finish()
}
