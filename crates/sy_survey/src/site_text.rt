//! The site files by which a plan is judged.

use crate::confirming::keeps;
use std::alloc::{AllocError, Global};
use sy_fleet::Fleet;
use sy_fleet::fleet::FIRST_PORT;
use sy_report::texts::parts::{Part, append_parts};

/// The name of the plan among the files of the site.
pub(crate) const PLAN: &str = "plan";

/// Puts the line of an entry behind a text.
pub(crate) fn append_entry(text: &mut Vec<u8>, input: usize) -> Result<(), AllocError> {
    let port = FIRST_PORT.saturating_add(input as u64);
    append_parts(
        text,
        &[
            Part::Text(b"entry host "),
            Part::Number(port),
            Part::Text(b"\n"),
        ],
    )
}

/// Puts the line that classes come to an action behind a text.
pub(crate) fn append_protect(
    text: &mut Vec<u8>,
    selector: &[u8],
    action: usize,
) -> Result<(), AllocError> {
    text.extend_from_slice(b"protect ")?;
    text.extend_from_slice(selector)?;
    append_parts(
        text,
        &[
            Part::Text(b" host a"),
            Part::Number(action as u64),
            Part::Text(b"\n"),
        ],
    )
}

/// A site file whose only relay has the plan.
pub(crate) fn head(alloc: Global) -> Result<Vec<u8>, AllocError> {
    let mut text = Vec::new(alloc);
    text.extend_from_slice(b"relay host plan\n")?;
    Ok(text)
}

// Whether there is an archive.
fn has_archive(fleet: &Fleet) -> bool {
    fleet.actions.iter().any(|action| keeps(action.output))
}

/// The site file with all inputs and all archives; where there is none, with all actions in their place.
pub(crate) fn whole(alloc: Global, fleet: &Fleet, selector: &[u8]) -> Result<Vec<u8>, AllocError> {
    let mut text = head(alloc)?;
    for input in 0..fleet.inputs.len() {
        append_entry(&mut text, input)?;
    }
    let is_kept = has_archive(fleet);
    for action in 0..fleet.actions.len() {
        if !is_kept || keeps(fleet.actions[action].output) {
            append_protect(&mut text, selector, action)?;
        }
    }
    Ok(text)
}
