//! The totals of a relay as they stand, on standard error.

use crate::ending::totals::{Numbers, append_totals, reported_of};
use std::alloc::{AllocError, Global};
use std::sync::Wait;
use sy_inputs::serving::Serving;
use sy_rules::Action;
use sy_runtime::Standing;
use sy_wire::Sink;

// Appends which files a relay runs, and its totals.
fn append_standing(
    text: &mut Vec<u8>,
    runs: &[u8],
    actions: &[Action],
    numbers: Numbers<'_>,
) -> Result<(), AllocError> {
    text.extend_from_slice(runs)?;
    append_totals(text, actions, numbers)
}

/// Prints which files the relay runs, and the totals of a relay with these actions as they stand.
pub fn report_totals<R: Wait, E: Sink + Drop>(
    rt: &R,
    alloc: Global,
    serving: &Serving<E>,
    actions: &[Action],
    standing: &Standing,
) {
    let numbers = Numbers {
        taken: standing.taken,
        lost: standing.lost,
        held: standing.held,
        unread: reported_of(
            serving.log().has_unread_files(),
            u128::from(standing.unread),
        ),
        actions: standing.actions.as_slice(),
    };
    let mut text = Vec::new(alloc);
    let written = append_standing(&mut text, serving.runs(), actions, numbers);
    match written {
        Ok(()) => serving.print(rt, Ok(text)),
        Err(_) => serving.report_text(rt, "no memory"),
    }
}
