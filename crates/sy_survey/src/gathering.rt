//! All that is found in a configuration: by the checker, and before any queue.

use crate::judged::{Judged, judge};
use crate::rows::{Row, What, push_row};
use std::alloc::{AllocError, Global};
use sy_fleet::params::Span;
use sy_fleet::{Fleet, Input};
use sy_report::outcome::halt::Halt;
use sy_select::Selector;
use sy_wire::Class;

// The classes of a selector.
fn classes_of(alloc: Global, selector: &[u8]) -> Result<Vec<Class>, AllocError> {
    let mut classes = Vec::new(alloc);
    let Ok(selector) = Selector::read(alloc, selector) else {
        return Ok(classes);
    };
    for facility in 0..24u8 {
        for severity in 0..8u8 {
            let class = Class { facility, severity };
            if selector.matches(class) {
                classes.push(class)?;
            }
        }
    }
    Ok(classes)
}

// Adds a finding of all classes.
fn push_all(
    alloc: Global,
    judged: &mut Judged,
    what: What,
    at: usize,
    subject: Span,
) -> Result<(), AllocError> {
    let mut classes = Vec::new(alloc);
    classes.extend_from_slice(judged.classes.as_slice())?;
    push_row(
        &mut judged.rows,
        Row {
            what,
            at,
            subject,
            classes,
        },
    )
}

// Adds what isn't the checker's: what inputs discard before any queue.
fn push_limits(alloc: Global, judged: &mut Judged, fleet: &Fleet) -> Result<(), AllocError> {
    let nothing = Span { start: 0, end: 0 };
    for input in &fleet.inputs {
        if input.is_limited {
            push_all(alloc, judged, What::RateLimit, input.at, input.module)?;
        }
    }
    if let Some(at) = fleet.limits {
        push_all(alloc, judged, What::RateLimit, at, nothing)?;
    }
    if let Some(at) = fleet.reduction {
        push_all(alloc, judged, What::Reduction, at, nothing)?;
    }
    Ok(())
}

// What is found where there is no action at all.
fn without_action(alloc: Global, fleet: &Fleet, selector: &[u8]) -> Result<Judged, AllocError> {
    let mut judged = Judged {
        rows: Vec::new(alloc),
        classes: classes_of(alloc, selector)?,
        inputs: Vec::new(alloc),
    };
    for input in &fleet.inputs {
        let Input { at, module, .. } = *input;
        push_all(alloc, &mut judged, What::Unmet, at, module)?;
    }
    Ok(judged)
}

/// All that is found, but what the checker isn't sure of.
pub(crate) fn judged_of(alloc: Global, fleet: &Fleet, selector: &[u8]) -> Result<Judged, Halt> {
    let judged = if !fleet.actions.is_empty() {
        judge(alloc, fleet, selector)?
    } else {
        match without_action(alloc, fleet, selector) {
            Ok(judged) => judged,
            Err(_) => return Err(Halt::NoMemory),
        }
    };
    let mut judged = judged;
    match push_limits(alloc, &mut judged, fleet) {
        Ok(()) => Ok(judged),
        Err(_) => Err(Halt::NoMemory),
    }
}

/// Adds that the checker isn't sure.
pub(crate) fn push_unsure(alloc: Global, judged: &mut Judged) -> Result<(), AllocError> {
    let nothing = Span { start: 0, end: 0 };
    push_all(alloc, judged, What::Unsure, 0, nothing)
}
