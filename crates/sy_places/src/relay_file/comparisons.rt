//! The comparisons in the tests of a script, by their places.

use std::alloc::{AllocError, Global};
use sy_rules::{Item, outline};
use sy_script::tree::{Comparison, ExprTree, Operand, Script};

/// The most parts of a test that are gone over.
const MOST_PARTS: usize = 100_000;

// The place behind a comparison.
fn comparison_end(comparison: &Comparison) -> usize {
    match &comparison.operand {
        Operand::Number(word) => word.span.end,
        Operand::Text(text) => text.span.end,
    }
}

// Puts the parts of a test on those that are still to be gone over; of a comparison at this place it answers where it
// begins and ends.
fn open_test<'s>(
    left: &mut Vec<&'s ExprTree>,
    test: &'s ExprTree,
    place: usize,
) -> Result<Option<(usize, usize)>, AllocError> {
    match test {
        ExprTree::Or(parts) | ExprTree::And(parts) => {
            for part in parts.as_slice() {
                left.push(part)?;
            }
        }
        ExprTree::Not(inner) | ExprTree::Group(inner) => left.push(inner.get())?,
        ExprTree::Prifilt(_) => {}
        ExprTree::Compare(comparison) => {
            let start = comparison.property.span.start;
            let end = comparison_end(comparison);
            if start <= place && place < end {
                return Ok(Some((start, end)));
            }
        }
    }
    Ok(None)
}

// Where the comparison begins and ends that stands at a place in a test.
fn comparison_in(
    alloc: Global,
    test: &ExprTree,
    place: usize,
) -> Result<Option<(usize, usize)>, AllocError> {
    let mut left = Vec::new(alloc);
    left.push(test)?;
    for _ in 0..MOST_PARTS {
        let Some(part) = left.pop() else {
            return Ok(None);
        };
        if let Some(found) = open_test(&mut left, part, place)? {
            return Ok(Some(found));
        }
    }
    Ok(None)
}

/// Where the comparison begins and ends that stands at a place of a script.
pub fn comparison_at(
    alloc: Global,
    script: &Script,
    place: usize,
) -> Result<Option<(usize, usize)>, AllocError> {
    let items = outline(alloc, script)?;
    for item in items.as_slice() {
        if let Item::Test(test) = *item {
            if let Some(found) = comparison_in(alloc, test, place)? {
                return Ok(Some(found));
            }
        }
    }
    Ok(None)
}
