//! Marks of places, by which one look tells what was met.

ghost use Rattle.std.specs.Prelude.{◌≡◌, ◌<◌, ℕ, OnOk, false, get_or, length, set, true};
ghost use Rattle.sy_flows.specs.internal.Marks as spec;

use std::alloc::AllocError;

/// Whether a place is marked.
pub fn is_marked(marks: &[bool], place: usize) -> bool
    ensures { result ≡ get_or marks.now place false }
{
    match marks.get(place) {
        Some(mark) => *mark,
        None => false,
    }
}

// Makes the marks reach a place, and marks nothing.
fn cover(marks: &mut Vec<bool>, place: usize) -> Result<(), AllocError>
    ensures there { OnOk result (place < length marks.new.items) }
    ensures same { OnOk result ((at : ℕ) → get_or marks.new.items at false ≡ get_or marks.old.items at false) }
{
    while marks.len() <= place {
        marks.push(false)?;
    }
    Ok(())
}

fn set_in(marks: &mut [bool], place: usize)
    requires there { place < length marks.old }
    ensures { marks.new ≡ set marks.old place true }
{
    marks[place] = true;
}

// Marks a place that the marks reach.
fn set_mark(marks: &mut Vec<bool>, place: usize)
    requires there { place < length marks.old.items }
    ensures { marks.new.items ≡ set marks.old.items place true }
{
    set_in(marks.as_mut_slice(), place);
}

/// Marks a place.
pub fn mark(marks: &mut Vec<bool>, place: usize) -> Result<(), AllocError>
    ensures { OnOk result (spec.IsMarkedMore marks.old.items place marks.new.items) }
{
    cover(marks, place)?;
    set_mark(marks, place);
    Ok(())
}
