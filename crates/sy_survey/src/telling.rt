//! The lines of a survey.

use crate::located::Located;
use crate::rows::{Row, What};
use crate::whole::{Place, Whole};
use crate::words::{assumed, change_of, kind_of, why_of, word_of};
use std::alloc::{AllocError, Global};
use sy_findings::verdicts::tally::names_of;
use sy_fleet::{Assumption, Fleet};
use sy_report::texts::parts::{Part, append_parts};
use sy_report::texts::printed::append_printed;

/// A configuration as it is surveyed: its text, and what it comes to.
#[derive(Clone, Copy)]
pub(crate) struct Surveyed<'a> {
    pub whole: &'a Whole,
    pub fleet: &'a Fleet,
}

// A place: the file, the line and the column.
fn append_place(out: &mut Vec<u8>, it: Surveyed<'_>, place: Located) -> Result<(), AllocError> {
    append_printed(out, it.whole.source(place.source).0)?;
    append_parts(
        out,
        &[
            Part::Text(b":"),
            Part::Number(place.line),
            Part::Text(b":"),
            Part::Number(place.column),
            Part::Text(b": "),
        ],
    )
}

// Puts the lines behind a text in which the work on a message ends; of other files than that of the input the file too.
fn append_stops(out: &mut Vec<u8>, it: Surveyed<'_>, input: usize) -> Result<(), AllocError> {
    let own = it.whole.place(input).source;
    let mut last = Located::none(own);
    for at in &it.fleet.stops {
        let next = last.go_on(it.whole, it.whole.place(*at));
        if next.line != last.line || next.source != last.source {
            out.extend_from_slice(if last.line == 0 { b"; stops: " } else { b", " })?;
            append_line(out, it, next, own, last)?;
        }
        last = next;
    }
    Ok(())
}

// Puts a line behind a text: of a file's own ones `line` stands before the first of several.
fn append_line(
    out: &mut Vec<u8>,
    it: Surveyed<'_>,
    next: Located,
    own: usize,
    last: Located,
) -> Result<(), AllocError> {
    if next.source != own {
        append_printed(out, it.whole.source(next.source).0)?;
        out.extend_from_slice(b":")?;
    } else if last.source != own || last.line == 0 {
        out.extend_from_slice(b"line ")?;
    }
    append_parts(out, &[Part::Number(next.line)])
}

// Puts the lines of a finding at a place behind a text.
fn append_row(
    alloc: Global,
    out: &mut Vec<u8>,
    it: Surveyed<'_>,
    row: &Row,
    place: Located,
) -> Result<(), AllocError> {
    let subject = row.subject.of(it.whole.text.as_slice());
    append_place(out, it, place)?;
    if let Some(kind) = kind_of(row.what) {
        append_parts(out, &[Part::Number(kind), Part::Text(b" ")])?;
    }
    out.extend_from_slice(word_of(row.what))?;
    if !subject.is_empty() {
        out.extend_from_slice(b" ")?;
        append_printed(out, subject)?;
    }
    out.extend_from_slice(b": ")?;
    let names = names_of(alloc, row.classes.as_slice())?;
    out.extend_from_slice(names.as_slice())?;
    out.extend_from_slice(b"\n  why: ")?;
    out.extend_from_slice(why_of(row.what))?;
    if row.what == What::Unmet {
        append_stops(out, it, row.at)?;
    }
    out.extend_from_slice(b"\n  change: ")?;
    out.extend_from_slice(change_of(row.what, subject))?;
    out.extend_from_slice(b"\n")
}

/// All that may be taken for granted, in the order in which it is told.
pub(crate) static ASSUMPTIONS: [Assumption; 13] = [
    Assumption::NoInput,
    Assumption::Included,
    Assumption::Unknown,
    Assumption::Indirect,
    Assumption::Parser,
    Assumption::Changed,
    Assumption::Senders,
    Assumption::Size,
    Assumption::Template,
    Assumption::Memory,
    Assumption::Disk,
    Assumption::FileTakes,
    Assumption::LinkHandsOn,
];

// The places for which something is taken for granted.
fn places_of(
    alloc: Global,
    it: Surveyed<'_>,
    assumption: Assumption,
) -> Result<Vec<Place>, AllocError> {
    let mut places = Vec::new(alloc);
    for note in &it.fleet.notes {
        if note.assumption == assumption {
            places.push(it.whole.place(note.at))?;
        }
    }
    Ok(places)
}

// Puts those lines of one of the files behind a text. It answers whether there are any; before the first stands which file it is.
fn append_lines(
    out: &mut Vec<u8>,
    it: Surveyed<'_>,
    source: usize,
    places: &[Place],
) -> Result<bool, AllocError> {
    let mut last = Located::none(source);
    for place in places {
        if place.source == source {
            let next = last.go_on(it.whole, *place);
            if last.line == 0 {
                append_printed(out, it.whole.source(source).0)?;
                out.extend_from_slice(b": assumed of line ")?;
            } else if next.line != last.line {
                out.extend_from_slice(b", ")?;
            }
            if next.line != last.line {
                append_parts(out, &[Part::Number(next.line)])?;
            }
            last = next;
        }
    }
    Ok(last.line > 0)
}

/// Whether something is taken for granted.
pub(crate) fn is_assumed(fleet: &Fleet, assumption: Assumption) -> bool {
    fleet.notes.iter().any(|note| note.assumption == assumption)
}

// Puts a line for each thing that is taken for granted, in each file, behind a text.
fn append_notes(alloc: Global, out: &mut Vec<u8>, it: Surveyed<'_>) -> Result<(), AllocError> {
    for assumption in &ASSUMPTIONS {
        let places = places_of(alloc, it, *assumption)?;
        if places.is_empty() {
            continue;
        }
        for source in 0..it.whole.sources.len() {
            if append_lines(out, it, source, places.as_slice())? {
                out.extend_from_slice(b": ")?;
                out.extend_from_slice(assumed(*assumption))?;
                out.extend_from_slice(b"\n")?;
            }
        }
    }
    Ok(())
}

// How many things are taken for granted.
fn count_of(fleet: &Fleet) -> usize {
    ASSUMPTIONS
        .iter()
        .filter(|it| is_assumed(fleet, **it))
        .count()
}

fn append_count(
    out: &mut Vec<u8>,
    count: usize,
    one: &'static [u8],
    more: &'static [u8],
) -> Result<(), AllocError> {
    append_parts(
        out,
        &[
            Part::Number(count as u64),
            Part::Text(if count == 1 { one } else { more }),
        ],
    )
}

// Puts the first line of a host behind a text: what was found, for how many classes, and how much is taken for granted.
fn append_head(
    out: &mut Vec<u8>,
    it: Surveyed<'_>,
    rows: usize,
    classes: usize,
) -> Result<(), AllocError> {
    append_printed(out, it.whole.source(0).0)?;
    out.extend_from_slice(b": ")?;
    if rows == 0 {
        out.extend_from_slice(b"nothing found for ")?;
    } else {
        out.extend_from_slice(b"may lose: ")?;
        append_count(out, rows, b" finding for ", b" findings for ")?;
    }
    append_count(out, classes, b" class, ", b" classes, ")?;
    append_count(out, count_of(it.fleet), b" assumption\n", b" assumptions\n")
}

/// The lines of a host.
pub(crate) fn lines_of(
    alloc: Global,
    it: Surveyed<'_>,
    rows: &[Row],
    classes: usize,
) -> Result<Vec<u8>, AllocError> {
    let mut text = Vec::new(alloc);
    append_head(&mut text, it, rows.len(), classes)?;
    let mut last = Located::none(0);
    for row in rows {
        last = last.go_on(it.whole, it.whole.place(row.at));
        append_row(alloc, &mut text, it, row, last)?;
    }
    append_notes(alloc, &mut text, it)?;
    Ok(text)
}
