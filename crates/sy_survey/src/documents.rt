//! The JSON of a survey: of each host what is found and taken for granted, or results as SARIF 2.1.0 has them.

use crate::located::Located;
use crate::rows::{Row, What};
use crate::telling::{ASSUMPTIONS, Surveyed, is_assumed};
use crate::whole::Whole;
use crate::words::{assumed, change_of, kind_of, why_of, word_of};
use std::alloc::{AllocError, Global};
use sy_findings::verdicts::tally::names_of;
use sy_fleet::Assumption;
use sy_json::classes::class_names;
use sy_json::objects::{Elements, Members};

// Puts where a place is: the file, the line and the column.
fn insert_place(members: &mut Members, whole: &Whole, place: Located) {
    members.text("file", whole.source(place.source).0);
    members.number("line", place.line);
    members.number("column", place.column);
}

// The places of a list.
fn places_of(alloc: Global, it: Surveyed<'_>, places: &[usize]) -> Elements {
    let mut elements = Elements::new(alloc);
    let mut last = Located::none(0);
    for at in places {
        last = last.go_on(it.whole, it.whole.place(*at));
        let mut members = Members::new(alloc);
        insert_place(&mut members, it.whole, last);
        elements.object(members);
    }
    elements
}

// Where the work on a message may end before it comes to a file or a forward.
fn stops_of(alloc: Global, it: Surveyed<'_>, row: &Row) -> Elements {
    match row.what {
        What::Unmet => places_of(alloc, it, it.fleet.stops.as_slice()),
        _ => Elements::new(alloc),
    }
}

// A finding of a host at a place.
fn finding_of(
    alloc: Global,
    it: Surveyed<'_>,
    row: &Row,
    place: Located,
) -> Result<Members, AllocError> {
    let subject = row.subject.of(it.whole.text.as_slice());
    let mut members = Members::new(alloc);
    members.number_if_any("kind", kind_of(row.what));
    members.text("name", word_of(row.what));
    members.text("subject", subject);
    members.array("classes", class_names(alloc, row.classes.as_slice())?);
    insert_place(&mut members, it.whole, place);
    members.text("why", why_of(row.what));
    members.array("stops", stops_of(alloc, it, row));
    members.text("change", change_of(row.what, subject));
    Ok(members)
}

// What is taken for granted, with its places.
fn assumed_of(
    alloc: Global,
    it: Surveyed<'_>,
    assumption: Assumption,
) -> Result<Members, AllocError> {
    let mut places = Vec::new(alloc);
    for note in &it.fleet.notes {
        if note.assumption == assumption {
            places.push(note.at)?;
        }
    }
    let mut members = Members::new(alloc);
    members.text("what", assumed(assumption));
    members.array("places", places_of(alloc, it, places.as_slice()));
    Ok(members)
}

/// A host whose configuration is judged.
pub(crate) fn host_of(
    alloc: Global,
    it: Surveyed<'_>,
    rows: &[Row],
    is_accepted: bool,
) -> Result<Members, AllocError> {
    let mut findings = Elements::new(alloc);
    let mut last = Located::none(0);
    for row in rows {
        last = last.go_on(it.whole, it.whole.place(row.at));
        findings.object(finding_of(alloc, it, row, last)?);
    }
    let mut taken = Elements::new(alloc);
    for assumption in &ASSUMPTIONS {
        if is_assumed(it.fleet, *assumption) {
            taken.object(assumed_of(alloc, it, *assumption)?);
        }
    }
    let mut members = Members::new(alloc);
    members.text("file", it.whole.source(0).0);
    members.number("status", if is_accepted { 0 } else { 1 });
    members.array("findings", findings);
    members.array("assumed", taken);
    Ok(members)
}

/// A host whose configuration isn't judged.
pub(crate) fn unjudged(alloc: Global, file: &[u8], status: u8) -> Members {
    let mut members = Members::new(alloc);
    members.text("file", file);
    members.number("status", u64::from(status));
    members.null("findings");
    members.null("assumed");
    members
}

// A path as a relative or absolute reference of a URI: each byte that has a meaning there is escaped.
fn uri_of(alloc: Global, path: &[u8]) -> Result<Vec<u8>, AllocError> {
    let mut uri = Vec::new(alloc);
    for byte in path {
        if byte.is_ascii_alphanumeric() || matches!(*byte, b'/' | b'.' | b'-' | b'_' | b'~') {
            uri.push(*byte)?;
        } else {
            uri.push(b'%')?;
            for digit in [*byte >> 4, *byte & 15] {
                uri.push(if digit < 10 {
                    b'0' + digit
                } else {
                    b'A' + (digit - 10)
                })?;
            }
        }
    }
    Ok(uri)
}

// The only element of an array.
fn one(alloc: Global, members: Members) -> Elements {
    let mut elements = Elements::new(alloc);
    elements.object(members);
    elements
}

// Where a result is.
fn location_of(alloc: Global, it: Surveyed<'_>, place: Located) -> Result<Members, AllocError> {
    let file = it.whole.source(place.source).0;
    let mut artifact = Members::new(alloc);
    artifact.text("uri", uri_of(alloc, file)?.as_slice());
    let mut region = Members::new(alloc);
    region.number("startLine", place.line);
    region.number("startColumn", place.column);
    let mut physical = Members::new(alloc);
    physical.object("artifactLocation", artifact);
    physical.object("region", region);
    let mut location = Members::new(alloc);
    location.object("physicalLocation", physical);
    Ok(location)
}

// What a result says: what it is, its classes, why, and what to change.
fn message_of(alloc: Global, it: Surveyed<'_>, row: &Row) -> Result<Members, AllocError> {
    let subject = row.subject.of(it.whole.text.as_slice());
    let mut text = Vec::new(alloc);
    text.extend_from_slice(word_of(row.what))?;
    if !subject.is_empty() {
        text.extend_from_slice(b" ")?;
        text.extend_from_slice(subject)?;
    }
    text.extend_from_slice(b": ")?;
    text.extend_from_slice(names_of(alloc, row.classes.as_slice())?.as_slice())?;
    text.extend_from_slice(b": ")?;
    text.extend_from_slice(why_of(row.what))?;
    text.extend_from_slice(b". Change: ")?;
    text.extend_from_slice(change_of(row.what, subject))?;
    let mut message = Members::new(alloc);
    message.text("text", text.as_slice());
    Ok(message)
}

/// A finding at a place as a result of SARIF.
pub(crate) fn result_of(
    alloc: Global,
    it: Surveyed<'_>,
    row: &Row,
    place: Located,
) -> Result<Members, AllocError> {
    let mut result = Members::new(alloc);
    result.text("ruleId", word_of(row.what));
    result.text("level", b"warning");
    result.object("message", message_of(alloc, it, row)?);
    result.array("locations", one(alloc, location_of(alloc, it, place)?));
    Ok(result)
}

/// The document of SARIF 2.1.0 with these results.
pub(crate) fn sarif_of(alloc: Global, results: Elements, status: u8) -> Members {
    let mut driver = Members::new(alloc);
    driver.text("name", b"syc survey");
    let mut tool = Members::new(alloc);
    tool.object("driver", driver);
    let mut invocation = Members::new(alloc);
    invocation.truth("executionSuccessful", status < 2);
    invocation.number("exitCode", u64::from(status));
    let mut run = Members::new(alloc);
    run.object("tool", tool);
    run.array("invocations", one(alloc, invocation));
    run.array("results", results);
    let mut document = Members::new(alloc);
    document.text("$schema", b"https://json.schemastore.org/sarif-2.1.0.json");
    document.text("version", b"2.1.0");
    document.array("runs", one(alloc, run));
    document
}
