//! Notes of selectors and tests that are none.

use crate::plan::parameter_rows::push_list;
use std::alloc::{AllocError, Global};
use sy_report::texts::near::nearest;
use sy_report::texts::note::Note;
use sy_report::texts::parts::Part;
use sy_select::{facility_names, properties, severity_names};

// The names of a table, and further words that may stand in their place.
fn names_in(
    alloc: Global,
    table: &[(&'static [u8], u8)],
    further: &[&'static [u8]],
) -> Result<Vec<&'static [u8]>, AllocError> {
    let mut names = Vec::new(alloc);
    for row in table {
        names.push(row.0)?;
    }
    names.extend_from_slice(further)?;
    Ok(names)
}

// Says which name is likely meant, or which names there are.
fn push_names(note: &mut Note, name: &[u8], names: &[&'static [u8]]) {
    match nearest(name, names) {
        Some(near) => note.change.append(&[Part::Text(near)]),
        None => {
            note.change.say("one of ");
            push_list(&mut note.change, names);
        }
    }
}

/// Says that a piece of a selector is no facility, and what it may be.
pub fn push_facility(alloc: Global, note: &mut Note, name: &[u8]) -> Result<(), AllocError> {
    let names = names_in(alloc, facility_names(), &[b"*"])?;
    note.why
        .append(&[Part::Text(name), Part::Text(b" is no facility")]);
    push_names(note, name, names.as_slice());
    Ok(())
}

/// Says that a piece of a selector is no severity, and what it may be.
pub fn push_severity(alloc: Global, note: &mut Note, name: &[u8]) -> Result<(), AllocError> {
    let names = names_in(alloc, severity_names(), &[b"none", b"*"])?;
    note.why
        .append(&[Part::Text(name), Part::Text(b" is no severity")]);
    push_names(note, name, names.as_slice());
    Ok(())
}

/// Says that a text is no selector.
pub fn push_shape(note: &mut Note, selector: &[u8]) {
    note.why.append(&[
        Part::Text(b"\""),
        Part::Text(selector),
        Part::Text(b"\" is no selector"),
    ]);
    note.change.say("parts FACILITY.SEVERITY with ; between them, as auth,authpriv.*;kern.warning");
}

/// Says that an operator doesn't go with its property.
pub fn push_operator(note: &mut Note, word: &[u8]) {
    note.why.append(&[
        Part::Text(word),
        Part::Text(b" doesn't go with this property, or with what it is compared with here"),
    ]);
    note.change.say(
        "==, !=, contains or startswith with a string; for $syslogfacility and $syslogseverity ==, !=, <, <=, > or >= with a number",
    );
}

/// Says that a property isn't one of this profile's.
pub fn push_unknown_property(
    alloc: Global,
    note: &mut Note,
    name: &[u8],
) -> Result<(), AllocError> {
    let mut names = Vec::new(alloc);
    for row in properties() {
        names.push(row.0)?;
    }
    note.why.append(&[
        Part::Text(name),
        Part::Text(b" is no property of this profile"),
    ]);
    push_names(note, name, names.as_slice());
    Ok(())
}
