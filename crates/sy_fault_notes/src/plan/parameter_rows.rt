//! The parameters of objects, for people who are told what to write: names, and which values they take.

use crate::plan::host_values::append_host_names;
use std::alloc::{AllocError, Global};
use sy_places::relay_file::outline::{Object, ObjectWord, value_of};
use sy_report::texts::parts::Part;
use sy_report::texts::words::Words;
use sy_rules::{Kind, ParameterRow, Shape, parameter_named, parameter_rows};

// The kind of an object. An action of no known type is told of as a forward.
fn kind_of(object: Object<'_>) -> Kind {
    match object.word {
        ObjectWord::Module => Kind::Module,
        ObjectWord::Global => Kind::Global,
        ObjectWord::MainQueue => Kind::MainQueue,
        ObjectWord::Input => Kind::Input,
        ObjectWord::Ruleset => Kind::Ruleset,
        ObjectWord::Action => match value_of(object.params, b"type") {
            Some(b"omfile") => Kind::Archive,
            _ => Kind::Forward,
        },
    }
}

/// The row of a parameter that an object takes, by its name without regard to the case of ASCII letters.
pub fn row_of(object: Object<'_>, name: &[u8]) -> Option<&'static ParameterRow> {
    parameter_named(kind_of(object), name)
}

/// The names of all parameters that an object takes.
pub fn names_of(alloc: Global, object: Object<'_>) -> Result<Vec<&'static [u8]>, AllocError> {
    let mut names = Vec::new(alloc);
    for table in &parameter_rows(kind_of(object)) {
        for row in *table {
            names.push(row.name)?;
        }
    }
    append_host_names(&mut names, object)?;
    Ok(names)
}

/// Puts names one behind the other with commas between them.
pub fn push_list(words: &mut Words, names: &[&[u8]]) {
    let mut separator: &[u8] = b"";
    for name in names {
        words.append(&[Part::Text(separator), Part::Text(name)]);
        separator = b", ";
    }
}

fn push_range(words: &mut Words, lowest: u64, highest: u64) {
    words.append(&[
        Part::Number(lowest),
        Part::Text(b" to "),
        Part::Number(highest),
    ]);
}

/// Puts which values a parameter takes.
pub fn append_values(words: &mut Words, values: Shape) {
    match values {
        Shape::OneOf(names) => push_list(words, names),
        Shape::Number(lowest, highest) => push_range(words, lowest, highest),
        Shape::NumberOrMinusOne(lowest, highest) => {
            words.say("-1, or ");
            push_range(words, lowest, highest);
        }
        Shape::AnyText => words.say("any text"),
    }
}

/// Puts a parameter with a value, as `queue.size="100"`.
pub fn push_parameter<'a>(words: &mut Words, name: &'a [u8], value: &'a [u8]) {
    words.append(&[
        Part::Text(name),
        Part::Text(b"=\""),
        Part::Text(value),
        Part::Text(b"\""),
    ]);
}
