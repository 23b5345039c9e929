//! Notes of the faults of a relay's plan: a script that is read, and says nothing that a relay can do.

use crate::file_line::is_same_number;
use crate::plan::host_values::push_host_value;
use crate::plan::left_out::lost_without;
use crate::plan::parameter_rows::{names_of, push_list, push_parameter, row_of};
use crate::plan::tests::{
    push_facility, push_operator, push_severity, push_shape, push_unknown_property,
};
use crate::plan::values::{push_bad_value, push_out_of_range};
use std::alloc::{AllocError, Global};
use sy_places::relay_file::outline::{Object, ObjectWord, value_of};
use sy_places::relay_file::places::Places;
use sy_places::site_file::source::between;
use sy_report::texts::near::nearest;
use sy_report::texts::note::Note;
use sy_report::texts::parts::Part;
use sy_report::texts::words::Words;
use sy_rules::{FaultCode, PlanFault, Shape};
use sy_script::tree::Param;

/// The word of an object, with its article.
pub fn article_of(word: ObjectWord) -> &'static str {
    match word {
        ObjectWord::Module => "a module",
        ObjectWord::Global => "global",
        ObjectWord::MainQueue => "the main queue",
        ObjectWord::Input => "an input",
        ObjectWord::Ruleset => "a ruleset",
        ObjectWord::Action => "an action",
    }
}

// An object by its word, as it is called where it has no name.
fn bare(word: ObjectWord) -> &'static str {
    match word {
        ObjectWord::Module => "module",
        ObjectWord::Global => "global",
        ObjectWord::MainQueue => "the main queue",
        ObjectWord::Input => "input",
        ObjectWord::Ruleset => "ruleset",
        ObjectWord::Action => "action",
    }
}

/// Puts an object by its word and its name, or its port.
pub fn push_object(words: &mut Words, object: Object<'_>) {
    let (word, name): (&str, &[u8]) = match object.word {
        ObjectWord::Input => ("input at port ", b"port"),
        ObjectWord::Ruleset => ("ruleset ", b"name"),
        ObjectWord::Action => ("action ", b"name"),
        _ => ("", b""),
    };
    match value_of(object.params, name) {
        Some(value) => words.append(&[Part::Text(word.as_bytes()), Part::Text(value)]),
        None => words.say(bare(object.word)),
    }
}

/// A parameter of an object, by the place of its name.
pub fn param_at<'a>(objects: &[Object<'a>], place: usize) -> Option<(Object<'a>, &'a Param)> {
    for object in objects {
        for param in object.params {
            if param.name.span.start == place {
                return Some((*object, param));
            }
        }
    }
    None
}

/// The object at a place.
pub fn object_at<'a>(objects: &[Object<'a>], place: usize) -> Option<Object<'a>> {
    for object in objects {
        if object.start == place {
            return Some(*object);
        }
    }
    None
}

// ---- names

// Names of rulesets of a file.
fn rulesets<'a>(alloc: Global, objects: &[Object<'a>]) -> Result<Vec<&'a [u8]>, AllocError> {
    let mut names = Vec::new(alloc);
    for object in objects {
        if object.word == ObjectWord::Ruleset {
            if let Some(name) = value_of(object.params, b"name") {
                names.push(name)?;
            }
        }
    }
    Ok(names)
}

fn push_unknown_ruleset(
    alloc: Global,
    note: &mut Note,
    objects: &[Object<'_>],
    name: &[u8],
) -> Result<(), AllocError> {
    note.why.append(&[
        Part::Text(b"no ruleset of the file has the name "),
        Part::Text(name),
    ]);
    let names = rulesets(alloc, objects)?;
    match nearest(name, names.as_slice()) {
        Some(near) => note.change.append(&[Part::Text(near)]),
        None if names.is_empty() => note.change.say("a ruleset of this name"),
        None => {
            note.change.say("the name of a ruleset of the file: ");
            push_list(&mut note.change, names.as_slice());
        }
    }
    Ok(())
}

fn push_unknown_parameter(
    alloc: Global,
    note: &mut Note,
    object: Object<'_>,
    name: &[u8],
) -> Result<(), AllocError> {
    if object.word == ObjectWord::MainQueue && name.eq_ignore_ascii_case(b"queue.workerFlow") {
        note.why.say("the main queue has no parameter queue.workerFlow: nothing is posted to it");
        note.change.say("leave it out");
        return Ok(());
    }
    if push_host_value(note, object, name) {
        return Ok(());
    }
    let is_of_queue = name.len() >= 6 && between(name, 0, 6).eq_ignore_ascii_case(b"queue.");
    note.why.say(if is_of_queue {
        "a queue"
    } else {
        article_of(object.word)
    });
    note.why
        .append(&[Part::Text(b" has no parameter "), Part::Text(name)]);
    let names = names_of(alloc, object)?;
    if let Some(words) = lost_without(name) {
        note.change.say(words);
        return Ok(());
    }
    match nearest(name, names.as_slice()) {
        Some(near) => note.change.append(&[Part::Text(near)]),
        None => {
            note.change.say("leave it out: what may stand there is ");
            push_list(&mut note.change, names.as_slice());
        }
    }
    Ok(())
}

// Says that a parameter, a ruleset or a property isn't known.
fn push_unknown(
    alloc: Global,
    note: &mut Note,
    places: Places<'_>,
    fault: &PlanFault,
) -> Result<(), AllocError> {
    let word = fault.word.as_slice();
    if word.first() == Some(&b'$') {
        return push_unknown_property(alloc, note, word);
    }
    match param_at(places.objects, fault.span.start) {
        Some((object, _)) => push_unknown_parameter(alloc, note, object, word),
        None => push_unknown_ruleset(alloc, note, places.objects, word),
    }
}

// ---- what is lacking, or there twice

/// A value that a parameter may have, to show how it is written.
pub fn example(values: Shape) -> &'static [u8] {
    match values {
        Shape::OneOf([first, ..]) => first,
        Shape::Number(_, _) => b"6514",
        _ => b"..",
    }
}

// A value that a missing parameter may have: the type of an action with a target is that of forwards.
fn example_in(object: Object<'_>, name: &[u8], values: Shape) -> &'static [u8] {
    if name == b"type".as_slice() && first_param(object, b"target").is_some() {
        return b"omfwd";
    }
    example(values)
}

fn push_missing(note: &mut Note, object: Option<Object<'_>>, name: &[u8]) {
    note.why.append(&[Part::Text(name), Part::Text(b" isn't given, and must be")]);
    let Some(object) = object else {
        return;
    };
    if let Some(row) = row_of(object, name) {
        push_parameter(
            &mut note.change,
            row.name,
            example_in(object, row.name, row.shape),
        );
    }
}

// The first of an object's parameters of a name.
fn first_param<'a>(object: Object<'a>, name: &[u8]) -> Option<&'a Param> {
    for param in object.params {
        if param.name.text.as_slice().eq_ignore_ascii_case(name) {
            return Some(param);
        }
    }
    None
}

// The first object of a word whose parameter has this value, or that comes first where there is no parameter.
fn earlier<'a>(objects: &[Object<'a>], of: Object<'_>, name: &[u8]) -> Option<Object<'a>> {
    let value = value_of(of.params, name);
    for object in objects {
        if object.word == of.word && object.start < of.start {
            if value_of(object.params, name) == value {
                return Some(*object);
            }
        }
    }
    None
}

fn push_duplicate(note: &mut Note, places: Places<'_>, fault: &PlanFault) {
    let word = fault.word.as_slice();
    if let Some((object, _)) = param_at(places.objects, fault.span.start) {
        if let Some(first) = first_param(object, word) {
            note.why
                .append(&[Part::Text(word), Part::Text(b" is given already, at ")]);
            places.push_point(&mut note.why, first.name.span.start);
        }
        note.change.say("one of the two");
        return;
    }
    note.why
        .append(&[Part::Text(word), Part::Text(b" is there already")]);
    if let Some(object) = object_at(places.objects, fault.span.start) {
        if let Some(first) = earlier(places.objects, object, b"name") {
            note.why.say(", at ");
            places.push_point(&mut note.why, first.start);
        }
    }
    note.change.say("another name, or one of the two");
}

fn push_same_port(note: &mut Note, places: Places<'_>, fault: &PlanFault) {
    note.why.say("the input at ");
    for object in places.objects {
        if object.word == ObjectWord::Input && object.start < fault.span.start {
            if let Some(port) = value_of(object.params, b"port") {
                if is_same_number(port, fault.word.as_slice()) {
                    places.push_point(&mut note.why, object.start);
                    break;
                }
            }
        }
    }
    note.why.say(" has this port");
    note.change.say("another port");
}

fn push_lists(note: &mut Note, fault: &PlanFault) {
    match fault.code {
        FaultCode::CallDepth => {
            note.why
                .say("calls lie in one another more than 16 deep, or go round");
            note.change.say(
                "fewer calls within calls; a ruleset with a queue.type is posted to, and ends them",
            );
        }
        _ => {
            note.why.say(
                "its list has more than 64 actions and posts, or 65536 statements, with what is called",
            );
            note.change.say("fewer of them, or another ruleset with an input of its own");
        }
    }
}

// What is said of a fault that has no parameter of its own.
fn push_other(note: &mut Note, places: Places<'_>, fault: &PlanFault) {
    let word = fault.word.as_slice();
    match fault.code {
        FaultCode::Shape => push_shape(note, word),
        FaultCode::Operator => push_operator(note, word),
        FaultCode::Missing => {
            push_missing(note, object_at(places.objects, fault.span.start), word);
        }
        FaultCode::SamePort => push_same_port(note, places, fault),
        FaultCode::NotLoaded => {
            note.why.say("imtcp is loaded nowhere in the file");
            note.change.say("module(load=\"imtcp\")");
        }
        FaultCode::CallDepth | FaultCode::TooManyDeeds => push_lists(note, fault),
        _ => {}
    }
}

// What stands at the place of a fault.
fn push_what(note: &mut Note, places: Places<'_>, fault: &PlanFault) {
    if let Some((object, _)) = param_at(places.objects, fault.span.start) {
        push_object(&mut note.what, object);
        return;
    }
    match object_at(places.objects, fault.span.start) {
        Some(object) => push_object(&mut note.what, object),
        None => note.what.append(&[Part::Text(between(
            places.text,
            fault.span.start,
            fault.span.end,
        ))]),
    }
}

/// Says of a fault of a plan where it stands, why it is one, and what to write.
pub fn push_plan_fault(
    alloc: Global,
    note: &mut Note,
    places: Places<'_>,
    fault: &PlanFault,
) -> Result<(), AllocError> {
    places.stands_at(alloc, note, fault.span.start);
    push_what(note, places, fault);
    match fault.code {
        FaultCode::Unknown => push_unknown(alloc, note, places, fault),
        FaultCode::Duplicate => {
            push_duplicate(note, places, fault);
            Ok(())
        }
        FaultCode::BadValue => {
            push_bad_value(note, places, fault);
            Ok(())
        }
        FaultCode::Range => {
            push_out_of_range(note, places, fault);
            Ok(())
        }
        FaultCode::Facility => push_facility(alloc, note, fault.word.as_slice()),
        FaultCode::Severity => push_severity(alloc, note, fault.word.as_slice()),
        _ => {
            push_other(note, places, fault);
            Ok(())
        }
    }
}
