//! Actions: files and forwards over TCP are carried over.
ghost use Rattle.std.specs.Prelude.{◌≡◌, true, IfOk};
ghost use Rattle.sy_conversion.specs.Conversions as spec;

use crate::draft::Draft;
use crate::fates::{Fate, Why};
use crate::params::{append_param, append_queue, is_port};
use crate::source::Source;
use std::alloc::AllocError;
use sy_fleet::params::{Param, is_given, is_on, module_of, value_of};
use sy_fleet_text::scan::{byte_at, part};
use sy_fleet_text::words::same_word;
use sy_wire::numbers::decimal_up_to;

/// Where messages go.
#[derive(Clone, Copy)]
pub(crate) enum Destination<'a> {
    File(&'a [u8]),
    Forward { target: &'a [u8], port: &'a [u8] },
}

/// The port of a forward that doesn't say one.
const USUAL_PORT: &[u8] = b"514";

// ---- names

fn is_name_byte(byte: u8) -> bool {
    byte.is_ascii_alphanumeric() || byte == b'-' || byte == b'_' || byte == b'.'
}

// What stands in a path behind the last slash, without `.log`.
fn base_of(path: &[u8]) -> &[u8] {
    let mut start = 0;
    for at in 0..path.len() {
        if path[at] == b'/' {
            start = at + 1;
        }
    }
    let base = part(path, start, path.len());
    base.strip_suffix(b".log").unwrap_or(base)
}

// Whether a byte of a given name stays: the name is to be a word of a site file, and to need no escapes.
fn is_kept(byte: u8) -> bool {
    byte > b' ' && byte != 127 && byte != b'"' && byte != b'\\'
}

// A name for an action: the given one, else one by where its messages go.
fn name_for(
    draft: &mut Draft,
    given: Option<&[u8]>,
    destination: Destination<'_>,
) -> Result<Vec<u8>, AllocError> {
    let word = match given {
        Some(name) => name,
        None => match destination {
            Destination::File(path) => base_of(path),
            Destination::Forward { target, .. } => target,
        },
    };
    let mut name = Vec::new(draft.alloc);
    for byte in word {
        let is_kept = is_name_byte(*byte) || given.is_some() && is_kept(*byte);
        name.push(if is_kept { *byte } else { b'-' })?;
    }
    if name.is_empty() {
        name.extend_from_slice(b"action")?;
    }
    Ok(name)
}

// ---- the text of an action

// The beginning of an action's text, up to its retries. These go on without end where they aren't given.
fn action_text(
    draft: &mut Draft,
    given: Option<&[u8]>,
    destination: Destination<'_>,
    retries: Option<&[u8]>,
) -> Result<Vec<u8>, AllocError> {
    let wanted = name_for(draft, given, destination)?;
    let name = draft.names.own(wanted.as_slice())?;
    let mut text = Vec::new(draft.alloc);
    text.extend_from_slice(b"action(")?;
    append_param(&mut text, b"name", name.as_slice())?;
    match destination {
        Destination::File(path) => {
            append_param(&mut text, b"type", b"omfile")?;
            append_param(&mut text, b"file", path)?;
            if path.starts_with(b"/dev/") {
                append_param(&mut text, b"fileType", b"any")?;
            }
        }
        Destination::Forward { target, port } => {
            append_param(&mut text, b"type", b"omfwd")?;
            append_param(&mut text, b"target", target)?;
            append_param(&mut text, b"port", port)?;
            append_param(&mut text, b"protocol", b"tcp")?;
            append_param(&mut text, b"TCP_Framing", b"octet-counted")?;
        }
    }
    append_param(
        &mut text,
        b"action.resumeRetryCount",
        retries.unwrap_or(b"-1"),
    )?;
    Ok(text)
}

// ---- objects

// Whether the parameters leave out some of the messages that come to an action.
fn is_conditional(text: &[u8], params: &[Param]) -> bool {
    is_on(text, params, b"action.execOnlyWhenPreviousIsSuspended")
        || is_on(text, params, b"action.execOnlyEveryNthTime")
        || is_on(text, params, b"action.execOnlyOnceEveryInterval")
        || is_on(text, params, b"rateLimit.interval")
}

fn is_secret(text: &[u8], params: &[Param]) -> bool {
    is_on(text, params, b"StreamDriverMode") || is_on(text, params, b"StreamDriver.Mode")
}

// Where an omfile's messages go.
fn file_of<'a>(text: &'a [u8], params: &[Param]) -> Result<Destination<'a>, Why> {
    if value_of(text, params, b"dynaFile").is_some() {
        return Err(Why::DynamicFile);
    }
    match value_of(text, params, b"file") {
        Some(path) => Ok(Destination::File(path)),
        None => Err(Why::Unnamed),
    }
}

// A receiver at the number of a port.
fn receiver_at<'a>(target: &'a [u8], port: &'a [u8]) -> Result<Destination<'a>, Why> {
    if is_port(port) && !target.is_empty() {
        Ok(Destination::Forward { target, port })
    } else {
        Err(Why::Unnamed)
    }
}

// Where an omfwd's messages go.
fn forward_of<'a>(text: &'a [u8], params: &[Param]) -> Result<Destination<'a>, Why> {
    if !is_given(text, params, b"protocol", b"tcp") {
        return Err(Why::Datagram);
    }
    if is_secret(text, params) {
        return Err(Why::Secret);
    }
    let port = value_of(text, params, b"port").unwrap_or(USUAL_PORT);
    match value_of(text, params, b"target") {
        Some(target) => receiver_at(target, port),
        None => Err(Why::Unnamed),
    }
}

fn changes(module: &[u8]) -> bool {
    module.starts_with(b"mm")
}

// Where an action's messages go, or why it is left out.
fn destination_of<'a>(text: &'a [u8], params: &[Param]) -> Result<Destination<'a>, Why> {
    let Some(module) = value_of(text, params, b"type") else {
        return Err(Why::Unnamed);
    };
    let module = module_of(module);
    if is_conditional(text, params) {
        return Err(Why::Conditional);
    }
    if same_word(b"omfile", module) {
        return file_of(text, params);
    }
    if same_word(b"omfwd", module) {
        return forward_of(text, params);
    }
    if same_word(b"omrelp", module) {
        return Err(Why::Relp);
    }
    if same_word(b"omusrmsg", module) {
        return Err(Why::Users);
    }
    Err(if changes(module) {
        Why::Variables
    } else {
        Why::Output
    })
}

/// The parameters of an action that are carried over, beside those of its queue.
const CARRIED: [&[u8]; 9] = [
    b"action.resumeInterval",
    b"action.resumeRetryCount",
    b"file",
    b"name",
    b"port",
    b"protocol",
    b"target",
    b"tcp_framing",
    b"type",
];

/// The parameters of an omfile for its host, which are carried over where a relay takes their value.
const OF_HOST: [&[u8]; 7] = [
    b"createDirs",
    b"fileCreateMode",
    b"fileGroup",
    b"fileGroupNum",
    b"fileOwner",
    b"fileOwnerNum",
    b"sync",
];

/// The greatest number of an owner or a group that a relay takes.
const MOST_ID: u64 = 4_294_967_294;

// Whether a value is a mode as a relay takes it: four octal digits, of which the first is 0.
fn is_mode(value: &[u8]) -> bool {
    value.len() == 4
        && byte_at(value, 0) == b'0'
        && value.iter().all(|byte| b'0' <= *byte && *byte <= b'7')
}

// Whether a value is the number of an owner or a group as a relay takes it.
fn is_id(value: &[u8]) -> bool {
    decimal_up_to(value, MOST_ID).is_some()
}

// Whether a value is the name of a user or a group as a relay takes it.
fn is_account(value: &[u8]) -> bool {
    !value.is_empty() && value.iter().all(|byte| *byte > 32 && *byte != b':')
}

// The value of a parameter for the host as a relay takes it.
fn host_value<'a>(name: &[u8], value: &'a [u8]) -> Option<&'a [u8]> {
    if same_word(b"fileCreateMode", name) {
        return if is_mode(value) { Some(value) } else { None };
    }
    if same_word(b"fileGroupNum", name) || same_word(b"fileOwnerNum", name) {
        return if is_id(value) { Some(value) } else { None };
    }
    if same_word(b"fileGroup", name) || same_word(b"fileOwner", name) {
        return if is_account(value) { Some(value) } else { None };
    }
    if same_word(b"on", value) {
        return Some(b"on");
    }
    if same_word(b"off", value) {
        return Some(b"off");
    }
    None
}

// Puts the parameters for the host behind the text of an action that writes a file, and their names behind those that are carried
// over.
fn append_host(
    whole: &mut Vec<u8>,
    text: &[u8],
    params: &[Param],
    carried: &mut Vec<&'static [u8]>,
) -> Result<(), AllocError> {
    for name in OF_HOST.as_slice() {
        let given = value_of(text, params, name);
        if let Some(value) = given.and_then(|value| host_value(name, value)) {
            append_param(whole, name, value)?;
            carried.push(name)?;
        }
    }
    Ok(())
}

/// Carries over an action of these parameters, a statement by its number.
pub(crate) fn action(
    draft: &mut Draft,
    source: Source<'_>,
    statement: usize,
    params: &[Param],
) -> Result<Fate, AllocError>
    ensures { IfOk result (λ fate. spec.is_told fate ≡ true) }
{
    let text = source.text;
    let given = draft.retries.map(|it: sy_fleet::params::Span| it.of(text));
    draft.retries = None;
    let destination = match destination_of(text, params) {
        Ok(destination) => destination,
        Err(why) => {
            draft.leave(source, statement, statement.saturating_add(1), why)?;
            return Ok(Fate::Left(why));
        }
    };
    let retries = value_of(text, params, b"action.resumeRetryCount").or(given);
    let name = value_of(text, params, b"name");
    let mut whole = action_text(draft, name, destination, retries)?;
    if let Some(interval) = value_of(text, params, b"action.resumeInterval") {
        append_param(&mut whole, b"action.resumeInterval", interval)?;
    }
    let mut carried = Vec::from_slice(draft.alloc, CARRIED.as_slice())?;
    if let Destination::File(_) = destination {
        append_host(&mut whole, text, params, &mut carried)?;
    }
    let without = append_queue(draft.alloc, &mut whole, text, params, carried.as_slice())?;
    whole.push(b')')?;
    draft.without(b"the next statement", without.names.as_slice())?;
    draft.push(whole.as_slice())?;
    Ok(if without.is_loss {
        Fate::Partly
    } else {
        Fate::Carried
    })
}

// ---- destinations of the older syntax

// The template that stands behind a semicolon, with that, and the options in parentheses of a forward: both are left out.
fn append_extras<'a>(names: &mut Vec<&'a [u8]>, word: &'a [u8]) -> Result<(), AllocError> {
    let behind = part(word, 2, word.len());
    if byte_at(word, 0) == b'@' && byte_at(behind, 0) == b'(' {
        let kept = without_options(behind).len();
        names.push(part(behind, 0, behind.len().saturating_sub(kept)))?;
    }
    if let Some(start) = word.iter().position(|byte| *byte == b';') {
        names.push(part(word, start, word.len()))?;
    }
    Ok(())
}

// Without the template that stands behind a semicolon.
fn without_template(word: &[u8]) -> &[u8] {
    let end = word
        .iter()
        .position(|byte| *byte == b';' || *byte == b' ' || *byte == b'\t')
        .unwrap_or(word.len());
    part(word, 0, end)
}

// Without options in parentheses.
fn without_options(word: &[u8]) -> &[u8] {
    if byte_at(word, 0) != b'(' {
        return word;
    }
    match word.iter().position(|byte| *byte == b')') {
        Some(end) => part(word, end + 1, word.len()),
        None => word,
    }
}

// The target and the port of `host:port`, `[address]:port` or `host`.
fn receiver(word: &[u8]) -> Result<Destination<'_>, Why> {
    let (target, rest) = if byte_at(word, 0) == b'[' {
        let end = word
            .iter()
            .position(|byte| *byte == b']')
            .unwrap_or(word.len());
        (part(word, 1, end), part(word, end + 1, word.len()))
    } else {
        let end = word
            .iter()
            .position(|byte| *byte == b':')
            .unwrap_or(word.len());
        (part(word, 0, end), part(word, end, word.len()))
    };
    match rest.strip_prefix(b":") {
        Some(port) if !port.is_empty() => receiver_at(target, port),
        _ => receiver_at(target, USUAL_PORT),
    }
}

// What begins with `:`: a module and what it is told.
fn of_module<'a>(word: &[u8]) -> Result<Destination<'a>, Why> {
    if same_word(b":omusrmsg:", part(word, 0, 10)) {
        return Err(Why::Users);
    }
    if same_word(b":omrelp:", part(word, 0, 8)) {
        return Err(Why::Relp);
    }
    Err(Why::Output)
}

// Where the messages of a destination go, or why it is left out.
fn older_destination(word: &[u8]) -> Result<Destination<'_>, Why> {
    let second = byte_at(word, 1);
    match byte_at(word, 0) {
        b'@' if second == b'@' => {
            let behind = without_options(part(word, 2, word.len()));
            receiver(without_template(behind))
        }
        b'@' => Err(Why::Datagram),
        b'?' => Err(Why::DynamicFile),
        b'-' if second == b'?' => Err(Why::DynamicFile),
        b'-' => Ok(Destination::File(without_template(part(word, 1, word.len())))),
        b'/' | b'.' => Ok(Destination::File(without_template(word))),
        b':' => of_module(word),
        _ => Err(Why::Output),
    }
}

/// Carries over a destination of the older syntax, a statement by its number.
pub(crate) fn older_action(
    draft: &mut Draft,
    source: Source<'_>,
    statement: usize,
) -> Result<Fate, AllocError>
    ensures { IfOk result (λ fate. spec.is_told fate ≡ true) }
{
    let word = source.bytes_of(statement);
    let retries = draft
        .retries
        .map(|it: sy_fleet::params::Span| it.of(source.text));
    draft.retries = None;
    match older_destination(word) {
        Ok(destination) => {
            let mut whole = action_text(draft, None, destination, retries)?;
            whole.push(b')')?;
            let mut names = Vec::new(draft.alloc);
            append_extras(&mut names, word)?;
            draft.without(b"the next statement", names.as_slice())?;
            draft.push(whole.as_slice())?;
            Ok(Fate::Carried)
        }
        Err(why) => {
            draft.leave(source, statement, statement.saturating_add(1), why)?;
            Ok(Fate::Left(why))
        }
    }
}
