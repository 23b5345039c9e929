//! Actions: what they keep, and how they are tried.
ghost use Rattle.std.specs.Prelude.{◌≡◌, option_map};
ghost use Rattle.sy_fleet.specs.internal.Actions as inside;

use crate::fleet::Loss;
use crate::modules::{Output, output_of};
use crate::params::{Param, Span, is_given, is_on, module_of, span_of, value_of};
use sy_fleet_text::scan::{byte_at, part};
use sy_fleet_text::words::same_word;

/// An action as it is found: its module as it is written, and what is known of it.
#[derive(Clone, Copy)]
pub(crate) struct Found<'a> {
    pub at: usize,
    pub module: Span,
    pub output: Output,
    pub loss: Loss,
    pub retries: Option<&'a [u8]>,
    /// Whether it isn't executed for each message that comes to it.
    pub is_conditional: bool,
    pub has_queue: bool,
}

// Whether the parameters leave out some of the messages that come to an action.
fn is_conditional(text: &[u8], params: &[Param]) -> bool {
    is_on(text, params, b"action.execOnlyWhenPreviousIsSuspended")
        || is_on(text, params, b"action.execOnlyEveryNthTime")
        || is_on(text, params, b"action.execOnlyOnceEveryInterval")
        || is_on(text, params, b"rateLimit.interval")
}

// What a file loses whatever its count of retries.
fn loss_of_file(text: &[u8], params: &[Param]) -> Loss {
    if value_of(text, params, b"dynaFile").is_some() {
        return Loss::DynamicFile;
    }
    if is_on(text, params, b"asyncWriting") {
        return Loss::Asynchronous;
    }
    Loss::None
}

// What an output of a module keeps by these parameters, and loses.
fn kept_by(text: &[u8], module: &[u8], params: &[Param]) -> (Output, Loss) {
    let output = output_of(module);
    if output == Output::File {
        return (output, loss_of_file(text, params));
    }
    if same_word(b"omfwd", module) && !is_given(text, params, b"protocol", b"tcp") {
        return (Output::Datagram, Loss::Datagram);
    }
    if output == Output::Datagram {
        return (output, Loss::Datagram);
    }
    (output, Loss::None)
}

/// The action of an `action` object at a place, by its parameters.
pub(crate) fn found_of<'a>(text: &'a [u8], at: usize, params: &[Param]) -> Found<'a> {
    let module = match span_of(text, params, b"type") {
        Some(span) => span,
        None => Span { start: at, end: at },
    };
    let (output, loss) = kept_by(text, module_of(module.of(text)), params);
    Found {
        at,
        module,
        output,
        loss,
        retries: value_of(text, params, b"action.resumeRetryCount"),
        is_conditional: is_conditional(text, params),
        has_queue: false,
    }
}

// The output that `:module:` names, with what is behind it.
fn named(text: &[u8], start: usize, end: usize) -> Output {
    for at in start..end {
        if byte_at(text, at) == b':' {
            return output_of(part(text, start, at));
        }
    }
    output_of(part(text, start, end))
}

/// What a destination of the older syntax keeps, and loses.
pub(crate) fn destination(text: &[u8], start: usize, end: usize) -> (Output, Loss) {
    let second = byte_at(text, start.saturating_add(1));
    match byte_at(text, start) {
        b'@' if second == b'@' => (Output::Forward, Loss::None),
        b'@' => (Output::Datagram, Loss::Datagram),
        b'?' => (Output::File, Loss::DynamicFile),
        b'-' if second == b'?' => (Output::File, Loss::DynamicFile),
        b'/' | b'-' | b'.' => (Output::File, Loss::None),
        b':' => (named(text, start.saturating_add(1), end), Loss::None),
        _ => (Output::Unknown, Loss::None),
    }
}

/// Whether the retries never end.
pub(crate) fn is_endless(retries: Option<&[u8]>) -> bool
    ensures { result ≡ inside.is_endless (option_map (λ it. it.now) retries.entry) }
{
    match retries {
        Some(count) => count == b"-1".as_slice(),
        None => false,
    }
}
