//! What the inputs of a text, and the modules that it loads, come to in the plan.
ghost use Rattle.std.specs.Prelude.{◌≡◌, true, IfOk, option_map};
ghost use Rattle.sy_fleet.specs.Statements as spec;
ghost use Rattle.sy_fleet.specs.internal.Inputs as table;

use crate::fleet::{FIRST_PORT, Input};
use crate::modules::{Flow, flow_of};
use crate::params::{Param, Span, is_on, module_of, span_of, value_of};
use crate::queues::append_number;
use crate::rulesets::number_of_name;
use crate::statements::{Assumption, Sort};
use crate::walk::{Bound, Walk};
use std::alloc::AllocError;
use sy_fleet_text::words::same_word;

// How an input waits, by its module and what its flowControl is.
fn flow_given(module: &[u8], given: Option<&[u8]>) -> Flow
    ensures { result ≡ table.flow_given «module».now (option_map (λ it. it.now) given.entry) }
{
    let flow = flow_of(module);
    let Some(value) = given else {
        return flow;
    };
    if same_word(b"imrelp", module) && same_word(b"full", value) {
        return Flow::Full;
    }
    if same_word(b"none", value) || same_word(b"off", value) {
        return Flow::NoWait;
    }
    if same_word(b"on", value) && flow == Flow::NoWait {
        return Flow::Light;
    }
    flow
}

fn flow_text(flow: Flow) -> &'static [u8]
    ensures { result.now ≡ table.flow_text flow }
{
    match flow {
        Flow::Full => b"\" flowControl=\"full\"",
        Flow::Light => b"\" flowControl=\"on\"",
        Flow::NoWait => b"\" flowControl=\"off\"",
    }
}

// Whether an input discards what comes faster than a rate.
fn is_limited(text: &[u8], module: &[u8], params: &[Param]) -> bool {
    match value_of(text, params, b"rateLimit.interval") {
        Some(interval) => interval != b"0".as_slice(),
        None => {
            is_on(text, params, b"sysSock.rateLimit.interval")
                || is_on(text, params, b"rateLimitInterval")
                || same_word(b"imjournal", module)
        }
    }
}

/// Adds an input that leads to a ruleset.
pub(crate) fn push_input(
    walk: &mut Walk<'_>,
    input: Input,
    ruleset: Option<&[u8]>,
) -> Result<(), AllocError> {
    let mut line = Vec::new(walk.alloc);
    line.extend_from_slice(b"input(type=\"imtcp\" port=\"")?;
    append_number(
        &mut line,
        FIRST_PORT.saturating_add(walk.inputs.len() as u64),
    )?;
    line.extend_from_slice(flow_text(input.flow))?;
    let mut input = input;
    if let Some(name) = ruleset {
        match number_of_name(walk.text, walk.rulesets.as_slice(), name) {
            Some(number) => input.ruleset = number,
            None => walk.note(input.at, Assumption::Included)?,
        }
    }
    if input.ruleset > 0 {
        line.extend_from_slice(b" ruleset=\"r")?;
        append_number(&mut line, input.ruleset as u64)?;
        line.extend_from_slice(b"\"")?;
    }
    line.extend_from_slice(b")\n")?;
    walk.out.push_input(line.as_slice())?;
    walk.inputs.push(input)?;
    Ok(())
}

/// Adds the input that is assumed where a text has none.
pub(crate) fn assume_input(walk: &mut Walk<'_>) -> Result<(), AllocError> {
    walk.note(0, Assumption::NoInput)?;
    let input = Input {
        at: 0,
        module: Span { start: 0, end: 0 },
        flow: Flow::NoWait,
        is_limited: false,
        ruleset: 0,
    };
    push_input(walk, input, None)
}

/// The ruleset that inputs of a module lead to which name none; of several the last one, and none where it has no name.
pub(crate) fn bound_of<'a>(
    text: &'a [u8],
    bounds: &[Bound<'_>],
    module: &[u8],
) -> Option<&'a [u8]> {
    let mut found = None;
    for bound in bounds {
        if same_word(bound.module, module) {
            found = Some(bound.ruleset.of(text));
        }
    }
    found.filter(|it: &&[u8]| !it.is_empty())
}

// Adds the input that an object is.
fn input_of(
    walk: &mut Walk<'_>,
    at: usize,
    module: Span,
    params: &[Param],
) -> Result<(), AllocError> {
    let text = walk.text;
    let name = module_of(module.of(text));
    let input = Input {
        at,
        module,
        flow: flow_given(name, value_of(text, params, b"flowControl")),
        is_limited: is_limited(text, name, params),
        ruleset: 0,
    };
    let own = value_of(text, params, b"ruleset");
    let ruleset = own.or(bound_of(text, walk.bounds.as_slice(), name));
    push_input(walk, input, ruleset)
}

/// What an input comes to: its first place, its parameters.
pub(crate) fn input(walk: &mut Walk<'_>, at: usize, params: &[Param]) -> Result<Sort, AllocError>
    ensures { IfOk result (λ sort. spec.is_counted sort ≡ true) }
{
    match span_of(walk.text, params, b"type") {
        Some(module) => {
            input_of(walk, at, module, params)?;
            Ok(Sort::Planned)
        }
        None => Ok(Sort::Assumed(Assumption::Unknown)),
    }
}

/// Whether loading a module makes an input.
pub(crate) fn listens_alone(module: &[u8]) -> bool {
    same_word(b"imuxsock", module)
        || same_word(b"imklog", module)
        || same_word(b"imkmsg", module)
        || same_word(b"imjournal", module)
        || same_word(b"immark", module)
}

/// What loading a module comes to.
pub(crate) fn load(
    walk: &mut Walk<'_>,
    at: usize,
    module: Span,
    params: &[Param],
) -> Result<Sort, AllocError>
    ensures { IfOk result (λ sort. spec.is_read sort ≡ true) }
{
    let text = walk.text;
    let name = module_of(module.of(text));
    if listens_alone(name) {
        input_of(walk, at, module, params)?;
        return Ok(Sort::Planned);
    }
    if let Some(ruleset) = span_of(text, params, b"ruleset") {
        walk.bounds.push(Bound {
            module: name,
            ruleset,
        })?;
        return Ok(Sort::Planned);
    }
    if name.starts_with(b"pm") {
        return Ok(Sort::Assumed(Assumption::Parser));
    }
    if value_of(text, params, b"template").is_some() {
        return Ok(Sort::Assumed(Assumption::Template));
    }
    Ok(Sort::WithoutEffect)
}
