//! Inputs and modules: those of imtcp, and of imptcp as such, are carried over.
ghost use Rattle.std.specs.Prelude.{◌≡◌, true, IfOk};
ghost use Rattle.sy_conversion.specs.Conversions as spec;

use crate::draft::Draft;
use crate::fates::{Fate, Why};
use crate::params::{append_param, append_queue, is_port};
use crate::source::Source;
use std::alloc::AllocError;
use sy_fleet::params::{Param, is_on, module_of, value_of};
use sy_fleet_text::words::same_word;

fn is_tcp(module: &[u8]) -> bool {
    same_word(b"imtcp", module) || same_word(b"imptcp", module)
}

fn is_secret(text: &[u8], params: &[Param]) -> bool {
    is_on(text, params, b"StreamDriver.Mode") || is_on(text, params, b"StreamDriverMode")
}

// Whether loading a module makes an input.
fn listens_alone(module: &[u8]) -> bool {
    same_word(b"imuxsock", module)
        || same_word(b"imklog", module)
        || same_word(b"imkmsg", module)
        || same_word(b"imjournal", module)
        || same_word(b"immark", module)
}

// Why a module that isn't imtcp or imptcp is left out.
fn why_no_module(module: &[u8]) -> Why {
    if listens_alone(module) {
        return Why::Input;
    }
    if module.starts_with(b"pm") {
        return Why::Parser;
    }
    Why::Module
}

/// The text of an input at a port, which leads to the ruleset of a number.
pub(crate) fn input_text(
    draft: &Draft,
    source: Source<'_>,
    port: &[u8],
    ruleset: usize,
) -> Result<Vec<u8>, AllocError> {
    let mut text = Vec::new(draft.alloc);
    text.extend_from_slice(b"input(")?;
    append_param(&mut text, b"type", b"imtcp")?;
    append_param(&mut text, b"port", port)?;
    append_param(&mut text, b"flowControl", b"full")?;
    if let Some(name) = source.ruleset(ruleset) {
        append_param(&mut text, b"ruleset", name)?;
    }
    text.extend_from_slice(b")")?;
    Ok(text)
}

/// The parameters of an input that are carried over.
const CARRIED: [&[u8]; 4] = [b"flowControl", b"port", b"ruleset", b"type"];

// Where an input listens, or why it is left out.
fn port_of<'a>(draft: &Draft, text: &'a [u8], params: &[Param]) -> Result<&'a [u8], Why> {
    match value_of(text, params, b"type") {
        Some(module) if is_tcp(module_of(module)) => {
            if draft.is_secret || is_secret(text, params) {
                return Err(Why::Secret);
            }
        }
        _ => return Err(Why::Input),
    }
    match value_of(text, params, b"port") {
        Some(port) if is_port(port) => Ok(port),
        _ => Err(Why::Unnamed),
    }
}

/// Carries over an input of these parameters, a statement by its number.
pub(crate) fn input(
    draft: &mut Draft,
    source: Source<'_>,
    statement: usize,
    params: &[Param],
) -> Result<Fate, AllocError>
    ensures { IfOk result (λ fate. spec.is_told fate ≡ true) }
{
    let text = source.text;
    let port = match port_of(draft, text, params) {
        Ok(port) => port,
        Err(why) => {
            draft.leave(source, statement, statement.saturating_add(1), why)?;
            return Ok(Fate::Left(why));
        }
    };
    let ruleset = source.ruleset_at(source.start(statement), &mut draft.next_input);
    let whole = input_text(draft, source, port, ruleset)?;
    let mut none = Vec::new(draft.alloc);
    let without = append_queue(draft.alloc, &mut none, text, params, CARRIED.as_slice())?;
    draft.without(b"the next statement", without.names.as_slice())?;
    draft.push(whole.as_slice())?;
    Ok(if without.is_loss {
        Fate::Partly
    } else {
        Fate::Carried
    })
}

/// The parameters of a module that are carried over.
const LOADED: [&[u8]; 1] = [b"load"];

/// Carries over the loading of a module, a statement by its number: that of imtcp stands at the beginning.
pub(crate) fn load(
    draft: &mut Draft,
    source: Source<'_>,
    statement: usize,
    module: &[u8],
    params: &[Param],
) -> Result<Fate, AllocError>
    ensures { IfOk result (λ fate. spec.is_told fate ≡ true) }
{
    let module = module_of(module);
    if !is_tcp(module) {
        let why = why_no_module(module);
        draft.leave(source, statement, statement.saturating_add(1), why)?;
        return Ok(Fate::Left(why));
    }
    if is_secret(source.text, params) {
        draft.is_secret = true;
        draft.leave(source, statement, statement.saturating_add(1), Why::Secret)?;
        return Ok(Fate::Left(Why::Secret));
    }
    let mut none = Vec::new(draft.alloc);
    let without = append_queue(
        draft.alloc,
        &mut none,
        source.text,
        params,
        LOADED.as_slice(),
    )?;
    draft.without(
        b"the module, which stands at the beginning",
        without.names.as_slice(),
    )?;
    Ok(if without.is_loss {
        Fate::Partly
    } else {
        Fate::Carried
    })
}
