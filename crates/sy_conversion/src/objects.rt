//! Objects.
ghost use Rattle.std.specs.Prelude.{◌≡◌, false, true, IfOk, IfSome};
ghost use Rattle.sy_conversion.specs.Conversions as spec;

use crate::actions::action;
use crate::draft::Draft;
use crate::fates::{Fate, Step, Why};
use crate::inputs::{input, load};
use crate::params::{append_param, append_queue};
use crate::source::Source;
use crate::tests::leave_whole;
use std::alloc::AllocError;
use sy_fleet::params::{Param, number_of, params_of, value_of};
use sy_fleet_text::scan::byte_at;
use sy_fleet_text::{Kind, Object};

/// How long a message may be that a relay takes.
const MOST: u64 = 65_536;

// Why `global` is left out: a relay takes no longer messages.
fn why_no_global(text: &[u8], params: &[Param]) -> Why {
    match value_of(text, params, b"maxMessageSize") {
        Some(size) => match number_of(size) {
            Some(size) if size <= MOST => Why::Setting,
            _ => Why::Size,
        },
        None => Why::Setting,
    }
}

// The object of a queue: its name and what is carried over.
fn queued(
    draft: &mut Draft,
    source: Source<'_>,
    params: &[Param],
    object: &[u8],
    names: &[&[u8]],
) -> Result<Fate, AllocError>
    ensures { IfOk result (λ fate. spec.is_told fate ≡ true) }
{
    let mut text = Vec::new(draft.alloc);
    text.extend_from_slice(object)?;
    text.push(b'(')?;
    if let Some(name) = value_of(source.text, params, b"name") {
        append_param(&mut text, b"name", name)?;
    }
    let without = append_queue(draft.alloc, &mut text, source.text, params, names)?;
    text.push(b')')?;
    draft.without(b"the next statement", without.names.as_slice())?;
    draft.push(text.as_slice())?;
    Ok(if without.is_loss {
        Fate::Partly
    } else {
        Fate::Carried
    })
}

// A ruleset, of which there may be no block.
fn ruleset(
    draft: &mut Draft,
    source: Source<'_>,
    statement: usize,
    params: &[Param],
) -> Result<Fate, AllocError>
    ensures { IfOk result (λ fate. spec.is_told fate ≡ true) }
{
    let fate = queued(draft, source, params, b"ruleset", &[b"name"])?;
    if !source.is_block(statement.saturating_add(1)) {
        draft.push(b" { }")?;
    }
    Ok(fate)
}

// Leaves out one statement.
fn leave(
    draft: &mut Draft,
    source: Source<'_>,
    statement: usize,
    why: Why,
) -> Result<Step, AllocError>
    ensures fate { IfOk result (λ s. s.fate ≡ Fate.Left why) }
    ensures alone { IfOk result (λ s. s.more ≡ 0) }
{
    draft.leave(source, statement, statement.saturating_add(1), why)?;
    Ok(Step::one(Fate::Left(why)))
}

// The objects with parameters that are carried over.
fn kept(
    draft: &mut Draft,
    source: Source<'_>,
    statement: usize,
    object: Object,
    params: &[Param],
) -> Result<Option<Fate>, AllocError>
    ensures { IfOk result (λ found. IfSome found (λ fate. spec.is_told fate ≡ true)) }
{
    let fate = match object {
        Object::Input => input(draft, source, statement, params)?,
        Object::Action => action(draft, source, statement, params)?,
        Object::Ruleset => ruleset(draft, source, statement, params)?,
        Object::MainQueue => queued(draft, source, params, b"main_queue", &[])?,
        Object::Module => match value_of(source.text, params, b"load") {
            Some(module) => load(draft, source, statement, module, params)?,
            None => return Ok(None),
        },
        _ => return Ok(None),
    };
    Ok(Some(fate))
}

// Whether a value is in backticks, which rsyslogd works out.
fn is_worked_out(source: Source<'_>, statement: usize) -> bool {
    source.pieces_of(statement).iter().any(|it| it.kind == Kind::Quoted
        && byte_at(source.text, it.start) == b'`')
}

/// Carries over an object, or leaves it out.
pub(crate) fn object(
    draft: &mut Draft,
    source: Source<'_>,
    statement: usize,
    object: Object,
) -> Result<Step, AllocError>
    ensures fate { IfOk result (λ s. spec.is_told s.fate ≡ true) }
    ensures alone { IfOk result (λ s. spec.is_left s.fate ≡ false → s.more ≡ 0) }
{
    if is_worked_out(source, statement) {
        return leave_whole(draft, source, statement, Why::Environment);
    }
    let params = params_of(draft.alloc, source.pieces_of(statement))?;
    let params = params.as_slice();
    if let Some(fate) = kept(draft, source, statement, object, params)? {
        return Ok(Step::one(fate));
    }
    match object {
        Object::Template => leave_whole(draft, source, statement, Why::Template),
        Object::Global => leave(draft, source, statement, why_no_global(source.text, params)),
        Object::Include => leave(draft, source, statement, Why::Included),
        Object::Parser => leave(draft, source, statement, Why::Parser),
        Object::Module => leave(draft, source, statement, Why::Unnamed),
        _ => leave(draft, source, statement, Why::Variables),
    }
}
