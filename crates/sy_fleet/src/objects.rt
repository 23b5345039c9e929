//! What the objects of a text come to in the plan.
ghost use Rattle.std.specs.Prelude.{◌≡◌, ◌++◌, [], true, IfOk, OnOk, codes, option_map};
ghost use Rattle.sy_fleet.specs.Statements as spec;
ghost use Rattle.sy_fleet.specs.internal.Actions as inside;
ghost use Rattle.sy_fleet.specs.internal.Tests as plan;

use crate::actions::{Found, found_of, is_endless};
use crate::fleet::{Action, Loss};
use crate::inputs::{input, load};
use crate::modules::Output;
use crate::params::{Param, params_of, span_of, value_of};
use crate::queues::{
    QueueKind, append_number, append_queue, is_action_queue, is_on_disk, is_ruleset_queue,
    queue_params,
};
use crate::rulesets::{name_in, number_of_name};
use crate::statements::{Assumption, Sort, next_kind};
use crate::walk::{Open, Owner, Walk};
use std::alloc::{AllocError, Global};
use sy_fleet_text::scan::part;
use sy_fleet_text::words::same_word;
use sy_fleet_text::{Kind, Mark, Object, Piece};

fn retries_of(found: Found<'_>) -> &'static [u8]
    ensures { result.now ≡ inside.retries_of found.entry.loss (option_map (λ it. it.now) found.entry.retries) }
{
    if found.loss == Loss::None && is_endless(found.retries) {
        b"-1"
    } else {
        b"0"
    }
}

// The text of an action in the plan.
fn action_text(
    alloc: Global,
    number: u64,
    found: Found<'_>,
    queue: &[u8],
) -> Result<Vec<u8>, AllocError>
    ensures { IfOk result (λ text. text.items ≡ inside.found_text number found.entry queue.now) }
{
    let mut text = Vec::new(alloc);
    text.extend_from_slice(b"action(name=\"a")?;
    append_number(&mut text, number)?;
    text.extend_from_slice(b"\" type=\"omfile\" file=\"a")?;
    append_number(&mut text, number)?;
    text.extend_from_slice(b"\" action.resumeRetryCount=\"")?;
    text.extend_from_slice(retries_of(found))?;
    text.extend_from_slice(b"\"")?;
    text.extend_from_slice(queue)?;
    text.extend_from_slice(b")\n")?;
    Ok(text)
}

// The text of an action under a test.
fn text_under(alloc: Global, test: &[u8], action: &[u8]) -> Result<Vec<u8>, AllocError>
    ensures { IfOk result (λ text. text.items ≡ (plan.if_text test.now ++ action.now) ++ codes "}\n") }
{
    let mut text = Vec::new(alloc);
    text.extend_from_slice(b"if ")?;
    text.extend_from_slice(test)?;
    text.extend_from_slice(b" then {\n")?;
    text.extend_from_slice(action)?;
    text.extend_from_slice(b"}\n")?;
    Ok(text)
}

// What an action comes to in the plan.
fn planned_action(
    walk: &mut Walk<'_>,
    number: u64,
    found: Found<'_>,
    queue: &[u8],
) -> Result<Vec<u8>, AllocError>
    ensures action { IfOk result (λ text. inside.IsAction number found.entry queue.now text.items) }
    ensures same { OnOk result (plan.Adds [] walk.old walk.new) }
{
    let text = action_text(walk.alloc, number, found, queue)?;
    if !found.is_conditional {
        return Ok(text);
    }
    let test = walk.open_test()?;
    let whole = text_under(walk.alloc, test.as_slice(), text.as_slice())?;
    Ok(whole)
}

// Puts an action into the plan.
fn plan_action(
    walk: &mut Walk<'_>,
    number: u64,
    found: Found<'_>,
    queue: &[u8],
) -> Result<(), AllocError>
    ensures { OnOk result (inside.AddsAction number found.entry queue.now walk.old walk.new) }
{
    let text = planned_action(walk, number, found, queue)?;
    walk.push(text.as_slice())?;
    Ok(())
}

// The same, and into the list of those.
fn push_action(walk: &mut Walk<'_>, found: Found<'_>, queue: &[u8]) -> Result<(), AllocError> {
    let number = walk.actions.len() as u64;
    plan_action(walk, number, found, queue)?;
    walk.actions.push(Action {
        at: found.at,
        module: found.module,
        output: found.output,
        loss: found.loss,
        has_queue: found.has_queue,
    })?;
    Ok(())
}

// What is taken for granted of an action.
fn note_action(walk: &mut Walk<'_>, found: Found<'_>) -> Result<(), AllocError> {
    match found.output {
        Output::File => walk.note(found.at, Assumption::FileTakes),
        Output::Forward => walk.note(found.at, Assumption::LinkHandsOn),
        _ => Ok(()),
    }
}

/// Writes an action with its queue.
pub(crate) fn write_action(
    walk: &mut Walk<'_>,
    found: Found<'_>,
    queue: &[Param],
) -> Result<Sort, AllocError>
    ensures { IfOk result (λ sort. spec.is_read sort ≡ true) }
{
    if found.output == Output::Changed {
        return Ok(Sort::Assumed(Assumption::Changed));
    }
    if found.output == Output::Shown {
        return Ok(Sort::WithoutEffect);
    }
    let mut found = found;
    let mut text = Vec::new(walk.alloc);
    if is_action_queue(walk.text, queue) {
        found.has_queue = true;
        text.extend_from_slice(b" queue.type=\"LinkedList\"")?;
        append_queue(&mut text, walk.text, queue, QueueKind::Action)?;
    }
    if is_on_disk(walk.text, queue) {
        walk.note(found.at, Assumption::Disk)?;
    }
    note_action(walk, found)?;
    push_action(walk, found, text.as_slice())?;
    Ok(Sort::Planned)
}

/// Forgets what was said of the next action.
pub(crate) fn forget(walk: &mut Walk<'_>) {
    walk.settings.retries = None;
    walk.settings.queue = Vec::new(walk.alloc);
}

fn action(walk: &mut Walk<'_>, at: usize, params: &[Param]) -> Result<Sort, AllocError>
    ensures { IfOk result (λ sort. spec.is_read sort ≡ true) }
{
    let text = walk.text;
    let queue = queue_params(walk.alloc, text, params)?;
    if value_of(text, params, b"template").is_some() {
        walk.note(at, Assumption::Template)?;
    }
    let sort = write_action(walk, found_of(text, at, params), queue.as_slice())?;
    // (what the older syntax said of the next action ends with each)
    forget(walk);
    Ok(sort)
}

// Begins a ruleset's statements.
fn ruleset(
    walk: &mut Walk<'_>,
    at: usize,
    pieces: &[Piece],
    from: usize,
) -> Result<Sort, AllocError>
    ensures { IfOk result (λ sort. spec.is_planned sort ≡ true) }
{
    let text = walk.text;
    let params = params_of(walk.alloc, pieces)?;
    let number = match name_in(walk.alloc, text, pieces)? {
        Some(name) => number_of_name(text, walk.rulesets.as_slice(), name.of(text)),
        None => None,
    };
    let number = number.unwrap_or(0);
    if value_of(text, params.as_slice(), b"parser").is_some() {
        walk.note(at, Assumption::Parser)?;
    }
    let queue = queue_params(walk.alloc, text, params.as_slice())?;
    if is_ruleset_queue(text, queue.as_slice()) {
        let mut line = Vec::new(walk.alloc);
        line.extend_from_slice(b" queue.type=\"LinkedList\"")?;
        append_queue(&mut line, text, queue.as_slice(), QueueKind::Object)?;
        walk.out.set_queue(number, line);
    }
    if is_on_disk(text, queue.as_slice()) {
        walk.note(at, Assumption::Disk)?;
    }
    if next_kind(walk.pieces, from) == Some(Kind::Mark(Mark::BlockOpening)) {
        walk.outer = walk.ruleset;
        walk.ruleset = number;
        walk.open.push(Open::Single(Owner::Ruleset))?;
    }
    Ok(Sort::Planned)
}

// A template, with the block behind it where there is one.
fn template(walk: &mut Walk<'_>, from: usize) -> Result<Sort, AllocError>
    ensures { IfOk result (λ sort. spec.is_assumed sort ≡ true) }
{
    if next_kind(walk.pieces, from) == Some(Kind::Mark(Mark::BlockOpening)) {
        walk.open.push(Open::Single(Owner::Silent))?;
    }
    Ok(Sort::Assumed(Assumption::Template))
}

// What the main queue's parameters come to.
fn main_queue(walk: &mut Walk<'_>, at: usize, params: &[Param]) -> Result<Sort, AllocError>
    ensures { IfOk result (λ sort. spec.is_planned sort ≡ true) }
{
    walk.main_queue = Some(at);
    let queue = queue_params(walk.alloc, walk.text, params)?;
    if is_on_disk(walk.text, queue.as_slice()) {
        walk.note(at, Assumption::Disk)?;
    }
    walk.main_params = queue;
    Ok(Sort::Planned)
}

// The parameters of `global` that are known to have no effect on what is kept, in the order of their letters.
const IDLE: [&[u8]; 15] = [
    b"debug.files",
    b"debug.gnutls",
    b"debug.logFile",
    b"debug.onShutdown",
    b"debug.unloadModules",
    b"debug.whitelist",
    b"localHostname",
    b"net.enableDNS",
    b"net.ipprotocol",
    b"preserveFQDN",
    b"privdrop.group.id",
    b"privdrop.group.name",
    b"privdrop.user.id",
    b"privdrop.user.name",
    b"workDirectory",
];

// Whether a parameter of `global` is known to have no effect on what is kept.
fn is_idle(name: &[u8]) -> bool {
    for idle in IDLE.as_slice() {
        if same_word(idle, name) {
            return true;
        }
    }
    same_word(b"umask", name) || same_word(b"defaultNetstreamDriver", part(name, 0, 22))
}

fn global(text: &[u8], params: &[Param]) -> Sort
    ensures { spec.is_read result ≡ true }
{
    if value_of(text, params, b"maxMessageSize").is_some() {
        return Sort::Assumed(Assumption::Size);
    }
    for param in params {
        if !is_idle(param.name.of(text)) {
            return Sort::Assumed(Assumption::Unknown);
        }
    }
    Sort::WithoutEffect
}

/// What an object comes to: its first piece's number, and the place behind it.
pub(crate) fn object(
    walk: &mut Walk<'_>,
    kind: Object,
    first: usize,
    from: usize,
) -> Result<Sort, AllocError>
    ensures { IfOk result (λ sort. spec.object_may kind sort ≡ true) }
{
    let pieces = walk.pieces.get(first..from).unwrap_or(&[]);
    let at = match pieces.first() {
        Some(piece) => piece.start,
        None => 0,
    };
    let text = walk.text;
    let params = params_of(walk.alloc, pieces)?;
    let params = params.as_slice();
    match kind {
        Object::Module => match span_of(text, params, b"load") {
            Some(module) => load(walk, at, module, params),
            None => Ok(Sort::WithoutEffect),
        },
        Object::Input => input(walk, at, params),
        Object::Action => action(walk, at, params),
        Object::Ruleset => ruleset(walk, at, pieces, from),
        Object::Template => template(walk, from),
        Object::MainQueue => main_queue(walk, at, params),
        Object::Global => Ok(global(text, params)),
        Object::Include => Ok(Sort::Assumed(Assumption::Included)),
        Object::Parser => Ok(Sort::Assumed(Assumption::Parser)),
        Object::Timezone
        | Object::LookupTable
        | Object::DynStats
        | Object::PercentileStats
        | Object::Property
        | Object::Constant
        | Object::ReloadLookupTable => Ok(Sort::WithoutEffect),
    }
}
