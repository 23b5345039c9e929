//! What the older syntax of syslog.conf and rsyslog's directives comes to in the plan.
ghost use Rattle.std.specs.Prelude.{◌≡◌, [], true, IfOk, OnOk};
ghost use Rattle.sy_fleet.specs.Statements as spec;
ghost use Rattle.sy_fleet.specs.internal.Tests as plan;

use crate::actions::{Found, destination};
use crate::directives::{Directive, Subject, directive_at, queue_prefix, sort_of, subject_of};
use crate::fleet::Input;
use crate::inputs::{bound_of, load, push_input};
use crate::modules::flow_of;
use crate::objects::{forget, write_action};
use crate::params::{Param, Span};
use crate::queues::{QueueKind, append_queue};
use crate::rulesets::number_of_name;
use crate::statements::{Assumption, Sort};
use crate::tests::is_selector;
use crate::walk::{Bound, Owner, Walk};
use std::alloc::AllocError;
use std::mem;
use sy_fleet_text::Piece;
use sy_fleet_text::scan::{byte_at, part};
use sy_fleet_text::words::same_word;

// Begins what a filter lets through.
fn begin_filter(walk: &mut Walk<'_>, test: Vec<u8>) -> Result<(), AllocError>
    ensures { OnOk result (plan.Adds (plan.if_text test.items) walk.old walk.new) }
{
    walk.begin_test(test.as_slice(), Owner::Filter)?;
    walk.last = test;
    Ok(())
}

// What a selector is in the plan: a test of the class, where the profile reads it.
fn selector_test(walk: &mut Walk<'_>, own: &[u8]) -> Result<Vec<u8>, AllocError>
    ensures test { IfOk result (λ test. plan.IsTest (plan.selector_text own.now) test.items) }
    ensures same { OnOk result (plan.Adds [] walk.old walk.new) }
{
    if !is_selector(walk.alloc, own)? {
        return walk.open_test();
    }
    let mut test = Vec::new(walk.alloc);
    test.extend_from_slice(b"prifilt(\"")?;
    test.extend_from_slice(own)?;
    test.extend_from_slice(b"\")")?;
    Ok(test)
}

// Begins what a selector of this text lets through.
fn begin_selector(walk: &mut Walk<'_>, own: &[u8]) -> Result<(), AllocError>
    ensures { OnOk result (plan.BeginsTest (plan.selector_text own.now) walk.old walk.new) }
{
    let test = selector_test(walk, own)?;
    begin_filter(walk, test)?;
    Ok(())
}

/// A selector.
pub(crate) fn selector(walk: &mut Walk<'_>, piece: Piece) -> Result<Sort, AllocError>
    ensures { IfOk result (λ sort. spec.is_planned sort ≡ true) }
{
    let text = part(walk.text, piece.start, piece.end);
    begin_selector(walk, text.strip_suffix(b";").unwrap_or(text))?;
    Ok(Sort::Planned)
}

/// A filter by a property: a test that is left open.
pub(crate) fn filter(walk: &mut Walk<'_>) -> Result<Sort, AllocError>
    ensures planned { IfOk result (λ sort. spec.is_planned sort ≡ true) }
    ensures begins { OnOk result (plan.BeginsOpen walk.old walk.new) }
{
    let open = walk.open_test()?;
    begin_filter(walk, open)?;
    Ok(Sort::Planned)
}

// The test of the last filter, or one that is left open where there is none that is gone on with.
fn last_test(walk: &mut Walk<'_>) -> Result<Vec<u8>, AllocError>
    ensures test { IfOk result (λ test. plan.IsTest walk.old.last.items test.items) }
    ensures same { OnOk result (plan.Adds [] walk.old walk.new) }
{
    if walk.last.is_empty() {
        return walk.open_test();
    }
    let mut test = Vec::new(walk.alloc);
    test.extend_from_slice(walk.last.as_slice())?;
    Ok(test)
}

/// A further action of the last filter.
pub(crate) fn again(walk: &mut Walk<'_>) -> Result<Sort, AllocError>
    ensures planned { IfOk result (λ sort. spec.is_planned sort ≡ true) }
    ensures begins { OnOk result (plan.BeginsTest walk.old.last.items walk.old walk.new) }
{
    let test = last_test(walk)?;
    begin_filter(walk, test)?;
    Ok(Sort::Planned)
}

/// A destination, up to the end of its line.
pub(crate) fn destined(walk: &mut Walk<'_>, piece: Piece, from: usize) -> Result<Sort, AllocError>
    ensures { IfOk result (λ sort. spec.is_read sort ≡ true) }
{
    let text = walk.text;
    if byte_at(text, piece.start) == b'~' {
        walk.push(b"stop\n")?;
        walk.stops.push(piece.start)?;
        walk.complete(from)?;
        return Ok(Sort::Planned);
    }
    let (output, loss) = destination(text, piece.start, piece.end);
    let found = Found {
        at: piece.start,
        module: Span {
            start: piece.start,
            end: piece.end,
        },
        output,
        loss,
        retries: walk.settings.retries.map(|it: Span| it.of(text)),
        is_conditional: walk.settings.is_conditional,
        has_queue: false,
    };
    let queue = mem::replace(&mut walk.settings.queue, Vec::new(walk.alloc));
    let sort = write_action(walk, found, queue.as_slice())?;
    forget(walk);
    walk.complete(from)?;
    Ok(sort)
}

/// Users, to whom messages are shown.
pub(crate) fn users(walk: &mut Walk<'_>, from: usize) -> Result<Sort, AllocError>
    ensures { IfOk result (λ sort. spec.is_without_effect sort ≡ true) }
{
    forget(walk);
    walk.complete(from)?;
    Ok(Sort::WithoutEffect)
}

// An input of a module that a directive makes.
fn listener(walk: &mut Walk<'_>, at: usize, name: Span, module: &[u8]) -> Result<(), AllocError> {
    let text = walk.text;
    let input = Input {
        at,
        module: name,
        flow: flow_of(module),
        is_limited: false,
        ruleset: 0,
    };
    let own = bound_of(text, walk.settings.bounds.as_slice(), module);
    let ruleset = own.or(bound_of(text, walk.bounds.as_slice(), module));
    push_input(walk, input, ruleset)
}

// The statements that follow are of this ruleset.
fn enter(walk: &mut Walk<'_>, name: &[u8]) {
    let number = number_of_name(walk.text, walk.rulesets.as_slice(), name);
    walk.ruleset = number.unwrap_or(0);
    walk.outer = walk.ruleset;
}

// A parameter of a queue, its name without what says of which.
fn queue_param(text: &[u8], it: Directive) -> Param {
    let len = match queue_prefix(it.name.of(text)) {
        Some((_, len)) => len,
        None => 0,
    };
    Param {
        name: Span {
            start: it.name.start.saturating_add(len),
            end: it.name.end,
        },
        value: it.value,
    }
}

// What a directive says of queues and of the next action.
fn set(walk: &mut Walk<'_>, subject: Subject, it: Directive) -> Result<(), AllocError> {
    let text = walk.text;
    let is_on = !same_word(b"off", it.value.of(text)) && it.value.of(text) != b"0".as_slice();
    match subject {
        Subject::MainQueue => walk.main_params.push(queue_param(text, it))?,
        Subject::ActionQueue => walk.settings.queue.push(queue_param(text, it))?,
        Subject::Retries => walk.settings.retries = Some(it.value),
        Subject::Suspended => walk.settings.is_conditional = is_on,
        Subject::Binding(module) => walk.settings.bounds.push(Bound {
            module,
            ruleset: it.value,
        })?,
        Subject::Reduction if is_on => walk.reduction = Some(it.name.start),
        Subject::RateLimit if is_on => walk.limits = Some(it.name.start),
        Subject::RulesetQueue if is_on => {
            let mut line = Vec::new(walk.alloc);
            line.extend_from_slice(b" queue.type=\"LinkedList\"")?;
            append_queue(
                &mut line,
                text,
                walk.main_params.as_slice(),
                QueueKind::Main,
            )?;
            let ruleset = walk.ruleset;
            walk.out.set_queue(ruleset, line);
        }
        _ => {}
    }
    Ok(())
}

/// A directive.
pub(crate) fn directive(walk: &mut Walk<'_>, piece: Piece) -> Result<Sort, AllocError>
    ensures { IfOk result (λ sort. spec.is_read sort ≡ true) }
{
    let text = walk.text;
    let it = directive_at(text, piece.start, piece.end);
    let subject = subject_of(it.name.of(text));
    match subject {
        Subject::Module => return load(walk, piece.start, it.value, &[]),
        Subject::Listener(module) => listener(walk, piece.start, it.name, module)?,
        Subject::Ruleset => enter(walk, it.value.of(text)),
        _ => set(walk, subject, it)?,
    }
    Ok(sort_of(subject))
}
