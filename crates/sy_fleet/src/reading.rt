//! What a text comes to in the plan, statement by statement.
ghost use Rattle.std.specs.Prelude.{◌≡◌, ◌<◌, ◌≤◌, ◌++◌, ◌∷◌, [], true, length, IfOk, OnOk};
ghost use Rattle.sy_fleet.specs.Statements as spec;
ghost use Rattle.sy_fleet.specs.internal.Tests as plan;

use crate::fleet::Fleet;
use crate::inputs::assume_input;
use crate::objects::object;
use crate::older::{again, destined, directive, filter, selector, users};
use crate::plan_text::PlanText;
use crate::queues::{QueueKind, append_queue, is_on_disk};
use crate::rulesets::{number_of_name, rulesets_of};
use crate::statements::{Assumption, Sort, Statement, statement_end};
use crate::tests::is_readable;
use crate::walk::{Open, Owner, Settings, Walk};
use std::alloc::{AllocError, Global};
use sy_fleet_text::scan::part;
use sy_fleet_text::words::same_word;
use sy_fleet_text::{Kind, Mark, Object, Piece, Word};

// The bytes behind the first piece of a statement and before its last.
fn between<'a>(walk: &Walk<'a>, first: usize, from: usize) -> &'a [u8] {
    let start = match walk.pieces.get(first) {
        Some(piece) => piece.end,
        None => 0,
    };
    let end = match walk.pieces.get(from.saturating_sub(1)) {
        Some(piece) => piece.start,
        None => 0,
    };
    part(walk.text, start, end)
}

// Whether a number of the class may be compared with a text, which rsyslogd does byte by byte.
fn compares_as_text(walk: &Walk<'_>, first: usize, from: usize) -> bool {
    let mut has_number = false;
    let mut has_text = false;
    for piece in walk.pieces.get(first..from).unwrap_or(&[]) {
        let text = part(walk.text, piece.start, piece.end);
        has_number = has_number
            || same_word(b"$syslogfacility", text)
            || same_word(b"$syslogseverity", text);
        has_text = has_text || piece.kind == Kind::Quoted;
    }
    has_number && has_text
}

// What a test is in the plan: as it stands where the profile reads it, else left open.
fn planned_test(walk: &mut Walk<'_>, own: &[u8], is_own: bool) -> Result<Vec<u8>, AllocError>
    ensures test { IfOk result (λ test. plan.IsTest own.now test.items) }
    ensures same { OnOk result (plan.Adds [] walk.old walk.new) }
{
    if !is_own || !is_readable(walk.alloc, own)? {
        return walk.open_test();
    }
    let mut test = Vec::new(walk.alloc);
    test.extend_from_slice(own)?;
    Ok(test)
}

// Begins what is done where a test of this text holds.
fn begin_planned(walk: &mut Walk<'_>, own: &[u8], is_own: bool) -> Result<(), AllocError>
    ensures { OnOk result (plan.BeginsTest own.now walk.old walk.new) }
{
    let test = planned_test(walk, own, is_own)?;
    walk.begin_test(test.as_slice(), Owner::Test)
}

// A test.
fn test(walk: &mut Walk<'_>, first: usize, from: usize) -> Result<Sort, AllocError>
    ensures { IfOk result (λ sort. spec.is_planned sort ≡ true) }
{
    let is_own = !compares_as_text(walk, first, from);
    begin_planned(walk, between(walk, first, from), is_own)?;
    Ok(Sort::Planned)
}

// What is done for each of several things, which may be none.
fn each(walk: &mut Walk<'_>) -> Result<Sort, AllocError>
    ensures planned { IfOk result (λ sort. spec.is_planned sort ≡ true) }
    ensures begins { OnOk result (plan.BeginsOpen walk.old walk.new) }
{
    let open = walk.open_test()?;
    walk.begin_test(open.as_slice(), Owner::Other)?;
    Ok(Sort::Planned)
}

// The text of a stop where a test holds.
fn stop_text(alloc: Global, test: &[u8]) -> Result<Vec<u8>, AllocError>
    ensures { IfOk result (λ text. text.items ≡ plan.stop_text test.now) }
{
    let mut text = Vec::new(alloc);
    text.extend_from_slice(b"if ")?;
    text.extend_from_slice(test)?;
    text.extend_from_slice(b" then stop\n")?;
    Ok(text)
}

// A call that may end in a `stop`.
fn unknown_call(walk: &mut Walk<'_>) -> Result<(), AllocError>
    ensures { OnOk result (plan.MayStop walk.old walk.new) }
{
    let open = walk.open_test()?;
    let text = stop_text(walk.alloc, open.as_slice())?;
    walk.push(text.as_slice())?;
    Ok(())
}

// A call of a ruleset.
fn call(walk: &mut Walk<'_>, from: usize) -> Result<Sort, AllocError>
    ensures { IfOk result (λ sort. spec.is_counted sort ≡ true) }
{
    let name = match walk.pieces.get(from.saturating_sub(1)) {
        Some(piece) => part(walk.text, piece.start, piece.end),
        None => b"",
    };
    let number = number_of_name(walk.text, walk.rulesets.as_slice(), name);
    let sort = match number {
        Some(number) if number > 0 => {
            walk.push(b"call r")?;
            let ruleset = walk.ruleset;
            walk.out.push_number(ruleset, number as u64)?;
            walk.push(b"\n")?;
            Sort::Planned
        }
        _ => {
            unknown_call(walk)?;
            Sort::Assumed(Assumption::Indirect)
        }
    };
    walk.complete(from)?;
    Ok(sort)
}

fn otherwise(walk: &mut Walk<'_>) -> Result<Sort, AllocError>
    ensures { IfOk result (λ sort. spec.is_planned sort ≡ true) }
{
    walk.push(b"else {\n")?;
    walk.open.push(Open::Single(Owner::Other))?;
    Ok(Sort::Planned)
}

fn stop(walk: &mut Walk<'_>, at: usize, from: usize) -> Result<Sort, AllocError>
    ensures { IfOk result (λ sort. spec.is_planned sort ≡ true) }
{
    walk.push(b"stop\n")?;
    walk.stops.push(at)?;
    walk.complete(from)?;
    Ok(Sort::Planned)
}

fn word(
    walk: &mut Walk<'_>,
    word: Word,
    at: usize,
    first: usize,
    from: usize,
) -> Result<Sort, AllocError>
    ensures { IfOk result (λ sort. spec.word_may word sort ≡ true) }
{
    match word {
        Word::If => test(walk, first, from),
        Word::Else => otherwise(walk),
        Word::Foreach => each(walk),
        Word::Call => call(walk, from),
        Word::Stop => stop(walk, at, from),
        Word::CallIndirect => {
            unknown_call(walk)?;
            walk.complete(from)?;
            Ok(Sort::Assumed(Assumption::Indirect))
        }
        Word::Set | Word::Unset | Word::Reset | Word::Continue => {
            walk.complete(from)?;
            Ok(Sort::WithoutEffect)
        }
        Word::Then | Word::Do => Ok(Sort::Planned),
    }
}

// An object, which may be a statement.
fn object_at(
    walk: &mut Walk<'_>,
    kind: Object,
    first: usize,
    from: usize,
) -> Result<Sort, AllocError>
    ensures { IfOk result (λ sort. spec.object_may kind sort ≡ true) }
{
    let sort = object(walk, kind, first, from)?;
    match kind {
        Object::Action | Object::Include | Object::ReloadLookupTable => walk.complete(from)?,
        _ => {}
    }
    Ok(sort)
}

fn mark(walk: &mut Walk<'_>, mark: Mark, from: usize) -> Result<Sort, AllocError>
    ensures { IfOk result (λ sort. spec.is_planned sort ≡ true) }
{
    match mark {
        Mark::BlockOpening => walk.begin_block()?,
        Mark::BlockClosing => walk.end_block(from)?,
        Mark::And => return again(walk),
        _ => {}
    }
    Ok(Sort::Planned)
}

// What the statement comes to whose pieces are from one place up to another.
fn statement(
    walk: &mut Walk<'_>,
    piece: Piece,
    first: usize,
    from: usize,
) -> Result<Sort, AllocError>
    ensures { IfOk result (λ sort. spec.may_become piece.kind sort ≡ true) }
{
    match piece.kind {
        Kind::Blank | Kind::Comment | Kind::Continuation => Ok(Sort::Layout),
        Kind::Opening(kind) => object_at(walk, kind, first, from),
        Kind::Word(it) => word(walk, it, piece.start, first, from),
        Kind::Mark(it) => mark(walk, it, from),
        Kind::Directive => directive(walk, piece),
        Kind::Selector => selector(walk, piece),
        Kind::Filter => filter(walk),
        // (rsyslogd reads these blocks no more: what stands in them holds for all messages)
        Kind::Program | Kind::Host => Ok(Sort::WithoutEffect),
        Kind::Destination => destined(walk, piece, from),
        Kind::Users => users(walk, from),
        _ => Ok(Sort::Assumed(Assumption::Unknown)),
    }
}

// Takes for granted what a statement asks for.
fn note_sort(walk: &mut Walk<'_>, at: usize, sort: Sort) -> Result<(), AllocError> {
    match sort {
        Sort::Assumed(assumption) => walk.note(at, assumption),
        _ => Ok(()),
    }
}

fn push_statement(statements: &mut Vec<Statement>, it: Statement) -> Result<(), AllocError>
    ensures { OnOk result (statements.new.items ≡ statements.old.items ++ it ∷ []) }
{
    statements.push(it)?;
    Ok(())
}

// Reads all statements.
fn read_all(walk: &mut Walk<'_>) -> Result<Vec<Statement>, AllocError>
    ensures { IfOk result (λ all. spec.AreStatements walk.old.pieces.now all.items) }
{
    let mut statements = Vec::new(walk.alloc);
    let pieces = walk.pieces;
    let mut first = 0;
    while first < pieces.len() {
        let end = statement_end(pieces, first);
        let piece = pieces[first];
        let sort = statement(walk, piece, first, end)?;
        note_sort(walk, piece.start, sort)?;
        push_statement(&mut statements, Statement { first, end, sort })?;
        first = end;
    }
    Ok(statements)
}

fn walk_of<'a>(alloc: Global, text: &'a [u8], pieces: &'a [Piece]) -> Result<Walk<'a>, AllocError>
    ensures { IfOk result (λ walk. walk.pieces.now ≡ pieces.now) }
{
    let rulesets = rulesets_of(alloc, text, pieces)?;
    let out = PlanText::new(alloc, rulesets.len())?;
    Ok(Walk {
        alloc,
        text,
        pieces,
        rulesets,
        out,
        ruleset: 0,
        outer: 0,
        open: Vec::new(alloc),
        last: Vec::new(alloc),
        tests: 0,
        settings: Settings {
            retries: None,
            queue: Vec::new(alloc),
            is_conditional: false,
            bounds: Vec::new(alloc),
        },
        bounds: Vec::new(alloc),
        main_params: Vec::new(alloc),
        main_queue: None,
        stops: Vec::new(alloc),
        reduction: None,
        limits: None,
        inputs: Vec::new(alloc),
        actions: Vec::new(alloc),
        notes: Vec::new(alloc),
    })
}

// The plan with its main queue.
fn finish(walk: Walk<'_>, statements: Vec<Statement>) -> Result<Fleet, AllocError>
    ensures { IfOk result (λ fleet. fleet.statements.items ≡ statements.items) }
{
    let mut walk = walk;
    let mut queue = Vec::new(walk.alloc);
    let kind = match walk.main_queue {
        Some(_) => QueueKind::Object,
        None => QueueKind::Main,
    };
    append_queue(&mut queue, walk.text, walk.main_params.as_slice(), kind)?;
    walk.out.set_main_queue(queue);
    let Walk {
        out,
        rulesets,
        main_queue,
        stops,
        reduction,
        limits,
        inputs,
        actions,
        notes,
        ..
    } = walk;
    Ok(Fleet {
        plan: out.finish()?,
        inputs,
        actions,
        rulesets,
        main_queue,
        stops,
        reduction,
        limits,
        notes,
        statements,
    })
}

/// What a configuration whose pieces these are comes to.
pub fn fleet_of(alloc: Global, text: &[u8], pieces: &[Piece]) -> Result<Fleet, AllocError>
    ensures { IfOk result (λ fleet. spec.AreStatements pieces.now fleet.statements.items) }
{
    let mut walk = walk_of(alloc, text, pieces)?;
    let statements = read_all(&mut walk)?;
    if walk.inputs.is_empty() {
        assume_input(&mut walk)?;
    }
    if !is_on_disk(text, walk.main_params.as_slice()) {
        let at = walk.main_queue.unwrap_or(0);
        walk.note(at, Assumption::Memory)?;
    }
    finish(walk, statements)
}
