//! The sizes of lists, whose calls are not expanded in memory, and the lists that are too large.

ghost use Rattle.std.specs.Prelude.{◌≡◌, ◌<◌, List, [], map, IfOk, OnOk, IfErr};
ghost use Rattle.sy_select.specs.declared.condition.Test.{Test};
ghost use Rattle.sy_select.specs.Truth.{Formula};
ghost use Rattle.sy_rules.specs.Limits as limits;
ghost use Rattle.sy_rules.specs.Faults.{IsAnswered};
ghost use Rattle.sy_rules.specs.lists.Lines as lines;
ghost use Rattle.sy_rules.specs.check.ScriptFaults.{faults_of_lists};
ghost use Rattle.sy_rules.specs.internal.TableSizes as spec;
ghost use Rattle.sy_rules.specs.internal.Tables.{lines_of_tables};

use crate::fault::{FaultCode, PlanFault};
use crate::limits::{CALL_DEPTH, OCCURRENCES, STATEMENTS};
use crate::lists::statement::Statement;
use std::alloc::{AllocError, Global};
use sy_script::tree::Span;

/// The head of a list: the name of its ruleset, and the place of the word `ruleset`.
#[derive(Clone, Copy)]
pub struct Head<'s> {
    pub name: &'s [u8],
    pub span: Span,
}

/// The size of a list, as far as calls are expanded.
#[derive(Clone, Copy)]
pub struct Size {
    /// whether there are deeper calls
    pub deeper: bool,
    /// how many statements; 65,537 stands for more
    pub statements: u32,
    /// how many occurrences; 65 stands for more
    pub occurrences: u32,
}

/// A list of no statements.
const EMPTY: Size = Size {
    deeper: false,
    statements: 0,
    occurrences: 0,
};

/// A list that may not be called any more.
const TOO_DEEP: Size = Size {
    deeper: true,
    statements: 0,
    occurrences: 0,
};

fn size_at(sizes: &[Size], outside: Size, list: usize) -> Size
    ensures { result ≡ spec.size_at sizes.now outside list }
{
    match sizes.get(list) {
        Some(size) => *size,
        None => outside,
    }
}

// A number, or the one above its limit for a larger one. Sums are cut at 2^32 - 1, which is above every limit.
fn up_to(limit: u32, number: u32) -> u32
    requires { limit < 65537 }
    ensures { result ≡ spec.up_to limit number }
{
    number.min(limit + 1)
}

fn plus(first: Size, second: Size) -> Size
    ensures { result ≡ spec.plus first second }
{
    Size {
        deeper: first.deeper || second.deeper,
        statements: up_to(
            STATEMENTS,
            first.statements.saturating_add(second.statements),
        ),
        occurrences: up_to(
            OCCURRENCES,
            first.occurrences.saturating_add(second.occurrences),
        ),
    }
}

fn size_of_statement(statement: Statement, inner: &[Size], outside: Size) -> Size
    ensures { result ≡ spec.size_of_statement (spec.size_at inner.now outside) statement }
{
    match statement {
        Statement::Run(_, _) | Statement::Post(_, _) => Size {
            deeper: false,
            statements: 1,
            occurrences: 1,
        },
        Statement::Call(list, _) => {
            let called = size_at(inner, outside, list as usize);
            Size {
                deeper: called.deeper,
                statements: up_to(STATEMENTS, called.statements.saturating_add(1)),
                occurrences: up_to(OCCURRENCES, called.occurrences),
            }
        }
        Statement::Stop | Statement::If(_, _, _) => Size {
            deeper: false,
            statements: 1,
            occurrences: 0,
        },
    }
}

// The size of a table, where the called lists have these sizes.
fn size_of(statements: &[Statement], inner: &[Size], outside: Size) -> Size
    ensures { result ≡ spec.size_of (spec.size_at inner.now outside) statements.now }
{
    let mut size = EMPTY;
    let mut rest = statements;
    while let [statement, after @ ..] = rest {
        size = plus(size, size_of_statement(*statement, inner, outside));
        rest = after;
    }
    size
}

// The sizes of lists one call deeper than those of the lists that they call.
fn round(
    alloc: Global,
    tables: &[Vec<Statement>],
    inner: &[Size],
    outside: Size,
) -> Result<Vec<Size>, AllocError>
    ensures { IfOk result (λ sizes. sizes.items ≡ map (spec.size_of (spec.size_at inner.now outside))
        (map (λ table. table.items) tables.now)) }
{
    let mut sizes = Vec::new(alloc);
    let mut rest = tables;
    while let [table, after @ ..] = rest {
        sizes.push(size_of(table.as_slice(), inner, outside))?;
        rest = after;
    }
    Ok(sizes)
}

// The sizes of lists whose calls are expanded as deep as they may lie in one another, in time linear in the tables.
fn sizes_of(alloc: Global, tables: &[Vec<Statement>]) -> Result<Vec<Size>, AllocError>
    ensures { IfOk result (λ sizes. spec.AreSizes (map (λ table. table.items) tables.now) limits.CALL_DEPTH
        sizes.items) }
{
    let mut sizes = round(alloc, tables, &[], TOO_DEEP)?;
    for _depth in 0..CALL_DEPTH {
        sizes = round(alloc, tables, sizes.as_slice(), EMPTY)?;
    }
    Ok(sizes)
}

// Refuses a list for its first fault.
fn check_size(alloc: Global, size: Size, head: &Head<'_>) -> Result<(), PlanFault>
    ensures ok { OnOk result (spec.size_faults size (spec.head head.now) ≡ []) }
    ensures err { IfErr result (λ f. IsAnswered (spec.size_faults size (spec.head head.now)) f) }
{
    let code = if size.deeper {
        FaultCode::CallDepth
    } else if size.statements > STATEMENTS || size.occurrences > OCCURRENCES {
        FaultCode::TooManyDeeds
    } else {
        return Ok(());
    };
    Err(PlanFault::new(alloc, code, head.name, head.span))
}

// Refuses the first of the lists, which have these heads, that has a fault.
fn check_sizes(alloc: Global, sizes: &[Size], heads: &[Head<'_>]) -> Result<(), PlanFault>
    ensures ok { OnOk result (spec.faults_by sizes.now 0 (map spec.head heads.now) ≡ []) }
    ensures err { IfErr result (λ f. IsAnswered (spec.faults_by sizes.now 0 (map spec.head heads.now)) f) }
{
    for (list, head) in heads.iter().enumerate() {
        check_size(alloc, size_at(sizes, EMPTY, list), head)?;
    }
    Ok(())
}

/// The sizes of lists that have these tables and, as far as they have names, these heads. Refuses the first list whose calls lie too deep in
/// one another, or that has too many statements or occurrences. It takes memory for the sizes, and time linear in the tables.
pub fn check_lists(
    alloc: Global,
    tables: &[Vec<Statement>],
    heads: &[Head<'_>],
) -> Result<Vec<Size>, PlanFault>
    ensures sizes { IfOk result (λ sizes. spec.AreSizes (map (λ table. table.items) tables.now) limits.CALL_DEPTH
        sizes.items) }
    ensures ok { OnOk result ((tests : List (Formula Test))
        → faults_of_lists (lines_of_tables tests (map (λ table. table.items) tables.now)) 0
        (map spec.head heads.now) ≡ []) }
    ensures err { IfErr result (λ f. (tests : List (Formula Test))
        → IsAnswered (faults_of_lists (lines_of_tables tests (map (λ table. table.items) tables.now)) 0
        (map spec.head heads.now)) f) }
{
    let Ok(sizes) = sizes_of(alloc, tables) else {
        return Err(PlanFault::no_memory(alloc));
    };
    check_sizes(alloc, sizes.as_slice(), heads)?;
    Ok(sizes)
}
