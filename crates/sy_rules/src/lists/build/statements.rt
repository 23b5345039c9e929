//! Puts statements into a table.
ghost use Rattle.std.specs.Prelude.{◌≡◌, ◌+◌, ◌-◌, ◌<◌, ◌≤◌, ◌++◌, ◌∷◌, [], IfOk, OnOk, length, set};
ghost use Rattle.sy_rules.specs.parts.Plans.{names_of, place_of};
ghost use Rattle.sy_rules.specs.internal.TextTables as spec;
ghost use Rattle.sy_rules.specs.lists.Texts.{front_of_body, front_of_stmt};
ghost use Rattle.sy_rules.specs.internal.Texts.{front_of_block};

use super::count::{Counts, as_u32, next};
use super::scope::{Scope, call_statement};
use crate::lists::statement::Statement;
use std::alloc::AllocError;
use sy_script::tree::{Block, Stmt};

// An `if` whose blocks aren't closed: its test, and where its statement stands.
#[derive(Clone, Copy)]
struct Opened {
    test: u32,
    at: usize,
}

fn push_action(
    actions: &[Statement],
    counts: &mut Counts,
    table: &mut Vec<Statement>,
) -> Result<(), AllocError>
    ensures table { OnOk result (table.new.items ≡ table.old.items ++ spec.action_statement actions.now
        counts.old.actions ∷ []) }
    ensures actions { OnOk result (counts.new.actions ≡ counts.old.actions + 1) }
    ensures tests { OnOk result (counts.new.tests ≡ counts.old.tests) }
{
    let statement = match actions.get(counts.actions as usize) {
        Some(statement) => *statement,
        None => Statement::Run(counts.actions, 0),
    };
    table.push(statement)?;
    counts.actions = next(counts.actions)?;
    Ok(())
}

fn push_call(scope: &Scope<'_>, table: &mut Vec<Statement>, name: &[u8]) -> Result<(), AllocError>
    ensures { OnOk result (table.new.items ≡ table.old.items
        ++ spec.in_front (spec.call_statement scope.now.rulesets.now
        (place_of name.now (names_of scope.now.rulesets.now))) []) }
{
    match call_statement(scope.rulesets, name)? {
        Some(statement) => {
            table.push(statement)?;
            Ok(())
        }
        None => Ok(()),
    }
}

// Puts the statement of an `if` whose sizes aren't known yet.
fn open_if(counts: &mut Counts, table: &mut Vec<Statement>) -> Result<Opened, AllocError>
    ensures at { IfOk result (λ opened. opened.at ≡ length table.old.items) }
    ensures test { IfOk result (λ opened. opened.test ≡ counts.old.tests) }
    ensures table { OnOk result (table.new.items ≡ table.old.items ++ Statement.If counts.old.tests 0 0 ∷ []) }
    ensures actions { OnOk result (counts.new.actions ≡ counts.old.actions) }
    ensures tests { OnOk result (counts.new.tests ≡ counts.old.tests + 1) }
{
    let opened = Opened {
        test: counts.tests,
        at: table.len(),
    };
    table.push(Statement::If(counts.tests, 0, 0))?;
    counts.tests = next(counts.tests)?;
    Ok(opened)
}

// Sets the sizes of an `if` whose second block begins at `middle`, and ends with the table.
fn close_if(table: &mut Vec<Statement>, opened: Opened, middle: usize) -> Result<(), AllocError>
    requires first { opened.at < middle }
    requires second { middle ≤ length table.old.items }
    ensures { OnOk result (table.new.items ≡ set table.old.items opened.at
        (Statement.If opened.test (middle - (opened.at + 1)) (length table.old.items - middle))) }
{
    let done = as_u32(middle - (opened.at + 1))?;
    let otherwise = as_u32(table.len() - middle)?;
    table[opened.at] = Statement::If(opened.test, done, otherwise);
    Ok(())
}

/// Puts a statement after a table. It goes as deep as the statement nests.
#[cycle(statements)]
pub fn push_stmt(
    scope: &Scope<'_>,
    counts: &mut Counts,
    table: &mut Vec<Statement>,
    stmt: &Stmt,
) -> Result<(), AllocError>
    ensures { OnOk result (spec.IsPush scope.now.rulesets.now scope.now.actions.now (front_of_stmt stmt.now) counts.old
        counts.new table.old.items table.new.items) }
{
    match stmt {
        Stmt::Action(_, _) => push_action(scope.actions, counts, table),
        Stmt::Call(name) => push_call(scope, table, name.text.as_slice()),
        Stmt::Stop(_) => {
            table.push(Statement::Stop)?;
            Ok(())
        }
        Stmt::If(_, done, otherwise) => {
            let opened = open_if(counts, table)?;
            push_block(scope, counts, table, done)?;
            let middle = table.len();
            push_otherwise(scope, counts, table, otherwise)?;
            close_if(table, opened, middle)
        }
    }
}

#[cycle(statements)]
fn push_otherwise(
    scope: &Scope<'_>,
    counts: &mut Counts,
    table: &mut Vec<Statement>,
    otherwise: &Option<Block>,
) -> Result<(), AllocError>
    ensures { OnOk result (spec.IsPush scope.now.rulesets.now scope.now.actions.now
        (spec.front_of_otherwise otherwise.now)
        counts.old counts.new table.old.items table.new.items) }
{
    match otherwise {
        Some(block) => push_block(scope, counts, table, block),
        None => Ok(()),
    }
}

#[cycle(statements)]
fn push_block(
    scope: &Scope<'_>,
    counts: &mut Counts,
    table: &mut Vec<Statement>,
    block: &Block,
) -> Result<(), AllocError>
    ensures { OnOk result (spec.IsPush scope.now.rulesets.now scope.now.actions.now (front_of_block block.now) counts.old
        counts.new table.old.items table.new.items) }
{
    match block {
        Block::Single(stmt) => push_stmt(scope, counts, table, stmt.get()),
        Block::Braced(body) => push_body(scope, counts, table, body.as_slice()),
    }
}

/// Puts statements after a table, in their order.
#[cycle(statements)]
pub fn push_body(
    scope: &Scope<'_>,
    counts: &mut Counts,
    table: &mut Vec<Statement>,
    body: &[Stmt],
) -> Result<(), AllocError>
    ensures { OnOk result (spec.IsPush scope.now.rulesets.now scope.now.actions.now (front_of_body body.now) counts.old
        counts.new table.old.items table.new.items) }
{
    for stmt in body {
        push_stmt(scope, counts, table, stmt)?;
    }
    Ok(())
}
