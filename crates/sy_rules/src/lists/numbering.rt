//! The numbers of the occurrences of lists.

ghost use Rattle.std.specs.Prelude.{◌≡◌, ℕ, ◌≤◌, List, map, IfOk};
ghost use Rattle.sy_select.specs.declared.condition.Test.{Test};
ghost use Rattle.sy_select.specs.Truth.{Formula};
ghost use Rattle.sy_rules.specs.lists.Lines.{body_of};
ghost use Rattle.sy_rules.specs.internal.Numbering as spec;
ghost use Rattle.sy_rules.specs.lists.Body as body;
ghost use Rattle.sy_rules.specs.internal.Tables.{AreNumbered, lines_of_tables, table_at};
ghost use Rattle.sy_rules.specs.internal.TableSizes.{listed_in, occurrences_in};

use crate::limits::LISTS_DEEP;
use crate::lists::occurrence::Occurrence;
use crate::lists::sizes::Size;
use crate::lists::statement::Statement;
use std::alloc::{AllocError, Global};
use sy_script::Items;

fn count_in(sizes: &[Size], list: u32) -> u32
    ensures { result ≡ spec.count_in sizes.now list }
{
    match sizes.get(list as usize) {
        Some(size) => size.occurrences,
        None => 0,
    }
}

fn numbered_statement(statement: Statement, number: u32) -> Statement
    ensures { result ≡ spec.numbered_statement number statement }
{
    match statement {
        Statement::Run(action, _) => Statement::Run(action, number),
        Statement::Post(list, _) => Statement::Post(list, number),
        Statement::Call(list, _) => Statement::Call(list, number),
        Statement::Stop => Statement::Stop,
        Statement::If(test, done, otherwise) => Statement::If(test, done, otherwise),
    }
}

fn count_of_statement(statement: Statement, sizes: &[Size]) -> u32
    ensures { result ≡ spec.count_of_statement (spec.count_in sizes.now) statement }
{
    match statement {
        Statement::Run(_, _) | Statement::Post(_, _) => 1,
        Statement::Call(list, _) => count_in(sizes, list),
        Statement::Stop | Statement::If(_, _, _) => 0,
    }
}

// A table whose occurrences are numbered from 0, where lists have these sizes.
fn numbered(
    alloc: Global,
    statements: &[Statement],
    sizes: &[Size],
) -> Result<Items<Statement>, AllocError>
    requires { occurrences_in (spec.count_in sizes.now) statements.now ≤ 64 }
    ensures { IfOk result (λ table. table ≡ spec.numbered (spec.count_in sizes.now) 0 statements.now) }
{
    let mut table = Items::new(alloc);
    let mut number = 0;
    let mut rest = statements;
    while let [statement, after @ ..] = rest {
        table.push(numbered_statement(*statement, number))?;
        number += count_of_statement(*statement, sizes);
        rest = after;
    }
    Ok(table)
}

// All tables by themselves.
fn all_numbered(
    alloc: Global,
    tables: &[Vec<Statement>],
    sizes: &[Size],
) -> Result<Vec<Items<Statement>>, AllocError>
    requires { spec.AreFew (spec.count_in sizes.now) (map (λ table. table.items) tables.now) }
    ensures { IfOk result (λ all. all.items ≡ map (spec.numbered (spec.count_in sizes.now) 0)
        (map (λ table. table.items) tables.now)) }
{
    let mut all = Vec::new(alloc);
    let mut rest = tables;
    while let [table, after @ ..] = rest {
        all.push(numbered(alloc, table.as_slice(), sizes)?)?;
        rest = after;
    }
    Ok(all)
}

/// The tables of lists that have these sizes, each with its occurrences numbered from 0. It takes time linear in the tables.
pub fn number_lists(
    alloc: Global,
    tables: &[Vec<Statement>],
    sizes: &[Size],
) -> Result<Vec<Items<Statement>>, AllocError>
    requires { spec.AreFew (spec.count_in sizes.now) (map (λ table. table.items) tables.now) }
    ensures numbered { IfOk result (λ numbered. (list : ℕ) → AreNumbered (spec.count_in sizes.now) 0
        (table_at numbered.items list)) }
    ensures same { IfOk result (λ numbered. (tests : List (Formula Test)) → lines_of_tables tests numbered.items
        ≡ lines_of_tables tests (map (λ table. table.items) tables.now)) }
{
    all_numbered(alloc, tables, sizes)
}

// The occurrences of the list of this number, none where there is no such list.
fn listed_at(lists: &[Vec<Occurrence>], list: u32) -> &[Occurrence]
    ensures { result.now ≡ spec.listed_at (map (λ l. l.items) lists.now) list }
{
    match lists.get(list as usize) {
        Some(found) => found.as_slice(),
        None => &[],
    }
}

// The occurrences of a table, those of a called list in its place.
fn listed_in(
    alloc: Global,
    statements: &[Statement],
    inner: &[Vec<Occurrence>],
) -> Result<Vec<Occurrence>, AllocError>
    ensures { IfOk result (λ found. found.items ≡ listed_in (spec.listed_at (map (λ l. l.items) inner.now))
        statements.now) }
{
    let mut found = Vec::new(alloc);
    let mut rest = statements;
    while let [statement, after @ ..] = rest {
        match *statement {
            Statement::Run(action, _) => found.push(Occurrence::Run(action))?,
            Statement::Post(list, _) => found.push(Occurrence::Post(list))?,
            Statement::Call(list, _) => found.extend_from_slice(listed_at(inner, list))?,
            Statement::Stop | Statement::If(_, _, _) => {}
        }
        rest = after;
    }
    Ok(found)
}

// The occurrences of lists one call deeper than those of the lists that they call.
fn listed_round(
    alloc: Global,
    tables: &[Items<Statement>],
    inner: &[Vec<Occurrence>],
) -> Result<Vec<Vec<Occurrence>>, AllocError>
    ensures { IfOk result (λ found. map (λ l. l.items) found.items
        ≡ map (listed_in (spec.listed_at (map (λ l. l.items) inner.now))) tables.now) }
{
    let mut found = Vec::new(alloc);
    let mut rest = tables;
    while let [table, after @ ..] = rest {
        found.push(listed_in(alloc, table.as_slice(), inner)?)?;
        rest = after;
    }
    Ok(found)
}

/// The occurrences of all lists, each in the order of its expanded text. Each list is looked at once for each depth of calls, and not once for
/// each call, so that it takes time linear in the tables.
pub fn list_occurrences(
    alloc: Global,
    tables: &[Items<Statement>],
) -> Result<Vec<Vec<Occurrence>>, AllocError>
    ensures { IfOk result (λ found. (tests : List (Formula Test)) (list : ℕ)
        → spec.listed_at (map (λ l. l.items) found.items) list
        ≡ body.occurrences (body_of (lines_of_tables tests tables.now) list)) }
{
    let mut found = Vec::new(alloc);
    for _depth in 0..LISTS_DEEP {
        found = listed_round(alloc, tables, found.as_slice())?;
    }
    Ok(found)
}

/// The occurrences of one list among those of all.
pub fn occurrences(
    alloc: Global,
    all: &[Vec<Occurrence>],
    list: u32,
) -> Result<Items<Occurrence>, AllocError>
    ensures { IfOk result (λ found. found ≡ spec.listed_at (map (λ l. l.items) all.now) list) }
{
    Items::from_slice(alloc, listed_at(all, list))
}
