//! The objects and statements of a script, one behind the other in the order of the text.

use std::alloc::{AllocError, Global};
use sy_script::tree::{Block, ExprTree, Object, Param, Ruleset, Script, Stmt, Top, Word};

/// An object or a statement. Behind a ruleset stand its statements, and behind an `if` those of its two blocks.
#[derive(Clone, Copy)]
pub enum Row<'s> {
    Object(&'s Object),
    /// How many rows its statements have.
    Ruleset(&'s Ruleset, usize),
    /// The place of its first word, and its parameters.
    Action(usize, &'s [Param]),
    /// The place of its word.
    Stop(usize),
    /// The name of the ruleset that is called.
    Call(&'s Word),
    /// The test, how many rows its block has, and how many what `else` says has.
    If(&'s ExprTree, usize, usize),
}

/// The statements of a list: the rows from a number up to another, without objects and rulesets.
#[derive(Clone, Copy)]
pub struct Body<'s> {
    /// The ruleset's name, empty for the default one.
    pub name: &'s [u8],
    pub start: usize,
    pub end: usize,
}

/// All of a script. The first body is that of the default ruleset, then come those of rulesets in their order.
#[derive(Drop)]
pub struct Statements<'s> {
    pub rows: Vec<Row<'s>>,
    pub bodies: Vec<Body<'s>>,
}

fn set_row<'s>(rows: &mut Vec<Row<'s>>, at: usize, row: Row<'s>) {
    if let Some(found) = rows.get_mut(at) {
        *found = row;
    }
}

// How many rows there are from a number up to another, without the first.
fn rows_behind(at: usize, end: usize) -> usize {
    end.saturating_sub(at).saturating_sub(1)
}

fn push_row<'s>(rows: &mut Vec<Row<'s>>, row: Row<'s>) -> Result<(), AllocError> {
    rows.push(row)?;
    Ok(())
}

#[cycle(statements)]
fn append_stmt<'s>(rows: &mut Vec<Row<'s>>, stmt: &'s Stmt) -> Result<(), AllocError> {
    match stmt {
        Stmt::Action(span, params) => push_row(rows, Row::Action(span.start, params.as_slice())),
        Stmt::Call(name) => push_row(rows, Row::Call(name)),
        Stmt::Stop(span) => push_row(rows, Row::Stop(span.start)),
        Stmt::If(test, done, otherwise) => {
            let at = rows.len();
            push_row(rows, Row::If(test, 0, 0))?;
            append_block(rows, done)?;
            let middle = rows.len();
            if let Some(otherwise) = otherwise {
                append_block(rows, otherwise)?;
            }
            let second = rows.len().saturating_sub(middle);
            set_row(rows, at, Row::If(test, rows_behind(at, middle), second));
            Ok(())
        }
    }
}

#[cycle(statements)]
fn append_block<'s>(rows: &mut Vec<Row<'s>>, block: &'s Block) -> Result<(), AllocError> {
    match block {
        Block::Single(stmt) => append_stmt(rows, stmt.get()),
        Block::Braced(body) => append_body(rows, body.as_slice()),
    }
}

#[cycle(statements)]
fn append_body<'s>(rows: &mut Vec<Row<'s>>, body: &'s [Stmt]) -> Result<(), AllocError> {
    for stmt in body {
        append_stmt(rows, stmt)?;
    }
    Ok(())
}

fn append_ruleset<'s>(rows: &mut Vec<Row<'s>>, ruleset: &'s Ruleset) -> Result<(), AllocError> {
    let at = rows.len();
    push_row(rows, Row::Ruleset(ruleset, 0))?;
    append_body(rows, ruleset.body.as_slice())?;
    let end = rows.len();
    set_row(rows, at, Row::Ruleset(ruleset, rows_behind(at, end)));
    Ok(())
}

fn append_top<'s>(rows: &mut Vec<Row<'s>>, top: &'s Top) -> Result<(), AllocError> {
    match top {
        Top::Object(object) => push_row(rows, Row::Object(object)),
        Top::Ruleset(ruleset) => append_ruleset(rows, ruleset),
        Top::Stmt(stmt) => append_stmt(rows, stmt),
    }
}

/// The objects and statements of a script. It goes as deep as the script nests.
pub fn rows_of<'s>(alloc: Global, script: &'s Script) -> Result<Vec<Row<'s>>, AllocError> {
    let mut rows = Vec::new(alloc);
    for top in script.tops.as_slice() {
        append_top(&mut rows, top)?;
    }
    Ok(rows)
}

fn name_of(ruleset: &Ruleset) -> &[u8] {
    for param in ruleset.params.as_slice() {
        if param.name.text.as_slice().eq_ignore_ascii_case(b"name") {
            return param.value.bytes.as_slice();
        }
    }
    &[]
}

// The lists of these rows. Statements outside every ruleset are all those that no other list has.
fn bodies_of<'s>(alloc: Global, rows: &[Row<'s>]) -> Result<Vec<Body<'s>>, AllocError> {
    let mut bodies = Vec::new(alloc);
    bodies.push(Body {
        name: &[],
        start: 0,
        end: rows.len(),
    })?;
    let mut start: usize = 0;
    for row in rows {
        start = start.saturating_add(1);
        if let Row::Ruleset(ruleset, count) = *row {
            bodies.push(Body {
                name: name_of(ruleset),
                start,
                end: start.saturating_add(count),
            })?;
        }
    }
    Ok(bodies)
}

/// The rows of a script, and its lists.
pub fn statements_of<'s>(alloc: Global, script: &'s Script) -> Result<Statements<'s>, AllocError> {
    let rows = rows_of(alloc, script)?;
    let bodies = bodies_of(alloc, rows.as_slice())?;
    Ok(Statements { rows, bodies })
}

/// The place of a test's first word.
pub fn place_of_test(test: &ExprTree) -> usize {
    let mut rest = test;
    for _ in 0..64 {
        match rest {
            ExprTree::Or(parts) | ExprTree::And(parts) => match parts.get(0) {
                Some(first) => rest = first,
                None => return 0,
            },
            ExprTree::Not(inner) => rest = inner.get(),
            ExprTree::Group(inner) => rest = inner.get(),
            ExprTree::Prifilt(text) => return text.span.start,
            ExprTree::Compare(comparison) => return comparison.property.span.start,
        }
    }
    0
}
