//! What called lists do, worked out once for each column of classes.

ghost use Rattle.std.specs.Prelude.{◌≡◌, IfOk, OnOk, List};
ghost use Rattle.sy_rules.specs.internal.FlowWalk.{AreKnownRows, IsKnownRow};
ghost use Rattle.sy_rules.specs.declared.lists.statement.Statement.{Statement};
ghost use Rattle.sy_select.specs.declared.condition.Test.{Test};
ghost use Rattle.sy_select.specs.Truth.{Formula};
ghost use Rattle.sy_wire.specs.declared.class.Class.{Class};

use crate::lists::condition::Condition;
use crate::lists::flow::{Flow, Judge};
use crate::lists::statement::Statement;
use crate::lists::walk::table_at;
use std::alloc::{AllocError, Global};
use sy_script::Items;
use sy_wire::Class;

/// A row for each table, with nothing in it.
pub fn no_rows(alloc: Global, tables: &[Items<Statement>]) -> Result<Vec<Items<Flow>>, AllocError>
    ensures { IfOk result (λ rows. (tests : List (Formula Test)) (lists : List (List Statement)) (classes : List Class)
        → AreKnownRows tests lists classes rows.items) }
{
    let mut rows = Vec::new(alloc);
    for _table in tables {
        rows.push(Items::new(alloc))?;
    }
    Ok(rows)
}

// Whether a list has a row with nothing in it.
fn is_missing(known: &[Items<Flow>], list: u32) -> bool {
    match known.get(list as usize) {
        Some(row) => row.as_slice().is_empty(),
        None => false,
    }
}

// Gives a list its row, where it has one.
fn set_row(known: &mut Vec<Items<Flow>>, list: u32, row: Items<Flow>)
    ensures { (tests : List (Formula Test)) (tables : List (List Statement)) (classes : List Class)
        → AreKnownRows tests tables classes known.old.items → IsKnownRow tests tables classes list row
        → AreKnownRows tests tables classes known.new.items }
{
    if let Some(place) = known.get_mut(list as usize) {
        *place = row;
    }
}

/// The lists of a plan, and a class of each column.
#[derive(Clone, Copy)]
pub struct Callers<'p> {
    pub tables: &'p [Items<Statement>],
    pub tests: &'p [Condition],
    pub classes: &'p [Class],
}

impl Callers<'_> {
    ghost use Rattle.std.specs.Prelude.{◌≡◌, IfOk, OnOk};
    ghost use Rattle.sy_rules.specs.internal.FlowWalk.{AreKnownRows, IsKnownRow};
    ghost use Rattle.sy_rules.specs.internal.Tables.{AreTables};

    // What a list does, of each column.
    fn row(self, alloc: Global, list: u32, known: &[Items<Flow>]) -> Result<Items<Flow>, AllocError>
        requires tables { AreTables self.tests.now self.tables.now }
        requires known { AreKnownRows self.tests.now self.tables.now self.classes.now known.now }
        ensures { IfOk result (λ row. IsKnownRow self.entry.tests.now self.entry.tables.now self.entry.classes.now list row) }
    {
        let mut row = Items::new(alloc);
        for (column, class) in self.classes.iter().enumerate() {
            let judge = Judge {
                tables: self.tables,
                tests: self.tests,
                class: *class,
                known,
                column,
            };
            row.push(judge.flow(list))?;
        }
        Ok(row)
    }

    // The row of a list, behind those of the lists that it calls, where lists may lie in one another so deep.
    #[cycle(set_rows)]
    fn set_rows(
        self,
        alloc: Global,
        depth: u32,
        list: u32,
        known: &mut Vec<Items<Flow>>,
    ) -> Result<(), AllocError>
        requires tables { AreTables self.tests.now self.tables.now }
        requires known { AreKnownRows self.tests.now self.tables.now self.classes.now known.old.items }
        ensures { OnOk result (AreKnownRows self.entry.tests.now self.entry.tables.now self.entry.classes.now known.new.items) }
    {
        if depth == 0 || !is_missing(known, list) {
            return Ok(());
        }
        self.set_called(alloc, depth - 1, list, known)?;
        let row = self.row(alloc, list, known)?;
        set_row(known, list, row);
        Ok(())
    }

    /// Puts in the rows of the lists that a list calls, where lists may lie in one another so deep. What is known of a list isn't worked
    /// out again, and of one that lies deeper nothing is known.
    #[cycle(set_rows)]
    pub fn set_called(
        self,
        alloc: Global,
        depth: u32,
        list: u32,
        known: &mut Vec<Items<Flow>>,
    ) -> Result<(), AllocError>
        requires tables { AreTables self.tests.now self.tables.now }
        requires known { AreKnownRows self.tests.now self.tables.now self.classes.now known.old.items }
        ensures { OnOk result (AreKnownRows self.entry.tests.now self.entry.tables.now self.entry.classes.now known.new.items) }
    {
        for statement in table_at(self.tables, list) {
            if let Statement::Call(callee, _) = *statement {
                self.set_rows(alloc, depth, callee, known)?;
            }
        }
        Ok(())
    }
}
