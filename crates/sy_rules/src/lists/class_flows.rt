//! What each class executes of the lists of a plan, made once and looked up.

ghost use Rattle.std.specs.Prelude.{◌≡◌, IfOk};
ghost use Rattle.sy_rules.specs.internal.ClassFlows.{AreFlows, IsFlow, flow_at};
ghost use Rattle.sy_rules.specs.internal.FlowWalk.{AreKnown, judged};
ghost use Rattle.sy_rules.specs.internal.Tables.{AreTables};

use crate::limits::LISTS_DEEP;
use crate::lists::called::{Callers, no_rows};
use crate::lists::columns::{Columns, columns_of};
use crate::lists::condition::Condition;
use crate::lists::decided::{Head, no_head};
use crate::lists::flow::{Flow, Judge};
use crate::lists::statement::Statement;
use crate::parts::Input;
use std::alloc::{AllocError, Global};
use sy_script::Items;
use sy_wire::Class;

/// What the messages of a class execute of a list.
#[derive(Clone, Copy)]
pub struct ClassFlow {
    /// the occurrences that some of them may execute
    pub may: u64,
    /// those that each of them executes
    pub must: u64,
    pub head: Head,
}

/// What each class executes of the lists that have a row.
#[derive(Drop)]
pub struct ClassFlows {
    columns: Columns,
    // of each list, of each column; none where messages reach the list by calls alone
    rows: Vec<Items<ClassFlow>>,
}

impl ClassFlows {
    /// What a class executes of a list, where it has a row.
    pub fn at(&self, list: u32, class: Class) -> Option<ClassFlow>
        ensures { result ≡ flow_at self.now list class }
    {
        let column = self.columns.of_class[usize::from(class.number())];
        match self.rows.get(list as usize) {
            Some(row) => row.as_slice().get(usize::from(column)).copied(),
            None => None,
        }
    }
}

fn class_flow(judge: Judge<'_>, list: u32) -> ClassFlow
    requires tables { AreTables judge.tests.now judge.tables.now }
    requires known { AreKnown judge.class judge.tests.now judge.tables.now judge.known.now judge.column }
    ensures { IsFlow (judged judge.entry.class judge.entry.tests.now) judge.entry.tables.now list result }
{
    let flow = judge.flow(list);
    let (may, must) = (flow.may.set, flow.must.set);
    // (where both are the same no table is walked)
    let head = if may == must {
        no_head()
    } else {
        judge.head(list)
    };
    ClassFlow { may, must, head }
}

/// What the flows of a plan are made of.
#[derive(Clone, Copy)]
pub struct Parts<'p> {
    pub tables: &'p [Items<Statement>],
    pub tests: &'p [Condition],
    pub inputs: &'p [Input],
    /// of each list its queue
    pub queues: &'p [Option<u32>],
}

impl Parts<'_> {
    ghost use Rattle.std.specs.Prelude.{◌≡◌, IfOk};
    ghost use Rattle.sy_rules.specs.internal.ClassFlows.{AreRows, IsRow};
    ghost use Rattle.sy_rules.specs.internal.FlowWalk.{AreKnownRows};
    ghost use Rattle.sy_rules.specs.internal.Tables.{AreTables};

    // Whether messages come to a list by itself: from an input, or out of its queue.
    fn is_reached(self, list: u32) -> bool {
        if let Some(Some(_)) = self.queues.get(list as usize) {
            return true;
        }
        for input in self.inputs {
            if input.list == list {
                return true;
            }
        }
        false
    }

    // What the lists do that are called by those that messages come to by themselves.
    fn known(self, alloc: Global, classes: &[Class]) -> Result<Vec<Items<Flow>>, AllocError>
        requires { AreTables self.tests.now self.tables.now }
        ensures { IfOk result (λ known. AreKnownRows self.entry.tests.now self.entry.tables.now classes.now known.items) }
    {
        let callers = Callers {
            tables: self.tables,
            tests: self.tests,
            classes,
        };
        let mut known = no_rows(alloc, self.tables)?;
        for list in 0..u32::MAX {
            if self.tables.len() <= list as usize {
                return Ok(known);
            }
            if self.is_reached(list) {
                callers.set_called(alloc, LISTS_DEEP, list, &mut known)?;
            }
        }
        Ok(known)
    }

    // The row of a list.
    fn row(
        self,
        alloc: Global,
        list: u32,
        classes: &[Class],
        known: &[Items<Flow>],
    ) -> Result<Items<ClassFlow>, AllocError>
        requires tables { AreTables self.tests.now self.tables.now }
        requires known { AreKnownRows self.tests.now self.tables.now classes.now known.now }
        ensures { IfOk result (λ row. IsRow self.entry.tests.now self.entry.tables.now list classes.now row) }
    {
        let mut row = Items::new(alloc);
        if !self.is_reached(list) {
            return Ok(row);
        }
        for (column, class) in classes.iter().enumerate() {
            let judge = Judge {
                tables: self.tables,
                tests: self.tests,
                class: *class,
                known,
                column,
            };
            row.push(class_flow(judge, list))?;
        }
        Ok(row)
    }

    // The rows of all lists, in their order.
    fn rows(
        self,
        alloc: Global,
        classes: &[Class],
        known: &[Items<Flow>],
    ) -> Result<Vec<Items<ClassFlow>>, AllocError>
        requires tables { AreTables self.tests.now self.tables.now }
        requires known { AreKnownRows self.tests.now self.tables.now classes.now known.now }
        ensures { IfOk result (λ rows. AreRows self.entry.tests.now self.entry.tables.now classes.now rows.items) }
    {
        let mut rows = Vec::new(alloc);
        for list in 0..u32::MAX {
            if self.tables.len() <= list as usize {
                return Ok(rows);
            }
            rows.push(self.row(alloc, list, classes, known)?)?;
        }
        Ok(rows)
    }
}

/// What each class executes of the lists that messages come to by themselves.
pub fn class_flows(alloc: Global, parts: Parts<'_>) -> Result<ClassFlows, AllocError>
    requires { AreTables parts.tests.now parts.tables.now }
    ensures { IfOk result (λ flows. AreFlows parts.entry.tests.now parts.entry.tables.now flows) }
{
    let columns = columns_of(alloc, parts.tests)?;
    let classes = columns.classes.as_slice();
    let known = parts.known(alloc, classes)?;
    let rows = parts.rows(alloc, classes, known.as_slice())?;
    Ok(ClassFlows { columns, rows })
}
