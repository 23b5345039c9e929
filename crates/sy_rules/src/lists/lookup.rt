//! What messages and classes execute of a list, by what is kept for its classes.

ghost use Rattle.std.specs.Prelude.{◌≡◌};
ghost use Rattle.sy_rules.specs.internal.ClassFlows.{AreFlows};
ghost use Rattle.sy_rules.specs.internal.Tables.{AreTables, lines_of_tables};
ghost use Rattle.sy_rules.specs.lists.Lines.{body_of};
ghost use Rattle.sy_rules.specs.lists.Sets.{Bits};
ghost use Rattle.sy_rules.specs.lists.Work.{Due, May, Must};

use crate::lists::class_flows::ClassFlows;
use crate::lists::condition::Condition;
use crate::lists::flow::flows;
use crate::lists::statement::Statement;
use crate::lists::walk::{due, due_behind};
use sy_script::Items;
use sy_wire::{Class, Message};

/// Which occurrences of a list a message executes: bit k stands for occurrence k.
pub fn due_of_list(
    kept: &ClassFlows,
    tables: &[Items<Statement>],
    tests: &[Condition],
    list: u32,
    message: &Message,
) -> u64
    requires tables { AreTables tests.now tables.now }
    requires kept { AreFlows tests.now tables.now kept.now }
    ensures { Bits (Due (body_of (lines_of_tables tests.now tables.now) list) message.now) result }
{
    let Some(flow) = kept.at(list, message.class()) else {
        return due(tables, tests, list, message);
    };
    if flow.may == flow.must {
        return flow.must;
    }
    due_behind(tables, tests, list, flow.head, message)
}

/// May and must of a list for a class: bit k stands for occurrence k.
pub fn flows_of_list(
    kept: &ClassFlows,
    tables: &[Items<Statement>],
    tests: &[Condition],
    list: u32,
    class: Class,
) -> (u64, u64)
    requires tables { AreTables tests.now tables.now }
    requires kept { AreFlows tests.now tables.now kept.now }
    ensures may { Bits (May (body_of (lines_of_tables tests.now tables.now) list) class) result.0 }
    ensures must { Bits (Must (body_of (lines_of_tables tests.now tables.now) list) class) result.1 }
{
    match kept.at(list, class) {
        Some(flow) => (flow.may, flow.must),
        None => flows(tables, tests, list, class),
    }
}
