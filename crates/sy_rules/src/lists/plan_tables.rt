//! The tables of a plan, from those of its script.

ghost use Rattle.std.specs.Prelude.{◌≡◌, List, [], length, drop, map, IfOk, OnOk, IfErr};
ghost use Rattle.sy_select.specs.declared.condition.Test.{Test};
ghost use Rattle.sy_select.specs.Truth.{Formula};
ghost use Rattle.sy_rules.specs.Faults.{IsAnswered};
ghost use Rattle.sy_rules.specs.internal.Numbering.{AreSingles};
ghost use Rattle.sy_rules.specs.check.ScriptFaults.{faults_of_lists};
ghost use Rattle.sy_rules.specs.internal.TableSizes.{head};
ghost use Rattle.sy_rules.specs.internal.Tables.{AreTables, lines_of_tables};

use crate::fault::PlanFault;
use crate::lists::numbering::number_lists;
use crate::lists::sizes::{Head, check_lists};
use crate::lists::statement::Statement;
use std::alloc::Global;
use sy_script::Items;

/// The tables of a plan, each with its occurrences numbered, from tables without numbers. The first lists have these heads; the others run one
/// action each. Refuses the first list whose calls lie too deep in one another, or that has too many statements or occurrences.
pub fn plan_tables(
    alloc: Global,
    tables: &[Vec<Statement>],
    heads: &[Head<'_>],
) -> Result<Vec<Items<Statement>>, PlanFault>
    requires { AreSingles (drop (length heads.now) (map (λ table. table.items) tables.now)) }
    ensures found { IfOk result (λ found. (tests : List (Formula Test)) → AreTables tests found.items) }
    ensures same { IfOk result (λ found. (tests : List (Formula Test)) → lines_of_tables tests found.items
        ≡ lines_of_tables tests (map (λ table. table.items) tables.now)) }
    ensures ok { OnOk result ((tests : List (Formula Test))
        → faults_of_lists (lines_of_tables tests (map (λ table. table.items) tables.now)) 0
        (map head heads.now) ≡ []) }
    ensures err { IfErr result (λ f. (tests : List (Formula Test))
        → IsAnswered (faults_of_lists (lines_of_tables tests (map (λ table. table.items) tables.now)) 0
        (map head heads.now)) f) }
{
    let sizes = check_lists(alloc, tables, heads)?;
    match number_lists(alloc, tables, sizes.as_slice()) {
        Ok(found) => Ok(found),
        Err(_) => Err(PlanFault::no_memory(alloc)),
    }
}
