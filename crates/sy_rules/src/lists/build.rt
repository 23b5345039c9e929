//! The tables of the lists of a script.
ghost use Rattle.std.specs.Prelude.{◌≡◌, List, map, IfOk};
ghost use Rattle.sy_select.specs.Truth.{Formula};
ghost use Rattle.sy_select.specs.declared.condition.Test.{Test};
ghost use Rattle.sy_rules.specs.lists.Lines.{lists_of};
ghost use Rattle.sy_rules.specs.internal.Tables.{lines_of_table};
ghost use Rattle.sy_rules.specs.internal.TextTables as spec;
ghost use Rattle.sy_rules.specs.lists.Texts.{parts};

pub mod count;
mod scope;
mod statements;
mod tops;

use crate::lists::statement::Statement;
use crate::parameters::objects::{ActionParameters, RulesetParameters};
use scope::{Scope, action_statements};
use std::alloc::{AllocError, Global};
use sy_script::tree::Script;
use tops::{push_singles, push_tops};

fn tables(
    alloc: Global,
    script: &Script,
    rulesets: &[RulesetParameters],
    actions: &[ActionParameters],
) -> Result<Vec<Vec<Statement>>, AllocError>
    ensures { IfOk result (λ tables. map (λ t. t.items) tables.items
        ≡ spec.tables_of rulesets.now actions.now (parts script.now.tops)) }
{
    let statements = action_statements(alloc, rulesets.len(), actions)?;
    let scope = Scope {
        rulesets,
        actions: statements.as_slice(),
    };
    let (outside, mut tables) = push_tops(alloc, &scope, script.tops.as_slice())?;
    push_singles(alloc, &mut tables, actions)?;
    tables.insert(0, outside)?;
    Ok(tables)
}

/// The tables of all lists of a script with these rulesets and actions, in the order of their numbers: that of the statements outside
/// every ruleset, those of the rulesets, and a single run for each action with a queue. The occurrences aren't numbered yet: each has
/// number 0. It goes as deep as the script nests.
pub fn build(
    alloc: Global,
    script: &Script,
    rulesets: &[RulesetParameters],
    actions: &[ActionParameters],
) -> Result<Vec<Vec<Statement>>, AllocError>
    ensures { IfOk result (λ tables. (tests : List (Formula Test))
        → map (λ t. lines_of_table tests t.items) tables.items
        ≡ lists_of (record { rulesets = rulesets.now; actions = actions.now; tests = tests })
        (parts script.now.tops)) }
{
    tables(alloc, script, rulesets, actions)
}
