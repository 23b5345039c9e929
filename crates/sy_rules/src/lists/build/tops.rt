//! Puts what stands at the top of a file into the tables of lists.
ghost use Rattle.std.specs.Prelude.{◌≡◌, ◌++◌, ◌∷◌, [], map, IfOk, OnOk};
ghost use Rattle.sy_rules.specs.internal.TextTables as spec;
ghost use Rattle.sy_rules.specs.lists.Texts.{part_of, parts};

use super::count::{Counts, next};
use super::scope::Scope;
use super::statements::{push_body, push_stmt};
use crate::lists::statement::Statement;
use crate::parameters::objects::ActionParameters;
use std::alloc::{AllocError, Global};
use sy_script::tree::Top;

// The tables so far: that of the statements outside every ruleset, and those of the rulesets.
#[derive(Drop)]
pub struct Lists {
    pub counts: Counts,
    pub outside: Vec<Statement>,
    pub inside: Vec<Vec<Statement>>,
}

fn push_top(
    alloc: Global,
    scope: &Scope<'_>,
    lists: &mut Lists,
    top: &Top,
) -> Result<(), AllocError>
    ensures { OnOk result (spec.IsPartPush scope.now.rulesets.now scope.now.actions.now (part_of top.now) lists.old
        lists.new) }
{
    match top {
        Top::Object(_) => Ok(()),
        Top::Ruleset(ruleset) => {
            let mut table = Vec::new(alloc);
            push_body(
                scope,
                &mut lists.counts,
                &mut table,
                ruleset.body.as_slice(),
            )?;
            lists.inside.push(table)?;
            Ok(())
        }
        Top::Stmt(stmt) => push_stmt(scope, &mut lists.counts, &mut lists.outside, stmt),
    }
}

/// The table of the statements outside every ruleset, and those of the rulesets.
pub fn push_tops(
    alloc: Global,
    scope: &Scope<'_>,
    tops: &[Top],
) -> Result<(Vec<Statement>, Vec<Vec<Statement>>), AllocError>
    ensures outside { IfOk result (λ found. found.0.items ≡ spec.outside_table scope.now.rulesets.now
        scope.now.actions.now 0 0
        (parts tops.now)) }
    ensures inside { IfOk result (λ found. map (λ t. t.items) found.1.items
        ≡ spec.inside_tables scope.now.rulesets.now scope.now.actions.now 0 0 (parts tops.now)) }
{
    let mut lists = Lists {
        counts: Counts {
            actions: 0,
            tests: 0,
        },
        outside: Vec::new(alloc),
        inside: Vec::new(alloc),
    };
    for top in tops {
        push_top(alloc, scope, &mut lists, top)?;
    }
    let Lists {
        outside,
        inside,
        ..
    } = lists;
    Ok((outside, inside))
}

/// Puts a table with a single run after the others for each action that has a queue.
pub fn push_singles(
    alloc: Global,
    tables: &mut Vec<Vec<Statement>>,
    actions: &[ActionParameters],
) -> Result<(), AllocError>
    ensures { OnOk result (map (λ t. t.items) tables.new.items ≡ map (λ t. t.items) tables.old.items
        ++ spec.single_tables 0 actions.now) }
{
    let mut number = 0u32;
    for action in actions {
        if action.queue.is_some() {
            push_single(alloc, tables, number)?;
        }
        number = next(number)?;
    }
    Ok(())
}

fn push_single(
    alloc: Global,
    tables: &mut Vec<Vec<Statement>>,
    number: u32,
) -> Result<(), AllocError>
    ensures { OnOk result (map (λ t. t.items) tables.new.items ≡ map (λ t. t.items) tables.old.items
        ++ (Statement.Run number 0 ∷ []) ∷ []) }
{
    let mut table = Vec::new(alloc);
    table.push(Statement::Run(number, 0))?;
    tables.push(table)?;
    Ok(())
}
