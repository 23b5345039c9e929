//! Where the actions and calls of a file lead to.
ghost use Rattle.std.specs.Prelude.{◌≡◌, ◌+◌, slice_get, IfOk};
ghost use Rattle.sy_rules.specs.lists.Lines as lines;
ghost use Rattle.sy_rules.specs.parts.Plans as plans;
ghost use Rattle.sy_rules.specs.internal.TextTables as spec;

use super::count::{as_u32, next};
use crate::lists::statement::Statement;
use crate::parameters::objects::{ActionParameters, RulesetParameters};
use std::alloc::{AllocError, Global};

/// The rulesets of a file, and a statement for each of its actions.
#[derive(Clone, Copy)]
pub struct Scope<'a> {
    pub rulesets: &'a [RulesetParameters],
    pub actions: &'a [Statement],
}

/// A statement for each action: one with a queue is a post to its list, after those of so many rulesets.
pub fn action_statements(
    alloc: Global,
    rulesets: usize,
    actions: &[ActionParameters],
) -> Result<Vec<Statement>, AllocError>
    ensures { IfOk result (λ statements. statements.items ≡ spec.action_statements 0 (rulesets + 1) actions.now) }
{
    let mut statements = Vec::new(alloc);
    let mut action_number = 0u32;
    let mut list = next(as_u32(rulesets)?)?;
    for action in actions {
        if action.queue.is_some() {
            statements.push(Statement::Post(list, 0))?;
            list = next(list)?;
        } else {
            statements.push(Statement::Run(action_number, 0))?;
        }
        action_number = next(action_number)?;
    }
    Ok(statements)
}

fn place_of(rulesets: &[RulesetParameters], name: &[u8]) -> Option<usize>
    ensures { result ≡ plans.place_of name.now (plans.names_of rulesets.now) }
{
    for (place, ruleset) in rulesets.iter().enumerate() {
        if name == ruleset.name.as_slice() {
            return Some(place);
        }
    }
    None
}

fn ruleset_has_queue(rulesets: &[RulesetParameters], place: usize) -> bool
    ensures { result ≡ lines.is_queued_ruleset (slice_get rulesets.now place) }
{
    match rulesets.get(place) {
        Some(ruleset) => ruleset.queue.is_some(),
        None => false,
    }
}

/// The statement of a call: a ruleset with a queue is posted to, any other is called at once.
pub fn call_statement(
    rulesets: &[RulesetParameters],
    name: &[u8],
) -> Result<Option<Statement>, AllocError>
    ensures { IfOk result (λ statement. statement ≡ spec.call_statement rulesets.now
        (plans.place_of name.now (plans.names_of rulesets.now))) }
{
    match place_of(rulesets, name) {
        Some(place) => {
            let list = next(as_u32(place)?)?;
            Ok(Some(if ruleset_has_queue(rulesets, place) {
                Statement::Post(list, 0)
            } else {
                Statement::Call(list, 0)
            }))
        }
        None => Ok(None),
    }
}
