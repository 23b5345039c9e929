//! What a class alone decides of a text.

ghost use Rattle.std.specs.Prelude.{◌≡◌, ◌≤◌, ◌-◌, ℕ, List, IfSome, length};
ghost use Rattle.sy_select.specs.declared.verdict.Verdict.{Verdict};
ghost use Rattle.sy_rules.specs.declared.lists.statement.Statement.{Statement};
ghost use Rattle.sy_rules.specs.internal.ClassFlows.{IsHead};

use crate::limits::LISTS_DEEP;
use crate::lists::flow::{Flow, Judge};
use crate::lists::statement::Statement;
use crate::lists::walk::{Reached, followed_by, nothing, one, place, split, stopped, table_at};
use sy_select::Verdict;

/// The statements at the beginning of a table that a class decides alone, one after the other.
#[derive(Clone, Copy)]
pub struct Head {
    /// how many there are
    pub size: usize,
    /// the occurrences that they execute
    pub executed: u64,
}

// What stands before the rest of a table.
fn head_before(table: &[Statement], rest: &[Statement], executed: u64) -> Head
    requires shorter { length rest.now ≤ length table.now }
    ensures size { result.size ≡ length table.now - length rest.now }
    ensures executed { result.executed ≡ executed }
{
    Head {
        size: table.len() - rest.len(),
        executed,
    }
}

// What is executed, where all is that may be.
fn decided_flow(flow: Flow) -> Option<Reached>
    ensures { IfSome result (λ reached. (flow.may ≡ reached) × (flow.must ≡ reached)) }
{
    if flow.may.set == flow.must.set && flow.may.goes_on == flow.must.goes_on {
        Some(flow.may)
    } else {
        None
    }
}

impl Judge<'_> {
    ghost use Rattle.std.specs.Prelude.{◌≡◌, ◌≤◌, ◌∷◌, ℕ, Bool, IfSome, length};
    ghost use Rattle.sy_rules.specs.internal.FlowWalk.{AreKnown};
    ghost use Rattle.sy_rules.specs.internal.Tables.{AreTables, table_at};
    ghost use Rattle.sy_rules.specs.internal.ClassFlows.{AreMet, IsHead, IsHeadAt, IsMet, IsTail, met_list, met_statements};
    ghost use Rattle.sy_rules.specs.internal.FlowWalk.{judged};
    ghost use Rattle.sy_rules.specs.internal.TableWalk as spec;

    // What each message of the class executes of a list, where the class decides all tests that it reaches.
    #[cycle(decide)]
    fn decided_list(self, depth: u32, list: u32, base: u32) -> Option<Reached>
        requires known { AreKnown self.class self.tests.now self.tables.now self.known.now self.column }
        ensures { IfSome result (λ reached. (met : ℕ → Bool)
            → AreMet (judged self.entry.class self.entry.tests.now) met
            → met_list met self.entry.tables.now depth list base ≡ reached) }
    {
        if depth == 0 {
            return Some(nothing());
        }
        if let Some(flow) = self.known_at(depth, list, base) {
            return decided_flow(flow);
        }
        self.decided_statements(depth - 1, table_at(self.tables, list), base)
    }

    // Of the block of a test that is taken.
    #[cycle(decide)]
    fn decided_block(
        self,
        depth: u32,
        verdict: Verdict,
        done: &[Statement],
        otherwise: &[Statement],
        base: u32,
    ) -> Option<Reached>
        requires known { AreKnown self.class self.tests.now self.tables.now self.known.now self.column }
        ensures { IfSome result (λ reached. (met : ℕ → Bool) (is_met : Bool)
            → AreMet (judged self.entry.class self.entry.tests.now) met → IsMet verdict is_met
            → let walked = met_statements met self.entry.tables.now depth
            in spec.take_met is_met (walked done.now base) (walked otherwise.now base) ≡ reached) }
    {
        match verdict {
            Verdict::Yes => self.decided_statements(depth, done, base),
            Verdict::No => self.decided_statements(depth, otherwise, base),
            Verdict::Either => None,
        }
    }

    // Of the first statement of a table, and the statements after it.
    #[cycle(decide)]
    fn decided<'t>(
        self,
        depth: u32,
        statement: Statement,
        after: &'t [Statement],
        base: u32,
    ) -> Option<(Reached, &'t [Statement])>
        requires known { AreKnown self.class self.tests.now self.tables.now self.known.now self.column }
        ensures reached { IfSome result (λ found. (met : ℕ → Bool)
            → AreMet (judged self.entry.class self.entry.tests.now) met
            → let walked = met_statements met self.entry.tables.now depth
            in walked (statement ∷ after.now) base ≡ spec.followed_by found.0 (walked found.1.now base)) }
        ensures tail { IfSome result (λ found. IsTail found.1.now after.now) }
        ensures shorter { IfSome result (λ found. length found.1.now ≤ length after.now) }
    {
        match statement {
            Statement::Run(_, number) | Statement::Post(_, number) => {
                Some((one(place(base, number)), after))
            }
            Statement::Call(list, number) => {
                let Some(reached) = self.decided_list(depth, list, place(base, number)) else {
                    return None;
                };
                Some((reached, after))
            }
            Statement::Stop => Some((stopped(), after)),
            Statement::If(test, done, otherwise) => {
                let (yes, later) = split(after, done);
                let (no, later) = split(later, otherwise);
                let verdict = self.verdict(test);
                let Some(reached) = self.decided_block(depth, verdict, yes, no, base) else {
                    return None;
                };
                Some((reached, later))
            }
        }
    }

    #[cycle(decide)]
    fn decided_statements(self, depth: u32, statements: &[Statement], base: u32) -> Option<Reached>
        requires known { AreKnown self.class self.tests.now self.tables.now self.known.now self.column }
        ensures { IfSome result (λ reached. (met : ℕ → Bool)
            → AreMet (judged self.entry.class self.entry.tests.now) met
            → met_statements met self.entry.tables.now depth statements.now base ≡ reached) }
    {
        let mut reached = nothing();
        let mut rest = statements;
        while let [statement, after @ ..] = rest {
            let Some((next, later)) = self.decided(depth, *statement, after, base) else {
                return None;
            };
            reached = followed_by(reached, next);
            if !reached.goes_on {
                return Some(reached);
            }
            rest = later;
        }
        Some(reached)
    }

    // The head of a table, as far as all that follows is executed too.
    fn head_of_table(self, table: &[Statement]) -> Head
        requires known { AreKnown self.class self.tests.now self.tables.now self.known.now self.column }
        ensures { IsHeadAt 17 (judged self.entry.class self.entry.tests.now) self.entry.tables.now table.now result }
    {
        let mut executed = 0;
        let mut rest = table;
        while let [statement, after @ ..] = rest {
            let Some((next, later)) = self.decided(LISTS_DEEP, *statement, after, 0) else {
                return head_before(table, rest, executed);
            };
            if !next.goes_on {
                return head_before(table, rest, executed);
            }
            executed |= next.set;
            rest = later;
        }
        head_before(table, rest, executed)
    }

    /// The head of a list.
    pub fn head(self, list: u32) -> Head
        requires tables { AreTables self.tests.now self.tables.now }
        requires known { AreKnown self.class self.tests.now self.tables.now self.known.now self.column }
        ensures { IsHead (judged self.entry.class self.entry.tests.now) self.entry.tables.now
            (table_at self.entry.tables.now list) result }
    {
        self.head_of_table(table_at(self.tables, list))
    }
}

/// No statements.
pub fn no_head() -> Head
    ensures { (judge : ℕ → Verdict) (tables : List (List Statement)) (table : List Statement)
        → IsHead judge tables table result }
{
    Head {
        size: 0,
        executed: 0,
    }
}
