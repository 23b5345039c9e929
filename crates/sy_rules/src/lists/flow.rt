//! What a class may and must execute of a list, by one walk over tables.

ghost use Rattle.std.specs.Prelude.{◌≡◌};
ghost use Rattle.sy_rules.specs.internal.FlowWalk as spec;
ghost use Rattle.sy_rules.specs.lists.Lines.{body_of};
ghost use Rattle.sy_rules.specs.lists.Sets.{Bits};
ghost use Rattle.sy_rules.specs.internal.Tables.{AreTables, lines_of_tables};
ghost use Rattle.sy_rules.specs.lists.Work.{May, Must};

use crate::limits::LISTS_DEEP;
use crate::lists::condition::Condition;
use crate::lists::statement::Statement;
use crate::lists::walk::{
    Reached, condition_at, followed_by, nothing, one, place, split, stopped, table_at,
};
use sy_script::Items;
use sy_select::Verdict;
use sy_wire::Class;

/// What messages of a class may execute of a part of a text, and what each of them executes.
#[derive(Clone, Copy)]
pub struct Flow {
    pub may: Reached,
    pub must: Reached,
}

fn both(reached: Reached) -> Flow
    ensures { result ≡ spec.both reached }
{
    Flow {
        may: reached,
        must: reached,
    }
}

fn flow_followed_by(first: Flow, next: Flow) -> Flow
    ensures { result ≡ spec.flow_followed_by first next }
{
    Flow {
        may: followed_by(first.may, next.may),
        must: followed_by(first.must, next.must),
    }
}

// Of two blocks that can both be taken.
fn either(done: Flow, otherwise: Flow) -> Flow
    ensures { result ≡ spec.flow_take Verdict.Either done otherwise }
{
    // no occurrence stands in both
    let in_both = 0;
    Flow {
        may: Reached {
            set: done.may.set | otherwise.may.set,
            goes_on: done.may.goes_on || otherwise.may.goes_on,
        },
        must: Reached {
            set: in_both,
            goes_on: done.must.goes_on && otherwise.must.goes_on,
        },
    }
}

// A part whose occurrences have numbers larger by so much.
fn turned(reached: Reached, base: u32) -> Reached
    ensures { result ≡ spec.turned reached base }
{
    Reached {
        set: reached.set.rotate_left(base),
        goes_on: reached.goes_on,
    }
}

fn flow_turned(flow: Flow, base: u32) -> Flow
    ensures { result ≡ spec.flow_turned flow base }
{
    Flow {
        may: turned(flow.may, base),
        must: turned(flow.must, base),
    }
}

/// What a walk looks at.
#[derive(Clone, Copy)]
pub struct Judge<'p> {
    pub tables: &'p [Items<Statement>],
    pub tests: &'p [Condition],
    pub class: Class,
    /// of each list what it does, of each column; of many lists nothing is known
    pub known: &'p [Items<Flow>],
    /// that of the class
    pub column: usize,
}

impl Judge<'_> {
    ghost use Rattle.std.specs.Prelude.{◌≡◌, ◌≤◌, ◌+◌, ◌∷◌, ℕ, IfSome, length};
    ghost use Rattle.sy_rules.specs.internal.FlowWalk as spec;
    ghost use Rattle.sy_rules.specs.internal.FlowWalk.{AreKnown, known_flow};
    ghost use Rattle.sy_rules.specs.internal.Tables.{AreTables};

    pub fn verdict(self, test: u32) -> Verdict
        ensures { result ≡ spec.judged self.entry.class self.entry.tests.now test }
    {
        match condition_at(self.tests, test) {
            Some(condition) => condition.verdict(self.class),
            None => Verdict::No,
        }
    }

    // What follows a test that isn't met and has no other block, which does nothing; none for any other statement.
    fn passed<'t>(self, statement: Statement, after: &'t [Statement]) -> Option<&'t [Statement]>
        ensures same { (depth base : ℕ) → IfSome result (λ later. let walked = spec.flow_of_statements self.entry.class
            self.entry.tests.now self.entry.tables.now depth
            in walked (statement ∷ after.now) base ≡ walked later.now base) }
        ensures shorter { IfSome result (λ later. length later.now ≤ length after.now) }
    {
        let Statement::If(test, done, otherwise) = statement else {
            return None;
        };
        if otherwise != 0 {
            return None;
        }
        match self.verdict(test) {
            Verdict::No => {
                let (_, later) = split(after, done);
                Some(later)
            }
            Verdict::Yes | Verdict::Either => None,
        }
    }

    // What is known of a list by itself.
    fn kept(self, list: u32) -> Option<Flow>
        ensures { result ≡ known_flow self.entry.known.now list self.entry.column }
    {
        match self.known.get(list as usize) {
            Some(row) => row.as_slice().get(self.column).copied(),
            None => None,
        }
    }

    /// What a list does whose occurrences begin at this number, where it is known. It is known for lists that may lie in one another as deep
    /// as in a plan, or deeper.
    pub fn known_at(self, depth: u32, list: u32, base: u32) -> Option<Flow>
        requires known { AreKnown self.class self.tests.now self.tables.now self.known.now self.column }
        ensures { IfSome result (λ flow. spec.flow_of_list self.entry.class self.entry.tests.now self.entry.tables.now depth
            list base ≡ flow) }
    {
        if depth < LISTS_DEEP {
            return None;
        }
        match self.kept(list) {
            Some(flow) => Some(flow_turned(flow, base)),
            None => None,
        }
    }

    // A list whose occurrences begin at this number, where lists may lie in one another so deep.
    #[cycle(flow)]
    fn list(self, depth: u32, list: u32, base: u32) -> Flow
        requires known { AreKnown self.class self.tests.now self.tables.now self.known.now self.column }
        ensures { result ≡ spec.flow_of_list self.entry.class self.entry.tests.now self.entry.tables.now depth
            list base }
    {
        if depth == 0 {
            return both(nothing());
        }
        if let Some(flow) = self.known_at(depth, list, base) {
            return flow;
        }
        self.statements(depth - 1, table_at(self.tables, list), base)
    }

    // The block of a test that is taken, or both.
    #[cycle(flow)]
    fn block(
        self,
        depth: u32,
        verdict: Verdict,
        done: &[Statement],
        otherwise: &[Statement],
        base: u32,
    ) -> Flow
        requires known { AreKnown self.class self.tests.now self.tables.now self.known.now self.column }
        ensures { let walked = spec.flow_of_statements self.entry.class self.entry.tests.now self.entry.tables.now depth
            in result ≡ spec.flow_take verdict (walked done.now base) (walked otherwise.now base) }
    {
        match verdict {
            Verdict::Yes => self.statements(depth, done, base),
            Verdict::No => self.statements(depth, otherwise, base),
            Verdict::Either => either(
                self.statements(depth, done, base),
                self.statements(depth, otherwise, base),
            ),
        }
    }

    // What the first statement of a table does, and the statements after it.
    #[cycle(flow)]
    fn statement<'t>(
        self,
        depth: u32,
        statement: Statement,
        after: &'t [Statement],
        base: u32,
    ) -> (Flow, &'t [Statement])
        requires known { AreKnown self.class self.tests.now self.tables.now self.known.now self.column }
        ensures reached { let walked = spec.flow_of_statements self.entry.class self.entry.tests.now
            self.entry.tables.now depth
            in walked (statement ∷ after.now) base ≡ spec.flow_followed_by result.0 (walked result.1.now base) }
        ensures shorter { length result.1.now ≤ length after.now }
    {
        match statement {
            Statement::Run(_, number) | Statement::Post(_, number) => (
                both(one(place(base, number))),
                after,
            ),
            Statement::Call(list, number) => (self.list(depth, list, place(base, number)), after),
            Statement::Stop => (both(stopped()), after),
            Statement::If(test, done, otherwise) => {
                let (yes, later) = split(after, done);
                let (no, later) = split(later, otherwise);
                (self.block(depth, self.verdict(test), yes, no, base), later)
            }
        }
    }

    // It goes as deep as blocks nest, and calls may lie in one another so deep. It ends early where nothing that follows can be executed.
    #[cycle(flow)]
    fn statements(self, depth: u32, statements: &[Statement], base: u32) -> Flow
        requires known { AreKnown self.class self.tests.now self.tables.now self.known.now self.column }
        ensures { result ≡ spec.flow_of_statements self.entry.class self.entry.tests.now self.entry.tables.now depth
            statements.now base }
    {
        let mut flow = both(nothing());
        let mut rest = statements;
        while let [statement, after @ ..] = rest {
            if let Some(later) = self.passed(*statement, after) {
                rest = later;
                continue;
            }
            let (next, after) = self.statement(depth, *statement, after, base);
            flow = flow_followed_by(flow, next);
            if !flow.may.goes_on && !flow.must.goes_on {
                return flow;
            }
            rest = after;
        }
        flow
    }

    /// What a list does. What is known of those that it calls isn't worked out again.
    pub fn flow(self, list: u32) -> Flow
        requires tables { AreTables self.tests.now self.tables.now }
        requires known { AreKnown self.class self.tests.now self.tables.now self.known.now self.column }
        ensures { result ≡ spec.flow_of_list self.entry.class self.entry.tests.now self.entry.tables.now 17 list 0 }
    {
        self.list(LISTS_DEEP + 1, list, 0)
    }
}

/// May and must of a list for a class: bit k stands for occurrence k.
pub fn flows(
    tables: &[Items<Statement>],
    tests: &[Condition],
    list: u32,
    class: Class,
) -> (u64, u64)
    requires { AreTables tests.now tables.now }
    ensures may { Bits (May (body_of (lines_of_tables tests.now tables.now) list) class) result.0 }
    ensures must { Bits (Must (body_of (lines_of_tables tests.now tables.now) list) class) result.1 }
{
    let judge = Judge {
        tables,
        tests,
        class,
        known: &[],
        column: 0,
    };
    let flow = judge.flow(list);
    (flow.may.set, flow.must.set)
}
