//! The walk of a message over the tables of lists.

ghost use Rattle.std.specs.Prelude.{◌≡◌, slice_get, take, drop};
ghost use Rattle.std.specs.Option.{option_copied};
ghost use Rattle.sy_rules.specs.lists.Lines.{body_of};
ghost use Rattle.sy_rules.specs.internal.Tables.{AreTables, lines_of_tables, table_at};
ghost use Rattle.sy_rules.specs.internal.ClassFlows.{IsHead};
ghost use Rattle.sy_rules.specs.internal.FlowWalk.{judged};
ghost use Rattle.sy_rules.specs.internal.TableWalk as spec;
ghost use Rattle.sy_rules.specs.lists.Sets.{Bits};
ghost use Rattle.sy_rules.specs.lists.Work.{Due};

use crate::limits::LISTS_DEEP;
use crate::lists::condition::Condition;
use crate::lists::decided::Head;
use crate::lists::statement::Statement;
use sy_script::Items;
use sy_wire::Message;

/// How far a walk came.
#[derive(Clone, Copy)]
pub struct Reached {
    /// the occurrences executed
    pub set: u64,
    /// whether what follows is executed too
    pub goes_on: bool,
}

/// Nothing is executed, and what follows is.
pub fn nothing() -> Reached
    ensures { result ≡ spec.nothing }
{
    Reached {
        set: 0,
        goes_on: true,
    }
}

/// One occurrence. In a plan's tables numbers are below 64, so that neither this nor the sum in `place` cuts one.
pub fn one(at: u32) -> Reached
    ensures { result ≡ spec.one at }
{
    Reached {
        set: 1 << (at % 64),
        goes_on: true,
    }
}

/// Neither anything nor what follows is executed.
pub fn stopped() -> Reached
    ensures { result ≡ spec.stopped }
{
    Reached {
        set: 0,
        goes_on: false,
    }
}

/// A part and what follows it, which isn't executed where the part stops.
pub fn followed_by(first: Reached, next: Reached) -> Reached
    ensures { result ≡ spec.followed_by first next }
{
    if first.goes_on {
        Reached {
            set: first.set | next.set,
            goes_on: next.goes_on,
        }
    } else {
        first
    }
}

/// The number that an occurrence of a list has where that list is called after so many occurrences.
pub fn place(base: u32, number: u32) -> u32
    ensures { result ≡ spec.place base number }
{
    base.wrapping_add(number)
}

/// The first statements and those after them.
pub fn split(statements: &[Statement], count: u32) -> (&[Statement], &[Statement])
    ensures front { result.0.now ≡ take count statements.now }
    ensures behind { result.1.now ≡ drop count statements.now }
{
    statements.split_at(statements.len().min(count as usize))
}

/// The test of this number.
pub fn condition_at(tests: &[Condition], number: u32) -> Option<&Condition>
    ensures { option_copied result ≡ slice_get tests.now number }
{
    tests.get(number as usize)
}

/// The table of the list of this number, which is empty where there is no such list.
pub fn table_at(tables: &[Items<Statement>], list: u32) -> &[Statement]
    ensures { result.now ≡ table_at tables.now list }
{
    match tables.get(list as usize) {
        Some(table) => table.as_slice(),
        None => &[],
    }
}

/// What a walk looks at.
#[derive(Clone, Copy)]
struct Walker<'p> {
    tables: &'p [Items<Statement>],
    tests: &'p [Condition],
    message: &'p Message,
}

impl Walker<'_> {
    ghost use Rattle.std.specs.Prelude.{◌≡◌, ◌≤◌, ◌∷◌, length};
    ghost use Rattle.sy_select.specs.Properties.{says};
    ghost use Rattle.sy_rules.specs.internal.TableWalk as spec;

    fn meets(self, test: u32) -> bool
        ensures { result ≡ spec.meets (says self.entry.message.now) self.entry.tests.now test }
    {
        match condition_at(self.tests, test) {
            Some(condition) => condition.is_met(self.message),
            None => false,
        }
    }

    // A list whose occurrences begin at this number, where lists may lie in one another so deep.
    #[cycle(walk)]
    fn list(self, depth: u32, list: u32, base: u32) -> Reached
        ensures { result ≡ spec.work_of_list (says self.entry.message.now) self.entry.tests.now self.entry.tables.now
            depth list base }
    {
        if depth == 0 {
            return nothing();
        }
        self.statements(depth - 1, table_at(self.tables, list), base)
    }

    // What the first statement of a table does, and the statements after it.
    #[cycle(walk)]
    fn statement<'t>(
        self,
        depth: u32,
        statement: Statement,
        after: &'t [Statement],
        base: u32,
    ) -> (Reached, &'t [Statement])
        ensures reached { let walked = spec.work_of_statements (says self.entry.message.now) self.entry.tests.now
            self.entry.tables.now depth in walked (statement ∷ after.now) base
            ≡ spec.followed_by result.0 (walked result.1.now base) }
        ensures shorter { length result.1.now ≤ length after.now }
    {
        match statement {
            Statement::Run(_, number) | Statement::Post(_, number) => (
                one(place(base, number)),
                after,
            ),
            Statement::Call(list, number) => (self.list(depth, list, place(base, number)), after),
            Statement::Stop => (stopped(), after),
            Statement::If(test, done, otherwise) => {
                let (yes, later) = split(after, done);
                let (no, later) = split(later, otherwise);
                let block = if self.meets(test) { yes } else { no };
                (self.statements(depth, block, base), later)
            }
        }
    }

    // It goes as deep as blocks nest, and calls may lie in one another so deep.
    #[cycle(walk)]
    fn statements(self, depth: u32, statements: &[Statement], base: u32) -> Reached
        ensures { result ≡ spec.work_of_statements (says self.entry.message.now) self.entry.tests.now
            self.entry.tables.now depth statements.now base }
    {
        let mut reached = nothing();
        let mut rest = statements;
        while let [statement, after @ ..] = rest {
            let (next, after) = self.statement(depth, *statement, after, base);
            reached = followed_by(reached, next);
            if !reached.goes_on {
                return reached;
            }
            rest = after;
        }
        reached
    }
}

/// Which occurrences of a list a message executes: bit k stands for occurrence k. It takes no memory, and visits only the statements that the
/// message reaches.
pub fn due(tables: &[Items<Statement>], tests: &[Condition], list: u32, message: &Message) -> u64
    requires { AreTables tests.now tables.now }
    ensures { Bits (Due (body_of (lines_of_tables tests.now tables.now) list) message.now) result }
{
    let walker = Walker {
        tables,
        tests,
        message,
    };
    walker.list(LISTS_DEEP, list, 0).set
}

// What stands behind so many statements.
fn behind(statements: &[Statement], count: usize) -> &[Statement]
    ensures { result.now ≡ drop count statements.now }
{
    let (_, rest) = statements.split_at(statements.len().min(count));
    rest
}

/// The same where the head of the list is known for the message's class.
pub fn due_behind(
    tables: &[Items<Statement>],
    tests: &[Condition],
    list: u32,
    head: Head,
    message: &Message,
) -> u64
    requires tables { AreTables tests.now tables.now }
    requires head { IsHead (judged message.now.class tests.now) tables.now (table_at tables.now list) head }
    ensures { Bits (Due (body_of (lines_of_tables tests.now tables.now) list) message.now) result }
{
    let walker = Walker {
        tables,
        tests,
        message,
    };
    let rest = behind(table_at(tables, list), head.size);
    head.executed | walker.statements(LISTS_DEEP - 1, rest, 0).set
}
