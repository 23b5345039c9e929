//! How far a text is read: what is open, what holds for what comes next, and the plan so far.
ghost use Rattle.std.specs.Prelude.{[], IfOk, OnOk};
ghost use Rattle.sy_fleet.specs.internal.Tests as spec;

use crate::fleet::{Action, Input, Named, Note};
use crate::params::{Param, Span};
use crate::plan_text::PlanText;
use crate::queues::append_number;
use crate::statements::{Assumption, next_kind};
use std::alloc::{AllocError, Global};
use sy_fleet_text::{Kind, Piece, Word};

/// What a statement, or a block of them, belongs to.
#[derive(Clone, Copy, PartialEq, Eq)]
pub(crate) enum Owner {
    /// A test, after which `else` may come.
    Test,
    /// A filter of the older syntax, which `&` goes on with.
    Filter,
    /// Anything else that a block of the plan was opened for.
    Other,
    /// A ruleset.
    Ruleset,
    /// What isn't in the plan, as a template.
    Silent,
}

/// What is open: a place for one statement, or a block.
#[derive(Clone, Copy, PartialEq, Eq)]
pub(crate) enum Open {
    Single(Owner),
    Block(Owner),
}

/// The ruleset that inputs of a module lead to which name none.
#[derive(Clone, Copy)]
pub(crate) struct Bound<'a> {
    pub module: &'a [u8],
    pub ruleset: Span,
}

/// The settings of the older syntax that hold for what comes next.
#[derive(Drop)]
pub(crate) struct Settings<'a> {
    pub retries: Option<Span>,
    pub queue: Vec<Param>,
    pub is_conditional: bool,
    pub bounds: Vec<Bound<'a>>,
}

/// How far a text is read.
#[derive(Drop)]
pub(crate) struct Walk<'a> {
    pub alloc: Global,
    pub text: &'a [u8],
    pub pieces: &'a [Piece],
    pub rulesets: Vec<Named>,
    pub out: PlanText,
    /// The ruleset whose statements are read, and the one that is read again behind its block.
    pub ruleset: usize,
    pub outer: usize,
    pub open: Vec<Open>,
    pub last: Vec<u8>,
    pub tests: u64,
    pub settings: Settings<'a>,
    pub bounds: Vec<Bound<'a>>,
    pub main_params: Vec<Param>,
    pub main_queue: Option<usize>,
    pub stops: Vec<usize>,
    pub reduction: Option<usize>,
    pub limits: Option<usize>,
    pub inputs: Vec<Input>,
    pub actions: Vec<Action>,
    pub notes: Vec<Note>,
}

impl Walk<'_> {
    /// Puts this behind the statements of the ruleset.
    pub fn push(&mut self, text: &[u8]) -> Result<(), AllocError>
        ensures { OnOk result (spec.Adds text.now self.old self.new) }
    {
        self.out.push(self.ruleset, text)
    }

    /// Takes something for granted.
    pub fn note(&mut self, at: usize, assumption: Assumption) -> Result<(), AllocError> {
        self.notes.push(Note { at, assumption })?;
        Ok(())
    }

    /// A test that is left open, each by itself.
    pub fn open_test(&mut self) -> Result<Vec<u8>, AllocError>
        ensures open { IfOk result (λ test. spec.IsOpen test.items) }
        ensures same { OnOk result (spec.Adds [] self.old self.new) }
    {
        self.tests = self.tests.saturating_add(1);
        let mut test = Vec::new(self.alloc);
        test.extend_from_slice(b"$msg contains \"?")?;
        append_number(&mut test, self.tests)?;
        test.extend_from_slice(b"\"")?;
        Ok(test)
    }

    /// Begins what is done where a test holds.
    pub fn begin_test(&mut self, test: &[u8], owner: Owner) -> Result<(), AllocError>
        ensures { OnOk result (spec.Adds (spec.if_text test.now) self.old self.new) }
    {
        let mut text = Vec::new(self.alloc);
        text.extend_from_slice(b"if ")?;
        text.extend_from_slice(test)?;
        text.extend_from_slice(b" then {\n")?;
        self.push(text.as_slice())?;
        self.open.push(Open::Single(owner))?;
        Ok(())
    }

    fn close(&mut self, owner: Owner) -> Result<(), AllocError> {
        match owner {
            Owner::Test | Owner::Filter | Owner::Other => self.push(b"}\n"),
            Owner::Ruleset => {
                self.ruleset = self.outer;
                Ok(())
            }
            Owner::Silent => Ok(()),
        }
    }

    // Whether an `else` comes behind a place.
    fn is_else(&self, from: usize) -> bool {
        next_kind(self.pieces, from) == Some(Kind::Word(Word::Else))
    }

    // Whether what is open for one statement is a filter alone.
    fn is_of_filter(&self) -> bool {
        let open = self.open.as_slice();
        let len = open.len();
        if len > 1 && matches!(open[len - 2], Open::Single(_)) {
            return false;
        }
        len > 0 && open[len - 1] == Open::Single(Owner::Filter)
    }

    /// A statement is over: so are those that it was the only one of. Only after an action of a filter `&` goes on with that.
    pub fn complete(&mut self, from: usize) -> Result<(), AllocError> {
        if !self.is_of_filter() {
            self.last = Vec::new(self.alloc);
        }
        for _ in 0..self.open.len() {
            let Some(Open::Single(owner)) = self.open.last().copied() else {
                return Ok(());
            };
            self.open.pop();
            self.close(owner)?;
            if owner == Owner::Test && self.is_else(from) {
                return Ok(());
            }
        }
        Ok(())
    }

    /// A block begins.
    pub fn begin_block(&mut self) -> Result<(), AllocError> {
        if let Some(Open::Single(owner)) = self.open.last().copied() {
            self.open.pop();
            self.open.push(Open::Block(owner))?;
            return Ok(());
        }
        self.push(b"if prifilt(\"*.*\") then {\n")?;
        self.open.push(Open::Block(Owner::Other))?;
        Ok(())
    }

    /// A block ends.
    pub fn end_block(&mut self, from: usize) -> Result<(), AllocError> {
        for _ in 0..self.open.len() {
            match self.open.pop() {
                Some(Open::Single(owner)) => self.close(owner)?,
                Some(Open::Block(owner)) => {
                    self.close(owner)?;
                    if owner == Owner::Ruleset || owner == Owner::Silent {
                        return Ok(());
                    }
                    if owner == Owner::Test && self.is_else(from) {
                        return Ok(());
                    }
                    return self.complete(from);
                }
                None => return Ok(()),
            }
        }
        Ok(())
    }
}
