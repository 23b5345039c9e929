//! The tree of a script. Every word, number and string keeps its place in the text.

use crate::boxed::Boxed;
use crate::items::Items;

/// The bytes from `start` up to, and without, `end`, counted from 0.
#[derive(Clone, Copy, Debug)]
pub struct Span {
    pub start: usize,
    pub end: usize,
}

/// A word, a property (with its `$`) or a number, as the text spells it.
#[derive(Drop)]
pub struct Word {
    pub text: Items<u8>,
    pub span: Span,
}

/// A string: its bytes with the escapes resolved, and the place of it with its quotes.
#[derive(Drop)]
pub struct Text {
    pub bytes: Items<u8>,
    pub span: Span,
}

/// `name="value"`
#[derive(Drop)]
pub struct Param {
    pub name: Word,
    pub value: Text,
}

/// The objects that stand alone in a file.
#[derive(Clone, Copy)]
pub enum ObjectKind {
    Module,
    Global,
    MainQueue,
    Input,
}

/// `module(..)`, `global(..)`, `main_queue(..)` or `input(..)`, with the place of that word.
#[derive(Drop)]
pub struct Object {
    pub kind: ObjectKind,
    pub span: Span,
    pub params: Items<Param>,
}

/// `ruleset(..) { .. }`, with the place of the word `ruleset`.
#[derive(Drop)]
pub struct Ruleset {
    pub span: Span,
    pub params: Items<Param>,
    pub body: Items<Stmt>,
}

/// Which operator the signs are; `Named` is any word, as `contains`.
#[derive(Clone, Copy)]
pub enum Operator {
    Equal,
    NotEqual,
    Less,
    AtMost,
    Greater,
    AtLeast,
    Named,
}

/// A test of a property, as `$msg contains "x"`. The operator's spelling is the text's, also for signs.
#[derive(Drop)]
pub struct Comparison {
    pub property: Word,
    pub operator: Operator,
    pub spelling: Word,
    pub operand: Operand,
}

/// What a property is compared with.
#[derive(Drop)]
pub enum Operand {
    Number(Word),
    Text(Text),
}

/// An expression, as it is written: parentheses are kept, since they count for its depth.
#[derive(Drop)]
pub enum ExprTree {
    /// Two or more parts joined by `or`.
    Or(Items<ExprTree>),
    /// Two or more parts joined by `and`.
    And(Items<ExprTree>),
    /// `not`, after which a `Group` or a `Prifilt` stands.
    Not(Boxed<ExprTree>),
    /// `( .. )`
    Group(Boxed<ExprTree>),
    /// `prifilt("..")`
    Prifilt(Text),
    Compare(Comparison),
}

/// What a test leads to.
#[cycle(tree)]
#[derive(Drop)]
pub enum Block {
    /// A statement without braces.
    Single(Boxed<Stmt>),
    /// The statements in braces.
    Braced(Items<Stmt>),
}

/// A statement.
#[cycle(tree)]
#[derive(Drop)]
pub enum Stmt {
    /// The place of the word `action`, and the parameters.
    Action(Span, Items<Param>),
    /// The name of the ruleset.
    Call(Word),
    /// The place of the word `stop`.
    Stop(Span),
    /// The test, what is done where it holds, and what `else` says.
    If(ExprTree, Block, Option<Block>),
}

/// What stands at the top of a file.
#[derive(Drop)]
pub enum Top {
    Object(Object),
    Ruleset(Ruleset),
    Stmt(Stmt),
}

/// A whole file, in the order of the text.
#[derive(Drop)]
pub struct Script {
    pub tops: Items<Top>,
}
