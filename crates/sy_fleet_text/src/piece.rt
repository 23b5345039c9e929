//! What a piece of a text is.

/// A piece: its kind, the bytes from `start` up to `end`, and how many blocks are open before it.
#[derive(Clone, Copy)]
pub struct Piece {
    pub kind: Kind,
    pub start: usize,
    pub end: usize,
    pub depth: usize,
}

/// The kind of a piece. All but the first three are parts of statements.
#[derive(Clone, Copy, PartialEq, Eq)]
pub enum Kind {
    Blank,
    Comment,
    /// A `\` and the line feed after it.
    Continuation,
    /// The name of an object and its `(`.
    Opening(Object),
    /// The name of a parameter, with a `=` behind it.
    Name,
    /// A text in quotes: `"`, `'` or a backtick.
    Quoted,
    /// A value without quotes, or the name of a ruleset that is called.
    Bare,
    /// A number, the name of a function or an operator's word, in an expression.
    Term,
    /// `$` and a name, in an expression.
    Variable,
    /// One byte that stands for itself.
    Mark(Mark),
    /// A word of the language.
    Word(Word),
    /// `$Name value`, to the end of its line.
    Directive,
    /// `facility.priority`, up to a blank.
    Selector,
    /// `:property, operation,` and the value, where there is one.
    Filter,
    /// `!program`, to the end of its line.
    Program,
    /// `+host` or `-host`, to the end of its line.
    Host,
    /// A destination as syslog.conf has it, to the end of its line.
    Destination,
    /// The users to whom a message is shown.
    Users,
}

/// A byte that stands for itself.
#[derive(Clone, Copy, PartialEq, Eq)]
pub enum Mark {
    /// `{`
    BlockOpening,
    /// `}`
    BlockClosing,
    /// `&`, before a further action of the same filter.
    And,
    /// `)` of an object.
    Closing,
    /// `;` of an expression.
    Semicolon,
    /// Any other.
    Sign,
}

/// A word of the language.
#[derive(Clone, Copy, PartialEq, Eq)]
pub enum Word {
    If,
    Then,
    Else,
    Set,
    Unset,
    Reset,
    Foreach,
    Do,
    Call,
    CallIndirect,
    Stop,
    Continue,
}

/// An object with parameters, or what is written as one.
#[derive(Clone, Copy, PartialEq, Eq)]
pub enum Object {
    Module,
    Input,
    Action,
    Ruleset,
    Template,
    Global,
    MainQueue,
    Parser,
    Timezone,
    Include,
    LookupTable,
    DynStats,
    PercentileStats,
    Property,
    Constant,
    ReloadLookupTable,
}
