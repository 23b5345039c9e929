//! What a token is.

use crate::tree::Span;

/// The kind of a token. Words that the grammar knows have kinds of their own, and are words all the same.
#[derive(Clone, Copy, PartialEq, Eq)]
pub enum Kind {
    Module,
    Global,
    MainQueue,
    Input,
    Ruleset,
    Action,
    Call,
    Stop,
    If,
    Then,
    Else,
    Or,
    And,
    Not,
    Prifilt,
    /// A word that begins a statement of RainerScript which this profile leaves out.
    LeftOut,
    /// Any other word.
    Name,
    Number,
    /// `$` and a word.
    Property,
    /// A string in double quotes.
    Quoted,
    /// A string in single quotes.
    SingleQuoted,
    LeftParen,
    RightParen,
    LeftBrace,
    RightBrace,
    Assign,
    Equal,
    NotEqual,
    Less,
    AtMost,
    Greater,
    AtLeast,
}

/// A token, and where it stands.
#[derive(Clone, Copy)]
pub struct Token {
    pub kind: Kind,
    pub span: Span,
}

/// How the tokens of a text end.
#[derive(Clone, Copy)]
pub enum Ending {
    /// At the end of the text.
    Complete,
    /// At a byte that starts no token, or that no escape has.
    Byte(usize),
    /// In a string or comment that begins here and isn't ended.
    Open(usize),
}

/// The words that the grammar knows, in lower case.
pub const KEYWORDS: [(&[u8], Kind); 24] = [
    (b"module", Kind::Module),
    (b"global", Kind::Global),
    (b"main_queue", Kind::MainQueue),
    (b"input", Kind::Input),
    (b"ruleset", Kind::Ruleset),
    (b"action", Kind::Action),
    (b"call", Kind::Call),
    (b"stop", Kind::Stop),
    (b"if", Kind::If),
    (b"then", Kind::Then),
    (b"else", Kind::Else),
    (b"or", Kind::Or),
    (b"and", Kind::And),
    (b"not", Kind::Not),
    (b"prifilt", Kind::Prifilt),
    (b"include", Kind::LeftOut),
    (b"set", Kind::LeftOut),
    (b"unset", Kind::LeftOut),
    (b"reset", Kind::LeftOut),
    (b"foreach", Kind::LeftOut),
    (b"call_indirect", Kind::LeftOut),
    (b"continue", Kind::LeftOut),
    (b"template", Kind::LeftOut),
    (b"lookup_table", Kind::LeftOut),
];
