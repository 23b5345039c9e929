//! What stands where, and what it changes.

ghost use Rattle.std.specs.Prelude.{◌≡◌, ◌<◌, ◌≤◌, true, length, slice_index, Some, IfSome};
ghost use Rattle.sy_fleet_text.specs.Pieces as spec;
ghost use Rattle.sy_fleet_text.specs.Words as words;
ghost use Rattle.sy_fleet_text.specs.internal.Found as found;

use crate::classes::Class;
use crate::fault::Refusal;
use crate::lines::{colon, destination, directive, host, program, selector};
use crate::piece::{Kind, Mark, Word};
use crate::scan::{byte_at, end_of, part};
use crate::tokens::{
    Found, block_comment, continuation, line_comment, mark, name, opening, quoted, stretch,
};
use crate::words::word_of;

/// What is read at a place.
#[derive(Clone, Copy, PartialEq, Eq)]
pub enum Context {
    /// Statements, filters and actions.
    Statements,
    /// The parameters of an object, up to its `)`.
    Parameters,
    /// An expression, up to `then`, `do` or `;`.
    Expression,
    /// The name of a ruleset.
    Call,
}

// A word of the language, or an object's beginning.
fn worded(text: &[u8], at: usize) -> Option<Found>
    requires { at < length text.now }
    ensures { IfSome result (λ piece. found.IsFound text.now at piece) }
{
    let end = end_of(Class::Word, text, at);
    if end == at {
        return None;
    }
    if let Some(found) = opening(text, at, end) {
        return Some(found);
    }
    let word = word_of(part(text, at, end))?;
    Some(Found {
        kind: Kind::Word(word),
        end,
    })
}

fn statement(text: &[u8], at: usize) -> Result<Found, Refusal>
    requires { at < length text.now }
    ensures { found.Reads text.now at result }
{
    match text[at] {
        b'{' => mark(Mark::BlockOpening, text, at),
        b'}' => mark(Mark::BlockClosing, text, at),
        b'&' => mark(Mark::And, text, at),
        b'$' => directive(text, at),
        b':' => colon(text, at),
        b'!' => program(text, at),
        b'+' | b'-' => host(text, at),
        b'~' | b'/' | b'|' | b'@' | b'^' | b'?' | b'>' | b'.' => destination(text, at),
        _ => match worded(text, at) {
            Some(found) => Ok(found),
            None => selector(text, at),
        },
    }
}

fn parameter(text: &[u8], at: usize) -> Result<Found, Refusal>
    requires { at < length text.now }
    ensures { found.Reads text.now at result }
{
    match text[at] {
        b')' => mark(Mark::Closing, text, at),
        b',' | b'[' | b']' | b'=' => mark(Mark::Sign, text, at),
        b'"' | b'\'' | b'`' => quoted(text, at),
        _ => match name(text, at) {
            Some(found) => Ok(found),
            None => stretch(Class::Value, Kind::Bare, text, at),
        },
    }
}

// `then` or `do`, where the bytes up to a place are that.
fn ends_expression(word: &[u8]) -> Option<Word>
    ensures { IfSome result (λ word'. words.word_of word.now ≡ Some word') }
{
    match word_of(word) {
        Some(Word::Then) => Some(Word::Then),
        Some(Word::Do) => Some(Word::Do),
        _ => None,
    }
}

fn term(text: &[u8], at: usize) -> Result<Found, Refusal>
    requires { at < length text.now }
    ensures { found.Reads text.now at result }
{
    let end = end_of(Class::Word, text, at);
    if end == at {
        return Err(Refusal::Unexpected);
    }
    match ends_expression(part(text, at, end)) {
        Some(word) => Ok(Found {
            kind: Kind::Word(word),
            end,
        }),
        None => Ok(Found {
            kind: Kind::Term,
            end,
        }),
    }
}

// `$`, then one of `$!./`, and a name.
fn variable(text: &[u8], at: usize) -> Result<Found, Refusal>
    requires there { at < length text.now }
    requires dollar { slice_index text.now at ≡ 36 }
    ensures { found.Reads text.now at result }
{
    let from = if byte_at(text, at + 1) == b'/' && at + 1 < text.len() {
        at + 2
    } else {
        at + 1
    };
    Ok(Found {
        kind: Kind::Variable,
        end: end_of(Class::Variable, text, from),
    })
}

fn is_sign(byte: u8) -> bool
    ensures { result ≡ spec.is_sign byte }
{
    byte == b'('
        || byte == b')'
        || byte == b'['
        || byte == b']'
        || byte == b','
        || byte == b'='
        || is_operator(byte)
}

fn is_operator(byte: u8) -> bool
    ensures { result ≡ spec.is_operator byte }
{
    byte == b'<'
        || byte == b'>'
        || byte == b'!'
        || byte == b'+'
        || byte == b'-'
        || byte == b'*'
        || byte == b'/'
        || byte == b'%'
        || byte == b'&'
}

fn expression(text: &[u8], at: usize) -> Result<Found, Refusal>
    requires { at < length text.now }
    ensures { found.Reads text.now at result }
{
    let byte = text[at];
    if is_sign(byte) {
        return mark(Mark::Sign, text, at);
    }
    match byte {
        b'"' | b'\'' | b'`' => quoted(text, at),
        b'$' => variable(text, at),
        b';' => mark(Mark::Semicolon, text, at),
        _ => term(text, at),
    }
}

fn part_of(context: Context, text: &[u8], at: usize) -> Result<Found, Refusal>
    requires { at < length text.now }
    ensures { found.Reads text.now at result }
{
    match context {
        Context::Statements => statement(text, at),
        Context::Parameters => parameter(text, at),
        Context::Expression => expression(text, at),
        Context::Call => stretch(Class::Value, Kind::Bare, text, at),
    }
}

/// The piece that begins at a place.
pub(crate) fn next_piece(context: Context, text: &[u8], at: usize) -> Result<Found, Refusal>
    requires { at < length text.now }
    ensures { found.Reads text.now at result }
{
    match text[at] {
        b' ' | b'\t' | b'\n' | 12 | b'\r' => stretch(Class::Blank, Kind::Blank, text, at),
        b'#' => line_comment(text, at),
        b'\\' => continuation(text, at),
        b'/' if byte_at(text, at + 1) == b'*' => block_comment(text, at),
        _ => part_of(context, text, at),
    }
}

/// What is read behind a piece.
pub fn context_after(context: Context, kind: Kind) -> Context
    ensures { result ≡ spec.context_after context kind }
{
    match kind {
        Kind::Opening(_) => Context::Parameters,
        Kind::Mark(Mark::Closing) | Kind::Mark(Mark::Semicolon) => Context::Statements,
        Kind::Word(word) => context_after_word(word),
        Kind::Bare => context_after_bare(context),
        _ => context,
    }
}

fn context_after_word(word: Word) -> Context
    ensures { result ≡ spec.context_after_word word }
{
    match word {
        Word::If | Word::Set | Word::Unset | Word::Reset | Word::Foreach | Word::CallIndirect =>
            Context::Expression,
        Word::Call => Context::Call,
        Word::Then | Word::Do | Word::Else | Word::Stop | Word::Continue => Context::Statements,
    }
}

fn context_after_bare(context: Context) -> Context
    ensures { result ≡ spec.context_after_bare context }
{
    match context {
        Context::Call => Context::Statements,
        _ => context,
    }
}
