//! Cuts a text into tokens, byte after byte.

ghost use Rattle.std.specs.Prelude.{◌≡◌, map, IfOk, length};
ghost use Rattle.std.specs.List.{slice_range};
ghost use Rattle.std.specs.Str.{str_eq_ignore_ascii_case};
ghost use Rattle.sy_script.specs.internal.Lex as spec;
ghost use Rattle.sy_script.specs.Terms as terms;

use crate::token::{Ending, KEYWORDS, Kind, Token};
use crate::tree::Span;
use std::alloc::{AllocError, Global};

/// What the bytes before the next one belong to. The numbers are places where it began.
#[derive(Clone, Copy)]
pub enum State {
    /// To nothing that goes on: blanks, or an ended comment.
    Between,
    LineComment,
    /// A `/` that may begin a comment.
    Slash(usize),
    BlockComment(usize),
    /// A comment whose last byte is a `*`.
    Star(usize),
    /// A string in double or single quotes.
    Text(Quote, usize),
    /// A string whose last byte is a `\` that escapes the next.
    Escape(Quote, usize),
    /// A token that takes no further byte.
    Whole(Kind, usize),
    Word(usize),
    Number(usize),
    /// A `$` with no word yet.
    Dollar(usize),
    Property(usize),
    Assign(usize),
    /// A `!` with no `=` yet.
    Bang(usize),
    Less(usize),
    Greater(usize),
}

#[derive(Clone, Copy)]
pub enum Quote {
    Double,
    Single,
}

/// What a state does with the next byte.
#[derive(Clone, Copy)]
pub enum Move {
    /// It takes the byte.
    On(State),
    /// It is over, and the byte begins something else.
    Over,
    /// The byte may not follow.
    Wrong,
}

/// What comes of a byte: the token that it ends, and the next state or the end.
#[derive(Clone, Copy)]
pub struct Step {
    pub found: Option<Token>,
    pub next: Result<State, Ending>,
}

/// The tokens of a text, and how they end.
#[derive(Drop)]
pub struct Lexed {
    pub tokens: Vec<Token>,
    pub ending: Ending,
}

fn starts_word(b: u8) -> bool
    ensures { result ≡ terms.starts_word b }
{
    b.is_ascii_alphabetic() || b == b'_'
}

fn is_in_word(b: u8) -> bool
    ensures { result ≡ terms.is_in_word b }
{
    starts_word(b) || b.is_ascii_digit() || b == b'.' || b == b'-'
}

fn is_escaped(b: u8) -> bool
    ensures { result ≡ terms.is_escaped b }
{
    b == b'"' || b == b'\'' || b == b'\\' || b == b'$' || b == b'n' || b == b'r' || b == b't'
}

fn lookup(mut table: &[(&[u8], Kind)], word: &[u8]) -> Kind
    ensures { result ≡ terms.lookup (map (λ k. (k.0.now, k.1)) table.entry.now) word.now }
{
    while let [entry, rest @ ..] = table {
        if same_word(entry.0, word) {
            return entry.1;
        }
        table = rest;
    }
    Kind::Name
}

fn same_word(a: &[u8], b: &[u8]) -> bool
    ensures { result ≡ str_eq_ignore_ascii_case a.now b.now }
{
    a.eq_ignore_ascii_case(b)
}

#[tactic(auto, unfolding(crate::specs::Terms::word_kind))]
fn word_kind(word: &[u8]) -> Kind
    ensures { result ≡ terms.word_kind word.now }
{
    lookup(&KEYWORDS, word)
}

/// The bytes of a span, or those of them that are there.
pub fn part(text: &[u8], start: usize, end: usize) -> &[u8]
    ensures { result.now ≡ slice_range text.now start end }
{
    let rest = if start < text.len() {
        &text[start..]
    } else {
        &text[text.len()..]
    };
    let len = end.saturating_sub(start);
    if len < rest.len() { &rest[..len] } else { rest }
}

fn quoted(quote: Quote) -> Kind
    ensures { result ≡ spec.quoted quote }
{
    match quote {
        Quote::Double => Kind::Quoted,
        Quote::Single => Kind::SingleQuoted,
    }
}

fn closes(quote: Quote, b: u8) -> bool
    ensures { result ≡ spec.closes quote b }
{
    match quote {
        Quote::Double => b == b'"',
        Quote::Single => b == b'\'',
    }
}

// The state that a byte begins.
#[tactic(auto, unfolding(crate::specs::internal::Lex::begin))]
fn begin(at: usize, b: u8) -> Result<State, Ending>
    ensures { result ≡ spec.begin at b }
{
    match b {
        b' ' | b'\t' | b'\r' | b'\n' => Ok(State::Between),
        b'#' => Ok(State::LineComment),
        b'/' => Ok(State::Slash(at)),
        b'"' => Ok(State::Text(Quote::Double, at)),
        b'\'' => Ok(State::Text(Quote::Single, at)),
        b'$' => Ok(State::Dollar(at)),
        b'(' => Ok(State::Whole(Kind::LeftParen, at)),
        b')' => Ok(State::Whole(Kind::RightParen, at)),
        b'{' => Ok(State::Whole(Kind::LeftBrace, at)),
        b'}' => Ok(State::Whole(Kind::RightBrace, at)),
        b'=' => Ok(State::Assign(at)),
        b'!' => Ok(State::Bang(at)),
        b'<' => Ok(State::Less(at)),
        b'>' => Ok(State::Greater(at)),
        _ => begin_word(at, b),
    }
}

fn begin_word(at: usize, b: u8) -> Result<State, Ending>
    ensures { result ≡ spec.begin_word at b }
{
    if starts_word(b) {
        Ok(State::Word(at))
    } else if b.is_ascii_digit() {
        Ok(State::Number(at))
    } else {
        Err(Ending::Byte(at))
    }
}

fn take_if(takes: bool, next: State) -> Move
    ensures { result ≡ spec.take_if takes next }
{
    if takes { Move::On(next) } else { Move::Over }
}

fn in_text(quote: Quote, start: usize, b: u8) -> State
    ensures { result ≡ spec.in_text quote start b }
{
    if b == b'\\' {
        State::Escape(quote, start)
    } else if closes(quote, b) {
        State::Whole(quoted(quote), start)
    } else {
        State::Text(quote, start)
    }
}

fn in_comment(start: usize, b: u8) -> State
    ensures { result ≡ spec.in_comment start b }
{
    if b == b'*' {
        State::Star(start)
    } else {
        State::BlockComment(start)
    }
}

// What a state does with a byte.
fn go_on(state: State, b: u8) -> Move
    ensures { result ≡ spec.go_on state b }
{
    match state {
        State::Between | State::Whole(..) => Move::Over,
        State::LineComment if b == b'\n' => Move::On(State::Between),
        State::LineComment => Move::On(State::LineComment),
        State::Slash(start) => take_if(b == b'*', State::BlockComment(start)),
        State::BlockComment(start) => Move::On(in_comment(start, b)),
        State::Star(_) if b == b'/' => Move::On(State::Between),
        State::Star(start) => Move::On(in_comment(start, b)),
        State::Text(quote, start) => Move::On(in_text(quote, start, b)),
        State::Escape(quote, start) if is_escaped(b) => Move::On(State::Text(quote, start)),
        State::Escape(..) => Move::Wrong,
        State::Word(_) => take_if(is_in_word(b), state),
        State::Number(_) => take_if(b.is_ascii_digit(), state),
        State::Dollar(start) => take_if(starts_word(b), State::Property(start)),
        State::Property(_) => take_if(is_in_word(b), state),
        State::Assign(start) => take_if(b == b'=', State::Whole(Kind::Equal, start)),
        State::Bang(start) => take_if(b == b'=', State::Whole(Kind::NotEqual, start)),
        State::Less(start) => take_if(b == b'=', State::Whole(Kind::AtMost, start)),
        State::Greater(start) => take_if(b == b'=', State::Whole(Kind::AtLeast, start)),
    }
}

fn ended(kind: Kind, start: usize, end: usize) -> Result<Option<Token>, Ending>
    ensures { result ≡ spec.token kind start end }
{
    Ok(Some(Token {
        kind,
        span: Span { start, end },
    }))
}

// The token that ends before the place, or why there is none.
fn finish(text: &[u8], state: State, end: usize) -> Result<Option<Token>, Ending>
    ensures { result ≡ spec.finish text.now state end }
{
    match state {
        State::Between | State::LineComment => Ok(None),
        State::Slash(start) | State::Dollar(start) | State::Bang(start) => Err(Ending::Byte(start)),
        State::BlockComment(start) | State::Star(start) => Err(Ending::Open(start)),
        State::Text(_, start) | State::Escape(_, start) => Err(Ending::Open(start)),
        State::Whole(kind, start) => ended(kind, start, end),
        State::Word(start) => ended(word_kind(part(text, start, end)), start, end),
        State::Number(start) => ended(Kind::Number, start, end),
        State::Property(start) => ended(Kind::Property, start, end),
        State::Assign(start) => ended(Kind::Assign, start, end),
        State::Less(start) => ended(Kind::Less, start, end),
        State::Greater(start) => ended(Kind::Greater, start, end),
    }
}

// The state is over: its token, and what the byte begins.
fn turn(text: &[u8], state: State, at: usize, b: u8) -> Step
    ensures { result ≡ spec.turn text.now state at b }
{
    match finish(text, state, at) {
        Err(ending) => Step {
            found: None,
            next: Err(ending),
        },
        Ok(found) => Step {
            found,
            next: begin(at, b),
        },
    }
}

#[tactic(auto, unfolding(crate::specs::internal::Lex::step))]
fn next_step(text: &[u8], state: State, at: usize, b: u8) -> Step
    ensures { result ≡ spec.step text.now state at b }
{
    match go_on(state, b) {
        Move::On(next) => Step {
            found: None,
            next: Ok(next),
        },
        Move::Over => turn(text, state, at, b),
        Move::Wrong => Step {
            found: None,
            next: Err(Ending::Byte(at)),
        },
    }
}

fn keep(tokens: &mut Vec<Token>, found: Option<Token>) -> Result<(), AllocError>
    ensures { IfOk result (λ _. tokens.new.items ≡ spec.with_found tokens.old.items found) }
{
    if let Some(token) = found {
        tokens.push(token)?;
    }
    Ok(())
}

// The end of the text.
fn end(mut tokens: Vec<Token>, text: &[u8], state: State) -> Result<Lexed, AllocError>
    ensures { IfOk result (λ lexed. (lexed.tokens.items, lexed.ending)
        ≡ spec.with_front tokens.items (spec.end text.now state (length text.now))) }
{
    match finish(text, state, text.len()) {
        Err(ending) => Ok(Lexed { tokens, ending }),
        Ok(found) => {
            keep(&mut tokens, found)?;
            Ok(Lexed {
                tokens,
                ending: Ending::Complete,
            })
        }
    }
}

/// The tokens of a text, up to its end or to the first byte that none of them has.
pub fn tokens(alloc: Global, text: &[u8]) -> Result<Lexed, AllocError>
    ensures { IfOk result (λ lexed. (lexed.tokens.items, lexed.ending) ≡ spec.tokens text.now) }
{
    let mut tokens = Vec::new(alloc);
    let mut state = State::Between;
    for (at, b) in text.iter().enumerate() {
        let step = next_step(text, state, at, *b);
        keep(&mut tokens, step.found)?;
        match step.next {
            Ok(next) => state = next,
            Err(ending) => return Ok(Lexed { tokens, ending }),
        }
    }
    end(tokens, text, state)
}
