//! The statements of a text: stretches of its pieces, each of one sort.
ghost use Rattle.std.specs.Prelude.{◌≡◌, ◌<◌, ◌≤◌, Some, length, slice_get, Decides, IfSome};
ghost use Rattle.sy_fleet.specs.Statements as spec;

use sy_fleet_text::{Kind, Mark, Piece, Word};

/// Why what follows is taken for granted.
#[derive(Clone, Copy, PartialEq, Eq)]
pub enum Assumption {
    /// What other files have isn't read.
    Included,
    /// A template keeps of a message what is to be kept.
    Template,
    /// A module that changes messages drops none, and keeps their facility and severity.
    Changed,
    /// A parser reads each message, with its facility and severity.
    Parser,
    /// The rulesets that are called by a name that isn't known before lose nothing.
    Indirect,
    /// A file that is open takes what is written: rsyslogd discards what a full disk refuses.
    FileTakes,
    /// A connection hands on what the kernel took.
    LinkHandsOn,
    /// rsyslogd doesn't end while its queues in memory have messages.
    Memory,
    /// A queue on a disk has room there, and its files outlive the process.
    Disk,
    /// What isn't allowed to send has nothing to keep.
    Senders,
    /// No message is longer than the greatest size.
    Size,
    /// A directive or an object that isn't known has no effect on keeping.
    Unknown,
    /// Messages come in, as by imuxsock, though no input is in the text.
    NoInput,
}

/// What became of a statement.
#[derive(Clone, Copy, PartialEq, Eq)]
pub enum Sort {
    /// Blanks and comments.
    Layout,
    /// It is in the plan.
    Planned,
    /// Something is taken for granted.
    Assumed(Assumption),
    /// It has no effect on what is kept.
    WithoutEffect,
}

/// A statement, or a part of one that is read by itself: the pieces from `first` up to `end`, and what became of it.
#[derive(Clone, Copy)]
pub struct Statement {
    pub first: usize,
    pub end: usize,
    pub sort: Sort,
}

// The kind of piece that ends what begins so; nothing where that is all of it.
fn ends_by(begin: Kind) -> Option<Kind>
    ensures { result ≡ spec.ends_by begin }
{
    match begin {
        Kind::Opening(_) => Some(Kind::Mark(Mark::Closing)),
        Kind::Word(word) => match word {
            Word::If => Some(Kind::Word(Word::Then)),
            Word::Foreach => Some(Kind::Word(Word::Do)),
            Word::Set | Word::Unset | Word::Reset | Word::CallIndirect => {
                Some(Kind::Mark(Mark::Semicolon))
            }
            Word::Call => Some(Kind::Bare),
            Word::Then | Word::Else | Word::Do | Word::Stop | Word::Continue => None,
        },
        _ => None,
    }
}

fn is_same(kind: Kind, other: Kind) -> bool
    ensures { Decides result (kind ≡ other) }
{
    kind == other
}

// The place behind the first piece of a kind behind another one, or the end.
fn end_by(pieces: &[Piece], first: usize, end: Kind) -> usize
    requires { first < length pieces.now }
    ensures goes_on { first < result }
    ensures within { result ≤ length pieces.now }
    ensures ends { spec.EndsBy pieces.now (Some end) first result }
{
    for at in first + 1..pieces.len() {
        if is_same(pieces[at].kind, end) {
            return at + 1;
        }
    }
    pieces.len()
}

/// Where the statement ends that begins with a piece.
pub(crate) fn statement_end(pieces: &[Piece], first: usize) -> usize
    requires { first < length pieces.now }
    ensures goes_on { first < result }
    ensures within { result ≤ length pieces.now }
    ensures ends { IfSome (slice_get pieces.now first) (λ piece. spec.EndsBy pieces.now (spec.ends_by piece.kind) first result) }
{
    match ends_by(pieces[first].kind) {
        Some(end) => end_by(pieces, first, end),
        None => first + 1,
    }
}

// Whether a piece is blank or a comment.
fn is_layout(kind: Kind) -> bool {
    matches!(kind, Kind::Blank | Kind::Comment | Kind::Continuation)
}

/// The kind of the first piece from a place on that isn't blank or a comment.
pub(crate) fn next_kind(pieces: &[Piece], from: usize) -> Option<Kind> {
    for piece in pieces.get(from..).unwrap_or(&[]) {
        if !is_layout(piece.kind) {
            return Some(piece.kind);
        }
    }
    None
}
