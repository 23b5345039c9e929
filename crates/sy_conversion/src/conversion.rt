//! A whole configuration.
ghost use Rattle.std.specs.Prelude.{[], ◌≡◌, ◌<◌, ◌≤◌, ◌+◌, ◌++◌, ◌∷◌, not, false, true, slice_get, length, IfOk, IfSome, OnOk};
ghost use Rattle.std.specs.List.{list_any};
ghost use Rattle.sy_conversion.specs.Conversions as spec;
ghost use Rattle.sy_conversion.specs.internal.Written as inside;
ghost use Rattle.sy_fleet_text.specs.declared.piece.Kind.TheVariants as kinds;

use crate::actions::older_action;
use crate::draft::Draft;
use crate::fates::{Fate, Step, Told, Why};
use crate::objects::object;
use crate::older::directive;
use crate::source::Source;
use crate::tests::{again, filter, leave_whole, selector, test};
use std::alloc::{AllocError, Global};
use sy_fleet::Fleet;
use sy_fleet_text::scan::byte_at;
use sy_fleet_text::{Kind, Mark, Piece, Word};

/// A relay's configuration, and what became of the statements of the one that it was made of.
#[derive(Drop)]
pub struct Conversion {
    pub text: Vec<u8>,
    pub told: Vec<Told>,
}

impl Conversion {
    /// Whether nothing may be lost by what is left out.
    pub fn is_whole(&self) -> bool
        ensures { result ≡ not (list_any (λ t. spec.loses t.fate) self.now.told.items) }
    {
        !has_loss(self.told.as_slice())
    }
}

// Whether something may be lost by one of these.
fn has_loss(told: &[Told]) -> bool
    ensures { result ≡ list_any (λ t. spec.loses t.fate) told.now }
{
    told.iter().any(|it| is_loss(it.fate))
}

fn is_loss(fate: Fate) -> bool
    ensures { result ≡ spec.loses fate }
{
    match fate {
        Fate::Layout | Fate::Carried => false,
        Fate::Partly => true,
        Fate::Left(why) => why.is_loss(),
    }
}

fn copied(draft: &mut Draft, source: Source<'_>, statement: usize) -> Result<Step, AllocError>
    ensures fate { IfOk result (λ s. s.fate ≡ Fate.Carried) }
    ensures alone { IfOk result (λ s. s.more ≡ 0) }
    ensures written { OnOk result (draft.new.text.items
        ≡ (draft.old.text.items ++ draft.old.pending.text.items) ++ inside.bytes_of source.entry.text.now source.entry.pieces.now
        source.entry.fleet.now.statements.items statement) }
{
    draft.push(source.bytes_of(statement))?;
    Ok(Step::one(Fate::Carried))
}

fn left(
    draft: &mut Draft,
    source: Source<'_>,
    statement: usize,
    why: Why,
) -> Result<Step, AllocError>
    ensures fate { IfOk result (λ s. s.fate ≡ Fate.Left why) }
    ensures alone { IfOk result (λ s. s.more ≡ 0) }
{
    draft.leave(source, statement, statement.saturating_add(1), why)?;
    Ok(Step::one(Fate::Left(why)))
}

// A call, of a ruleset that is there.
fn call(draft: &mut Draft, source: Source<'_>, statement: usize) -> Result<Step, AllocError>
    ensures fate { IfOk result (λ s. spec.is_whole_or_lost s.fate ≡ true) }
    ensures alone { IfOk result (λ s. spec.is_left s.fate ≡ false → s.more ≡ 0) }
{
    let Some(name) = source.pieces_of(statement).last() else {
        return left(draft, source, statement, Why::Called);
    };
    let name = sy_fleet_text::scan::part(source.text, name.start, name.end);
    for ruleset in &source.fleet.rulesets {
        if ruleset.name.of(source.text) == name {
            return copied(draft, source, statement);
        }
    }
    left(draft, source, statement, Why::Called)
}

fn word(
    draft: &mut Draft,
    source: Source<'_>,
    statement: usize,
    word: Word,
) -> Result<Step, AllocError>
    ensures fate { IfOk result (λ s. spec.word_may word s.fate ≡ true) }
    ensures alone { IfOk result (λ s. spec.is_left s.fate ≡ false → s.more ≡ 0) }
    ensures written { inside.is_copied (kinds.Word word) ≡ true → OnOk result (draft.new.text.items
        ≡ (draft.old.text.items ++ draft.old.pending.text.items) ++ inside.bytes_of source.entry.text.now source.entry.pieces.now
        source.entry.fleet.now.statements.items statement) }
{
    match word {
        Word::If => test(draft, source, statement),
        Word::Else => {
            draft.push_pending(source.start(statement), b"else ")?;
            Ok(Step::one(Fate::Carried))
        }
        Word::Stop => copied(draft, source, statement),
        Word::Call => call(draft, source, statement),
        Word::Foreach => leave_whole(draft, source, statement, Why::Each),
        Word::CallIndirect => left(draft, source, statement, Why::Called),
        Word::Set | Word::Unset | Word::Reset | Word::Continue => {
            left(draft, source, statement, Why::Variables)
        }
        Word::Then | Word::Do => left(draft, source, statement, Why::Unknown),
    }
}

// A block, which stands behind a test or a ruleset in a relay's configuration.
fn block(draft: &mut Draft, source: Source<'_>, statement: usize) -> Result<Step, AllocError>
    ensures fate { IfOk result (λ s. s.fate ≡ Fate.Carried) }
    ensures alone { IfOk result (λ s. s.more ≡ 0) }
{
    if !draft.is_pending() && !source.is_of_ruleset(statement) {
        draft.push(b"if prifilt(\"*.*\") then ")?;
    }
    copied(draft, source, statement)
}

fn mark(
    draft: &mut Draft,
    source: Source<'_>,
    statement: usize,
    mark: Mark,
) -> Result<Step, AllocError>
    ensures fate { IfOk result (λ s. spec.mark_may mark s.fate ≡ true) }
    ensures alone { IfOk result (λ s. spec.is_left s.fate ≡ false → s.more ≡ 0) }
    ensures written { inside.is_copied (kinds.Mark mark) ≡ true → OnOk result (draft.new.text.items
        ≡ (draft.old.text.items ++ draft.old.pending.text.items) ++ inside.bytes_of source.entry.text.now source.entry.pieces.now
        source.entry.fleet.now.statements.items statement) }
{
    match mark {
        Mark::BlockOpening => block(draft, source, statement),
        Mark::BlockClosing => copied(draft, source, statement),
        Mark::And => again(draft, source, statement),
        Mark::Closing | Mark::Semicolon | Mark::Sign => {
            left(draft, source, statement, Why::Unknown)
        }
    }
}

// A destination of the older syntax, of which one discards.
fn destination(draft: &mut Draft, source: Source<'_>, statement: usize) -> Result<Step, AllocError>
    ensures fate { IfOk result (λ s. spec.is_told s.fate ≡ true) }
    ensures alone { IfOk result (λ s. spec.is_left s.fate ≡ false → s.more ≡ 0) }
{
    if byte_at(source.bytes_of(statement), 0) == b'~' {
        draft.push(b"stop")?;
        return Ok(Step::one(Fate::Carried));
    }
    let fate = older_action(draft, source, statement)?;
    Ok(Step::one(fate))
}

fn layout(
    draft: &mut Draft,
    source: Source<'_>,
    statement: usize,
    kind: Kind,
) -> Result<Step, AllocError>
    ensures fate { IfOk result (λ s. s.fate ≡ Fate.Layout) }
    ensures alone { IfOk result (λ s. s.more ≡ 0) }
{
    let bytes = source.bytes_of(statement);
    match kind {
        Kind::Blank => draft.push_blank(bytes)?,
        Kind::Comment => draft.push_comment(bytes)?,
        _ => {}
    }
    Ok(Step::one(Fate::Layout))
}

// Takes a statement.
fn take(
    draft: &mut Draft,
    source: Source<'_>,
    statement: usize,
    piece: Piece,
) -> Result<Step, AllocError>
    ensures fate { IfOk result (λ s. spec.may_become piece.kind s.fate ≡ true) }
    ensures alone { IfOk result (λ s. spec.is_left s.fate ≡ false → s.more ≡ 0) }
    ensures written { inside.is_copied (piece.kind) ≡ true → OnOk result (draft.new.text.items
        ≡ (draft.old.text.items ++ draft.old.pending.text.items) ++ inside.bytes_of source.entry.text.now source.entry.pieces.now
        source.entry.fleet.now.statements.items statement) }
{
    match piece.kind {
        Kind::Blank | Kind::Comment | Kind::Continuation => {
            layout(draft, source, statement, piece.kind)
        }
        Kind::Opening(kind) => object(draft, source, statement, kind),
        Kind::Word(it) => word(draft, source, statement, it),
        Kind::Mark(it) => mark(draft, source, statement, it),
        Kind::Directive => {
            let fate = directive(draft, source, statement)?;
            Ok(Step::one(fate))
        }
        Kind::Selector => selector(draft, source, statement),
        Kind::Filter => filter(draft, source, statement),
        // (rsyslogd reads these blocks no more: what stands in them holds for all messages)
        Kind::Program | Kind::Host => left(draft, source, statement, Why::Setting),
        Kind::Destination => destination(draft, source, statement),
        Kind::Users => left(draft, source, statement, Why::Users),
        _ => left(draft, source, statement, Why::Unknown),
    }
}

// Takes the statement of a number.
fn step(draft: &mut Draft, source: Source<'_>, first: usize) -> Result<Step, AllocError>
    ensures fate { IfOk result (λ s. IfSome (spec.piece_of source.entry.pieces.now (slice_get source.entry.fleet.now.statements.items first))
        (λ piece. spec.may_become piece.kind s.fate ≡ true)) }
    ensures alone { IfOk result (λ s. spec.is_left s.fate ≡ false → s.more ≡ 0) }
{
    match source.first_of(first) {
        Some(piece) => take(draft, source, first, piece),
        None => left(draft, source, first, Why::Unknown),
    }
}

// The number behind a statement and some more, up to that of all.
fn behind(first: usize, more: usize, most: usize) -> usize
    requires { first < most }
    ensures goes_on { first < result }
    ensures within { result ≤ most }
    ensures alone { more ≡ 0 → result ≡ first + 1 }
{
    let left = most - first - 1;
    first + 1 + more.min(left)
}

fn push_told(told: &mut Vec<Told>, it: Told) -> Result<(), AllocError>
    ensures { OnOk result (told.new.items ≡ told.old.items ++ it ∷ []) }
{
    told.push(it)?;
    Ok(())
}

// Takes all statements.
fn take_all(draft: &mut Draft, source: Source<'_>) -> Result<Vec<Told>, AllocError>
    ensures { IfOk result (λ told. spec.AreTold source.entry.pieces.now source.entry.fleet.now.statements.items told.items) }
{
    let mut told = Vec::new(draft.alloc);
    let most = source.len();
    let mut first = 0;
    while first < most {
        let Step { more, fate } = step(draft, source, first)?;
        let end = behind(first, more, most);
        push_told(&mut told, Told { first, end, fate })?;
        first = end;
    }
    Ok(told)
}

/// The lines before all others.
const HEAD: &[u8] =
    b"# Made by syc convert. What couldn't be carried over stands in comments, and why.
# Senders must use octet-counted frames over TCP, as omfwd does with TCP_Framing=\"octet-counted\".
# Where no retry count was given it is -1, which never gives a message up.
module(load=\"imtcp\")
";

// The whole text.
fn finish(draft: Draft) -> Result<Vec<u8>, AllocError> {
    let mut draft = draft;
    if draft.is_in_ruleset {
        draft.push(b"}\n")?;
    }
    let mut text = Vec::new(draft.alloc);
    text.extend_from_slice(HEAD)?;
    text.extend_from_slice(draft.text.as_slice())?;
    if !text.as_slice().ends_with(b"\n") {
        text.push(b'\n')?;
    }
    text.extend_from_slice(draft.tail.as_slice())?;
    Ok(text)
}

/// Carries over a configuration whose pieces these are, and which comes to this.
pub fn converted(
    alloc: Global,
    text: &[u8],
    pieces: &[Piece],
    fleet: &Fleet,
) -> Result<Conversion, AllocError>
    ensures { IfOk result (λ c. spec.AreTold pieces.now fleet.now.statements.items c.told.items) }
{
    let source = Source {
        text,
        pieces,
        fleet,
    };
    let mut draft = Draft::new(alloc);
    let told = take_all(&mut draft, source)?;
    let text = finish(draft)?;
    Ok(Conversion { text, told })
}
