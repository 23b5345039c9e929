//! Tests and filters: those are carried over that a relay reads, with its names of properties.
ghost use Rattle.std.specs.Prelude.{◌≡◌, false, true, IfOk};
ghost use Rattle.sy_conversion.specs.Conversions as spec;

use crate::draft::Draft;
use crate::fates::{Fate, Step, Why};
use crate::readable::{is_selector, is_test};
use crate::source::Source;
use std::alloc::{AllocError, Global};
use sy_fleet_text::scan::{byte_at, part};
use sy_fleet_text::words::same_word;
use sy_fleet_text::{Kind, Piece};

// ---- expressions

// A variable as a relay has it.
fn variable(word: &[u8]) -> &[u8] {
    if same_word(b"$programname", word) {
        return b"$app-name";
    }
    if same_word(b"$source", word) {
        return b"$hostname";
    }
    word
}

// Whether a number of the class may be compared with a text, which rsyslogd does byte by byte.
fn compares_as_text(text: &[u8], pieces: &[Piece]) -> bool {
    let mut has_number = false;
    let mut has_text = false;
    for piece in pieces {
        let word = part(text, piece.start, piece.end);
        has_number = has_number
            || same_word(b"$syslogfacility", word)
            || same_word(b"$syslogseverity", word);
        has_text = has_text || piece.kind == Kind::Quoted;
    }
    has_number && has_text
}

// The text between `if` and `then`.
fn expression(alloc: Global, text: &[u8], pieces: &[Piece]) -> Result<Vec<u8>, AllocError> {
    let mut found = Vec::new(alloc);
    for at in 1..pieces.len().saturating_sub(1) {
        let piece = pieces[at];
        let word = part(text, piece.start, piece.end);
        match piece.kind {
            Kind::Variable => found.extend_from_slice(variable(word))?,
            Kind::Comment | Kind::Continuation => found.push(b' ')?,
            _ => found.extend_from_slice(word)?,
        }
    }
    Ok(found)
}

/// Leaves out the whole of what begins with a statement.
pub(crate) fn leave_whole(
    draft: &mut Draft,
    source: Source<'_>,
    statement: usize,
    why: Why,
) -> Result<Step, AllocError>
    ensures { IfOk result (λ s. s.fate ≡ Fate.Left why) }
{
    let end = source.end_of_whole(statement);
    draft.leave(source, statement, end, why)?;
    Ok(Step {
        more: end.saturating_sub(statement).saturating_sub(1),
        fate: Fate::Left(why),
    })
}

// Puts a test before what comes next.
fn push_test(
    draft: &mut Draft,
    source: Source<'_>,
    statement: usize,
    test: &[u8],
) -> Result<(), AllocError> {
    let start = source.start(statement);
    draft.push_pending(start, b"if ")?;
    draft.push_pending(start, test)?;
    draft.push_pending(start, b" then ")
}

/// Carries over a test, or leaves it out with all that stands under it.
pub(crate) fn test(
    draft: &mut Draft,
    source: Source<'_>,
    statement: usize,
) -> Result<Step, AllocError>
    ensures fate { IfOk result (λ s. spec.is_whole_or_lost s.fate ≡ true) }
    ensures alone { IfOk result (λ s. spec.is_left s.fate ≡ false → s.more ≡ 0) }
{
    let pieces = source.pieces_of(statement);
    let own = expression(draft.alloc, source.text, pieces)?;
    if compares_as_text(source.text, pieces) || !is_test(draft.alloc, own.as_slice())? {
        return leave_whole(draft, source, statement, Why::Test);
    }
    push_test(draft, source, statement, own.as_slice().trim_ascii())?;
    Ok(Step::one(Fate::Carried))
}

// ---- filters of the older syntax

// Begins a filter, which `&` goes on with.
fn begin_filter(
    draft: &mut Draft,
    source: Source<'_>,
    statement: usize,
    test: Vec<u8>,
) -> Result<Step, AllocError>
    ensures fate { IfOk result (λ s. spec.is_whole_or_lost s.fate ≡ true) }
    ensures alone { IfOk result (λ s. spec.is_left s.fate ≡ false → s.more ≡ 0) }
{
    push_test(draft, source, statement, test.as_slice())?;
    draft.filter = Some(test);
    Ok(Step::one(Fate::Carried))
}

// Leaves out a filter, with what stands under it.
fn leave_filter(draft: &mut Draft, source: Source<'_>, statement: usize) -> Result<Step, AllocError>
    ensures fate { IfOk result (λ s. spec.is_whole_or_lost s.fate ≡ true) }
    ensures alone { IfOk result (λ s. spec.is_left s.fate ≡ false → s.more ≡ 0) }
{
    draft.filter = None;
    leave_whole(draft, source, statement, Why::Test)
}

/// Carries over a selector.
pub(crate) fn selector(
    draft: &mut Draft,
    source: Source<'_>,
    statement: usize,
) -> Result<Step, AllocError>
    ensures fate { IfOk result (λ s. spec.is_whole_or_lost s.fate ≡ true) }
    ensures alone { IfOk result (λ s. spec.is_left s.fate ≡ false → s.more ≡ 0) }
{
    let word = source.bytes_of(statement);
    let word = word.strip_suffix(b";").unwrap_or(word);
    if !is_selector(draft.alloc, word)? {
        return leave_filter(draft, source, statement);
    }
    let mut test = Vec::new(draft.alloc);
    test.extend_from_slice(b"prifilt(\"")?;
    test.extend_from_slice(word)?;
    test.extend_from_slice(b"\")")?;
    begin_filter(draft, source, statement, test)
}

/// Carries over a further action of the last filter.
pub(crate) fn again(
    draft: &mut Draft,
    source: Source<'_>,
    statement: usize,
) -> Result<Step, AllocError>
    ensures fate { IfOk result (λ s. spec.is_whole_or_lost s.fate ≡ true) }
    ensures alone { IfOk result (λ s. spec.is_left s.fate ≡ false → s.more ≡ 0) }
{
    let Some(last) = &draft.filter else {
        return leave_filter(draft, source, statement);
    };
    let test = Vec::from_slice(draft.alloc, last.as_slice())?;
    begin_filter(draft, source, statement, test)
}

// The property of a filter, as a relay has it.
fn property(word: &[u8]) -> Option<&'static [u8]> {
    if same_word(b"msg", word) {
        return Some(b"$msg");
    }
    if same_word(b"hostname", word) || same_word(b"source", word) {
        return Some(b"$hostname");
    }
    if same_word(b"programname", word) || same_word(b"app-name", word) {
        return Some(b"$app-name");
    }
    if same_word(b"procid", word) {
        return Some(b"$procid");
    }
    if same_word(b"msgid", word) {
        return Some(b"$msgid");
    }
    None
}

fn operation(word: &[u8]) -> Option<&'static [u8]> {
    if same_word(b"contains", word) {
        return Some(b" contains ");
    }
    if same_word(b"startswith", word) {
        return Some(b" startswith ");
    }
    if same_word(b"isequal", word) {
        return Some(b" == ");
    }
    None
}

// A filter's part up to the next comma, and what is behind that.
fn up_to_comma(text: &[u8]) -> (&[u8], &[u8]) {
    let end = text
        .iter()
        .position(|byte| *byte == b',')
        .unwrap_or(text.len());
    (
        part(text, 0, end).trim_ascii(),
        part(text, end.saturating_add(1), text.len()),
    )
}

// The test that a filter by a property is; nothing where a relay has none like it.
fn filter_test(alloc: Global, word: &[u8]) -> Result<Option<Vec<u8>>, AllocError> {
    let (name, rest) = up_to_comma(part(word, 1, word.len()));
    let (word, value) = up_to_comma(rest);
    let is_not = byte_at(word, 0) == b'!';
    let word = if is_not {
        part(word, 1, word.len())
    } else {
        word
    };
    let (Some(property), Some(operation)) = (property(name), operation(word)) else {
        return Ok(None);
    };
    let mut test = Vec::new(alloc);
    if is_not {
        test.extend_from_slice(b"not (")?;
    }
    test.extend_from_slice(property)?;
    test.extend_from_slice(operation)?;
    test.extend_from_slice(value.trim_ascii())?;
    if is_not {
        test.extend_from_slice(b")")?;
    }
    Ok(Some(test))
}

/// Carries over a filter by a property.
pub(crate) fn filter(
    draft: &mut Draft,
    source: Source<'_>,
    statement: usize,
) -> Result<Step, AllocError>
    ensures fate { IfOk result (λ s. spec.is_whole_or_lost s.fate ≡ true) }
    ensures alone { IfOk result (λ s. spec.is_left s.fate ≡ false → s.more ≡ 0) }
{
    match filter_test(draft.alloc, source.bytes_of(statement))? {
        Some(test) if is_test(draft.alloc, test.as_slice())? => {
            begin_filter(draft, source, statement, test)
        }
        _ => leave_filter(draft, source, statement),
    }
}
