//! Goes on behind a fault of a script: as little is taken away as lets the reader go on.

pub mod mended_text;
pub mod parameters;
pub mod pieces;
pub mod plan;

use crate::mending::mended_text::Draft;
use crate::mending::parameters::{CutParameter, mend_parameters};
use crate::mending::pieces::{
    Mark, Piece, before, behind_pieces, closed_at, is_sign, is_word, piece_at, pieces_of,
};
use std::alloc::{AllocError, Global};
use sy_fault_notes::script::legacy::selector_line;
use sy_fault_notes::script::opened::{Opening, open_at};
use sy_places::site_file::source::{behind, between, find, word_in};
use sy_script::{FaultCode, ScriptFault};

/// The words that the objects begin with that stand at the top alone.
static OBJECTS: [&[u8]; 5] = [b"module", b"global", b"main_queue", b"input", b"ruleset"];

/// The words that statements begin with.
static STATEMENTS: [&[u8]; 4] = [b"action", b"call", b"stop", b"if"];

fn is_any(text: &[u8], piece: Option<&Piece>, words: &[&[u8]]) -> bool {
    words.iter().any(|word| is_word(text, piece, word))
}

/// Whether a piece is a word that an object or a statement begins with.
pub fn begins_statement(text: &[u8], piece: Option<&Piece>) -> bool {
    is_any(text, piece, &OBJECTS) || is_any(text, piece, &STATEMENTS)
}

// ---- a statement

// Where the line of a place ends, with those that a \ at its end goes on in.
fn line_end(text: &[u8], place: usize) -> usize {
    let mut end = place;
    for _ in 0..64 {
        let rest = behind(text, end);
        let size = match find(rest, b"\n") {
            Some(size) => size,
            None => rest.len(),
        };
        let line = between(rest, 0, size);
        end = end.saturating_add(size);
        match line {
            [.., b'\\'] | [.., b'\\', b'\r'] => end = end.saturating_add(1),
            _ => return end.min(text.len()),
        }
    }
    end.min(text.len())
}

// Where a statement ends whose word stands before a parenthesis, with a block behind that.
fn end_with_block(text: &[u8], pieces: &[Piece], at: usize) -> Option<usize> {
    let end = closed_at(pieces, at, b'(', b')')?;
    let mut next = piece_at(pieces, end);
    if is_word(text, pieces.get(next), b"do") {
        next = next.saturating_add(1);
    }
    if is_sign(pieces.get(next), b'{') {
        return closed_at(pieces, next, b'{', b'}');
    }
    if is_sign(pieces.get(next), b';') {
        return Some(end.saturating_add(1));
    }
    Some(end)
}

// Where a statement of one line ends: behind a semicolon, or before a brace that closes what is round it.
fn end_in_line(pieces: &[Piece], at: usize, line: usize) -> usize {
    for piece in behind_pieces(pieces, at) {
        if piece.start >= line {
            return line;
        }
        if piece.mark == Mark::Sign(b';') {
            return piece.end;
        }
        if piece.mark == Mark::Sign(b'}') {
            return piece.start;
        }
    }
    line
}

// Whether a word is one of rsyslog's older formats, whose lines are whole statements: a directive, or a selector.
fn is_of_line(word: &[u8]) -> bool {
    let is_variable = word.len() < 2 || word.starts_with(b"$.");
    (word.first() == Some(&b'$') && !is_variable) || word.contains(&b'.')
}

// Where the statement ends that begins at a piece, and can't be read.
fn end_of_statement(text: &[u8], pieces: &[Piece], at: usize, place: usize) -> usize {
    let line = line_end(text, place);
    let Some(piece) = pieces.get(at) else {
        return line;
    };
    let word = between(text, piece.start, piece.end);
    if piece.mark != Mark::Word || is_of_line(word) || selector_line(text, place).is_some() {
        return line;
    }
    let next = at.saturating_add(1);
    if is_sign(pieces.get(next), b'(') {
        return match end_with_block(text, pieces, next) {
            Some(end) => end,
            None => line,
        };
    }
    end_in_line(pieces, at, line)
}

// Where the line of a place begins, with its blanks left out.
fn line_start(text: &[u8], place: usize) -> usize {
    let mut start: usize = 0;
    let mut at: usize = 0;
    for byte in text.iter().take(place) {
        at = at.saturating_add(1);
        if *byte == b'\n' {
            start = at;
        }
    }
    match word_in(between(text, start, place), 0) {
        Some((blanks, b"if")) => start.saturating_add(blanks),
        _ => place,
    }
}

// Takes a statement away. A `stop` stands in its place, as a test before it may want one; where it has no room there, the
// whole line goes, where that is a test.
fn mend_statement(
    draft: &mut Draft,
    pieces: &[Piece],
    at: usize,
    place: usize,
) -> Result<bool, AllocError> {
    let end = end_of_statement(draft.text(), pieces, at, place);
    if draft.replace(place, end, b"stop")? {
        return Ok(true);
    }
    let start = line_start(draft.text(), place);
    if !draft.replace(start, end, b"stop")? {
        draft.cut(start, end)?;
    }
    Ok(end > place)
}

// ---- braces, and what lacks them

// The number of the piece that begins the object whose parameters end before a piece.
fn head_before(pieces: &[Piece], at: usize) -> Option<usize> {
    let mut number = at;
    for piece in pieces.get(..at)?.iter().rev() {
        number = number.saturating_sub(1);
        if piece.mark == Mark::Sign(b'(') {
            return number.checked_sub(1);
        }
    }
    None
}

// Takes away a brace that is never closed, and the ruleset's word and parameters before it.
fn cut_opening(draft: &mut Draft, pieces: &[Piece], brace: usize) -> Result<bool, AllocError> {
    let at = piece_at(pieces, brace);
    let end = brace.saturating_add(1);
    if !is_sign(before(pieces, at), b')') {
        draft.cut(brace, end)?;
        return Ok(true);
    }
    let Some(head) = head_before(pieces, at) else {
        return Ok(false);
    };
    match pieces.get(head) {
        Some(piece) if is_word(draft.text(), Some(piece), b"ruleset") => {
            draft.cut(piece.start, end)?;
            Ok(true)
        }
        _ => Ok(false),
    }
}

// Takes away the word and the parameters of a ruleset without a brace, which stand before a piece.
fn cut_head(draft: &mut Draft, pieces: &[Piece], at: usize) -> Result<bool, AllocError> {
    let (Some(head), Some(last)) = (head_before(pieces, at), before(pieces, at)) else {
        return Ok(false);
    };
    match pieces.get(head) {
        Some(piece) if is_sign(Some(last), b')') => {
            if !is_word(draft.text(), Some(piece), b"ruleset") {
                return Ok(false);
            }
            draft.cut(piece.start, last.end)?;
            Ok(true)
        }
        _ => Ok(false),
    }
}

// Where a text ends that goes on with a block.
fn mend_end(draft: &mut Draft, pieces: &[Piece], at: usize) -> Result<bool, AllocError> {
    let last = before(pieces, at);
    let wants_block = is_any(draft.text(), last, &[b"then", b"else"]);
    if wants_block {
        draft.append(b"\nstop")?;
    }
    Ok(wants_block)
}

// At a piece that begins no statement, or stands where none may stand.
fn mend_at(
    draft: &mut Draft,
    pieces: &[Piece],
    at: usize,
    place: usize,
    brace: Option<usize>,
) -> Result<bool, AllocError> {
    let Some(piece) = pieces.get(at) else {
        return mend_end(draft, pieces, at);
    };
    if piece.mark == Mark::Sign(b'{') || piece.mark == Mark::Sign(b'}') {
        draft.cut(piece.start, piece.end)?;
        return Ok(true);
    }
    let text = draft.text();
    match brace {
        Some(brace) if is_any(text, Some(piece), &OBJECTS) => cut_opening(draft, pieces, brace),
        _ if begins_statement(text, Some(piece)) => cut_head(draft, pieces, at),
        _ => mend_statement(draft, pieces, at, place),
    }
}

// ---- tests

// Where the test begins in which a piece stands: behind its `if`.
fn test_before(text: &[u8], pieces: &[Piece], at: usize) -> Option<usize> {
    for piece in pieces.get(..at)?.iter().rev() {
        if is_word(text, Some(piece), b"if") {
            return Some(piece.end);
        }
        let is_end = is_any(text, Some(piece), &[b"then", b"else"])
            || begins_statement(text, Some(piece));
        if is_end || matches!(piece.mark, Mark::Sign(b'{' | b'}')) {
            return None;
        }
    }
    None
}

// What stands behind a test: the piece `then`, or where that is lacking a brace or a statement.
fn test_behind<'p>(text: &[u8], pieces: &'p [Piece], at: usize) -> Option<&'p Piece> {
    for piece in behind_pieces(pieces, at) {
        let is_end = is_word(text, Some(piece), b"then") || begins_statement(text, Some(piece));
        if is_end || piece.mark == Mark::Sign(b'{') {
            return Some(piece);
        }
        if piece.mark == Mark::Sign(b'}') {
            return None;
        }
    }
    None
}

// Puts another test in the place of one, with a `then` where that is lacking.
fn mend_test(
    draft: &mut Draft,
    pieces: &[Piece],
    at: usize,
    start: usize,
) -> Result<bool, AllocError> {
    match test_behind(draft.text(), pieces, at) {
        Some(end) if is_word(draft.text(), Some(end), b"then") => {
            draft.replace(start, end.start, b"$msg==\"\"")
        }
        Some(end) => draft.replace(start, end.start, b"$msg==\"\"then "),
        None => Ok(false),
    }
}

// ---- all of them

// At a place where a token may not stand, or none begins.
fn mend_token(
    alloc: Global,
    draft: &mut Draft,
    place: usize,
    cuts: &mut Vec<CutParameter>,
) -> Result<bool, AllocError> {
    let pieces = pieces_of(alloc, draft.text())?;
    let at = piece_at(pieces.as_slice(), place);
    let open = open_at(draft.text(), place);
    let brace = match open {
        Some(open) if open.opening == Opening::Parameters => {
            return mend_parameters(draft, pieces.as_slice(), at, place, open.place, cuts);
        }
        Some(open) if open.opening == Opening::Brace => Some(open.place),
        _ => None,
    };
    match test_before(draft.text(), pieces.as_slice(), at) {
        Some(start) => mend_test(draft, pieces.as_slice(), at, start),
        None => mend_at(draft, pieces.as_slice(), at, place, brace),
    }
}

// At what is open up to the end of the text.
fn mend_unclosed(draft: &mut Draft, place: usize) -> Result<bool, AllocError> {
    match draft.text().get(place) {
        Some(b'{') => draft.append(b"\n}")?,
        Some(b'(') => draft.append(b"\n)")?,
        Some(b'/') => {
            let end = draft.text().len();
            draft.cut(place, end)?;
        }
        _ => return Ok(false),
    }
    Ok(true)
}

/// Takes away what has a fault, by its place, so that what is behind it can be read, and answers whether that could be
/// done. The parameters that go are noted.
pub fn mend_script(
    alloc: Global,
    draft: &mut Draft,
    fault: &ScriptFault,
    place: usize,
    cuts: &mut Vec<CutParameter>,
) -> Result<bool, AllocError> {
    match fault.code {
        FaultCode::Unclosed => mend_unclosed(draft, place),
        FaultCode::LeftOut => {
            let pieces = pieces_of(alloc, draft.text())?;
            let at = piece_at(pieces.as_slice(), place);
            mend_statement(draft, pieces.as_slice(), at, place)
        }
        FaultCode::Byte | FaultCode::Unexpected => mend_token(alloc, draft, place, cuts),
        FaultCode::TooDeep | FaultCode::TooLarge | FaultCode::NoMemory => Ok(false),
    }
}
