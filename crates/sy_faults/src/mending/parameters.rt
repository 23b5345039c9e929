//! Goes on behind a fault of a script that stands among the parameters of an object.

use crate::mending::begins_statement;
use crate::mending::mended_text::Draft;
use crate::mending::pieces::{Mark, Piece, before, is_sign, is_word, piece_at};
use std::alloc::AllocError;
use sy_places::site_file::source::{behind, between};

/// A parameter that was taken away: the place of its object's word, and that of its name, with the place behind it.
#[derive(Clone, Copy)]
pub struct CutParameter {
    pub object: usize,
    pub name: (usize, usize),
}

// Whether a string among these pieces goes over several lines: likely one whose quote is lacking.
fn has_long_string(text: &[u8], pieces: &[Piece], first: usize, at: usize) -> bool {
    let Some(found) = pieces.get(first..at.saturating_add(1).min(pieces.len())) else {
        return true;
    };
    found.iter().any(|piece| {
        piece.mark == Mark::Text && between(text, piece.start, piece.end).contains(&b'\n')
    })
}

// The number of the last piece of an object that isn't closed before the piece at which that is met.
fn last_of_unclosed(text: &[u8], pieces: &[Piece], first: usize, at: usize) -> Option<usize> {
    let last = at.checked_sub(1)?;
    match pieces.get(at) {
        None => return Some(last),
        Some(piece) => {
            if matches!(piece.mark, Mark::Sign(b'{' | b'}')) {
                return Some(last);
            }
        }
    }
    if last > first && begins_statement(text, pieces.get(last)) {
        return last.checked_sub(1);
    }
    None
}

// Closes an object behind its last piece where there is a blank, and else takes it away.
fn close(draft: &mut Draft, head: &Piece, last: Option<&Piece>) -> Result<bool, AllocError> {
    let Some(last) = last else {
        return Ok(false);
    };
    if matches!(draft.text().get(last.end), Some(b' ' | b'\t' | b'\r')) {
        draft.write(last.end, b")");
        return Ok(true);
    }
    if is_word(draft.text(), Some(head), b"ruleset") {
        return Ok(false);
    }
    if is_word(draft.text(), Some(head), b"action") {
        return draft.replace(head.start, last.end, b"stop");
    }
    draft.cut(head.start, last.end)?;
    Ok(true)
}

// Takes away the commas from a piece up to the end of its object.
fn cut_commas(draft: &mut Draft, pieces: &[Piece], at: usize) -> Result<(), AllocError> {
    let Some(rest) = pieces.get(at..) else {
        return Ok(());
    };
    for piece in rest {
        if piece.mark == Mark::Sign(b')') {
            return Ok(());
        }
        if piece.mark == Mark::Sign(b',') {
            draft.cut(piece.start, piece.end)?;
        }
    }
    Ok(())
}

// Where what stands in the place of a value ends.
fn value_end(text: &[u8], piece: Option<&Piece>, place: usize) -> usize {
    if let Some(
        Piece {
            mark: Mark::Text,
            end,
            ..
        },
    ) = piece
    {
        return *end;
    }
    let mut end = place;
    for byte in behind(text, place) {
        if matches!(*byte, b' ' | b'\t' | b'\r' | b'\n' | b')') {
            return end;
        }
        end = end.saturating_add(1);
    }
    end
}

// Takes away a parameter from its name up to a place. A ruleset whose name goes has another one then.
fn cut_parameter(
    draft: &mut Draft,
    head: &Piece,
    name: &Piece,
    end: usize,
    cuts: &mut Vec<CutParameter>,
) -> Result<(), AllocError> {
    let is_name = is_word(draft.text(), Some(name), b"name")
        && is_word(draft.text(), Some(head), b"ruleset");
    draft.cut(name.start, end)?;
    if is_name && end.saturating_sub(name.start) >= 8 {
        let byte = draft.made_byte();
        draft.write(name.start, b"name=\"");
        draft.write(name.start.saturating_add(6), &[byte, b'"']);
    }
    cuts.push(CutParameter {
        object: head.start,
        name: (name.start, name.end),
    })?;
    Ok(())
}

// The name of the parameter in which a piece stands, where it does.
fn name_before<'p>(pieces: &'p [Piece], first: usize, at: usize) -> Option<&'p Piece> {
    let mut number = at.checked_sub(1)?;
    if is_sign(pieces.get(number), b'=') {
        number = number.checked_sub(1)?;
    }
    match pieces.get(number) {
        Some(piece) if piece.mark == Mark::Word && number > first => Some(piece),
        _ => None,
    }
}

/// Takes away what stands at a piece among the parameters that begin at a parenthesis, and answers whether that could be
/// done.
pub fn mend_parameters(
    draft: &mut Draft,
    pieces: &[Piece],
    at: usize,
    place: usize,
    opening: usize,
    cuts: &mut Vec<CutParameter>,
) -> Result<bool, AllocError> {
    let first = piece_at(pieces, opening);
    let Some(head) = before(pieces, first) else {
        return Ok(false);
    };
    if has_long_string(draft.text(), pieces, first, at) {
        return Ok(false);
    }
    if let Some(last) = last_of_unclosed(draft.text(), pieces, first, at) {
        return close(draft, head, pieces.get(last));
    }
    if is_sign(pieces.get(at), b',') {
        cut_commas(draft, pieces, at)?;
        return Ok(true);
    }
    let end = value_end(draft.text(), pieces.get(at), place);
    if let Some(name) = name_before(pieces, first, at) {
        cut_parameter(draft, head, name, end, cuts)?;
        return Ok(true);
    }
    draft.cut(place, end)?;
    Ok(end > place)
}
