//! The pieces of a text that is meant as a script: its words, strings and signs, also where it is none.

use std::alloc::{AllocError, Global};
use sy_fault_notes::script::opened::{is_word_byte, skipped};
use sy_places::site_file::source::{behind, between};

/// What a piece is. A word may begin with `$`, and may be a number.
#[derive(Clone, Copy, PartialEq, Eq)]
pub enum Mark {
    Word,
    Text,
    Sign(u8),
}

/// A piece of a text: its first byte, and the one behind its last.
#[derive(Clone, Copy)]
pub struct Piece {
    pub mark: Mark,
    pub start: usize,
    pub end: usize,
}

// How many bytes of a word stand at the beginning.
fn word_size(rest: &[u8]) -> usize {
    let mut size: usize = 0;
    for byte in rest {
        if !is_word_byte(*byte) && !(size == 0 && *byte == b'$') {
            return size;
        }
        size = size.saturating_add(1);
    }
    size
}

// The mark of what begins at a place, where it is a piece, and how many bytes it has.
fn first_piece(rest: &[u8]) -> (Option<Mark>, usize) {
    let size = skipped(rest);
    match rest.first() {
        Some(b'"' | b'\'') => (Some(Mark::Text), size),
        Some(b' ' | b'\t' | b'\r' | b'\n') | None => (None, 1),
        Some(_) if size > 0 => (None, size),
        Some(byte) => match word_size(rest) {
            0 => (Some(Mark::Sign(*byte)), 1),
            size => (Some(Mark::Word), size),
        },
    }
}

/// The pieces of a text in their order, without blanks and comments.
pub fn pieces_of(alloc: Global, text: &[u8]) -> Result<Vec<Piece>, AllocError> {
    let mut pieces = Vec::new(alloc);
    let mut next: usize = 0;
    for start in 0..text.len() {
        if start >= next {
            let (mark, size) = first_piece(behind(text, start));
            let end = start.saturating_add(size.max(1));
            next = end;
            if let Some(mark) = mark {
                pieces.push(Piece { mark, start, end })?;
            }
        }
    }
    Ok(pieces)
}

/// The number of the piece that stands at a place, or of the first one behind it.
pub fn piece_at(pieces: &[Piece], place: usize) -> usize {
    let mut number: usize = 0;
    for piece in pieces {
        if piece.end > place {
            return number;
        }
        number = number.saturating_add(1);
    }
    number
}

/// Whether a piece is this sign.
pub fn is_sign(piece: Option<&Piece>, sign: u8) -> bool {
    match piece {
        Some(piece) => piece.mark == Mark::Sign(sign),
        None => false,
    }
}

/// Whether a piece is this word, without regard to the case of ASCII letters.
pub fn is_word(text: &[u8], piece: Option<&Piece>, word: &[u8]) -> bool {
    match piece {
        Some(piece) => {
            piece.mark == Mark::Word
                && between(text, piece.start, piece.end).eq_ignore_ascii_case(word)
        }
        None => false,
    }
}

/// The number of the piece before another.
pub fn before<'p>(pieces: &'p [Piece], number: usize) -> Option<&'p Piece> {
    pieces.get(number.checked_sub(1)?)
}

/// The place behind the sign that closes what the piece of this number opens.
pub fn closed_at(pieces: &[Piece], number: usize, opening: u8, closing: u8) -> Option<usize> {
    let mut depth: u64 = 0;
    for piece in pieces.get(number..)? {
        if piece.mark == Mark::Sign(opening) {
            depth = depth.saturating_add(1);
        }
        if piece.mark == Mark::Sign(closing) {
            depth = depth.saturating_sub(1);
            if depth == 0 {
                return Some(piece.end);
            }
        }
    }
    None
}

/// What is left of pieces, or of others of that form, from a place on.
pub fn behind_pieces<T>(pieces: &[T], at: usize) -> &[T] {
    match pieces.get(at..) {
        Some(rest) => rest,
        None => &[],
    }
}
