//! The other files that a text names to be read in the place of a statement.
ghost use Rattle.std.specs.Prelude.{◌≡◌, ◌<◌, IfOk, IfSome, length, slice_get, true};
ghost use Rattle.sy_fleet_text.specs.declared.piece.Kind.TheVariants as k;
ghost use Rattle.sy_fleet_text.specs.declared.piece.Object.TheVariants as object;
ghost use Rattle.sy_fleet.specs.Includes as spec;

use crate::directives::directive_at;
use crate::params::{Span, params_of, span_of};
use crate::statements::statement_end;
use std::alloc::{AllocError, Global};
use sy_fleet_text::scan::{byte_at, part};
use sy_fleet_text::words::same_word;
use sy_fleet_text::{Kind, Object, Piece};

/// A statement in whose place other files are read: from `start` up to `end`, and where the pattern of their names is.
#[derive(Clone, Copy)]
pub struct Include {
    pub start: usize,
    pub end: usize,
    pub pattern: Span,
}

// The pattern that an `include` object names: nothing where it is a text of its own, or a variable of the environment.
fn pattern_of(alloc: Global, text: &[u8], pieces: &[Piece]) -> Result<Option<Span>, AllocError> {
    let params = params_of(alloc, pieces)?;
    match span_of(text, params.as_slice(), b"file") {
        Some(pattern) if byte_at(text, pattern.start.saturating_sub(1)) == b'`' => Ok(None),
        pattern => Ok(pattern),
    }
}

// What an object that includes names.
fn object_at(
    alloc: Global,
    text: &[u8],
    pieces: &[Piece],
    first: usize,
) -> Result<Option<Include>, AllocError>
    requires within { first < length pieces.now }
    requires kind { IfSome (slice_get pieces.now first) (λ piece. piece.kind ≡ k.Opening object.Include) }
    ensures { IfOk result (λ found. IfSome found (λ it. spec.IsInclude text.now pieces.now it.start it.end)) }
{
    let end = statement_end(pieces, first);
    match pattern_of(alloc, text, &pieces[first..end])? {
        Some(pattern) => Ok(Some(Include {
            start: pieces[first].start,
            end: pieces[end - 1].end,
            pattern,
        })),
        None => Ok(None),
    }
}

// Whether the directive that begins at a place is one that includes.
fn names_include(text: &[u8], start: usize) -> bool
    ensures { result ≡ true → spec.names_include text.now start ≡ true }
{
    match start.checked_add(14) {
        Some(end) => same_word(b"$IncludeConfig", part(text, start, end)),
        None => false,
    }
}

// What a directive names.
fn directive_in(text: &[u8], pieces: &[Piece], first: usize) -> Option<Include>
    requires within { first < length pieces.now }
    requires kind { IfSome (slice_get pieces.now first) (λ piece. piece.kind ≡ k.Directive) }
    ensures { IfSome result (λ it. spec.IsInclude text.now pieces.now it.start it.end) }
{
    let piece = pieces[first];
    if !names_include(text, piece.start) {
        return None;
    }
    let found = directive_at(text, piece.start, piece.end);
    Some(Include {
        start: piece.start,
        end: piece.end,
        pattern: found.value,
    })
}

// What the statement names that begins with a piece.
fn include_at(
    alloc: Global,
    text: &[u8],
    pieces: &[Piece],
    first: usize,
) -> Result<Option<Include>, AllocError>
    requires { first < length pieces.now }
    ensures { IfOk result (λ found. IfSome found (λ it. spec.IsInclude text.now pieces.now it.start it.end)) }
{
    match pieces[first].kind {
        Kind::Opening(Object::Include) => object_at(alloc, text, pieces, first),
        Kind::Directive => Ok(directive_in(text, pieces, first)),
        _ => Ok(None),
    }
}

/// The first statement from a place on that includes other files by a name or a pattern.
pub fn next_include(
    alloc: Global,
    text: &[u8],
    pieces: &[Piece],
    from: usize,
) -> Result<Option<Include>, AllocError>
    ensures { IfOk result (λ found. IfSome found (λ it. spec.IsInclude text.now pieces.now it.start it.end)) }
{
    for first in 0..pieces.len() {
        if pieces[first].start >= from {
            let found = include_at(alloc, text, pieces, first)?;
            if found.is_some() {
                return Ok(found);
            }
        }
    }
    Ok(None)
}
