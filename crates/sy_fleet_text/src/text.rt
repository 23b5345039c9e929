//! Reads a text whole.

ghost use Rattle.std.specs.Prelude.{◌≡◌, ◌+◌, ◌≤◌, ◌++◌, ◌∷◌, [], length, MatchOption, MatchResult, OnOk};
ghost use Rattle.sy_fleet_text.specs.Faults as faults;
ghost use Rattle.sy_fleet_text.specs.Pieces as spec;
ghost use Rattle.sy_fleet_text.specs.Texts.{IsText};

use crate::fault::{Refusal, TextFault};
use crate::piece::{Kind, Mark, Piece};
use crate::statements::{Context, context_after, next_piece};
use std::alloc::{AllocError, Global};

/// The most bytes that a text has.
pub const MAX_TEXT: usize = 1_048_576;

fn append(pieces: &mut Vec<Piece>, piece: Piece) -> Result<(), AllocError>
    ensures { OnOk result (pieces.new.items ≡ pieces.old.items ++ piece ∷ []) }
{
    pieces.push(piece)?;
    Ok(())
}

// How many blocks are open behind a piece; none where a block ends that didn't begin.
fn depth_after(kind: Kind, depth: usize) -> Option<usize>
    requires { depth ≤ 1048576 }
    ensures is { result ≡ spec.depth_after kind depth }
    ensures closes { MatchOption result ((kind ≡ Kind.Mark Mark.BlockClosing) × (depth ≡ 0)) (λ next. next ≤ depth + 1) }
{
    match kind {
        Kind::Mark(Mark::BlockOpening) => Some(depth + 1),
        Kind::Mark(Mark::BlockClosing) => depth.checked_sub(1),
        _ => Some(depth),
    }
}

// Why a text may not end here.
fn at_end(context: Context, depth: usize) -> Option<Refusal>
    ensures { result ≡ spec.at_end context depth }
{
    if context != Context::Statements {
        return Some(Refusal::OpenStatement);
    }
    if depth > 0 {
        return Some(Refusal::OpenBlock);
    }
    None
}

/// The pieces of a text of at most 1 MiB, one behind the other from its first byte to its last.
pub fn read_text(alloc: Global, text: &[u8]) -> Result<Vec<Piece>, TextFault>
    ensures { MatchResult result (λ pieces. IsText text.now pieces.items) (λ fault. faults.IsRefused text.now fault) }
{
    if text.len() > MAX_TEXT {
        return Err(TextFault {
            refusal: Refusal::TooLong,
            at: 0,
        });
    }
    let mut pieces = Vec::new(alloc);
    let mut context = Context::Statements;
    let mut depth = 0;
    let mut at = 0;
    while at < text.len() {
        match next_piece(context, text, at) {
            Err(refusal) => return Err(TextFault { refusal, at }),
            Ok(found) => {
                let Some(next_depth) = depth_after(found.kind, depth) else {
                    return Err(TextFault {
                        refusal: Refusal::NoBlock,
                        at,
                    });
                };
                let piece = Piece {
                    kind: found.kind,
                    start: at,
                    end: found.end,
                    depth,
                };
                append(&mut pieces, piece)?;
                context = context_after(context, found.kind);
                depth = next_depth;
                at = found.end;
            }
        }
    }
    match at_end(context, depth) {
        Some(refusal) => Err(TextFault { refusal, at }),
        None => Ok(pieces),
    }
}
