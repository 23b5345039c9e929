//! The lines of a text, and their words.

ghost use Rattle.std.specs.Prelude.{◌≡◌, IfOk, map};
ghost use Rattle.sy_site.specs.texts.Lines.{words};
ghost use Rattle.sy_tunnels.specs.Lines as spec;

use std::alloc::{AllocError, Global};
use sy_site::without_return;

/// The lines of a text, without the line feeds between them. A text has one at least.
pub fn lines_of(alloc: Global, text: &[u8]) -> Result<Vec<&[u8]>, AllocError>
    ensures { IfOk result (λ found. map (λ line. line.now) found.items ≡ spec.lines_of text.now) }
{
    text.split(|byte| *byte == b'\n').collect(alloc)
}

// The words of a line without its carriage return.
fn words_in(alloc: Global, line: &[u8]) -> Result<Vec<&[u8]>, AllocError>
    ensures { IfOk result (λ found. map (λ word. word.now) found.items ≡ words line.now) }
{
    line.split(|byte| *byte == b' ' || *byte == b'\t')
        .filter(|word| !word.is_empty())
        .collect(alloc)
}

/// The words of a line.
pub fn words_of(alloc: Global, line: &[u8]) -> Result<Vec<&[u8]>, AllocError>
    ensures { IfOk result (λ found. map (λ word. word.now) found.items ≡ spec.words_of line.now) }
{
    words_in(alloc, without_return(line))
}
