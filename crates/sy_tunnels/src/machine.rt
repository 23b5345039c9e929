//! The text that a site's machine is read from.

ghost use Rattle.std.specs.Prelude.{◌≡◌, ◌++◌, ◌∷◌, IfOk, OnOk};
ghost use Rattle.sy_tunnels.specs.Lines as lines;
ghost use Rattle.sy_tunnels.specs.Tunnels as spec;

use crate::lines::{lines_of, words_of};
use std::alloc::{AllocError, Global};

// Whether a line begins with the word `tunnel`.
fn is_tunnel(alloc: Global, line: &[u8]) -> Result<bool, AllocError>
    ensures { IfOk result (λ is_one. is_one ≡ spec.is_tunnel (lines.words_of line.now)) }
{
    let words = words_of(alloc, line)?;
    match words.as_slice() {
        [first, ..] => Ok(*first == b"tunnel".as_slice()),
        [] => Ok(false),
    }
}

// Appends a line, which is a comment where it is a tunnel line.
fn append_line(alloc: Global, text: &mut Vec<u8>, line: &[u8]) -> Result<(), AllocError>
    ensures { OnOk result (text.new.items ≡ text.old.items ++ spec.machine_line line.now) }
{
    match line {
        [_, rest @ ..] if is_tunnel(alloc, line)? => {
            text.push(b'#')?;
            text.extend_from_slice(rest)
        }
        _ => text.extend_from_slice(line),
    }
}

/// A site file's text for its machine: each tunnel line is a comment there, of the same length, and all else is as it was.
pub fn machine_text(alloc: Global, text: &[u8]) -> Result<Vec<u8>, AllocError>
    ensures { IfOk result (λ machine. machine.items ≡ spec.machine_text text.now) }
{
    let found = lines_of(alloc, text)?;
    let mut machine = Vec::new(alloc);
    let [first, later @ ..] = found.as_slice() else {
        return Ok(machine);
    };
    append_line(alloc, &mut machine, first)?;
    for line in later {
        machine.push(b'\n')?;
        append_line(alloc, &mut machine, line)?;
    }
    Ok(machine)
}
