//! How the program was built: a record at the end of its own file, which `bin/build` puts there.
ghost use Rattle.std.specs.Prelude.{◌≡◌, ◌≢◌, ◌++◌, ℕ, List, MatchOption, drop, length, nat_eq};
ghost use Rattle.std.specs.List.{find, starts_with};
ghost use Rattle.std.specs.Option.{option_map};
ghost use Rattle.sy_commands.specs.Built as spec;

use std::alloc::{AllocError, Global};
use sy_report::reading::files::{FileFault, Files};
use sy_wire::Source;

/// How many bytes at the end of the file are the record, with the line feeds that fill it up.
pub const RECORD_SIZE: usize = 512;

/// The name by which the host gives a program its own file.
const OWN_FILE: &str = "/proc/self/exe";

const PIECE_SIZE: usize = 65_536;

/// How many pieces of the file are read at most.
const PIECES: u64 = 16_384;

// What stands behind these bytes in a text that begins with them.
fn behind<'a>(text: &'a [u8], front: &[u8]) -> Option<&'a [u8]>
    ensures { MatchOption result ((rest : List ℕ) → text.now ≢ front.now ++ rest) (λ rest. text.now ≡ front.now ++ rest.now) }
{
    text.strip_prefix(front)
}

/// The lines of the record that the last bytes of a file are, with what fills it up; none where they are no record.
pub fn record_lines(end: &[u8]) -> Option<&[u8]>
    ensures { MatchOption result ((lines : List ℕ) → end.now ≢ spec.record_of lines) (λ lines. end.now ≡ spec.record_of lines.now) }
{
    behind(end, b"syc-build 1\n")
}

// The first line that begins with a name.
fn line_named<'a>(lines: &'a [u8], name: &[u8]) -> Option<&'a [u8]>
    ensures { option_map (λ line. line.now) result ≡ find (λ line. starts_with nat_eq line name.now) (spec.lines_of lines.now) }
{
    lines
        .split(|byte| *byte == b'\n')
        .find(|line| line.starts_with(name))
}

// A line without the name that it begins with.
fn without<'a>(line: &'a [u8], name: &[u8]) -> &'a [u8]
    ensures { result.now ≡ drop (length name.now) line.now }
{
    line.get(name.len()..).unwrap_or(&[])
}

/// What a record says by a line of this name; none where it has no such line.
pub fn value_of<'a>(lines: &'a [u8], name: &[u8]) -> Option<&'a [u8]>
    ensures { option_map (λ value. value.now) result ≡ spec.value_of lines.now name.now }
{
    match line_named(lines, name) {
        Some(line) => Some(without(line, name)),
        None => None,
    }
}

// The last bytes of two texts, the second behind the first.
fn last_of(alloc: Global, first: &[u8], second: &[u8]) -> Result<Vec<u8>, AllocError> {
    let kept = RECORD_SIZE.saturating_sub(second.len());
    let mut last = Vec::new(alloc);
    last.extend_from_slice(&first[first.len().saturating_sub(kept)..])?;
    last.extend_from_slice(&second[second.len().saturating_sub(RECORD_SIZE)..])?;
    Ok(last)
}

// The last bytes of what is read to its end; none where that fails, or is too long.
fn end_of<R: Source>(alloc: Global, reader: &mut R) -> Result<Vec<u8>, AllocError> {
    let mut piece = vec![in alloc; 0; PIECE_SIZE]?;
    let mut end = Vec::new(alloc);
    for _ in 0..PIECES {
        match reader.read(piece.as_mut_slice()) {
            Ok(0) => return Ok(end),
            Ok(count) => end = last_of(alloc, end.as_slice(), &piece[..count])?,
            Err(_) => return Ok(Vec::new(alloc)),
        }
    }
    Ok(Vec::new(alloc))
}

/// The last bytes of the program's own file; none where it can't be read.
pub fn own_end<F: Files>(alloc: Global, files: &F) -> Result<Vec<u8>, AllocError> {
    match files.open(OWN_FILE) {
        Ok(mut reader) => end_of(alloc, &mut reader),
        Err(FileFault::Read) => Ok(Vec::new(alloc)),
        Err(FileFault::NoMemory) => Err(AllocError),
    }
}
