//! The version, and how the program was built.
ghost use Rattle.std.specs.Prelude.{◌≤◌, ◌⊎◌, Decides, codes, map, string_bytes};
ghost use Rattle.syc.specs.Words.{BeginWith};
ghost use Rattle.syc.specs.CommandReports.{Shows};

use crate::taking::is_first;
use crate::usage::refusal;
use crate::wrong_words::answer;
use std::alloc::{AllocError, Global};
use sy_commands::built::{own_end, record_lines};
use sy_report::command_line::options::all_words;
use sy_report::outcome::stop::out_of_memory;
use sy_report::reading::files::Files;
use sy_report::writing::outputs::Outputs;
use sy_wire::Sink;

/// Whether the words, those after the program's name, ask for the version.
pub fn is_version(args: &[String]) -> bool
    ensures { Decides result (BeginWith (codes "-V") (map string_bytes args.now) ⊎ BeginWith (codes "--version") (map string_bytes args.now)) }
{
    is_first(args, "-V") || is_first(args, "--version")
}

// The lines of how the program was built, of the last bytes of its file.
fn lines_of(alloc: Global, end: &[u8]) -> Result<Vec<u8>, AllocError> {
    let Some(lines) = record_lines(end) else {
        return Vec::from_slice(alloc, b"not recorded\n");
    };
    let mut text = Vec::new(alloc);
    for line in lines.split(|byte| *byte == b'\n') {
        if !line.is_empty() {
            text.extend_from_slice(line)?;
            text.push(b'\n')?;
        }
    }
    Ok(text)
}

// The same, of the program's own file.
fn built<F: Files>(alloc: Global, files: &F) -> Result<Vec<u8>, AllocError> {
    let end = own_end(alloc, files)?;
    lines_of(alloc, end.as_slice())
}

/// Prints the version and, in lines behind it, how the program was built. It answers the exit status: 0 done, 2 where the
/// words are faulty, 3 where memory runs out, and 4 where a write failed.
pub fn tell_version<F: Files, W: Sink, E: Sink>(
    alloc: Global,
    args: &[String],
    files: &F,
    out: &mut Outputs<W, E>,
) -> u8
    ensures status { result ≤ 4 }
    ensures shown { Shows result out.old out.new }
{
    let Ok(words) = all_words(alloc, args) else {
        return out_of_memory(&mut out.errors);
    };
    let Ok(lines) = built(alloc, files) else {
        return out_of_memory(&mut out.errors);
    };
    let error = refusal(alloc, words.as_slice());
    answer(alloc, out, &error, lines.as_slice())
}
