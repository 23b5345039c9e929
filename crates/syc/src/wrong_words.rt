//! What is printed for words that are no command.
ghost use Rattle.std.specs.Prelude.{◌≡◌, ◌≢◌, ◌≤◌};
ghost use Rattle.std.specs.Io.KnownBytes.{Keeps};
ghost use Rattle.syc.specs.CommandReports.{Shows};
ghost use Rattle.sy_passing.specs.Pass.{IsStatus};

use clap::Error;
use clap::error::ErrorKind;
use std::alloc::{AllocError, Global};
use sy_report::outcome::stop::{out_of_memory, write_failed};
use sy_report::writing::output::send;
use sy_report::writing::outputs::Outputs;
use sy_wire::Sink;

// A text, and another one behind it.
fn joined(alloc: Global, text: &[u8], behind: &[u8]) -> Result<Vec<u8>, AllocError> {
    let mut all = Vec::from_slice(alloc, text)?;
    all.extend_from_slice(behind)?;
    Ok(all)
}

// Prints what clap answers in place of a command, behind a help or the version these lines, and answers the exit status.
fn show<W: Sink, E: Sink>(
    alloc: Global,
    out: &mut Outputs<W, E>,
    error: &Error,
    behind: &[u8],
) -> u8
    ensures status { IsStatus result }
    ensures none_failed { result ≢ 4 → out.new.output.faults ≡ out.old.output.faults }
    ensures quiet { result ≡ 0 → Keeps out.old.errors.contents out.new.errors.contents }
    ensures shown { Shows result out.old out.new }
{
    let Ok(text) = format!(in alloc; "{error}") else {
        return out_of_memory(&mut out.errors);
    };
    if error.use_stderr() {
        let _ = send(&mut out.errors, text.as_bytes());
        return 2;
    }
    let Ok(text) = joined(alloc, text.as_bytes(), behind) else {
        return out_of_memory(&mut out.errors);
    };
    let Ok(()) = send(&mut out.writer, text.as_slice()) else {
        return write_failed(&mut out.errors);
    };
    0
}

/// Prints what clap answers in place of a command, or that memory ran out, and answers the exit status. Behind a help or the
/// version come these lines.
pub fn answer<W: Sink, E: Sink>(
    alloc: Global,
    out: &mut Outputs<W, E>,
    error: &Error,
    behind: &[u8],
) -> u8
    ensures status { result ≤ 4 }
    ensures none_failed { result ≢ 4 → out.new.output.faults ≡ out.old.output.faults }
    ensures quiet { result ≡ 0 → Keeps out.old.errors.contents out.new.errors.contents }
    ensures shown { Shows result out.old out.new }
{
    match error.kind() {
        ErrorKind::OutOfMemory => out_of_memory(&mut out.errors),
        _ => show(alloc, out, error, behind),
    }
}

/// Prints what is wrong with words that are no command, or that memory ran out, and answers the exit status.
pub fn refuse<W: Sink, E: Sink>(alloc: Global, out: &mut Outputs<W, E>, error: &Error) -> u8
    ensures status { result ≤ 4 }
    ensures none_failed { result ≢ 4 → out.new.output.faults ≡ out.old.output.faults }
    ensures quiet { result ≡ 0 → Keeps out.old.errors.contents out.new.errors.contents }
    ensures shown { Shows result out.old out.new }
{
    answer(alloc, out, error, b"")
}
