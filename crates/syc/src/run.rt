//! The commands.
ghost use Rattle.std.specs.Prelude.{◌≡◌, ◌≢◌, ◌≤◌, ℕ, List, map, string_bytes};
ghost use Rattle.std.specs.Io.KnownBytes.{Keeps};
ghost use Rattle.syc.specs.CommandReports.{IsPassed, ReadsNoMore, ReportIs};
ghost use Rattle.sy_commands.specs.Optioned.{FailsAs, KeepsAs};
ghost use Rattle.syc.specs.CommandReports.{Shows};
ghost use Rattle.sy_passing.specs.Pass.{NoneFailed, counted};
ghost use Rattle.sy_commands.specs.Replays.{PiecesMayFail};
ghost use Rattle.syc.specs.Words.{AreNoCommand, ArePassAlone};
ghost use Rattle.sy_commands.specs.Words.{AreOver, OverSite as AnyOver};
ghost use Rattle.sy_report.specs.declared.command_line.options.Options.{Options as AnyOptions};

use crate::usage::refusal;
use crate::wrong_words::refuse;
use std::alloc::Global;
use sy_commands::commands::{report, request_of};
use sy_passing::pass::{READS, pass};
use sy_report::command_line::command::are_pass;
use sy_report::command_line::options::given_words;
use sy_report::outcome::stop::out_of_memory;
use sy_report::reading::files::Files;
use sy_report::writing::outputs::Outputs;
use sy_wire::{Sink, Source};

/// Runs the command that the words name, those after the program's name, and answers the exit status: 0
/// done, 1 refused, 2 faulty input or command line, 3 no memory, 4 a read or write failed. Of words that are no command it
/// prints what is wrong with them.
pub fn run<R: Source, W: Sink, E: Sink, F: Files>(
    alloc: Global,
    args: &[String],
    files: &F,
    reader: &mut R,
    out: &mut Outputs<W, E>,
) -> u8
    ensures pass { ArePassAlone (map string_bytes args.now) → IsPassed (R.remaining reader.old) result out.old out.new
        (counted R.faults R.calls reader.old out.old) (counted R.faults R.calls reader.new out.new) }
    ensures reports { (options : AnyOptions) (command : AnyOver) → AreOver (map string_bytes args.now) options command →
        ReportIs (F.bytes_of files.now) options command result out.old out.new }
    ensures safe { (options : AnyOptions) (command : AnyOver) → AreOver (map string_bytes args.now) options command →
        KeepsAs (F.bytes_of files.now) command result }
    ensures fails { (options : AnyOptions) (command : AnyOver) → AreOver (map string_bytes args.now) options command →
        FailsAs (F.bytes_of files.now) (F.may_fail files.now) (PiecesMayFail F.Opened.faults) command result out.old out.new }
    ensures other { AreNoCommand (map string_bytes args.now) → Shows result out.old out.new }
    ensures status { result ≤ 4 }
    ensures quiet { result ≡ 0 → Keeps out.old.errors.contents out.new.errors.contents }
    ensures none_failed { result ≢ 4 → NoneFailed
        (counted R.faults R.calls reader.old out.old) (counted R.faults R.calls reader.new out.new) }
    ensures reads { ReadsNoMore (map string_bytes args.now) R.calls READS reader.old reader.new }
{
    let Ok(given) = given_words(alloc, args) else {
        return out_of_memory(&mut out.errors);
    };
    if are_pass(given.all.as_slice()) {
        return pass(alloc, reader, out);
    }
    match request_of(&given) {
        Some(request) => report(alloc, request, files, out),
        None => refuse(alloc, out, &refusal(alloc, given.all.as_slice())),
    }
}
