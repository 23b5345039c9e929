//! The option by which warnings refuse a site that a check accepts.
ghost use Rattle.std.specs.Prelude.{◌≡◌, ◌≢◌, ◌≤◌, map, string_bytes};
ghost use Rattle.sy_commands.specs.Optioned.{KeepsAs};
ghost use Rattle.sy_commands.specs.Words.{AreOver, OverSite as AnyOver};
ghost use Rattle.sy_report.specs.declared.command_line.options.Options.{Options as AnyOptions};

use crate::run::run;
use crate::taking::{is_first, take_option};
use std::alloc::{AllocError, Global};
use sy_commands::commands::{Request, request_of};
use sy_commands::reading::read_for;
use sy_places::site_file::texts::SiteTexts;
use sy_report::command_line::command::{Asked, SiteCommand};
use sy_report::command_line::options::given_words;
use sy_report::outcome::answer::stop;
use sy_report::outcome::halt::Halt;
use sy_report::outcome::stop::out_of_memory;
use sy_report::reading::files::Files;
use sy_report::writing::output::send;
use sy_report::writing::outputs::Outputs;
use sy_running::explaining::options_for;
use sy_site::Site;
use sy_warnings::warnings::warning_lines;
use sy_wire::{Sink, Source};

// Whether the words are of a command that may be strict.
fn may_be_strict(words: &[String]) -> bool {
    is_first(words, "check") || is_first(words, "run")
}

/// Takes `--strict` out of the words of a command that may have it, where it is among them once. It answers whether it was.
pub fn take_strict(words: &mut Vec<String>) -> bool {
    may_be_strict(words.as_slice()) && take_option(words, "--strict")
}

// The lines of the warnings of the site of that name.
fn lines_of<F: Files>(alloc: Global, files: &F, name: &str) -> Result<Vec<u8>, Halt> {
    let mut texts = SiteTexts::empty(alloc, name);
    let site = read_for(alloc, files, &mut texts, options_for(true), name)?;
    said_of(alloc, &texts, &site)
}

// The same of one that was read.
fn said_of(alloc: Global, texts: &SiteTexts<'_>, site: &Site) -> Result<Vec<u8>, Halt> {
    match warning_lines(alloc, texts, site) {
        Ok(lines) => Ok(lines),
        Err(AllocError) => Err(Halt::NoMemory),
    }
}

// Prints lines, where they aren't printed already, and answers the exit status.
fn print_lines<W: Sink, E: Sink>(lines: &[u8], is_printed: bool, out: &mut Outputs<W, E>) -> u8
    ensures status { result ≤ 4 }
    ensures refused { result ≢ 0 }
{
    if is_printed {
        return 1;
    }
    match send(&mut out.writer, lines) {
        Ok(()) => 1,
        Err(_) => stop(out, &Halt::WriteFailed),
    }
}

/// The exit status where the site of that name has warnings, which are printed unless they are already; 0 where it has none.
pub fn refuse_warnings<W: Sink, E: Sink, F: Files>(
    alloc: Global,
    files: &F,
    name: &str,
    is_printed: bool,
    out: &mut Outputs<W, E>,
) -> u8
    ensures { result ≤ 4 }
{
    match lines_of(alloc, files, name) {
        Ok(lines) => {
            if lines.is_empty() {
                return 0;
            }
            print_lines(lines.as_slice(), is_printed, out)
        }
        Err(halt) => stop(out, &halt),
    }
}

// The same for the words of a check that accepted its site; of other words 0.
fn refuse_warnings_of<W: Sink, E: Sink, F: Files>(
    alloc: Global,
    words: &[String],
    files: &F,
    out: &mut Outputs<W, E>,
) -> u8
    ensures { result ≤ 4 }
{
    let Ok(given) = given_words(alloc, words) else {
        return out_of_memory(&mut out.errors);
    };
    match request_of(&given) {
        Some(Request::OfSite(options, SiteCommand::Ask(Asked::Check, site))) => {
            let is_printed = options.explain || options.json;
            refuse_warnings(alloc, files, site, is_printed, out)
        }
        _ => 0,
    }
}

/// Runs the command that the words name, `--strict` not among them. Where that is a check that accepts its site, it answers 1 where the site has
/// warnings, which are printed on standard output as `--explain` prints them.
pub fn run_strictly<R: Source, W: Sink, E: Sink, F: Files>(
    alloc: Global,
    words: &[String],
    files: &F,
    reader: &mut R,
    out: &mut Outputs<W, E>,
) -> u8
    ensures safe { (options : AnyOptions) (command : AnyOver) → AreOver (map string_bytes words.now) options command →
        KeepsAs (F.bytes_of files.now) command result }
    ensures status { result ≤ 4 }
{
    let status = run(alloc, words, files, reader, out);
    if status != 0 {
        return status;
    }
    refuse_warnings_of(alloc, words, files, out)
}
