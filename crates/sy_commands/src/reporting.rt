//! How the report of a command over a site is printed: an answer as it is, or the line that says why there is none, with words
//! for people after it where options ask for them, or a document in its place. What people are told never decides a status.
ghost use Rattle.std.specs.Prelude.{◌≡◌, ◌≢◌, ◌≤◌, IfErr, IfOk, IfSome, false};
ghost use Rattle.std.specs.Io.KnownBytes.{Keeps};
ghost use Rattle.sy_report.specs.HaltTexts.{halt_report};
ghost use Rattle.sy_report.specs.Outcomes.{Prints};
ghost use Rattle.sy_commands.specs.Reports.{ReportedBy, ReportedFirst};
ghost use Rattle.sy_report.specs.Reports.{seen};
ghost use Rattle.sy_report.specs.Halts.{status_at};
ghost use Rattle.sy_commands.specs.Optioned.{DocumentEnds, HaltEnds, StopsBy};
ghost use Rattle.sy_commands.specs.Words as spec;

use crate::basis::based;
use crate::commands::is_any;
use crate::replay::possible_steps::step_words;
use std::alloc::{AllocError, Global};
use sy_documents::json::fault_document;
use sy_fault_notes::fault_notes::fault_words;
use sy_faults::all_faults::all_fault_words;
use sy_places::site_file::texts::SiteTexts;
use sy_report::command_line::options::Options;
use sy_report::outcome::answer::{Answer, print, stop};
use sy_report::outcome::halt::{Halt, report_halt, status_of};
use sy_report::outcome::report::report_texts;
use sy_report::reading::files::Files;
use sy_report::writing::kept_text::Gathered;
use sy_report::writing::output::send;
use sy_report::writing::outputs::Outputs;
use sy_wire::Sink;

// The line that says why a command stopped, where there is memory for it.
fn line_of(alloc: Global, halt: &Halt) -> Option<Gathered>
    ensures { IfSome result (λ line. line.text.items ≡ halt_report halt.now) }
{
    let mut line = Gathered::new(alloc);
    report_halt(&mut line, halt);
    if line.is_whole() { Some(line) } else { None }
}

// Prints why a command stopped, and words after that.
fn report_with<E: Sink>(alloc: Global, errors: &mut E, halt: &Halt, words: &[u8])
    ensures { ReportedFirst
        (seen E.contents E.is_flushed E.faults errors.old) (seen E.contents E.is_flushed E.faults errors.new)
        (halt_report halt.now) }
{
    match line_of(alloc, halt) {
        Some(line) => report_texts(errors, &[line.text(), words]),
        None => report_halt(errors, halt),
    }
}

// The words on a fault and, where it is an illegal event, on which step could be made in its place.
fn explained(alloc: Global, texts: &SiteTexts<'_>, halt: &Halt) -> Result<Vec<u8>, AllocError> {
    let mut words = fault_words(alloc, texts, halt)?;
    let steps = step_words(alloc, texts, halt)?;
    words.extend_from_slice(steps.as_slice())?;
    Ok(words)
}

// The words after the first line on standard error.
fn words_after(
    alloc: Global,
    texts: &SiteTexts<'_>,
    options: Options,
    halt: &Halt,
) -> Result<Vec<u8>, AllocError> {
    if options.all {
        return all_fault_words(alloc, texts, options.explain, halt);
    }
    if options.explain {
        return explained(alloc, texts, halt);
    }
    Ok(Vec::new(alloc))
}

// The same, none where memory runs out for them.
fn words_or_none(alloc: Global, texts: &SiteTexts<'_>, options: Options, halt: &Halt) -> Vec<u8> {
    match words_after(alloc, texts, options, halt) {
        Ok(words) => words,
        Err(_) => Vec::new(alloc),
    }
}

/// Reports why a command stopped, with words after that where options ask for them, and answers the exit status.
pub fn report_halt_by_options<E: Sink>(
    alloc: Global,
    texts: &SiteTexts<'_>,
    options: Options,
    halt: &Halt,
    errors: &mut E,
) -> u8
    ensures status { result ≡ status_at halt.now }
    ensures reported { ReportedBy (spec.is_any options)
        (seen E.contents E.is_flushed E.faults errors.old) (seen E.contents E.is_flushed E.faults errors.new)
        (halt_report halt.now) }
{
    if is_any(options) {
        let words = words_or_none(alloc, texts, options, halt);
        report_with(alloc, errors, halt, words.as_slice());
    } else {
        report_halt(errors, halt);
    }
    status_of(halt)
}

// Prints the document of a command that stopped. It answers why that stopped, or why the document wasn't printed.
fn send_document<W: Sink>(writer: &mut W, document: Result<Vec<u8>, AllocError>, halt: Halt) -> Halt
    ensures { DocumentEnds halt result (W.faults writer.old) (W.faults writer.new) }
{
    match document {
        Ok(text) => match send(writer, text.as_slice()) {
            Ok(()) => halt,
            Err(_) => Halt::WriteFailed,
        },
        Err(_) => Halt::NoMemory,
    }
}

/// Prints the document of a command that stopped, reports why it did, and answers the exit status.
pub fn stop_with_document<W: Sink, E: Sink>(
    document: Result<Vec<u8>, AllocError>,
    halt: Halt,
    out: &mut Outputs<W, E>,
) -> u8
    ensures ends { HaltEnds halt result out.old.output.faults out.new.output.faults }
    ensures failed { result ≢ 0 }
    ensures status { result ≤ 4 }
{
    let halt = send_document(&mut out.writer, document, halt);
    stop(out, &halt)
}

// The document of a command that stopped, with what it rests on.
fn document_of_fault<F: Files>(
    alloc: Global,
    files: &F,
    texts: &SiteTexts<'_>,
    command: &str,
    options: Options,
    halt: &Halt,
) -> Result<Vec<u8>, AllocError> {
    let document = fault_document(alloc, texts, command, options, halt)?;
    based(alloc, files, texts, true, document.as_slice())
}

// Reports why a command stopped, with words for people after that or with a document on standard output, and answers the
// exit status.
fn stop_as<F: Files, W: Sink, E: Sink>(
    alloc: Global,
    files: &F,
    texts: &SiteTexts<'_>,
    command: &str,
    options: Options,
    halt: Halt,
    out: &mut Outputs<W, E>,
) -> u8
    ensures reported { options.json ≡ false → StopsBy (spec.is_any options) halt result out.old out.new }
    ensures ends { HaltEnds halt result out.old.output.faults out.new.output.faults }
    ensures failed { result ≢ 0 }
    ensures status { result ≤ 4 }
{
    if options.json {
        let document = document_of_fault(alloc, files, texts, command, options, &halt);
        stop_with_document(document, halt, out)
    } else {
        report_halt_by_options(alloc, texts, options, &halt, &mut out.errors)
    }
}

/// Prints an answer, or reports why there is none as the options want it, and answers the exit status.
pub fn print_report<F: Files, W: Sink, E: Sink>(
    alloc: Global,
    files: &F,
    texts: &SiteTexts<'_>,
    command: &str,
    options: Options,
    answer: Result<Answer, Halt>,
    out: &mut Outputs<W, E>,
) -> u8
    ensures printed { IfOk answer (λ a. Prints a.text.items a.is_accepted result out.old out.new) }
    ensures reported { options.json ≡ false → IfErr answer (λ halt. StopsBy (spec.is_any options) halt result out.old out.new) }
    ensures stopped { IfErr answer (λ halt. HaltEnds halt result out.old.output.faults out.new.output.faults) }
    ensures status { result ≤ 4 }
    ensures none_failed { result ≢ 4 → out.new.output.faults ≡ out.old.output.faults }
    ensures quiet { result ≡ 0 → Keeps out.old.errors.contents out.new.errors.contents }
{
    match answer {
        Ok(answer) => print(Ok(answer), out),
        Err(halt) => stop_as(alloc, files, texts, command, options, halt, out),
    }
}
