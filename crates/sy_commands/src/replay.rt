//! A file of events over a site, made one by one: a line for each loss.
ghost use Rattle.std.specs.Prelude.{◌≡◌, ◌≢◌, ◌≤◌, ◌∷◌, ◌⊎◌, ℕ, List, Some, IfErr, OnOk, false, true};
ghost use Rattle.std.specs.Io.KnownBytes.{Keeps};
ghost use Rattle.std.specs.List.{Any};
ghost use Rattle.sy_wire.specs.Streams.{Rose};
ghost use Rattle.sy_site.specs.texts.Files.{file_names};
ghost use Rattle.sy_commands.specs.Replays.{PiecesMayFail, ReplayIs, ReplayReport};
ghost use Rattle.sy_report.specs.HaltTexts.{halt_report};
ghost use Rattle.sy_commands.specs.Outcomes.{FailsBy, MayEnd};
ghost use Rattle.sy_commands.specs.Reports.{HasReportedBy};
ghost use Rattle.sy_report.specs.Reports.{seen};
ghost use Rattle.sy_commands.specs.internal.Halts.{Halted, HandedOn, IsCause, Replayed};
ghost use Rattle.sy_commands.specs.internal.Optioned.{in_memory as halt_in_memory};
ghost use Rattle.sy_commands.specs.Optioned.{HaltEnds};
ghost use Rattle.sy_report.specs.Halts.{status_at};
ghost use Rattle.sy_commands.specs.Words as spec;

pub mod events;
pub mod losses;
pub mod possible_steps;

use crate::basis::based;
use crate::commands::is_any;
use crate::reading::read_for;
use crate::replay::events::replay_events;
use crate::reporting::{report_halt_by_options, stop_with_document};
use std::alloc::{AllocError, Global};
use sy_documents::json::replay_document;
use sy_places::site_file::texts::{SiteTexts, read_second};
use sy_report::command_line::options::Options;
use sy_report::outcome::answer::{Answer, print, stop};
use sy_report::outcome::halt::Halt;
use sy_report::reading::files::{FileFault, Files};
use sy_report::writing::kept_text::Gathered;
use sy_report::writing::outputs::Outputs;
use sy_wire::Sink;

// Replays the events file of a name over the site of another.
fn replay_files<'a, F: Files, W: Sink>(
    alloc: Global,
    files: &F,
    texts: &mut SiteTexts<'a>,
    options: Options,
    site_name: &'a str,
    events_name: &'a str,
    writer: &mut W,
) -> Result<(), Halt>
    ensures ok { OnOk result ((text events : List ℕ)
        → F.bytes_of files.now site_name.now ≡ Some text → F.bytes_of files.now events_name.now ≡ Some events
        → Replayed (F.bytes_of files.now) text events
        (W.contents writer.old) (W.faults writer.old) (W.contents writer.new) (W.faults writer.new)) }
    ensures flushed { OnOk result (W.is_flushed writer.new ≡ true) }
    ensures err { IfErr result (λ why. (text events : List ℕ)
        → F.bytes_of files.now site_name.now ≡ Some text → F.bytes_of files.now events_name.now ≡ Some events
        → Halted (F.bytes_of files.now) text events why
        (W.contents writer.old) (W.faults writer.old) (W.contents writer.new) (W.faults writer.new)) }
    ensures same { OnOk result (W.faults writer.new ≡ W.faults writer.old) }
    ensures cause { IfErr result (λ why. IsCause why (W.faults writer.old) (W.faults writer.new)) }
    ensures unread { IfErr result (λ why. why ≡ Halt.ReadFailed → (text events : List ℕ)
        → F.bytes_of files.now site_name.now ≡ Some text → F.bytes_of files.now events_name.now ≡ Some events
        → Any (F.may_fail files.now) (site_name.now ∷ events_name.now ∷ file_names text) ⊎ PiecesMayFail F.Opened.faults events) }
{
    let site = read_for(alloc, files, texts, options, site_name)?;
    let mut reader = match files.open(events_name) {
        Ok(reader) => reader,
        Err(FileFault::Read) => return Err(Halt::ReadFailed),
        Err(FileFault::NoMemory) => return Err(Halt::NoMemory),
    };
    replay_events(alloc, &site, &mut reader, writer)
}

// Hands on what was printed before a halt. It answers why the replay stops: that this failed, where it did. After a failed
// write nothing is tried again.
fn hand_on<W: Sink>(writer: &mut W, halt: Halt) -> Halt
    ensures status { ((result ≡ halt) × (W.is_flushed writer.new ≡ true) × (W.faults writer.new ≡ W.faults writer.old))
        ⊎ ((result ≡ Halt.WriteFailed) × ((halt ≡ Halt.WriteFailed) ⊎ Rose (W.faults writer.old) (W.faults writer.new))) }
    ensures untouched { halt ≡ Halt.WriteFailed → writer.new ≡ writer.old }
    ensures kept { Keeps (W.contents writer.old) (W.contents writer.new) }
{
    match halt {
        Halt::WriteFailed => Halt::WriteFailed,
        halt => match writer.flush() {
            Ok(()) => halt,
            Err(_) => Halt::WriteFailed,
        },
    }
}

// Makes the events, prints a line for each loss, and hands all of it on.
fn replay_on<'a, F: Files, W: Sink>(
    alloc: Global,
    files: &F,
    texts: &mut SiteTexts<'a>,
    options: Options,
    site_name: &'a str,
    events_name: &'a str,
    writer: &mut W,
) -> Result<(), Halt>
    ensures done { OnOk result ((text events : List ℕ)
        → F.bytes_of files.now site_name.now ≡ Some text → F.bytes_of files.now events_name.now ≡ Some events
        → Replayed (F.bytes_of files.now) text events
        (W.contents writer.old) (W.faults writer.old) (W.contents writer.new) (W.faults writer.new)) }
    ensures flushed { OnOk result (W.is_flushed writer.new ≡ true) }
    ensures halted { IfErr result (λ why. (text events : List ℕ)
        → F.bytes_of files.now site_name.now ≡ Some text → F.bytes_of files.now events_name.now ≡ Some events
        → HandedOn (F.bytes_of files.now) text events why
        (seen W.contents W.is_flushed W.faults writer.old) (seen W.contents W.is_flushed W.faults writer.new)) }
    ensures same { OnOk result (W.faults writer.new ≡ W.faults writer.old) }
    ensures cause { IfErr result (λ why. IsCause why (W.faults writer.old) (W.faults writer.new)) }
    ensures unread { IfErr result (λ why. why ≡ Halt.ReadFailed → (text events : List ℕ)
        → F.bytes_of files.now site_name.now ≡ Some text → F.bytes_of files.now events_name.now ≡ Some events
        → Any (F.may_fail files.now) (site_name.now ∷ events_name.now ∷ file_names text) ⊎ PiecesMayFail F.Opened.faults events) }
{
    match replay_files(alloc, files, texts, options, site_name, events_name, writer) {
        Ok(()) => Ok(()),
        Err(halt) => Err(hand_on(writer, halt)),
    }
}

// Whether words on a halt ask for the events.
fn is_of_events(halt: &Halt) -> bool {
    matches!(
        halt,
        Halt::Line(_) | Halt::Illegal(_) | Halt::TotalsFull(_) | Halt::ReadFailed
    )
}

// Reads the events once more, where words on a halt ask for them.
fn read_events_for<'a, F: Files>(
    alloc: Global,
    files: &F,
    texts: &mut SiteTexts<'a>,
    options: Options,
    events_name: &'a str,
    halt: &Halt,
) {
    if is_any(options) && is_of_events(halt) {
        let _ = read_second(alloc, files, texts, events_name);
    }
}

// Reports why a replay stopped, with words for people after that, and answers the exit status.
fn stop_replay<W: Sink, E: Sink>(
    alloc: Global,
    texts: &SiteTexts<'_>,
    options: Options,
    halt: &Halt,
    out: &mut Outputs<W, E>,
) -> u8
    ensures status { result ≡ status_at halt.now }
    ensures reported { HasReportedBy (spec.is_any options) out.old out.new (halt_report halt.now) }
    ensures same { out.new.output ≡ out.old.output }
    ensures failed { result ≢ 0 }
{
    report_halt_by_options(alloc, texts, options, halt, &mut out.errors)
}

// Replays, and prints a line for each loss.
fn replay_lines<F: Files, W: Sink, E: Sink>(
    alloc: Global,
    files: &F,
    options: Options,
    site_name: &str,
    events_name: &str,
    out: &mut Outputs<W, E>,
) -> u8
    ensures says { (text events : List ℕ)
        → F.bytes_of files.now site_name.now ≡ Some text → F.bytes_of files.now events_name.now ≡ Some events
        → ReplayReport options (F.bytes_of files.now) text events result out.old out.new }
    ensures fails { (text events : List ℕ)
        → F.bytes_of files.now site_name.now ≡ Some text → F.bytes_of files.now events_name.now ≡ Some events
        → FailsBy (Any (F.may_fail files.now) (site_name.now ∷ events_name.now ∷ file_names text) ⊎ PiecesMayFail F.Opened.faults events)
        result out.old out.new }
    ensures status { result ≤ 4 }
    ensures none_failed { result ≢ 4 → out.new.output.faults ≡ out.old.output.faults }
    ensures quiet { result ≡ 0 → Keeps out.old.errors.contents out.new.errors.contents }
{
    let mut texts = SiteTexts::empty(alloc, site_name);
    let replayed = replay_on(
        alloc,
        files,
        &mut texts,
        options,
        site_name,
        events_name,
        &mut out.writer,
    );
    match replayed {
        Ok(()) => 0,
        Err(halt) => {
            read_events_for(alloc, files, &mut texts, options, events_name, &halt);
            stop_replay(alloc, &texts, options, &halt, out)
        }
    }
}

// Why a replay stopped that wrote to memory: a write there fails where memory runs out.
fn in_memory(halt: Halt) -> Halt
    ensures { result ≡ halt_in_memory halt }
{
    match halt {
        Halt::WriteFailed => Halt::NoMemory,
        halt => halt,
    }
}

// Prints a document, and answers the exit status.
fn print_document<W: Sink, E: Sink>(
    document: Result<Vec<u8>, AllocError>,
    out: &mut Outputs<W, E>,
) -> u8
    ensures ends { (result ≡ 0) ⊎ HaltEnds Halt.NoMemory result out.old.output.faults out.new.output.faults }
    ensures status { result ≤ 4 }
    ensures none_failed { result ≢ 4 → out.new.output.faults ≡ out.old.output.faults }
    ensures quiet { result ≡ 0 → Keeps out.old.errors.contents out.new.errors.contents }
{
    match document {
        Ok(text) => print(
            Ok(Answer {
                text,
                is_accepted: true,
            }),
            out,
        ),
        Err(_) => stop(out, &Halt::NoMemory),
    }
}

// The document of a replay that printed these lines, with what it rests on.
fn document_of<F: Files>(
    alloc: Global,
    files: &F,
    texts: &SiteTexts<'_>,
    lines: &[u8],
    halt: Option<&Halt>,
) -> Result<Vec<u8>, AllocError> {
    let document = replay_document(alloc, texts, lines, halt)?;
    based(alloc, files, texts, false, document.as_slice())
}

// Replays, and prints the document of all losses.
fn replay_as_document<F: Files, W: Sink, E: Sink>(
    alloc: Global,
    files: &F,
    options: Options,
    site_name: &str,
    events_name: &str,
    out: &mut Outputs<W, E>,
) -> u8
    ensures ends { (text events : List ℕ)
        → F.bytes_of files.now site_name.now ≡ Some text → F.bytes_of files.now events_name.now ≡ Some events
        → MayEnd (ReplayIs (F.bytes_of files.now) text events) result }
    ensures fails { (text events : List ℕ)
        → F.bytes_of files.now site_name.now ≡ Some text → F.bytes_of files.now events_name.now ≡ Some events
        → FailsBy (Any (F.may_fail files.now) (site_name.now ∷ events_name.now ∷ file_names text) ⊎ PiecesMayFail F.Opened.faults events)
        result out.old out.new }
    ensures status { result ≤ 4 }
    ensures none_failed { result ≢ 4 → out.new.output.faults ≡ out.old.output.faults }
    ensures quiet { result ≡ 0 → Keeps out.old.errors.contents out.new.errors.contents }
{
    let mut texts = SiteTexts::empty(alloc, site_name);
    let mut lines = Gathered::new(alloc);
    let replayed = replay_on(
        alloc,
        files,
        &mut texts,
        options,
        site_name,
        events_name,
        &mut lines,
    );
    match replayed {
        Ok(()) => {
            let document = document_of(alloc, files, &texts, lines.text(), None);
            print_document(document, out)
        }
        Err(halt) => {
            let halt = in_memory(halt);
            read_events_for(alloc, files, &mut texts, options, events_name, &halt);
            let document = document_of(alloc, files, &texts, lines.text(), Some(&halt));
            stop_with_document(document, halt, out)
        }
    }
}

/// Makes the events of a file at a site, line by line as they are read, and prints a line for each loss as it happens,
/// and one at the end; with words for people after a fault, or a document in place of the lines. It answers the exit status:
/// 0 where each line is skipped or its event was made, 1 at an event that is no step or finds a total full, 2 at a faulty
/// site or a line that is no event, 3 where memory runs out, and 4 where a read or write failed. What was printed before
/// stands.
pub fn replay<F: Files, W: Sink, E: Sink>(
    alloc: Global,
    files: &F,
    options: Options,
    site_name: &str,
    events_name: &str,
    out: &mut Outputs<W, E>,
) -> u8
    ensures ends { (text events : List ℕ)
        → F.bytes_of files.now site_name.now ≡ Some text → F.bytes_of files.now events_name.now ≡ Some events
        → MayEnd (ReplayIs (F.bytes_of files.now) text events) result }
    ensures says { options.json ≡ false → (text events : List ℕ)
        → F.bytes_of files.now site_name.now ≡ Some text → F.bytes_of files.now events_name.now ≡ Some events
        → ReplayReport options (F.bytes_of files.now) text events result out.old out.new }
    ensures fails { (text events : List ℕ)
        → F.bytes_of files.now site_name.now ≡ Some text → F.bytes_of files.now events_name.now ≡ Some events
        → FailsBy (Any (F.may_fail files.now) (site_name.now ∷ events_name.now ∷ file_names text) ⊎ PiecesMayFail F.Opened.faults events)
        result out.old out.new }
    ensures status { result ≤ 4 }
    ensures none_failed { result ≢ 4 → out.new.output.faults ≡ out.old.output.faults }
    ensures quiet { result ≡ 0 → Keeps out.old.errors.contents out.new.errors.contents }
{
    if options.json {
        replay_as_document(alloc, files, options, site_name, events_name, out)
    } else {
        replay_lines(alloc, files, options, site_name, events_name, out)
    }
}
