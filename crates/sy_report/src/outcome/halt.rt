//! Why a command over a site stops early, and what it prints then.
ghost use Rattle.std.specs.Prelude.{◌≡◌, ◌<◌, length, position, IfSome};
ghost use Rattle.sy_report.specs.HaltTexts.{at_place, first_line, halt_report, in_line, is_control, relay_report, site_report, with_word};
ghost use Rattle.sy_report.specs.Reports.{Reported, seen};
ghost use Rattle.sy_report.specs.Halts as spec;

use crate::outcome::report::{report_line, report_text, report_texts};
use crate::writing::line::LineText;
use itoa::Buffer;
use sy_cert::TextFault;
use sy_script::ScriptFault;
use sy_site::{RelayFault, SiteFault};
use sy_wire::Sink;

/// Why a command over a site stops early. Lines are counted from 1.
#[derive(Drop)]
pub enum Halt {
    /// The site file, or the file of one of its relays, has this fault.
    Site(SiteFault),
    /// The text of a certificate has this fault.
    Certificate(TextFault),
    /// This line of the events file is no event.
    Line(u64),
    /// The event in this line is no step.
    Illegal(u64),
    /// The event in this line is a step, but a total is full.
    TotalsFull(u64),
    NoMemory,
    ReadFailed,
    WriteFailed,
}

// Where a fault lies.
fn report_in_line<E: Sink>(errors: &mut E, words: &str, line: u64)
    ensures { Reported
        (seen E.contents E.is_flushed E.faults errors.old) (seen E.contents E.is_flushed E.faults errors.new)
        (in_line words.now line) }
{
    let mut digits = Buffer::new();
    let line = digits.format(line).as_bytes();
    report_texts(
        errors,
        &[b"syc: ", words.as_bytes(), b" in line ", line, b"\n"],
    );
}

// A fault of a relay's script, its number and name, and its line and column in digits.
fn report_at_place<'a, E: Sink>(
    errors: &mut E,
    words: &'a [u8],
    line: &'a [u8],
    column: &'a [u8],
    relay: &'a [u8],
)
    ensures { Reported
        (seen E.contents E.is_flushed E.faults errors.old) (seen E.contents E.is_flushed E.faults errors.new)
        (at_place words.now line.now column.now relay.now) }
{
    report_line(
        errors,
        &[
            LineText::Plain(b"syc: "),
            LineText::Plain(words),
            LineText::Plain(b" at "),
            LineText::Plain(line),
            LineText::Plain(b":"),
            LineText::Plain(column),
            LineText::Plain(b" of "),
            LineText::Name(relay),
            LineText::Plain(b"\n"),
        ],
    );
}

fn report_script_fault<E: Sink>(errors: &mut E, relay: &[u8], fault: &ScriptFault)
    ensures { Reported
        (seen E.contents E.is_flushed E.faults errors.old) (seen E.contents E.is_flushed E.faults errors.new)
        (relay_report relay.now (RelayFault.Script fault.now)) }
{
    let mut line = Buffer::new();
    let mut column = Buffer::new();
    report_at_place(
        errors,
        fault.code.words().as_bytes(),
        line.format(fault.line as u64).as_bytes(),
        column.format(fault.column as u64).as_bytes(),
        relay,
    );
}

fn is_control(byte: u8) -> bool
    ensures { result ≡ is_control byte }
{
    byte < b' ' || byte == 0x7f
}

// Where the first control character of a word stands.
fn first_control(word: &[u8]) -> Option<usize>
    ensures place { result ≡ position is_control word.now }
    ensures within { IfSome result (λ place. place < length word.now) }
{
    word.iter().position(|byte| is_control(*byte))
}

// A word up to its first control character: a string of a script may have line feeds, and a fault is one line.
fn first_line(word: &[u8]) -> &[u8]
    ensures { result.now ≡ first_line word.now }
{
    match first_control(word) {
        Some(size) => &word[..size],
        None => word,
    }
}

// A fault of a relay's plan, its number and name, and its word.
fn report_with_word<'a, E: Sink>(errors: &mut E, words: &'a [u8], relay: &'a [u8], word: &'a [u8])
    ensures { Reported
        (seen E.contents E.is_flushed E.faults errors.old) (seen E.contents E.is_flushed E.faults errors.new)
        (with_word words.now relay.now word.now) }
{
    report_line(
        errors,
        &[
            LineText::Plain(b"syc: "),
            LineText::Plain(words),
            LineText::Plain(b" of "),
            LineText::Name(relay),
            LineText::Plain(b": "),
            LineText::Name(first_line(word)),
            LineText::Plain(b"\n"),
        ],
    );
}

fn report_relay_fault<E: Sink>(errors: &mut E, relay: &[u8], fault: &RelayFault)
    ensures { Reported
        (seen E.contents E.is_flushed E.faults errors.old) (seen E.contents E.is_flushed E.faults errors.new)
        (relay_report relay.now fault.now) }
{
    match fault {
        RelayFault::Script(fault) => report_script_fault(errors, relay, fault),
        RelayFault::Plan(fault) => {
            let words = fault.code.words().as_bytes();
            report_with_word(errors, words, relay, fault.word.as_slice());
        }
    }
}

fn report_site_fault<E: Sink>(errors: &mut E, fault: &SiteFault)
    ensures { Reported
        (seen E.contents E.is_flushed E.faults errors.old) (seen E.contents E.is_flushed E.faults errors.new)
        (site_report fault.now) }
{
    match fault {
        SiteFault::Line(line)
        | SiteFault::Duplicate(line)
        | SiteFault::NoFile(line)
        | SiteFault::NoSuchEntry(line)
        | SiteFault::NoSuchArchive(line)
        | SiteFault::NoSuchAction(line)
        | SiteFault::SpareArchive(line) => report_in_line(errors, fault.words(), *line as u64),
        SiteFault::NothingProtected => report_in_line(errors, fault.words(), 1),
        SiteFault::Relay(_, name, why) => report_relay_fault(errors, name.as_slice(), why),
        SiteFault::NoMemory => report_text(errors, "no memory"),
    }
}

/// Prints why a command stopped, as far as that can be written.
pub fn report_halt<E: Sink>(errors: &mut E, halt: &Halt)
    ensures { Reported
        (seen E.contents E.is_flushed E.faults errors.old) (seen E.contents E.is_flushed E.faults errors.new)
        (halt_report halt.now) }
{
    match halt {
        Halt::Site(fault) => report_site_fault(errors, fault),
        Halt::Certificate(fault) => report_in_line(errors, fault.code.words(), fault.line as u64),
        Halt::Line(line) => report_in_line(errors, "51 Line", *line),
        Halt::Illegal(line) => report_in_line(errors, "illegal event", *line),
        Halt::TotalsFull(line) => report_in_line(errors, "86 TotalsFull", *line),
        Halt::NoMemory => report_text(errors, "no memory"),
        Halt::ReadFailed => report_text(errors, "read failed"),
        Halt::WriteFailed => report_text(errors, "write failed"),
    }
}

/// The exit status of a command that stopped: 1 for an event that isn't made, 2 for faulty input, 3 for no memory, 4
/// for a failed read or write.
pub fn status_of(halt: &Halt) -> u8
    ensures { result ≡ spec.status_at halt.now }
{
    match halt {
        Halt::Site(SiteFault::NoMemory) | Halt::NoMemory => 3,
        Halt::Site(_) | Halt::Certificate(_) | Halt::Line(_) => 2,
        Halt::Illegal(_) | Halt::TotalsFull(_) => 1,
        Halt::ReadFailed | Halt::WriteFailed => 4,
    }
}
