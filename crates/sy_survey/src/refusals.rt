//! Why a configuration isn't read.
ghost use Rattle.std.specs.Prelude.{◌≢◌, ◌≤◌};

use crate::whole::{Apart, Place, Whole};
use std::alloc::{AllocError, Global};
use sy_fleet_text::{Refusal, TextFault};
use sy_places::site_file::source::point_at;
use sy_report::outcome::answer::stop;
use sy_report::outcome::halt::Halt;
use sy_report::outcome::report::{report_line, report_texts};
use sy_report::texts::parts::{Part, append_parts};
use sy_report::texts::printed::append_printed;
use sy_report::writing::line::LineText;
use sy_report::writing::outputs::Outputs;
use sy_wire::Sink;

/// The exit status of what isn't read.
const UNREAD: u8 = 2;

fn words_of(refusal: Refusal) -> &'static [u8] {
    match refusal {
        Refusal::TooLong => b"the text has more than 1 MiB",
        Refusal::OpenText => b"a text in quotes isn't ended",
        Refusal::OpenComment => b"a comment isn't ended",
        Refusal::OpenStatement => b"the text ends within an object or an expression",
        Refusal::OpenBlock => b"the text ends within a block",
        Refusal::NoBlock => b"a block ends that didn't begin",
        Refusal::Unexpected => b"nothing begins so here",
        Refusal::NoMemory => b"no memory",
    }
}

// The line that says why a text of a file isn't read.
fn refusal_line(
    alloc: Global,
    source: (&[u8], &[u8]),
    fault: TextFault,
) -> Result<Vec<u8>, AllocError> {
    let (name, text) = source;
    let point = point_at(text, fault.at);
    let mut line = Vec::new(alloc);
    line.extend_from_slice(b"syc: ")?;
    append_printed(&mut line, name)?;
    append_parts(
        &mut line,
        &[
            Part::Text(b":"),
            Part::Number(point.line),
            Part::Text(b":"),
            Part::Number(point.column),
            Part::Text(b": not read: "),
        ],
    )?;
    line.extend_from_slice(words_of(fault.refusal))?;
    line.extend_from_slice(b"\n")?;
    Ok(line)
}

// Says why a text of a file isn't read, of which the name and the bytes are given.
fn refused<W: Sink, E: Sink>(
    alloc: Global,
    out: &mut Outputs<W, E>,
    source: (&[u8], &[u8]),
    fault: TextFault,
) -> u8
    ensures status { result ≤ 4 }
    ensures failed { result ≢ 0 }
{
    if let Refusal::NoMemory = fault.refusal {
        return stop(out, &Halt::NoMemory);
    }
    let Ok(line) = refusal_line(alloc, source, fault) else {
        return stop(out, &Halt::NoMemory);
    };
    report_texts(&mut out.errors, &[line.as_slice()]);
    UNREAD
}

/// Says of which file the next line is.
pub(crate) fn report_file<E: Sink>(errors: &mut E, name: &[u8]) {
    report_line(
        errors,
        &[
            LineText::Plain(b"syc: of "),
            LineText::Name(name),
            LineText::Plain(b":\n"),
        ],
    );
}

/// Says why the text of a configuration isn't read, at the place of the file where that is.
pub(crate) fn unread<W: Sink, E: Sink>(
    alloc: Global,
    whole: &Whole,
    fault: TextFault,
    out: &mut Outputs<W, E>,
) -> u8
    ensures status { result ≤ 4 }
    ensures failed { result ≢ 0 }
{
    let Place { source, at } = whole.place(fault.at);
    let refusal = fault.refusal;
    refused(alloc, out, whole.source(source), TextFault { refusal, at })
}

/// Says why a configuration isn't put together.
pub(crate) fn apart<W: Sink, E: Sink>(
    alloc: Global,
    whole: &Whole,
    why: Apart,
    out: &mut Outputs<W, E>,
) -> u8
    ensures status { result ≤ 4 }
    ensures failed { result ≢ 0 }
{
    match why {
        Apart::Text(fault) => unread(alloc, whole, fault, out),
        Apart::TooManyFiles => {
            report_line(
                &mut out.errors,
                &[
                    LineText::Plain(b"syc: "),
                    LineText::Name(whole.source(0).0),
                    LineText::Plain(b": not read: it includes too many files, or itself\n"),
                ],
            );
            UNREAD
        }
        Apart::NoMemory => stop(out, &Halt::NoMemory),
    }
}
