//! The line on standard error that says why a command stopped.
ghost use Rattle.std.specs.Prelude.{◌≡◌, OnErr, OnOk, map, true};
ghost use Rattle.std.specs.Io.KnownBytes.{Appends};
ghost use Rattle.sy_wire.specs.Streams.{Rose};
ghost use Rattle.sy_report.specs.LineTexts.{line_of};
ghost use Rattle.sy_report.specs.Reports.{Reported, Torn, joined, said, seen};

use crate::writing::line::{LineText, write_line};
use crate::writing::output::write_texts;
use sy_wire::{Sink, WriteFault};

// Writes these texts one behind the other, and hands them on.
fn send_texts<E: Sink>(errors: &mut E, texts: &[&[u8]]) -> Result<(), WriteFault>
    ensures ok { OnOk result (Appends (E.contents errors.old) (E.contents errors.new) (joined (map (λ text. text.now) texts.now))) }
    ensures flushed { OnOk result (E.is_flushed errors.new ≡ true) }
    ensures same { OnOk result (E.faults errors.new ≡ E.faults errors.old) }
    ensures torn { OnErr result (Torn (E.contents errors.old) (E.contents errors.new) (joined (map (λ text. text.now) texts.now))) }
    ensures err { OnErr result (Rose (E.faults errors.old) (E.faults errors.new)) }
{
    write_texts(errors, texts)?;
    errors.flush()?;
    Ok(())
}

/// Prints these texts one behind the other, as far as that can be done. That it fails changes nothing else.
pub fn report_texts<E: Sink>(errors: &mut E, texts: &[&[u8]])
    ensures { Reported
        (seen E.contents E.is_flushed E.faults errors.old) (seen E.contents E.is_flushed E.faults errors.new)
        (joined (map (λ text. text.now) texts.now)) }
{
    let _ = send_texts(errors, texts);
}

// Writes a line, and hands it on.
fn send_line<E: Sink>(errors: &mut E, texts: &[LineText<'_>]) -> Result<(), WriteFault>
    ensures ok { OnOk result (Appends (E.contents errors.old) (E.contents errors.new) (line_of texts.now)) }
    ensures flushed { OnOk result (E.is_flushed errors.new ≡ true) }
    ensures same { OnOk result (E.faults errors.new ≡ E.faults errors.old) }
    ensures torn { OnErr result (Torn (E.contents errors.old) (E.contents errors.new) (line_of texts.now)) }
    ensures err { OnErr result (Rose (E.faults errors.old) (E.faults errors.new)) }
{
    write_line(errors, texts)?;
    errors.flush()
}

/// Prints a line with names in it, as far as that can be done, without memory.
pub fn report_line<E: Sink>(errors: &mut E, texts: &[LineText<'_>])
    ensures { Reported
        (seen E.contents E.is_flushed E.faults errors.old) (seen E.contents E.is_flushed E.faults errors.new)
        (line_of texts.now) }
{
    let _ = send_line(errors, texts);
}

/// Prints a line that says this.
pub fn report_text<E: Sink>(errors: &mut E, text: &str)
    ensures { Reported
        (seen E.contents E.is_flushed E.faults errors.old) (seen E.contents E.is_flushed E.faults errors.new)
        (said text.now) }
{
    report_texts(errors, &[b"syc: ", text.as_bytes(), b"\n"]);
}
