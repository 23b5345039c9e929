//! Lines with names in them, written in parts, without memory.
ghost use Rattle.std.specs.Prelude.{◌≡◌, ◌≤◌, OnErr, OnOk};
ghost use Rattle.std.specs.Io.KnownBytes.{Appends};
ghost use Rattle.sy_wire.specs.Streams.{Rose};
ghost use Rattle.sy_report.specs.LineTexts.{line_of, line_text};
ghost use Rattle.sy_report.specs.Printed.{printed};
ghost use Rattle.sy_report.specs.Reports.{Torn};

use crate::texts::printed::{first_piece, is_plain};
use crate::writing::output::write_all;
use sy_wire::{Sink, WriteFault};

/// A text of a line.
#[derive(Clone, Copy)]
pub enum LineText<'a> {
    /// Words of the program.
    Plain(&'a [u8]),
    /// A name, a word or a path of a file.
    Name(&'a [u8]),
}

// Writes a name in its pieces.
fn write_pieces<W: Sink>(writer: &mut W, name: &[u8]) -> Result<(), WriteFault>
    ensures ok { OnOk result (Appends (W.contents writer.old) (W.contents writer.new) (printed name.now)) }
    ensures torn { OnErr result (Torn (W.contents writer.old) (W.contents writer.new) (printed name.now)) }
    ensures same { OnOk result (W.faults writer.new ≡ W.faults writer.old) }
    ensures count { W.faults writer.old ≤ W.faults writer.new }
    ensures err { OnErr result (Rose (W.faults writer.old) (W.faults writer.new)) }
{
    let mut rest = name;
    while let Some((piece, behind)) = first_piece(rest) {
        write_all(writer, piece.as_slice())?;
        rest = behind;
    }
    Ok(())
}

/// Writes a name as it is printed.
fn write_printed<W: Sink>(writer: &mut W, name: &[u8]) -> Result<(), WriteFault>
    ensures ok { OnOk result (Appends (W.contents writer.old) (W.contents writer.new) (printed name.now)) }
    ensures torn { OnErr result (Torn (W.contents writer.old) (W.contents writer.new) (printed name.now)) }
    ensures same { OnOk result (W.faults writer.new ≡ W.faults writer.old) }
    ensures count { W.faults writer.old ≤ W.faults writer.new }
    ensures err { OnErr result (Rose (W.faults writer.old) (W.faults writer.new)) }
{
    if is_plain(name) {
        return write_all(writer, name);
    }
    write_pieces(writer, name)
}

fn write_text<W: Sink>(writer: &mut W, text: LineText<'_>) -> Result<(), WriteFault>
    ensures ok { OnOk result (Appends (W.contents writer.old) (W.contents writer.new) (line_text text.entry)) }
    ensures torn { OnErr result (Torn (W.contents writer.old) (W.contents writer.new) (line_text text.entry)) }
    ensures same { OnOk result (W.faults writer.new ≡ W.faults writer.old) }
    ensures count { W.faults writer.old ≤ W.faults writer.new }
    ensures err { OnErr result (Rose (W.faults writer.old) (W.faults writer.new)) }
{
    match text {
        LineText::Plain(words) => write_all(writer, words),
        LineText::Name(name) => write_printed(writer, name),
    }
}

/// Writes these texts one behind the other.
pub fn write_line<W: Sink>(writer: &mut W, texts: &[LineText<'_>]) -> Result<(), WriteFault>
    ensures ok { OnOk result (Appends (W.contents writer.old) (W.contents writer.new) (line_of texts.now)) }
    ensures torn { OnErr result (Torn (W.contents writer.old) (W.contents writer.new) (line_of texts.now)) }
    ensures same { OnOk result (W.faults writer.new ≡ W.faults writer.old) }
    ensures err { OnErr result (Rose (W.faults writer.old) (W.faults writer.new)) }
{
    for text in texts {
        write_text(writer, *text)?;
    }
    Ok(())
}
