//! Writing whole texts by as many writes as it takes.
ghost use Rattle.std.specs.Prelude.{◌≡◌, ◌≤◌, OnErr, OnOk, map, true};
ghost use Rattle.std.specs.Io.KnownBytes.{Appends};
ghost use Rattle.sy_wire.specs.Streams.{Rose};
ghost use Rattle.sy_report.specs.Reports.{Torn, joined};

use sy_wire::{Sink, WriteFault};

/// Writes all the bytes, or a prefix of them where a write fails, which is not tried again.
#[inline(always)]
pub fn write_all<W: Sink>(writer: &mut W, bytes: &[u8]) -> Result<(), WriteFault>
    ensures ok { OnOk result (Appends (W.contents writer.old) (W.contents writer.new) bytes.now) }
    ensures torn { OnErr result (Torn (W.contents writer.old) (W.contents writer.new) bytes.now) }
    ensures same { OnOk result (W.faults writer.new ≡ W.faults writer.old) }
    ensures count { W.faults writer.old ≤ W.faults writer.new }
    ensures err { OnErr result (Rose (W.faults writer.old) (W.faults writer.new)) }
{
    let mut at = 0;
    while at < bytes.len() {
        let (_, rest) = bytes.split_at(at);
        let count = writer.write(rest)?;
        at += count;
    }
    Ok(())
}

/// Writes these texts one behind the other.
pub fn write_texts<W: Sink>(writer: &mut W, texts: &[&[u8]]) -> Result<(), WriteFault>
    ensures ok { OnOk result (Appends (W.contents writer.old) (W.contents writer.new) (joined (map (λ text. text.now) texts.now))) }
    ensures torn { OnErr result (Torn (W.contents writer.old) (W.contents writer.new) (joined (map (λ text. text.now) texts.now))) }
    ensures same { OnOk result (W.faults writer.new ≡ W.faults writer.old) }
    ensures err { OnErr result (Rose (W.faults writer.old) (W.faults writer.new)) }
{
    for text in texts {
        write_all(writer, text)?;
    }
    Ok(())
}

/// Writes a whole text, and hands it on.
pub fn send<S: Sink>(sink: &mut S, text: &[u8]) -> Result<(), WriteFault>
    ensures ok { OnOk result (Appends (S.contents sink.old) (S.contents sink.new) text.now) }
    ensures flushed { OnOk result (S.is_flushed sink.new ≡ true) }
    ensures same { OnOk result (S.faults sink.new ≡ S.faults sink.old) }
    ensures torn { OnErr result (Torn (S.contents sink.old) (S.contents sink.new) text.now) }
    ensures err { OnErr result (Rose (S.faults sink.old) (S.faults sink.new)) }
{
    write_all(sink, text)?;
    sink.flush()
}
