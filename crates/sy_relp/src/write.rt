//! What a sender writes.
ghost use Rattle.std.specs.Prelude.{◌≡◌, ◌+◌, ◌<◌, ◌≤◌, ◌++◌, length, map, take, IfOk, OnErr, OnOk};
ghost use Rattle.std.specs.List.{AllByRecursion};
ghost use Rattle.std.specs.Arc.{arc_value};
ghost use Rattle.std.specs.Io.KnownBytes.{Appends};
ghost use Rattle.sy_relp.specs.Answers.{syslog};
ghost use Rattle.sy_relp.specs.Frames.{IsFrame, frame, stream};
ghost use Rattle.sy_relp.specs.Exchanges.{numbered};
ghost use Rattle.sy_relp.specs.internal.Streams.{AppendsFront};

use std::alloc::{AllocError, Global};
use std::sync::Arc;
use sy_wire::{MAX_FRAME, Message, Sink, WriteFault};

/// The most messages that may wait for their answers at once.
pub const WINDOW: u32 = 1024;

// Writes all of the bytes, or a proper prefix of them at a fault.
pub(crate) fn write_all<W: Sink>(writer: &mut W, bytes: &[u8]) -> Result<(), WriteFault>
    ensures whole { OnOk result (Appends (W.contents writer.old) (W.contents writer.new) bytes.now) }
    ensures torn { OnErr result (AppendsFront (W.contents writer.old) (W.contents writer.new) bytes.now) }
{
    let mut at = 0;
    while at < bytes.len() {
        let (_, rest) = bytes.split_at(at);
        match writer.write(rest) {
            Ok(count) => at += count,
            Err(WriteFault) => return Err(WriteFault),
        }
    }
    Ok(())
}

// Adds the frame of a message.
fn add_message(alloc: Global, room: &mut Vec<u8>, txnr: u32, raw: &[u8]) -> Result<(), AllocError>
    requires { 0 < length raw.now }
    ensures { OnOk result (room.new.items ≡ room.old.items ++ frame (syslog txnr raw.now)) }
{
    let len = raw.len();
    let head = format!(in alloc; "{txnr} syslog {len} ")?;
    room.extend_from_slice(head.as_bytes())?;
    room.extend_from_slice(raw)?;
    room.push(b'\n')?;
    Ok(())
}

// Puts the frames of the first of the messages into the room, a window of them at most, and none that is too long: answers how many.
pub(crate) fn gather(
    alloc: Global,
    room: &mut Vec<u8>,
    next: u32,
    messages: &[Arc<Message>],
) -> Result<u32, AllocError>
    requires { next + 1024 ≤ 999999999 }
    ensures few { IfOk result (λ count. count ≤ 1024) }
    ensures within { IfOk result (λ count. count ≤ length messages.now) }
    ensures each { IfOk result (λ count. AllByRecursion IsFrame (numbered next (take count (map arc_value messages.now)))) }
    ensures frames { IfOk result (λ count. room.new.items ≡ stream (numbered next (take count (map arc_value messages.now)))) }
{
    room.clear();
    let mut count = 0u32;
    while count < WINDOW && (count as usize) < messages.len() {
        let message = &messages[count as usize];
        message.is_message();
        let raw = message.raw();
        if raw.len() > MAX_FRAME {
            return Ok(count);
        }
        add_message(alloc, room, next + count, raw)?;
        count += 1;
    }
    Ok(count)
}
