//! A sink of lines with escapes.

ghost use Rattle.std.specs.Prelude.{◌≡◌, ◌≢◌, ◌<◌, ◌≤◌, [], length, map, take, true, IfErr, IfNone, IfOk, IfSome, OnErr, OnOk, OnSome};
ghost use Rattle.std.specs.Arc.{arc_value};
ghost use Rattle.std.specs.Io.KnownBytes.{Appends, Keeps};
ghost use Rattle.sy_wire.specs.Streams.{Rose, with_held};
ghost use Rattle.sy_escapes.specs.Sinks as spec;
ghost use Rattle.sy_escapes.specs.internal.Runs.{Run};

use crate::batch::Batch;
use std::alloc::Global;
use std::sync::Arc;
use sy_actions::DeviceFault;
use sy_wire::{Message, Sink, WriteFault};

/// Writes each message as one line, with escapes in the place of its control characters. Many that are offered at once go out
/// together, 65,536 bytes and what is left of the last in one write.
///
/// Where a write failed in a line, what is left of that line is written before any other: a message of it that is offered again
/// next is taken then, so that its line stands there once.
#[derive(Drop)]
pub struct EscapedSink<W: Drop> {
    writer: W,
    batch: Batch,
}

impl<W: Sink + Drop> EscapedSink<W> {
    /// A sink before that writer.
    pub fn new(alloc: Global, writer: W) -> EscapedSink<W>
        ensures writer { result.writer ≡ writer }
        ensures nothing { spec.rest result.batch ≡ [] }
    {
        EscapedSink {
            writer,
            batch: Batch::new(alloc),
        }
    }

    /// Flushes the writer.
    pub fn flush(&mut self) -> Result<(), WriteFault>
        ensures same { self.new.batch ≡ self.old.batch }
        ensures bytes { Keeps (W.contents self.old.writer) (W.contents self.new.writer) }
        ensures flushed { OnOk result (W.is_flushed self.new.writer ≡ true) }
    {
        self.writer.flush()
    }

    // Writes what is left of a line that was begun, and answers how many of the messages are taken then: one or none.
    fn resume(&mut self, messages: &[Arc<Message>]) -> Result<usize, DeviceFault>
        ensures few { IfOk result (λ count. count ≤ length messages.now) }
        ensures ok { IfOk result (λ count. (count ≡ spec.begun self.old.batch (map arc_value messages.now)) × (spec.rest self.new.batch ≡ [])) }
        ensures err { OnErr result (spec.last_line self.new.batch ≡ spec.last_line self.old.batch) }
        ensures fault { IfErr result (λ f. (f ≢ DeviceFault.CountFull) × (f ≢ DeviceFault.Broken)) }
        ensures none { OnOk result (W.faults self.new.writer ≡ W.faults self.old.writer) }
        ensures cause { IfErr result (λ f. f ≡ DeviceFault.Write → Rose (W.faults self.old.writer) (W.faults self.new.writer)) }
        ensures bytes { Keeps (with_held (W.contents self.old.writer) (spec.rest self.old.batch))
            (with_held (W.contents self.new.writer) (spec.rest self.new.batch)) }
    {
        let Ok(count) = self.batch.begun(messages) else {
            return Err(DeviceFault::NoMemory);
        };
        match self.batch.write(&mut self.writer) {
            Ok(()) => Ok(count),
            Err(WriteFault) => Err(DeviceFault::Write),
        }
    }

    // Writes the lines of some of the messages together, the first ones.
    fn write_some(&mut self, messages: &[Arc<Message>]) -> (usize, Option<DeviceFault>)
        requires some { 0 < length messages.now }
        requires nothing { spec.rest self.old.batch ≡ [] }
        ensures within { result.0 ≤ length messages.now }
        ensures more { IfNone result.1 (0 < result.0) }
        ensures less { OnSome result.1 (result.0 < length messages.now) }
        ensures own { IfSome result.1 (λ f. (f ≢ DeviceFault.CountFull) × (f ≢ DeviceFault.Broken)) }
        ensures none { IfNone result.1 (W.faults self.new.writer ≡ W.faults self.old.writer) }
        ensures cause { IfSome result.1 (λ f. f ≡ DeviceFault.Write → Rose (W.faults self.old.writer) (W.faults self.new.writer)) }
        ensures run { Run (W.contents self.old.writer) (W.contents self.new.writer) self.old.batch self.new.batch
            (map arc_value messages.now) result.0 result.1 }
    {
        let count = self.batch.gather(messages);
        if count == 0 {
            return (0, Some(DeviceFault::NoMemory));
        }
        let (together, _) = messages.split_at(count);
        match self.batch.write(&mut self.writer) {
            Ok(()) => (count, None),
            Err(WriteFault) => (self.batch.cut(together), Some(DeviceFault::Write)),
        }
    }

    // Writes the lines of the messages, up to the first that fails.
    fn write_all(&mut self, messages: &[Arc<Message>]) -> (usize, Option<DeviceFault>)
        requires { spec.rest self.old.batch ≡ [] }
        ensures within { result.0 ≤ length messages.now }
        ensures all { IfNone result.1 (result.0 ≡ length messages.now) }
        ensures some { OnSome result.1 (result.0 < length messages.now) }
        ensures own { IfSome result.1 (λ f. (f ≢ DeviceFault.CountFull) × (f ≢ DeviceFault.Broken)) }
        ensures none { IfNone result.1 (W.faults self.new.writer ≡ W.faults self.old.writer) }
        ensures cause { IfSome result.1 (λ f. f ≡ DeviceFault.Write → Rose (W.faults self.old.writer) (W.faults self.new.writer)) }
        ensures run { Run (W.contents self.old.writer) (W.contents self.new.writer) self.old.batch self.new.batch
            (map arc_value messages.now) result.0 result.1 }
    {
        let mut taken = 0;
        while taken < messages.len() {
            let (_, rest) = messages.split_at(taken);
            let (count, fault) = self.write_some(rest);
            taken += count;
            if let Some(fault) = fault {
                return (taken, Some(fault));
            }
        }
        (taken, None)
    }

    /// Offers messages, up to the first that fails: answers how many are taken, whose lines are out whole.
    pub fn offer_all(&mut self, messages: &[Arc<Message>]) -> (usize, Option<DeviceFault>)
        requires { 0 < length messages.now }
        ensures all { IfNone result.1 (result.0 ≡ length messages.now) }
        ensures some { OnSome result.1 (result.0 < length messages.now) }
        ensures own { IfSome result.1 (λ f. (f ≢ DeviceFault.CountFull) × (f ≢ DeviceFault.Broken)) }
        ensures none { IfNone result.1 (W.faults self.new.writer ≡ W.faults self.old.writer) }
        ensures cause { IfSome result.1 (λ f. f ≡ DeviceFault.Write → Rose (W.faults self.old.writer) (W.faults self.new.writer)) }
        ensures wrote { spec.Wrote (W.contents self.old.writer) (W.contents self.new.writer) self.old.batch self.new.batch
            (map arc_value messages.now) result.0 result.1 }
    {
        let begun = match self.resume(messages) {
            Ok(begun) => begun,
            Err(fault) => return (0, Some(fault)),
        };
        let (_, rest) = messages.split_at(begun);
        let (count, fault) = self.write_all(rest);
        (begun + count, fault)
    }
}
