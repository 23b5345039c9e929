//! Lines that are to be written.

ghost use Rattle.std.specs.Prelude.{◌≡◌, ◌+◌, ◌<◌, ◌≤◌, ◌++◌, ◌∷◌, [], drop, length, map, nat_lt, take, IfOk, OnErr, OnOk};
ghost use Rattle.std.specs.Arc.{arc_value};
ghost use Rattle.std.specs.Io.KnownBytes.{Appends, Keeps};
ghost use Rattle.std.specs.Str.{bytes_eq};
ghost use Rattle.sy_wire.specs.Streams.{Rose, with_held};
ghost use Rattle.sy_escapes.specs.Escapes.{line_of_bytes, lines_of};
ghost use Rattle.sy_escapes.specs.Sinks.{begun, last_line, rest};
ghost use Rattle.sy_escapes.specs.internal.Lines.{IsCut, line_len as size_of_line};

use crate::escaping::set_line;
use std::alloc::{AllocError, Global};
use std::sync::Arc;
use sy_wire::{Message, Sink, WriteFault};

// So many bytes are enough for one write.
const ENOUGH: usize = 65_536;

/// Lines that are to be written.
#[derive(Drop)]
pub struct Batch {
    text: Vec<u8>,
    // where the last of them begins, and how many bytes of the text are out
    start: usize,
    out: usize,
    // a line alone
    line: Vec<u8>,
}

// The bytes from a place on.
fn from(text: &[u8], start: usize) -> &[u8]
    ensures { result.now ≡ drop start text.now }
{
    if start < text.len() {
        &text[start..]
    } else {
        &text[text.len()..]
    }
}

// How long the first line is, with its line feed.
fn line_len(text: &[u8]) -> usize
    ensures len { result ≡ size_of_line text.now }
    ensures within { result ≤ length text.now }
{
    let mut len = 0;
    let mut rest = text;
    while let [byte, later @ ..] = rest {
        len += 1;
        if *byte == b'\n' {
            return len;
        }
        rest = later;
    }
    len
}

// How many of the lines are out whole where so many bytes of them are, not all of them, and where the next line begins.
fn whole_lines(text: &[u8], messages: &[Arc<Message>], reached: usize) -> (usize, usize)
    requires lines { text.now ≡ lines_of (map arc_value messages.now) }
    requires left { reached < length text.now }
    ensures bound { result.1 ≤ reached }
    ensures start { result.1 ≡ length (lines_of (take result.0 (map arc_value messages.now))) }
    ensures next { result.0 < length messages.now }
    ensures last { reached < result.1 + size_of_line (drop result.1 text.now) }
{
    let mut whole = 0;
    let mut start = 0;
    while whole < messages.len() {
        let len = line_len(from(text, start));
        if reached - start < len {
            return (whole, start);
        }
        start += len;
        whole += 1;
    }
    (whole, start)
}

// Writes what is left of the bytes from there on, and answers how many are out then: not all of them where a write
// failed, which is not tried again.
fn write_from<W: Sink>(writer: &mut W, bytes: &[u8], from: usize) -> usize
    requires { from ≤ length bytes.now }
    ensures more { from ≤ result }
    ensures bound { result ≤ length bytes.now }
    ensures bytes { Keeps (with_held (W.contents writer.old) (drop from bytes.now)) (with_held (W.contents writer.new) (drop result bytes.now)) }
    ensures whole { result ≡ length bytes.now → W.faults writer.new ≡ W.faults writer.old }
    ensures torn { result < length bytes.now → Rose (W.faults writer.old) (W.faults writer.new) }
    ensures count { W.faults writer.old ≤ W.faults writer.new }
{
    let mut at = from;
    while at < bytes.len() {
        let (_, rest) = bytes.split_at(at);
        let Ok(count) = writer.write(rest) else {
            return at;
        };
        at += count;
    }
    at
}

impl Batch {
    /// No lines.
    pub fn new(alloc: Global) -> Batch
        ensures { rest result ≡ [] }
    {
        Batch {
            text: Vec::new(alloc),
            start: 0,
            out: 0,
            line: Vec::new(alloc),
        }
    }

    /// Whether something is still to be written.
    pub fn has_rest(&self) -> bool
        ensures { result ≡ nat_lt self.now.out (length self.now.text.items) }
    {
        self.out < self.text.len()
    }

    // Whether the last line is that of a message of these bytes.
    fn is_last(&mut self, raw: &[u8]) -> Result<bool, AllocError>
        ensures is { IfOk result (λ is. is ≡ bytes_eq (last_line self.old) (line_of_bytes raw.now)) }
        ensures same { self.new ≡ record self.old { line = self.new.line } }
    {
        set_line(&mut self.line, raw)?;
        Ok(from(self.text.as_slice(), self.start) == self.line.as_slice())
    }

    /// How many of the first messages have a line that is begun and not out: one or none.
    pub fn begun(&mut self, messages: &[Arc<Message>]) -> Result<usize, AllocError>
        ensures few { IfOk result (λ count. count ≤ length messages.now) }
        ensures begun { IfOk result (λ count. count ≡ begun self.old (map arc_value messages.now)) }
        ensures same { self.new ≡ record self.old { line = self.new.line } }
    {
        let [message, ..] = messages else {
            return Ok(0);
        };
        if self.has_rest() && self.is_last(message.raw())? {
            Ok(1)
        } else {
            Ok(0)
        }
    }

    /// Writes what is still to be written.
    pub fn write<W: Sink>(&mut self, writer: &mut W) -> Result<(), WriteFault>
        ensures ok { OnOk result (rest self.new ≡ []) }
        ensures left { OnErr result (self.new.out < length self.new.text.items) }
        ensures bytes { Keeps (with_held (W.contents writer.old) (rest self.old)) (with_held (W.contents writer.new) (rest self.new)) }
        ensures same { self.new ≡ record self.old { out = self.new.out } }
        ensures more { self.old.out ≤ self.new.out }
        ensures none { OnOk result (W.faults writer.new ≡ W.faults writer.old) }
        ensures fault { OnErr result (Rose (W.faults writer.old) (W.faults writer.new)) }
        ensures count { W.faults writer.old ≤ W.faults writer.new }
    {
        if !self.has_rest() {
            return Ok(());
        }
        self.out = write_from(writer, self.text.as_slice(), self.out);
        if self.has_rest() {
            Err(WriteFault)
        } else {
            Ok(())
        }
    }

    // Puts a line behind the text, whole or not at all.
    fn push_line(&mut self, raw: &[u8]) -> Result<(), AllocError>
        ensures ok { OnOk result (self.new.text.items ≡ self.old.text.items ++ line_of_bytes raw.now) }
        ensures err { OnErr result (self.new.text.items ≡ self.old.text.items) }
        ensures start { self.new.start ≡ self.old.start }
        ensures out { self.new.out ≡ self.old.out }
    {
        set_line(&mut self.line, raw)?;
        self.text.extend_from_slice(self.line.as_slice())
    }

    /// Takes the lines of the first of the messages in place of what is there, as many as are enough, or as there is memory
    /// for, and answers how many.
    pub fn gather(&mut self, messages: &[Arc<Message>]) -> usize
        ensures within { result ≤ length messages.now }
        ensures lines { self.new.text.items ≡ lines_of (take result (map arc_value messages.now)) }
        ensures out { self.new.out ≡ 0 }
    {
        self.text.clear();
        self.start = 0;
        self.out = 0;
        let mut count = 0;
        while count < messages.len() {
            if self.text.len() >= ENOUGH || self.push_line(messages[count].raw()).is_err() {
                return count;
            }
            count += 1;
        }
        count
    }

    /// Leaves of the lines of the messages those that are out, and the next one, where something of that is: answers how many
    /// are out whole.
    pub fn cut(&mut self, messages: &[Arc<Message>]) -> usize
        requires lines { self.old.text.items ≡ lines_of (map arc_value messages.now) }
        requires left { self.old.out < length self.old.text.items }
        ensures { IsCut (map arc_value messages.now) self.old self.new result }
    {
        let (whole, start) = whole_lines(self.text.as_slice(), messages, self.out);
        let len = if self.out == start {
            0
        } else {
            line_len(from(self.text.as_slice(), start))
        };
        self.text.truncate(start + len);
        self.start = start;
        whole
    }
}
