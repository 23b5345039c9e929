//! Frames of RELP from pieces of a stream.
ghost use Rattle.std.specs.Prelude.{◌≡◌, ◌≢◌, ◌+◌, ◌-◌, ◌<◌, ◌≤◌, [], false, length, drop, take, slice_range, OnErr, OnOk, IfErr, IfOk};
ghost use Rattle.std.specs.Io.KnownBytes.{Keeps};
ghost use Rattle.sy_wire.specs.Steps.{FillFails, Fills};
ghost use Rattle.sy_wire.specs.Streams.{ReadsPiece, Rose, count_after};
ghost use Rattle.sy_relp.specs.Reading.{EndStops, EndsWhole, GivesInto, Stops};

use crate::fault::FrameFault;
use crate::frame::RelpFrame;
use crate::parts::{Halt, frame_at};
use std::alloc::{AllocError, Global};
use std::marker::Model;
use sy_wire::{FillFault, PIECE, ReadFault, Source};

// Moves the bytes of that range to the beginning.
fn move_to_front(bytes: &mut [u8], at: usize, end: usize)
    requires order { at ≤ end }
    requires within { end ≤ length bytes.old }
    ensures front { take (end - at) bytes.new ≡ slice_range bytes.old at end }
    ensures len { length bytes.new ≡ length bytes.old }
{
    bytes.copy_within(at..end, 0);
}

// Makes room up to there, where there is none yet.
fn make_room(bytes: &mut Vec<u8>, end: usize, wanted: usize) -> Result<(), AllocError>
    requires { end ≤ length bytes.old.items }
    ensures room { OnOk result (wanted ≤ length bytes.new.items) }
    ensures same { take end bytes.new.items ≡ take end bytes.old.items }
    ensures within { end ≤ length bytes.new.items }
{
    if bytes.len() < wanted {
        bytes.resize(wanted, 0)?;
    }
    Ok(())
}

// Reads once into the room from there on.
fn read_behind<R: Source>(bytes: &mut [u8], end: usize, source: &mut R) -> Result<usize, ReadFault>
    requires { end + PIECE ≤ length bytes.old }
    ensures front { take end bytes.new ≡ take end bytes.old }
    ensures len { length bytes.new ≡ length bytes.old }
    ensures bound { IfOk result (λ count. count ≤ PIECE) }
    ensures read { IfOk result (λ count. ReadsPiece (R.remaining source.old) (R.remaining source.new)
        (take count (drop end bytes.new)) count) }
    ensures kept { OnErr result (Keeps (R.remaining source.old) (R.remaining source.new)) }
    ensures call { R.calls source.new ≡ count_after (R.calls source.old) 1 }
    ensures ok { OnOk result (R.faults source.new ≡ R.faults source.old) }
    ensures count { R.faults source.old ≤ R.faults source.new }
    ensures err { OnErr result (Rose (R.faults source.old) (R.faults source.new)) }
{
    let (_, behind) = bytes.split_at_mut(end);
    let (room, _) = behind.split_at_mut(PIECE);
    source.read(room)
}

/// Cuts a stream into frames. The stream is read in pieces, and how it is cut into them doesn't show.
#[derive(Drop)]
pub struct Reader {
    // room for bytes: those from `at` to `end` came, and were not given yet
    bytes: Vec<u8>,
    at: usize,
    end: usize,
    has_failed: bool,
}

impl Model for Reader {
    ghost use Rattle.std.specs.Prelude.{◌≤◌, length, slice_range};
    ghost use Rattle.sy_wire.specs.Frames.{Held};

    ghost Value = { Held };

    ghost view = { λ f. record { left = slice_range f.bytes.items f.at f.end; has_failed = f.has_failed } };

    ghost invariant = { λ f. (f.at ≤ f.end) × (f.end ≤ length f.bytes.items) };
}

// Puts those bytes in place of what the buffer had.
fn replace(buffer: &mut Vec<u8>, bytes: &[u8]) -> Result<(), AllocError>
    ensures { OnOk result (buffer.new.items ≡ bytes.now) }
{
    buffer.clear();
    buffer.extend_from_slice(bytes)
}

impl Reader {
    /// A reader to which nothing came. It takes no memory yet.
    pub fn new(alloc: Global) -> Reader
        ensures { result ≡ record { left = []; has_failed = false } }
    {
        Reader {
            bytes: Vec::new(alloc),
            at: 0,
            end: 0,
            has_failed: false,
        }
    }

    // Moves what is left to the beginning, if at least as many bytes go as move: so each moves once on average.
    fn pack(&mut self)
        ensures { self.new ≡ self.old }
    {
        if self.at >= self.end - self.at {
            move_to_front(self.bytes.as_mut_slice(), self.at, self.end);
            self.end -= self.at;
            self.at = 0;
        }
    }

    /// Reads the next piece of the stream from its source, which is asked once, for at most `PIECE` bytes, and
    /// answers how many came. It is none only at the end of the stream.
    pub fn fill<R: Source>(&mut self, source: &mut R) -> Result<usize, FillFault>
        ensures ok { IfOk result (λ count. Fills self.old count self.new
            (R.remaining source.old) (R.remaining source.new)) }
        ensures bound { IfOk result (λ count. count ≤ PIECE) }
        ensures none { IfOk result (λ count. count ≡ 0 → self.new ≡ self.old) }
        ensures err { IfErr result (λ e. FillFails e self.old self.new
            (R.remaining source.old) (R.remaining source.new)) }
        ensures call { OnOk result (R.calls source.new ≡ count_after (R.calls source.old) 1) }
        ensures calls { R.calls source.new ≤ R.calls source.old + 1 }
        ensures same { OnOk result (R.faults source.new ≡ R.faults source.old) }
        ensures count { R.faults source.old ≤ R.faults source.new }
        ensures cause { IfErr result (λ e. e ≡ FillFault.ReadFailed →
            Rose (R.faults source.old) (R.faults source.new)) }
        ensures untouched { IfErr result (λ e. e ≢ FillFault.ReadFailed → source.new ≡ source.old) }
    {
        if self.has_failed {
            return Err(FillFault::Failed);
        }
        self.pack();
        let Ok(()) = make_room(&mut self.bytes, self.end, self.end + PIECE) else {
            return Err(FillFault::NoMemory);
        };
        match read_behind(self.bytes.as_mut_slice(), self.end, source) {
            Ok(count) => {
                self.end += count;
                Ok(count)
            }
            Err(ReadFault) => Err(FillFault::ReadFailed),
        }
    }

    /// Whether there is a whole frame at the front, which is put in place of what `frame` had, and in its memory where it has room. Where
    /// there is none, more bytes have to come first. It answers no `Truncated`.
    pub fn next_into(&mut self, frame: &mut RelpFrame) -> Result<bool, FrameFault>
        ensures ok { IfOk result (λ found. GivesInto found self.old frame.new self.new) }
        ensures err { IfErr result (λ fault. Stops fault self.old self.new) }
    {
        if self.has_failed {
            return Err(FrameFault::Failed);
        }
        let rest = &self.bytes[self.at..self.end];
        match frame_at(rest) {
            Ok(parts) => {
                frame.txnr = parts.txnr;
                let Ok(()) = replace(&mut frame.command, parts.command) else {
                    return Err(FrameFault::NoMemory);
                };
                let Ok(()) = replace(&mut frame.content, parts.content) else {
                    return Err(FrameFault::NoMemory);
                };
                self.at = self.end - parts.behind.len();
                Ok(true)
            }
            Err(Halt::Short) => Ok(false),
            Err(Halt::Bad(fault)) => {
                self.has_failed = true;
                Err(fault)
            }
        }
    }

    /// The stream has ended: all whole frames and any other fault were answered before. It answers `Truncated` or `Failed`.
    pub fn end(&mut self) -> Result<(), FrameFault>
        ensures ok { OnOk result (EndsWhole self.old self.new) }
        ensures err { IfErr result (λ fault. EndStops fault self.old self.new) }
    {
        if self.has_failed {
            return Err(FrameFault::Failed);
        }
        if self.at < self.end {
            self.has_failed = true;
            return Err(FrameFault::Truncated);
        }
        Ok(())
    }
}
