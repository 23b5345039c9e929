//! Why a pass stops early, and what it prints then.
ghost use Rattle.std.specs.Prelude.{◌≡◌};
ghost use Rattle.sy_report.specs.Reports.{Reported, at_offset, report, seen, status_shown};

use crate::outcome::report::{report_text, report_texts};
use itoa::Buffer;
use sy_wire::{FrameFault, MsgFault, Sink};

/// Why a pass stops early.
#[derive(Clone, Copy)]
pub enum Stop {
    /// The input is no stream of frames.
    Frame(FrameFault),
    /// A frame carries no message.
    Message(MsgFault),
    NoMemory,
    ReadFailed,
    WriteFailed,
}

fn report_frame_fault<E: Sink>(errors: &mut E, fault: FrameFault, frame: u64)
    ensures { Reported
        (seen E.contents E.is_flushed E.faults errors.old) (seen E.contents E.is_flushed E.faults errors.new)
        (report (Stop.Frame fault) frame) }
{
    let mut digits = Buffer::new();
    let frame = digits.format(frame).as_bytes();
    report_texts(
        errors,
        &[
            b"syc: ",
            fault.words().as_bytes(),
            b" in frame ",
            frame,
            b"\n",
        ],
    );
}

// A fault of a message, its number and name, with its offset and the frame's number in digits.
fn report_at_offset<'a, E: Sink>(errors: &mut E, words: &'a [u8], offset: &'a [u8], frame: &'a [u8])
    ensures { Reported
        (seen E.contents E.is_flushed E.faults errors.old) (seen E.contents E.is_flushed E.faults errors.new)
        (at_offset words.now offset.now frame.now) }
{
    report_texts(
        errors,
        &[
            b"syc: ",
            words,
            b" at ",
            offset,
            b" in frame ",
            frame,
            b"\n",
        ],
    );
}

fn report_message_fault<E: Sink>(errors: &mut E, fault: MsgFault, frame: u64)
    ensures { Reported
        (seen E.contents E.is_flushed E.faults errors.old) (seen E.contents E.is_flushed E.faults errors.new)
        (report (Stop.Message fault) frame) }
{
    let mut offset = Buffer::new();
    let mut number = Buffer::new();
    report_at_offset(
        errors,
        fault.code.words().as_bytes(),
        offset.format(fault.offset as u64).as_bytes(),
        number.format(frame).as_bytes(),
    );
}

/// Prints why the pass stopped, and in which frame, counted from 1, as far as that can be written.
pub fn report_stop<E: Sink>(errors: &mut E, stop: Stop, frame: u64)
    ensures { Reported
        (seen E.contents E.is_flushed E.faults errors.old) (seen E.contents E.is_flushed E.faults errors.new)
        (report stop frame) }
{
    match stop {
        Stop::Frame(fault) => report_frame_fault(errors, fault, frame),
        Stop::Message(fault) => report_message_fault(errors, fault, frame),
        Stop::NoMemory => report_text(errors, "no memory"),
        Stop::ReadFailed => report_text(errors, "read failed"),
        Stop::WriteFailed => report_text(errors, "write failed"),
    }
}

/// The exit status of a command that stopped.
pub fn status_of(stop: Stop) -> u8
    ensures { result ≡ status_shown stop }
{
    match stop {
        Stop::Frame(_) | Stop::Message(_) => 2,
        Stop::NoMemory => 3,
        Stop::ReadFailed | Stop::WriteFailed => 4,
    }
}

/// Prints that memory ran out, and answers the exit status for that.
pub fn out_of_memory<E: Sink>(errors: &mut E) -> u8
    ensures status { result ≡ 3 }
    ensures reported { Reported
        (seen E.contents E.is_flushed E.faults errors.old) (seen E.contents E.is_flushed E.faults errors.new)
        (report Stop.NoMemory 0) }
{
    report_stop(errors, Stop::NoMemory, 0);
    3
}

/// Prints that a write failed, and answers the exit status for that.
pub fn write_failed<E: Sink>(errors: &mut E) -> u8
    ensures status { result ≡ 4 }
    ensures reported { Reported
        (seen E.contents E.is_flushed E.faults errors.old) (seen E.contents E.is_flushed E.faults errors.new)
        (report Stop.WriteFailed 0) }
{
    report_stop(errors, Stop::WriteFailed, 0);
    4
}
