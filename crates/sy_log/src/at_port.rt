//! The lines on standard error that say what happened at a port.
ghost use Rattle.std.specs.Prelude.{◌≡◌, ◌++◌, OnOk};
ghost use Rattle.sy_log.specs.Ports as spec;

use crate::peers::FirstUnread;
use std::alloc::AllocError;
use sy_report::texts::parts::{Part, append_parts};
use sy_runtime::RunFault;

/// Appends the line that says what happened at a port.
pub fn append_at_port(text: &mut Vec<u8>, words: &[u8], port: u16) -> Result<(), AllocError>
    ensures { OnOk result (text.new.items ≡ text.old.items ++ spec.at_port words.now port) }
{
    let place = u64::from(port);
    let parts = [
        Part::Text(b"syc: "),
        Part::Text(words),
        Part::Text(b" at "),
        Part::Number(place),
        Part::Text(b"\n"),
    ];
    append_parts(text, &parts)
}

/// Appends the line that says what happened at a port, and how often it did besides.
pub fn append_at_port_often(
    text: &mut Vec<u8>,
    words: &[u8],
    port: u16,
    others: u64,
) -> Result<(), AllocError>
    ensures { OnOk result (text.new.items ≡ text.old.items ++ spec.at_port_often words.now port others) }
{
    let besides = Part::Number(others);
    let parts = [
        Part::Text(b"syc: "),
        Part::Text(words),
        Part::Text(b" at "),
        Part::Number(u64::from(port)),
        Part::Text(b", and "),
        besides,
        Part::Text(b" others"),
        Part::Text(b"\n"),
    ];
    append_parts(text, &parts)
}

/// The number and the name of what ended a connection: of a frame's fault its own.
pub fn end_words(fault: RunFault) -> &'static str
    ensures { result.now ≡ spec.end_words fault }
{
    match fault {
        RunFault::Frame(fault) => fault.words(),
        _ => fault.words(),
    }
}

/// Appends the line that says how many frames of a connection carried no message, and why the first of them doesn't.
pub fn append_unread(
    text: &mut Vec<u8>,
    count: u64,
    port: u16,
    first: FirstUnread,
) -> Result<(), AllocError>
    ensures { OnOk result (text.new.items ≡ text.old.items ++ spec.unread_line count port first) }
{
    let why = first.what.words();
    let parts = [
        Part::Text(b"syc: "),
        Part::Number(count),
        Part::Text(b" unread at "),
        Part::Number(u64::from(port)),
        Part::Text(b": "),
        Part::Text(why.as_bytes()),
        Part::Text(b" at "),
        Part::Number(first.what.offset()),
        Part::Text(b" in frame "),
        Part::Number(first.frame),
        Part::Text(b"\n"),
    ];
    append_parts(text, &parts)
}

/// Appends the same line, and how many frames of how many other connections carried none.
pub fn append_unread_often(
    text: &mut Vec<u8>,
    count: u64,
    port: u16,
    first: FirstUnread,
    more: u64,
    others: u64,
) -> Result<(), AllocError>
    ensures { OnOk result (text.new.items ≡ text.old.items ++ spec.unread_often count port first more others) }
{
    let parts = [
        Part::Text(b"syc: "),
        Part::Number(count),
        Part::Text(b" unread at "),
        Part::Number(u64::from(port)),
        Part::Text(b": "),
        Part::Text(first.what.words().as_bytes()),
        Part::Text(b" at "),
        Part::Number(first.what.offset()),
        Part::Text(b" in frame "),
        Part::Number(first.frame),
        Part::Text(b", and "),
        Part::Number(more),
        Part::Text(b" of "),
        Part::Number(others),
        Part::Text(b" others"),
        Part::Text(b"\n"),
    ];
    append_parts(text, &parts)
}
