//! The lines of a relay's log.

use crate::log::MARK;
use crate::notices::Line;
use crate::peers::{FirstUnread, PeerEnd, Sending};
use crate::subject::Subject;
use std::alloc::{AllocError, Global};
use sy_report::texts::parts::{Part, append_parts};
use sy_report::texts::reason::Reason;

fn append(text: &mut Vec<u8>, words: &str) -> Result<(), AllocError> {
    text.extend_from_slice(words.as_bytes())
}

fn append_seconds(text: &mut Vec<u8>, words: &str, seconds: u64) -> Result<(), AllocError> {
    let parts = [
        Part::Text(words.as_bytes()),
        Part::Number(seconds),
        Part::Text(b" s"),
    ];
    append_parts(text, &parts)
}

// An action fails, or an input is held.
fn append_begin(alloc: Global, text: &mut Vec<u8>, subject: &Subject) -> Result<(), AllocError> {
    let why = subject.why();
    if subject.kind.is_written() {
        append(text, " fails: ")?;
        return Reason::from_code(why).append(alloc, text);
    }
    if why == MARK {
        append(text, " held: full-delay mark")
    } else {
        append(text, " held: full queue")
    }
}

fn append_lost(text: &mut Vec<u8>, count: u64, seconds: u64) -> Result<(), AllocError> {
    append_parts(text, &[Part::Text(b" lost "), Part::Number(count)])?;
    append_seconds(text, " in ", seconds)
}

fn append_line(
    alloc: Global,
    text: &mut Vec<u8>,
    subject: &Subject,
    line: Line,
) -> Result<(), AllocError> {
    match line {
        Line::Begins => append_begin(alloc, text, subject),
        Line::Ends(seconds) => {
            if subject.kind.is_written() {
                append_seconds(text, " works after ", seconds)
            } else {
                append_seconds(text, " goes on after ", seconds)
            }
        }
        Line::Loses => append(text, " loses"),
        Line::Lost(count, seconds) => append_lost(text, count, seconds),
    }
}

/// A line about an action, an input or a queue.
pub fn subject_line(alloc: Global, subject: &Subject, line: Line) -> Result<Vec<u8>, AllocError> {
    let mut text = Vec::new(alloc);
    append_parts(
        &mut text,
        &[Part::Text(b"syc: "), Part::Name(subject.name.as_slice())],
    )?;
    append_line(alloc, &mut text, subject, line)?;
    append(&mut text, "\n")?;
    Ok(text)
}

// The first frame that carried no message, and why.
fn append_unread_frames(text: &mut Vec<u8>, end: &PeerEnd) -> Result<(), AllocError> {
    if end.unread == 0 {
        return Ok(());
    }
    append_parts(
        text,
        &[
            Part::Text(b", "),
            Part::Number(end.unread),
            Part::Text(b" unread"),
        ],
    )?;
    let Some(first) = end.first else {
        return Ok(());
    };
    let parts = [
        Part::Text(b", the first "),
        Part::Text(first.what.words().as_bytes()),
        Part::Text(b" at "),
        Part::Number(first.what.offset()),
        Part::Text(b" in frame "),
        Part::Number(first.frame),
    ];
    append_parts(text, &parts)
}

fn append_others(text: &mut Vec<u8>, others: u64) -> Result<(), AllocError> {
    if others == 0 {
        return Ok(());
    }
    let parts = [
        Part::Text(b", and "),
        Part::Number(others),
        Part::Text(b" others"),
    ];
    append_parts(text, &parts)
}

fn append_peer<'a>(
    text: &mut Vec<u8>,
    name: &'a [u8],
    peer: &'a [u8],
    words: &'a [u8],
) -> Result<(), AllocError> {
    let parts = [
        Part::Text(b"syc: "),
        Part::Name(name),
        Part::Text(b" peer "),
        Part::Text(peer),
        Part::Text(words),
    ];
    append_parts(text, &parts)
}

/// A line about a connection of an input that ended with a fault or with frames that carried no message, and about how many others did.
pub fn peer_line(
    alloc: Global,
    subject: &Subject,
    end: &PeerEnd,
    words: &str,
    others: u64,
) -> Result<Vec<u8>, AllocError> {
    let peer = end.peer.to_string(alloc)?;
    let mut text = Vec::new(alloc);
    append_peer(
        &mut text,
        subject.name.as_slice(),
        peer.as_str().as_bytes(),
        b": ",
    )?;
    append(&mut text, words)?;
    append_unread_frames(&mut text, end)?;
    append_others(&mut text, others)?;
    append(&mut text, "\n")?;
    Ok(text)
}

/// Appends what a connection sent first that is no message, and where.
pub fn append_first(text: &mut Vec<u8>, first: FirstUnread) -> Result<(), AllocError> {
    let parts = [
        Part::Text(first.what.words().as_bytes()),
        Part::Text(b" at "),
        Part::Number(first.what.offset()),
        Part::Text(b" in frame "),
        Part::Number(first.frame),
    ];
    append_parts(text, &parts)?;
    let hint = first.what.hint();
    if hint.is_empty() {
        return Ok(());
    }
    append(text, ", which ")?;
    append(text, hint)
}

// Where frames go that carry no message.
fn append_kept(text: &mut Vec<u8>, file: Option<&[u8]>) -> Result<(), AllocError> {
    match file {
        Some(file) => append_parts(text, &[Part::Text(b"; kept in "), Part::Text(file)]),
        None => append(text, "; dropped"),
    }
}

/// A line about a connection of an input that begins to send frames that carry no message, and about how many others do. They are kept in the file of
/// that name, if there is one.
pub fn sending_line(
    alloc: Global,
    subject: &Subject,
    sending: &Sending,
    others: u64,
    file: Option<&[u8]>,
) -> Result<Vec<u8>, AllocError> {
    let peer = sending.peer.to_string(alloc)?;
    let mut text = Vec::new(alloc);
    append_peer(
        &mut text,
        subject.name.as_slice(),
        peer.as_str().as_bytes(),
        b" sends what is no message: ",
    )?;
    append_first(&mut text, sending.first)?;
    append_others(&mut text, others)?;
    append_kept(&mut text, file)?;
    append(&mut text, "\n")?;
    Ok(text)
}
