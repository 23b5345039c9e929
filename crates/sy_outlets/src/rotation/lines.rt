//! The lines about the files of archives.

use crate::rotation::opened::Refusal;
use crate::rotation::troubles::{Notice, Trouble};
use std::alloc::{AllocError, Global};
use sy_report::texts::parts::Part;
use sy_report::texts::words::Words;

// Why a file can't be opened.
fn say_refusal(alloc: Global, words: &mut Words, refusal: Refusal) -> Result<(), AllocError> {
    match refusal {
        Refusal::NoFolder => words.say("no such folder"),
        Refusal::NoFrames => words.say("it hasn't whole frames alone"),
        Refusal::NoName => words.say("its name isn't UTF-8"),
        Refusal::Twice => words.say("it is an unread file by another name too"),
        Refusal::NotRegular => words.say("it is no regular file"),
        Refusal::Locked => words.say("another process writes to it"),
        Refusal::Host(reason) => {
            let mut text = Vec::new(alloc);
            reason.append(alloc, &mut text)?;
            words.append(&[Part::Text(text.as_slice())]);
        }
    }
    Ok(())
}

/// Why a file can't be opened, in words.
pub fn refusal_text(alloc: Global, refusal: Refusal) -> Result<Vec<u8>, AllocError> {
    let mut words = Words::new(alloc);
    say_refusal(alloc, &mut words, refusal)?;
    words.finish()
}

// Says that it can't be opened anew.
fn say_refused(
    alloc: Global,
    words: &mut Words,
    path: &[u8],
    refusal: Refusal,
) -> Result<(), AllocError> {
    words.say(" can't reopen ");
    words.append_in_line(path);
    words.say(": ");
    say_refusal(alloc, words, refusal)
}

fn say_notice(
    alloc: Global,
    words: &mut Words,
    path: &[u8],
    notice: Notice,
) -> Result<(), AllocError> {
    match notice {
        Notice::Is(Trouble::Refused(refusal)) => {
            say_refused(alloc, words, path, refusal)?;
            words.say("; lines go on to the file that was renamed");
        }
        Notice::Is(Trouble::Closed(refusal)) => {
            say_refused(alloc, words, path, refusal)?;
            words.say("; no line is written until it can be");
        }
        Notice::Is(Trouble::Nameless) => words.say(" writes to a file that has no name any more"),
        Notice::Reopened => {
            words.say(" reopened ");
            words.append_in_line(path);
        }
        Notice::Named => {
            words.say(" writes to ");
            words.append_in_line(path);
            words.say(" again");
        }
    }
    Ok(())
}

/// A line about the file of an archive, of the action of this name (`action audit`). Names stand there as they are
/// printed.
pub fn notice_line(
    alloc: Global,
    action: &[u8],
    path: &[u8],
    notice: Notice,
) -> Result<Vec<u8>, AllocError> {
    let mut words = Words::new(alloc);
    words.say("syc: ");
    words.append(&[Part::Name(action)]);
    say_notice(alloc, &mut words, path, notice)?;
    words.say("\n");
    words.finish()
}

/// The answer once so many archives were opened anew. Others wait for who writes to them, or for a pipe's reader.
pub fn answer_line(alloc: Global, reopened: u64, later: u64) -> Result<Vec<u8>, AllocError> {
    let mut words = Words::new(alloc);
    words.append(&[
        Part::Text(b"syc: reopened "),
        Part::Number(reopened),
        Part::Text(b" archives"),
    ]);
    if later > 0 {
        words.append(&[
            Part::Text(b", "),
            Part::Number(later),
            Part::Text(b" not yet"),
        ]);
    }
    words.say("\n");
    words.finish()
}
