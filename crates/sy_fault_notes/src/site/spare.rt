//! Notes of the policy line and of spare lines of a site file.

use crate::file_line::{FileLine, stands_at_word};
use crate::site::lines::{push_unknown_relay, push_words, words_in};
use std::alloc::{AllocError, Global};
use sy_places::site_file::source::word_in;
use sy_report::texts::note::Note;
use sy_report::texts::parts::Part;
use sy_site::without_return;

// Whether a line is skipped: it has no words, or is a comment.
fn is_skipped(line: &[u8]) -> bool {
    match word_in(line, 0) {
        Some((_, word)) => word.first() == Some(&b'#'),
        None => true,
    }
}

/// The number of the first line of a text that isn't skipped, and that line.
pub fn first_line(text: &[u8]) -> Option<(u64, &[u8])> {
    let mut number: u64 = 1;
    for line in text.split(|b| *b == b'\n') {
        let line = without_return(line);
        if !is_skipped(line) {
            return Some((number, line));
        }
        number = number.saturating_add(1);
    }
    None
}

/// Whether a line is `policy 2`.
pub fn sets_policy(line: &[u8]) -> bool {
    matches!(word_in(line, 0), Some((_, b"policy")))
        && matches!(word_in(line, 1), Some((_, b"2")))
        && word_in(line, 2).is_none()
}

/// Says of a policy line that is none, or has no place there, what is wrong with it.
pub fn push_policy_line(alloc: Global, note: &mut Note, at: FileLine<'_>) {
    if words_in(at.line) != 2 {
        push_words(alloc, note, at, words_in(at.line).min(2), "policy 2");
        return;
    }
    if !sets_policy(at.line) {
        stands_at_word(alloc, note, at, 1);
        note.why.say(
            "policy 2 is the only one that a line sets; a file without such a line has policy 1",
        );
        note.change.say("policy 2, or leave out this line");
        return;
    }
    stands_at_word(alloc, note, at, 0);
    note.why.say("policy 2 stands in the first line of a file and nowhere else");
    match first_line(at.text) {
        Some((number, line)) => {
            note.why.append(&[
                Part::Text(b"; that is line "),
                Part::Number(number),
                Part::Text(b" here: "),
                Part::Text(line),
            ]);
            if sets_policy(line) {
                note.change.say("leave out this line");
            } else {
                note.change.say("put this line before that one");
            }
        }
        None => {}
    }
}

/// Says of a spare line that is none, or has no place there, what is wrong with it.
pub fn push_spare_line(alloc: Global, note: &mut Note, at: FileLine<'_>) -> Result<(), AllocError> {
    let count = words_in(at.line);
    if count != 3 {
        push_words(alloc, note, at, count.min(3), "spare RELAY ACTION");
        return Ok(());
    }
    let has_policy = match first_line(at.text) {
        Some((_, line)) => sets_policy(line),
        None => false,
    };
    if !has_policy {
        stands_at_word(alloc, note, at, 0);
        note.why.say("spare lines stand only in a file whose first line is policy 2");
        note.change.append(&[
            Part::Text(b"policy 2 as the first line of "),
            Part::Text(at.file.as_bytes()),
            Part::Text(b", or leave out this line"),
        ]);
        return Ok(());
    }
    if !push_unknown_relay(alloc, note, at, 1)? {
        stands_at_word(alloc, note, at, 0);
        note.why.say("a site has 256 spare lines at most");
        note.change.say("fewer spare lines");
    }
    Ok(())
}

// Whether a line is a protect line that names the action of a spare line.
fn names_action(line: &[u8], relay: &[u8], action: &[u8]) -> bool {
    matches!(word_in(line, 0), Some((_, b"protect")))
        && matches!(word_in(line, 2), Some((_, word)) if word == relay)
        && matches!(word_in(line, 3), Some((_, word)) if word == action)
}

/// Says of a spare line which protect line names its action.
pub fn push_spare_archive(alloc: Global, note: &mut Note, at: FileLine<'_>) {
    stands_at_word(alloc, note, at, 2);
    let (Some((_, relay)), Some((_, action))) = (word_in(at.line, 1), word_in(at.line, 2)) else {
        return;
    };
    let mut number: u64 = 1;
    for line in at.text.split(|b| *b == b'\n') {
        let line = without_return(line);
        if names_action(line, relay, action) {
            note.why.append(&[
                Part::Text(b"line "),
                Part::Number(number),
                Part::Text(b" asks that messages are kept there: "),
                Part::Text(line),
            ]);
            note.change.say("leave out this line, or that one");
            return;
        }
        number = number.saturating_add(1);
    }
}
