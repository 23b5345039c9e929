//! What is wrong with words that clap reads as a command, and that are none.

use crate::diff::rename_of;
use std::alloc::Global;
use sy_report::command_line::command::is_word;
use sy_running::words::{period, seconds};
use sy_survey::selected::{is_selector, selector_text};

// Whether a word names classes. One that memory ran out for does.
fn names_classes(alloc: Global, word: &str) -> bool {
    match selector_text(alloc, word.as_bytes()) {
        Ok(text) => is_selector(alloc, text.as_slice()).unwrap_or(true),
        Err(_) => true,
    }
}

// What is wrong with a word behind an option that takes a time, a relay's names or classes, if anything is.
fn wrong_value(alloc: Global, option: &str, word: &str) -> Option<&'static str> {
    if is_word(option, "--drain") && seconds(word.as_bytes()).is_none() {
        return Some("--drain takes decimal digits: 86400 seconds at most");
    }
    if is_word(option, "--metrics-every") && period(word.as_bytes()).is_none() {
        return Some("--metrics-every takes decimal digits: 1 to 86400 seconds");
    }
    if is_word(option, "--rename") && rename_of(word).is_none() {
        return Some("--rename takes the name of a relay before the change, = and the one after it");
    }
    if is_word(option, "--protect") && !names_classes(alloc, word) {
        return Some("--protect takes a selector, as auth,authpriv.*");
    }
    None
}

// Whether a time between two files of metrics stands among words without their name.
fn is_unpaired(words: &[&str]) -> bool {
    let mut is_timed = false;
    for word in words {
        if is_word(word, "--metrics") {
            return false;
        }
        if is_word(word, "--metrics-every") {
            is_timed = true;
        }
    }
    is_timed
}

// Why words are refused that clap reads as a command: `pass --`, an option before the word, a value behind `=`.
pub(super) fn misread_reason(alloc: Global, words: &[&str]) -> &'static str {
    let mut option = "";
    for word in words {
        if is_word(word, "--") {
            return "unexpected argument '--' found: write the command's word, its options and its names, without '--'";
        }
        if let Some(why) = wrong_value(alloc, option, word) {
            return why;
        }
        option = word;
    }
    if is_unpaired(words) {
        return "--metrics-every stands beside --metrics alone: name its file too";
    }
    "these words are read in no other order or form: write the command's word first, and an option as syc --help has it"
}
