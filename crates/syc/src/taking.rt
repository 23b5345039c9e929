//! Options that are taken out of the words before these are read.
ghost use Rattle.std.specs.Prelude.{Decides, map, string_bytes};
ghost use Rattle.syc.specs.Words.{BeginWith};

use sy_report::command_line::command::is_word;

// The place of an option among the words, where it is there once.
fn place_of_option(words: &[String], option: &str) -> Option<usize> {
    let mut found = None;
    for place in 0..words.len() {
        if is_word(words[place].as_str(), option) {
            if found.is_some() {
                return None;
            }
            found = Some(place);
        }
    }
    found
}

/// Takes an option out of the words where it is among them once, and answers whether it was.
pub fn take_option(words: &mut Vec<String>, option: &str) -> bool {
    match place_of_option(words.as_slice(), option) {
        Some(place) if place < words.len() => {
            drop(words.remove(place));
            true
        }
        _ => false,
    }
}

/// Whether the first word is this one.
pub fn is_first(words: &[String], wanted: &str) -> bool
    ensures { Decides result (BeginWith wanted.now (map string_bytes words.now)) }
{
    match words.first() {
        Some(word) => is_word(word.as_str(), wanted),
        None => false,
    }
}
