//! The option by which files of any kind are read. It stands among the words of a command over a site, and is taken out
//! before these are read.
ghost use Rattle.std.specs.Prelude.{◌≡◌, ℕ, Some, false, map, string_bytes, true};
ghost use Rattle.std.specs.List.{position, remove};
ghost use Rattle.sy_report.specs.AnyFile as spec;

use crate::command_line::options::{is_given, is_same};

// Whether a word is that of a command over a site.
fn is_over_site(word: &str) -> bool
    ensures { result ≡ spec.is_over_site word.now }
{
    is_same(word, "check")
        || is_same(word, "certify")
        || is_same(word, "verify")
        || is_same(word, "replay")
        || is_same(word, "graph")
        || is_same(word, "run")
}

// Whether the words begin with that of such a command.
fn are_over_site(words: &[String]) -> bool
    ensures { result ≡ spec.are_over_site (map string_bytes words.now) }
{
    match words {
        [word, ..] => is_over_site(word.as_str()),
        [] => false,
    }
}

// The place of the option among words.
fn place_of(words: &[String]) -> Option<usize>
    ensures { result ≡ position (λ word. spec.is_any_file (string_bytes word)) words.now }
{
    words
        .iter()
        .position(|word| is_same(word.as_str(), "--any-file"))
}

/// Takes the option out of the words, those after the program's name, and answers whether it was there: once, in a
/// command over a site. Otherwise the words stay as they are.
pub fn take_any_file(words: &mut Vec<String>) -> bool
    ensures asked { result ≡ spec.ask_any_file (map string_bytes words.old.items) }
    ensures taken { result ≡ true → (place : ℕ)
        × (position (λ word. spec.is_any_file (string_bytes word)) words.old.items ≡ Some place)
        × (words.new.items ≡ remove words.old.items place) }
    ensures left { result ≡ false → words.new.items ≡ words.old.items }
{
    if !are_over_site(words.as_slice()) {
        return false;
    }
    let Some(true) = is_given(words.as_slice(), "--any-file") else {
        return false;
    };
    let Some(place) = place_of(words.as_slice()) else {
        return false;
    };
    let _option = words.remove(place);
    true
}
