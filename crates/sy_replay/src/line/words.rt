//! The words of a line, and their numbers.

ghost use Rattle.std.specs.Prelude.{◌≡◌, true, false};
ghost use Rattle.sy_replay.specs.Lines as spec;

use sy_wire::numbers::decimal_up_to;

/// The largest number, which has 10 digits.
const LARGEST: u64 = 9_999_999_999;

/// Whether a word is this one.
pub fn is_word(word: &[u8], wanted: &[u8]) -> bool
    ensures yes { result ≡ true → word.now ≡ wanted.now }
    ensures no { result ≡ false → word.now ≡ wanted.now → ⊥ }
{
    word == wanted
}

/// The number that a word writes.
pub fn number(word: &[u8]) -> Option<u64>
    ensures { result ≡ spec.number_of word.now }
{
    decimal_up_to(word, LARGEST)
}
