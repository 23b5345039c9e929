//! The words of a line, with one space between each two.

ghost use Rattle.std.specs.Prelude.{◌≡◌, ◌∷◌, [], ℕ, List, IfSome, IfNone};
ghost use Rattle.std.specs.Option.{option_copied};
ghost use Rattle.sy_wire.specs.Words.{words_in, words_left};

use memchr::memchr;

/// The first word of a line, and what is after the space after it.
pub fn first_word(line: &[u8]) -> (&[u8], Option<&[u8]>)
    ensures { words_in line.now ≡ result.0.now ∷ words_left (option_copied result.1) }
{
    match memchr(b' ', line) {
        Some(at) => (&line[..at], Some(&line[at + 1..])),
        None => (line, None),
    }
}

/// The first of the words that are left, and what is after it.
pub fn next_word(rest: Option<&[u8]>) -> Option<(&[u8], Option<&[u8]>)>
    ensures some { IfSome result (λ r. words_left (option_copied rest.entry)
        ≡ r.0.now ∷ words_left (option_copied r.1)) }
    ensures none { IfNone result (words_left (option_copied rest.entry) ≡ []) }
{
    match rest {
        Some(line) => Some(first_word(line)),
        None => None,
    }
}

/// The one word that is left.
pub fn only_word(rest: Option<&[u8]>) -> Option<&[u8]>
    ensures some { IfSome result (λ w. words_left (option_copied rest.entry) ≡ w.now ∷ []) }
    ensures none { IfNone result ((w : List ℕ) → words_left (option_copied rest.entry) ≡ w ∷ [] → ⊥) }
{
    let (word, rest) = next_word(rest)?;
    match next_word(rest) {
        Some(_) => None,
        None => Some(word),
    }
}
