//! The lines of a text, and what words are.

ghost use Rattle.std.specs.Prelude.{◌≡◌, ◌<◌, ◌≤◌, ℕ, length, IfSome, IfNone};
ghost use Rattle.std.specs.Fmt.{decimal};
ghost use Rattle.std.specs.List.{list_all};
ghost use Rattle.sy_cert.specs.Rows as rows;
ghost use Rattle.sy_cert.specs.Faults as faults;
ghost use Rattle.sy_cert.specs.internal.Reading.{IsCut};

use memchr::memchr;
use sy_wire::numbers::decimal_up_to;

/// The most bytes of a relay's name.
const NAME_BYTES: usize = 64;

/// What is before the first of a mark, and what is after it.
pub fn cut(bytes: &[u8], mark: u8) -> Option<(&[u8], &[u8])>
    ensures some { IfSome result (λ r. IsCut mark bytes.now r.0.now r.1.now) }
    ensures shorter { IfSome result (λ r. length r.1.now < length bytes.now) }
    ensures none { IfNone result (faults.Lacks mark bytes.now) }
{
    match memchr(mark, bytes) {
        Some(at) => Some((&bytes[..at], &bytes[at + 1..])),
        None => None,
    }
}

fn is_name_byte(byte: u8) -> bool
    ensures { result ≡ rows.is_name_byte byte }
{
    byte.is_ascii_alphanumeric() || byte == b'-' || byte == b'_' || byte == b'.'
}

fn all_name_bytes(word: &[u8]) -> bool
    ensures { result ≡ list_all rows.is_name_byte word.now }
{
    word.iter().all(|b| is_name_byte(*b))
}

/// Whether a word is a relay's name.
pub fn is_name(word: &[u8]) -> bool
    ensures { result ≡ rows.is_name word.now }
{
    !word.is_empty() && word.len() <= NAME_BYTES && all_name_bytes(word)
}

fn is_action_byte(byte: u8) -> bool
    ensures { result ≡ rows.is_action_byte byte }
{
    byte != b' ' && byte != b'\t' && byte != b'\n'
}

fn all_action_bytes(word: &[u8]) -> bool
    ensures { result ≡ list_all rows.is_action_byte word.now }
{
    word.iter().all(|b| is_action_byte(*b))
}

/// Whether a word is an action's name.
pub fn is_action(word: &[u8]) -> bool
    ensures { result ≡ rows.is_action word.now }
{
    !word.is_empty() && all_action_bytes(word)
}

/// The number that a word writes, where that is its one spelling and no more than the most.
pub fn number(word: &[u8], most: u32) -> Option<u32>
    ensures some { IfSome result (λ n. (n ≤ most) × (word.now ≡ decimal n)) }
    ensures none { IfNone result ((n : ℕ) → n ≤ most → word.now ≡ decimal n → ⊥) }
{
    match decimal_up_to(word, u64::from(most)) {
        Some(number) => Some(number as u32),
        None => None,
    }
}
