//! Decimal numbers, as texts write them.

ghost use Rattle.std.specs.Prelude.{◌≡◌, ◌≤◌, ℕ, IfNone, IfSome};
ghost use Rattle.std.specs.Char.{is_ascii_digit};
ghost use Rattle.std.specs.Fmt.{decimal};
ghost use Rattle.std.specs.List.{list_all};
ghost use Rattle.sy_wire.specs.Numbers as spec;

fn all_digits(word: &[u8]) -> bool
    ensures { result ≡ list_all is_ascii_digit word.now }
{
    word.iter().all(|b| b.is_ascii_digit())
}

/// Whether a word is one decimal digit or more, and nothing else.
pub fn is_numeral(word: &[u8]) -> bool
    ensures { result ≡ spec.is_numeral word.now }
{
    !word.is_empty() && all_digits(word)
}

/// The number that decimal digits write, where it is no more than the most. Zeros may stand before it.
pub fn number_up_to(digits: &[u8], most: u64) -> Option<u64>
    ensures { result ≡ spec.number_up_to most digits.now }
{
    if digits.is_empty() {
        return None;
    }
    let mut number = 0u64;
    for digit in digits {
        if !digit.is_ascii_digit() {
            return None;
        }
        let next = u128::from(number) * 10 + u128::from(*digit - b'0');
        if next > u128::from(most) {
            return None;
        }
        number = next as u64;
    }
    Some(number)
}

/// The number whose one spelling a word is, without leading zeros, where it is no more than the most.
pub fn decimal_up_to(word: &[u8], most: u64) -> Option<u64>
    ensures some { IfSome result (λ n. (n ≤ most) × (word.now ≡ decimal n)) }
    ensures none { IfNone result ((n : ℕ) → n ≤ most → word.now ≡ decimal n → ⊥) }
{
    if word.len() > 1 && word[0] == b'0' {
        return None;
    }
    number_up_to(word, most)
}
