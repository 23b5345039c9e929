//! The pieces of a selector's text.

ghost use Rattle.std.specs.Prelude.{◌≡◌, ◌++◌, ◌∷◌, if◌then◌else◌};
ghost use Rattle.std.specs.Char.{is_ascii_alphanumeric};
ghost use Rattle.std.specs.List.{list_all};
ghost use Rattle.std.specs.Option.{option_copied};
ghost use Rattle.std.specs.Str.{bytes_eq, str_eq_ignore_ascii_case};
ghost use Rattle.sy_select.specs.Faults as spec;

pub fn same_bytes(a: &[u8], b: &[u8]) -> bool
    ensures { result ≡ bytes_eq a.now b.now }
{
    a == b
}

pub fn same_word(a: &[u8], b: &[u8]) -> bool
    ensures { result ≡ str_eq_ignore_ascii_case a.now b.now }
{
    a.eq_ignore_ascii_case(b)
}

/// What stands before the first such byte, and after it where there is one.
pub fn cut(bytes: &[u8], mark: u8) -> (&[u8], Option<&[u8]>)
    ensures front { result.0.now ≡ (spec.cut mark bytes.now).0 }
    ensures behind { option_copied result.1 ≡ (spec.cut mark bytes.now).1 }
{
    for (at, byte) in bytes.iter().enumerate() {
        if *byte == mark {
            return (&bytes[..at], Some(&bytes[at + 1..]));
        }
    }
    (bytes, None)
}

/// Whether the text begins with a sign, and what is after it.
pub fn cut_sign(text: &[u8], sign: u8) -> (bool, &[u8])
    ensures behind { result.1.now ≡ spec.behind_sign sign text.now }
    ensures whole { text.now ≡ (if result.0 then sign ∷ result.1.now else result.1.now) }
{
    match text {
        [first, rest @ ..] if *first == sign => (true, rest),
        _ => (false, text),
    }
}

fn all_alphanumeric(text: &[u8]) -> bool
    ensures { result ≡ list_all is_ascii_alphanumeric text.now }
{
    text.iter().all(|b| b.is_ascii_alphanumeric())
}

/// Whether a text is made of letters and digits.
#[tactic(auto, unfolding(crate::specs::Faults::is_word))]
pub fn is_word(text: &[u8]) -> bool
    ensures { result ≡ spec.is_word text.now }
{
    !text.is_empty() && all_alphanumeric(text)
}
