//! Names of printable characters, as a host's, with the space after them (RFC 5424, sections 6.2.4 to 6.2.7).
ghost use Rattle.std.specs.Prelude.{◌≡◌, ◌≤◌, ◌∷◌, List, ℕ, drop, length, IfNone, IfSome};
ghost use Rattle.sy_wire.specs.Characters.{dash, space};
ghost use Rattle.sy_wire.specs.internal.Scanning.{EndsTo};
ghost use Rattle.sy_wire.specs.Messages.{IsName};

use super::scan::{Kind, run};

// The bytes after `-` and a space.
#[inline(always)]
fn nil(bytes: &[u8]) -> Option<&[u8]>
    ensures { IfSome result (λ rest. bytes.now ≡ dash ∷ space ∷ rest.now) }
{
    match bytes {
        [b'-', b' ', rest @ ..] => Some(rest),
        _ => None,
    }
}

// The bytes after printable characters and a space.
fn characters(bytes: &[u8], most: usize) -> Option<&[u8]>
    requires { 1 ≤ most }
    ensures some { IfSome result (λ rest. EndsTo (IsName most) space bytes.now rest.now) }
    ensures none { IfNone result ((rest : List ℕ) → EndsTo (IsName most) space bytes.now rest → ⊥) }
{
    let (ending, rest) = run(bytes, Kind::Printable, most)?;
    if ending == b' ' { Some(rest) } else { None }
}

// How many bytes printable characters and a space are. An answer in registers, which a slice isn't, leaves no
// place in memory to be cleared for each `-`.
#[inline(never)]
fn characters_len(bytes: &[u8], most: usize) -> Option<usize>
    requires { 1 ≤ most }
    ensures within { IfSome result (λ n. n ≤ length bytes.now) }
    ensures some { IfSome result (λ n. EndsTo (IsName most) space bytes.now (drop n bytes.now)) }
    ensures none { IfNone result ((rest : List ℕ) → EndsTo (IsName most) space bytes.now rest → ⊥) }
{
    let rest = characters(bytes, most)?;
    Some(bytes.len() - rest.len())
}

// The bytes after a name of printable characters and its space. Many are `-`, which is looked for first.
#[inline(always)]
pub(crate) fn name(bytes: &[u8], most: usize) -> Option<&[u8]>
    requires { 1 ≤ most }
    ensures some { IfSome result (λ rest. EndsTo (IsName most) space bytes.now rest.now) }
    ensures none { IfNone result ((rest : List ℕ) → EndsTo (IsName most) space bytes.now rest → ⊥) }
{
    match nil(bytes) {
        Some(rest) => Some(rest),
        None => {
            let (_, rest) = bytes.split_at(characters_len(bytes, most)?);
            Some(rest)
        }
    }
}
