//! The lines of a text, and the words of a line.

ghost use Rattle.std.specs.Prelude.{◌≡◌, ◌<◌, ◌≤◌, ◌∷◌, [], length, false, IfSome, IfNone};
ghost use Rattle.std.specs.List.{slice_split};
ghost use Rattle.std.specs.Str.Lines.{lines, strip_carriage_return};
ghost use Rattle.sy_site.specs.texts.Lines as spec;

use memchr::{memchr, memchr2};

/// A line without the one CR at its end, where it has one.
pub fn without_return(line: &[u8]) -> &[u8]
    ensures { result.now ≡ strip_carriage_return line.now }
{
    match line {
        [front @ .., b'\r'] => front,
        _ => line,
    }
}

/// The first line of a text, and what is behind it.
pub fn next_line(text: &[u8]) -> Option<(&[u8], &[u8])>
    ensures some { IfSome result (λ r. lines text.now ≡ r.0.now ∷ lines r.1.now) }
    ensures shorter { IfSome result (λ r. length r.1.now < length text.now) }
    ensures none { IfNone result (lines text.now ≡ []) }
{
    match memchr(b'\n', text) {
        Some(at) => Some((without_return(&text[..at]), &text[at + 1..])),
        None if text.is_empty() => None,
        None => Some((text, &text[text.len()..])),
    }
}

// What is before the first blank of a line, and what is behind it.
fn cut_at_blank(line: &[u8]) -> Option<(&[u8], &[u8])>
    ensures some { IfSome result (λ r. slice_split spec.is_blank line.now
        ≡ r.0.now ∷ slice_split spec.is_blank r.1.now) }
    ensures shorter { IfSome result (λ r. length r.1.now < length line.now) }
    ensures none { IfNone result (slice_split spec.is_blank line.now ≡ line.now ∷ []) }
{
    match memchr2(b' ', b'\t', line) {
        Some(at) => Some((&line[..at], &line[at + 1..])),
        None => None,
    }
}

// The one word of a line without blanks, and the nothing behind it.
fn only_word(line: &[u8]) -> Option<(&[u8], &[u8])>
    requires one { slice_split spec.is_blank line.now ≡ line.now ∷ [] }
    ensures some { IfSome result (λ r. spec.words line.now ≡ r.0.now ∷ spec.words r.1.now) }
    ensures none { IfNone result (spec.words line.now ≡ []) }
{
    if line.is_empty() {
        None
    } else {
        Some((line, &line[line.len()..]))
    }
}

/// The first word of a line, and what is behind it.
pub fn next_word(line: &[u8]) -> Option<(&[u8], &[u8])>
    ensures some { IfSome result (λ r. spec.words line.now ≡ r.0.now ∷ spec.words r.1.now) }
    ensures none { IfNone result (spec.words line.now ≡ []) }
{
    let mut rest = line;
    while let Some((front, behind)) = cut_at_blank(rest) {
        if !front.is_empty() {
            return Some((front, behind));
        }
        rest = behind;
    }
    only_word(rest)
}

/// What is behind the first word of a line, where it is this one.
pub fn behind_word<'t>(line: &'t [u8], word: &[u8]) -> Option<&'t [u8]>
    ensures some { IfSome result (λ rest. spec.words line.now ≡ word.now ∷ spec.words rest.now) }
    ensures none { IfNone result (spec.is_kind word.now (spec.words line.now) ≡ false) }
{
    match next_word(line) {
        Some((first, rest)) if first == word => Some(rest),
        _ => None,
    }
}
