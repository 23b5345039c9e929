//! The shapes of lines.

ghost use Rattle.std.specs.Prelude.{◌≡◌, ◌∷◌, [], ℕ, List, length, true, IfSome, IfNone, codes};
ghost use Rattle.std.specs.List.{list_all};
ghost use Rattle.std.specs.Option.{option_copied};
ghost use Rattle.sy_wire.specs.Numbers as numbers;
ghost use Rattle.sy_cert.specs.Rows as rows;
ghost use Rattle.sy_cert.specs.Faults as faults;
ghost use Rattle.sy_cert.specs.internal.Reading.{words_left};

use crate::words::{is_action, is_name};
use sy_wire::numbers::is_numeral;
use sy_wire::words::{next_word, only_word};

/// A line with a relay's name and a number.
#[derive(Clone, Copy)]
pub struct RelayLine<'t> {
    pub relay: &'t [u8],
    pub number: &'t [u8],
}

/// A line with a relay's name, the number of a list there, and the list's number.
#[derive(Clone, Copy)]
pub struct InnerLine<'t> {
    pub relay: &'t [u8],
    pub list: &'t [u8],
    pub number: &'t [u8],
}

/// A line of a path; its occurrences are the words that are left.
#[derive(Clone, Copy)]
pub struct PathLine<'t> {
    pub relay: &'t [u8],
    pub port: &'t [u8],
    pub archive_relay: &'t [u8],
    pub action: &'t [u8],
    pub occurrences: Option<&'t [u8]>,
}

/// The number of a class line, of what is after its first word.
pub fn class_line(rest: Option<&[u8]>) -> Option<&[u8]>
    ensures some { IfSome result (λ class.
        faults.IsClassLine (codes "class" ∷ words_left (option_copied rest.entry)) class.now) }
    ensures none { IfNone result ((class : List ℕ)
        → faults.IsClassLine (codes "class" ∷ words_left (option_copied rest.entry)) class → ⊥) }
{
    let class = only_word(rest)?;
    if is_numeral(class) { Some(class) } else { None }
}

/// A relay's name and a number, of what is after the first word.
pub fn relay_line(rest: Option<&[u8]>) -> Option<RelayLine<'_>>
    ensures some { IfSome result (λ it. (word : List ℕ)
        → faults.IsRelayLine word (word ∷ words_left (option_copied rest.entry)) it.relay.now it.number.now) }
    ensures none { IfNone result ((word relay number : List ℕ)
        → faults.IsRelayLine word (word ∷ words_left (option_copied rest.entry)) relay number → ⊥) }
{
    let (relay, rest) = next_word(rest)?;
    let number = only_word(rest)?;
    if is_name(relay) && is_numeral(number) {
        Some(RelayLine { relay, number })
    } else {
        None
    }
}

/// The words of an inner line, of what is after its first word.
pub fn inner_line(rest: Option<&[u8]>) -> Option<InnerLine<'_>>
    ensures some { IfSome result (λ it. faults.IsInnerLine (codes "inner" ∷ words_left (option_copied rest.entry))
        it.relay.now it.list.now it.number.now) }
    ensures none { IfNone result ((relay list number : List ℕ)
        → faults.IsInnerLine (codes "inner" ∷ words_left (option_copied rest.entry)) relay list number → ⊥) }
{
    let (relay, rest) = next_word(rest)?;
    let (list, rest) = next_word(rest)?;
    let number = only_word(rest)?;
    if is_name(relay) && is_numeral(list) && is_numeral(number) {
        Some(InnerLine {
            relay,
            list,
            number,
        })
    } else {
        None
    }
}

// Whether the words that are left are numbers by their shape.
fn are_numerals(rest: Option<&[u8]>) -> bool
    ensures { result ≡ list_all numbers.is_numeral (words_left (option_copied rest.entry)) }
{
    let mut left = rest;
    while let Some((word, after)) = next_word(left) {
        if !is_numeral(word) {
            return false;
        }
        left = after;
    }
    true
}

/// The words of a path, of what is after the first word.
pub fn path_line(rest: Option<&[u8]>) -> Option<PathLine<'_>>
    ensures some { IfSome result (λ it. faults.IsPathLine (codes "path" ∷ words_left (option_copied rest.entry))
        it.relay.now it.port.now it.archive_relay.now it.action.now (words_left (option_copied it.occurrences))) }
    ensures none { IfNone result ((relay port archive_relay action : List ℕ) (occurrences : List (List ℕ))
        → faults.IsPathLine (codes "path" ∷ words_left (option_copied rest.entry)) relay port archive_relay action
        occurrences → ⊥) }
{
    let (relay, rest) = next_word(rest)?;
    let (port, rest) = next_word(rest)?;
    let (archive_relay, rest) = next_word(rest)?;
    let (action, occurrences) = next_word(rest)?;
    let are_names = is_name(relay) && is_name(archive_relay) && is_action(action);
    if are_names && is_numeral(port) && are_numerals(occurrences) {
        Some(PathLine {
            relay,
            port,
            archive_relay,
            action,
            occurrences,
        })
    } else {
        None
    }
}
