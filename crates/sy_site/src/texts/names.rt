//! The files that the relay lines of a site file name.

ghost use Rattle.std.specs.Prelude.{◌≡◌, ◌+◌, ◌<◌, ◌≤◌, ◌++◌, ◌⊎◌, ◌∷◌, [], if◌then◌else◌};
ghost use Rattle.std.specs.Prelude.{ℕ, List, length, map, codes, IfOk, IfErr, OnOk};
ghost use Rattle.std.specs.List.{list_any};
ghost use Rattle.std.specs.String.{string_bytes};
ghost use Rattle.sy_site.specs.texts.Files as spec;
ghost use Rattle.sy_site.specs.texts.Lines.{words, word_lines};

use crate::fault::SiteFault;
use crate::texts::lines::{behind_word, next_line};
use crate::texts::shapes::relay_line;
use std::alloc::{AllocError, Global};

/// The most bytes of a site file.
pub const MOST_BYTES: usize = 1_048_576;

/// The most relay lines.
pub const MOST_RELAYS: usize = 64;

fn is_among(names: &[String], name: &str) -> bool
    ensures { result ≡ spec.is_among name.now (map string_bytes names.now) }
{
    let mut rest = names;
    while let [first, behind @ ..] = rest {
        if first.as_str() == name {
            return true;
        }
        rest = behind;
    }
    false
}

// Puts a name behind the others, where it isn't one of them.
fn push_name(alloc: Global, names: &mut Vec<String>, name: &str) -> Result<(), AllocError>
    ensures { OnOk result (map string_bytes names.new.items
        ≡ spec.with_names (map string_bytes names.old.items) (name.now ∷ [])) }
{
    if is_among(names.as_slice(), name) {
        return Ok(());
    }
    names.push(String::from_str(alloc, name)?)?;
    Ok(())
}

// Why the noting of a line ends.
enum Halt {
    Faulty,
    NoMemory,
}

// Notes the file of a relay line behind so many others, of the text behind its first word.
fn note_relay(
    alloc: Global,
    names: &mut Vec<String>,
    relays: usize,
    behind: &[u8],
) -> Result<(), Halt>
    ensures names { OnOk result (map string_bytes names.new.items
        ≡ spec.with_names (map string_bytes names.old.items) (spec.file_of (codes "relay" ∷ words behind.now))) }
    ensures clean { OnOk result (spec.IsFaultyRelayLine relays (codes "relay" ∷ words behind.now) → ⊥) }
    ensures err { IfErr result (λ halt. (halt ≡ Halt.NoMemory) ⊎ (halt ≡ Halt.Faulty)
        × spec.IsFaultyRelayLine relays (codes "relay" ∷ words behind.now)) }
{
    if relays >= MOST_RELAYS {
        return Err(Halt::Faulty);
    }
    match relay_line(behind) {
        Some(line) => match push_name(alloc, names, line.file) {
            Ok(()) => Ok(()),
            Err(_) => Err(Halt::NoMemory),
        },
        None => Err(Halt::Faulty),
    }
}

// Notes a line behind so many relay lines: how many they are with it.
fn note(alloc: Global, names: &mut Vec<String>, relays: usize, line: &[u8]) -> Result<usize, Halt>
    ensures relays { IfOk result (λ n. n ≡ relays + spec.how_many (words line.now ∷ [])) }
    ensures names { OnOk result (map string_bytes names.new.items
        ≡ spec.with_names (map string_bytes names.old.items) (spec.file_of (words line.now))) }
    ensures clean { OnOk result (spec.IsFaultyRelayLine relays (words line.now) → ⊥) }
    ensures err { IfErr result (λ halt. (halt ≡ Halt.NoMemory) ⊎ (halt ≡ Halt.Faulty)
        × spec.IsFaultyRelayLine relays (words line.now)) }
{
    match behind_word(line, b"relay") {
        Some(behind) => match note_relay(alloc, names, relays, behind) {
            Ok(()) => Ok(relays + 1),
            Err(halt) => Err(halt),
        },
        None => Ok(relays),
    }
}

/// The files that the relay lines of a site file name, each once in the order of their first mention. Refuses a text
/// that is too long, or else the first relay line that has not its shape or is one too many; a fault of any other
/// line is none here. It takes time linear in the text, and for each relay line a look at the names before it.
pub fn file_names(alloc: Global, text: &[u8]) -> Result<Vec<String>, SiteFault>
    ensures names { IfOk result (λ names. map string_bytes names.items ≡ spec.file_names text.now) }
    ensures clean { OnOk result ((n : ℕ) → spec.HasRelayFault text.now n → ⊥) }
    // Its refusals: for memory, and for the first fault.
    ensures err { IfErr result (λ fault. (fault ≡ SiteFault.NoMemory)
        ⊎ (n : ℕ) × (fault ≡ SiteFault.Line n) × spec.IsFirstRelayFault text.now n) }
{
    if text.len() > MOST_BYTES {
        return Err(SiteFault::Line(1));
    }
    let mut names = Vec::new(alloc);
    let mut relays = 0;
    let mut number = 1;
    let mut rest = text;
    while let Some((line, behind)) = next_line(rest) {
        match note(alloc, &mut names, relays, line) {
            Ok(with_it) => relays = with_it,
            Err(Halt::Faulty) => return Err(SiteFault::Line(number)),
            Err(Halt::NoMemory) => return Err(SiteFault::NoMemory),
        }
        number += 1;
        rest = behind;
    }
    Ok(names)
}
