//! The shapes of lines.

ghost use Rattle.std.specs.Prelude.{◌≡◌, ◌==◌, ◌∷◌, [], ℕ, Bool, List, IfSome, IfNone, codes};
ghost use Rattle.std.specs.List.{list_all, slice_index};
ghost use Rattle.sy_select.specs.Selectors.{IsSetOf};
ghost use Rattle.sy_site.specs.declared.site.host.Outside.{Outside as Receiver};
ghost use Rattle.sy_site.specs.texts.Lines as lines;
ghost use Rattle.sy_site.specs.texts.Lines.{words};
ghost use Rattle.sy_site.specs.texts.Shapes as spec;
ghost use Rattle.sy_site.specs.internal.Lines.{entry_line_of, line_of, outside_of, protect_line_of, relay_line_of, spare_line_of};

use crate::texts::hosts::{HostWord, read_host, read_reach};
use crate::texts::lines::{behind_word, next_word};
use std::alloc::Global;
use std::net::IpAddr;
use std::str;
use sy_select::Selector;
use sy_wire::numbers::number_up_to;

/// The most bytes of a relay's name.
const NAME_BYTES: usize = 64;

/// The most digits of a port.
const PORT_DIGITS: usize = 10;

/// The largest number of so many digits.
const LARGEST_PORT: u64 = 9_999_999_999;

/// What a relay line says.
#[derive(Clone, Copy)]
pub struct RelayLine<'t> {
    pub name: &'t [u8],
    pub file: &'t str,
    pub host: HostWord<'t>,
    pub listens: Option<IpAddr>,
}

/// What an entry line says.
#[derive(Clone, Copy)]
pub struct EntryLine<'t> {
    pub relay: &'t [u8],
    pub port: u64,
    /// Whether the line ends in `whole`.
    pub is_whole: bool,
}

/// What a protect line says.
#[derive(Drop)]
pub struct ProtectLine<'t> {
    pub selector: Selector,
    pub relay: &'t [u8],
    pub action: &'t [u8],
}

/// What a spare line says.
#[derive(Clone, Copy)]
pub struct SpareLine<'t> {
    pub relay: &'t [u8],
    pub action: &'t [u8],
}

/// What an outside line says.
#[derive(Clone, Copy)]
pub struct OutsideLine<'t> {
    pub name: &'t [u8],
    pub host: HostWord<'t>,
    pub port: u16,
}

/// A line of one of the six shapes. A policy line says that the policy is 2.
#[derive(Drop)]
pub enum Line<'t> {
    Policy,
    Relay(RelayLine<'t>),
    Entry(EntryLine<'t>),
    Protect(ProtectLine<'t>),
    Spare(SpareLine<'t>),
    Outside(OutsideLine<'t>),
}

fn is_name_byte(byte: u8) -> bool
    ensures { result ≡ spec.is_name_byte byte }
{
    byte.is_ascii_alphanumeric() || byte == b'-' || byte == b'_' || byte == b'.'
}

fn all_name_bytes(word: &[u8]) -> bool
    ensures { result ≡ list_all spec.is_name_byte word.now }
{
    word.iter().all(|b| is_name_byte(*b))
}

#[tactic(auto, unfolding(crate::specs::texts::Shapes::is_name))]
fn is_name(word: &[u8]) -> bool
    ensures { result ≡ spec.is_name word.now }
{
    !word.is_empty() && word.len() <= NAME_BYTES && all_name_bytes(word)
}

/// What a relay line says, of the text behind its first word.
pub fn relay_line(behind: &[u8]) -> Option<RelayLine<'_>>
    ensures some { IfSome result (λ it. spec.IsRelayLine (codes "relay" ∷ words behind.now) (relay_line_of it)) }
    ensures none { IfNone result ((it : spec.RelayLine) → spec.IsRelayLine (codes "relay" ∷ words behind.now) it
        → ⊥) }
{
    let (name, behind) = next_word(behind)?;
    let (file, behind) = next_word(behind)?;
    let reach = read_reach(behind)?;
    let file = str::from_utf8(file).ok()?;
    if is_name(name) {
        Some(RelayLine {
            name,
            file,
            host: reach.host,
            listens: reach.listens,
        })
    } else {
        None
    }
}

// Whether a zero is the first byte.
fn begins_with_zero(word: &[u8]) -> bool
    ensures { result ≡ (slice_index word.now 0 == 48) }
{
    !word.is_empty() && word[0] == b'0'
}

#[tactic(auto, unfolding(crate::specs::texts::Shapes::port_of))]
fn port(word: &[u8]) -> Option<u64>
    ensures { result ≡ spec.port_of word.now }
{
    if word.len() > PORT_DIGITS {
        return None;
    }
    if begins_with_zero(word) {
        return None;
    }
    number_up_to(word, LARGEST_PORT)
}

// The two words that a text is.
fn two_words(text: &[u8]) -> Option<(&[u8], &[u8])>
    ensures some { IfSome result (λ r. words text.now ≡ r.0.now ∷ r.1.now ∷ []) }
    ensures none { IfNone result ((a b : List ℕ) → words text.now ≡ a ∷ b ∷ [] → ⊥) }
{
    let (first, rest) = next_word(text)?;
    let (second, rest) = next_word(rest)?;
    match next_word(rest) {
        Some(_) => None,
        None => Some((first, second)),
    }
}

// Whether an entry is whole, of the text behind its port.
fn is_whole(behind: &[u8]) -> Option<bool>
    ensures some { IfSome result (λ it. words behind.now ≡ spec.whole_words it) }
    ensures none { IfNone result ((it : Bool) → words behind.now ≡ spec.whole_words it → ⊥) }
{
    match next_word(behind) {
        None => Some(false),
        Some(_) => {
            let rest = behind_word(behind, b"whole")?;
            match next_word(rest) {
                Some(_) => None,
                None => Some(true),
            }
        }
    }
}

/// What an entry line says, of the text behind its first word.
pub fn entry_line(behind: &[u8]) -> Option<EntryLine<'_>>
    ensures some { IfSome result (λ it. spec.IsEntryLine (codes "entry" ∷ words behind.now) (entry_line_of it)) }
    ensures none { IfNone result ((it : spec.EntryLine) → spec.IsEntryLine (codes "entry" ∷ words behind.now) it
        → ⊥) }
{
    let (relay, behind) = next_word(behind)?;
    let (word, behind) = next_word(behind)?;
    let port = port(word)?;
    let is_whole = is_whole(behind)?;
    Some(EntryLine {
        relay,
        port,
        is_whole,
    })
}

// The selector that a word is.
fn selector(alloc: Global, word: &[u8]) -> Option<Selector>
    ensures some { IfSome result (λ sets. IsSetOf word.now sets) }
    ensures none { IfNone result ((sets : List ℕ) → IsSetOf word.now sets → ⊥) }
{
    match Selector::read(alloc, word) {
        Ok(selector) => Some(selector),
        Err(_fault) => None,
    }
}

/// What a protect line says, of the text behind its first word. Memory that is missing is no refusal: it would only be
/// for the word of a fault.
pub fn protect_line(alloc: Global, behind: &[u8]) -> Option<ProtectLine<'_>>
    ensures some { IfSome result (λ it. spec.IsProtectLine (codes "protect" ∷ words behind.now)
        (protect_line_of it)) }
    ensures none { IfNone result ((it : spec.ProtectLine) → spec.IsProtectLine (codes "protect" ∷ words behind.now) it
        → ⊥) }
{
    let (word, behind) = next_word(behind)?;
    let (relay, action) = two_words(behind)?;
    match selector(alloc, word) {
        Some(selector) => Some(ProtectLine {
            selector,
            relay,
            action,
        }),
        None => None,
    }
}

/// What a spare line says, of the text behind its first word.
pub fn spare_line(behind: &[u8]) -> Option<SpareLine<'_>>
    ensures some { IfSome result (λ it. spec.IsSpareLine (codes "spare" ∷ words behind.now) (spare_line_of it)) }
    ensures none { IfNone result ((it : spec.SpareLine) → spec.IsSpareLine (codes "spare" ∷ words behind.now) it
        → ⊥) }
{
    let (relay, action) = two_words(behind)?;
    Some(SpareLine { relay, action })
}

// The port of a receiver, which a word writes.
fn outside_port(word: &[u8]) -> Option<u16>
    ensures some { IfSome result (λ it. spec.IsPort word.now it) }
    ensures none { IfNone result ((it : ℕ) → spec.IsPort word.now it → ⊥) }
{
    let port = port(word)?;
    if port <= 65_535 {
        Some(port as u16)
    } else {
        None
    }
}

/// What an outside line says, of the text behind its first word.
pub fn outside_line(behind: &[u8]) -> Option<OutsideLine<'_>>
    ensures some { IfSome result (λ it. spec.IsOutsideLine (codes "outside" ∷ words behind.now) (outside_of it)) }
    ensures none { IfNone result ((it : Receiver) → spec.IsOutsideLine (codes "outside" ∷ words behind.now) it → ⊥) }
{
    let (name, behind) = next_word(behind)?;
    let (first, second) = two_words(behind)?;
    let host = read_host(first)?;
    let port = outside_port(second)?;
    if is_name(name) {
        Some(OutsideLine { name, host, port })
    } else {
        None
    }
}

// The line that begins with `policy`: its other word is the one policy that a line can set.
fn policy(behind: &[u8]) -> Option<Line<'_>>
    ensures some { IfSome result (λ it. spec.IsLine (codes "policy" ∷ words behind.now) (line_of it)) }
    ensures none { IfNone result ((it : spec.Line) → spec.IsLine (codes "policy" ∷ words behind.now) it → ⊥) }
{
    let rest = behind_word(behind, b"2")?;
    match next_word(rest) {
        Some(_) => None,
        None => Some(Line::Policy),
    }
}

// The line that begins with `relay`.
fn relay(behind: &[u8]) -> Option<Line<'_>>
    ensures some { IfSome result (λ it. spec.IsLine (codes "relay" ∷ words behind.now) (line_of it)) }
    ensures none { IfNone result ((it : spec.Line) → spec.IsLine (codes "relay" ∷ words behind.now) it → ⊥) }
{
    match relay_line(behind) {
        Some(it) => Some(Line::Relay(it)),
        None => None,
    }
}

// The line that begins with `entry`.
fn entry(behind: &[u8]) -> Option<Line<'_>>
    ensures some { IfSome result (λ it. spec.IsLine (codes "entry" ∷ words behind.now) (line_of it)) }
    ensures none { IfNone result ((it : spec.Line) → spec.IsLine (codes "entry" ∷ words behind.now) it → ⊥) }
{
    match entry_line(behind) {
        Some(it) => Some(Line::Entry(it)),
        None => None,
    }
}

// The line that begins with `protect`.
fn protect(alloc: Global, behind: &[u8]) -> Option<Line<'_>>
    ensures some { IfSome result (λ it. spec.IsLine (codes "protect" ∷ words behind.now) (line_of it)) }
    ensures none { IfNone result ((it : spec.Line) → spec.IsLine (codes "protect" ∷ words behind.now) it → ⊥) }
{
    match protect_line(alloc, behind) {
        Some(it) => Some(Line::Protect(it)),
        None => None,
    }
}

// The line that begins with `spare`.
fn spare(behind: &[u8]) -> Option<Line<'_>>
    ensures some { IfSome result (λ it. spec.IsLine (codes "spare" ∷ words behind.now) (line_of it)) }
    ensures none { IfNone result ((it : spec.Line) → spec.IsLine (codes "spare" ∷ words behind.now) it → ⊥) }
{
    match spare_line(behind) {
        Some(it) => Some(Line::Spare(it)),
        None => None,
    }
}

// The line that begins with `outside`.
fn outside(behind: &[u8]) -> Option<Line<'_>>
    ensures some { IfSome result (λ it. spec.IsLine (codes "outside" ∷ words behind.now) (line_of it)) }
    ensures none { IfNone result ((it : spec.Line) → spec.IsLine (codes "outside" ∷ words behind.now) it → ⊥) }
{
    match outside_line(behind) {
        Some(it) => Some(Line::Outside(it)),
        None => None,
    }
}

/// Whether a line is skipped: it has no words, or is a comment.
pub fn is_skipped(line: &[u8]) -> bool
    ensures { result ≡ lines.is_skipped (words line.now) }
{
    match next_word(line) {
        Some((word, _)) => word.first() == Some(&b'#'),
        None => true,
    }
}

/// The line of one of the six shapes that a text is.
pub fn read_line(alloc: Global, line: &[u8]) -> Option<Line<'_>>
    ensures some { IfSome result (λ it. spec.IsLine (words line.now) (line_of it)) }
    ensures none { IfNone result ((it : spec.Line) → spec.IsLine (words line.now) it → ⊥) }
{
    if let Some(behind) = behind_word(line, b"relay") {
        return relay(behind);
    }
    if let Some(behind) = behind_word(line, b"entry") {
        return entry(behind);
    }
    if let Some(behind) = behind_word(line, b"protect") {
        return protect(alloc, behind);
    }
    if let Some(behind) = behind_word(line, b"spare") {
        return spare(behind);
    }
    if let Some(behind) = behind_word(line, b"outside") {
        return outside(behind);
    }
    match behind_word(line, b"policy") {
        Some(behind) => policy(behind),
        None => None,
    }
}
