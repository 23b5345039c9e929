//! Reads the level of a part: what stands after its dot.

ghost use Rattle.std.specs.Prelude.{◌≡◌, ◌<◌, ◌+◌, ◌==◌, ℕ, nat_lt, if◌then◌else◌, IfOk, IfErr};
ghost use Rattle.sy_select.specs.Faults as spec;
ghost use Rattle.sy_select.specs.internal.Masks.{has_bit};
ghost use Rattle.sy_select.specs.internal.Reading.{Refuses, ReadsLevel};

use crate::fault::FaultCode;
use crate::names::severity_of;
use crate::pieces::{cut_sign, is_word, same_bytes, same_word};
use crate::severities::{Level, Severities};

/// A fault, and its word as it stands in the text.
#[derive(Clone, Copy)]
pub struct Refusal<'a> {
    pub code: FaultCode,
    pub word: &'a [u8],
}

/// The fault of any wrong piece that is no name in its place.
pub fn shape(whole: &[u8]) -> Refusal<'_>
    ensures code { result.code ≡ FaultCode.Shape }
    ensures word { result.word.now ≡ whole.now }
{
    Refusal {
        code: FaultCode::Shape,
        word: whole,
    }
}

/// The fault of a piece that should be a name, and is none.
pub fn no_name<'a>(code: FaultCode, whole: &'a [u8], piece: &'a [u8]) -> Refusal<'a>
    ensures code { result.code ≡ (spec.no_name code whole.now piece.now).code }
    ensures word { result.word.now ≡ (spec.no_name code whole.now piece.now).word }
{
    if is_word(piece) {
        Refusal { code, word: piece }
    } else {
        shape(whole)
    }
}

// Whether the level is all severities, added or taken away.
fn every(takes: bool) -> Level
    ensures takes { result.takes ≡ takes }
    ensures mask { result.severities.0 ≡ 255 }
{
    Level {
        takes,
        severities: Severities::up_to(7),
    }
}

// A level of one severity, or up to it.
fn named(takes: bool, is_alone: bool, severity: u8) -> Level
    requires { severity < 8 }
    ensures takes { result.takes ≡ takes }
    ensures mask { (s : ℕ) → s < 8 → has_bit result.severities.0 s
        ≡ (if is_alone then severity == s else nat_lt s (severity + 1)) }
{
    let severities = if is_alone {
        Severities::only(severity)
    } else {
        Severities::up_to(severity)
    };
    Level { takes, severities }
}

/// The level that a text is.
#[tactic(auto, unfolding(crate::specs::Faults::level_faults))]
pub fn read_level<'a>(whole: &'a [u8], text: &'a [u8]) -> Result<Level, Refusal<'a>>
    ensures ok { IfOk result (λ level. ReadsLevel whole.now text.now level.takes level.severities.0) }
    ensures err { IfErr result (λ r. Refuses (spec.level_faults whole.now text.now) r.code r.word.now) }
{
    if same_bytes(text, b"*") {
        return Ok(every(false));
    }
    if same_bytes(text, b"!*") || same_word(b"none", text) {
        return Ok(every(true));
    }
    let (takes, unsigned) = cut_sign(text, b'!');
    let (is_alone, name) = cut_sign(unsigned, b'=');
    if same_word(b"none", name) {
        return Err(shape(whole));
    }
    match severity_of(name) {
        Some(severity) => Ok(named(takes, is_alone, severity)),
        None => Err(no_name(FaultCode::Severity, whole, name)),
    }
}
