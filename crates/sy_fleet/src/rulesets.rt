//! The rulesets of a text, by their names.

use crate::directives::directive_at;
use crate::fleet::Named;
use crate::params::{Span, params_of};
use crate::statements::statement_end;
use std::alloc::{AllocError, Global};
use sy_fleet_text::words::same_word;
use sy_fleet_text::{Kind, Object, Piece};

/// The default ruleset's name.
pub(crate) const DEFAULT: &[u8] = b"RSYSLOG_DefaultRuleset";

/// The number of the ruleset of a name, from 1; that of the default one is 0.
pub(crate) fn number_of_name(text: &[u8], rulesets: &[Named], name: &[u8]) -> Option<usize> {
    if same_word(DEFAULT, name) {
        return Some(0);
    }
    for at in 0..rulesets.len() {
        if same_word(name, rulesets[at].name.of(text)) {
            return Some(at + 1);
        }
    }
    None
}

// Adds a ruleset whose name is new.
fn add(text: &[u8], rulesets: &mut Vec<Named>, at: usize, name: Span) -> Result<(), AllocError> {
    if number_of_name(text, rulesets.as_slice(), name.of(text)).is_none() {
        rulesets.push(Named { at, name })?;
    }
    Ok(())
}

// The name that the parameters of a `ruleset` say.
pub(crate) fn name_in(
    alloc: Global,
    text: &[u8],
    pieces: &[Piece],
) -> Result<Option<Span>, AllocError> {
    for param in &params_of(alloc, pieces)? {
        if same_word(b"name", param.name.of(text)) {
            return Ok(Some(param.value));
        }
    }
    Ok(None)
}

/// The rulesets that a text has, in its order.
pub(crate) fn rulesets_of(
    alloc: Global,
    text: &[u8],
    pieces: &[Piece],
) -> Result<Vec<Named>, AllocError> {
    let mut rulesets = Vec::new(alloc);
    for at in 0..pieces.len() {
        let piece = pieces[at];
        match piece.kind {
            Kind::Opening(Object::Ruleset) => {
                let end = statement_end(pieces, at);
                if let Some(name) = name_in(alloc, text, &pieces[at..end])? {
                    add(text, &mut rulesets, piece.start, name)?;
                }
            }
            Kind::Directive => {
                let found = directive_at(text, piece.start, piece.end);
                if same_word(b"RuleSet", found.name.of(text)) {
                    add(text, &mut rulesets, piece.start, found.value)?;
                }
            }
            _ => {}
        }
    }
    Ok(rulesets)
}
