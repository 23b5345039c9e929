//! What the numbers and names mean that the program reports: faults, kinds of findings, warnings.
#![tactic(auto)]

pub mod code;
mod findings;
mod messages;
mod relays;
mod scripts;
mod sites;
mod warnings;

use crate::code::{Code, Sort};
use crate::findings::finding_codes;
use crate::messages::message_codes;
use crate::relays::relay_codes;
use crate::scripts::{plan_codes, script_codes};
use crate::sites::{certificate_codes, site_codes};
use crate::warnings::warning_codes;
use std::alloc::{AllocError, Global};
use sy_report::texts::parts::Part;
use sy_report::texts::words::Words;

// All codes, those with a number first and rising.
fn all_codes(alloc: Global) -> Result<Vec<Code>, AllocError> {
    let mut all = Vec::new(alloc);
    all.extend_from_slice(&message_codes())?;
    all.extend_from_slice(&script_codes())?;
    all.extend_from_slice(&plan_codes())?;
    all.extend_from_slice(&site_codes())?;
    all.extend_from_slice(&certificate_codes())?;
    all.extend_from_slice(&relay_codes())?;
    all.extend_from_slice(&finding_codes())?;
    all.extend_from_slice(&warning_codes())?;
    Ok(all)
}

// Puts a code's number and name.
fn push_head(words: &mut Words, code: &Code) {
    let front: &[u8] = match code.sort {
        Sort::Fault => b"",
        Sort::Kind => b"kind ",
        Sort::Warning => b"warning ",
    };
    words.append(&[Part::Text(front), Part::Text(code.words.as_bytes())]);
}

// Puts a code with what it means, and what to do.
fn push_code(words: &mut Words, code: &Code) {
    if !words.is_empty() {
        words.say("\n");
    }
    push_head(words, code);
    words.append(&[
        Part::Text(b"\nmeans: "),
        Part::Text(code.means.as_bytes()),
        Part::Text(b"\nchange: "),
        Part::Text(code.change.as_bytes()),
        Part::Text(b"\n"),
    ]);
}

// Puts a line for a code.
fn push_line(words: &mut Words, code: &Code) {
    push_head(words, code);
    words.append(&[
        Part::Text(b": "),
        Part::Text(code.means.as_bytes()),
        Part::Text(b"\n"),
    ]);
}

/// What the codes mean that these words name, and what to do: a number, `kind` and a number, or a name in any case. Without
/// words a line for each code. Nothing where there is no such code.
pub fn explain_code(alloc: Global, named: &[String]) -> Result<Vec<u8>, AllocError> {
    let mut words = Words::new(alloc);
    for code in all_codes(alloc)? {
        match named {
            [] => push_line(&mut words, &code),
            [name] if code.is_named(name.as_bytes()) => push_code(&mut words, &code),
            [kind, number] if kind.as_bytes() == b"kind".as_slice() => {
                if code.is_kind(number.as_bytes()) {
                    push_code(&mut words, &code);
                }
            }
            _ => {}
        }
    }
    words.finish()
}
