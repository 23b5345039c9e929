//! Selectors: sets of pairs of a facility and a severity, as texts like `*.info;mail.none`.

ghost use Rattle.std.specs.Prelude.{◌≡◌, ◌<◌, ℕ, List, [], IfOk, IfErr, IsOk, map};
ghost use Rattle.std.specs.Option.{option_copied};
ghost use Rattle.sy_select.specs.Faults as spec;
ghost use Rattle.sy_select.specs.internal.Reading.{Refuses};
ghost use Rattle.sy_select.specs.Selectors.{Part, IsSelector, IsSetOf, holds, semicolon};

use crate::fault::SelectFault;
use crate::part::read_part;
use crate::pieces::cut;
use crate::read_level::Refusal;
use crate::severities::Severities;
use bitflags::Flags;
use std::alloc::Global;
use std::marker::Model;
use sy_script::tree::Span;
use sy_wire::Class;

/// A set of pairs of a facility and a severity. Contracts see it as the numbers of the severity sets of the 24 facilities.
#[derive(Drop)]
pub struct Selector {
    sets: [Severities; 24],
}

impl Model for Selector {
    ghost use Rattle.std.specs.Prelude.{ℕ, List, map};

    ghost Value = { List ℕ };

    ghost view = { λ a. map (λ s. s.0) a.sets };
}

// The first part of a text, and the text of the others where there are any.
fn first_part(text: &[u8]) -> (&[u8], Option<&[u8]>)
    ensures front { result.0.now ≡ (spec.cut semicolon text.now).0 }
    ensures behind { option_copied result.1 ≡ (spec.cut semicolon text.now).1 }
{
    cut(text, b';')
}

// The severity sets of the facilities that the parts of a text leave.
fn sets_of(text: &[u8]) -> Result<[Severities; 24], Refusal<'_>>
    ensures ok { IfOk result (λ sets. IsSetOf text.now (map (λ s. s.0) sets)) }
    ensures right { IfOk result (λ sets. spec.faults text.now ≡ []) }
    ensures err { IfErr result (λ r. Refuses (spec.faults text.now) r.code r.word.now) }
{
    let mut sets = [Severities::empty(); 24];
    let mut rest = text;
    'parts: loop {
        let (front, behind) = first_part(rest);
        let part = read_part(text, front)?;
        part.apply(&mut sets);
        match behind {
            Some(parts) => rest = parts,
            None => return Ok(sets),
        }
    }
}

impl Selector {
    /// Reads a selector, in time linear in its text. Memory is taken for the word of a fault alone.
    pub fn read(alloc: Global, text: &[u8]) -> Result<Selector, SelectFault>
        // What is read is a selector, and the set that of its parts.
        ensures found { IfOk result (λ selector. IsSetOf text.now selector) }
        // Each selector is read.
        ensures only { (parts : List Part) → IsSelector text.now parts → IsOk result }
        // Any other text is refused for the first of its faults, or where there is no memory for the fault's word.
        ensures refused { IfErr result (λ fault. spec.IsRefusal (spec.faults_at (spec.whole_of text.now) text.now)
            fault) }
    {
        let span = Span {
            start: 0,
            end: text.len(),
        };
        Selector::read_at(alloc, text, span)
    }

    /// Reads a selector whose faults have this place.
    pub(crate) fn read_at(alloc: Global, text: &[u8], span: Span) -> Result<Selector, SelectFault>
        ensures found { IfOk result (λ selector. IsSetOf text.now selector) }
        ensures only { (parts : List Part) → IsSelector text.now parts → IsOk result }
        ensures refused { IfErr result (λ fault. spec.IsRefusal (spec.faults_at span text.now) fault) }
    {
        match sets_of(text) {
            Ok(sets) => Ok(Selector { sets }),
            Err(refusal) => Err(SelectFault::new(alloc, refusal.code, refusal.word, span)),
        }
    }

    /// Whether the pair of a class is in the set.
    pub fn matches(&self, class: Class) -> bool
        ensures { result ≡ holds self.now class.facility class.severity }
    {
        self.sets[usize::from(class.facility)].has(class.severity)
    }
}
