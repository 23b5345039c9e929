//! Reads a part of a selector, and applies it.

ghost use Rattle.std.specs.Prelude.{IfOk, IfErr};
ghost use Rattle.std.specs.List.{flat_map};
ghost use Rattle.sy_select.specs.Faults as spec;
ghost use Rattle.sy_select.specs.internal.Reading.{Applies, Lists, ReadsFacilities, ReadsPart, Refuses, masks};
ghost use Rattle.sy_select.specs.Selectors.{comma};

use crate::fault::FaultCode;
use crate::names::facility_of;
use crate::pieces::{cut, same_bytes};
use crate::read_level::{Refusal, no_name, read_level, shape};
use crate::severities::{Level, Severities};

/// The facilities of a part, and its level.
#[derive(Clone, Copy)]
pub struct Part {
    pub facilities: [bool; 24],
    pub level: Level,
}

// The facilities whose names stand between commas.
fn listed<'a>(whole: &'a [u8], text: &'a [u8]) -> Result<[bool; 24], Refusal<'a>>
    ensures ok { IfOk result (λ set. Lists whole.now text.now set) }
    ensures err { IfErr result (λ r. Refuses (flat_map (spec.facility_faults whole.now)
        (spec.pieces comma text.now)) r.code r.word.now) }
{
    let mut set = [false; 24];
    let mut rest = text;
    'names: loop {
        let (name, behind) = cut(rest, b',');
        let Some(facility) = facility_of(name) else {
            return Err(no_name(FaultCode::Facility, whole, name));
        };
        set[usize::from(facility)] = true;
        match behind {
            Some(names) => rest = names,
            None => return Ok(set),
        }
    }
}

// The facilities that stand before a part's dot.
#[tactic(auto, unfolding(crate::specs::Faults::facilities_faults))]
fn facilities<'a>(whole: &'a [u8], text: &'a [u8]) -> Result<[bool; 24], Refusal<'a>>
    ensures ok { IfOk result (λ set. ReadsFacilities whole.now text.now set) }
    ensures err { IfErr result (λ r. Refuses (spec.facilities_faults whole.now text.now) r.code r.word.now) }
{
    if same_bytes(text, b"*") {
        return Ok([true; 24]);
    }
    listed(whole, text)
}

/// The part that a text is.
#[tactic(auto, unfolding(crate::specs::Faults::part_faults))]
pub fn read_part<'a>(whole: &'a [u8], text: &'a [u8]) -> Result<Part, Refusal<'a>>
    ensures ok { IfOk result (λ part. ReadsPart whole.now text.now part.facilities part.level.takes
        part.level.severities.0) }
    ensures err { IfErr result (λ r. Refuses (spec.part_faults whole.now text.now) r.code r.word.now) }
{
    let (front, behind) = cut(text, b'.');
    let facilities = facilities(whole, front)?;
    let Some(behind) = behind else {
        return Err(shape(whole));
    };
    let level = read_level(whole, behind)?;
    Ok(Part { facilities, level })
}

impl Part {
    /// Adds the part's pairs to the severity sets of the facilities, or takes them away.
    pub fn apply(&self, sets: &mut [Severities; 24])
        ensures { Applies self.now.facilities self.now.level.takes self.now.level.severities.0 (masks sets.old)
            (masks sets.new) }
    {
        for facility in 0..24 {
            if self.facilities[facility] {
                self.level.apply(&mut sets[facility]);
            }
        }
    }
}
