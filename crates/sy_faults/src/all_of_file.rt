//! All faults of a relay's file that can be found without guessing.

use crate::faults_with_notes::ReportedFault;
use crate::mending::mend_script;
use crate::mending::mended_text::Draft;
use crate::mending::plan::{Mended, follows, mend_plan, object_with};
use std::alloc::{AllocError, Global};
use sy_fault_notes::plan::notes::{example, object_at, push_plan_fault};
use sy_fault_notes::plan::parameter_rows::row_of;
use sy_fault_notes::script::notes::push_script_fault;
use sy_host_parameters::machine_text;
use sy_places::relay_file::outline::{Object, ObjectWord, outline_script};
use sy_places::relay_file::places::Places;
use sy_places::site_file::source::place_of_line;
use sy_report::outcome::halt::Halt;
use sy_report::texts::note::Note;
use sy_rules::{FaultCode as PlanCode, Plan, PlanFault};
use sy_script::tree::Script;
use sy_script::{FaultCode as ScriptCode, Items, ScriptFault, read_script};
use sy_site::{RelayFault, SiteFault};

/// The most faults of a file that are told.
pub const MOST_FAULTS: usize = 64;

/// How often a file is read at most.
const MOST_READS: usize = 128;

/// The most bytes of all relays' files that are read again, after the first reading of each.
pub const MOST_REREAD: usize = 8_388_608;

/// What bounds the search for all faults of a site, and which of the bounds ended it.
#[derive(Clone, Copy)]
pub struct Bounds {
    /// the bytes of relays' files that may be read again
    pub left: usize,
    /// whether a file has so many faults that no more of it are reported
    pub is_full: bool,
    /// whether a file was read so often, or so much was, that it is read no more
    pub is_spent: bool,
}

/// A file: its number, counted from 1, its name, and the site file's first line that names it, with the relay's name there.
#[derive(Clone, Copy)]
pub struct FileSpot<'a> {
    pub number: u64,
    pub name: &'a str,
    pub line: usize,
    pub relay: &'a [u8],
}

/// How far a file is gone over.
#[derive(Drop)]
struct Hunt<'a> {
    spot: FileSpot<'a>,
    mended: Mended,
    found: Vec<ReportedFault>,
    // the place of the last fault of the script
    last: Option<usize>,
}

/// What comes behind a fault.
#[derive(Clone, Copy, PartialEq, Eq)]
enum Step {
    GoOn,
    End,
    Clean,
}

fn step_of(goes_on: bool) -> Step {
    if goes_on { Step::GoOn } else { Step::End }
}

// Puts a fault behind the others.
fn push_fault(
    alloc: Global,
    hunt: &mut Hunt<'_>,
    place: usize,
    note: Note,
    why: RelayFault,
) -> Result<(), AllocError> {
    let spot = hunt.spot;
    let relay = Items::from_slice(alloc, spot.relay)?;
    let halt = Halt::Site(SiteFault::Relay(spot.line, relay, why));
    let note = note.finish()?;
    hunt.found
        .push(ReportedFault::new(spot.number, place as u64, halt, note))?;
    Ok(())
}

// ---- scripts

// Whether a fault of a script may be there only because of one before it.
fn script_follows(hunt: &Hunt<'_>, fault: &ScriptFault, place: usize) -> bool {
    let is_brace = matches!(hunt.mended.draft.text().get(place), Some(b'{' | b'}'));
    hunt.last.is_some() && (is_brace || fault.code == ScriptCode::Unclosed)
}

// Notes that a file was left out in which rulesets and modules may stand.
fn note_include(hunt: &mut Hunt<'_>, fault: &ScriptFault) {
    let word = fault.word.as_slice();
    if word.eq_ignore_ascii_case(b"include") || word.eq_ignore_ascii_case(b"$IncludeConfig") {
        hunt.mended.is_name_lost = true;
        hunt.mended.is_load_meant = true;
    }
}

// Whether nothing is told of a fault, nor of what is behind it: it stands where something was mended.
fn is_lost(hunt: &Hunt<'_>, fault: &ScriptFault, place: usize) -> bool {
    let is_behind = match hunt.last {
        Some(last) => place <= last && fault.code != ScriptCode::Unclosed,
        None => false,
    };
    is_behind || place > hunt.mended.draft.size() || hunt.mended.draft.is_cut_at(place)
}

fn step_script(alloc: Global, hunt: &mut Hunt<'_>, fault: ScriptFault) -> Result<Step, AllocError> {
    let start = place_of_line(hunt.mended.draft.text(), fault.line as u64);
    let place = start.saturating_add(fault.column.saturating_sub(1));
    if is_lost(hunt, &fault, place) {
        return Ok(Step::End);
    }
    let is_reported = !script_follows(hunt, &fault, place);
    let mut note = Note::new(alloc);
    if is_reported {
        push_script_fault(
            alloc,
            &mut note,
            hunt.spot.name,
            hunt.mended.draft.text(),
            &fault,
        );
    }
    hunt.last = Some(place);
    hunt.mended.is_firm = false;
    note_include(hunt, &fault);
    let Mended { draft, cuts, .. } = &mut hunt.mended;
    let goes_on = mend_script(alloc, draft, &fault, place, cuts)?;
    if is_reported {
        push_fault(alloc, hunt, place, note, RelayFault::Script(fault))?;
    }
    Ok(step_of(goes_on))
}

// ---- plans

// The note of a fault of a plan.
fn plan_note(
    alloc: Global,
    hunt: &Hunt<'_>,
    objects: &[Object<'_>],
    fault: &PlanFault,
) -> Result<Note, AllocError> {
    let mut note = Note::new(alloc);
    let places = Places {
        file: hunt.spot.name,
        text: hunt.mended.draft.text(),
        objects,
    };
    push_plan_fault(alloc, &mut note, places, fault)?;
    Ok(note)
}

// Puts a parameter that an object misses behind further ones, with a value that it may have.
fn push_further(further: &mut Vec<u8>, object: Object<'_>, name: &[u8]) -> Result<(), AllocError> {
    if let Some(row) = row_of(object, name) {
        further.extend_from_slice(b" ")?;
        further.extend_from_slice(row.name)?;
        further.extend_from_slice(b"=\"")?;
        further.extend_from_slice(example(row.shape))?;
        further.extend_from_slice(b"\"")?;
    }
    Ok(())
}

// A fault, where something is missing by it.
fn if_missing(fault: PlanFault) -> Option<PlanFault> {
    match fault.code {
        PlanCode::Missing => Some(fault),
        _ => None,
    }
}

// The script that a plan is read from: that of a text without its parameters for the host.
fn plan_script(alloc: Global, text: &[u8]) -> Result<Script, ScriptFault> {
    match machine_text(alloc, text) {
        Ok(Some(machine)) => read_script(alloc, machine.as_slice()),
        Ok(None) => read_script(alloc, text),
        Err(_) => Err(ScriptFault {
            code: ScriptCode::NoMemory,
            line: 1,
            column: 1,
            word: Items::new(alloc),
        }),
    }
}

// What is missing in a text with one object.
fn missing_in(alloc: Global, text: &[u8]) -> Option<PlanFault> {
    match plan_script(alloc, text) {
        Ok(script) => match Plan::load(alloc, &script) {
            Ok(_plan) => None,
            Err(fault) => if_missing(fault),
        },
        Err(_fault) => None,
    }
}

// What else an object misses, with these further parameters.
fn next_missing(
    alloc: Global,
    hunt: &Hunt<'_>,
    object: Object<'_>,
    further: &[u8],
) -> Result<Option<PlanFault>, AllocError> {
    match object_with(alloc, hunt.mended.draft.text(), object, further)? {
        Some(alone) => Ok(missing_in(alloc, alone.as_slice())),
        None => Ok(None),
    }
}

// What else an object misses than the first that it does, with the notes of that.
fn others_missing(
    alloc: Global,
    hunt: &Hunt<'_>,
    objects: &[Object<'_>],
    object: Object<'_>,
    first: &[u8],
) -> Result<Vec<(Note, PlanFault)>, AllocError> {
    let mut missing = Vec::new(alloc);
    let mut further = Vec::new(alloc);
    push_further(&mut further, object, first)?;
    for _ in 0..8 {
        let Some(fault) = next_missing(alloc, hunt, object, further.as_slice())? else {
            return Ok(missing);
        };
        push_further(&mut further, object, fault.word.as_slice())?;
        if !follows(&hunt.mended, objects, &fault) {
            let note = plan_note(alloc, hunt, objects, &fault)?;
            missing.push((note, fault))?;
        }
    }
    Ok(missing)
}

// The same of the object of a fault, where it is told that it misses something. What else it misses isn't known where that
// is its type.
fn missing_of(
    alloc: Global,
    hunt: &Hunt<'_>,
    objects: &[Object<'_>],
    fault: &PlanFault,
    is_reported: bool,
) -> Result<Vec<(Note, PlanFault)>, AllocError> {
    let first = fault.word.as_slice();
    match object_at(objects, fault.span.start) {
        Some(object) if is_reported && fault.code == PlanCode::Missing => {
            if object.word == ObjectWord::Ruleset || first == b"type".as_slice() {
                return Ok(Vec::new(alloc));
            }
            others_missing(alloc, hunt, objects, object, first)
        }
        _ => Ok(Vec::new(alloc)),
    }
}

fn step_plan(
    alloc: Global,
    hunt: &mut Hunt<'_>,
    script: &Script,
    fault: PlanFault,
) -> Result<Step, AllocError> {
    let objects = outline_script(alloc, script)?;
    let objects = objects.as_slice();
    let reported = if follows(&hunt.mended, objects, &fault) {
        None
    } else {
        Some(plan_note(alloc, hunt, objects, &fault)?)
    };
    let missing = missing_of(alloc, hunt, objects, &fault, reported.is_some())?;
    let goes_on = mend_plan(alloc, &mut hunt.mended, script, objects, &fault)?;
    let place = fault.span.start;
    if let Some(note) = reported {
        push_fault(alloc, hunt, place, note, RelayFault::Plan(fault))?;
    }
    for (note, fault) in missing {
        push_fault(alloc, hunt, place, note, RelayFault::Plan(fault))?;
    }
    Ok(step_of(goes_on))
}

// ---- all of them

fn judge_once(alloc: Global, hunt: &mut Hunt<'_>) -> Result<Step, AllocError> {
    match plan_script(alloc, hunt.mended.draft.text()) {
        Ok(script) => match Plan::load(alloc, &script) {
            Ok(_) => Ok(Step::Clean),
            Err(fault) => match fault.code {
                PlanCode::NoMemory => Err(AllocError),
                _ => step_plan(alloc, hunt, &script, fault),
            },
        },
        Err(fault) => match fault.code {
            ScriptCode::NoMemory => Err(AllocError),
            _ => step_script(alloc, hunt, fault),
        },
    }
}

// Takes bytes off those that may still be read again, and answers whether there were so many.
fn may_reread(bounds: &mut Bounds, size: usize) -> bool {
    match bounds.left.checked_sub(size) {
        Some(rest) => {
            bounds.left = rest;
            true
        }
        None => false,
    }
}

// Goes from fault to fault, and answers whether the file is a plan then.
fn go(alloc: Global, hunt: &mut Hunt<'_>, bounds: &mut Bounds) -> Result<bool, AllocError> {
    for _ in 0..MOST_READS {
        match judge_once(alloc, hunt)? {
            Step::Clean => return Ok(true),
            Step::End => return Ok(false),
            Step::GoOn => {}
        }
        if hunt.found.len() >= MOST_FAULTS {
            bounds.is_full = true;
            return Ok(false);
        }
        if !may_reread(bounds, hunt.mended.draft.text().len()) {
            break;
        }
    }
    bounds.is_spent = true;
    Ok(false)
}

/// The faults of a relay's file in the order in which they are met; and the text that its plan is read from, without them, where all of that is known that
/// another file may speak of. What is read again is taken off the bytes that are left for that.
pub fn all_of_file(
    alloc: Global,
    spot: FileSpot<'_>,
    text: Vec<u8>,
    bounds: &mut Bounds,
) -> Result<(Vec<ReportedFault>, Option<Vec<u8>>), AllocError> {
    let mut hunt = Hunt {
        spot,
        mended: Mended {
            draft: Draft::new(alloc, text)?,
            cuts: Vec::new(alloc),
            is_firm: true,
            is_name_lost: false,
            is_load_meant: false,
        },
        found: Vec::new(alloc),
        last: None,
    };
    let is_plan = go(alloc, &mut hunt, bounds)?;
    let Hunt { mended, found, .. } = hunt;
    if !is_plan || !mended.is_firm {
        return Ok((found, None));
    }
    let text = match machine_text(alloc, mended.draft.text())? {
        Some(machine) => machine,
        None => Vec::from_slice(alloc, mended.draft.text())?,
    };
    Ok((found, Some(text)))
}
