//! Goes on behind a fault of a plan: as little is taken away, or put behind the text, as lets the rest be judged.

use crate::mending::mended_text::Draft;
use crate::mending::parameters::CutParameter;
use crate::mending::pieces::{behind_pieces, closed_at, is_sign, piece_at, pieces_of};
use std::alloc::{AllocError, Global};
use sy_fault_notes::plan::notes::{object_at, param_at};
use sy_places::relay_file::comparisons::comparison_at;
use sy_places::relay_file::outline::{Object, ObjectWord};
use sy_places::site_file::source::between;
use sy_report::texts::near::nearest;
use sy_rules::{FaultCode, PlanFault};
use sy_script::tree::{Param, Script};

/// A relay's file of which faulty parts are taken away, and what is known of them.
#[derive(Drop)]
pub struct Mended {
    pub draft: Draft,
    /// The parameters that went.
    pub cuts: Vec<CutParameter>,
    /// Whether nothing was taken away that another file may speak of.
    pub is_firm: bool,
    /// Whether a ruleset may have gone whose name isn't known.
    pub is_name_lost: bool,
    /// Whether a module may have gone that loads imtcp, or is likely meant to.
    pub is_load_meant: bool,
}

// ---- faults that follow from what was taken away

// Whether a name may be meant to be another, as `fil` or `dynaFile` to be `file`. One that has a meaning of its own isn't.
fn may_mean(name: &[u8], other: &[u8]) -> bool {
    if name.eq_ignore_ascii_case(b"fileType") {
        return false;
    }
    let meant: [&[u8]; 1] = [other];
    let end = between(name, name.len().saturating_sub(other.len()), name.len());
    end.eq_ignore_ascii_case(other) || nearest(name, &meant).is_some()
}

// Whether a parameter of an object went that has this name, or may be meant to have it.
fn is_cut(mended: &Mended, object: usize, name: &[u8]) -> bool {
    let given = mended.draft.given();
    mended.cuts.as_slice().iter().any(|cut| {
        let (start, end) = cut.name;
        cut.object == object && may_mean(between(given, start, end), name)
    })
}

// Whether a name of a ruleset isn't known as that ruleset may have gone.
fn is_gone(mended: &Mended, name: &[u8]) -> bool {
    mended.is_name_lost || mended.draft.held(name)
}

/// Whether a fault may be there only because something was taken away, or was put behind the text.
pub fn follows(mended: &Mended, objects: &[Object<'_>], fault: &PlanFault) -> bool {
    let word = fault.word.as_slice();
    if fault.span.start >= mended.draft.size() && fault.span.end > 0 {
        return true;
    }
    match fault.code {
        FaultCode::Missing => is_cut(mended, fault.span.start, word),
        FaultCode::Unknown if word.first() == Some(&b'$') => false,
        FaultCode::Unknown => match param_at(objects, fault.span.start) {
            // such a parameter may be of the module that isn't known
            Some((object, _)) => {
                is_cut(mended, object.start, b"type") || is_cut(mended, object.start, b"load")
            }
            None => is_gone(mended, word),
        },
        FaultCode::NotLoaded => mended.is_load_meant || mended.draft.held(b"imtcp"),
        FaultCode::Duplicate => {
            mended.draft.is_made(word) || (!mended.draft.is_whole() && word.starts_with(b"action-"))
        }
        _ => false,
    }
}

// ---- objects

/// The place behind an object's closing parenthesis, and that of the parenthesis.
pub fn end_of(
    alloc: Global,
    text: &[u8],
    object: Object<'_>,
) -> Result<Option<(usize, usize)>, AllocError> {
    let from = match object.params.last() {
        Some(param) => param.value.span.end,
        None => object.start,
    };
    let pieces = pieces_of(alloc, text)?;
    let mut at = piece_at(pieces.as_slice(), from);
    for piece in behind_pieces(pieces.as_slice(), at) {
        if is_sign(Some(piece), b')') {
            break;
        }
        at = at.saturating_add(1);
    }
    let Some(closing) = pieces.get(at) else {
        return Ok(None);
    };
    if object.word != ObjectWord::Ruleset {
        return Ok(Some((closing.end, closing.start)));
    }
    let body = at.saturating_add(1);
    match closed_at(pieces.as_slice(), body, b'{', b'}') {
        Some(end) => Ok(Some((end, closing.start))),
        None => Ok(None),
    }
}

// Takes an object away. A `stop` stands in the place of an action.
fn cut_object(alloc: Global, mended: &mut Mended, object: Object<'_>) -> Result<bool, AllocError> {
    let Some((end, _)) = end_of(alloc, mended.draft.text(), object)? else {
        return Ok(false);
    };
    match object.word {
        ObjectWord::Action => {
            mended.is_firm = false;
            mended.draft.replace(object.start, end, b"stop")
        }
        _ => {
            mended.is_firm = mended.is_firm && object.word != ObjectWord::Ruleset;
            mended.draft.cut(object.start, end)?;
            Ok(true)
        }
    }
}

// Takes an object away that misses something, or whose value of it went.
fn cut_missing(alloc: Global, mended: &mut Mended, object: Object<'_>) -> Result<bool, AllocError> {
    mended.is_name_lost = mended.is_name_lost || object.word == ObjectWord::Ruleset;
    mended.is_firm = mended.is_firm && object.word == ObjectWord::Module;
    cut_object(alloc, mended, object)
}

// Gives a ruleset or an action another name than an earlier one's.
fn rename(alloc: Global, mended: &mut Mended, object: Object<'_>) -> Result<bool, AllocError> {
    mended.is_firm = false;
    for param in object.params {
        let (start, end) = (param.value.span.start, param.value.span.end);
        if param.name.text.as_slice().eq_ignore_ascii_case(b"name")
            && end > start.saturating_add(2)
        {
            let byte = mended.draft.made_byte();
            for place in start.saturating_add(1)..end.saturating_sub(1) {
                mended.draft.write(place, &[byte]);
            }
            return Ok(true);
        }
    }
    match object.word {
        ObjectWord::Action => cut_object(alloc, mended, object),
        _ => Ok(false),
    }
}

// ---- parameters

// Whether other files may speak of what a parameter says.
fn is_known_outside(name: &[u8]) -> bool {
    name.eq_ignore_ascii_case(b"port")
        || name.eq_ignore_ascii_case(b"type")
        || name.eq_ignore_ascii_case(b"name")
}

fn cut_param(
    mended: &mut Mended,
    object: Object<'_>,
    param: &Param,
    code: FaultCode,
) -> Result<bool, AllocError> {
    let name = param.name.text.as_slice();
    mended.is_firm = mended.is_firm && !is_known_outside(name);
    if object.word == ObjectWord::Module {
        let meant: [&[u8]; 1] = [b"imtcp"];
        let is_near = nearest(param.value.bytes.as_slice(), &meant).is_some();
        mended.is_load_meant = mended.is_load_meant || is_near;
    }
    if code != FaultCode::Duplicate {
        mended.cuts.push(CutParameter {
            object: object.start,
            name: (param.name.span.start, param.name.span.end),
        })?;
    }
    mended
        .draft
        .cut(param.name.span.start, param.value.span.end)?;
    Ok(true)
}

// ---- rulesets and modules that aren't there

// Puts a ruleset of a name behind the text.
fn append_ruleset(mended: &mut Mended, name: &[u8]) -> Result<bool, AllocError> {
    mended.draft.append(b"\nruleset(name=\"")?;
    for byte in name {
        if matches!(*byte, b'"' | b'\\') {
            mended.draft.append(b"\\")?;
        }
        mended.draft.append(&[*byte])?;
    }
    mended.draft.append(b"\"){}")?;
    Ok(true)
}

// Puts a `stop` in the place of a call, by the place of the name in it.
fn stop_call(mended: &mut Mended, start: usize, end: usize) -> Result<bool, AllocError> {
    let mut word = start;
    for byte in between(mended.draft.text(), 0, start).iter().rev() {
        if !matches!(*byte, b' ' | b'\t' | b'\r' | b'\n') {
            break;
        }
        word = word.saturating_sub(1);
    }
    let first = word.saturating_sub(4);
    if !between(mended.draft.text(), first, word).eq_ignore_ascii_case(b"call") {
        return Ok(false);
    }
    mended.draft.replace(first, end, b"stop")
}

// ---- tests

// Puts another test in the place of a comparison, or another selector in that of one.
fn mend_test(
    alloc: Global,
    mended: &mut Mended,
    script: &Script,
    fault: &PlanFault,
) -> Result<bool, AllocError> {
    match fault.code {
        FaultCode::Operator | FaultCode::Unknown => {
            match comparison_at(alloc, script, fault.span.start)? {
                Some((start, end)) => mended.draft.replace(start, end, b"$msg==\"\""),
                None => Ok(false),
            }
        }
        _ => mended
            .draft
            .replace(fault.span.start, fault.span.end, b"\"*.*\""),
    }
}

// ---- all of them

// Of a name that isn't known.
fn mend_unknown(
    alloc: Global,
    mended: &mut Mended,
    script: &Script,
    fault: &PlanFault,
) -> Result<bool, AllocError> {
    match fault.word.as_slice() {
        [b'$', ..] => mend_test(alloc, mended, script, fault),
        b"RSYSLOG_DefaultRuleset" => stop_call(mended, fault.span.start, fault.span.end),
        name => append_ruleset(mended, name),
    }
}

// Of an object by itself, or among the others.
fn mend_object(
    alloc: Global,
    mended: &mut Mended,
    object: Object<'_>,
    fault: &PlanFault,
) -> Result<bool, AllocError> {
    match fault.code {
        FaultCode::Missing => cut_missing(alloc, mended, object),
        FaultCode::Duplicate if object.word == ObjectWord::MainQueue => {
            cut_object(alloc, mended, object)
        }
        FaultCode::Duplicate => rename(alloc, mended, object),
        FaultCode::SamePort => cut_object(alloc, mended, object),
        FaultCode::NotLoaded => {
            mended.draft.append(b"\nmodule(load=\"imtcp\")")?;
            Ok(true)
        }
        _ => Ok(false),
    }
}

/// Takes away what has a fault, or puts behind the text what it lacks, so that the rest can be judged, and answers whether
/// that could be done.
pub fn mend_plan(
    alloc: Global,
    mended: &mut Mended,
    script: &Script,
    objects: &[Object<'_>],
    fault: &PlanFault,
) -> Result<bool, AllocError> {
    let place = fault.span.start;
    if place >= mended.draft.size() || fault.span.end == 0 {
        return Ok(false);
    }
    match param_at(objects, place) {
        Some((object, param)) => return cut_param(mended, object, param, fault.code),
        None => {}
    }
    match fault.code {
        FaultCode::Unknown => mend_unknown(alloc, mended, script, fault),
        FaultCode::Facility | FaultCode::Severity | FaultCode::Shape | FaultCode::Operator => {
            mend_test(alloc, mended, script, fault)
        }
        _ => match object_at(objects, place) {
            Some(object) => mend_object(alloc, mended, object, fault),
            None => Ok(false),
        },
    }
}

/// A text with an object alone, at its place, that has further parameters. What stands before it is blank.
pub fn object_with(
    alloc: Global,
    text: &[u8],
    object: Object<'_>,
    further: &[u8],
) -> Result<Option<Vec<u8>>, AllocError> {
    let Some((_, closing)) = end_of(alloc, text, object)? else {
        return Ok(None);
    };
    let mut alone = Vec::new(alloc);
    for byte in text.iter().take(object.start) {
        alone.push(if *byte == b'\n' { b'\n' } else { b' ' })?;
    }
    alone.extend_from_slice(between(text, object.start, closing))?;
    alone.extend_from_slice(further)?;
    alone.extend_from_slice(b")")?;
    Ok(Some(alone))
}
