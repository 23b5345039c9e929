//! What is wrong with the parameters of an object.

ghost use Rattle.std.specs.Prelude.{◌≡◌, ◌++◌, map, IfErr, OnOk, []};
ghost use Rattle.sy_rules.specs.Faults as fault;
ghost use Rattle.sy_rules.specs.internal.Checking as inside;
ghost use Rattle.sy_rules.specs.parameters.Values as spec;
ghost use Rattle.sy_rules.specs.parameters.Rows as table;
ghost use Rattle.sy_rules.specs.internal.Views as view;
ghost use Rattle.sy_rules.specs.parameters.RowViews as row;

use crate::fault::FaultCode;
use crate::items::fault::ItemFault;
use crate::parameters::by_name::parameter_named;
use crate::parameters::kind::Kind;
use crate::parameters::rows::{
    Absent, Row, destination_rows, own_rows, queue_head_rows, queue_rest_rows,
};
use crate::parameters::values::{has_shape, is_given, is_in_range};
use std::alloc::Global;
use sy_script::tree::{Param, Span};

/// A fault whose word lies in the script, where it has a place, or in the table.
#[derive(Clone, Copy)]
struct Flaw<'w> {
    code: FaultCode,
    word: &'w [u8],
    place: Option<Span>,
}

// What is wrong with a parameter after others.
fn flaw_at<'p>(kind: Kind, before: &[Param], param: &'p Param) -> Option<Flaw<'p>>
    ensures { view.flaw result ≡ fault.first (spec.faults_at (table.lookup (table.rows kind) param.now.name.text)
        before.now param.now) }
{
    let word = param.name.text.as_slice();
    let value = param.value.bytes.as_slice();
    let code = match parameter_named(kind, word) {
        None => FaultCode::Unknown,
        Some(_) if is_given(word, before) => FaultCode::Duplicate,
        Some(row) if !has_shape(row.shape, value) => FaultCode::BadValue,
        Some(row) if !is_in_range(row.shape, value) => FaultCode::Range,
        Some(_) => return None,
    };
    let place = Some(param.name.span);
    Some(Flaw { code, word, place })
}

// The first of the rows that must be given and is not.
fn first_missing(mut rows: &'static [Row], params: &[Param]) -> Option<Flaw<'static>>
    ensures { view.flaw result ≡ fault.first (spec.missing (map row.row_of rows.entry.now) params.now) }
{
    while let [row, rest @ ..] = rows {
        if is_required(row.absent) && !is_given(row.name, params) {
            return Some(Flaw {
                code: FaultCode::Missing,
                word: row.name,
                place: None,
            });
        }
        rows = rest;
    }
    None
}

fn is_required(absent: Absent) -> bool
    ensures { result ≡ spec.is_required (row.absent_of absent) }
{
    match absent {
        Absent::Required => true,
        _ => false,
    }
}

fn missing_of_queue(kind: Kind, params: &[Param]) -> Option<Flaw<'static>>
    ensures { view.flaw result ≡ fault.first (spec.missing (table.queue_head_rows kind ++ table.queue_rest_rows kind)
        params.now) }
{
    match first_missing(queue_head_rows(kind), params) {
        Some(flaw) => Some(flaw),
        None => first_missing(queue_rest_rows(kind), params),
    }
}

fn missing_of_destination(kind: Kind, params: &[Param]) -> Option<Flaw<'static>>
    ensures { view.flaw result ≡ fault.first (spec.missing
        (table.destination_rows kind ++ (table.queue_head_rows kind ++ table.queue_rest_rows kind)) params.now) }
{
    match first_missing(destination_rows(kind), params) {
        Some(flaw) => Some(flaw),
        None => missing_of_queue(kind, params),
    }
}

fn missing(kind: Kind, params: &[Param]) -> Option<Flaw<'static>>
    ensures { view.flaw result ≡ fault.first (spec.missing (table.rows kind) params.now) }
{
    match first_missing(own_rows(kind), params) {
        Some(flaw) => Some(flaw),
        None => missing_of_destination(kind, params),
    }
}

// The first flaw from left to right, and after the last parameter what is missing. Parameters that are known and not doubled are no more than
// the table has rows, so no more than these are ever looked at, however many there are.
#[tactic(auto, unfolding(crate::specs::parameters::Values::faults))]
fn first_flaw<'p>(kind: Kind, params: &'p [Param]) -> Option<Flaw<'p>>
    ensures { view.flaw result ≡ fault.first (spec.faults kind params.now) }
{
    for (at, param) in params.iter().enumerate() {
        if let Some(flaw) = flaw_at(kind, &params[..at], param) {
            return Some(flaw);
        }
    }
    missing(kind, params)
}

/// Refuses an object for the first fault of its parameters.
pub fn check(alloc: Global, kind: Kind, params: &[Param]) -> Result<(), ItemFault>
    ensures ok { OnOk result (spec.faults kind params.now ≡ []) }
    ensures err { IfErr result (λ f. inside.IsFound (spec.faults kind params.now) f) }
{
    match first_flaw(kind, params) {
        None => Ok(()),
        Some(flaw) => Err(ItemFault::new(alloc, flaw.code, flaw.word, flaw.place)),
    }
}
