//! The parameters of queues, as they are in the profile.
ghost use Rattle.std.specs.Prelude.{◌≡◌, ◌≤◌, ◌++◌, OnOk};
ghost use Rattle.std.specs.Fmt.{decimal};
ghost use Rattle.sy_fleet.specs.internal.Queues as spec;

use crate::params::{Param, number_of, value_of};
use itoa::Buffer;
use std::alloc::{AllocError, Global};
use sy_fleet_text::scan::part;
use sy_fleet_text::words::same_word;

/// Puts a number in decimal digits behind a text.
pub(crate) fn append_number(out: &mut Vec<u8>, number: u64) -> Result<(), AllocError>
    ensures { OnOk result (out.new.items ≡ out.old.items ++ decimal number) }
{
    let mut digits = Buffer::new();
    out.extend_from_slice(digits.format(number).as_bytes())
}

/// Of what a queue is.
#[derive(Clone, Copy, PartialEq, Eq)]
pub(crate) enum QueueKind {
    /// The main queue without an object.
    Main,
    /// The main queue's object, or a ruleset.
    Object,
    Action,
}

// How many messages a queue has room for where nothing says so, by rsyslogd 8.2302.
fn usual_size(kind: QueueKind) -> u64
    ensures { result ≡ spec.usual_size kind }
{
    match kind {
        QueueKind::Main => 100_000,
        QueueKind::Object => 50_000,
        QueueKind::Action => 1000,
    }
}

/// The greatest number that the profile has for a queue.
const MOST: u64 = 1_000_000;

// A parameter without the word `queue.` before its name, where it has that.
fn of_queue(text: &[u8], param: Param) -> Option<Param> {
    let name = param.name;
    let behind = name.start.saturating_add(6);
    if behind >= name.end || !same_word(b"queue.", part(text, name.start, behind)) {
        return None;
    }
    let mut found = param;
    found.name.start = behind;
    Some(found)
}

/// The parameters of an object's queue, their names without `queue.`.
pub(crate) fn queue_params(
    alloc: Global,
    text: &[u8],
    params: &[Param],
) -> Result<Vec<Param>, AllocError> {
    let mut found = Vec::new(alloc);
    for param in params {
        if let Some(param) = of_queue(text, *param) {
            found.push(param)?;
        }
    }
    Ok(found)
}

fn number_in(text: &[u8], params: &[Param], name: &[u8]) -> Option<u64> {
    value_of(text, params, name).and_then(number_of)
}

fn append_one(out: &mut Vec<u8>, name: &[u8], number: u64) -> Result<(), AllocError>
    ensures { OnOk result (out.new.items ≡ out.old.items ++ spec.one_text name.now number) }
{
    out.extend_from_slice(b" queue.")?;
    out.extend_from_slice(name)?;
    out.extend_from_slice(b"=\"")?;
    append_number(out, number)?;
    out.extend_from_slice(b"\"")
}

/// What is given of a queue, of numbers those that are some.
#[derive(Clone, Copy)]
pub(crate) struct Given {
    pub size: Option<u64>,
    pub full: Option<u64>,
    pub mark: Option<u64>,
    pub severity: Option<u64>,
    /// Whether only one of several messages is taken at all.
    pub is_sampled: bool,
}

fn given_in(text: &[u8], params: &[Param]) -> Given {
    let interval = number_in(text, params, b"samplingInterval");
    Given {
        size: number_in(text, params, b"size"),
        full: number_in(text, params, b"fullDelayMark"),
        mark: number_in(text, params, b"discardMark"),
        severity: number_in(text, params, b"discardSeverity"),
        is_sampled: interval.unwrap_or(0) > 0,
    }
}

fn size_of(kind: QueueKind, given: Option<u64>) -> u64
    ensures value { result ≡ spec.size_of kind given }
    ensures most { result ≤ 1000000 }
{
    match given {
        Some(given) => given.max(1).min(MOST),
        None => usual_size(kind),
    }
}

fn usual_mark(size: u64, hundredths: u64, small: u64) -> u64
    requires size { size ≤ 1000000 }
    requires hundredths { hundredths ≤ 100 }
    ensures { result ≡ spec.usual_mark size hundredths small }
{
    let usual = size / 100 * hundredths;
    if usual == 0 { small } else { usual }
}

fn mark(given: Option<u64>, size: u64, hundredths: u64, small: u64) -> u64
    requires size { size ≤ 1000000 }
    requires hundredths { hundredths ≤ 100 }
    ensures { result ≡ spec.mark given size hundredths small }
{
    match given {
        Some(number) => {
            if 0 < number && number <= size {
                number
            } else {
                usual_mark(size, hundredths, small)
            }
        }
        None => usual_mark(size, hundredths, small),
    }
}

// In the first queue each severity is discarded, where any is: what isn't parsed yet counts there as of the least severity.
fn discarded(kind: QueueKind, severity: u64) -> u64
    ensures { result ≡ spec.discarded kind severity }
{
    match kind {
        QueueKind::Main | QueueKind::Object => { if severity < 8 { 0 } else { 8 } }
        QueueKind::Action => severity.min(8),
    }
}

fn discards(kind: QueueKind, given: Given) -> u64
    ensures { result ≡ spec.discards kind given }
{
    if given.is_sampled {
        return 0;
    }
    discarded(kind, given.severity.unwrap_or(8))
}

fn discard_mark(size: u64, given: Given) -> u64
    requires size { size ≤ 1000000 }
    ensures { result ≡ spec.discard_mark size given }
{
    if given.is_sampled {
        return 1;
    }
    mark(given.mark, size, 98, size)
}

// Puts the parameters of a queue of a size behind a text.
fn append_sized(
    out: &mut Vec<u8>,
    kind: QueueKind,
    given: Given,
    size: u64,
) -> Result<(), AllocError>
    requires { size ≤ 1000000 }
    ensures { OnOk result (out.new.items ≡ spec.with_size kind given size out.old.items) }
{
    let full = mark(given.full, size, 97, size.saturating_sub(1));
    let least = discard_mark(size, given);
    let severity = discards(kind, given);
    append_one(out, b"size", size)?;
    append_one(out, b"fullDelayMark", full)?;
    append_one(out, b"discardMark", least)?;
    append_one(out, b"discardSeverity", severity)?;
    Ok(())
}

// Puts the parameters of a queue behind a text.
fn append_given(out: &mut Vec<u8>, kind: QueueKind, given: Given) -> Result<(), AllocError>
    ensures { OnOk result (out.new.items ≡ spec.with_queue kind given out.old.items) }
{
    let size = size_of(kind, given.size);
    append_sized(out, kind, given, size)?;
    Ok(())
}

/// Puts those parameters of a queue behind a text that decide what it loses, by the names of the profile, with rsyslogd's values where
/// they aren't given.
pub(crate) fn append_queue(
    out: &mut Vec<u8>,
    text: &[u8],
    params: &[Param],
    kind: QueueKind,
) -> Result<(), AllocError> {
    append_given(out, kind, given_in(text, params))
}

/// Whether the parameters of an action make a queue of its own.
pub(crate) fn is_action_queue(text: &[u8], params: &[Param]) -> bool {
    match value_of(text, params, b"type") {
        Some(kind) => !same_word(b"Direct", kind),
        None => false,
    }
}

/// Whether those of a ruleset do: any of them does, where they don't say `Direct`.
pub(crate) fn is_ruleset_queue(text: &[u8], params: &[Param]) -> bool {
    match value_of(text, params, b"type") {
        Some(kind) => !same_word(b"Direct", kind),
        None => !params.is_empty(),
    }
}

/// Whether a queue is on a disk, in part or whole.
pub(crate) fn is_on_disk(text: &[u8], params: &[Param]) -> bool {
    value_of(text, params, b"filename").is_some()
}
