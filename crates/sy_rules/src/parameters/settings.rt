//! What the parameters of an object say.

ghost use Rattle.std.specs.Prelude.{◌≡◌, ◌≤◌, [], true, IfOk, IfErr, OnOk, option_and_then, unwrap_or};
ghost use Rattle.std.specs.Option.{option_copied};
ghost use Rattle.sy_rules.specs.parameters.Objects as spec;
ghost use Rattle.sy_rules.specs.internal.Objects as inside;
ghost use Rattle.sy_rules.specs.parameters.Values.{faults};
ghost use Rattle.sy_rules.specs.parameters.RowViews as view;

use crate::parameters::by_name::parameter_named;
use crate::parameters::kind::Kind;
use crate::parameters::rows::{Absent, Row};
use crate::parameters::values::{decimal_value, given};
use sy_script::tree::Param;

/// How the messages of an input wait (`flowControl`).
#[derive(Clone, Copy, Debug, PartialEq, Eq)]
pub enum FlowControl {
    /// Messages are light-delayable: they wait for a while at the light-delay mark, and no longer than `timeout_enqueue` at a full queue.
    On,
    /// They wait at a full queue alone, no longer than `timeout_enqueue`.
    Off,
    /// They wait at the full-delay mark until there is room. (This profile's own: rsyslog's imtcp doesn't have it.)
    Full,
}

/// The parameters of a queue, as given or by their defaults. A mark of 0 is off; one above the size is kept as it is written.
#[derive(Clone, Copy, Debug, PartialEq, Eq)]
pub struct QueueParameters {
    /// The most messages that wait (`queue.size`), 1 to 1,000,000.
    pub size: u32,
    /// The most messages that a worker takes at once (`queue.dequeueBatchSize`), 1 to 65,536.
    pub batch: u32,
    /// `queue.fullDelayMark`, in messages
    pub full_delay_mark: u32,
    /// `queue.lightDelayMark`, in messages
    pub light_delay_mark: u32,
    /// `queue.discardMark`, in messages
    pub discard_mark: u32,
    /// The most urgent severity that is discarded at the discard mark (`queue.discardSeverity`); 8 discards nothing.
    pub discard_severity: u8,
    /// How long to wait at a full queue (`queue.timeoutEnqueue`), in milliseconds.
    pub timeout_enqueue: u32,
    /// How many workers take from it (`queue.workerThreads`), 1 to 64.
    pub workers: u32,
    /// Whether a post into it waits at the full-delay mark until there is room (`queue.workerFlow` is `full`), as the messages of an input
    /// with [`FlowControl::Full`] do. (This profile's own.)
    pub waits: bool,
}

fn absent_number(size: u32, absent: Absent) -> u64
    ensures { result ≡ spec.absent_number size (view.absent_of absent) }
{
    match absent {
        Absent::Amount(number) => number,
        Absent::Hundredths(hundredths) => u64::from(size) * u64::from(hundredths) / 100,
        _ => 0,
    }
}

fn default_number(size: u32, row: Option<&Row>) -> u64
    ensures { result ≡ spec.default_number size (view.found row.entry) }
{
    match row {
        Some(row) => absent_number(size, row.absent),
        None => 0,
    }
}

/// The number of a parameter, as given or by its default.
#[tactic(auto, unfolding(crate::specs::parameters::Objects::number_of))]
pub fn number_of(kind: Kind, params: &[Param], size: u32, name: &[u8]) -> u64
    ensures { result ≡ spec.number_of kind params.now size name.now }
{
    if let Some(value) = given(name, params) {
        if let Some(number) = decimal_value(value) {
            return number;
        }
    }
    default_number(size, parameter_named(kind, name))
}

fn absent_word(absent: Absent) -> Option<&'static [u8]>
    ensures { option_copied result ≡ spec.absent_word (view.absent_of absent) }
{
    match absent {
        Absent::Word(word) => Some(word),
        _ => None,
    }
}

/// The word of a parameter, as given or by its default.
#[tactic(auto, unfolding(crate::specs::parameters::Objects::word_of))]
pub fn word_of<'p>(kind: Kind, params: &'p [Param], name: &[u8]) -> Option<&'p [u8]>
    ensures { option_copied result ≡ spec.word_of kind params.now name.now }
{
    if let Some(word) = given(name, params) {
        return Some(word);
    }
    match parameter_named(kind, name) {
        Some(row) => absent_word(row.absent),
        None => None,
    }
}

/// Whether a word is found, and is this one.
pub fn is_word(word: &[u8], found: Option<&[u8]>) -> bool
    ensures { result ≡ spec.is_word word.now (option_copied found.entry) }
{
    match found {
        Some(found) => found == word,
        None => false,
    }
}

/// Whether the object has a queue.
#[tactic(auto, unfolding(crate::specs::parameters::Objects::has_queue))]
pub fn has_queue(kind: Kind, params: &[Param]) -> bool
    ensures { result ≡ spec.has_queue kind params.now }
{
    let kind_of_queue = word_of(kind, params, b"queue.type");
    is_word(b"FixedArray", kind_of_queue) || is_word(b"LinkedList", kind_of_queue)
}

/// The queue's parameters of an object with which nothing is wrong.
#[tactic(auto, unfolding(crate::specs::parameters::Objects::queue_parameters))]
pub fn queue_parameters(kind: Kind, params: &[Param]) -> QueueParameters
    requires takes { inside.takes_queue kind ≡ true }
    requires clean { faults kind params.now ≡ [] }
    ensures value { result ≡ spec.queue_parameters kind params.now }
    ensures in_range { spec.AreInRange result }
{
    let size = number_of(kind, params, 0, b"queue.size") as u32;
    let batch = number_of(kind, params, size, b"queue.dequeueBatchSize") as u32;
    let full_delay_mark = number_of(kind, params, size, b"queue.fullDelayMark") as u32;
    let light_delay_mark = number_of(kind, params, size, b"queue.lightDelayMark") as u32;
    let discard_mark = number_of(kind, params, size, b"queue.discardMark") as u32;
    let discard_severity = number_of(kind, params, size, b"queue.discardSeverity") as u8;
    let timeout_enqueue = number_of(kind, params, size, b"queue.timeoutEnqueue") as u32;
    let workers = number_of(kind, params, size, b"queue.workerThreads") as u32;
    let waits = is_word(b"full", word_of(kind, params, b"queue.workerFlow"));
    QueueParameters {
        size,
        batch,
        full_delay_mark,
        light_delay_mark,
        discard_mark,
        discard_severity,
        timeout_enqueue,
        workers,
        waits,
    }
}
