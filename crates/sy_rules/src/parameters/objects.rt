//! Reads the objects of a script, with whose parameters nothing is wrong. Only memory can be refused.

ghost use Rattle.std.specs.Prelude.{◌≡◌, ◌≤◌, [], IfOk, IfErr, true};
ghost use Rattle.std.specs.Option.{option_copied};
ghost use Rattle.sy_rules.specs.Faults as fault;
ghost use Rattle.sy_rules.specs.parameters.Objects as spec;
ghost use Rattle.sy_rules.specs.internal.Objects as inside;
ghost use Rattle.sy_rules.specs.parameters.Values.{faults, given};

use crate::fault::PlanFault;
use crate::parameters::kind::Kind;
use crate::parameters::settings::{
    FlowControl, QueueParameters, has_queue, is_word, number_of, queue_parameters, word_of,
};
use crate::parameters::values::given;
use std::alloc::Global;
use sy_script::Items;
use sy_script::tree::Param;

/// What an `input` object says.
#[derive(Drop)]
pub struct InputParameters {
    /// 1 to 65,535
    pub port: u16,
    pub flow: FlowControl,
    /// The ruleset that it is bound to, where it names one.
    pub ruleset_name: Option<Items<u8>>,
    /// The file that keeps its frames without a message (`unreadFile`), where it names one.
    pub unread_file: Option<Items<u8>>,
}

/// What the parameters of a `ruleset` say.
#[derive(Drop)]
pub struct RulesetParameters {
    pub name: Items<u8>,
    pub queue: Option<QueueParameters>,
}

/// Where an action brings messages.
#[derive(Drop)]
pub enum Destination {
    /// Into this file (`omfile`).
    Archive(Items<u8>),
    /// To this target and port (`omfwd`).
    Forward(Items<u8>, u16),
}

/// What an `action` says.
#[derive(Drop)]
pub struct ActionParameters {
    pub name: Option<Items<u8>>,
    pub destination: Destination,
    /// How often a failed message is tried again (`action.resumeRetryCount`); none where without end.
    pub retry: Option<u32>,
    /// How long to wait after a failure (`action.resumeInterval`), in seconds.
    pub resume_interval: u32,
    pub queue: Option<QueueParameters>,
}

fn copied(alloc: Global, text: &[u8]) -> Result<Items<u8>, PlanFault>
    ensures ok { IfOk result (λ items. items ≡ text.now) }
    ensures err { IfErr result (λ f. f ≡ fault.no_memory) }
{
    match Items::from_slice(alloc, text) {
        Ok(items) => Ok(items),
        Err(_) => Err(PlanFault::no_memory(alloc)),
    }
}

fn copied_if(alloc: Global, text: Option<&[u8]>) -> Result<Option<Items<u8>>, PlanFault>
    ensures ok { IfOk result (λ items. items ≡ option_copied text.entry) }
    ensures err { IfErr result (λ f. f ≡ fault.no_memory) }
{
    match text {
        Some(text) => Ok(Some(copied(alloc, text)?)),
        None => Ok(None),
    }
}

// The text of a parameter that must be given.
fn text(alloc: Global, params: &[Param], name: &[u8]) -> Result<Items<u8>, PlanFault>
    ensures ok { IfOk result (λ items. items ≡ spec.text (given name.now params.now)) }
    ensures err { IfErr result (λ f. f ≡ fault.no_memory) }
{
    match given(name, params) {
        Some(text) => copied(alloc, text),
        None => Ok(Items::new(alloc)),
    }
}

fn flow_named(word: Option<&[u8]>) -> FlowControl
    ensures { result ≡ spec.flow_named (option_copied word.entry) }
{
    if is_word(b"full", word) {
        FlowControl::Full
    } else if is_word(b"off", word) {
        FlowControl::Off
    } else {
        FlowControl::On
    }
}

/// Reads an `input` object.
#[tactic(auto, unfolding(crate::specs::parameters::Objects::input_of))]
pub fn read_input(alloc: Global, params: &[Param]) -> Result<InputParameters, PlanFault>
    requires { faults Kind.Input params.now ≡ [] }
    ensures value { IfOk result (λ i. i ≡ spec.input_of params.now) }
    ensures port { IfOk result (λ i. 1 ≤ i.port) }
    ensures err { IfErr result (λ f. f ≡ fault.no_memory) }
{
    let port = number_of(Kind::Input, params, 0, b"port") as u16;
    let flow = flow_named(word_of(Kind::Input, params, b"flowControl"));
    let ruleset_name = copied_if(alloc, given(b"ruleset", params))?;
    let unread_file = copied_if(alloc, given(b"unreadFile", params))?;
    Ok(InputParameters {
        port,
        flow,
        ruleset_name,
        unread_file,
    })
}

/// The queue of a ruleset or an action with which nothing is wrong, where it has one.
pub fn queue_of(kind: Kind, params: &[Param]) -> Option<QueueParameters>
    requires takes { inside.takes_queue kind ≡ true }
    requires clean { faults kind params.now ≡ [] }
    ensures value { result ≡ spec.queue_of kind params.now }
    ensures in_range { inside.IsQueueInRange result }
{
    if has_queue(kind, params) {
        Some(queue_parameters(kind, params))
    } else {
        None
    }
}

/// Reads the parameters of a ruleset.
#[tactic(auto, unfolding(crate::specs::parameters::Objects::ruleset_of))]
pub fn read_ruleset(alloc: Global, params: &[Param]) -> Result<RulesetParameters, PlanFault>
    requires { faults Kind.Ruleset params.now ≡ [] }
    ensures value { IfOk result (λ r. r ≡ spec.ruleset_of params.now) }
    ensures in_range { IfOk result (λ r. inside.IsQueueInRange r.queue) }
    ensures err { IfErr result (λ f. f ≡ fault.no_memory) }
{
    let queue = queue_of(Kind::Ruleset, params);
    let name = text(alloc, params, b"name")?;
    Ok(RulesetParameters { name, queue })
}

fn retry_of(kind: Kind, params: &[Param]) -> Option<u32>
    requires action { inside.is_action kind ≡ true }
    requires clean { faults kind params.now ≡ [] }
    ensures { result ≡ spec.retry_of kind params.now }
{
    if is_word(b"-1", given(b"action.resumeRetryCount", params)) {
        None
    } else {
        let count = number_of(kind, params, 0, b"action.resumeRetryCount") as u32;
        Some(count)
    }
}

#[tactic(auto, unfolding(crate::specs::parameters::Objects::destination_of))]
fn destination_of(alloc: Global, kind: Kind, params: &[Param]) -> Result<Destination, PlanFault>
    requires { faults kind params.now ≡ [] }
    ensures value { IfOk result (λ d. d ≡ spec.destination_of kind params.now) }
    ensures port { IfOk result (λ d. spec.HasPort d) }
    ensures err { IfErr result (λ f. f ≡ fault.no_memory) }
{
    match kind {
        Kind::Forward => {
            let port = number_of(Kind::Forward, params, 0, b"port") as u16;
            let target = text(alloc, params, b"target")?;
            Ok(Destination::Forward(target, port))
        }
        _ => {
            let file = text(alloc, params, b"file")?;
            Ok(Destination::Archive(file))
        }
    }
}

// Reads an action of this kind.
#[tactic(auto, unfolding(crate::specs::parameters::Objects::action_of))]
fn read_action_of(
    alloc: Global,
    kind: Kind,
    params: &[Param],
) -> Result<ActionParameters, PlanFault>
    requires action { inside.is_action kind ≡ true }
    requires clean { faults kind params.now ≡ [] }
    ensures value { IfOk result (λ a. a ≡ spec.action_of kind params.now) }
    ensures port { IfOk result (λ a. spec.HasPort a.destination) }
    ensures in_range { IfOk result (λ a. inside.IsQueueInRange a.queue) }
    ensures err { IfErr result (λ f. f ≡ fault.no_memory) }
{
    let queue = queue_of(kind, params);
    let retry = retry_of(kind, params);
    let resume_interval = number_of(kind, params, 0, b"action.resumeInterval") as u32;
    let destination = destination_of(alloc, kind, params)?;
    let name = copied_if(alloc, given(b"name", params))?;
    Ok(ActionParameters {
        name,
        destination,
        retry,
        resume_interval,
        queue,
    })
}

/// The kind of an action, by the module that its type names.
#[tactic(auto, unfolding(crate::specs::parameters::Objects::kind_of_action))]
pub fn kind_of_action(params: &[Param]) -> Kind
    ensures value { result ≡ spec.kind_of_action params.now }
    ensures action { inside.is_action result ≡ true }
{
    let word = given(b"type", params);
    if is_word(b"omfile", word) {
        Kind::Archive
    } else if is_word(b"omfwd", word) {
        Kind::Forward
    } else {
        Kind::Action
    }
}

/// Reads an `action`. Its type says which other parameters it takes.
pub fn read_action(alloc: Global, params: &[Param]) -> Result<ActionParameters, PlanFault>
    requires { faults (spec.kind_of_action params.now) params.now ≡ [] }
    ensures value { IfOk result (λ a. a ≡ spec.action_of (spec.kind_of_action params.now) params.now) }
    ensures port { IfOk result (λ a. spec.HasPort a.destination) }
    ensures in_range { IfOk result (λ a. inside.IsQueueInRange a.queue) }
    ensures err { IfErr result (λ f. f ≡ fault.no_memory) }
{
    let kind = kind_of_action(params);
    read_action_of(alloc, kind, params)
}
