//! Single values of objects with which nothing is wrong, as they lie in the script.

ghost use Rattle.std.specs.Prelude.{◌≡◌, ◌≤◌, [], codes, filter_map, map, true};
ghost use Rattle.sy_rules.specs.internal.Checking.{AreClean};
ghost use Rattle.sy_rules.specs.items.ItemViews.{item};
ghost use Rattle.sy_rules.specs.parts.Plans as plans;
ghost use Rattle.std.specs.Option.{option_copied};
ghost use Rattle.sy_rules.specs.parameters.Objects as spec;
ghost use Rattle.sy_rules.specs.internal.Objects as inside;
ghost use Rattle.sy_rules.specs.parameters.Values as parameters;
ghost use Rattle.sy_rules.specs.internal.Seen.{workers_in};

use crate::items::outline::Item;
use crate::parameters::kind::Kind;
use crate::parameters::settings::{has_queue, is_word, number_of, queue_parameters};
use crate::parameters::values::given;
use sy_script::tree::{ObjectKind, Param};

/// Whether a `module` object loads `imtcp`.
pub fn loads_imtcp(params: &[Param]) -> bool
    ensures { result ≡ spec.is_word (codes "imtcp") (parameters.given (codes "load") params.now) }
{
    is_word(b"imtcp", given(b"load", params))
}

/// The port of an `input`.
#[tactic(auto, unfolding(crate::specs::parameters::Objects::input_of))]
pub fn port_of(params: &[Param]) -> u16
    requires { parameters.faults Kind.Input params.now ≡ [] }
    ensures { result ≡ (spec.input_of params.now).port }
{
    number_of(Kind::Input, params, 0, b"port") as u16
}

/// The ruleset that an `input` is bound to, where it names one.
#[tactic(auto, unfolding(crate::specs::parameters::Objects::input_of))]
pub fn ruleset_of_input(params: &[Param]) -> Option<&[u8]>
    ensures { option_copied result ≡ (spec.input_of params.now).ruleset_name }
{
    given(b"ruleset", params)
}

/// The name of a ruleset.
#[tactic(auto, unfolding(crate::specs::parameters::Objects::ruleset_of))]
pub fn name_of_ruleset(params: &[Param]) -> &[u8]
    ensures { result.now ≡ (spec.ruleset_of params.now).name }
{
    match given(b"name", params) {
        Some(name) => name,
        None => b"",
    }
}

/// The name of an action, where it is given one.
#[tactic(auto, unfolding(crate::specs::parameters::Objects::action_of))]
pub fn given_name(params: &[Param]) -> Option<&[u8]>
    ensures { option_copied result ≡ (spec.action_of (spec.kind_of_action params.now) params.now).name }
{
    given(b"name", params)
}

/// How many workers the queue of an object has; none without a queue.
pub fn workers_of(kind: Kind, params: &[Param]) -> u32
    requires takes { inside.takes_queue kind ≡ true }
    requires clean { parameters.faults kind params.now ≡ [] }
    ensures value { result ≡ workers_in (spec.queue_of kind params.now) }
    ensures most { result ≤ 64 }
{
    if has_queue(kind, params) {
        queue_parameters(kind, params).workers
    } else {
        0
    }
}

/// The parameters of the first main queue; none where there is none.
pub fn main_queue_params<'s>(items: &[Item<'s>]) -> &'s [Param]
    requires clean { AreClean (map item items.now) }
    ensures value { result.now ≡ plans.first_params (filter_map plans.main_queue_at (map item items.now)) }
    ensures clean { parameters.faults Kind.MainQueue result.now ≡ [] }
{
    let mut rest = items;
    while let [next, after @ ..] = rest {
        if let Item::Object(_, ObjectKind::MainQueue, params) = *next {
            return params;
        }
        rest = after;
    }
    &[]
}
