//! What is wrong with the items of a script by themselves.

ghost use Rattle.std.specs.Prelude.{◌≡◌, [], OnOk, IfErr};
ghost use Rattle.sy_rules.specs.internal.Checking.{IsFound};
ghost use Rattle.sy_rules.specs.items.ItemFaults as spec;
ghost use Rattle.sy_rules.specs.items.ItemViews.{item};

use crate::items::fault::ItemFault;
use crate::items::outline::Item;
use crate::parameters::flaws::check;
use crate::parameters::kind::Kind;
use crate::parameters::objects::kind_of_action;
use std::alloc::Global;
use sy_script::tree::ObjectKind;

fn kind_of_object(object: ObjectKind) -> Kind
    ensures { result ≡ spec.kind_of_object object }
{
    match object {
        ObjectKind::Module => Kind::Module,
        ObjectKind::Global => Kind::Global,
        ObjectKind::MainQueue => Kind::MainQueue,
        ObjectKind::Input => Kind::Input,
    }
}

/// Refuses an item for the first fault of its parameters.
pub fn check_item(alloc: Global, next: &Item<'_>) -> Result<(), ItemFault>
    ensures ok { OnOk result (spec.object_faults (item next.now) ≡ []) }
    ensures err { IfErr result (λ f. IsFound (spec.object_faults (item next.now)) f) }
{
    match *next {
        Item::Object(_, object, params) => check(alloc, kind_of_object(object), params),
        Item::Ruleset(_, params) => check(alloc, Kind::Ruleset, params),
        Item::Action(_, params) => check(alloc, kind_of_action(params), params),
        Item::Call(_, _) | Item::Test(_) => Ok(()),
    }
}
