//! The names of actions.

ghost use Rattle.std.specs.Prelude.{◌≡◌, IfOk, IfErr, None};
ghost use Rattle.std.specs.Option.{option_copied};
ghost use Rattle.sy_rules.specs.Faults.{no_memory};
ghost use Rattle.sy_rules.specs.parts.Plans as spec;

use crate::fault::PlanFault;
use std::alloc::{AllocError, Global};
use sy_script::Items;

/// The name of an action that isn't given one: `action-N` by its number.
pub fn name_by_number(alloc: Global, number: usize) -> Result<Items<u8>, AllocError>
    ensures { IfOk result (λ name. name ≡ spec.action_name number None) }
{
    let name = format!(in alloc; "action-{number}")?;
    Items::from_slice(alloc, name.as_bytes())
}

/// The name of the action of this number: the given one, copied, or `action-N`.
pub fn action_name(
    alloc: Global,
    number: usize,
    given: Option<&[u8]>,
) -> Result<Items<u8>, AllocError>
    ensures { IfOk result (λ name. name ≡ spec.action_name number (option_copied given.entry)) }
{
    match given {
        Some(name) => Items::from_slice(alloc, name),
        None => name_by_number(alloc, number),
    }
}

/// The same, where the given name is moved.
pub fn moved_name(
    alloc: Global,
    number: u32,
    given: Option<Items<u8>>,
) -> Result<Items<u8>, PlanFault>
    ensures ok { IfOk result (λ name. name ≡ spec.action_name number given) }
    ensures err { IfErr result (λ f. f ≡ no_memory) }
{
    match given {
        Some(name) => Ok(name),
        None => match name_by_number(alloc, number as usize) {
            Ok(name) => Ok(name),
            Err(_) => Err(PlanFault::no_memory(alloc)),
        },
    }
}
