//! Whose files are, by the names of accounts that a relay's file gives.

ghost use Rattle.std.specs.Prelude.{◌≡◌, ◌++◌, IfOk, OnOk, flat_map, map};
ghost use Rattle.std.specs.Option.{option_copied};
ghost use Rattle.sy_rules.specs.items.ItemViews.{item as view};
ghost use Rattle.sy_host_parameters.specs.HostParameters.{holder_of_action as holder};
ghost use Rattle.sy_host_parameters.specs.Hosts as spec;

use crate::given::{holder_of_action, value_given};
use crate::rows::Holder;
use crate::values::is_name;
use std::alloc::{AllocError, Global};
use sy_rules::Item;
use sy_script::tree::Param;

/// The names of the owner and of the group of a file, where it is made; none of one that isn't given by its name.
#[derive(Drop)]
pub struct ArchiveNames {
    owner: Option<Vec<u8>>,
    group: Option<Vec<u8>>,
}

fn bytes_of(name: &Option<Vec<u8>>) -> Option<&[u8]>
    ensures { option_copied result ≡ spec.bytes_of name.now }
{
    match name {
        Some(bytes) => Some(bytes.as_slice()),
        None => None,
    }
}

impl ArchiveNames {
    /// The name of the owner.
    pub fn owner(&self) -> Option<&[u8]>
        ensures { option_copied result ≡ spec.bytes_of self.now.owner }
    {
        bytes_of(&self.owner)
    }

    /// The name of the group.
    pub fn group(&self) -> Option<&[u8]>
        ensures { option_copied result ≡ spec.bytes_of self.now.group }
    {
        bytes_of(&self.group)
    }
}

// The name of an account that these parameters give.
fn name_in(alloc: Global, name: &[u8], params: &[Param]) -> Result<Option<Vec<u8>>, AllocError>
    ensures { IfOk result (λ it. spec.bytes_of it ≡ spec.name_in name.now params.now) }
{
    match value_given(params, name) {
        Some(value) if is_name(value) => {
            let mut bytes = Vec::new(alloc);
            bytes.extend_from_slice(value)?;
            Ok(Some(bytes))
        }
        _ => Ok(None),
    }
}

// The names that an action of these parameters gives.
fn names_by(alloc: Global, params: &[Param]) -> Result<ArchiveNames, AllocError>
    ensures { IfOk result (λ it. spec.named_of it ≡ spec.named_by (holder params.now) params.now) }
{
    match holder_of_action(params) {
        Holder::Archive => Ok(ArchiveNames {
            owner: name_in(alloc, b"fileOwner", params)?,
            group: name_in(alloc, b"fileGroup", params)?,
        }),
        Holder::Receiver | Holder::Other => Ok(ArchiveNames {
            owner: None,
            group: None,
        }),
    }
}

// Appends those of the action that an item is, where it is one.
fn append_names(
    alloc: Global,
    all: &mut Vec<ArchiveNames>,
    item: Item<'_>,
) -> Result<(), AllocError>
    ensures { OnOk result (map spec.named_of all.new.items ≡ map spec.named_of all.old.items ++ spec.named_in (view item.entry)) }
{
    match item {
        Item::Action(_, params) => {
            all.push(names_by(alloc, params)?)?;
            Ok(())
        }
        Item::Object(_, _, _) | Item::Ruleset(_, _) | Item::Call(_, _) | Item::Test(_) => Ok(()),
    }
}

/// Those of each action among these items, in the order of the text.
pub fn names_of(alloc: Global, items: &[Item<'_>]) -> Result<Vec<ArchiveNames>, AllocError>
    ensures { IfOk result (λ all. map spec.named_of all.items ≡ flat_map spec.named_in (map view items.now)) }
{
    let mut all = Vec::new(alloc);
    let mut rest = items;
    while let [item, after @ ..] = rest {
        append_names(alloc, &mut all, *item)?;
        rest = after;
    }
    Ok(all)
}
