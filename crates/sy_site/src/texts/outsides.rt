//! The receivers that aren't Syc's, of a site file's lines.

ghost use Rattle.std.specs.Prelude.{◌≡◌, ◌∷◌, ◌++◌, [], map, IfErr, IfOk, OnOk};
ghost use Rattle.sy_site.specs.internal.Lines.{outside_of};
ghost use Rattle.sy_site.specs.internal.Reading.{line_given};
ghost use Rattle.sy_site.specs.texts.Describes.{outside_lines};

use crate::fault::SiteFault;
use crate::site::host::Outside;
use crate::texts::hosts::kept_host;
use crate::texts::reading::Given;
use crate::texts::relays::push_item;
use crate::texts::shapes::{Line, OutsideLine};
use std::alloc::{AllocError, Global};
use sy_script::Items;

// The receiver of a line.
fn receiver(alloc: Global, line: &OutsideLine<'_>) -> Result<Outside, AllocError>
    ensures { IfOk result (λ it. it ≡ outside_of line.now) }
{
    Ok(Outside {
        name: Items::from_slice(alloc, line.name)?,
        host: kept_host(alloc, line.host)?,
        port: line.port,
    })
}

// Puts the receiver of a line behind the others, where it is an outside line.
fn push_outside(
    alloc: Global,
    outsides: &mut Vec<Outside>,
    given: &Given<'_>,
) -> Result<(), SiteFault>
    ensures outsides { OnOk result (outsides.new.items ≡ outsides.old.items ++ outside_lines (line_given given.now ∷ [])) }
    ensures err { IfErr result (λ fault. fault ≡ SiteFault.NoMemory) }
{
    let Line::Outside(line) = &given.line else {
        return Ok(());
    };
    match receiver(alloc, line) {
        Ok(receiver) => push_item(outsides, receiver),
        Err(_) => Err(SiteFault::NoMemory),
    }
}

/// The receivers of the outside lines of a text.
pub fn outsides(alloc: Global, found: &[Given<'_>]) -> Result<Vec<Outside>, SiteFault>
    ensures outsides { IfOk result (λ outsides. outsides.items ≡ outside_lines (map line_given found.now)) }
    ensures err { IfErr result (λ fault. fault ≡ SiteFault.NoMemory) }
{
    let mut outsides = Vec::new(alloc);
    for given in found {
        push_outside(alloc, &mut outsides, given)?;
    }
    Ok(outsides)
}
