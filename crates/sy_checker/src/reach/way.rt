//! The ways to inputs that were found.

ghost use Rattle.std.specs.Prelude.{◌≡◌, ◌<◌, IfOk, List, Some, length, slice_get};
ghost use Rattle.sy_wire.specs.declared.class.Class.{Class as AnyClass};
ghost use Rattle.sy_site.specs.Sites.{Site as AnySite};
ghost use Rattle.sy_site.specs.declared.site.SiteInput.{SiteInput as AnyInput};
ghost use Rattle.sy_flows.specs.declared.flows.executed.Executed.{Executed as AnyExecuted};
ghost use Rattle.sy_flows.specs.Search as spec;
ghost use Rattle.sy_flows.specs.internal.Search.{GoBack};
ghost use Rattle.sy_checker.specs.internal.Search.{IsLed};

use std::alloc::{AllocError, Global};
use sy_flows::Found;
use sy_script::Items;
use sy_site::finding::WayRow;

/// The way by which the input at a place was found.
pub fn way_to(alloc: Global, found: &Found, place: usize) -> Result<Items<WayRow>, AllocError>
    requires ordered { GoBack found.now.inputs.items found.now.origins.items }
    requires within { place < length found.now.inputs.items }
    ensures { (site : AnySite) (class : AnyClass) (which : AnyExecuted) (start : List AnyInput)
        → spec.AreRooted site class which start found.now.inputs.items found.now.origins.items
        → IfOk result (λ way. (end : AnyInput) → slice_get found.now.inputs.items place ≡ Some end
        → IsLed site class which start way end) }
{
    let mut back = Vec::new(alloc);
    let mut at = place;
    while let Some(origin) = found.origins[at] {
        back.push(origin.row)?;
        at = origin.place;
    }
    back.reverse();
    Items::from_slice(alloc, back.as_slice())
}
