//! The finding of a loop.

ghost use Rattle.std.specs.Prelude.{◌≡◌, IfOk, true};
ghost use Rattle.sy_site.specs.Sites as sites;
ghost use Rattle.sy_site.specs.machine.Findings.{IsLoop};
ghost use Rattle.sy_site.specs.Finding.{IsTrueFinding, way_of};

use std::alloc::{AllocError, Global};
use sy_script::Items;
use sy_site::finding::{Finding, Kind, WayRow};
use sy_site::{Site, SiteInput};
use sy_wire::Class;

/// The finding that a relay is met twice on a way.
pub fn looped(
    alloc: Global,
    site: &Site,
    class: Class,
    way: &[WayRow],
    end: SiteInput,
) -> Result<Finding, AllocError>
    requires protected { sites.is_protected site.now class ≡ true }
    requires met { IsLoop site.now class (way_of way.now) end }
    ensures { IfOk result (λ f. IsTrueFinding site.now f) }
{
    let _ = site;
    let way = Items::from_slice(alloc, way)?;
    Ok(Finding {
        class,
        input: end,
        way,
        kind: Kind::Loop,
    })
}
