//! Paths: occurrences that must be executed and aren't spare, from an entry to an archive. A post leads on to its list, a
//! forward to the list of the input that it leads to.

ghost use Rattle.std.specs.Prelude.{Decides};
ghost use Rattle.sy_site.specs.machine.Lawful.{IsInput};
ghost use Rattle.sy_site.specs.machine.Reach.{list_of};
ghost use Rattle.sy_fit.specs.Fit.{IsPath};
ghost use Rattle.sy_flows.specs.Hops.{AreFlows};
ghost use Rattle.sy_fit.specs.internal.Path as spec;
ghost use Rattle.sy_flows.specs.Leads.{IsThere};

use sy_flows::{ClassFlows, Executed, InnerList, has, lead_of, list_of, must_write, set_at};
use sy_site::{Site, SiteAction, SiteInput};
use sy_wire::Class;

// The same where it must be executed and isn't spare.
fn must_lead(
    site: &Site,
    class: Class,
    flows: &ClassFlows,
    at: InnerList,
    number: u32,
) -> Option<InnerList>
    requires there { IsThere site.now at }
    requires flows { AreFlows site.now class flows.now }
    ensures { spec.IsMustLead site.now class at number result }
{
    let must = set_at(site, class, &flows.lists, Executed::Must, at.relay, at.list);
    if number >= 64 {
        return None;
    }
    if !has(must, number) {
        return None;
    }
    lead_of(site, at, number)
}

// Whether occurrences are a path from a list to an archive.
fn is_path_from(
    site: &Site,
    class: Class,
    flows: &ClassFlows,
    archive: SiteAction,
    from: InnerList,
    occurrences: &[u8],
) -> bool
    requires there { IsThere site.now from }
    requires flows { AreFlows site.now class flows.now }
    ensures { Decides result (IsPath site.now class archive from.relay from.list occurrences.now) }
{
    site.is_lawful();
    let mut at = from;
    for number in occurrences {
        match must_lead(site, class, flows, at, *number as u32) {
            Some(to) => at = to,
            None => return false,
        }
    }
    must_write(site, class, flows, archive, at)
}

/// Whether occurrences are a path from an input to an archive: each must be executed in the list where the path stands, isn't
/// spare, and leads on, and in the last list the archive must be written.
pub fn is_path(
    site: &Site,
    class: Class,
    flows: &ClassFlows,
    archive: SiteAction,
    from: SiteInput,
    occurrences: &[u8],
) -> bool
    requires there { IsInput site.now from }
    requires flows { AreFlows site.now class flows.now }
    ensures { Decides result (IsPath site.now class archive from.relay (list_of site.now from) occurrences.now) }
{
    is_path_from(
        site,
        class,
        flows,
        archive,
        list_of(site, from),
        occurrences,
    )
}
