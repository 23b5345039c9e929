//! The findings of the kind 9, and the paths where there are none.

ghost use Rattle.std.specs.Prelude.{◌≡◌, Contains, IfErr, IfOk, true};
ghost use Rattle.sy_cert.specs.Rows.{AreOccurrences};
ghost use Rattle.sy_site.specs.Sites as sites;
ghost use Rattle.sy_site.specs.machine.Reach.{LeadsTo, list_of};
ghost use Rattle.sy_site.specs.Finding.{IsTrueFinding, IsTrueRefusal};
ghost use Rattle.sy_fit.specs.Fit.{IsPath};
ghost use Rattle.sy_flows.specs.Hops.{AreFlows};
ghost use Rattle.sy_flows.specs.Leads.{AreLeads};

use crate::archives::lead::lead;
use std::alloc::Global;
use sy_flows::{ClassFlows, FoundLists};
use sy_script::Items;
use sy_site::finding::{Finding, Kind, Refusal};
use sy_site::{Site, SiteAction, SiteInput};
use sy_wire::Class;

// The finding that an entry doesn't lead to an archive.
fn unmet(alloc: Global, site: &Site, class: Class, entry: SiteInput, archive: SiteAction) -> Finding
    requires protected { sites.is_protected site.now class ≡ true }
    requires entry { Contains site.now.entries entry }
    requires named { Contains (sites.archives site.now class) archive }
    requires leads_not { LeadsTo site.now class archive entry → ⊥ }
    ensures { IsTrueFinding site.now result }
{
    let _ = site;
    Finding {
        class,
        input: entry,
        way: Items::new(alloc),
        kind: Kind::Unmet(archive),
    }
}

/// The path from an entry to an archive that is named for the class, or the finding that there is none.
pub fn path_for(
    alloc: Global,
    site: &Site,
    class: Class,
    flows: &ClassFlows,
    leads: &[FoundLists],
    entry: SiteInput,
    archive: SiteAction,
) -> Result<Items<u8>, Refusal>
    requires protected { sites.is_protected site.now class ≡ true }
    requires entry { Contains site.now.entries entry }
    requires named { Contains (sites.archives site.now class) archive }
    requires flows { AreFlows site.now class flows.now }
    requires leads { AreLeads site.now class leads.now }
    ensures ok { IfOk result (λ path. IsPath site.now class archive entry.relay (list_of site.now entry) path
        × AreOccurrences path) }
    ensures err { IfErr result (λ why. IsTrueRefusal site.now why) }
{
    match lead(alloc, site, class, flows, leads, archive, entry)? {
        Some(path) => Ok(path),
        None => Err(Refusal::Finding(unmet(alloc, site, class, entry, archive))),
    }
}
