//! The rows of a class, made as they are wanted.

ghost use Rattle.std.specs.Prelude.{[], ◌≡◌, ◌<◌, ◌++◌, ◌∷◌, Contains, IfErr, IfOk, List, OnOk, get_or, length, true};
ghost use Rattle.sy_wire.specs.declared.class.Class.{Class as AnyClass};
ghost use Rattle.sy_cert.specs.declared.row.Row.{Row as AnyRow};
ghost use Rattle.sy_cert.specs.declared.row.Row.TheVariants as row;
ghost use Rattle.sy_site.specs.Sites as sites;
ghost use Rattle.sy_site.specs.declared.site.SiteInput.{SiteInput as AnyInput};
ghost use Rattle.sy_site.specs.machine.Lawful.{IsInput};
ghost use Rattle.sy_board.specs.relay.Spares.{Scope};
ghost use Rattle.sy_site.specs.machine.Reach.{Reach, list_of};
ghost use Rattle.sy_site.specs.machine.Soundness.{AreRanks};
ghost use Rattle.sy_fit.specs.declared.rows.wanted.Wanted.{Wanted as AnyWanted};
ghost use Rattle.sy_site.specs.Finding.{IsTrueRefusal};
ghost use Rattle.sy_fit.specs.Fit as fit;
ghost use Rattle.sy_site.specs.Names as site_words;
ghost use Rattle.sy_checker.specs.internal.Made as spec;
ghost use Rattle.sy_flows.specs.Hops.{AreFlows};
ghost use Rattle.sy_checker.specs.internal.Inner as numbering;
ghost use Rattle.sy_flows.specs.Leads.{AreLeads};

use crate::archives::unmet::path_for;
use crate::inner::{RelayNumbers, number_at};
use std::alloc::{AllocError, Global};
use sy_cert::Row;
use sy_fit::Wanted;
use sy_flows::{ClassFlows, FoundLists, InnerList, input_at};
use sy_script::Items;
use sy_site::finding::Refusal;
use sy_site::laws::archives_are_those_named;
use sy_site::{Site, SiteAction, SiteInput};
use sy_wire::Class;

fn name_of(alloc: Global, site: &Site, relay: u32) -> Result<Items<u8>, AllocError>
    requires there { relay < length site.now.relays }
    ensures { IfOk result (λ name. name ≡ site_words.name_of site.now relay) }
{
    Items::from_slice(alloc, site.name(relay))
}

fn action_name(alloc: Global, site: &Site, archive: SiteAction) -> Result<Items<u8>, AllocError>
    requires there { archive.relay < length site.now.relays }
    ensures { IfOk result (λ name. name ≡ site_words.action_name site.now archive) }
{
    match site
        .plan(archive.relay)
        .actions()
        .get(archive.action as usize)
    {
        Some(action) => Items::from_slice(alloc, action.name.as_slice()),
        None => Ok(Items::new(alloc)),
    }
}

// The row of an input that is reached without spare occurrences, and is clean.
fn reach_row(alloc: Global, site: &Site, class: Class, input: SiteInput) -> Result<Row, AllocError>
    requires there { IsInput site.now input }
    requires relay { input.relay < length site.now.relays }
    requires clean { fit.IsClean site.now class input }
    ensures { IfOk result (λ r. fit.IsReachRow site.now class input r) }
{
    let relay = name_of(alloc, site, input.relay)?;
    let port = input_at(site, input).port;
    Ok(Row::Reach { relay, port })
}

// The row of another input that is reached.
fn branch_row(alloc: Global, site: &Site, input: SiteInput) -> Result<Row, AllocError>
    requires there { IsInput site.now input }
    requires relay { input.relay < length site.now.relays }
    ensures { IfOk result (λ r. fit.IsBranchRow site.now input r) }
{
    let relay = name_of(alloc, site, input.relay)?;
    let port = input_at(site, input).port;
    Ok(Row::Branch { relay, port })
}

fn rank_row(alloc: Global, site: &Site, of: u32, ranks: &[u32]) -> Result<Row, AllocError>
    requires relay { of < length site.now.relays }
    requires many { length ranks.now ≡ length site.now.relays }
    ensures { IfOk result (λ r. r ≡ row.Rank (site_words.name_of site.now of) (get_or ranks.now of 0)) }
{
    let relay = name_of(alloc, site, of)?;
    let rank = ranks[of as usize];
    Ok(Row::Rank { relay, rank })
}

fn inner_row(
    alloc: Global,
    site: &Site,
    inner: InnerList,
    numbers: &[RelayNumbers],
) -> Result<Row, AllocError>
    requires relay { inner.relay < length site.now.relays }
    ensures { IfOk result (λ r. r ≡ row.Inner (site_words.name_of site.now inner.relay) inner.list
        (numbering.number_at numbers.now inner.relay inner.list)) }
{
    let relay = name_of(alloc, site, inner.relay)?;
    let list = inner.list;
    let number = number_at(numbers, inner.relay, list);
    Ok(Row::Inner {
        relay,
        list,
        number,
    })
}

// The row of a path with these occurrences.
fn named_path(
    alloc: Global,
    site: &Site,
    class: Class,
    entry: SiteInput,
    archive: SiteAction,
    occurrences: Items<u8>,
) -> Result<Row, AllocError>
    requires there { IsInput site.now entry }
    requires relay { entry.relay < length site.now.relays }
    requires archive { archive.relay < length site.now.relays }
    requires path { fit.IsPath site.now class archive entry.relay (list_of site.now entry) occurrences }
    ensures { IfOk result (λ r. fit.IsPathRow site.now class entry archive r) }
{
    let relay = name_of(alloc, site, entry.relay)?;
    let port = input_at(site, entry).port;
    let archive_relay = name_of(alloc, site, archive.relay)?;
    let action = action_name(alloc, site, archive)?;
    Ok(Row::Path {
        relay,
        port,
        archive_relay,
        action,
        occurrences,
    })
}

// The row of the path from an entry to an archive, or the finding that there is none.
fn path_row(
    alloc: Global,
    site: &Site,
    class: Class,
    flows: &ClassFlows,
    leads: &[FoundLists],
    entry: SiteInput,
    archive: SiteAction,
) -> Result<Row, Refusal>
    requires protected { sites.is_protected site.now class ≡ true }
    requires entry { Contains site.now.entries entry }
    requires named { Contains (sites.archives site.now class) archive }
    requires there { IsInput site.now entry }
    requires relay { entry.relay < length site.now.relays }
    requires archive { archive.relay < length site.now.relays }
    requires flows { AreFlows site.now class flows.now }
    requires leads { AreLeads site.now class leads.now }
    ensures ok { IfOk result (λ r. fit.IsPathRow site.now class entry archive r) }
    ensures err { IfErr result (λ why. IsTrueRefusal site.now why) }
{
    let path = path_for(alloc, site, class, flows, leads, entry, archive)?;
    let row = named_path(alloc, site, class, entry, archive, path)?;
    Ok(row)
}

// The row that is wanted. Each input that is reached without spare occurrences is clean.
fn row_for(
    alloc: Global,
    site: &Site,
    class: Class,
    flows: &ClassFlows,
    leads: &[FoundLists],
    part: &[Wanted],
    ranks: &[u32],
    numbers: &[RelayNumbers],
    is: Wanted,
) -> Result<Row, Refusal>
    requires protected { sites.is_protected site.now class ≡ true }
    requires clean { (x : AnyInput) → Reach site.now class Scope.Firm x → fit.IsClean site.now class x }
    requires wanted { fit.AreWanted site.now class part.now }
    requires member { Contains part.now is }
    requires many { length ranks.now ≡ length site.now.relays }
    requires flows { AreFlows site.now class flows.now }
    requires leads { AreLeads site.now class leads.now }
    ensures ok { IfOk result (λ r. spec.IsMade site.now class ranks.now (numbering.number_at numbers.now) is r) }
    ensures err { IfErr result (λ why. IsTrueRefusal site.now why) }
{
    site.is_lawful();
    archives_are_those_named();
    let _ = &part;
    match is {
        Wanted::Class(of) => Ok(Row::Class(of)),
        Wanted::Reach(input) => Ok(reach_row(alloc, site, class, input)?),
        Wanted::Branch(input) => Ok(branch_row(alloc, site, input)?),
        Wanted::Rank(of) => Ok(rank_row(alloc, site, of, ranks)?),
        Wanted::Inner(inner) => Ok(inner_row(alloc, site, inner, numbers)?),
        Wanted::Path(entry, archive) => path_row(alloc, site, class, flows, leads, entry, archive),
    }
}

fn push_made(rows: &mut Vec<Row>, row: Row) -> Result<(), AllocError>
    ensures { OnOk result (rows.new.items ≡ rows.old.items ++ row ∷ []) }
{
    rows.push(row)?;
    Ok(())
}

/// The rows of a class whose inputs that are reached without spare occurrences are clean, with ranks of its relays and numbers
/// of the lists that posts lead to; the finding where an entry doesn't lead to an archive.
pub fn rows_for(
    alloc: Global,
    site: &Site,
    class: Class,
    flows: &ClassFlows,
    leads: &[FoundLists],
    part: &[Wanted],
    ranks: &[u32],
    numbers: &[RelayNumbers],
) -> Result<Vec<Row>, Refusal>
    requires protected { sites.is_protected site.now class ≡ true }
    requires clean { (x : AnyInput) → Reach site.now class Scope.Firm x → fit.IsClean site.now class x }
    requires wanted { fit.AreWanted site.now class part.now }
    requires ranks { AreRanks site.now class (λ relay. get_or ranks.now relay 0) }
    requires numbers { numbering.AreNumbers site.now class (numbering.number_at numbers.now) }
    requires many { length ranks.now ≡ length site.now.relays }
    requires flows { AreFlows site.now class flows.now }
    requires leads { AreLeads site.now class leads.now }
    ensures ok { IfOk result (λ rows. fit.AreRight site.now class part.now rows.items) }
    ensures length { IfOk result (λ rows. length rows.items ≡ length part.now) }
    ensures err { IfErr result (λ why. IsTrueRefusal site.now why) }
{
    let mut rows = Vec::new(alloc);
    for is in part {
        let row = row_for(alloc, site, class, flows, leads, part, ranks, numbers, *is)?;
        push_made(&mut rows, row)?;
    }
    Ok(rows)
}

/// The rows of a class behind those of the classes before it are fit for all of them. It does nothing; its contract is
/// the law.
pub fn parts_join()
    ensures { (site : sites.Site) (classes : List AnyClass) (class : AnyClass) (part : List AnyWanted)
        (rows more : List AnyRow) → fit.AreFit site classes rows → fit.AreWanted site class part
        → fit.AreRight site class part more → length more ≡ length part
        → fit.AreFit site (classes ++ class ∷ []) (rows ++ more) }
{}
