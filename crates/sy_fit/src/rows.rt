//! Whether a row of a certificate is the wanted one, and holds.

ghost use Rattle.std.specs.Prelude.{◌≡◌, ◌<◌, Contains, Decides, length};
ghost use Rattle.std.specs.Str.{bytes_eq};
ghost use Rattle.sy_site.specs.machine.Lawful.{IsInput};
ghost use Rattle.sy_fit.specs.Fit as fit;
ghost use Rattle.sy_site.specs.Names as site_words;
ghost use Rattle.sy_fit.specs.internal.Judging as spec;
ghost use Rattle.sy_flows.specs.Hops.{AreFlows};
ghost use Rattle.sy_flows.specs.Leads.{IsThere};

pub mod part;
pub mod wanted;

use crate::kinds::is_clean;
use crate::numbers::is_numbered;
use crate::path::is_path;
use crate::ranks::{is_above, is_name};
use crate::rows::wanted::Wanted;
use sy_cert::Row;
use sy_flows::{ClassFlows, InnerList, input_at};
use sy_site::laws::archives_are_those_named;
use sy_site::{Site, SiteAction, SiteInput};
use sy_wire::Class;

fn is_class(class: Class, given: Class) -> bool
    ensures { Decides result (given ≡ class) }
{
    given.number() == class.number()
}

// Whether a reach row names an input, and it is clean.
fn is_reach(
    site: &Site,
    class: Class,
    flows: &ClassFlows,
    input: SiteInput,
    relay: &[u8],
    port: u16,
) -> bool
    requires there { IsInput site.now input }
    requires relay { input.relay < length site.now.relays }
    requires flows { AreFlows site.now class flows.now }
    ensures { Decides result (spec.IsReach site.now class input relay.now port) }
{
    if !is_name(site, input.relay, relay) {
        return false;
    }
    if input_at(site, input).port != port {
        return false;
    }
    is_clean(site, class, flows, input)
}

// Whether a branch row names an input.
fn is_branch(site: &Site, input: SiteInput, relay: &[u8], port: u16) -> bool
    requires there { IsInput site.now input }
    requires relay { input.relay < length site.now.relays }
    ensures { Decides result (spec.NamesInput site.now input relay.now port) }
{
    if !is_name(site, input.relay, relay) {
        return false;
    }
    if input_at(site, input).port != port {
        return false;
    }
    true
}

fn is_action_name(site: &Site, archive: SiteAction, name: &[u8]) -> bool
    requires there { archive.relay < length site.now.relays }
    ensures { result ≡ bytes_eq name.now (site_words.action_name site.now archive) }
{
    match site
        .plan(archive.relay)
        .actions()
        .get(archive.action as usize)
    {
        Some(action) => name == action.name.as_slice(),
        None => name == b"".as_slice(),
    }
}

// Whether a path row names an entry and an archive.
fn names_path(
    site: &Site,
    entry: SiteInput,
    archive: SiteAction,
    relay: &[u8],
    port: u16,
    archive_relay: &[u8],
    action: &[u8],
) -> bool
    requires there { IsInput site.now entry }
    requires relay { entry.relay < length site.now.relays }
    requires archive { archive.relay < length site.now.relays }
    ensures { Decides result (spec.NamesPath site.now entry archive relay.now port archive_relay.now action.now) }
{
    if !is_name(site, entry.relay, relay) {
        return false;
    }
    if input_at(site, entry).port != port {
        return false;
    }
    if !is_name(site, archive.relay, archive_relay) {
        return false;
    }
    is_action_name(site, archive, action)
}

fn is_class_row(class: Class, row: &Row) -> bool
    ensures { Decides result (fit.IsClassRow class row.now) }
{
    match row {
        Row::Class(given) => is_class(class, *given),
        Row::Reach { .. } | Row::Branch { .. } | Row::Rank { .. } => false,
        Row::Inner { .. } | Row::Path { .. } => false,
    }
}

fn is_reach_row(site: &Site, class: Class, flows: &ClassFlows, input: SiteInput, row: &Row) -> bool
    requires there { IsInput site.now input }
    requires relay { input.relay < length site.now.relays }
    requires flows { AreFlows site.now class flows.now }
    ensures { Decides result (fit.IsReachRow site.now class input row.now) }
{
    match row {
        Row::Reach { relay, port } => is_reach(site, class, flows, input, relay.as_slice(), *port),
        Row::Class(_) | Row::Branch { .. } | Row::Rank { .. } => false,
        Row::Inner { .. } | Row::Path { .. } => false,
    }
}

fn is_branch_row(site: &Site, input: SiteInput, row: &Row) -> bool
    requires there { IsInput site.now input }
    requires relay { input.relay < length site.now.relays }
    ensures { Decides result (fit.IsBranchRow site.now input row.now) }
{
    match row {
        Row::Branch { relay, port } => is_branch(site, input, relay.as_slice(), *port),
        Row::Class(_) | Row::Reach { .. } | Row::Rank { .. } => false,
        Row::Inner { .. } | Row::Path { .. } => false,
    }
}

fn is_rank_row(
    site: &Site,
    class: Class,
    flows: &ClassFlows,
    part: &[Wanted],
    rows: &[Row],
    of: u32,
    row: &Row,
) -> bool
    requires wanted { fit.AreWanted site.now class part.now }
    requires relay { of < length site.now.relays }
    requires flows { AreFlows site.now class flows.now }
    ensures { Decides result (fit.IsRankRow site.now class part.now rows.now of row.now) }
{
    match row {
        Row::Rank { relay, rank } => {
            if !is_name(site, of, relay.as_slice()) {
                return false;
            }
            is_above(site, class, flows, part, rows, of, *rank)
        }
        Row::Class(_) | Row::Reach { .. } | Row::Branch { .. } => false,
        Row::Inner { .. } | Row::Path { .. } => false,
    }
}

// Whether an inner row names a list.
fn names_inner(site: &Site, inner: InnerList, relay: &[u8], list: u32) -> bool
    requires relay { inner.relay < length site.now.relays }
    ensures { Decides result (spec.NamesInner site.now inner relay.now list) }
{
    if !is_name(site, inner.relay, relay) {
        return false;
    }
    list == inner.list
}

fn is_inner_row(
    site: &Site,
    class: Class,
    flows: &ClassFlows,
    part: &[Wanted],
    rows: &[Row],
    inner: InnerList,
    row: &Row,
) -> bool
    requires wanted { fit.AreWanted site.now class part.now }
    requires there { IsThere site.now inner }
    requires flows { AreFlows site.now class flows.now }
    ensures { Decides result (fit.IsInnerRow site.now class part.now rows.now inner row.now) }
{
    match row {
        Row::Inner {
            relay,
            list,
            number,
        } => {
            if !names_inner(site, inner, relay.as_slice(), *list) {
                return false;
            }
            is_numbered(site, class, flows, part, rows, inner, *number)
        }
        Row::Class(_) | Row::Reach { .. } | Row::Branch { .. } => false,
        Row::Rank { .. } | Row::Path { .. } => false,
    }
}

fn is_path_row(
    site: &Site,
    class: Class,
    flows: &ClassFlows,
    entry: SiteInput,
    archive: SiteAction,
    row: &Row,
) -> bool
    requires there { IsInput site.now entry }
    requires relay { entry.relay < length site.now.relays }
    requires archive { archive.relay < length site.now.relays }
    requires flows { AreFlows site.now class flows.now }
    ensures { Decides result (fit.IsPathRow site.now class entry archive row.now) }
{
    match row {
        Row::Path {
            relay,
            port,
            archive_relay,
            action,
            occurrences,
        } => {
            let (relay, archive_relay) = (relay.as_slice(), archive_relay.as_slice());
            let (action, occurrences) = (action.as_slice(), occurrences.as_slice());
            if !names_path(site, entry, archive, relay, *port, archive_relay, action) {
                return false;
            }
            is_path(site, class, flows, archive, entry, occurrences)
        }
        Row::Class(_) | Row::Reach { .. } | Row::Branch { .. } => false,
        Row::Rank { .. } | Row::Inner { .. } => false,
    }
}

/// Whether a row is the wanted one, and holds.
pub fn is_right(
    site: &Site,
    class: Class,
    flows: &ClassFlows,
    part: &[Wanted],
    rows: &[Row],
    is: Wanted,
    row: &Row,
) -> bool
    requires wanted { fit.AreWanted site.now class part.now }
    requires member { Contains part.now is }
    requires flows { AreFlows site.now class flows.now }
    ensures { Decides result (fit.IsRight site.now class part.now rows.now is row.now) }
{
    site.is_lawful();
    archives_are_those_named();
    match is {
        Wanted::Class(of) => is_class_row(of, row),
        Wanted::Reach(input) => is_reach_row(site, class, flows, input, row),
        Wanted::Branch(input) => is_branch_row(site, input, row),
        Wanted::Rank(of) => is_rank_row(site, class, flows, part, rows, of, row),
        Wanted::Inner(inner) => is_inner_row(site, class, flows, part, rows, inner, row),
        Wanted::Path(entry, archive) => is_path_row(site, class, flows, entry, archive, row),
    }
}
