//! The rows that a site's certificate has to have.

ghost use Rattle.std.specs.Prelude.{◌≡◌, ◌++◌, ◌↔◌, Contains, flat_map, map, IfOk, OnOk};
ghost use Rattle.std.specs.List.{list_any};
ghost use Rattle.sy_site.specs.Sites as sites;
ghost use Rattle.sy_site.specs.declared.site.SiteInput.{SiteInput as AnyInput};
ghost use Rattle.sy_board.specs.relay.Spares.{Scope};
ghost use Rattle.sy_site.specs.machine.Reach.{Reach};
ghost use Rattle.sy_fit.specs.Fit.{AreWanted};
ghost use Rattle.sy_flows.specs.Hops.{AreFlows};
ghost use Rattle.sy_fit.specs.internal.Order.{AddsArchive};
ghost use Rattle.sy_fit.specs.Verifying.{kind_words};
ghost use Rattle.sy_fit.specs.declared.rows.wanted.Wanted.TheVariants as spec;

use crate::inners::inners_of;
use crate::order::{relays_of, rest, sorted};
use std::alloc::{AllocError, Global};
use sy_flows::{ClassFlows, InnerList};
use sy_site::{Protection, Site, SiteAction, SiteInput};
use sy_wire::Class;

/// What a row of a certificate has to be about, for the class of the rows around it.
#[derive(Clone, Copy)]
pub enum Wanted {
    /// the class itself
    Class(Class),
    /// an input that the class reaches without spare occurrences
    Reach(SiteInput),
    /// another input that it reaches
    Branch(SiteInput),
    /// a relay with a reached input
    Rank(u32),
    /// a list that posts lead to from an input that is reached without spare occurrences
    Inner(InnerList),
    /// the way from an entry to an archive that is named for the class
    Path(SiteInput, SiteAction),
}

/// The kinds of a certificate's rows, and of its first line.
#[derive(Clone, Copy, Debug, PartialEq, Eq)]
pub enum RowKind {
    Class,
    Reach,
    Branch,
    Rank,
    Inner,
    Path,
    Cert,
}

impl RowKind {
    /// The word that such rows begin with, as `reach`.
    pub fn words(self) -> &'static str
        ensures { result.now ≡ kind_words self }
    {
        match self {
            RowKind::Class => "class",
            RowKind::Reach => "reach",
            RowKind::Branch => "branch",
            RowKind::Rank => "rank",
            RowKind::Inner => "inner",
            RowKind::Path => "path",
            RowKind::Cert => "cert",
        }
    }
}

fn is_among(archives: &[SiteAction], archive: SiteAction) -> bool
    ensures { result ≡ list_any (sites.same_action archive) archives.now }
{
    archives
        .iter()
        .any(|a| archive.relay == a.relay && archive.action == a.action)
}

// Puts the archive of a protect line that asks for the class behind the others, where it isn't one of them.
fn push_archive(
    protection: &Protection,
    class: Class,
    found: &mut Vec<SiteAction>,
) -> Result<(), AllocError>
    ensures { OnOk result (AddsArchive protection.now class found.old.items found.new.items) }
{
    if !protection.selector.matches(class) {
        return Ok(());
    }
    if is_among(found.as_slice(), protection.archive) {
        return Ok(());
    }
    found.push(protection.archive)?;
    Ok(())
}

/// The archives that are named for a class, in the order of the file.
pub fn archives(alloc: Global, site: &Site, class: Class) -> Result<Vec<SiteAction>, AllocError>
    ensures { IfOk result (λ found. found.items ≡ sites.archives site.now class) }
{
    let mut found = Vec::new(alloc);
    for protection in site.protections() {
        push_archive(protection, class, &mut found)?;
    }
    Ok(found)
}

fn push_inputs(part: &mut Vec<Wanted>, inputs: &[SiteInput]) -> Result<(), AllocError>
    ensures { OnOk result (part.new.items ≡ part.old.items ++ map spec.Reach inputs.now) }
{
    for input in inputs {
        part.push(Wanted::Reach(*input))?;
    }
    Ok(())
}

fn push_branches(part: &mut Vec<Wanted>, inputs: &[SiteInput]) -> Result<(), AllocError>
    ensures { OnOk result (part.new.items ≡ part.old.items ++ map spec.Branch inputs.now) }
{
    for input in inputs {
        part.push(Wanted::Branch(*input))?;
    }
    Ok(())
}

fn push_relays(part: &mut Vec<Wanted>, relays: &[u32]) -> Result<(), AllocError>
    ensures { OnOk result (part.new.items ≡ part.old.items ++ map spec.Rank relays.now) }
{
    for relay in relays {
        part.push(Wanted::Rank(*relay))?;
    }
    Ok(())
}

fn push_inners(part: &mut Vec<Wanted>, inners: &[InnerList]) -> Result<(), AllocError>
    ensures { OnOk result (part.new.items ≡ part.old.items ++ map spec.Inner inners.now) }
{
    for inner in inners {
        part.push(Wanted::Inner(*inner))?;
    }
    Ok(())
}

// Puts a path from an entry to each archive.
fn push_paths(
    part: &mut Vec<Wanted>,
    entry: SiteInput,
    archives: &[SiteAction],
) -> Result<(), AllocError>
    ensures { OnOk result (part.new.items ≡ part.old.items ++ map (λ a. spec.Path entry a) archives.now) }
{
    for archive in archives {
        part.push(Wanted::Path(entry, *archive))?;
    }
    Ok(())
}

fn push_all_paths(
    part: &mut Vec<Wanted>,
    entries: &[SiteInput],
    archives: &[SiteAction],
) -> Result<(), AllocError>
    ensures { OnOk result (part.new.items
        ≡ part.old.items ++ flat_map (λ entry. map (λ a. spec.Path entry a) archives.now) entries.now) }
{
    for entry in entries {
        push_paths(part, *entry, archives)?;
    }
    Ok(())
}

/// The rows that are wanted for a class, which reaches the first of these inputs without spare occurrences, and with them
/// the second.
pub fn wanted_rows(
    alloc: Global,
    site: &Site,
    class: Class,
    flows: &ClassFlows,
    firm: &[SiteInput],
    every: &[SiteInput],
) -> Result<Vec<Wanted>, AllocError>
    requires firm { (x : AnyInput) → Contains firm.now x ↔ Reach site.now class Scope.Firm x }
    requires every { (x : AnyInput) → Contains every.now x ↔ Reach site.now class Scope.Every x }
    requires flows { AreFlows site.now class flows.now }
    ensures { IfOk result (λ part. AreWanted site.now class part.items) }
{
    site.is_lawful();
    let inputs = sorted(alloc, site, firm)?;
    let branches = rest(alloc, site, every, firm)?;
    let relays = relays_of(alloc, site, every)?;
    let inners = inners_of(alloc, site, class, flows, firm)?;
    let archives = archives(alloc, site, class)?;
    let mut part = Vec::new(alloc);
    part.push(Wanted::Class(class))?;
    push_inputs(&mut part, inputs.as_slice())?;
    push_branches(&mut part, branches.as_slice())?;
    push_relays(&mut part, relays.as_slice())?;
    push_inners(&mut part, inners.as_slice())?;
    push_all_paths(&mut part, site.entries(), archives.as_slice())?;
    Ok(part)
}
