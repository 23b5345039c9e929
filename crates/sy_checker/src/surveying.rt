//! All that is found in a site: of each protected class each kind at each input that it reaches without spare occurrences,
//! a loop, and each archive that an entry doesn't lead to.

ghost use Rattle.std.specs.Prelude.{[], ◌≡◌, ◌↔◌, ◌⊎◌, Contains, Decides, IfOk, OnOk, true};
ghost use Rattle.sy_site.specs.Sites as sites;
ghost use Rattle.sy_site.specs.declared.site.SiteInput.{SiteInput as AnyInput};
ghost use Rattle.sy_site.specs.declared.site.SiteAction.{SiteAction as AnyAction};
ghost use Rattle.sy_site.specs.machine.Findings.{HoldsAt};
ghost use Rattle.sy_board.specs.relay.Spares.{Scope};
ghost use Rattle.sy_site.specs.machine.Reach.{LeadsTo, Reach};
ghost use Rattle.sy_site.specs.machine.Soundness.{IsSound};
ghost use Rattle.sy_wire.specs.declared.class.Class.{Class as AnyClass};
ghost use Rattle.sy_flows.specs.Leads.{AreLeads};
ghost use Rattle.sy_site.specs.Finding.{kind_of};
ghost use Rattle.sy_flows.specs.Flows.{AreFirm};
ghost use Rattle.sy_flows.specs.Hops.{AreFlows};
ghost use Rattle.sy_checker.specs.internal.Loops.{HasNoRanks};
ghost use Rattle.sy_flows.specs.Walks.{AreWalks, IsWalk};
ghost use Rattle.sy_checker.specs.Survey as spec;
ghost use Rattle.sy_checker.specs.internal.Survey as inside;
ghost use Rattle.sy_site.specs.declared.finding.Kind.TheVariants as kinds;

use crate::archives::lead::lead;
use crate::kinds::groups::{Gathered, Group, nothing_gathered, push_found};
use crate::kinds::reported::{push_inner_loops, push_inputs};
use crate::laws::sites_without_a_finding_are_sound;
use crate::reach::loops::{Unranked, ranks_of};
use std::alloc::{AllocError, Global};
use sy_fit::{archives, protected_classes, sorted};
use sy_flows::{ClassFlows, FoundLists, SiteFirm, Walk, firm_of, walk_for};
use sy_site::finding::Kind;
use sy_site::machine::sound_sites_have_no_finding;
use sy_site::{Site, SiteAction, SiteInput};
use sy_wire::Class;

// Puts a loop, where there are no ranks.
fn push_looped(
    alloc: Global,
    site: &Site,
    class: Class,
    why: Unranked,
    found: &mut Gathered,
) -> Result<(), AllocError>
    requires protected { sites.is_protected site.now class ≡ true }
    requires none { HasNoRanks site.now class why }
    ensures reports { OnOk result (inside.Reports site.now class inside.IsNothing
        found.old.groups.items found.new.groups.items) }
    ensures reported { OnOk result
        ((input : AnyInput) × spec.Names found.new.groups.items class input kinds.Loop) }
{
    let _ = site;
    match why {
        Unranked::NoMemory => Err(AllocError),
        Unranked::Loop(_way, end) => push_found(alloc, found, class, end, Kind::Loop),
    }
}

// Puts the loop that is met first, or there are ranks.
fn push_loop(
    alloc: Global,
    site: &Site,
    class: Class,
    flows: &ClassFlows,
    reached: &[SiteInput],
    found: &mut Gathered,
) -> Result<(), AllocError>
    requires protected { sites.is_protected site.now class ≡ true }
    requires flows { AreFlows site.now class flows.now }
    requires reached { (x : AnyInput) → Contains reached.now x ↔ Reach site.now class Scope.Every x }
    ensures reports { OnOk result (inside.Reports site.now class inside.IsNothing
        found.old.groups.items found.new.groups.items) }
    ensures ranked { OnOk result (spec.HasRanks site.now class
        ⊎ ((input : AnyInput) × spec.Names found.new.groups.items class input kinds.Loop)) }
{
    match ranks_of(alloc, site, class, flows, reached) {
        Ok(_) => Ok(()),
        Err(why) => push_looped(alloc, site, class, why, found),
    }
}

// Whether an entry leads to an archive that is named for the class.
fn leads_to(
    alloc: Global,
    site: &Site,
    class: Class,
    flows: &ClassFlows,
    leads: &[FoundLists],
    entry: SiteInput,
    archive: SiteAction,
) -> Result<bool, AllocError>
    requires flows { AreFlows site.now class flows.now }
    requires leads { AreLeads site.now class leads.now }
    requires entry { Contains site.now.entries entry }
    ensures { IfOk result (λ leads. Decides leads (LeadsTo site.now class archive entry)) }
{
    let path = lead(alloc, site, class, flows, leads, archive, entry)?;
    Ok(path.is_some())
}

// Puts that an entry doesn't lead to an archive, where it doesn't.
fn push_unmet(
    alloc: Global,
    site: &Site,
    class: Class,
    flows: &ClassFlows,
    leads: &[FoundLists],
    entry: SiteInput,
    archive: SiteAction,
    found: &mut Gathered,
) -> Result<(), AllocError>
    requires protected { sites.is_protected site.now class ≡ true }
    requires flows { AreFlows site.now class flows.now }
    requires leads { AreLeads site.now class leads.now }
    requires entry { Contains site.now.entries entry }
    requires named { Contains (sites.archives site.now class) archive }
    ensures { OnOk result (inside.Reports site.now class (inside.IsUnmetBy site.now class entry archive)
        found.old.groups.items found.new.groups.items) }
{
    if leads_to(alloc, site, class, flows, leads, entry, archive)? {
        return Ok(());
    }
    push_found(alloc, found, class, entry, Kind::Unmet(archive))?;
    Ok(())
}

// The same for each of some archives.
fn push_archives(
    alloc: Global,
    site: &Site,
    class: Class,
    flows: &ClassFlows,
    leads: &[FoundLists],
    entry: SiteInput,
    archives: &[SiteAction],
    found: &mut Gathered,
) -> Result<(), AllocError>
    requires protected { sites.is_protected site.now class ≡ true }
    requires flows { AreFlows site.now class flows.now }
    requires leads { AreLeads site.now class leads.now }
    requires entry { Contains site.now.entries entry }
    requires named { (a : AnyAction) → Contains archives.now a → Contains (sites.archives site.now class) a }
    ensures { OnOk result (inside.Reports site.now class
        (λ i j. inside.Among archives.now (λ archive. inside.IsUnmetBy site.now class entry archive i j))
        found.old.groups.items found.new.groups.items) }
{
    for archive in archives {
        push_unmet(alloc, site, class, flows, leads, entry, *archive, found)?;
    }
    Ok(())
}

// The same for each of some entries.
fn push_entries(
    alloc: Global,
    site: &Site,
    class: Class,
    flows: &ClassFlows,
    leads: &[FoundLists],
    entries: &[SiteInput],
    archives: &[SiteAction],
    found: &mut Gathered,
) -> Result<(), AllocError>
    requires protected { sites.is_protected site.now class ≡ true }
    requires flows { AreFlows site.now class flows.now }
    requires leads { AreLeads site.now class leads.now }
    requires entries { (x : AnyInput) → Contains entries.now x → Contains site.now.entries x }
    requires named { (a : AnyAction) → Contains archives.now a → Contains (sites.archives site.now class) a }
    ensures { OnOk result (inside.Reports site.now class (λ i j. inside.Among entries.now (λ entry. inside.Among archives.now
        (λ archive. inside.IsUnmetBy site.now class entry archive i j)))
        found.old.groups.items found.new.groups.items) }
{
    for entry in entries {
        push_archives(alloc, site, class, flows, leads, *entry, archives, found)?;
    }
    Ok(())
}

// Puts each archive that is named for the class at each entry that doesn't lead to it.
fn push_all_unmet(
    alloc: Global,
    site: &Site,
    class: Class,
    walk: &Walk,
    found: &mut Gathered,
) -> Result<(), AllocError>
    requires protected { sites.is_protected site.now class ≡ true }
    requires walk { IsWalk site.now class walk.now }
    ensures { OnOk result (inside.Reports site.now class (λ i j. inside.Among site.now.entries (λ entry.
        inside.Among (sites.archives site.now class) (λ archive. inside.IsUnmetBy site.now class entry archive i j)))
        found.old.groups.items found.new.groups.items) }
{
    let named = archives(alloc, site, class)?;
    push_entries(
        alloc,
        site,
        class,
        &walk.flows,
        walk.leads.as_slice(),
        site.entries(),
        named.as_slice(),
        found,
    )?;
    Ok(())
}

// Puts each of the kinds 1 to 7 at each input that the class reaches without spare occurrences, a loop of relays, and each
// such input from which on a list is met twice.
fn push_reached(
    alloc: Global,
    site: &Site,
    class: Class,
    walk: &Walk,
    found: &mut Gathered,
) -> Result<(), AllocError>
    requires protected { sites.is_protected site.now class ≡ true }
    requires walk { IsWalk site.now class walk.now }
    ensures reports { OnOk result (inside.Reports site.now class
        (λ i j. Reach site.now class Scope.Firm i × HoldsAt site.now class i (kind_of j))
        found.old.groups.items found.new.groups.items) }
    ensures ranked { OnOk result (spec.HasRanks site.now class
        ⊎ ((input : AnyInput) × spec.Names found.new.groups.items class input kinds.Loop)) }
{
    site.is_lawful();
    let inputs = sorted(alloc, site, walk.firm.as_slice())?;
    push_inputs(alloc, site, class, &walk.flows, inputs.as_slice(), found)?;
    push_loop(
        alloc,
        site,
        class,
        &walk.flows,
        walk.every.as_slice(),
        found,
    )?;
    push_inner_loops(alloc, site, class, &walk.flows, inputs.as_slice(), found)?;
    Ok(())
}

// Puts all that is found of a class.
fn push_all(
    alloc: Global,
    site: &Site,
    class: Class,
    walk: &Walk,
    found: &mut Gathered,
) -> Result<(), AllocError>
    requires protected { sites.is_protected site.now class ≡ true }
    requires walk { IsWalk site.now class walk.now }
    ensures reports { OnOk result (inside.Reports site.now class inside.IsNothing
        found.old.groups.items found.new.groups.items) }
    ensures reported { OnOk result (spec.IsReportedOf site.now class found.new.groups.items) }
{
    push_reached(alloc, site, class, walk, found)?;
    push_all_unmet(alloc, site, class, walk, found)?;
    Ok(())
}

// The same, with what the class executes and reaches, which is worked out once for all classes that execute the same.
fn push_next(
    alloc: Global,
    site: &Site,
    class: Class,
    firm: &SiteFirm,
    walks: &mut Vec<Walk>,
    found: &mut Gathered,
) -> Result<(), AllocError>
    requires protected { sites.is_protected site.now class ≡ true }
    requires firm { AreFirm site.now firm.now }
    requires walks { AreWalks site.now walks.old.items }
    ensures walks { OnOk result (AreWalks site.now walks.new.items) }
    ensures reports { OnOk result (inside.Reports site.now class inside.IsNothing
        found.old.groups.items found.new.groups.items) }
    ensures reported { OnOk result (spec.IsReportedOf site.now class found.new.groups.items) }
{
    let place = walk_for(alloc, site, class, firm, walks)?;
    let walk = &walks[place];
    push_all(alloc, site, class, walk, found)?;
    Ok(())
}

// All that is found of some classes.
fn survey_of(alloc: Global, site: &Site, classes: &[Class]) -> Result<Vec<Group>, AllocError>
    requires protected { (class : AnyClass) → Contains classes.now class
        → sites.is_protected site.now class ≡ true }
    ensures { IfOk result (λ groups. spec.IsSurveyOf site.now (Contains classes.now) groups.items) }
{
    let firm = firm_of(alloc, site)?;
    let mut walks = Vec::new(alloc);
    let mut found = nothing_gathered(alloc);
    for class in classes {
        push_next(alloc, site, *class, &firm, &mut walks, &mut found)?;
    }
    Ok(found.groups)
}

// All that is found of the protected classes.
fn survey_all(alloc: Global, site: &Site) -> Result<Vec<Group>, AllocError>
    ensures { IfOk result (λ groups. spec.IsSurvey site.now groups.items) }
{
    let classes = protected_classes(alloc, site)?;
    let groups = survey_of(alloc, site, classes.as_slice())?;
    Ok(groups)
}

/// All that is found in a site, in groups: of each protected class each of the kinds 1 to 7 that holds at an input that
/// it reaches without spare occurrences, a loop of relays where there are no ranks, each such input from which on a list is
/// met twice, and each entry with each named archive that it doesn't lead to. Nothing is found exactly in a sound site. Want of
/// memory is the only refusal.
///
/// The groups stand in the order in which they are met: classes by rising number, of each its inputs in the order of the
/// site with the kinds 1 to 7 by number, then the loop of relays, then the inputs with a loop of lists, then entries and
/// archives in the order of the file.
pub fn survey(alloc: Global, site: &Site) -> Result<Vec<Group>, AllocError>
    ensures survey { IfOk result (λ groups. spec.IsSurvey site.now groups.items) }
    ensures sound { IfOk result (λ groups. groups.items ≡ [] → IsSound site.now) }
    ensures found { IfOk result (λ groups. IsSound site.now → groups.items ≡ []) }
{
    site.is_lawful();
    sites_without_a_finding_are_sound();
    sound_sites_have_no_finding();
    let groups = survey_all(alloc, site)?;
    Ok(groups)
}
