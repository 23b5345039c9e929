//! What the new site of a change lost: archives and entries, and what is found in it that wasn't found in the old one.
ghost use Rattle.std.specs.Prelude.{◌≡◌, ◌&&◌, IfOk, true};
ghost use Rattle.std.specs.List.{list_all, list_any};
ghost use Rattle.sy_site.specs.machine.Lawful.{IsLawful};
ghost use Rattle.sy_site.specs.machine.Soundness.{IsSound};
ghost use Rattle.sy_diff.specs.declared.same.Change.{Change as AnyChange};
ghost use Rattle.sy_diff.specs.declared.comparison.Comparison.{Comparison as AnyComparison};
ghost use Rattle.sy_diff.specs.Changes as spec;
ghost use Rattle.sy_diff.specs.Comparisons as compared;

use crate::same::{is_among, is_same_action, is_same_input, is_same_instance};
pub use crate::same::{Change, Rename};
use std::alloc::{AllocError, Global};
use sy_checker::survey;
use sy_findings::verdicts::instances::{Instance, instances_of};
use sy_fit::{archives, protected_classes};
use sy_site::machine::sound_sites_have_no_finding;
use sy_site::{Site, SiteAction, SiteInput};
use sy_wire::Class;

/// A protected class of the old site, with those of its archives that aren't named for it in the new one.
#[derive(Drop)]
pub struct LostArchives {
    pub class: Class,
    pub archives: Vec<SiteAction>,
}

/// What was lost, by the numbers of the old site, and what is found in the new one.
#[derive(Drop)]
pub struct Comparison {
    /// Of each class that the old site protects.
    pub archives: Vec<LostArchives>,
    /// The entries of the old site that are none of the new one.
    pub entries: Vec<SiteInput>,
    /// Its whole entries that are no whole ones of the new one.
    pub whole: Vec<SiteInput>,
    /// What is found in the new site, each with those of its classes of which it wasn't found in the old one.
    pub found: Vec<Instance>,
}

// Whether an archive of the old site is one of these of the new one.
fn is_named(change: Change<'_>, archive: SiteAction, others: &[SiteAction]) -> bool
    ensures { result ≡ list_any (λ other. spec.is_same_action change.entry archive other) others.now }
{
    others
        .iter()
        .any(|other| is_same_action(change, archive, *other))
}

// The archives of a class that are lost.
fn lost_archives(
    alloc: Global,
    change: Change<'_>,
    class: Class,
) -> Result<Vec<SiteAction>, AllocError>
    ensures { IfOk result (λ lost. lost.items ≡ spec.lost_archives change.entry class) }
{
    let before = archives(alloc, change.old, class)?;
    let after = archives(alloc, change.new, class)?;
    let others = after.as_slice();
    before
        .iter()
        .copied()
        .filter(|archive| !is_named(change, *archive, others))
        .collect(alloc)
}

// The same of each class that the old site protects.
fn all_lost_archives(alloc: Global, change: Change<'_>) -> Result<Vec<LostArchives>, AllocError>
    ensures { IfOk result (λ lost. compared.AreLostArchives change.entry lost.items) }
{
    let classes = protected_classes(alloc, change.old)?;
    let mut lost = Vec::new(alloc);
    for class in &classes {
        let archives = lost_archives(alloc, change, *class)?;
        lost.push(LostArchives {
            class: *class,
            archives,
        })?;
    }
    Ok(lost)
}

// Whether an entry of the old site is one of the new one.
fn is_entry(change: Change<'_>, entry: SiteInput) -> bool
    ensures { result ≡ list_any (λ other. spec.is_same_input change.entry entry other) change.entry.new.now.entries }
{
    change
        .new
        .entries()
        .iter()
        .any(|other| is_same_input(change, entry, *other))
}

// Whether an entry of the old site is a whole one of the new one.
fn is_whole_entry(change: Change<'_>, entry: SiteInput) -> bool
    ensures { result ≡ list_any (λ other. spec.is_whole_after change.entry entry other) change.entry.new.now.entries }
{
    change.new.entries().iter().any(|other| is_same_input(change, entry, *other)
        && change.new.is_whole(*other))
}

// The entries that are lost.
fn lost_entries(alloc: Global, change: Change<'_>) -> Result<Vec<SiteInput>, AllocError>
    ensures { IfOk result (λ lost. lost.items ≡ spec.lost_entries change.entry) }
{
    change
        .old
        .entries()
        .iter()
        .copied()
        .filter(|entry| !is_entry(change, *entry))
        .collect(alloc)
}

// The whole entries that are lost.
fn lost_whole(alloc: Global, change: Change<'_>) -> Result<Vec<SiteInput>, AllocError>
    ensures { IfOk result (λ lost. lost.items ≡ spec.lost_whole change.entry) }
{
    change
        .old
        .entries()
        .iter()
        .copied()
        .filter(|entry| change.old.is_whole(*entry) && !is_whole_entry(change, *entry))
        .collect(alloc)
}

// Whether the old site has a finding of the new one, for a class.
fn is_told(change: Change<'_>, before: &[Instance], instance: &Instance, class: Class) -> bool
    ensures { result ≡ spec.is_told change.entry before.now instance.now class }
{
    before.iter().any(|other| {
        is_same_instance(change, other, instance) && is_among(other.classes.as_slice(), class)
    })
}

// The classes of a finding of the new site of which the old one hasn't it.
fn new_classes(
    alloc: Global,
    change: Change<'_>,
    before: &[Instance],
    instance: &Instance,
) -> Result<Vec<Class>, AllocError>
    ensures { IfOk result (λ classes. classes.items ≡ spec.new_classes change.entry before.now instance.now) }
{
    instance
        .classes
        .iter()
        .copied()
        .filter(|class| !is_told(change, before, instance, *class))
        .collect(alloc)
}

// Each finding of the new site with the classes of which the old one hasn't it.
fn new_findings(
    alloc: Global,
    change: Change<'_>,
    before: &[Instance],
    after: &[Instance],
) -> Result<Vec<Instance>, AllocError>
    ensures { IfOk result (λ found. compared.AreNew change.entry before.now after.now found.items) }
{
    let mut found = Vec::new(alloc);
    for instance in after {
        let classes = new_classes(alloc, change, before, instance)?;
        found.push(Instance {
            input: instance.input,
            kind: instance.kind,
            occurrence: instance.occurrence,
            classes,
        })?;
    }
    Ok(found)
}

// All that is found in a site, occurrence by occurrence.
fn findings_of(alloc: Global, site: &Site) -> Result<Vec<Instance>, AllocError>
    ensures { IfOk result (λ found. spec.AreFindings site.now found.items) }
{
    let groups = survey(alloc, site)?;
    instances_of(alloc, site, groups.as_slice())
}

/// What the new site lost, and what is found in it that the old one hasn't. Want of memory is the only refusal.
pub fn compare(alloc: Global, change: Change<'_>) -> Result<Comparison, AllocError>
    ensures { IfOk result (compared.IsComparison change.entry) }
{
    let before = findings_of(alloc, change.old)?;
    let after = findings_of(alloc, change.new)?;
    Ok(Comparison {
        archives: all_lost_archives(alloc, change)?,
        entries: lost_entries(alloc, change)?,
        whole: lost_whole(alloc, change)?,
        found: new_findings(alloc, change, before.as_slice(), after.as_slice())?,
    })
}

// Whether there is none of these.
fn is_nothing<T>(items: &[T]) -> bool
    ensures { result ≡ compared.is_nothing items.now }
{
    match items {
        [] => true,
        _ => false,
    }
}

// Whether no archive is lost.
fn are_no_archives(lost: &[LostArchives]) -> bool
    ensures { result ≡ list_all (λ it. compared.is_nothing it.archives.items) lost.now }
{
    lost.iter().all(|it| is_nothing(it.archives.as_slice()))
}

// Whether no finding has a class.
fn are_no_findings(found: &[Instance]) -> bool
    ensures { result ≡ list_all (λ it. compared.is_nothing it.classes.items) found.now }
{
    found.iter().all(|it| is_nothing(it.classes.as_slice()))
}

impl Comparison {
    /// Whether nothing was lost, and nothing new is found.
    pub fn is_empty(&self) -> bool
        ensures { result ≡ compared.is_empty self.now }
    {
        are_no_archives(self.archives.as_slice())
            && is_nothing(self.entries.as_slice())
            && is_nothing(self.whole.as_slice())
            && are_no_findings(self.found.as_slice())
    }
}

/// A comparison that is empty shows that the new site is no worse; and then it is sound where the old one is.
pub fn empty_comparisons_are_no_worse()
    ensures no_worse { (change : AnyChange) (it : AnyComparison) → compared.IsComparison change it → compared.is_empty it ≡ true
        → spec.IsNoWorse change }
    ensures sound { (change : AnyChange) → IsLawful change.new.now → spec.IsNoWorse change
        → IsSound change.old.now → IsSound change.new.now }
{
    sound_sites_have_no_finding();
}
