//! What is told of a change, one thing after the other.

use crate::comparison::{Change, Comparison};
use crate::same::{is_among, is_same_action, is_same_input, is_same_instance};
use std::alloc::{AllocError, Global};
use sy_checker::survey;
use sy_findings::verdicts::instances::{Instance, instances_of};
use sy_fit::protected_classes;
use sy_site::{Site, SiteAction, SiteInput};
use sy_wire::Class;

/// How a thing is another.
#[derive(Clone, Copy, PartialEq, Eq)]
pub(crate) enum Sign {
    /// It was lost, which is worse.
    Lost,
    /// It is found since, which is worse.
    Found,
    /// It isn't there any more.
    Gone,
    /// It is there since.
    New,
}

/// An archive, with the classes of which something is told.
#[derive(Drop)]
pub(crate) struct OfArchive {
    pub archive: SiteAction,
    pub classes: Vec<Class>,
}

// Adds a class to those of an archive.
fn push_archive(
    alloc: Global,
    rows: &mut Vec<OfArchive>,
    archive: SiteAction,
    class: Class,
) -> Result<(), AllocError> {
    for row in rows.iter_mut() {
        if row.archive == archive {
            row.classes.push(class)?;
            return Ok(());
        }
    }
    let mut classes = Vec::new(alloc);
    classes.push(class)?;
    rows.push(OfArchive { archive, classes })?;
    Ok(())
}

// Of each archive that is lost for some classes, these.
fn lost_rows(alloc: Global, comparison: &Comparison) -> Result<Vec<OfArchive>, AllocError> {
    let mut rows = Vec::new(alloc);
    for lost in &comparison.archives {
        for archive in &lost.archives {
            push_archive(alloc, &mut rows, *archive, lost.class)?;
        }
    }
    Ok(rows)
}

/// What it is.
#[derive(Drop)]
pub(crate) enum Thing {
    Archive(OfArchive),
    Entry(SiteInput),
    /// An entry of which all is wanted.
    WholeEntry(SiteInput),
    Spare(SiteAction),
    Finding(Instance),
}

/// A thing of one of the two sites that is another.
#[derive(Drop)]
pub(crate) struct Difference<'a> {
    pub sign: Sign,
    pub site: &'a Site,
    pub thing: Thing,
}

// Adds a finding of the new site, where it has classes.
fn push_found<'a>(
    alloc: Global,
    all: &mut Vec<Difference<'a>>,
    site: &'a Site,
    instance: &Instance,
) -> Result<(), AllocError> {
    if instance.classes.is_empty() {
        return Ok(());
    }
    let classes = Vec::from_slice(alloc, instance.classes.as_slice())?;
    let thing = Thing::Finding(Instance {
        input: instance.input,
        kind: instance.kind,
        occurrence: instance.occurrence,
        classes,
    });
    let sign = Sign::Found;
    all.push(Difference { sign, site, thing })?;
    Ok(())
}

// Adds what was lost, and what is found since.
fn push_lost<'a>(
    alloc: Global,
    all: &mut Vec<Difference<'a>>,
    change: Change<'a>,
    comparison: &Comparison,
) -> Result<(), AllocError> {
    let (sign, site) = (Sign::Lost, change.old);
    for row in lost_rows(alloc, comparison)? {
        let thing = Thing::Archive(row);
        all.push(Difference { sign, site, thing })?;
    }
    for entry in &comparison.entries {
        let thing = Thing::Entry(*entry);
        all.push(Difference { sign, site, thing })?;
    }
    for entry in &comparison.whole {
        let thing = Thing::WholeEntry(*entry);
        all.push(Difference { sign, site, thing })?;
    }
    for instance in &comparison.found {
        push_found(alloc, all, change.new, instance)?;
    }
    Ok(())
}

// Whether the new site has a finding of the old one, for a class.
fn is_still_found(
    change: Change<'_>,
    after: &[Instance],
    instance: &Instance,
    class: Class,
) -> bool {
    after.iter().any(|other| {
        is_same_instance(change, instance, other) && is_among(other.classes.as_slice(), class)
    })
}

// A finding of the old site, with those of its classes of which the new one hasn't it.
fn gone_of(
    alloc: Global,
    change: Change<'_>,
    after: &[Instance],
    instance: &Instance,
) -> Result<Instance, AllocError> {
    let mut classes = Vec::new(alloc);
    for class in &instance.classes {
        if !is_still_found(change, after, instance, *class) {
            classes.push(*class)?;
        }
    }
    Ok(Instance {
        input: instance.input,
        kind: instance.kind,
        occurrence: instance.occurrence,
        classes,
    })
}

/// All that is found in a site, occurrence by occurrence.
pub(crate) fn findings_of(alloc: Global, site: &Site) -> Result<Vec<Instance>, AllocError> {
    let groups = survey(alloc, site)?;
    instances_of(alloc, site, groups.as_slice())
}

// Adds what was found in the old site and isn't in the new one.
fn push_gone<'a>(
    alloc: Global,
    all: &mut Vec<Difference<'a>>,
    change: Change<'a>,
    after: &[Instance],
) -> Result<(), AllocError> {
    for instance in &findings_of(alloc, change.old)? {
        let gone = gone_of(alloc, change, after, instance)?;
        if !gone.classes.is_empty() {
            all.push(Difference {
                sign: Sign::Gone,
                site: change.old,
                thing: Thing::Finding(gone),
            })?;
        }
    }
    Ok(())
}

// Whether an archive of the new site is named for a class in the old one.
fn was_named(change: Change<'_>, archive: SiteAction, class: Class) -> bool {
    change.old.protections().iter().any(|before| {
        before.selector.matches(class) && is_same_action(change, before.archive, archive)
    })
}

// Of each archive that is named for some classes since, these.
fn added_rows(alloc: Global, change: Change<'_>) -> Result<Vec<OfArchive>, AllocError> {
    let mut rows = Vec::new(alloc);
    for class in &protected_classes(alloc, change.new)? {
        for archive in &sy_fit::archives(alloc, change.new, *class)? {
            if !was_named(change, *archive, *class) {
                push_archive(alloc, &mut rows, *archive, *class)?;
            }
        }
    }
    Ok(rows)
}

// Adds the entries that are new.
fn push_new_entries<'a>(
    all: &mut Vec<Difference<'a>>,
    change: Change<'a>,
) -> Result<(), AllocError> {
    for entry in change.new.entries() {
        let mut before = change.old.entries().iter();
        if !before.any(|other| is_same_input(change, *other, *entry)) {
            all.push(Difference {
                sign: Sign::New,
                site: change.new,
                thing: Thing::Entry(*entry),
            })?;
        }
    }
    Ok(())
}

// Adds the actions that are spare in one site alone.
fn push_spares<'a>(all: &mut Vec<Difference<'a>>, change: Change<'a>) -> Result<(), AllocError> {
    for spare in change.new.spares() {
        let mut before = change.old.spares().iter();
        if !before.any(|other| is_same_action(change, *other, *spare)) {
            all.push(Difference {
                sign: Sign::New,
                site: change.new,
                thing: Thing::Spare(*spare),
            })?;
        }
    }
    for spare in change.old.spares() {
        let mut after = change.new.spares().iter();
        if !after.any(|other| is_same_action(change, *spare, *other)) {
            all.push(Difference {
                sign: Sign::Gone,
                site: change.old,
                thing: Thing::Spare(*spare),
            })?;
        }
    }
    Ok(())
}

/// What was lost and is found since, and behind that what else is another.
pub(crate) fn differences_of<'a>(
    alloc: Global,
    change: Change<'a>,
    comparison: &Comparison,
    after: &[Instance],
) -> Result<Vec<Difference<'a>>, AllocError> {
    let mut all = Vec::new(alloc);
    push_lost(alloc, &mut all, change, comparison)?;
    push_gone(alloc, &mut all, change, after)?;
    for row in added_rows(alloc, change)? {
        all.push(Difference {
            sign: Sign::New,
            site: change.new,
            thing: Thing::Archive(row),
        })?;
    }
    push_new_entries(&mut all, change)?;
    push_spares(&mut all, change)?;
    Ok(all)
}
