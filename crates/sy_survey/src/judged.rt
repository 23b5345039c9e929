//! What the checker finds in a plan, by the places of the text that it comes from.
ghost use Rattle.std.specs.Prelude.{◌≡◌, ◌∷◌, [], IfOk, codes};
ghost use Rattle.sy_site.specs.texts.Describes.{Describes, file};

use crate::confirming::{is_kept, keeps};
use crate::rows::{Row, What, push_row};
use crate::site_text::{PLAN, whole};
use crate::spots::{Spot, Thing, spot_of, thing_of};
use std::alloc::{AllocError, Global};
use sy_checker::survey;
use sy_findings::verdicts::instances::{Instance, instances_of};
use sy_fit::protected_classes;
use sy_fleet::{Fleet, Flow, Input};
use sy_report::outcome::halt::Halt;
use sy_report::texts::parts::action_name;
use sy_site::finding::Kind;
use sy_site::{Site, SiteFault};
use sy_wire::Class;

/// How many classes there are.
const CLASSES: usize = 192;

/// How many archives of an input are tried.
const MOST_TRIED: usize = 16;

/// The site of a site file and a plan.
pub(crate) fn site_of(alloc: Global, text: &[u8], plan: &[u8]) -> Result<Site, Halt>
    ensures { IfOk result (λ site. Describes text.now (file (codes "plan") plan.now ∷ []) site) }
{
    let mut files = Vec::new(alloc);
    let Ok(()) = files.push((PLAN, plan)) else {
        return Err(Halt::NoMemory);
    };
    match Site::read(alloc, text, files.as_slice()) {
        Ok(site) => Ok(site),
        Err(SiteFault::NoMemory) => Err(Halt::NoMemory),
        Err(fault) => Err(Halt::Site(fault)),
    }
}

fn copied(alloc: Global, classes: &[Class]) -> Result<Vec<Class>, AllocError> {
    let mut found = Vec::new(alloc);
    found.extend_from_slice(classes)?;
    Ok(found)
}

// Adds the findings of all kinds but the ninth, of the inputs at which something may be lost.
fn push_found(
    alloc: Global,
    judged: &mut Judged,
    fleet: &Fleet,
    site: &Site,
    found: &[Instance],
) -> Result<(), AllocError> {
    for instance in found {
        // (where its messages are kept, what else is found there loses none)
        if judged.archive_of(instance.input.input).is_some() {
            continue;
        }
        if let Some(Spot { what, at, subject }) = spot_of(fleet, site, instance) {
            let classes = copied(alloc, instance.classes.as_slice())?;
            push_row(
                &mut judged.rows,
                Row {
                    what,
                    at,
                    subject,
                    classes,
                },
            )?;
        }
    }
    Ok(())
}

fn place_in(input: usize, class: Class) -> usize {
    input
        .saturating_mul(CLASSES)
        .saturating_add(class.number() as usize)
}

// Of each input and class, how many archives aren't surely reached.
fn unmet_counts(
    alloc: Global,
    fleet: &Fleet,
    found: &[Instance],
) -> Result<Vec<usize>, AllocError> {
    let mut counts: Vec<usize> = Vec::new(alloc);
    for _ in 0..fleet.inputs.len().saturating_mul(CLASSES) {
        counts.push(0)?;
    }
    for instance in found {
        if let Kind::Unmet(_) = instance.kind {
            for class in &instance.classes {
                let at = place_in(instance.input.input as usize, *class);
                if let Some(count) = counts.get_mut(at) {
                    *count = count.saturating_add(1);
                }
            }
        }
    }
    Ok(counts)
}

// Whether a finding is that some class doesn't surely come from an input to an archive.
fn is_unmet(site: &Site, instance: &Instance, input: usize, archive: usize) -> bool {
    match instance.kind {
        Kind::Unmet(action) if instance.input.input as usize == input => {
            match thing_of(action_name(site, action)) {
                Thing::Action(number) => number == archive,
                _ => false,
            }
        }
        _ => false,
    }
}

// The archives that all classes surely come to from an input.
fn met_archives(
    alloc: Global,
    fleet: &Fleet,
    site: &Site,
    found: &[Instance],
    input: usize,
) -> Result<Vec<usize>, AllocError> {
    let mut archives = Vec::new(alloc);
    for archive in 0..fleet.actions.len() {
        if keeps(fleet.actions[archive].output)
            && !found.iter().any(|it| is_unmet(site, it, input, archive))
        {
            archives.push(archive)?;
        }
    }
    Ok(archives)
}

// The first of these archives in which what comes in at an input is kept; so many of them are tried.
fn kept_archive(
    alloc: Global,
    fleet: &Fleet,
    selector: &[u8],
    input: usize,
    archives: &[usize],
) -> Result<Option<u32>, Halt> {
    for archive in archives.iter().take(MOST_TRIED) {
        let (Ok(input), Ok(archive)) = (u32::try_from(input), u32::try_from(*archive)) else {
            return Ok(None);
        };
        if is_kept(alloc, fleet, selector, input, archive)? {
            return Ok(Some(archive));
        }
    }
    Ok(None)
}

// The classes that come from an input to no archive surely; all of them where each comes to some, but not to the same one.
fn unmet_classes(
    alloc: Global,
    protected: &[Class],
    counts: &[usize],
    input: usize,
    archives: usize,
) -> Result<Vec<Class>, AllocError> {
    let mut classes = Vec::new(alloc);
    for class in protected {
        if counts.get(place_in(input, *class)).copied().unwrap_or(0) >= archives {
            classes.push(*class)?;
        }
    }
    if classes.is_empty() {
        return copied(alloc, protected);
    }
    Ok(classes)
}

/// Of an input an archive in which its messages are kept, where there is one, and whether all classes surely come to some.
#[derive(Clone, Copy)]
pub(crate) struct Met {
    archive: Option<u32>,
    is_met: bool,
}

/// All that the checker finds, the classes that were asked for, and what is known of each input.
#[derive(Drop)]
pub(crate) struct Judged {
    pub rows: Vec<Row>,
    pub classes: Vec<Class>,
    pub inputs: Vec<Met>,
}

impl Judged {
    /// An archive in which what comes in at an input is kept.
    pub(crate) fn archive_of(&self, input: u32) -> Option<u32> {
        self.inputs.get(input as usize)?.archive
    }
}

// What is known of a plan's site before its inputs are looked at one by one.
#[derive(Clone, Copy)]
struct Looked<'a> {
    fleet: &'a Fleet,
    site: &'a Site,
    found: &'a [Instance],
    counts: &'a [usize],
}

// Adds that no archive surely gets what comes in at an input.
fn push_unmet(
    alloc: Global,
    judged: &mut Judged,
    looked: Looked<'_>,
    input: usize,
) -> Result<(), AllocError> {
    let Looked { fleet, counts, .. } = looked;
    let archives = fleet.actions.iter().filter(|it| keeps(it.output)).count();
    let classes = unmet_classes(alloc, judged.classes.as_slice(), counts, input, archives)?;
    let Some(Input { at, module, .. }) = fleet.inputs.get(input).copied() else {
        return Ok(());
    };
    push_row(
        &mut judged.rows,
        Row {
            what: What::Unmet,
            at,
            subject: module,
            classes,
        },
    )
}

// The first input that waits as this one does and leads to the same ruleset, where it isn't this one itself.
fn input_like(fleet: &Fleet, input: usize) -> Option<usize> {
    let it = fleet.inputs.get(input).copied()?;
    let is_like = |other: &Input| other.flow == it.flow && other.ruleset == it.ruleset;
    let first = fleet.inputs.iter().position(is_like)?;
    if first < input { Some(first) } else { None }
}

fn waits_at(fleet: &Fleet, input: usize) -> bool {
    match fleet.inputs.get(input) {
        Some(it) => it.flow == Flow::Full,
        None => false,
    }
}

// What is known of an input.
fn met_at(alloc: Global, looked: Looked<'_>, selector: &[u8], input: usize) -> Result<Met, Halt> {
    let Looked {
        fleet,
        site,
        found,
        ..
    } = looked;
    let Ok(met) = met_archives(alloc, fleet, site, found, input) else {
        return Err(Halt::NoMemory);
    };
    // (of one that doesn't wait without end the checker accepts none)
    if !waits_at(fleet, input) {
        return Ok(Met {
            archive: None,
            is_met: !met.is_empty(),
        });
    }
    let archive = kept_archive(alloc, fleet, selector, input, met.as_slice())?;
    Ok(Met {
        archive,
        is_met: !met.is_empty(),
    })
}

// Adds what is known of an input, as of one like it, and that no archive surely gets its messages where that is so.
fn push_met(
    alloc: Global,
    judged: &mut Judged,
    looked: Looked<'_>,
    selector: &[u8],
    input: usize,
) -> Result<(), Halt> {
    let like = input_like(looked.fleet, input).and_then(|it: usize| judged.inputs.get(it).copied());
    let met = match like {
        Some(met) => met,
        None => met_at(alloc, looked, selector, input)?,
    };
    if judged.inputs.push(met).is_err() {
        return Err(Halt::NoMemory);
    }
    if !met.is_met && push_unmet(alloc, judged, looked, input).is_err() {
        return Err(Halt::NoMemory);
    }
    Ok(())
}

// All that is found in a site.
fn findings_of(alloc: Global, site: &Site) -> Result<Vec<Instance>, AllocError> {
    let groups = survey(alloc, site)?;
    instances_of(alloc, site, groups.as_slice())
}

fn judged_site(alloc: Global, fleet: &Fleet, site: &Site, selector: &[u8]) -> Result<Judged, Halt> {
    let (Ok(found), Ok(classes)) = (findings_of(alloc, site), protected_classes(alloc, site)) else {
        return Err(Halt::NoMemory);
    };
    let Ok(counts) = unmet_counts(alloc, fleet, found.as_slice()) else {
        return Err(Halt::NoMemory);
    };
    let looked = Looked {
        fleet,
        site,
        found: found.as_slice(),
        counts: counts.as_slice(),
    };
    let mut judged = Judged {
        rows: Vec::new(alloc),
        classes,
        inputs: Vec::new(alloc),
    };
    for input in 0..fleet.inputs.len() {
        push_met(alloc, &mut judged, looked, selector, input)?;
    }
    match push_found(alloc, &mut judged, fleet, site, found.as_slice()) {
        Ok(()) => Ok(judged),
        Err(_) => Err(Halt::NoMemory),
    }
}

/// What the checker finds in a plan for the classes of a selector.
pub(crate) fn judge(alloc: Global, fleet: &Fleet, selector: &[u8]) -> Result<Judged, Halt> {
    let Ok(text) = whole(alloc, fleet, selector) else {
        return Err(Halt::NoMemory);
    };
    let site = site_of(alloc, text.as_slice(), fleet.plan.as_slice())?;
    judged_site(alloc, fleet, &site, selector)
}
