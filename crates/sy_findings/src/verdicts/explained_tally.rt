//! All that is found in a site, as a text with words on each finding.
ghost use Rattle.std.specs.Prelude.{IfOk, OnOk};
ghost use Rattle.sy_findings.specs.Checks as spec;
ghost use Rattle.sy_findings.specs.internal.Checks as inside;

use crate::notes::instances::instance_words;
use crate::verdicts::instances::{Instance, instances_of};
use crate::verdicts::tally::{head_of, push_instance};
use std::alloc::{AllocError, Global};
use sy_checker::Group;
use sy_places::site_file::texts::SiteTexts;
use sy_site::Site;

// Puts the line of an instance, and words on it.
fn push_explained(
    alloc: Global,
    text: &mut Vec<u8>,
    texts: &SiteTexts<'_>,
    site: &Site,
    instance: &Instance,
) -> Result<(), AllocError>
    ensures { OnOk result (inside.AppendsLineInWords site.now instance.now text.old.items text.new.items) }
{
    let words = instance_words(alloc, texts, site, instance)?;
    push_instance(alloc, text, site, instance)?;
    text.extend_from_slice(words.as_slice())?;
    Ok(())
}

// A line for each instance, with words behind it.
fn lines_of(
    alloc: Global,
    texts: &SiteTexts<'_>,
    site: &Site,
    instances: &[Instance],
) -> Result<Vec<u8>, AllocError>
    ensures { IfOk result (λ text. spec.AreLinesInWords site.now instances.now text.items) }
{
    let mut text = Vec::new(alloc);
    for instance in instances {
        push_explained(alloc, &mut text, texts, site, instance)?;
    }
    Ok(text)
}

// How much is found, and a line for each instance with words on it.
fn tally_of(
    alloc: Global,
    texts: &SiteTexts<'_>,
    site: &Site,
    instances: &[Instance],
) -> Result<Vec<u8>, AllocError>
    ensures { IfOk result (λ text. spec.AreToldInWords site.now instances.now text.items) }
{
    let mut text = head_of(alloc, instances)?;
    let lines = lines_of(alloc, texts, site, instances)?;
    text.extend_from_slice(lines.as_slice())?;
    Ok(text)
}

/// How much is found, and a line for each instance of each group with words on it.
pub fn explained_tally(
    alloc: Global,
    texts: &SiteTexts<'_>,
    site: &Site,
    groups: &[Group],
) -> Result<Vec<u8>, AllocError>
    ensures { IfOk result (λ text. spec.IsTallyInWords site.now groups.now text.items) }
{
    match instances_of(alloc, site, groups) {
        Ok(instances) => tally_of(alloc, texts, site, instances.as_slice()),
        Err(why) => Err(why),
    }
}
