//! What `--all` with `--explain` says of each finding.

use crate::notes::explanation::note_of_occurrence;
use crate::verdicts::instances::Instance;
use std::alloc::{AllocError, Global};
use sy_places::site_file::texts::SiteTexts;
use sy_report::texts::note::{Note, append_note};
use sy_report::texts::words::Words;
use sy_script::Items;
use sy_site::Site;
use sy_site::finding::Finding;

/// An instance as a finding of its first class, without a way.
pub fn finding_of(alloc: Global, instance: &Instance) -> Option<Finding> {
    match instance.classes.as_slice() {
        [class, ..] => Some(Finding {
            class: *class,
            input: instance.input,
            way: Items::new(alloc),
            kind: instance.kind,
        }),
        [] => None,
    }
}

/// The note of an instance: that on its first class.
pub fn note_of_instance(
    alloc: Global,
    texts: &SiteTexts<'_>,
    site: &Site,
    instance: &Instance,
) -> Result<Note, AllocError> {
    match finding_of(alloc, instance) {
        Some(finding) => note_of_occurrence(alloc, texts, site, &finding, instance.occurrence),
        None => Ok(Note::new(alloc)),
    }
}

/// The words on an instance, behind its line.
pub fn instance_words(
    alloc: Global,
    texts: &SiteTexts<'_>,
    site: &Site,
    instance: &Instance,
) -> Result<Vec<u8>, AllocError> {
    let mut words = Words::new(alloc);
    let note = note_of_instance(alloc, texts, site, instance)?;
    append_note(&mut words, &note);
    words.finish()
}
