//! What is told of a change in lines.

use crate::comparison::{Change, Comparison};
use crate::differences::{Difference, OfArchive, Sign, Thing, differences_of, findings_of};
use std::alloc::{AllocError, Global};
use sy_findings::notes::instances::instance_words;
use sy_findings::verdicts::instances::Instance;
use sy_findings::verdicts::tally::{head_of, names_of, push_instance};
use sy_fit::protected_classes;
use sy_places::site_file::texts::SiteTexts;
use sy_report::texts::parts::{Part, action_name, append_parts, input_part, relay_name};
use sy_site::{Site, SiteAction, SiteInput};

/// The texts of the files of both sites.
#[derive(Clone, Copy)]
pub struct Texts<'a> {
    pub old: &'a SiteTexts<'a>,
    pub new: &'a SiteTexts<'a>,
}

/// The word of a sign.
pub(crate) fn word_of(sign: Sign) -> &'static [u8] {
    match sign {
        Sign::Lost => b"lost",
        Sign::Found => b"found",
        Sign::Gone => b"gone",
        Sign::New => b"new",
    }
}

fn append_archive(
    alloc: Global,
    text: &mut Vec<u8>,
    site: &Site,
    row: &OfArchive,
) -> Result<(), AllocError> {
    let parts = [
        Part::Text(b"archive "),
        Part::Name(relay_name(site, row.archive.relay)),
        Part::Text(b" "),
        Part::Name(action_name(site, row.archive)),
        Part::Text(b" of "),
    ];
    append_parts(text, &parts)?;
    let names = names_of(alloc, row.classes.as_slice())?;
    text.extend_from_slice(names.as_slice())?;
    text.extend_from_slice(b"\n")
}

fn append_input<'a>(
    text: &mut Vec<u8>,
    words: &'a [u8],
    site: &'a Site,
    input: SiteInput,
) -> Result<(), AllocError> {
    append_parts(
        text,
        &[
            Part::Text(words),
            input_part(site, input),
            Part::Text(b"\n"),
        ],
    )
}

fn append_spare(text: &mut Vec<u8>, site: &Site, action: SiteAction) -> Result<(), AllocError> {
    append_parts(
        text,
        &[
            Part::Text(b"spare "),
            Part::Name(relay_name(site, action.relay)),
            Part::Text(b" "),
            Part::Name(action_name(site, action)),
            Part::Text(b"\n"),
        ],
    )
}

// A line for a difference.
fn append_difference(
    alloc: Global,
    text: &mut Vec<u8>,
    difference: &Difference<'_>,
) -> Result<(), AllocError> {
    let site = difference.site;
    text.extend_from_slice(word_of(difference.sign))?;
    text.extend_from_slice(b": ")?;
    match &difference.thing {
        Thing::Archive(row) => append_archive(alloc, text, site, row),
        Thing::Entry(input) => append_input(text, b"entry ", site, *input),
        Thing::WholeEntry(input) => append_input(text, b"whole of entry ", site, *input),
        Thing::Spare(action) => append_spare(text, site, *action),
        Thing::Finding(instance) => push_instance(alloc, text, site, instance),
    }
}

// Where a finding is, why messages are lost by it, and what would change that.
fn append_words(
    alloc: Global,
    text: &mut Vec<u8>,
    difference: &Difference<'_>,
    texts: Texts<'_>,
) -> Result<(), AllocError> {
    let Thing::Finding(instance) = &difference.thing else {
        return Ok(());
    };
    let of_site = if difference.sign == Sign::Gone {
        texts.old
    } else {
        texts.new
    };
    let words = instance_words(alloc, of_site, difference.site, instance)?;
    text.extend_from_slice(words.as_slice())
}

// What a check says of the new site.
fn append_verdict(
    alloc: Global,
    text: &mut Vec<u8>,
    site: &Site,
    found: &[Instance],
) -> Result<(), AllocError> {
    text.extend_from_slice(b"after it: ")?;
    if found.is_empty() {
        let classes = protected_classes(alloc, site)?;
        return append_parts(
            text,
            &[
                Part::Text(b"accepted: "),
                Part::Number(classes.len() as u64),
                Part::Text(b" protected classes\n"),
            ],
        );
    }
    let head = head_of(alloc, found)?;
    text.extend_from_slice(head.as_slice())
}

/// What is told of a change: whether it is worse, in the first line, what a check says of the new site, what was lost and is found since,
/// a line each, and what else is another. Where texts are given, words on each finding stand behind its line.
pub fn told(
    alloc: Global,
    change: Change<'_>,
    comparison: &Comparison,
    texts: Option<Texts<'_>>,
) -> Result<Vec<u8>, AllocError> {
    let mut text = Vec::new(alloc);
    let is_worse = !comparison.is_empty();
    text.extend_from_slice(if is_worse { b"worse\n" } else { b"no worse\n" })?;
    let after = findings_of(alloc, change.new)?;
    append_verdict(alloc, &mut text, change.new, after.as_slice())?;
    for difference in &differences_of(alloc, change, comparison, after.as_slice())? {
        append_difference(alloc, &mut text, difference)?;
        if let Some(texts) = texts {
            append_words(alloc, &mut text, difference, texts)?;
        }
    }
    Ok(text)
}
