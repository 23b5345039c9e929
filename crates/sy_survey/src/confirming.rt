//! Whether the checker accepts that what comes in at an input is kept.
ghost use Rattle.std.specs.Prelude.{◌≡◌, ◌++◌, [], true, slice_get, IfOk, IfSome, OnOk};
ghost use Rattle.sy_survey.specs.Surveys as spec;
ghost use Rattle.sy_survey.specs.internal.SiteTexts as inside;

use crate::judged::site_of;
use std::alloc::{AllocError, Global};
use sy_checker::check_site;
use sy_fleet::fleet::FIRST_PORT;
use sy_fleet::{Fleet, Output};
use sy_report::outcome::halt::Halt;
use sy_report::texts::parts::{Part, append_parts};
use sy_site::finding::Refusal;

/// Whether an output keeps messages.
pub(crate) fn keeps(output: Output) -> bool
    ensures { result ≡ spec.keeps output }
{
    match output {
        Output::File | Output::Forward => true,
        Output::Datagram | Output::Shown | Output::Changed | Output::Unknown => false,
    }
}

// The site file but for its spare lines.
fn site_head(alloc: Global, selector: &[u8], input: u32, action: u32) -> Result<Vec<u8>, AllocError>
    ensures { IfOk result (λ text. text.items ≡ spec.site_text selector.now input action []) }
{
    let mut text = Vec::new(alloc);
    append_parts(
        &mut text,
        &[
            Part::Text(b"policy 2\nrelay host plan\nentry host "),
            Part::Number(FIRST_PORT + u64::from(input)),
            Part::Text(b"\nprotect "),
            Part::Text(selector),
            Part::Text(b" host a"),
            Part::Number(u64::from(action)),
            Part::Text(b"\n"),
        ],
    )?;
    Ok(text)
}

// Puts the line that an action is spare behind a text.
fn append_spare(text: &mut Vec<u8>, spare: u32) -> Result<(), AllocError>
    ensures { OnOk result (text.new.items ≡ text.old.items ++ spec.spare_line spare) }
{
    append_parts(
        text,
        &[
            Part::Text(b"spare host a"),
            Part::Number(u64::from(spare)),
            Part::Text(b"\n"),
        ],
    )
}

// Puts the line of another action behind a text.
fn append_other(text: &mut Vec<u8>, other: u32, action: u32) -> Result<(), AllocError>
    ensures { OnOk result (inside.AddsSpares text.old.items text.new.items) }
{
    if other == action {
        return Ok(());
    }
    append_spare(text, other)?;
    Ok(())
}

// Puts the lines that all other actions are spare behind a text.
fn append_spares(text: &mut Vec<u8>, count: u32, action: u32) -> Result<(), AllocError>
    ensures { OnOk result (inside.AddsSpares text.old.items text.new.items) }
{
    for other in 0..count {
        append_other(text, other, action)?;
    }
    Ok(())
}

// The site file by which messages of these classes that come in at an input are to come to an action, and all others are spare.
fn site_text(
    alloc: Global,
    selector: &[u8],
    input: u32,
    action: u32,
    count: u32,
) -> Result<Vec<u8>, AllocError>
    ensures { IfOk result (λ text. inside.IsSiteText selector.now input action text.items) }
{
    let mut text = site_head(alloc, selector, input, action)?;
    append_spares(&mut text, count, action)?;
    Ok(text)
}

// Whether an action keeps messages, where it is there.
fn is_archive(fleet: &Fleet, action: u32) -> bool
    ensures { result ≡ true → IfSome (slice_get fleet.now.actions.items action) (λ it. spec.keeps it.output ≡ true) }
{
    match fleet.actions.get(action as usize) {
        Some(action) => keeps(action.output),
        None => false,
    }
}

/// Whether messages of these classes that come in at an input surely come to an action, which keeps them.
pub(crate) fn is_kept(
    alloc: Global,
    fleet: &Fleet,
    selector: &[u8],
    input: u32,
    action: u32,
) -> Result<bool, Halt>
    ensures { IfOk result (λ is. is ≡ true → spec.IsKept fleet.now selector.now input) }
{
    if !is_archive(fleet, action) {
        return Ok(false);
    }
    let Ok(count) = u32::try_from(fleet.actions.len()) else {
        return Ok(false);
    };
    let Ok(text) = site_text(alloc, selector, input, action, count) else {
        return Err(Halt::NoMemory);
    };
    let site = site_of(alloc, text.as_slice(), fleet.plan.as_slice())?;
    match check_site(alloc, &site) {
        Ok(_) => Ok(true),
        Err(Refusal::NoMemory) => Err(Halt::NoMemory),
        Err(_) => Ok(false),
    }
}
