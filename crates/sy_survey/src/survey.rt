//! The command that says where rsyslogd may lose messages by its own configurations.
ghost use Rattle.std.specs.Prelude.{◌≡◌, ◌≢◌, ◌<◌, ◌≤◌, ℕ, true, length, IfOk};
ghost use Rattle.sy_survey.specs.Surveys as spec;

use crate::confirming::is_kept;
use crate::folders::Folders;
use crate::gathering::{judged_of, push_unsure};
use crate::judged::Judged;
use crate::refusals::{apart, report_file, unread};
use crate::report::{Form, Report};
use crate::rows::in_order;
use crate::telling::Surveyed;
use crate::tree::Tree;
use crate::whole::{Whole, include};
use std::alloc::{AllocError, Global};
use sy_fleet::{Fleet, fleet_of};
use sy_fleet_text::{TextFault, read_text};
use sy_report::outcome::answer::{Answer, print, stop};
use sy_report::outcome::halt::Halt;
use sy_report::reading::files::{FileFault, Files};
use sy_report::writing::outputs::Outputs;
use sy_wire::Sink;

/// A host: the name of its configuration, and the folder below which that and what it includes are looked for; where there is none,
/// what it includes isn't read.
#[derive(Clone, Copy)]
pub struct Host<'a> {
    pub file: &'a str,
    pub root: Option<&'a str>,
}

/// The hosts, the classes that are asked for, as a selector, whether what is taken for granted counts as found, and the form.
#[derive(Clone, Copy)]
pub struct Wanted<'a> {
    pub hosts: &'a [Host<'a>],
    pub selector: &'a [u8],
    pub is_strict: bool,
    pub form: Form,
}

// Whether what comes in at an input is kept in the archive that was found for it.
fn is_input_kept(
    alloc: Global,
    fleet: &Fleet,
    judged: &Judged,
    selector: &[u8],
    input: u32,
) -> Result<bool, Halt>
    ensures { IfOk result (λ is. is ≡ true → spec.IsKept fleet.now selector.now input) }
{
    match judged.archive_of(input) {
        Some(archive) => is_kept(alloc, fleet, selector, input, archive),
        None => Ok(false),
    }
}

// Whether what comes in at each input is kept.
fn are_kept(alloc: Global, fleet: &Fleet, judged: &Judged, selector: &[u8]) -> Result<bool, Halt>
    ensures { IfOk result (λ are. are ≡ true → (input : ℕ) → input < length fleet.now.inputs.items → spec.IsKept fleet.now selector.now input) }
{
    let Ok(count) = u32::try_from(fleet.inputs.len()) else {
        return Ok(false);
    };
    for input in 0..count {
        if !is_input_kept(alloc, fleet, judged, selector, input)? {
            return Ok(false);
        }
    }
    Ok(true)
}

// What is said of a host, its findings in the order of their places.
fn text_of(
    alloc: Global,
    it: Surveyed<'_>,
    judged: Judged,
    is_accepted: bool,
    report: &mut Report,
) -> Result<Vec<u8>, AllocError> {
    let Judged { rows, classes, .. } = judged;
    let rows = in_order(alloc, rows)?;
    report.take(it, rows.as_slice(), classes.len(), is_accepted)
}

// Whether nothing is found, which the checker confirms; where it doesn't, that is added.
fn is_sure(alloc: Global, fleet: &Fleet, judged: &mut Judged, selector: &[u8]) -> Result<bool, Halt>
    ensures { IfOk result (λ is. is ≡ true → (input : ℕ) → input < length fleet.now.inputs.items → spec.IsKept fleet.now selector.now input) }
{
    if !judged.rows.is_empty() {
        return Ok(false);
    }
    if are_kept(alloc, fleet, judged, selector)? {
        return Ok(true);
    }
    match push_unsure(alloc, judged) {
        Ok(()) => Ok(false),
        Err(_) => Err(Halt::NoMemory),
    }
}

// What is answered of a file whose pieces were read.
fn answer_of(
    alloc: Global,
    it: Surveyed<'_>,
    wanted: Wanted<'_>,
    report: &mut Report,
) -> Result<Answer, Halt>
    ensures { IfOk result (λ a. a.is_accepted ≡ true → (input : ℕ) → input < length it.entry.fleet.now.inputs.items
        → spec.IsKept it.entry.fleet.now wanted.entry.selector.now input) }
{
    let mut judged = judged_of(alloc, it.fleet, wanted.selector)?;
    let is_kept = is_sure(alloc, it.fleet, &mut judged, wanted.selector)?;
    let is_assumed = wanted.is_strict && !it.fleet.notes.is_empty();
    let is_accepted = is_kept && !is_assumed;
    let Ok(text) = text_of(alloc, it, judged, is_accepted, report) else {
        return Err(Halt::NoMemory);
    };
    Ok(Answer { text, is_accepted })
}

// What a text comes to.
fn fleet_in(alloc: Global, text: &[u8]) -> Result<Fleet, TextFault>
    ensures { IfOk result (spec.IsRead text.now) }
{
    let pieces = read_text(alloc, text)?;
    Ok(fleet_of(alloc, text, pieces.as_slice())?)
}

// Prints an answer.
fn print_answer<W: Sink, E: Sink>(answer: Answer, out: &mut Outputs<W, E>) -> u8
    ensures accepted { result ≡ 0 → answer.is_accepted ≡ true }
    ensures status { result ≤ 4 }
{
    print(Ok(answer), out)
}

// Surveys a configuration whose files are put together.
fn of_whole<W: Sink, E: Sink>(
    alloc: Global,
    whole: &Whole,
    wanted: Wanted<'_>,
    report: &mut Report,
    out: &mut Outputs<W, E>,
) -> u8
    ensures kept { result ≡ 0 → spec.AreKept wanted.entry.selector.now whole.now.text.items }
    ensures status { result ≤ 4 }
{
    match fleet_in(alloc, whole.text.as_slice()) {
        Ok(fleet) => {
            let it = Surveyed {
                whole,
                fleet: &fleet,
            };
            match answer_of(alloc, it, wanted, report) {
                Ok(answer) => print_answer(answer, out),
                Err(halt) => {
                    report_file(&mut out.errors, whole.source(0).0);
                    stop(out, &halt)
                }
            }
        }
        Err(fault) => unread(alloc, whole, fault, out),
    }
}

// Surveys a configuration with what it includes below a folder.
fn together<F: Files, D: Folders, W: Sink, E: Sink>(
    alloc: Global,
    tree: &Tree<'_, F, D>,
    root: &str,
    whole: Whole,
    wanted: Wanted<'_>,
    report: &mut Report,
    out: &mut Outputs<W, E>,
) -> u8
    ensures kept { result ≡ 0 → spec.AreKeptTogether F.bytes_of tree.entry.now.files.now wanted.entry.selector.now whole.text.items }
    ensures status { result ≤ 4 }
{
    let mut whole = whole;
    match include(alloc, tree, root, &mut whole) {
        Ok(()) => of_whole(alloc, &whole, wanted, report, out),
        Err(why) => apart(alloc, &whole, why, out),
    }
}

// Surveys a host whose configuration has this text.
fn of_text<F: Files, D: Folders, W: Sink, E: Sink>(
    alloc: Global,
    tree: &Tree<'_, F, D>,
    host: Host<'_>,
    text: Vec<u8>,
    wanted: Wanted<'_>,
    report: &mut Report,
    out: &mut Outputs<W, E>,
) -> u8
    ensures kept { result ≡ 0 → spec.IsKeptBy F.bytes_of tree.entry.now.files.now host.entry.root wanted.entry.selector.now text.items }
    ensures status { result ≤ 4 }
{
    let Ok(whole) = Whole::plain(alloc, host.file, text) else {
        return stop(out, &Halt::NoMemory);
    };
    match host.root {
        None => of_whole(alloc, &whole, wanted, report, out),
        Some(root) => together(alloc, tree, root, whole, wanted, report, out),
    }
}

// Surveys a host.
fn of_host<F: Files, D: Folders, W: Sink, E: Sink>(
    alloc: Global,
    tree: &Tree<'_, F, D>,
    host: Host<'_>,
    wanted: Wanted<'_>,
    report: &mut Report,
    out: &mut Outputs<W, E>,
) -> u8
    ensures kept { result ≡ 0 → spec.IsKeptHost F.bytes_of tree.entry.now.files.now wanted.entry.selector.now host.entry }
    ensures status { result ≤ 4 }
{
    match tree.files.read(host.file) {
        Ok(text) => of_text(alloc, tree, host, text, wanted, report, out),
        Err(FileFault::Read) => {
            report_file(&mut out.errors, host.file.as_bytes());
            stop(out, &Halt::ReadFailed)
        }
        Err(FileFault::NoMemory) => stop(out, &Halt::NoMemory),
    }
}

// Prints what is said at the end.
fn end_with<W: Sink, E: Sink>(report: Report, status: u8, out: &mut Outputs<W, E>) -> u8
    ensures { result ≤ 4 }
{
    match report.finish(status) {
        Ok(text) => print(
            Ok(Answer {
                text,
                is_accepted: true,
            }),
            out,
        ),
        Err(_) => stop(out, &Halt::NoMemory),
    }
}

/// Surveys hosts by their configurations, and prints what may be lost where. It answers the exit status, of several hosts the greatest:
/// 0 where nothing is found, 1 where something is, 2 at a text that isn't read, 3 where memory runs out, 4 where a read or write failed.
pub fn survey<F: Files, D: Folders, W: Sink, E: Sink>(
    alloc: Global,
    tree: &Tree<'_, F, D>,
    wanted: Wanted<'_>,
    out: &mut Outputs<W, E>,
) -> u8
    ensures kept { result ≡ 0 → spec.AreKeptIn F.bytes_of tree.entry.now.files.now wanted.entry }
    ensures status { result ≤ 4 }
{
    let mut report = Report::new(alloc, wanted.form);
    let mut status = 0;
    for host in wanted.hosts {
        let next = of_host(alloc, tree, *host, wanted, &mut report, out);
        report.end_host(host.file.as_bytes(), next);
        if next > status {
            status = next;
        }
    }
    let last = end_with(report, status, out);
    if last > status { last } else { status }
}
