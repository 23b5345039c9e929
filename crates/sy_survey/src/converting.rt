//! The command that carries a configuration of rsyslogd over to a relay.
ghost use Rattle.std.specs.Prelude.{◌≡◌, ◌≢◌, ◌≤◌, ◌++◌, ℕ, List, Some, false, true, flat_map, IfOk, IfSome, OnOk};
ghost use Rattle.std.specs.Io.KnownBytes.{Appends};
ghost use Rattle.std.specs.List.{list_any};
ghost use Rattle.sy_conversion.specs.Conversions.{loses};
ghost use Rattle.sy_fleet_text.specs.Texts.{IsText};
ghost use Rattle.sy_host_parameters.specs.HostParameters.{IsMachineText};
ghost use Rattle.sy_site.specs.machine.Soundness.{IsSound};
ghost use Rattle.sy_survey.specs.Converting as spec;

use crate::folders::Folders;
use crate::judged::site_of;
use crate::refusals::{apart, report_file, unread};
use crate::survey::Host;
use crate::tree::Tree;
use crate::whole::{Whole, include};
use std::alloc::{AllocError, Global};
use sy_checker::check_site;
use sy_conversion::{Conversion, converted};
use sy_findings::verdicts::check::say_checked;
use sy_fleet::fleet_of;
use sy_fleet_text::{Piece, read_text};
use sy_host_parameters::machine_text;
use sy_report::outcome::answer::{Answer, print, stop};
use sy_report::outcome::halt::Halt;
use sy_report::reading::files::{FileFault, Files};
use sy_report::texts::parts::{Part, append_parts};
use sy_report::writing::output::send;
use sy_report::writing::outputs::Outputs;
use sy_rules::{Action, Destination, Input, Plan, PlanFault};
use sy_script::{Items, ScriptFault, read_script};
use sy_site::finding::{Kind, Refusal};
use sy_site::{RelayFault, Site, SiteFault};
use sy_wire::Sink;

/// The relay's name.
const NAME: &[u8] = b"host";

/// How many archives are tried.
const MOST_TRIED: usize = 16;

// ---- the relay's plan

// That a relay doesn't read a text.
fn unfit(alloc: Global, fault: RelayFault) -> Halt {
    match Items::from_slice(alloc, NAME) {
        Ok(name) => Halt::Site(SiteFault::Relay(1, name, fault)),
        Err(_) => Halt::NoMemory,
    }
}

fn unfit_script(alloc: Global, fault: ScriptFault) -> Halt {
    match fault.code {
        sy_script::FaultCode::NoMemory => Halt::NoMemory,
        _ => unfit(alloc, RelayFault::Script(fault)),
    }
}

fn unfit_plan(alloc: Global, fault: PlanFault) -> Halt {
    match fault.code {
        sy_rules::FaultCode::NoMemory => Halt::NoMemory,
        _ => unfit(alloc, RelayFault::Plan(fault)),
    }
}

// The plan of a relay's text.
fn plan_of(alloc: Global, text: &[u8]) -> Result<Plan, Halt>
    ensures { IfOk result (λ plan. spec.IsPlanOf text.now plan) }
{
    let script = match read_script(alloc, text) {
        Ok(script) => script,
        Err(fault) => return Err(unfit_script(alloc, fault)),
    };
    match Plan::load(alloc, &script) {
        Ok(plan) => Ok(plan),
        Err(fault) => Err(unfit_plan(alloc, fault)),
    }
}

// ---- what syc check says of it

// Puts the line of an entry behind a text.
fn append_entry(text: &mut Vec<u8>, input: &Input) -> Result<(), AllocError>
    ensures { OnOk result (text.new.items ≡ text.old.items ++ spec.entry_line input.now) }
{
    append_parts(
        text,
        &[
            Part::Text(b"entry host "),
            Part::Number(u64::from(input.port)),
            Part::Text(b"\n"),
        ],
    )
}

// Puts the lines of entries behind a text.
fn append_entries(text: &mut Vec<u8>, inputs: &[Input]) -> Result<(), AllocError>
    ensures { OnOk result (text.new.items ≡ text.old.items ++ flat_map spec.entry_line inputs.now) }
{
    for input in inputs {
        append_entry(text, input)?;
    }
    Ok(())
}

// The site file in which each input is an entry, and an archive is protected.
fn site_text(
    alloc: Global,
    inputs: &[Input],
    archive: &[u8],
    selector: &[u8],
) -> Result<Vec<u8>, AllocError>
    ensures { IfOk result (λ text. text.items ≡ spec.site_text selector.now inputs.now archive.now) }
{
    let mut text = Vec::new(alloc);
    text.extend_from_slice(b"relay host plan\n")?;
    append_entries(&mut text, inputs)?;
    text.extend_from_slice(b"protect ")?;
    text.extend_from_slice(selector)?;
    text.extend_from_slice(b" host ")?;
    text.extend_from_slice(archive)?;
    text.extend_from_slice(b"\n")?;
    Ok(text)
}

// A verdict on one archive: the site file by which it is protected, what is said of that, whether it is accepted, and else whether
// messages may pass by the archive.
#[derive(Drop)]
struct Verdict {
    site: Vec<u8>,
    words: Vec<u8>,
    is_sound: bool,
    passes_by: bool,
}

// Whether a site is sound, and else whether messages may pass by an archive of it.
fn judge(alloc: Global, site: &Site) -> Result<(bool, bool), Halt>
    ensures { IfOk result (λ judged. judged.0 ≡ true → IsSound site.now) }
{
    match check_site(alloc, site) {
        Ok(_) => Ok((true, false)),
        Err(Refusal::Finding(finding)) => Ok((false, matches!(finding.kind, Kind::Unmet(_)))),
        Err(Refusal::NoMemory) => Err(Halt::NoMemory),
    }
}

// The verdict on a site of this site file and plan.
fn verdict_on(alloc: Global, text: Vec<u8>, plan: &[u8]) -> Result<Verdict, Halt>
    ensures { IfOk result (λ v. v.is_sound ≡ true → spec.IsSoundSite text.items plan.now) }
{
    let site = site_of(alloc, text.as_slice(), plan)?;
    let (is_sound, passes_by) = judge(alloc, &site)?;
    let Answer { text: words, .. } = say_checked(alloc, &site)?;
    Ok(Verdict {
        site: text,
        words,
        is_sound,
        passes_by,
    })
}

// The verdict where an archive of this name is protected.
fn verdict_of(
    alloc: Global,
    relay: &Plan,
    plan: &[u8],
    archive: &[u8],
    selector: &[u8],
) -> Result<Verdict, Halt>
    ensures { IfOk result (λ v. v.is_sound ≡ true → spec.IsSoundRelay selector.now plan.now relay.now) }
{
    let Ok(text) = site_text(alloc, relay.inputs(), archive, selector) else {
        return Err(Halt::NoMemory);
    };
    let verdict = verdict_on(alloc, text, plan)?;
    Ok(verdict)
}

fn is_archive(action: &Action) -> bool {
    matches!(action.destination, Destination::Archive(_))
}

// The names of the archives that are tried.
fn first_archives(alloc: Global, relay: &Plan) -> Result<Vec<Vec<u8>>, AllocError> {
    let mut names = Vec::new(alloc);
    for action in relay.actions() {
        if names.len() == MOST_TRIED {
            return Ok(names);
        }
        if is_archive(action) {
            names.push(Vec::from_slice(alloc, action.name.as_slice())?)?;
        }
    }
    Ok(names)
}

fn archives_of(alloc: Global, relay: &Plan) -> Result<Vec<Vec<u8>>, Halt> {
    match first_archives(alloc, relay) {
        Ok(names) => Ok(names),
        Err(_) => Err(Halt::NoMemory),
    }
}

// The verdict on the first archive of which the site is sound, of so many.
fn sound_of(
    alloc: Global,
    relay: &Plan,
    plan: &[u8],
    selector: &[u8],
) -> Result<Option<Verdict>, Halt>
    ensures { IfOk result (λ found. IfSome found (λ v. spec.IsSoundRelay selector.now plan.now relay.now)) }
{
    let archives = archives_of(alloc, relay)?;
    for archive in archives.as_slice() {
        let next = verdict_of(alloc, relay, plan, archive.as_slice(), selector)?;
        if next.is_sound {
            return Ok(Some(next));
        }
    }
    Ok(None)
}

// The verdict on the first of them that no message passes by, else on the first.
fn refused_of(
    alloc: Global,
    relay: &Plan,
    plan: &[u8],
    selector: &[u8],
) -> Result<Option<Verdict>, Halt> {
    let mut found = None;
    let archives = archives_of(alloc, relay)?;
    for archive in archives.as_slice() {
        let next = verdict_of(alloc, relay, plan, archive.as_slice(), selector)?;
        if !next.passes_by {
            return Ok(Some(next));
        }
        found = found.or(Some(next));
    }
    Ok(found)
}

// ---- the whole answer

// Puts the lines of a text behind another as comments.
fn append_comments(out: &mut Vec<u8>, text: &[u8]) -> Result<(), AllocError> {
    let mut is_start = true;
    for byte in text {
        if is_start {
            out.extend_from_slice(b"#   ")?;
        }
        out.push(*byte)?;
        is_start = *byte == b'\n';
    }
    Ok(())
}

/// That nothing was checked.
const UNCHECKED: &[u8] = b"#
# No input, or no file to archive in, is left: make a site file with all relays, and let syc check read that.
";

// What stands behind the configuration.
fn behind(alloc: Global, verdict: Option<&Verdict>) -> Result<Vec<u8>, AllocError> {
    let mut out = Vec::new(alloc);
    let Some(verdict) = verdict else {
        out.extend_from_slice(UNCHECKED)?;
        return Ok(out);
    };
    out.extend_from_slice(
        b"#\n# A site file for a relay host with this configuration in a file plan:\n#\n",
    )?;
    append_comments(&mut out, verdict.site.as_slice())?;
    out.extend_from_slice(b"#\n# What syc check says of that:\n#\n")?;
    append_comments(&mut out, verdict.words.as_slice())?;
    Ok(out)
}

// A configuration with its verdict behind it.
fn with_verdict(
    alloc: Global,
    text: Vec<u8>,
    verdict: Option<&Verdict>,
    is_accepted: bool,
) -> Result<Answer, Halt>
    ensures text { IfOk result (λ a. (rest : List ℕ) × (a.text.items ≡ text.items ++ rest)) }
    ensures accepted { IfOk result (λ a. a.is_accepted ≡ is_accepted) }
{
    let Ok(rest) = behind(alloc, verdict) else {
        return Err(Halt::NoMemory);
    };
    let mut text = text;
    match text.extend_from_slice(rest.as_slice()) {
        Ok(()) => Ok(Answer { text, is_accepted }),
        Err(_) => Err(Halt::NoMemory),
    }
}

// The text that a relay's plan is read from.
fn machine_of(alloc: Global, text: &[u8]) -> Result<Vec<u8>, Halt>
    ensures { IfOk result (λ machine. IsMachineText text.now machine.items) }
{
    let machine = match machine_text(alloc, text) {
        Ok(Some(machine)) => return Ok(machine),
        Ok(None) => Vec::from_slice(alloc, text),
        Err(_) => return Err(Halt::NoMemory),
    };
    match machine {
        Ok(machine) => Ok(machine),
        Err(_) => Err(Halt::NoMemory),
    }
}

// The answer on a relay's configuration that is read, by the text that its plan is read from.
fn answer_of(
    alloc: Global,
    relay: &Plan,
    plan: &[u8],
    conversion: Conversion,
    selector: &[u8],
) -> Result<Answer, Halt>
    requires machine { IsMachineText conversion.text.items plan.now }
    requires relay { spec.IsPlanOf plan.now relay.now }
    ensures text { IfOk result (λ a. (rest : List ℕ) × (a.text.items ≡ conversion.text.items ++ rest)) }
    ensures lost { IfOk result (λ a. a.is_accepted ≡ true → list_any (λ t. loses t.fate) conversion.told.items ≡ false) }
    ensures sound { IfOk result (λ a. a.is_accepted ≡ true → spec.IsSoundText selector.now conversion.text.items) }
{
    let is_whole = conversion.is_whole();
    let text = conversion.text;
    if relay.inputs().is_empty() {
        return with_verdict(alloc, text, None, false);
    }
    match sound_of(alloc, relay, plan, selector)? {
        Some(verdict) => with_verdict(alloc, text, Some(&verdict), is_whole),
        None => {
            let refused = refused_of(alloc, relay, plan, selector)?;
            with_verdict(alloc, text, refused.as_ref(), false)
        }
    }
}

// Prints a configuration that no relay reads, and why.
fn print_unread<W: Sink, E: Sink>(text: Vec<u8>, halt: &Halt, out: &mut Outputs<W, E>) -> u8
    ensures status { result ≤ 4 }
    ensures failed { result ≢ 0 }
{
    match send(&mut out.writer, text.as_slice()) {
        Ok(()) => stop(out, halt),
        Err(_) => stop(out, &Halt::WriteFailed),
    }
}

// Prints a relay's configuration, whose plan is read from this text, with what is said of it.
fn print_read<W: Sink, E: Sink>(
    alloc: Global,
    plan: &[u8],
    conversion: Conversion,
    selector: &[u8],
    out: &mut Outputs<W, E>,
) -> u8
    requires machine { IsMachineText conversion.text.items plan.now }
    ensures status { result ≤ 4 }
    ensures lost { result ≡ 0 → list_any (λ t. loses t.fate) conversion.told.items ≡ false }
    ensures printed { result ≡ 0 → spec.IsRelay selector.now conversion.text.items
        (Appends out.old.output.contents out.new.output.contents) }
{
    match plan_of(alloc, plan) {
        Ok(relay) => print(answer_of(alloc, &relay, plan, conversion, selector), out),
        Err(halt) => print_unread(conversion.text, &halt, out),
    }
}

// Prints a relay's configuration, with what is said of it.
fn print_conversion<W: Sink, E: Sink>(
    alloc: Global,
    conversion: Conversion,
    selector: &[u8],
    out: &mut Outputs<W, E>,
) -> u8
    ensures status { result ≤ 4 }
    ensures lost { result ≡ 0 → list_any (λ t. loses t.fate) conversion.told.items ≡ false }
    ensures printed { result ≡ 0 → spec.IsRelay selector.now conversion.text.items
        (Appends out.old.output.contents out.new.output.contents) }
{
    match machine_of(alloc, conversion.text.as_slice()) {
        Ok(plan) => print_read(alloc, plan.as_slice(), conversion, selector, out),
        Err(halt) => stop(out, &halt),
    }
}

// What a text whose pieces these are comes to.
fn conversion_of(alloc: Global, text: &[u8], pieces: &[Piece]) -> Result<Conversion, AllocError>
    requires { IsText text.now pieces.now }
    ensures { IfOk result (λ c. list_any (λ t. loses t.fate) c.told.items ≡ false → spec.IsToldWhole text.now) }
{
    let fleet = fleet_of(alloc, text, pieces)?;
    let made = converted(alloc, text, pieces, &fleet)?;
    Ok(made)
}

// Converts a configuration whose files are put together.
fn of_whole<W: Sink, E: Sink>(
    alloc: Global,
    whole: &Whole,
    selector: &[u8],
    out: &mut Outputs<W, E>,
) -> u8
    ensures carried { result ≡ 0 → spec.IsCarriedOver selector.now whole.now.text.items
        (Appends out.old.output.contents out.new.output.contents) }
    ensures status { result ≤ 4 }
{
    let text = whole.text.as_slice();
    match read_text(alloc, text) {
        Ok(pieces) => match conversion_of(alloc, text, pieces.as_slice()) {
            Ok(conversion) => print_conversion(alloc, conversion, selector, out),
            Err(_) => stop(out, &Halt::NoMemory),
        },
        Err(fault) => unread(alloc, whole, fault, out),
    }
}

// Converts a configuration with what it includes below a folder.
fn together<F: Files, D: Folders, W: Sink, E: Sink>(
    alloc: Global,
    tree: &Tree<'_, F, D>,
    root: &str,
    whole: Whole,
    selector: &[u8],
    out: &mut Outputs<W, E>,
) -> u8
    ensures carried { result ≡ 0 → spec.IsCarriedTogether F.bytes_of tree.entry.now.files.now selector.now whole.text.items
        (Appends out.old.output.contents out.new.output.contents) }
    ensures status { result ≤ 4 }
{
    let mut whole = whole;
    match include(alloc, tree, root, &mut whole) {
        Ok(()) => of_whole(alloc, &whole, selector, out),
        Err(why) => apart(alloc, &whole, why, out),
    }
}

// Converts a configuration of this text.
fn of_text<F: Files, D: Folders, W: Sink, E: Sink>(
    alloc: Global,
    tree: &Tree<'_, F, D>,
    host: Host<'_>,
    text: Vec<u8>,
    selector: &[u8],
    out: &mut Outputs<W, E>,
) -> u8
    ensures carried { result ≡ 0 → spec.IsCarriedBy F.bytes_of tree.entry.now.files.now host.entry.root selector.now text.items
        (Appends out.old.output.contents out.new.output.contents) }
    ensures status { result ≤ 4 }
{
    let Ok(whole) = Whole::plain(alloc, host.file, text) else {
        return stop(out, &Halt::NoMemory);
    };
    match host.root {
        None => of_whole(alloc, &whole, selector, out),
        Some(root) => together(alloc, tree, root, whole, selector, out),
    }
}

/// Carries a configuration over to a relay, and prints that with what the checker says of it where these classes are protected. It
/// answers the exit status: 0 where the whole is carried over and accepted, 1 where something is left out by which messages may be lost,
/// or it is refused, 2 at a text that isn't read, 3 where memory runs out, 4 where a read or write failed.
pub fn convert<F: Files, D: Folders, W: Sink, E: Sink>(
    alloc: Global,
    tree: &Tree<'_, F, D>,
    host: Host<'_>,
    selector: &[u8],
    out: &mut Outputs<W, E>,
) -> u8
    ensures carried { (text : List ℕ) → F.bytes_of tree.entry.now.files.now host.entry.file.now ≡ Some text → result ≡ 0 →
        spec.IsCarriedBy F.bytes_of tree.entry.now.files.now host.entry.root selector.now text
        (Appends out.old.output.contents out.new.output.contents) }
    ensures status { result ≤ 4 }
{
    match tree.files.read(host.file) {
        Ok(text) => of_text(alloc, tree, host, text, selector, out),
        Err(FileFault::Read) => {
            report_file(&mut out.errors, host.file.as_bytes());
            stop(out, &Halt::ReadFailed)
        }
        Err(FileFault::NoMemory) => stop(out, &Halt::NoMemory),
    }
}
