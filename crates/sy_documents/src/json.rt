//! The JSON documents of the commands over a site: what a command says with `--json` in place of its text.

use crate::described::{all_findings, first_finding, spare_elements, warning_elements};
use crate::reported::{Replayed, fault_element, losses_in, with_others};
use std::alloc::{AllocError, Global};
use sy_checker::survey;
use sy_faults::all_faults::other_faults;
use sy_findings::verdicts::instances::instances_of;
use sy_findings::verdicts::verdict::WrongRow;
use sy_json::classes::class_names;
use sy_json::objects::{Elements, Members};
use sy_places::site_file::texts::SiteTexts;
use sy_places::ways::executed::protected_classes;
use sy_report::command_line::options::Options;
use sy_report::outcome::halt::{Halt, status_of};
use sy_site::Site;
use sy_site::finding::Finding;
use sy_warnings::warnings::warnings_of;

/// The version of the documents' shape.
const FORMAT: u64 = 1;

// What a document of any command begins with.
fn document_of(alloc: Global, command: &str, status: u8) -> Members {
    let mut document = Members::new(alloc);
    document.number("format", FORMAT);
    document.text("command", command.as_bytes());
    document.number("status", u64::from(status));
    document
}

// What a document has of a site, whatever the command.
#[derive(Drop)]
struct Parts {
    policy: Option<u64>,
    spare: Option<Elements>,
    protected: Option<Elements>,
    findings: Elements,
    warnings: Elements,
    faults: Elements,
}

// Puts the verdict that a status stands for.
fn insert_verdict(document: &mut Members, is_accepted: bool) {
    if is_accepted {
        document.text("verdict", b"accepted");
    } else {
        document.text("verdict", b"refused");
    }
}

// How many there are of each.
fn counts_of(alloc: Global, parts: &Parts) -> Members {
    let mut counts = Members::new(alloc);
    match &parts.protected {
        Some(protected) => counts.number("protected", protected.len()),
        None => counts.null("protected"),
    }
    counts.number("findings", parts.findings.len());
    counts.number("warnings", parts.warnings.len());
    counts.number("faults", parts.faults.len());
    counts
}

fn insert_parts(document: &mut Members, parts: Parts) {
    let Parts {
        policy,
        spare,
        protected,
        findings,
        warnings,
        faults,
    } = parts;
    document.number_if_any("policy", policy);
    document.array_if_any("spare", spare);
    document.array_if_any("protected", protected);
    document.array("findings", findings);
    document.array("warnings", warnings);
    document.array("faults", faults);
}

// A document of a site that could be read, with what is found in it.
fn judged(
    alloc: Global,
    texts: &SiteTexts<'_>,
    site: &Site,
    findings: Elements,
    mut document: Members,
) -> Result<Members, AllocError> {
    let classes = protected_classes(alloc, site)?;
    let protected = class_names(alloc, classes.as_slice())?;
    let warnings = warnings_of(alloc, texts, site)?;
    let parts = Parts {
        policy: Some(u64::from(site.policy())),
        spare: Some(spare_elements(alloc, site)),
        protected: Some(protected),
        findings,
        warnings: warning_elements(alloc, warnings.as_slice()),
        faults: Elements::new(alloc),
    };
    let counts = counts_of(alloc, &parts);
    document.object("counts", counts);
    insert_parts(&mut document, parts);
    Ok(document)
}

// What is found: with `--all` all of it.
fn findings_of(
    alloc: Global,
    texts: &SiteTexts<'_>,
    options: Options,
    site: &Site,
    finding: &Finding,
) -> Result<Elements, AllocError> {
    if options.all {
        let groups = survey(alloc, site)?;
        let instances = instances_of(alloc, site, groups.as_slice())?;
        return all_findings(alloc, texts, site, instances.as_slice());
    }
    first_finding(alloc, texts, site, finding)
}

// The document of a verdict on a site.
fn verdict_of(
    alloc: Global,
    texts: &SiteTexts<'_>,
    options: Options,
    site: &Site,
    command: &str,
    found: Option<&Finding>,
) -> Result<Members, AllocError> {
    let findings = match found {
        Some(finding) => findings_of(alloc, texts, options, site, finding),
        None => Ok(Elements::new(alloc)),
    }?;
    let mut document = document_of(alloc, command, u8::from(found.is_some()));
    insert_verdict(&mut document, found.is_none());
    judged(alloc, texts, site, findings, document)
}

/// What a check says of a site: that it is accepted, or what is found first. With `--all` the document has all that is
/// found. It has also what is lawful and unwise.
pub fn check_document(
    alloc: Global,
    texts: &SiteTexts<'_>,
    options: Options,
    site: &Site,
    found: Option<&Finding>,
) -> Result<Vec<u8>, AllocError> {
    match verdict_of(alloc, texts, options, site, "check", found) {
        Ok(document) => document.finish(),
        Err(why) => Err(why),
    }
}

/// The same of the making of a certificate, whose text is given where the site is accepted.
pub fn certify_document(
    alloc: Global,
    texts: &SiteTexts<'_>,
    options: Options,
    site: &Site,
    made: Result<&[u8], &Finding>,
) -> Result<Vec<u8>, AllocError> {
    let found = match made {
        Ok(_) => None,
        Err(finding) => Some(finding),
    };
    let mut document = verdict_of(alloc, texts, options, site, "certify", found)?;
    match made {
        Ok(text) => document.text("certificate", text),
        Err(_) => document.null("certificate"),
    }
    document.finish()
}

// The first wrong row of a certificate.
fn wrong_row(alloc: Global, wrong: WrongRow) -> Members {
    let mut row = Members::new(alloc);
    row.number("line", wrong.line as u64);
    row.text("row", wrong.row.words().as_bytes());
    row
}

/// What a verify says of a certificate for a site: that it is accepted, or its first wrong row.
pub fn verify_document(
    alloc: Global,
    texts: &SiteTexts<'_>,
    site: &Site,
    wrong: Option<WrongRow>,
) -> Result<Vec<u8>, AllocError> {
    let mut document = document_of(alloc, "verify", u8::from(wrong.is_some()));
    insert_verdict(&mut document, wrong.is_none());
    match wrong {
        Some(wrong) => document.object("wrong", wrong_row(alloc, wrong)),
        None => document.null("wrong"),
    }
    let findings = Elements::new(alloc);
    match judged(alloc, texts, site, findings, document) {
        Ok(document) => document.finish(),
        Err(why) => Err(why),
    }
}

// Why a command stopped.
fn first_fault(
    alloc: Global,
    texts: &SiteTexts<'_>,
    halt: Option<&Halt>,
) -> Result<Elements, AllocError> {
    match halt {
        Some(halt) => fault_element(alloc, texts, halt),
        None => Ok(Elements::new(alloc)),
    }
}

// What a document has where nothing of a site is told but faults.
fn parts_of_faults(alloc: Global, faults: Elements) -> Parts {
    Parts {
        policy: None,
        spare: None,
        protected: None,
        findings: Elements::new(alloc),
        warnings: Elements::new(alloc),
        faults,
    }
}

// The fault by which a command stopped and, where all are told, the others behind it.
fn faults_of(
    alloc: Global,
    texts: &SiteTexts<'_>,
    halt: &Halt,
    reports_all: bool,
) -> Result<Elements, AllocError> {
    let faults = fault_element(alloc, texts, halt)?;
    if !reports_all {
        return Ok(faults);
    }
    match other_faults(alloc, texts, halt) {
        Ok(others) => with_others(alloc, faults, others.faults.as_slice()),
        Err(why) => Err(why),
    }
}

fn status_for(halt: Option<&Halt>) -> u8 {
    match halt {
        Some(halt) => status_of(halt),
        None => 0,
    }
}

// The document of a replay that printed these lines and stopped by these faults.
fn document_of_replay(
    alloc: Global,
    lines: &[u8],
    status: u8,
    faults: Elements,
) -> Result<Vec<u8>, AllocError> {
    let parts = parts_of_faults(alloc, faults);
    let Replayed {
        losses,
        events,
        messages,
    } = losses_in(alloc, lines);
    let mut counts = counts_of(alloc, &parts);
    counts.number_if_any("events", events);
    counts.number_if_any("messages", messages);
    counts.number("losses", losses.len());
    let mut document = document_of(alloc, "replay", status);
    document.null("verdict");
    document.object("counts", counts);
    document.array("losses", losses);
    insert_parts(&mut document, parts);
    document.finish()
}

/// What a replay says, whose lines are these: one for each loss and, where all events were made, the last one; and why it
/// stopped where it did. It may have stopped before the first event.
pub fn replay_document(
    alloc: Global,
    texts: &SiteTexts<'_>,
    lines: &[u8],
    halt: Option<&Halt>,
) -> Result<Vec<u8>, AllocError> {
    match first_fault(alloc, texts, halt) {
        Ok(faults) => document_of_replay(alloc, lines, status_for(halt), faults),
        Err(why) => Err(why),
    }
}

// The document of a command that stopped by these faults.
fn document_of_faults(
    alloc: Global,
    command: &str,
    status: u8,
    faults: Elements,
) -> Result<Vec<u8>, AllocError> {
    let parts = parts_of_faults(alloc, faults);
    let counts = counts_of(alloc, &parts);
    let mut document = document_of(alloc, command, status);
    document.null("verdict");
    document.object("counts", counts);
    insert_parts(&mut document, parts);
    document.finish()
}

/// Why the command with this word (`check`, `certify` or `verify`) stopped. With `--all` the document of a check has all
/// faults.
pub fn fault_document(
    alloc: Global,
    texts: &SiteTexts<'_>,
    command: &str,
    options: Options,
    halt: &Halt,
) -> Result<Vec<u8>, AllocError> {
    match faults_of(alloc, texts, halt, options.all) {
        Ok(faults) => document_of_faults(alloc, command, status_of(halt), faults),
        Err(why) => Err(why),
    }
}
