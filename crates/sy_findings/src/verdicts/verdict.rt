//! The verdict on a certificate, and its line.
ghost use Rattle.std.specs.Prelude.{◌≡◌, IfErr, IfOk, OnOk, false};
ghost use Rattle.sy_fit.specs.Fit.{IsFitFor};
ghost use Rattle.sy_fit.specs.Verifying.{IsFault};
ghost use Rattle.sy_findings.specs.Checks.{KeepsAll};
ghost use Rattle.sy_findings.specs.Verdicts as spec;

use crate::verdicts::check::accepted;
use std::alloc::{AllocError, Global};
use sy_cert::Certificate;
use sy_checker::{CertFault, RowKind, verify};
use sy_report::outcome::answer::Answer;
use sy_report::outcome::halt::Halt;
use sy_report::texts::parts::{Part, append_parts};
use sy_site::Site;

/// The first line of a certificate that is wrong, and what is wanted there.
#[derive(Clone, Copy)]
pub struct WrongRow {
    pub line: usize,
    pub row: RowKind,
}

// That the first line of a certificate that is wrong is this one, and what is wanted there.
fn refused(alloc: Global, line: usize, row: RowKind) -> Result<Answer, AllocError>
    ensures text { IfOk result (λ a. a.text.items ≡ spec.wrong_line line row) }
    ensures refused { IfOk result (λ a. a.is_accepted ≡ false) }
{
    let mut text = Vec::new(alloc);
    let parts = [
        Part::Text(b"refused: certificate line "),
        Part::Number(line as u64),
        Part::Text(b": "),
        Part::Text(row.words().as_bytes()),
        Part::Text(b"\n"),
    ];
    append_parts(&mut text, &parts)?;
    Ok(Answer {
        text,
        is_accepted: false,
    })
}

/// How many classes a site keeps by a certificate that is fit for it, or what is wrong with that.
pub fn count_kept(alloc: Global, site: &Site, certificate: &Certificate) -> Result<usize, CertFault>
    ensures fit { OnOk result (IsFitFor site.now certificate.now) }
    ensures keeps { IfOk result (KeepsAll site.now) }
    ensures wrong { IfErr result (IsFault site.now certificate.now) }
    ensures only { IfErr result (λ fault. IsFitFor site.now certificate.now → fault ≡ CertFault.NoMemory) }
{
    match verify(alloc, site, certificate) {
        Ok(kept) => Ok(kept.classes().len()),
        Err(fault) => Err(fault),
    }
}

// What is said of a certificate for a site, or nothing where memory runs out.
fn say(alloc: Global, site: &Site, certificate: &Certificate) -> Result<Answer, AllocError>
    ensures { IfOk result (λ a. spec.SaysOf site.now certificate.now a.text.items a.is_accepted) }
{
    match count_kept(alloc, site, certificate) {
        Ok(count) => accepted(alloc, count),
        Err(CertFault::Wrong { line, row }) => refused(alloc, line, row),
        Err(CertFault::NoMemory) => Err(AllocError),
    }
}

/// The verdict on a certificate for a site.
pub fn verdict(alloc: Global, site: &Site, certificate: &Certificate) -> Result<Answer, Halt>
    ensures ok { IfOk result (λ a. spec.SaysOf site.now certificate.now a.text.items a.is_accepted) }
    ensures err { IfErr result (λ why. why ≡ Halt.NoMemory) }
{
    match say(alloc, site, certificate) {
        Ok(answer) => Ok(answer),
        Err(_) => Err(Halt::NoMemory),
    }
}
