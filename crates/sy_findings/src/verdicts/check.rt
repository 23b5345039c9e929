//! Checking a site, and making its certificate.
ghost use Rattle.std.specs.Prelude.{◌≡◌, IfErr, IfOk, false, true};
ghost use Rattle.sy_site.specs.machine.Soundness.{IsSound};
ghost use Rattle.sy_site.specs.Finding.{IsTrueRefusal};
ghost use Rattle.sy_findings.specs.Checks as spec;

use crate::verdicts::findings::push_finding;
use std::alloc::{AllocError, Global};
use sy_cert::{Certificate, write_cert};
use sy_checker::{certify as make_certificate, check_site};
use sy_report::outcome::answer::Answer;
use sy_report::outcome::halt::Halt;
use sy_report::texts::parts::{Part, append_parts};
use sy_site::Site;
use sy_site::finding::{Finding, Refusal};

/// That a site with so many protected classes is accepted.
pub fn accepted(alloc: Global, classes: usize) -> Result<Answer, AllocError>
    ensures text { IfOk result (λ a. a.text.items ≡ spec.accepted_line classes) }
    ensures accepted { IfOk result (λ a. a.is_accepted ≡ true) }
{
    let mut text = Vec::new(alloc);
    let parts = [
        Part::Text(b"accepted: "),
        Part::Number(classes as u64),
        Part::Text(b" protected classes"),
        Part::Text(b"\n"),
    ];
    append_parts(&mut text, &parts)?;
    Ok(Answer {
        text,
        is_accepted: true,
    })
}

// What is found in a site.
fn refused(alloc: Global, site: &Site, finding: &Finding) -> Result<Answer, AllocError>
    ensures text { IfOk result (λ a. a.text.items ≡ spec.finding_text site.now finding.now) }
    ensures refused { IfOk result (λ a. a.is_accepted ≡ false) }
{
    let mut text = Vec::new(alloc);
    push_finding(&mut text, site, finding)?;
    Ok(Answer {
        text,
        is_accepted: false,
    })
}

/// What is said of a site that is refused.
pub fn say_found(alloc: Global, site: &Site, why: Refusal) -> Result<Answer, Halt>
    requires found { IsTrueRefusal site.now why }
    ensures ok { IfOk result (λ a. spec.SaysFound site.now a.text.items a.is_accepted) }
    ensures err { IfErr result (λ halt. halt ≡ Halt.NoMemory) }
{
    match why {
        Refusal::Finding(finding) => match refused(alloc, site, &finding) {
            Ok(answer) => Ok(answer),
            Err(_) => Err(Halt::NoMemory),
        },
        Refusal::NoMemory => Err(Halt::NoMemory),
    }
}

// How many protected classes a site keeps, or why it is refused.
fn count_kept(alloc: Global, site: &Site) -> Result<usize, Refusal>
    ensures keeps { IfOk result (spec.KeepsAll site.now) }
    ensures found { IfErr result (IsTrueRefusal site.now) }
    ensures only { IfErr result (λ why. IsSound site.now → why ≡ Refusal.NoMemory) }
{
    match check_site(alloc, site) {
        Ok(kept) => Ok(kept.classes().len()),
        Err(why) => Err(why),
    }
}

/// That a site is accepted, or why it is refused.
pub fn say_kept(alloc: Global, site: &Site) -> Result<Answer, Refusal>
    ensures ok { IfOk result (λ a. spec.SaysKept site.now a.text.items a.is_accepted) }
    ensures found { IfErr result (IsTrueRefusal site.now) }
    ensures only { IfErr result (λ why. IsSound site.now → why ≡ Refusal.NoMemory) }
{
    match count_kept(alloc, site) {
        Ok(count) => match accepted(alloc, count) {
            Ok(answer) => Ok(answer),
            Err(_) => Err(Refusal::NoMemory),
        },
        Err(why) => Err(why),
    }
}

/// What a check says of a site.
pub fn say_checked(alloc: Global, site: &Site) -> Result<Answer, Halt>
    ensures ok { IfOk result (λ a. spec.SaysChecked site.now a.text.items a.is_accepted) }
    ensures err { IfErr result (λ halt. halt ≡ Halt.NoMemory) }
{
    match say_kept(alloc, site) {
        Ok(answer) => Ok(answer),
        Err(why) => say_found(alloc, site, why),
    }
}

/// The text of a certificate.
pub fn say_fit(alloc: Global, certificate: &Certificate) -> Result<Answer, Halt>
    ensures text { IfOk result (λ a. spec.IsTextOf a.text.items certificate.now) }
    ensures accepted { IfOk result (λ a. a.is_accepted ≡ true) }
    ensures err { IfErr result (λ halt. halt ≡ Halt.NoMemory) }
{
    certificate.is_lawful();
    match write_cert(alloc, certificate) {
        Ok(text) => Ok(Answer {
            text,
            is_accepted: true,
        }),
        Err(_) => Err(Halt::NoMemory),
    }
}

/// What a making of its certificate says of a site.
pub fn say_certified(alloc: Global, site: &Site) -> Result<Answer, Halt>
    ensures ok { IfOk result (λ a. spec.SaysCertified site.now a.text.items a.is_accepted) }
    ensures err { IfErr result (λ halt. halt ≡ Halt.NoMemory) }
{
    match make_certificate(alloc, site) {
        Ok(certificate) => say_fit(alloc, &certificate),
        Err(why) => say_found(alloc, site, why),
    }
}
