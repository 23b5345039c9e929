//! Answers with a JSON document in place of their text: each with the verdict that the text has.
ghost use Rattle.std.specs.Prelude.{◌≡◌, ℕ, List, IfErr, IfOk, true};
ghost use Rattle.sy_findings.specs.Checks as spec;
ghost use Rattle.sy_findings.specs.Verdicts.{SaysOf};

use std::alloc::{AllocError, Global};
use sy_cert::Certificate;
use sy_checker::{CertFault, certify as make_certificate};
use sy_documents::json::{certify_document, check_document, verify_document};
use sy_findings::verdicts::check::{say_fit, say_kept};
use sy_findings::verdicts::verdict::{WrongRow, count_kept};
use sy_places::site_file::texts::SiteTexts;
use sy_report::command_line::options::Options;
use sy_report::outcome::answer::Answer;
use sy_report::outcome::halt::Halt;
use sy_site::Site;
use sy_site::finding::Refusal;

// An answer with this document.
fn with_document(document: Result<Vec<u8>, AllocError>, is_accepted: bool) -> Result<Answer, Halt>
    ensures ok { IfOk result (λ a. a.is_accepted ≡ is_accepted) }
    ensures err { IfErr result (λ halt. halt ≡ Halt.NoMemory) }
{
    match document {
        Ok(text) => Ok(Answer { text, is_accepted }),
        Err(_) => Err(Halt::NoMemory),
    }
}

/// What a check says of a site.
pub fn document_of_check(
    alloc: Global,
    texts: &SiteTexts<'_>,
    options: Options,
    site: &Site,
) -> Result<Answer, Halt>
    ensures ok { IfOk result (λ a. (bare : List ℕ) × spec.SaysChecked site.now bare a.is_accepted) }
    ensures err { IfErr result (λ halt. halt ≡ Halt.NoMemory) }
{
    match say_kept(alloc, site) {
        Ok(_) => {
            let document = check_document(alloc, texts, options, site, None);
            with_document(document, true)
        }
        Err(Refusal::Finding(finding)) => {
            let document = check_document(alloc, texts, options, site, Some(&finding));
            with_document(document, false)
        }
        Err(Refusal::NoMemory) => Err(Halt::NoMemory),
    }
}

// The document of a certificate that is made.
fn document_of_fit(
    alloc: Global,
    texts: &SiteTexts<'_>,
    options: Options,
    site: &Site,
    certificate: &Certificate,
) -> Result<Answer, Halt>
    ensures text { IfOk result (λ a. (bare : List ℕ) × spec.IsTextOf bare certificate.now) }
    ensures accepted { IfOk result (λ a. a.is_accepted ≡ true) }
    ensures err { IfErr result (λ halt. halt ≡ Halt.NoMemory) }
{
    match say_fit(alloc, certificate) {
        Ok(answer) => {
            let text = answer.text.as_slice();
            let document = certify_document(alloc, texts, options, site, Ok(text));
            with_document(document, true)
        }
        Err(halt) => Err(halt),
    }
}

/// What the making of its certificate says of a site.
pub fn document_of_certify(
    alloc: Global,
    texts: &SiteTexts<'_>,
    options: Options,
    site: &Site,
) -> Result<Answer, Halt>
    ensures ok { IfOk result (λ a. (bare : List ℕ) × spec.SaysCertified site.now bare a.is_accepted) }
    ensures err { IfErr result (λ halt. halt ≡ Halt.NoMemory) }
{
    match make_certificate(alloc, site) {
        Ok(certificate) => document_of_fit(alloc, texts, options, site, &certificate),
        Err(Refusal::Finding(finding)) => {
            let document = certify_document(alloc, texts, options, site, Err(&finding));
            with_document(document, false)
        }
        Err(Refusal::NoMemory) => Err(Halt::NoMemory),
    }
}

/// The verdict on a certificate for a site.
pub fn document_of_verify(
    alloc: Global,
    texts: &SiteTexts<'_>,
    site: &Site,
    certificate: &Certificate,
) -> Result<Answer, Halt>
    ensures ok { IfOk result (λ a. (bare : List ℕ) × SaysOf site.now certificate.now bare a.is_accepted) }
    ensures err { IfErr result (λ halt. halt ≡ Halt.NoMemory) }
{
    match count_kept(alloc, site, certificate) {
        Ok(_) => {
            let document = verify_document(alloc, texts, site, None);
            with_document(document, true)
        }
        Err(CertFault::Wrong { line, row }) => {
            let wrong = Some(WrongRow { line, row });
            let document = verify_document(alloc, texts, site, wrong);
            with_document(document, false)
        }
        Err(CertFault::NoMemory) => Err(Halt::NoMemory),
    }
}
