//! Verifying: whether a certificate shows that a site keeps each message of its protected classes.
ghost use Rattle.std.specs.Prelude.{◌≡◌, ◌≢◌, ◌≤◌, ◌∷◌, [], ℕ, List, Some, IfErr, IfOk, IfSome, false, true};
ghost use Rattle.std.specs.Io.KnownBytes.{Keeps};
ghost use Rattle.std.specs.List.{Any};
ghost use Rattle.sy_site.specs.texts.Files.{file_names};
ghost use Rattle.sy_findings.specs.Checks.{IsTextOf};
ghost use Rattle.sy_findings.specs.Verdicts as findings;
ghost use Rattle.sy_commands.specs.Outcomes.{FailsBy, MayEnd};
ghost use Rattle.sy_commands.specs.Verdicts as spec;
ghost use Rattle.sy_places.specs.Halts.{IsUnread};
ghost use Rattle.sy_commands.specs.internal.Unverified as internal;

use crate::basis::with_basis;
use crate::check::documents::document_of_verify;
use crate::commands::is_any;
use crate::reading::read_for;
use crate::reporting::print_report;
use std::alloc::Global;
use sy_cert::{Certificate, FaultCode, read_cert};
use sy_findings::verdicts::verdict::verdict;
use sy_places::site_file::texts::{SiteTexts, read_second};
use sy_report::command_line::options::Options;
use sy_report::outcome::answer::Answer;
use sy_report::outcome::halt::Halt;
use sy_report::reading::files::{FileFault, Files};
use sy_report::writing::outputs::Outputs;
use sy_site::Site;
use sy_site::laws::one_site;
use sy_wire::Sink;

// The certificate of a text.
fn certificate_of(alloc: Global, bytes: &[u8]) -> Result<Certificate, Halt>
    ensures ok { IfOk result (λ c. IsTextOf bytes.now c) }
    ensures err { IfErr result (internal.IsNoCertificate bytes.now) }
    ensures unread { IfErr result (IsUnread (λ _. ⊥) []) }
{
    match read_cert(alloc, bytes) {
        Ok(certificate) => {
            certificate.is_lawful();
            Ok(certificate)
        }
        Err(fault) => match fault.code {
            FaultCode::NoMemory => Err(Halt::NoMemory),
            FaultCode::Line | FaultCode::Order | FaultCode::Number => Err(Halt::Certificate(fault)),
        },
    }
}

// Reads the certificate in the file of this name; where that fails, words may ask why.
fn read_certificate<'a, F: Files>(
    alloc: Global,
    files: &F,
    texts: &mut SiteTexts<'a>,
    options: Options,
    name: &'a str,
) -> Result<Certificate, Halt>
    ensures ok { IfOk result (λ c. IfSome (F.bytes_of files.now name.now) (λ bytes. IsTextOf bytes c)) }
    ensures err { IfErr result (λ why. IfSome (F.bytes_of files.now name.now) (λ bytes.
        internal.IsNoCertificate bytes why)) }
    ensures unread { IfErr result (IsUnread (F.may_fail files.now) (name.now ∷ [])) }
{
    match files.read_beside(name) {
        Ok(bytes) => {
            let read = certificate_of(alloc, bytes.as_slice());
            texts.set_second(name, Some(bytes));
            read
        }
        Err(FileFault::Read) => {
            if is_any(options) {
                let _ = read_second(alloc, files, texts, name);
            }
            Err(Halt::ReadFailed)
        }
        Err(FileFault::NoMemory) => Err(Halt::NoMemory),
    }
}

// The verdict on a certificate for a site, as a text or a document.
fn say<F: Files>(
    alloc: Global,
    files: &F,
    texts: &SiteTexts<'_>,
    options: Options,
    site: &Site,
    certificate: &Certificate,
) -> Result<Answer, Halt>
    ensures ok { IfOk result (λ a. (bare : List ℕ) × findings.SaysOf site.now certificate.now bare a.is_accepted) }
    ensures words { options.json ≡ false →
        IfOk result (λ a. findings.SaysOf site.now certificate.now a.text.items a.is_accepted) }
    ensures err { IfErr result (λ why. why ≡ Halt.NoMemory) }
{
    if options.json {
        match document_of_verify(alloc, texts, site, certificate) {
            Ok(answer) => with_basis(alloc, files, texts, answer),
            Err(halt) => Err(halt),
        }
    } else {
        verdict(alloc, site, certificate)
    }
}

// The verdict on the certificate in a file, for the site that another describes.
fn answer_of<'a, F: Files>(
    alloc: Global,
    files: &F,
    texts: &mut SiteTexts<'a>,
    options: Options,
    site_name: &'a str,
    certificate_name: &'a str,
) -> Result<Answer, Halt>
    ensures ok { IfOk result (λ a. (site text : List ℕ) → F.bytes_of files.now site_name.now ≡ Some site →
        F.bytes_of files.now certificate_name.now ≡ Some text →
        (bare : List ℕ) × spec.SaysOfFiles (F.bytes_of files.now) site text bare a.is_accepted) }
    ensures words { options.json ≡ false → IfOk result (λ a. (site text : List ℕ) →
        F.bytes_of files.now site_name.now ≡ Some site → F.bytes_of files.now certificate_name.now ≡ Some text →
        spec.SaysOfFiles (F.bytes_of files.now) site text a.text.items a.is_accepted) }
    ensures err { IfErr result (λ why. (site text : List ℕ) → F.bytes_of files.now site_name.now ≡ Some site →
        F.bytes_of files.now certificate_name.now ≡ Some text →
        internal.HasNoVerdict (F.bytes_of files.now) site text why) }
    ensures unread { IfErr result (λ why. (text : List ℕ) → F.bytes_of files.now site_name.now ≡ Some text →
        IsUnread (F.may_fail files.now) (site_name.now ∷ certificate_name.now ∷ file_names text) why) }
    ensures kept { IfOk result (λ a. (text : List ℕ) → F.bytes_of files.now site_name.now ≡ Some text →
        a.is_accepted ≡ true → spec.DescribesKept (F.bytes_of files.now) text) }
{
    one_site();
    let site = read_for(alloc, files, texts, options, site_name)?;
    let certificate = read_certificate(alloc, files, texts, options, certificate_name)?;
    let answer = say(alloc, files, texts, options, &site, &certificate)?;
    Ok(answer)
}

/// Reads a site and then a certificate, and prints the verdict on it, with words for people after a fault, or as a
/// document. It answers the exit status: 0 where the certificate is fit for the site, 1 where it isn't, 2 at a faulty site,
/// or a text that is no certificate, 3 where memory runs out, and 4 where a read or write failed.
pub fn verify<F: Files, W: Sink, E: Sink>(
    alloc: Global,
    files: &F,
    options: Options,
    site_name: &str,
    certificate_name: &str,
    out: &mut Outputs<W, E>,
) -> u8
    ensures ends { (site text : List ℕ) → F.bytes_of files.now site_name.now ≡ Some site →
        F.bytes_of files.now certificate_name.now ≡ Some text →
        MayEnd (spec.VerifyIs (F.bytes_of files.now) site text) result }
    ensures says { options.json ≡ false → (site text : List ℕ) → F.bytes_of files.now site_name.now ≡ Some site →
        F.bytes_of files.now certificate_name.now ≡ Some text →
        spec.VerifyReport options (F.bytes_of files.now) site text result out.old out.new }
    ensures verify_safe { (text : List ℕ) → F.bytes_of files.now site_name.now ≡ Some text → result ≡ 0 →
        spec.DescribesKept (F.bytes_of files.now) text }
    ensures fails { (text : List ℕ) → F.bytes_of files.now site_name.now ≡ Some text →
        FailsBy (Any (F.may_fail files.now) (site_name.now ∷ certificate_name.now ∷ file_names text)) result out.old out.new }
    ensures status { result ≤ 4 }
    ensures none_failed { result ≢ 4 → out.new.output.faults ≡ out.old.output.faults }
    ensures quiet { result ≡ 0 → Keeps out.old.errors.contents out.new.errors.contents }
{
    let mut texts = SiteTexts::empty(alloc, site_name);
    let answer = answer_of(
        alloc,
        files,
        &mut texts,
        options,
        site_name,
        certificate_name,
    );
    print_report(alloc, files, &texts, "verify", options, answer, out)
}
