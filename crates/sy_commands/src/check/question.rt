//! What is asked of one site.
ghost use Rattle.std.specs.Prelude.{◌≡◌, ◌≢◌, ◌≤◌, ◌∷◌, ℕ, List, Some, IfErr, IfOk, false};
ghost use Rattle.std.specs.Io.KnownBytes.{Keeps};
ghost use Rattle.std.specs.List.{Any};
ghost use Rattle.sy_site.specs.Sites.{Site as AnySite};
ghost use Rattle.sy_site.specs.texts.Files.{file_names};
ghost use Rattle.sy_site.specs.Finding.{IsTrueRefusal};
ghost use Rattle.sy_commands.specs.Checks as spec;
ghost use Rattle.sy_commands.specs.Outcomes.{FailsBy, MayEnd};
ghost use Rattle.sy_places.specs.SiteFiles.{IsSiteOf};
ghost use Rattle.sy_commands.specs.Verdicts.{DescribesKept};
ghost use Rattle.sy_report.specs.declared.command_line.command.Asked.TheVariants as any_asked;
ghost use Rattle.sy_places.specs.Halts.{IsNoSite, IsUnread};

use crate::basis::with_basis;
use crate::check::documents::{document_of_certify, document_of_check};
use crate::check::explain::{say_explained, say_found_explained};
use crate::check::explained_survey::say_all_explained;
use crate::check::survey::say_all;
use crate::reading::read_for;
use crate::reporting::print_report;
use std::alloc::Global;
use sy_checker::certify as make_certificate;
use sy_findings::verdicts::check::{say_certified, say_checked, say_fit};
use sy_places::site_file::texts::SiteTexts;
use sy_report::command_line::command::Asked;
use sy_report::command_line::options::Options;
use sy_report::outcome::answer::Answer;
use sy_report::outcome::halt::Halt;
use sy_report::reading::files::Files;
use sy_report::writing::outputs::Outputs;
use sy_site::Site;
use sy_site::laws::one_site;
use sy_warnings::warnings::with_warnings;
use sy_wire::Sink;

// What a check says of a site.
fn said_of_check(
    alloc: Global,
    texts: &SiteTexts<'_>,
    site: &Site,
    options: Options,
) -> Result<Answer, Halt>
    ensures says { IfOk result (λ a. spec.SaysInWords options site.now a.text.items a.is_accepted) }
    ensures verdict { IfOk result (λ a. spec.IsVerdict any_asked.Check site.now a.is_accepted) }
    ensures err { IfErr result (λ halt. halt ≡ Halt.NoMemory) }
{
    match (options.explain, options.all) {
        (false, false) => say_checked(alloc, site),
        (true, false) => say_explained(alloc, texts, site),
        (false, true) => say_all(alloc, site),
        (true, true) => say_all_explained(alloc, texts, site),
    }
}

// The same, with what is unwise in it after that where it explains.
fn check_with_warnings(
    alloc: Global,
    texts: &SiteTexts<'_>,
    site: &Site,
    options: Options,
) -> Result<Answer, Halt>
    ensures words { IfOk result (λ a. spec.BeginsInWords options site.now a.text.items a.is_accepted) }
    ensures verdict { IfOk result (λ a. spec.IsVerdict any_asked.Check site.now a.is_accepted) }
    ensures err { IfErr result (λ halt. halt ≡ Halt.NoMemory) }
{
    match said_of_check(alloc, texts, site, options) {
        Ok(answer) => {
            if options.explain {
                with_warnings(alloc, texts, site, answer)
            } else {
                Ok(answer)
            }
        }
        Err(why) => Err(why),
    }
}

// What the making of a certificate says of a site, explained.
fn certify_explained(alloc: Global, texts: &SiteTexts<'_>, site: &Site) -> Result<Answer, Halt>
    ensures words { IfOk result (λ a. spec.SaysCertifiedInWords site.now a.text.items a.is_accepted) }
    ensures verdict { IfOk result (λ a. spec.IsVerdict any_asked.Certify site.now a.is_accepted) }
    ensures err { IfErr result (λ halt. halt ≡ Halt.NoMemory) }
{
    match make_certificate(alloc, site) {
        Ok(certificate) => say_fit(alloc, &certificate),
        Err(why) => say_found_explained(alloc, texts, site, why),
    }
}

// The same, explained where that is wanted.
fn said_of_certify(
    alloc: Global,
    texts: &SiteTexts<'_>,
    site: &Site,
    options: Options,
) -> Result<Answer, Halt>
    ensures words { IfOk result (λ a. spec.SaysCertifiedBy options.explain site.now a.text.items a.is_accepted) }
    ensures verdict { IfOk result (λ a. spec.IsVerdict any_asked.Certify site.now a.is_accepted) }
    ensures err { IfErr result (λ halt. halt ≡ Halt.NoMemory) }
{
    if options.explain {
        certify_explained(alloc, texts, site)
    } else {
        say_certified(alloc, site)
    }
}

// What is said of a site in words for people.
fn say_text(
    alloc: Global,
    texts: &SiteTexts<'_>,
    site: &Site,
    options: Options,
    asked: Asked,
) -> Result<Answer, Halt>
    ensures words { IfOk result (λ a. spec.SaysWith asked options site.now a.text.items a.is_accepted) }
    ensures verdict { IfOk result (λ a. spec.IsVerdict asked site.now a.is_accepted) }
    ensures err { IfErr result (λ halt. halt ≡ Halt.NoMemory) }
{
    match asked {
        Asked::Check => check_with_warnings(alloc, texts, site, options),
        Asked::Certify => said_of_certify(alloc, texts, site, options),
    }
}

// The same as a document.
fn say_document(
    alloc: Global,
    texts: &SiteTexts<'_>,
    site: &Site,
    options: Options,
    asked: Asked,
) -> Result<Answer, Halt>
    ensures verdict { IfOk result (λ a. spec.IsVerdict asked site.now a.is_accepted) }
    ensures err { IfErr result (λ halt. halt ≡ Halt.NoMemory) }
{
    match asked {
        Asked::Check => document_of_check(alloc, texts, options, site),
        Asked::Certify => document_of_certify(alloc, texts, options, site),
    }
}

// What is said of a site in words for people, or as a document.
fn say<F: Files>(
    alloc: Global,
    files: &F,
    texts: &SiteTexts<'_>,
    site: &Site,
    options: Options,
    asked: Asked,
) -> Result<Answer, Halt>
    ensures words { options.json ≡ false →
        IfOk result (λ a. spec.SaysWith asked options site.now a.text.items a.is_accepted) }
    ensures verdict { IfOk result (λ a. spec.IsVerdict asked site.now a.is_accepted) }
    ensures err { IfErr result (λ halt. halt ≡ Halt.NoMemory) }
{
    if options.json {
        match say_document(alloc, texts, site, options, asked) {
            Ok(answer) => with_basis(alloc, files, texts, answer),
            Err(halt) => Err(halt),
        }
    } else {
        say_text(alloc, texts, site, options, asked)
    }
}

// What is said of the site that the file of this name describes, and the texts that were read for it.
fn answer_of<'a, F: Files>(
    alloc: Global,
    files: &F,
    texts: &mut SiteTexts<'a>,
    options: Options,
    asked: Asked,
    name: &'a str,
) -> Result<Answer, Halt>
    ensures ok { IfOk result (λ a. (text : List ℕ) → F.bytes_of files.now name.now ≡ Some text →
        (site : AnySite) × IsSiteOf (F.bytes_of files.now) text site × spec.IsVerdict asked site a.is_accepted ×
        (options.json ≡ false → spec.SaysWith asked options site a.text.items a.is_accepted)) }
    ensures err { IfErr result (λ halt. (text : List ℕ) → F.bytes_of files.now name.now ≡ Some text →
        IsNoSite (F.bytes_of files.now) text halt) }
    ensures unread { IfErr result (λ halt. (text : List ℕ) → F.bytes_of files.now name.now ≡ Some text →
        IsUnread (F.may_fail files.now) (name.now ∷ file_names text) halt) }
{
    let site = read_for(alloc, files, texts, options, name)?;
    let answer = say(alloc, files, texts, &site, options, asked)?;
    Ok(answer)
}

// The word of the command.
fn word_of(asked: Asked) -> &'static str {
    match asked {
        Asked::Check => "check",
        Asked::Certify => "certify",
    }
}

/// Reads a site and prints what is asked of it: a verdict, which says how many protected classes it keeps or what is
/// found in it, or a certificate that is fit for it, or what is found; with words for people, or as a document. It answers
/// the exit status: 0 where the site is accepted, 1 where it is refused, 2 at a faulty site, 3 where memory runs out, and 4
/// where a read or write failed.
pub fn ask<F: Files, W: Sink, E: Sink>(
    alloc: Global,
    files: &F,
    options: Options,
    asked: Asked,
    site: &str,
    out: &mut Outputs<W, E>,
) -> u8
    ensures ends { (text : List ℕ) → F.bytes_of files.now site.now ≡ Some text →
        MayEnd (spec.AskedIs asked (F.bytes_of files.now) text) result }
    ensures says { options.json ≡ false → (text : List ℕ) → F.bytes_of files.now site.now ≡ Some text →
        spec.AskedReport asked options (F.bytes_of files.now) text result out.old out.new }
    ensures check_safe { (text : List ℕ) → F.bytes_of files.now site.now ≡ Some text → asked ≡ any_asked.Check →
        result ≡ 0 → DescribesKept (F.bytes_of files.now) text }
    ensures fails { (text : List ℕ) → F.bytes_of files.now site.now ≡ Some text →
        FailsBy (Any (F.may_fail files.now) (site.now ∷ file_names text)) result out.old out.new }
    ensures status { result ≤ 4 }
    ensures none_failed { result ≢ 4 → out.new.output.faults ≡ out.old.output.faults }
    ensures quiet { result ≡ 0 → Keeps out.old.errors.contents out.new.errors.contents }
{
    one_site();
    let mut texts = SiteTexts::empty(alloc, site);
    let answer = answer_of(alloc, files, &mut texts, options, asked, site);
    let word = word_of(asked);
    print_report(alloc, files, &texts, word, options, answer, out)
}
