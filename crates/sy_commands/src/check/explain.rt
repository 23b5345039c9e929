//! Checking a site, with what is found in it explained.
ghost use Rattle.std.specs.Prelude.{◌≡◌, ◌++◌, IfErr, IfOk, false};
ghost use Rattle.sy_site.specs.Finding.{IsTrueFinding, IsTrueRefusal};
ghost use Rattle.sy_commands.specs.Checks as spec;
ghost use Rattle.sy_findings.specs.Checks as findings;

use std::alloc::{AllocError, Global};
use sy_findings::notes::explanation::explanation;
use sy_findings::verdicts::check::say_kept;
use sy_findings::verdicts::findings::push_finding;
use sy_places::site_file::texts::SiteTexts;
use sy_report::outcome::answer::Answer;
use sy_report::outcome::halt::Halt;
use sy_site::Site;
use sy_site::finding::{Finding, Refusal};

// What is found in a site, with words on it after its lines.
fn refused_with(
    alloc: Global,
    site: &Site,
    finding: &Finding,
    words: &[u8],
) -> Result<Answer, AllocError>
    ensures text { IfOk result (λ a. a.text.items ≡ findings.finding_text site.now finding.now ++ words.now) }
    ensures refused { IfOk result (λ a. a.is_accepted ≡ false) }
{
    let mut text = Vec::new(alloc);
    push_finding(&mut text, site, finding)?;
    text.extend_from_slice(words)?;
    Ok(Answer {
        text,
        is_accepted: false,
    })
}

// What is found in a site, with its explanation.
fn found_explained(
    alloc: Global,
    texts: &SiteTexts<'_>,
    site: &Site,
    finding: &Finding,
) -> Result<Answer, AllocError>
    requires found { IsTrueFinding site.now finding.now }
    ensures ok { IfOk result (λ a. spec.SaysFoundInWords site.now a.text.items a.is_accepted) }
{
    let words = explanation(alloc, texts, site, finding)?;
    let answer = refused_with(alloc, site, finding, words.as_slice())?;
    Ok(answer)
}

/// What is said in words of a site that is refused.
pub fn say_found_explained(
    alloc: Global,
    texts: &SiteTexts<'_>,
    site: &Site,
    why: Refusal,
) -> Result<Answer, Halt>
    requires found { IsTrueRefusal site.now why }
    ensures ok { IfOk result (λ a. spec.SaysFoundInWords site.now a.text.items a.is_accepted) }
    ensures err { IfErr result (λ halt. halt ≡ Halt.NoMemory) }
{
    match why {
        Refusal::Finding(finding) => match found_explained(alloc, texts, site, &finding) {
            Ok(answer) => Ok(answer),
            Err(_) => Err(Halt::NoMemory),
        },
        Refusal::NoMemory => Err(Halt::NoMemory),
    }
}

/// What a check says in words of a site: its verdict, and after a finding what it means, where it is, why messages
/// are lost by it, and what would change that.
pub fn say_explained(alloc: Global, texts: &SiteTexts<'_>, site: &Site) -> Result<Answer, Halt>
    ensures ok { IfOk result (λ a. spec.SaysExplained site.now a.text.items a.is_accepted) }
    ensures err { IfErr result (λ halt. halt ≡ Halt.NoMemory) }
{
    match say_kept(alloc, site) {
        Ok(answer) => Ok(answer),
        Err(why) => say_found_explained(alloc, texts, site, why),
    }
}
