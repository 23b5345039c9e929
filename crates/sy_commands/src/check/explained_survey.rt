//! Checking a site, with all that is found in it explained.
ghost use Rattle.std.specs.Prelude.{◌≡◌, IfErr, IfOk};
ghost use Rattle.sy_site.specs.machine.Soundness.{IsSound};
ghost use Rattle.sy_site.specs.Finding.{IsTrueRefusal};
ghost use Rattle.sy_report.specs.declared.command_line.command.Asked.TheVariants as asked;
ghost use Rattle.sy_commands.specs.Checks as spec;
ghost use Rattle.sy_commands.specs.internal.Surveys as internal;

use std::alloc::{AllocError, Global};
use sy_checker::survey;
use sy_findings::verdicts::check::say_kept;
use sy_findings::verdicts::explained_tally::explained_tally;
use sy_places::site_file::texts::SiteTexts;
use sy_report::outcome::answer::Answer;
use sy_report::outcome::halt::Halt;
use sy_site::Site;
use sy_site::finding::Refusal;

// All that is found in a site, as a text with words on each finding.
fn tally_of(alloc: Global, texts: &SiteTexts<'_>, site: &Site) -> Result<Vec<u8>, AllocError>
    ensures { IfOk result (λ text. internal.IsSurveyedInWords site.now text.items) }
{
    match survey(alloc, site) {
        Ok(groups) => explained_tally(alloc, texts, site, groups.as_slice()),
        Err(why) => Err(why),
    }
}

// All that is found in a site that isn't sound, explained.
fn refused_explained(
    alloc: Global,
    texts: &SiteTexts<'_>,
    site: &Site,
) -> Result<Answer, AllocError>
    requires unsound { IsSound site.now → ⊥ }
    ensures ok { IfOk result (λ a. spec.SaysSurveyInWords site.now a.text.items a.is_accepted) }
{
    match tally_of(alloc, texts, site) {
        Ok(text) => Ok(Answer {
            text,
            is_accepted: false,
        }),
        Err(why) => Err(why),
    }
}

// What is said of a site that is refused.
fn say_found_with_all(
    alloc: Global,
    texts: &SiteTexts<'_>,
    site: &Site,
    why: Refusal,
) -> Result<Answer, Halt>
    requires found { IsTrueRefusal site.now why }
    requires only { IsSound site.now → why ≡ Refusal.NoMemory }
    ensures ok { IfOk result (λ a. spec.SaysSurveyInWords site.now a.text.items a.is_accepted) }
    ensures verdict { IfOk result (λ a. spec.IsVerdict asked.Check site.now a.is_accepted) }
    ensures err { IfErr result (λ halt. halt ≡ Halt.NoMemory) }
{
    match why {
        Refusal::Finding(_) => match refused_explained(alloc, texts, site) {
            Ok(answer) => Ok(answer),
            Err(_) => Err(Halt::NoMemory),
        },
        Refusal::NoMemory => Err(Halt::NoMemory),
    }
}

/// What a check that tells and explains all says of a site: how many protected classes it keeps, or all that is found in
/// it, with words on each finding after its line.
pub fn say_all_explained(alloc: Global, texts: &SiteTexts<'_>, site: &Site) -> Result<Answer, Halt>
    ensures ok { IfOk result (λ a. spec.SaysAllInWords site.now a.text.items a.is_accepted) }
    ensures verdict { IfOk result (λ a. spec.IsVerdict asked.Check site.now a.is_accepted) }
    ensures err { IfErr result (λ halt. halt ≡ Halt.NoMemory) }
{
    match say_kept(alloc, site) {
        Ok(answer) => Ok(answer),
        Err(why) => say_found_with_all(alloc, texts, site, why),
    }
}
