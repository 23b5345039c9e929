//! Checking a site, with all that is found in it.
ghost use Rattle.std.specs.Prelude.{◌≡◌, IfErr, IfOk, false};
ghost use Rattle.sy_site.specs.machine.Soundness.{IsSound};
ghost use Rattle.sy_site.specs.Finding.{IsTrueRefusal};
ghost use Rattle.sy_report.specs.declared.command_line.command.Asked.TheVariants as asked;
ghost use Rattle.sy_commands.specs.Checks as spec;
ghost use Rattle.sy_commands.specs.internal.Surveys as internal;

use std::alloc::{AllocError, Global};
use sy_checker::survey;
use sy_findings::verdicts::check::say_kept;
use sy_findings::verdicts::tally::tally;
use sy_report::outcome::answer::Answer;
use sy_report::outcome::halt::Halt;
use sy_site::Site;
use sy_site::finding::Refusal;

// All that is found in a site, as a text.
fn tally_of(alloc: Global, site: &Site) -> Result<Vec<u8>, AllocError>
    ensures { IfOk result (λ text. internal.IsSurveyed site.now text.items) }
{
    match survey(alloc, site) {
        Ok(groups) => tally(alloc, site, groups.as_slice()),
        Err(why) => Err(why),
    }
}

// All that is found in a site that isn't sound.
fn refused(alloc: Global, site: &Site) -> Result<Answer, AllocError>
    requires unsound { IsSound site.now → ⊥ }
    ensures ok { IfOk result (λ a. spec.SaysSurvey site.now a.text.items a.is_accepted) }
{
    match tally_of(alloc, site) {
        Ok(text) => Ok(Answer {
            text,
            is_accepted: false,
        }),
        Err(why) => Err(why),
    }
}

// What is said of a site that is refused.
fn say_found(alloc: Global, site: &Site, why: Refusal) -> Result<Answer, Halt>
    requires found { IsTrueRefusal site.now why }
    requires only { IsSound site.now → why ≡ Refusal.NoMemory }
    ensures ok { IfOk result (λ a. spec.SaysSurvey site.now a.text.items a.is_accepted) }
    ensures verdict { IfOk result (λ a. spec.IsVerdict asked.Check site.now a.is_accepted) }
    ensures err { IfErr result (λ halt. halt ≡ Halt.NoMemory) }
{
    match why {
        Refusal::Finding(_) => match refused(alloc, site) {
            Ok(answer) => Ok(answer),
            Err(_) => Err(Halt::NoMemory),
        },
        Refusal::NoMemory => Err(Halt::NoMemory),
    }
}

/// What a check that tells all says of a site: how many protected classes it keeps, or all that is found in it, in a line
/// for all classes of which the same is found at the same input by the same occurrence.
pub fn say_all(alloc: Global, site: &Site) -> Result<Answer, Halt>
    ensures ok { IfOk result (λ a. spec.SaysAll site.now a.text.items a.is_accepted) }
    ensures verdict { IfOk result (λ a. spec.IsVerdict asked.Check site.now a.is_accepted) }
    ensures err { IfErr result (λ halt. halt ≡ Halt.NoMemory) }
{
    match say_kept(alloc, site) {
        Ok(answer) => Ok(answer),
        Err(why) => say_found(alloc, site, why),
    }
}
