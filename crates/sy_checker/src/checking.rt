//! Checking: whether a site's texts describe one that keeps each message of its protected classes.

ghost use Rattle.std.specs.Prelude.{[], ◌≡◌, ◌++◌, ◌∷◌, Contains, List, map, true, IfErr, IfOk, OnOk};
ghost use Rattle.sy_wire.specs.declared.class.Class.{Class as AnyClass};
ghost use Rattle.sy_site.specs.Sites as sites;
ghost use Rattle.sy_site.specs.texts.Describes.{file, Describes};
ghost use Rattle.sy_site.specs.machine.Safety.{AreSafe};
ghost use Rattle.sy_site.specs.machine.Soundness.{IsSound, IsSoundFor};
ghost use Rattle.sy_site.specs.machine.States.{SiteState};
ghost use Rattle.sy_site.specs.machine.Steps.{Runs, SiteEvent};
ghost use Rattle.sy_fit.specs.Acceptance.{AreReached, IsOf};
ghost use Rattle.sy_fit.specs.Claims.{RanksStayFalling, StayConfined, StayWrittenOrHead};
ghost use Rattle.sy_checker.specs.Checking as spec;
ghost use Rattle.sy_checker.specs.internal.Checking as inside;
ghost use Rattle.sy_site.specs.Finding.{IsTrueRefusal};
ghost use Rattle.sy_checker.specs.internal.Course.{AreClean, AreCourses, IsCourse, IsCourseAt};
ghost use Rattle.sy_checker.specs.internal.Met.{AreMet};
ghost use Rattle.sy_flows.specs.Flows.{AreFirm};
ghost use Rattle.sy_site.specs.declared.finding.Refusal.TheVariants as refusal;

use crate::archives::met::{Met, are_met, push_met};
use crate::certifying::rows_of_class;
use crate::course::{Course, course_for};
use std::alloc::{AllocError, Global};
use sy_fit::laws::claims_of_sound_sites;
use sy_fit::{Accepted, archives, protected_classes, push_pairs};
use sy_flows::{SiteFirm, firm_of};
use sy_site::finding::Refusal;
use sy_site::laws::one_site;
use sy_site::machine::{sound_sites_are_safe, sound_sites_have_no_finding};
use sy_site::{Site, SiteFault, SiteInput};
use sy_wire::Class;

/// Why a site's texts aren't accepted.
#[derive(Drop)]
pub enum CheckFault {
    /// They have a fault, or memory ran out as they were read.
    Site(SiteFault),
    /// They describe a site in which this is found, or memory ran out.
    Refused(Refusal),
}

// Makes the rows of a class. Each is right as it is made, so they aren't judged again, nor kept.
fn check_rows(alloc: Global, site: &Site, class: Class, course: &Course) -> Result<(), Refusal>
    requires protected { sites.is_protected site.now class ≡ true }
    requires course { IsCourse site.now class course.now }
    requires clean { AreClean site.now class }
    ensures sound { OnOk result (IsSoundFor site.now class) }
    ensures err { IfErr result (λ why. IsTrueRefusal site.now why) }
{
    let _ = rows_of_class(alloc, site, class, course)?;
    Ok(())
}

// Whether each entry leads to each archive that is named for a class whose course stands at this place: it does where
// it was shown for classes before with the same course, and else the class's rows show it.
fn check_archives(
    alloc: Global,
    site: &Site,
    class: Class,
    courses: &[Course],
    place: usize,
    met: &mut Vec<Met>,
) -> Result<(), Refusal>
    requires protected { sites.is_protected site.now class ≡ true }
    requires course { IsCourseAt site.now class courses.now place }
    requires clean { AreClean site.now class }
    requires met { AreMet site.now courses.now met.old.items }
    ensures sound { OnOk result (IsSoundFor site.now class) }
    ensures met { OnOk result (AreMet site.now courses.now met.new.items) }
    ensures err { IfErr result (λ why. IsTrueRefusal site.now why) }
{
    site.is_lawful();
    let named = archives(alloc, site, class)?;
    if are_met(met.as_slice(), place, named.as_slice()) {
        return Ok(());
    }
    check_rows(alloc, site, class, &courses[place])?;
    push_met(met, place, named.as_slice())?;
    Ok(())
}

// Puts each input that a class with this course reaches without spare occurrences with it behind the pairs of the classes
// before.
fn push_reached(
    pairs: &mut Vec<(SiteInput, Class)>,
    site: &Site,
    class: Class,
    course: &Course,
) -> Result<(), AllocError>
    requires course { IsCourse site.now class course.now }
    ensures { OnOk result ((before : List AnyClass) → AreReached site.now before pairs.old.items
        → AreReached site.now (before ++ class ∷ []) pairs.new.items) }
{
    let _ = site;
    push_pairs(pairs, course.found.inputs.as_slice(), class)?;
    Ok(())
}

// Shows that the site is sound for a class. Its course is worked out once for all classes with the same flows, and its
// rows are made only where it has an archive that wasn't met for such a class before. Each input that it
// reaches is put with it behind the pairs of the classes before.
fn check_class(
    alloc: Global,
    site: &Site,
    class: Class,
    firm: &SiteFirm,
    courses: &mut Vec<Course>,
    met: &mut Vec<Met>,
    pairs: &mut Vec<(SiteInput, Class)>,
) -> Result<(), Refusal>
    requires protected { sites.is_protected site.now class ≡ true }
    requires firm { AreFirm site.now firm.now }
    requires courses { AreCourses site.now courses.old.items }
    requires met { AreMet site.now courses.old.items met.old.items }
    ensures courses { OnOk result (AreCourses site.now courses.new.items) }
    ensures met { OnOk result (AreMet site.now courses.new.items met.new.items) }
    ensures sound { OnOk result (IsSoundFor site.now class) }
    ensures pairs { OnOk result ((before : List AnyClass) → AreReached site.now before pairs.old.items
        → AreReached site.now (before ++ class ∷ []) pairs.new.items) }
    ensures err { IfErr result (λ why. IsTrueRefusal site.now why) }
{
    let place = course_for(alloc, site, class, firm, courses)?;
    check_archives(alloc, site, class, courses.as_slice(), place, met)?;
    push_reached(pairs, site, class, &courses[place])?;
    Ok(())
}

// Each input that one of these classes reaches with that class, where the site is sound for each; or what is found of
// the first of which something is.
fn check_classes(
    alloc: Global,
    site: &Site,
    classes: &[Class],
) -> Result<Vec<(SiteInput, Class)>, Refusal>
    requires protected { (class : AnyClass) → Contains classes.now class
        → sites.is_protected site.now class ≡ true }
    ensures sound { OnOk result (inside.AreSound site.now classes.now) }
    ensures pairs { IfOk result (λ pairs. AreReached site.now classes.now pairs.items) }
    ensures err { IfErr result (λ why. IsTrueRefusal site.now why) }
{
    let firm = firm_of(alloc, site)?;
    let mut pairs = Vec::new(alloc);
    let mut courses = Vec::new(alloc);
    let mut met = Vec::new(alloc);
    for class in classes {
        check_class(
            alloc,
            site,
            *class,
            &firm,
            &mut courses,
            &mut met,
            &mut pairs,
        )?;
    }
    Ok(pairs)
}

// What is kept of a sound site.
fn accepted(alloc: Global, site: &Site) -> Result<Accepted, Refusal>
    ensures kept { IfOk result (λ accepted. IsOf site.now accepted) }
    ensures sound { OnOk result (IsSound site.now) }
    ensures err { IfErr result (λ why. IsTrueRefusal site.now why) }
{
    let classes = protected_classes(alloc, site)?;
    let pairs = check_classes(alloc, site, classes.as_slice())?;
    let accepted = Accepted::new(alloc, site, classes, pairs)?;
    Ok(accepted)
}

/// What is kept of a site whose certificate's rows are made class by class, but for classes of which they would say the
/// same again; or what is found in it, as making the certificate finds it. Where it is accepted, no
/// message of a protected class is lost in any run of the site, but at or after a spare action; a sound site is refused
/// for want of memory alone.
pub fn check_site(alloc: Global, site: &Site) -> Result<Accepted, Refusal>
    ensures kept { IfOk result (λ accepted. IsOf site.now accepted) }
    ensures sound { OnOk result (IsSound site.now) }
    ensures confined { OnOk result (StayConfined site.now) }
    ensures falling { OnOk result (RanksStayFalling site.now) }
    ensures written { OnOk result (StayWrittenOrHead site.now) }
    ensures safe { OnOk result ((events : List SiteEvent) (state : SiteState) → Runs site.now events state
        → AreSafe site.now state) }
    ensures found { IfErr result (λ why. IsTrueRefusal site.now why) }
    ensures only { IfErr result (λ why. IsSound site.now → why ≡ refusal.NoMemory) }
{
    site.is_lawful();
    claims_of_sound_sites();
    sound_sites_are_safe();
    sound_sites_have_no_finding();
    match accepted(alloc, site) {
        Ok(accepted) => Ok(accepted),
        Err(why) => Err(why),
    }
}

/// Accepts the texts of a site, its file and those of its relays, where it is sound; of two files of one name the
/// first counts. Where they are accepted, no message of a protected class is lost in any run of the site, but at or after
/// a spare action.
///
/// Refuses texts with a fault, as reading them does, and else a site for what is found in it, as `check_site` does.
/// Texts of a sound site are refused for want of memory alone.
pub fn check(alloc: Global, text: &[u8], files: &[(&str, &[u8])]) -> Result<Accepted, CheckFault>
    ensures kept { IfOk result (λ accepted. spec.IsAccepted text.now
        (map (λ f. file f.0.now f.1.now) files.now) accepted) }
    ensures sound { OnOk result ((site : sites.Site)
        → Describes text.now (map (λ f. file f.0.now f.1.now) files.now) site → IsSound site) }
    ensures confined { OnOk result ((site : sites.Site)
        → Describes text.now (map (λ f. file f.0.now f.1.now) files.now) site → StayConfined site) }
    ensures falling { OnOk result ((site : sites.Site)
        → Describes text.now (map (λ f. file f.0.now f.1.now) files.now) site → RanksStayFalling site) }
    ensures written { OnOk result ((site : sites.Site)
        → Describes text.now (map (λ f. file f.0.now f.1.now) files.now) site → StayWrittenOrHead site) }
    ensures safe { OnOk result ((site : sites.Site)
        → Describes text.now (map (λ f. file f.0.now f.1.now) files.now) site
        → (events : List SiteEvent) (state : SiteState) → Runs site events state → AreSafe site state) }
    // What is refused is there, or memory ran out.
    ensures err { IfErr result (λ fault. spec.IsTrueFault text.now
        (map (λ f. file f.0.now f.1.now) files.now) fault) }
    ensures only { (site : sites.Site) → Describes text.now (map (λ f. file f.0.now f.1.now) files.now) site
        → IsSound site → IfErr result (λ fault. spec.IsNoMemory fault) }
{
    one_site();
    match Site::read(alloc, text, files) {
        Ok(site) => match check_site(alloc, &site) {
            Ok(accepted) => Ok(accepted),
            Err(why) => Err(CheckFault::Refused(why)),
        },
        Err(why) => Err(CheckFault::Site(why)),
    }
}
