//! The course of a class through a site, which classes share that execute the same of each list.

ghost use Rattle.std.specs.Prelude.{[], ◌≡◌, ◌↔◌, ◌++◌, ◌∷◌, ◌<◌, Contains, IfErr, IfNone, IfOk, IfSome, OnOk, Some, length, slice_get, true};
ghost use Rattle.sy_site.specs.Sites as sites;
ghost use Rattle.sy_site.specs.declared.site.SiteInput.{SiteInput as AnyInput};
ghost use Rattle.sy_board.specs.relay.Spares.{Scope};
ghost use Rattle.sy_site.specs.machine.Reach.{Reach};
ghost use Rattle.sy_site.specs.machine.Soundness.{AreRanks};
ghost use Rattle.sy_checker.specs.internal.Course as spec;
ghost use Rattle.sy_flows.specs.Search.{IsSpread};
ghost use Rattle.sy_flows.specs.declared.flows.executed.Executed.TheVariants as executed;
ghost use Rattle.sy_site.specs.Finding.{IsTrueRefusal};
ghost use Rattle.sy_checker.specs.internal.Discarding.{IsCleanUpTo};
ghost use Rattle.sy_flows.specs.Flows.{AreFirm, AreSiteFlows};
ghost use Rattle.sy_flows.specs.Hops.{AreFlows};
ghost use Rattle.sy_checker.specs.internal.Inner.{AreNumbers, HasNoNumbers, number_at};
ghost use Rattle.sy_checker.specs.internal.Loops.{HasNoRanks, rank_at};

use crate::inner::{RelayNumbers, Unnumbered};
use crate::kinds::discarding::is_discarding;
use crate::kinds::search::{finding_at, searched};
use crate::reach::looped::looped;
use crate::reach::loops::{Unranked, ranks_of};
use crate::site_numbers::numbers_of;
use std::alloc::{AllocError, Global};
use sy_flows::{
    ClassFlows, Found, FoundLists, SiteFirm, SiteFlows, class_flows, flows_of, leads_of, reached,
    reached_by_every, same_flows,
};
use sy_site::finding::{Kind, Refusal};
use sy_site::{Site, SiteInput};
use sy_wire::Class;

/// What a class executes, and what follows from that alone.
#[derive(Drop)]
pub struct Course {
    pub flows: ClassFlows,
    /// the inputs that its messages reach without spare occurrences
    pub found: Found,
    /// those that they reach by spare occurrences too
    pub every: Vec<SiteInput>,
    /// a rank for each relay
    pub ranks: Vec<u32>,
    /// numbers of the lists of each relay that posts lead to
    pub numbers: Vec<RelayNumbers>,
    /// the lists that posts and forwards lead to which its messages must execute and that aren't spare, from each entry
    pub leads: Vec<FoundLists>,
    /// the greatest severity, by its number, up to which the reached inputs of classes with this course are clean
    pub severity: u8,
}

// What is found where there are no ranks.
fn unranked(alloc: Global, site: &Site, class: Class, why: Unranked) -> Refusal
    requires protected { sites.is_protected site.now class ≡ true }
    requires none { HasNoRanks site.now class why }
    ensures { IsTrueRefusal site.now result }
{
    match why {
        Unranked::NoMemory => Refusal::NoMemory,
        Unranked::Loop(way, end) => match looped(alloc, site, class, way.as_slice(), end) {
            Ok(finding) => Refusal::Finding(finding),
            Err(_) => Refusal::NoMemory,
        },
    }
}

// Ranks of the relays for a class, or the finding of a loop.
fn ranks_for(
    alloc: Global,
    site: &Site,
    class: Class,
    flows: &ClassFlows,
    reached: &[SiteInput],
) -> Result<Vec<u32>, Refusal>
    requires protected { sites.is_protected site.now class ≡ true }
    requires flows { AreFlows site.now class flows.now }
    requires reached { (x : AnyInput) → Contains reached.now x ↔ Reach site.now class Scope.Every x }
    ensures ranks { IfOk result (λ ranks. AreRanks site.now class (rank_at ranks.items)) }
    ensures many { IfOk result (λ ranks. length ranks.items ≡ length site.now.relays) }
    ensures err { IfErr result (λ why. IsTrueRefusal site.now why) }
{
    match ranks_of(alloc, site, class, flows, reached) {
        Ok(ranks) => Ok(ranks),
        Err(why) => Err(unranked(alloc, site, class, why)),
    }
}

// What is found where there are no numbers.
fn unnumbered(alloc: Global, site: &Site, class: Class, found: &Found, why: Unnumbered) -> Refusal
    requires protected { sites.is_protected site.now class ≡ true }
    requires spread { IsSpread site.now class executed.Firm site.now.entries
        found.now.inputs.items found.now.origins.items }
    requires none { HasNoNumbers site.now class found.now.inputs.items why }
    ensures { IsTrueRefusal site.now result }
{
    match why {
        Unnumbered::NoMemory => Refusal::NoMemory,
        Unnumbered::Loop(place) => {
            match finding_at(alloc, site, class, found, place, Kind::InnerLoop) {
                Ok(finding) => Refusal::Finding(finding),
                Err(_) => Refusal::NoMemory,
            }
        }
    }
}

// Numbers of lists for a class, or the finding of an inner loop.
fn numbers_for(
    alloc: Global,
    site: &Site,
    class: Class,
    flows: &ClassFlows,
    found: &Found,
) -> Result<Vec<RelayNumbers>, Refusal>
    requires protected { sites.is_protected site.now class ≡ true }
    requires flows { AreFlows site.now class flows.now }
    requires spread { IsSpread site.now class executed.Firm site.now.entries
        found.now.inputs.items found.now.origins.items }
    requires reached { (x : AnyInput) → Contains found.now.inputs.items x ↔ Reach site.now class Scope.Firm x }
    ensures numbers { IfOk result (λ numbers. AreNumbers site.now class (number_at numbers.items)) }
    ensures err { IfErr result (λ why. IsTrueRefusal site.now why) }
{
    match numbers_of(alloc, site, class, flows, found.inputs.as_slice()) {
        Ok(numbers) => Ok(numbers),
        Err(why) => Err(unnumbered(alloc, site, class, found, why)),
    }
}

// The greatest severity for which what was found clean for a class is clean: its own, or all where no queue discards.
fn clean_up_to(site: &Site, class: Class) -> u8
    ensures { IsCleanUpTo site.now class result }
{
    if is_discarding(site) {
        class.severity
    } else {
        7
    }
}

// The course of a class with these flows, or what is found of it: first at the inputs that it reaches, then a loop of
// relays, then one of lists.
fn new_course(alloc: Global, site: &Site, class: Class, lists: SiteFlows) -> Result<Course, Refusal>
    requires protected { sites.is_protected site.now class ≡ true }
    requires lists { AreSiteFlows site.now class lists }
    ensures ok { IfOk result (λ course. spec.IsCourse site.now class course) }
    ensures clean { OnOk result (spec.AreClean site.now class) }
    ensures err { IfErr result (λ why. IsTrueRefusal site.now why) }
{
    site.is_lawful();
    let flows = class_flows(alloc, site, class, lists)?;
    let found = reached(alloc, site, class, &flows)?;
    searched(alloc, site, class, &flows, &found)?;
    let every = reached_by_every(alloc, site, class, &flows, found.inputs.as_slice())?;
    let ranks = ranks_for(alloc, site, class, &flows, every.as_slice())?;
    let numbers = numbers_for(alloc, site, class, &flows, &found)?;
    let leads = leads_of(alloc, site, class, &flows)?;
    Ok(Course {
        flows,
        found,
        every,
        ranks,
        numbers,
        leads,
        severity: clean_up_to(site, class),
    })
}

// The first of these courses that has these flows, by its place.
fn same_at(courses: &[Course], flows: &SiteFlows) -> Option<usize>
    ensures some { IfSome result (λ place. spec.IsSameAt courses.now flows.now place) }
    ensures none { IfNone result (spec.IsNew courses.now flows.now) }
{
    for place in 0..courses.len() {
        if same_flows(&courses[place].flows.lists, flows) {
            return Some(place);
        }
    }
    None
}

fn set_severity(courses: &mut [Course], place: usize, severity: u8)
    requires there { place < length courses.old }
    ensures { spec.IsRaised courses.old courses.new place severity }
{
    courses[place].severity = severity;
}

// One of the courses has this severity now.
fn raise(courses: &mut Vec<Course>, place: usize, severity: u8)
    requires there { place < length courses.old.items }
    ensures { spec.IsRaised courses.old.items courses.new.items place severity }
{
    set_severity(courses.as_mut_slice(), place, severity);
}

// What is found of a class at the inputs of its course.
fn search_course(
    alloc: Global,
    site: &Site,
    class: Class,
    courses: &[Course],
    place: usize,
) -> Result<(), Refusal>
    requires protected { sites.is_protected site.now class ≡ true }
    requires course { spec.IsCourseAt site.now class courses.now place }
    ensures clean { OnOk result (spec.AreClean site.now class) }
    ensures err { IfErr result (λ why. IsTrueRefusal site.now why) }
{
    let course = &courses[place];
    searched(alloc, site, class, &course.flows, &course.found)?;
    Ok(())
}

// The severity up to which classes with the course at a place are clean.
fn severity_at(courses: &[Course], place: usize) -> u8
    requires there { place < length courses.now }
    ensures { (course : Course) → slice_get courses.now place ≡ Some course → result ≡ course.severity }
{
    let course = &courses[place];
    course.severity
}

// The place of a course that is the class's too; or what is found of the class at the inputs that it reaches, where no
// class with this course and such a severity was clean before.
fn same_course(
    alloc: Global,
    site: &Site,
    class: Class,
    courses: &mut Vec<Course>,
    place: usize,
) -> Result<usize, Refusal>
    requires protected { sites.is_protected site.now class ≡ true }
    requires courses { spec.AreCourses site.now courses.old.items }
    requires course { spec.IsCourseAt site.now class courses.old.items place }
    ensures courses { OnOk result (spec.AreCourses site.now courses.new.items) }
    ensures kept { OnOk result (spec.AreKept site.now courses.old.items courses.new.items) }
    ensures at { IfOk result (λ at. spec.IsCourseAt site.now class courses.new.items at) }
    ensures clean { OnOk result (spec.AreClean site.now class) }
    ensures err { IfErr result (λ why. IsTrueRefusal site.now why) }
{
    site.is_lawful();
    if class.severity <= severity_at(courses.as_slice(), place) {
        return Ok(place);
    }
    search_course(alloc, site, class, courses.as_slice(), place)?;
    raise(courses, place, class.severity);
    Ok(place)
}

// Puts a course behind the others, and answers its place.
fn push_course(courses: &mut Vec<Course>, course: Course) -> Result<usize, AllocError>
    ensures place { IfOk result (λ place. place ≡ length courses.old.items) }
    ensures courses { OnOk result (courses.new.items ≡ courses.old.items ++ course ∷ []) }
{
    let place = courses.len();
    courses.push(course)?;
    Ok(place)
}

// Puts the course of a class with these flows behind the others; or what is found of it.
fn more_course(
    alloc: Global,
    site: &Site,
    class: Class,
    lists: SiteFlows,
    courses: &mut Vec<Course>,
) -> Result<usize, Refusal>
    requires protected { sites.is_protected site.now class ≡ true }
    requires lists { AreSiteFlows site.now class lists }
    requires courses { spec.AreCourses site.now courses.old.items }
    ensures courses { OnOk result (spec.AreCourses site.now courses.new.items) }
    ensures kept { OnOk result (spec.AreKept site.now courses.old.items courses.new.items) }
    ensures at { IfOk result (λ place. spec.IsCourseAt site.now class courses.new.items place) }
    ensures clean { OnOk result (spec.AreClean site.now class) }
    ensures err { IfErr result (λ why. IsTrueRefusal site.now why) }
{
    let course = new_course(alloc, site, class, lists)?;
    let place = push_course(courses, course)?;
    Ok(place)
}

/// The place of the course of a class whose reached inputs are clean, among those of the classes before, behind which it
/// is put where none has the same flows; or what is found of it, first at these inputs, then a loop of relays, then one of
/// lists.
pub fn course_for(
    alloc: Global,
    site: &Site,
    class: Class,
    firm: &SiteFirm,
    courses: &mut Vec<Course>,
) -> Result<usize, Refusal>
    requires protected { sites.is_protected site.now class ≡ true }
    requires firm { AreFirm site.now firm.now }
    requires courses { spec.AreCourses site.now courses.old.items }
    ensures courses { OnOk result (spec.AreCourses site.now courses.new.items) }
    ensures kept { OnOk result (spec.AreKept site.now courses.old.items courses.new.items) }
    ensures at { IfOk result (λ place. spec.IsCourseAt site.now class courses.new.items place) }
    ensures clean { OnOk result (spec.AreClean site.now class) }
    ensures err { IfErr result (λ why. IsTrueRefusal site.now why) }
{
    site.is_lawful();
    let lists = flows_of(alloc, site, class, firm)?;
    match same_at(courses.as_slice(), &lists) {
        Some(place) => same_course(alloc, site, class, courses, place),
        None => more_course(alloc, site, class, lists, courses),
    }
}
