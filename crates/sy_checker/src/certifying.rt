//! Making a certificate: the rows of each protected class, or what is found in the site.

ghost use Rattle.std.specs.Prelude.{[], ◌≡◌, ◌<◌, ◌≤◌, ◌++◌, ◌∷◌, Contains, IfErr, IfOk, OnOk, true};
ghost use Rattle.sy_wire.specs.declared.class.Class.{Class as AnyClass};
ghost use Rattle.sy_cert.specs.declared.kinds.Kind.TheVariants as kinds;
ghost use Rattle.sy_cert.specs.Rows.{IsRow, IsVersion, kind, last_kind, may_follow};
ghost use Rattle.sy_site.specs.Sites as sites;
ghost use Rattle.sy_site.specs.machine.Soundness.{IsSound};
ghost use Rattle.sy_checker.specs.internal.Certifying as spec;
ghost use Rattle.sy_site.specs.Finding.{IsTrueRefusal};
ghost use Rattle.sy_site.specs.declared.finding.Refusal.TheVariants as refusal;
ghost use Rattle.sy_fit.specs.Fit.{AreFit, IsFit, IsFitFor};
ghost use Rattle.sy_flows.specs.Flows.{AreFirm};
ghost use Rattle.sy_checker.specs.internal.Course.{AreClean, AreCourses, IsCourse};

use crate::course::{Course, course_for};
use crate::making::{parts_join, rows_for};
use std::alloc::{AllocError, Global};
use sy_cert::{Certificate, Row};
use sy_fit::laws::fit_is_sound;
use sy_fit::{protected_classes, wanted_rows};
use sy_flows::{SiteFirm, firm_of};
use sy_site::Site;
use sy_site::finding::Refusal;
use sy_site::laws::archives_are_those_named;
use sy_site::machine::sound_sites_have_no_finding;
use sy_wire::Class;

// The rows of a class, or what is found of it: an archive that an entry doesn't lead to.
pub(crate) fn rows_of_class(
    alloc: Global,
    site: &Site,
    class: Class,
    course: &Course,
) -> Result<Vec<Row>, Refusal>
    requires protected { sites.is_protected site.now class ≡ true }
    requires course { IsCourse site.now class course.now }
    requires clean { AreClean site.now class }
    ensures ok { IfOk result (λ rows. spec.AreRowsOf site.now class rows.items) }
    ensures err { IfErr result (λ why. IsTrueRefusal site.now why) }
{
    let (firm, every) = (course.found.inputs.as_slice(), course.every.as_slice());
    let part = wanted_rows(alloc, site, class, &course.flows, firm, every)?;
    let rows = rows_for(
        alloc,
        site,
        class,
        &course.flows,
        course.leads.as_slice(),
        part.as_slice(),
        course.ranks.as_slice(),
        course.numbers.as_slice(),
    )?;
    Ok(rows)
}

// Puts the rows of a class behind the others.
fn push_all(rows: &mut Vec<Row>, mut more: Vec<Row>) -> Result<(), AllocError>
    ensures { OnOk result (rows.new.items ≡ rows.old.items ++ more.items) }
{
    rows.append(&mut more)
}

// Puts the rows of a class behind those of the classes before, whose courses these are.
fn push_class(
    alloc: Global,
    site: &Site,
    class: Class,
    firm: &SiteFirm,
    courses: &mut Vec<Course>,
    rows: &mut Vec<Row>,
) -> Result<(), Refusal>
    requires protected { sites.is_protected site.now class ≡ true }
    requires firm { AreFirm site.now firm.now }
    requires courses { AreCourses site.now courses.old.items }
    ensures courses { OnOk result (AreCourses site.now courses.new.items) }
    ensures rows { OnOk result (spec.AddsRowsOf site.now class rows.old.items rows.new.items) }
    ensures err { IfErr result (λ why. IsTrueRefusal site.now why) }
{
    let place = course_for(alloc, site, class, firm, courses)?;
    let more = rows_of_class(alloc, site, class, &courses[place])?;
    push_all(rows, more)?;
    Ok(())
}

// The rows of these classes, or what is found of the first of which something is.
fn rows_of_classes(alloc: Global, site: &Site, classes: &[Class]) -> Result<Vec<Row>, Refusal>
    requires protected { (class : AnyClass) → Contains classes.now class
        → sites.is_protected site.now class ≡ true }
    ensures ok { IfOk result (λ rows. AreFit site.now classes.now rows.items) }
    ensures err { IfErr result (λ why. IsTrueRefusal site.now why) }
{
    parts_join();
    let firm = firm_of(alloc, site)?;
    let mut rows = Vec::new(alloc);
    let mut courses = Vec::new(alloc);
    for class in classes {
        push_class(alloc, site, *class, &firm, &mut courses, &mut rows)?;
    }
    Ok(rows)
}

// The rows of a certificate that is fit for a site, or what is found of the first class of which something is.
fn fit_rows(alloc: Global, site: &Site) -> Result<Vec<Row>, Refusal>
    ensures ok { IfOk result (λ rows. IsFit site.now rows.items) }
    ensures err { IfErr result (λ why. IsTrueRefusal site.now why) }
{
    let classes = protected_classes(alloc, site)?;
    let rows = rows_of_classes(alloc, site, classes.as_slice())?;
    Ok(rows)
}

// The types of a row's numbers keep them in range. These do nothing; their contracts say so.
fn class_in_range(class: Class)
    ensures facility { class.facility < 24 }
    ensures severity { class.severity < 8 }
{
    let _ = class;
}

fn port_in_range(port: u16)
    ensures { port ≤ 65535 }
{
    let _ = port;
}

fn number_in_range(number: u32)
    ensures { number ≤ 4294967295 }
{
    let _ = number;
}

fn inner_in_range(list: u32, number: u32)
    ensures list { list ≤ 4294967295 }
    ensures number { number ≤ 4294967295 }
{
    number_in_range(list);
    number_in_range(number)
}

// The same of all numbers of a row.
fn in_range(row: &Row)
    ensures { spec.IsInRange row.now }
{
    match row {
        Row::Class(class) => class_in_range(*class),
        Row::Reach { port, .. } | Row::Branch { port, .. } => port_in_range(*port),
        Row::Rank { rank, .. } => number_in_range(*rank),
        Row::Inner { list, number, .. } => inner_in_range(*list, *number),
        Row::Path { port, .. } => port_in_range(*port),
    }
}

// Puts a row behind the others, which has its shape as its numbers are in range.
fn push_row(certificate: &mut Certificate, row: Row) -> Result<(), AllocError>
    requires shape { spec.IsInRange row → IsRow certificate.old.version row }
    requires place { may_follow (last_kind certificate.old.rows) (kind row) ≡ true }
    ensures version { OnOk result (certificate.new.version ≡ certificate.old.version) }
    ensures rows { OnOk result (certificate.new.rows ≡ certificate.old.rows ++ row ∷ []) }
{
    in_range(&row);
    certificate.push(row)
}

// The certificate of a version with these rows.
fn certificate_of(alloc: Global, version: u32, rows: Vec<Row>) -> Result<Certificate, AllocError>
    requires version { IsVersion version }
    requires shaped { spec.AreShaped version kinds.Cert rows.items }
    ensures version { IfOk result (λ certificate. certificate.version ≡ version) }
    ensures rows { IfOk result (λ certificate. certificate.rows ≡ rows.items) }
{
    let mut certificate = Certificate::new(alloc, version);
    for row in rows {
        push_row(&mut certificate, row)?;
    }
    Ok(certificate)
}

// The certificate of a site. Some texts describe it, so its names are those of a certificate.
fn fit_certificate(alloc: Global, site: &Site) -> Result<Certificate, Refusal>
    ensures ok { IfOk result (λ certificate. IsFitFor site.now certificate) }
    ensures err { IfErr result (λ why. IsTrueRefusal site.now why) }
{
    site.is_lawful();
    site.is_described();
    archives_are_those_named();
    let rows = fit_rows(alloc, site)?;
    let certificate = certificate_of(alloc, site.policy(), rows)?;
    Ok(certificate)
}

/// A certificate that is fit for a site; or what is found of the first protected class of which something is: first at
/// the inputs that it reaches without spare occurrences, then a loop of relays, then one of lists, then an archive that an
/// entry doesn't lead to. A sound site is refused for want of memory alone.
pub fn certify(alloc: Global, site: &Site) -> Result<Certificate, Refusal>
    ensures fit { IfOk result (λ certificate. IsFitFor site.now certificate) }
    ensures found { IfErr result (λ why. IsTrueRefusal site.now why) }
    ensures only { IfErr result (λ why. IsSound site.now → why ≡ refusal.NoMemory) }
    ensures sound { OnOk result (IsSound site.now) }
{
    fit_is_sound();
    sound_sites_have_no_finding();
    match fit_certificate(alloc, site) {
        Ok(certificate) => Ok(certificate),
        Err(why) => Err(why),
    }
}
