//! Verifying: whether a certificate is fit for a site.

ghost use Rattle.std.specs.Prelude.{[], ◌≡◌, ◌++◌, ◌∷◌, ◌↔◌, Contains, List, IfErr, IfOk, OnOk};
ghost use Rattle.sy_wire.specs.declared.class.Class.{Class as AnyClass};
ghost use Rattle.sy_site.specs.declared.site.SiteInput.{SiteInput as AnyInput};
ghost use Rattle.sy_board.specs.relay.Spares.{Scope};
ghost use Rattle.sy_site.specs.machine.Reach.{Reach};
ghost use Rattle.sy_site.specs.machine.Safety.{AreSafe};
ghost use Rattle.sy_site.specs.machine.Soundness.{IsSound};
ghost use Rattle.sy_site.specs.machine.States.{SiteState};
ghost use Rattle.sy_site.specs.machine.Steps.{Runs, SiteEvent};
ghost use Rattle.sy_fit.specs.Acceptance.{AreReached, IsOf};
ghost use Rattle.sy_fit.specs.Claims.{RanksStayFalling, StayConfined, StayWrittenOrHead};
ghost use Rattle.sy_fit.specs.Fit.{AreFit, IsFit, IsFitFor};
ghost use Rattle.sy_flows.specs.Flows.{AreFirm};
ghost use Rattle.sy_flows.specs.Hops.{AreFlows};
ghost use Rattle.sy_flows.specs.Walks.{AreWalks};
ghost use Rattle.sy_fit.specs.Verifying as spec;
ghost use Rattle.sy_fit.specs.internal.Verifying as inside;
ghost use Rattle.sy_fit.specs.declared.verifying.CertFault.TheVariants as faults;

use crate::accepted::{Accepted, push_pairs};
use crate::classes::protected_classes;
use crate::laws::{claims_of_sound_sites, fit_is_safe, fit_is_sound};
use crate::rows::part::{first_wrong, row_kind};
use crate::rows::wanted::{RowKind, wanted_rows};
use std::alloc::{AllocError, Global};
use sy_cert::{Certificate, Row};
use sy_flows::{ClassFlows, SiteFirm, Walk, firm_of, walk_for};
use sy_site::{Site, SiteInput};
use sy_wire::Class;

/// Why a certificate isn't accepted.
#[derive(Clone, Copy, Debug, PartialEq, Eq)]
pub enum CertFault {
    /// The first line, `Cert`, where its version isn't the site's policy. Else the first row that isn't the wanted one, or
    /// doesn't hold: its line in the text, counted from 1, one past the last where rows are missing, and the kind wanted
    /// there, or the row's own kind where none is wanted.
    Wrong { line: usize, row: RowKind },
    /// Memory ran out.
    NoMemory,
}

// How many rows stand first for a class, where each is right; or the place and the kind of the first wrong one.
#[derive(Clone, Copy)]
pub(crate) enum Judged {
    Right(usize),
    Wrong(usize, RowKind),
}

// Judges the rows of a class that reaches the first of these inputs without spare occurrences, and with them the second:
// those which these rows begin with.
pub(crate) fn judge(
    alloc: Global,
    site: &Site,
    class: Class,
    flows: &ClassFlows,
    firm: &[SiteInput],
    every: &[SiteInput],
    rows: &[Row],
) -> Result<Judged, AllocError>
    requires flows { AreFlows site.now class flows.now }
    requires firm { (x : AnyInput) → Contains firm.now x ↔ Reach site.now class Scope.Firm x }
    requires every { (x : AnyInput) → Contains every.now x ↔ Reach site.now class Scope.Every x }
    ensures { IfOk result (λ judged. inside.IsJudged site.now class rows.now judged) }
{
    let part = wanted_rows(alloc, site, class, flows, firm, every)?;
    match first_wrong(site, class, flows, part.as_slice(), rows) {
        Some((place, kind)) => Ok(Judged::Wrong(place, kind)),
        None => Ok(Judged::Right(part.len())),
    }
}

// Judges the rows of a class, and puts each of the first of these inputs with it behind the pairs of the classes before.
fn judge_class(
    alloc: Global,
    site: &Site,
    class: Class,
    flows: &ClassFlows,
    firm: &[SiteInput],
    every: &[SiteInput],
    rows: &[Row],
    pairs: &mut Vec<(SiteInput, Class)>,
) -> Result<Judged, AllocError>
    requires flows { AreFlows site.now class flows.now }
    requires firm { (x : AnyInput) → Contains firm.now x ↔ Reach site.now class Scope.Firm x }
    requires every { (x : AnyInput) → Contains every.now x ↔ Reach site.now class Scope.Every x }
    ensures judged { IfOk result (λ judged. inside.IsJudged site.now class rows.now judged) }
    ensures pairs { OnOk result ((before : List AnyClass) → AreReached site.now before pairs.old.items
        → AreReached site.now (before ++ class ∷ []) pairs.new.items) }
{
    push_pairs(pairs, firm, class)?;
    judge(alloc, site, class, flows, firm, every, rows)
}

// The same, with what the class executes and reaches, which is worked out once for all classes that execute the same.
fn judge_next(
    alloc: Global,
    site: &Site,
    class: Class,
    firm: &SiteFirm,
    walks: &mut Vec<Walk>,
    rows: &[Row],
    pairs: &mut Vec<(SiteInput, Class)>,
) -> Result<Judged, AllocError>
    requires firm { AreFirm site.now firm.now }
    requires walks { AreWalks site.now walks.old.items }
    ensures walks { OnOk result (AreWalks site.now walks.new.items) }
    ensures judged { IfOk result (λ judged. inside.IsJudged site.now class rows.now judged) }
    ensures pairs { OnOk result ((before : List AnyClass) → AreReached site.now before pairs.old.items
        → AreReached site.now (before ++ class ∷ []) pairs.new.items) }
{
    let place = walk_for(alloc, site, class, firm, walks)?;
    let walk = &walks[place];
    judge_class(
        alloc,
        site,
        class,
        &walk.flows,
        walk.firm.as_slice(),
        walk.every.as_slice(),
        rows,
        pairs,
    )
}

// Whether the rows are those that are wanted for these classes. Each input that one of them reaches without spare
// occurrences is put with it.
fn check_rows(
    alloc: Global,
    site: &Site,
    firm: &SiteFirm,
    classes: &[Class],
    walks: &mut Vec<Walk>,
    rows: &[Row],
    pairs: &mut Vec<(SiteInput, Class)>,
) -> Result<(), CertFault>
    requires firm { AreFirm site.now firm.now }
    requires walks { AreWalks site.now walks.old.items }
    requires none { pairs.old.items ≡ [] }
    ensures ok { OnOk result (AreFit site.now classes.now rows.now) }
    ensures pairs { OnOk result (AreReached site.now classes.now pairs.new.items) }
    ensures err { IfErr result (λ fault. inside.IsFirstWrong site.now classes.now rows.now fault) }
{
    let mut done = 0;
    for class in classes {
        let Ok(judged) = judge_next(alloc, site, *class, firm, walks, &rows[done..], pairs) else {
            return Err(CertFault::NoMemory);
        };
        match judged {
            Judged::Right(count) => done += count,
            Judged::Wrong(place, row) => {
                let line = done + place + 2;
                return Err(CertFault::Wrong { line, row });
            }
        }
    }
    match rows.get(done) {
        Some(row) => {
            let (line, row) = (done + 2, row_kind(row));
            Err(CertFault::Wrong { line, row })
        }
        None => Ok(()),
    }
}

// Accepts rows that are fit for a site, and no others.
fn verify_rows(alloc: Global, site: &Site, rows: &[Row]) -> Result<Accepted, CertFault>
    ensures fit { OnOk result (IsFit site.now rows.now) }
    ensures wrong { IfErr result (λ fault. inside.AreWrongRows site.now rows.now fault) }
    ensures accepted { IfOk result (λ accepted. IsOf site.now accepted) }
{
    site.is_lawful();
    fit_is_sound();
    let Ok(classes) = protected_classes(alloc, site) else {
        return Err(CertFault::NoMemory);
    };
    let Ok(firm) = firm_of(alloc, site) else {
        return Err(CertFault::NoMemory);
    };
    let mut pairs = Vec::new(alloc);
    let mut walks = Vec::new(alloc);
    if let Err(fault) = check_rows(
        alloc,
        site,
        &firm,
        classes.as_slice(),
        &mut walks,
        rows,
        &mut pairs,
    ) {
        return Err(fault);
    }
    let Ok(accepted) = Accepted::new(alloc, site, classes, pairs) else {
        return Err(CertFault::NoMemory);
    };
    Ok(accepted)
}

/// Accepts a certificate that is fit for a site, and no other; one that is fit is refused for want of memory alone. Where
/// it accepts, the site is sound, and no message of a protected class is lost in any run of it, but at or after a spare
/// action.
pub fn verify(alloc: Global, site: &Site, certificate: &Certificate) -> Result<Accepted, CertFault>
    ensures fit { OnOk result (IsFitFor site.now certificate.now) }
    ensures wrong { IfErr result (λ fault. spec.IsFault site.now certificate.now fault) }
    ensures only { IfErr result (λ fault. IsFitFor site.now certificate.now → fault ≡ faults.NoMemory) }
    ensures accepted { IfOk result (λ accepted. IsOf site.now accepted) }
    ensures sound { OnOk result (IsSound site.now) }
    ensures confined { OnOk result (StayConfined site.now) }
    ensures falling { OnOk result (RanksStayFalling site.now) }
    ensures written { OnOk result (StayWrittenOrHead site.now) }
    ensures safe { OnOk result ((events : List SiteEvent) (state : SiteState) → Runs site.now events state
        → AreSafe site.now state) }
{
    site.is_lawful();
    fit_is_sound();
    claims_of_sound_sites();
    fit_is_safe();
    if certificate.version() != site.policy() {
        let (line, row) = (1, RowKind::Cert);
        return Err(CertFault::Wrong { line, row });
    }
    match verify_rows(alloc, site, certificate.rows()) {
        Ok(accepted) => Ok(accepted),
        Err(fault) => Err(fault),
    }
}
