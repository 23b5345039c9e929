//! The inputs, archives and spare actions that the lines of a site file name.

ghost use Rattle.std.specs.Prelude.{◌≡◌, ◌≤◌, ◌⊎◌, ◌∷◌, [], All, List, ℕ, length, map, IfOk, IfErr, OnOk};
ghost use Rattle.sy_site.specs.internal.Lines.{protect_line_of, spare_line_of};
ghost use Rattle.sy_site.specs.internal.Reading.{IsFound, IsLineAt, line_given};
ghost use Rattle.sy_site.specs.internal.Relays as spec;
ghost use Rattle.sy_site.specs.internal.Relays.{AreRelays, HasMore};
ghost use Rattle.sy_site.specs.internal.SiteInside.{site_with};
ghost use Rattle.sy_site.specs.texts.Describes.{File, IsEntry, IsProtection, IsSpare};
ghost use Rattle.sy_site.specs.texts.Describes.{entry_lines, protect_lines, spare_lines, whole_lines};
ghost use Rattle.sy_site.specs.texts.Files.{RELAYS};
ghost use Rattle.sy_site.specs.texts.HasFault.{HasFault};
ghost use Rattle.sy_site.specs.texts.Shapes as shapes;

use crate::fault::SiteFault;
use crate::site::lookup::{Missing, action, archive, entry};
use crate::site::relay::Relay;
use crate::site::{Protection, SiteAction, SiteInput};
use crate::texts::reading::Given;
use crate::texts::relays::push_item;
use crate::texts::shapes::{Line, ProtectLine, SpareLine};
use std::alloc::Global;

// Puts the input of a line behind the others, where it is an entry line.
fn push_entry(
    entries: &mut Vec<SiteInput>,
    given: &Given<'_>,
    relays: &[Relay],
) -> Result<(), SiteFault>
    requires few { length relays.now ≤ RELAYS }
    ensures entries { OnOk result (HasMore (IsEntry (site_with relays.now)) (entry_lines (line_given given.now ∷ []))
        entries.old.items entries.new.items) }
    ensures err { IfErr result (λ fault. (text : List ℕ) (files : List File) → IsFound text given.now
        → AreRelays text files relays.now → (fault ≡ SiteFault.NoMemory) ⊎ HasFault text files fault) }
{
    let Line::Entry(line) = &given.line else {
        return Ok(());
    };
    match entry(relays, line) {
        Ok(input) => push_item(entries, input),
        Err(Missing::Relay) => Err(SiteFault::Line(given.number)),
        Err(Missing::Part) => Err(SiteFault::NoSuchEntry(given.number)),
    }
}

/// The inputs of the entry lines of a text.
pub fn entries(
    alloc: Global,
    found: &[Given<'_>],
    relays: &[Relay],
) -> Result<Vec<SiteInput>, SiteFault>
    requires few { length relays.now ≤ RELAYS }
    ensures entries { IfOk result (λ entries. HasMore (IsEntry (site_with relays.now))
        (entry_lines (map line_given found.now)) [] entries.items) }
    ensures err { IfErr result (λ fault. (text : List ℕ) (files : List File) → All (IsFound text) found.now
        → AreRelays text files relays.now → (fault ≡ SiteFault.NoMemory) ⊎ HasFault text files fault) }
{
    let mut entries = Vec::new(alloc);
    for given in found {
        push_entry(&mut entries, given, relays)?;
    }
    Ok(entries)
}

// Puts the input of a line behind the others, where it is an entry line that ends in `whole`.
#[tactic(auto, using(crate::proofs::lemmas::sites::More::none_of, crate::proofs::lemmas::sites::More::plain_entry, crate::proofs::lemmas::sites::More::whole_entry))]
fn push_whole_entry(
    entries: &mut Vec<SiteInput>,
    given: &Given<'_>,
    relays: &[Relay],
) -> Result<(), SiteFault>
    requires few { length relays.now ≤ RELAYS }
    ensures entries { OnOk result (HasMore (IsEntry (site_with relays.now)) (whole_lines (line_given given.now ∷ []))
        entries.old.items entries.new.items) }
    ensures err { IfErr result (λ fault. (text : List ℕ) (files : List File) → IsFound text given.now
        → AreRelays text files relays.now → (fault ≡ SiteFault.NoMemory) ⊎ HasFault text files fault) }
{
    let Line::Entry(line) = &given.line else {
        return Ok(());
    };
    if !line.is_whole {
        return Ok(());
    }
    push_entry(entries, given, relays)
}

/// The inputs of the entry lines of a text that end in `whole`.
pub fn whole_entries(
    alloc: Global,
    found: &[Given<'_>],
    relays: &[Relay],
) -> Result<Vec<SiteInput>, SiteFault>
    requires few { length relays.now ≤ RELAYS }
    ensures entries { IfOk result (λ entries. HasMore (IsEntry (site_with relays.now))
        (whole_lines (map line_given found.now)) [] entries.items) }
    ensures err { IfErr result (λ fault. (text : List ℕ) (files : List File) → All (IsFound text) found.now
        → AreRelays text files relays.now → (fault ≡ SiteFault.NoMemory) ⊎ HasFault text files fault) }
{
    let mut entries = Vec::new(alloc);
    for given in found {
        push_whole_entry(&mut entries, given, relays)?;
    }
    Ok(entries)
}

// Puts what a protect line of this number says behind the others.
fn protect(
    protections: &mut Vec<Protection>,
    line: ProtectLine<'_>,
    number: usize,
    relays: &[Relay],
) -> Result<(), SiteFault>
    requires few { length relays.now ≤ RELAYS }
    ensures protections { OnOk result (HasMore (IsProtection (site_with relays.now)) (protect_line_of line.entry ∷ [])
        protections.old.items protections.new.items) }
    ensures err { IfErr result (λ fault. (text : List ℕ) (files : List File)
        → IsLineAt text number (shapes.Line.Protect (protect_line_of line.entry))
        → AreRelays text files relays.now → (fault ≡ SiteFault.NoMemory) ⊎ HasFault text files fault) }
{
    match archive(relays, line.relay, line.action) {
        Ok(archive) => {
            let selector = line.selector;
            push_item(protections, Protection { selector, archive })
        }
        Err(Missing::Relay) => Err(SiteFault::Line(number)),
        Err(Missing::Part) => Err(SiteFault::NoSuchArchive(number)),
    }
}

// Puts what a line says behind the others, where it is a protect line.
fn push_protection(
    protections: &mut Vec<Protection>,
    given: Given<'_>,
    relays: &[Relay],
) -> Result<(), SiteFault>
    requires few { length relays.now ≤ RELAYS }
    ensures protections { OnOk result (HasMore (IsProtection (site_with relays.now))
        (protect_lines (line_given given.entry ∷ [])) protections.old.items protections.new.items) }
    ensures err { IfErr result (λ fault. (text : List ℕ) (files : List File) → IsFound text given.entry
        → AreRelays text files relays.now → (fault ≡ SiteFault.NoMemory) ⊎ HasFault text files fault) }
{
    let Given {
        number,
        line,
        behind: _,
    } = given;
    match line {
        Line::Protect(line) => protect(protections, line, number, relays),
        _ => Ok(()),
    }
}

/// What the protect lines of a text say.
pub fn protections(
    alloc: Global,
    found: Vec<Given<'_>>,
    relays: &[Relay],
) -> Result<Vec<Protection>, SiteFault>
    requires few { length relays.now ≤ RELAYS }
    ensures protections { IfOk result (λ protections. HasMore (IsProtection (site_with relays.now))
        (protect_lines (map line_given found.entry.items)) [] protections.items) }
    ensures err { IfErr result (λ fault. (text : List ℕ) (files : List File) → All (IsFound text) found.entry.items
        → AreRelays text files relays.now → (fault ≡ SiteFault.NoMemory) ⊎ HasFault text files fault) }
{
    let mut protections = Vec::new(alloc);
    for given in found {
        push_protection(&mut protections, given, relays)?;
    }
    Ok(protections)
}

// Whether a line is a protect line that names the action of a spare line.
fn names_action(given: &Given<'_>, spare: &SpareLine<'_>) -> bool
    ensures { result ≡ spec.names_action (line_given given.now) (spare_line_of spare.now) }
{
    match &given.line {
        Line::Protect(line) => line.relay == spare.relay && line.action == spare.action,
        _ => false,
    }
}

// Whether a protect line names the action of a spare line.
fn is_protected(found: &[Given<'_>], spare: &SpareLine<'_>) -> bool
    ensures { result ≡ spec.is_protected found.now (spare_line_of spare.now) }
{
    found.iter().any(|given| names_action(given, spare))
}

// Puts the action of a line behind the others, where it is a spare line.
fn push_spare(
    spares: &mut Vec<SiteAction>,
    given: &Given<'_>,
    relays: &[Relay],
    found: &[Given<'_>],
) -> Result<(), SiteFault>
    requires few { length relays.now ≤ RELAYS }
    ensures spares { OnOk result (HasMore (IsSpare (site_with relays.now)) (spare_lines (line_given given.now ∷ []))
        spares.old.items spares.new.items) }
    ensures apart { OnOk result (spec.NoneProtected found.now (spare_lines (line_given given.now ∷ []))) }
    ensures err { IfErr result (λ fault. (text : List ℕ) (files : List File) → IsFound text given.now
        → All (IsFound text) found.now → AreRelays text files relays.now
        → (fault ≡ SiteFault.NoMemory) ⊎ HasFault text files fault) }
{
    let Line::Spare(line) = &given.line else {
        return Ok(());
    };
    match action(relays, line.relay, line.action) {
        Ok(action) => {
            if is_protected(found, line) {
                return Err(SiteFault::SpareArchive(given.number));
            }
            push_item(spares, action)
        }
        Err(Missing::Relay) => Err(SiteFault::Line(given.number)),
        Err(Missing::Part) => Err(SiteFault::NoSuchAction(given.number)),
    }
}

/// The actions of the spare lines of a text, none of which a protect line names.
pub fn spares(
    alloc: Global,
    found: &[Given<'_>],
    relays: &[Relay],
) -> Result<Vec<SiteAction>, SiteFault>
    requires few { length relays.now ≤ RELAYS }
    ensures spares { IfOk result (λ spares. HasMore (IsSpare (site_with relays.now))
        (spare_lines (map line_given found.now)) [] spares.items) }
    ensures apart { OnOk result (spec.NoneProtected found.now (spare_lines (map line_given found.now))) }
    ensures err { IfErr result (λ fault. (text : List ℕ) (files : List File) → All (IsFound text) found.now
        → AreRelays text files relays.now → (fault ≡ SiteFault.NoMemory) ⊎ HasFault text files fault) }
{
    let mut spares = Vec::new(alloc);
    for given in found {
        push_spare(&mut spares, given, relays, found)?;
    }
    Ok(spares)
}
