//! The relays of a site file's lines: the file of each, read as a plan.

ghost use Rattle.std.specs.Prelude.{◌≡◌, ◌⊎◌, ◌∷◌, ◌++◌, [], All, List, ℕ, Some, map, IfOk, IfErr, OnOk};
ghost use Rattle.std.specs.Arc.{arc_value};
ghost use Rattle.sy_site.specs.internal.Given.{IsRefused};
ghost use Rattle.sy_site.specs.texts.Describes.{file, File, file_named, relay_lines};
ghost use Rattle.sy_site.specs.internal.Lines.{host_of, relay_line_of};
ghost use Rattle.sy_site.specs.internal.Reading.{IsFound, line_given};
ghost use Rattle.sy_site.specs.internal.Relays.{HasMore, IsRefusedRelay, IsWholeRelay};
ghost use Rattle.sy_site.specs.texts.HasFault.{HasFault};

use crate::fault::SiteFault;
use crate::site::relay::Relay;
use crate::texts::files::{Refusal, bytes_of, plan_of};
use crate::texts::hosts::kept_host;
use crate::texts::reading::Given;
use crate::texts::shapes::{Line, RelayLine};
use std::alloc::{AllocError, Global};
use std::sync::Arc;
use sy_rules::Plan;
use sy_rules::laws::plans_are_whole;
use sy_script::Items;

/// Puts one more behind the others.
pub fn push_item<T: Drop>(items: &mut Vec<T>, item: T) -> Result<(), SiteFault>
    ensures ok { OnOk result (items.new.items ≡ items.old.items ++ item ∷ []) }
    ensures err { IfErr result (λ fault. fault ≡ SiteFault.NoMemory) }
{
    match items.push(item) {
        Ok(()) => Ok(()),
        Err(_) => Err(SiteFault::NoMemory),
    }
}

// The fault of a relay line whose file is refused.
fn fault_of(alloc: Global, line: &RelayLine<'_>, number: usize, refusal: Refusal) -> SiteFault
    ensures { (files : List File) (bytes : List ℕ) → file_named files line.now.file.now ≡ Some bytes
        → IsRefused bytes refusal
        → (result ≡ SiteFault.NoMemory) ⊎ IsRefusedRelay files (relay_line_of line.now) number result }
{
    match refusal {
        Refusal::NoMemory => SiteFault::NoMemory,
        Refusal::Fault(why) => match Items::from_slice(alloc, line.name) {
            Ok(name) => SiteFault::Relay(number, name, why),
            Err(_) => SiteFault::NoMemory,
        },
    }
}

// The relay of a line, with this plan.
fn relay_with(alloc: Global, line: &RelayLine<'_>, plan: Plan) -> Result<Relay, AllocError>
    ensures name { IfOk result (λ r. r.name ≡ line.now.name.now) }
    ensures host { IfOk result (λ r. r.host ≡ host_of line.now.host) }
    ensures listens { IfOk result (λ r. r.listens ≡ line.now.listens) }
    ensures plan { IfOk result (λ r. arc_value r.plan ≡ plan) }
{
    Ok(Relay {
        name: Items::from_slice(alloc, line.name)?,
        host: kept_host(alloc, line.host)?,
        listens: line.listens,
        plan: Arc::new(alloc, plan)?,
    })
}

// The relay of a line.
fn relay(
    alloc: Global,
    line: &RelayLine<'_>,
    number: usize,
    files: &[(&str, &[u8])],
) -> Result<Relay, SiteFault>
    ensures relay { IfOk result (λ r. IsWholeRelay (map (λ f. file f.0.now f.1.now) files.now)
        (relay_line_of line.now) r) }
    ensures err { IfErr result (λ fault. (fault ≡ SiteFault.NoMemory)
        ⊎ IsRefusedRelay (map (λ f. file f.0.now f.1.now) files.now) (relay_line_of line.now) number fault) }
{
    let Some(bytes) = bytes_of(files, line.file) else {
        return Err(SiteFault::NoFile(number));
    };
    match plan_of(alloc, bytes) {
        Ok(plan) => {
            plans_are_whole(&plan);
            match relay_with(alloc, line, plan) {
                Ok(relay) => Ok(relay),
                Err(_) => Err(SiteFault::NoMemory),
            }
        }
        Err(refusal) => Err(fault_of(alloc, line, number, refusal)),
    }
}

// Puts the relay of a line behind the others, where it is a relay line.
fn push_relay(
    alloc: Global,
    relays: &mut Vec<Relay>,
    given: &Given<'_>,
    files: &[(&str, &[u8])],
) -> Result<(), SiteFault>
    ensures relays { OnOk result (HasMore (IsWholeRelay (map (λ f. file f.0.now f.1.now) files.now))
        (relay_lines (line_given given.now ∷ [])) relays.old.items relays.new.items) }
    ensures err { IfErr result (λ fault. (text : List ℕ) → IsFound text given.now
        → (fault ≡ SiteFault.NoMemory) ⊎ HasFault text (map (λ f. file f.0.now f.1.now) files.now) fault) }
{
    let Line::Relay(line) = &given.line else {
        return Ok(());
    };
    match relay(alloc, line, given.number, files) {
        Ok(relay) => push_item(relays, relay),
        Err(fault) => Err(fault),
    }
}

/// The relays of the lines of a text.
pub fn relays(
    alloc: Global,
    found: &[Given<'_>],
    files: &[(&str, &[u8])],
) -> Result<Vec<Relay>, SiteFault>
    ensures relays { IfOk result (λ relays. HasMore (IsWholeRelay (map (λ f. file f.0.now f.1.now) files.now))
        (relay_lines (map line_given found.now)) [] relays.items) }
    ensures err { IfErr result (λ fault. (text : List ℕ) → All (IsFound text) found.now
        → (fault ≡ SiteFault.NoMemory) ⊎ HasFault text (map (λ f. file f.0.now f.1.now) files.now) fault) }
{
    let mut relays = Vec::new(alloc);
    for given in found {
        push_relay(alloc, &mut relays, given, files)?;
    }
    Ok(relays)
}
