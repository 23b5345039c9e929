//! The files of relays, and the plans that they are.

ghost use Rattle.std.specs.Prelude.{◌≡◌, ◌⊎◌, ℕ, List, map, IfOk, IfErr};
ghost use Rattle.std.specs.Option.{option_copied};
ghost use Rattle.sy_script.specs.declared.tree.Script.{Script as Tree};
ghost use Rattle.sy_script.specs.Grammar.{IsScript};
ghost use Rattle.sy_script.specs.Faults.{Stands};
ghost use Rattle.sy_rules.specs.check.FaultsThere.{HasFault};
ghost use Rattle.sy_rules.specs.Faults.{no_memory};
ghost use Rattle.sy_rules.specs.PlanValue.{IsPlan};
ghost use Rattle.sy_site.specs.internal.Given.{IsRefused};
ghost use Rattle.sy_site.specs.texts.Describes.{file, file_named};

use crate::fault::RelayFault;
use std::alloc::Global;
use sy_rules::{FaultCode as PlanCode, Plan, PlanFault};
use sy_script::tree::Script;
use sy_script::{FaultCode as ScriptCode, ScriptFault, read_script};

/// The bytes of the first file of a name.
pub fn bytes_of<'f>(files: &[(&str, &'f [u8])], name: &str) -> Option<&'f [u8]>
    ensures { option_copied result ≡ file_named (map (λ f. file f.0.now f.1.now) files.now) name.now }
{
    let mut rest = files;
    while let [(first, bytes), behind @ ..] = rest {
        if *first == name {
            return Some(*bytes);
        }
        rest = behind;
    }
    None
}

/// Why a file is no plan, or that memory ran out.
#[derive(Drop)]
pub enum Refusal {
    Fault(RelayFault),
    NoMemory,
}

// What is refused of a text that is no script.
fn no_script(fault: ScriptFault) -> Refusal
    ensures { (bytes : List ℕ) → Stands bytes fault → IsRefused bytes result }
{
    match fault.code {
        ScriptCode::NoMemory => Refusal::NoMemory,
        _ => Refusal::Fault(RelayFault::Script(fault)),
    }
}

// What is refused of a script without a plan.
fn no_plan(fault: PlanFault) -> Refusal
    ensures { (bytes : List ℕ) (script : Tree) → IsScript bytes script → (fault ≡ no_memory) ⊎ HasFault script fault
        → IsRefused bytes result }
{
    match fault.code {
        PlanCode::NoMemory => Refusal::NoMemory,
        _ => Refusal::Fault(RelayFault::Plan(fault)),
    }
}

fn script_of(alloc: Global, bytes: &[u8]) -> Result<Script, Refusal>
    ensures script { IfOk result (λ script. IsScript bytes.now script) }
    ensures err { IfErr result (λ r. IsRefused bytes.now r) }
{
    match read_script(alloc, bytes) {
        Ok(script) => Ok(script),
        Err(fault) => Err(no_script(fault)),
    }
}

/// The plan that a file is.
pub fn plan_of(alloc: Global, bytes: &[u8]) -> Result<Plan, Refusal>
    ensures plan { IfOk result (λ plan. (script : Tree) × IsScript bytes.now script × IsPlan script plan) }
    ensures err { IfErr result (λ r. IsRefused bytes.now r) }
{
    match script_of(alloc, bytes) {
        Ok(script) => match Plan::load(alloc, &script) {
            Ok(plan) => Ok(plan),
            Err(fault) => Err(no_plan(fault)),
        },
        Err(refusal) => Err(refusal),
    }
}
