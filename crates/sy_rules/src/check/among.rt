//! What is wrong with an item among the others. All of it stands at the place of the item, but for what is wrong with an expression.

ghost use Rattle.std.specs.Prelude.{◌≡◌, ◌++◌, ◌∷◌, [], map, length, not, codes, IfOk, IfErr, OnOk};
ghost use Rattle.std.specs.Fmt.{decimal};
ghost use Rattle.std.specs.Option.{option_copied};
ghost use Rattle.std.specs.Str.{bytes_eq};
ghost use Rattle.sy_rules.specs.Faults.{fault, when};
ghost use Rattle.sy_rules.specs.internal.Checking.{IsFound};
ghost use Rattle.sy_rules.specs.parameters.Objects.{input_of};
ghost use Rattle.sy_rules.specs.parameters.Values.{faults};
ghost use Rattle.sy_rules.specs.check.ScriptFaults as spec;
ghost use Rattle.sy_rules.specs.parts.Plans.{default_ruleset};
ghost use Rattle.sy_select.specs.Trees.{tree_faults};

use crate::check::names::Names;
use crate::fault::FaultCode;
use crate::items::borrowed::{port_of, ruleset_of_input};
use crate::items::fault::ItemFault;
use crate::limits::{ACTIONS, INPUTS, RULESETS};
use crate::parameters::kind::Kind;
use crate::parameters::values::is_one_of;
use std::alloc::{AllocError, Global};
use sy_script::Items;
use sy_script::tree::{ExprTree, Param};
use sy_select::fault::FaultCode as SelectCode;
use sy_select::{Expr, SelectFault};

/// The name of the ruleset of the statements outside every other.
pub const DEFAULT_RULESET: &[u8] = b"RSYSLOG_DefaultRuleset";

/// Refuses where a fault is there.
fn refuse_if(alloc: Global, there: bool, code: FaultCode, word: &[u8]) -> Result<(), ItemFault>
    ensures ok { OnOk result (when there (fault code word.now) ≡ []) }
    ensures err { IfErr result (λ f. IsFound (when there (fault code word.now)) f) }
{
    if there {
        Err(ItemFault::new(alloc, code, word, None))
    } else {
        Ok(())
    }
}

fn check_count(alloc: Global, most: usize, before: usize, word: &[u8]) -> Result<(), ItemFault>
    ensures ok { OnOk result (spec.too_many most before word.now ≡ []) }
    ensures err { IfErr result (λ f. IsFound (spec.too_many most before word.now) f) }
{
    refuse_if(alloc, most <= before, FaultCode::Range, word)
}

/// Refuses a second main queue.
pub fn check_main_queue(alloc: Global, there: bool) -> Result<(), ItemFault>
    ensures ok { OnOk result (spec.second_main_queue there ≡ []) }
    ensures err { IfErr result (λ f. IsFound (spec.second_main_queue there) f) }
{
    refuse_if(alloc, there, FaultCode::Duplicate, b"main_queue")
}

fn check_loaded(alloc: Global, loaded: bool) -> Result<(), ItemFault>
    ensures ok { OnOk result (spec.not_loaded loaded ≡ []) }
    ensures err { IfErr result (λ f. IsFound (spec.not_loaded loaded) f) }
{
    refuse_if(alloc, !loaded, FaultCode::NotLoaded, b"imtcp")
}

// Whether it is the name of the default ruleset.
fn is_default(name: &[u8]) -> bool
    ensures { result ≡ bytes_eq name.now default_ruleset }
{
    name == DEFAULT_RULESET
}

// Of an input, which may name the default ruleset.
fn check_bound(alloc: Global, names: &Names<'_>, name: Option<&[u8]>) -> Result<(), ItemFault>
    ensures ok { OnOk result (spec.unknown_ruleset names.now (option_copied name.entry) ≡ []) }
    ensures err { IfErr result (λ f. IsFound (spec.unknown_ruleset names.now (option_copied name.entry)) f) }
{
    match name {
        None => Ok(()),
        Some(name) => {
            let known = is_default(name) || names.has(name);
            refuse_if(alloc, !known, FaultCode::Unknown, name)
        }
    }
}

// A fault whose word is a number.
fn numbered(alloc: Global, code: FaultCode, number: u16) -> ItemFault
    ensures { IsFound (fault code (decimal number) ∷ []) result }
{
    match number.to_string(alloc) {
        Ok(text) => ItemFault::new(alloc, code, text.as_bytes(), None),
        Err(_) => ItemFault::no_memory(alloc),
    }
}

fn check_port(alloc: Global, ports: &[u16], port: u16) -> Result<(), ItemFault>
    ensures ok { OnOk result (spec.same_port ports.now port ≡ []) }
    ensures err { IfErr result (λ f. IsFound (spec.same_port ports.now port) f) }
{
    if ports.contains(&port) {
        Err(numbered(alloc, FaultCode::SamePort, port))
    } else {
        Ok(())
    }
}

// An input is bound to the default ruleset or to one of these names, and has a port of its own.
fn check_place(
    alloc: Global,
    names: &Names<'_>,
    ports: &[u16],
    params: &[Param],
) -> Result<(), ItemFault>
    requires { faults Kind.Input params.now ≡ [] }
    ensures ok { OnOk result (spec.unknown_ruleset names.now (input_of params.now).ruleset_name
        ++ spec.same_port ports.now (input_of params.now).port ≡ []) }
    ensures err { IfErr result (λ f. IsFound (spec.unknown_ruleset names.now (input_of params.now).ruleset_name
        ++ spec.same_port ports.now (input_of params.now).port) f) }
{
    check_bound(alloc, names, ruleset_of_input(params))?;
    check_port(alloc, ports, port_of(params))
}

/// Refuses an input after those of these ports, in a file whose rulesets have these names.
pub fn check_input(
    alloc: Global,
    loaded: bool,
    names: &Names<'_>,
    ports: &[u16],
    params: &[Param],
) -> Result<(), ItemFault>
    requires { faults Kind.Input params.now ≡ [] }
    ensures ok { OnOk result (spec.input_faults loaded names.now ports.now (input_of params.now) ≡ []) }
    ensures err { IfErr result (λ f. IsFound (spec.input_faults loaded names.now ports.now (input_of params.now)) f) }
{
    check_count(alloc, INPUTS, ports.len(), b"input")?;
    check_loaded(alloc, loaded)?;
    check_place(alloc, names, ports, params)
}

/// Refuses a ruleset after those of these names.
pub fn check_ruleset(alloc: Global, before: &[&[u8]], name: &[u8]) -> Result<(), ItemFault>
    ensures ok { OnOk result (spec.ruleset_faults (map (λ n. n.now) before.now) name.now ≡ []) }
    ensures err { IfErr result (λ f. IsFound (spec.ruleset_faults (map (λ n. n.now) before.now) name.now) f) }
{
    check_count(alloc, RULESETS, before.len(), b"ruleset")?;
    let there = is_default(name) || is_one_of(name, before);
    refuse_if(alloc, there, FaultCode::Duplicate, name)
}

fn is_among(name: &[u8], names: &[Items<u8>]) -> bool
    ensures { result ≡ spec.is_among name.now names.now }
{
    for other in names {
        if name == other.as_slice() {
            return true;
        }
    }
    false
}

/// Refuses an action of this name after those of these names.
pub fn check_action(alloc: Global, before: &[Items<u8>], name: &[u8]) -> Result<(), ItemFault>
    ensures ok { OnOk result (spec.action_faults before.now name.now ≡ []) }
    ensures err { IfErr result (λ f. IsFound (spec.action_faults before.now name.now) f) }
{
    check_count(alloc, ACTIONS, before.len(), b"action")?;
    let there = is_among(name, before);
    refuse_if(alloc, there, FaultCode::Duplicate, name)
}

/// Refuses a call of a ruleset that isn't among these names, or of the default one.
pub fn check_call(alloc: Global, names: &Names<'_>, name: &[u8]) -> Result<(), ItemFault>
    ensures ok { OnOk result (spec.call_faults names.now name.now ≡ []) }
    ensures err { IfErr result (λ f. IsFound (spec.call_faults names.now name.now) f) }
{
    let unknown = is_default(name) || !names.has(name);
    refuse_if(alloc, unknown, FaultCode::Unknown, name)
}

fn code_of(code: SelectCode) -> FaultCode
    ensures { result ≡ spec.code_of code }
{
    match code {
        SelectCode::Facility => FaultCode::Facility,
        SelectCode::Severity => FaultCode::Severity,
        SelectCode::Shape => FaultCode::Shape,
        SelectCode::Operator => FaultCode::Operator,
        SelectCode::Unknown => FaultCode::Unknown,
        SelectCode::NoMemory => FaultCode::NoMemory,
    }
}

/// Refuses a test that is no expression. It goes as deep as the test nests.
pub fn check_test(alloc: Global, test: &ExprTree) -> Result<(), ItemFault>
    ensures ok { OnOk result (map spec.as_item_fault (tree_faults test.now) ≡ []) }
    ensures err { IfErr result (λ f. IsFound (map spec.as_item_fault (tree_faults test.now)) f) }
{
    match Expr::read(alloc, test) {
        Ok(_) => Ok(()),
        Err(SelectFault { code, word, span }) => Err(ItemFault {
            code: code_of(code),
            word,
            place: Some(span),
        }),
    }
}
