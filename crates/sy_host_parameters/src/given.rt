//! The parameters for the host that a relay's file gives.

ghost use Rattle.std.specs.Prelude.{◌≡◌, ◌++◌, IfOk, OnOk, flat_map};
ghost use Rattle.std.specs.Option.{option_copied};
ghost use Rattle.std.specs.Str.{str_eq_ignore_ascii_case};
ghost use Rattle.sy_rules.specs.items.ItemViews.{item as view};
ghost use Rattle.sy_rules.specs.items.Outline.{items as items_of};
ghost use Rattle.sy_rules.specs.parameters.Values.{given as value_of_name};
ghost use Rattle.sy_host_parameters.specs.HostParameters as spec;

use crate::rows::{Holder, HostParameter, row_named, rows};
use crate::values::value_of;
use std::alloc::{AllocError, Global};
use sy_rules::{Item, outline};
use sy_script::tree::{ObjectKind, Param, Script, Span};

/// A parameter for the host that is given: what its value says, and the place of its name and value.
#[derive(Clone, Copy)]
pub struct Given {
    pub parameter: HostParameter,
    pub value: u64,
    pub span: Span,
}

fn same_name(one: &[u8], other: &[u8]) -> bool
    ensures { result ≡ str_eq_ignore_ascii_case one.now other.now }
{
    one.eq_ignore_ascii_case(other)
}

// The value that these parameters give a name, the first where there are several.
pub(crate) fn value_given<'p>(params: &'p [Param], name: &[u8]) -> Option<&'p [u8]>
    ensures { option_copied result ≡ value_of_name name.now params.now }
{
    let mut rest = params;
    while let [param, after @ ..] = rest {
        if same_name(name, param.name.text.as_slice()) {
            return Some(param.value.bytes.as_slice());
        }
        rest = after;
    }
    None
}

// Whether these parameters give a name this value.
fn gives(params: &[Param], name: &[u8], value: &[u8]) -> bool
    ensures { result ≡ spec.gives name.now value.now params.now }
{
    match value_given(params, name) {
        Some(is) => is == value,
        None => false,
    }
}

// What an object that stands alone takes of parameters for the host.
fn holder_of_object(kind: ObjectKind, params: &[Param]) -> Holder
    ensures { result ≡ spec.holder_of_object kind params.now }
{
    match kind {
        ObjectKind::Input => Holder::Receiver,
        ObjectKind::Module => {
            if gives(params, b"load", b"imtcp") {
                Holder::Receiver
            } else {
                Holder::Other
            }
        }
        ObjectKind::Global | ObjectKind::MainQueue => Holder::Other,
    }
}

// What an action takes of them.
pub(crate) fn holder_of_action(params: &[Param]) -> Holder
    ensures { result ≡ spec.holder_of_action params.now }
{
    if gives(params, b"type", b"omfile") {
        Holder::Archive
    } else {
        Holder::Other
    }
}

// What an item of a script takes of them.
fn holder_of(item: Item<'_>) -> Holder
    ensures { result ≡ spec.holder_of (view item.entry) }
{
    match item {
        Item::Object(_, kind, params) => holder_of_object(kind, params),
        Item::Action(_, params) => holder_of_action(params),
        Item::Ruleset(_, _) | Item::Call(_, _) | Item::Test(_) => Holder::Other,
    }
}

// The parameters of an item; none of what takes none.
fn params_of<'s>(item: Item<'s>) -> &'s [Param]
    ensures { result.now ≡ spec.params_of (view item.entry) }
{
    match item {
        Item::Object(_, _, params) | Item::Ruleset(_, params) | Item::Action(_, params) => params,
        Item::Call(_, _) | Item::Test(_) => &[],
    }
}

// The parameter for the host that is given there, where the object takes it, with that value.
fn given_by(holder: Holder, param: &Param) -> Option<Given>
    ensures { result ≡ spec.given_by holder param.now }
{
    let row = row_named(rows(holder), param.name.text.as_slice())?;
    let value = value_of(row.values, param.value.bytes.as_slice())?;
    Some(Given {
        parameter: row.parameter,
        value,
        span: Span {
            start: param.name.span.start,
            end: param.value.span.end,
        },
    })
}

fn is_among(found: &[Given], parameter: HostParameter) -> bool
    ensures { result ≡ spec.is_among parameter found.now }
{
    found
        .iter()
        .any(|given| given.parameter.number() == parameter.number())
}

// Puts what is given next behind what the object gives before, unless that is given twice.
fn push_given(found: &mut Vec<Given>, next: Option<Given>) -> Result<(), AllocError>
    ensures { OnOk result (found.new.items ≡ spec.with_given found.old.items next) }
{
    match next {
        Some(given) if !is_among(found.as_slice(), given.parameter) => {
            found.push(given)?;
            Ok(())
        }
        _ => Ok(()),
    }
}

/// The parameters for the host that an item of a script gives, each once.
pub fn given_in(alloc: Global, item: Item<'_>) -> Result<Vec<Given>, AllocError>
    ensures { IfOk result (λ found. found.items ≡ spec.given_in (view item.entry)) }
{
    let holder = holder_of(item);
    let mut found = Vec::new(alloc);
    let mut rest = params_of(item);
    while let [param, after @ ..] = rest {
        push_given(&mut found, given_by(holder, param))?;
        rest = after;
    }
    Ok(found)
}

fn append_given(alloc: Global, found: &mut Vec<Given>, item: Item<'_>) -> Result<(), AllocError>
    ensures { OnOk result (found.new.items ≡ found.old.items ++ spec.given_in (view item.entry)) }
{
    let given = given_in(alloc, item)?;
    found.extend_from_slice(given.as_slice())
}

/// All that a script gives of them, in the order of the text.
pub fn all_given(alloc: Global, script: &Script) -> Result<Vec<Given>, AllocError>
    ensures { IfOk result (λ found. found.items ≡ flat_map spec.given_in (items_of script.now)) }
{
    let items = outline(alloc, script)?;
    let mut found = Vec::new(alloc);
    let mut rest = items.as_slice();
    while let [item, after @ ..] = rest {
        append_given(alloc, &mut found, *item)?;
        rest = after;
    }
    Ok(found)
}
