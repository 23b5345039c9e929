//! Whether parts of two sites are the same: where they have the same names.
ghost use Rattle.std.specs.Prelude.{◌≡◌};
ghost use Rattle.std.specs.List.{list_any};
ghost use Rattle.sy_rules.specs.Whole.{name_at};
ghost use Rattle.sy_site.specs.Sites.{plan_at};
ghost use Rattle.sy_diff.specs.Changes as spec;

use sy_findings::verdicts::instances::Instance;
use sy_report::texts::parts::{action_name, port_of, relay_name};
use sy_rules::Occurrence;
use sy_site::finding::Kind;
use sy_site::{Site, SiteAction, SiteInput};
use sy_wire::Class;

/// The name of a relay in the old site, and in the new one.
#[derive(Clone, Copy)]
pub struct Rename<'a> {
    pub before: &'a [u8],
    pub after: &'a [u8],
}

/// Two sites, the one before and the one after a change, and which relays got other names.
#[derive(Clone, Copy)]
pub struct Change<'a> {
    pub old: &'a Site,
    pub new: &'a Site,
    pub renames: &'a [Rename<'a>],
}

// The name that a relay of the old site has in the new one.
fn renamed<'a>(renames: &'a [Rename<'a>], name: &'a [u8]) -> &'a [u8]
    ensures { result.now ≡ spec.renamed renames.now name.now }
{
    for rename in renames {
        if rename.before == name {
            return rename.after;
        }
    }
    name
}

fn is_same_relay(change: Change<'_>, before: u32, after: u32) -> bool
    ensures { result ≡ spec.is_same_relay change.entry before after }
{
    renamed(change.renames, relay_name(change.old, before)) == relay_name(change.new, after)
}

/// Whether two inputs are the same.
pub fn is_same_input(change: Change<'_>, before: SiteInput, after: SiteInput) -> bool
    ensures { result ≡ spec.is_same_input change.entry before after }
{
    is_same_relay(change, before.relay, after.relay)
        && port_of(change.old, before) == port_of(change.new, after)
}

/// Whether two actions are the same.
pub fn is_same_action(change: Change<'_>, before: SiteAction, after: SiteAction) -> bool
    ensures { result ≡ spec.is_same_action change.entry before after }
{
    is_same_relay(change, before.relay, after.relay)
        && action_name(change.old, before) == action_name(change.new, after)
}

fn is_same_archive(change: Change<'_>, before: Kind, after: Kind) -> bool
    ensures { result ≡ spec.is_same_archive change.entry before after }
{
    match (before, after) {
        (Kind::Unmet(before), Kind::Unmet(after)) => is_same_action(change, before, after),
        _ => true,
    }
}

fn is_same_kind(change: Change<'_>, before: Kind, after: Kind) -> bool
    ensures { result ≡ spec.is_same_kind change.entry before after }
{
    before.number() == after.number() && is_same_archive(change, before, after)
}

// The name of a list of a relay.
fn list_name(site: &Site, relay: u32, list: u32) -> &[u8]
    ensures { result.now ≡ name_at (plan_at site.now relay) list }
{
    if relay >= site.relays() {
        return b"";
    }
    match site.plan(relay).list_names().get(list as usize) {
        Some(name) => name.as_slice(),
        None => b"",
    }
}

fn is_same_executed(
    change: Change<'_>,
    relays: (u32, u32),
    before: Occurrence,
    after: Occurrence,
) -> bool
    ensures { result ≡ spec.is_same_executed change.entry relays.0 relays.1 before after }
{
    match (before, after) {
        (Occurrence::Run(a), Occurrence::Run(b)) => {
            let a = SiteAction {
                relay: relays.0,
                action: a,
            };
            let b = SiteAction {
                relay: relays.1,
                action: b,
            };
            action_name(change.old, a) == action_name(change.new, b)
        }
        (Occurrence::Post(a), Occurrence::Post(b)) => {
            list_name(change.old, relays.0, a) == list_name(change.new, relays.1, b)
        }
        _ => false,
    }
}

fn is_same_occurrence(change: Change<'_>, before: &Instance, after: &Instance) -> bool
    ensures { result ≡ spec.is_same_occurrence change.entry before.now.input.relay after.now.input.relay before.now.occurrence after.now.occurrence }
{
    let relays = (before.input.relay, after.input.relay);
    match (before.occurrence, after.occurrence) {
        (None, None) => true,
        (Some(a), Some(b)) => is_same_executed(change, relays, a, b),
        _ => false,
    }
}

/// Whether two findings are the same, but for their classes.
pub fn is_same_instance(change: Change<'_>, before: &Instance, after: &Instance) -> bool
    ensures { result ≡ spec.is_same_instance change.entry before.now after.now }
{
    is_same_input(change, before.input, after.input)
        && is_same_kind(change, before.kind, after.kind)
        && is_same_occurrence(change, before, after)
}

/// Whether a class is among these.
pub fn is_among(classes: &[Class], class: Class) -> bool
    ensures { result ≡ list_any (λ it. spec.is_same_class it class) classes.now }
{
    classes.iter().any(|it| it.facility == class.facility && it.severity == class.severity)
}
