//! What messages of a class may execute of a list, and where that leads.

ghost use Rattle.std.specs.Prelude.{◌≡◌, ◌<◌, false, Decides, Some, length};
ghost use Rattle.std.specs.Int.{bit_at};
ghost use Rattle.sy_rules.specs.Whole.{body_at};
ghost use Rattle.sy_rules.specs.lists.Sets.{Bits};
ghost use Rattle.sy_rules.specs.lists.Work.{May};
ghost use Rattle.sy_site.specs.Sites as sites;
ghost use Rattle.sy_site.specs.machine.Reach.{occurrence_at};
ghost use Rattle.sy_site.specs.machine.Lawful.{IsInput};
ghost use Rattle.sy_warnings.specs.Following as spec;
ghost use Rattle.sy_warnings.specs.internal.Following as inside;

use sy_rules::laws::plans_are_whole;
use sy_rules::{Occurrence, Plan};
use sy_site::{Site, SiteInput};
use sy_wire::Class;

/// From where messages are followed, and by what: those of protected classes from the entries on, by occurrences that aren't
/// spare; those of all classes from every input on, by every occurrence.
#[derive(Clone, Copy)]
pub enum Following {
    Firm,
    Every,
}

/// A list of a relay.
#[derive(Clone, Copy)]
pub struct SiteList {
    pub relay: u32,
    pub list: u32,
}

// ---- what leads on

/// Whether an occurrence of a relay isn't spare.
pub fn is_firm(site: &Site, relay: u32, is: Occurrence) -> bool
    requires relay { relay < length site.now.relays }
    ensures { Decides result (sites.does_spare site.now relay is ≡ false) }
{
    match is {
        Occurrence::Run(action) => !site.is_spare(relay, action),
        Occurrence::Post(list) => match site.plan(relay).own_action(list) {
            Some(action) => !site.is_spare(relay, action),
            None => true,
        },
    }
}

fn is_in_scope(site: &Site, by: Following, relay: u32, is: Occurrence) -> bool
    requires relay { relay < length site.now.relays }
    ensures { Decides result (inside.IsInScope site.now by relay is) }
{
    match by {
        Following::Every => true,
        Following::Firm => is_firm(site, relay, is),
    }
}

// Whether a set has an occurrence.
fn has(set: u64, number: u32) -> bool
    requires small { number < 64 }
    ensures { Decides result (bit_at set number ≡ 1) }
{
    (set >> number) & 1 == 1
}

// An occurrence of a list, by number.
fn occurrence(site: &Site, at: SiteList, number: u32) -> Option<Occurrence>
    requires there { inside.IsThere site.now at }
    ensures { result ≡ occurrence_at site.now at.relay at.list number }
{
    site.plan(at.relay)
        .occurrences(at.list)
        .get(number as usize)
        .copied()
}

// What messages of a class may execute of a list.
fn may_of(site: &Site, class: Class, at: SiteList) -> u64
    requires there { inside.IsThere site.now at }
    ensures { Bits (May (body_at (sites.plan_at site.now at.relay) at.list) class) result }
{
    let (may, _) = site.plan(at.relay).flows(at.list, class);
    may
}

// This occurrence, where messages of a class may execute it.
fn if_executed(
    site: &Site,
    class: Class,
    by: Following,
    at: SiteList,
    number: u32,
    is: Occurrence,
) -> Option<Occurrence>
    requires there { inside.IsThere site.now at }
    requires stands { occurrence_at site.now at.relay at.list number ≡ Some is }
    requires small { number < 64 }
    ensures { inside.IsDone site.now class by at number result }
{
    if !has(may_of(site, class, at), number) {
        return None;
    }
    if !is_in_scope(site, by, at.relay, is) {
        return None;
    }
    Some(is)
}

/// The occurrence of this number, where messages of a class may execute it of a list, by what is followed.
pub fn executed_at(
    site: &Site,
    class: Class,
    by: Following,
    at: SiteList,
    number: u32,
) -> Option<Occurrence>
    requires there { inside.IsThere site.now at }
    ensures { inside.IsDone site.now class by at number result }
{
    site.is_lawful();
    if number >= 64 {
        return None;
    }
    match occurrence(site, at, number) {
        Some(is) => if_executed(site, class, by, at, number, is),
        None => None,
    }
}

/// The list of an input.
pub fn list_at(site: &Site, input: SiteInput) -> SiteList
    requires there { IsInput site.now input }
    ensures list { result ≡ spec.list_at site.now input }
    ensures there { inside.IsThere site.now result }
{
    let plan: &Plan = site.plan(input.relay);
    plans_are_whole(plan);
    SiteList {
        relay: input.relay,
        list: plan.inputs()[input.input as usize].list,
    }
}

// The list that an occurrence leads on to.
fn leads_on(site: &Site, relay: u32, is: Occurrence) -> Option<SiteList>
    ensures { result ≡ spec.leads_on site.now relay is }
{
    site.is_lawful();
    match is {
        Occurrence::Post(list) => Some(SiteList { relay, list }),
        Occurrence::Run(action) => match site.target(relay, action) {
            Some(input) => Some(list_at(site, input)),
            None => None,
        },
    }
}

/// The list that an occurrence of a list leads on to which messages of the class may execute.
pub fn lead_of(
    site: &Site,
    class: Class,
    by: Following,
    from: SiteList,
    number: u32,
) -> Option<SiteList>
    requires there { inside.IsThere site.now from }
    ensures { inside.IsLead site.now class by from number result }
{
    match executed_at(site, class, by, from, number) {
        Some(is) => leads_on(site, from.relay, is),
        None => None,
    }
}
