//! Which actions hold up protected messages.

ghost use Rattle.std.specs.Prelude.{◌≡◌, ◌<◌, ◌≤◌, ℕ, Decides, IfNone, IfOk, IfSome, Some, length};
ghost use Rattle.sy_board.specs.relay.Plans.{occurrences_at};
ghost use Rattle.sy_site.specs.machine.Reach.{occurrence_at};
ghost use Rattle.sy_rules.specs.Whole.{queue_for};
ghost use Rattle.sy_rules.specs.declared.lists.occurrence.Occurrence.{Occurrence as AnyOccurrence};
ghost use Rattle.sy_rules.specs.declared.lists.occurrence.Occurrence.TheVariants as occurrence;
ghost use Rattle.sy_site.specs.Sites.{plan_at};
ghost use Rattle.sy_warnings.specs.Following as follows;
ghost use Rattle.sy_warnings.specs.Holding as spec;
ghost use Rattle.sy_warnings.specs.internal.Following as inside;
ghost use Rattle.sy_warnings.specs.internal.Holding as held;

use crate::coming::{ClassLists, all_lists, comes};
use crate::following::{Following, SiteList, executed_at};
use std::alloc::{AllocError, Global};
use sy_rules::laws::plans_are_whole;
use sy_rules::{Destination, Occurrence, Plan};
use sy_site::Site;

/// Which lists messages come to: those of protected classes from the entries on, without spare occurrences, and those of all
/// classes from every input on.
#[derive(Drop)]
pub struct SiteLists {
    pub firm: Vec<ClassLists>,
    pub every: Vec<ClassLists>,
}

/// The lists of a site that messages come to.
pub fn site_lists(alloc: Global, site: &Site) -> Result<SiteLists, AllocError>
    ensures { IfOk result (held.AreLists site.now) }
{
    let firm = all_lists(alloc, site, Following::Firm)?;
    let every = all_lists(alloc, site, Following::Every)?;
    Ok(SiteLists { firm, every })
}

// ---- what is executed

// The occurrence of this number, where messages of a class come to the list and may execute it.
fn executed_by(
    site: &Site,
    by: Following,
    lists: &ClassLists,
    at: SiteList,
    number: u32,
) -> Option<Occurrence>
    requires marks { inside.AreMarks site.now lists.now.class by lists.now.marks.items }
    requires there { inside.IsThere site.now at }
    ensures { held.IsExecutedBy site.now lists.now.class by at number result }
{
    if comes(site, by, lists, at) {
        return executed_at(site, lists.class, by, at, number);
    }
    None
}

// The same of messages of some class that is asked for.
fn executed(
    site: &Site,
    by: Following,
    all: &[ClassLists],
    at: SiteList,
    number: u32,
) -> Option<Occurrence>
    requires all { inside.AreOfAll site.now by all.now }
    requires there { inside.IsThere site.now at }
    ensures { held.IsExecutedAt site.now by at number result }
{
    for lists in all {
        match executed_by(site, by, lists, at, number) {
            Some(is) => return Some(is),
            None => {}
        }
    }
    None
}

// How many occurrences a list has.
fn occurrences_of(site: &Site, at: SiteList) -> u32
    requires there { inside.IsThere site.now at }
    ensures few { result ≤ 64 }
    ensures all { (number : ℕ) (is : AnyOccurrence) → occurrence_at site.now at.relay at.list number ≡ Some is → number < result }
    ensures within { (number : ℕ) → number < result → number < length (occurrences_at (plan_at site.now at.relay) at.list) }
{
    let plan: &Plan = site.plan(at.relay);
    plans_are_whole(plan);
    plan.occurrences(at.list).len() as u32
}

// Whether the occurrence of this number runs an action.
fn is_run(site: &Site, at: SiteList, number: u32, action: u32) -> bool
    requires there { inside.IsThere site.now at }
    ensures { Decides result (occurrence_at site.now at.relay at.list number ≡ Some (occurrence.Run action)) }
{
    let plan: &Plan = site.plan(at.relay);
    match plan.occurrences(at.list).get(number as usize).copied() {
        Some(Occurrence::Run(run)) => run == action,
        Some(Occurrence::Post(_)) => false,
        None => false,
    }
}

// Whether messages may run an action at this occurrence.
fn runs_at(
    site: &Site,
    by: Following,
    all: &[ClassLists],
    at: SiteList,
    number: u32,
    action: u32,
) -> bool
    requires all { inside.AreOfAll site.now by all.now }
    requires there { inside.IsThere site.now at }
    ensures { Decides result (follows.IsExecuted site.now by at number (occurrence.Run action)) }
{
    if !is_run(site, at, number, action) {
        return false;
    }
    match executed(site, by, all, at, number) {
        Some(_) => true,
        None => false,
    }
}

// Whether messages may run an action in a list.
fn runs_in(site: &Site, by: Following, all: &[ClassLists], at: SiteList, action: u32) -> bool
    requires all { inside.AreOfAll site.now by all.now }
    requires there { inside.IsThere site.now at }
    ensures { Decides result (held.RunsIn site.now by at action) }
{
    for number in 0..occurrences_of(site, at) {
        if runs_at(site, by, all, at, number, action) {
            return true;
        }
    }
    false
}

/// How many lists a relay has.
pub fn lists_of(site: &Site, relay: u32) -> u32
    requires relay { relay < length site.now.relays }
    ensures { result ≡ length (plan_at site.now relay).lists }
{
    let plan: &Plan = site.plan(relay);
    plans_are_whole(plan);
    plan.list_names().len() as u32
}

// Whether protected messages need an action.
fn is_needed(site: &Site, firm: &[ClassLists], relay: u32, action: u32) -> bool
    requires firm { inside.AreOfAll site.now Following.Firm firm.now }
    requires relay { relay < length site.now.relays }
    ensures { Decides result (spec.NeedsAction site.now relay action) }
{
    for list in 0..lists_of(site, relay) {
        let at = SiteList { relay, list };
        if runs_in(site, Following::Firm, firm, at, action) {
            return true;
        }
    }
    false
}

// ---- what shares a queue

// Whether protected messages need the occurrence of this number.
fn is_needed_at(site: &Site, firm: &[ClassLists], at: SiteList, number: u32) -> bool
    requires firm { inside.AreOfAll site.now Following.Firm firm.now }
    requires there { inside.IsThere site.now at }
    ensures { Decides result (held.NeedsAt site.now at number) }
{
    match executed(site, Following::Firm, firm, at, number) {
        Some(_) => true,
        None => false,
    }
}

// Whether protected messages need an occurrence of a list.
fn has_needed(site: &Site, firm: &[ClassLists], at: SiteList) -> bool
    requires firm { inside.AreOfAll site.now Following.Firm firm.now }
    requires there { inside.IsThere site.now at }
    ensures { Decides result (held.HasNeeded site.now at) }
{
    for number in 0..occurrences_of(site, at) {
        if is_needed_at(site, firm, at, number) {
            return true;
        }
    }
    false
}

/// Of each list of a relay, whether protected messages need an occurrence of it.
pub fn needed_lists(
    alloc: Global,
    site: &Site,
    firm: &[ClassLists],
    relay: u32,
) -> Result<Vec<bool>, AllocError>
    requires firm { inside.AreOfAll site.now Following.Firm firm.now }
    requires relay { relay < length site.now.relays }
    ensures { IfOk result (λ needed. held.AreNeeded site.now relay needed.items) }
{
    let many = lists_of(site, relay);
    let mut needed = Vec::with_capacity(alloc, many as usize)?;
    for list in 0..many {
        needed.push(has_needed(site, firm, SiteList { relay, list }))?;
    }
    Ok(needed)
}

/// The queue of a list.
pub fn queue_of(site: &Site, at: SiteList) -> u32
    requires there { inside.IsThere site.now at }
    ensures { result ≡ queue_for (plan_at site.now at.relay) at.list }
{
    match site.plan(at.relay).list_queue(at.list) {
        Some(queue) => queue,
        None => 0,
    }
}

// Whether protected messages need an occurrence of another list, and it has this queue.
fn shares_with(site: &Site, needed: &[bool], relay: u32, list: u32, other: u32) -> bool
    requires needed { held.AreNeeded site.now relay needed.now }
    requires relay { relay < length site.now.relays }
    requires list { list < length (plan_at site.now relay).lists }
    requires other { other < length (plan_at site.now relay).lists }
    ensures { Decides result (held.SharesWith site.now relay list other) }
{
    if !needed[other as usize] {
        return false;
    }
    queue_of(site, SiteList { relay, list }) == queue_of(site, SiteList { relay, list: other })
}

// Whether a list shares its queue with one of those that protected messages need an occurrence of.
fn shares(site: &Site, needed: &[bool], relay: u32, list: u32) -> bool
    requires needed { held.AreNeeded site.now relay needed.now }
    requires relay { relay < length site.now.relays }
    requires list { list < length (plan_at site.now relay).lists }
    ensures { Decides result (spec.SharesQueue site.now relay list) }
{
    for other in 0..lists_of(site, relay) {
        if shares_with(site, needed, relay, list, other) {
            return true;
        }
    }
    false
}

// Whether an action is a forward that is tried without end.
fn may_wait(site: &Site, relay: u32, action: u32) -> bool
    requires relay { relay < length site.now.relays }
    ensures { Decides result (spec.MayWait site.now relay action) }
{
    match site.plan(relay).actions().get(action as usize) {
        Some(found) => match &found.destination {
            Destination::Archive(_) => false,
            Destination::Forward(_, _) => found.retry.is_none(),
        },
        None => false,
    }
}

// Whether an action may be executed in a list, and shares its queue with what protected messages need.
fn shares_in(
    site: &Site,
    every: &[ClassLists],
    needed: &[bool],
    relay: u32,
    list: u32,
    action: u32,
) -> bool
    requires every { inside.AreOfAll site.now Following.Every every.now }
    requires needed { held.AreNeeded site.now relay needed.now }
    requires relay { relay < length site.now.relays }
    requires list { list < length (plan_at site.now relay).lists }
    ensures { Decides result (held.SharesIn site.now relay list action) }
{
    let at = SiteList { relay, list };
    if !runs_in(site, Following::Every, every, at, action) {
        return false;
    }
    shares(site, needed, relay, list)
}

/// The list by which an action of a relay holds up protected messages that don't need it, since it may wait without end and
/// shares a worker with what they need. `needed` says of each list of the relay whether they need an occurrence of it.
pub fn shared_worker_in(
    site: &Site,
    lists: &SiteLists,
    needed: &[bool],
    relay: u32,
    action: u32,
) -> Option<u32>
    requires lists { held.AreLists site.now lists.now }
    requires needed { held.AreNeeded site.now relay needed.now }
    requires relay { relay < length site.now.relays }
    ensures some { IfSome result (λ list. (list < length (plan_at site.now relay).lists)
        × spec.IsSharedWorker site.now relay action) }
    ensures none { IfNone result (spec.IsSharedWorker site.now relay action → ⊥) }
{
    if !may_wait(site, relay, action) {
        return None;
    }
    if is_needed(site, lists.firm.as_slice(), relay, action) {
        return None;
    }
    for list in 0..lists_of(site, relay) {
        if shares_in(site, lists.every.as_slice(), needed, relay, list, action) {
            return Some(list);
        }
    }
    None
}

/// The first occurrence of a list from a number on that protected messages need.
pub fn first_needed(site: &Site, firm: &[ClassLists], at: SiteList, from: u32) -> Option<Occurrence>
    requires firm { inside.AreOfAll site.now Following.Firm firm.now }
    requires there { inside.IsThere site.now at }
{
    for number in 0..occurrences_of(site, at) {
        if number >= from {
            if let Some(is) = executed(site, Following::Firm, firm, at, number) {
                return Some(is);
            }
        }
    }
    None
}

/// An occurrence that protected messages need of a list that shares its queue with this one.
pub fn needed_beside(site: &Site, firm: &[ClassLists], relay: u32, list: u32) -> Option<Occurrence>
    requires firm { inside.AreOfAll site.now Following.Firm firm.now }
    requires relay { relay < length site.now.relays }
    requires list { list < length (plan_at site.now relay).lists }
{
    let queue = queue_of(site, SiteList { relay, list });
    for other in 0..lists_of(site, relay) {
        if queue_of(site, SiteList { relay, list: other }) == queue {
            if let Some(is) = first_needed(site, firm, SiteList { relay, list: other }, 0) {
                return Some(is);
            }
        }
    }
    None
}
