//! Which spare actions stand before what protected messages need.

ghost use Rattle.std.specs.Prelude.{◌<◌, Decides, IfNone, IfSome, length};
ghost use Rattle.sy_site.specs.Sites.{plan_at};
ghost use Rattle.sy_warnings.specs.Holding as spec;
ghost use Rattle.sy_warnings.specs.internal.Following as inside;
ghost use Rattle.sy_warnings.specs.internal.Holding as held;

use crate::coming::{ClassLists, comes};
use crate::following::{Following, SiteList, executed_at};
use crate::holding::lists_of;
use sy_rules::Occurrence;
use sy_site::Site;
use sy_wire::Class;

// Whether messages of a class that come to a list need the occurrence of this number.
fn may_need(site: &Site, class: Class, at: SiteList, number: u32) -> bool
    requires there { inside.IsThere site.now at }
    ensures { Decides result (held.MayNeed site.now class at number) }
{
    match executed_at(site, class, Following::Firm, at, number) {
        Some(_) => true,
        None => false,
    }
}

// Whether they need that one, and it stands behind this one.
fn needs_later(site: &Site, class: Class, at: SiteList, number: u32, later: u32) -> bool
    requires there { inside.IsThere site.now at }
    ensures { Decides result (held.NeedsLater site.now class at number later) }
{
    if later <= number {
        return false;
    }
    may_need(site, class, at, later)
}

// Whether they need one behind this one.
fn needs_behind(site: &Site, class: Class, at: SiteList, number: u32) -> bool
    requires there { inside.IsThere site.now at }
    ensures { Decides result (held.NeedsBehind site.now class at number) }
{
    site.is_lawful();
    for later in 0..64 {
        if needs_later(site, class, at, number, later) {
            return true;
        }
    }
    false
}

// Whether messages of a class may run an action at this occurrence.
fn may_run(site: &Site, class: Class, at: SiteList, number: u32, action: u32) -> bool
    requires there { inside.IsThere site.now at }
    ensures { Decides result (held.MayRun site.now class at number action) }
{
    match executed_at(site, class, Following::Every, at, number) {
        Some(Occurrence::Run(run)) => run == action,
        Some(Occurrence::Post(_)) => false,
        None => false,
    }
}

// Whether they may run an action at this occurrence, before what they need.
fn stands_at(site: &Site, class: Class, at: SiteList, number: u32, action: u32) -> bool
    requires there { inside.IsThere site.now at }
    ensures { Decides result (held.StandsAt site.now class at action number) }
{
    if !may_run(site, class, at, number, action) {
        return false;
    }
    needs_behind(site, class, at, number)
}

// Whether messages of a class that come to a list may run an action there before what they need.
fn stands_before(site: &Site, class: Class, at: SiteList, action: u32) -> bool
    requires there { inside.IsThere site.now at }
    ensures { Decides result (held.StandsBefore site.now class at action) }
{
    site.is_lawful();
    for number in 0..64 {
        if stands_at(site, class, at, number, action) {
            return true;
        }
    }
    false
}

// The same, where they come there.
fn stands_in(site: &Site, lists: &ClassLists, at: SiteList, action: u32) -> bool
    requires marks { inside.AreMarks site.now lists.now.class Following.Firm lists.now.marks.items }
    requires there { inside.IsThere site.now at }
    ensures { Decides result (held.StandsIn site.now lists.now.class at action) }
{
    if !comes(site, Following::Firm, lists, at) {
        return false;
    }
    stands_before(site, lists.class, at, action)
}

// The same of some protected class.
fn stands_for_some(site: &Site, firm: &[ClassLists], at: SiteList, action: u32) -> bool
    requires firm { inside.AreOfAll site.now Following.Firm firm.now }
    requires there { inside.IsThere site.now at }
    ensures { Decides result (held.StandsForSome site.now at action) }
{
    for lists in firm {
        if stands_in(site, lists, at, action) {
            return true;
        }
    }
    false
}

/// The list in which an action of a relay is spare and stands before what protected messages need.
pub fn bottleneck_in(site: &Site, firm: &[ClassLists], relay: u32, action: u32) -> Option<u32>
    requires firm { inside.AreOfAll site.now Following.Firm firm.now }
    requires relay { relay < length site.now.relays }
    ensures some { IfSome result (λ list. (list < length (plan_at site.now relay).lists)
        × spec.IsBottleneck site.now relay action) }
    ensures none { IfNone result (spec.IsBottleneck site.now relay action → ⊥) }
{
    if !site.is_spare(relay, action) {
        return None;
    }
    for list in 0..lists_of(site, relay) {
        if stands_for_some(site, firm, SiteList { relay, list }, action) {
            return Some(list);
        }
    }
    None
}
