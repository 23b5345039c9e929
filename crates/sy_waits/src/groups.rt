//! Classes whose messages may follow the same lists and execute the same there, taken together.

ghost use Rattle.std.specs.Prelude.{◌≡◌, ◌<◌, ◌+◌, true, IfOk, OnOk, length};
ghost use Rattle.sy_site.specs.Sites.{plan_at};
ghost use Rattle.sy_waits.specs.internal.Groups as spec;

use crate::followed::{followed, is_marked};
use crate::places::{lists_of, place_of};
use std::alloc::{AllocError, Global};
use sy_classes::flow_of;
use sy_rules::laws::plans_are_whole;
use sy_site::Site;
use sy_wire::Class;

/// How many classes there are.
const CLASSES: u8 = 192;

/// The lowest class of a group, and the lists that messages of the group may follow, marked among all.
#[derive(Drop)]
pub struct Group {
    pub class: Class,
    pub marks: Vec<bool>,
}

// Whether messages of a class may execute the same of a list as those of a group, where that is marked.
fn alike_in(site: &Site, class: Class, group: &Group, relay: u32, list: u32) -> bool
    requires relay { relay < length site.now.relays }
    requires list { list < length (plan_at site.now relay).lists }
    ensures { result ≡ true → spec.AlikeIn site.now class group.now relay list }
{
    if !is_marked(group.marks.as_slice(), place_of(relay, list)) {
        return true;
    }
    let plan = site.plan(relay);
    flow_of(plan, list, class).may == flow_of(plan, list, group.class).may
}

// The same of each list of a relay.
fn alike_at(site: &Site, class: Class, group: &Group, relay: u32) -> bool
    requires relay { relay < length site.now.relays }
    ensures { result ≡ true → spec.AlikeAt site.now class group.now relay }
{
    plans_are_whole(site.plan(relay));
    let many = lists_of(site, relay) as u32;
    for list in 0..many {
        if !alike_in(site, class, group, relay, list) {
            return false;
        }
    }
    true
}

// Whether a class is of a group.
fn is_alike(site: &Site, class: Class, group: &Group) -> bool
    ensures { result ≡ true → spec.IsAlike site.now class group.now }
{
    for relay in 0..site.relays() {
        if !alike_at(site, class, group, relay) {
            return false;
        }
    }
    true
}

// Whether it is of one of these.
fn has_group(site: &Site, class: Class, groups: &[Group]) -> bool
    ensures { result ≡ true → spec.HasGroup site.now class groups.now }
{
    for place in 0..groups.len() {
        if is_alike(site, class, &groups[place]) {
            return true;
        }
    }
    false
}

// Puts a group for the class of a number behind the others, where it is of none of these.
fn push_class(
    alloc: Global,
    site: &Site,
    number: u8,
    groups: &mut Vec<Group>,
) -> Result<(), AllocError>
    requires small { number < 192 }
    ensures { OnOk result (spec.AreGroupsBelow site.now number groups.old.items
        → spec.AreGroupsBelow site.now (number + 1) groups.new.items) }
{
    let class = Class::of_number(number);
    if has_group(site, class, groups.as_slice()) {
        return Ok(());
    }
    let marks = followed(alloc, site, class)?;
    groups.push(Group { class, marks })?;
    Ok(())
}

/// Groups of which each class is of one, by rising classes.
pub fn groups_of(alloc: Global, site: &Site) -> Result<Vec<Group>, AllocError>
    ensures { IfOk result (λ groups. spec.AreGroups site.now groups.items) }
{
    let mut groups = Vec::new(alloc);
    for number in 0..CLASSES {
        push_class(alloc, site, number, &mut groups)?;
    }
    Ok(groups)
}
