//! Whether numbers fall wherever messages of a class may go on from a list that they may follow.

ghost use Rattle.std.specs.Prelude.{◌≡◌, ◌<◌, ℕ, true, Some, get_or, length};
ghost use Rattle.std.specs.Int.{bit_at};
ghost use Rattle.sy_rules.specs.declared.lists.occurrence.Occurrence.{Occurrence as AnyOccurrence};
ghost use Rattle.sy_site.specs.Sites.{plan_at};
ghost use Rattle.sy_site.specs.machine.Reach.{occurrence_at};
ghost use Rattle.sy_waits.specs.internal.Fits as spec;
ghost use Rattle.sy_waits.specs.internal.Groups.{AreGroups, GroupFits};

use crate::followed::is_marked;
use crate::groups::Group;
use crate::places::{Of, counts, input_place, list_place, lists_of, number_at, place_of};
use sy_classes::flow_of;
use sy_rules::Occurrence;
use sy_rules::laws::plans_are_whole;
use sy_site::{Site, SiteInput};
use sy_wire::Class;

// ---- one occurrence

// Whether the number of the input that a forward leads to is lower than the one at a place.
fn forward_falls(site: &Site, of: Of, numbers: &[u32], to: SiteInput, from: usize) -> bool
    ensures { result ≡ true → spec.input_number site.now of numbers.now to < get_or numbers.now from 0 }
{
    match input_place(site, of, to) {
        Some(place) => number_at(numbers, place) < number_at(numbers, from),
        None => false,
    }
}

// Whether the number of the list that a post leads to is lower, where that counts, and the list is marked.
fn post_falls(
    site: &Site,
    of: Of,
    numbers: &[u32],
    marks: &[bool],
    relay: u32,
    list: u32,
    from: usize,
) -> bool
    requires relay { relay < length site.now.relays }
    ensures falls { result ≡ true → spec.Counts site.now of relay list
        → spec.list_number site.now of numbers.now relay list < get_or numbers.now from 0 }
    ensures marked { result ≡ true → spec.IsMarked marks.now relay list }
{
    if (list as usize) >= lists_of(site, relay) {
        return false;
    }
    if !is_marked(marks, place_of(relay, list)) {
        return false;
    }
    if !counts(site, of, relay, list) {
        return true;
    }
    number_at(numbers, list_place(site, of, relay, list)) < number_at(numbers, from)
}

// Whether numbers fall by an occurrence from a place on, and the list that it posts to is marked.
fn occurrence_fits(
    site: &Site,
    of: Of,
    numbers: &[u32],
    marks: &[bool],
    relay: u32,
    is: Occurrence,
    from: usize,
) -> bool
    requires relay { relay < length site.now.relays }
    ensures { result ≡ true → spec.Fits site.now of numbers.now marks.now relay (get_or numbers.now from 0) is }
{
    match is {
        Occurrence::Run(action) => match site.target(relay, action) {
            Some(to) => forward_falls(site, of, numbers, to, from),
            None => true,
        },
        Occurrence::Post(list) => post_falls(site, of, numbers, marks, relay, list, from),
    }
}

// ---- one list

// Whether a set has an occurrence.
fn has(set: u64, number: u32) -> bool
    requires small { number < 64 }
    ensures { bit_at set number ≡ 1 → result ≡ true }
{
    (set >> number) & 1 == 1
}

// Whether they do by each occurrence of a set.
fn set_fits(
    site: &Site,
    of: Of,
    numbers: &[u32],
    marks: &[bool],
    relay: u32,
    list: u32,
    set: u64,
) -> bool
    requires relay { relay < length site.now.relays }
    requires list { list < length (plan_at site.now relay).lists }
    ensures { result ≡ true → (number : ℕ) → (is : AnyOccurrence) → bit_at set number ≡ 1
        → occurrence_at site.now relay list number ≡ Some is
        → spec.Fits site.now of numbers.now marks.now relay
        (spec.list_number site.now of numbers.now relay list) is }
{
    plans_are_whole(site.plan(relay));
    let from = list_place(site, of, relay, list);
    let occurrences = site.plan(relay).occurrences(list);
    for number in 0..occurrences.len() {
        let is = occurrences[number];
        if has(set, number as u32) && !occurrence_fits(site, of, numbers, marks, relay, is, from) {
            return false;
        }
    }
    true
}

// Whether they do by each that messages of the class may execute of a list, where that is marked.
fn list_fits(
    site: &Site,
    class: Class,
    of: Of,
    numbers: &[u32],
    marks: &[bool],
    relay: u32,
    list: u32,
) -> bool
    requires relay { relay < length site.now.relays }
    requires list { list < length (plan_at site.now relay).lists }
    ensures { result ≡ true → spec.ListFits site.now class of numbers.now marks.now relay list }
{
    if !is_marked(marks, place_of(relay, list)) {
        return true;
    }
    let set = flow_of(site.plan(relay), list, class).may;
    set == 0 || set_fits(site, of, numbers, marks, relay, list, set)
}

// ---- one class

// Whether they do in each list of a relay.
fn lists_fit(site: &Site, class: Class, of: Of, numbers: &[u32], marks: &[bool], relay: u32) -> bool
    requires relay { relay < length site.now.relays }
    ensures { result ≡ true → spec.RelayFits site.now class of numbers.now marks.now relay }
{
    plans_are_whole(site.plan(relay));
    let many = lists_of(site, relay) as u32;
    for list in 0..many {
        if !list_fits(site, class, of, numbers, marks, relay, list) {
            return false;
        }
    }
    true
}

// Whether the list of each input of a relay is marked.
fn inputs_are_marked(site: &Site, marks: &[bool], relay: u32) -> bool
    requires relay { relay < length site.now.relays }
    ensures { result ≡ true → spec.AreInputsMarked site.now marks.now relay }
{
    site.plan(relay)
        .inputs()
        .iter()
        .all(|input| is_marked(marks, place_of(relay, input.list)))
}

/// Whether numbers fall by each occurrence that messages of a group may execute, and each list that they may follow is marked.
pub fn group_fits(site: &Site, group: &Group, of: Of, numbers: &[u32]) -> bool
    ensures { result ≡ true → GroupFits site.now of numbers.now group.now }
{
    let marks = group.marks.as_slice();
    for relay in 0..site.relays() {
        if !inputs_are_marked(site, marks, relay) {
            return false;
        }
        if !lists_fit(site, group.class, of, numbers, marks, relay) {
            return false;
        }
    }
    true
}

/// The same of each group, so that they fall wherever messages of any class may go on from a list that they may follow.
pub fn all_fit(site: &Site, groups: &[Group], of: Of, numbers: &[u32]) -> bool
    requires groups { AreGroups site.now groups.now }
    ensures { result ≡ true → spec.AllFit site.now of numbers.now }
{
    for place in 0..groups.len() {
        if !group_fits(site, &groups[place], of, numbers) {
            return false;
        }
    }
    true
}
