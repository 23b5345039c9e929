//! The lists that messages of a class may follow from the inputs of their relays on.

ghost use Rattle.std.specs.Prelude.{◌≡◌, ◌<◌, false, get_or, length};
ghost use Rattle.sy_site.specs.Sites.{plan_at};

use crate::places::{lists_of, place_of};
use std::alloc::{AllocError, Global};
use sy_classes::flow_of;
use sy_rules::Occurrence;
use sy_site::Site;
use sy_wire::Class;

/// How many places the lists of a relay have.
const PLACES: usize = 513;

/// How many places the lists, or the queues, of a site have.
pub fn places_of(site: &Site) -> usize {
    PLACES * (site.relays() as usize)
}

/// Whether a place is marked.
pub fn is_marked(marks: &[bool], place: usize) -> bool
    ensures { result ≡ get_or marks.now place false }
{
    match marks.get(place) {
        Some(mark) => *mark,
        None => false,
    }
}

// Lists of one relay that wait to be gone over, and the marks of those that were met.
#[derive(Drop)]
struct Met {
    waiting: Vec<u32>,
    marks: Vec<bool>,
}

// Notes that a list is followed, where that isn't known.
fn meet(met: &mut Met, relay: u32, list: u32) -> Result<(), AllocError> {
    let place = place_of(relay, list);
    if place < met.marks.len() && !met.marks[place] {
        met.marks[place] = true;
        met.waiting.push(list)?;
    }
    Ok(())
}

// Notes the lists that messages of the class are posted to from a list.
fn meet_posted(
    site: &Site,
    class: Class,
    relay: u32,
    list: u32,
    met: &mut Met,
) -> Result<(), AllocError> {
    if relay >= site.relays() || (list as usize) >= lists_of(site, relay) {
        return Ok(());
    }
    let mut left = flow_of(site.plan(relay), list, class).may;
    for is in site.plan(relay).occurrences(list) {
        match is {
            Occurrence::Post(to) if left & 1 == 1 => meet(met, relay, *to)?,
            _ => {}
        }
        left >>= 1;
    }
    Ok(())
}

// Notes the lists of a relay that are followed.
fn meet_all(site: &Site, class: Class, relay: u32, met: &mut Met) -> Result<(), AllocError> {
    if relay >= site.relays() {
        return Ok(());
    }
    for input in site.plan(relay).inputs() {
        meet(met, relay, input.list)?;
    }
    for _ in 0..PLACES {
        match met.waiting.pop() {
            Some(list) => meet_posted(site, class, relay, list, met)?,
            None => return Ok(()),
        }
    }
    Ok(())
}

/// The lists that messages of a class may follow from any input of their relay on, marked among all.
pub fn followed(alloc: Global, site: &Site, class: Class) -> Result<Vec<bool>, AllocError> {
    let mut met = Met {
        waiting: Vec::new(alloc),
        marks: vec![in alloc; false; places_of(site)]?,
    };
    for relay in 0..site.relays() {
        meet_all(site, class, relay, &mut met)?;
    }
    Ok(met.marks)
}
