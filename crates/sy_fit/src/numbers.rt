//! Numbers of lists: whether that of a list is above those of the lists that its posts lead to.

ghost use Rattle.std.specs.Prelude.{◌≡◌, ◌<◌, ℕ, Some, Decides, length, slice_get};
ghost use Rattle.std.specs.Int.{bit_at};
ghost use Rattle.sy_board.specs.relay.Spares.{Scope};
ghost use Rattle.sy_site.specs.machine.Reach.{MayDo};
ghost use Rattle.sy_flows.specs.declared.flows.executed.Executed.TheVariants as executed;
ghost use Rattle.sy_fit.specs.Fit.{AreWanted, ComesBefore, IsNumbered};
ghost use Rattle.sy_flows.specs.Flows.{IsSet};
ghost use Rattle.sy_flows.specs.Hops.{AreFlows};
ghost use Rattle.sy_fit.specs.internal.Inners as spec;
ghost use Rattle.sy_flows.specs.Leads.{IsThere, same_list};
ghost use Rattle.sy_fit.specs.declared.rows.wanted.Wanted.TheVariants as wanted;

use crate::ranks::is_name;
use crate::rows::wanted::Wanted;
use sy_cert::Row;
use sy_flows::{ClassFlows, Executed, InnerList, next_in, occurrence_at, set_at};
use sy_rules::Occurrence;
use sy_site::Site;
use sy_wire::Class;

fn is_same(one: InnerList, other: InnerList) -> bool
    ensures { result ≡ same_list one other }
{
    one.relay == other.relay && one.list == other.list
}

// The number that a row gives a list.
fn number_in(site: &Site, row: &Row, inner: InnerList) -> Option<u32>
    requires there { inner.relay < length site.now.relays }
    ensures { result ≡ spec.number_in site.now inner row.now }
{
    match row {
        Row::Inner {
            relay,
            list,
            number,
        } => {
            if is_name(site, inner.relay, relay.as_slice()) && *list == inner.list {
                Some(*number)
            } else {
                None
            }
        }
        Row::Class(_) | Row::Reach { .. } | Row::Branch { .. } | Row::Rank { .. } => None,
        Row::Path { .. } => None,
    }
}

fn is_number_of(is: Wanted, inner: InnerList) -> bool
    ensures { result ≡ spec.is_number_of inner is }
{
    match is {
        Wanted::Inner(of) => is_same(of, inner),
        Wanted::Class(_) | Wanted::Reach(_) | Wanted::Branch(_) | Wanted::Rank(_) => false,
        Wanted::Path(_, _) => false,
    }
}

// The number that the row at a place gives a list, where its inner row is wanted there.
fn number_at(
    site: &Site,
    part: &[Wanted],
    rows: &[Row],
    place: usize,
    inner: InnerList,
) -> Option<u32>
    requires there { inner.relay < length site.now.relays }
    ensures { result ≡ spec.number_given site.now inner (slice_get part.now place) (slice_get rows.now place) }
{
    match part.get(place) {
        Some(is) => {
            if !is_number_of(*is, inner) {
                return None;
            }
            match rows.get(place) {
                Some(row) => number_in(site, row, inner),
                None => None,
            }
        }
        None => None,
    }
}

// Whether it is below a number, where it stands there.
fn is_lower_at(
    site: &Site,
    part: &[Wanted],
    rows: &[Row],
    place: usize,
    inner: InnerList,
    number: u32,
) -> bool
    requires there { inner.relay < length site.now.relays }
    ensures { Decides result (spec.IsLowerAt site.now part.now rows.now inner number place) }
{
    match number_at(site, part, rows, place, inner) {
        Some(below) => below < number,
        None => true,
    }
}

// Whether a list comes before another in the order of the site.
fn comes_before(one: InnerList, other: InnerList) -> bool
    ensures { Decides result (ComesBefore one other) }
{
    one.relay < other.relay || (one.relay == other.relay && one.list < other.list)
}

// Whether a wanted row stands before the inner row of a list.
fn is_before(is: Wanted, inner: InnerList) -> bool
    ensures { Decides result (spec.IsBeforeInner inner is) }
{
    match is {
        Wanted::Class(_) | Wanted::Reach(_) | Wanted::Branch(_) | Wanted::Rank(_) => true,
        Wanted::Inner(of) => comes_before(of, inner),
        Wanted::Path(_, _) => false,
    }
}

// Whether a row is wanted at a place, and stands before the inner row of a list.
fn is_before_at(part: &[Wanted], place: usize, inner: InnerList) -> bool
    ensures { Decides result (spec.IsBeforeAt inner (slice_get part.now place)) }
{
    match part.get(place) {
        Some(is) => is_before(*is, inner),
        None => false,
    }
}

// The one place where the inner row of a list may be wanted, found by halving: the first behind the rows that stand before
// it.
fn place_of(site: &Site, class: Class, part: &[Wanted], inner: InnerList) -> usize
    requires wanted { AreWanted site.now class part.now }
    ensures { (place : ℕ) → slice_get part.now place ≡ Some (wanted.Inner inner) → place ≡ result }
{
    let _ = site;
    let _ = class;
    let mut low = 0;
    let mut high = part.len();
    while low < high {
        let middle = low + (high - low) / 2;
        if is_before_at(part, middle, inner) {
            low = middle + 1;
        } else {
            high = middle;
        }
    }
    low
}

// Whether the number of a list is below a number, where its row stands.
fn is_lower(
    site: &Site,
    class: Class,
    part: &[Wanted],
    rows: &[Row],
    inner: InnerList,
    number: u32,
) -> bool
    requires wanted { AreWanted site.now class part.now }
    requires there { inner.relay < length site.now.relays }
    ensures { Decides result (spec.IsLower site.now part.now rows.now inner number) }
{
    let place = place_of(site, class, part, inner);
    is_lower_at(site, part, rows, place, inner, number)
}

// Whether that of the list is which an occurrence posts to, where this is the occurrence.
fn is_lower_post(
    site: &Site,
    class: Class,
    part: &[Wanted],
    rows: &[Row],
    inner: InnerList,
    number: u32,
    post: u32,
    is: Occurrence,
) -> bool
    requires wanted { AreWanted site.now class part.now }
    requires there { IsThere site.now inner }
    requires does { MayDo site.now class Scope.Firm inner.relay inner.list post is }
    ensures { Decides result (spec.IsLowerBy site.now class part.now rows.now inner number post) }
{
    let _ = post;
    let relay = inner.relay;
    match is {
        Occurrence::Post(list) => {
            is_lower(site, class, part, rows, InnerList { relay, list }, number)
        }
        Occurrence::Run(_) => true,
    }
}

// The same of an occurrence by its number.
fn is_lower_by(
    site: &Site,
    class: Class,
    part: &[Wanted],
    rows: &[Row],
    inner: InnerList,
    number: u32,
    set: u64,
    post: u32,
) -> bool
    requires wanted { AreWanted site.now class part.now }
    requires there { IsThere site.now inner }
    requires set { IsSet site.now class executed.Firm inner.relay inner.list set }
    requires member { bit_at set post ≡ 1 }
    ensures { Decides result (spec.IsLowerBy site.now class part.now rows.now inner number post) }
{
    let _ = set;
    match occurrence_at(site, inner.relay, inner.list, post) {
        Some(it) => is_lower_post(site, class, part, rows, inner, number, post, it),
        None => true,
    }
}

/// Whether a number of a list is above that of each list that its posts lead to, which may be executed and aren't spare. A
/// list whose inner row doesn't stand where it is wanted isn't compared.
pub fn is_numbered(
    site: &Site,
    class: Class,
    flows: &ClassFlows,
    part: &[Wanted],
    rows: &[Row],
    inner: InnerList,
    number: u32,
) -> bool
    requires wanted { AreWanted site.now class part.now }
    requires there { IsThere site.now inner }
    requires flows { AreFlows site.now class flows.now }
    ensures { Decides result (IsNumbered site.now class part.now rows.now inner number) }
{
    let set = set_at(
        site,
        class,
        &flows.lists,
        Executed::Firm,
        inner.relay,
        inner.list,
    );
    let mut next = 0;
    while let Some(post) = next_in(set, next) {
        if !is_lower_by(site, class, part, rows, inner, number, set, post) {
            return false;
        }
        next = post + 1;
    }
    true
}
