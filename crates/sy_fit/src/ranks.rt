//! Ranks: whether that of a relay is above those of the relays that messages of a class reach from there.

ghost use Rattle.std.specs.Prelude.{◌≡◌, ◌<◌, ℕ, Contains, Decides, IfSome, Some, length, slice_get, true};
ghost use Rattle.std.specs.Str.{bytes_eq};
ghost use Rattle.sy_site.specs.machine.Lawful.{IsInput};
ghost use Rattle.sy_fit.specs.Fit.{AreWanted, IsAbove};
ghost use Rattle.sy_site.specs.Names.{name_of};
ghost use Rattle.sy_fit.specs.internal.Ranked as spec;
ghost use Rattle.sy_flows.specs.Hops.{AreFlows};
ghost use Rattle.sy_flows.specs.declared.flows.Hop.{Hop as AnyHop};
ghost use Rattle.sy_fit.specs.declared.rows.wanted.Wanted.TheVariants as wanted;

use crate::rows::wanted::Wanted;
use sy_cert::Row;
use sy_flows::{ClassFlows, Executed, Hop, hops_at};
use sy_site::{Site, SiteInput};
use sy_wire::Class;

/// Whether a relay has this name.
pub fn is_name(site: &Site, relay: u32, name: &[u8]) -> bool
    requires there { relay < length site.now.relays }
    ensures { result ≡ bytes_eq name.now (name_of site.now relay) }
{
    name == site.name(relay)
}

// The rank that a row gives a relay.
fn rank_in(site: &Site, row: &Row, relay: u32) -> Option<u32>
    requires there { relay < length site.now.relays }
    ensures { result ≡ spec.rank_in site.now relay row.now }
{
    match row {
        Row::Rank { relay: name, rank } => {
            if is_name(site, relay, name.as_slice()) {
                Some(*rank)
            } else {
                None
            }
        }
        Row::Class(_) | Row::Reach { .. } | Row::Branch { .. } | Row::Inner { .. } => None,
        Row::Path { .. } => None,
    }
}

fn is_rank_of(is: Wanted, relay: u32) -> bool
    ensures { result ≡ spec.is_rank_of relay is }
{
    match is {
        Wanted::Rank(of) => of == relay,
        Wanted::Class(_) | Wanted::Reach(_) | Wanted::Branch(_) | Wanted::Inner(_) => false,
        Wanted::Path(_, _) => false,
    }
}

// The rank that the row at a place gives a relay, where its rank row is wanted there.
fn rank_at(site: &Site, part: &[Wanted], rows: &[Row], place: usize, relay: u32) -> Option<u32>
    requires there { relay < length site.now.relays }
    ensures { result ≡ spec.rank_at site.now relay (slice_get part.now place) (slice_get rows.now place) }
{
    match part.get(place) {
        Some(is) => {
            if !is_rank_of(*is, relay) {
                return None;
            }
            match rows.get(place) {
                Some(row) => rank_in(site, row, relay),
                None => None,
            }
        }
        None => None,
    }
}

// Whether it is below a rank, where it stands there.
fn is_below_at(
    site: &Site,
    part: &[Wanted],
    rows: &[Row],
    place: usize,
    relay: u32,
    rank: u32,
) -> bool
    requires there { relay < length site.now.relays }
    ensures { Decides result (spec.IsBelowAt site.now part.now rows.now relay rank place) }
{
    match rank_at(site, part, rows, place, relay) {
        Some(below) => below < rank,
        None => true,
    }
}

// Whether a wanted row stands before the rank row of a relay.
fn is_before(is: Wanted, relay: u32) -> bool
    ensures { Decides result (spec.IsBeforeRank relay is) }
{
    match is {
        Wanted::Class(_) | Wanted::Reach(_) | Wanted::Branch(_) => true,
        Wanted::Rank(of) => of < relay,
        Wanted::Inner(_) | Wanted::Path(_, _) => false,
    }
}

// Whether a row is wanted at a place, and stands before the rank row of a relay.
fn is_before_at(part: &[Wanted], place: usize, relay: u32) -> bool
    ensures { Decides result (spec.IsBeforeRankAt relay (slice_get part.now place)) }
{
    match part.get(place) {
        Some(is) => is_before(*is, relay),
        None => false,
    }
}

// The one place where the rank row of a relay may be wanted, found by halving: the first behind the rows that stand before
// it.
fn place_of(site: &Site, class: Class, part: &[Wanted], relay: u32) -> usize
    requires wanted { AreWanted site.now class part.now }
    ensures { (place : ℕ) → slice_get part.now place ≡ Some (wanted.Rank relay) → place ≡ result }
{
    let _ = site;
    let _ = class;
    let mut low = 0;
    let mut high = part.len();
    while low < high {
        let middle = low + (high - low) / 2;
        if is_before_at(part, middle, relay) {
            low = middle + 1;
        } else {
            high = middle;
        }
    }
    low
}

// Whether the rank of a relay is below a rank, where its row stands.
fn is_below(site: &Site, class: Class, part: &[Wanted], rows: &[Row], relay: u32, rank: u32) -> bool
    requires wanted { AreWanted site.now class part.now }
    requires there { relay < length site.now.relays }
    ensures { Decides result (spec.IsBelow site.now part.now rows.now relay rank) }
{
    let place = place_of(site, class, part, relay);
    is_below_at(site, part, rows, place, relay, rank)
}

fn is_known(known: Option<u32>, relay: u32) -> bool
    ensures { Decides result (known ≡ Some relay) }
{
    known == Some(relay)
}

// Whether the rank of a relay is below. The relay that was found to have one last is known, and most often the next one is
// the same.
fn is_below_known(
    site: &Site,
    class: Class,
    part: &[Wanted],
    rows: &[Row],
    relay: u32,
    rank: u32,
    known: &mut Option<u32>,
) -> bool
    requires wanted { AreWanted site.now class part.now }
    requires there { relay < length site.now.relays }
    requires known { IfSome known.old (λ relay. spec.IsBelow site.now part.now rows.now relay rank) }
    ensures below { Decides result (spec.IsBelow site.now part.now rows.now relay rank) }
    ensures known { result ≡ true → IfSome known.new (λ relay. spec.IsBelow site.now part.now rows.now relay rank) }
{
    if is_known(*known, relay) {
        return true;
    }
    *known = Some(relay);
    is_below(site, class, part, rows, relay, rank)
}

// Whether all of some hops go to relays of ranks below.
fn falls_by(
    site: &Site,
    class: Class,
    hops: &[Hop],
    part: &[Wanted],
    rows: &[Row],
    rank: u32,
) -> bool
    requires wanted { AreWanted site.now class part.now }
    requires there { (hop : AnyHop) → Contains hops.now hop → hop.to.relay < length site.now.relays }
    ensures { Decides result ((hop : AnyHop) → Contains hops.now hop
        → spec.IsBelow site.now part.now rows.now hop.to.relay rank) }
{
    let mut known = None;
    for hop in hops {
        if !is_below_known(site, class, part, rows, hop.to.relay, rank, &mut known) {
            return false;
        }
    }
    true
}

// Whether all that is reached from an input is at relays of ranks below.
fn falls_from(
    site: &Site,
    class: Class,
    flows: &ClassFlows,
    from: SiteInput,
    part: &[Wanted],
    rows: &[Row],
    rank: u32,
) -> bool
    requires wanted { AreWanted site.now class part.now }
    requires there { IsInput site.now from }
    requires flows { AreFlows site.now class flows.now }
    ensures { Decides result (spec.FallsFrom site.now class part.now rows.now rank from) }
{
    site.is_lawful();
    let hops = hops_at(site, class, &flows.every, Executed::Every, from);
    falls_by(site, class, hops, part, rows, rank)
}

// The same of the input of a wanted row, where it is one of this relay.
fn falls_at(
    site: &Site,
    class: Class,
    flows: &ClassFlows,
    is: Wanted,
    part: &[Wanted],
    rows: &[Row],
    relay: u32,
    rank: u32,
) -> bool
    requires wanted { AreWanted site.now class part.now }
    requires there { spec.IsInputThere site.now is }
    requires flows { AreFlows site.now class flows.now }
    ensures { Decides result (spec.FallsAt site.now class part.now rows.now relay rank is) }
{
    match is {
        Wanted::Reach(from) | Wanted::Branch(from) => {
            if from.relay != relay {
                return true;
            }
            falls_from(site, class, flows, from, part, rows, rank)
        }
        Wanted::Class(_) | Wanted::Rank(_) | Wanted::Inner(_) | Wanted::Path(_, _) => true,
    }
}

/// Whether a rank of a relay is above that of each relay that occurrences of its reached inputs reach, spare ones too. A
/// relay whose rank row doesn't stand where it is wanted isn't compared.
pub fn is_above(
    site: &Site,
    class: Class,
    flows: &ClassFlows,
    part: &[Wanted],
    rows: &[Row],
    relay: u32,
    rank: u32,
) -> bool
    requires wanted { AreWanted site.now class part.now }
    requires flows { AreFlows site.now class flows.now }
    ensures { Decides result (IsAbove site.now class part.now rows.now relay rank) }
{
    site.is_lawful();
    for is in part {
        if !falls_at(site, class, flows, *is, part, rows, relay, rank) {
            return false;
        }
    }
    true
}
