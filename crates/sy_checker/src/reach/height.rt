//! The rank that an input asks for: one more than the greatest of the relays that messages of a class reach from there.

ghost use Rattle.std.specs.Prelude.{◌≡◌, ◌<◌, ℕ, set, max, length};
ghost use Rattle.sy_site.specs.machine.Lawful.{IsInput};
ghost use Rattle.sy_checker.specs.internal.Loops as spec;
ghost use Rattle.sy_flows.specs.Hops.{AreFlows};

use sy_flows::{ClassFlows, Executed, Hop, hops_at};
use sy_site::{Site, SiteInput};
use sy_wire::Class;

/// The rank of a relay; 0 where it has none.
fn rank_of(ranks: &[u32], relay: u32) -> u32
    ensures { result ≡ spec.rank_at ranks.now relay }
{
    match ranks.get(relay as usize) {
        Some(rank) => *rank,
        None => 0,
    }
}

// What hops ask for.
fn height_of(ranks: &[u32], hops: &[Hop]) -> u32
    requires small { (relay : ℕ) → spec.rank_at ranks.now relay < 4294967295 }
    ensures { spec.IsHeightOf ranks.now hops.now result }
{
    let mut most = 0;
    for hop in hops {
        let next = rank_of(ranks, hop.to.relay) + 1;
        if most < next {
            most = next;
        }
    }
    most
}

/// The rank that an input asks for.
pub fn height(site: &Site, class: Class, flows: &ClassFlows, ranks: &[u32], from: SiteInput) -> u32
    requires there { IsInput site.now from }
    requires small { (relay : ℕ) → spec.rank_at ranks.now relay < 4294967295 }
    requires flows { AreFlows site.now class flows.now }
    ensures { spec.IsHeight site.now class ranks.now from result }
{
    height_of(
        ranks,
        hops_at(site, class, &flows.every, Executed::Every, from),
    )
}

/// Raises the rank of a relay to a height, where it is lower.
pub fn raise(ranks: &mut [u32], relay: u32, height: u32)
    requires there { relay < length ranks.old }
    ensures { ranks.new ≡ set ranks.old relay (max (spec.rank_at ranks.old relay) height) }
{
    let rank = &mut ranks[relay as usize];
    if *rank < height {
        *rank = height;
    }
}
