//! Ranks of the relays for a class, or a loop: a way on which a relay is met twice, by spare occurrences too.

ghost use Rattle.std.specs.Prelude.{[], ◌≡◌, ◌<◌, ◌↔◌, ◌++◌, ◌∷◌, ◌==◌, ℕ, Contains, Decides, IfErr, IfOk, List, OnOk, length, max, set};
ghost use Rattle.std.specs.List.{list_any};
ghost use Rattle.sy_wire.specs.declared.class.Class.{Class as AnyClass};
ghost use Rattle.sy_site.specs.declared.site.SiteInput.{SiteInput as AnyInput};
ghost use Rattle.sy_board.specs.relay.Spares.{Scope};
ghost use Rattle.sy_site.specs.machine.Reach.{Reach};
ghost use Rattle.sy_site.specs.machine.Soundness.{AreRanks};
ghost use Rattle.sy_checker.specs.internal.Loops as spec;
ghost use Rattle.sy_fit.specs.internal.Ranked.{GoesOn};
ghost use Rattle.sy_site.specs.declared.finding.WayRow.{WayRow as AnyRow};
ghost use Rattle.sy_flows.specs.Hops.{AreFlows};

use crate::reach::height::{height, raise};
use std::alloc::{AllocError, Global};
use sy_flows::{ClassFlows, Executed, hops_at, is_among};
use sy_site::finding::WayRow;
use sy_site::{Site, SiteInput};
use sy_wire::Class;

/// Why there are no ranks.
#[derive(Drop)]
pub enum Unranked {
    NoMemory,
    /// a way from an entry that meets a relay twice, and the input that it ends at
    Loop(Vec<WayRow>, SiteInput),
}

// Why the search ends.
#[derive(Clone, Copy)]
enum Halt {
    NoMemory,
    // the way so far meets the relay of this input again
    Loop(SiteInput),
}

impl From<AllocError> for Halt {
    ghost use Rattle.std.specs.Prelude.{◌≡◌};
    ghost use Rattle.sy_checker.specs.declared.reach.loops.Halt.TheVariants.{NoMemory};

    ghost from_gives = { λ _ e. e ≡ NoMemory };

    fn from(_: AllocError) -> Halt {
        Halt::NoMemory
    }
}

// What was gone through so far.
#[derive(Drop)]
struct Seen {
    // the way from an entry to where the search is
    way: Vec<WayRow>,
    // inputs whose occurrences were all followed
    done: Vec<SiteInput>,
    // relays with each reached input done
    settled: Vec<u32>,
    // a rank for each relay
    ranks: Vec<u32>,
}

// Whether a relay is on a way.
fn is_on(way: &[WayRow], relay: u32) -> bool
    ensures { result ≡ list_any (λ row. relay == row.input.relay) way.now }
{
    way.iter().any(|row| relay == row.input.relay)
}

fn go_on(way: &mut Vec<WayRow>, row: WayRow) -> Result<(), AllocError>
    ensures { OnOk result (way.new.items ≡ way.old.items ++ row ∷ []) }
{
    way.push(row)?;
    Ok(())
}

fn go_back(way: &mut Vec<WayRow>)
    ensures { (before : List AnyRow) → (row : AnyRow) → way.old.items ≡ before ++ row ∷ [] → way.new.items ≡ before }
{
    way.pop();
}

// An input is done, and asks for this rank of its relay.
fn settle(seen: &mut Seen, from: SiteInput, height: u32) -> Result<(), AllocError>
    requires there { from.relay < length seen.old.ranks.items }
    ensures way { OnOk result (seen.new.way.items ≡ seen.old.way.items) }
    ensures done { OnOk result (seen.new.done.items ≡ seen.old.done.items ++ from ∷ []) }
    ensures settled { OnOk result (seen.new.settled.items ≡ seen.old.settled.items) }
    ensures ranks { OnOk result (seen.new.ranks.items ≡ set seen.old.ranks.items from.relay
        (max (spec.rank_at seen.old.ranks.items from.relay) height)) }
{
    seen.done.push(from)?;
    raise(seen.ranks.as_mut_slice(), from.relay, height);
    Ok(())
}

// Each reached input of the relay is done.
fn settle_relay(seen: &mut Seen, relay: u32) -> Result<(), AllocError>
    ensures way { OnOk result (seen.new.way.items ≡ seen.old.way.items) }
    ensures done { OnOk result (seen.new.done.items ≡ seen.old.done.items) }
    ensures settled { OnOk result (seen.new.settled.items ≡ seen.old.settled.items ++ relay ∷ []) }
    ensures ranks { OnOk result (seen.new.ranks.items ≡ seen.old.ranks.items) }
{
    seen.settled.push(relay)?;
    Ok(())
}

// Whether each reached input of a relay is known to be done.
fn is_settled(settled: &[u32], relay: u32) -> bool
    ensures { Decides result (Contains settled.now relay) }
{
    settled.contains(&relay)
}

// Follows the occurrences of an input, and then those of each input that they reach, until a relay is met that is on the
// way.
#[cycle(visit)]
fn visit(
    site: &Site,
    class: Class,
    flows: &ClassFlows,
    reached: &[SiteInput],
    seen: &mut Seen,
    from: SiteInput,
) -> Result<(), Halt>
    requires reached { (x : AnyInput) → Contains reached.now x ↔ Reach site.now class Scope.Every x }
    requires ranked { spec.AreRanked site.now class seen.old.done.items seen.old.settled.items seen.old.ranks.items }
    requires trail { spec.IsTrail site.now class (spec.way_of seen.old.way.items) from }
    requires there { Reach site.now class Scope.Every from }
    requires flows { AreFlows site.now class flows.now }
    ensures way { OnOk result (seen.new.way.items ≡ seen.old.way.items) }
    ensures ranked { OnOk result
        (spec.AreRanked site.now class seen.new.done.items seen.new.settled.items seen.new.ranks.items) }
    ensures more { OnOk result (spec.DoesMore (Contains (spec.relays_of (spec.way_of seen.old.way.items)))
        seen.old.done.items seen.new.done.items) }
    ensures done { OnOk result (Contains seen.new.done.items from) }
    ensures halted { IfErr result (spec.IsHalted site.now class (spec.way_of seen.new.way.items)) }
{
    site.is_lawful();
    if is_among(seen.done.as_slice(), from) {
        return Ok(());
    }
    for hop in hops_at(site, class, &flows.every, Executed::Every, from) {
        let row = WayRow {
            input: from,
            number: hop.number,
        };
        go(site, class, flows, reached, seen, row, hop.to)?;
    }
    let height = height(site, class, flows, seen.ranks.as_slice(), from);
    settle(seen, from, height)?;
    Ok(())
}

// Goes on by an occurrence of an input to another one that it reaches.
#[cycle(visit)]
fn go(
    site: &Site,
    class: Class,
    flows: &ClassFlows,
    reached: &[SiteInput],
    seen: &mut Seen,
    row: WayRow,
    to: SiteInput,
) -> Result<(), Halt>
    requires reached { (x : AnyInput) → Contains reached.now x ↔ Reach site.now class Scope.Every x }
    requires ranked { spec.AreRanked site.now class seen.old.done.items seen.old.settled.items seen.old.ranks.items }
    requires trail { spec.IsTrail site.now class (spec.way_of seen.old.way.items) row.input }
    requires there { Reach site.now class Scope.Every row.input }
    requires goes { GoesOn site.now class row.input row.number to }
    requires flows { AreFlows site.now class flows.now }
    ensures way { OnOk result (seen.new.way.items ≡ seen.old.way.items) }
    ensures ranked { OnOk result
        (spec.AreRanked site.now class seen.new.done.items seen.new.settled.items seen.new.ranks.items) }
    ensures more { OnOk result (spec.DoesMore (spec.IsMet (spec.way_of seen.old.way.items) row.input)
        seen.old.done.items seen.new.done.items) }
    ensures done { OnOk result (spec.IsDone site.now class seen.new.done.items to.relay) }
    ensures halted { IfErr result (spec.IsHalted site.now class (spec.way_of seen.new.way.items)) }
{
    site.is_lawful();
    go_on(&mut seen.way, row)?;
    if is_on(seen.way.as_slice(), to.relay) {
        return Err(Halt::Loop(to));
    }
    visit_relay(site, class, flows, reached, seen, to)?;
    go_back(&mut seen.way);
    Ok(())
}

// Visits each reached input of a relay, this one first.
#[cycle(visit)]
fn visit_relay(
    site: &Site,
    class: Class,
    flows: &ClassFlows,
    reached: &[SiteInput],
    seen: &mut Seen,
    first: SiteInput,
) -> Result<(), Halt>
    requires reached { (x : AnyInput) → Contains reached.now x ↔ Reach site.now class Scope.Every x }
    requires ranked { spec.AreRanked site.now class seen.old.done.items seen.old.settled.items seen.old.ranks.items }
    requires trail { (x : AnyInput) → x.relay ≡ first.relay
        → spec.IsTrail site.now class (spec.way_of seen.old.way.items) x }
    requires there { Reach site.now class Scope.Every first }
    requires flows { AreFlows site.now class flows.now }
    ensures way { OnOk result (seen.new.way.items ≡ seen.old.way.items) }
    ensures ranked { OnOk result
        (spec.AreRanked site.now class seen.new.done.items seen.new.settled.items seen.new.ranks.items) }
    ensures more { OnOk result (spec.DoesMore (Contains (spec.relays_of (spec.way_of seen.old.way.items)))
        seen.old.done.items seen.new.done.items) }
    ensures done { OnOk result (spec.IsDone site.now class seen.new.done.items first.relay) }
    ensures halted { IfErr result (spec.IsHalted site.now class (spec.way_of seen.new.way.items)) }
{
    if is_settled(seen.settled.as_slice(), first.relay) {
        return Ok(());
    }
    visit(site, class, flows, reached, seen, first)?;
    for input in reached {
        if input.relay == first.relay {
            visit(site, class, flows, reached, seen, *input)?;
        }
    }
    settle_relay(seen, first.relay)?;
    Ok(())
}

// Visits each entry, in the order of the file.
fn visit_entries(
    site: &Site,
    class: Class,
    flows: &ClassFlows,
    reached: &[SiteInput],
    seen: &mut Seen,
) -> Result<(), Halt>
    requires reached { (x : AnyInput) → Contains reached.now x ↔ Reach site.now class Scope.Every x }
    requires ranked { spec.AreRanked site.now class seen.old.done.items seen.old.settled.items seen.old.ranks.items }
    requires way { seen.old.way.items ≡ [] }
    requires flows { AreFlows site.now class flows.now }
    ensures ranks { OnOk result (AreRanks site.now class (spec.rank_at seen.new.ranks.items)) }
    ensures most { OnOk result ((relay : ℕ) → spec.IsMost site.now class relay
        (spec.rank_at seen.new.ranks.items relay)) }
    ensures many { OnOk result (length seen.new.ranks.items ≡ length site.now.relays) }
    ensures halted { IfErr result (spec.IsHalted site.now class (spec.way_of seen.new.way.items)) }
{
    for entry in site.entries() {
        visit(site, class, flows, reached, seen, *entry)?;
    }
    Ok(())
}

fn nothing_seen(alloc: Global, site: &Site) -> Result<Seen, AllocError>
    ensures way { IfOk result (λ seen. seen.way.items ≡ []) }
    ensures ranked { (class : AnyClass) → IfOk result
        (λ seen. spec.AreRanked site.now class seen.done.items seen.settled.items seen.ranks.items) }
{
    Ok(Seen {
        way: Vec::new(alloc),
        done: Vec::new(alloc),
        settled: Vec::new(alloc),
        ranks: vec![in alloc; 0; site.relays() as usize]?,
    })
}

/// A rank for each relay: the greatest number of hops that follow one another from it, from a reached input to one that
/// an occurrence of it reaches. Where such a way meets a relay twice, the first that does: entries in the order of the
/// file, depth first, occurrences by rising number. A way may go on from each reached input of a relay that it comes to: the
/// one that is reached by it first, and then the others in the order in which they are given.
pub fn ranks_of(
    alloc: Global,
    site: &Site,
    class: Class,
    flows: &ClassFlows,
    reached: &[SiteInput],
) -> Result<Vec<u32>, Unranked>
    requires reached { (x : AnyInput) → Contains reached.now x ↔ Reach site.now class Scope.Every x }
    requires flows { AreFlows site.now class flows.now }
    ensures ranks { IfOk result (λ ranks. AreRanks site.now class (spec.rank_at ranks.items)) }
    ensures most { IfOk result (λ ranks. (relay : ℕ) → spec.IsMost site.now class relay
        (spec.rank_at ranks.items relay)) }
    ensures many { IfOk result (λ ranks. length ranks.items ≡ length site.now.relays) }
    ensures none { IfErr result (spec.HasNoRanks site.now class) }
{
    let mut seen = match nothing_seen(alloc, site) {
        Ok(seen) => seen,
        Err(_) => return Err(Unranked::NoMemory),
    };
    match visit_entries(site, class, flows, reached, &mut seen) {
        Ok(()) => Ok(seen.ranks),
        Err(Halt::Loop(end)) => Err(Unranked::Loop(seen.way, end)),
        Err(Halt::NoMemory) => Err(Unranked::NoMemory),
    }
}
