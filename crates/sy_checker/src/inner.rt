//! Numbers of the lists of a relay for a class, by the posts that may follow one another from them; or a list that is met
//! twice so.

ghost use Rattle.std.specs.Prelude.{[], ◌≡◌, ◌<◌, ◌≤◌, ◌⊎◌, ◌++◌, ◌∷◌, ◌==◌, ℕ, true, Contains, Decides, IfErr, IfNone, IfOk, IfSome, List, OnOk, Some, length};
ghost use Rattle.std.specs.List.{list_any};
ghost use Rattle.sy_rules.specs.declared.lists.occurrence.Occurrence.{Occurrence as AnyOccurrence};
ghost use Rattle.sy_rules.specs.declared.lists.occurrence.Occurrence.TheVariants as occurrence;
ghost use Rattle.sy_site.specs.Sites.{plan_at};
ghost use Rattle.sy_site.specs.machine.Findings.{HoldsAt, Kind};
ghost use Rattle.sy_site.specs.machine.Lawful.{IsInput};
ghost use Rattle.sy_site.specs.machine.Reach.{MayDo};
ghost use Rattle.sy_site.specs.machine.Reach as sites;
ghost use Rattle.sy_board.specs.relay.Spares.{Scope};
ghost use Rattle.sy_flows.specs.Flows.{AreSiteFlows, is_used};
ghost use Rattle.sy_flows.specs.Hops.{AreFlows};
ghost use Rattle.sy_checker.specs.internal.Inner as spec;

use std::alloc::{AllocError, Global};
use sy_flows::{
    ClassFlows, Executed, SiteFlows, list_at, lists_at, next_in, occurrence_at, set_at,
};
use sy_rules::Occurrence;
use sy_site::{Site, SiteInput};
use sy_wire::Class;

/// A list, and the greatest number of posts that may follow one another from it and aren't spare.
#[derive(Clone, Copy)]
pub struct ListNumber {
    pub list: u32,
    pub number: u32,
}

/// The numbers of those lists of a relay that posts lead to, and of those that they start from.
#[derive(Drop)]
pub struct RelayNumbers {
    pub lists: Vec<ListNumber>,
}

/// Why there are no numbers.
#[derive(Clone, Copy)]
pub enum Unnumbered {
    NoMemory,
    /// from the input at this place a list is met twice
    Loop(usize),
}

impl From<AllocError> for Unnumbered {
    ghost use Rattle.std.specs.Prelude.{◌≡◌};
    ghost use Rattle.sy_checker.specs.declared.inner.Unnumbered.TheVariants.{NoMemory};

    ghost from_gives = { λ _ e. e ≡ NoMemory };

    fn from(_: AllocError) -> Unnumbered {
        Unnumbered::NoMemory
    }
}

// Why the search ends.
#[derive(Clone, Copy)]
pub(crate) enum Halt {
    NoMemory,
    // a list is met twice
    Loop,
}

impl From<AllocError> for Halt {
    ghost use Rattle.sy_checker.specs.declared.inner.Halt.TheVariants.{NoMemory};

    ghost from_gives = { λ _ e. e ≡ NoMemory };

    fn from(_: AllocError) -> Halt {
        Halt::NoMemory
    }
}

// The number of a list among these; 0 where it has none.
fn number_in(lists: &[ListNumber], list: u32) -> u32
    ensures { result ≡ spec.number_in lists.now list }
{
    for own in lists {
        if own.list == list {
            return own.number;
        }
    }
    0
}

/// The number of a list of a relay; 0 where it has none.
pub fn number_at(numbers: &[RelayNumbers], relay: u32, list: u32) -> u32
    ensures { result ≡ spec.number_at numbers.now relay list }
{
    match numbers.get(relay as usize) {
        Some(own) => number_in(own.lists.as_slice(), list),
        None => 0,
    }
}

fn is_done(done: &[ListNumber], list: u32) -> bool
    ensures { result ≡ list_any (λ x. x.list == list) done.now }
{
    done.iter().any(|x| x.list == list)
}

// Whether a list is on a way.
fn is_on(way: &[u32], list: u32) -> bool
    ensures { Decides result (Contains way.now list) }
{
    way.contains(&list)
}

fn go_on(way: &mut Vec<u32>, list: u32) -> Result<(), AllocError>
    ensures { OnOk result (way.new.items ≡ way.old.items ++ list ∷ []) }
{
    way.push(list)?;
    Ok(())
}

fn go_back(way: &mut Vec<u32>)
    ensures { (before : List ℕ) → (list : ℕ) → way.old.items ≡ before ++ list ∷ [] → way.new.items ≡ before }
{
    way.pop();
}

// The greater one of two numbers.
fn greater(one: u32, other: u32) -> u32
    ensures one { one ≤ result }
    ensures other { other ≤ result }
    ensures is { (result ≡ one) ⊎ (result ≡ other) }
{
    if one < other {
        return other;
    }
    one
}

fn push_number(done: &mut Vec<ListNumber>, list: u32, number: u32) -> Result<(), AllocError>
    ensures { OnOk result (done.new.items ≡ done.old.items ++ record { list = list; number = number } ∷ []) }
{
    done.push(ListNumber { list, number })?;
    Ok(())
}

// The list that an occurrence of a list posts to.
fn post_at(site: &Site, relay: u32, list: u32, at: u32) -> Option<u32>
    requires relay { relay < length site.now.relays }
    requires there { list < length (plan_at site.now relay).lists }
    ensures some { IfSome result (λ to. sites.occurrence_at site.now relay list at ≡ Some (occurrence.Post to)) }
    ensures none { IfNone result (spec.IsNoPost site.now relay list at) }
{
    match occurrence_at(site, relay, list, at) {
        Some(Occurrence::Post(to)) => Some(to),
        Some(Occurrence::Run(_)) | None => None,
    }
}

// Goes through a list that is followed from an input, if none before did, and answers its number.
#[cycle(visit)]
fn visit(
    site: &Site,
    class: Class,
    flows: &SiteFlows,
    input: SiteInput,
    list: u32,
    way: &mut Vec<u32>,
    done: &mut Vec<ListNumber>,
) -> Result<u32, Halt>
    requires input { input.relay < length site.now.relays }
    requires there { list < length (plan_at site.now input.relay).lists }
    requires used { is_used (plan_at site.now input.relay) list ≡ true }
    requires flows { AreSiteFlows site.now class flows.now }
    requires on_way { spec.IsOnWay site.now class input way.old.items list }
    requires undone { spec.AreOpen way.old.items done.old.items }
    requires done { spec.AreDone site.now class input.relay done.old.items }
    ensures way { OnOk result (way.new.items ≡ way.old.items) }
    ensures undone { OnOk result (spec.AreOpen way.old.items done.new.items) }
    ensures done { OnOk result (spec.AreDone site.now class input.relay done.new.items) }
    ensures kept { OnOk result (spec.KeepsDone done.old.items done.new.items) }
    ensures its { IfOk result (λ number. Contains done.new.items (record { list = list; number = number })) }
    ensures halted { IfErr result (spec.IsHalted site.now class input) }
{
    let known = done.as_slice();
    if is_done(known, list) {
        return Ok(number_in(known, list));
    }
    let before = way.as_slice();
    if is_on(before, list) {
        return Err(Halt::Loop);
    }
    go_on(way, list)?;
    let number = visit_posts(site, class, flows, input, list, way, done)?;
    go_back(way);
    push_number(done, list, number)?;
    Ok(number)
}

// Goes through each list that a post of this one leads to, and answers the number that they ask for.
#[cycle(visit)]
fn visit_posts(
    site: &Site,
    class: Class,
    flows: &SiteFlows,
    input: SiteInput,
    list: u32,
    way: &mut Vec<u32>,
    done: &mut Vec<ListNumber>,
) -> Result<u32, Halt>
    requires input { input.relay < length site.now.relays }
    requires there { list < length (plan_at site.now input.relay).lists }
    requires used { is_used (plan_at site.now input.relay) list ≡ true }
    requires flows { AreSiteFlows site.now class flows.now }
    requires on_way { spec.AreOnWay site.now class input way.old.items list }
    requires undone { spec.AreOpen way.old.items done.old.items }
    requires done { spec.AreDone site.now class input.relay done.old.items }
    ensures way { OnOk result (way.new.items ≡ way.old.items) }
    ensures undone { OnOk result (spec.AreOpen way.old.items done.new.items) }
    ensures done { OnOk result (spec.AreDone site.now class input.relay done.new.items) }
    ensures kept { OnOk result (spec.KeepsDone done.old.items done.new.items) }
    ensures asked { IfOk result (spec.IsAsked site.now class input.relay done.new.items list) }
    ensures halted { IfErr result (spec.IsHalted site.now class input) }
{
    let set = set_at(site, class, flows, Executed::Firm, input.relay, list);
    let mut number = 0;
    let mut next = 0;
    while let Some(at) = next_in(set, next) {
        let more = visit_one(site, class, flows, input, list, at, way, done)?;
        number = greater(number, more);
        next = at + 1;
    }
    Ok(number)
}

// The same of one occurrence that may be executed: one more than the number of the list that it leads to, where it is a
// post.
#[cycle(visit)]
fn visit_one(
    site: &Site,
    class: Class,
    flows: &SiteFlows,
    input: SiteInput,
    list: u32,
    at: u32,
    way: &mut Vec<u32>,
    done: &mut Vec<ListNumber>,
) -> Result<u32, Halt>
    requires input { input.relay < length site.now.relays }
    requires there { list < length (plan_at site.now input.relay).lists }
    requires does { (is : AnyOccurrence) → sites.occurrence_at site.now input.relay list at ≡ Some is
        → MayDo site.now class Scope.Firm input.relay list at is }
    requires flows { AreSiteFlows site.now class flows.now }
    requires on_way { spec.AreOnWay site.now class input way.old.items list }
    requires undone { spec.AreOpen way.old.items done.old.items }
    requires done { spec.AreDone site.now class input.relay done.old.items }
    ensures way { OnOk result (way.new.items ≡ way.old.items) }
    ensures undone { OnOk result (spec.AreOpen way.old.items done.new.items) }
    ensures done { OnOk result (spec.AreDone site.now class input.relay done.new.items) }
    ensures kept { OnOk result (spec.KeepsDone done.old.items done.new.items) }
    ensures asked { IfOk result (spec.IsAskedBy site.now class input.relay done.new.items list at) }
    ensures halted { IfErr result (spec.IsHalted site.now class input) }
{
    site.is_lawful();
    match post_at(site, input.relay, list, at) {
        Some(inner) => {
            let number = visit(site, class, flows, input, inner, way, done)?;
            Ok(number + 1)
        }
        None => Ok(0),
    }
}

// Goes through each list that is followed from an input, where a post leads on from its own.
pub(crate) fn number_lists(
    alloc: Global,
    site: &Site,
    class: Class,
    flows: &ClassFlows,
    input: SiteInput,
    done: &mut Vec<ListNumber>,
) -> Result<(), Halt>
    requires there { IsInput site.now input }
    requires flows { AreFlows site.now class flows.now }
    requires done { spec.AreDone site.now class input.relay done.old.items }
    ensures done { OnOk result (spec.AreDone site.now class input.relay done.new.items) }
    ensures kept { OnOk result (spec.KeepsDone done.old.items done.new.items) }
    ensures posted { OnOk result (spec.AreAllDone site.now class input done.new.items) }
    ensures halted { IfErr result (spec.IsHalted site.now class input) }
{
    if lists_at(site, class, flows, input).is_empty() {
        return Ok(());
    }
    let own = list_at(site, input);
    let mut way = Vec::new(alloc);
    visit(site, class, &flows.lists, input, own, &mut way, done)?;
    Ok(())
}

/// 10 InnerLoop: from an input on a list is met twice.
pub fn meets_again(
    alloc: Global,
    site: &Site,
    class: Class,
    flows: &ClassFlows,
    input: SiteInput,
) -> Result<bool, AllocError>
    requires there { IsInput site.now input }
    requires flows { AreFlows site.now class flows.now }
    ensures { IfOk result (λ again. Decides again (HoldsAt site.now class input Kind.InnerLoop)) }
{
    let mut done = Vec::new(alloc);
    match number_lists(alloc, site, class, flows, input, &mut done) {
        Ok(()) => Ok(false),
        Err(Halt::Loop) => Ok(true),
        Err(Halt::NoMemory) => Err(AllocError),
    }
}
