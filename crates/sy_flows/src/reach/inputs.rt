//! What an input of a site has, and the members of sets of occurrences.

ghost use Rattle.std.specs.Prelude.{◌≡◌, ◌<◌, length, Decides, IfNone, IfSome};
ghost use Rattle.std.specs.Int.{bit_at};
ghost use Rattle.sy_board.specs.relay.Plans as plans;
ghost use Rattle.sy_site.specs.Sites.{plan_at};
ghost use Rattle.sy_site.specs.machine.Lawful.{IsInput};
ghost use Rattle.sy_site.specs.machine.Reach.{list_of};
ghost use Rattle.sy_flows.specs.Members as spec;

use sy_rules::Input;
use sy_rules::laws::plans_are_whole;
use sy_site::{Site, SiteInput};

/// Whether a set has an occurrence.
pub fn has(set: u64, number: u32) -> bool
    requires small { number < 64 }
    ensures { Decides result (bit_at set number ≡ 1) }
{
    (set >> number) & 1 == 1
}

/// The lowest occurrence of a set from a number on.
pub fn next_in(set: u64, from: u32) -> Option<u32>
    ensures some { IfSome result (λ number. spec.IsNextIn set from number) }
    ensures none { IfNone result (spec.HasNoneFrom set from) }
{
    if from >= 64 {
        return None;
    }
    let rest = set >> from;
    if rest == 0 {
        return None;
    }
    Some(from + rest.trailing_zeros())
}

/// The input, as its relay's plan has it.
pub fn input_at(site: &Site, input: SiteInput) -> &Input
    requires there { IsInput site.now input }
    ensures { result.now ≡ plans.input_at (plan_at site.now input.relay) input.input }
{
    &site.plan(input.relay).inputs()[input.input as usize]
}

/// The list that its messages execute.
pub fn list_at(site: &Site, input: SiteInput) -> u32
    requires there { IsInput site.now input }
    ensures list { result ≡ list_of site.now input }
    ensures there { result < length (plan_at site.now input.relay).lists }
{
    plans_are_whole(site.plan(input.relay));
    input_at(site, input).list
}
