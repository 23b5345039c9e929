//! A site: a set of relays, as one site file and the relays' scripts describe it.

ghost use Rattle.std.specs.Prelude.{◌≡◌, ◌==◌, ◌&&◌, ◌<◌, ℕ, List, Some, length, map, option_map, slice_get};
ghost use Rattle.std.specs.List.{list_any};
ghost use Rattle.std.specs.Option.{option_copied};
ghost use Rattle.std.specs.Arc.{arc_value};
ghost use Rattle.sy_rules.specs.Whole.{IsWhole};
ghost use Rattle.sy_site.specs.Sites as spec;
ghost use Rattle.sy_site.specs.machine.Lawful.{IsLawful};
ghost use Rattle.sy_site.specs.texts.Describes.{IsDescribed};

pub mod host;
pub mod lookup;
mod protected;
mod read;
pub mod relay;
mod targets;

use host::{Host, Outside, outside_named};
use lookup::relay_named;
use relay::Relay;
use std::marker::Model;
use std::net::IpAddr;
use std::sync::Arc;
use sy_rules::Plan;
use sy_select::Selector;
use targets::{Targets, target_in};

/// An input of a relay, both by number.
#[derive(Clone, Copy, PartialEq, Eq)]
pub struct SiteInput {
    pub relay: u32,
    pub input: u32,
}

/// An action of a relay, both by number: a forward, or an archive.
#[derive(Clone, Copy, PartialEq, Eq)]
pub struct SiteAction {
    pub relay: u32,
    pub action: u32,
}

/// What a protect line says: messages of the classes of a selector come to an archive.
#[derive(Drop)]
pub struct Protection {
    pub selector: Selector,
    pub archive: SiteAction,
}

fn is_among(actions: &[SiteAction], relay: u32, action: u32) -> bool
    ensures { result ≡ list_any (λ a. a.relay == relay && a.action == action) actions.now }
{
    actions
        .iter()
        .any(|a| a.relay == relay && a.action == action)
}

fn is_input_among(inputs: &[SiteInput], input: SiteInput) -> bool
    ensures { result ≡ list_any (λ entry. spec.same_input entry input) inputs.now }
{
    inputs.iter().any(|entry| entry.relay == input.relay && entry.input == input.input)
}

/// The relays of a site, the inputs that messages of its policy enter by, what of them is to come to which archive,
/// which actions are spare (what is lost at or after one of these is no loss), and the receivers that aren't Syc's.
///
/// Each plan is whole, each entry, each archive and each spare action is there, no archive that is named is spare, and
/// there are at most 64 relays. Some texts describe it.
#[derive(Drop)]
pub struct Site {
    // 1 or 2
    policy: u32,
    relays: Vec<Relay>,
    entries: Vec<SiteInput>,
    // those that end in `whole`
    whole_entries: Vec<SiteInput>,
    protections: Vec<Protection>,
    spares: Vec<SiteAction>,
    outsides: Vec<Outside>,
    // what each action of each relay leads to
    targets: Vec<Targets>,
}

impl Model for Site {
    ghost use Rattle.sy_site.specs.Sites as value;
    ghost use Rattle.std.specs.Coded.{codes};
    ghost use Rattle.sy_rules.specs.internal.PlanCodes.{plan_code};
    ghost use Rattle.sy_site.specs.internal.SiteInside.{IsKept, site_of};

    ghost Value = { value.Site };

    ghost coded = { Prim.hlevel (codes, plan_code) };

    ghost view = { site_of };

    ghost invariant = { IsKept };
}

impl Site {
    /// Each plan of a site is whole, its entries and archives are there, and it has no more relays than may be; its policy is 1 or 2, and each spare
    /// action is there, of policy 2 alone, and no archive that is named.
    pub fn is_lawful(&self)
        ensures { IsLawful self.now }
    {
        let _ = &self.entries;
    }

    /// Each site is one that some texts describe, since reading them alone makes one.
    pub fn is_described(&self)
        ensures { IsDescribed self.now }
    {
        let _ = &self.entries;
    }

    /// The site's policy: 2 where its text begins with `policy 2`, else 1. Of policy 1 nothing is spare.
    pub fn policy(&self) -> u32
        ensures { result ≡ self.now.policy }
    {
        self.policy
    }

    /// How many relays there are. Their numbers are those below it.
    pub fn relays(&self) -> u32
        ensures { result ≡ length self.now.relays }
    {
        self.relays.len() as u32
    }

    /// The name of a relay.
    pub fn name(&self, relay: u32) -> &[u8]
        requires exists { relay < length self.now.relays }
        ensures { Some result.now ≡ option_map (λ r. r.name) (slice_get self.now.relays relay) }
    {
        self.relays[relay as usize].name.as_slice()
    }

    /// Where others connect to a relay: 127.0.0.1 where its line doesn't say it.
    pub fn host(&self, relay: u32) -> &Host
        requires exists { relay < length self.now.relays }
        ensures { Some result.now ≡ option_map (λ r. r.host) (slice_get self.now.relays relay) }
    {
        &self.relays[relay as usize].host
    }

    /// The address that a relay listens at; without one it listens at all of them.
    pub fn listens_at(&self, relay: u32) -> Option<IpAddr>
        requires exists { relay < length self.now.relays }
        ensures { Some result ≡ option_map (λ r. r.listens) (slice_get self.now.relays relay) }
    {
        self.relays[relay as usize].listens
    }

    /// The plan of a relay.
    pub fn plan(&self, relay: u32) -> &Arc<Plan>
        requires exists { relay < length self.now.relays }
        ensures { arc_value result.now ≡ spec.plan_at self.now relay }
    {
        &self.relays[relay as usize].plan
    }

    /// The relay of a name.
    pub fn relay_named(&self, name: &[u8]) -> Option<u32>
        ensures { result ≡ spec.relay_named self.now.relays name.now }
    {
        relay_named(self.relays.as_slice(), name)
    }

    /// The inputs that messages of the site's policy enter by, in the order of the file.
    pub fn entries(&self) -> &[SiteInput]
        ensures { result.now ≡ self.now.entries }
    {
        self.entries.as_slice()
    }

    /// Whether an input is a whole entry: its entry line ends in `whole`, so that nothing that comes in whole there may be dropped.
    pub fn is_whole(&self, input: SiteInput) -> bool
        ensures { result ≡ spec.is_whole self.now input }
    {
        is_input_among(self.whole_entries.as_slice(), input)
    }

    /// What is protected, in the order of the file.
    pub fn protections(&self) -> &[Protection]
        ensures { result.now ≡ self.now.protections }
    {
        self.protections.as_slice()
    }

    /// The spare actions, in the order of the file.
    pub fn spares(&self) -> &[SiteAction]
        ensures { result.now ≡ self.now.spares }
    {
        self.spares.as_slice()
    }

    /// Whether an action of a relay is spare. One that isn't there is not.
    pub fn is_spare(&self, relay: u32, action: u32) -> bool
        ensures { result ≡ spec.is_spare self.now (record { relay = relay; action = action }) }
    {
        is_among(self.spares.as_slice(), relay, action)
    }

    /// The receivers that aren't Syc's, in the order of the file.
    pub fn outsides(&self) -> &[Outside]
        ensures { result.now ≡ self.now.outsides }
    {
        self.outsides.as_slice()
    }

    /// Where the receiver of a name and a port is reached, of those that aren't Syc's.
    pub fn outside_named(&self, name: &[u8], port: u16) -> Option<&Host>
        ensures { option_copied result ≡ spec.outside_named self.now.outsides name.now port }
    {
        outside_named(self.outsides.as_slice(), name, port)
    }

    /// The input that an action of a relay forwards to: of the relay that it names, the one at its port. None for an
    /// archive, for a forward that leads to no input of the site, and for an action that isn't there.
    pub fn target(&self, relay: u32, action: u32) -> Option<SiteInput>
        ensures { result ≡ spec.target self.now (record { relay = relay; action = action }) }
    {
        target_in(self.targets.as_slice(), relay, action)
    }
}
