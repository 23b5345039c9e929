//! A site that is driven event by event.
ghost use Rattle.std.specs.Prelude.{◌≡◌, ◌<◌, All, IfErr, IfNone, IfOk, IfSome, OnErr, OnOk, length, option_map, slice_get};
ghost use Rattle.std.specs.Arc.{arc_value};
ghost use Rattle.sy_site.specs.machine.Lengths.{IsWithinMarks};
ghost use Rattle.sy_site.specs.machine.Naming.{IsTag};
ghost use Rattle.sy_site.specs.machine.States.{opening};
ghost use Rattle.sy_site.specs.machine.Steps.{SiteEvent};
ghost use Rattle.sy_replay.specs.Events.{loss_of, losses_of, site_event};
ghost use Rattle.sy_replay.specs.States.{Applies, IsIllegalAt, IsReached, state_at};
ghost use Rattle.sy_replay.specs.internal.States.{AreOf, HaveSamePlans};
ghost use Rattle.sy_replay.specs.internal.Held.{IsNoStep, Steps, contents_of};
ghost use Rattle.sy_replay.specs.Held as spec;
ghost use Rattle.sy_replay.specs.Flags.{is_flagged_of};
ghost use Rattle.sy_replay.specs.internal.Takes.{IsOnLink, IsOnNoLink};

use crate::copies::{Arrived, Copied};
use crate::event::{Event, Illegal, Loss};
use crate::part::{Part, inside, tag_at, take_entry, unlink};
use crate::routes::Routes;
use std::alloc::{AllocError, Global};
use std::marker::Model;
use std::sync::Arc;
use sy_site::{Site, SiteAction, SiteInput};
use sy_wire::{Class, Message};

// What the relays of a site hold, what their devices took and what they lost, and what came from outside.
#[derive(Drop)]
struct Held {
    parts: Vec<Part>,
    copies: Vec<Copied>,
    losses: Vec<Loss>,
    arrivals: Vec<Arrived>,
}

/// A site that is driven event by event: the boards of all its relays, with its links and files in memory and without
/// threads. Its state is one that some run of the site ends in.
#[derive(Drop)]
pub struct Replay<'a> {
    alloc: Global,
    site: Routes<'a>,
    held: Held,
}

impl<'a> Model for Replay<'a> {
    ghost use Rattle.std.specs.Coded.{codes};
    ghost use Rattle.sy_rules.specs.internal.PlanCodes.{plan_code};
    ghost use Rattle.sy_replay.specs.States.{IsReached, ReplayState};
    ghost use Rattle.sy_replay.specs.internal.States.{AreOf};
    ghost use Rattle.sy_replay.specs.internal.Held.{contents_of, state_held};

    ghost Value = { ReplayState };

    ghost coded = { Prim.hlevel (codes, plan_code) };

    ghost view = { λ r. record { site = r.site; contents = contents_of r.held } };

    ghost invariant = { λ r. AreOf r.site r.held.parts.items × IsReached r.site (state_held r.held) };
}

// The boards of a site's relays. Each relay holds nothing yet.
fn opened_parts(alloc: Global, site: &Site) -> Result<Vec<Part>, AllocError>
    ensures { IfOk result (λ parts. parts.items ≡ spec.opened_parts site.now) }
{
    let mut parts = Vec::with_capacity(alloc, site.relays() as usize)?;
    for relay in 0..site.relays() {
        let plan = Arc::try_clone(site.plan(relay))?;
        parts.push(Part::new(alloc, plan)?)?;
    }
    Ok(parts)
}

// A message from outside comes to a hand, or nothing changes.
fn take_new(
    alloc: Global,
    held: &mut Held,
    to: SiteInput,
    hand: u32,
    message: &Arc<Message>,
) -> Result<(), Illegal>
    ensures ok { OnOk result (Steps held.old (SiteEvent.TakeNew to hand (arc_value message.now)) held.new) }
    ensures err { IfErr result (λ why. IsNoStep why held.old (SiteEvent.TakeNew to hand (arc_value message.now))) }
    ensures unchanged { OnErr result (contents_of held.new ≡ contents_of held.old) }
    ensures plans { HaveSamePlans held.old.parts.items held.new.parts.items }
{
    let Ok(arrived) = Arc::try_clone(message) else {
        return Err(Illegal::NoMemory);
    };
    let Ok(copy) = Copied::first(alloc, held.arrivals.len() as u64, message, to) else {
        return Err(Illegal::NoMemory);
    };
    let Ok(()) = held.arrivals.reserve(1) else {
        return Err(Illegal::NoMemory);
    };
    let Ok(()) = held.copies.reserve(1) else {
        return Err(Illegal::NoMemory);
    };
    let tag = held.copies.len() as u64;
    if let Err(why) = take_entry(
        alloc,
        &mut held.parts,
        &mut held.losses,
        to,
        hand,
        message,
        tag,
    ) {
        return Err(why);
    }
    held.copies.push_reserved(copy);
    held.arrivals.push_reserved(Arrived {
        message: arrived,
        origin: to,
    });
    Ok(())
}

// The copy at a place of a link that leads to this input.
fn copy_at<'h>(
    site: &Routes<'_>,
    held: &'h Held,
    to: SiteInput,
    link: SiteAction,
    place: u64,
) -> Option<&'h Copied>
    ensures some { IfSome result (λ copy. IsOnLink site.now (contents_of held.now) to link place copy.now) }
    ensures none { IfNone result (IsOnNoLink site.now (contents_of held.now) to link place) }
{
    if site.target(link) != Some(to) {
        return None;
    }
    let tag = tag_at(held.parts.as_slice(), link, place)?;
    held.copies.get(tag as usize)
}

// A copy on a link comes to a hand of the input that the link leads to, or nothing changes.
fn take_from(
    alloc: Global,
    site: &Routes<'_>,
    held: &mut Held,
    to: SiteInput,
    hand: u32,
    link: SiteAction,
    place: u64,
) -> Result<(), Illegal>
    requires { AreOf site.now held.old.parts.items }
    ensures ok { OnOk result (Applies site.now (contents_of held.old) (SiteEvent.TakeFrom to hand link place) (contents_of held.new)) }
    ensures err { IfErr result (λ why. IsIllegalAt why site.now (contents_of held.old) (SiteEvent.TakeFrom to hand link place)) }
    ensures unchanged { OnErr result (contents_of held.new ≡ contents_of held.old) }
    ensures plans { HaveSamePlans held.old.parts.items held.new.parts.items }
{
    let Some(copy) = copy_at(site, held, to, link, place) else {
        return Err(Illegal::NotAStep);
    };
    let Ok(message) = Arc::try_clone(copy.message()) else {
        return Err(Illegal::NoMemory);
    };
    let Ok(copy) = copy.taken_by(alloc, to.relay, site.is_spare(link)) else {
        return Err(Illegal::NoMemory);
    };
    let Ok(()) = held.copies.reserve(1) else {
        return Err(Illegal::NoMemory);
    };
    let tag = held.copies.len() as u64;
    if let Err(why) = take_entry(
        alloc,
        &mut held.parts,
        &mut held.losses,
        to,
        hand,
        &message,
        tag,
    ) {
        return Err(why);
    }
    unlink(&mut held.parts, link, place);
    held.copies.push_reserved(copy);
    Ok(())
}

// Makes the step of an event, or changes nothing.
fn step(alloc: Global, site: &Routes<'_>, held: &mut Held, event: &Event) -> Result<(), Illegal>
    requires { AreOf site.now held.old.parts.items }
    ensures ok { OnOk result (Applies site.now (contents_of held.old) (site_event event.now) (contents_of held.new)) }
    ensures err { IfErr result (λ why. IsIllegalAt why site.now (contents_of held.old) (site_event event.now)) }
    ensures unchanged { OnErr result (contents_of held.new ≡ contents_of held.old) }
    ensures plans { HaveSamePlans held.old.parts.items held.new.parts.items }
{
    match event {
        Event::TakeNew {
            relay,
            input,
            hand,
            message,
        } => {
            let to = SiteInput {
                relay: *relay,
                input: *input,
            };
            take_new(alloc, held, to, *hand, message)
        }
        Event::TakeFrom {
            relay,
            input,
            hand,
            from,
            action,
            place,
        } => {
            let to = SiteInput {
                relay: *relay,
                input: *input,
            };
            let link = SiteAction {
                relay: *from,
                action: *action,
            };
            take_from(alloc, site, held, to, *hand, link, *place)
        }
        Event::Inside { relay, event } => {
            inside(alloc, &mut held.parts, &mut held.losses, *relay, *event)
        }
    }
}

impl<'a> Replay<'a> {
    /// A replay of a site, in which no relay holds anything yet. It is refused for want of memory alone.
    pub fn new(alloc: Global, site: &'a Site) -> Result<Replay<'a>, AllocError>
        ensures { IfOk result (λ replay. (replay.site ≡ site.now) × (replay.contents.parts ≡ spec.opened_parts site.now)
            × (state_at replay ≡ opening site.now)) }
    {
        let parts = opened_parts(alloc, site)?;
        let routes = Routes::of(alloc, site)?;
        Ok(Replay {
            alloc,
            site: routes,
            held: Held {
                parts,
                copies: Vec::new(alloc),
                losses: Vec::new(alloc),
                arrivals: Vec::new(alloc),
            },
        })
    }

    /// Makes the step of an event; or says why not, and changes nothing. The totals of the relay's board are then those
    /// that its step gives; where one of them would pass 64 bits, the step isn't made.
    ///
    /// Its cost is that of the step. A take from a link also moves what stands before the copy there, or what stands
    /// behind it, whichever is less; and it copies the numbers of the relays that took the copy.
    pub fn apply(&mut self, event: &Event) -> Result<(), Illegal>
        ensures ok { OnOk result (Applies self.old.site self.old.contents (site_event event.now) self.new.contents) }
        ensures err { IfErr result (λ why. IsIllegalAt why self.old.site self.old.contents (site_event event.now)) }
        ensures unchanged { OnErr result (self.new ≡ self.old) }
        ensures site { self.new.site ≡ self.old.site }
    {
        step(self.alloc, &self.site, &mut self.held, event)
    }

    /// What was lost, in order. The relay of each loss is one of the site's, and its copy one that was made.
    pub fn losses(&self) -> &[Loss]
        ensures all { losses_of result.now ≡ (state_at self.now).losses }
        ensures relays { All (λ loss. loss.relay < length self.now.site.relays) result.now }
        ensures copies { All (λ loss. IsTag (state_at self.now).copies loss.copy) result.now }
    {
        self.held.losses.as_slice()
    }

    /// How many messages came from outside. Their numbers are those below it.
    pub fn messages(&self) -> u64
        ensures { result ≡ length (state_at self.now).arrivals }
    {
        self.held.arrivals.len() as u64
    }

    /// The number of a copy's message; None of a copy that wasn't made. Copies are numbered as they are taken, from 0.
    pub fn number_of(&self, copy: u64) -> Option<u64>
        ensures { result ≡ option_map (λ c. c.number) (slice_get (state_at self.now).copies copy) }
    {
        let copy = self.held.copies.get(copy as usize)?;
        Some(copy.number())
    }

    /// The class of a copy's message; None of a copy that wasn't made.
    pub fn class_of(&self, copy: u64) -> Option<Class>
        ensures { result ≡ option_map (λ c. c.message.class) (slice_get (state_at self.now).copies copy) }
    {
        let copy = self.held.copies.get(copy as usize)?;
        Some(copy.message().class())
    }

    /// Whether a loss is of a flagged copy, on whose way a spare action stood, or of a spare occurrence. That of a copy
    /// that wasn't made isn't.
    pub fn is_flagged(&self, loss: Loss) -> bool
        ensures { result ≡ is_flagged_of self.now.site (loss_of loss) (slice_get (state_at self.now).copies loss.copy) }
    {
        match self.held.copies.get(loss.copy as usize) {
            Some(copy) => {
                copy.flag()
                    || self.site.is_spare_list(loss.relay, loss.list)
                    || self.site.loses_spare(loss.relay, loss.cause)
            }
            None => false,
        }
    }

    /// The state of a replay is one that a run of its site ends in, so that all laws of runs hold of it: no queue whose
    /// feeders all wait at its full-delay mark, where that isn't off, is longer than that mark.
    pub fn is_reached(&self)
        ensures reached { IsReached self.now.site (state_at self.now) }
        ensures within_marks { IsWithinMarks self.now.site (state_at self.now) }
    {
        sy_site::machine::queues_stay_within_marks();
        let _ = &self.held;
    }
}
