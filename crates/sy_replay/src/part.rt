//! One relay of a replay.
ghost use Rattle.std.specs.Prelude.{◌≡◌, ◌<◌, [], IfErr, IfOk, OnErr, OnOk, length, replicate, slice_get, slice_set};
ghost use Rattle.std.specs.Arc.{arc_value};
ghost use Rattle.sy_rules.specs.Whole.{IsWhole};
ghost use Rattle.sy_site.specs.machine.Steps.{SiteEvent};
ghost use Rattle.sy_replay.specs.Events.{losses_of, step_of};
ghost use Rattle.sy_replay.specs.internal.Events.{IsIllegal};
ghost use Rattle.sy_replay.specs.Held.{opened_part};
ghost use Rattle.sy_replay.specs.Parts.{tags_at};
ghost use Rattle.sy_replay.specs.internal.Parts.{IsNoTake, Makes, TakesMessageAt, items_of, part};
ghost use Rattle.sy_replay.specs.States.{passed_of};
ghost use Rattle.sy_replay.specs.internal.States.{HasLists, HaveSamePlans, IsNoneInside, StepsInside};
ghost use Rattle.sy_replay.specs.internal.Takes.{IsNoEntry, Leaves, TakesEntry, without};

use crate::event::{Illegal, Loss, RelayEvent};
use crate::steps::{hands, jobs, posts};
use std::alloc::{AllocError, Global};
use std::collections::VecDeque;
use std::marker::Model;
use std::sync::Arc;
use sy_board::Board;
use sy_rules::Plan;
use sy_rules::laws::plans_are_whole;
use sy_site::{SiteAction, SiteInput};
use sy_wire::Message;

/// A relay: its board, and what each of its actions' devices took, of an archive its file, of a forward its link.
#[derive(Drop)]
pub(crate) struct Part {
    board: Board,
    passed: Vec<VecDeque<u64>>,
}

impl Model for Part {
    ghost use Rattle.std.specs.Prelude.{◌≡◌, length};
    ghost use Rattle.std.specs.Coded.{codes};
    ghost use Rattle.sy_rules.specs.internal.PlanCodes.{plan_code};
    ghost use Rattle.sy_replay.specs.Parts.{PartState};
    ghost use Rattle.sy_replay.specs.internal.Parts.{items_of};

    ghost Value = { PartState };

    ghost coded = { Prim.hlevel (codes, plan_code) };

    ghost view = { λ p. record { board = p.board; passed = items_of p.passed.items } };

    ghost invariant = { λ p. length p.passed.items ≡ length p.board.plan.actions };
}

// As many empty lists.
fn empty_lists(alloc: Global, count: usize) -> Result<Vec<VecDeque<u64>>, AllocError>
    ensures { IfOk result (λ lists. items_of lists.items ≡ replicate count []) }
{
    let mut lists = Vec::with_capacity(alloc, count)?;
    for _ in 0..count {
        lists.push(VecDeque::new(alloc))?;
    }
    Ok(lists)
}

impl Part {
    // A relay of this plan, which has held nothing yet.
    pub(crate) fn new(alloc: Global, plan: Arc<Plan>) -> Result<Part, AllocError>
        ensures { IfOk result (λ part. part ≡ opened_part (arc_value plan)) }
    {
        let passed = empty_lists(alloc, plan.actions().len())?;
        let board = Board::new(alloc, plan, None)?;
        Ok(Part { board, passed })
    }

    // Makes the step of an event inside the relay, or changes nothing.
    fn step(
        &mut self,
        alloc: Global,
        losses: &mut Vec<Loss>,
        relay: u32,
        event: RelayEvent,
    ) -> Result<(), Illegal>
        ensures ok { OnOk result (Makes relay self.old (losses_of losses.old.items) (step_of event)
            self.new (losses_of losses.new.items)) }
        ensures err { IfErr result (λ why. IsIllegal why self.old.board (step_of event)) }
        ensures unchanged { OnErr result ((self.new ≡ self.old) × (losses.new.items ≡ losses.old.items)) }
        ensures lists { HasLists self.old }
        ensures whole { IsWhole self.old.board.plan }
    {
        plans_are_whole(self.board.plan());
        step(
            alloc,
            &mut self.board,
            &mut self.passed,
            losses,
            relay,
            event,
        )
    }

    // Takes a message into a hand, with this tag, or changes nothing.
    fn take(
        &mut self,
        alloc: Global,
        losses: &mut Vec<Loss>,
        to: SiteInput,
        hand: u32,
        message: Arc<Message>,
        tag: u64,
    ) -> Result<(), Illegal>
        ensures ok { OnOk result (TakesMessageAt to.relay self.old (losses_of losses.old.items)
            to.input hand (arc_value message) tag
            self.new (losses_of losses.new.items)) }
        ensures err { IfErr result (λ why. IsNoTake why self.old.board to.input hand (arc_value message) tag) }
        ensures unchanged { OnErr result ((self.new ≡ self.old) × (losses.new.items ≡ losses.old.items)) }
        ensures lists { HasLists self.old }
        ensures whole { IsWhole self.old.board.plan }
    {
        plans_are_whole(self.board.plan());
        hands::take_message(alloc, &mut self.board, losses, to, hand, message, tag)
    }

    // What stands at a place of what an action's device took.
    fn tag_at(&self, action: u32, place: u64) -> Option<u64>
        ensures { result ≡ slice_get (tags_at self.now.passed action) place }
    {
        self.passed
            .get(action as usize)?
            .get(place as usize)
            .copied()
    }

    // Takes away what stands there.
    fn unlink(&mut self, action: u32, place: u64)
        requires { place < length (tags_at self.old.passed action) }
        ensures board { self.new.board ≡ self.old.board }
        ensures passed { self.new.passed ≡ slice_set self.old.passed action (without (tags_at self.old.passed action) place) }
    {
        let _tag = self.passed[action as usize].remove(place as usize);
    }
}

// Makes the step of an event inside one of the relays, or changes nothing.
pub(crate) fn inside(
    alloc: Global,
    parts: &mut Vec<Part>,
    losses: &mut Vec<Loss>,
    relay: u32,
    event: RelayEvent,
) -> Result<(), Illegal>
    ensures ok { OnOk result (StepsInside parts.old.items (losses_of losses.old.items)
        (SiteEvent.Inside relay (step_of event))
        parts.new.items (losses_of losses.new.items)) }
    ensures err { IfErr result (λ why. IsNoneInside why parts.old.items (losses_of losses.old.items)
        (SiteEvent.Inside relay (step_of event))) }
    ensures unchanged { OnErr result ((parts.new.items ≡ parts.old.items) × (losses.new.items ≡ losses.old.items)) }
    ensures plans { HaveSamePlans parts.old.items parts.new.items }
{
    let Some(part) = parts.get_mut(relay as usize) else {
        return Err(Illegal::NotAStep);
    };
    part.step(alloc, losses, relay, event)
}

// Takes an entry of a message into a hand of one of the relays, with this tag, or changes nothing.
pub(crate) fn take_entry(
    alloc: Global,
    parts: &mut Vec<Part>,
    losses: &mut Vec<Loss>,
    to: SiteInput,
    hand: u32,
    message: &Arc<Message>,
    tag: u64,
) -> Result<(), Illegal>
    ensures ok { OnOk result (TakesEntry parts.old.items (losses_of losses.old.items) to hand (arc_value message.now) tag
        parts.new.items (losses_of losses.new.items)) }
    ensures err { IfErr result (λ why. IsNoEntry why parts.old.items to hand (arc_value message.now) tag) }
    ensures unchanged { OnErr result ((parts.new.items ≡ parts.old.items) × (losses.new.items ≡ losses.old.items)) }
    ensures plans { HaveSamePlans parts.old.items parts.new.items }
{
    let Some(part) = parts.get_mut(to.relay as usize) else {
        return Err(Illegal::NotAStep);
    };
    let Ok(message) = Arc::try_clone(message) else {
        return Err(Illegal::NoMemory);
    };
    part.take(alloc, losses, to, hand, message, tag)
}

// What stands at a place of a link.
pub(crate) fn tag_at(parts: &[Part], link: SiteAction, place: u64) -> Option<u64>
    ensures { result ≡ slice_get (passed_of parts.now link) place }
{
    parts.get(link.relay as usize)?.tag_at(link.action, place)
}

// Takes away what stands there. The cost is that of moving what stands before it, or what stands behind it: the fewer.
pub(crate) fn unlink(parts: &mut Vec<Part>, link: SiteAction, place: u64)
    requires { place < length (passed_of parts.old.items link) }
    ensures gone { Leaves parts.old.items link place parts.new.items }
    ensures plans { HaveSamePlans parts.old.items parts.new.items }
{
    parts[link.relay as usize].unlink(link.action, place);
}

// Makes the step of an event inside the relay, or changes nothing.
pub(crate) fn step(
    alloc: Global,
    board: &mut Board,
    passed: &mut Vec<VecDeque<u64>>,
    losses: &mut Vec<Loss>,
    relay: u32,
    event: RelayEvent,
) -> Result<(), Illegal>
    requires { length passed.old.items ≡ length board.old.plan.actions }
    ensures ok { OnOk result (Makes relay (part board.old (items_of passed.old.items)) (losses_of losses.old.items)
        (step_of event)
        (part board.new (items_of passed.new.items)) (losses_of losses.new.items)) }
    ensures err { IfErr result (λ why. IsIllegal why board.old (step_of event)) }
    ensures unchanged { OnErr result ((board.new ≡ board.old) × (items_of passed.new.items ≡ items_of passed.old.items)
        × (losses.new.items ≡ losses.old.items)) }
{
    match event {
        RelayEvent::Enter { input, hand } => hands::enter(board, relay, input, hand),
        RelayEvent::Expire { input, hand } => hands::expire(board, losses, relay, input, hand),
        RelayEvent::Grab { worker } => hands::grab(board, losses, relay, worker),
        RelayEvent::Done { worker } => jobs::done(board, passed, relay, worker),
        RelayEvent::Fail { worker, took } => jobs::fail(board, passed, relay, worker, took),
        RelayEvent::GiveUp { worker, took } => {
            jobs::give_up(board, passed, losses, relay, worker, took)
        }
        RelayEvent::Post { worker } => posts::post(alloc, board, losses, relay, worker),
        RelayEvent::PostLost { worker, cause } => {
            posts::post_lost(board, losses, relay, worker, cause)
        }
    }
}
