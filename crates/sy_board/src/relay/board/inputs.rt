//! The steps of messages on their way into a queue.
ghost use Rattle.std.specs.Prelude.{◌≡◌, ◌<◌, ◌&&◌, ◌++◌, None, Some, length, option_to_list, IfErr, IfOk, OnErr, OnOk, unwrap_or};
ghost use Rattle.sy_board.specs.internal.Counting.{BringFails, LoseFails, after_enter, after_expire};
ghost use Rattle.sy_board.specs.relay.Totals as spec;
ghost use Rattle.sy_board.specs.internal.Jobs.{is_expiring, is_holding};
ghost use Rattle.sy_board.specs.relay.Boards.{EnterFails, EnterIs, ExpireFails, ExpireIs, TakeFails, TakeIs};
ghost use Rattle.sy_board.specs.relay.Steps.{IsHand, IsOfInput};

use super::{Board, is_discarded, is_guarded, place};
use crate::fault::BoardFault;
use crate::relay::accounts::Accounts;
use crate::relay::answers::{Entry, Taken};
use crate::relay::guard::Guard;
use crate::relay::reading::way_of;
use sy_chain::Node;
use sy_marks::{Hold, MarkQueue};
use sy_rules::Plan;

// Whether an entry is lost and its losses are counted apart.
fn is_guarded_loss(lost: bool, plan: &Plan, guard: &Option<Guard>, node: &Node) -> bool
    ensures { result ≡ (lost && spec.is_guarded plan.now (unwrap_or guard.now spec.no_guard) node.now) }
{
    lost && is_guarded(plan, guard, node)
}

// Whether a message can't be put into the queue: it stays in its hand, or its post is still to be done.
pub(super) fn holds(hold: Hold) -> bool
    ensures { result ≡ is_holding hold }
{
    match hold {
        Hold::FullDelay | Hold::Full => true,
        Hold::LightDelay | Hold::Clear => false,
    }
}

// Whether a message that can't be put into the queue may be lost for that.
pub(super) fn expires(hold: Hold) -> bool
    ensures { result ≡ is_expiring hold }
{
    match hold {
        Hold::Full => true,
        Hold::FullDelay | Hold::LightDelay | Hold::Clear => false,
    }
}

// Brings a hand's entry to the end of a queue.
#[inline(always)]
fn bring(
    queue: &mut MarkQueue,
    hand: &mut Option<Node>,
    accounts: &mut Accounts,
) -> Result<(), BoardFault>
    requires room { length queue.old.entries < queue.old.marks.size }
    requires counted { 0 < accounts.old.held_in_hands }
    ensures queue { OnOk result (queue.new ≡ record queue.old { entries = queue.old.entries ++ option_to_list hand.old }) }
    ensures hand { OnOk result (hand.new ≡ None) }
    ensures accounts { OnOk result (accounts.new ≡ after_enter accounts.old) }
    ensures err { IfErr result (λ fault. BringFails fault accounts.old) }
    ensures unchanged { OnErr result ((queue.new ≡ queue.old) × (hand.new ≡ hand.old) × (accounts.new ≡ accounts.old)) }
{
    if !accounts.has_room_in_queues() {
        return Err(BoardFault::TotalsFull);
    }
    queue.push_from(hand);
    accounts.count_enter();
    Ok(())
}

// Loses a hand's entry.
fn lose(
    hand: &mut Option<Node>,
    plan: &Plan,
    guard: &Option<Guard>,
    accounts: &mut Accounts,
) -> Result<Node, BoardFault>
    requires counted { 0 < accounts.old.held_in_hands }
    ensures node { IfOk result (λ node. hand.old ≡ Some node) }
    ensures hand { OnOk result (hand.new ≡ None) }
    ensures accounts { IfOk result (λ node. accounts.new
        ≡ after_expire (spec.is_guarded plan.now (unwrap_or guard.now spec.no_guard) node) accounts.old) }
    ensures err { IfErr result (λ fault. LoseFails fault hand.old plan.now (unwrap_or guard.now spec.no_guard) accounts.old) }
    ensures unchanged { OnErr result ((hand.new ≡ hand.old) × (accounts.new ≡ accounts.old)) }
{
    let guarded = match hand {
        Some(node) => is_guarded(plan, guard, node),
        None => return Err(BoardFault::HandEmpty),
    };
    let Ok(()) = accounts.count_expire(guarded) else {
        return Err(BoardFault::TotalsFull);
    };
    let Some(node) = hand.take() else {
        return Err(BoardFault::HandEmpty);
    };
    Ok(node)
}

impl Board {
    /// A message comes to a free hand of an input. Where it is discarded at the length of the input's queue, it is lost.
    #[inline(always)]
    pub fn take(&mut self, input: u32, hand: u32, node: Node) -> Result<Taken, (Node, BoardFault)>
        requires there { IsHand self.old.plan input hand }
        requires made { IsOfInput self.old.plan input node }
        ensures ok { IfOk result (λ taken. TakeIs taken self.old input hand node self.new) }
        ensures err { IfErr result (λ e. TakeFails e.1 self.old input hand node) }
        ensures back { IfErr result (λ e. e.0 ≡ node) }
        ensures unchanged { OnErr result (self.new ≡ self.old) }
    {
        let place = place(input, hand);
        if self.hands[place].is_some() {
            return Err((node, BoardFault::HandTaken));
        }
        let (_, queue) = way_of(&self.plan, input);
        let lost = is_discarded(&self.queues[queue], &node);
        let guarded = is_guarded_loss(lost, &self.plan, &self.guard, &node);
        let Ok(()) = self.accounts.count_take(lost, guarded) else {
            return Err((node, BoardFault::TotalsFull));
        };
        if lost {
            return Ok(Taken::Discarded(node));
        }
        self.hands[place] = Some(node);
        Ok(Taken::InHand)
    }

    /// A hand's message goes to the end of the input's queue, unless the full-delay mark or a full queue holds it. The light-delay mark doesn't hold
    /// it here: how long a message waits there is its caller's.
    #[inline(always)]
    pub fn enter(&mut self, input: u32, hand: u32) -> Result<Entry, BoardFault>
        requires there { IsHand self.old.plan input hand }
        ensures ok { IfOk result (λ entry. EnterIs entry self.old input hand self.new) }
        ensures err { IfErr result (λ fault. EnterFails fault self.old input hand) }
        ensures unchanged { OnErr result (self.new ≡ self.old) }
    {
        let place = place(input, hand);
        if self.hands[place].is_none() {
            return Err(BoardFault::HandEmpty);
        }
        let hold = self.gate(input);
        if holds(hold) {
            return Ok(Entry::Held(hold));
        }
        let (_, queue) = way_of(&self.plan, input);
        let brought = bring(
            &mut self.queues[queue],
            &mut self.hands[place],
            &mut self.accounts,
        );
        if let Err(fault) = brought {
            return Err(fault);
        }
        Ok(Entry::Entered)
    }

    /// A hand's message is lost, since the input's queue is full and the full-delay mark doesn't hold it.
    pub fn expire(&mut self, input: u32, hand: u32) -> Result<Node, BoardFault>
        requires there { IsHand self.old.plan input hand }
        ensures ok { IfOk result (λ node. ExpireIs node self.old input hand self.new) }
        ensures err { IfErr result (λ fault. ExpireFails fault self.old input hand) }
        ensures unchanged { OnErr result (self.new ≡ self.old) }
    {
        let hold = self.gate(input);
        let place = place(input, hand);
        if self.hands[place].is_none() {
            return Err(BoardFault::HandEmpty);
        }
        if !expires(hold) {
            return Err(BoardFault::NotExpired);
        }
        let lost = lose(
            &mut self.hands[place],
            &self.plan,
            &self.guard,
            &mut self.accounts,
        );
        let node = match lost {
            Ok(node) => node,
            Err(fault) => return Err(fault),
        };
        Ok(node)
    }
}
