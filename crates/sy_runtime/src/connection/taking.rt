//! What a connection does with the board: messages come to a hand of its input, and go into the queue.
ghost use Rattle.std.specs.Prelude.{◌≡◌, ◌+◌, ◌<◌, ◌∷◌, ◌++◌, [], ℕ, List, false, length, option_to_list, IfErr, IfOk, IsTrue, OnErr, OnOk};
ghost use Rattle.std.specs.VecDeque.{deque_capacity, deque_len};
ghost use Rattle.sy_board.specs.relay.Plans.{input_at};
ghost use Rattle.sy_board.specs.relay.Steps.{IsHand, IsOfInput};
ghost use Rattle.sy_runtime.specs.Connections.{Kept as KeptTexts};
ghost use Rattle.sy_runtime.specs.declared.untaken.Item.{Item as Kept};
ghost use Rattle.sy_runtime.specs.internal.Counted.{RoseAlike};
ghost use Rattle.sy_runtime.specs.internal.Held.{Holds};
ghost use Rattle.sy_runtime.specs.internal.Taking.{Enters, HasMessage, IsLast, IsUpToUnread, ItemTaken, MayEnter, OneInsert, InsertIs, SomeInsert, TakenIs, Takes};

use crate::connection::used::keep;
use crate::connection_end::ConnEnd;
use crate::untaken::Item;
use std::collections::VecDeque;
use sy_board::{Board, BoardFault, Entry, Taken};
use sy_chain::Node;
use sy_marks::Hold;
use sy_rules::Plan;
use sy_rules::laws::plans_are_whole;

/// A hand of an input, by their numbers.
#[derive(Clone, Copy)]
pub(crate) struct Hand {
    pub(crate) input: u32,
    pub(crate) number: u32,
}

/// Why a connection pauses or ends.
#[derive(Clone, Copy)]
pub(crate) enum Pause {
    Held(Hold),
    // a total, or a count of its own, would pass its limit
    TotalsFull,
    // the board has no such hand, or it isn't free
    Hands,
    // there is no entry for its message
    NoMemory,
}

/// Whether the board has this hand. Of a board that comes out of a lock no more is known than that it is one.
pub(crate) fn has_hand(board: &Board, hand: Hand) -> bool
    ensures { IsTrue result → IsHand board.now.plan hand.input hand.number }
{
    (hand.input as usize) < board.plan().inputs().len() && hand.number < 64
}

// The list that an input's messages follow.
fn list_of(plan: &Plan, input: u32) -> u32
    requires { input < length plan.now.inputs }
    ensures list { result ≡ (input_at plan.now input).list }
    ensures there { result < length plan.now.lists }
{
    plans_are_whole(plan);
    plan.inputs()[input as usize].list
}

// Makes an entry one of that input: it follows the input's list, with all due that its message executes there.
fn follow_input(plan: &Plan, input: u32, node: &mut Node)
    requires { input < length plan.now.inputs }
    ensures made { IsOfInput plan.now input node.new }
    ensures message { node.new.message ≡ node.old.message }
    ensures tag { node.new.tag ≡ node.old.tag }
{
    let list = list_of(plan, input);
    let due = plan.due(list, node.message());
    node.follow(list, input, due);
}

// A message comes to the hand; the answer is whether it stays there.
fn take(
    board: &mut Board,
    hand: Hand,
    mut node: Node,
    used: &mut Vec<Node>,
) -> Result<bool, (Pause, Node)>
    requires { IsHand board.old.plan hand.input hand.number }
    ensures ok { OnOk result (board.new.totals.taken ≡ board.old.totals.taken + 1) }
    ensures message { OnOk result (Takes board.old hand node.message board.new) }
    ensures err { OnErr result (board.new ≡ board.old) }
    ensures last { IfErr result (λ e. IsLast e.0) }
    ensures back { IfErr result (λ e. e.1.message ≡ node.message) }
    ensures plan { board.new.plan ≡ board.old.plan }
{
    // (so the tags tell in which order messages were taken)
    node.set_tag(board.accounts().taken());
    follow_input(board.plan(), hand.input, &mut node);
    match board.take(hand.input, hand.number, node) {
        Ok(Taken::InHand) => Ok(true),
        Ok(Taken::Discarded(node)) => {
            // (refused, its memory goes)
            keep(used, node);
            Ok(false)
        }
        Err((node, BoardFault::TotalsFull)) => Err((Pause::TotalsFull, node)),
        Err((node, _)) => Err((Pause::Hands, node)),
    }
}

/// The hand's message goes into the queue, unless something holds it. The light-delay mark doesn't where it waited
/// there long enough.
pub(crate) fn enter(board: &mut Board, hand: Hand, has_waited: bool) -> Result<(), Pause>
    requires { IsHand board.old.plan hand.input hand.number }
    ensures ok { OnOk result (Enters board.old hand board.new) }
    ensures err { OnErr result (board.new ≡ board.old) }
    ensures taken { board.new.totals.taken ≡ board.old.totals.taken }
    ensures plan { board.new.plan ≡ board.old.plan }
{
    if !has_waited {
        let hold = board.gate(hand.input);
        if hold != Hold::Clear {
            return Err(Pause::Held(hold));
        }
    }
    match board.enter(hand.input, hand.number) {
        Ok(Entry::Entered) => Ok(()),
        Ok(Entry::Held(hold)) => Err(Pause::Held(hold)),
        Err(BoardFault::TotalsFull) => Err(Pause::TotalsFull),
        Err(_) => Err(Pause::Hands),
    }
}

// A message that was left in the hand goes on.
fn enter_left(board: &mut Board, hand: Hand, is_in_hand: &mut bool) -> Result<(), Pause>
    requires { IsHand board.old.plan hand.input hand.number }
    ensures ok { OnOk result (MayEnter board.old hand board.new) }
    ensures free { OnOk result (is_in_hand.new ≡ false) }
    ensures err { OnErr result (board.new ≡ board.old) }
    ensures taken { board.new.totals.taken ≡ board.old.totals.taken }
    ensures plan { board.new.plan ≡ board.old.plan }
{
    if !*is_in_hand {
        return Ok(());
    }
    match enter(board, hand, false) {
        Ok(()) => {
            *is_in_hand = false;
            Ok(())
        }
        Err(pause) => Err(pause),
    }
}

// Takes one item, which has a message, and counts it then, of its connection and of all. The answer is whether its message stays in the hand; or why
// the item wasn't taken, and the item.
#[tactic(auto, using(crate::proofs::Taken::took_one, crate::proofs::Taken::back, crate::proofs::Counted::took_alike, crate::proofs::Counted::none_alike))]
fn take_item(
    board: &mut Board,
    hand: Hand,
    item: Item,
    end: &mut ConnEnd,
    counts: &mut ConnEnd,
    used: &mut Vec<Node>,
) -> Result<bool, (Pause, Item)>
    requires hand { IsHand board.old.plan hand.input hand.number }
    requires has { HasMessage item }
    ensures kept { (read left : List ℕ) (reported : KeptTexts) (later : List Kept) → Holds read end.old reported (item ∷ later) left →
        TakenIs result read end.new reported later left }
    ensures ok { IfOk result (λ stays. ItemTaken stays item board.old hand board.new) }
    ensures last { IfErr result (λ e. IsLast e.0) }
    ensures err { OnErr result (board.new ≡ board.old) }
    ensures taken { board.new.totals.taken + end.old.took ≡ board.old.totals.taken + end.new.took }
    ensures counted { RoseAlike counts.old counts.new end.old end.new }
    ensures plan { board.new.plan ≡ board.old.plan }
{
    if end.is_full() || counts.is_full() {
        return Err((Pause::TotalsFull, item));
    }
    match item {
        Item::Other(..) => unreachable!(),
        Item::Unmade(text) => Err((Pause::NoMemory, Item::Unmade(text))),
        Item::Message(node) => match take(board, hand, node, used) {
            Ok(stays) => {
                end.count_message();
                counts.count_message();
                Ok(stays)
            }
            Err((pause, node)) => Err((pause, Item::Message(node))),
        },
    }
}

// The same, and a message that stays in the hand goes on, unless something holds it there.
fn insert_one(
    board: &mut Board,
    hand: Hand,
    item: Item,
    end: &mut ConnEnd,
    counts: &mut ConnEnd,
    is_in_hand: &mut bool,
    used: &mut Vec<Node>,
) -> Result<(), (Pause, Option<Item>)>
    requires hand { IsHand board.old.plan hand.input hand.number }
    requires has { HasMessage item }
    ensures kept { (read left : List ℕ) (reported : KeptTexts) (later : List Kept) → Holds read end.old reported (item ∷ later) left →
        InsertIs result read end.new reported later left }
    ensures inserted { OneInsert result item board.old hand board.new }
    ensures free { OnOk result (is_in_hand.old ≡ false → is_in_hand.new ≡ false) }
    ensures taken { board.new.totals.taken + end.old.took ≡ board.old.totals.taken + end.new.took }
    ensures counted { RoseAlike counts.old counts.new end.old end.new }
    ensures plan { board.new.plan ≡ board.old.plan }
{
    match take_item(board, hand, item, end, counts, used) {
        Ok(false) => return Ok(()),
        Ok(true) => {}
        Err((pause, item)) => return Err((pause, Some(item))),
    }
    *is_in_hand = true;
    match enter(board, hand, false) {
        Ok(()) => {
            *is_in_hand = false;
            Ok(())
        }
        Err(pause) => Err((pause, None)),
    }
}

/// An item that wasn't taken stands first again.
pub(crate) fn push_front_if_any(batch: &mut VecDeque<Item>, item: Option<Item>)
    requires { deque_len batch.old < deque_capacity batch.old }
    ensures { batch.new.items ≡ option_to_list item ++ batch.old.items }
{
    if let Some(item) = item {
        batch.push_front_reserved(item);
    }
}

/// Takes a batch, item after item, up to the first frame that carries no message, or to where the connection has to pause. `is_in_hand` says whether its last
/// message is still in the hand, where it goes on from there.
#[tactic(auto, using(crate::proofs::Inserts::some_insert, crate::proofs::Inserts::first_insert, crate::proofs::Counted::none_alike, crate::proofs::Counted::both_alike))]
pub(crate) fn insert_some(
    board: &mut Board,
    hand: Hand,
    batch: &mut VecDeque<Item>,
    end: &mut ConnEnd,
    counts: &mut ConnEnd,
    is_in_hand: &mut bool,
    used: &mut Vec<Node>,
) -> Result<(), Pause>
    ensures kept { (read left : List ℕ) (reported : KeptTexts) → Holds read end.old reported batch.old.items left →
        Holds read end.new reported batch.new.items left }
    ensures all { OnOk result (IsUpToUnread batch.new.items) }
    ensures inserted { SomeInsert result batch.old.items batch.new.items board.old hand board.new }
    ensures free { OnOk result (is_in_hand.new ≡ false) }
    ensures taken { board.new.totals.taken + end.old.took ≡ board.old.totals.taken + end.new.took }
    ensures counted { RoseAlike counts.old counts.new end.old end.new }
    ensures plan { board.new.plan ≡ board.old.plan }
{
    if !has_hand(board, hand) {
        return Err(Pause::Hands);
    }
    match enter_left(board, hand, is_in_hand) {
        Ok(()) => {}
        Err(pause) => return Err(pause),
    }
    while let Some(item) = batch.pop_front() {
        if let Item::Other(..) = item {
            push_front_if_any(batch, Some(item));
            return Ok(());
        }
        match insert_one(board, hand, item, end, counts, is_in_hand, used) {
            Ok(()) => {}
            Err((pause, item)) => {
                push_front_if_any(batch, item);
                return Err(pause);
            }
        }
    }
    Ok(())
}
