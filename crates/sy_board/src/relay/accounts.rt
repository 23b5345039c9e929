//! What a board counts.
ghost use Rattle.std.specs.Prelude.{◌≡◌, ℕ, ◌+◌, ◌-◌, ◌<◌, ◌≤◌, ◌^◌, Bool, if◌then◌else◌, length, map, replicate, slice_index_or, IfOk, IsTrue, ◌↔◌, OnErr, OnOk};
ghost use Rattle.sy_board.specs.relay.Boards.{Fits};
ghost use Rattle.sy_board.specs.relay.Totals as totals;
ghost use Rattle.sy_board.specs.internal.Counting as counting;
ghost use Rattle.sy_board.specs.relay.Boards.{counts_of};

use super::reading::occurrence_of;
use std::alloc::{AllocError, Global};
use std::marker::Model;
use sy_rules::{Occurrence, Plan};

/// The runs of one action: those done, those given up, and those still to be done for entries that workers have.
#[derive(Clone, Copy, Debug, PartialEq, Eq)]
pub struct ActionCounts {
    pub done: u64,
    pub given_up: u64,
    pub left: u64,
}

/// The totals of a board.
#[derive(Drop)]
pub struct Accounts {
    taken: u64,
    lost_in: u64,
    posted: u64,
    lost_post: u64,
    grabbed: u64,
    lost_out: u64,
    in_hands: u64,
    in_queues: u64,
    posts_left: u64,
    guarded_lost: u64,
    actions: Vec<ActionCounts>,
}

impl Model for Accounts {
    ghost use Rattle.sy_board.specs.relay.Boards.{Account};
    ghost use Rattle.sy_board.specs.internal.Stored.{account_inside};

    ghost Value = { Account };

    ghost view = { account_inside };
}

/// A total would pass the largest number.
#[derive(Clone, Copy)]
pub(crate) struct AccountsFull;

fn more(total: u64, by: u64) -> Result<u64, AccountsFull>
    ensures ok { IfOk result (λ sum. sum ≡ total + by) }
    ensures err { OnErr result (2 ^ 64 ≤ total + by) }
{
    match total.checked_add(by) {
        Some(sum) => Ok(sum),
        None => Err(AccountsFull),
    }
}

fn sum(a: u64, b: u64, c: u64) -> u128
    ensures { result ≡ a + b + c }
{
    u128::from(a) + u128::from(b) + u128::from(c)
}

impl ActionCounts {
    /// The runs that became due: each of them is done, given up, or still to be done.
    pub fn due(self) -> u128
        ensures { result ≡ self.done + self.given_up + self.left }
    {
        sum(self.done, self.given_up, self.left)
    }
}

impl Accounts {
    /// Nothing is counted yet, of so many actions.
    pub(crate) fn new(alloc: Global, actions: usize) -> Result<Accounts, AllocError>
        ensures { IfOk result (λ a. a ≡ counting.nothing actions) }
    {
        let none = ActionCounts {
            done: 0,
            given_up: 0,
            left: 0,
        };
        let mut counts = Vec::with_capacity(alloc, actions)?;
        for _ in 0..actions {
            counts.push(none)?;
        }
        Ok(Accounts {
            taken: 0,
            lost_in: 0,
            posted: 0,
            lost_post: 0,
            grabbed: 0,
            lost_out: 0,
            in_hands: 0,
            in_queues: 0,
            posts_left: 0,
            guarded_lost: 0,
            actions: counts,
        })
    }

    /// Messages that came to an input.
    pub fn taken(&self) -> u64
        ensures { result ≡ self.now.totals.taken }
    {
        self.taken
    }

    /// Those of them that were lost there, or in their hand.
    pub fn lost_in(&self) -> u64
        ensures { result ≡ self.now.totals.lost_in }
    {
        self.lost_in
    }

    /// Entries that posts put into queues.
    pub fn posted(&self) -> u64
        ensures { result ≡ self.now.totals.posted }
    {
        self.posted
    }

    /// Posts that were lost: their entry was discarded, the queue was full, or there was no memory.
    pub fn lost_post(&self) -> u64
        ensures { result ≡ self.now.totals.lost_post }
    {
        self.lost_post
    }

    /// Entries that workers took from queues, also those that were lost then or had nothing due.
    pub fn grabbed(&self) -> u64
        ensures { result ≡ self.now.totals.grabbed }
    {
        self.grabbed
    }

    /// All losses: at an input or in its hand, by a post, and as an entry left a queue.
    pub fn lost(&self) -> u128
        ensures { result ≡ self.now.totals.lost_in + self.now.totals.lost_post + self.now.totals.lost_out }
    {
        sum(self.lost_in, self.lost_post, self.lost_out)
    }

    /// Those of them that were lost then.
    pub fn lost_out(&self) -> u64
        ensures { result ≡ self.now.totals.lost_out }
    {
        self.lost_out
    }

    /// Messages that are in a hand now.
    pub fn in_hands(&self) -> u64
        ensures { result ≡ self.now.held_in_hands }
    {
        self.in_hands
    }

    /// Entries that are in a queue now.
    pub fn in_queues(&self) -> u64
        ensures { result ≡ self.now.held_in_queues }
    {
        self.in_queues
    }

    /// Posts that are still to be done for entries that workers have.
    pub fn posts_left(&self) -> u64
        ensures { self.now.totals.posted + self.now.totals.lost_post + result ≡ self.now.totals.posts_due }
    {
        self.posts_left
    }

    /// Posts that became due: each of them is done, lost, or still to be done.
    pub fn posts_due(&self) -> u128
        ensures { result ≡ self.now.totals.posts_due }
    {
        sum(self.posted, self.lost_post, self.posts_left)
    }

    /// Losses of entries and of occurrences whose input and class are guarded, but for those at or after spare actions.
    pub fn guarded_lost(&self) -> u64
        ensures { result ≡ self.now.totals.guarded_lost }
    {
        self.guarded_lost
    }

    /// The runs of each action.
    pub fn actions(&self) -> &[ActionCounts]
        ensures { map counts_of result.now ≡ self.now.totals.actions }
    {
        self.actions.as_slice()
    }

    /// A message came to an input, and is lost or in a hand.
    pub(crate) fn count_take(&mut self, lost: bool, guarded: bool) -> Result<(), AccountsFull>
        ensures ok { OnOk result (self.new ≡ counting.after_take lost guarded self.old) }
        ensures full { OnErr result (Fits (counting.after_take lost guarded self.old) → ⊥) }
        ensures unchanged { OnErr result (self.new ≡ self.old) }
    {
        // mostly it comes into a hand, and no total is full
        if !lost && !guarded && self.taken < u64::MAX && self.in_hands < u64::MAX {
            self.taken += 1;
            self.in_hands += 1;
            return Ok(());
        }
        let taken = more(self.taken, 1)?;
        let lost_in = more(self.lost_in, u64::from(lost))?;
        let guarded_lost = more(self.guarded_lost, u64::from(guarded))?;
        let in_hands = more(self.in_hands, u64::from(!lost))?;
        self.taken = taken;
        self.lost_in = lost_in;
        self.guarded_lost = guarded_lost;
        self.in_hands = in_hands;
        Ok(())
    }

    /// Whether a hand's message, or a post's entry, can be counted in a queue.
    pub(crate) fn has_room_in_queues(&self) -> bool
        ensures { IsTrue result ↔ (self.now.held_in_queues + 1 < 2 ^ 64) }
    {
        self.in_queues < u64::MAX
    }

    /// A hand's message went to a queue.
    pub(crate) fn count_enter(&mut self)
        requires hand { 0 < self.old.held_in_hands }
        requires room { self.old.held_in_queues + 1 < 2 ^ 64 }
        ensures { self.new ≡ counting.after_enter self.old }
    {
        self.in_hands -= 1;
        self.in_queues += 1;
    }

    /// A hand's message was lost.
    pub(crate) fn count_expire(&mut self, guarded: bool) -> Result<(), AccountsFull>
        requires { 0 < self.old.held_in_hands }
        ensures ok { OnOk result (self.new ≡ counting.after_expire guarded self.old) }
        ensures full { OnErr result (Fits (counting.after_expire guarded self.old) → ⊥) }
        ensures unchanged { OnErr result (self.new ≡ self.old) }
    {
        let lost_in = more(self.lost_in, 1)?;
        let guarded_lost = more(self.guarded_lost, u64::from(guarded))?;
        self.lost_in = lost_in;
        self.guarded_lost = guarded_lost;
        self.in_hands -= 1;
        Ok(())
    }

    /// So many entries left a queue, and so many of them were lost, of which so many are guarded.
    pub(crate) fn count_grab(
        &mut self,
        count: usize,
        lost: usize,
        guarded: usize,
    ) -> Result<(), AccountsFull>
        requires { count ≤ self.old.held_in_queues }
        ensures ok { OnOk result (self.new ≡ counting.after_grab count lost guarded self.old) }
        ensures full { OnErr result (Fits (counting.after_grab count lost guarded self.old) → ⊥) }
        ensures unchanged { OnErr result (self.new ≡ self.old) }
    {
        let grabbed = more(self.grabbed, count as u64)?;
        let lost_out = more(self.lost_out, lost as u64)?;
        let guarded_lost = more(self.guarded_lost, guarded as u64)?;
        self.grabbed = grabbed;
        self.lost_out = lost_out;
        self.guarded_lost = guarded_lost;
        self.in_queues -= count as u64;
        Ok(())
    }

    // One more run of an action is left; of one that isn't there nothing is counted.
    fn count_run(&mut self, action: u32)
        requires { (totals.counts_at self.old.totals.actions action).due + 1
            < (totals.counts_at self.old.totals.actions action).done
            + (totals.counts_at self.old.totals.actions action).given_up + 2 ^ 64 }
        ensures { self.new ≡ counting.one_run_due action self.old }
    {
        if let Some(counts) = self.actions.get_mut(action as usize) {
            counts.left += 1;
        }
    }

    /// What an entry has due became due.
    pub(crate) fn count_entry(&mut self, plan: &Plan, list: u32, due: u64)
        requires { counting.HasRoomForOne plan.now list due self.old }
        ensures { self.new ≡ counting.entry_due plan.now list due self.old }
    {
        let mut left = due;
        while left != 0 {
            let number = left.trailing_zeros();
            left &= !(1 << number);
            match occurrence_of(plan, list, number) {
                Some(Occurrence::Run(action)) => self.count_run(action),
                Some(Occurrence::Post(_)) => self.posts_left += 1,
                None => {}
            }
        }
    }

    /// A run of the action is done.
    pub(crate) fn count_done(&mut self, action: u32) -> Result<(), AccountsFull>
        requires { counting.HasRunLeft action self.old }
        ensures ok { OnOk result (self.new ≡ counting.after_done action self.old) }
        ensures full { OnErr result (Fits (counting.after_done action self.old) → ⊥) }
        ensures unchanged { OnErr result (self.new ≡ self.old) }
    {
        let counts = self.actions[action as usize];
        let done = more(counts.done, 1)?;
        self.actions[action as usize] = ActionCounts {
            done,
            given_up: counts.given_up,
            left: counts.left - 1,
        };
        Ok(())
    }

    /// A run of the action is given up.
    pub(crate) fn count_give_up(&mut self, action: u32, guarded: bool) -> Result<(), AccountsFull>
        requires { counting.HasRunLeft action self.old }
        ensures ok { OnOk result (self.new ≡ counting.after_give_up action guarded self.old) }
        ensures full { OnErr result (Fits (counting.after_give_up action guarded self.old) → ⊥) }
        ensures unchanged { OnErr result (self.new ≡ self.old) }
    {
        let counts = self.actions[action as usize];
        let given_up = more(counts.given_up, 1)?;
        let guarded_lost = more(self.guarded_lost, u64::from(guarded))?;
        self.guarded_lost = guarded_lost;
        self.actions[action as usize] = ActionCounts {
            done: counts.done,
            given_up,
            left: counts.left - 1,
        };
        Ok(())
    }

    /// Whether a post's entry can be counted.
    pub(crate) fn has_room_for_post(&self) -> bool
        ensures { IsTrue result ↔ ((self.now.totals.posted + 1 < 2 ^ 64) × (self.now.held_in_queues + 1 < 2 ^ 64)) }
    {
        self.posted < u64::MAX && self.in_queues < u64::MAX
    }

    /// A post put an entry into a queue.
    pub(crate) fn count_post(&mut self)
        requires left { counting.HasPostLeft self.old }
        requires posted { self.old.totals.posted + 1 < 2 ^ 64 }
        requires room { self.old.held_in_queues + 1 < 2 ^ 64 }
        ensures { self.new ≡ counting.after_post self.old }
    {
        self.posted += 1;
        self.posts_left -= 1;
        self.in_queues += 1;
    }

    /// A post was lost.
    pub(crate) fn count_lost_post(&mut self, guarded: bool) -> Result<(), AccountsFull>
        requires { counting.HasPostLeft self.old }
        ensures ok { OnOk result (self.new ≡ counting.after_lost_post guarded self.old) }
        ensures full { OnErr result (Fits (counting.after_lost_post guarded self.old) → ⊥) }
        ensures unchanged { OnErr result (self.new ≡ self.old) }
    {
        let lost_post = more(self.lost_post, 1)?;
        let guarded_lost = more(self.guarded_lost, u64::from(guarded))?;
        self.lost_post = lost_post;
        self.guarded_lost = guarded_lost;
        self.posts_left -= 1;
        Ok(())
    }
}
