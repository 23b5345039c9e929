//! How a relay stops.
ghost use Rattle.std.specs.Prelude.{◌≡◌, IfOk, IfSome, IsTrue, map, option_copied, sum_by};
ghost use Rattle.sy_runtime.specs.Stopping.{Stops};

mod draining;

use crate::connection_end::ConnEnd;
use crate::relay::Relay;
use crate::shared::{BoxedDevice, Gate, Shared};
use std::sync::Wait;
use std::thread::{JoinHandle, Threads};
use sy_actions::Hatch;
use sy_board::{Accounts, ActionCounts, Board, Guard};
use sy_chain::Chain;

/// The threads of a relay's workers, with the room for what they leave.
#[derive(Drop)]
pub struct Workers {
    pub(crate) joins: Vec<JoinHandle<()>>,
    pub(crate) room: Vec<Hatch<BoxedDevice>>,
}

/// What a relay leaves: its totals, the entries that it still held, each with what is due for it, and the hatches of its actions, in
/// their order.
#[derive(Drop)]
pub struct Stopped {
    pub accounts: Accounts,
    pub left: Chain,
    pub hatches: Vec<Hatch<BoxedDevice>>,
}

/// The totals of a relay aren't those that its connections and its hatches counted, its guard isn't the one that it was started with, or
/// it has been stopped before.
#[derive(Clone, Copy, Debug, PartialEq, Eq)]
pub struct Mismatch;

// The messages that these connections took; none where they are more than 2^64 - 1.
fn taken_by(ends: &[ConnEnd]) -> Option<u64>
    ensures { IfSome result (λ taken. taken ≡ sum_by (λ end. end.took) ends.now) }
{
    let mut taken: u64 = 0;
    for end in ends {
        taken = taken.checked_add(end.took())?;
    }
    Some(taken)
}

// Whether as many runs are done of each of these actions as its hatch made receipts.
fn are_made(actions: &[ActionCounts], hatches: &[Hatch<BoxedDevice>]) -> bool
    ensures { IsTrue result → map (λ counts. counts.done) actions.now ≡ map (λ hatch. hatch.made) hatches.now }
{
    if actions.len() != hatches.len() {
        return false;
    }
    let mut place = 0;
    for hatch in hatches {
        if actions[place].done != hatch.made() {
            return false;
        }
        place += 1;
    }
    true
}

// Whether as many messages were taken as these connections took.
fn has_taken(accounts: &Accounts, ends: &[ConnEnd]) -> bool
    ensures { IsTrue result → accounts.now.totals.taken ≡ sum_by (λ end. end.took) ends.now }
{
    match taken_by(ends) {
        Some(taken) => taken == accounts.taken(),
        None => false,
    }
}

// Whether of each action as many runs are done as its hatch made receipts.
fn has_done(accounts: &Accounts, hatches: &[Hatch<BoxedDevice>]) -> bool
    ensures { IsTrue result → map (λ counts. counts.done) accounts.now.totals.actions ≡ map (λ hatch. hatch.made) hatches.now }
{
    are_made(accounts.actions(), hatches)
}

// Whether both are the same guard, or none.
fn is_same_guard(one: Option<&Guard>, other: Option<&Guard>) -> bool
    ensures { IsTrue result → option_copied one.entry ≡ option_copied other.entry }
{
    match (one, other) {
        (None, None) => true,
        (Some(one), Some(other)) => one.same(other),
        (Some(_), None) | (None, Some(_)) => false,
    }
}

// Whether the board has this guard, or has none where this is none.
fn has_guard(board: &Board, guard: Option<&Guard>) -> bool
    ensures { IsTrue result → board.now.guard ≡ option_copied guard.entry }
{
    is_same_guard(board.guard(), guard)
}

// Takes the board out of its lock; none where it was taken before.
fn take_board<R: Wait>(rt: &R, shared: &Shared) -> Option<Board> {
    shared.locked.lock(rt).tally.take_board()
}

// Takes the hatches out of their locks, into this room; none where one was taken before.
fn take_hatches<R: Wait>(
    rt: &R,
    shared: &Shared,
    mut room: Vec<Hatch<BoxedDevice>>,
) -> Option<Vec<Hatch<BoxedDevice>>> {
    for hatch in &shared.hatches {
        let hatch = hatch.lock(rt).take()?;
        room.push(hatch).ok()?;
    }
    Some(room)
}

// Compares what a relay leaves with what its connections and hatches counted, and with this guard.
fn compare(
    board: Board,
    hatches: Vec<Hatch<BoxedDevice>>,
    ends: &[ConnEnd],
    guard: Option<&Guard>,
) -> Result<Stopped, Mismatch>
    ensures { IfOk result (λ stopped. Stops (option_copied guard.entry) ends.now stopped.accounts stopped.left
        (map (λ hatch. hatch.made) stopped.hatches.items)) }
{
    let accounts = board.accounts();
    if !has_taken(accounts, ends) || !has_done(accounts, hatches.as_slice()) {
        return Err(Mismatch);
    }
    if !has_guard(&board, guard) {
        return Err(Mismatch);
    }
    let (accounts, left) = board.drain();
    Ok(Stopped {
        accounts,
        left,
        hatches,
    })
}

impl<G: Gate> Relay<G> {
    /// Stops the relay, which needn't be closed before: closes it, waits for its workers, and compares its totals with what these connections,
    /// which are all that it had, and its hatches counted, and its guard with the one that it was started with. It takes no memory.
    pub fn stop<R: Threads + Wait>(
        self,
        rt: &R,
        workers: Workers,
        ends: Vec<ConnEnd>,
    ) -> Result<Stopped, Mismatch>
        ensures { IfOk result (λ stopped. Stops self ends.items stopped.accounts stopped.left
            (map (λ hatch. hatch.made) stopped.hatches.items)) }
    {
        self.close(rt);
        let Workers { joins, room } = workers;
        for join in joins {
            join.join(rt);
        }
        let shared = &self.common.shared;
        let Some(board) = take_board(rt, shared) else {
            return Err(Mismatch);
        };
        let Some(hatches) = take_hatches(rt, shared, room) else {
            return Err(Mismatch);
        };
        compare(board, hatches, ends.as_slice(), shared.guard.as_ref())
    }
}
