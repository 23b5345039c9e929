//! Many jobs of a worker at once.
ghost use Rattle.std.specs.Prelude.{◌≡◌, ◌+◌, ◌<◌, ◌≤◌, ◌++◌, IfOk, OnErr, OnOk, drop, length, map, take};
ghost use Rattle.std.specs.Arc.{arc_value};
ghost use Rattle.std.specs.Vec.{vec_capacity, vec_len};
ghost use Rattle.sy_board.specs.relay.Boards.{HasRun, RunsIs};
ghost use Rattle.sy_board.specs.relay.Runs.{AreRuns};

use super::Board;
use super::jobs::run_of;
use std::alloc::AllocError;
use std::mem;
use std::sync::Arc;
use sy_chain::Chain;
use sy_rules::Plan;
use sy_wire::Message;

// Takes from the front those entries, so many at most, whose runs of an action stand next one after the other, to the end of the others; and
// puts their messages to the end of these.
fn take_runs(
    plan: &Plan,
    action: u32,
    most: usize,
    entries: &mut Chain,
    passed: &mut Chain,
    into: &mut Vec<Arc<Message>>,
) -> Result<(), AllocError>
    requires { vec_len into.old + most ≤ vec_capacity into.old }
    ensures all { passed.new ++ entries.new ≡ passed.old ++ entries.old }
    ensures kept { take (length into.old.items) into.new.items ≡ into.old.items }
    ensures capacity { vec_capacity into.new ≡ vec_capacity into.old }
    ensures refused { OnErr result (0 < most) }
    ensures ok { OnOk result (AreRuns plan.now action most entries.old (map arc_value (drop (length into.old.items) into.new.items))) }
{
    let mut more = most;
    while more > 0 {
        let Some((other, left)) = run_of(plan, entries) else {
            return Ok(());
        };
        if other != action {
            return Ok(());
        }
        let Some(node) = entries.pop_front() else {
            unreachable!()
        };
        more -= 1;
        let cloned = Arc::try_clone(node.message());
        passed.push_back(node);
        match cloned {
            Ok(message) => into.push_reserved(message),
            Err(_) => return Err(AllocError),
        }
        if left != 0 {
            return Ok(());
        }
    }
    Ok(())
}

impl Board {
    /// The action of a worker's job, where that is a run, and the messages of it and of the jobs that stand next, so many at most, as far as
    /// they are runs of that action: they come to the end of these, which have room. The last of them is the first that has more due behind its
    /// run, if there is one. Where one of those messages can have no owner more (`Arc::try_clone`), nothing has changed. The board stays as it is in any case.
    pub fn runs(
        &mut self,
        worker: u32,
        most: usize,
        into: &mut Vec<Arc<Message>>,
    ) -> Result<Option<u32>, AllocError>
        requires there { worker < length self.old.plan.workers }
        requires room { vec_len into.old + most ≤ vec_capacity into.old }
        ensures ok { IfOk result (λ action. RunsIs action self.old worker most (map arc_value (drop (length into.old.items) into.new.items))) }
        ensures kept { take (length into.old.items) into.new.items ≡ into.old.items }
        ensures capacity { vec_capacity into.new ≡ vec_capacity into.old }
        ensures err { OnErr result ((into.new.items ≡ into.old.items) × HasRun self.old worker × (0 < most)) }
        ensures same { self.new ≡ self.old }
    {
        let slot = &mut self.workers[worker as usize];
        let Some((action, _)) = run_of(&self.plan, &slot.entries) else {
            return Ok(None);
        };
        let before = into.len();
        let mut passed = Chain::new();
        let given = take_runs(
            &self.plan,
            action,
            most,
            &mut slot.entries,
            &mut passed,
            into,
        );
        mem::swap(&mut slot.entries, &mut passed);
        slot.entries.append(passed);
        let Ok(()) = given else {
            into.truncate(before);
            return Err(AllocError);
        };
        Ok(Some(action))
    }
}
