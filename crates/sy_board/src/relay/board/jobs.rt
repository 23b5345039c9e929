//! A worker's job, and the steps of those that run an action.
ghost use Rattle.std.specs.Prelude.{◌≡◌, ◌≢◌, ◌<◌, ◌↔◌, ◌∷◌, IfErr, IfNone, IfOk, IfSome, IsFalse, IsTrue, OnErr, OnOk, length};
ghost use Rattle.sy_rules.specs.declared.lists.occurrence.Occurrence.TheVariants as occurrence;
ghost use Rattle.sy_actions.specs.declared.device.DeviceFault.TheVariants.{CountFull};
ghost use Rattle.sy_board.specs.relay.Boards.{FailFails, FailIs, HasNoJob, JobIs, LeftIs, SettleFails, SettleIs, SettlesNext, SettlesNoNext};
ghost use Rattle.sy_board.specs.internal.Jobs.{IsFirstOf, IsNext, IsNextOf, HasNext, HasNextRun, RunFails, advanced_entries};

use super::{Board, Worker, is_guarded_occurrence};
use crate::fault::BoardFault;
use crate::relay::answers::{Job, Retry};
use crate::relay::reading::{occurrence_of, retry_of};
use sy_actions::{DeviceFault, Failure, Receipt, Receipts};
use sy_chain::{Chain, Node};
use sy_rules::{Occurrence, Plan};
use sy_wire::Message;
use sy_wire::message::laws::equal_bytes;

// The lowest occurrence due of the first of a worker's entries, and the set that is left without it.
#[inline(always)]
pub(super) fn next_of(plan: &Plan, entries: &Chain) -> Option<(Occurrence, u64)>
    ensures some { IfSome result (λ next. IsNext plan.now entries.now next.0 next.1) }
    ensures none { IfNone result (HasNext plan.now entries.now → ⊥) }
{
    let first = entries.front()?;
    let due = first.due();
    if due == 0 {
        return None;
    }
    let number = due.trailing_zeros();
    let occurrence = occurrence_of(plan, first.list(), number)?;
    Some((occurrence, due & !(1 << number)))
}

// The action of the run that is next for a worker with these entries, and the set that is left without it.
#[inline(always)]
pub(super) fn run_of(plan: &Plan, entries: &Chain) -> Option<(u32, u64)>
    ensures some { IfSome result (λ run. IsNext plan.now entries.now (occurrence.Run run.0) run.1) }
    ensures none { IfNone result (HasNextRun plan.now entries.now → ⊥) }
{
    match next_of(plan, entries)? {
        (Occurrence::Run(action), left) => Some((action, left)),
        (Occurrence::Post(_), _) => None,
    }
}

// Whether the first of a worker's entries is of this message. Equal bytes are one message.
#[inline(always)]
fn is_first_of(entries: &Chain, message: &Message) -> bool
    ensures { IsTrue result ↔ IsFirstOf entries.now message.now }
{
    let Some(node) = entries.front() else {
        return false;
    };
    let first = node.message();
    equal_bytes(first, message);
    first.raw() == message.raw()
}

// Whether a failure's message was offered to its device.
fn was_offered(failure: &Failure) -> bool
    ensures yes { IsTrue result → failure.now.fault ≢ CountFull }
    ensures no { IsFalse result → failure.now.fault ≡ CountFull }
{
    !matches!(failure.fault(), DeviceFault::CountFull)
}

// What is left due of the first of a worker's entries without the run that is next, where a device's answer about a message is of that run.
#[inline(always)]
fn left_by(plan: &Plan, entries: &Chain, device: u32, message: &Message) -> Result<u64, BoardFault>
    ensures ok { IfOk result (λ left. IsNextOf plan.now entries.now device message.now left) }
    ensures err { IfErr result (λ fault. RunFails fault plan.now entries.now device message.now) }
{
    let Some((action, left)) = run_of(plan, entries) else {
        return Err(BoardFault::NoJob);
    };
    if action != device {
        return Err(BoardFault::WrongReceipt);
    }
    if !is_first_of(entries, message) {
        return Err(BoardFault::WrongReceipt);
    }
    Ok(left)
}

// The present occurrence is dealt with: this is left due of the first entry, which leaves where it is nothing. The next occurrence hasn't
// failed yet.
#[inline(always)]
pub(super) fn advance(worker: &mut Worker, left: u64) -> Option<Node>
    requires { 0 < length worker.old.entries }
    ensures entries { worker.new.entries ≡ advanced_entries worker.old.entries left }
    ensures failures { worker.new.failures ≡ 0 }
    ensures out { IfSome result (λ node. worker.old.entries ≡ node ∷ worker.new.entries) }
    ensures stays { IfNone result (length worker.new.entries ≡ length worker.old.entries) }
{
    worker.failures = 0;
    if left == 0 {
        return worker.entries.pop_front();
    }
    worker.entries.set_due(left);
    None
}

impl Board {
    /// The lowest occurrence due of a worker's first entry, if there is one.
    #[inline(always)]
    pub fn job(&self, worker: u32) -> Option<Job<'_>>
        requires { worker < length self.now.plan.workers }
        ensures some { IfSome result (λ job. JobIs job self.now worker) }
        ensures none { IfNone result (HasNoJob self.now worker) }
    {
        let entries = &self.workers[worker as usize].entries;
        let (occurrence, _) = next_of(&self.plan, entries)?;
        let node = entries.front()?;
        let (message, tag) = (node.message(), node.tag());
        Some(match occurrence {
            Occurrence::Run(action) => Job::Run {
                action,
                message,
                tag,
            },
            Occurrence::Post(list) => Job::Post {
                list,
                input: node.input(),
                message,
                tag,
            },
        })
    }

    /// The action that a worker's job runs is done: its device took the job's message, by this receipt, which is spent.
    pub fn settle(&mut self, worker: u32, receipt: Receipt) -> Result<(), (Receipt, BoardFault)>
        requires { worker < length self.old.plan.workers }
        ensures ok { OnOk result (SettleIs self.old worker receipt self.new) }
        ensures err { IfErr result (λ e. SettleFails e.1 self.old worker receipt) }
        ensures back { IfErr result (λ e. e.0 ≡ receipt) }
        ensures unchanged { OnErr result (self.new ≡ self.old) }
    {
        let _left = self.settle_out(worker, receipt)?;
        Ok(())
    }

    /// The same as `settle`, and the entry is handed out where nothing more is due for it.
    #[inline(always)]
    pub fn settle_out(
        &mut self,
        worker: u32,
        receipt: Receipt,
    ) -> Result<Option<Node>, (Receipt, BoardFault)>
        requires { worker < length self.old.plan.workers }
        ensures ok { OnOk result (SettleIs self.old worker receipt self.new) }
        ensures out { IfOk result (λ out. LeftIs out self.old.state worker self.new.state) }
        ensures err { IfErr result (λ e. SettleFails e.1 self.old worker receipt) }
        ensures back { IfErr result (λ e. e.0 ≡ receipt) }
        ensures unchanged { OnErr result (self.new ≡ self.old) }
    {
        match self.done(worker, receipt.device(), receipt.message()) {
            Ok(left) => {
                receipt.discard();
                Ok(left)
            }
            Err(fault) => Err((receipt, fault)),
        }
    }

    /// The same as `settle_out`, of the next of some receipts, which is spent; where it is refused, they stay as they are.
    #[inline(always)]
    pub fn settle_next(
        &mut self,
        worker: u32,
        receipts: &mut Receipts,
    ) -> Result<Option<Node>, BoardFault>
        requires there { worker < length self.old.plan.workers }
        requires some { 0 < length receipts.old.messages }
        ensures ok { OnOk result (SettlesNext self.old worker receipts.old self.new receipts.new) }
        ensures out { IfOk result (λ out. LeftIs out self.old.state worker self.new.state) }
        ensures err { IfErr result (λ fault. SettlesNoNext fault self.old worker receipts.old) }
        ensures unchanged { OnErr result ((self.new ≡ self.old) × (receipts.new ≡ receipts.old)) }
    {
        let Some(message) = receipts.front() else {
            unreachable!()
        };
        let left = match self.done(worker, receipts.device(), message) {
            Ok(left) => left,
            Err(fault) => return Err(fault),
        };
        let Some(receipt) = receipts.pop_front() else {
            unreachable!()
        };
        receipt.discard();
        Ok(left)
    }

    // As `settle_out`, of what a device answered about a message; the receipt is its caller's to spend.
    #[inline(always)]
    fn done(
        &mut self,
        worker: u32,
        device: u32,
        message: &Message,
    ) -> Result<Option<Node>, BoardFault>
        requires { worker < length self.old.plan.workers }
        ensures ok { OnOk result (SettleIs self.old worker (record { device = device; message = message.now }) self.new) }
        ensures out { IfOk result (λ out. LeftIs out self.old.state worker self.new.state) }
        ensures err { IfErr result (λ fault. SettleFails fault self.old worker (record { device = device; message = message.now })) }
        ensures unchanged { OnErr result (self.new ≡ self.old) }
    {
        let slot = &mut self.workers[worker as usize];
        let left = match left_by(&self.plan, &slot.entries, device, message) {
            Ok(left) => left,
            Err(fault) => return Err(fault),
        };
        let Ok(()) = self.accounts.count_done(device) else {
            return Err(BoardFault::TotalsFull);
        };
        Ok(advance(slot, left))
    }

    /// The action that a worker's job runs has failed: its device was offered the job's message and answered with a fault, by this failure, which is spent.
    /// It may be tried again `action.resumeRetryCount` times, without end where that is -1; one failure more, and the occurrence is lost. Whether
    /// the device took the message all the same isn't asked.
    pub fn failed(&mut self, worker: u32, failure: Failure) -> Result<Retry, (Failure, BoardFault)>
        requires { worker < length self.old.plan.workers }
        ensures ok { IfOk result (λ retry. FailIs retry self.old worker failure self.new) }
        ensures err { IfErr result (λ e. FailFails e.1 self.old worker failure) }
        ensures back { IfErr result (λ e. e.0 ≡ failure) }
        ensures unchanged { OnErr result (self.new ≡ self.old) }
    {
        match self.fail(worker, &failure) {
            Ok(retry) => {
                let _message = failure.into_message();
                Ok(retry)
            }
            Err(fault) => Err((failure, fault)),
        }
    }

    // As `failed`, which spends the failure.
    fn fail(&mut self, worker: u32, failure: &Failure) -> Result<Retry, BoardFault>
        requires { worker < length self.old.plan.workers }
        ensures ok { IfOk result (λ retry. FailIs retry self.old worker failure.now self.new) }
        ensures err { IfErr result (λ fault. FailFails fault self.old worker failure.now) }
        ensures unchanged { OnErr result (self.new ≡ self.old) }
    {
        let slot = &mut self.workers[worker as usize];
        let device = failure.device();
        let left = left_by(&self.plan, &slot.entries, device, failure.message())?;
        if !was_offered(failure) {
            return Err(BoardFault::WrongReceipt);
        }
        let Some(retry) = retry_of(&self.plan, device) else {
            return Ok(Retry::Again);
        };
        if slot.failures < retry {
            slot.failures += 1;
            return Ok(Retry::Again);
        }
        let Some(node) = slot.entries.front() else {
            return Err(BoardFault::NoJob);
        };
        let given_up = Occurrence::Run(device);
        let guarded = is_guarded_occurrence(&self.plan, &self.guard, node, given_up);
        let Ok(()) = self.accounts.count_give_up(device, guarded) else {
            return Err(BoardFault::TotalsFull);
        };
        advance(slot, left);
        Ok(Retry::GaveUp)
    }
}
