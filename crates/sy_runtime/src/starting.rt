//! How a relay starts.
ghost use Rattle.std.specs.Prelude.{◌≡◌, IfErr, IfOk, IfSome, length};
ghost use Rattle.std.specs.Arc.{arc_value};
ghost use Rattle.sy_board.specs.relay.Guards.{MayGuard};

use crate::fault::RunFault;
use crate::locked::Locked;
use crate::locked::tally::Tally;
use crate::relay::{Common, Relay};
use crate::shared::{BoxedDevice, Gate, Shared};
use crate::stopping::Workers;
use crate::worker::work;
use std::alloc::{AllocError, Global};
use std::sync::{Arc, Condvar, Mutex, Wait};
use std::thread;
use std::thread::{JoinHandle, Threads};
use std::time::Clock;
use sy_actions::Hatch;
use sy_board::{Board, Guard};
use sy_rules::Plan;
use sy_rules::laws::plans_are_whole;

// Of each of so many inputs the hands that connections have: none.
fn free_hands(alloc: Global, inputs: usize) -> Result<Vec<u64>, AllocError> {
    let mut hands = Vec::with_capacity(alloc, inputs)?;
    for _ in 0..inputs {
        hands.push(0)?;
    }
    Ok(hands)
}

fn copy_of(alloc: Global, guard: &Option<Guard>) -> Result<Option<Guard>, AllocError>
    ensures { IfOk result (λ copy. copy ≡ guard.now) }
{
    match guard {
        Some(guard) => Ok(Some(guard.copy(alloc)?)),
        None => Ok(None),
    }
}

// A hatch before each device, numbered in their order.
fn hatches_of(
    alloc: Global,
    devices: Vec<BoxedDevice>,
) -> Result<Vec<Mutex<Option<Hatch<BoxedDevice>>>>, AllocError> {
    let mut hatches = Vec::with_capacity(alloc, devices.len())?;
    let mut number: u32 = 0;
    for device in devices {
        hatches.push(Mutex::new(Some(Hatch::new(number, device))))?;
        number = number.wrapping_add(1);
    }
    Ok(hatches)
}

/// What the threads of a relay share, with a board before its first message.
pub(crate) fn share(
    alloc: Global,
    plan: Arc<Plan>,
    guard: Option<Guard>,
    devices: Vec<BoxedDevice>,
) -> Result<Shared, AllocError>
    requires { IfSome guard (MayGuard (arc_value plan)) }
    ensures { IfOk result (λ shared. shared.guard ≡ guard) }
{
    let copy = copy_of(alloc, &guard)?;
    let hands = free_hands(alloc, plan.inputs().len())?;
    let hatches = hatches_of(alloc, devices)?;
    let board = Board::new(alloc, plan, guard)?;
    Ok(Shared {
        locked: Mutex::new(Locked {
            tally: Tally::new(board),
            is_closing: false,
            used: Vec::new(alloc),
            hands,
            lost: None,
        }),
        work: Condvar::new(),
        room: Condvar::new(),
        idle: Condvar::new(),
        hatches,
        guard: copy,
    })
}

// Starts the thread of one worker.
fn start_worker<R, G>(
    rt: R,
    alloc: Global,
    common: Arc<Common<G>>,
    worker: u32,
) -> Result<JoinHandle<()>, AllocError>
where
    R: Threads + Wait + Clock + Copy + Send + 'static,
    G: Gate + Send + Sync + 'static,
{
    match thread::spawn(&rt, move || {
        work(&rt, alloc, &common.shared, &common.gate, worker)
    }) {
        Ok(join) => Ok(join),
        Err(_) => Err(AllocError),
    }
}

// Starts the threads of so many workers.
fn start_workers<R, G>(
    rt: R,
    alloc: Global,
    common: &Arc<Common<G>>,
    count: u32,
) -> Result<Vec<JoinHandle<()>>, AllocError>
where
    R: Threads + Wait + Clock + Copy + Send + 'static,
    G: Gate + Send + Sync + 'static,
{
    let mut joins = Vec::with_capacity(alloc, count as usize)?;
    for worker in 0..count {
        let common = Arc::try_clone(common)?;
        joins.push(start_worker(rt, alloc, common, worker)?)?;
    }
    Ok(joins)
}

impl<G: Gate + Send + Sync + 'static> Relay<G> {
    /// Starts a relay of a plan: a thread for each of its workers, which offer messages to the devices, one an action, in the
    /// order of the actions. The only fault is `NoMemory`, of memory or of a thread; workers that were started end then, and aren't waited for.
    ///
    /// With a guard the plan meets its condition, so that nothing guarded is lost. The relay keeps a copy of it, which `stop` compares with the board's.
    pub fn start<R: Threads + Wait + Clock + Copy + Send + 'static>(
        rt: R,
        alloc: Global,
        plan: Arc<Plan>,
        guard: Option<Guard>,
        devices: Vec<BoxedDevice>,
        gate: G,
    ) -> Result<(Relay<G>, Workers), RunFault>
        requires guard { IfSome guard (MayGuard (arc_value plan)) }
        requires devices { length devices.items ≡ length (arc_value plan).actions }
        ensures ok { IfOk result (λ started. started.0 ≡ guard) }
        ensures err { IfErr result (λ fault. fault ≡ RunFault.NoMemory) }
    {
        plans_are_whole(&plan);
        let workers = plan.workers().len() as u32;
        let Ok(room) = Vec::with_capacity(alloc, devices.len()) else {
            return Err(RunFault::NoMemory);
        };
        let Ok(shared) = share(alloc, plan, guard, devices) else {
            return Err(RunFault::NoMemory);
        };
        let Ok(common) = Arc::new(alloc, Common { shared, gate }) else {
            return Err(RunFault::NoMemory);
        };
        let relay = Relay { common };
        match start_workers(rt, alloc, &relay.common, workers) {
            Ok(joins) => Ok((relay, Workers { joins, room })),
            Err(_) => {
                relay.close(&rt);
                Err(RunFault::NoMemory)
            }
        }
    }
}
