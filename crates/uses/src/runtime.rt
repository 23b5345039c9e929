//! Relays that threads share, under the guard of a site that was accepted and without one.

use crate::checker::guarded_plan;
use crate::values::plan;
use std::alloc::Global;
use std::sync::Wait;
use std::thread::Threads;
use std::time::Clock;
use sy_actions::MemoryDevice;
use sy_runtime::{BoxedDevice, Gate, Relay};

/// A gate that does nothing.
#[derive(Drop)]
pub struct NoGate;

impl Gate for NoGate {
    fn before(&self, _: u32) {}

    fn after(&self, _: u32) {}
}

/// Whether memory sufficed for a relay without workers.
pub fn relay_without_workers(alloc: Global) -> Option<bool> {
    let plan = plan(alloc)?;
    Some(Relay::new(alloc, plan, None, NoGate).is_ok())
}

/// Whether memory sufficed for a relay without workers, with a guard.
pub fn guarded_relay_without_workers(alloc: Global) -> Option<bool> {
    let (plan, guard) = guarded_plan(alloc)?;
    Some(Relay::new(alloc, plan, Some(guard), NoGate).is_ok())
}

/// A relay that is started with a guard and a device for each of its actions, which is one, and stopped: how many messages it took.
pub fn guarded_relay_that_is_started<
    R: Threads + Wait + Clock + Copy + Drop + Send + Sync + 'static,
>(rt: R, alloc: Global) -> Option<u64> {
    let (plan, guard) = guarded_plan(alloc)?;
    let mut devices: Vec<BoxedDevice> = Vec::new(alloc);
    let device = Box::new(alloc, MemoryDevice::new(0, 0)).ok()?;
    devices.push(device).ok()?;
    if devices.len() != plan.actions().len() {
        return None;
    }
    match Relay::start(rt, alloc, plan, Some(guard), devices, NoGate) {
        Ok((relay, workers)) => match relay.stop(&rt, workers, Vec::new(alloc)) {
            Ok(stopped) => Some(stopped.accounts.taken()),
            Err(_) => None,
        },
        Err(_) => None,
    }
}
