//! The device of an action, on the host.
ghost use Rattle.std.specs.Prelude.{◌≡◌, ◌≢◌, ◌<◌, ◌≤◌, ⊤, length, IfErr, IfNone, IfSome, OnSome};
ghost use Rattle.sy_wire.specs.Streams.{count_after};

use crate::devices::archive::Archive;
use crate::devices::link::Link;
use std::sync::Arc;
use sy_actions::{Device, DeviceFault};
use sy_log::log::ActionLog;
use sy_report::texts::reason::Reason;
use sy_wire::Message;

/// What takes the messages of an action.
#[derive(Drop)]
pub enum Taker {
    Archive(Archive),
    Link(Link),
    /// Nothing: the action's target is no relay.
    Nothing,
}

/// The device of an action, on the host.
#[derive(Drop)]
pub struct HostDevice {
    taker: Taker,
    // the offers that failed, counted up to 2^64 - 1
    failed: u64,
    log: ActionLog,
    // whether the last offer failed, where that was noted
    is_failing: bool,
}

// What is said of a fault whose reason nobody gave.
fn reason_of(fault: DeviceFault) -> Reason {
    match fault {
        DeviceFault::NoMemory => Reason::NoMemory,
        DeviceFault::Broken => Reason::NoTarget,
        DeviceFault::Write | DeviceFault::CountFull => Reason::Write,
    }
}

impl HostDevice {
    /// A device to which nothing was offered yet, and what notes whether it fails.
    pub fn new(taker: Taker, log: ActionLog) -> HostDevice
        ensures { result.failed ≡ 0 }
    {
        HostDevice {
            taker,
            failed: 0,
            log,
            is_failing: false,
        }
    }

    // Offers a message to what takes it.
    fn hand_on(&mut self, message: &Arc<Message>) -> Result<(), DeviceFault>
        ensures same { self.new.failed ≡ self.old.failed }
        ensures own { IfErr result (λ f. f ≢ DeviceFault.CountFull) }
    {
        match &mut self.taker {
            Taker::Archive(archive) => archive.offer(message),
            Taker::Link(link) => link.offer(message),
            Taker::Nothing => Err(DeviceFault::Broken),
        }
    }

    // Offers messages to what takes them.
    fn hand_all_on(&mut self, messages: &[Arc<Message>]) -> (usize, Option<DeviceFault>)
        requires { 0 < length messages.now }
        ensures same { self.new.failed ≡ self.old.failed }
        ensures all { IfNone result.1 (result.0 ≡ length messages.now) }
        ensures some { OnSome result.1 (result.0 < length messages.now) }
        ensures own { IfSome result.1 (λ f. f ≢ DeviceFault.CountFull) }
    {
        match &mut self.taker {
            Taker::Archive(archive) => archive.offer_all(messages),
            Taker::Link(link) => link.offer_all(messages),
            Taker::Nothing => (0, Some(DeviceFault::Broken)),
        }
    }

    // Notes that an offer failed, where the one before it didn't. One that the relay's end cut short isn't noted.
    fn note_failure(&mut self, fault: DeviceFault)
        ensures { self.new.failed ≡ self.old.failed }
    {
        let reason = match self.log.take_reason() {
            Some(Reason::Ending) => return,
            Some(reason) => reason,
            None => reason_of(fault),
        };
        if !self.is_failing {
            self.is_failing = true;
            self.log.begin(reason);
        }
    }

    // Notes that an offer succeeded, where the one before it didn't.
    fn note_success(&mut self)
        ensures { self.new.failed ≡ self.old.failed }
    {
        if self.is_failing {
            self.is_failing = false;
            self.log.end();
        }
    }

    // Counts an offer that failed.
    fn fail(&mut self, fault: DeviceFault) -> DeviceFault
        ensures fault { result ≡ fault }
        ensures counted { self.new.failed ≡ count_after self.old.failed 1 }
        ensures more { self.old.failed ≤ self.new.failed }
    {
        self.note_failure(fault);
        self.failed = self.failed.saturating_add(1);
        fault
    }
}

impl Device for HostDevice {
    ghost faults = { λ it. it.failed };

    // of what a file holds, or a link hands on, no proof can say anything
    ghost stands_for = { λ _ _ _. ⊤ };

    ghost offered = { λ _ _ _ _. ⊤ };

    ghost State = { ⊤ };

    ghost state = { λ _. tt };

    ghost steps = { λ _ _ _ _. ⊤ };

    fn offer(&mut self, message: &Arc<Message>) -> Result<(), DeviceFault> {
        match self.hand_on(message) {
            Ok(()) => {
                self.note_success();
                Ok(())
            }
            Err(fault) => Err(self.fail(fault)),
        }
    }

    fn offer_all(&mut self, messages: &[Arc<Message>]) -> (usize, Option<DeviceFault>) {
        if messages.is_empty() {
            return (0, None);
        }
        match self.hand_all_on(messages) {
            (taken, None) => {
                self.note_success();
                (taken, None)
            }
            (taken, Some(fault)) => (taken, Some(self.fail(fault))),
        }
    }
}
