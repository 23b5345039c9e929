//! What is watched of a relay beside its totals and its log.

use crate::file::MetricsFile;
use std::alloc::{AllocError, Global};
use std::sync::atomic::{AtomicBool, AtomicU64, Ordering};
use std::sync::{Mutex, Wait};
use std::thread::Parker;
use std::time::{Clock, Duration};
use sy_rules::{Plan, QueueParameters};

/// How often the last file is waited for, and how long each time, in milliseconds.
const LAST_WAITS: u32 = 10;

const LAST_WAIT: u64 = 100;

/// What came to an input.
#[derive(Drop)]
pub struct Traffic {
    pub port: u16,
    accepted: AtomicU64,
    ended: AtomicU64,
}

/// What came to an input up to one moment: connections, and those that have ended.
#[derive(Clone, Copy)]
pub struct Came {
    pub accepted: u64,
    pub ended: u64,
}

/// A queue, and the name that the log has for it.
#[derive(Drop)]
pub struct NamedQueue {
    pub name: String,
    pub parameters: QueueParameters,
}

/// What is watched of a relay beside its totals and its log. Connections count here, and wait for nothing.
#[derive(Drop)]
pub struct Watch {
    pub relay: String,
    pub actions: Vec<String>,
    pub inputs: Vec<Traffic>,
    pub queues: Vec<NamedQueue>,
    // the lines of the log that were left out
    left_out: AtomicU64,
    // the thread that writes it takes it
    file: Mutex<Option<MetricsFile>>,
    // what is written last
    last: Mutex<Option<Vec<u8>>>,
    is_ending: AtomicBool,
    // wakes who writes
    change: Parker,
    is_over: AtomicBool,
    // tells that it is over
    end: Parker,
}

impl Traffic {
    fn new(port: u16) -> Traffic {
        Traffic {
            port,
            accepted: AtomicU64::new(0),
            ended: AtomicU64::new(0),
        }
    }

    /// What came up to now. (What has ended is read first, so that it is never more than what was accepted.)
    pub fn came(&self) -> Came {
        let ended = self.ended.load(Ordering::SeqCst);
        Came {
            accepted: self.accepted.load(Ordering::SeqCst),
            ended,
        }
    }
}

fn actions_of(alloc: Global, plan: &Plan) -> Result<Vec<String>, AllocError> {
    let mut actions = Vec::new(alloc);
    for action in plan.actions() {
        actions.push(String::from_utf8_lossy(alloc, action.name.as_slice())?)?;
    }
    Ok(actions)
}

fn inputs_of(alloc: Global, plan: &Plan) -> Result<Vec<Traffic>, AllocError> {
    let mut inputs = Vec::new(alloc);
    for input in plan.inputs() {
        inputs.push(Traffic::new(input.port))?;
    }
    Ok(inputs)
}

impl Watch {
    /// Nothing has come yet to a relay of that name and plan, whose queues are still to be pushed. Its metrics are written to that file,
    /// where there is one.
    pub fn new(
        alloc: Global,
        relay: &[u8],
        plan: &Plan,
        file: Option<MetricsFile>,
    ) -> Result<Watch, AllocError> {
        Ok(Watch {
            relay: String::from_utf8_lossy(alloc, relay)?,
            actions: actions_of(alloc, plan)?,
            inputs: inputs_of(alloc, plan)?,
            queues: Vec::new(alloc),
            left_out: AtomicU64::new(0),
            file: Mutex::new(file),
            last: Mutex::new(None),
            is_ending: AtomicBool::new(false),
            change: Parker::new(),
            is_over: AtomicBool::new(true),
            end: Parker::new(),
        })
    }

    /// The plan's next queue has that name.
    pub fn push_queue(
        &mut self,
        alloc: Global,
        name: &[u8],
        parameters: &QueueParameters,
    ) -> Result<(), AllocError> {
        self.queues.push(NamedQueue {
            name: String::from_utf8_lossy(alloc, name)?,
            parameters: *parameters,
        })?;
        Ok(())
    }

    /// A connection of an input begins.
    pub fn connection_begins(&self, input: u32) {
        if let Some(traffic) = self.inputs.get(input as usize) {
            let _ = traffic.accepted.fetch_add(1, Ordering::SeqCst);
        }
    }

    /// A connection of an input has ended.
    pub fn connection_ended(&self, input: u32) {
        if let Some(traffic) = self.inputs.get(input as usize) {
            let _ = traffic.ended.fetch_add(1, Ordering::SeqCst);
        }
    }

    /// So many lines of the log were left out.
    pub fn leave_out(&self, lines: u64) {
        let _ = self.left_out.fetch_add(lines, Ordering::SeqCst);
    }

    /// How many lines of the log were left out.
    pub fn left_out(&self) -> u64 {
        self.left_out.load(Ordering::SeqCst)
    }

    /// The file of the metrics, for the one thread that writes it.
    pub fn take_file<R: Wait>(&self, rt: &R) -> Option<MetricsFile> {
        self.file.lock(rt).take()
    }

    /// Whether no thread writes.
    pub fn is_over(&self) -> bool {
        self.is_over.load(Ordering::SeqCst)
    }

    /// A thread writes from now on, or no longer.
    pub fn set_over(&self, is_over: bool) {
        self.is_over.store(is_over, Ordering::SeqCst);
        self.end.unpark();
    }

    /// Whether what is written next is the last.
    pub fn is_ending(&self) -> bool {
        self.is_ending.load(Ordering::SeqCst)
    }

    /// What is written last.
    pub fn take_last<R: Wait>(&self, rt: &R) -> Option<Vec<u8>> {
        self.last.lock(rt).take()
    }

    /// Waits for so many seconds, or until the last is to be written.
    pub fn wait<R: Wait + Clock>(&self, rt: &R, seconds: u32) {
        self.change
            .park_timeout(rt, Duration::from_secs(u64::from(seconds)));
    }

    /// Has this written last, and waits for that, but not for long: a disk may not answer.
    pub fn finish<R: Wait + Clock>(&self, rt: &R, last: Option<Vec<u8>>) {
        *self.last.lock(rt) = last;
        self.is_ending.store(true, Ordering::SeqCst);
        self.change.unpark();
        for _ in 0..LAST_WAITS {
            if self.is_over() {
                return;
            }
            self.end.park_timeout(rt, Duration::from_millis(LAST_WAIT));
        }
    }
}
