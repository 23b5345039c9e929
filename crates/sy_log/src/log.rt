//! What threads note of a relay: of its actions, inputs and queues, and of connections that ended with a fault.

use crate::peers::{Ended, PeerEnd, Sending};
use crate::subject::Subject;
use crate::subjects::{names_in_lines, subjects_of};
use crate::unread_names::UnreadNames;
use std::alloc::{AllocError, Global};
use std::sync::atomic::{AtomicBool, AtomicU64, Ordering};
use std::sync::{Arc, Mutex, Wait};
use std::thread::Parker;
use std::time::{Clock, Duration};
use sy_marks::Hold;
use sy_report::texts::reason::Reason;
use sy_rules::{Input, Plan};
use sy_runtime::Gate;

/// How often the last lines are waited for, and how long each time, in milliseconds.
const LAST_WAITS: u32 = 10;

const LAST_WAIT: u64 = 100;

/// What an operator is told of a relay. Devices, workers and connections note here what happens; a thread looks, and prints.
#[derive(Drop)]
pub struct Log {
    // the actions, then the inputs, then the queues, and then the unread files
    subjects: Vec<Subject>,
    // of each input
    ended: Vec<Mutex<Ended>>,
    actions: usize,
    // the names of the unread files, as lines have them, and which of them each input's is
    unread: Vec<Vec<u8>>,
    unread_of: Vec<Option<usize>>,
    // wakes who looks
    change: Parker,
    is_ending: AtomicBool,
    // tells that the last lines are printed
    end: Parker,
    has_ended: AtomicBool,
}

fn ended_of(alloc: Global, inputs: &[Input]) -> Result<Vec<Mutex<Ended>>, AllocError> {
    let mut ended = Vec::with_capacity(alloc, inputs.len())?;
    for input in inputs {
        ended.push(Mutex::new(Ended::new(alloc, input.port)?))?;
    }
    Ok(ended)
}

impl Log {
    /// Nothing has happened yet to a relay of this plan, whose frames that carry no message are kept in these files.
    pub fn new(
        alloc: Global,
        plan: &Plan,
        files: &UnreadNames<'_>,
    ) -> Result<Arc<Log>, AllocError> {
        let unread = names_in_lines(alloc, files.names.as_slice())?;
        let log = Log {
            subjects: subjects_of(alloc, plan, unread.as_slice())?,
            ended: ended_of(alloc, plan.inputs())?,
            actions: plan.actions().len(),
            unread,
            unread_of: Vec::from_slice(alloc, files.of_inputs.as_slice())?,
            change: Parker::new(),
            is_ending: AtomicBool::new(false),
            end: Parker::new(),
            has_ended: AtomicBool::new(false),
        };
        match Arc::new(alloc, log) {
            Ok(log) => Ok(log),
            Err(_) => Err(AllocError),
        }
    }

    /// The actions, then the inputs, then the queues, and then the unread files.
    pub fn subjects(&self) -> &[Subject] {
        self.subjects.as_slice()
    }

    // Wakes who looks, where a change of this wasn't noted yet.
    fn note(&self, subject: &Subject) {
        if subject.note() {
            self.change.unpark();
        }
    }

    fn input(&self, input: u32) -> Option<&Subject> {
        self.subjects
            .get(self.actions.saturating_add(input as usize))
    }

    fn queue(&self, queue: u32) -> Option<&Subject> {
        let inputs = self.actions.saturating_add(self.ended.len());
        self.subjects.get(inputs.saturating_add(queue as usize))
    }

    /// A connection of an input has ended so.
    pub fn connection_ended<R: Wait>(&self, rt: &R, input: u32, end: PeerEnd) {
        let Some(ended) = self.ended.get(input as usize) else {
            return;
        };
        ended.lock(rt).add(end);
        if let Some(subject) = self.input(input) {
            self.note(subject);
        }
    }

    /// Whether there is an unread file.
    pub fn has_unread_files(&self) -> bool {
        !self.unread.is_empty()
    }

    /// Which of the unread files keeps the frames of an input, if there is one.
    pub fn unread_of(&self, input: usize) -> Option<usize> {
        *self.unread_of.get(input)?
    }

    /// The name of the unread file of this number, as lines have it.
    pub fn unread_name(&self, file: usize) -> &[u8] {
        match self.unread.get(file) {
            Some(name) => name.as_slice(),
            None => b"",
        }
    }

    /// The name of the unread file of the input that is the subject of this number, as lines have it, if there is one.
    pub fn unread_at(&self, number: usize) -> Option<&[u8]> {
        let file = self.unread_of(number.checked_sub(self.actions)?)?;
        Some(self.unread_name(file))
    }

    /// Which of the subjects is the unread file of this number.
    pub fn unread_subject(&self, file: usize) -> usize {
        let before = self.subjects.len().saturating_sub(self.unread.len());
        before.saturating_add(file)
    }

    /// A connection of an input begins to send what is no message.
    pub fn sends_no_message<R: Wait>(&self, rt: &R, input: u32, sending: Sending) {
        let Some(ended) = self.ended.get(input as usize) else {
            return;
        };
        ended.lock(rt).add_sending(sending);
        if let Some(subject) = self.input(input) {
            self.note(subject);
        }
    }

    /// Whether a connection of the subject of this number has begun to send what is no message, and wasn't told.
    pub fn has_unreported_sending<R: Wait>(&self, rt: &R, number: usize) -> bool {
        match self.ended_at(number) {
            Some(ended) => ended.lock(rt).has_sending(),
            None => false,
        }
    }

    /// How connections ended of the input that is the subject of this number.
    pub fn ended_at(&self, number: usize) -> Option<&Mutex<Ended>> {
        self.ended.get(number.checked_sub(self.actions)?)
    }

    /// Whether a connection of the subject of this number has ended so and wasn't told.
    pub fn has_unreported_end<R: Wait>(&self, rt: &R, number: usize) -> bool {
        match self.ended_at(number) {
            Some(ended) => ended.lock(rt).first.is_some(),
            None => false,
        }
    }

    /// The same connections, which are told now.
    pub fn take_unreported_ends<R: Wait>(&self, rt: &R, number: usize) -> Option<(PeerEnd, u64)> {
        self.ended_at(number)?.lock(rt).take_first()
    }

    /// Notes this time at what has changed since it was last noted.
    pub fn date(&self, now: u64) {
        for subject in self.subjects() {
            subject.date(now);
        }
    }

    /// Whether the relay ends.
    pub fn is_ending(&self) -> bool {
        self.is_ending.load(Ordering::SeqCst)
    }

    /// Waits until something changes, for so many milliseconds at most where that is given.
    pub fn wait<R: Wait + Clock>(&self, rt: &R, most: Option<u64>) {
        match most {
            Some(most) => self.change.park_timeout(rt, Duration::from_millis(most)),
            None => self.change.park(rt),
        }
    }

    /// The last lines are printed.
    pub fn set_ended(&self) {
        self.has_ended.store(true, Ordering::SeqCst);
        self.end.unpark();
    }

    /// Has the last lines printed, and waits for that, but not for long: nobody may read them.
    pub fn finish<R: Wait + Clock>(&self, rt: &R) {
        self.is_ending.store(true, Ordering::SeqCst);
        self.change.unpark();
        for _ in 0..LAST_WAITS {
            if self.has_ended.load(Ordering::SeqCst) {
                return;
            }
            self.end.park_timeout(rt, Duration::from_millis(LAST_WAIT));
        }
    }
}

/// Notes what is held and lost, and does nothing around an offer.
#[derive(Drop)]
pub struct LogGate {
    pub log: Arc<Log>,
}

/// The number of a full-delay mark that holds an input; a full queue has another.
pub const MARK: u64 = 1;

fn why_of(hold: Hold) -> u64 {
    if hold == Hold::FullDelay { MARK } else { 0 }
}

impl Gate for LogGate {
    fn before(&self, _worker: u32) {}

    fn after(&self, _worker: u32) {}

    fn held(&self, input: u32, hold: Hold) {
        if let Some(subject) = self.log.input(input) {
            subject.begin(why_of(hold));
            self.log.note(subject);
        }
    }

    fn goes_on(&self, input: u32) {
        if let Some(subject) = self.log.input(input) {
            subject.end();
            self.log.note(subject);
        }
    }

    fn takes(&self, input: u32, messages: u64, unread: u64) {
        if let Some(subject) = self.log.input(input) {
            subject.take(messages, unread);
        }
    }

    fn loses(&self, input: u32, count: u64) {
        if let Some(subject) = self.log.input(input) {
            subject.lose(count);
            self.log.note(subject);
        }
    }

    fn queue_loses(&self, queue: u32, count: u64) {
        if let Some(subject) = self.log.queue(queue) {
            subject.lose(count);
            self.log.note(subject);
        }
    }
}

/// What notes of an action, or of an unread file, whether it fails. Its device alone has it, and what that writes to.
#[derive(Drop)]
pub struct ActionLog {
    log: Arc<Log>,
    action: usize,
    // why the present offer fails
    reason: Arc<AtomicU64>,
}

impl ActionLog {
    /// Of this action, which doesn't fail.
    pub fn new(alloc: Global, log: &Arc<Log>, action: usize) -> Result<ActionLog, AllocError> {
        let Ok(reason) = Arc::new(alloc, AtomicU64::new(0)) else {
            return Err(AllocError);
        };
        Ok(ActionLog {
            log: Arc::try_clone(log)?,
            action,
            reason,
        })
    }

    /// Another handle of it.
    pub fn try_clone(&self) -> Result<ActionLog, AllocError> {
        Ok(ActionLog {
            log: Arc::try_clone(&self.log)?,
            action: self.action,
            reason: Arc::try_clone(&self.reason)?,
        })
    }

    /// What the action is called in lines, as `action audit`.
    pub fn name(&self) -> &[u8] {
        match self.log.subjects.get(self.action) {
            Some(subject) => subject.name.as_slice(),
            None => b"",
        }
    }

    /// That is why the present offer will fail.
    pub fn because(&self, reason: Reason) {
        self.reason.store(reason.code(), Ordering::SeqCst);
    }

    /// Takes the reason that was given last, if one was.
    pub fn take_reason(&self) -> Option<Reason> {
        match self.reason.swap(0, Ordering::SeqCst) {
            0 => None,
            code => Some(Reason::from_code(code)),
        }
    }

    /// The action begins to fail.
    pub fn begin(&self, reason: Reason) {
        if let Some(subject) = self.log.subjects.get(self.action) {
            subject.begin(reason.code());
            self.log.note(subject);
        }
    }

    /// It works again.
    pub fn end(&self) {
        if let Some(subject) = self.log.subjects.get(self.action) {
            subject.end();
            self.log.note(subject);
        }
    }
}
