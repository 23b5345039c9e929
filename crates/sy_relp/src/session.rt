//! A receiver's session.
ghost use Rattle.std.specs.Prelude.{◌≡◌, ◌≢◌, ◌<◌, ◌≤◌, ◌↔◌, ◌⊎◌, ◌++◌, true, false, length, IfErr, IfOk, OnErr, OnOk, IsTrue, MatchOption};
ghost use Rattle.sy_relp.specs.Frames.{Frame, frame};
ghost use Rattle.sy_relp.specs.Answers.{answer_to, rsp};
ghost use Rattle.sy_relp.specs.Sessions.{Acknowledges, Answers, IsNone, IsWaiting, Receives, HasVersion, IsKind, Leads, outcome_of, done_at_once, fresh};
ghost use Rattle.sy_relp.specs.internal.Marks.{MarksNone, MarksOne, undone};

use crate::frame::RelpFrame;
use std::alloc::{AllocError, Global};
use std::collections::VecDeque;
use std::marker::Model;

/// What a command is.
#[derive(Clone, Copy, PartialEq, Eq)]
pub enum Kind {
    Open,
    /// A message of syslog.
    Message,
    Close,
    /// Any other command.
    Other,
}

/// How far a session is.
#[derive(Clone, Copy, PartialEq, Eq)]
pub enum Stage {
    /// No open came yet.
    Fresh,
    Opened,
    /// A close came: nothing may come behind it.
    Closed,
    /// The protocol was broken.
    Ended,
}

/// What is to be made of a frame that came.
#[derive(Clone, Copy, PartialEq, Eq)]
pub enum Outcome {
    /// Its data is a message to be taken.
    Take,
    /// Its answer waits to be written.
    Wait,
    /// The session has ended.
    End,
}

/// Why a frame wasn't taken up.
#[derive(Clone, Copy, PartialEq, Eq)]
pub enum ReceiveFault {
    /// As many commands wait for their answers as may.
    Full,
    /// Memory ran out.
    NoMemory,
}

/// A command that waits for its answer.
#[derive(Clone, Copy, PartialEq, Eq)]
pub struct Waiting {
    pub txnr: u32,
    pub kind: Kind,
    pub is_done: bool,
}

/// The most commands that may wait for their answers.
pub const MAX_WAITING: usize = 4096;

fn kind_of(command: &[u8]) -> Kind
    ensures { IsKind command.now result }
{
    match command {
        b"open" => Kind::Open,
        b"syslog" => Kind::Message,
        b"close" => Kind::Close,
        _ => Kind::Other,
    }
}

// The length of the name of the offer that says the version.
const VERSION_LEN: usize = 13;

// Whether the first offer is the version.
fn has_version(content: &[u8]) -> bool
    ensures yes { result ≡ true → HasVersion content.now }
    ensures no { result ≡ false → HasVersion content.now → ⊥ }
{
    if content.len() < VERSION_LEN {
        return false;
    }
    let (front, _) = content.split_at(VERSION_LEN);
    front == b"relp_version=".as_slice()
}

// Where a command leads, if it may come in this stage.
fn stage_after(stage: Stage, kind: Kind, content: &[u8]) -> Option<Stage>
    ensures { MatchOption result ((after : Stage) → Leads stage kind content.now after → ⊥) (λ after. Leads stage kind content.now after) }
{
    match stage {
        Stage::Fresh => match kind {
            Kind::Open => {
                if has_version(content) {
                    Some(Stage::Opened)
                } else {
                    None
                }
            }
            Kind::Message | Kind::Close | Kind::Other => None,
        },
        Stage::Opened => match kind {
            Kind::Open => None,
            Kind::Message | Kind::Other => Some(Stage::Opened),
            Kind::Close => Some(Stage::Closed),
        },
        Stage::Closed | Stage::Ended => None,
    }
}

/// A receiver's session: what it takes up, and what it answers, without any stream.
#[derive(Drop)]
pub struct Receiver {
    stage: Stage,
    last: u32,
    // in the order in which they came
    waiting: VecDeque<Waiting>,
}

impl Model for Receiver {
    ghost use Rattle.sy_relp.specs.Sessions.{Session};

    ghost Value = { Session };

    ghost view = { λ r. record { stage = r.stage; last = r.last; waiting = r.waiting.items } };
}

fn outcome_as(kind: Kind) -> Outcome
    ensures { result ≡ outcome_of kind }
{
    match kind {
        Kind::Message => Outcome::Take,
        Kind::Open | Kind::Close | Kind::Other => Outcome::Wait,
    }
}

fn is_done_at_once(kind: Kind) -> bool
    ensures { result ≡ done_at_once kind }
{
    match kind {
        Kind::Message => false,
        Kind::Open | Kind::Close | Kind::Other => true,
    }
}

impl Receiver {
    /// A session to which nothing came.
    pub fn new(alloc: Global) -> Receiver
        ensures { result ≡ fresh }
    {
        Receiver {
            stage: Stage::Fresh,
            last: 0,
            waiting: VecDeque::new(alloc),
        }
    }

    /// Whether as many commands wait as may: nothing more is to be read then.
    pub fn is_full(&self) -> bool
        ensures yes { result ≡ true → MAX_WAITING ≤ length self.now.waiting }
        ensures no { result ≡ false → length self.now.waiting < MAX_WAITING }
    {
        self.waiting.len() >= MAX_WAITING
    }

    /// Whether nothing more may come.
    pub fn has_ended(&self) -> bool
        ensures { IsTrue result ↔ (self.now.stage ≡ Stage.Closed) ⊎ (self.now.stage ≡ Stage.Ended) }
    {
        match self.stage {
            Stage::Closed | Stage::Ended => true,
            Stage::Fresh | Stage::Opened => false,
        }
    }

    /// A frame came. At an `Err` nothing has changed.
    pub fn receive(&mut self, frame: &RelpFrame) -> Result<Outcome, ReceiveFault>
        ensures ok { IfOk result (λ outcome. Receives self.old frame.now outcome self.new) }
        ensures err { OnErr result (self.new ≡ self.old) }
        ensures full { IfErr result (λ fault. fault ≡ ReceiveFault.Full → MAX_WAITING ≤ length self.old.waiting) }
        ensures bound { OnOk result (length self.old.waiting < MAX_WAITING) }
    {
        if self.is_full() {
            return Err(ReceiveFault::Full);
        }
        let kind = kind_of(frame.command.as_slice());
        if frame.txnr <= self.last {
            self.stage = Stage::Ended;
            return Ok(Outcome::End);
        }
        let Some(stage) = stage_after(self.stage, kind, frame.content.as_slice()) else {
            self.stage = Stage::Ended;
            return Ok(Outcome::End);
        };
        let waits = Waiting {
            txnr: frame.txnr,
            kind,
            is_done: is_done_at_once(kind),
        };
        let Ok(()) = self.waiting.push_back(waits) else {
            return Err(ReceiveFault::NoMemory);
        };
        self.stage = stage;
        self.last = frame.txnr;
        Ok(outcome_as(kind))
    }
}

// The frame that answers a command.
fn answer_text(alloc: Global, txnr: u32, kind: Kind) -> Result<String, AllocError>
    ensures { IfOk result (λ text. text.bytes.items ≡ frame (rsp txnr (answer_to kind))) }
{
    match kind {
        Kind::Open => {
            format!(in alloc;
                "{txnr} rsp 55 200 OK\nrelp_version=0\nrelp_software=syc\ncommands=syslog\n"
            )
        }
        Kind::Message => format!(in alloc; "{txnr} rsp 6 200 OK\n"),
        Kind::Close => format!(in alloc; "{txnr} rsp 0\n"),
        Kind::Other => format!(in alloc; "{txnr} rsp 11 500 unknown\n"),
    }
}

// Adds the answer to a command, whole or not at all.
fn append_answer(alloc: Global, out: &mut Vec<u8>, txnr: u32, kind: Kind) -> Result<(), AllocError>
    ensures ok { OnOk result (out.new.items ≡ out.old.items ++ frame (rsp txnr (answer_to kind))) }
    ensures err { OnErr result (out.new.items ≡ out.old.items) }
{
    let text = answer_text(alloc, txnr, kind)?;
    out.extend_from_slice(text.as_bytes())
}

fn is_undone(w: Waiting, txnr: u32) -> bool
    ensures yes { result ≡ true → w ≡ undone txnr }
    ensures no { result ≡ false → w ≢ undone txnr }
{
    match w.kind {
        Kind::Message => w.txnr == txnr && !w.is_done,
        Kind::Open | Kind::Close | Kind::Other => false,
    }
}

// The first of the waiting that is this message and isn't done is done.
fn mark(waiting: &mut VecDeque<Waiting>, txnr: u32) -> bool
    ensures yes { result ≡ true → MarksOne waiting.old.items txnr waiting.new.items }
    ensures no { result ≡ false → MarksNone waiting.old.items txnr × (waiting.new.items ≡ waiting.old.items) }
{
    for i in 0..waiting.len() {
        if is_undone(waiting[i], txnr) {
            waiting[i] = Waiting {
                txnr,
                kind: Kind::Message,
                is_done: true,
            };
            return true;
        }
    }
    false
}

impl Receiver {
    /// The message of this number may be answered with 200: whoever took it says so. Answers whether such a message waits.
    pub fn acknowledge(&mut self, txnr: u32) -> bool
        ensures yes { result ≡ true → Acknowledges self.old txnr self.new }
        ensures no { result ≡ false → IsNone self.old txnr × (self.new ≡ self.old) }
    {
        mark(&mut self.waiting, txnr)
    }

    /// Adds the answer of the first command that waits, if that is done. Answers whether there was one. At an `Err`, of memory, nothing
    /// has changed.
    pub fn next_answer(&mut self, alloc: Global, out: &mut Vec<u8>) -> Result<bool, AllocError>
        ensures yes { IfOk result (λ some. some ≡ true → (g : Frame) × Answers self.old g self.new × (out.new.items ≡ out.old.items ++ frame g)) }
        ensures no { IfOk result (λ some. some ≡ false → IsWaiting self.old × (self.new ≡ self.old) × (out.new.items ≡ out.old.items)) }
        ensures err { OnErr result ((self.new ≡ self.old) × (out.new.items ≡ out.old.items)) }
    {
        if self.waiting.is_empty() {
            return Ok(false);
        }
        let first = self.waiting[0];
        if !first.is_done {
            return Ok(false);
        }
        append_answer(alloc, out, first.txnr, first.kind)?;
        let _ = self.waiting.pop_front();
        Ok(true)
    }
}
