//! What a configuration comes to: a relay's configuration in the profile, and where its parts come from.

use crate::modules::{Flow, Output};
use crate::params::Span;
use crate::statements::{Assumption, Statement};

/// An input: where it is in the text, by which module, and how it waits. Number N listens at port 10001 + N of the plan.
#[derive(Clone, Copy)]
pub struct Input {
    pub at: usize,
    pub module: Span,
    pub flow: Flow,
    /// Whether it discards what comes faster than a rate.
    pub is_limited: bool,
    /// The number of the ruleset that it leads to; 0 is the default one.
    pub ruleset: usize,
}

/// Why an output loses messages whatever its count of retries.
#[derive(Clone, Copy, PartialEq, Eq)]
pub enum Loss {
    /// Nothing but what is assumed.
    None,
    /// Datagrams.
    Datagram,
    /// A file's name that depends on the message.
    DynamicFile,
    /// A file that is written in the background.
    Asynchronous,
}

/// An output: where it is in the text, what it is there, and what it keeps. Number N is action `aN` of the plan.
#[derive(Clone, Copy)]
pub struct Action {
    pub at: usize,
    pub module: Span,
    pub output: Output,
    pub loss: Loss,
    pub has_queue: bool,
}

/// A ruleset of the text: its name, and where it is. Number N is ruleset `rN` of the plan, N from 1.
#[derive(Clone, Copy)]
pub struct Named {
    pub at: usize,
    pub name: Span,
}

/// Something that is taken for granted, and where.
#[derive(Clone, Copy)]
pub struct Note {
    pub at: usize,
    pub assumption: Assumption,
}

/// A configuration by abstraction.
#[derive(Drop)]
pub struct Fleet {
    /// The relay's configuration in the profile.
    pub plan: Vec<u8>,
    pub inputs: Vec<Input>,
    pub actions: Vec<Action>,
    pub rulesets: Vec<Named>,
    /// Where the main queue's object is.
    pub main_queue: Option<usize>,
    /// Where something ends the work on a message.
    pub stops: Vec<usize>,
    /// Where repeated messages are left out.
    pub reduction: Option<usize>,
    /// Where a directive limits the rate of what comes by a local socket or the journal.
    pub limits: Option<usize>,
    pub notes: Vec<Note>,
    /// All pieces, each in one.
    pub statements: Vec<Statement>,
}

/// The port of the first input.
pub const FIRST_PORT: u64 = 10_001;
