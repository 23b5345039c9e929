//! Queues of entries, with the marks at which messages wait or are discarded.
//!
//! A [`MarkQueue`] has a size and the marks of the rsyslog manual. It says what holds an input's message back,
//! and whether a message is discarded; a worker takes entries from its front, and what is discarded then comes
//! apart. Contracts see a queue as its marks and the list of the entries that wait.
#![tactic(auto)]

pub mod laws;
pub mod marks;
pub mod queue;

pub use marks::{Flow, Hold, Marks};
pub use queue::MarkQueue;
