//! A durable journal for the entries of queues: one sync a batch, and a recovery that gives back what was answered.
#![tactic(auto)]

mod batch;
mod finishes;
mod laws;
mod log;
mod memory;
mod reading;
mod segment;
mod storage;
mod unpacking;

pub use batch::{frame_of, pack};
pub use finishes::finish;
pub use laws::{calls_are_steps, nothing_is_lost};
pub use log::{Found, Log, recover_log};
pub use memory::MemoryFile;
pub use segment::{Opened, Recovered, Segment, open_segment, recover_segment};
pub use storage::{Storage, StorageError};
pub use unpacking::unpack;
