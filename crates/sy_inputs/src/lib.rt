//! The inputs of a relay on the host: its ports, the connections that come there, and their readers.
#![tactic(auto)]

pub mod accepting;
mod arriving;
pub mod connections;
pub mod connector;
mod incoming;
mod keep_alive;
pub mod listening;
mod pool;
mod reading;
pub mod serving;
mod sessions;
mod table;
mod unread_frames;
pub mod whole_entries;
