//! A relay that threads share: what a connection does between its reader and the board, and what a worker does between the board
//! and the devices.
//!
//! Whatever decides is a function over values, a reader and `&mut Board`; the threads' part is thin around it.
#![tactic(auto)]

pub mod between;
mod connection;
pub mod connection_end;
pub mod fault;
pub mod laws;
mod locked;
pub mod reader;
pub mod relay;
pub mod shared;
pub mod standing;
pub mod starting;
pub mod stopping;
pub mod untaken;
mod waiting;
mod worker;

pub use between::{Connection, Turn};
pub use connection_end::{ConnEnd, Finish, NotKept, Unread, UnreadSink};
pub use fault::RunFault;
pub use reader::{NoHand, Reader};
pub use relay::Relay;
pub use shared::{BoxedDevice, Gate};
pub use standing::Standing;
pub use stopping::{Mismatch, Stopped, Workers};
pub use untaken::{Item, Untaken};
