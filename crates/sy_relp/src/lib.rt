//! RELP, the wire of links that acknowledge: frames, a receiver's session, a sender's, and the law of the two.
#![tactic(auto)]

mod closing;
pub mod fault;
pub mod frame;
mod hear;
pub mod laws;
mod opening;
mod parts;
pub mod reader;
pub mod sender;
pub mod session;
mod write;

pub use fault::{FrameFault, SendFault};
pub use frame::RelpFrame;
pub use reader::Reader;
pub use sender::Sender;
pub use session::{Outcome, ReceiveFault, Receiver};
pub use write::WINDOW;
