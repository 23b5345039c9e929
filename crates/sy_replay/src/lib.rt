//! A site that is driven event by event: the boards of all its relays, with links and files in memory and without
//! threads. And the lines of an events file.
#![tactic(auto)]

mod copies;
pub mod event;
pub mod laws;
pub mod line;
mod making;
mod part;
pub mod replay;
mod routes;
mod steps;

pub use event::{Cause, Event, Illegal, Loss, RelayEvent};
pub use line::fault::EventFault;
pub use line::read_event;
pub use replay::Replay;
