//! Whether queues of a site may wait for each other in a circle, and whether a message may go round without end.
#![tactic(auto)]

mod edges;
mod fits;
mod followed;
mod graph;
mod groups;
mod places;
mod waits;

pub use edges::Step;
pub use waits::{Circle, Hop, Waits, waits_of};
