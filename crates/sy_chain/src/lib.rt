//! The entries that a relay holds in memory, and chains of them.
//!
//! An entry is a message on its way through a relay: the message itself, the list of occurrences that it
//! follows, the input that it came by, the occurrences that are still due, and a tag of its owner's.
//! Contracts see a [`Chain`] as the list of its entries.
#![tactic(auto)]

mod blocks;
pub mod chain;
pub mod laws;
mod linked;
pub mod node;
mod raw_box;

pub use chain::Chain;
pub use node::{Node, RenewFault};
