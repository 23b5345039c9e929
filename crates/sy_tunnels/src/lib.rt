//! Tunnels: lines of a site file that say which links go through another program.
#![tactic(auto)]

mod lines;
pub mod machine;
pub mod tunnels;

pub use machine::machine_text;
pub use tunnels::{Tunnel, tunnels_of};
