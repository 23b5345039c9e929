//! Where the relays of a site, and other receivers, are reached, and whether that tells them apart.
#![tactic(auto)]

pub mod endpoints;
pub mod hosts;
pub mod no_host;
pub mod outlets;
pub mod own;
mod parts;
pub mod shared;
