//! Warnings: what is lawful in a site and unwise.
#![tactic(auto)]

pub mod audit;
mod bottleneck;
pub mod cautions;
mod circles;
mod coming;
pub mod endpoint_notes;
pub mod endpoints;
mod following;
pub mod holders;
mod holding;
mod holdups;
pub mod objects;
mod tunnels;
pub mod unwise;
pub mod warnings;
