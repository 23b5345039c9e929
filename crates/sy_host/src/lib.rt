//! A relay on the host: how it starts, what an operator is told, and how it ends.
#![tactic(auto)]

pub mod ending;
pub mod reporting;
pub mod serve;
pub mod watching;
