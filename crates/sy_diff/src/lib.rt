//! What a change of a site loses: its archives, entries and findings beside those of the site before.
#![tactic(auto)]

pub mod comparison;
pub mod diff;
mod differences;
mod document;
pub mod folder;
mod same;
mod telling;
