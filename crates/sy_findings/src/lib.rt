//! What is said of a site that is read: its verdict, and notes of what is found in it.
#![tactic(auto)]

pub mod notes;
pub mod verdicts;
