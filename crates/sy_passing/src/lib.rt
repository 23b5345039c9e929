//! Standard input as frames, each message carried over the board of a plan, one line a message on standard output.
#![tactic(auto)]

pub mod pass;
