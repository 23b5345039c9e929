//! Sites that flow: no wait of one queue for another is on a circle, and no message goes round without end. Laws of their
//! runs.
#![tactic(auto)]

pub mod counterexamples;
pub mod laws;
