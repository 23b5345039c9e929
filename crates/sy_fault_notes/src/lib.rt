//! What is said of a fault of a file: why it is one, where, and what to write instead.
#![tactic(auto)]

mod encoding;
mod events;
pub mod fault_note;
pub mod fault_notes;
pub mod file_line;
pub mod plan;
pub mod script;
pub mod site;
