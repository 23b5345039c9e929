//! What the program is asked and what it prints: its words, its files and streams, the parts of its lines, and how a command ends.
#![tactic(auto)]

pub mod command_line;
pub mod outcome;
pub mod reading;
pub mod texts;
pub mod writing;
