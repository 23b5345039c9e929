//! The calls of the host on a file to whose end lines are written, and what they answered. All else is proved of these answers.
#![tactic(auto)]

mod append_file;
mod record;

pub use append_file::AppendFile;
