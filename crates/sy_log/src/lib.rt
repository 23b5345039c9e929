//! What an operator is told of a relay that runs: what threads note of it, and the lines that say so.
#![tactic(auto)]

pub mod at_port;
pub mod lines;
pub mod log;
pub mod notices;
pub mod pauses;
pub mod peers;
pub mod printer;
pub mod printing;
mod spell;
pub mod start_lines;
pub mod subject;
mod subjects;
pub mod unread_names;
pub mod unreported;
pub mod waiting_lines;
