//! How a command ends: its exit status, and the line that says why it stopped early.

pub mod answer;
pub mod halt;
pub mod report;
pub mod stop;
