//! What is wrong with a script that is read, and is no plan.

pub mod among;
pub mod item;
pub mod names;
pub mod script;
