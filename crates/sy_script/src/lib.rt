//! RainerScript, as far as this profile reads it: from the bytes of a file to its tree.
#![tactic(auto)]

mod boxed;
mod expr;
pub mod fault;
mod halt;
mod items;
pub mod laws;
mod lex;
mod reader;
mod script;
mod stmt;
mod token;
pub mod tree;

pub use boxed::Boxed;
pub use fault::{FaultCode, ScriptFault};
pub use items::Items;
pub use script::read_script;
