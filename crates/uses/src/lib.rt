//! Calls of the libraries. Each public function with a condition (`requires`) is called here, and no function here has
//! one. So what is proved of this crate is that a caller can meet each condition, with values that the libraries made.
//! Nothing of it is part of the program. Where memory is refused a function ends with `None`.
#![tactic(auto)]

pub mod board;
pub mod cert;
pub mod chain;
pub mod checker;
pub mod fit;
pub mod flows;
pub mod marks;
pub mod rules;
pub mod runtime;
pub mod site;
mod values;
pub mod wire;
