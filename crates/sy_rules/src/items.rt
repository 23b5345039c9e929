//! The items of a script that a plan is made of, in the order of the text.

pub mod borrowed;
pub mod fault;
pub mod outline;
