//! The JSON documents of the commands over a site.
#![tactic(auto)]

pub mod described;
pub mod json;
mod reported;
