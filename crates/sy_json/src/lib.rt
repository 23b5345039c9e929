//! JSON documents, put together member by member.
#![tactic(auto)]

pub mod classes;
pub mod objects;
