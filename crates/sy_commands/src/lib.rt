//! The commands over the files of a site: what is said of it, its certificate and drawing, and events made at it.
#![tactic(auto)]

pub mod basis;
pub mod built;
pub mod check;
pub mod commands;
pub mod graph;
pub mod identity;
pub mod reading;
pub mod replay;
pub mod reporting;
pub mod verify;
pub mod wanted_row;
