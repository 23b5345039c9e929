//! The files that a command reads.

pub mod files;
pub mod memory;
