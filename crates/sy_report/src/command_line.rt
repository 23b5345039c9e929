//! The words of the command line.

pub mod any_file;
pub mod command;
pub mod options;
