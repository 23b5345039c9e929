//! What the command that runs a relay is given, and what it needs before its host has it.
#![tactic(auto)]

mod accounts;
mod archive_note;
pub mod endpoints;
pub mod explaining;
pub mod files_read;
pub mod left_store;
pub mod opening;
mod own_files;
mod port_note;
pub mod prepare;
pub mod runs_lines;
mod start_notes;
pub mod streams;
pub mod unread_file;
pub mod whole_entries;
pub mod words;
