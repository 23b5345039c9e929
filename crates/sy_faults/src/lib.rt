//! All faults of files that can be found without guessing, each with its note.
#![tactic(auto)]

pub mod all_faults;
mod all_of_file;
mod all_of_site;
mod all_of_tunnels;
pub mod faults_with_notes;
mod mending;
