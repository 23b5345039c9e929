//! Where in the files of a site something stands, and on which ways messages come there.
#![tactic(auto)]

pub mod relay_file;
pub mod site_file;
pub mod ways;
