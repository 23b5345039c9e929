//! Whether entries lead to archives.

pub mod lead;
pub mod met;
pub mod unmet;
