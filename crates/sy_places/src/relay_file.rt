//! What stands in the file of a relay, and where.

pub mod comparisons;
pub mod contents;
pub mod outline;
pub mod places;
pub mod statements;
