//! The verdict on a site or a certificate, and the lines of what is found.

pub mod check;
pub mod explained_tally;
pub mod findings;
pub mod instances;
pub mod tally;
pub mod verdict;
