//! The checker: whether a site keeps each message of its protected classes, shown by a certificate.
#![tactic(auto)]

mod archives;
mod certifying;
pub mod checking;
mod course;
mod inner;
mod kinds;
pub mod laws;
mod making;
mod reach;
mod site_numbers;
mod surveying;

pub use certifying::certify;
pub use checking::{CheckFault, check, check_site};
pub use kinds::groups::Group;
pub use surveying::survey;
pub use sy_fit::{Accepted, CertFault, RowKind, accepted, verify, verifying};
pub use sy_site::finding;
