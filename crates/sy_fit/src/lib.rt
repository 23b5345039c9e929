//! Whether a certificate is fit for a site: the rows that are wanted, and whether each stands and holds.
#![tactic(auto)]

pub mod accepted;
mod classes;
mod inners;
mod kinds;
pub mod laws;
mod numbers;
mod order;
mod path;
mod ranks;
mod rows;
pub mod verifying;

pub use accepted::{Accepted, push_pairs};
pub use classes::protected_classes;
pub use kinds::{Risk, is_mark_above_size, is_mark_off, is_not_full, may_discard, may_risk};
pub use order::sorted;
pub use rows::wanted::{RowKind, Wanted, archives, wanted_rows};
pub use verifying::{CertFault, verify};
