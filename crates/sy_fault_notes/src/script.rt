//! Notes of the faults of a script.

pub mod legacy;
pub mod notes;
pub mod opened;
mod slips;
