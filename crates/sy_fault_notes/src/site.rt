//! Notes of the faults of a site file.

pub mod files;
pub mod lines;
mod reach;
pub(crate) mod reference;
pub mod spare;
mod tunnel;
