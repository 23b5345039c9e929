//! Notes of the faults of a plan.

pub(crate) mod host_values;
pub(crate) mod left_out;
pub mod notes;
pub mod parameter_rows;
pub(crate) mod tests;
mod values;
