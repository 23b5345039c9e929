//! Notes of findings: where what is found stands, why messages are lost by it, and what would change that.

pub mod explanation;
pub mod instances;
pub mod object_meant;
pub mod queues;
pub mod remedies;
pub mod spares;
pub mod unmet;
pub mod way_to_archive;
