//! The ways of messages through a site: what is executed there, and what leads off them.

pub mod executed;
pub mod faulty_occurrences;
pub mod followed_lists;
pub mod hindrance;
pub mod relay_parts;
pub mod towards_archive;
