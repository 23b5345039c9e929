//! What is watched of a relay as it runs: its archives, the file of its metrics, and the document of its status.

pub mod archives;
pub mod noted;
pub mod writing;
