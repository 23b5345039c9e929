//! The nine steps of one relay. Each function makes one step, or changes nothing.

pub(crate) mod hands;
pub(crate) mod jobs;
pub(crate) mod posts;
