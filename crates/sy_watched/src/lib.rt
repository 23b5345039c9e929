//! What is watched of a relay at one moment, as Prometheus reads it and as a JSON document.
#![tactic(auto)]

pub mod document;
mod families;
pub mod file;
pub mod look;
pub mod metrics;
mod numbers;
pub mod reported;
mod text;
pub mod watch;
pub mod watched;
