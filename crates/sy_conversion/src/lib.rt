//! What a relay's configuration is that carries over one of rsyslogd's (8.2302), with a comment in the place of all that can't be
//! carried over.
#![tactic(auto)]

mod actions;
pub mod conversion;
mod draft;
mod fates;
mod inputs;
mod names;
mod objects;
mod older;
mod params;
mod readable;
mod source;
mod tests;

pub use conversion::{Conversion, converted};
pub use fates::{Fate, Told, Why};
