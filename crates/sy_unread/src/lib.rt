//! Frames that carry no message of RFC 5424: what is kept of them, and what becomes of it.
#![tactic(auto)]

mod fields;
mod heads;
pub mod hint;
pub mod joining;
pub mod laws;
pub mod names;
mod parts;
pub mod reading;
pub mod record;
pub mod records;
pub mod repair;
pub mod repaired;
pub mod skipping;
pub mod summary;
pub mod unframed;

pub use hint::Hint;
pub use reading::{Found, Share, are_parts, read_record};
pub use record::{About, append_records};
pub use unframed::Unframed;
