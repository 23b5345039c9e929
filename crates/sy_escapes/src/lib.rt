//! Messages as lines, one line each, with escapes in the place of control characters.
#![tactic(auto)]

mod batch;
mod bytes;
pub mod escaping;
pub mod laws;
pub mod reading;
pub mod sink;

pub use escaping::set_line;
pub use reading::{Line, read_line, read_message};
pub use sink::EscapedSink;
