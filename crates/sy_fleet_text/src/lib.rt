//! The configuration language of rsyslogd, read whole: each byte of a text belongs to one piece.
#![tactic(auto)]

pub mod classes;
pub mod fault;
mod lines;
pub mod piece;
pub mod scan;
pub mod statements;
pub mod text;
mod tokens;
pub mod words;

pub use fault::{Refusal, TextFault};
pub use piece::{Kind, Mark, Object, Piece, Word};
pub use text::read_text;
