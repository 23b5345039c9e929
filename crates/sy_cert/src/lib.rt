//! Certificates: what a checker found of a site, as a text that another program can check.
#![tactic(auto)]

pub mod certificate;
pub mod fault;
mod kinds;
pub mod laws;
mod lines;
mod reading;
pub mod row;
pub mod text;
mod words;

pub use certificate::Certificate;
pub use fault::{FaultCode, TextFault};
pub use row::Row;
pub use text::{read_cert, write_cert};
