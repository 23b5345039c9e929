//! A site and the texts that it is read from.

pub mod site;
pub mod source;
pub mod texts;
