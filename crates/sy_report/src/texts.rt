//! What lines are made of, and the notes behind them.

pub mod json;
pub mod near;
pub mod note;
pub mod parts;
pub mod printed;
pub mod reason;
pub mod words;
