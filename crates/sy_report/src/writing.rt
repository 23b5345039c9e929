//! Writing to the streams of the program, and to memory.

pub mod kept_text;
pub mod line;
pub mod output;
pub mod outputs;
