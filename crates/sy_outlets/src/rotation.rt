//! Archives that are opened anew, and those whose file has lost its name.

pub mod frames;
pub mod lines;
pub mod opened;
pub mod reopens;
pub mod rotated;
pub mod troubles;
