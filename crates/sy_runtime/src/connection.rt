//! What a connection does between its reader and the board.

pub mod gathering;
pub mod halt;
pub mod inserting;
pub mod keeping;
pub mod makings;
pub mod reading;
pub mod taking;
pub mod turns;
pub mod used;
