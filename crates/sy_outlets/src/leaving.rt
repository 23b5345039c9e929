//! What a relay leaves when it stops, and the files for it.

pub mod left;
pub mod left_file;
pub mod remaining;
