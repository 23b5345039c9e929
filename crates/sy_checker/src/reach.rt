//! Ranks of relays, or a loop; and the ways to inputs.

pub mod height;
pub mod looped;
pub mod loops;
pub mod way;
