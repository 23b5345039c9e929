//! What is found in a site: looked for, told of each class, and gathered in groups.

pub mod discarding;
pub mod groups;
pub mod reported;
pub mod search;
