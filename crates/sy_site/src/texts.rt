//! The text of a site file.

pub mod files;
pub mod hosts;
pub mod lines;
pub mod names;
pub mod outsides;
pub mod reading;
pub mod references;
pub mod relays;
pub mod shapes;
