//! What a relay writes to on its host: the devices of its actions, unread files, and files for what it leaves.
#![tactic(auto)]

pub mod devices;
pub mod leaving;
pub mod port;
pub mod rotation;
pub mod unread_file;
