//! The devices of a relay's actions: files and links of the host.

pub mod archive;
pub mod file_writer;
pub mod frame_file;
pub mod host_device;
pub mod link;
pub mod link_writer;
pub mod opening;
