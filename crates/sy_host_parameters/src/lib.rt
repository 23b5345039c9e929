//! Parameters of a relay's file that say how its host does its part. Its machine doesn't know them.
#![tactic(auto)]

pub mod accounts;
pub mod given;
pub mod host;
pub mod machine;
pub mod names;
mod rows;
mod values;

pub use accounts::account_number;
pub use host::{ArchiveHost, ReceiverHost, RelayHost, host_of};
pub use machine::machine_text;
pub use names::ArchiveNames;
pub use rows::HostParameter;
