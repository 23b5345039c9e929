//! A set of relays: the site that one site file and the relays' scripts describe, and its machine of nine steps.
#![tactic(auto)]

pub mod counterexamples;
pub mod fault;
pub mod finding;
pub mod laws;
pub mod machine;
pub mod refusals;
mod site;
mod texts;

pub use fault::{RelayFault, SiteFault};
pub use site::host::{Host, Outside};
pub use site::{Protection, Site, SiteAction, SiteInput};
pub use texts::files::bytes_of;
pub use texts::lines::without_return;
pub use texts::names::file_names;
