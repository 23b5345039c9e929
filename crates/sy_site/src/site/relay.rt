//! A relay of a site.

use super::host::Host;
use std::net::IpAddr;
use std::sync::Arc;
use sy_rules::Plan;
use sy_script::Items;

/// A relay: its name, where others connect to it, the address that it listens at (all addresses where there is none),
/// and its plan.
#[derive(Drop)]
pub struct Relay {
    pub name: Items<u8>,
    pub host: Host,
    pub listens: Option<IpAddr>,
    pub plan: Arc<Plan>,
}
