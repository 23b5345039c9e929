//! The parts of a plan.

pub mod action_names;
pub mod expressions;
pub mod of_items;
pub mod of_lists;

use crate::parameters::objects::Destination;
use crate::parameters::settings::FlowControl;
use sy_script::Items;

/// An input of a relay.
#[derive(Drop)]
pub struct Input {
    /// 1 to 65,535; inputs are named by it
    pub port: u16,
    pub flow: FlowControl,
    /// the list that its messages execute
    pub list: u32,
    /// the queue that they are put into
    pub queue: u32,
    /// the file that keeps its frames without a message, where it names one
    pub unread_file: Option<Items<u8>>,
}

/// An action of a relay.
#[derive(Drop)]
pub struct Action {
    /// as given, or `action-N` by its number
    pub name: Items<u8>,
    pub destination: Destination,
    /// How often a failed message is tried again; none where without end.
    pub retry: Option<u32>,
    /// how long to wait after a failure, in seconds
    pub resume_interval: u32,
}
