//! What messages of a class execute of the lists of a site, and what they reach by that.
#![tactic(auto)]

mod flows;
mod lists;
mod marks;
mod reach;

pub use flows::executed::Executed;
pub use flows::firm::{SiteFirm, actions_at, firm_of};
pub use flows::hops::{class_flows, hops_at, lists_at, occurrence_at};
pub use flows::same::same_flows;
pub use flows::walk::{Walk, walk_for};
pub use flows::{ClassFlows, Hop, SiteFlows, flows_of, set_at};
pub use lists::leads::{lead_of, leads_of, list_of, must_write};
pub use lists::{FoundLists, InnerList};
pub use reach::inputs::{has, input_at, list_at, next_in};
pub use reach::{Found, is_among, reached, reached_by_every};
