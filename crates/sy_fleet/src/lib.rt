//! What rsyslogd's own configurations (8.2302) come to in a relay's profile, by abstraction in one direction: what isn't known to
//! keep a message counts as one that may lose it.
#![tactic(auto)]

mod actions;
mod directives;
pub mod fleet;
pub mod includes;
mod inputs;
pub mod modules;
mod objects;
mod older;
pub mod params;
mod plan_text;
mod queues;
pub mod reading;
mod rulesets;
pub mod statements;
mod tests;
mod walk;

pub use fleet::{Action, Fleet, Input, Loss, Named};
pub use modules::{Flow, Output, flow_of, output_of};
pub use reading::fleet_of;
pub use statements::{Assumption, Sort, Statement};
