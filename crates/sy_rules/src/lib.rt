//! What a script says a relay does: the parameters of its objects, and the plan that they make.
#![tactic(auto)]

mod check;
pub mod fault;
pub mod fault_laws;
mod items;
pub mod laws;
mod limits;
mod lists;
mod parameters;
mod parts;
pub mod plan;

pub use fault::{FaultCode, PlanFault};
pub use items::outline::{Item, outline};
pub use lists::occurrence::Occurrence;
pub use parameters::by_name::parameter_named;
pub use parameters::kind::Kind;
pub use parameters::objects::Destination;
pub use parameters::rows::{Row as ParameterRow, Shape, parameter_rows};
pub use parameters::settings::{FlowControl, QueueParameters};
pub use parts::{Action, Input};
pub use plan::Plan;
