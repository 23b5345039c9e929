//! Which messages a filter lets through: selectors and expressions, and what the class of a message alone decides.
#![tactic(auto)]

mod condition;
pub mod expr;
pub mod fault;
pub mod laws;
mod names;
mod node;
mod part;
mod pieces;
mod property;
mod read_expr;
mod read_level;
pub mod selector;
mod severities;
pub mod verdict;

pub use expr::{Expr, eval, eval_class};
pub use fault::{FaultCode, FaultText, SelectFault};
pub use names::{facility_names, facility_text, severity_names, severity_text};
pub use property::properties;
pub use selector::Selector;
pub use verdict::Verdict;
