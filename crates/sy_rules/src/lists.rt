//! The lists of a plan: their tables, what is executed of them, and their limits.

pub mod build;
pub mod called;
pub mod class_flows;
pub mod columns;
pub mod condition;
pub mod decided;
pub mod flow;
pub mod list_names;
pub mod lookup;
pub mod numbering;
pub mod occurrence;
pub mod plan_tables;
pub mod sizes;
pub mod statement;
pub mod walk;
