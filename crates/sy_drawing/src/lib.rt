//! A site drawn: its nodes and arrows, as Graphviz reads them.
#![tactic(auto)]

pub mod arrow;
pub mod class;
pub mod foot;
pub mod node;
pub mod overview;
pub mod reach;
pub mod relay;
pub mod text;
