//! What rsyslogd may lose by its own configurations, judged by the checker.
#![tactic(auto)]

mod confirming;
pub mod converting;
mod documents;
pub mod folders;
mod gathering;
mod globs;
mod judged;
mod located;
mod ranks;
mod refusals;
pub mod report;
mod rows;
pub mod selected;
mod site_text;
mod spots;
pub mod survey;
mod telling;
pub mod tree;
mod whole;
mod words;
