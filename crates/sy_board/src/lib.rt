//! The state of one relay, and the steps that change it.
//!
//! A [`Board`] holds every message between the input that took it and the action that has done with it: in
//! a hand of the input, in a queue, or in the batch of one of the queue's workers. Each method is one step,
//! and the totals that [`Accounts`] keeps balance after each.
#![tactic(auto)]

pub mod fault;
pub mod relay;

pub use fault::BoardFault;
pub use relay::accounts::{Accounts, ActionCounts};
pub use relay::answers::{Entry, Job, PostCause, Posted, Retry, Taken};
pub use relay::board::Board;
pub use relay::guard::Guard;
pub use relay::reading::retry_of;
