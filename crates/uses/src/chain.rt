//! Chains of entries.

use crate::values::entry;
use std::alloc::Global;
use sy_chain::Chain;

/// Of a chain of two entries the first is cut off, and given another due set.
pub fn chain_that_is_cut(alloc: Global) -> Option<(Chain, Chain)> {
    let mut chain = Chain::new();
    chain.push_back(entry(alloc)?);
    chain.push_back(entry(alloc)?);
    let mut front = Chain::cut_front(&mut chain, 1);
    Chain::set_due(&mut front, 2);
    Some((front, chain))
}
