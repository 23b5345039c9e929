//! Entries that have left a relay, whose memory may be used again.

use sy_chain::{Chain, Node};

/// How many of them are kept, at most.
const KEPT: usize = 4096;

/// The longest message whose entry is kept, in bytes.
const KEPT_LENGTH: usize = 2048;

/// Keeps an entry that has left, or lets its memory go.
pub(crate) fn keep(used: &mut Vec<Node>, node: Node) {
    if used.len() < KEPT && node.message().raw().len() <= KEPT_LENGTH {
        // (without memory for it, it goes)
        let _ = used.push(node);
    }
}

/// The same, of many.
pub(crate) fn keep_all(used: &mut Vec<Node>, mut nodes: Chain) {
    while let Some(node) = nodes.pop_front() {
        keep(used, node);
    }
}
