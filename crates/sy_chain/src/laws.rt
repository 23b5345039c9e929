//! Laws of nodes and chains: their types let them move between threads.
ghost use Rattle.std.specs.Prelude.{◌≡◌};

use crate::chain::Chain;
use crate::node::Node;
use std::marker::Send;

// What may move.
fn moves<T: Send>(value: T) -> T
    ensures { result ≡ value }
{
    value
}

/// A chain may move to another thread.
pub fn chain_moves(chain: Chain) -> Chain
    ensures { result ≡ chain }
{
    moves(chain)
}

/// So may a node.
pub fn node_moves(node: Node) -> Node
    ensures { result ≡ node }
{
    moves(node)
}
