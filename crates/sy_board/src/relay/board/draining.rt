//! The end of a board.
ghost use Rattle.std.specs.Prelude.{◌≡◌, ◌++◌, map, option_to_list};
ghost use Rattle.sy_board.specs.relay.Boards.{account_of};
ghost use Rattle.sy_board.specs.relay.Cells.{all_of, held};

use super::{Board, Worker};
use crate::relay::accounts::Accounts;
use sy_chain::{Chain, Node};
use sy_marks::MarkQueue;

// Puts what is in hands to the end of a chain.
fn append_hands(left: &mut Chain, hands: Vec<Option<Node>>)
    ensures { left.new ≡ left.old ++ all_of (map option_to_list hands.items) }
{
    for hand in hands {
        if let Some(node) = hand {
            left.push_back(node);
        }
    }
}

// Puts what waits in queues to the end of a chain.
fn append_queues(left: &mut Chain, queues: Vec<MarkQueue>)
    ensures { left.new ≡ left.old ++ all_of (map (λ q. q.entries) queues.items) }
{
    for queue in queues {
        left.append(queue.into_chain());
    }
}

// Puts what workers have to the end of a chain.
fn append_workers(left: &mut Chain, workers: Vec<Worker>)
    ensures { left.new ≡ left.old ++ all_of (map (λ w. w.entries) workers.items) }
{
    for worker in workers {
        left.append(worker.entries);
    }
}

impl Board {
    /// Ends the board. The answer is its totals, and all that is left: what is in hands, then what waits in queues, then what
    /// workers have, each entry with what is still due for it.
    pub fn drain(self) -> (Accounts, Chain)
        ensures accounts { result.0 ≡ account_of self }
        ensures left { result.1 ≡ held self.state }
    {
        let mut left = Chain::new();
        append_hands(&mut left, self.hands);
        append_queues(&mut left, self.queues);
        append_workers(&mut left, self.workers);
        (self.accounts, left)
    }
}
