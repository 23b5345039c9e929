//! What the lock of a relay holds.
ghost use Rattle.std.specs.Prelude.{◌≡◌, ◌<◌, IfOk, IfSome, IsTrue};
ghost use Rattle.sy_board.specs.relay.Boards.{account_of};
ghost use Rattle.sy_runtime.specs.Standing.{held_by};

pub(crate) mod losing;
pub(crate) mod tally;

use crate::connection::halt::Halt;
use crate::connection::taking::{Hand, has_hand};
use crate::locked::losing::Lost;
use crate::locked::tally::Tally;
use crate::standing::held_of;
use sy_chain::Node;
use sy_marks::Hold;

/// What the lock of a relay holds. Who has the lock knows of the board what is known of every board, and what it and all connections counted.
#[derive(Drop)]
pub(crate) struct Locked {
    pub(crate) tally: Tally,
    pub(crate) is_closing: bool,
    // entries that have left the relay, whose memory may be used again
    pub(crate) used: Vec<Node>,
    // of each input the hands that connections have: bit k stands for hand k
    pub(crate) hands: Vec<u64>,
    // what who has the lock lost at a queue and hasn't told yet; it does before it lets go of the lock
    pub(crate) lost: Option<Lost>,
}

impl Locked {
    /// Whether the board holds nothing. One that is no longer here does so.
    pub(crate) fn is_empty(&self) -> bool
        ensures { IsTrue result → IfSome self.now.tally.board (λ board. held_by (account_of board) ≡ 0) }
    {
        match &self.tally.board {
            Some(board) => matches!(held_of(board.accounts()), Some(0)),
            None => true,
        }
    }

    /// What holds the message of a hand; nothing does once the relay closes.
    pub(crate) fn hold(&self, hand: Hand) -> Hold {
        if self.is_closing {
            return Hold::Clear;
        }
        match &self.tally.board {
            Some(board) => {
                if has_hand(board, hand) {
                    board.gate(hand.input)
                } else {
                    Hold::Clear
                }
            }
            None => Hold::Clear,
        }
    }

    /// A free hand of an input, which is its caller's from now on.
    pub(crate) fn claim(&mut self, input: u32) -> Result<Hand, Halt>
        ensures { IfOk result (λ hand. (hand.input ≡ input) × (hand.number < 64)) }
    {
        if self.is_closing || self.tally.board.is_none() {
            return Err(Halt::Closed);
        }
        let Some(hands) = self.hands.get_mut(input as usize) else {
            return Err(Halt::Hands);
        };
        let number = hands.trailing_ones();
        if number >= 64 {
            return Err(Halt::Hands);
        }
        *hands |= 1 << number;
        Ok(Hand { input, number })
    }

    pub(crate) fn give_back(&mut self, hand: Hand) {
        if hand.number >= 64 {
            return;
        }
        if let Some(hands) = self.hands.get_mut(hand.input as usize) {
            *hands &= !(1 << hand.number);
        }
    }
}
