//! What serves the connections of an input, one after another.
ghost use Rattle.std.specs.Prelude.{◌≡◌, false, IfOk};

use crate::between::Connection;
use crate::connection::makings::Makings;
use crate::connection::taking::Hand;
use crate::untaken::Item;
use std::alloc::Global;
use std::collections::VecDeque;
use std::marker::Model;
use std::mem;
use sy_wire::Framer;

/// Why an input has no reader more.
#[derive(Clone, Copy, Debug, PartialEq, Eq)]
pub enum NoHand {
    /// The relay closes.
    Closed,
    /// The relay has no such input, or each of its 64 hands has a reader.
    Hands,
}

/// What a reader works with.
#[derive(Drop)]
pub(crate) struct Intake {
    pub(crate) alloc: Global,
    pub(crate) hand: Hand,
    // the text of a frame on its way into an entry
    pub(crate) raw: Vec<u8>,
    pub(crate) makings: Makings,
    // empty between two turns
    pub(crate) batch: VecDeque<Item>,
    // whether a message is in its hand
    pub(crate) is_in_hand: bool,
}

/// What serves the connections of an input, one after another: a hand of it, where a message waits while something holds it, and what entries are made
/// of. What is known of one is the number of its input, and whether a message is in its hand.
#[derive(Drop)]
pub struct Reader {
    pub(crate) intake: Intake,
    // the room into which it reads where no frame of a connection is under way
    pub(crate) framer: Framer,
}

impl Model for Reader {
    ghost use Rattle.std.specs.Prelude.{◌≡◌, [], false};
    ghost use Rattle.sy_runtime.specs.Connections.{ReaderState};

    ghost Value = { ReaderState };

    ghost view = { λ r. record { input = r.intake.hand.input; has_message = r.intake.is_in_hand } };

    ghost invariant = { λ r. (r.intake.batch.items ≡ []) × (r.framer ≡ record { left = []; has_failed = false }) };
}

impl Reader {
    pub(crate) fn new(alloc: Global, hand: Hand) -> Reader
        ensures { result ≡ record { input = hand.input; has_message = false } }
    {
        Reader {
            intake: Intake {
                alloc,
                hand,
                raw: Vec::new(alloc),
                makings: Makings::new(alloc),
                batch: VecDeque::new(alloc),
                is_in_hand: false,
            },
            framer: Framer::new(alloc),
        }
    }

    // Lends its room to a framer that has nothing left, or takes it back from one.
    pub(crate) fn swap_room(&mut self, framer: &mut Framer)
        requires { framer.old.has_failed ≡ false }
        ensures framer { framer.new ≡ framer.old }
        ensures same { self.new ≡ self.old }
    {
        if framer.is_empty() {
            mem::swap(&mut self.framer, framer);
        }
    }

    /// Takes the memory back that a connection needs no more while nothing comes: it keeps the bytes of the frame that is under way.
    pub fn rest(&mut self, connection: &mut Connection)
        ensures connection { connection.new ≡ connection.old }
        ensures same { self.new ≡ self.old }
    {
        self.swap_room(&mut connection.framer);
        connection.framer.shrink_to_fit();
    }
}
