//! What a connection had read and not taken when it ended.
ghost use Rattle.std.specs.Prelude.{◌≡◌, [], false};
ghost use Rattle.sy_runtime.specs.Connections.{text_of};

use std::alloc::Global;
use std::collections::VecDeque;
use sy_chain::Node;
use sy_wire::{Framer, MsgFault};

/// What a connection has of a frame that it read.
#[derive(Drop)]
pub enum Item {
    /// An entry of its message.
    Message(Node),
    /// Its text, which is no message, and why it is none.
    Other(Vec<u8>, MsgFault),
    /// Its text, for whose message there was no entry.
    Unmade(Vec<u8>),
}

impl Item {
    /// The text that the frame carried.
    pub fn text(&self) -> &[u8]
        ensures { result.now ≡ text_of self.now }
    {
        match self {
            Item::Message(node) => node.message().raw(),
            Item::Other(text, _) | Item::Unmade(text) => text.as_slice(),
        }
    }
}

/// What a connection had read and not taken when it ended: the frames that it had gathered, in their order, and then what its framer
/// has left.
#[derive(Drop)]
pub struct Untaken {
    pub items: VecDeque<Item>,
    pub framer: Framer,
}

impl Untaken {
    /// Nothing was read.
    pub fn new(alloc: Global) -> Untaken
        ensures items { result.items.items ≡ [] }
        ensures framer { result.framer ≡ record { left = []; has_failed = false } }
    {
        Untaken {
            items: VecDeque::new(alloc),
            framer: Framer::new(alloc),
        }
    }
}
