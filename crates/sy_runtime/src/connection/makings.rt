//! What entries are made of without memory.
ghost use Rattle.std.specs.Prelude.{◌≡◌};
ghost use Rattle.sy_runtime.specs.internal.Held.{IsItem, RenewIs};

use crate::untaken::Item;
use std::alloc::{AllocError, Global};
use std::mem;
use std::sync::Arc;
use sy_chain::{Node, RenewFault};
use sy_wire::{Message, MsgFault};

// The text of the messages that entries are made with before their own come.
const BLANK: &[u8] = b"<0>1 - - - - - -";

/// What entries are made of without memory.
#[derive(Drop)]
pub(crate) struct Makings {
    // entries that have left the relay; the messages of some may still have another owner
    pub(crate) used: Vec<Node>,
    // an entry whose message has no other owner, for a message that no used one can be made to
    fresh: Option<Node>,
}

// What came of a text and an entry.
#[derive(Clone, Copy)]
pub(crate) enum Renewal {
    Message,
    NoMessage(MsgFault),
    Shared,
}

// Makes an entry of that text, in the memory of this one. Its list, its input and its tag are chosen where it is taken.
fn renew(node: &mut Node, raw: &mut Vec<u8>) -> Renewal
    ensures { RenewIs result raw.old.items node.new raw.new.items }
{
    match node.renew(raw, 0, 0, 0, 0) {
        Ok(()) => Renewal::Message,
        Err(RenewFault::Message(fault)) => Renewal::NoMessage(fault),
        Err(RenewFault::Shared) => Renewal::Shared,
    }
}

// The text that stands there, which leaves no memory behind.
fn take_text(alloc: Global, raw: &mut Vec<u8>) -> Vec<u8>
    ensures { result.items ≡ raw.old.items }
{
    mem::replace(raw, Vec::new(alloc))
}

fn blank_entry(alloc: Global) -> Result<Option<Node>, AllocError> {
    let Ok(message) = Message::read(Vec::from_slice(alloc, BLANK)?) else {
        return Ok(None);
    };
    let Ok(message) = Arc::new(alloc, message) else {
        return Err(AllocError);
    };
    match Node::new(alloc, message, 0, 0, 0, 0) {
        Ok(node) => Ok(Some(node)),
        Err(_) => Err(AllocError),
    }
}

impl Makings {
    pub(crate) fn new(alloc: Global) -> Makings {
        Makings {
            used: Vec::new(alloc),
            fresh: None,
        }
    }

    /// Takes the memory that one entry more may need.
    pub(crate) fn prepare(&mut self, alloc: Global) -> Result<(), AllocError> {
        if self.fresh.is_none() {
            self.fresh = blank_entry(alloc)?;
        }
        Ok(())
    }

    // The item of a text, in the memory of the fresh entry, where that is there.
    fn item_of_fresh(&mut self, alloc: Global, raw: &mut Vec<u8>) -> Item
        ensures { IsItem raw.old.items result }
    {
        let Some(mut node) = self.fresh.take() else {
            return Item::Unmade(take_text(alloc, raw));
        };
        match renew(&mut node, raw) {
            Renewal::Message => Item::Message(node),
            Renewal::NoMessage(fault) => {
                self.fresh = Some(node);
                Item::Other(take_text(alloc, raw), fault)
            }
            Renewal::Shared => Item::Unmade(take_text(alloc, raw)),
        }
    }

    /// The item of a text: an entry of its message, or the text where it is no message. It takes no memory. There is no entry
    /// only where nothing was prepared.
    pub(crate) fn item_of(&mut self, alloc: Global, raw: &mut Vec<u8>) -> Item
        ensures { IsItem raw.old.items result }
    {
        let Some(mut node) = self.used.pop() else {
            return self.item_of_fresh(alloc, raw);
        };
        match renew(&mut node, raw) {
            Renewal::Message => Item::Message(node),
            Renewal::NoMessage(fault) => {
                // (the room that it had is there)
                let _ = self.used.push(node);
                Item::Other(take_text(alloc, raw), fault)
            }
            Renewal::Shared => self.item_of_fresh(alloc, raw),
        }
    }
}
