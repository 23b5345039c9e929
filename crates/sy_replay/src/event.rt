//! What can be asked of a site, and what may be wrong with it.

use std::sync::Arc;
use sy_board::PostCause;
use sy_wire::Message;

/// A step inside one relay: each of those that aren't Take. Inputs, hands and workers are given by their numbers.
#[derive(Clone, Copy, Debug, PartialEq, Eq)]
pub enum RelayEvent {
    /// A hand's message goes to the end of its input's queue.
    Enter { input: u32, hand: u32 },
    /// A hand's message is lost, since its queue is full.
    Expire { input: u32, hand: u32 },
    /// A worker takes a batch.
    Grab { worker: u32 },
    /// A worker's job is done: its device took the message.
    Done { worker: u32 },
    /// It failed, and may be tried again. `took` says whether the device took the message all the same.
    Fail { worker: u32, took: bool },
    /// It failed for the last time; `took` as for `Fail`.
    GiveUp { worker: u32, took: bool },
    /// A worker's post is put, or discarded.
    Post { worker: u32 },
    /// A worker's post is lost.
    PostLost { worker: u32, cause: PostCause },
}

/// A step of a site. Relays, and their inputs, hands, actions and workers, are given by their numbers.
#[derive(Drop)]
pub enum Event {
    /// A message from outside comes to a hand of an input.
    TakeNew {
        relay: u32,
        input: u32,
        hand: u32,
        message: Arc<Message>,
    },
    /// A hand of an input takes the copy at a place of the link of an action of another relay, or of the same.
    TakeFrom {
        relay: u32,
        input: u32,
        hand: u32,
        from: u32,
        action: u32,
        place: u64,
    },
    /// A step inside a relay.
    Inside {
        relay: u32,
        event: RelayEvent,
    },
}

/// Why an event isn't applied. Nothing has changed then.
#[derive(Clone, Copy, Debug, PartialEq, Eq)]
pub enum Illegal {
    /// It is no step of the site in this state.
    NotAStep,
    /// Memory ran out, which says nothing of the event.
    NoMemory,
    /// It is a step, but a total of the relay's board would pass 64 bits.
    TotalsFull,
}

/// By which step a copy was lost, or an occurrence of its work.
#[derive(Clone, Copy, Debug, PartialEq, Eq)]
pub enum Cause {
    Take,
    Expire,
    Grab,
    /// An occurrence that runs this action.
    GiveUp(u32),
    /// One that posts to this list, by Post.
    Post(u32),
    /// The same, by Post lost.
    PostLost(u32),
}

/// A loss: of which copy, in which relay, which list the copy followed there, and by which step it was lost.
#[derive(Clone, Copy, Debug, PartialEq, Eq)]
pub struct Loss {
    pub copy: u64,
    pub relay: u32,
    pub list: u32,
    pub cause: Cause,
}
