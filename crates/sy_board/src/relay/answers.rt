//! What the board of a relay answers.

use std::sync::Arc;
use sy_chain::Node;
use sy_marks::Hold;
use sy_wire::Message;

/// What became of a message that came to an input.
#[derive(Drop)]
pub enum Taken {
    /// It is in the hand.
    InHand,
    /// It was discarded at the length of the input's queue, and is lost.
    Discarded(Node),
}

/// What became of a hand's message.
#[derive(Clone, Copy, Debug, PartialEq, Eq)]
pub enum Entry {
    /// It is an entry at the end of the input's queue.
    Entered,
    /// It stays in the hand, held by the full-delay mark or by a full queue.
    Held(Hold),
}

/// The lowest occurrence due of a worker's first entry.
#[derive(Drop)]
pub enum Job<'a> {
    /// An action is to be run on the message.
    Run {
        action: u32,
        message: &'a Arc<Message>,
        tag: u64,
    },
    /// A new entry of the message, of this input and with this tag, which follows this list, is to be put into the list's queue.
    Post {
        list: u32,
        input: u32,
        message: &'a Arc<Message>,
        tag: u64,
    },
}

/// What becomes of a job that failed.
#[derive(Clone, Copy, Debug, PartialEq, Eq)]
pub enum Retry {
    /// It may be tried again.
    Again,
    /// It was the last try, and the occurrence is lost.
    GaveUp,
}

/// What became of a worker's post.
#[derive(Drop)]
pub enum Posted {
    /// The entry is at the end of the list's queue.
    Done,
    /// The full-delay mark of the list's queue holds the post, where posts wait there, or the queue is full; and the entry isn't discarded there. The
    /// post is still to be done.
    Held(Node),
    /// The entry was discarded at the length of the list's queue, and the post is lost.
    Discarded(Node),
}

/// Why a post is lost.
#[derive(Clone, Copy, Debug, PartialEq, Eq)]
pub enum PostCause {
    /// The list's queue is full, and its full-delay mark doesn't hold the post.
    Full,
    /// There was no memory for a new entry. No post is lost for that where posts wait.
    NoMemory,
}
