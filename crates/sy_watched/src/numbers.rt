//! The numbers that are watched: of each its metric, its name in a document, and its value.

use crate::families::{Family, counter, gauge};
use crate::watched::{Watched, WatchedAction, WatchedInput, WatchedQueue};

/// A number of a relay.
#[derive(Clone, Copy)]
pub enum RelayNumber {
    Taken,
    Unread,
    Lost,
    Held,
    Queued,
    LeftOut,
    UnreadFails,
}

/// All numbers of a relay.
pub const RELAY_NUMBERS: [RelayNumber; 7] = [
    RelayNumber::Taken,
    RelayNumber::Unread,
    RelayNumber::Lost,
    RelayNumber::Held,
    RelayNumber::Queued,
    RelayNumber::LeftOut,
    RelayNumber::UnreadFails,
];

impl RelayNumber {
    /// Its metric; none of messages taken and frames without a message, which are counted of each input.
    pub fn family(self) -> Option<Family> {
        match self {
            RelayNumber::Taken | RelayNumber::Unread => None,
            RelayNumber::Lost => Some(counter("messages_lost_total", "Messages and posts lost.")),
            RelayNumber::Held => Some(gauge(
                "messages_held",
                "Messages held, and runs and posts that are due of those that workers have.",
            )),
            RelayNumber::Queued => Some(gauge(
                "messages_queued",
                "Messages that wait in queues, in all.",
            )),
            RelayNumber::LeftOut => Some(counter(
                "log_lines_left_out_total",
                "Lines of the log left out.",
            )),
            RelayNumber::UnreadFails => Some(gauge(
                "unread_file_failing",
                "Whether an unread file can't be written.",
            )),
        }
    }

    /// Its name in a document.
    pub fn key(self) -> &'static str {
        match self {
            RelayNumber::Taken => "taken",
            RelayNumber::Unread => "unread",
            RelayNumber::Lost => "lost",
            RelayNumber::Held => "held",
            RelayNumber::Queued => "queued",
            RelayNumber::LeftOut => "left_out",
            RelayNumber::UnreadFails => "unread_fails",
        }
    }

    /// Its value.
    pub fn value(self, relay: &Watched<'_>) -> u128 {
        match self {
            RelayNumber::Taken => u128::from(relay.taken),
            RelayNumber::Unread => unread_of(relay.inputs.as_slice()),
            RelayNumber::Lost => relay.lost,
            RelayNumber::Held => relay.held,
            RelayNumber::Queued => u128::from(relay.queued),
            RelayNumber::LeftOut => u128::from(relay.left_out),
            RelayNumber::UnreadFails => u128::from(relay.unread_fails),
        }
    }
}

// How many frames of these inputs carried no message.
fn unread_of(inputs: &[WatchedInput]) -> u128 {
    let mut unread: u128 = 0;
    for input in inputs {
        unread = unread.saturating_add(u128::from(input.unread));
    }
    unread
}

/// A number of an input.
#[derive(Clone, Copy)]
pub enum InputNumber {
    Taken,
    Open,
    Accepted,
    Held,
    Unread,
    Lost,
}

/// All numbers of an input.
pub const INPUT_NUMBERS: [InputNumber; 6] = [
    InputNumber::Taken,
    InputNumber::Open,
    InputNumber::Accepted,
    InputNumber::Held,
    InputNumber::Unread,
    InputNumber::Lost,
];

impl InputNumber {
    /// Its metric.
    pub fn family(self) -> Family {
        match self {
            InputNumber::Taken => counter("messages_taken_total", "Messages taken."),
            InputNumber::Open => gauge("input_connections", "Connections that are open."),
            InputNumber::Accepted => {
                counter("input_connections_accepted_total", "Connections accepted.")
            }
            InputNumber::Held => gauge("input_connections_held", "Connections that are held."),
            InputNumber::Unread => counter(
                "input_frames_unread_total",
                "Frames that carried no message.",
            ),
            InputNumber::Lost => counter(
                "input_messages_lost_total",
                "Messages lost at the input, or as they waited for its queue.",
            ),
        }
    }

    /// Its name in a document.
    pub fn key(self) -> &'static str {
        match self {
            InputNumber::Taken => "taken",
            InputNumber::Open => "open",
            InputNumber::Accepted => "accepted",
            InputNumber::Held => "held",
            InputNumber::Unread => "unread",
            InputNumber::Lost => "lost",
        }
    }

    /// Its value.
    pub fn value(self, input: &WatchedInput) -> u128 {
        u128::from(match self {
            InputNumber::Taken => input.taken,
            InputNumber::Open => input.open,
            InputNumber::Accepted => input.accepted,
            InputNumber::Held => input.held,
            InputNumber::Unread => input.unread,
            InputNumber::Lost => input.lost,
        })
    }
}

/// A number of an action.
#[derive(Clone, Copy)]
pub enum ActionNumber {
    Due,
    Done,
    GivenUp,
    Left,
    Failures,
    Since,
}

/// All numbers of an action.
pub const ACTION_NUMBERS: [ActionNumber; 6] = [
    ActionNumber::Due,
    ActionNumber::Done,
    ActionNumber::GivenUp,
    ActionNumber::Left,
    ActionNumber::Failures,
    ActionNumber::Since,
];

impl ActionNumber {
    /// Its metric.
    pub fn family(self) -> Family {
        match self {
            ActionNumber::Due => counter("action_runs_due_total", "Runs that became due."),
            ActionNumber::Done => counter("action_runs_done_total", "Runs done."),
            ActionNumber::GivenUp => counter("action_runs_given_up_total", "Runs given up."),
            ActionNumber::Left => gauge("action_runs_left", "Runs that are still to be done."),
            ActionNumber::Failures => {
                counter("action_failures_total", "How often it began to fail.")
            }
            ActionNumber::Since => gauge(
                "action_state_since_timestamp_seconds",
                "Since when it works or fails, in seconds since 1970.",
            ),
        }
    }

    /// Its name in a document.
    pub fn key(self) -> &'static str {
        match self {
            ActionNumber::Due => "due",
            ActionNumber::Done => "done",
            ActionNumber::GivenUp => "given_up",
            ActionNumber::Left => "left",
            ActionNumber::Failures => "failures",
            ActionNumber::Since => "since",
        }
    }

    /// Its value.
    pub fn value(self, action: &WatchedAction<'_>) -> u128 {
        match self {
            ActionNumber::Due => action.due,
            ActionNumber::Done => u128::from(action.done),
            ActionNumber::GivenUp => u128::from(action.given_up),
            ActionNumber::Left => u128::from(action.left),
            ActionNumber::Failures => u128::from(action.failures),
            ActionNumber::Since => u128::from(action.since),
        }
    }
}

/// A number of a queue.
#[derive(Clone, Copy)]
pub enum QueueNumber {
    Length,
    Size,
    FullDelayMark,
    LightDelayMark,
    DiscardMark,
    Lost,
}

/// All numbers of a queue.
pub const QUEUE_NUMBERS: [QueueNumber; 6] = [
    QueueNumber::Length,
    QueueNumber::Size,
    QueueNumber::FullDelayMark,
    QueueNumber::LightDelayMark,
    QueueNumber::DiscardMark,
    QueueNumber::Lost,
];

// A mark that isn't off.
fn mark(mark: u32) -> Option<u128> {
    if mark == 0 {
        return None;
    }
    Some(u128::from(mark))
}

impl QueueNumber {
    /// Its metric.
    pub fn family(self) -> Family {
        match self {
            QueueNumber::Length => gauge("queue_messages", "Messages that wait in the queue."),
            QueueNumber::Size => gauge("queue_size", "The most messages that wait in the queue."),
            QueueNumber::FullDelayMark => gauge(
                "queue_full_delay_mark",
                "The length from which inputs with full flow control are held.",
            ),
            QueueNumber::LightDelayMark => gauge(
                "queue_light_delay_mark",
                "The length from which inputs with flow control wait a while.",
            ),
            QueueNumber::DiscardMark => gauge(
                "queue_discard_mark",
                "The length from which less urgent messages are discarded.",
            ),
            QueueNumber::Lost => counter(
                "queue_messages_lost_total",
                "Posts lost, and messages lost as they left the queue.",
            ),
        }
    }

    /// Its name in a document.
    pub fn key(self) -> &'static str {
        match self {
            QueueNumber::Length => "length",
            QueueNumber::Size => "size",
            QueueNumber::FullDelayMark => "full_delay_mark",
            QueueNumber::LightDelayMark => "light_delay_mark",
            QueueNumber::DiscardMark => "discard_mark",
            QueueNumber::Lost => "lost",
        }
    }

    /// Its value; none of a mark that is off.
    pub fn value(self, queue: &WatchedQueue<'_>) -> Option<u128> {
        match self {
            QueueNumber::Length => Some(u128::from(queue.length)),
            QueueNumber::Size => Some(u128::from(queue.size)),
            QueueNumber::FullDelayMark => mark(queue.full_delay_mark),
            QueueNumber::LightDelayMark => mark(queue.light_delay_mark),
            QueueNumber::DiscardMark => mark(queue.discard_mark),
            QueueNumber::Lost => Some(u128::from(queue.lost)),
        }
    }
}
