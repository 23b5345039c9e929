//! What is watched of a relay at one moment.

/// What is watched of a relay at one moment. Times are seconds since the beginning of 1970. Names are UTF-8.
#[derive(Drop)]
pub struct Watched<'a> {
    pub relay: &'a [u8],
    /// Whether it runs, and hasn't stopped.
    pub is_running: bool,
    /// When this was seen.
    pub at: u64,
    pub taken: u64,
    pub lost: u128,
    pub held: u128,
    /// How many entries wait in its queues, in all.
    pub queued: u64,
    /// How many lines of its log were left out.
    pub left_out: u64,
    /// 1 while an unread file can't be written.
    pub unread_fails: u64,
    pub inputs: Vec<WatchedInput>,
    pub actions: Vec<WatchedAction<'a>>,
    pub queues: Vec<WatchedQueue<'a>>,
}

/// An input of a relay at one moment.
#[derive(Clone, Copy)]
pub struct WatchedInput {
    pub port: u16,
    /// The messages that were taken there.
    pub taken: u64,
    /// The connections that are open now, and those that were accepted in all.
    pub open: u64,
    pub accepted: u64,
    /// The connections that are held now.
    pub held: u64,
    /// The frames that carried no message.
    pub unread: u64,
    /// The messages that were lost at the input.
    pub lost: u64,
}

/// An action of a relay at one moment.
#[derive(Drop)]
pub struct WatchedAction<'a> {
    pub name: &'a [u8],
    pub due: u128,
    pub done: u64,
    pub given_up: u64,
    pub left: u64,
    /// Why it fails, in words; none where it works.
    pub fails: Option<Vec<u8>>,
    /// How often it began to fail.
    pub failures: u64,
    /// Since when it works, or fails.
    pub since: u64,
}

/// A queue of a relay at one moment. A mark of 0 is off.
#[derive(Clone, Copy)]
pub struct WatchedQueue<'a> {
    pub name: &'a [u8],
    /// How many entries wait in it.
    pub length: u64,
    pub size: u32,
    pub full_delay_mark: u32,
    pub light_delay_mark: u32,
    pub discard_mark: u32,
    /// The messages that it lost: posts, and entries that left it.
    pub lost: u64,
}
