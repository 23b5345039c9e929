//! The size and the marks of a queue, and what they say where so many entries wait.
ghost use Rattle.std.specs.Prelude.{◌≡◌, nat_le};
ghost use Rattle.sy_marks.specs.Marks as spec;

/// The size and the marks of a queue, in entries. A mark of 0 is off; one above the size is never reached.
#[derive(Clone, Copy, Debug, PartialEq, Eq)]
pub struct Marks {
    /// The most entries that wait (`queue.size`).
    pub size: u32,
    /// Where so many wait, inputs whose flow is full are held (`queue.fullDelayMark`).
    pub full_delay_mark: u32,
    /// Where so many wait, inputs whose flow is light are held for a while (`queue.lightDelayMark`).
    pub light_delay_mark: u32,
    /// Where so many wait, messages are discarded by their severity (`queue.discardMark`).
    pub discard_mark: u32,
    /// The most urgent severity that is discarded there, and all less urgent ones with it
    /// (`queue.discardSeverity`); 8 discards nothing.
    pub discard_severity: u8,
}

/// How the messages of an input wait (`flowControl`).
#[derive(Clone, Copy, Debug, PartialEq, Eq)]
pub enum Flow {
    /// At the full-delay mark, until there is room (`full`, which is this profile's own).
    Full,
    /// For a while at the light-delay mark, and at a full queue (`on`).
    Light,
    /// At a full queue alone (`off`).
    NoWait,
}

/// What holds an input's message.
#[derive(Clone, Copy, Debug, PartialEq, Eq)]
pub enum Hold {
    /// Nothing: the queue has room for it.
    Clear,
    /// The full-delay mark, until fewer entries wait.
    FullDelay,
    /// The light-delay mark, for a while; the queue has room for it.
    LightDelay,
    /// The queue is full.
    Full,
}

/// Whether a mark that isn't off is reached where so many wait.
pub(crate) fn is_reached(mark: u32, waiting: usize) -> bool
    ensures { result ≡ spec.is_reached mark waiting }
{
    mark >= 1 && waiting >= mark as usize
}

impl Marks {
    /// Whether a message of this severity is discarded where so many wait.
    pub(crate) fn discards(self, severity: u8, waiting: usize) -> bool
        ensures { result ≡ spec.discards self severity waiting }
    {
        is_reached(self.discard_mark, waiting) && severity >= self.discard_severity
    }

    // whether the full-delay mark holds an input's message
    fn is_delayed(self, flow: Flow, waiting: usize) -> bool
        ensures { result ≡ spec.is_delayed flow self waiting }
    {
        match flow {
            Flow::Full => is_reached(self.full_delay_mark, waiting),
            Flow::Light | Flow::NoWait => false,
        }
    }

    // whether the light-delay mark does
    fn is_slowed(self, flow: Flow, waiting: usize) -> bool
        ensures { result ≡ spec.is_slowed flow self waiting }
    {
        match flow {
            Flow::Light => is_reached(self.light_delay_mark, waiting),
            Flow::Full | Flow::NoWait => false,
        }
    }

    /// Whether a queue where so many wait has no room.
    pub(crate) fn is_full(self, waiting: usize) -> bool
        ensures { result ≡ nat_le self.size waiting }
    {
        waiting >= self.size as usize
    }

    /// What holds an input's message where so many wait.
    pub(crate) fn hold(self, flow: Flow, waiting: usize) -> Hold
        ensures { spec.HoldIs result flow self waiting }
    {
        if self.is_delayed(flow, waiting) {
            Hold::FullDelay
        } else if self.is_full(waiting) {
            Hold::Full
        } else if self.is_slowed(flow, waiting) {
            Hold::LightDelay
        } else {
            Hold::Clear
        }
    }
}
