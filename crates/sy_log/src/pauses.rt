//! How often something is told.
ghost use Rattle.std.specs.Prelude.{◌≡◌, ◌≤◌, IsFalse, IsTrue};
ghost use Rattle.sy_wire.specs.Streams.{count_after};

/// How many milliseconds lie between two lines about one action, input or queue, at least.
pub const STEP: u64 = 1000;

/// When the next line about something may be told, in milliseconds.
#[derive(Clone, Copy)]
pub struct Pace {
    pub next: u64,
}

impl Pace {
    /// The first line may be told at once.
    pub fn new() -> Pace
        ensures { result.next ≡ 0 }
    {
        Pace { next: 0 }
    }

    /// Whether a line may be told now. Where it may, it is told, and the next one may be a second later.
    pub fn take(&mut self, now: u64) -> bool
        ensures reported { IsTrue result → (self.old.next ≤ now) × (self.new.next ≡ count_after now 1000) }
        ensures not_reported { IsFalse result → self.new.next ≡ self.old.next }
    {
        if now < self.next {
            return false;
        }
        self.next = now.saturating_add(STEP);
        true
    }
}
