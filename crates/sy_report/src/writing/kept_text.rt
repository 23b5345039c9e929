//! What is written, kept in memory.
ghost use Rattle.std.specs.Prelude.{◌≡◌, ◌↔◌, [], IsTrue, Some, true};

use std::alloc::Global;
use sy_wire::{Sink, WriteFault};

/// What was written to it. A write fails only where memory runs out.
#[derive(Drop)]
pub struct Gathered {
    text: Vec<u8>,
    faults: u64,
    is_flushed: bool,
}

impl Gathered {
    /// Nothing yet.
    pub fn new(alloc: Global) -> Gathered
        ensures text { result.text.items ≡ [] }
        ensures faults { result.faults ≡ 0 }
        ensures flushed { result.is_flushed ≡ true }
    {
        Gathered {
            text: Vec::new(alloc),
            faults: 0,
            is_flushed: true,
        }
    }

    /// All that was written.
    pub fn text(&self) -> &[u8]
        ensures { result.now ≡ self.now.text.items }
    {
        self.text.as_slice()
    }

    /// Whether no write failed.
    pub fn is_whole(&self) -> bool
        ensures { IsTrue result ↔ (self.now.faults ≡ 0) }
    {
        self.faults == 0
    }
}

impl Sink for Gathered {
    ghost contents = { λ g. Some g.text.items };

    ghost faults = { λ g. g.faults };

    ghost is_flushed = { λ g. g.is_flushed };

    fn write(&mut self, bytes: &[u8]) -> Result<usize, WriteFault> {
        match self.text.extend_from_slice(bytes) {
            Ok(()) => {
                self.is_flushed = false;
                Ok(bytes.len())
            }
            Err(_) => {
                self.faults = self.faults.saturating_add(1);
                Err(WriteFault)
            }
        }
    }

    fn flush(&mut self) -> Result<(), WriteFault> {
        self.is_flushed = true;
        Ok(())
    }
}
