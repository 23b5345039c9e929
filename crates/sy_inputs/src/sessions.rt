//! How many connections of an input are open, and how many may be.

use std::sync::Wait;
use std::sync::atomic::{AtomicUsize, Ordering};
use std::thread::Parker;
use std::time::{Clock, Duration};

/// How many connections of an input are open, and how many may be. One thread, which accepts them, waits for one that ends.
#[derive(Drop)]
pub struct Sessions {
    open: AtomicUsize,
    most: usize,
    change: Parker,
}

impl Sessions {
    /// None is open yet.
    pub fn new(most: usize) -> Sessions {
        Sessions {
            open: AtomicUsize::new(0),
            most,
            change: Parker::new(),
        }
    }

    /// Whether as many are open as may be.
    pub fn is_full(&self) -> bool {
        self.open.load(Ordering::SeqCst) >= self.most
    }

    /// One more is open.
    pub fn begin(&self) {
        let _ = self.open.fetch_add(1, Ordering::SeqCst);
    }

    /// One has ended.
    pub fn end(&self) {
        let _ = self.open.fetch_sub(1, Ordering::SeqCst);
        self.change.unpark();
    }

    /// Waits for one that ends, but no longer than this.
    pub fn wait<R: Wait + Clock>(&self, rt: &R, most: Duration) {
        self.change.park_timeout(rt, most);
    }
}
