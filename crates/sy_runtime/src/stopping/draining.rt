//! How a relay empties before it stops.

use crate::relay::Relay;
use crate::shared::Gate;
use std::sync::Wait;
use std::time::{Clock, Duration};

impl<G: Gate> Relay<G> {
    /// Waits until the relay holds nothing, but no longer than this. Connections go on meanwhile.
    pub fn drain<R: Wait + Clock>(&self, rt: &R, most: Duration) {
        let shared = &self.common.shared;
        let locked = shared.locked.lock(rt);
        let _ = shared
            .idle
            .wait_timeout_while(rt, locked, most, |it| !it.is_empty());
    }
}
