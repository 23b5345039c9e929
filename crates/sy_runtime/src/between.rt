//! What a connection is between two reads, and what comes of a turn.
ghost use Rattle.std.specs.Prelude.{◌≡◌, [], false};
ghost use Rattle.sy_wire.specs.Frames.{IsOpen};
ghost use Rattle.sy_runtime.specs.Connections.{nothing_counted};

use crate::connection_end::{ConnEnd, Finish};
use crate::fault::RunFault;
use crate::untaken::Untaken;
use std::alloc::Global;
use std::marker::Model;
use sy_wire::Framer;

/// What a connection is between two reads: what it counted, and the bytes of the frame that is under way.
#[derive(Drop)]
pub struct Connection {
    pub(crate) framer: Framer,
    pub(crate) end: ConnEnd,
}

impl Model for Connection {
    ghost use Rattle.std.specs.Prelude.{◌≡◌, false};
    ghost use Rattle.sy_wire.specs.Frames.{IsOpen};
    ghost use Rattle.sy_runtime.specs.Connections.{Between};

    ghost Value = { Between };

    ghost view = { λ c. record { end = c.end; left = c.framer.left } };

    ghost invariant = { λ c. (c.framer.has_failed ≡ false) × IsOpen c.framer.left };
}

impl Connection {
    /// One of which nothing was read. It takes no memory yet.
    pub fn new(alloc: Global) -> Connection
        ensures { result ≡ record { end = nothing_counted; left = [] } }
    {
        Connection {
            framer: Framer::new(alloc),
            end: ConnEnd::new(),
        }
    }

    /// Where it ends without a turn: what it counted, and what it had read and not taken.
    pub fn into_end(self, alloc: Global) -> (ConnEnd, Untaken)
        ensures end { result.0 ≡ self.end }
        ensures items { result.1.items.items ≡ [] }
        ensures framer { result.1.framer ≡ record { left = self.left; has_failed = false } }
    {
        let Connection { framer, end } = self;
        let mut untaken = Untaken::new(alloc);
        untaken.framer = framer;
        (end, untaken)
    }
}

/// What comes of a turn.
#[derive(Drop)]
pub enum Turn {
    /// It took whatever whole frames had come, and may go on.
    GoesOn(Connection),
    /// Its source failed, or had nothing yet: nothing was read.
    NotRead(Connection),
    /// It has ended so, and had read and not taken that.
    Over(ConnEnd, Untaken, Result<Finish, RunFault>),
}
