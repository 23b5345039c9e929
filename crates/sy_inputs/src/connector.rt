//! What serves the connections of a relay.
ghost use Rattle.std.specs.Prelude.{◌≡◌, ◌+◌, IfErr, IfSome, map};
ghost use Rattle.sy_board.specs.relay.Boards.{counts_of};
ghost use Rattle.sy_runtime.specs.Standing.{Stands};

use std::alloc::Global;
use std::sync::Wait;
use std::time::Clock;
use sy_log::log::LogGate;
use sy_runtime::{Connection, NoHand, Reader, Relay, RunFault, Standing, Turn, UnreadSink};
use sy_wire::Source;

/// What serves connections, by the readers of its inputs, and tells its totals: a relay. (Behind it stand boxed devices, which a function's contract
/// can't have beside what it makes itself, as a thread.)
pub trait Connector: Drop {
    /// A reader more of an input.
    fn reader<R: Wait>(&self, rt: &R, alloc: Global, input: u32) -> Result<Reader, NoHand>;

    /// Gives a reader back.
    fn give_back<R: Wait>(&self, rt: &R, reader: Reader);

    /// A turn of a connection of a reader's input.
    fn turn<R: Wait + Clock, S: Source, U: UnreadSink>(
        &self,
        rt: &R,
        reader: &mut Reader,
        connection: Connection,
        source: &mut S,
        unread: &mut U,
    ) -> Turn;

    /// The totals as they stand; none where there is no memory for them.
    fn status<R: Wait>(&self, rt: &R, alloc: Global) -> Option<Standing>
        ensures stands { IfSome result (λ s. Stands s.taken s.lost s.held s.queues.items (map counts_of s.actions.items)) }
        ensures counted { IfSome result (λ s. s.frames ≡ s.taken + s.unread) };

    /// Counts frames of an input that carry no message and were kept, which no connection counts.
    fn count_unread<R: Wait>(&self, rt: &R, input: u32, count: u64) -> Result<(), RunFault>
        ensures { IfErr result (λ fault. fault ≡ RunFault.TotalsFull) };
}

impl Connector for Relay<LogGate> {
    fn reader<R: Wait>(&self, rt: &R, alloc: Global, input: u32) -> Result<Reader, NoHand> {
        Relay::reader(self, rt, alloc, input)
    }

    fn give_back<R: Wait>(&self, rt: &R, reader: Reader) {
        Relay::give_back(self, rt, reader);
    }

    fn turn<R: Wait + Clock, S: Source, U: UnreadSink>(
        &self,
        rt: &R,
        reader: &mut Reader,
        connection: Connection,
        source: &mut S,
        unread: &mut U,
    ) -> Turn {
        Relay::turn(self, rt, reader, connection, source, unread)
    }

    fn status<R: Wait>(&self, rt: &R, alloc: Global) -> Option<Standing> {
        Relay::status(self, rt, alloc)
    }

    fn count_unread<R: Wait>(&self, rt: &R, input: u32, count: u64) -> Result<(), RunFault> {
        Relay::count_unread(self, rt, input, count)
    }
}
