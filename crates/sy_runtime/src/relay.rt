//! A relay that threads share.
ghost use Rattle.std.specs.Prelude.{◌≡◌, [], ℕ, IfOk, IfSome, List, Option, false};
ghost use Rattle.std.specs.Arc.{arc_value};
ghost use Rattle.sy_board.specs.relay.Guards.{MayGuard};
ghost use Rattle.sy_runtime.specs.Connections.{Connects, Serves, rest_of, since};
ghost use Rattle.sy_runtime.specs.Turns.{FailsAt, HandIs, TurnIs};

use crate::between::{Connection, Turn};
use crate::connection::halt::Halt;
use crate::connection::turns;
use crate::connection_end::{ConnEnd, Finish, UnreadSink};
use crate::fault::RunFault;
use crate::reader::{NoHand, Reader};
use crate::shared::{Gate, Shared};
use crate::starting::share;
use crate::untaken::Untaken;
use std::alloc::{AllocError, Global};
use std::marker::Model;
use std::sync::{Arc, Wait};
use std::time::Clock;
use sy_board::Guard;
use sy_rules::Plan;
use sy_wire::Source;

/// What the handles of a relay and its workers share.
#[derive(Drop)]
pub(crate) struct Common<G: Gate> {
    pub(crate) shared: Shared,
    pub(crate) gate: G,
}

/// A relay, which threads share by handles of it. What is known of one is the guard that it was given.
#[derive(Drop)]
pub struct Relay<G: Gate> {
    pub(crate) common: Arc<Common<G>>,
}

impl<G: Gate> Model for Relay<G> {
    ghost use Rattle.std.specs.Prelude.{Option};
    ghost use Rattle.std.specs.Arc.{arc_value};
    ghost use Rattle.sy_board.specs.relay.Totals.{GuardState};

    ghost Value = { Option GuardState };

    ghost view = { λ r. (arc_value r.common).shared.guard };
}

// A connection that ended without a turn, and how.
fn ended_so(
    alloc: Global,
    connection: Connection,
    answer: Result<Finish, RunFault>,
) -> (ConnEnd, Untaken, Result<Finish, RunFault>)
    ensures end { result.0 ≡ connection.end }
    ensures items { result.1.items.items ≡ [] }
    ensures left { result.1.framer.left ≡ connection.left }
    ensures answer { result.2 ≡ answer }
{
    let (end, untaken) = connection.into_end(alloc);
    (end, untaken, answer)
}

impl<G: Gate> Relay<G> {
    /// A relay before its first message, without workers: what comes stays in its hands and queues.
    pub fn new(
        alloc: Global,
        plan: Arc<Plan>,
        guard: Option<Guard>,
        gate: G,
    ) -> Result<Relay<G>, AllocError>
        requires { IfSome guard (MayGuard (arc_value plan)) }
        ensures { IfOk result (λ relay. relay ≡ guard) }
    {
        let shared = share(alloc, plan, guard, Vec::new(alloc))?;
        match Arc::new(alloc, Common { shared, gate }) {
            Ok(common) => Ok(Relay { common }),
            Err(_) => Err(AllocError),
        }
    }

    /// Another handle of the same relay, for another thread.
    pub fn try_clone(&self) -> Result<Relay<G>, AllocError>
        ensures { IfOk result (λ relay. relay ≡ self.now) }
    {
        Ok(Relay {
            common: Arc::try_clone(&self.common)?,
        })
    }

    /// A reader more of an input, whose hand it has until it is given back.
    pub fn reader<R: Wait>(&self, rt: &R, alloc: Global, input: u32) -> Result<Reader, NoHand>
        ensures { IfOk result (λ reader. reader ≡ record { input = input; has_message = false }) }
    {
        match self.common.shared.locked.lock(rt).claim(input) {
            Ok(hand) => Ok(Reader::new(alloc, hand)),
            Err(Halt::Closed) => Err(NoHand::Closed),
            Err(_) => Err(NoHand::Hands),
        }
    }

    /// Gives the hand of a reader back; but for one that has a message, which stays there.
    pub fn give_back<R: Wait>(&self, rt: &R, reader: Reader) {
        let Reader { intake, .. } = reader;
        if !intake.is_in_hand {
            self.common.shared.locked.lock(rt).give_back(intake.hand);
        }
    }

    /// A turn of a connection of a reader's input: reads once from its source, at most 64 KiB, and takes the messages of all whole frames that have
    /// come then. A frame that carries no message is kept there before anything behind it is taken, and counted then.
    ///
    /// It waits while a mark or a full queue holds a message (the full-delay mark without limit, a full queue for queue.timeoutEnqueue, after which
    /// the message is lost, the light-delay mark for 1,000 ms), and while there is no memory; `close` ends each of these waits.
    pub fn turn<R: Wait + Clock, S: Source, U: UnreadSink>(
        &self,
        rt: &R,
        reader: &mut Reader,
        connection: Connection,
        source: &mut S,
        unread: &mut U,
    ) -> Turn
        ensures kept { (ahead : Option (List ℕ)) (before : Option (List (List ℕ))) →
            Serves ahead (S.remaining source.old) connection.end (since before (U.kept unread.old)) connection.left →
            TurnIs result ahead (S.remaining source.new) (since before (U.kept unread.new)) }
        ensures fails { FailsAt result (S.faults source.old) (S.faults source.new) }
        ensures hand { HandIs result reader.old reader.new }
        ensures input { reader.new.input ≡ reader.old.input }
    {
        turns::turn(rt, &self.common, unread, reader, source, connection)
    }

    // Turns of a connection until it ends.
    fn turns<R: Wait + Clock, S: Source, U: UnreadSink>(
        &self,
        rt: &R,
        alloc: Global,
        own: &mut Reader,
        reader: &mut S,
        unread: &mut U,
    ) -> (ConnEnd, Untaken, Result<Finish, RunFault>)
        ensures { Connects result.2 result.0 (since (U.kept unread.old) (U.kept unread.new)) (rest_of result.1.items.items result.1.framer.left) (S.remaining reader.old) (S.remaining reader.new) (S.faults reader.old) (S.faults reader.new) }
    {
        let mut connection = Connection::new(alloc);
        for _ in rt.forever() {
            match self.turn(rt, own, connection, reader, unread) {
                Turn::GoesOn(it) => connection = it,
                Turn::NotRead(it) => return ended_so(alloc, it, Err(RunFault::Read)),
                Turn::Over(end, untaken, answer) => return (end, untaken, answer),
            }
        }
        unreachable!()
    }

    /// Serves one connection of an input on the caller's thread, turn after turn: reads its frames to the end of its reader, takes their messages, and
    /// says what it counted, what it had read and not taken, and how it ended. Where no hand is free it answers so.
    pub fn connect<R: Wait + Clock, S: Source, U: UnreadSink>(
        &self,
        rt: &R,
        alloc: Global,
        input: u32,
        reader: &mut S,
        unread: &mut U,
    ) -> (ConnEnd, Untaken, Result<Finish, RunFault>)
        ensures { Connects result.2 result.0 (since (U.kept unread.old) (U.kept unread.new)) (rest_of result.1.items.items result.1.framer.left) (S.remaining reader.old) (S.remaining reader.new) (S.faults reader.old) (S.faults reader.new) }
    {
        let mut own = match self.reader(rt, alloc, input) {
            Ok(own) => own,
            Err(NoHand::Closed) => {
                return ended_so(alloc, Connection::new(alloc), Ok(Finish::Closed));
            }
            Err(NoHand::Hands) => {
                return ended_so(alloc, Connection::new(alloc), Err(RunFault::Hands));
            }
        };
        let served = self.turns(rt, alloc, &mut own, reader, unread);
        self.give_back(rt, own);
        served
    }

    /// Closes the relay: its connections take nothing more, and answer so as soon as they come to it. A read that waits isn't ended.
    pub fn close<R: Wait>(&self, rt: &R) {
        let shared = &self.common.shared;
        shared.locked.lock(rt).is_closing = true;
        shared.wake_all();
    }
}
