//! A turn of a connection: a read, and batches until no whole frame is left.
ghost use Rattle.std.specs.Prelude.{◌≡◌, [], ℕ, List, Option, Err, IfNone, IfSome, false};
ghost use Rattle.std.specs.Io.KnownBytes.{IsAtEnd};
ghost use Rattle.sy_wire.specs.Frames.{IsOpen};
ghost use Rattle.sy_runtime.specs.Connections.{Begins, Serves, since};
ghost use Rattle.sy_runtime.specs.Turns.{FailsAt, HandIs, TurnIs};
ghost use Rattle.sy_runtime.specs.internal.Turning.{CameFails, CameIs, IsOn, came_from, MayGoOn, RoundIs, RoundsAre, round_of};

use crate::between::{Connection, Turn};
use crate::connection::gathering::{Gathered, gather};
use crate::connection::halt::{Halt, answer_at};
use crate::connection::inserting::insert_batch;
use crate::connection::reading::{Step, end_of, read_once};
use crate::connection_end::{ConnEnd, Finish, UnreadSink};
use crate::fault::RunFault;
use crate::reader::{Intake, Reader};
use crate::relay::Common;
use crate::shared::{Gate, Shared};
use crate::untaken::{Item, Untaken};
use crate::waiting::wait_for_memory;
use std::collections::VecDeque;
use std::mem;
use std::sync::Wait;
use std::time::Clock;
use sy_wire::{Framer, Source};

/// How many frames are gathered before the lock is taken, at most.
const BATCH: usize = 1024;

/// What comes of a batch.
#[derive(Clone, Copy)]
pub(crate) enum Round {
    // no whole frame is left
    Reads,
    Again,
    NoMemory,
    Over(Result<Finish, RunFault>),
}

// What comes of a batch whose gathering ended so, and which was put so.
fn sum_up(stop: Gathered, insert_batch: Result<(), Halt>) -> Round
    ensures { result ≡ round_of stop insert_batch }
{
    match insert_batch {
        Err(halt) => Round::Over(answer_at(halt, stop)),
        Ok(()) => match stop {
            Gathered::Open => Round::Reads,
            Gathered::Full => Round::Again,
            Gathered::NoMemory => Round::NoMemory,
            Gathered::Fault(fault) => Round::Over(Err(RunFault::Frame(fault))),
        },
    }
}

// Takes in whatever whole frames the framer holds, up to a batch.
fn take_in<R: Wait + Clock, G: Gate, U: UnreadSink>(
    rt: &R,
    common: &Common<G>,
    sink: &mut U,
    intake: &mut Intake,
    framer: &mut Framer,
    end: &mut ConnEnd,
) -> Round
    requires good { framer.old.has_failed ≡ false }
    requires empty { intake.old.batch.items ≡ [] }
    ensures kept { (read : List ℕ) (before : Option (List (List ℕ))) →
        Begins read end.old (since before (U.kept sink.old)) framer.old.left →
        RoundIs result read end.new (since before (U.kept sink.new)) framer.new intake.new.batch.items }
    ensures on { MayGoOn result framer.new intake.new.batch.items intake.new.is_in_hand }
    ensures same { intake.new.hand ≡ intake.old.hand }
{
    let Common { shared, gate } = common;
    let Intake {
        alloc,
        hand,
        raw,
        makings,
        batch,
        is_in_hand,
    } = intake;
    let stop = gather(*alloc, framer, raw, makings, batch, BATCH);
    let insert_batch = insert_batch(
        rt,
        shared,
        gate,
        sink,
        *hand,
        batch,
        end,
        is_in_hand,
        &mut makings.used,
    );
    sum_up(stop, insert_batch)
}

// Waits for memory; the answer where the relay closes.
fn wait<R: Wait + Clock>(rt: &R, shared: &Shared) -> Option<Result<Finish, RunFault>>
    ensures { IfSome result (λ answer. answer ≡ Err RunFault.NoMemory) }
{
    if wait_for_memory(rt, shared) {
        None
    } else {
        Some(Err(RunFault::NoMemory))
    }
}

// Takes in all whole frames that the framer holds; the answer where that ends the connection.
fn take_all<R: Wait + Clock, G: Gate, U: UnreadSink>(
    rt: &R,
    common: &Common<G>,
    sink: &mut U,
    intake: &mut Intake,
    framer: &mut Framer,
    end: &mut ConnEnd,
) -> Option<Result<Finish, RunFault>>
    requires good { framer.old.has_failed ≡ false }
    requires empty { intake.old.batch.items ≡ [] }
    ensures kept { (read : List ℕ) (before : Option (List (List ℕ))) →
        Begins read end.old (since before (U.kept sink.old)) framer.old.left →
        RoundsAre result read end.new (since before (U.kept sink.new)) framer.new intake.new.batch.items }
    ensures on { IfNone result (MayGoOn Round.Reads framer.new intake.new.batch.items intake.new.is_in_hand) }
    ensures same { intake.new.hand ≡ intake.old.hand }
{
    for _ in rt.forever() {
        match take_in(rt, common, sink, intake, framer, end) {
            Round::Over(answer) => return Some(answer),
            Round::Reads => return None,
            Round::Again => {}
            Round::NoMemory => {
                if let Some(answer) = wait(rt, &common.shared) {
                    return Some(answer);
                }
            }
        }
    }
    unreachable!()
}

/// What came of a turn.
#[derive(Clone, Copy)]
pub(crate) enum Came {
    GoesOn,
    // its source failed, or had nothing yet
    NotRead,
    Over(Result<Finish, RunFault>),
}

// The same, by how it ended, if it did.
fn came_of(answer: Option<Result<Finish, RunFault>>) -> Came
    ensures { result ≡ came_from answer }
{
    match answer {
        Some(answer) => Came::Over(answer),
        None => Came::GoesOn,
    }
}

// Takes in all whole frames that stand there once the source has ended, and ends.
fn take_last<R: Wait + Clock, G: Gate, U: UnreadSink>(
    rt: &R,
    common: &Common<G>,
    sink: &mut U,
    intake: &mut Intake,
    framer: &mut Framer,
    end: &mut ConnEnd,
) -> Result<Finish, RunFault>
    requires good { framer.old.has_failed ≡ false }
    requires empty { intake.old.batch.items ≡ [] }
    ensures kept { (ahead ahead' : Option (List ℕ)) (before : Option (List (List ℕ))) →
        Serves ahead ahead' end.old (since before (U.kept sink.old)) framer.old.left → IsAtEnd ahead' →
        CameIs (Came.Over result) ahead ahead' end.new (since before (U.kept sink.new)) framer.new intake.new.batch.items }
    ensures same { intake.new.hand ≡ intake.old.hand }
{
    match take_all(rt, common, sink, intake, framer, end) {
        Some(answer) => answer,
        None => end_of(framer),
    }
}

// Reads once, and takes in all whole frames that stand there then.
fn read_and_take<R: Wait + Clock, G: Gate, U: UnreadSink, S: Source>(
    rt: &R,
    common: &Common<G>,
    sink: &mut U,
    intake: &mut Intake,
    source: &mut S,
    framer: &mut Framer,
    end: &mut ConnEnd,
) -> Came
    requires good { framer.old.has_failed ≡ false }
    requires empty { intake.old.batch.items ≡ [] }
    requires is_open { IsOpen framer.old.left }
    ensures kept { (ahead : Option (List ℕ)) (before : Option (List (List ℕ))) →
        Serves ahead (S.remaining source.old) end.old (since before (U.kept sink.old)) framer.old.left →
        CameIs result ahead (S.remaining source.new) end.new (since before (U.kept sink.new)) framer.new intake.new.batch.items }
    ensures on { IsOn result framer.new intake.new.batch.items intake.old.is_in_hand intake.new.is_in_hand }
    ensures fails { CameFails result (S.faults source.old) (S.faults source.new) }
    ensures same { intake.new.hand ≡ intake.old.hand }
{
    match read_once(source, framer) {
        Step::NotRead => Came::NotRead,
        Step::NoMemory => match wait(rt, &common.shared) {
            Some(answer) => Came::Over(answer),
            None => came_of(take_all(rt, common, sink, intake, framer, end)),
        },
        Step::Read => came_of(take_all(rt, common, sink, intake, framer, end)),
        Step::Ends => Came::Over(take_last(rt, common, sink, intake, framer, end)),
    }
}

// The frames that were gathered and not taken, which are the reader's no more. An empty batch keeps its memory.
fn take_batch(intake: &mut Intake) -> VecDeque<Item>
    ensures items { result.items ≡ intake.old.batch.items }
    ensures batch { intake.new.batch.items ≡ [] }
    ensures hand { intake.new.hand ≡ intake.old.hand }
{
    if intake.batch.is_empty() {
        return VecDeque::new(intake.alloc);
    }
    mem::replace(&mut intake.batch, VecDeque::new(intake.alloc))
}

/// A turn of a connection: reads once from its source, and takes in all whole frames that have come then.
pub(crate) fn turn<R: Wait + Clock, G: Gate, U: UnreadSink, S: Source>(
    rt: &R,
    common: &Common<G>,
    sink: &mut U,
    reader: &mut Reader,
    source: &mut S,
    connection: Connection,
) -> Turn
    ensures kept { (ahead : Option (List ℕ)) (before : Option (List (List ℕ))) →
        Serves ahead (S.remaining source.old) connection.end (since before (U.kept sink.old)) connection.left →
        TurnIs result ahead (S.remaining source.new) (since before (U.kept sink.new)) }
    ensures fails { FailsAt result (S.faults source.old) (S.faults source.new) }
    ensures hand { HandIs result reader.old reader.new }
    ensures input { reader.new.input ≡ reader.old.input }
{
    let Connection {
        mut framer,
        mut end,
    } = connection;
    reader.swap_room(&mut framer);
    let intake = &mut reader.intake;
    match read_and_take(rt, common, sink, intake, source, &mut framer, &mut end) {
        Came::GoesOn => Turn::GoesOn(Connection { framer, end }),
        Came::NotRead => Turn::NotRead(Connection { framer, end }),
        Came::Over(answer) => {
            // (what it leaves takes no more memory than it needs)
            framer.shrink_to_fit();
            let items = take_batch(intake);
            Turn::Over(end, Untaken { items, framer }, answer)
        }
    }
}
