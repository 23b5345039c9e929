//! Standard input as frames, one line a message on standard output.
ghost use Rattle.std.specs.Prelude.{◌≡◌, ◌≢◌, ◌+◌, ◌*◌, ◌<◌, ◌≤◌, ◌^◌, ◌⊎◌, ◌++◌, ℕ, [], List, Option, false, true, IfErr, IfOk, OnOk, Ok, Some, length};
ghost use Rattle.sy_wire.specs.Frames.{IsOpen};
ghost use Rattle.sy_wire.specs.Steps.{Fills};
ghost use Rattle.sy_wire.specs.Streams.{Rose, count_after};
ghost use Rattle.std.specs.Io.KnownBytes.{Keeps};
ghost use Rattle.sy_passing.specs.Pass.{EndsPass, EndsWhole, HasFailed, IsStatus, NoneFailed, PassIs, counted};
ghost use Rattle.sy_passing.specs.internal.Pass.{GivesUpFailing, counts};
ghost use Rattle.sy_report.specs.Reports.{HasReported, status_shown};
ghost use Rattle.sy_passing.specs.internal.Stops.{Advances, DrainFails, FailCause, IsBetween, PassCause, ReadCause, StopIs, StopsIn, TurnIs, WriteCause};
ghost use Rattle.sy_passing.specs.Stops.{IsIdle};
ghost use Rattle.sy_passing.specs.Ways.{IsWhole, idle};

pub mod one_message;

use crate::pass::one_message::{CarryFault, carry, entry};
use std::alloc::{AllocError, Global};
use std::sync::Arc;
use sy_actions::{Hatch, LineSink};
use sy_board::Board;
use sy_report::outcome::stop::{Stop, report_stop, status_of};
use sy_report::writing::outputs::Outputs;
use sy_rules::Plan;
use sy_wire::{FillFault, FrameFault, Framer, PIECE, Sink, Source};

// The only action of a pass's plan.
const ARCHIVE: u32 = 0;

/// How many reads a pass makes at most.
pub const READS: u64 = 1_000_000_000_000;

// Passes all whole frames that the framer holds.
fn drain<W: Sink + Drop>(
    alloc: Global,
    board: &mut Board,
    framer: &mut Framer,
    hatch: &mut Hatch<LineSink<W>>,
) -> Result<(), Stop>
    requires idle { IsIdle board.old }
    requires good { framer.old.has_failed ≡ false }
    requires whole { IsWhole hatch.old board.old.totals.taken }
    requires room { board.old.totals.taken + length framer.old.left < 2 ^ 64 }
    ensures between { OnOk result (IsBetween board.new framer.new) }
    ensures whole { OnOk result (IsWhole hatch.new board.new.totals.taken) }
    ensures ok { OnOk result (Advances framer.old.left
        (W.contents hatch.old.device.writer) (W.contents hatch.new.device.writer) framer.new.left board.old.totals.taken board.new.totals.taken) }
    ensures room { OnOk result (board.new.totals.taken + length framer.new.left ≤ board.old.totals.taken + length framer.old.left) }
    ensures bound { board.new.totals.taken ≤ board.old.totals.taken + length framer.old.left }
    ensures err { IfErr result (λ e. DrainFails e framer.old.left
        (W.contents hatch.old.device.writer) (W.contents hatch.new.device.writer) board.old.totals.taken board.new.totals.taken) }
    ensures same { OnOk result (W.faults hatch.new.device.writer ≡ W.faults hatch.old.device.writer) }
    ensures lent { W.lent hatch.new.device.writer ≡ W.lent hatch.old.device.writer }
    ensures count { W.faults hatch.old.device.writer ≤ W.faults hatch.new.device.writer }
    ensures cause { IfErr result (λ e. WriteCause e (W.faults hatch.old.device.writer) (W.faults hatch.new.device.writer)) }
{
    let mut used = None;
    let mut raw = Vec::new(alloc);
    'frames: loop {
        match framer.next_into(&mut raw) {
            Ok(true) => {
                let node = entry(alloc, used, &mut raw)?;
                match carry(board, hatch, node) {
                    Ok(node) => used = Some(node),
                    Err(CarryFault::NoMemory) => return Err(Stop::NoMemory),
                    Err(CarryFault::WriteFailed) => return Err(Stop::WriteFailed),
                }
            }
            Ok(false) => return Ok(()),
            Err(FrameFault::NoMemory) => return Err(Stop::NoMemory),
            Err(fault) => return Err(Stop::Frame(fault)),
        }
    }
}

// Reads once, into the framer.
fn read_piece<R: Source>(reader: &mut R, framer: &mut Framer) -> Result<usize, Stop>
    requires { framer.old.has_failed ≡ false }
    ensures ok { IfOk result (λ count. Fills framer.old count framer.new (R.remaining reader.old) (R.remaining reader.new)) }
    ensures bound { IfOk result (λ count. count ≤ PIECE) }
    ensures none { IfOk result (λ count. count ≡ 0 → framer.new ≡ framer.old) }
    ensures call { OnOk result (R.calls reader.new ≡ count_after (R.calls reader.old) 1) }
    ensures calls { R.calls reader.new ≤ R.calls reader.old + 1 }
    ensures same { OnOk result (R.faults reader.new ≡ R.faults reader.old) }
    ensures count { R.faults reader.old ≤ R.faults reader.new }
    ensures cause { IfErr result (λ e. ReadCause e (R.faults reader.old) (R.faults reader.new)) }
{
    match framer.fill(reader) {
        Ok(count) => Ok(count),
        Err(FillFault::ReadFailed) => Err(Stop::ReadFailed),
        Err(FillFault::NoMemory) => Err(Stop::NoMemory),
        Err(FillFault::Failed) => unreachable!(),
    }
}

// Hands on the lines so far, reads once, and passes what is whole then. It answers whether more may come.
fn turn<R: Source, W: Sink + Drop>(
    alloc: Global,
    reader: &mut R,
    board: &mut Board,
    framer: &mut Framer,
    hatch: &mut Hatch<LineSink<W>>,
) -> Result<bool, Stop>
    requires between { IsBetween board.old framer.old }
    requires whole { IsWhole hatch.old board.old.totals.taken }
    requires room { board.old.totals.taken + length framer.old.left + PIECE < 2 ^ 64 }
    ensures between { result ≡ Ok true → IsBetween board.new framer.new }
    ensures whole { result ≡ Ok true → IsWhole hatch.new board.new.totals.taken }
    ensures room { result ≡ Ok true → board.new.totals.taken + length framer.new.left ≤ board.old.totals.taken + length
        framer.old.left + PIECE }
    ensures bound { board.new.totals.taken ≤ board.old.totals.taken + length framer.old.left + PIECE }
    ensures turned { (ahead : List ℕ) → R.remaining reader.old ≡ Some ahead →
        TurnIs result (framer.old.left ++ ahead) framer.new.left (R.remaining reader.new)
        (W.contents hatch.old.device.writer) (W.contents hatch.new.device.writer) board.old.totals.taken board.new.totals.taken }
    ensures flushed { result ≡ Ok false → W.is_flushed hatch.new.device.writer ≡ true }
    ensures call { result ≡ Ok true → R.calls reader.new ≡ count_after (R.calls reader.old) 1 }
    ensures calls { R.calls reader.new ≤ R.calls reader.old + 1 }
    ensures reads { R.faults reader.old ≤ R.faults reader.new }
    ensures lent { W.lent hatch.new.device.writer ≡ W.lent hatch.old.device.writer }
    ensures writes { W.faults hatch.old.device.writer ≤ W.faults hatch.new.device.writer }
    ensures none_failed { IfOk result (λ _. NoneFailed
        (counts R.faults R.calls W.faults reader.old hatch.old.device.writer)
        (counts R.faults R.calls W.faults reader.new hatch.new.device.writer)) }
    ensures cause { IfErr result (λ e. FailCause e
        (counts R.faults R.calls W.faults reader.old hatch.old.device.writer)
        (counts R.faults R.calls W.faults reader.new hatch.new.device.writer)) }
{
    let Ok(()) = hatch.flush() else {
        return Err(Stop::WriteFailed);
    };
    if read_piece(reader, framer)? == 0 {
        let Ok(()) = framer.end() else {
            return Err(Stop::Frame(FrameFault::Truncated));
        };
        return Ok(false);
    }
    drain(alloc, board, framer, hatch)?;
    Ok(true)
}

// Passes the whole input, piece by piece.
fn turns<R: Source, W: Sink + Drop>(
    alloc: Global,
    reader: &mut R,
    board: &mut Board,
    framer: &mut Framer,
    hatch: &mut Hatch<LineSink<W>>,
) -> Result<(), Stop>
    requires between { IsBetween board.old framer.old }
    requires whole { IsWhole hatch.old board.old.totals.taken }
    requires new { framer.old.left ≡ [] }
    requires first { board.old.totals.taken ≡ 0 }
    ensures bound { board.new.totals.taken + 1 < 2 ^ 64 }
    ensures ok { (input : List ℕ) → R.remaining reader.old ≡ Some input →
        OnOk result (Advances input (W.contents hatch.old.device.writer) (W.contents hatch.new.device.writer) [] 0 board.new.totals.taken) }
    ensures err { (input : List ℕ) → R.remaining reader.old ≡ Some input →
        IfErr result (λ e. StopIs e input (W.contents hatch.old.device.writer) (W.contents hatch.new.device.writer) 0 board.new.totals.taken) }
    ensures flushed { OnOk result (W.is_flushed hatch.new.device.writer ≡ true) }
    ensures calls { R.calls reader.new ≤ R.calls reader.old + READS }
    ensures lent { W.lent hatch.new.device.writer ≡ W.lent hatch.old.device.writer }
    ensures writes { W.faults hatch.old.device.writer ≤ W.faults hatch.new.device.writer }
    ensures none_failed { OnOk result (NoneFailed
        (counts R.faults R.calls W.faults reader.old hatch.old.device.writer)
        (counts R.faults R.calls W.faults reader.new hatch.new.device.writer)) }
    ensures cause { IfErr result (λ e. PassCause e
        (counts R.faults R.calls W.faults reader.old hatch.old.device.writer)
        (counts R.faults R.calls W.faults reader.new hatch.new.device.writer)) }
{
    for _ in 0..READS {
        if !turn(alloc, reader, board, framer, hatch)? {
            return Ok(());
        }
    }
    Err(Stop::ReadFailed)
}

// The board that takes messages in and writes them all, before the first message.
fn new_board(alloc: Global) -> Result<Board, AllocError>
    ensures { IfOk result (λ board. board ≡ idle 0) }
{
    let Ok(plan) = Plan::pass(alloc) else {
        return Err(AllocError);
    };
    let Ok(plan) = Arc::new(alloc, plan) else {
        return Err(AllocError);
    };
    Board::new(alloc, plan, None)
}

// Why a pass stopped, and in which frame, counted from 1.
#[derive(Clone, Copy)]
struct Stopped {
    stop: Stop,
    frame: u64,
}

// Passes the whole input over a board, each line through the hatch of the one action.
fn pass_lines<R: Source, W: Sink>(
    alloc: Global,
    reader: &mut R,
    board: &mut Board,
    writer: &mut W,
) -> Result<(), Stop>
    requires { board.old ≡ idle 0 }
    ensures ok { (input : List ℕ) → R.remaining reader.old ≡ Some input →
        OnOk result (Advances input (W.contents writer.old) (W.contents writer.new) [] 0 board.new.totals.taken) }
    ensures err { (input : List ℕ) → R.remaining reader.old ≡ Some input →
        IfErr result (λ e. StopIs e input (W.contents writer.old) (W.contents writer.new) 0 board.new.totals.taken) }
    ensures bound { board.new.totals.taken + 1 < 2 ^ 64 }
    ensures flushed { OnOk result (W.is_flushed writer.new ≡ true) }
    ensures calls { R.calls reader.new ≤ R.calls reader.old + READS }
    ensures writes { W.faults writer.old ≤ W.faults writer.new }
    ensures none_failed { OnOk result (NoneFailed
        (counts R.faults R.calls W.faults reader.old writer.old)
        (counts R.faults R.calls W.faults reader.new writer.new)) }
    ensures cause { IfErr result (λ e. PassCause e
        (counts R.faults R.calls W.faults reader.old writer.old)
        (counts R.faults R.calls W.faults reader.new writer.new)) }
{
    let mut framer = Framer::new(alloc);
    let mut hatch = Hatch::new(ARCHIVE, LineSink::new(alloc, writer));
    let ended = turns(alloc, reader, board, &mut framer, &mut hatch);
    let _writer = hatch.into_device().into_writer();
    ended
}

// Passes the whole input over a new board.
fn pass_all<R: Source, W: Sink>(
    alloc: Global,
    reader: &mut R,
    writer: &mut W,
) -> Result<(), Stopped>
    ensures ok { (input : List ℕ) → R.remaining reader.old ≡ Some input →
        OnOk result (EndsWhole input (W.contents writer.old) (W.contents writer.new)) }
    ensures err { (input : List ℕ) → R.remaining reader.old ≡ Some input →
        IfErr result (λ e. StopsIn e.stop e.frame input (W.contents writer.old) (W.contents writer.new)) }
    ensures flushed { OnOk result (W.is_flushed writer.new ≡ true) }
    ensures calls { R.calls reader.new ≤ R.calls reader.old + READS }
    ensures writes { W.faults writer.old ≤ W.faults writer.new }
    ensures none_failed { OnOk result (NoneFailed
        (counts R.faults R.calls W.faults reader.old writer.old)
        (counts R.faults R.calls W.faults reader.new writer.new)) }
    ensures cause { IfErr result (λ e. PassCause e.stop
        (counts R.faults R.calls W.faults reader.old writer.old)
        (counts R.faults R.calls W.faults reader.new writer.new)) }
{
    let Ok(mut board) = new_board(alloc) else {
        return Err(Stopped {
            stop: Stop::NoMemory,
            frame: 1,
        });
    };
    match pass_lines(alloc, reader, &mut board, writer) {
        Ok(()) => Ok(()),
        Err(stop) => Err(Stopped {
            stop,
            frame: board.accounts().taken() + 1,
        }),
    }
}

// Hands on the lines that were written before the stop, and reports it.
fn hand_on<W: Sink, E: Sink>(out: &mut Outputs<W, E>, stopped: Stopped) -> u8
    ensures pass { (input : List ℕ) (first : Option (List ℕ)) →
        StopsIn stopped.stop stopped.frame input first out.old.output.contents →
        EndsPass result input first out.new.output.contents (HasReported out.old out.new) }
    ensures status { (result ≡ 2) ⊎ (result ≡ 3) ⊎ (result ≡ 4) }
    ensures flushed { (out.new.output.is_flushed ≡ true)
        ⊎ ((result ≡ 4) × Rose out.old.output.faults out.new.output.faults) }
    ensures writes { out.old.output.faults ≤ out.new.output.faults }
    ensures none_failed { result ≢ 4 → (status_shown stopped.stop ≢ 4) × (out.new.output.faults ≡ out.old.output.faults) }
    ensures cause { result ≡ 4 → GivesUpFailing (HasReported out.old out.new) stopped.stop out.old.output.faults out.new.output.faults }
{
    let stop = match out.writer.flush() {
        Ok(()) => stopped.stop,
        Err(_) => Stop::WriteFailed,
    };
    report_stop(&mut out.errors, stop, stopped.frame);
    status_of(stop)
}

// Reports the stop, once the lines that were written before it are handed on. After a failed write nothing more is
// written, so that none is tried again.
fn give_up<W: Sink, E: Sink>(out: &mut Outputs<W, E>, stopped: Stopped) -> u8
    ensures pass { (input : List ℕ) (first : Option (List ℕ)) →
        StopsIn stopped.stop stopped.frame input first out.old.output.contents →
        EndsPass result input first out.new.output.contents (HasReported out.old out.new) }
    ensures status { (result ≡ 2) ⊎ (result ≡ 3) ⊎ (result ≡ 4) }
    ensures untouched { stopped.stop ≡ Stop.WriteFailed → out.new.output ≡ out.old.output }
    ensures flushed { (out.new.output.is_flushed ≡ true)
        ⊎ ((result ≡ 4) × ((stopped.stop ≡ Stop.WriteFailed) ⊎ Rose out.old.output.faults out.new.output.faults)) }
    ensures writes { out.old.output.faults ≤ out.new.output.faults }
    ensures none_failed { result ≢ 4 → (status_shown stopped.stop ≢ 4) × (out.new.output.faults ≡ out.old.output.faults) }
    ensures cause { result ≡ 4 → GivesUpFailing (HasReported out.old out.new) stopped.stop out.old.output.faults out.new.output.faults }
{
    match stopped.stop {
        Stop::WriteFailed => {
            report_stop(&mut out.errors, stopped.stop, stopped.frame);
            4
        }
        Stop::Frame(_) | Stop::Message(_) | Stop::NoMemory | Stop::ReadFailed => {
            hand_on(out, stopped)
        }
    }
}

/// Reads the input as frames to its end or up to the first fault, and writes each message and a line
/// feed as soon as its frame is whole. It answers the exit status.
pub fn pass<R: Source, W: Sink, E: Sink>(
    alloc: Global,
    reader: &mut R,
    out: &mut Outputs<W, E>,
) -> u8
    ensures pass { (input : List ℕ) → R.remaining reader.old ≡ Some input → PassIs result input out.old out.new }
    ensures status { IsStatus result }
    ensures quiet { result ≡ 0 → Keeps out.old.errors.contents out.new.errors.contents }
    ensures flushed { (out.new.output.is_flushed ≡ true)
        ⊎ ((result ≡ 4) × Rose out.old.output.faults out.new.output.faults) }
    ensures calls { R.calls reader.new ≤ R.calls reader.old + READS }
    ensures none_failed { result ≢ 4 → NoneFailed
        (counted R.faults R.calls reader.old out.old) (counted R.faults R.calls reader.new out.new) }
    ensures cause { result ≡ 4 → HasFailed (HasReported out.old out.new)
        (counted R.faults R.calls reader.old out.old) (counted R.faults R.calls reader.new out.new) }
{
    match pass_all(alloc, reader, &mut out.writer) {
        Ok(()) => 0,
        Err(stopped) => give_up(out, stopped),
    }
}
