//! The events of a file, made one by one over a site: a line for each loss.
ghost use Rattle.std.specs.Prelude.{◌≡◌, ◌≢◌, ◌≤◌, ◌<◌, ◌++◌, ◌∷◌, ◌⊎◌, [], ℕ, List, Some, IfErr, IfNone, IfOk, IfSome, OnOk, length, true};
ghost use Rattle.std.specs.Io.KnownBytes.{Appends};
ghost use Rattle.sy_wire.specs.Streams.{Rose};
ghost use Rattle.sy_replay.specs.Events.{site_event};
ghost use Rattle.sy_replay.specs.Lines.{StandsFor};
ghost use Rattle.sy_commands.specs.Replays.{MayRise, PiecesMayFail, lines_of};
ghost use Rattle.sy_commands.specs.internal.Halts as internal;
ghost use Rattle.sy_commands.specs.Halts as halts;
ghost use Rattle.sy_commands.specs.internal.Halts.{Comes, place};
ghost use Rattle.sy_commands.specs.Halts.{Finishes, Stops, start};

use crate::replay::losses::{append_end, append_losses};
use memchr::memchr;
use std::alloc::{AllocError, Global};
use sy_passing::pass::READS;
use sy_replay::{Event, EventFault, Illegal, Replay, read_event};
use sy_report::outcome::halt::Halt;
use sy_report::writing::output::write_all;
use sy_site::Site;
use sy_wire::{Sink, Source};

/// How many bytes are read at once.
const PIECE: usize = 65536;

// A replay with the line that comes next, counted from 1, and the events so far. Both counts stop at the greatest
// number of 64 bits.
#[derive(Drop)]
struct Course<'a> {
    replay: Replay<'a>,
    line: u64,
    events: u64,
}

// Writes the lines of the losses behind the first ones.
fn print_losses<W: Sink>(
    alloc: Global,
    site: &Site,
    course: &Course<'_>,
    first: usize,
    writer: &mut W,
) -> Result<(), Halt>
    requires of { course.now.replay.site ≡ site.now }
    ensures ok { OnOk result (Appends (W.contents writer.old) (W.contents writer.new)
        (internal.later_losses site.now course.now.replay.contents course.now.line first)) }
    ensures same { OnOk result (W.faults writer.new ≡ W.faults writer.old) }
    ensures err { IfErr result (λ why. internal.IsTorn why
        (internal.later_losses site.now course.now.replay.contents course.now.line first)
        (W.contents writer.old) (W.faults writer.old) (W.contents writer.new) (W.faults writer.new)) }
{
    let losses = course.replay.losses();
    if first >= losses.len() {
        return Ok(());
    }
    let mut text = Vec::new(alloc);
    let Ok(()) = append_losses(
        &mut text,
        site,
        &course.replay,
        course.line,
        &losses[first..],
    ) else {
        return Err(Halt::NoMemory);
    };
    match write_all(writer, text.as_slice()) {
        Ok(()) => Ok(()),
        Err(_) => Err(Halt::WriteFailed),
    }
}

fn halt_of(illegal: Illegal, line: u64) -> Halt
    ensures { result ≡ internal.halt_of illegal line }
{
    match illegal {
        Illegal::NotAStep => Halt::Illegal(line),
        Illegal::NoMemory => Halt::NoMemory,
        Illegal::TotalsFull => Halt::TotalsFull(line),
    }
}

// Makes the step of the event in the next line.
fn make_event<W: Sink>(
    alloc: Global,
    site: &Site,
    course: &mut Course<'_>,
    event: &Event,
    writer: &mut W,
) -> Result<(), Halt>
    requires of { course.old.replay.site ≡ site.now }
    ensures of { course.new.replay.site ≡ site.now }
    ensures ok { OnOk result ((text : List ℕ) (later : List (List ℕ)) → StandsFor site.now text (site_event event.now)
        → Comes site.now (place course.old (text ∷ later) (W.contents writer.old) (W.faults writer.old))
        (place course.new later (W.contents writer.new) (W.faults writer.new))) }
    ensures err { IfErr result (λ why. (text : List ℕ) (later : List (List ℕ)) → StandsFor site.now text (site_event event.now)
        → Stops site.now (place course.old (text ∷ later) (W.contents writer.old) (W.faults writer.old))
        why (W.contents writer.new) (W.faults writer.new)) }
    ensures same { OnOk result (W.faults writer.new ≡ W.faults writer.old) }
    ensures cause { IfErr result (λ why. halts.HasCause why (W.faults writer.old) (W.faults writer.new)) }
    ensures kind { IfErr result (λ why. why ≢ Halt.ReadFailed) }
{
    let before = course.replay.losses().len();
    if let Err(illegal) = course.replay.apply(event) {
        return Err(halt_of(illegal, course.line));
    }
    print_losses(alloc, site, course, before, writer)?;
    course.events = course.events.saturating_add(1);
    course.line = course.line.saturating_add(1);
    Ok(())
}

// Replays one line, which comes without its line feed.
fn apply_line<W: Sink>(
    alloc: Global,
    site: &Site,
    course: &mut Course<'_>,
    line: &[u8],
    writer: &mut W,
) -> Result<(), Halt>
    requires of { course.old.replay.site ≡ site.now }
    ensures of { course.new.replay.site ≡ site.now }
    ensures ok { OnOk result ((later : List (List ℕ))
        → Comes site.now (place course.old (line.now ∷ later) (W.contents writer.old) (W.faults writer.old))
        (place course.new later (W.contents writer.new) (W.faults writer.new))) }
    ensures err { IfErr result (λ why. (later : List (List ℕ))
        → Stops site.now (place course.old (line.now ∷ later) (W.contents writer.old) (W.faults writer.old))
        why (W.contents writer.new) (W.faults writer.new)) }
    ensures same { OnOk result (W.faults writer.new ≡ W.faults writer.old) }
    ensures cause { IfErr result (λ why. halts.HasCause why (W.faults writer.old) (W.faults writer.new)) }
    ensures kind { IfErr result (λ why. why ≢ Halt.ReadFailed) }
{
    match read_event(alloc, site, line) {
        Ok(None) => {
            course.line = course.line.saturating_add(1);
            Ok(())
        }
        Ok(Some(event)) => make_event(alloc, site, course, &event, writer),
        Err(EventFault::Line) => Err(Halt::Line(course.line)),
        Err(EventFault::NoMemory) => Err(Halt::NoMemory),
    }
}

// The first line of a text that is whole, and what is behind its line feed.
fn cut_line(text: &[u8]) -> Option<(&[u8], &[u8])>
    ensures some { IfSome result (λ r. (ahead : List ℕ) →
        lines_of (text.now ++ ahead) ≡ r.0.now ∷ lines_of (r.1.now ++ ahead)) }
    ensures shorter { IfSome result (λ r. length r.1.now < length text.now) }
    ensures none { IfNone result (internal.IsOpenLine text.now) }
{
    match memchr(b'\n', text) {
        Some(at) => Some((&text[..at], &text[at + 1..])),
        None => None,
    }
}

// Replays all lines that are whole, and answers what is behind them.
fn apply_lines<'h, W: Sink>(
    alloc: Global,
    site: &Site,
    course: &mut Course<'_>,
    held: &'h [u8],
    writer: &mut W,
) -> Result<&'h [u8], Halt>
    requires of { course.old.replay.site ≡ site.now }
    ensures of { course.new.replay.site ≡ site.now }
    ensures ok { IfOk result (λ rest. (ahead : List ℕ)
        → Comes site.now (place course.old (lines_of (held.now ++ ahead)) (W.contents writer.old) (W.faults writer.old))
        (place course.new (lines_of (rest.now ++ ahead)) (W.contents writer.new) (W.faults writer.new))) }
    ensures open { IfOk result (λ rest. internal.IsOpenLine rest.now) }
    ensures err { IfErr result (λ why. (ahead : List ℕ)
        → Stops site.now (place course.old (lines_of (held.now ++ ahead)) (W.contents writer.old) (W.faults writer.old))
        why (W.contents writer.new) (W.faults writer.new)) }
    ensures same { OnOk result (W.faults writer.new ≡ W.faults writer.old) }
    ensures cause { IfErr result (λ why. halts.HasCause why (W.faults writer.old) (W.faults writer.new)) }
    ensures kind { IfErr result (λ why. why ≢ Halt.ReadFailed) }
{
    let mut rest = held;
    while let Some((line, behind)) = cut_line(rest) {
        apply_line(alloc, site, course, line, writer)?;
        rest = behind;
    }
    Ok(rest)
}

fn copy_of(alloc: Global, bytes: &[u8]) -> Result<Vec<u8>, AllocError>
    ensures { IfOk result (λ copy. copy.items ≡ bytes.now) }
{
    let mut copy = Vec::new(alloc);
    copy.extend_from_slice(bytes)?;
    Ok(copy)
}

// What was read of the events file and is no whole line yet, with the room that it is read into.
#[derive(Drop)]
struct Pieces {
    held: Vec<u8>,
    room: Vec<u8>,
}

// Reads the next bytes behind those that are held: how many.
fn read_piece<R: Source>(reader: &mut R, pieces: &mut Pieces) -> Result<usize, Halt>
    requires room { 0 < length pieces.old.room.items }
    ensures room { 0 < length pieces.new.room.items }
    ensures ok { IfOk result (λ count. internal.Reads count pieces.old.held.items pieces.new.held.items
        (R.remaining reader.old) (R.remaining reader.new)) }
    ensures err { IfErr result (λ why. (why ≡ Halt.NoMemory) ⊎ (why ≡ Halt.ReadFailed)) }
    ensures unread { IfErr result (λ why. why ≡ Halt.ReadFailed → Rose (R.faults reader.old) (R.faults reader.new)) }
{
    let Ok(count) = reader.read(pieces.room.as_mut_slice()) else {
        return Err(Halt::ReadFailed);
    };
    let Ok(()) = pieces.held.extend_from_slice(&pieces.room[..count]) else {
        return Err(Halt::NoMemory);
    };
    Ok(count)
}

// Hands on what was printed, reads once, and replays the lines that are whole then. It answers whether more may come.
fn turn<R: Source, W: Sink>(
    alloc: Global,
    site: &Site,
    course: &mut Course<'_>,
    reader: &mut R,
    pieces: &mut Pieces,
    writer: &mut W,
) -> Result<bool, Halt>
    requires of { course.old.replay.site ≡ site.now }
    requires room { 0 < length pieces.old.room.items }
    requires open { internal.IsOpenLine pieces.old.held.items }
    ensures of { course.new.replay.site ≡ site.now }
    ensures room { 0 < length pieces.new.room.items }
    ensures open { OnOk result (internal.IsOpenLine pieces.new.held.items) }
    ensures ok { IfOk result (λ more. (ahead : List ℕ) → R.remaining reader.old ≡ Some ahead → internal.Turns more site.now
        (place course.old (lines_of (pieces.old.held.items ++ ahead)) (W.contents writer.old) (W.faults writer.old))
        pieces.new.held.items (R.remaining reader.new)
        (place course.new [] (W.contents writer.new) (W.faults writer.new))) }
    ensures err { IfErr result (λ why. (ahead : List ℕ) → R.remaining reader.old ≡ Some ahead → Stops site.now
        (place course.old (lines_of (pieces.old.held.items ++ ahead)) (W.contents writer.old) (W.faults writer.old))
        why (W.contents writer.new) (W.faults writer.new)) }
    ensures same { OnOk result (W.faults writer.new ≡ W.faults writer.old) }
    ensures cause { IfErr result (λ why. halts.HasCause why (W.faults writer.old) (W.faults writer.new)) }
    ensures unread { IfErr result (λ why. why ≡ Halt.ReadFailed → MayRise R.faults) }
    ensures shorter { IfOk result (λ more. more ≡ true
        → internal.IsShorter (R.remaining reader.old) (R.remaining reader.new)) }
{
    let Ok(()) = writer.flush() else {
        return Err(Halt::WriteFailed);
    };
    let before = pieces.held.len();
    if read_piece(reader, pieces)? == 0 {
        return Ok(false);
    }
    if memchr(b'\n', &pieces.held[before..]).is_none() {
        return Ok(true);
    }
    let rest = apply_lines(alloc, site, course, pieces.held.as_slice(), writer)?;
    let Ok(rest) = copy_of(alloc, rest) else {
        return Err(Halt::NoMemory);
    };
    pieces.held = rest;
    Ok(true)
}

// Replays the last line, and prints the end.
fn finish<W: Sink>(
    alloc: Global,
    site: &Site,
    course: &mut Course<'_>,
    last: &[u8],
    writer: &mut W,
) -> Result<(), Halt>
    requires of { course.old.replay.site ≡ site.now }
    requires open { internal.IsOpenLine last.now }
    ensures ok { OnOk result (Finishes site.now
        (place course.old (lines_of last.now) (W.contents writer.old) (W.faults writer.old))
        (W.contents writer.new) (W.faults writer.new)) }
    ensures flushed { OnOk result (W.is_flushed writer.new ≡ true) }
    ensures err { IfErr result (λ why. Stops site.now
        (place course.old (lines_of last.now) (W.contents writer.old) (W.faults writer.old))
        why (W.contents writer.new) (W.faults writer.new)) }
    ensures same { OnOk result (W.faults writer.new ≡ W.faults writer.old) }
    ensures cause { IfErr result (λ why. halts.HasCause why (W.faults writer.old) (W.faults writer.new)) }
    ensures kind { IfErr result (λ why. why ≢ Halt.ReadFailed) }
{
    apply_line(alloc, site, course, last, writer)?;
    let mut text = Vec::new(alloc);
    let Ok(()) = append_end(&mut text, &course.replay, course.events) else {
        return Err(Halt::NoMemory);
    };
    let Ok(()) = write_all(writer, text.as_slice()) else {
        return Err(Halt::WriteFailed);
    };
    let Ok(()) = writer.flush() else {
        return Err(Halt::WriteFailed);
    };
    Ok(())
}

// Replays all lines.
fn turns<R: Source, W: Sink>(
    alloc: Global,
    site: &Site,
    course: &mut Course<'_>,
    reader: &mut R,
    pieces: &mut Pieces,
    writer: &mut W,
) -> Result<(), Halt>
    requires of { course.old.replay.site ≡ site.now }
    requires room { 0 < length pieces.old.room.items }
    requires open { internal.IsOpenLine pieces.old.held.items }
    ensures ok { OnOk result ((ahead : List ℕ) → R.remaining reader.old ≡ Some ahead → Finishes site.now
        (place course.old (lines_of (pieces.old.held.items ++ ahead)) (W.contents writer.old) (W.faults writer.old))
        (W.contents writer.new) (W.faults writer.new)) }
    ensures flushed { OnOk result (W.is_flushed writer.new ≡ true) }
    ensures err { IfErr result (λ why. (ahead : List ℕ) → R.remaining reader.old ≡ Some ahead → Stops site.now
        (place course.old (lines_of (pieces.old.held.items ++ ahead)) (W.contents writer.old) (W.faults writer.old))
        why (W.contents writer.new) (W.faults writer.new)) }
    ensures same { OnOk result (W.faults writer.new ≡ W.faults writer.old) }
    ensures cause { IfErr result (λ why. halts.HasCause why (W.faults writer.old) (W.faults writer.new)) }
    ensures unread { IfErr result (λ why. why ≡ Halt.ReadFailed → (ahead : List ℕ) → R.remaining reader.old ≡ Some ahead
        → PiecesMayFail R.faults ahead) }
{
    for _ in 0..READS {
        if !turn(alloc, site, course, reader, pieces, writer)? {
            return finish(alloc, site, course, pieces.held.as_slice(), writer);
        }
    }
    Err(Halt::ReadFailed)
}

/// Replays a whole events file.
pub fn replay_events<R: Source, W: Sink>(
    alloc: Global,
    site: &Site,
    reader: &mut R,
    writer: &mut W,
) -> Result<(), Halt>
    ensures ok { OnOk result ((events : List ℕ) → R.remaining reader.old ≡ Some events → Finishes site.now
        (start site.now (lines_of events) (W.contents writer.old) (W.faults writer.old))
        (W.contents writer.new) (W.faults writer.new)) }
    ensures flushed { OnOk result (W.is_flushed writer.new ≡ true) }
    ensures err { IfErr result (λ why. (events : List ℕ) → R.remaining reader.old ≡ Some events → Stops site.now
        (start site.now (lines_of events) (W.contents writer.old) (W.faults writer.old))
        why (W.contents writer.new) (W.faults writer.new)) }
    ensures same { OnOk result (W.faults writer.new ≡ W.faults writer.old) }
    ensures cause { IfErr result (λ why. halts.HasCause why (W.faults writer.old) (W.faults writer.new)) }
    ensures unread { IfErr result (λ why. why ≡ Halt.ReadFailed → (events : List ℕ) → R.remaining reader.old ≡ Some events
        → PiecesMayFail R.faults events) }
{
    let Ok(replay) = Replay::new(alloc, site) else {
        return Err(Halt::NoMemory);
    };
    let Ok(room) = vec![in alloc; 0; PIECE] else {
        return Err(Halt::NoMemory);
    };
    let mut pieces = Pieces {
        held: Vec::new(alloc),
        room,
    };
    let mut course = Course {
        replay,
        line: 1,
        events: 0,
    };
    turns(alloc, site, &mut course, reader, &mut pieces, writer)
}
