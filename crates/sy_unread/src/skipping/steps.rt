//! The steps of a read that keep nothing.
ghost use Rattle.std.specs.Prelude.{◌≡◌, ◌≢◌, ◌+◌, ◌≤◌, ◌<◌, [], List, Option, ℕ, length, take, IfOk, OnErr};
ghost use Rattle.std.specs.Io.KnownBytes.{Keeps};
ghost use Rattle.sy_wire.specs.Frames.{IsSize};
ghost use Rattle.sy_wire.specs.Streams.{ReadsPiece, Rose, count_after};
ghost use Rattle.sy_unread.specs.Skipping.{IsCut, Kept, SetsAside};
ghost use Rattle.sy_unread.specs.declared.skipping.place.Place.TheVariants.{Within, WithinLong, Unframed};
ghost use Rattle.sy_unread.specs.declared.skipping.turn.Turn.TheVariants as turn;
ghost use Rattle.sy_unread.specs.internal.Fronts.{CauseIs, HasHead, TurnIs, turns_left};

use super::passing::scan;
use super::place::{Place, past_long};
use super::standing::Standing;
use super::turn::Turn;
use sy_wire::{PIECE, ReadFault, Source};

// Reads once into the front of the buffer, at most so many bytes.
fn read_front<S: Source>(source: &mut S, buffer: &mut [u8], most: usize) -> Result<usize, ReadFault>
    requires some { 0 < most }
    requires room { 0 < length buffer.old }
    ensures bound { IfOk result (λ count. count ≤ most) }
    ensures within { IfOk result (λ count. count ≤ length buffer.new) }
    ensures read { IfOk result (λ count. ReadsPiece (S.remaining source.old) (S.remaining source.new)
        (take count buffer.new) count) }
    ensures kept { OnErr result (Keeps (S.remaining source.old) (S.remaining source.new)) }
    ensures call { S.calls source.new ≡ count_after (S.calls source.old) 1 }
    ensures faults { S.faults source.old ≤ S.faults source.new }
    ensures fault { OnErr result (Rose (S.faults source.old) (S.faults source.new)) }
{
    let most = most.min(buffer.len());
    let (front, _) = buffer.split_at_mut(most);
    source.read(front)
}

// Reads within frames that a framer takes, or where one begins.
pub(crate) fn read_frames<S: Source>(
    standing: &mut Standing,
    source: &mut S,
    buffer: &mut [u8],
    within: usize,
) -> Turn
    requires at { standing.old ≡ record { place = Within within; frames = standing.old.frames; held = [] } }
    requires room { 0 < length buffer.old }
    ensures turn { (kept : Option (List Kept)) → TurnIs result standing.old standing.new (S.remaining source.old) (S.remaining source.new) kept kept buffer.new }
    ensures cause { (refused : Option ℕ) → CauseIs result standing.old standing.new (S.faults source.old) (S.faults source.new)
        (S.calls source.old) (S.calls source.new) refused refused }
{
    let Ok(count) = read_front(source, buffer, PIECE) else {
        return Turn::Fails;
    };
    if count == 0 {
        return Turn::Gives(0);
    }
    let came = &buffer[..count];
    let passed = scan(came, within, standing.frames());
    let passes = passed.count;
    standing.append(&came[passes..]);
    standing.set_frames(passed.frames);
    standing.set_place(Place::Within(passed.left));
    if passes == 0 {
        return Turn::GoesOn;
    }
    Turn::Gives(passes)
}

// Reads within a long frame.
pub(crate) fn skip<S: Source>(
    standing: &mut Standing,
    source: &mut S,
    buffer: &mut [u8],
    left: usize,
) -> Turn
    requires at { standing.old ≡ record { place = WithinLong left; frames = standing.old.frames; held = [] } }
    requires room { 0 < length buffer.old }
    ensures turn { (kept : Option (List Kept)) → TurnIs result standing.old standing.new (S.remaining source.old) (S.remaining source.new) kept kept buffer.new }
    ensures cause { (refused : Option ℕ) → CauseIs result standing.old standing.new (S.faults source.old) (S.faults source.new)
        (S.calls source.old) (S.calls source.new) refused refused }
{
    if left == 0 {
        standing.set_place(past_long(left));
        return Turn::GoesOn;
    }
    let Ok(count) = read_front(source, buffer, left) else {
        return Turn::Fails;
    };
    if count == 0 {
        return Turn::Gives(0);
    }
    let rest = left - count;
    standing.set_place(past_long(rest));
    Turn::GoesOn
}

// Reads where what comes is handed on as it comes.
pub(crate) fn read_unframed<S: Source>(
    standing: &mut Standing,
    source: &mut S,
    buffer: &mut [u8],
) -> Turn
    requires at { standing.old ≡ record { place = Unframed; frames = standing.old.frames; held = [] } }
    requires room { 0 < length buffer.old }
    ensures turn { (kept : Option (List Kept)) → TurnIs result standing.old standing.new (S.remaining source.old) (S.remaining source.new) kept kept buffer.new }
    ensures cause { (refused : Option ℕ) → CauseIs result standing.old standing.new (S.faults source.old) (S.faults source.new)
        (S.calls source.old) (S.calls source.new) refused refused }
{
    match read_front(source, buffer, PIECE) {
        Ok(count) => Turn::Gives(count),
        Err(ReadFault) => Turn::Fails,
    }
}

// Reads more of a head or of a long frame, at most so many bytes; where none come, what is held is handed on.
pub(crate) fn read_more<S: Source>(
    standing: &mut Standing,
    source: &mut S,
    buffer: &mut [u8],
    most: usize,
) -> Turn
    requires place { standing.old.place ≡ Within 0 }
    requires held { standing.old.held ≢ [] }
    requires cut { IsCut standing.old.held }
    requires some { 0 < most }
    requires fits { length standing.old.held + most ≤ 65546 }
    requires room { 0 < length buffer.old }
    ensures turn { (kept : Option (List Kept)) → TurnIs result standing.old standing.new (S.remaining source.old) (S.remaining source.new) kept kept buffer.new }
    ensures cause { (refused : Option ℕ) → CauseIs result standing.old standing.new (S.faults source.old) (S.faults source.new)
        (S.calls source.old) (S.calls source.new) refused refused }
{
    let Ok(count) = read_front(source, buffer, most) else {
        return Turn::Fails;
    };
    if count == 0 {
        standing.set_place(Place::Unframed);
        return Turn::Gives(standing.hand_on(buffer, PIECE));
    }
    standing.append(&buffer[..count]);
    Turn::GoesOn
}

// Hands on what is held of frames that a framer takes.
pub(crate) fn hand_on_frames(standing: &mut Standing, buffer: &mut [u8], within: usize) -> usize
    requires at { standing.old.place ≡ Within within }
    requires some { 0 < within }
    requires held { standing.old.held ≢ [] }
    requires room { 0 < length buffer.old }
    ensures { (kept : Option (List Kept)) (ahead : Option (List ℕ)) → TurnIs (turn.Gives result) standing.old standing.new ahead ahead kept kept buffer.new }
{
    let count = standing.hand_on(buffer, within);
    standing.set_place(Place::Within(within - count));
    count
}

// Hands on what is held, as it came.
pub(crate) fn hand_on_unframed(standing: &mut Standing, buffer: &mut [u8]) -> usize
    requires at { standing.old.place ≡ Unframed }
    requires held { standing.old.held ≢ [] }
    requires room { 0 < length buffer.old }
    ensures { (kept : Option (List Kept)) (ahead : Option (List ℕ)) → TurnIs (turn.Gives result) standing.old standing.new ahead ahead kept kept buffer.new }
{
    standing.hand_on(buffer, PIECE)
}

// Lets go of what is held of a long frame.
pub(crate) fn drop_long(standing: &mut Standing, left: usize)
    requires { standing.old.place ≡ WithinLong left }
    ensures aside { (kept : Option (List Kept)) (ahead : Option (List ℕ)) → SetsAside standing.old standing.new ahead ahead kept kept }
    ensures less { standing.old.held ≢ [] → turns_left standing.new < turns_left standing.old }
{
    let count = left.min(standing.held().len());
    standing.drop_front(count);
    standing.set_place(past_long(left - count));
}

// A frame that a framer takes begins with what is held, which is handed on.
pub(crate) fn begin_frame(
    standing: &mut Standing,
    buffer: &mut [u8],
    size: usize,
    from: usize,
) -> usize
    requires place { standing.old.place ≡ Within 0 }
    requires size { IsSize size }
    requires head { HasHead standing.old.held size from }
    requires room { 0 < length buffer.old }
    ensures { (kept : Option (List Kept)) (ahead : Option (List ℕ)) → TurnIs (turn.Gives result) standing.old standing.new ahead ahead kept kept buffer.new }
{
    let count = standing.hand_on(buffer, from + size);
    standing.set_frames(standing.next_number());
    standing.set_place(Place::Within(from + size - count));
    count
}

// Reads where nothing is held.
pub(crate) fn read_on<S: Source>(standing: &mut Standing, source: &mut S, buffer: &mut [u8]) -> Turn
    requires held { standing.old.held ≡ [] }
    requires room { 0 < length buffer.old }
    ensures turn { (kept : Option (List Kept)) → TurnIs result standing.old standing.new (S.remaining source.old) (S.remaining source.new) kept kept buffer.new }
    ensures cause { (refused : Option ℕ) → CauseIs result standing.old standing.new (S.faults source.old) (S.faults source.new)
        (S.calls source.old) (S.calls source.new) refused refused }
{
    match standing.place() {
        Place::Within(within) => read_frames(standing, source, buffer, within),
        Place::WithinLong(left) => skip(standing, source, buffer, left),
        Place::Unframed => read_unframed(standing, source, buffer),
    }
}
