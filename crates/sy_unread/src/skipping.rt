//! A source of frames that a framer takes, out of one whose frames may be longer.
ghost use Rattle.std.specs.Prelude.{◌≡◌, ◌≢◌, ◌≤◌, ◌<◌, ◌+◌, ◌∷◌, [], ℕ, List, None, Option, length, take, IfErr, IfOk, OnErr, OnOk};
ghost use Rattle.std.specs.Io.KnownBytes.{IsAtEnd, ReadConsumes};
ghost use Rattle.sy_unread.specs.Skipping.{HasCause, IsLong, IsUnframed, Kept, KeepsMore, Reads, Refuses, SetsAside, is_within_long, long, unframed};
ghost use Rattle.sy_unread.specs.declared.skipping.place.Place.TheVariants.{Within};
ghost use Rattle.sy_unread.specs.internal.Fronts.{CauseIs, HasHead, TurnIs};
ghost use Rattle.sy_wire.specs.Streams.{Rose, count_after};

mod front;
pub mod laws;
mod passing;
pub mod place;
pub mod standing;
mod steps;
mod turn;

use front::{Front, front_of};
pub use place::Place;
use place::past_long;
pub use standing::{Mark, Standing};
use std::alloc::{AllocError, Global};
use steps::{begin_frame, drop_long, hand_on_frames, hand_on_unframed, read_more, read_on};
use sy_wire::{MAX_FRAME, ReadFault, Source};
use turn::Turn;

// how many bytes are kept that begin no frame, at most
const UNFRAMED: usize = 1024;

/// It wasn't kept, since nothing more is taken.
#[derive(Clone, Copy, Debug, PartialEq, Eq)]
pub struct NotKept;

/// What keeps the frames of one stream that are too long for a framer, and what begins none.
pub trait LongSink {
    // what it has kept, in its order, where that is known
    ghost kept: { Self → Option (List Kept) } = { λ _. None };
    // how often it refused to keep what it was given, where that is known
    ghost refused: { Self → Option ℕ } = { λ _. None };

    /// Keeps the first 65,536 bytes of a frame of that length, however long that takes; or doesn't, where nothing more is taken. It is the frame
    /// of that number of the stream, from 1.
    fn keep_long(&mut self, frame: u64, length: u64, text: &[u8]) -> Result<(), NotKept>
        ensures ok { OnOk result (KeepsMore (kept self.old) (kept self.new) (long frame length text.now ∷ [])) }
        ensures err { OnErr result (kept self.new ≡ kept self.old) }
        ensures no_refusal { OnOk result (refused self.new ≡ refused self.old) }
        ensures refusal { OnErr result (Refuses (refused self.old) (refused self.new)) };

    /// Keeps bytes that stand where the frame of that number should begin, and begin none; at most 1,024 of them.
    fn keep_unframed(&mut self, frame: u64, text: &[u8]) -> Result<(), NotKept>
        ensures ok { OnOk result (KeepsMore (kept self.old) (kept self.new) (unframed frame text.now ∷ [])) }
        ensures err { OnErr result (kept self.new ≡ kept self.old) }
        ensures no_refusal { OnOk result (refused self.new ≡ refused self.old) }
        ensures refusal { OnErr result (Refuses (refused self.old) (refused self.new)) };
}

/// A source of the bytes of another but for the frames that are longer than 65,536 bytes and have at most nine digits: of these the
/// first bytes are kept, and the rest is skipped.
#[derive(Drop)]
pub struct Skipping<S, K> {
    source: S,
    sink: K,
    standing: Standing,
    faults: u64,
    calls: u64,
}

impl<S: Source, K: LongSink> Skipping<S, K> {
    /// The source with nothing read yet, and what keeps what isn't handed on. It takes room for the longest part of a frame that is kept.
    pub fn new(alloc: Global, source: S, sink: K) -> Result<Skipping<S, K>, AllocError>
    where
        S: Drop,
        K: Drop,
        ensures source { IfOk result (λ s. s.source ≡ source) }
        ensures sink { IfOk result (λ s. s.sink ≡ sink) }
        ensures standing { IfOk result (λ s. s.standing ≡ record { place = Within 0; frames = 0; held = [] }) }
        ensures counts { IfOk result (λ s. (s.faults ≡ 0) × (s.calls ≡ 0)) }
    {
        let standing = Standing::new(alloc)?;
        Ok(Skipping::resume(standing, source, sink))
    }

    /// The source from where a stream stands, and what keeps what isn't handed on.
    pub fn resume(standing: Standing, source: S, sink: K) -> Skipping<S, K>
        ensures source { result.source ≡ source }
        ensures sink { result.sink ≡ sink }
        ensures standing { result.standing ≡ standing }
        ensures counts { (result.faults ≡ 0) × (result.calls ≡ 0) }
    {
        Skipping {
            source,
            sink,
            standing,
            faults: 0,
            calls: 0,
        }
    }

    /// Where the stream stands.
    pub fn into_standing(self) -> Standing
    where
        S: Drop,
        K: Drop,
        ensures { result ≡ self.standing }
    {
        let Skipping { standing, .. } = self;
        standing
    }

    /// Whether the next byte of the inner source is one of a long frame, which is skipped: where that source has ended, the frame was cut.
    pub fn is_within_long(&self) -> bool
        ensures { result ≡ is_within_long self.now.standing.place }
    {
        matches!(self.standing.place(), Place::WithinLong(_))
    }

    /// The bytes that came and were neither handed on nor kept nor skipped, 65,546 at most.
    pub fn held(&self) -> &[u8]
        ensures { result.now ≡ self.now.standing.held }
    {
        self.standing.held()
    }

    /// What keeps what isn't handed on.
    pub fn into_sink(self) -> K
    where
        S: Drop,
        ensures { result ≡ self.sink }
    {
        let Skipping { sink, .. } = self;
        sink
    }

    // Keeps the first bytes of a long frame, whose text begins there.
    fn keep_long(&mut self, size: usize, from: usize) -> Turn
        requires place { self.old.standing.place ≡ Within 0 }
        requires long { IsLong size }
        requires head { HasHead self.old.standing.held size from }
        requires all { from + 65536 ≤ length self.old.standing.held }
        ensures turn { (ahead : Option (List ℕ)) (buffer : List ℕ) → TurnIs result self.old.standing self.new.standing ahead ahead
            (K.kept self.old.sink) (K.kept self.new.sink) buffer }
        ensures cause { CauseIs result self.old.standing self.new.standing (S.faults self.old.source) (S.faults self.new.source)
            (S.calls self.old.source) (S.calls self.new.source) (K.refused self.old.sink) (K.refused self.new.sink) }
        ensures source { self.new.source ≡ self.old.source }
    {
        let frame = self.standing.next_number();
        let text = &self.standing.held()[from..from + MAX_FRAME];
        let Ok(()) = self.sink.keep_long(frame, size as u64, text) else {
            return Turn::Fails;
        };
        self.standing.drop_front(from + MAX_FRAME);
        self.standing.set_frames(frame);
        self.standing.set_place(past_long(size - MAX_FRAME));
        Turn::GoesOn
    }

    // Keeps what begins no frame.
    fn keep_unframed(&mut self) -> Turn
        requires place { self.old.standing.place ≡ Within 0 }
        requires front { IsUnframed self.old.standing.held }
        ensures turn { (ahead : Option (List ℕ)) (buffer : List ℕ) → TurnIs result self.old.standing self.new.standing ahead ahead
            (K.kept self.old.sink) (K.kept self.new.sink) buffer }
        ensures cause { CauseIs result self.old.standing self.new.standing (S.faults self.old.source) (S.faults self.new.source)
            (S.calls self.old.source) (S.calls self.new.source) (K.refused self.old.sink) (K.refused self.new.sink) }
        ensures source { self.new.source ≡ self.old.source }
    {
        let frame = self.standing.next_number();
        let held = self.standing.held();
        let text = &held[..held.len().min(UNFRAMED)];
        let Ok(()) = self.sink.keep_unframed(frame, text) else {
            return Turn::Fails;
        };
        self.standing.set_place(Place::Unframed);
        Turn::GoesOn
    }

    // What is held begins a frame, or none.
    fn deal_with_front(&mut self, buffer: &mut [u8]) -> Turn
        requires place { self.old.standing.place ≡ Within 0 }
        requires held { self.old.standing.held ≢ [] }
        requires room { 0 < length buffer.old }
        ensures turn { TurnIs result self.old.standing self.new.standing (S.remaining self.old.source) (S.remaining self.new.source)
            (K.kept self.old.sink) (K.kept self.new.sink) buffer.new }
        ensures cause { CauseIs result self.old.standing self.new.standing (S.faults self.old.source) (S.faults self.new.source)
            (S.calls self.old.source) (S.calls self.new.source) (K.refused self.old.sink) (K.refused self.new.sink) }
    {
        match front_of(self.standing.held()) {
            Front::Frame(size, from) => Turn::Gives(begin_frame(
                &mut self.standing,
                buffer,
                size,
                from,
            )),
            Front::Open => read_more(&mut self.standing, &mut self.source, buffer, 1),
            Front::Long(size, from) => {
                let (len, end) = (self.standing.held().len(), from + MAX_FRAME);
                if len < end {
                    read_more(&mut self.standing, &mut self.source, buffer, end - len)
                } else {
                    self.keep_long(size, from)
                }
            }
            Front::Unframed => self.keep_unframed(),
        }
    }

    // Deals with what is held.
    fn deal_with_held(&mut self, buffer: &mut [u8]) -> Turn
        requires held { self.old.standing.held ≢ [] }
        requires room { 0 < length buffer.old }
        ensures turn { TurnIs result self.old.standing self.new.standing (S.remaining self.old.source) (S.remaining self.new.source)
            (K.kept self.old.sink) (K.kept self.new.sink) buffer.new }
        ensures cause { CauseIs result self.old.standing self.new.standing (S.faults self.old.source) (S.faults self.new.source)
            (S.calls self.old.source) (S.calls self.new.source) (K.refused self.old.sink) (K.refused self.new.sink) }
    {
        match self.standing.place() {
            Place::Within(0) => self.deal_with_front(buffer),
            Place::Within(within) => Turn::Gives(hand_on_frames(
                &mut self.standing,
                buffer,
                within,
            )),
            Place::WithinLong(left) => {
                drop_long(&mut self.standing, left);
                Turn::GoesOn
            }
            Place::Unframed => Turn::Gives(hand_on_unframed(&mut self.standing, buffer)),
        }
    }

    // A turn of a read.
    fn turn(&mut self, buffer: &mut [u8]) -> Turn
        requires room { 0 < length buffer.old }
        ensures turn { TurnIs result self.old.standing self.new.standing (S.remaining self.old.source) (S.remaining self.new.source)
            (K.kept self.old.sink) (K.kept self.new.sink) buffer.new }
        ensures cause { CauseIs result self.old.standing self.new.standing (S.faults self.old.source) (S.faults self.new.source)
            (S.calls self.old.source) (S.calls self.new.source) (K.refused self.old.sink) (K.refused self.new.sink) }
    {
        if !self.standing.held().is_empty() {
            return self.deal_with_held(buffer);
        }
        read_on(&mut self.standing, &mut self.source, buffer)
    }

    // Turns until bytes are handed on, or one fails.
    fn next(&mut self, buffer: &mut [u8]) -> Result<usize, ReadFault>
        requires room { 0 < length buffer.old }
        ensures bound { IfOk result (λ count. count ≤ length buffer.new) }
        ensures ok { IfOk result (λ count. Reads self.old.standing self.new.standing (S.remaining self.old.source) (S.remaining self.new.source)
            (K.kept self.old.sink) (K.kept self.new.sink) (take count buffer.new)) }
        ensures end { IfOk result (λ count. count ≡ 0 → IsAtEnd (S.remaining self.new.source) × (self.new.standing.held ≡ [])) }
        ensures err { OnErr result (SetsAside self.old.standing self.new.standing (S.remaining self.old.source) (S.remaining self.new.source)
            (K.kept self.old.sink) (K.kept self.new.sink)) }
        ensures cause { OnErr result (HasCause self.old.standing (S.faults self.old.source) (S.faults self.new.source)
            (S.calls self.old.source) (S.calls self.new.source) (K.refused self.old.sink) (K.refused self.new.sink)) }
    {
        let mut turns = 0u64;
        while turns < u64::MAX {
            turns += 1;
            match self.turn(buffer) {
                Turn::Gives(count) => return Ok(count),
                Turn::GoesOn => {}
                Turn::Fails => return Err(ReadFault),
            }
        }
        Err(ReadFault)
    }
}

impl<S: Source, K: LongSink> Source for Skipping<S, K> {
    // what is handed on of the bytes that are known is said by `Reads`
    ghost remaining = { λ _. None };

    ghost faults = { λ s. s.faults };

    ghost calls = { λ s. s.calls };

    fn read(&mut self, buffer: &mut [u8]) -> Result<usize, ReadFault>
        ensures bound { IfOk result (λ n. n ≤ length buffer.new) }
        ensures bytes { ReadConsumes None None result buffer.new }
        ensures call { self.new.calls ≡ count_after self.old.calls 1 }
        ensures ok { OnOk result (self.new.faults ≡ self.old.faults) }
        ensures count { self.old.faults ≤ self.new.faults }
        ensures err { OnErr result (Rose self.old.faults self.new.faults) }
        ensures reads { IfOk result (λ count. Reads self.old.standing self.new.standing (S.remaining self.old.source) (S.remaining self.new.source)
            (K.kept self.old.sink) (K.kept self.new.sink) (take count buffer.new)) }
        ensures end { IfOk result (λ count. count ≡ 0 → 0 < length buffer.new →
            IsAtEnd (S.remaining self.new.source) × (self.new.standing.held ≡ [])) }
        ensures fails { OnErr result (SetsAside self.old.standing self.new.standing (S.remaining self.old.source) (S.remaining self.new.source)
            (K.kept self.old.sink) (K.kept self.new.sink)) }
        ensures cause { OnErr result (HasCause self.old.standing (S.faults self.old.source) (S.faults self.new.source)
            (S.calls self.old.source) (S.calls self.new.source) (K.refused self.old.sink) (K.refused self.new.sink)) }
    {
        let calls = self.calls.saturating_add(1);
        let faults = self.faults;
        if buffer.is_empty() {
            self.calls = calls;
            return Ok(0);
        }
        match self.next(buffer) {
            Ok(count) => {
                self.calls = calls;
                self.faults = faults;
                Ok(count)
            }
            Err(ReadFault) => {
                self.calls = calls;
                self.faults = faults.saturating_add(1);
                Err(ReadFault)
            }
        }
    }
}
