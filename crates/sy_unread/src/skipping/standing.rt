//! Where in a stream its next byte stands, and bytes that came and wait.
ghost use Rattle.std.specs.Prelude.{◌≡◌, ◌≢◌, ◌+◌, ◌≤◌, ◌++◌, ℕ, [], drop, length, min, take, IfNone, IfOk, IfSome};
ghost use Rattle.std.specs.Vec.{vec_capacity};
ghost use Rattle.sy_unread.specs.Skipping.{At, next_number};
ghost use Rattle.sy_unread.specs.declared.skipping.place.Place.TheVariants.{Within};

use super::place::Place;
use std::alloc::{AllocError, Global};
use std::marker::Model;
use sy_wire::MAX_FRAME;

// The longest head of a long frame, and as much of its text as is kept.
pub(crate) const ROOM: usize = MAX_FRAME + 10;

/// Where in a stream its next byte stands, where none waits: the place, and how many frames have begun before it, of whatever length.
#[derive(Clone, Copy)]
pub struct Mark {
    pub place: Place,
    pub frames: u64,
}

/// Where in a stream its next byte stands, and bytes that came and wait, 65,546 at most, for which it has room.
#[derive(Drop)]
pub struct Standing {
    place: Place,
    bytes: Vec<u8>,
    // how many frames have begun before it, of whatever length
    frames: u64,
}

impl Model for Standing {
    ghost use Rattle.std.specs.Prelude.{◌≤◌};
    ghost use Rattle.std.specs.Vec.{vec_capacity};
    ghost use Rattle.sy_unread.specs.Skipping.{At};

    ghost Value = { At };

    ghost view = { λ s. record { place = s.place; frames = s.frames; held = s.bytes.items } };

    ghost invariant = { λ s. 65546 ≤ vec_capacity s.bytes };
}

// Takes the first bytes away.
fn drop_front(bytes: &mut Vec<u8>, count: usize)
    requires { count ≤ length bytes.old.items }
    ensures items { bytes.new.items ≡ drop count bytes.old.items }
    ensures capacity { vec_capacity bytes.new ≡ vec_capacity bytes.old }
{
    bytes.drain(..count);
}

// Copies the first bytes, at most so many, and answers how many.
fn copy_front(bytes: &[u8], buffer: &mut [u8], most: usize) -> usize
    ensures count { result ≡ min most (min (length bytes.now) (length buffer.old)) }
    ensures copied { take result buffer.new ≡ take result bytes.now }
{
    let count = most.min(bytes.len().min(buffer.len()));
    let (front, _) = buffer.split_at_mut(count);
    front.copy_from_slice(&bytes[..count]);
    count
}

impl Mark {
    /// The beginning of a stream.
    pub fn first() -> Mark
        ensures { result ≡ record { place = Within 0; frames = 0 } }
    {
        Mark {
            place: Place::Within(0),
            frames: 0,
        }
    }
}

impl Standing {
    /// The beginning of a stream.
    pub fn new(alloc: Global) -> Result<Standing, AllocError>
        ensures { IfOk result (λ s. s ≡ record { place = Within 0; frames = 0; held = [] }) }
    {
        let bytes = Vec::with_capacity(alloc, ROOM)?;
        Ok(Standing {
            place: Place::Within(0),
            bytes,
            frames: 0,
        })
    }

    /// Where it stands, if no byte waits.
    pub fn mark(&self) -> Option<Mark>
        ensures some { IfSome result (λ mark. self.now ≡ record { place = mark.place; frames = mark.frames; held = [] }) }
        ensures none { IfNone result (self.now.held ≢ []) }
    {
        if self.bytes.is_empty() {
            let (place, frames) = (self.place, self.frames);
            return Some(Mark { place, frames });
        }
        None
    }

    /// Goes there, with no byte that waits.
    pub fn set_mark(&mut self, mark: Mark)
        ensures { self.new ≡ record { place = mark.place; frames = mark.frames; held = [] } }
    {
        self.place = mark.place;
        self.frames = mark.frames;
        self.bytes.clear();
    }

    pub(crate) fn place(&self) -> Place
        ensures { result ≡ self.now.place }
    {
        self.place
    }

    /// The bytes that came and wait.
    pub fn held(&self) -> &[u8]
        ensures { result.now ≡ self.now.held }
    {
        self.bytes.as_slice()
    }

    // How many frames have begun before its next byte.
    pub(crate) fn frames(&self) -> u64
        ensures { result ≡ self.now.frames }
    {
        self.frames
    }

    // The number of the frame that begins next.
    pub(crate) fn next_number(&self) -> u64
        ensures { result ≡ next_number self.now.frames }
    {
        self.frames.saturating_add(1)
    }

    // So many frames have begun.
    pub(crate) fn set_frames(&mut self, frames: u64)
        ensures { self.new ≡ record self.old { frames = frames } }
    {
        self.frames = frames;
    }

    pub(crate) fn set_place(&mut self, place: Place)
        ensures { self.new ≡ record self.old { place = place } }
    {
        self.place = place;
    }

    // Holds these bytes as well.
    pub(crate) fn append(&mut self, bytes: &[u8])
        requires { length self.old.held + length bytes.now ≤ 65546 }
        ensures { self.new ≡ record self.old { held = self.old.held ++ bytes.now } }
    {
        if self.bytes.extend_from_slice(bytes).is_err() {
            unreachable!();
        }
    }

    // Lets go of the first bytes.
    pub(crate) fn drop_front(&mut self, count: usize)
        requires { count ≤ length self.old.held }
        ensures { self.new ≡ record self.old { held = drop count self.old.held } }
    {
        drop_front(&mut self.bytes, count);
    }

    // Hands on the first bytes, at most so many, and answers how many.
    pub(crate) fn hand_on(&mut self, buffer: &mut [u8], most: usize) -> usize
        ensures count { result ≡ min most (min (length self.old.held) (length buffer.old)) }
        ensures whole { self.old.held ≡ take result buffer.new ++ self.new.held }
        ensures place { self.new.place ≡ self.old.place }
        ensures frames { self.new.frames ≡ self.old.frames }
    {
        let count = copy_front(self.bytes.as_slice(), buffer, most);
        drop_front(&mut self.bytes, count);
        count
    }
}
