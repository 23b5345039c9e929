//! Laws of frames, sessions and links: each function does nothing, and its contract is the law.
ghost use Rattle.std.specs.Prelude.{◌≡◌, ◌++◌, List, ℕ};
ghost use Rattle.sy_relp.specs.Faults.{Faulty};
ghost use Rattle.sy_relp.specs.Frames.{Frame, GoesOn, IsDead, IsFrame, NoFrame, frame, stream};
ghost use Rattle.std.specs.List.{AllByRecursion};
ghost use Rattle.sy_relp.specs.Reading.{CuttingIsFree};
ghost use Rattle.sy_relp.specs.declared.fault.FrameFault.{FrameFault};
ghost use Rattle.sy_relp.specs.Senders.{CountedWasTaken};
ghost use Rattle.sy_relp.specs.Links.{AcknowledgedWasTaken, AnsweredWasTaken, LinkIsTrue};

use sy_wire::{Sink, Source};

/// The frame that bytes begin with is one.
pub fn one_front()
    ensures { (f g : Frame) (x y : List ℕ) → IsFrame f → IsFrame g → frame f ++ x ≡ frame g ++ y → (f ≡ g) × (x ≡ y) }
{}

/// The frames of a stream, and what is left of it where no frame stands, are one: so what a reader gives is free of the cutting.
pub fn one_stream()
    ensures { (fs gs : List Frame) (x y : List ℕ) → AllByRecursion IsFrame fs → AllByRecursion IsFrame gs → NoFrame x → NoFrame y
        → stream fs ++ x ≡ stream gs ++ y → (fs ≡ gs) × (x ≡ y) }
{}

/// However a stream is cut into pieces, a reader gives the same frames.
pub fn cutting_is_free()
    ensures { CuttingIsFree }
{}

/// Bytes that go on to a frame begin with none yet. Bytes that a fault is told of begin with none, however they go on.
pub fn faults_are_for_good()
    ensures waits { (bytes : List ℕ) → GoesOn bytes → NoFrame bytes }
    ensures fails { (fault : FrameFault) (bytes : List ℕ) → Faulty fault bytes → IsDead bytes }
{}

/// Whatever a session has answered to a message, it had been taken and acknowledged by then.
pub fn answered_was_taken()
    ensures answered { AnsweredWasTaken }
    ensures acknowledged { AcknowledgedWasTaken }
{}

/// What a sender counts as taken, the receiver took and acknowledged, whatever bytes of one party reached the other.
pub fn link_is_true()
    ensures { LinkIsTrue }
{}

/// Each message that a sender counts as taken, its receiver took, and acknowledged.
pub fn counted_was_taken<R: Source, W: Sink>()
    ensures { CountedWasTaken R.remaining W.contents }
{}
