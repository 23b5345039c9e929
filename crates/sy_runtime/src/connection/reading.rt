//! What a connection does once no whole frame is left.
ghost use Rattle.std.specs.Prelude.{◌≡◌, ◌≢◌, ℕ, List, Option, false};
ghost use Rattle.std.specs.Io.KnownBytes.{IsAtEnd};
ghost use Rattle.sy_wire.specs.Frames.{IsOpen};
ghost use Rattle.sy_wire.specs.Streams.{Rose};
ghost use Rattle.sy_runtime.specs.Connections.{Connects, Counts, Kept, Serves};
ghost use Rattle.sy_runtime.specs.internal.Reading.{StepIs};

use crate::connection_end::Finish;
use crate::fault::RunFault;
use sy_wire::{FillFault, FrameFault, Framer, Source};

/// What came of a read.
#[derive(Clone, Copy)]
pub(crate) enum Step {
    Read,
    // its source has ended
    Ends,
    // its source failed, or had nothing yet
    NotRead,
    NoMemory,
}

/// Reads once.
#[tactic(auto, using(crate::proofs::Answering::stepped, crate::proofs::Answering::stepped_end, crate::proofs::Answering::stayed, crate::proofs::Answering::untouched))]
pub(crate) fn read_once<S: Source>(source: &mut S, framer: &mut Framer) -> Step
    requires good { framer.old.has_failed ≡ false }
    ensures kept { (ahead : Option (List ℕ)) (end : Counts) (kept : Kept) →
        Serves ahead (S.remaining source.old) end kept framer.old.left →
        StepIs result ahead (S.remaining source.new) end kept framer.new }
    ensures good { framer.new.has_failed ≡ false }
    ensures same { result ≢ Step.Read → framer.new ≡ framer.old }
    ensures succeeded { result ≢ Step.NotRead → S.faults source.new ≡ S.faults source.old }
    ensures failed { result ≡ Step.NotRead → Rose (S.faults source.old) (S.faults source.new) }
{
    match framer.fill(source) {
        Ok(0) => Step::Ends,
        Ok(_) => Step::Read,
        Err(FillFault::ReadFailed) => Step::NotRead,
        Err(FillFault::NoMemory) => Step::NoMemory,
        Err(FillFault::Failed) => unreachable!(),
    }
}

/// How a connection ends whose source has ended, once no whole frame is left.
#[tactic(auto, using(crate::proofs::Answering::ended, crate::proofs::Answering::truncated))]
pub(crate) fn end_of(framer: &mut Framer) -> Result<Finish, RunFault>
    requires good { framer.old.has_failed ≡ false }
    requires is_open { IsOpen framer.old.left }
    ensures { (ahead ahead' : Option (List ℕ)) (failed failed' : ℕ) (end : Counts) (kept : Kept) →
        Serves ahead ahead' end kept framer.old.left → IsAtEnd ahead' →
        Connects result end kept framer.new.left ahead ahead' failed failed' }
{
    match framer.end() {
        Ok(()) => Ok(Finish::Ended),
        Err(_) => Err(RunFault::Frame(FrameFault::Truncated)),
    }
}
