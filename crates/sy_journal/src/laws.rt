//! What holds of a journal over its whole life.
ghost use Rattle.sy_journal.specs.Bridge.{AppendsAsInLife, FinishesAsInLife, FadesAsInLife, FinishesInOne, HasItsOwn};
ghost use Rattle.sy_journal.specs.Segment.{FinishesMayFade};
ghost use Rattle.sy_journal.specs.Life.{LosesNothing};

/// Whatever is appended, finished and removed, and whenever it crashes: what a recovery gives has each entry whose
/// append was answered and that isn't finished, in order, and none that wasn't appended.
pub fn nothing_is_lost()
    ensures { LosesNothing }
{}

/// What the calls of a log and of its finishes do to their files is what the steps of a life do.
pub fn calls_are_steps()
    ensures appends { AppendsAsInLife }
    ensures finishes { FinishesAsInLife }
    ensures fades { FadesAsInLife }
    ensures pair { FinishesMayFade }
    ensures own { HasItsOwn }
    ensures one { FinishesInOne }
{}
