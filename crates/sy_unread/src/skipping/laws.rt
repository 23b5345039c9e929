//! Laws of streams with long frames: each function does nothing, and its contract is the law.
ghost use Rattle.sy_unread.specs.Skipped.{FramesGo, StretchesJoin};

/// Of a whole stream of frames exactly those are handed on that a framer takes, and of each other one exactly the first bytes are kept.
pub fn frames_go()
    ensures { FramesGo }
{}

/// What several reads do is what one stretch of the stream does.
pub fn stretches_join()
    ensures { StretchesJoin }
{}
