//! The kinds of findings.

use crate::code::{Code, Sort};
use sy_site::SiteAction;
use sy_site::finding::Kind;

fn kind(of: Kind, means: &'static str, change: &'static str) -> Code {
    Code {
        sort: Sort::Kind,
        words: of.words(),
        means,
        change,
    }
}

/// What is found in a site, by which protected messages may be lost.
pub(crate) fn finding_codes() -> [Code; 10] {
    [
        kind(
            Kind::NotFull,
            "the input lets messages in while its queue is above the full-delay mark, so they are discarded there",
            "input(.. flowControl=\"full\")",
        ),
        kind(
            Kind::MarkOff,
            "the queue has no full-delay mark, so nothing holds the input before the queue is full",
            "queue.fullDelayMark, below queue.size",
        ),
        kind(
            Kind::MarkAboveSize,
            "the queue's full-delay mark is above its size, so it is never reached",
            "queue.fullDelayMark at most queue.size",
        ),
        kind(
            Kind::Discards,
            "the queue may discard messages of the class, by queue.discardMark and queue.discardSeverity",
            "queue.discardMark=\"0\", or a mark above fullDelayMark and an input that is held there",
        ),
        kind(
            Kind::InnerQueue,
            "messages are posted to a queue that may lose them: who posts doesn't wait there",
            "queue.workerFlow=\"full\" on that queue, with a fullDelayMark",
        ),
        kind(
            Kind::GivesUp,
            "an action gives a message up after some failures",
            "action.resumeRetryCount=\"-1\"",
        ),
        kind(
            Kind::NoTarget,
            "a forward leads to no input of the site",
            "target and port of an input of a relay line, or an outside line",
        ),
        kind(
            Kind::Loop,
            "by forwards a message may come to one relay twice",
            "take one forward of the circle away, or test before it",
        ),
        kind(
            Kind::Unmet(SiteAction {
                relay: 0,
                action: 0,
            }),
            "messages of the class needn't come to an archive that a protect line names for it",
            "take away what tests or stops them on the way, or the protect line",
        ),
        kind(
            Kind::InnerLoop,
            "by posts a message may come to one list of a relay twice",
            "take one call of the circle away",
        ),
    ]
}
