//! The warnings.

use crate::code::{Code, Sort};
use sy_warnings::warnings::Caution;

fn warning(of: Caution, means: &'static str, change: &'static str) -> Code {
    Code {
        sort: Sort::Warning,
        words: of.name(),
        means,
        change,
    }
}

/// What is lawful in a site and unwise.
pub(crate) fn warning_codes() -> [Code; 20] {
    [
        warning(
            Caution::NoEffect,
            "a parameter is given that has no effect there",
            "take it away, or give the object what it is of, such as a queue",
        ),
        warning(
            Caution::UncalledRuleset,
            "no input and no call names a ruleset",
            "name it, or take it away",
        ),
        warning(
            Caution::UnreachedAction,
            "no message reaches an action",
            "look at the tests and stops before it",
        ),
        warning(
            Caution::UnreachedRelay,
            "no message of an entry reaches a relay",
            "forward to it, give it an entry line, or take its line away",
        ),
        warning(
            Caution::OutsideInput,
            "an input that no entry leads to feeds a queue that protected messages wait in, and may fill it",
            "give it a ruleset with a queue, or an entry line",
        ),
        warning(
            Caution::MarkAboveSize,
            "a mark of a queue is above its size, so it is never reached",
            "a mark at most queue.size",
        ),
        warning(
            Caution::AfterStop,
            "an action or a call is after a stop, so nothing comes to it",
            "take the stop away, or what is after it",
        ),
        warning(
            Caution::SameFile,
            "two archives of one relay are one file, or an archive and a file of unread frames are",
            "give one of them another file",
        ),
        warning(
            Caution::OddFile,
            "the file of an archive has an empty name, one that begins or ends with a blank, or that of a folder",
            "give it the name of a file",
        ),
        warning(
            Caution::NotKept,
            "the file of an archive is in /dev/, where nothing is kept",
            "give it another file; where that is meant and no protect line names the action, fileType=\"any\"",
        ),
        warning(
            Caution::SameEndpoint,
            "an input can be reached where an input of an earlier relay can, so a sender may come to the wrong one",
            "give one of them another port, or its relay line an address",
        ),
        warning(
            Caution::OwnEndpoint,
            "a forward leads to an input of its own relay, though the site has it lead elsewhere",
            "give the other relay's line its address",
        ),
        warning(
            Caution::NoEndpoint,
            "a forward connects to an address that is no host's",
            "give the relay's line the address where others reach it",
        ),
        warning(
            Caution::NobodyThere,
            "a forward leads to an address where no relay or outside line is",
            "correct target and port, or write an outside line",
        ),
        warning(
            Caution::BlindTunnel,
            "a link goes through a tunnel, which takes messages that the relay behind it may never get, and each of them is done",
            "stop the sending relay before the tunnel and the relay behind it, start it after them, and compare its done with what that relay has taken",
        ),
        warning(
            Caution::AuditFacility,
            "auth is protected, and facility 13, the log audit of RFC 5424, isn't",
            "protect *.*, which has it too",
        ),
        warning(
            Caution::SharedWorker,
            "an action that may wait without end has one worker with what protected messages need, and they don't need it",
            "give it a queue of its own, and a spare line",
        ),
        warning(
            Caution::Bottleneck,
            "a spare action without a queue of its own is before what protected messages need",
            "give it a queue of its own",
        ),
        warning(
            Caution::Jam,
            "queues may wait for each other in a circle, by posts into queues with queue.workerFlow=\"full\" and by forwards, so that nothing there moves any more",
            "leave one of these calls or forwards out, or let posts into one of the queues not wait",
        ),
        warning(
            Caution::Round,
            "a message may go round from list to list without end, by calls and forwards",
            "leave one of these calls or forwards out for the classes that go round",
        ),
    ]
}
