//! What is said of a finding, and of what is taken for granted.

use crate::rows::What;
use sy_fleet::params::module_of;
use sy_fleet::{Assumption, Flow, Loss, Output};
use sy_fleet_text::words::same_word;

/// The number of the kind, of what the checker knows.
pub(crate) fn kind_of(what: What) -> Option<u64> {
    match what {
        What::NotFull(_) => Some(1),
        What::Discards => Some(4),
        What::ActionQueue | What::RulesetQueue => Some(5),
        What::GivesUp(_, _) => Some(6),
        What::Unmet | What::Unsure => Some(9),
        What::Circle => Some(10),
        What::RateLimit | What::Reduction => None,
    }
}

/// The name of what is found.
pub(crate) fn word_of(what: What) -> &'static [u8] {
    match what {
        What::NotFull(_) => b"NotFull",
        What::Discards => b"Discards",
        What::ActionQueue | What::RulesetQueue => b"InnerQueue",
        What::GivesUp(_, _) => b"GivesUp",
        What::Unmet | What::Unsure => b"Unmet",
        What::Circle => b"InnerLoop",
        What::RateLimit => b"RateLimit",
        What::Reduction => b"Reduction",
    }
}

fn why_given_up(output: Output, loss: Loss) -> &'static [u8] {
    match loss {
        Loss::Datagram =>
            b"a datagram that is lost on its way, or that nobody takes, is never missed",
        Loss::DynamicFile =>
            b"where the file of a name that depends on the message can't be opened, the message is discarded",
        Loss::Asynchronous =>
            b"what is written in the background is discarded where a write fails, and nobody is told",
        Loss::None => match output {
            Output::Unknown =>
                b"what it does isn't known here; where it fails as often as action.resumeRetryCount says, the message is discarded",
            _ =>
                b"where it fails as often as action.resumeRetryCount says (0 where nothing does), the message is discarded",
        },
    }
}

/// Why messages are lost by it.
pub(crate) fn why_of(what: What) -> &'static [u8] {
    match what {
        What::NotFull(Flow::Light) =>
            b"it waits a second above the light-delay mark; where its queue stays full for queue.timeoutEnqueue, messages are discarded",
        What::NotFull(_) =>
            b"it doesn't wait; where its queue stays full for queue.timeoutEnqueue, messages are discarded",
        What::Discards => b"above the discard mark its queue discards messages of this severity",
        What::ActionQueue =>
            b"where the action's own queue stays full for queue.timeoutEnqueue, messages are discarded, however they came in",
        What::RulesetQueue =>
            b"where the ruleset's own queue stays full for queue.timeoutEnqueue, messages that are handed on to it are discarded, however they came in",
        What::GivesUp(output, loss) => why_given_up(output, loss),
        What::Unmet =>
            b"no one file or forward surely gets them: a stop, a test or a selector is before each, or there is none",
        What::Unsure => b"the checker doesn't accept that what comes in here is kept",
        What::Circle => b"rulesets with queues call one another in a circle",
        What::RateLimit => b"what comes faster than its rate limit is discarded",
        What::Reduction =>
            b"of messages that repeat one another only the first is kept, and a count",
    }
}

fn change_of_input(module: &[u8]) -> &'static [u8] {
    if same_word(b"imrelp", module) {
        return b"flowControl=\"full\" at this input";
    }
    b"rsyslogd has nothing that makes this input wait without end; a greater queue.timeoutEnqueue waits longer. imfile waits so, and imrelp with flowControl=\"full\""
}

fn change_of_action(loss: Loss) -> &'static [u8] {
    match loss {
        Loss::Datagram =>
            b"protocol=\"tcp\" with action.resumeRetryCount=\"-1\" (older syntax: @@), or omrelp",
        Loss::DynamicFile => b"a file of one name (file in place of dynaFile)",
        Loss::Asynchronous => b"asyncWriting=\"off\"",
        Loss::None =>
            b"action.resumeRetryCount=\"-1\" there (older syntax: $ActionResumeRetryCount -1 before it)",
    }
}

/// What would mend it.
pub(crate) fn change_of(what: What, subject: &[u8]) -> &'static [u8] {
    match what {
        What::NotFull(_) => change_of_input(module_of(subject)),
        What::Discards => b"queue.discardSeverity=\"8\", by which nothing is discarded",
        What::ActionQueue =>
            b"no queue.type there, so that the queue before it waits; or a greater queue.timeoutEnqueue",
        What::RulesetQueue =>
            b"no queue parameters there, so that its caller waits; or a greater queue.timeoutEnqueue",
        What::GivesUp(_, loss) => change_of_action(loss),
        What::Unmet =>
            b"an action of a file or a forward before each stop and outside each test that may leave these classes out",
        What::Unsure => b"fewer classes at once",
        What::Circle => b"one of those calls less",
        What::RateLimit => b"rateLimit.interval=\"0\" there",
        What::Reduction => b"$RepeatedMsgReduction off",
    }
}

/// What is taken for granted.
pub(crate) fn assumed(assumption: Assumption) -> &'static [u8] {
    match assumption {
        Assumption::Included => b"what other files have, which aren't read here, loses nothing",
        Assumption::Template => b"the template keeps of a message what is to be kept",
        Assumption::Changed => b"the module drops no message, and keeps facility and severity",
        Assumption::Parser => b"the parser reads each message with its facility and severity",
        Assumption::Indirect => b"what is called here loses nothing itself",
        Assumption::FileTakes =>
            b"its folder is there or can be made, and no write to this file fails (rsyslogd discards what a full disk refuses, whatever action.resumeRetryCount is)",
        Assumption::LinkHandsOn =>
            b"the connection hands on what it took, and its receiver keeps that",
        Assumption::Memory => b"rsyslogd doesn't end while its queues in memory have messages",
        Assumption::Disk =>
            b"the disk of this queue has room, and rsyslogd doesn't end while it has messages: at a kill what wasn't written is lost, at TERM a batch may be",
        Assumption::Senders => b"what isn't allowed to send has nothing to keep",
        Assumption::Size => b"no message is longer than this",
        Assumption::Unknown => b"this has no effect on what is kept",
        Assumption::NoInput => b"messages come in as by imuxsock, though no input is in this file",
    }
}
