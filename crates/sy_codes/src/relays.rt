//! Faults of relays that run.

use crate::code::{Code, fault};
use sy_actions::DeviceFault;
use sy_board::BoardFault;
use sy_runtime::RunFault;
use sy_wire::FrameFault;

// What no relay reports.
const INSIDE: &str =
    "a step was asked for that the relay's state doesn't have; no relay that runs reports it";

const NOTHING: &str = "report it, with what the relay was doing";

/// The faults of connections, of the relay's state and of what it writes to.
pub(crate) fn relay_codes() -> [Code; 17] {
    [
        fault(
            RunFault::Read.words(),
            "a read of a connection failed: its peer reset it, or is gone",
            "nothing, where the sender sends what is lacking again; its own log says whether it does",
        ),
        fault(
            RunFault::Bind.words(),
            "a port can't be listened at: another program has it, the address isn't one of this host, or it needs root",
            "end the other program, or give the input another port",
        ),
        fault(
            RunFault::Hands.words(),
            "no hand of an input was free for a connection",
            "nothing: who reads connections asks again",
        ),
        fault(
            RunFault::NoMemory.words(),
            "a relay had no memory, as it started or until it stopped",
            "give it more memory, or its queues a smaller size",
        ),
        fault(
            RunFault::Frame(FrameFault::BadLength).words(),
            "a connection goes on with no frame; the number after it says why, as 11 BadLength",
            "mend what that number says",
        ),
        fault(
            RunFault::TotalsFull.words(),
            "a total would pass 18446744073709551615",
            "start the relay again",
        ),
        fault(BoardFault::HandTaken.words(), INSIDE, NOTHING),
        fault(BoardFault::HandEmpty.words(), INSIDE, NOTHING),
        fault(BoardFault::SlotBusy.words(), INSIDE, NOTHING),
        fault(BoardFault::NoJob.words(), INSIDE, NOTHING),
        fault(BoardFault::WrongReceipt.words(), INSIDE, NOTHING),
        fault(BoardFault::TotalsFull.words(), INSIDE, NOTHING),
        fault(BoardFault::NotExpired.words(), INSIDE, NOTHING),
        fault(
            DeviceFault::Write.words(),
            "a write to a file or a connection failed: a full disk, a limit, a peer that is gone",
            "free what is full, or start the peer; the message waits where action.resumeRetryCount is -1",
        ),
        fault(
            DeviceFault::Broken.words(),
            "an earlier write failed, and what it was to isn't there again yet",
            "see the fault before it; it is tried again after action.resumeInterval",
        ),
        fault(
            DeviceFault::NoMemory.words(),
            "there was no memory to write a message",
            "give the relay more memory, or its queues a smaller size",
        ),
        fault(
            DeviceFault::CountFull.words(),
            "so many messages were written that they can't be counted any more",
            "start the relay again",
        ),
    ]
}
