//! Why a connection takes nothing more, and what it then answers.
ghost use Rattle.std.specs.Prelude.{◌≡◌};
ghost use Rattle.sy_runtime.specs.internal.Halting.{halted, halted_at};

use crate::connection::gathering::Gathered;
use crate::connection_end::Finish;
use crate::fault::RunFault;

/// Why a connection takes nothing more, whatever its reader gives.
#[derive(Clone, Copy)]
pub(crate) enum Halt {
    Closed,
    TotalsFull,
    Hands,
    // there was no entry for a message
    NoMemory,
}

/// What a connection answers that was halted.
pub(crate) fn answer_of(halt: Halt) -> Result<Finish, RunFault>
    ensures { result ≡ halted halt }
{
    match halt {
        Halt::Closed => Ok(Finish::Closed),
        Halt::TotalsFull => Err(RunFault::TotalsFull),
        Halt::Hands => Err(RunFault::Hands),
        Halt::NoMemory => Err(RunFault::NoMemory),
    }
}

/// The same, of one whose gathering ended so: closed while it waits for memory it answers that.
pub(crate) fn answer_at(halt: Halt, stop: Gathered) -> Result<Finish, RunFault>
    ensures { result ≡ halted_at halt stop }
{
    match halt {
        Halt::Closed => match stop {
            Gathered::NoMemory => Err(RunFault::NoMemory),
            Gathered::Open | Gathered::Full | Gathered::Fault(_) => Ok(Finish::Closed),
        },
        Halt::TotalsFull | Halt::Hands | Halt::NoMemory => answer_of(halt),
    }
}
