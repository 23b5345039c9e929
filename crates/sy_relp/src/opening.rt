//! How a session begins.
ghost use Rattle.std.specs.Prelude.{◌≡◌, ◌∷◌, [], OnOk};
ghost use Rattle.std.specs.Io.KnownBytes.{Appends};
ghost use Rattle.sy_relp.specs.Frames.{frame};
ghost use Rattle.sy_relp.specs.Exchanges.{Hears, IsAnswer, open_frame};

use crate::fault::SendFault;
use crate::frame::RelpFrame;
use crate::hear::{is_answer, next_frame};
use crate::reader::Reader;
use crate::write::write_all;
use sy_wire::{Sink, Source};

// Writes the open, and reads its answer, which must begin with 200.
pub(crate) fn open_session<R: Source, W: Sink>(
    reader: &mut R,
    writer: &mut W,
    frames: &mut Reader,
    answer: &mut RelpFrame,
) -> Result<(), SendFault>
    ensures wrote { OnOk result (Appends (W.contents writer.old) (W.contents writer.new) (frame open_frame)) }
    ensures heard { OnOk result (Hears (R.remaining reader.old) (R.remaining reader.new) frames.old.left frames.new.left (answer.new ∷ [])) }
    ensures answered { OnOk result (IsAnswer 1 answer.new) }
{
    let text = b"1 open 48 relp_version=0\nrelp_software=syc\ncommands=syslog\n";
    let Ok(()) = write_all(writer, text.as_slice()) else {
        return Err(SendFault::WriteFailed);
    };
    let Ok(()) = writer.flush() else {
        return Err(SendFault::WriteFailed);
    };
    if !next_frame(reader, frames, answer) {
        return Err(SendFault::Unanswered);
    }
    if !is_answer(answer, 1) {
        return Err(SendFault::Unanswered);
    }
    Ok(())
}
