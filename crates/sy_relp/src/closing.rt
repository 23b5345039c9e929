//! How a session ends.
ghost use Rattle.std.specs.Prelude.{◌≡◌, ◌⊎◌, ◌<◌, ◌≤◌, true, false, IfOk};
ghost use Rattle.sy_relp.specs.Closings.{IsEnd, close_frame};
ghost use Rattle.sy_relp.specs.Frames.{frame};
ghost use Rattle.sy_relp.specs.internal.Streams.{HearsEnd};

use crate::frame::RelpFrame;
use crate::hear::{hear, next_frame};
use crate::reader::Reader;
use std::alloc::{AllocError, Global};
use sy_wire::Source;

// The bytes of the close of this number.
pub(crate) fn close_text(alloc: Global, txnr: u32) -> Result<String, AllocError>
    ensures { IfOk result (λ text. text.bytes.items ≡ frame (close_frame txnr)) }
{
    format!(in alloc; "{txnr} close 0\n")
}

// Whether the receiver has ended the session with this frame.
fn is_end(answer: &RelpFrame, txnr: u32) -> bool
    ensures yes { result ≡ true → IsEnd txnr answer.now }
    ensures no { result ≡ false → IsEnd txnr answer.now → ⊥ }
{
    match answer.command.as_slice() {
        b"rsp" => answer.txnr == txnr,
        b"serverclose" => true,
        _ => false,
    }
}

// Reads the answers to so many transactions before the close of this number, and then its own: how many came with 200, up to the first
// that didn't, and whether the session has ended behind them all.
pub(crate) fn hear_end<R: Source>(
    reader: &mut R,
    frames: &mut Reader,
    answer: &mut RelpFrame,
    txnr: u32,
    waiting: u32,
) -> (u32, bool)
    requires order { waiting ≤ txnr }
    requires last { txnr ≤ 999999998 }
    ensures { HearsEnd (R.remaining reader.old) (R.remaining reader.new) frames.old.left frames.new.left txnr waiting result.0 result.1 }
{
    let count = hear(reader, frames, answer, txnr - waiting, waiting);
    if count < waiting {
        return (count, false);
    }
    if !next_frame(reader, frames, answer) {
        return (count, false);
    }
    (count, is_end(answer, txnr))
}
