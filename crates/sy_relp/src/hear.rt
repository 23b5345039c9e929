//! What a sender hears from its receiver.
ghost use Rattle.std.specs.Prelude.{◌≡◌, ◌+◌, ◌<◌, ◌≤◌, ◌∷◌, [], true, false};
ghost use Rattle.sy_relp.specs.Answers.{IsOk};
ghost use Rattle.sy_relp.specs.Exchanges.{Hears, IsAnswer};
ghost use Rattle.sy_relp.specs.internal.Streams.{HearsUpTo};

use crate::frame::RelpFrame;
use crate::reader::Reader;
use sy_wire::Source;

// The length of the code that says that all is well.
const CODE_LEN: usize = 3;

// Whether the content of an answer begins with 200.
fn says_ok(content: &[u8]) -> bool
    ensures { result ≡ true → IsOk content.now }
{
    if content.len() < CODE_LEN {
        return false;
    }
    let (front, _) = content.split_at(CODE_LEN);
    front == b"200".as_slice()
}

// Whether it is the answer to the transaction of this number, and says that all is well.
pub(crate) fn is_answer(answer: &RelpFrame, txnr: u32) -> bool
    ensures { result ≡ true → IsAnswer txnr answer.now }
{
    if answer.txnr != txnr {
        return false;
    }
    match answer.command.as_slice() {
        b"rsp" => says_ok(answer.content.as_slice()),
        _ => false,
    }
}

// Reads until a frame came, or none can any more.
pub(crate) fn next_frame<R: Source>(
    reader: &mut R,
    frames: &mut Reader,
    answer: &mut RelpFrame,
) -> bool
    ensures yes { result ≡ true → Hears (R.remaining reader.old) (R.remaining reader.new) frames.old.left frames.new.left (answer.new ∷ []) }
    ensures no { result ≡ false → Hears (R.remaining reader.old) (R.remaining reader.new) frames.old.left frames.new.left [] }
{
    for _ in 0..u64::MAX {
        match frames.next_into(answer) {
            Ok(true) => return true,
            Ok(false) => {}
            Err(_) => return false,
        }
        match frames.fill(reader) {
            Ok(count) => {
                if count == 0 {
                    return false;
                }
            }
            Err(_) => return false,
        }
    }
    false
}

// Reads the answers to so many transactions, from this number on, in their order: how many came, each with 200, up to the first that
// didn't.
pub(crate) fn hear<R: Source>(
    reader: &mut R,
    frames: &mut Reader,
    answer: &mut RelpFrame,
    first: u32,
    wanted: u32,
) -> u32
    requires { first + wanted ≤ 999999999 }
    ensures { HearsUpTo (R.remaining reader.old) (R.remaining reader.new) frames.old.left frames.new.left first wanted result }
{
    let mut count = 0u32;
    while count < wanted {
        if !next_frame(reader, frames, answer) {
            return count;
        }
        if !is_answer(answer, first + count) {
            return count;
        }
        count += 1;
    }
    count
}
