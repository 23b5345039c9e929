//! Whether a message is what a repair is to make.
ghost use Rattle.std.specs.Prelude.{◌≡◌, ◌≤◌, ◌+◌, ◌*◌, ◌++◌, ◌↔◌, ℕ, List, [], IfNone, IfSome, IsTrue, length};
ghost use Rattle.sy_wire.specs.Frames.{MAX_FRAME};
ghost use Rattle.sy_wire.specs.Messages.{IsMessage, Said};
ghost use Rattle.sy_unread.specs.Repairs as spec;
ghost use Rattle.sy_unread.specs.declared.repaired.Repair.TheVariants.{Whole};

use crate::repaired::{Repair, Repaired};
use sy_wire::{MAX_FRAME, Message};

// Whether the text is the bytes.
fn same_text(text: &[u8], bytes: &[u8]) -> bool
    ensures { IsTrue result ↔ (text.now ≡ bytes.now) }
{
    text == bytes
}

// The repair that made this message, where its text are the last bytes of the original and its class is this one.
fn placed(how: Repair, class: u8, message: Message, original: &[u8]) -> Option<Repaired>
    requires fits { length message.raw ≤ MAX_FRAME }
    requires class { spec.IsPriorityOf original.now class }
    ensures some { IfSome result (λ repaired. spec.IsRepair original.now repaired) }
    ensures made { IfSome result (λ repaired. (repaired.how ≡ how) × (repaired.message ≡ message)) }
    ensures none { IfNone result ((front : List ℕ) → original.now ≡ front ++ message.msg → (how ≡ Whole → front ≡ [])
        → 8 * message.class.facility + message.class.severity ≡ class → ⊥) }
{
    message.is_message();
    if message.class().number() != class {
        return None;
    }
    let length = message.msg().len();
    if length > original.len() {
        return None;
    }
    let head = original.len() - length;
    let (_, text) = original.split_at(head);
    if how == Repair::Whole && head != 0 {
        return None;
    }
    if same_text(message.msg(), text) {
        Some(Repaired { how, message, head })
    } else {
        None
    }
}

/// The message of these bytes, where they are one that a frame may carry whose text are the last bytes of the original:
/// all of them where all is text. Its class is this one.
pub(crate) fn checked(
    how: Repair,
    class: u8,
    candidate: Vec<u8>,
    original: &[u8],
) -> Option<Repaired>
    requires { spec.IsPriorityOf original.now class }
    ensures some { IfSome result (λ repaired. spec.IsRepair original.now repaired) }
    ensures made { IfSome result (λ repaired. (repaired.how ≡ how) × (repaired.message.raw ≡ candidate.items)) }
    ensures none { IfNone result ((said : Said) (front : List ℕ) → IsMessage said → said.raw ≡ candidate.items
        → length candidate.items ≤ MAX_FRAME → original.now ≡ front ++ said.msg → (how ≡ Whole → front ≡ [])
        → 8 * said.class.facility + said.class.severity ≡ class → ⊥) }
{
    if candidate.len() > MAX_FRAME {
        return None;
    }
    match Message::read(candidate) {
        Ok(message) => placed(how, class, message, original),
        Err(_) => None,
    }
}
