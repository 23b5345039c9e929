//! Repairs of frames that carry no message.
ghost use Rattle.std.specs.Prelude.{◌≡◌, ◌<◌, ◌++◌, Decides, IfNone, IfOk, IfSome, OnOk, codes, drop, false, length, take, true};
ghost use Rattle.sy_unread.specs.Repairs as spec;
ghost use Rattle.sy_unread.specs.Hints.{hint_of, pri_length};
ghost use Rattle.sy_unread.specs.declared.repaired.Repair.TheVariants.{Cut, Rfc3164};
ghost use Rattle.sy_unread.specs.internal.{IsTextDraft, IsTimed, anew_text, fields_of, whole_text};
ghost use Rattle.sy_unread.specs.Records.{nil_value};
ghost use Rattle.sy_unread.specs.Words.{IsWord};
ghost use Rattle.sy_wire.specs.Frames.{MAX_FRAME};
ghost use Rattle.sy_wire.specs.Timestamps.{IsTimestamp};

mod judged;

use crate::heads::{Head, from, head_3164, head_5424};
use crate::hint::{Hint, pri_length};
use crate::names::{append_name, front};
use crate::parts::{append_escaped, append_number};
use crate::repair::judged::checked;
use crate::repaired::{Repair, Repaired};
use std::alloc::{AllocError, Global};
use sy_wire::Message;

// What is written of a frame: its head, and what is after it.
#[derive(Clone, Copy)]
struct Draft<'a> {
    how: Repair,
    head: Head<'a>,
    // Whether what is after the head is text, and no structured data.
    is_text: bool,
    rest: &'a [u8],
}

// Whether a field is a TIMESTAMP of RFC 5424.
fn is_timestamp(alloc: Global, field: &[u8]) -> Result<bool, AllocError>
    ensures yes { IfOk result (λ is. is ≡ true → IsWord field.now → IsTimestamp field.now) }
    ensures no { IfOk result (λ is. is ≡ false → IsTimestamp field.now → ⊥) }
{
    let mut text = Vec::new(alloc);
    text.extend_from_slice(b"<13>1 ")?;
    text.extend_from_slice(field)?;
    text.extend_from_slice(b" - - - - -")?;
    match Message::read(text) {
        Ok(message) => Ok(message.msg().is_empty()),
        Err(_) => Ok(false),
    }
}

// Appends a name and the space after it.
fn append_field(text: &mut Vec<u8>, name: &[u8], most: usize) -> Result<(), AllocError>
    ensures { OnOk result (text.new.items ≡ (text.old.items ++ spec.name_of most name.now) ++ codes " ") }
{
    append_name(text, name, most)?;
    text.extend_from_slice(b" ")
}

// Appends a head, each field cut to its length.
fn append_head(text: &mut Vec<u8>, head: &Head<'_>) -> Result<(), AllocError>
    ensures { OnOk result (text.new.items ≡ text.old.items ++ spec.head_text (spec.fitted (fields_of head.now))) }
{
    text.extend_from_slice(head.pri)?;
    text.extend_from_slice(b"1 ")?;
    text.extend_from_slice(head.timestamp)?;
    text.extend_from_slice(b" ")?;
    append_field(text, head.hostname, 255)?;
    append_field(text, head.app_name, 48)?;
    append_field(text, head.procid, 128)?;
    append_field(text, head.msgid, 32)?;
    Ok(())
}

// Appends an element that has the original.
fn append_original(text: &mut Vec<u8>, original: &[u8]) -> Result<(), AllocError> {
    text.extend_from_slice(b"[unread@32473 original=\"")?;
    append_escaped(text, original)?;
    text.extend_from_slice(b"\"]")
}

// A head that is written anew.
fn headed(alloc: Global, head: &Head<'_>) -> Result<Vec<u8>, AllocError>
    ensures { IfOk result (λ text. text.items ≡ spec.head_text (spec.fitted (fields_of head.now))) }
{
    let mut text = Vec::new(alloc);
    append_head(&mut text, head)?;
    Ok(text)
}

// What is between the head of a draft and its rest.
fn between(draft: &Draft<'_>) -> &'static [u8]
    ensures { draft.now.is_text ≡ true → result.now ≡ codes "- " }
{
    if draft.is_text { b"- " } else { b"" }
}

// A draft without the original of its head.
fn plain(alloc: Global, draft: &Draft<'_>) -> Result<Vec<u8>, AllocError>
    ensures text { IfOk result (λ text. draft.now.is_text ≡ true → text.items ≡ anew_text draft.now) }
    ensures head { IfOk result (λ text. spec.BeginsWith (spec.head_text (spec.fitted (fields_of draft.now.head))) text.items) }
{
    let mut text = headed(alloc, &draft.head)?;
    text.extend_from_slice(between(draft))?;
    text.extend_from_slice(draft.rest)?;
    Ok(text)
}

// What is after the original of the head of a draft.
fn behind<'a>(draft: &Draft<'a>) -> &'a [u8] {
    if draft.is_text {
        draft.rest
    } else {
        draft.rest.strip_prefix(b"-").unwrap_or(draft.rest)
    }
}

// A draft with the original of its head.
fn full(alloc: Global, draft: &Draft<'_>, original: &[u8]) -> Result<Vec<u8>, AllocError>
    ensures { IfOk result (λ text. spec.BeginsWith (spec.head_text (spec.fitted (fields_of draft.now.head))) text.items) }
{
    let mut text = headed(alloc, &draft.head)?;
    let mut after = Vec::new(alloc);
    append_original(&mut after, original)?;
    text.extend_from_slice(&after)?;
    text.extend_from_slice(if draft.is_text { b" " } else { b"" })?;
    text.extend_from_slice(behind(draft))?;
    Ok(text)
}

// A message that has the priority at the front, and nothing else, where there is one.
fn pri_text(alloc: Global, bytes: &[u8]) -> Result<Vec<u8>, AllocError>
    ensures { IfOk result (λ text. text.items ≡ take (pri_length bytes.now) bytes.now ++ codes "1 - - - - - -") }
{
    let mut text = Vec::new(alloc);
    text.extend_from_slice(front(bytes, pri_length(bytes)))?;
    text.extend_from_slice(b"1 - - - - - -")?;
    Ok(text)
}

// The number of a priority that is read at the front, else 13 (RFC 3164, section 4.3.3).
fn pri_number(alloc: Global, bytes: &[u8]) -> Result<u8, AllocError>
    ensures low { IfOk result (λ n. n < 192) }
    ensures class { IfOk result (λ n. spec.IsPriorityOf bytes.now n) }
{
    match Message::read(pri_text(alloc, bytes)?) {
        Ok(message) => Ok(message.class().number()),
        Err(_) => Ok(13),
    }
}

// The message of a draft: with the original of its head where a frame has room for it.
fn drafted(alloc: Global, draft: &Draft<'_>, bytes: &[u8]) -> Result<Option<Repaired>, AllocError>
    ensures none { IfOk result (λ made. IfNone made (IsTextDraft draft.now bytes.now → MAX_FRAME < length (anew_text draft.now))) }
    ensures repair { IfOk result (λ made. IfSome made (λ repaired. spec.IsRepair bytes.now repaired)) }
    ensures head { IfOk result (λ made. IfSome made (λ repaired. spec.BeginsWith (spec.head_text (spec.fitted (fields_of draft.now.head))) repaired.message.raw)) }
{
    let class = pri_number(alloc, bytes)?;
    let Some(made) = checked(draft.how, class, plain(alloc, draft)?, bytes) else {
        return Ok(None);
    };
    let original = &bytes[..made.head.min(bytes.len())];
    match checked(draft.how, class, full(alloc, draft, original)?, bytes) {
        Some(more) => Ok(Some(more)),
        None => Ok(Some(made)),
    }
}

/// The bytes themselves, where they are a message: of a longer frame they are what is kept.
pub fn cut(alloc: Global, bytes: &[u8]) -> Result<Option<Repaired>, AllocError>
    ensures some { IfOk result (λ made. IfSome made (λ repaired. spec.IsRepair bytes.now repaired)) }
    ensures same { IfOk result (λ made. IfSome made (λ repaired. (repaired.how ≡ Cut) × (repaired.message.raw ≡ bytes.now))) }
    ensures none { IfOk result (λ made. IfNone made (spec.IsUncut bytes.now)) }
{
    let class = pri_number(alloc, bytes)?;
    let mut text = Vec::new(alloc);
    text.extend_from_slice(bytes)?;
    Ok(checked(Repair::Cut, class, text, bytes))
}

// The head with NILVALUE for a TIMESTAMP that is none, and what is changed then.
fn with_time<'a>(alloc: Global, head: Head<'a>) -> Result<(Repair, Head<'a>), AllocError>
    ensures head { IfOk result (λ r. IsTimed (fields_of head.entry) (fields_of r.1)) }
    ensures time { IfOk result (λ r. IsWord head.entry.timestamp.now → spec.IsTimeAnew head.entry.timestamp.now r.1.timestamp.now) }
    ensures end { IfOk result (λ r. r.1.end ≡ head.entry.end) }
{
    if is_timestamp(alloc, head.timestamp)? {
        return Ok((Repair::Names, head));
    }
    Ok((
        Repair::Timestamp,
        Head {
            timestamp: b"-",
            ..head
        },
    ))
}

/// A head of RFC 5424 with names that fit their fields, and NILVALUE for a TIMESTAMP that is none. Where what is after
/// it is no structured data it becomes text. None where there is no such head, or a frame can't carry it with that text.
pub fn fields(alloc: Global, bytes: &[u8]) -> Result<Option<Repaired>, AllocError>
    ensures repair { IfOk result (λ made. IfSome made (λ repaired. spec.IsRepair bytes.now repaired)) }
    ensures head { IfOk result (λ made. IfSome made (λ repaired. spec.IsHeadAnew bytes.now repaired.message.raw)) }
    ensures none { IfOk result (λ made. IfNone made (spec.IsTooLongAnew bytes.now)) }
{
    let Some(came) = head_5424(bytes) else {
        return Ok(None);
    };
    let (how, head) = with_time(alloc, came)?;
    let rest = from(bytes, head.end);
    let draft = Draft {
        how,
        head,
        is_text: false,
        rest,
    };
    match drafted(alloc, &draft, bytes)? {
        Some(made) => return Ok(Some(made)),
        None => {}
    }
    let as_text = Draft {
        how: Repair::Data,
        head,
        is_text: true,
        rest,
    };
    match drafted(alloc, &as_text, bytes)? {
        Some(made) => Ok(Some(made)),
        None => Ok(None),
    }
}

// The draft of a head of RFC 3164 and of what is after it.
fn anew<'a>(head: Head<'a>, bytes: &'a [u8]) -> Draft<'a>
    ensures head { result.head ≡ head.entry }
    ensures rest { result.rest.now ≡ drop head.entry.end bytes.now }
    ensures text { (result.is_text ≡ true) × (result.how ≡ Rfc3164) }
{
    Draft {
        how: Repair::Rfc3164,
        head,
        is_text: true,
        rest: from(bytes, head.end),
    }
}

// The same without a TIMESTAMP.
fn untimed<'a>(head: Head<'a>, bytes: &'a [u8]) -> Draft<'a>
    ensures time { result.head.timestamp.now ≡ nil_value }
    ensures head { IsTimed (fields_of head.entry) (fields_of result.head) }
    ensures rest { result.rest.now ≡ drop head.entry.end bytes.now }
    ensures text { (result.is_text ≡ true) × (result.how ≡ Rfc3164) }
{
    anew(
        Head {
            timestamp: b"-",
            ..head
        },
        bytes,
    )
}

/// A head of RFC 3164 as one of RFC 5424: NILVALUE where nothing is known. None where there is no such head, or more than
/// 65,521 bytes.
pub fn rfc_3164(alloc: Global, bytes: &[u8]) -> Result<Option<Repaired>, AllocError>
    ensures some { IfOk result (λ made. IfSome made (λ repaired. spec.IsRepair bytes.now repaired)) }
    ensures none { IfOk result (λ made. IfNone made (spec.IsHead3164 bytes.now → spec.MOST_3164 < length bytes.now)) }
{
    let Some(head) = head_3164(bytes) else {
        return Ok(None);
    };
    match drafted(alloc, &anew(head, bytes), bytes)? {
        Some(made) => return Ok(Some(made)),
        None => {}
    }
    drafted(alloc, &untimed(head, bytes), bytes)
}

// All of the bytes as text behind a priority.
fn whole_text(alloc: Global, number: u8, bytes: &[u8]) -> Result<Vec<u8>, AllocError>
    ensures { IfOk result (λ text. text.items ≡ whole_text number bytes.now) }
{
    let mut text = Vec::new(alloc);
    text.extend_from_slice(b"<")?;
    append_number(&mut text, u64::from(number))?;
    text.extend_from_slice(b">1 - - - - - - ")?;
    text.extend_from_slice(bytes)?;
    Ok(text)
}

/// All of the bytes as text, with their priority or, where they have none, `<13>` (RFC 3164, section 4.3.3): none for more
/// than 65,517 bytes.
pub fn whole(alloc: Global, bytes: &[u8]) -> Result<Option<Repaired>, AllocError>
    ensures some { IfOk result (λ made. IfSome made (λ repaired. spec.IsRepair bytes.now repaired)) }
    ensures none { IfOk result (λ made. IfNone made (spec.MOST_TEXT < length bytes.now)) }
{
    let number = pri_number(alloc, bytes)?;
    let text = whole_text(alloc, number, bytes)?;
    Ok(checked(Repair::Whole, number, text, bytes))
}

// Whether no sender of syslog begins so.
fn is_foreign(hint: Hint) -> bool
    ensures { Decides result (spec.IsForeign hint) }
{
    match hint {
        Hint::Tls | Hint::Http => true,
        _ => false,
    }
}

/// The first of these repairs that makes a message, and none for what begins like TLS or HTTP, and for more than 65,517
/// bytes where none but the last would make one.
pub fn repair(alloc: Global, bytes: &[u8]) -> Result<Option<Repaired>, AllocError>
    ensures none { IfOk result (λ made. IfNone made (spec.IsBeyondRepair bytes.now)) }
    ensures some { IfOk result (λ made. IfSome made (λ repaired. spec.IsRepair bytes.now repaired)) }
    ensures hint { IfOk result (λ made. IfSome made (λ repaired. spec.IsForeign (hint_of bytes.now) → ⊥)) }
{
    if is_foreign(Hint::of(bytes)) {
        return Ok(None);
    }
    match cut(alloc, bytes)? {
        Some(made) => return Ok(Some(made)),
        None => {}
    }
    match fields(alloc, bytes)? {
        Some(made) => return Ok(Some(made)),
        None => {}
    }
    match rfc_3164(alloc, bytes)? {
        Some(made) => return Ok(Some(made)),
        None => {}
    }
    whole(alloc, bytes)
}
