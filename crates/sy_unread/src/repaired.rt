//! What repairs make.
ghost use Rattle.std.specs.Prelude.{◌≡◌, ◌≤◌, ◌++◌, OnOk, length};
ghost use Rattle.sy_wire.specs.Frames.{MAX_FRAME, frame};

use crate::record::append_frame;
use std::alloc::AllocError;
use sy_wire::Message;

/// What a repair changes.
#[derive(Clone, Copy, PartialEq, Eq)]
pub enum Repair {
    /// Nothing: the bytes that are kept are a message.
    Cut,
    /// HOSTNAME, APP-NAME, PROCID or MSGID: cut to its length, other bytes than %d33-126 are `_`.
    Names,
    /// A TIMESTAMP that is none is NILVALUE, and so may names be changed.
    Timestamp,
    /// What stands in the place of STRUCTURED-DATA is text.
    Data,
    /// A head of RFC 3164 is one of RFC 5424, NILVALUE where nothing is known.
    Rfc3164,
    /// All of the bytes are text, behind a head that says nothing but the priority.
    Whole,
}

impl Repair {
    /// What it changes, in words.
    pub fn words(self) -> &'static str {
        match self {
            Repair::Cut => "nothing but the length",
            Repair::Names => "names",
            Repair::Timestamp => "the timestamp",
            Repair::Data => "structured data that is text now",
            Repair::Rfc3164 => "the head of RFC 3164",
            Repair::Whole => "all is text",
        }
    }
}

/// A message that a repair made.
#[derive(Drop)]
pub struct Repaired {
    pub how: Repair,
    pub message: Message,
    /// How many bytes the head of the original has, whose others are the message's text.
    pub head: usize,
    ghost fits: { length message.raw ≤ MAX_FRAME },
}

impl Repaired {
    /// Appends the octet-counted frame of the message.
    pub fn append_frame(&self, out: &mut Vec<u8>) -> Result<(), AllocError>
        ensures { OnOk result (out.new.items ≡ out.old.items ++ frame self.now.message.raw) }
    {
        self.message.is_message();
        append_frame(out, b"", self.message.raw())
    }
}
