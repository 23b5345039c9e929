//! What is noted of an input's connections: how they ended, and which send what is no message.

ghost use Rattle.std.specs.Prelude.{◌≡◌};
ghost use Rattle.sy_log.specs.Ports as spec;

use crate::unreported::Unreported;
use std::alloc::{AllocError, Global};
use std::net::SocketAddr;
use sy_runtime::RunFault;
use sy_unread::Unframed;
use sy_wire::{FrameFault, MsgFault};

/// How a connection ended: with frames that carried no message, of which this was the first, or with a fault, or both.
#[derive(Clone, Copy)]
pub struct PeerEnd {
    pub peer: SocketAddr,
    pub unread: u64,
    pub first: Option<FirstUnread>,
    pub fault: Option<RunFault>,
}

/// What a connection sends that is no message.
#[derive(Clone, Copy)]
pub enum NoMessage {
    /// A frame whose text is none.
    Text(MsgFault),
    /// A frame that is too long.
    Long,
    /// What begins no frame.
    Unframed(Unframed),
}

impl NoMessage {
    /// The number and the name of its fault, as `5 AppName`.
    pub fn words(self) -> &'static str
        ensures { result.now ≡ spec.no_message_words self }
    {
        match self {
            NoMessage::Text(fault) => fault.code.words(),
            NoMessage::Long => FrameFault::TooLong.words(),
            NoMessage::Unframed(bytes) => bytes.fault.words(),
        }
    }

    /// What its bytes begin like, where that is told; nothing where it isn't.
    pub fn hint(self) -> &'static str {
        match self {
            NoMessage::Unframed(bytes) => bytes.hint.words(),
            NoMessage::Text(_) | NoMessage::Long => "",
        }
    }

    /// Where that is shown, in bytes from the first.
    pub fn offset(self) -> u64
        ensures { result ≡ spec.no_message_offset self }
    {
        match self {
            NoMessage::Text(fault) => fault.offset as u64,
            NoMessage::Long => 0,
            NoMessage::Unframed(bytes) => bytes.at as u64,
        }
    }
}

/// What a connection sent first that is no message, and in which of its frames, from 1.
#[derive(Clone, Copy)]
pub struct FirstUnread {
    pub what: NoMessage,
    pub frame: u64,
}

/// A connection that begins to send what is no message.
#[derive(Clone, Copy)]
pub struct Sending {
    pub peer: SocketAddr,
    pub first: FirstUnread,
}

/// How the first of the connections ended that ended so and weren't told yet, and how many others there are; and with what
/// connections ended.
#[derive(Drop)]
pub struct Ended {
    /// the input's
    pub port: u16,
    pub first: Option<PeerEnd>,
    pub others: u64,
    pub unreported: Unreported,
    // the first of those that began to send what is no message and weren't told yet, and how many others there are
    sending: Option<Sending>,
    others_sending: u64,
}

impl Ended {
    /// None of the input of this port has ended so yet, or sends so.
    pub fn new(alloc: Global, port: u16) -> Result<Ended, AllocError> {
        Ok(Ended {
            port,
            first: None,
            others: 0,
            unreported: Unreported::new(alloc)?,
            sending: None,
            others_sending: 0,
        })
    }

    /// A connection has ended so.
    pub fn add(&mut self, end: PeerEnd) {
        if self.first.is_none() {
            self.first = Some(end);
        } else {
            self.others = self.others.saturating_add(1);
        }
        self.unreported.add(&end);
    }

    /// The first of those that ended so, and how many others there are, which are told now.
    pub fn take_first(&mut self) -> Option<(PeerEnd, u64)> {
        let first = self.first.take()?;
        let others = self.others;
        self.others = 0;
        Some((first, others))
    }

    /// Whether a connection has begun to send what is no message and wasn't told.
    pub fn has_sending(&self) -> bool {
        self.sending.is_some()
    }

    /// The first of them, and how many others there are, which are told now.
    pub fn take_sending(&mut self) -> Option<(Sending, u64)> {
        let sending = self.sending.take()?;
        let others = self.others_sending;
        self.others_sending = 0;
        Some((sending, others))
    }

    /// A connection has begun to send what is no message.
    pub fn add_sending(&mut self, sending: Sending) {
        if self.sending.is_none() {
            self.sending = Some(sending);
        } else {
            self.others_sending = self.others_sending.saturating_add(1);
        }
    }
}
