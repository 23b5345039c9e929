//! A frame, as a reader gives it.
use std::marker::Model;

/// The greatest number of a transaction.
pub const MAX_TXNR: u32 = 999_999_999;

/// The most bytes of content that a frame may carry.
pub const MAX_CONTENT: u32 = 65_536;

/// The longest command, in bytes.
pub const MAX_COMMAND: usize = 32;

/// A frame: the number of its transaction, its command, and its content.
#[derive(Drop)]
pub struct RelpFrame {
    pub txnr: u32,
    pub command: Vec<u8>,
    pub content: Vec<u8>,
}

impl Model for RelpFrame {
    ghost use Rattle.sy_relp.specs.Frames.{Frame};

    ghost Value = { Frame };

    ghost view = { λ f. record { txnr = f.txnr; command = f.command.items; content = f.content.items } };
}
