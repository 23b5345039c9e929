//! What writes to a link.
ghost use Rattle.std.specs.Prelude.{None, ◌<◌, ◌≤◌, length, IfOk};

use std::io::{Error, ErrorKind, Read, Write};
use std::net::{Shutdown, TcpStream};
use std::sync::Arc;
use std::sync::atomic::{AtomicBool, Ordering};
use sy_log::log::ActionLog;
use sy_report::texts::reason::Reason;
use sy_wire::{Sink, WriteFault};

/// How many bytes a read drops, at most, of what a receiver sent.
const ROOM: usize = 16_384;

/// How many reads drop it, at most, each time that is looked at: together more than a host keeps for a link.
const READS: u32 = 4096;

/// What writes to a link. Its stream's writes have a time limit: a write that took nothing goes on, until the receiver has
/// closed the link or the relay waits for its links no more.
#[derive(Drop)]
pub struct LinkWriter {
    stream: Arc<TcpStream>,
    is_ending: Arc<AtomicBool>,
    log: ActionLog,
    faults: u64,
    is_flushed: bool,
}

// Whether a call that failed so is to be made again: a signal came, as where the relay was halted and goes on.
fn is_interrupted(error: &Error) -> bool {
    error.kind() == ErrorKind::Interrupted
}

// Reads and drops what a receiver sent, as far as it is there, and answers whether the link is still open.
fn drop_received(mut stream: &TcpStream) -> bool {
    let mut room = [0u8; ROOM];
    for _ in 0..READS {
        match stream.read(&mut room) {
            Ok(0) => return false,
            Ok(_) => {}
            Err(error) if is_interrupted(&error) => {}
            Err(error) => return error.kind() == ErrorKind::WouldBlock,
        }
    }
    true
}

/// Ends this side of a link. What the receiver sent is dropped first: were it left unread, the host would reset the link,
/// and the receiver lose what it hasn't read yet.
pub fn end(stream: &TcpStream) {
    let _ = stream.shutdown(Shutdown::Write);
    let _ = is_open(stream);
}

/// Whether the receiver of a link hasn't closed it, as far as that is known. What it sent is dropped.
pub fn is_open(stream: &TcpStream) -> bool {
    if stream.set_nonblocking(true).is_err() {
        return false;
    }
    drop_received(stream) && stream.set_nonblocking(false).is_ok()
}

// Writes a prefix of the bytes, and waits for it as long as that is of use. It answers how many were taken, or why none were.
fn write_some(mut stream: &TcpStream, is_ending: &AtomicBool, bytes: &[u8]) -> Result<usize, Reason>
    ensures some { IfOk result (λ n. 0 < n) }
    ensures bound { IfOk result (λ n. n ≤ length bytes.now) }
{
    for _ in 0..u64::MAX {
        // (a receiver that reads slowly takes a part each time)
        if is_ending.load(Ordering::SeqCst) {
            return Err(Reason::Ending);
        }
        match stream.write(bytes) {
            Ok(0) => return Err(Reason::Write),
            Ok(count) => return Ok(count),
            Err(error) if error.kind() == ErrorKind::WouldBlock || is_interrupted(&error) => {}
            Err(error) => return Err(Reason::of(&error)),
        }
        if !is_open(stream) {
            return Err(Reason::Closed);
        }
    }
    Err(Reason::Write)
}

impl LinkWriter {
    /// A writer to this link, which notes why a write fails. It waits in no write once the flag is set.
    pub fn new(stream: Arc<TcpStream>, is_ending: Arc<AtomicBool>, log: ActionLog) -> LinkWriter {
        LinkWriter {
            stream,
            is_ending,
            log,
            faults: 0,
            is_flushed: true,
        }
    }
}

impl Sink for LinkWriter {
    // what a link hands on isn't known
    ghost contents = { λ _. None };

    ghost faults = { λ s. s.faults };

    ghost is_flushed = { λ s. s.is_flushed };

    fn write(&mut self, bytes: &[u8]) -> Result<usize, WriteFault> {
        if bytes.is_empty() {
            return Ok(0);
        }
        self.is_flushed = false;
        match write_some(&self.stream, &self.is_ending, bytes) {
            Ok(count) => Ok(count),
            Err(reason) => {
                self.log.because(reason);
                self.faults = self.faults.saturating_add(1);
                Err(WriteFault)
            }
        }
    }

    fn flush(&mut self) -> Result<(), WriteFault> {
        self.is_flushed = true;
        Ok(())
    }
}
