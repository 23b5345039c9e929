//! The files that frames go to that carry no message.

use crate::devices::opening::Signals;
use crate::rotation::frames::open_cut;
use crate::rotation::opened::{Node, Refusal, node_of_file};
use crate::rotation::reopens::Reopens;
use crate::rotation::rotated::{Form, Rotated, Writer};
use std::alloc::{AllocError, Global};
use std::fs::File;
use std::net::SocketAddr;
use std::sync::atomic::{AtomicBool, Ordering};
use std::sync::{Arc, Mutex, Wait};
use std::thread;
use std::time::{Clock, Duration};
use sy_log::log::ActionLog;
use sy_log::peers::NoMessage;
use sy_report::texts::reason::Reason;
use sy_runtime::NotKept;
use sy_unread::{About, append_records};
use sy_wire::WriteFault;

/// How often it is looked whether the relay ends before a failed write is tried again, and how many milliseconds lie between two looks.
const LOOKS: u32 = 10;

const LOOK: u64 = 100;

/// A frame that carries no message, and where it came: which of its connection it is, from 1, what is wrong, and of one that is too long its length.
#[derive(Clone, Copy)]
pub struct UnreadFrame<'a> {
    pub port: u16,
    pub peer: SocketAddr,
    pub frame: u64,
    pub what: NoMessage,
    pub length: Option<u64>,
    pub text: &'a [u8],
}

// An unread file, as who writes to it has it.
#[derive(Drop)]
struct Writing {
    alloc: Global,
    // the relay's name
    relay: Vec<u8>,
    file: Arc<Rotated>,
    reopens: Arc<Reopens>,
    log: ActionLog,
    fails: bool,
}

impl Writing {
    // Of a file that was opened.
    fn new(
        rt: HostRuntime,
        alloc: Global,
        name: &str,
        file: File,
        relay: &[u8],
        reopens: &Arc<Reopens>,
        log: ActionLog,
    ) -> Result<Writing, AllocError> {
        let logs = (log.try_clone()?, log.try_clone()?);
        let name = String::from_str(alloc, name)?;
        let rotated = Rotated::new(rt, alloc, Form::Frames, name, file, reopens.asked(), logs);
        let Ok(file) = Arc::new(alloc, rotated) else {
            return Err(AllocError);
        };
        reopens.push(Arc::try_clone(&file)?)?;
        Ok(Writing {
            alloc,
            relay: Vec::from_slice(alloc, relay)?,
            file,
            reopens: Arc::try_clone(reopens)?,
            log,
            fails: false,
        })
    }

    // Writes frames once.
    fn append(&self, frames: &[u8]) -> Result<(), WriteFault> {
        let Some((mut open, is_new)) = self.file.enter(self.reopens.asked()) else {
            return Err(WriteFault);
        };
        if is_new {
            self.reopens.wake();
        }
        let answer = match &mut open.writer.frames {
            Some(file) => file.append(frames),
            None => Err(WriteFault),
        };
        drop(open);
        if self.file.set_written() {
            self.reopens.wake();
        }
        answer
    }

    // What stands there of a frame of that text.
    fn records(&self, frame: &UnreadFrame<'_>) -> Result<Vec<u8>, AllocError> {
        let peer = frame.peer.to_string(self.alloc)?;
        let about = About {
            relay: self.relay.as_slice(),
            input: frame.port,
            peer: peer.as_str(),
            frame: frame.frame,
            fault: frame.what.words(),
            at: frame.what.offset(),
            length: frame.length,
        };
        let mut records = Vec::new(self.alloc);
        append_records(self.alloc, &mut records, &about, frame.text)?;
        Ok(records)
    }

    // Writes what stands there of a frame, once; or answers why it can't be.
    fn write(&self, frame: &UnreadFrame<'_>) -> Result<(), Reason> {
        let Ok(records) = self.records(frame) else {
            return Err(Reason::NoMemory);
        };
        match self.append(records.as_slice()) {
            Ok(()) => Ok(()),
            Err(_) => Err(self.log.take_reason().unwrap_or(Reason::Write)),
        }
    }

    // The same, and notes whether it fails; whether it was written.
    fn try_once(&mut self, frame: &UnreadFrame<'_>) -> bool {
        match self.write(frame) {
            Ok(()) => {
                if self.fails {
                    self.log.end();
                }
                self.fails = false;
                true
            }
            Err(reason) => {
                if !self.fails {
                    self.log.begin(reason);
                }
                self.fails = true;
                false
            }
        }
    }
}

/// An unread file of a relay, which the connections of its inputs share. It is written to at its end, and opened anew as archives are.
#[derive(Drop)]
pub struct UnreadFile {
    writing: Mutex<Writing>,
    is_ending: Arc<AtomicBool>,
    // which file it was when it was opened, where the host said that
    node: Option<Node>,
}

impl UnreadFile {
    /// The file of that name of the relay of that name, which is opened for appending, and how many bytes of a part of a frame were cut off at its end.
    /// Why a write fails is noted in that log.
    pub fn open(
        rt: HostRuntime,
        alloc: Global,
        name: &str,
        relay: &[u8],
        signals: &Signals,
        log: ActionLog,
    ) -> Result<(UnreadFile, u64), Refusal> {
        let (file, cut) = open_cut(&rt, alloc, name)?;
        let node = node_of_file(&file);
        let made = Writing::new(rt, alloc, name, file, relay, &signals.reopens, log);
        let (Ok(writing), Ok(is_ending)) = (made, Arc::try_clone(&signals.is_ending)) else {
            return Err(Refusal::Host(Reason::NoMemory));
        };
        let writing = Mutex::new(writing);
        let file = UnreadFile {
            writing,
            is_ending,
            node,
        };
        Ok((file, cut))
    }

    /// Whether another was the same file when both were opened.
    pub fn is_same(&self, other: &UnreadFile) -> bool {
        self.node.is_some() && self.node == other.node
    }

    // Waits before a failed write is tried again; whether it is to be.
    fn wait<R: Clock>(&self, rt: &R) -> bool {
        for _ in 0..LOOKS {
            if self.is_ending.load(Ordering::SeqCst) {
                return false;
            }
            thread::sleep(rt, Duration::from_millis(LOOK));
        }
        true
    }

    /// Writes what stands there of a frame, once; whether it was written.
    pub fn keep_at_once<R: Wait>(&self, rt: &R, frame: &UnreadFrame<'_>) -> bool {
        self.writing.lock(rt).try_once(frame)
    }

    /// Writes what stands there of a frame, however long that takes. Where it can't be written it is tried again each second, until the relay ends.
    pub fn keep<R: Wait + Clock>(&self, rt: &R, frame: &UnreadFrame<'_>) -> Result<(), NotKept> {
        for _ in rt.forever() {
            if self.writing.lock(rt).try_once(frame) {
                return Ok(());
            }
            if !self.wait(rt) {
                return Err(NotKept);
            }
        }
        Err(NotKept)
    }
}
