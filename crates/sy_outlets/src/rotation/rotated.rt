//! The file of an archive, or an unread file, as its device and who watches over it share it.

use crate::devices::file_writer::FileWriter;
use crate::devices::frame_file::FrameFile;
use crate::rotation::frames::open_whole;
use crate::rotation::opened::{
    Node, Refusal, can_sync, has_lost_name, has_name, is_pipe, node_of_file, open_file,
};
use std::alloc::Global;
use std::fs::File;
use std::sync::atomic::{AtomicBool, Ordering};
use std::sync::{Mutex, MutexGuard};
use std::thread;
use std::time::Duration;
use sy_actions::LineSink;
use sy_escapes::EscapedSink;
use sy_host_parameters::ArchiveHost;
use sy_log::log::ActionLog;
use sy_report::texts::reason::Reason;

/// After how many milliseconds a lock is tried again.
const TURN: u64 = 1;

/// What is known of the file that is open. Requests to open archives anew are counted from 1 on.
#[derive(Clone, Copy)]
pub struct Known {
    /// The last request for which that was tried, and the last for which it was done.
    pub tried: u64,
    pub followed: u64,
    /// Why the last try failed, and whether no file was open then, so that lines wait.
    pub refusal: Option<Refusal>,
    pub is_closed: bool,
    pub node: Option<Node>,
}

impl Known {
    // The file of that node is open, for requests up to this one.
    fn of_open(asked: u64, node: Option<Node>) -> Known {
        Known {
            tried: asked,
            followed: asked,
            refusal: None,
            is_closed: false,
            node,
        }
    }
}

/// What is written to a file: lines, with what the host is to do for it, or whole frames.
#[derive(Clone, Copy)]
pub enum Form {
    Lines(ArchiveHost),
    Frames,
}

/// What writes lines, or lines with escapes.
#[derive(Drop)]
pub enum Lines {
    Plain(LineSink<FileWriter>),
    Escaped(EscapedSink<FileWriter>),
}

/// What writes lines, or whole frames: one of both.
#[derive(Drop)]
pub struct Writer {
    pub lines: Option<Lines>,
    pub frames: Option<FrameFile>,
}

impl Writer {
    // To none.
    fn closed() -> Writer {
        Writer {
            lines: None,
            frames: None,
        }
    }

    /// To this file.
    pub fn new(alloc: Global, form: Form, file: File, log: ActionLog) -> Writer {
        match form {
            Form::Lines(does) => {
                let is_synced = does.is_synced && can_sync(&file);
                let writer = FileWriter::new(file, log, is_synced);
                let lines = if does.escapes {
                    Lines::Escaped(EscapedSink::new(alloc, writer))
                } else {
                    Lines::Plain(LineSink::new(alloc, writer))
                };
                Writer {
                    lines: Some(lines),
                    frames: None,
                }
            }
            Form::Frames => Writer {
                lines: None,
                frames: Some(FrameFile::new(file, log)),
            },
        }
    }
}

/// What is written to.
#[derive(Drop)]
pub struct Open {
    pub writer: Writer,
    followed: u64,
    /// Whether what was written last may not be on the disk though it was to be, so that the file is opened anew before any more is.
    pub is_doubtful: bool,
}

/// The file of an archive, or an unread file. Its device writes to it under a lock. Who watches over it tries that lock and doesn't wait for it: so
/// an archive that isn't written to is opened anew by who watches, and one that is by its device.
#[derive(Drop)]
pub struct Rotated {
    rt: HostRuntime,
    alloc: Global,
    form: Form,
    path: String,
    log: ActionLog,
    open: Mutex<Open>,
    known: Mutex<Known>,
    // whether lines were written since its name was looked at
    is_written: AtomicBool,
}

// A lock, once nobody else has it. (A device has no handle to wait by. Who else has this lock opens a file, or copies.)
fn locked<'a, T>(rt: &HostRuntime, lock: &'a Mutex<T>) -> Option<MutexGuard<'a, T>> {
    for _ in 0..u64::MAX {
        if let Some(guard) = lock.try_lock() {
            return Some(guard);
        }
        thread::sleep(rt, Duration::from_millis(TURN));
    }
    None
}

impl Rotated {
    /// Of the file that was opened by that name for requests up to this one.
    pub fn new(
        rt: HostRuntime,
        alloc: Global,
        form: Form,
        path: String,
        file: File,
        followed: u64,
        logs: (ActionLog, ActionLog),
    ) -> Rotated {
        let (log, theirs) = logs;
        let known = Known::of_open(followed, node_of_file(&file));
        let writer = Writer::new(alloc, form, file, theirs);
        Rotated {
            rt,
            alloc,
            form,
            path,
            log,
            open: Mutex::new(Open {
                writer,
                followed,
                is_doubtful: false,
            }),
            known: Mutex::new(known),
            is_written: AtomicBool::new(false),
        }
    }

    /// Its file's name.
    pub fn path(&self) -> &str {
        self.path.as_str()
    }

    /// What notes of its action.
    pub fn log(&self) -> &ActionLog {
        &self.log
    }

    /// What is known of its file.
    pub fn known(&self) -> Option<Known> {
        match locked(&self.rt, &self.known) {
            Some(known) => Some(*known),
            None => None,
        }
    }

    // Notes how a try to open it ended, and answers whether that is new.
    fn note(&self, now: Known) -> bool {
        let Some(mut known) = locked(&self.rt, &self.known) else {
            return false;
        };
        let code = match known.refusal {
            Some(refusal) => refusal.code(),
            None => 0,
        };
        let is_new = match now.refusal {
            Some(refusal) => {
                known.refusal.is_none()
                    || known.tried != now.tried
                    || known.is_closed != now.is_closed
                    || code != refusal.code()
            }
            None => true,
        };
        *known = now;
        is_new
    }

    // The file of its name, opened anew.
    fn open_anew(&self) -> Result<(Writer, Option<Node>), Refusal> {
        let Ok(log) = self.log.try_clone() else {
            return Err(Refusal::Host(Reason::NoMemory));
        };
        let file = match self.form {
            Form::Lines(does) => match open_file(&self.rt, self.path.as_str(), does) {
                Ok(file) => file,
                Err(why) => return Err(why.refusal()),
            },
            Form::Frames => open_whole(&self.rt, self.alloc, self.path.as_str())?,
        };
        let node = node_of_file(&file);
        Ok((Writer::new(self.alloc, self.form, file, log), node))
    }

    // Whether lines go to the file that has its name, and are to: it stays open, with what is left of a line.
    fn stays(&self, open: &Open, node: Option<Node>) -> bool {
        match (self.form, node) {
            (Form::Lines(_), Some(node)) => {
                !open.is_doubtful && has_name(&self.rt, self.path.as_str(), node)
            }
            _ => false,
        }
    }

    // Opens it anew for requests up to this one, and answers whether how that ended is new. What was open is closed then, but where
    // it is that file.
    fn follow(&self, open: &mut Open, asked: u64) -> bool {
        let node = match self.known() {
            Some(known) => known.node,
            None => None,
        };
        if self.stays(open, node) {
            open.followed = asked;
            return self.note(Known::of_open(asked, node));
        }
        if open.is_doubtful {
            // (it may be opened anew by the same name, and its lock has to be let go before)
            open.writer = Writer::closed();
        }
        match self.open_anew() {
            Ok((writer, node)) => {
                open.writer = writer;
                open.followed = asked;
                open.is_doubtful = false;
                self.note(Known::of_open(asked, node))
            }
            Err(refusal) => self.note(Known {
                tried: asked,
                followed: open.followed,
                refusal: Some(refusal),
                is_closed: open.is_doubtful,
                node,
            }),
        }
    }

    // Whether it may be a pipe.
    fn may_be_pipe(&self) -> bool {
        match self.form {
            Form::Lines(does) => does.may_be_any,
            Form::Frames => true,
        }
    }

    // A pipe stands in its place. Where that one is open, it is the new one for requests up to this one.
    fn keep_pipe(&self, open: &mut Open, asked: u64) {
        let Some(known) = self.known() else {
            return;
        };
        let Some(node) = known.node else {
            return;
        };
        if has_lost_name(&self.rt, self.path.as_str(), node) {
            return;
        }
        open.followed = asked;
        let _ = self.note(Known::of_open(asked, known.node));
    }

    /// What lines are written to, once nobody else has it: opened anew for requests up to this one, where it can be. Beside it
    /// stands whether there is something to be told.
    pub fn enter(&self, asked: u64) -> Option<(MutexGuard<'_, Open>, bool)> {
        let mut open = locked(&self.rt, &self.open)?;
        let is_due = asked > open.followed || open.is_doubtful;
        let is_new = is_due && self.follow(&mut open, asked);
        Some((open, is_new))
    }

    /// Opens it anew for requests up to this one, where nobody has it and nothing is to be waited for.
    pub fn reopen(&self, asked: u64) {
        let Some(mut open) = self.open.try_lock() else {
            return;
        };
        if asked <= open.followed {
            return;
        }
        if self.may_be_pipe() && is_pipe(&self.rt, self.path.as_str()) {
            self.keep_pipe(&mut open, asked);
        } else {
            let _ = self.follow(&mut open, asked);
        }
    }

    /// Notes that lines were written; whether that wasn't noted yet.
    pub fn set_written(&self) -> bool {
        !self.is_written.load(Ordering::SeqCst) && !self.is_written.swap(true, Ordering::SeqCst)
    }

    /// Whether lines were written since its name was looked at.
    pub fn is_written(&self) -> bool {
        self.is_written.load(Ordering::SeqCst)
    }

    /// Looks at its name: whether it is gone, or another file's.
    pub fn look(&self, known: &Known) -> bool {
        self.is_written.store(false, Ordering::SeqCst);
        match known.node {
            Some(node) => has_lost_name(&self.rt, self.path.as_str(), node),
            None => false,
        }
    }
}
