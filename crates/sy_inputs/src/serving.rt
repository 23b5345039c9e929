//! What the threads of a relay that is served share.

use crate::connections::{Connections, Side};
use crate::incoming::Ending;
use std::alloc::{AllocError, Global};
use std::os::fd::RawFd;
use std::sync::atomic::{AtomicBool, Ordering};
use std::sync::{Arc, Condvar, CondvarTimeouts, Mutex, Wait};
use std::time::{Clock, Duration};
use sy_log::at_port::append_at_port;
use sy_log::log::Log;
use sy_log::peers::PeerEnd;
use sy_log::printer::Printer;
use sy_log::printing::Printing;
use sy_outlets::leaving::remaining::Rest;
use sy_outlets::unread_file::UnreadFile;
use sy_report::texts::parts::{Part, append_parts};
use sy_report::texts::reason::Reason;
use sy_runtime::ConnEnd;
use sy_watched::watch::Watch;
use sy_wire::Sink;

/// What the threads of a relay that is served share.
#[derive(Drop)]
pub struct Serving<E: Drop> {
    alloc: Global,
    // what waits to be printed, and what prints it, which its thread alone does while the relay runs
    printing: Printing,
    printer: Mutex<Printer<E>>,
    // the line that says which files the relay runs
    runs: Vec<u8>,
    log: Arc<Log>,
    watch: Watch,
    // where frames go that carry no message, as the log has these files
    unread: Vec<UnreadFile>,
    connections: Mutex<Connections>,
    // told when a connection or an accept loop has ended
    ended: Condvar,
    is_stopping: AtomicBool,
    // the port that can't be listened at, and why
    refused: Mutex<Option<(u16, Reason)>>,
}

/// What tells of a relay, and where frames go that carry no message.
#[derive(Drop)]
pub struct Notices {
    pub log: Arc<Log>,
    /// the line that says which files it runs
    pub runs: Vec<u8>,
    /// what is watched beside its totals and its log
    pub watch: Watch,
    /// its unread files, as the log has them
    pub unread: Vec<UnreadFile>,
}

// The line that says this.
fn said(alloc: Global, words: &[u8]) -> Result<Vec<u8>, AllocError> {
    let mut text = Vec::new(alloc);
    append_parts(
        &mut text,
        &[Part::Text(b"syc: "), Part::Text(words), Part::Text(b"\n")],
    )?;
    Ok(text)
}

// The line that says what happened at a port.
fn said_at(alloc: Global, words: &[u8], port: u16) -> Result<Vec<u8>, AllocError> {
    let mut text = Vec::new(alloc);
    append_at_port(&mut text, words, port)?;
    Ok(text)
}

impl<E: Sink + Drop> Serving<E> {
    /// Nothing is served yet. What happens is noted there and printed here.
    pub fn new(alloc: Global, errors: E, reported: Notices) -> Serving<E> {
        let Notices {
            log,
            runs,
            watch,
            unread,
        } = reported;
        Serving {
            alloc,
            printing: Printing::new(alloc),
            printer: Mutex::new(Printer::new(errors)),
            runs,
            log,
            watch,
            unread,
            connections: Mutex::new(Connections::new(alloc)),
            ended: Condvar::new(),
            is_stopping: AtomicBool::new(false),
            refused: Mutex::new(None),
        }
    }

    /// What an operator is told of the relay.
    pub fn log(&self) -> &Arc<Log> {
        &self.log
    }

    /// What waits to be printed.
    pub fn printing(&self) -> &Printing {
        &self.printing
    }

    /// The line that says which files the relay runs.
    pub fn runs(&self) -> &[u8] {
        self.runs.as_slice()
    }

    /// Has one or more whole lines printed, which stay together, and waits for nobody. Lines for which there is no room, or no
    /// memory, are counted, and their number is printed.
    pub fn print<R: Wait>(&self, rt: &R, text: Result<Vec<u8>, AllocError>) {
        match text {
            Ok(text) => self.printing.push(rt, text),
            Err(_) => self.printing.leave_out(rt, 1),
        }
    }

    /// Where an input's frames go that carry no message, if they are kept.
    pub fn unread_of(&self, input: u32) -> Option<&UnreadFile> {
        self.unread.get(self.log.unread_of(input as usize)?)
    }

    /// What is watched of the relay beside its totals and its log.
    pub fn watch(&self) -> &Watch {
        &self.watch
    }

    /// Prints this line.
    pub fn report_line<R: Wait>(&self, rt: &R, line: &[u8]) {
        self.print(rt, Vec::from_slice(self.alloc, line));
    }

    /// Prints what happened at a port.
    pub fn report_at_port<R: Wait>(&self, rt: &R, words: &[u8], port: u16) {
        self.print(rt, said_at(self.alloc, words, port));
    }

    /// Prints what happened.
    pub fn report_text<R: Wait>(&self, rt: &R, text: &str) {
        self.print(rt, said(self.alloc, text.as_bytes()));
    }

    /// Waits for lines, and prints them; whether more may come.
    pub fn print_next<R: Wait>(&self, rt: &R) -> bool {
        let Some(lines) = self.printing.next(rt) else {
            return false;
        };
        self.watch.leave_out(lines.left_out());
        self.printer.lock(rt).print(self.alloc, lines);
        self.printing.set_printed(rt);
        true
    }

    /// Prints what waits on this thread, where no other does.
    pub fn print_here<R: Wait>(&self, rt: &R) {
        let lines = self.printing.take(rt);
        self.watch.leave_out(lines.left_out());
        self.printer.lock(rt).print(self.alloc, lines);
    }

    /// Whether nothing new is to be accepted.
    pub fn is_stopping(&self) -> bool {
        self.is_stopping.load(Ordering::SeqCst)
    }

    /// Has nothing new accepted from now on.
    pub fn set_stopping(&self) {
        self.is_stopping.store(true, Ordering::SeqCst);
    }

    /// Counts an accept loop that begins.
    pub fn begin_loop<R: Wait>(&self, rt: &R) {
        self.connections.lock(rt).begin_loop();
    }

    /// Counts an accept loop that has ended.
    pub fn end_loop<R: Wait>(&self, rt: &R) {
        self.connections.lock(rt).end_loop();
        self.ended.notify_all();
    }

    /// Waits until no accept loop goes on, but no longer than this, and answers whether that is so.
    pub fn wait_for_loops<R: Wait + Clock>(&self, rt: &R, most: Duration) -> bool {
        let connections = self.connections.lock(rt);
        let (connections, _) = self
            .ended
            .wait_timeout_while(rt, connections, most, |it| it.is_accepting());
        !connections.is_accepting()
    }

    /// Makes room for so many more connections.
    pub fn make_room<R: Wait>(&self, rt: &R, more: usize) -> Result<(), AllocError> {
        self.connections.lock(rt).make_room(more)
    }

    /// A place for a connection.
    pub fn enter<R: Wait>(&self, rt: &R, stream: RawFd) -> Result<usize, AllocError> {
        self.connections.lock(rt).enter(stream)
    }

    /// Frees a connection's place, keeps what it counted, and what it leaves where the relay ended it, and notes how it ended, where there is
    /// something to say. A stop finds the place free once that is noted.
    pub(crate) fn end<R: Wait>(&self, rt: &R, input: u32, place: usize, ending: Ending) {
        let Ending { end, rest, noted } = ending;
        let mut connections = self.connections.lock(rt);
        connections.keep(end);
        if let Some(rest) = rest {
            connections.keep_rest(rest);
        }
        connections.leave(place);
        if noted.unread > 0 || noted.fault.is_some() {
            self.log.connection_ended(rt, input, noted);
        }
        drop(connections);
        self.ended.notify_all();
    }

    /// Shuts this side down of each connection that is open.
    pub fn shut_down<R: Wait>(&self, rt: &R, how: Side) {
        self.connections.lock(rt).shut_down(how);
    }

    /// Waits until no connection is open, but no longer than this.
    pub fn wait_for_connections<R: Wait + Clock>(&self, rt: &R, most: Duration) {
        let connections = self.connections.lock(rt);
        let _ = self
            .ended
            .wait_timeout_while(rt, connections, most, |it| !it.is_empty());
    }

    /// Waits until no connection is open.
    pub fn wait_for_all<R: Wait>(&self, rt: &R) {
        let connections = self.connections.lock(rt);
        let _ = self.ended.wait_while(rt, connections, |it| !it.is_empty());
    }

    /// What those connections leave that the relay ended.
    pub fn take_rests<R: Wait>(&self, rt: &R, alloc: Global) -> Vec<Rest> {
        self.connections.lock(rt).take_rests(alloc)
    }

    /// What the connections counted that ended.
    pub fn take_ends<R: Wait>(&self, rt: &R, alloc: Global) -> Vec<ConnEnd> {
        self.connections.lock(rt).take_ends(alloc)
    }

    /// Notes that a port can't be listened at, and why.
    pub fn set_refused<R: Wait>(&self, rt: &R, port: u16, reason: Reason) {
        *self.refused.lock(rt) = Some((port, reason));
    }

    /// The port that couldn't be listened at, and why, where there is one.
    pub fn refused<R: Wait>(&self, rt: &R) -> Option<(u16, Reason)> {
        *self.refused.lock(rt)
    }
}
