//! The file of an archive.
ghost use Rattle.std.specs.Prelude.{◌≡◌, ◌≢◌, ◌<◌, length, IfErr, IfNone, IfSome, OnOk, OnSome};
ghost use Rattle.sy_outlets.specs.internal.Archives.{IsKept};

use crate::devices::file_writer::FileWriter;
use crate::devices::opening::OpenFault;
use crate::rotation::opened::{Unopened, open_file};
use crate::rotation::reopens::Reopens;
use crate::rotation::rotated::{Form, Lines, Open, Rotated};
use std::alloc::Global;
use std::fs::File;
use std::slice;
use std::sync::{Arc, MutexGuard};
use sy_actions::{Device, DeviceFault};
use sy_escapes::EscapedSink;
use sy_host_parameters::ArchiveHost;
use sy_log::log::ActionLog;
use sy_report::texts::reason::Reason;
use sy_wire::Message;

/// The file of an archive, to whose end lines are written, and which is opened anew where this was asked for since its
/// last offer. Where it can't be opened, lines go on to the one that is open, or to none after a failed sync, and the next
/// offer tries again.
#[derive(Drop)]
pub struct Archive {
    file: Arc<Rotated>,
    reopens: Arc<Reopens>,
}

// Has the disk keep what was written, where that is asked for. Where it can't, nothing of it counts as written, and the file is
// opened anew before any more is: a sync that failed once may answer the next time that all is well.
fn finish(opened: &mut Open) -> Result<(), DeviceFault>
    ensures own { IfErr result (λ f. f ≢ DeviceFault.CountFull) }
    ensures kept { OnOk result (IsKept opened.new.writer.lines) }
{
    let flushed = match &mut opened.writer.lines {
        Some(Lines::Plain(sink)) => sink.flush(),
        Some(Lines::Escaped(sink)) => sink.flush(),
        None => Ok(()),
    };
    match flushed {
        Ok(()) => Ok(()),
        Err(_) => {
            opened.is_doubtful = true;
            Err(DeviceFault::Write)
        }
    }
}

// Offers a message to a sink of lines with escapes.
fn offer_escaped(
    sink: &mut EscapedSink<FileWriter>,
    message: &Arc<Message>,
) -> Result<(), DeviceFault>
    ensures { IfErr result (λ f. f ≢ DeviceFault.CountFull) }
{
    match sink.offer_all(slice::from_ref(message)) {
        (_, None) => Ok(()),
        (_, Some(fault)) => Err(fault),
    }
}

// Writes the line of a message, and has the disk keep it where that is asked for.
fn write_one(opened: &mut Open, message: &Arc<Message>) -> Result<(), DeviceFault>
    ensures own { IfErr result (λ f. f ≢ DeviceFault.CountFull) }
    ensures kept { OnOk result (IsKept opened.new.writer.lines) }
{
    match &mut opened.writer.lines {
        Some(Lines::Plain(sink)) => sink.offer(message)?,
        Some(Lines::Escaped(sink)) => offer_escaped(sink, message)?,
        None => return Err(DeviceFault::Write),
    }
    finish(opened)
}

// Writes the lines of messages, up to the first that fails, and has the disk keep them where that is asked for: where it can't,
// none is taken.
fn write_all(opened: &mut Open, messages: &[Arc<Message>]) -> (usize, Option<DeviceFault>)
    requires { 0 < length messages.now }
    ensures all { IfNone result.1 (result.0 ≡ length messages.now) }
    ensures some { OnSome result.1 (result.0 < length messages.now) }
    ensures own { IfSome result.1 (λ f. f ≢ DeviceFault.CountFull) }
    ensures kept { 0 < result.0 → IsKept opened.new.writer.lines }
{
    let answer = match &mut opened.writer.lines {
        Some(Lines::Plain(sink)) => sink.offer_all(messages),
        Some(Lines::Escaped(sink)) => sink.offer_all(messages),
        None => (0, Some(DeviceFault::Write)),
    };
    if answer.0 == 0 {
        return answer;
    }
    match finish(opened) {
        Ok(()) => answer,
        Err(fault) => (0, Some(fault)),
    }
}

impl Archive {
    // The archive of that file, which is open.
    fn of_file(
        rt: HostRuntime,
        alloc: Global,
        (name, does): (String, ArchiveHost),
        file: (File, u64),
        reopens: Arc<Reopens>,
        log: ActionLog,
    ) -> Option<Archive> {
        let (file, followed) = file;
        let theirs = log.try_clone().ok()?;
        let form = Form::Lines(does);
        let file = Rotated::new(rt, alloc, form, name, file, followed, (log, theirs));
        let file = Arc::new(alloc, file).ok()?;
        reopens.push(Arc::try_clone(&file).ok()?).ok()?;
        Some(Archive { file, reopens })
    }

    /// The archive of that name, whose file is opened for appending. Where it can't be, the reason is noted.
    pub fn open(
        rt: HostRuntime,
        alloc: Global,
        (name, does): (String, ArchiveHost),
        reopens: Arc<Reopens>,
        log: ActionLog,
    ) -> Result<Archive, OpenFault> {
        let followed = reopens.asked();
        let file = match open_file(&rt, name.as_str(), does) {
            Ok(file) => file,
            Err(Unopened::NotRegular) => return Err(OpenFault::NotRegular),
            Err(Unopened::Locked) => return Err(OpenFault::Locked),
            Err(Unopened::Host(error)) => {
                log.because(Reason::of(&error));
                return Err(OpenFault::Write);
            }
        };
        match Archive::of_file(rt, alloc, (name, does), (file, followed), reopens, log) {
            Some(archive) => Ok(archive),
            None => Err(OpenFault::NoMemory),
        }
    }

    // What lines are written to, opened anew where that was asked for, or where a sync failed.
    fn enter(&self) -> Option<MutexGuard<'_, Open>> {
        let (open, is_new) = self.file.enter(self.reopens.asked())?;
        if is_new {
            self.reopens.wake();
        }
        if open.is_doubtful {
            return None;
        }
        Some(open)
    }

    // Has it noticed that lines were written.
    fn set_written(&self) {
        if self.file.set_written() {
            self.reopens.wake();
        }
    }

    /// Offers a message.
    pub fn offer(&mut self, message: &Arc<Message>) -> Result<(), DeviceFault>
        ensures { IfErr result (λ f. f ≢ DeviceFault.CountFull) }
    {
        let Some(mut open) = self.enter() else {
            return Err(DeviceFault::Write);
        };
        let answer = write_one(&mut open, message);
        drop(open);
        self.set_written();
        answer
    }

    /// Offers messages, up to the first that fails.
    pub fn offer_all(&mut self, messages: &[Arc<Message>]) -> (usize, Option<DeviceFault>)
        ensures all { IfNone result.1 (result.0 ≡ length messages.now) }
        ensures some { OnSome result.1 (result.0 < length messages.now) }
        ensures own { IfSome result.1 (λ f. f ≢ DeviceFault.CountFull) }
    {
        if messages.is_empty() {
            return (0, None);
        }
        let Some(mut open) = self.enter() else {
            return (0, Some(DeviceFault::Write));
        };
        let answer = write_all(&mut open, messages);
        drop(open);
        self.set_written();
        answer
    }
}
