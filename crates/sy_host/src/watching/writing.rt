//! The thread that writes the file of the metrics, and the document of a relay's status.

use crate::watching::noted::noted;
use std::alloc::{AllocError, Global};
use std::sync::{Arc, Wait};
use std::thread;
use std::thread::Threads;
use std::time::{Clock, Instant};
use sy_inputs::connector::Connector;
use sy_inputs::serving::Serving;
use sy_report::texts::reason::Reason;
use sy_runtime::{Mismatch, Stopped};
use sy_watched::document::document;
use sy_watched::file::MetricsFile;
use sy_watched::look::{Moment, now, running, stopped, watched};
use sy_watched::metrics::metrics;
use sy_watched::reported::{Reported, file_line};
use sy_wire::Sink;

// What writes the file.
#[derive(Drop)]
struct Writer<C: Drop, E: Drop> {
    relay: Arc<C>,
    serving: Arc<Serving<E>>,
    file: MetricsFile,
    reported: Reported,
}

// The metrics of a relay with these totals.
fn metrics_of<R: Clock, E: Sink + Drop>(
    rt: &R,
    alloc: Global,
    serving: &Serving<E>,
    moment: Moment<'_>,
) -> Result<Vec<u8>, AllocError> {
    let noted = noted(rt, alloc, serving.log())?;
    let seen = watched(alloc, serving.watch(), noted.all(), moment)?;
    metrics(alloc, &seen)
}

// The metrics of a relay that runs; none where it has just stopped.
fn metrics_now<R: Wait + Clock, C: Connector, E: Sink + Drop>(
    rt: &R,
    alloc: Global,
    relay: &C,
    serving: &Serving<E>,
) -> Result<Option<Vec<u8>>, AllocError> {
    match relay.status(rt, alloc) {
        Some(standing) => {
            let moment = running(now(rt), &standing);
            Ok(Some(metrics_of(rt, alloc, serving, moment)?))
        }
        None if serving.is_stopping() => Ok(None),
        None => Err(AllocError),
    }
}

// Has the file hold this text, where there is one.
fn replace(file: &MetricsFile, text: Result<Option<Vec<u8>>, AllocError>) -> Result<(), Reason> {
    let Ok(text) = text else {
        return Err(Reason::NoMemory);
    };
    let Some(text) = text else {
        return Ok(());
    };
    match file.replace(text.as_slice()) {
        Ok(()) => Ok(()),
        Err(fault) => Err(Reason::of(&fault)),
    }
}

// Writes this text, and prints the line that is due then.
fn write<R: Wait, C: Connector, E: Sink + Drop>(
    rt: &R,
    alloc: Global,
    writer: &mut Writer<C, E>,
    text: Result<Option<Vec<u8>>, AllocError>,
    seconds: u64,
) {
    let line = match replace(&writer.file, text) {
        Ok(()) => writer.reported.works(seconds),
        Err(reason) => writer.reported.fails(seconds, reason),
    };
    let Some(line) = line else {
        return;
    };
    if let Ok(text) = file_line(alloc, writer.file.name(), line) {
        writer.serving.report_line(rt, text.as_slice());
    }
}

// How many seconds have passed since then.
fn seconds<R: Clock>(rt: &R, start: &Option<Instant>) -> u64 {
    let Some(start) = start else {
        return 0;
    };
    match start.elapsed(rt) {
        Ok(time) => time.as_secs(),
        Err(_) => 0,
    }
}

// Writes the file again and again until the relay ends, and once more then.
fn write_all<R: Wait + Clock + Drop, C: Connector, E: Sink + Drop>(
    rt: R,
    alloc: Global,
    mut writer: Writer<C, E>,
) {
    let start = Instant::now(&rt).ok();
    for _ in rt.forever() {
        let is_last = writer.serving.watch().is_ending();
        let text = if is_last {
            Ok(writer.serving.watch().take_last(&rt))
        } else {
            metrics_now(&rt, alloc, &*writer.relay, &writer.serving)
        };
        let seconds = seconds(&rt, &start);
        write(&rt, alloc, &mut writer, text, seconds);
        if is_last {
            writer.serving.watch().set_over(true);
            return;
        }
        let every = writer.file.every();
        writer.serving.watch().wait(&rt, every);
    }
}

// Has a thread of its own write this file.
fn start_writing<
    R: Threads + Wait + Clock + Copy + Send + 'static,
    C: Connector + Send + Sync + 'static,
    E: Sink + Drop + Send + 'static,
>(
    rt: R,
    alloc: Global,
    relay: &Arc<C>,
    serving: &Arc<Serving<E>>,
    file: MetricsFile,
) -> Result<(), AllocError> {
    let writer = Writer {
        relay: Arc::try_clone(relay)?,
        serving: Arc::try_clone(serving)?,
        file,
        reported: Reported::new(),
    };
    serving.watch().set_over(false);
    match thread::spawn(&rt, move || write_all(rt, alloc, writer)) {
        Ok(_thread) => Ok(()),
        Err(_) => {
            serving.watch().set_over(true);
            Err(AllocError)
        }
    }
}

/// Has a thread of its own write the file of the metrics, where there is to be one. Where none can be had, that is said, and the relay goes on.
pub fn start_metrics<
    R: Threads + Wait + Clock + Copy + Send + 'static,
    C: Connector + Send + Sync + 'static,
    E: Sink + Drop + Send + 'static,
>(rt: R, alloc: Global, relay: &Arc<C>, serving: &Arc<Serving<E>>) {
    let Some(file) = serving.watch().take_file(&rt) else {
        return;
    };
    if start_writing(rt, alloc, relay, serving, file).is_err() {
        serving.report_text(&rt, "metrics can't be written: no thread");
    }
}

/// Has the file of the metrics written once more, with what the relay left, and waits for that for a while.
pub fn end_metrics<R: Wait + Clock, E: Sink + Drop>(
    rt: &R,
    alloc: Global,
    serving: &Serving<E>,
    answer: &Result<Stopped, Mismatch>,
) {
    if serving.watch().is_over() {
        return;
    }
    let last = match answer {
        Ok(left) => metrics_of(rt, alloc, serving, stopped(now(rt), left)),
        Err(Mismatch) => Err(AllocError),
    };
    serving.watch().finish(rt, last.ok());
}

// The document of a relay with these totals.
fn document_of<R: Clock, E: Sink + Drop>(
    rt: &R,
    alloc: Global,
    serving: &Serving<E>,
    moment: Moment<'_>,
) -> Result<Vec<u8>, AllocError> {
    let noted = noted(rt, alloc, serving.log())?;
    let seen = watched(alloc, serving.watch(), noted.all(), moment)?;
    document(alloc, &seen, serving.runs())
}

/// Prints what is watched of a relay, as a JSON document in one line.
pub fn report_document<R: Wait + Clock, C: Connector, E: Sink + Drop>(
    rt: &R,
    alloc: Global,
    serving: &Serving<E>,
    relay: &C,
) {
    let text = match relay.status(rt, alloc) {
        Some(standing) => document_of(rt, alloc, serving, running(now(rt), &standing)),
        None => Err(AllocError),
    };
    match text {
        Ok(text) => serving.report_line(rt, text.as_slice()),
        Err(_) => serving.report_text(rt, "no memory"),
    }
}
