//! The program `syc`.
#![tactic(auto)]

ghost use Rattle.std.specs.Prelude.{◌≡◌, ◌<◌, IfOk, IfSome, length, option_map};
ghost use Rattle.sy_board.specs.relay.Guards.{MayGuard};
ghost use Rattle.sy_site.specs.Sites.{plan_at};
ghost use Rattle.sy_inputs.specs.WholeEntries.{KeepsWhole};

mod diff;
mod examples;
mod explain;
mod folder;
mod full;
mod laws;
mod lines;
mod prepare;
mod run;
mod strict;
mod survey;
mod taking;
mod unread;
mod usage;
mod version;
mod wrong_words;

use diff::{diff_of_words, is_diff};
use explain::{explain, is_explain};
use folder::enter_folder;
use full::{draw_in_full, take_full};
use lines::read_back;
use prepare::prepare;
use run::run;
use std::env;
use std::io::BufWriter;
use std::net::{Net, TcpListener, TcpStream};
use std::process::ExitCode;
use std::rt::{Stderr, Stdout};
use std::sync::atomic::{AtomicBool, AtomicU64};
use std::sync::{Arc, Wait};
use std::thread::Threads;
use std::time::Clock;
use strict::{refuse_warnings, run_strictly, take_strict};
use survey::{convert_of_words, is_convert, is_survey, survey_of_words};
use sy_board::Guard;
use sy_commands::wanted_row::explain_unfit;
use sy_endpoints::outlets::{Outlet, outlets};
use sy_host::serve::{Served, serve};
use sy_inputs::serving::{Notices, Serving};
use sy_outlets::devices::opening::Signals;
use sy_outlets::leaving::left_file::LeftFiles;
use sy_report::command_line::any_file::take_any_file;
use sy_report::outcome::stop;
use sy_report::reading::files::{HostFiles, Kinds};
use sy_report::writing::outputs::Outputs;
use sy_running::explaining::{explain_no_memory, explain_refused, explain_status, explained_by};
use sy_running::files_read::FilesRead;
use sy_running::left_store::store_of;
use sy_running::opening::{Opened, Wanted, open_all};
use sy_running::runs_lines::runs_lines;
use sy_running::streams::{report_input, take_closed_streams};
use sy_running::words::{RunWords, is_run};
use sy_site::Site;
use sy_survey::folders::HostFolders;
use sy_survey::tree::Tree;
use sy_wire::{Buffered, FromRead, FromWrite, Sink, Source};
use version::{is_version, tell_version};

/// How many bytes of lines are held back until the next read.
const OUTPUT_BUFFER: usize = 65536;

/// After how many seconds the metrics are written again, where that isn't given.
const METRICS_EVERY: u32 = 10;

const SECONDS_OF_A_DAY: u64 = 86_400;

/// Room for the longest line on standard error, so that it is written at once.
const ERROR_BUFFER: usize = 512;

type HostOutputs = Outputs<Buffered<FromWrite<Stdout>>, FromWrite<BufWriter<Stderr>>>;

// Surveys configurations of rsyslogd that are files of the host, or converts one.
fn survey_files(rt: &HostRuntime, words: &[String], kinds: Kinds, out: &mut HostOutputs) -> u8 {
    let files = HostFiles::new(rt, kinds);
    let folders = HostFolders::new(rt);
    let tree = Tree {
        files: &files,
        folders: &folders,
    };
    if is_convert(words) {
        return convert_of_words(rt.alloc(), words, &tree, out);
    }
    survey_of_words(rt.alloc(), words, &tree, out)
}

fn main(rt: HostRuntime) -> ExitCode {
    let (mut words, kinds, mut out) = match begin(&rt) {
        Ok(begun) => begun,
        Err(status) => return ExitCode::from(status),
    };
    if let Err(status) = enter_folder(&rt, &mut words, &mut out.errors) {
        return ExitCode::from(status);
    }
    if is_version(words.as_slice()) {
        let files = HostFiles::new(&rt, Kinds::Regular);
        return ExitCode::from(tell_version(rt.alloc(), words.as_slice(), &files, &mut out));
    }
    if is_explain(rt.alloc(), words.as_slice()) {
        return ExitCode::from(explain(rt.alloc(), words.as_slice(), &mut out));
    }
    if is_diff(words.as_slice()) {
        let files = HostFiles::new(&rt, kinds);
        return ExitCode::from(diff_of_words(rt.alloc(), words.as_slice(), &files, &mut out));
    }
    if is_survey(words.as_slice()) || is_convert(words.as_slice()) {
        return ExitCode::from(survey_files(&rt, words.as_slice(), kinds, &mut out));
    }
    if let Some(status) = read_back(&rt, words.as_slice(), &mut out) {
        return ExitCode::from(status);
    }
    if take_full(&mut words) {
        return ExitCode::from(draw(&rt, words.as_slice(), kinds, &mut out));
    }
    let is_strict = take_strict(&mut words);
    if !is_run(words.as_slice()) {
        return ExitCode::from(start(&rt, words.as_slice(), is_strict, kinds, &mut out));
    }
    ExitCode::from(run_relay(rt, rt, words.as_slice(), is_strict, kinds, out))
}

// Draws a site in full, with the date.
fn draw(rt: &HostRuntime, words: &[String], kinds: Kinds, out: &mut HostOutputs) -> u8 {
    let days = match rt.since_1970() {
        Ok(time) => Some(time.as_secs() / SECONDS_OF_A_DAY),
        Err(_) => None,
    };
    draw_in_full(rt.alloc(), words, &HostFiles::new(rt, kinds), days, out)
}

// Runs a relay.
fn run_relay<R>(
    rt: R,
    host: HostRuntime,
    words: &[String],
    is_strict: bool,
    kinds: Kinds,
    mut out: HostOutputs,
) -> u8
where
    R: Threads + Wait + Clock + Copy + Send + 'static,
    R: Net<Listener = TcpListener, Stream = TcpStream>,
{
    let alloc = host.alloc();
    let files = HostFiles::new(&host, kinds);
    let (site, relay, guard, found, read) = match prepare(alloc, words, &files, &mut out) {
        Ok(prepared) => prepared,
        Err(status) => return status,
    };
    let FilesRead {
        identity,
        names,
        does,
    } = read;
    if let Err(status) = refuse_start(&host, found, is_strict, kinds, &mut out) {
        return status;
    }
    let _taken = take_closed_streams(&host);
    report_input(&host, &mut out.errors);
    let Ok(outlets) = outlets(alloc, &site, relay) else {
        return no_memory(&host, found, &mut out);
    };
    let store = match store_of(&host, found, &mut out.errors) {
        Ok(store) => store,
        Err(status) => return status,
    };
    let Ok(runs) = runs_lines(alloc, &files, found.relay.as_bytes(), identity) else {
        return no_memory(&host, found, &mut out);
    };
    let wanted = Wanted {
        unread: found.unread,
        metrics: found.metrics,
        metrics_every: found.metrics_every.unwrap_or(METRICS_EVERY),
        does: &does,
        names: names.as_slice(),
        explained: explained_by(found),
    };
    let with = With {
        drain: found.drain,
        store,
        runs,
        wanted,
    };
    let status = serve_on(rt, host, &site, relay, guard, outlets.as_slice(), with, out);
    explain_status(&rt, &host, found, status)
}

// The exit status where a start is strict and the site has warnings, which are printed.
fn refuse_start(
    host: &HostRuntime,
    words: RunWords<'_>,
    is_strict: bool,
    kinds: Kinds,
    out: &mut HostOutputs,
) -> Result<(), u8> {
    if !is_strict {
        return Ok(());
    }
    let files = HostFiles::new(host, kinds);
    match refuse_warnings(host.alloc(), &files, words.site, false, out) {
        0 => Ok(()),
        status => Err(status),
    }
}

// The process's own words, which files they let it read, and its streams; or the exit status where memory ran out.
fn begin(rt: &HostRuntime) -> Result<(Vec<String>, Kinds, HostOutputs), u8> {
    let alloc = rt.alloc();
    let Ok(errors) = BufWriter::with_capacity(alloc, ERROR_BUFFER, rt.stderr()) else {
        return Err(stop::out_of_memory(&mut FromWrite::new(rt.stderr())));
    };
    let mut errors = FromWrite::new(errors);
    let Ok(args) = env::args(rt) else {
        return Err(stop::out_of_memory(&mut errors));
    };
    let Ok(mut words) = args.skip(1).collect::<Vec<String>>(alloc) else {
        return Err(stop::out_of_memory(&mut errors));
    };
    let kinds = if take_any_file(&mut words) {
        Kinds::Any
    } else {
        Kinds::Regular
    };
    let stdout = FromWrite::new(rt.stdout());
    let Ok(writer) = Buffered::with_capacity(alloc, OUTPUT_BUFFER, stdout) else {
        return Err(stop::out_of_memory(&mut errors));
    };
    Ok((words, kinds, Outputs { writer, errors }))
}

// Tells that a relay that was to run found no memory, explained where the words ask for that, and answers the exit status.
fn no_memory(rt: &HostRuntime, words: RunWords<'_>, out: &mut HostOutputs) -> u8 {
    let status = stop::out_of_memory(&mut out.errors);
    explain_no_memory(rt, words);
    status
}

// Runs the commands other than `run` on the process's own words and streams.
fn start(
    rt: &HostRuntime,
    words: &[String],
    is_strict: bool,
    kinds: Kinds,
    out: &mut HostOutputs,
) -> u8 {
    let mut reader = FromRead::new(rt.stdin());
    let files = HostFiles::new(rt, kinds);
    if is_strict {
        return run_strictly(rt.alloc(), words, &files, &mut reader, out);
    }
    match run(rt.alloc(), words, &files, &mut reader, out) {
        1 => explain_unfit(rt.alloc(), words, &files, out),
        status => status,
    }
}

// What the options of a relay that runs ask for.
#[derive(Drop)]
struct With<'a> {
    // for how many seconds it may empty before it stops
    drain: Option<u32>,
    // where what is left is kept
    store: LeftFiles,
    // the line that says which files it runs
    runs: Vec<u8>,
    wanted: Wanted<'a>,
}

// The signals that the devices of a relay's actions see, and what the relay notes to and writes to; or the exit status.
fn open<'a, E: Sink>(
    host: HostRuntime,
    site: &'a Site,
    relay: u32,
    outlets: &[Outlet<'_>],
    wanted: Wanted<'a>,
    errors: &mut E,
) -> Result<(Signals, Opened), u8>
    requires exists { relay < length site.now.relays }
    ensures { IfOk result (λ made. length made.1.devices.items ≡ length outlets.now) }
{
    let Some(signals) = Signals::new(host.alloc()) else {
        return Err(stop::out_of_memory(errors));
    };
    match open_all(host, site, relay, outlets, wanted, &signals, errors) {
        Ok(opened) => Ok((signals, opened)),
        Err(status) => Err(status),
    }
}

// Makes the devices of a relay's actions, and serves it with the process's own streams.
fn serve_on<R>(
    rt: R,
    host: HostRuntime,
    site: &Site,
    relay: u32,
    guard: Option<Guard>,
    outlets: &[Outlet<'_>],
    with: With<'_>,
    mut out: HostOutputs,
) -> u8
where
    R: Threads + Wait + Clock + Copy + Send + 'static,
    R: Net<Listener = TcpListener, Stream = TcpStream>,
    requires exists { relay < length site.now.relays }
    requires guard { IfSome guard (λ pairs. MayGuard (plan_at site.now relay) pairs) }
    requires outlets { length outlets.now ≡ length (plan_at site.now relay).actions }
    requires whole { KeepsWhole site.now relay (option_map (λ file. file.now) with.wanted.unread) }
{
    let With {
        drain,
        store,
        runs,
        wanted,
    } = with;
    let (signals, opened) = match open(host, site, relay, outlets, wanted, &mut out.errors) {
        Ok(made) => made,
        Err(status) => return status,
    };
    let Opened {
        log,
        watch,
        devices,
        unread,
    } = opened;
    let Signals { is_ending, reopens } = signals;
    let served = Served {
        site,
        relay,
        guard,
        devices,
        is_ending,
        reopens,
        drain,
        does: wanted.does,
    };
    let reported = Notices {
        log,
        runs,
        watch,
        unread,
    };
    serve_devices(rt, host, served, store, reported, wanted.explained, out)
}

// Serves a relay with the process's own streams.
fn serve_devices<
    R: Threads
        + Wait
        + Clock
        + Net<Listener = TcpListener, Stream = TcpStream>
        + Copy
        + Send
        + 'static,
>(
    rt: R,
    host: HostRuntime,
    served: Served<'_>,
    mut store: LeftFiles,
    reported: Notices,
    explained: Option<&str>,
    out: HostOutputs,
) -> u8
    requires exists { served.relay < length served.site.now.relays }
    requires guard { IfSome served.guard (λ pairs. MayGuard (plan_at served.site.now served.relay) pairs) }
    requires devices { length served.devices.items ≡ length (plan_at served.site.now served.relay).actions }
{
    let alloc = host.alloc();
    let Outputs {
        mut writer,
        mut errors,
    } = out;
    // (lines come to it in pieces; without a buffer it is known which of them were written)
    let unbuffered = FromWrite::new(host.stderr());
    let Ok(serving) = Arc::new(alloc, Serving::new(alloc, unbuffered, reported)) else {
        return stop::out_of_memory(&mut errors);
    };
    let mut reader = FromRead::new(host.stdin());
    let (site, relay) = (served.site, served.relay);
    let status = serve(
        rt,
        alloc,
        served,
        &mut store,
        &mut reader,
        &mut writer,
        &serving,
    );
    if let (Some(name), Some(refusal)) = (explained, serving.refused(&rt)) {
        explain_refused(&host, name, site, relay, refusal);
    }
    status
}
