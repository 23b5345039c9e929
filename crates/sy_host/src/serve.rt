//! Serving a relay until its reader ends.
ghost use Rattle.std.specs.Prelude.{◌≡◌, ◌≢◌, ◌<◌, ◌≤◌, IfOk, IfSome, length};
ghost use Rattle.std.specs.Arc.{arc_value};
ghost use Rattle.sy_board.specs.relay.Guards.{MayGuard};
ghost use Rattle.sy_site.specs.Sites.{plan_at};
ghost use Rattle.sy_outlets.specs.Left.{KeepsFile};
ghost use Rattle.sy_host.specs.Totals.{EndsWithTotals};

use crate::ending::control::{Controlled, read_control};
use crate::ending::finishing::{Ended, finish, out_of_memory, sum_up};
use crate::ending::totals::reported_by;
use crate::ending::{end_connections, end_loops, half_close};
use crate::reporting::printing_thread::{end_printing, start_printing};
use crate::reporting::{end_reporting, start_reporting};
use crate::watching::archives::start_watching;
use crate::watching::writing::{end_metrics, start_metrics};
use std::alloc::{AllocError, Global};
use std::collections::VecDeque;
use std::mem;
use std::net::{Net, TcpListener, TcpStream};
use std::sync::atomic::AtomicBool;
use std::sync::{Arc, Wait};
use std::thread::Threads;
use std::time::Clock;
use sy_board::Guard;
use sy_host_parameters::RelayHost;
use sy_inputs::accepting::start_accepting;
use sy_inputs::connector::Connector;
use sy_inputs::listening::{ListenFault, Listening, listen_all};
use sy_inputs::serving::Serving;
use sy_log::log::{Log, LogGate};
use sy_log::start_lines::start_lines;
use sy_outlets::devices::host_device::HostDevice;
use sy_outlets::leaving::left::Store;
use sy_outlets::rotation::reopens::Reopens;
use sy_rules::laws::plans_are_whole;
use sy_rules::{Action, Plan};
use sy_runtime::{BoxedDevice, Relay, RunFault, Workers};
use sy_site::Site;
use sy_wire::{Sink, Source};

/// What is served: a relay of a site, with a device for each of its actions.
#[derive(Drop)]
pub struct Served<'a> {
    pub site: &'a Site,
    pub relay: u32,
    /// What is known to lose nothing but at or after spare actions, where that was checked.
    pub guard: Option<Guard>,
    /// The devices of its actions, in their order.
    pub devices: Vec<HostDevice>,
    /// Set once no device is to wait.
    pub is_ending: Arc<AtomicBool>,
    /// What asks for archives to be opened anew.
    pub reopens: Arc<Reopens>,
    /// For how many seconds it may empty before it stops.
    pub drain: Option<u32>,
    /// What its host is to do.
    pub does: &'a RelayHost,
}

// Tells why a relay doesn't listen, and answers the exit status.
fn listen_failed<R: Wait, E: Sink + Drop>(rt: &R, serving: &Serving<E>, fault: ListenFault) -> u8
    ensures status { result ≤ 4 }
    ensures failed { result ≢ 0 }
{
    match fault {
        ListenFault::Bind(port, reason) => {
            serving.report_at_port(rt, RunFault::Bind.words().as_bytes(), port);
            serving.set_refused(rt, port, reason);
            4
        }
        ListenFault::NoMemory => out_of_memory(rt, serving),
    }
}

// Has each input's connections accepted.
fn accept_at_all<
    R: Threads
        + Wait
        + Clock
        + Net<Listener = TcpListener, Stream = TcpStream>
        + Copy
        + Send
        + 'static,
    C: Connector + Send + Sync + 'static,
    E: Sink + Drop + Send + 'static,
>(
    rt: R,
    alloc: Global,
    relay: &Arc<C>,
    serving: &Arc<Serving<E>>,
    all: Vec<Listening>,
) -> Result<(), AllocError> {
    for listening in all {
        start_accepting(rt, alloc, relay, serving, listening)?;
    }
    Ok(())
}

// One more handle of what listens first, whose descriptor is free when it is dropped.
fn reserve(all: &[Listening]) -> Option<TcpListener> {
    let first = all.first()?;
    first.listener.try_clone().ok()
}

// Starts the relay.
fn start<R: Threads + Wait + Clock + Copy + Send + 'static>(
    rt: R,
    alloc: Global,
    plan: &Arc<Plan>,
    guard: Option<Guard>,
    devices: Vec<BoxedDevice>,
    log: &Arc<Log>,
) -> Result<(Relay<LogGate>, Workers), RunFault>
    requires guard { IfSome guard (λ pairs. MayGuard (arc_value plan.now) pairs) }
    requires devices { length devices.items ≡ length (arc_value plan.now).actions }
    ensures { IfOk result (λ started. started.0 ≡ guard) }
{
    let Ok(plan) = Arc::try_clone(plan) else {
        return Err(RunFault::NoMemory);
    };
    let Ok(log) = Arc::try_clone(log) else {
        return Err(RunFault::NoMemory);
    };
    Relay::start(rt, alloc, plan, guard, devices, LogGate { log })
}

// Has a relay's connections accepted until there is nothing more to read. Where they can't be, it answers so at once.
fn accept_to_end<
    R: Threads
        + Wait
        + Clock
        + Net<Listener = TcpListener, Stream = TcpStream>
        + Copy
        + Send
        + 'static,
    C: Connector + Send + Sync + 'static,
    S: Source,
    E: Sink + Drop + Send + 'static,
>(
    rt: R,
    alloc: Global,
    relay: C,
    all: Vec<Listening>,
    reader: &mut S,
    actions: &[Action],
    reopens: &Arc<Reopens>,
    serving: &Arc<Serving<E>>,
) -> bool {
    let Ok(relay) = Arc::new(alloc, relay) else {
        return false;
    };
    // (its descriptor is free when the accept loops are to end)
    let reserve = reserve(all.as_slice());
    let is_accepting = start_reporting(rt, alloc, serving).is_ok()
        && start_watching(rt, alloc, serving, reopens).is_ok()
        && accept_at_all(rt, alloc, &relay, serving, all).is_ok();
    if is_accepting {
        start_metrics(rt, alloc, &relay, serving);
        let of = Controlled {
            relay: &*relay,
            actions,
            reopens: &**reopens,
            serving: &**serving,
        };
        read_control(&rt, alloc, &of, reader);
    }
    drop(reserve);
    is_accepting
}

// The same, for a relay.
fn accept_for<
    R: Threads
        + Wait
        + Clock
        + Net<Listener = TcpListener, Stream = TcpStream>
        + Copy
        + Send
        + 'static,
    S: Source,
    E: Sink + Drop + Send + 'static,
>(
    rt: R,
    alloc: Global,
    relay: Relay<LogGate>,
    all: Vec<Listening>,
    reader: &mut S,
    actions: &[Action],
    reopens: &Arc<Reopens>,
    serving: &Arc<Serving<E>>,
) -> bool {
    accept_to_end(rt, alloc, relay, all, reader, actions, reopens, serving)
}

// Serves a relay that was started, with its workers, until there is nothing more to read.
fn serve_started<R, T: Store, S: Source, W: Sink, E: Sink + Drop + Send + 'static>(
    rt: R,
    alloc: Global,
    run: (Relay<LogGate>, Workers),
    served: Served<'_>,
    all: Vec<Listening>,
    store: &mut T,
    reader: &mut S,
    writer: &mut W,
    serving: &Arc<Serving<E>>,
) -> u8
where
    R: Threads + Wait + Clock + Copy + Send + 'static,
    R: Net<Listener = TcpListener, Stream = TcpStream>,
    requires exists { served.relay < length served.site.now.relays }
    ensures status { result ≤ 4 }
    ensures done { result ≡ 0 → EndsWithTotals (plan_at served.entry.site.now served.entry.relay).actions run.0
        (W.contents writer.old) (W.contents writer.new)
        (T.wanted store.old) (KeepsFile T.begun T.kept) (plan_at served.entry.site.now served.entry.relay).inputs store.old store.new }
{
    let plan = &**served.site.plan(served.relay);
    let address = served.site.listens_at(served.relay);
    let (actions, reopens) = (plan.actions(), &served.reopens);
    let lines = start_lines(alloc, address, plan.inputs(), serving.runs());
    serving.print(&rt, lines);
    let (relay, workers) = run;
    let is_accepting = match relay.try_clone() {
        Ok(theirs) => accept_for(rt, alloc, theirs, all, reader, actions, reopens, serving),
        Err(_) => false,
    };
    end_loops(&rt, serving, address, plan.inputs());
    let most = half_close(&rt, serving, served.drain);
    relay.drain(&rt, most);
    relay.close(&rt);
    let ends = end_connections(rt, alloc, serving, &served.is_ending);
    let unread = reported_by(serving.log().has_unread_files(), &ends);
    let answer = relay.stop(&rt, workers, ends);
    end_metrics(&rt, alloc, serving, &answer);
    let untaken = sum_up(&rt, alloc, serving, plan.inputs());
    served.reopens.finish(&rt);
    end_reporting(&rt, serving);
    let is_whole = is_accepting && untaken.is_some();
    // (what was held is kept also where there was no memory for the rest)
    let untaken = untaken.unwrap_or(VecDeque::new(alloc));
    let ended = Ended {
        answer,
        unread,
        untaken,
    };
    let status = finish(&rt, alloc, serving, store, writer, plan, ended);
    if !is_whole {
        return out_of_memory(&rt, serving);
    }
    status
}

// Starts a relay that listens, and serves it.
// (Boxes are made here, and in no function that takes or hands one out: its contract might say nothing.)
fn serve_at<R, T: Store, S: Source, W: Sink, E: Sink + Drop + Send + 'static>(
    rt: R,
    alloc: Global,
    mut served: Served<'_>,
    all: Vec<Listening>,
    store: &mut T,
    reader: &mut S,
    writer: &mut W,
    serving: &Arc<Serving<E>>,
) -> u8
where
    R: Threads + Wait + Clock + Copy + Send + 'static,
    R: Net<Listener = TcpListener, Stream = TcpStream>,
    requires exists { served.relay < length served.site.now.relays }
    requires guard { IfSome served.guard (λ pairs. MayGuard (plan_at served.site.now served.relay) pairs) }
    requires devices { length served.devices.items ≡ length (plan_at served.site.now served.relay).actions }
    ensures status { result ≤ 4 }
    ensures done { result ≡ 0 → EndsWithTotals (plan_at served.entry.site.now served.entry.relay).actions served.entry.guard
        (W.contents writer.old) (W.contents writer.new)
        (T.wanted store.old) (KeepsFile T.begun T.kept) (plan_at served.entry.site.now served.entry.relay).inputs store.old store.new }
{
    let guard = served.guard.take();
    let mut boxes: Vec<BoxedDevice> = Vec::new(alloc);
    let mut left = VecDeque::from(mem::replace(&mut served.devices, Vec::new(alloc)));
    while let Some(device) = left.pop_front() {
        let Ok(device) = Box::new(alloc, device) else {
            return out_of_memory(&rt, serving);
        };
        let Ok(()) = boxes.push(device) else {
            return out_of_memory(&rt, serving);
        };
    }
    let plan = served.site.plan(served.relay);
    let Ok(run) = start(rt, alloc, plan, guard, boxes, serving.log()) else {
        return out_of_memory(&rt, serving);
    };
    serve_started(rt, alloc, run, served, all, store, reader, writer, serving)
}

/// Serves a relay until there is nothing more to read: listens at the ports of its inputs, takes the messages of what
/// connects there, and prints what happens. Then it ends within seconds, whatever its peers do, and prints the totals. It
/// answers the exit status: 0 where the totals that were printed agree with what its threads counted, 3 where memory runs out, and 4
/// where a port can't be listened at, the totals don't agree, or they, or what is left, can't be written.
// (Boxes are made here, and in no function that takes or hands out one: its contract might say nothing.)
pub fn serve<
    R: Threads
        + Wait
        + Clock
        + Net<Listener = TcpListener, Stream = TcpStream>
        + Copy
        + Send
        + 'static,
    T: Store,
    S: Source,
    W: Sink,
    E: Sink + Drop + Send + 'static,
>(
    rt: R,
    alloc: Global,
    served: Served<'_>,
    store: &mut T,
    reader: &mut S,
    writer: &mut W,
    serving: &Arc<Serving<E>>,
) -> u8
    requires exists { served.relay < length served.site.now.relays }
    requires guard { IfSome served.guard (λ pairs. MayGuard (plan_at served.site.now served.relay) pairs) }
    requires devices { length served.devices.items ≡ length (plan_at served.site.now served.relay).actions }
    ensures status { result ≤ 4 }
    ensures done { result ≡ 0 → EndsWithTotals (plan_at served.entry.site.now served.entry.relay).actions served.entry.guard
        (W.contents writer.old) (W.contents writer.new)
        (T.wanted store.old) (KeepsFile T.begun T.kept) (plan_at served.entry.site.now served.entry.relay).inputs store.old store.new }
{
    let plan = served.site.plan(served.relay);
    plans_are_whole(plan);
    let address = served.site.listens_at(served.relay);
    if start_printing(rt, serving).is_err() {
        let status = out_of_memory(&rt, serving);
        end_printing(&rt, serving);
        return status;
    }
    let status = match listen_all(&rt, alloc, address, plan.inputs(), served.does) {
        Ok(all) => serve_at(rt, alloc, served, all, store, reader, writer, serving),
        Err(fault) => listen_failed(&rt, serving, fault),
    };
    end_printing(&rt, serving);
    status
}
