//! How a relay that is served ends.

pub mod control;
pub mod finishing;
pub mod status;
pub mod totals;
pub mod unfinished;

use std::alloc::{AllocError, Global};
use std::net::{IpAddr, Ipv4Addr, Ipv6Addr, Net, SocketAddr, TcpListener, TcpStream};
use std::sync::atomic::{AtomicBool, Ordering};
use std::sync::{Arc, Wait};
use std::thread;
use std::thread::Threads;
use std::time::{Clock, Duration, Instant};
use sy_inputs::connections::Side;
use sy_inputs::serving::Serving;
use sy_rules::Input;
use sy_runtime::ConnEnd;
use sy_wire::Sink;

/// For how many milliseconds connections may go on giving what is under way, where nothing else is said.
const CONNECTIONS_WAIT: u64 = 2000;

/// For how many milliseconds an offer may go on once the relay is closed.
const LINKS_WAIT: u64 = 1000;

/// How many milliseconds an accept loop gets to end, each time it is connected to, and how often it is.
const LOOP_WAIT: u64 = 100;

const LOOP_TRIES: u32 = 50;

// An address of this host at which what listens there is reached.
fn near_address(listens: Option<IpAddr>) -> IpAddr {
    match listens {
        Some(address) if !address.is_unspecified() => address,
        Some(IpAddr::V6(_)) => IpAddr::V6(Ipv6Addr::LOCALHOST),
        _ => IpAddr::V4(Ipv4Addr::LOCALHOST),
    }
}

// Connects once to each port, so that what accepts there wakes up.
fn wake_loops<R: Net<Listener = TcpListener, Stream = TcpStream>>(
    rt: &R,
    listens: Option<IpAddr>,
    inputs: &[Input],
) {
    let near = near_address(listens);
    for input in inputs {
        let address = SocketAddr::new(near, input.port);
        let _ = TcpStream::connect_timeout(rt, &address, Duration::from_millis(LOOP_WAIT));
    }
}

/// Ends the accept loops.
pub fn end_loops<R: Wait + Clock + Net<Listener = TcpListener, Stream = TcpStream>, E: Sink + Drop>(
    rt: &R,
    serving: &Serving<E>,
    listens: Option<IpAddr>,
    inputs: &[Input],
) {
    serving.set_stopping();
    for _ in 0..LOOP_TRIES {
        wake_loops(rt, listens, inputs);
        if serving.wait_for_loops(rt, Duration::from_millis(LOOP_WAIT)) {
            return;
        }
    }
}

// Sets the flag once offers have gone on long enough.
fn end_links<R: Clock>(rt: &R, is_ending: &AtomicBool) {
    thread::sleep(rt, Duration::from_millis(LINKS_WAIT));
    is_ending.store(true, Ordering::SeqCst);
}

// Has a thread of its own set the flag.
fn start_ending_links<R: Threads + Clock + Copy + Send + 'static>(
    rt: R,
    is_ending: &Arc<AtomicBool>,
) -> Result<(), AllocError> {
    let theirs = Arc::try_clone(is_ending)?;
    match thread::spawn(&rt, move || end_links(&rt, &theirs)) {
        Ok(_thread) => Ok(()),
        Err(_) => Err(AllocError),
    }
}

// How much of a time is left that began then; nothing where no clock says it.
fn left_of<R: Clock>(rt: &R, began: Option<Instant>, most: Duration) -> Duration {
    let Some(Ok(spent)) = began.map(|it| it.elapsed(rt)) else {
        return Duration::ZERO;
    };
    most.saturating_sub(spent)
}

/// Ends this side of each connection, and gives them time to give what is under way: two seconds, or as many as the relay may empty. It waits
/// until each has ended, but no longer. The answer is how long the relay may empty from then on.
pub fn half_close<R: Wait + Clock, E: Sink + Drop>(
    rt: &R,
    serving: &Serving<E>,
    drain: Option<u32>,
) -> Duration {
    serving.shut_down(rt, Side::Write);
    let Some(seconds) = drain else {
        serving.wait_for_connections(rt, Duration::from_millis(CONNECTIONS_WAIT));
        return Duration::ZERO;
    };
    let most = Duration::from_secs(u64::from(seconds));
    let began = Instant::now(rt).ok();
    serving.wait_for_connections(rt, most);
    left_of(rt, began, most)
}

/// Ends the connections of a relay that is closed: what waits in a read at once, and some time later what waits for a link.
pub fn end_connections<R: Threads + Wait + Clock + Copy + Send + 'static, E: Sink + Drop>(
    rt: R,
    alloc: Global,
    serving: &Serving<E>,
    is_ending: &Arc<AtomicBool>,
) -> Vec<ConnEnd> {
    serving.shut_down(&rt, Side::Read);
    if start_ending_links(rt, is_ending).is_err() {
        end_links(&rt, is_ending);
    }
    serving.wait_for_all(&rt);
    serving.take_ends(&rt, alloc)
}
