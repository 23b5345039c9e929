//! Accepting the connections of an input.

use crate::connector::Connector;
use crate::incoming::Accepted;
use crate::keep_alive::keep_alive;
use crate::listening::Listening;
use crate::pool::Pool;
use crate::reading::{Shared, start_readers};
use crate::serving::Serving;
use crate::sessions::Sessions;
use std::alloc::{AllocError, Global};
use std::net::{Net, TcpListener, TcpStream};
use std::os::fd::AsRawFd;
use std::sync::{Arc, Wait};
use std::thread;
use std::thread::Threads;
use std::time::{Clock, Duration, Instant};
use sy_host_parameters::ReceiverHost;
use sy_outlets::port::Port;
use sy_wire::Sink;

/// How many milliseconds a failed accept waits before it is tried again, and whoever waits for a connection to end before it looks whether the relay stops.
const ACCEPT_PAUSE: u64 = 100;

/// For how many connections there is room before one is accepted: one for each accept loop that there may be.
const ROOM: usize = 64;

/// For how many seconds nothing more is told of what kept connections waiting.
const QUIET: u64 = 10;

// What accepts the connections of an input.
#[derive(Drop)]
struct Acceptor<E: Drop> {
    serving: Arc<Serving<E>>,
    pool: Arc<Pool>,
    sessions: Arc<Sessions>,
    at: Port,
    listener: TcpListener,
    does: ReceiverHost,
}

// Accepts the next connection; none where the relay stops. Whatever memory it takes it has before.
fn accept<R: Wait, E: Sink + Drop>(
    rt: &R,
    of: &Acceptor<E>,
) -> Result<Option<Accepted>, AllocError> {
    of.serving.make_room(rt, ROOM)?;
    of.pool.make_room(rt)?;
    let Ok((stream, peer)) = of.listener.accept() else {
        return Err(AllocError);
    };
    if of.serving.is_stopping() {
        return Ok(None);
    }
    keep_alive(&stream, of.does);
    let Ok(()) = stream.set_nonblocking(true) else {
        return Err(AllocError);
    };
    let place = of.serving.enter(rt, stream.as_raw_fd())?;
    of.sessions.begin();
    of.serving.watch().connection_begins(of.at.input);
    Ok(Some(Accepted {
        peer,
        stream,
        place,
    }))
}

// What is told while connections have to wait.
#[derive(Drop)]
struct Told {
    // whether it was told that they wait
    is_told: bool,
    // when it was told last
    at: Option<Instant>,
}

impl Told {
    // Whether it was told less than some seconds ago.
    fn is_recent<R: Clock>(&self, rt: &R) -> bool {
        match self.at.map(|it| it.elapsed(rt)) {
            Some(Ok(spent)) => spent < Duration::from_secs(QUIET),
            _ => false,
        }
    }

    // Tells why they wait, once until they don't, and not again too soon.
    fn begin<R: Wait + Clock, E: Sink + Drop>(
        &mut self,
        rt: &R,
        serving: &Serving<E>,
        port: u16,
        why: &[u8],
    ) {
        if self.is_told || self.is_recent(rt) {
            return;
        }
        serving.report_at_port(rt, why, port);
        self.is_told = true;
        self.at = Instant::now(rt).ok();
    }

    // Tells that they are accepted again, where the other was told.
    fn end<R: Wait, E: Sink + Drop>(&mut self, rt: &R, serving: &Serving<E>, port: u16) {
        if self.is_told {
            serving.report_at_port(rt, b"connections are accepted again", port);
            self.is_told = false;
        }
    }
}

// Accepts connections until nothing new is to be accepted. Where as many are open as may be it waits until one ends, and the next ones wait with their
// host; an accept that fails is tried again.
fn accept_all<R: Wait + Clock, E: Sink + Drop>(rt: &R, alloc: Global, of: &Acceptor<E>) {
    let pause = Duration::from_millis(ACCEPT_PAUSE);
    let (serving, port) = (&*of.serving, of.at.port);
    let mut told = Told {
        is_told: false,
        at: None,
    };
    for _ in rt.forever() {
        if serving.is_stopping() {
            return;
        }
        if of.sessions.is_full() {
            told.begin(rt, serving, port, b"as many connections are open as may be");
            of.sessions.wait(rt, pause);
            continue;
        }
        match accept(rt, of) {
            Ok(Some(accepted)) => {
                of.pool.insert(rt, alloc, accepted);
                told.end(rt, serving, port);
            }
            Ok(None) => return,
            Err(_) => {
                told.begin(rt, serving, port, b"accept failed");
                thread::sleep(rt, pause);
            }
        }
    }
}

// Accepts connections, and listens no more once that ends.
fn accept_and_close<R: Wait + Clock + Drop, E: Sink + Drop>(rt: R, alloc: Global, of: Acceptor<E>) {
    accept_all(&rt, alloc, &of);
    of.pool.close(&rt);
    let Acceptor {
        serving,
        listener,
        ..
    } = of;
    drop(listener);
    serving.end_loop(&rt);
}

// How many readers an input is to have: as many as there are processors.
fn wanted_readers<R: Threads>(rt: &R) -> usize {
    match thread::available_parallelism(rt) {
        Ok(processors) => processors.get(),
        Err(_) => 1,
    }
}

// Has a thread of its own start the readers of an input.
fn start_reading<
    R: Threads + Wait + Clock + Copy + Send + 'static,
    C: Connector + Send + Sync + 'static,
    E: Sink + Drop + Send + 'static,
>(rt: R, alloc: Global, shared: Shared<C, E>) -> Result<(), AllocError> {
    match thread::spawn(&rt, move || start_readers(rt, alloc, shared)) {
        Ok(_thread) => Ok(()),
        Err(_) => Err(AllocError),
    }
}

/// Has threads of their own accept the connections of an input and read them, until nothing new is to be accepted and none is left.
pub fn start_accepting<
    R: Threads
        + Wait
        + Clock
        + Net<Listener = TcpListener, Stream = TcpStream>
        + Copy
        + Send
        + 'static,
    C: Connector + Send + Sync + 'static,
    E: Sink + Drop + Send + 'static,
>(
    rt: R,
    alloc: Global,
    relay: &Arc<C>,
    serving: &Arc<Serving<E>>,
    listening: Listening,
) -> Result<(), AllocError> {
    let Listening { at, listener, does } = listening;
    let pool = Arc::new(alloc, Pool::new(&rt, alloc, wanted_readers(&rt))?)?;
    let most = usize::try_from(does.max_sessions).unwrap_or(usize::MAX);
    let sessions = Arc::new(alloc, Sessions::new(most))?;
    let acceptor = Acceptor {
        serving: Arc::try_clone(serving)?,
        pool: Arc::try_clone(&pool)?,
        sessions: Arc::try_clone(&sessions)?,
        at,
        listener,
        does,
    };
    let shared = Shared {
        relay: Arc::try_clone(relay)?,
        serving: Arc::try_clone(serving)?,
        pool,
        sessions,
        at,
    };
    start_reading(rt, alloc, shared)?;
    serving.begin_loop(&rt);
    match thread::spawn(&rt, move || accept_and_close(rt, alloc, acceptor)) {
        Ok(_thread) => Ok(()),
        Err(_) => {
            serving.end_loop(&rt);
            Err(AllocError)
        }
    }
}
