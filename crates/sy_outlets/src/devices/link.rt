//! The link of a forward.
ghost use Rattle.std.specs.Prelude.{◌≡◌, ◌≢◌, ◌<◌, length, IfErr, IfNone, IfSome, OnSome};

use crate::devices::link_writer::{LinkWriter, end, is_open};
use std::alloc::{AllocError, Global};
use std::io;
use std::net::{SocketAddr, TcpStream, ToSocketAddrs};
use std::sync::Arc;
use std::sync::atomic::{AtomicBool, Ordering};
use std::time::Duration;
use sy_actions::{Device, DeviceFault, FrameSink};
use sy_log::log::ActionLog;
use sy_report::texts::reason::Reason;
use sy_wire::Message;

/// In how many milliseconds a link has to come about.
const CONNECT_WAIT: u64 = 2000;

/// How many addresses of a name are tried.
const MOST_ADDRESSES: usize = 4;

/// How many milliseconds a write waits before it is looked at whether it is still of use.
const WRITE_WAIT: u64 = 1000;

/// The far end of a link.
#[derive(Drop)]
pub enum Far {
    Address(SocketAddr),
    /// A host by its name, which is resolved at each connect, and its port.
    Name(String, u16),
}

// A link that is there.
struct Connected {
    stream: Arc<TcpStream>,
    sink: FrameSink<LinkWriter>,
}

impl Drop for Connected {
    fn drop(self) {
        end(&self.stream);
        let Connected { stream, sink } = self;
        drop(sink);
        drop(stream);
    }
}

/// The link of a forward: frames are written to it, and it is connected when it is offered a message and isn't yet.
///
/// One that failed, or that the receiver closed, is dropped, and the next offer connects a new one. So a frame that
/// wasn't written whole is written from its beginning, on another link.
#[derive(Drop)]
pub struct Link {
    rt: HostRuntime,
    alloc: Global,
    far: Far,
    is_ending: Arc<AtomicBool>,
    log: ActionLog,
    link: Option<Connected>,
}

// A stream to that address, whose writes have a time limit.
fn stream_to(rt: &HostRuntime, address: &SocketAddr) -> io::Result<TcpStream> {
    let stream = TcpStream::connect_timeout(rt, address, Duration::from_millis(CONNECT_WAIT))?;
    stream.set_write_timeout(Some(Duration::from_millis(WRITE_WAIT)))?;
    stream.set_nodelay(true)?;
    Ok(stream)
}

// A stream to a host of that name, which is resolved: to the first of a few of its addresses to which one comes about, or why there is none to
// the last that was tried.
fn stream_to_name(
    rt: &HostRuntime,
    name: &str,
    port: u16,
    is_ending: &AtomicBool,
) -> Result<TcpStream, Reason> {
    let Ok(addresses) = (name, port).to_socket_addrs(rt) else {
        return Err(Reason::NoName);
    };
    let mut last = Reason::NoName;
    let mut left = MOST_ADDRESSES;
    for address in addresses {
        if left == 0 {
            return Err(last);
        }
        if is_ending.load(Ordering::SeqCst) {
            return Err(Reason::Ending);
        }
        left -= 1;
        match stream_to(rt, &address) {
            Ok(stream) => return Ok(stream),
            Err(error) => last = Reason::of(&error),
        }
    }
    Err(last)
}

// A stream to the far end.
fn stream_to_far(rt: &HostRuntime, far: &Far, is_ending: &AtomicBool) -> Result<TcpStream, Reason> {
    match far {
        Far::Address(address) => match stream_to(rt, address) {
            Ok(stream) => Ok(stream),
            Err(error) => Err(Reason::of(&error)),
        },
        Far::Name(name, port) => stream_to_name(rt, name.as_str(), *port, is_ending),
    }
}

// A link of this stream.
fn link_of(
    alloc: Global,
    stream: TcpStream,
    is_ending: &Arc<AtomicBool>,
    log: &ActionLog,
) -> Result<Connected, AllocError> {
    let Ok(stream) = Arc::new(alloc, stream) else {
        return Err(AllocError);
    };
    let written = Arc::try_clone(&stream)?;
    let is_ending = Arc::try_clone(is_ending)?;
    let sink = FrameSink::new(alloc, LinkWriter::new(written, is_ending, log.try_clone()?));
    Ok(Connected { stream, sink })
}

// A new link to the far end, or why there is none.
fn connect(
    rt: &HostRuntime,
    alloc: Global,
    far: &Far,
    is_ending: &Arc<AtomicBool>,
    log: &ActionLog,
) -> Result<Connected, Reason> {
    let stream = stream_to_far(rt, far, is_ending)?;
    match link_of(alloc, stream, is_ending, log) {
        Ok(link) => Ok(link),
        Err(_) => Err(Reason::NoMemory),
    }
}

impl Link {
    /// A link to this far end, which isn't connected yet. Once the flag is set, none of its writes waits.
    pub fn new(
        rt: HostRuntime,
        alloc: Global,
        far: Far,
        is_ending: Arc<AtomicBool>,
        log: ActionLog,
    ) -> Link {
        Link {
            rt,
            alloc,
            far,
            is_ending,
            log,
            link: None,
        }
    }

    // Has a link, where one comes about: a new one where there is none, or where the receiver has closed it.
    fn renew(&mut self) {
        if let Some(link) = &self.link {
            if !is_open(&link.stream) {
                self.link = None;
            }
        }
        if self.link.is_none() {
            match connect(&self.rt, self.alloc, &self.far, &self.is_ending, &self.log) {
                Ok(link) => self.link = Some(link),
                Err(reason) => self.log.because(reason),
            }
        }
    }

    /// Offers a message, and drops the link where that fails.
    pub fn offer(&mut self, message: &Arc<Message>) -> Result<(), DeviceFault>
        ensures { IfErr result (λ f. f ≢ DeviceFault.CountFull) }
    {
        self.renew();
        let Some(link) = &mut self.link else {
            return Err(DeviceFault::Broken);
        };
        match link.sink.offer(message) {
            Ok(()) => Ok(()),
            Err(fault) => {
                self.link = None;
                Err(fault)
            }
        }
    }

    /// Offers messages, up to the first that fails, and drops the link then.
    pub fn offer_all(&mut self, messages: &[Arc<Message>]) -> (usize, Option<DeviceFault>)
        requires { 0 < length messages.now }
        ensures all { IfNone result.1 (result.0 ≡ length messages.now) }
        ensures some { OnSome result.1 (result.0 < length messages.now) }
        ensures own { IfSome result.1 (λ f. f ≢ DeviceFault.CountFull) }
    {
        self.renew();
        let Some(link) = &mut self.link else {
            return (0, Some(DeviceFault::Broken));
        };
        match link.sink.offer_all(messages) {
            (taken, None) => (taken, None),
            (taken, Some(fault)) => {
                self.link = None;
                (taken, Some(fault))
            }
        }
    }
}
