//! The ports that a relay listens at.
ghost use Rattle.std.specs.Prelude.{◌≡◌, ◌≤◌, IfOk, length, map};
ghost use Rattle.sy_outlets.specs.Ports.{ports_from};
ghost use Rattle.sy_inputs.specs.Listened.{at_of};

use libc::net as c;
use std::alloc::Global;
use std::io;
use std::net::{IpAddr, Ipv4Addr, Ipv6Addr, Net, SocketAddr, TcpListener, TcpStream};
use std::os::fd::AsRawFd;
use sy_host_parameters::{ReceiverHost, RelayHost};
use sy_outlets::port::Port;
use sy_report::texts::reason::Reason;
use sy_rules::Input;

// The host's number of an error: it has no addresses of that family (Linux, errno.h).
const NO_FAMILY: i32 = 97;

// How many connections may wait to be accepted; the host cuts it to its own limit.
const BACKLOG: i32 = 4096;

/// An input, what listens at its port, and what the host is to do for its connections.
#[derive(Drop)]
pub struct Listening {
    pub at: Port,
    pub listener: TcpListener,
    pub does: ReceiverHost,
}

/// Why a relay doesn't listen.
#[derive(Clone, Copy)]
pub enum ListenFault {
    /// This port can't be listened at, for this reason.
    Bind(u16, Reason),
    NoMemory,
}

// Listens at that port of all addresses: those of IPv6 and IPv4, or of IPv4 where the host has no other.
fn bind_all<R: Net<Listener = TcpListener, Stream = TcpStream>>(
    rt: &R,
    port: u16,
) -> io::Result<TcpListener> {
    let all = SocketAddr::new(IpAddr::V6(Ipv6Addr::UNSPECIFIED), port);
    match TcpListener::bind(rt, all) {
        Ok(listener) => Ok(listener),
        Err(error) if error.raw_os_error() == Some(NO_FAMILY) => {
            TcpListener::bind(rt, SocketAddr::new(IpAddr::V4(Ipv4Addr::UNSPECIFIED), port))
        }
        Err(error) => Err(error),
    }
}

// Listens at that port of an address, or of all.
fn bind<R: Net<Listener = TcpListener, Stream = TcpStream>>(
    rt: &R,
    address: Option<IpAddr>,
    port: u16,
) -> io::Result<TcpListener> {
    match address {
        Some(address) => TcpListener::bind(rt, SocketAddr::new(address, port)),
        None => bind_all(rt, port),
    }
}

// Listens at the port of an input.
fn listen<R: Net<Listener = TcpListener, Stream = TcpStream>>(
    rt: &R,
    address: Option<IpAddr>,
    at: Port,
    does: ReceiverHost,
) -> Result<Listening, ListenFault>
    ensures { IfOk result (λ listening. listening.at ≡ at) }
{
    match bind(rt, address, at.port) {
        Ok(listener) => {
            // (a host that can't have so many wait has fewer)
            let _ = c::listen(listener.as_raw_fd(), BACKLOG);
            Ok(Listening { at, listener, does })
        }
        Err(error) => Err(ListenFault::Bind(at.port, Reason::of(&error))),
    }
}

/// Listens at the ports of all inputs, of an address or of all, or at none.
pub fn listen_all<R: Net<Listener = TcpListener, Stream = TcpStream>>(
    rt: &R,
    alloc: Global,
    address: Option<IpAddr>,
    inputs: &[Input],
    does: &RelayHost,
) -> Result<Vec<Listening>, ListenFault>
    requires { length inputs.now ≤ 64 }
    ensures { IfOk result (λ all. map at_of all.items ≡ ports_from 0 inputs.now) }
{
    let mut found = Vec::new(alloc);
    let mut number = 0;
    for input in inputs {
        let at = Port {
            input: number,
            port: input.port,
        };
        let listening = listen(rt, address, at, does.receiver(number as usize))?;
        let Ok(()) = found.push(listening) else {
            return Err(ListenFault::NoMemory);
        };
        number += 1;
    }
    Ok(found)
}
