//! Peers that vanished: the host asks those that are silent whether they are still there.

use libc::net as c;
use std::net::TcpStream;
use std::os::fd::AsRawFd;
use sy_host_parameters::ReceiverHost;

// An option's value, as the host reads it.
fn value_of(number: u64) -> [u8; 16] {
    let number = i32::try_from(number).unwrap_or(i32::MAX);
    let mut value = [0u8; 16];
    value[..4].copy_from_slice(&number.to_ne_bytes());
    value
}

/// Has the host ask the peer of a connection, once it is silent, whether it is still there, where that is to be done. A host that can't
/// leaves it as it is.
pub fn keep_alive(stream: &TcpStream, does: ReceiverHost) {
    if !does.is_kept_alive {
        return;
    }
    let (time, interval, probes) = (does.time, does.interval, does.probes);
    let at = stream.as_raw_fd();
    let _ = unsafe { c::setsockopt(at, c::SOL_SOCKET, c::SO_KEEPALIVE, &value_of(1), 4) };
    let _ = unsafe { c::setsockopt(at, c::IPPROTO_TCP, c::TCP_KEEPIDLE, &value_of(time), 4) };
    let _ = unsafe { c::setsockopt(at, c::IPPROTO_TCP, c::TCP_KEEPINTVL, &value_of(interval), 4) };
    let _ = unsafe { c::setsockopt(at, c::IPPROTO_TCP, c::TCP_KEEPCNT, &value_of(probes), 4) };
}
