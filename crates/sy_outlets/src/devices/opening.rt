//! The devices of the host.

use crate::devices::archive::Archive;
use crate::devices::host_device::Taker;
use crate::devices::link::{Far, Link};
use crate::rotation::reopens::Reopens;
use std::alloc::Global;
use std::net::SocketAddr;
use std::str;
use std::sync::Arc;
use std::sync::atomic::AtomicBool;
use sy_endpoints::hosts::Peer;
use sy_endpoints::outlets::{Outlet, connection};
use sy_host_parameters::ArchiveHost;
use sy_log::log::ActionLog;

/// What devices look at.
#[derive(Drop)]
pub struct Signals {
    /// Set once none of their writes is to wait.
    pub is_ending: Arc<AtomicBool>,
    /// What asks for archives to be opened anew.
    pub reopens: Arc<Reopens>,
}

impl Signals {
    /// Nothing is asked yet; none where memory runs out.
    pub fn new(alloc: Global) -> Option<Signals> {
        let is_ending = Arc::new(alloc, AtomicBool::new(false)).ok()?;
        let reopens = Arc::new(alloc, Reopens::new(alloc)).ok()?;
        Some(Signals { is_ending, reopens })
    }
}

/// Why there is no device.
#[derive(Clone, Copy)]
pub enum OpenFault {
    /// The file can't be opened for appending, or its name isn't UTF-8.
    Write,
    /// What has its name is no regular file, and is to be one.
    NotRegular,
    /// Its owner, or its group, is none of this host.
    NoUser,
    NoGroup,
    /// Another process writes to it.
    Locked,
    NoMemory,
}

fn archive(
    rt: HostRuntime,
    alloc: Global,
    (name, does): (&[u8], ArchiveHost),
    reopens: &Arc<Reopens>,
    log: ActionLog,
) -> Result<Taker, OpenFault> {
    let Ok(name) = str::from_utf8(name) else {
        return Err(OpenFault::Write);
    };
    let Ok(name) = String::from_str(alloc, name) else {
        return Err(OpenFault::NoMemory);
    };
    let Ok(reopens) = Arc::try_clone(reopens) else {
        return Err(OpenFault::NoMemory);
    };
    match Archive::open(rt, alloc, (name, does), reopens, log) {
        Ok(archive) => Ok(Taker::Archive(archive)),
        Err(fault) => Err(fault),
    }
}

// The far end of a link to that host and port; none where there is no memory for a name.
fn far(alloc: Global, peer: Peer<'_>, port: u16) -> Option<Far> {
    match peer {
        Peer::Address(address) => Some(Far::Address(SocketAddr::new(address, port))),
        Peer::Name(name) => {
            let name = String::from_str(alloc, str::from_utf8(name).ok()?).ok()?;
            Some(Far::Name(name, port))
        }
    }
}

fn link(
    rt: HostRuntime,
    alloc: Global,
    (peer, port): (Peer<'_>, u16),
    is_ending: &Arc<AtomicBool>,
    log: ActionLog,
) -> Result<Taker, OpenFault> {
    let Some(far) = far(alloc, peer, port) else {
        return Err(OpenFault::NoMemory);
    };
    match Arc::try_clone(is_ending) {
        Ok(is_ending) => Ok(Taker::Link(Link::new(rt, alloc, far, is_ending, log))),
        Err(_) => Err(OpenFault::NoMemory),
    }
}

/// What takes the messages that are brought there. A file is opened for appending, by what its host is to do for it, and anew as that is
/// asked for; a link is connected when it is needed. Why an offer fails is noted.
pub fn taker(
    rt: HostRuntime,
    alloc: Global,
    (outlet, does): (Outlet<'_>, ArchiveHost),
    signals: &Signals,
    log: ActionLog,
) -> Result<Taker, OpenFault> {
    if let Outlet::File(name) = outlet {
        return archive(rt, alloc, (name, does), &signals.reopens, log);
    }
    match connection(outlet) {
        Some(to) => link(rt, alloc, to, &signals.is_ending, log),
        None => Ok(Taker::Nothing),
    }
}
