//! Which hosts are one.
ghost use Rattle.std.specs.Prelude.{◌≡◌, Decides};
ghost use Rattle.sy_endpoints.specs.Hosts as spec;

use std::net::IpAddr;
use sy_site::Host;

/// Where something is reached.
#[derive(Clone, Copy)]
pub enum Peer<'a> {
    Address(IpAddr),
    /// The name of a host, which is resolved at each connect.
    Name(&'a [u8]),
}

/// The same of a relay, or of a receiver.
pub fn peer_of(host: &Host) -> Peer<'_>
    ensures { spec.host_of result ≡ host.now }
{
    match host {
        Host::Address(address) => Peer::Address(*address),
        Host::Name(name) => Peer::Name(name.as_slice()),
    }
}

fn segments(address: IpAddr) -> [u16; 8]
    ensures { result ≡ spec.segments address }
{
    match address {
        IpAddr::V4(address) => address.to_ipv6_mapped().segments(),
        IpAddr::V6(address) => address.segments(),
    }
}

// Whether two addresses are one.
fn is_same_address(one: IpAddr, other: IpAddr) -> bool
    ensures { Decides result (spec.segments one ≡ spec.segments other) }
{
    segments(one) == segments(other)
}

// Whether two names are one.
fn is_same_name(one: &[u8], other: &[u8]) -> bool
    ensures { Decides result (spec.AreSameNames one.now other.now) }
{
    one.eq_ignore_ascii_case(other)
}

/// Whether both are one host, by what is written.
pub fn is_same(one: Peer<'_>, other: Peer<'_>) -> bool
    ensures { Decides result (spec.AreSame (spec.host_of one.entry) (spec.host_of other.entry)) }
{
    match (one, other) {
        (Peer::Address(one), Peer::Address(other)) => is_same_address(one, other),
        (Peer::Name(one), Peer::Name(other)) => is_same_name(one, other),
        (Peer::Address(_), Peer::Name(_)) => false,
        (Peer::Name(_), Peer::Address(_)) => false,
    }
}

// Whether it is all addresses of a host.
fn is_all(peer: Peer<'_>) -> bool
    ensures { Decides result (spec.IsAll (spec.host_of peer.entry)) }
{
    match peer {
        Peer::Address(address) => address.is_unspecified(),
        Peer::Name(_) => false,
    }
}

/// Whether both may be one host: they are the same, or one of them is all addresses.
pub fn may_be_one(one: Peer<'_>, other: Peer<'_>) -> bool
    ensures { Decides result (spec.MayBeOne (spec.host_of one.entry) (spec.host_of other.entry)) }
{
    if is_all(one) {
        return true;
    }
    if is_all(other) {
        return true;
    }
    is_same(one, other)
}

// Whether it leads back to the host that it is used on.
fn is_loopback(peer: Peer<'_>) -> bool
    ensures { Decides result (spec.IsLoopback (spec.host_of peer.entry)) }
{
    match peer {
        Peer::Address(address) => address.is_loopback(),
        Peer::Name(name) => is_same_name(name, b"localhost"),
    }
}

// Whether what listens at all addresses, or at this one, hears what is sent there.
fn hears(listens: Option<IpAddr>, peer: Peer<'_>) -> bool
    ensures { Decides result (spec.Hears listens (spec.host_of peer.entry)) }
{
    match listens {
        Some(address) => hears_at(address, peer),
        None => is_loopback(peer),
    }
}

// The same of what listens at an address.
fn hears_at(address: IpAddr, peer: Peer<'_>) -> bool
    ensures { Decides result (spec.HearsAt address (spec.host_of peer.entry)) }
{
    if address.is_unspecified() {
        return is_loopback(peer);
    }
    is_same(Peer::Address(address), peer)
}

/// Whether it leads to a relay that is reached there and listens there.
pub fn is_home(host: Peer<'_>, listens: Option<IpAddr>, peer: Peer<'_>) -> bool
    ensures { Decides result (spec.IsHome (spec.host_of host.entry) listens (spec.host_of peer.entry)) }
{
    if is_same(host, peer) {
        return true;
    }
    hears(listens, peer)
}

// Whether an address is of no host.
fn is_of_no_host(address: IpAddr) -> bool
    ensures { Decides result (spec.IsOfNoHost address) }
{
    if address.is_unspecified() {
        return true;
    }
    if address.is_multicast() {
        return true;
    }
    match address {
        IpAddr::V4(address) => address.is_broadcast(),
        IpAddr::V6(_) => false,
    }
}

/// Whether no host is reached there. Of a name that isn't known.
pub fn is_no_host(peer: Peer<'_>) -> bool
    ensures { Decides result (spec.IsNoHost (spec.host_of peer.entry)) }
{
    match peer {
        Peer::Address(address) => is_of_no_host(address),
        Peer::Name(_) => false,
    }
}
