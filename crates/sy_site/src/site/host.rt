//! Where relays, and receivers that aren't Syc's, are reached.

ghost use Rattle.std.specs.Prelude.{◌≡◌};
ghost use Rattle.std.specs.Option.{option_copied};
ghost use Rattle.sy_site.specs.Sites as spec;

use std::net::IpAddr;
use sy_script::Items;

/// Where others connect: an address, or the name of a host, which is resolved at each connect.
#[derive(Drop)]
pub enum Host {
    Address(IpAddr),
    Name(Items<u8>),
}

/// A receiver that isn't Syc's: the name that a forward's target has, where it is reached, and its port.
#[derive(Drop)]
pub struct Outside {
    pub name: Items<u8>,
    pub host: Host,
    pub port: u16,
}

/// Where the first receiver of a name and a port is reached.
pub fn outside_named<'o>(outsides: &'o [Outside], name: &[u8], port: u16) -> Option<&'o Host>
    ensures { option_copied result ≡ spec.outside_named outsides.now name.now port }
{
    let mut rest = outsides;
    while let [first, behind @ ..] = rest {
        if first.name.as_slice() == name && first.port == port {
            return Some(&first.host);
        }
        rest = behind;
    }
    None
}
