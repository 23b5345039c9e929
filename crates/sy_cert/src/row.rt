//! The rows of a certificate.

use sy_script::Items;
use sy_wire::Class;

/// A row of a certificate. Relays are given by their names, of 1 to 64 letters, digits, `-`, `_` and `.`; ports are 1
/// to 65535.
#[derive(Drop)]
pub enum Row {
    /// a protected class, of which the rows after it speak
    Class(Class),
    /// a relay and the port of an input that messages of the class reach, in version 2 without a spare action
    Reach {
        relay: Items<u8>,
        port: u16,
    },
    /// a relay and the port of an input that messages of the class reach only by way of a spare action; in version 2
    Branch {
        relay: Items<u8>,
        port: u16,
    },
    /// a relay and its rank, which is above those of the relays that it forwards such messages to
    Rank {
        relay: Items<u8>,
        rank: u32,
    },
    /// a relay and the number of a list there that posts lead such messages to, and a number that is above those of the
    /// lists that its own posts lead them to
    Inner {
        relay: Items<u8>,
        list: u32,
        number: u32,
    },
    /// an entry's relay and port, the archive's relay and its action's name there (of any bytes but space, tab and LF),
    /// and the occurrences of the posts and forwards from the one to the other, each below 64
    Path {
        relay: Items<u8>,
        port: u16,
        archive_relay: Items<u8>,
        action: Items<u8>,
        occurrences: Items<u8>,
    },
}
