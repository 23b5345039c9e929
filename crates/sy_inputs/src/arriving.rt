//! What arrives of a connection while its reader waits for none.
ghost use Rattle.std.specs.Prelude.{None};

use std::cell::Cell;
use std::io;
use std::io::{ErrorKind, Read};
use std::net::TcpStream;
use sy_wire::PIECE;

/// What its host had of a connection when it was last asked.
#[derive(Clone, Copy, PartialEq, Eq)]
pub enum Arrival {
    /// It wasn't asked.
    NotAsked,
    /// As much as there was room for, so maybe more, or a read that is to be made again.
    Full,
    /// Less than there was room for.
    Short,
    /// The end.
    End,
    /// Nothing yet.
    Nothing,
    /// It couldn't be read.
    Failed,
}

/// A connection whose reader waits for none, and what its host had of it when it was last asked.
#[derive(Drop)]
pub struct Arriving<'a> {
    stream: &'a TcpStream,
    arrival: Cell<Arrival>,
    // how many bytes may be read yet, so that others have their turn
    left: Cell<usize>,
}

impl<'a> Arriving<'a> {
    /// It wasn't asked yet.
    pub fn new(stream: &'a TcpStream) -> Arriving<'a> {
        Arriving {
            stream,
            arrival: Cell::new(Arrival::NotAsked),
            left: Cell::new(PIECE),
        }
    }

    /// What its host had when it was last asked.
    pub fn arrival(&self) -> Arrival {
        self.arrival.get()
    }
}

// What it says of a read that it failed so.
fn arrival_of(kind: ErrorKind) -> Arrival {
    match kind {
        ErrorKind::WouldBlock => Arrival::Nothing,
        ErrorKind::Interrupted => Arrival::Full,
        _ => Arrival::Failed,
    }
}

impl Read for &Arriving<'_> {
    fn read(&mut self, buf: &mut [u8]) -> io::Result<usize> {
        let room = buf.len();
        let left = self.left.get();
        if left == 0 {
            self.arrival.set(Arrival::Full);
            return Err(io::Error::from(ErrorKind::WouldBlock));
        }
        let mut stream = self.stream;
        match stream.read(buf) {
            Ok(count) => {
                self.left.set(left.saturating_sub(count));
                self.arrival.set(if count == 0 {
                    Arrival::End
                } else if count < room {
                    Arrival::Short
                } else {
                    Arrival::Full
                });
                Ok(count)
            }
            Err(error) => {
                self.arrival.set(arrival_of(error.kind()));
                Err(error)
            }
        }
    }
}
